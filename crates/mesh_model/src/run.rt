//! What commands print, refuse and make of a mesh.

pub mod laws;
pub mod stops;
