//! The plain mesh with its numbers, and its laws; and the parts of a block's boundary.

pub mod boundary;
pub mod laws;
pub mod spot;
pub mod values;
