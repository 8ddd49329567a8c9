//! The world of a mesh: its tree, which every rank knows, and the ranks with the arrays of their nodes.
//!
//! There is one rank, and it holds all nodes.
#![tactic(auto)]

mod edges;
mod faces;
mod known;
mod naming;
mod rank;
mod taking;
mod world;

pub use edges::{EdgeAbove, first_edge_above};
pub use faces::{
    FaceAbove, face_told, face_var, first_face_above, first_work_face_above, leaf_faces,
};
pub use known::Known;
pub use rank::Rank;
pub use world::World;

#[cfg(test)]
mod tests;
