//! Fields on the faces and edges of a world, the staggered ones: the face variable set to a uniform field, and single faces
//! and edges that are set.
#![tactic(auto)]

pub mod cells;
mod edge_setting;
mod facing;
mod setting;

pub use edge_setting::{NoEdge, set_edge};
pub use facing::set_uniform;
pub use setting::{NoFace, set_face};

#[cfg(test)]
mod tests;
