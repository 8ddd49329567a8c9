//! The face variable from numbers on edges: each face takes the circulation of the edges round it, or loses that of their
//! electromotive forces.
#![tactic(auto)]

mod circling;
mod forces;
pub mod laws;

pub use circling::{RangeAt, apply, curl};
pub use forces::edge_values;

#[cfg(test)]
mod tests;
