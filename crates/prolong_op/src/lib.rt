//! Coarser blocks split into finer ones.
#![tactic(auto)]

mod cells;
mod common;
mod edges;
mod faces;
mod inner;
pub mod laws;

pub use cells::split_cells;
pub use edges::split_edges;
pub use faces::split_faces;
pub use inner::{Inner, Outer, inner_faces};

#[cfg(test)]
mod tests;
