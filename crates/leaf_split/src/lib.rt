//! What a child of a leaf would hold, were the leaf refined: its parts of the leaf's numbers, and on its boundary the numbers
//! of the leaves of its level that stand there.
#![tactic(auto)]

mod edges;
mod faces;

pub use edges::child_edges;
pub use faces::child_faces;

#[cfg(test)]
mod tests;
