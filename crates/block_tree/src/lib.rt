//! The oct-tree of blocks: its nodes in Morton order, and marks on its leaves.
//!
//! A node is named by its number, which is its place among all nodes of the tree in Morton order, from 0, so that
//! a parent stands before its children.
#![tactic(auto)]

mod beside;
mod blocks;
mod directions;
mod forest;
mod interior;
mod marks;
mod places;
mod rule;
mod search;
mod tree;

pub use beside::{block_beside, finer_beside};
pub use directions::{
    Direction, Round, block_toward, direction_at, direction_bit, finer_parts, node_round,
};
pub use interior::{array_on, axes_of, places_along};
pub use marks::Marks;
pub use tree::{GrowStop, KindsStop, NodeKind, Tree};

#[cfg(test)]
mod tests;
