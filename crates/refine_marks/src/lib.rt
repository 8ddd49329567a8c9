//! Marks on the leaves of a tree, and the closure that the level rule needs.
//!
//! A leaf is refined where a chain of leaves leads to it from a marked one, each touching the one before and one
//! level coarser. A parent is merged where its eight children are leaves that are marked to be merged and stay
//! otherwise, and merging it keeps the level rule beside all others that are refined or merged.
#![tactic(auto)]

mod flag_lists;
mod merging;
mod neighbours;
mod plan;
mod refining;
mod setters;

pub use plan::{Plan, close};
pub use setters::{LevelStop, SetMarks};

#[cfg(test)]
mod tests;
