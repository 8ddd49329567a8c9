//! Sums of finer blocks in all nodes above the leaves, and guard cells round the leaves.
#![tactic(auto)]

mod copying;
mod filling;
mod guarding;
pub mod laws;
mod restricting;
mod strips;

pub use filling::{fill, fill_sides};
pub use restricting::restrict_all;

#[cfg(test)]
mod tests;
