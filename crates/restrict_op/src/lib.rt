//! Sums of finer blocks into coarser ones.
#![tactic(auto)]

mod cells;
mod fine;
pub mod laws;

pub use cells::restrict_cells;
pub use fine::{restrict_edges, restrict_faces};

#[cfg(test)]
mod tests;
