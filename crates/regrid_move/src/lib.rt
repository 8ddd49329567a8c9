//! A world on the tree after refining and merging.
//!
//! A second world is made beside the first, each of its leaves gets the old mesh's views, and it is put in place at the
//! end. So a refusal leaves the first as it was.
#![tactic(auto)]

mod axes;
mod kinds;
mod leaves;
mod moving;
mod ranging;
mod regridding;
mod splitting;

pub use regridding::{RegridStop, regrid};

#[cfg(test)]
mod tests;
