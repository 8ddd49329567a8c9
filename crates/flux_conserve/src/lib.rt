//! Fluxes that agree at jumps of level: each coarse face there takes the sum of the finer faces beside it.
#![tactic(auto)]

mod correcting;
mod faces;
mod jumps;
pub mod laws;
mod sums;

pub use correcting::{correct, correct_faces};
pub use jumps::{has_jump, is_at_jump};

#[cfg(test)]
mod tests;
