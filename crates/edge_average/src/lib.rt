//! Numbers that agree at jumps of level: each coarse face there has the sum of the finer faces beside it, and each coarse
//! edge round which finer leaves stand the sum of its halves.
#![tactic(auto)]

mod agreeing;
mod halving;
pub mod laws;
mod lines;

pub use agreeing::agree;

#[cfg(test)]
mod tests;
