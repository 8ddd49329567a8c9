// Checkpoints in the two areas of a disk. An area is a gate byte and an image; it is open where the gate is 1. A
// checkpoint is written into the area that is not the newer one, behind a closed gate, and the gate is opened once the
// image is synced. So a crash at any moment leaves the older or the newer mesh, whole.
#![tactic(auto)]

pub mod laws;
pub mod list_pieces;
pub mod look;
pub mod newest;
#[cfg(test)]
mod newest_tests;
pub mod pieces;
pub mod put;
pub mod save;
pub mod steps;
pub mod target;
#[cfg(test)]
mod tests;
