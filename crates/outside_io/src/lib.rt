// The outside of a program as three traits: a source of bytes, a sink of bytes, and a disk of two areas.
#![tactic(auto)]

mod calls;
#[cfg(test)]
mod crash_tests;
pub mod disk;
#[cfg(test)]
mod edge_tests;
mod faults;
pub mod folder_disk;
pub mod history;
pub mod memory_area;
pub mod memory_areas;
pub mod memory_disk;
pub mod memory_sink;
pub mod memory_source;
pub mod pending;
pub mod sink;
pub mod source;
pub mod std_sink;
pub mod std_source;
#[cfg(test)]
mod tests;

/// A call on the outside failed.
#[derive(Clone, Copy, Debug, PartialEq, Eq)]
pub struct Failed;
