//! Meshes as bytes.
#![tactic(auto)]

mod head;
pub mod laws;
mod leaves;
mod names;
mod own;
mod reading;
mod rows;
pub mod writer;

pub use own::Own;
pub use reading::{Image, ImageStop, read_image};
pub use writer::ImageWriter;

#[cfg(test)]
mod read_tests;
#[cfg(test)]
mod tests;
#[cfg(test)]
mod writer_tests;
