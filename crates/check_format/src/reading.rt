//! Images that are read.

mod counts;
mod fields;
mod header;
mod images;
mod lists;
mod nodes;
mod numbers;

pub use images::{Image, ImageStop, read_image};
