//! The world of an image: a tree with the numbers that an image has of its cells, its leaf faces and its leaf edges.
#![tactic(auto)]

mod filling;
mod leaves;
mod places;
mod sources;
mod world;

pub use world::world_of;

#[cfg(test)]
mod tests;
