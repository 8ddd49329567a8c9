//! Coordinates, blocks and what touches: nothing here knows of leaves or of numbers.

mod adjacent;
pub mod axes;
mod canonical;
pub mod coordinates;
mod outside;
mod touch;

pub use adjacent::{above, around_edge, below, side_cells};
use amr_num::SideKind;
pub use canonical::canonical_face;
pub use outside::{inside_cell, inside_edge, inside_face};
pub use touch::touches;

/// The shape of a mesh: a box of root blocks, and what all blocks have in common. A mesh has 1 to 8 roots
/// on each axis, 4 or 8 cells along each axis of a block, 1, 2 or 4 guard cells on each side of it, levels
/// of at most 10, and sides of which both or neither of an axis are periodic.
#[derive(Clone, Copy, Debug, PartialEq, Eq)]
pub struct Shape {
    /// Roots on the axis x.
    pub rx: u32,
    /// Roots on the axis y.
    pub ry: u32,
    /// Roots on the axis z.
    pub rz: u32,
    /// Cells along each axis of a block.
    pub n: u32,
    /// Guard cells on each side of a block.
    pub g: u32,
    /// The level that merging leaves.
    pub min: u32,
    /// The level that refining reaches.
    pub max: u32,
    /// What lies beyond the sides, in the order of `Side`.
    pub sides: [SideKind; 6],
}
