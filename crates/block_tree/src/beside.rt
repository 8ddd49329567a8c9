//! Blocks side by side.

ghost use Rattle.block_tree.specs.GridOf.{grid_of};
ghost use Rattle.block_tree.specs.Numbered.{IsNode, block_at};
ghost use Rattle.block_tree.specs.Beside as blocks;
ghost use Rattle.block_tree.specs.Beside.{IsFinerNode};
ghost use Rattle.mesh_model.specs.Geometry.Blocks.{InDomain};
ghost use Rattle.mesh_model.specs.Geometry.Coordinates as coordinates;
ghost use Rattle.mesh_model.specs.Geometry.Limits.{IsShape};
ghost use Rattle.std.specs.Prelude.{◌≡◌, ◌*◌, ◌^◌, ◌<◌, ◌≤◌, MatchOption, None};

use crate::tree::Tree;
use amr_num::{Axis, BlockAt};
use mesh_model::Shape;
use mesh_model::geometry::axes::{block_on, is_periodic, roots};
use mesh_model::geometry::{above, below};

/// `b` with another coordinate on an axis.
fn block_with(axis: Axis, coordinate: u32, b: BlockAt) -> BlockAt
    ensures { result ≡ blocks.block_with axis coordinate b }
{
    match axis {
        Axis::X => BlockAt { x: coordinate, ..b },
        Axis::Y => BlockAt { y: coordinate, ..b },
        Axis::Z => BlockAt { z: coordinate, ..b },
    }
}

/// The coordinate beside one on an axis of `many` blocks.
fn coordinate_beside(periodic: bool, high: bool, many: u32, at: u32) -> Option<u32>
    requires { at < many }
    ensures { result ≡ blocks.beside_on periodic high many at }
{
    if high {
        above(periodic, many, at + 1)
    } else {
        below(periodic, many, at)
    }
}

/// How many blocks of `level` stand side by side on an axis.
pub(crate) fn blocks_on(shape: &Shape, axis: Axis, level: u32) -> u32
    requires shape { IsShape shape.now }
    requires level { level ≤ 10 }
    ensures { result ≡ coordinates.roots shape.now axis * 2 ^ level }
{
    roots(shape, axis) << level
}

/// The block of the same level beside `b` on the low or the high side of an axis, wrapped on a periodic one. `None`
/// exactly where that is a side of the domain.
pub fn block_beside(shape: &Shape, axis: Axis, high: bool, b: BlockAt) -> Option<BlockAt>
    requires shape { IsShape shape.now }
    requires inside { InDomain shape.now b }
    ensures { result ≡ blocks.block_beside shape.now axis high b }
{
    let many = blocks_on(shape, axis, b.level);
    match coordinate_beside(is_periodic(shape, axis), high, many, block_on(axis, b)) {
        Some(coordinate) => Some(block_with(axis, coordinate, b)),
        None => None,
    }
}

/// The split node beside a block on the low or the high side of an axis, wrapped on a periodic one. `None` exactly where
/// no finer leaves stand there.
pub fn finer_beside(tree: &Tree, axis: Axis, high: bool, b: BlockAt) -> Option<u32>
    requires { InDomain (grid_of tree.now).shape b }
    ensures { MatchOption result (blocks.finer_beside (grid_of tree.now) axis high b ≡ None) (IsFinerNode (grid_of tree.now) axis high b) }
{
    let block = block_beside(&tree.shape(), axis, high, b)?;
    let node = tree.node_at(block)?;
    if tree.is_leaf(node) { None } else { Some(node) }
}
