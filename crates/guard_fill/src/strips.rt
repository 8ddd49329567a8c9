//! The guard cells of a block that lie in one direction, axis by axis.
//!
//! A direction is 0, 1 or 2 on each axis, as guard cells lie before the block's own cells, beside them or behind them.

ghost use Rattle.guard_fill.specs.Strips.{IsReach, one_more};
ghost use Rattle.mesh_model.specs.Fields.ArrayPlaces.{IsSize};
ghost use Rattle.mesh_model.specs.Geometry.Blocks.{InDomain};
ghost use Rattle.mesh_model.specs.Geometry.Coordinates as coordinates;
ghost use Rattle.mesh_model.specs.Geometry.Limits.{IsShape};
ghost use Rattle.mesh_model.specs.Geometry.Touch as touch;
ghost use Rattle.std.specs.Prelude.{◌≡◌, ◌+◌, ◌*◌, ◌^◌, ◌<◌, ◌≤◌};

use amr_num::{Axis, BlockAt};
use mesh_model::Shape;
use mesh_model::geometry::axes::{block_on, is_periodic, roots};
use mesh_model::geometry::{above, below};

/// Places of an array on an axis, and where their numbers stand: in cells of one block, the first place in the first
/// of them, and each further one in the next cell, or all in the first.
#[derive(Clone, Copy, Debug, PartialEq, Eq)]
pub(crate) struct Strip {
    /// The first place.
    pub to: usize,
    /// How many places there are.
    pub many: usize,
    /// The block's coordinate on the axis.
    pub block: u32,
    /// The first cell.
    pub first: usize,
    /// 1 where each place has a cell of its own, and 0 where all have the first.
    pub step: usize,
}

/// The places of an array in one direction, axis by axis, and the cells of the block in which their numbers stand.
#[derive(Clone, Copy, Debug, PartialEq, Eq)]
pub(crate) struct Patch {
    /// On the axis x.
    pub x: Strip,
    /// On the axis y.
    pub y: Strip,
    /// On the axis z.
    pub z: Strip,
}

/// How many places of its own a block of `n` cells has on an axis: one more where numbers stand at positions.
fn own_places(n: usize, positions: bool) -> usize
    requires { n ≤ 8 }
    ensures value { result ≡ one_more positions n }
    ensures least { n ≤ result }
    ensures most { result ≤ n + 1 }
{
    if positions { n + 1 } else { n }
}

/// The guard cells before a block, on an axis of so many blocks of its level.
fn before(n: usize, g: usize, positions: bool, periodic: bool, blocks: u32, block: u32) -> Strip
    requires size { IsSize n g }
    requires block { block < blocks }
    ensures { IsReach n g positions periodic blocks block 0 result }
{
    let _positions = positions;
    match below(periodic, blocks, block) {
        Some(other) => Strip {
            to: 0,
            many: g,
            block: other,
            first: n - g,
            step: 1,
        },
        None => Strip {
            to: 0,
            many: g,
            block,
            first: 0,
            step: 0,
        },
    }
}

/// The block's own cells.
fn along(n: usize, g: usize, positions: bool, periodic: bool, blocks: u32, block: u32) -> Strip
    requires size { IsSize n g }
    requires block { block < blocks }
    ensures { IsReach n g positions periodic blocks block 1 result }
{
    let _axis = (periodic, blocks);
    Strip {
        to: g,
        many: own_places(n, positions),
        block,
        first: 0,
        step: 1,
    }
}

/// The guard cells behind a block.
fn behind(n: usize, g: usize, positions: bool, periodic: bool, blocks: u32, block: u32) -> Strip
    requires size { IsSize n g }
    requires block { block < blocks }
    ensures { IsReach n g positions periodic blocks block 2 result }
{
    let own = own_places(n, positions);
    match above(periodic, blocks, block + 1) {
        Some(other) => Strip {
            to: g + own,
            many: g,
            block: other,
            first: own - n,
            step: 1,
        },
        None => Strip {
            to: g + own,
            many: g,
            block,
            first: own - 1,
            step: 0,
        },
    }
}

/// The places of a direction.
fn strip_of(
    n: usize,
    g: usize,
    positions: bool,
    periodic: bool,
    blocks: u32,
    block: u32,
    direction: usize,
) -> Strip
    requires size { IsSize n g }
    requires block { block < blocks }
    requires direction { direction < 3 }
    ensures { IsReach n g positions periodic blocks block direction result }
{
    match direction {
        0 => before(n, g, positions, periodic, blocks, block),
        1 => along(n, g, positions, periodic, blocks, block),
        _ => behind(n, g, positions, periodic, blocks, block),
    }
}

/// The places of a block's array in a direction on an axis.
pub(crate) fn strip_on(
    n: usize,
    g: usize,
    positions: bool,
    shape: &Shape,
    axis: Axis,
    block: BlockAt,
    direction: usize,
) -> Strip
    requires size { IsSize n g }
    requires shape { IsShape shape.now }
    requires block { InDomain shape.now block }
    requires direction { direction < 3 }
    ensures { IsReach n g positions (coordinates.is_periodic shape.now axis) (coordinates.roots shape.now axis * 2 ^ block.level) (touch.block_on axis block) direction result }
{
    let blocks = roots(shape, axis) << block.level;
    strip_of(
        n,
        g,
        positions,
        is_periodic(shape, axis),
        blocks,
        block_on(axis, block),
        direction,
    )
}
