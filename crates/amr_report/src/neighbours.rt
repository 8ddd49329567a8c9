//! The blocks of the same level across the sides of a block.

ghost use Rattle.mesh_model.specs.Geometry.Limits.{IsShape};
ghost use Rattle.mesh_model.specs.Tree.Reported as model;
ghost use Rattle.mesh_model.specs.Geometry.Blocks.{InDomain};
ghost use Rattle.std.specs.Prelude.{◌≡◌, ◌≤◌};

use amr_num::{Axis, BlockAt};
use mesh_model::Shape;
use mesh_model::geometry::axes::{block_on, is_periodic, roots};
use mesh_model::geometry::{above, below};

/// How many blocks of a level stand side by side on an axis.
fn blocks_along(shape: &Shape, axis: Axis, level: u32) -> u32
    requires shape { IsShape shape.now }
    requires level { level ≤ 10 }
    ensures { result ≡ model.blocks_along shape.now axis level }
{
    roots(shape, axis) << level
}

/// `b` with another coordinate on an axis.
fn with_place(axis: Axis, place: u32, b: BlockAt) -> BlockAt
    ensures { result ≡ model.with_place axis place b }
{
    match axis {
        Axis::X => BlockAt { x: place, ..b },
        Axis::Y => BlockAt { y: place, ..b },
        Axis::Z => BlockAt { z: place, ..b },
    }
}

/// The block across the low side of a block on an axis. `None` where that side is an outer boundary.
pub fn low_neighbour(shape: &Shape, axis: Axis, b: BlockAt) -> Option<BlockAt>
    requires shape { IsShape shape.now }
    requires inside { InDomain shape.now b }
    ensures { result ≡ model.low_neighbour shape.now axis b }
{
    let periodic = is_periodic(shape, axis);
    let count = blocks_along(shape, axis, b.level);
    match below(periodic, count, block_on(axis, b)) {
        Some(place) => Some(with_place(axis, place, b)),
        None => None,
    }
}

/// The block across the high side of a block on an axis. `None` where that side is an outer boundary.
pub fn high_neighbour(shape: &Shape, axis: Axis, b: BlockAt) -> Option<BlockAt>
    requires shape { IsShape shape.now }
    requires inside { InDomain shape.now b }
    ensures { result ≡ model.high_neighbour shape.now axis b }
{
    let periodic = is_periodic(shape, axis);
    let count = blocks_along(shape, axis, b.level);
    match above(periodic, count, block_on(axis, b) + 1) {
        Some(place) => Some(with_place(axis, place, b)),
        None => None,
    }
}
