//! Axes of a shape, and coordinates on them.

ghost use Rattle.std.specs.Prelude.{◌≡◌, ◌^◌, ◌<◌, ◌≤◌};
ghost use Rattle.mesh_model.specs.Geometry.Coordinates as coordinates;
ghost use Rattle.mesh_model.specs.Geometry.Coordinates.{on, with, next};
ghost use Rattle.mesh_model.specs.Geometry.Limits.{IsShape};
ghost use Rattle.mesh_model.specs.Geometry.Touch as touch;

use crate::geometry::Shape;
use amr_num::{Axis, BlockAt, CellAt, SideKind};

/// The next axis in the cycle x, y, z.
pub fn after(axis: Axis) -> Axis
    ensures { result ≡ next axis }
{
    match axis {
        Axis::X => Axis::Y,
        Axis::Y => Axis::Z,
        Axis::Z => Axis::X,
    }
}

/// How many roots stand side by side on an axis.
pub fn roots(shape: &Shape, axis: Axis) -> u32
    ensures { result ≡ coordinates.roots shape.now axis }
{
    match axis {
        Axis::X => shape.rx,
        Axis::Y => shape.ry,
        Axis::Z => shape.rz,
    }
}

/// Whether the axis is periodic.
pub fn is_periodic(shape: &Shape, axis: Axis) -> bool
    requires { IsShape shape.now }
    ensures { result ≡ coordinates.is_periodic shape.now axis }
{
    let side = match axis {
        Axis::X => 0,
        Axis::Y => 2,
        Axis::Z => 4,
    };
    match shape.sides[side] {
        SideKind::Periodic => true,
        SideKind::Outflow => false,
        SideKind::Closed => false,
    }
}

/// 2 to the power `k`.
pub(crate) fn power_of_two(k: u32) -> u32
    requires { k ≤ 10 }
    ensures { result ≡ 2 ^ k }
{
    1 << k
}

/// How many cells of `level` stand side by side on an axis.
pub fn extent(shape: &Shape, axis: Axis, level: u32) -> u32
    requires shape { IsShape shape.now }
    requires level { level ≤ 10 }
    ensures value { result ≡ coordinates.extent shape.now axis level }
    ensures some { 0 < result }
    ensures size { result ≤ 65536 }
{
    roots(shape, axis) * shape.n * power_of_two(level)
}

/// The number of a cell, or the position of a face or an edge, on an axis.
pub fn place(axis: Axis, c: CellAt) -> u32
    ensures { result ≡ on axis c }
{
    match axis {
        Axis::X => c.x,
        Axis::Y => c.y,
        Axis::Z => c.z,
    }
}

/// `c` with another coordinate on an axis.
pub fn placed(axis: Axis, coordinate: u32, c: CellAt) -> CellAt
    ensures { result ≡ with axis coordinate c }
{
    match axis {
        Axis::X => CellAt { x: coordinate, ..c },
        Axis::Y => CellAt { y: coordinate, ..c },
        Axis::Z => CellAt { z: coordinate, ..c },
    }
}

/// A block's coordinate on an axis.
pub fn block_on(axis: Axis, b: BlockAt) -> u32
    ensures { result ≡ touch.block_on axis b }
{
    match axis {
        Axis::X => b.x,
        Axis::Y => b.y,
        Axis::Z => b.z,
    }
}
