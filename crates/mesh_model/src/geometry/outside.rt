//! Coordinates outside the domain: they wrap on a periodic axis and are clamped on another.

ghost use Rattle.std.specs.Prelude.{◌≡◌, ◌^◌, ◌<◌, ◌≤◌};
ghost use Rattle.amr_num.specs.Numbers.{Within};
ghost use Rattle.mesh_model.specs.Geometry.Limits.{IsShape};
ghost use Rattle.mesh_model.specs.Geometry.Outside as outside;

use crate::geometry::Shape;
use crate::geometry::axes::{extent, is_periodic};
use amr_num::{Axis, CellAt, EdgeAt, FaceAt};

/// `p` wrapped to 0 .. `extent` - 1, or clamped to 0 .. `top`.
fn brought_in(periodic: bool, extent: u32, top: u32, p: i64) -> u32
    requires extent { (0 < extent) × (extent ≤ 65536) }
    requires place { Within (2 ^ 20) p }
    ensures { result ≡ outside.brought_in periodic extent top p }
{
    if periodic {
        p.rem_euclid(extent as i64) as u32
    } else if p < 0 {
        0
    } else {
        (p as u32).min(top)
    }
}

/// The cell coordinate that stands for `p` on an axis.
fn cell_in(shape: &Shape, axis: Axis, level: u32, p: i64) -> u32
    requires shape { IsShape shape.now }
    requires level { level ≤ 10 }
    requires place { Within (2 ^ 20) p }
    ensures { result ≡ outside.cell_in shape.now axis level p }
{
    let extent = extent(shape, axis, level);
    brought_in(is_periodic(shape, axis), extent, extent - 1, p)
}

/// The position that stands for `p` on an axis.
fn position_in(shape: &Shape, axis: Axis, level: u32, p: i64) -> u32
    requires shape { IsShape shape.now }
    requires level { level ≤ 10 }
    requires place { Within (2 ^ 20) p }
    ensures { result ≡ outside.position_in shape.now axis level p }
{
    let extent = extent(shape, axis, level);
    brought_in(is_periodic(shape, axis), extent, extent, p)
}

/// The cell that stands for a coordinate, which may lie outside: on a periodic axis the coordinate is
/// wrapped, on another clamped to the cells of the level.
pub fn inside_cell(shape: &Shape, level: u32, x: i64, y: i64, z: i64) -> CellAt
    requires shape { IsShape shape.now }
    requires level { level ≤ 10 }
    requires places { Within (2 ^ 20) x × Within (2 ^ 20) y × Within (2 ^ 20) z }
    ensures { result ≡ outside.inside_cell shape.now level x y z }
{
    CellAt {
        level,
        x: cell_in(shape, Axis::X, level, x),
        y: cell_in(shape, Axis::Y, level, y),
        z: cell_in(shape, Axis::Z, level, z),
    }
}

/// The face normal to an axis that stands for a position on it and cell coordinates on the other two, which
/// may lie outside. They are wrapped on a periodic axis and clamped on another, a position to one more than
/// the last cell.
pub fn inside_face(shape: &Shape, axis: Axis, level: u32, x: i64, y: i64, z: i64) -> FaceAt
    requires shape { IsShape shape.now }
    requires level { level ≤ 10 }
    requires places { Within (2 ^ 20) x × Within (2 ^ 20) y × Within (2 ^ 20) z }
    ensures { result ≡ outside.inside_face shape.now axis level x y z }
{
    let (x, y, z) = match axis {
        Axis::X => (
            position_in(shape, Axis::X, level, x),
            cell_in(shape, Axis::Y, level, y),
            cell_in(shape, Axis::Z, level, z),
        ),
        Axis::Y => (
            cell_in(shape, Axis::X, level, x),
            position_in(shape, Axis::Y, level, y),
            cell_in(shape, Axis::Z, level, z),
        ),
        Axis::Z => (
            cell_in(shape, Axis::X, level, x),
            cell_in(shape, Axis::Y, level, y),
            position_in(shape, Axis::Z, level, z),
        ),
    };
    FaceAt {
        axis,
        level,
        x,
        y,
        z,
    }
}

/// The edge along an axis that stands for a cell coordinate on it and positions on the other two, which may
/// lie outside. They are wrapped on a periodic axis and clamped on another, a position to one more than the
/// last cell.
pub fn inside_edge(shape: &Shape, axis: Axis, level: u32, x: i64, y: i64, z: i64) -> EdgeAt
    requires shape { IsShape shape.now }
    requires level { level ≤ 10 }
    requires places { Within (2 ^ 20) x × Within (2 ^ 20) y × Within (2 ^ 20) z }
    ensures { result ≡ outside.inside_edge shape.now axis level x y z }
{
    let (x, y, z) = match axis {
        Axis::X => (
            cell_in(shape, Axis::X, level, x),
            position_in(shape, Axis::Y, level, y),
            position_in(shape, Axis::Z, level, z),
        ),
        Axis::Y => (
            position_in(shape, Axis::X, level, x),
            cell_in(shape, Axis::Y, level, y),
            position_in(shape, Axis::Z, level, z),
        ),
        Axis::Z => (
            position_in(shape, Axis::X, level, x),
            position_in(shape, Axis::Y, level, y),
            cell_in(shape, Axis::Z, level, z),
        ),
    };
    EdgeAt {
        axis,
        level,
        x,
        y,
        z,
    }
}
