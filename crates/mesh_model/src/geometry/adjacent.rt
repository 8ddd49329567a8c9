//! The cells beside a face and round an edge.

ghost use Rattle.std.specs.Prelude.{◌≡◌, ◌<◌, ◌≤◌, [], ◌∷◌};
ghost use Rattle.mesh_model.specs.Geometry.Coordinates as coordinates;
ghost use Rattle.mesh_model.specs.Geometry.Coordinates.{low_cell, high_cell, round_edge};
ghost use Rattle.mesh_model.specs.Geometry.Limits.{IsShape};

use crate::geometry::Shape;
use crate::geometry::axes::{after, extent, is_periodic, place, placed};
use amr_num::{Axis, CellAt, EdgeAt, FaceAt};

/// The coordinate below a position on an axis of `extent` cells, or blocks, where there is one.
pub fn below(periodic: bool, extent: u32, position: u32) -> Option<u32>
    requires { 0 < extent }
    ensures { result ≡ coordinates.below periodic extent position }
{
    if position == 0 {
        if periodic { Some(extent - 1) } else { None }
    } else {
        Some(position - 1)
    }
}

/// The coordinate above a position on an axis of `extent` cells, or blocks, where there is one.
pub fn above(periodic: bool, extent: u32, position: u32) -> Option<u32>
    ensures { result ≡ coordinates.above periodic extent position }
{
    if position < extent {
        Some(position)
    } else if periodic {
        Some(0)
    } else {
        None
    }
}

/// `c` with the coordinate on an axis, where that is there.
fn moved(axis: Axis, coordinate: Option<u32>, c: CellAt) -> Option<CellAt>
    ensures { result ≡ coordinates.moved axis coordinate c }
{
    match coordinate {
        Some(coordinate) => Some(placed(axis, coordinate, c)),
        None => None,
    }
}

/// The cells beside a face, the low one first. A cell is `None` exactly where it lies outside a side that
/// is not periodic.
pub fn side_cells(shape: &Shape, f: FaceAt) -> [Option<CellAt>; 2]
    requires shape { IsShape shape.now }
    requires level { f.level ≤ 10 }
    ensures { result ≡ low_cell shape.now f ∷ high_cell shape.now f ∷ [] }
{
    let c = CellAt {
        level: f.level,
        x: f.x,
        y: f.y,
        z: f.z,
    };
    let periodic = is_periodic(shape, f.axis);
    let extent = extent(shape, f.axis, f.level);
    let position = place(f.axis, c);
    [
        moved(f.axis, below(periodic, extent, position), c),
        moved(f.axis, above(periodic, extent, position), c),
    ]
}

/// `c` with coordinates on two axes, where both are there.
fn moved_twice(
    first: Axis,
    at_first: Option<u32>,
    second: Axis,
    at_second: Option<u32>,
    c: CellAt,
) -> Option<CellAt>
    ensures { result ≡ coordinates.moved_twice first at_first second at_second c }
{
    match at_first {
        Some(coordinate) => moved(second, at_second, placed(first, coordinate, c)),
        None => None,
    }
}

/// The cells round an edge: with b and d the next axes after the edge's, low on both, high on b alone, high
/// on d alone, high on both. A cell is `None` exactly where it lies outside a side that is not periodic.
pub fn around_edge(shape: &Shape, e: EdgeAt) -> [Option<CellAt>; 4]
    requires shape { IsShape shape.now }
    requires level { e.level ≤ 10 }
    ensures { result ≡ round_edge shape.now e }
{
    let c = CellAt {
        level: e.level,
        x: e.x,
        y: e.y,
        z: e.z,
    };
    let b = after(e.axis);
    let d = after(b);
    let b_low = below(
        is_periodic(shape, b),
        extent(shape, b, e.level),
        place(b, c),
    );
    let b_high = above(
        is_periodic(shape, b),
        extent(shape, b, e.level),
        place(b, c),
    );
    let d_low = below(
        is_periodic(shape, d),
        extent(shape, d, e.level),
        place(d, c),
    );
    let d_high = above(
        is_periodic(shape, d),
        extent(shape, d, e.level),
        place(d, c),
    );
    [
        moved_twice(b, b_low, d, d_low, c),
        moved_twice(b, b_high, d, d_low, c),
        moved_twice(b, b_low, d, d_high, c),
        moved_twice(b, b_high, d, d_high, c),
    ]
}
