//! The arrays of groups, and how many places they have in a block, without guard places.

ghost use Rattle.block_tree.specs.Interior as interior;
ghost use Rattle.mesh_model.specs.Geometry.Places as places;
ghost use Rattle.std.specs.Prelude.{◌≡◌, ◌≤◌};

use amr_num::Axis;
use mesh_model::{Group, Var};

/// The array of a group for an axis.
pub fn array_on(group: Group, axis: Axis) -> Var
    ensures { result ≡ interior.array_on group axis }
{
    match group {
        Group::Cell(v) => Var::Cell(v),
        Group::Face => Var::Face(axis),
        Group::Edge => Var::Edge(axis),
    }
}

/// The axes for which a group has an array each; a cell variable has one array.
pub fn axes_of(group: Group) -> &'static [Axis]
    ensures { result.now ≡ interior.axes_of group }
{
    match group {
        Group::Cell(_) => &[Axis::X],
        Group::Face => &[Axis::X, Axis::Y, Axis::Z],
        Group::Edge => &[Axis::X, Axis::Y, Axis::Z],
    }
}

/// How many places along an axis there are on faces with a normal, of a block with so many cells along each axis.
fn longer_on(normal: Axis, axis: Axis, cells: u32) -> u32
    requires { cells ≤ 8 }
    ensures { result ≡ places.longer_on normal axis cells }
{
    if normal == axis { cells + 1 } else { cells }
}

/// How many places along an axis there are on edges along another.
fn longer_across(along: Axis, axis: Axis, cells: u32) -> u32
    requires { cells ≤ 8 }
    ensures { result ≡ places.longer_across along axis cells }
{
    if along == axis { cells } else { cells + 1 }
}

/// How many interior places an array has along an axis.
pub fn places_along(cells: u32, var: Var, axis: Axis) -> u32
    requires { cells ≤ 8 }
    ensures { result ≡ interior.places_along cells var axis }
{
    match var {
        Var::Cell(_) => cells,
        Var::Face(normal) => longer_on(normal, axis, cells),
        Var::Edge(along) => longer_across(along, axis, cells),
        Var::CellWork => cells,
        Var::FaceWork(normal) => longer_on(normal, axis, cells),
        Var::EdgeWork(along) => longer_across(along, axis, cells),
    }
}
