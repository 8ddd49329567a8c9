//! Canonical names of faces.

ghost use Rattle.mesh_model.specs.Geometry.Canonical.{canonical_on};
ghost use Rattle.mesh_model.specs.Geometry.Coordinates as coordinates;
ghost use Rattle.mesh_model.specs.Geometry.Coordinates.{face_of};
ghost use Rattle.mesh_model.specs.Geometry.Limits.{IsShape};
ghost use Rattle.std.specs.Prelude.{◌≡◌, ◌≤◌};

use crate::geometry::Shape;
use crate::geometry::axes::{extent, is_periodic, place, placed};
use amr_num::{Axis, CellAt, FaceAt};

/// A position on an axis with so many cells: where it is periodic, the far end is position 0.
#[tactic(auto, unfolding(crate::specs::Geometry::Coordinates::wrapped))]
fn wrapped(periodic: bool, extent: u32, position: u32) -> u32
    ensures { result ≡ coordinates.wrapped periodic extent position }
{
    if periodic && position == extent {
        0
    } else {
        position
    }
}

/// The canonical name of the face normal to an axis that has these three numbers: its position on the axis, which on a
/// periodic axis is 0 at the far end too, and cell coordinates on the others.
pub fn canonical_face(shape: &Shape, axis: Axis, c: CellAt) -> FaceAt
    requires shape { IsShape shape.now }
    requires level { c.level ≤ 10 }
    ensures { result ≡ face_of axis (canonical_on shape.now axis c) }
{
    let periodic = is_periodic(shape, axis);
    let position = wrapped(periodic, extent(shape, axis, c.level), place(axis, c));
    let named = placed(axis, position, c);
    FaceAt {
        axis,
        level: named.level,
        x: named.x,
        y: named.y,
        z: named.z,
    }
}
