//! What the splits of faces and of edges have in common: rows of a child's numbers.

ghost use Rattle.amr_num.specs.Numbers.{at};
ghost use Rattle.mesh_model.specs.Fields.ArrayPlaces as places;
ghost use Rattle.mesh_model.specs.Fields.ArrayPlaces.{IsRowWritten, size_of};
ghost use Rattle.std.specs.Prelude.{◌≡◌, ◌+◌, ◌<◌, ◌≤◌, length};

use amr_num::Axis;
use block_store::{Extents, place};

/// The child `q` of a block of `n` cells along each axis with `g` guard cells on each side, and which parts of its
/// boundary are kept.
#[derive(Clone, Copy)]
pub(crate) struct Split {
    pub(crate) n: usize,
    pub(crate) g: usize,
    pub(crate) q: usize,
    pub(crate) kept: u32,
}

/// A row of a block's faces normal to an axis or of its edges along one: the coordinates on y and z that it has in the
/// block.
#[derive(Clone, Copy)]
pub(crate) struct Row {
    pub(crate) axis: Axis,
    pub(crate) j: usize,
    pub(crate) k: usize,
}

/// Sets a row of an array, from a place on.
pub(crate) fn write_row(
    extents: Extents,
    x: usize,
    y: usize,
    z: usize,
    values: &[i64],
    array: &mut [i64],
)
    requires small { (extents.x ≤ 17) × (extents.y ≤ 17) × (extents.z ≤ 17) }
    requires some { 0 < length values.now }
    requires inside { (x + length values.now ≤ extents.x) × (y < extents.y) × (z < extents.z) }
    requires size { length array.old ≡ size_of extents }
    ensures { IsRowWritten (places.place_in extents x y z) (length values.now) (at values.now) array.old array.new }
{
    let to = place(extents, x, y, z);
    array[to..to + values.len()].copy_from_slice(values);
}
