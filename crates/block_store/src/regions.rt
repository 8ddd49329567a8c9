//! Regions of arrays.

ghost use Rattle.block_store.specs.Regions.{box_from, box_of};
ghost use Rattle.mesh_model.specs.Fields.ArrayPlaces.{Fits, IsRowWritten, IsWritten, number_at, place_in, size_of};
ghost use Rattle.std.specs.Prelude.{◌≡◌, ◌+◌, ◌<◌, ◌≤◌, length};

use crate::places::{Extents, place, row};

/// A place of an array, by its numbers on the axes, which count guard cells too.
#[derive(Clone, Copy, Debug, PartialEq, Eq)]
pub struct PlaceAt {
    /// On the axis x.
    pub x: usize,
    /// On the axis y.
    pub y: usize,
    /// On the axis z.
    pub z: usize,
}

/// So many places of an array along each axis, from a place on.
#[derive(Clone, Copy, Debug, PartialEq, Eq)]
pub struct Region {
    /// The first place.
    pub at: PlaceAt,
    /// How many places there are along x.
    pub along_x: usize,
    /// Along y.
    pub along_y: usize,
    /// Along z.
    pub along_z: usize,
}

/// Copies the row (j, k) of a region from an array with the same extents, where the region's numbers stand from `at` on.
fn copy_row(
    extents: Extents,
    from: &[i64],
    at: PlaceAt,
    to: &mut [i64],
    region: Region,
    j: usize,
    k: usize,
)
    requires small { (extents.x ≤ 17) × (extents.y ≤ 17) × (extents.z ≤ 17) }
    requires fits { Fits extents (box_of region) }
    requires source { Fits extents (box_from region at) }
    requires some { 0 < region.along_x }
    requires row { (j < region.along_y) × (k < region.along_z) }
    requires from { length from.now ≡ size_of extents }
    requires to { length to.old ≡ size_of extents }
    ensures { IsRowWritten (place_in extents region.at.x (region.at.y + j) (region.at.z + k)) region.along_x
        (λ t. number_at extents from.now (at.x + t) (at.y + j) (at.z + k)) to.old to.new }
{
    let many = region.along_x;
    let start = place(extents, region.at.x, region.at.y + j, region.at.z + k);
    let numbers = row(extents, from, at.x, at.y + j, at.z + k, many);
    to[start..start + many].copy_from_slice(numbers);
}

/// Copies a region from an array with the same extents, where the region's numbers stand from the place `at` on.
pub fn copy_region(extents: Extents, from: &[i64], at: PlaceAt, to: &mut [i64], region: Region)
    requires small { (extents.x ≤ 17) × (extents.y ≤ 17) × (extents.z ≤ 17) }
    requires fits { Fits extents (box_of region) }
    requires source { Fits extents (box_from region at) }
    requires some { 0 < region.along_x }
    requires from { length from.now ≡ size_of extents }
    requires to { length to.old ≡ size_of extents }
    ensures { IsWritten extents (box_of region) (λ i j k. number_at extents from.now (at.x + i) (at.y + j) (at.z + k)) to.old to.new }
{
    for k in 0..region.along_z {
        for j in 0..region.along_y {
            copy_row(extents, from, at, to, region, j, k);
        }
    }
}
