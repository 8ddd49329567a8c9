//! Numbers out of range among those of a block.

ghost use Rattle.amr_num.specs.Numbers.{Within, at};
ghost use Rattle.amr_num.specs.declared.Axis.TheVariants.{X, Y, Z};
ghost use Rattle.mesh_model.specs.Fields.ArrayPlaces.{Fits, IsSize, cell_extents, edge_extents, face_extents, number_at, size_of};
ghost use Rattle.mesh_model.specs.Fields.Firsts.{first_in_places};
ghost use Rattle.block_store.specs.Above as above;
ghost use Rattle.block_store.specs.Regions.{box_of};
ghost use Rattle.block_store.specs.Above.{counted_at, first_in_block, first_in_edges, first_in_faces, first_in_plane, first_in_row};
ghost use Rattle.std.specs.Prelude.{◌≡◌, ◌+◌, ◌<◌, ◌≤◌, ◌^◌, ◌==◌, ◌||◌, ◌&&◌, not, ℕ, IsTrue, length};

use crate::places::{Extents, row};
use crate::regions::{PlaceAt, Region};
use amr_num::{Axis, fits};
use mesh_model::fields::boundary::{edge_direction, is_kept, position};

/// A number out of range, and its place among the cells of a block, among its faces normal to an axis or among its edges along one.
#[derive(Clone, Copy, Debug, PartialEq, Eq)]
pub struct Above {
    /// The coordinate on x in the block.
    pub i: u32,
    /// That on y.
    pub j: u32,
    /// That on z.
    pub k: u32,
    /// The number.
    pub value: i64,
}

/// The faces of a block normal to an axis, those on its low and on its high side only where that is said.
#[derive(Clone, Copy, Debug, PartialEq, Eq)]
pub struct CountedFaces {
    /// The axis.
    pub axis: Axis,
    /// Whether those on the low side count.
    pub low: bool,
    /// Whether those on the high side do.
    pub high: bool,
}

/// The edges of a block along an axis, but for those on some parts of its boundary: bit x + 3 y + 9 z stands for the part in
/// the direction (x, y, z), where on each axis 0 is down, 1 is none and 2 is up.
#[derive(Clone, Copy, Debug, PartialEq, Eq)]
pub struct CountedEdges {
    /// The axis.
    pub axis: Axis,
    /// The bits of the parts of the boundary that are left out.
    pub left_out: u32,
}

/// Which numbers of a block count.
#[derive(Clone, Copy)]
enum Counted {
    /// All of its cells'.
    Cells,
    /// Those of some of its faces.
    Faces(CountedFaces),
    /// Those of some of its edges.
    Edges(CountedEdges),
}

/// Whether a face counts, whose position on the axis is `p`.
fn is_counted_face(n: usize, faces: CountedFaces, p: usize) -> bool
    ensures { result ≡ ((faces.low || not (p == 0)) && (faces.high || not (p == n))) }
{
    (faces.low || p != 0) && (faces.high || p != n)
}

/// Whether an edge counts.
fn is_counted_edge(n: usize, edges: CountedEdges, i: usize, j: usize, k: usize) -> bool
    ensures { result ≡ above.is_counted_edge n edges i j k }
{
    !is_kept(edges.left_out, edge_direction(n, edges.axis, i, j, k))
}

/// Whether the number at a place counts.
fn is_counted(n: usize, counted: Counted, i: usize, j: usize, k: usize) -> bool
    ensures { result ≡ above.is_counted n counted i j k }
{
    match counted {
        Counted::Cells => true,
        Counted::Faces(faces) => is_counted_face(n, faces, position(faces.axis, i, j, k)),
        Counted::Edges(edges) => is_counted_edge(n, edges, i, j, k),
    }
}

/// A number of a row, where it is out of range.
#[inline]
fn out_of_range(value: i64, i: usize, j: usize, k: usize) -> Option<Above>
    requires { (i ≤ 9) × (j ≤ 9) × (k ≤ 9) }
    ensures { result ≡ above.above_at (λ x y z. value) i j k }
{
    if fits(value) {
        return None;
    }
    Some(Above {
        i: i as u32,
        j: j as u32,
        k: k as u32,
        value,
    })
}

/// A number of a row that counts, where it is out of range.
#[inline]
fn checked(row: &[i64], n: usize, counted: Counted, i: usize, j: usize, k: usize) -> Option<Above>
    requires short { length row.now ≤ 9 }
    requires inside { i < length row.now }
    requires row { (j ≤ 9) × (k ≤ 9) }
    ensures { result ≡ counted_at n counted (λ x y z. at row.now x) i j k }
{
    if is_counted(n, counted, i, j, k) {
        out_of_range(row[i], i, j, k)
    } else {
        None
    }
}

/// Whether all numbers of a row are in range.
#[inline]
fn row_fits(row: &[i64]) -> bool
    ensures { IsTrue result → (i : ℕ) → i < length row.now → Within (2 ^ 40) (at row.now i) }
{
    let mut all = true;
    for i in 0..row.len() {
        all &= fits(row[i]);
    }
    all
}

/// The first number of a row that counts and is out of range.
fn row_above(row: &[i64], n: usize, counted: Counted, j: usize, k: usize) -> Option<Above>
    requires short { length row.now ≤ 9 }
    requires row { (j ≤ 9) × (k ≤ 9) }
    ensures { result ≡ first_in_row n counted row.now j k (length row.now) }
{
    if row_fits(row) {
        return None;
    }
    for i in 0..row.len() {
        let found = checked(row, n, counted, i, j, k);
        if found.is_some() {
            return found;
        }
    }
    None
}

/// The row (j, k) of a region of an array.
fn plane_row<'a>(
    extents: Extents,
    region: Region,
    values: &'a [i64],
    j: usize,
    k: usize,
) -> &'a [i64]
    requires small { (extents.x ≤ 17) × (extents.y ≤ 17) × (extents.z ≤ 17) }
    requires fits { Fits extents (box_of region) }
    requires some { 0 < region.along_x }
    requires values { length values.now ≡ size_of extents }
    requires row { (j < region.along_y) × (k < region.along_z) }
    ensures size { length result.now ≡ region.along_x }
    ensures numbers { (t : ℕ) → t < region.along_x → at result.now t ≡ number_at extents values.now (region.at.x + t) (region.at.y + j) (region.at.z + k) }
{
    let first = region.at;
    row(
        extents,
        values,
        first.x,
        first.y + j,
        first.z + k,
        region.along_x,
    )
}

/// The first number of a plane of a region of an array that counts and is out of range.
fn plane_above(
    extents: Extents,
    region: Region,
    values: &[i64],
    n: usize,
    counted: Counted,
    k: usize,
) -> Option<Above>
    requires small { (extents.x ≤ 17) × (extents.y ≤ 17) × (extents.z ≤ 17) }
    requires fits { Fits extents (box_of region) }
    requires few { (0 < region.along_x) × (region.along_x ≤ 9) × (region.along_y ≤ 9) × (region.along_z ≤ 9) }
    requires values { length values.now ≡ size_of extents }
    requires plane { k < region.along_z }
    ensures { result ≡ first_in_plane n counted (λ x y z. number_at extents values.now (region.at.x + x) (region.at.y + y) (region.at.z + z)) region.along_x k region.along_y }
{
    for j in 0..region.along_y {
        let numbers = plane_row(extents, region, values, j, k);
        let found = row_above(numbers, n, counted, j, k);
        if found.is_some() {
            return found;
        }
    }
    None
}

/// The first number of a region of an array that counts and is out of range.
fn region_above(
    extents: Extents,
    region: Region,
    values: &[i64],
    n: usize,
    counted: Counted,
) -> Option<Above>
    requires small { (extents.x ≤ 17) × (extents.y ≤ 17) × (extents.z ≤ 17) }
    requires fits { Fits extents (box_of region) }
    requires few { (0 < region.along_x) × (region.along_x ≤ 9) × (region.along_y ≤ 9) × (region.along_z ≤ 9) }
    requires values { length values.now ≡ size_of extents }
    ensures { result ≡ first_in_places region.along_x region.along_y region.along_z (counted_at n counted (λ x y z. number_at extents values.now (region.at.x + x) (region.at.y + y) (region.at.z + z))) }
{
    for k in 0..region.along_z {
        let found = plane_above(extents, region, values, n, counted, k);
        if found.is_some() {
            return found;
        }
    }
    None
}

/// The first number of a block's cells that is out of range, x fastest, then y, then z.
pub fn block_above(n: usize, g: usize, values: &[i64]) -> Option<Above>
    requires size { IsSize n g }
    requires values { length values.now ≡ size_of (cell_extents n g) }
    ensures { result ≡ first_in_block (λ x y z. number_at (cell_extents n g) values.now (g + x) (g + y) (g + z)) n }
{
    let at = PlaceAt { x: g, y: g, z: g };
    let region = Region {
        at,
        along_x: n,
        along_y: n,
        along_z: n,
    };
    region_above(Extents::of_cells(n, g), region, values, n, Counted::Cells)
}

/// The first number of a block's faces that count that is out of range, x fastest, then y, then z.
pub fn faces_above(n: usize, g: usize, values: &[i64], faces: CountedFaces) -> Option<Above>
    requires size { IsSize n g }
    requires values { length values.now ≡ size_of (face_extents n g faces.axis) }
    ensures { result ≡ first_in_faces (λ x y z. number_at (face_extents n g faces.axis) values.now (g + x) (g + y) (g + z)) n faces }
{
    let at = PlaceAt { x: g, y: g, z: g };
    let along = Extents::of_block_faces(n, faces.axis);
    let region = Region {
        at,
        along_x: along.x,
        along_y: along.y,
        along_z: along.z,
    };
    let extents = Extents::of_faces(n, g, faces.axis);
    region_above(extents, region, values, n, Counted::Faces(faces))
}

/// The first number of a block's edges that count that is out of range, x fastest, then y, then z.
pub fn edges_above(n: usize, g: usize, values: &[i64], edges: CountedEdges) -> Option<Above>
    requires size { IsSize n g }
    requires values { length values.now ≡ size_of (edge_extents n g edges.axis) }
    ensures { result ≡ first_in_edges (λ x y z. number_at (edge_extents n g edges.axis) values.now (g + x) (g + y) (g + z)) n edges }
{
    let at = PlaceAt { x: g, y: g, z: g };
    let along = Extents::of_block_edges(n, edges.axis);
    let region = Region {
        at,
        along_x: along.x,
        along_y: along.y,
        along_z: along.z,
    };
    let extents = Extents::of_edges(n, g, edges.axis);
    region_above(extents, region, values, n, Counted::Edges(edges))
}
