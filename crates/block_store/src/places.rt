//! Places of arrays.

ghost use Rattle.mesh_model.specs.Fields.ArrayPlaces as places;
ghost use Rattle.mesh_model.specs.Fields.ArrayPlaces.{AreIndices, IsIndex, IsSize, size_of};
ghost use Rattle.std.specs.Prelude.{◌≡◌, ◌+◌, ◌*◌, ◌<◌, ◌≤◌, length, pos, ℕ};

use amr_num::Axis;
use mesh_model::Var;
use std::marker::Model;

/// How many places an array has along each axis.
#[derive(Clone, Copy, Debug, PartialEq, Eq)]
pub struct Extents {
    /// Along x.
    pub x: usize,
    /// Along y.
    pub y: usize,
    /// Along z.
    pub z: usize,
}

impl Model for Extents {
    ghost use Rattle.mesh_model.specs.Fields.ArrayPlaces.{Extents as PlainExtents};

    ghost Value = { PlainExtents };

    ghost view = { λ e. record { x = e.x; y = e.y; z = e.z } };

    ghost inverse = { λ e. record { x = e.x; y = e.y; z = e.z } };
}

impl Extents {
    ghost use Rattle.mesh_model.specs.Fields.ArrayPlaces as places;
    ghost use Rattle.amr_num.specs.declared.Axis.TheVariants.{X, Y, Z};
    ghost use Rattle.mesh_model.specs.Fields.ArrayPlaces.{IsSize, size_of};
    ghost use Rattle.mesh_model.specs.Geometry.Places.{longer_across, longer_on};
    ghost use Rattle.std.specs.Prelude.{◌≡◌, ◌≤◌};

    /// The extents of a variable's array in blocks of `n` cells along each axis with `g` guard cells on each side.
    pub fn of(n: usize, g: usize, var: Var) -> Extents
        requires { IsSize n g }
        ensures { result ≡ places.extents_of n g var }
    {
        match var {
            Var::Cell(_) => Extents::of_cells(n, g),
            Var::CellWork => Extents::of_cells(n, g),
            Var::Face(axis) => Extents::of_faces(n, g, axis),
            Var::FaceWork(axis) => Extents::of_faces(n, g, axis),
            Var::Edge(axis) => Extents::of_edges(n, g, axis),
            Var::EdgeWork(axis) => Extents::of_edges(n, g, axis),
        }
    }

    /// Those of an array of cells.
    pub fn of_cells(n: usize, g: usize) -> Extents
        requires { IsSize n g }
        ensures { result ≡ places.cell_extents n g }
    {
        let side = n + 2 * g;
        Extents {
            x: side,
            y: side,
            z: side,
        }
    }

    /// Those of an array of the faces normal to an axis.
    pub fn of_faces(n: usize, g: usize, axis: Axis) -> Extents
        requires { IsSize n g }
        ensures { result ≡ places.face_extents n g axis }
    {
        Extents::of_block_faces(n + 2 * g, axis)
    }

    /// How many faces normal to an axis a block of `n` cells along each axis has along each, those on its sides among
    /// them.
    pub fn of_block_faces(n: usize, axis: Axis) -> Extents
        requires { n ≤ 16 }
        ensures { result ≡ record { x = longer_on axis X n; y = longer_on axis Y n; z = longer_on axis Z n } }
    {
        let x = if axis == Axis::X { n + 1 } else { n };
        let y = if axis == Axis::Y { n + 1 } else { n };
        let z = if axis == Axis::Z { n + 1 } else { n };
        Extents { x, y, z }
    }

    /// Those of an array of the edges along an axis.
    pub fn of_edges(n: usize, g: usize, axis: Axis) -> Extents
        requires { IsSize n g }
        ensures { result ≡ places.edge_extents n g axis }
    {
        Extents::of_block_edges(n + 2 * g, axis)
    }

    /// How many edges along an axis a block of `n` cells along each axis has along each, those on its sides among them.
    pub fn of_block_edges(n: usize, axis: Axis) -> Extents
        requires { n ≤ 16 }
        ensures { result ≡ record { x = longer_across axis X n; y = longer_across axis Y n; z = longer_across axis Z n } }
    {
        let x = if axis == Axis::X { n } else { n + 1 };
        let y = if axis == Axis::Y { n } else { n + 1 };
        let z = if axis == Axis::Z { n } else { n + 1 };
        Extents { x, y, z }
    }

    /// How many places an array has in all.
    pub fn count(self) -> usize
        requires { (self.x ≤ 17) × (self.y ≤ 17) × (self.z ≤ 17) }
        ensures { result ≡ size_of self }
    {
        self.x * (self.y * self.z)
    }
}

/// Where the place (i, j, k) stands in the list of an array.
#[inline]
pub fn place(extents: Extents, i: usize, j: usize, k: usize) -> usize
    requires small { (extents.x ≤ 17) × (extents.y ≤ 17) × (extents.z ≤ 17) }
    requires inside { (i < extents.x) × (j < extents.y) × (k < extents.z) }
    ensures value { result ≡ places.place_in extents i j k }
    ensures inside { result < size_of extents }
{
    i + extents.x * (j + extents.y * k)
}

/// The place of a block index, which is below 0 in the guard cells before the block's first cell.
#[inline]
fn place_of(g: usize, i: i64, many: usize) -> usize
    requires small { (g ≤ 4) × (many ≤ 17) }
    requires index { IsIndex g many i }
    ensures value { result ≡ places.place_of g i }
    ensures inside { result < many }
{
    (i + g as i64) as usize
}

/// The number of an array at block indices.
pub fn number_of(g: usize, extents: Extents, values: &[i64], i: i64, j: i64, k: i64) -> i64
    requires guards { g ≤ 4 }
    requires small { (extents.x ≤ 17) × (extents.y ≤ 17) × (extents.z ≤ 17) }
    requires whole { length values.now ≡ size_of extents }
    requires indices { AreIndices g extents i j k }
    ensures { result ≡ places.number_of g extents values.now i j k }
{
    let x = place_of(g, i, extents.x);
    let y = place_of(g, j, extents.y);
    let z = place_of(g, k, extents.z);
    values[place(extents, x, y, z)]
}

/// A row of an array: the `many` places from (i, j, k) on along x.
#[inline]
pub fn row<'a>(
    extents: Extents,
    values: &'a [i64],
    i: usize,
    j: usize,
    k: usize,
    many: usize,
) -> &'a [i64]
    requires small { (extents.x ≤ 17) × (extents.y ≤ 17) × (extents.z ≤ 17) }
    requires whole { length values.now ≡ size_of extents }
    requires some { 0 < many }
    requires inside { (i + many ≤ extents.x) × (j < extents.y) × (k < extents.z) }
    ensures size { length result.now ≡ many }
    ensures numbers { (t : ℕ) → t < many → at result.now t ≡ places.number_at extents values.now (i + t) j k }
{
    let start = place(extents, i, j, k);
    &values[start..start + many]
}

/// A row of a block's cells, without guard cells: those with the coordinates j on y and k on z in the block.
#[inline]
pub fn cell_row<'a>(n: usize, g: usize, values: &'a [i64], j: usize, k: usize) -> &'a [i64]
    requires size { IsSize n g }
    requires whole { length values.now ≡ size_of (places.cell_extents n g) }
    requires inside { (j < n) × (k < n) }
    ensures size { length result.now ≡ n }
    ensures cells { (i : ℕ) → i < n → at result.now i ≡ places.number_at (places.cell_extents n g) values.now (g + i) (g + j) (g + k) }
{
    row(Extents::of_cells(n, g), values, g, g + j, g + k, n)
}

ghost use Rattle.amr_num.specs.Numbers.{at};
