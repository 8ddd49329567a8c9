//! The circulations of a block's edges round its faces.

ghost use Rattle.amr_num.specs.Numbers.{Within, at};
ghost use Rattle.amr_num.specs.declared.Axis.TheVariants.{X, Y, Z};
ghost use Rattle.mesh_model.specs.Fields.ArrayPlaces.{IsRowWritten, IsSize, edge_extents, face_extents, number_at, row_of, size_of};
ghost use Rattle.mesh_model.specs.Fields.FaceSplits.{by_axis, face_box};
ghost use Rattle.mesh_model.specs.Geometry.Coordinates as coordinates;
ghost use Rattle.mesh_model.specs.Geometry.Places.{longer_across, longer_on};
ghost use Rattle.std.specs.Prelude.{◌≡◌, ℕ, ◌+◌, ◌*◌, ◌/◌, ◌%◌, ◌^◌, ◌<◌, ◌≤◌, ◌+ℤ◌, ◌-ℤ◌, IfErr, OnOk, None, Some, length};
ghost use Rattle.step_induct.specs.Circling as circling;
ghost use Rattle.step_induct.specs.Circling.{AreEdgeArrays, IsCirculated, IsFaceArray, IsLessened, circled, edges_of, faces_of, first_above, lessened, round_in, told_above};

use amr_num::Axis;
use block_store::{Above, CountedFaces, Extents, PlaceAt, faces_above, place, row};
use mesh_model::Var;
use mesh_model::geometry::axes::after;

/// A number of a block that is out of range.
#[derive(Clone, Copy, Debug, PartialEq, Eq)]
pub struct RangeAt {
    /// The axis that the face is normal to.
    pub axis: Axis,
    /// The coordinate on x in the block, from 0.
    pub i: u32,
    /// That on y.
    pub j: u32,
    /// That on z.
    pub k: u32,
    /// The number.
    pub value: i64,
}

/// The arrays of a block of `n` cells along each axis with `g` guard cells on each side.
#[derive(Clone, Copy)]
pub(crate) struct Size {
    pub(crate) n: usize,
    pub(crate) g: usize,
}

/// The sum of two numbers.
#[inline]
fn plus(a: i64, b: i64) -> i64
    requires a { Within (2 ^ 58) a }
    requires b { Within (2 ^ 58) b }
    ensures value { result ≡ a +ℤ b }
    ensures size { Within (2 ^ 59) result }
{
    a + b
}

/// `a` without `b`.
#[inline]
pub(crate) fn less(a: i64, b: i64) -> i64
    requires a { Within (2 ^ 60) a }
    requires b { Within (2 ^ 60) b }
    ensures value { result ≡ a -ℤ b }
    ensures size { Within (2 ^ 59) a → Within (2 ^ 58) b → Within (2 ^ 60) result }
{
    a - b
}

/// What flows round a face, along its edges in turn: forth along two of them, and back along the others.
#[inline]
fn round(first: i64, second: i64, third: i64, last: i64) -> i64
    requires first { Within (2 ^ 58) first }
    requires second { Within (2 ^ 58) second }
    requires third { Within (2 ^ 58) third }
    requires last { Within (2 ^ 58) last }
    ensures { result ≡ first +ℤ second -ℤ third -ℤ last }
{
    less(less(plus(first, second), third), last)
}

/// The same of a face of a row.
#[tactic(auto, unfolding(crate::specs::Circling::round_in))]
#[inline]
fn round_at(first: &[i64], second: &[i64], third: &[i64], last: &[i64], t: usize) -> i64
    requires inside { (t < length first.now) × (t < length second.now) × (t < length third.now) × (t < length last.now) }
    requires first { Within (2 ^ 58) (at first.now t) }
    requires second { Within (2 ^ 58) (at second.now t) }
    requires third { Within (2 ^ 58) (at third.now t) }
    requires last { Within (2 ^ 58) (at last.now t) }
    ensures { result ≡ round_in first.now second.now third.now last.now t }
{
    round(first[t], second[t], third[t], last[t])
}

/// The same of a row of faces.
#[inline]
fn round_row(first: &[i64], second: &[i64], third: &[i64], last: &[i64], out: &mut [i64])
    requires first { length first.now ≡ length out.old }
    requires second { length second.now ≡ length out.old }
    requires third { length third.now ≡ length out.old }
    requires last { length last.now ≡ length out.old }
    requires first_small { (t : ℕ) → t < length out.old → Within (2 ^ 58) (at first.now t) }
    requires second_small { (t : ℕ) → t < length out.old → Within (2 ^ 58) (at second.now t) }
    requires third_small { (t : ℕ) → t < length out.old → Within (2 ^ 58) (at third.now t) }
    requires last_small { (t : ℕ) → t < length out.old → Within (2 ^ 58) (at last.now t) }
    ensures size { length out.new ≡ length out.old }
    ensures numbers { (t : ℕ) → t < length out.old → at out.new t ≡ round_in first.now second.now third.now last.now t }
{
    for t in 0..out.len() {
        out[t] = round_at(first, second, third, last, t);
    }
}

/// A row of a block's edges along an axis, from the place (i, j, k) in the block on.
#[inline]
fn edge_row<'a>(
    size: Size,
    axis: Axis,
    values: &'a [i64],
    i: usize,
    j: usize,
    k: usize,
    many: usize,
) -> &'a [i64]
    requires size { IsSize size.n size.g }
    requires whole { length values.now ≡ size_of (edge_extents size.n size.g axis) }
    requires some { 0 < many }
    requires inside { (i + many ≤ longer_across axis X size.n) × (j < longer_across axis Y size.n) × (k < longer_across axis Z size.n) }
    ensures size { length result.now ≡ many }
    ensures numbers { (t : ℕ) → t < many → at result.now t ≡ number_at (edge_extents size.n size.g axis) values.now (size.g + (t + i)) (size.g + j) (size.g + k) }
{
    let Size { n, g } = size;
    row(
        Extents::of(n, g, Var::Edge(axis)),
        values,
        g + i,
        g + j,
        g + k,
        many,
    )
}

/// One step on an axis.
fn step(axis: Axis) -> PlaceAt
    ensures { result ≡ record { x = (coordinates.step axis 1).x; y = (coordinates.step axis 1).y; z = (coordinates.step axis 1).z } }
{
    match axis {
        Axis::X => PlaceAt { x: 1, y: 0, z: 0 },
        Axis::Y => PlaceAt { x: 0, y: 1, z: 0 },
        Axis::Z => PlaceAt { x: 0, y: 0, z: 1 },
    }
}

/// The one of three arrays that is of an axis.
pub(crate) fn along<'a>(axis: Axis, ex: &'a [i64], ey: &'a [i64], ez: &'a [i64]) -> &'a [i64]
    ensures { result.now ≡ by_axis ex.now ey.now ez.now axis }
{
    match axis {
        Axis::X => ex,
        Axis::Y => ey,
        Axis::Z => ez,
    }
}

/// Sets a row of the faces normal to an axis to the circulations of the edges round them.
fn face_row(
    size: Size,
    axis: Axis,
    ex: &[i64],
    ey: &[i64],
    ez: &[i64],
    j: usize,
    k: usize,
    out: &mut [i64],
)
    requires size { IsSize size.n size.g }
    requires arrays { AreEdgeArrays size.n size.g (by_axis ex.now ey.now ez.now) }
    requires inside { (j < longer_on axis Y size.n) × (k < longer_on axis Z size.n) }
    requires out { length out.old ≡ longer_on axis X size.n }
    ensures size { length out.new ≡ length out.old }
    ensures numbers { (t : ℕ) → t < longer_on axis X size.n → at out.new t ≡ circled (edges_of size.n size.g (by_axis ex.now ey.now ez.now)) axis t j k }
{
    let b = after(axis);
    let c = after(b);
    let along_b = along(b, ex, ey, ez);
    let along_c = along(c, ex, ey, ez);
    let on_b = step(b);
    let on_c = step(c);
    let many = out.len();
    let first = edge_row(size, b, along_b, 0, j, k, many);
    let second = edge_row(size, c, along_c, on_b.x, j + on_b.y, k + on_b.z, many);
    let third = edge_row(size, b, along_b, on_c.x, j + on_c.y, k + on_c.z, many);
    let last = edge_row(size, c, along_c, 0, j, k, many);
    round_row(first, second, third, last, out);
}

/// Sets the `m`-th row of a block's faces normal to an axis.
fn circle_row(size: Size, axis: Axis, ex: &[i64], ey: &[i64], ez: &[i64], m: usize, out: &mut [i64])
    requires size { IsSize size.n size.g }
    requires arrays { AreEdgeArrays size.n size.g (by_axis ex.now ey.now ez.now) }
    requires row { m < longer_on axis Y size.n * longer_on axis Z size.n }
    requires out { length out.old ≡ size_of (face_extents size.n size.g axis) }
    ensures { let h = longer_on axis Y size.n in
        IsRowWritten (row_of (face_extents size.n size.g axis) (face_box size.n size.g axis) m) (longer_on axis X size.n)
        (λ t. circled (edges_of size.n size.g (by_axis ex.now ey.now ez.now)) axis t (m % h) (m / h)) out.old out.new }
{
    let Size { n, g } = size;
    let many = Extents::of_block_faces(n, axis);
    let j = m % many.y;
    let k = m / many.y;
    let to = place(Extents::of_faces(n, g, axis), g, g + j, g + k);
    face_row(size, axis, ex, ey, ez, j, k, &mut out[to..to + many.x]);
}

/// Sets a block's faces normal to an axis.
fn circle(size: Size, axis: Axis, ex: &[i64], ey: &[i64], ez: &[i64], out: &mut [i64])
    requires size { IsSize size.n size.g }
    requires arrays { AreEdgeArrays size.n size.g (by_axis ex.now ey.now ez.now) }
    requires out { length out.old ≡ size_of (face_extents size.n size.g axis) }
    ensures { IsCirculated size.n size.g axis (by_axis ex.now ey.now ez.now) out.old out.new }
{
    let many = Extents::of_block_faces(size.n, axis);
    for m in 0..many.y * many.z {
        circle_row(size, axis, ex, ey, ez, m, out);
    }
}

/// Each face of a row has what it had without the number that it has now.
#[inline]
fn take_from(had: &[i64], out: &mut [i64])
    requires size { length had.now ≡ length out.old }
    requires had { (t : ℕ) → t < length out.old → Within (2 ^ 56) (at had.now t) }
    requires taken { (t : ℕ) → t < length out.old → Within (2 ^ 60) (at out.old t) }
    ensures size { length out.new ≡ length out.old }
    ensures numbers { (t : ℕ) → t < length out.old → at out.new t ≡ at had.now t -ℤ at out.old t }
{
    for t in 0..out.len() {
        out[t] = less(had[t], out[t]);
    }
}

/// The same of the `m`-th row of a block's faces normal to an axis.
fn take_row(size: Size, axis: Axis, faces: &[i64], m: usize, out: &mut [i64])
    requires size { IsSize size.n size.g }
    requires faces { IsFaceArray size.n size.g axis faces.now }
    requires row { m < longer_on axis Y size.n * longer_on axis Z size.n }
    requires out { length out.old ≡ size_of (face_extents size.n size.g axis) }
    requires taken { (t : ℕ) → t < longer_on axis X size.n → Within (2 ^ 60) (at out.old (row_of (face_extents size.n size.g axis) (face_box size.n size.g axis) m + t)) }
    ensures { let h = longer_on axis Y size.n in let start = row_of (face_extents size.n size.g axis) (face_box size.n size.g axis) m in
        IsRowWritten start (longer_on axis X size.n)
        (λ t. faces_of size.n size.g axis faces.now t (m % h) (m / h) -ℤ at out.old (start + t)) out.old out.new }
{
    let Size { n, g } = size;
    let many = Extents::of_block_faces(n, axis);
    let extents = Extents::of_faces(n, g, axis);
    let j = m % many.y;
    let k = m / many.y;
    let had = row(extents, faces, g, g + j, g + k, many.x);
    let to = place(extents, g, g + j, g + k);
    take_from(had, &mut out[to..to + many.x]);
}

/// Sets a block's faces normal to an axis to what they have in `faces`, without the circulations of the edges round them.
fn lessen(
    size: Size,
    axis: Axis,
    faces: &[i64],
    ex: &[i64],
    ey: &[i64],
    ez: &[i64],
    out: &mut [i64],
)
    requires size { IsSize size.n size.g }
    requires faces { IsFaceArray size.n size.g axis faces.now }
    requires arrays { AreEdgeArrays size.n size.g (by_axis ex.now ey.now ez.now) }
    requires out { length out.old ≡ size_of (face_extents size.n size.g axis) }
    ensures { IsLessened size.n size.g axis faces.now (by_axis ex.now ey.now ez.now) out.old out.new }
{
    let many = Extents::of_block_faces(size.n, axis);
    let rows = many.y * many.z;
    for m in 0..rows {
        circle_row(size, axis, ex, ey, ez, m, out);
        take_row(size, axis, faces, m, out);
    }
}

/// What is told of a face that is out of range.
fn told(axis: Axis, found: Above) -> RangeAt
    ensures { result ≡ told_above axis found }
{
    RangeAt {
        axis,
        i: found.i,
        j: found.j,
        k: found.k,
        value: found.value,
    }
}

/// Sets each face of a block normal to an axis to the circulation of the block's edges round it, those on its sides among
/// them: with b and c the axes after `axis` in the cycle x, y, z, along b at the low c position, plus along c at the high b
/// position, minus along b at the high c position, minus along c at the low b position. The guards of `out` stay.
///
/// `leaf_sides` says on which of the block's sides, in the order x low, x high, y low, y high, z low, z high, its faces are
/// leaf faces: these and the faces inside the block are held to [`amr_num::RANGE`]. The arrays are those of blocks of `N`
/// cells along each axis with `G` guard cells on each side, and their numbers on the block's edges are at most 2^58 in
/// absolute value.
///
/// # Errors
///
/// The first of these faces, x fastest, then y, then z, whose number is out of range. All faces are set all the same.
pub fn curl<const N: usize, const G: usize>(
    axis: Axis,
    ex: &[i64],
    ey: &[i64],
    ez: &[i64],
    leaf_sides: [bool; 6],
    out: &mut [i64],
) -> Result<(), RangeAt>
    requires size { IsSize N G }
    requires arrays { AreEdgeArrays N G (by_axis ex.now ey.now ez.now) }
    requires out { length out.old ≡ size_of (face_extents N G axis) }
    ensures made { IsCirculated N G axis (by_axis ex.now ey.now ez.now) out.old out.new }
    ensures in_range { OnOk result (first_above N axis leaf_sides (circled (edges_of N G (by_axis ex.now ey.now ez.now)) axis) ≡ None) }
    ensures refused { IfErr result (λ at. first_above N axis leaf_sides (circled (edges_of N G (by_axis ex.now ey.now ez.now)) axis) ≡ Some at) }
{
    circle(Size { n: N, g: G }, axis, ex, ey, ez, out);
    in_range(Size { n: N, g: G }, axis, leaf_sides, out)
}

/// Sets each face of a block normal to an axis to its number in `faces`, without the circulation of the block's edges round
/// it, which is as [`curl`] has it. The guards of `out` stay.
///
/// `leaf_sides` and the arrays are as in [`curl`], and the numbers on the block's faces in `faces` are at most 2^56 in
/// absolute value.
///
/// # Errors
///
/// The first of the leaf faces, as in [`curl`], whose new number is out of range. All faces are set all the same.
pub fn apply<const N: usize, const G: usize>(
    axis: Axis,
    faces: &[i64],
    ex: &[i64],
    ey: &[i64],
    ez: &[i64],
    leaf_sides: [bool; 6],
    out: &mut [i64],
) -> Result<(), RangeAt>
    requires size { IsSize N G }
    requires faces { IsFaceArray N G axis faces.now }
    requires arrays { AreEdgeArrays N G (by_axis ex.now ey.now ez.now) }
    requires out { length out.old ≡ size_of (face_extents N G axis) }
    ensures made { IsLessened N G axis faces.now (by_axis ex.now ey.now ez.now) out.old out.new }
    ensures in_range { OnOk result (first_above N axis leaf_sides (lessened (faces_of N G axis faces.now) (edges_of N G (by_axis ex.now ey.now ez.now)) axis) ≡ None) }
    ensures refused { IfErr result (λ at. first_above N axis leaf_sides (lessened (faces_of N G axis faces.now) (edges_of N G (by_axis ex.now ey.now ez.now)) axis) ≡ Some at) }
{
    lessen(Size { n: N, g: G }, axis, faces, ex, ey, ez, out);
    in_range(Size { n: N, g: G }, axis, leaf_sides, out)
}

/// Tells of the first of a block's faces normal to an axis that is held to the range and is out of it.
fn in_range(size: Size, axis: Axis, leaf_sides: [bool; 6], faces: &[i64]) -> Result<(), RangeAt>
    requires size { IsSize size.n size.g }
    requires faces { length faces.now ≡ size_of (face_extents size.n size.g axis) }
    ensures in_range { OnOk result (first_above size.n axis leaf_sides (faces_of size.n size.g axis faces.now) ≡ None) }
    ensures refused { IfErr result (λ at. first_above size.n axis leaf_sides (faces_of size.n size.g axis faces.now) ≡ Some at) }
{
    match faces_above(size.n, size.g, faces, counted(axis, leaf_sides)) {
        None => Ok(()),
        Some(found) => Err(told(axis, found)),
    }
}

/// Which of a block's faces normal to an axis are held to the range.
fn counted(axis: Axis, sides: [bool; 6]) -> CountedFaces
    ensures { result ≡ circling.counted axis sides }
{
    let (low, high) = match axis {
        Axis::X => (sides[0], sides[1]),
        Axis::Y => (sides[2], sides[3]),
        Axis::Z => (sides[4], sides[5]),
    };
    CountedFaces { axis, low, high }
}
