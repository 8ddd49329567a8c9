//! The contents of a block's cells after a step.

ghost use Rattle.amr_num.specs.Numbers.{Within, at, sum_below};
ghost use Rattle.amr_num.specs.declared.Axis.TheVariants.{X, Y, Z};
ghost use Rattle.mesh_model.specs.Fields.ArrayPlaces.{IsRowWritten, IsSize, cell_extents, face_extents, interior, number_at, row_of, size_of};
ghost use Rattle.std.specs.Prelude.{◌≡◌, ℕ, ◌+◌, ◌*◌, ◌/◌, ◌%◌, ◌^◌, ◌<◌, ◌≤◌, ◌+ℤ◌, ◌-ℤ◌, IfErr, IfOk, Some, if◌then◌else◌, length, pos};
ghost use Rattle.step_advect.specs.Applied as applied;
ghost use Rattle.step_advect.specs.Applied.{AreFluxes, AreInRange, AreRowsSmall, AreStepArrays, IsApplied, first_out, flows_in, inner, left_at, out_along, out_through};

use amr_num::Axis;
use block_store::{Above, Extents, block_above, cell_row, place, row};

/// A number of a block that is out of range.
#[derive(Clone, Copy, Debug, PartialEq, Eq)]
pub struct RangeAt {
    /// The axis of a face or an edge, and [`Axis::X`] for a cell.
    pub axis: Axis,
    /// The coordinate on x in the block, from 0.
    pub i: u32,
    /// That on y.
    pub j: u32,
    /// That on z.
    pub k: u32,
    /// The number.
    pub value: i64,
}

/// A cell whose number is out of range.
fn cell_at(found: Above) -> RangeAt
    ensures { result ≡ record { axis = X; i = found.i; j = found.j; k = found.k; value = found.value } }
{
    RangeAt {
        axis: Axis::X,
        i: found.i,
        j: found.j,
        k: found.k,
        value: found.value,
    }
}

/// What flows out at the high side less what flows in at the low one.
#[inline]
fn rise(low: i64, high: i64) -> i64
    requires low { Within (2 ^ 58) low }
    requires high { Within (2 ^ 58) high }
    ensures value { result ≡ high -ℤ low }
    ensures size { Within (2 ^ 59) result }
{
    high - low
}

/// The sum of what flows out along two axes.
#[inline]
fn plus(a: i64, b: i64) -> i64
    requires a { Within (2 ^ 60) a }
    requires b { Within (2 ^ 59) b }
    ensures value { result ≡ a +ℤ b }
    ensures size { Within (2 ^ 61) result }
    ensures small { Within (2 ^ 59) a → Within (2 ^ 60) result }
{
    a + b
}

/// What is left of a content.
#[inline]
fn less(content: i64, net: i64) -> i64
    requires content { Within (2 ^ 40) content }
    requires net { Within (2 ^ 61) net }
    ensures { result ≡ content -ℤ net }
{
    content - net
}

/// What is left of a cell of a row.
#[tactic(auto, unfolding(crate::specs::Applied::left_in))]
#[inline]
fn left_in(
    cells: &[i64],
    x: &[i64],
    y_low: &[i64],
    y_high: &[i64],
    z_low: &[i64],
    z_high: &[i64],
    t: usize,
) -> i64
    requires inside { t < length cells.now }
    requires x { length x.now ≡ length cells.now + 1 }
    requires y_low { length y_low.now ≡ length cells.now }
    requires y_high { length y_high.now ≡ length cells.now }
    requires z_low { length z_low.now ≡ length cells.now }
    requires z_high { length z_high.now ≡ length cells.now }
    requires small { AreRowsSmall (length cells.now) cells.now x.now y_low.now y_high.now z_low.now z_high.now }
    ensures { result ≡ applied.left_in cells.now x.now y_low.now y_high.now z_low.now z_high.now t }
{
    let along_x = rise(x[t], x[t + 1]);
    let along_y = rise(y_low[t], y_high[t]);
    let along_z = rise(z_low[t], z_high[t]);
    less(cells[t], plus(plus(along_x, along_y), along_z))
}

/// What is left of each cell of a row.
#[inline]
fn left_row(
    cells: &[i64],
    x: &[i64],
    y_low: &[i64],
    y_high: &[i64],
    z_low: &[i64],
    z_high: &[i64],
    out: &mut [i64],
)
    requires cells { length cells.now ≡ length out.old }
    requires x { length x.now ≡ length cells.now + 1 }
    requires y_low { length y_low.now ≡ length cells.now }
    requires y_high { length y_high.now ≡ length cells.now }
    requires z_low { length z_low.now ≡ length cells.now }
    requires z_high { length z_high.now ≡ length cells.now }
    requires small { AreRowsSmall (length cells.now) cells.now x.now y_low.now y_high.now z_low.now z_high.now }
    ensures size { length out.new ≡ length out.old }
    ensures left { (t : ℕ) → t < length out.old → at out.new t ≡ applied.left_in cells.now x.now y_low.now y_high.now z_low.now z_high.now t }
{
    for t in 0..out.len() {
        out[t] = left_in(cells, x, y_low, y_high, z_low, z_high, t);
    }
}

/// Sets the `m`-th row of a block's cells to what is left of them.
#[inline]
fn apply_row(
    n: usize,
    g: usize,
    cells: &[i64],
    fx: &[i64],
    fy: &[i64],
    fz: &[i64],
    out: &mut [i64],
    m: usize,
)
    requires size { IsSize n g }
    requires arrays { AreStepArrays n g cells.now fx.now fy.now fz.now }
    requires out { length out.old ≡ size_of (cell_extents n g) }
    requires row { m < n * n }
    ensures { IsRowWritten (row_of (cell_extents n g) (interior n g) m) n (λ t. left_at (flows_in n g cells.now fx.now fy.now fz.now) t (m % n) (m / n)) out.old out.new }
{
    let j = m % n;
    let k = m / n;
    let along_y = Extents::of_faces(n, g, Axis::Y);
    let along_z = Extents::of_faces(n, g, Axis::Z);
    let to = place(Extents::of_cells(n, g), g, g + j, g + k);
    left_row(
        cell_row(n, g, cells, j, k),
        row(Extents::of_faces(n, g, Axis::X), fx, g, g + j, g + k, n + 1),
        row(along_y, fy, g, g + j, g + k, n),
        row(along_y, fy, g, g + (j + 1), g + k, n),
        row(along_z, fz, g, g + j, g + k, n),
        row(along_z, fz, g, g + j, g + (k + 1), n),
        &mut out[to..to + n],
    );
}

/// Sets a block's cells to what is left of them.
#[inline]
fn apply_cells(
    n: usize,
    g: usize,
    cells: &[i64],
    fx: &[i64],
    fy: &[i64],
    fz: &[i64],
    out: &mut [i64],
)
    requires size { IsSize n g }
    requires arrays { AreStepArrays n g cells.now fx.now fy.now fz.now }
    requires out { length out.old ≡ size_of (cell_extents n g) }
    ensures { IsApplied n g (flows_in n g cells.now fx.now fy.now fz.now) out.old out.new }
{
    for m in 0..n * n {
        apply_row(n, g, cells, fx, fy, fz, out, m);
    }
}

/// A sum with one number more.
#[inline]
fn add(sum: i128, more: i128) -> i128
    requires sum { Within (2 ^ 100) sum }
    requires more { Within (2 ^ 100) more }
    ensures { result ≡ sum +ℤ more }
{
    sum + more
}

/// The number of a face normal to an axis at a position, with coordinates on the other two axes.
#[inline]
fn face_on(
    n: usize,
    g: usize,
    axis: Axis,
    faces: &[i64],
    position: usize,
    u: usize,
    v: usize,
) -> i64
    requires size { IsSize n g }
    requires faces { AreFluxes n g axis faces.now }
    requires inside { (position < n + 1) × (u < n) × (v < n) }
    ensures value { result ≡ applied.face_on axis (inner g (number_at (face_extents n g axis) faces.now)) position u v }
    ensures size { Within (2 ^ 58) result }
{
    let extents = Extents::of_faces(n, g, axis);
    let at = match axis {
        Axis::X => place(extents, g + position, g + u, g + v),
        Axis::Y => place(extents, g + u, g + position, g + v),
        Axis::Z => place(extents, g + u, g + v, g + position),
    };
    faces[at]
}

/// The sum over a line of the faces normal to an axis at a position.
#[inline]
fn line_sum(n: usize, g: usize, axis: Axis, faces: &[i64], position: usize, v: usize) -> i128
    requires size { IsSize n g }
    requires faces { AreFluxes n g axis faces.now }
    requires inside { (position < n + 1) × (v < n) }
    ensures value { result ≡ sum_below n (λ u. applied.face_on axis (inner g (number_at (face_extents n g axis) faces.now)) position u v) }
    ensures size { Within (n * 2 ^ 58) result }
{
    let mut sum = 0;
    for u in 0..n {
        sum = add(sum, i128::from(face_on(n, g, axis, faces, position, u, v)));
    }
    sum
}

/// The sum over the faces normal to an axis at a position.
#[inline]
fn side_sum(n: usize, g: usize, axis: Axis, faces: &[i64], position: usize) -> i128
    requires size { IsSize n g }
    requires faces { AreFluxes n g axis faces.now }
    requires inside { position < n + 1 }
    ensures value { result ≡ applied.side_sum n axis (inner g (number_at (face_extents n g axis) faces.now)) position }
    ensures size { Within (2 ^ 64) result }
{
    let mut sum = 0;
    for v in 0..n {
        sum = add(sum, line_sum(n, g, axis, faces, position, v));
    }
    sum
}

/// The sum over the faces of a side, where it is chosen.
#[inline]
fn chosen_sum(n: usize, g: usize, axis: Axis, faces: &[i64], position: usize, chosen: bool) -> i128
    requires size { IsSize n g }
    requires faces { AreFluxes n g axis faces.now }
    requires inside { position < n + 1 }
    ensures value { result ≡ (if chosen then applied.side_sum n axis (inner g (number_at (face_extents n g axis) faces.now)) position else pos 0) }
    ensures size { Within (2 ^ 64) result }
{
    if chosen {
        side_sum(n, g, axis, faces, position)
    } else {
        0
    }
}

/// What flows out through the low and the high side of an axis, where these are chosen.
#[inline]
fn outflow(n: usize, g: usize, axis: Axis, faces: &[i64], low: bool, high: bool) -> i128
    requires size { IsSize n g }
    requires faces { AreFluxes n g axis faces.now }
    ensures value { result ≡ out_along n axis (inner g (number_at (face_extents n g axis) faces.now)) low high }
    ensures size { Within (2 ^ 65) result }
{
    chosen_sum(n, g, axis, faces, n, high) - chosen_sum(n, g, axis, faces, 0, low)
}

/// Sets a block's cells to their contents after a step, from the fluxes through its faces normal to each axis, and leaves
/// the guard cells of `out`: each cell loses high minus low of its faces' fluxes, added over the axes. Tells what flows
/// out through the sides that `outer` names, in the order x low, x high, y low, y high, z low, z high.
///
/// Where a new content is above 2^40 in absolute value, the first such cell, x fastest, then y, then z, is refused with
/// that content, and what `out` holds then is not said.
pub fn apply<const N: usize, const G: usize>(
    cells: &[i64],
    fx: &[i64],
    fy: &[i64],
    fz: &[i64],
    outer: [bool; 6],
    out: &mut [i64],
) -> Result<i128, RangeAt>
    requires size { IsSize N G }
    requires arrays { AreStepArrays N G cells.now fx.now fy.now fz.now }
    requires out { length out.old ≡ size_of (cell_extents N G) }
    ensures left { IfOk result (λ flown. IsApplied N G (flows_in N G cells.now fx.now fy.now fz.now) out.old out.new) }
    ensures in_range { IfOk result (λ flown. AreInRange N (left_at (flows_in N G cells.now fx.now fy.now fz.now))) }
    ensures flown { IfOk result (λ flown. flown ≡ out_through N (flows_in N G cells.now fx.now fy.now fz.now) outer) }
    ensures refused { IfErr result (λ at. first_out N (left_at (flows_in N G cells.now fx.now fy.now fz.now)) ≡ Some at) }
{
    apply_cells(N, G, cells, fx, fy, fz, out);
    match block_above(N, G, out) {
        Some(found) => Err(cell_at(found)),
        None => {
            let along_x = outflow(N, G, Axis::X, fx, outer[0], outer[1]);
            let along_y = outflow(N, G, Axis::Y, fy, outer[2], outer[3]);
            let along_z = outflow(N, G, Axis::Z, fz, outer[4], outer[5]);
            Ok(add(add(along_x, along_y), along_z))
        }
    }
}
