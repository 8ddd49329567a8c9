//! Fluxes through the faces of a block.

ghost use Rattle.amr_num.specs.Numbers.{Within, at};
ghost use Rattle.amr_num.specs.declared.Axis.TheVariants.{X, Y, Z};
ghost use Rattle.mesh_model.specs.Fields.ArrayPlaces.{IsRowWritten, IsSize, cell_extents, face_extents, number_at, row_of, size_of};
ghost use Rattle.mesh_model.specs.Geometry.Coordinates as coordinates;
ghost use Rattle.mesh_model.specs.Geometry.Places as places;
ghost use Rattle.mesh_model.specs.Geometry.Places.{longer_on};
ghost use Rattle.std.specs.Prelude.{◌≡◌, ℕ, ◌+◌, ◌*◌, ◌/◌, ◌%◌, ◌^◌, ◌<◌, ◌≤◌, length, unsigned_abs};
ghost use Rattle.step_advect.specs.Fluxed as fluxed;
ghost use Rattle.step_advect.specs.Fluxed.{AreFacesWithin, AreSidesWithin, IsFluxed, IsSlow, block_faces, donor_at, flow_of, flux_at};

use amr_num::{Axis, carry};
use block_store::{Cells, Extents, place, row};

/// How a block is flowed through along an axis: at which level and speed, and which of its two sides are closed.
#[derive(Clone, Copy)]
struct FlowAlong {
    level: u32,
    speed: i64,
    closed_low: bool,
    closed_high: bool,
}

/// How many faces normal to `axis` stand side by side along `other` in a block of `n` cells.
#[inline]
fn longer(axis: Axis, other: Axis, n: usize) -> usize
    requires { n ≤ 8 }
    ensures { result ≡ longer_on axis other n }
{
    if axis == other { n + 1 } else { n }
}

/// `h` along the axis itself, and 0 along others.
#[inline]
fn step(axis: Axis, other: Axis, h: usize) -> usize
    ensures { result ≡ coordinates.on other (coordinates.step axis h) }
{
    if axis == other { h } else { 0 }
}

/// The place on an axis.
#[inline]
fn along(axis: Axis, i: usize, j: usize, k: usize) -> usize
    ensures { result ≡ fluxed.along axis i j k }
{
    match axis {
        Axis::X => i,
        Axis::Y => j,
        Axis::Z => k,
    }
}

/// Whether the faces at a position lie on a closed side.
#[inline]
fn is_closed(n: usize, flow: &FlowAlong, position: usize) -> bool
    ensures { result ≡ places.is_on_side n flow.now.closed_low flow.now.closed_high position }
{
    let low = position == 0;
    let high = position == n;
    (low && flow.closed_low) || (high && flow.closed_high)
}

/// The flux through a face of a row from its donor.
#[tactic(auto, unfolding(crate::specs::Fluxed::flux_from))]
#[inline]
fn flux_from(
    n: usize,
    axis: Axis,
    flow: &FlowAlong,
    donors: &[i64],
    t: usize,
    j: usize,
    k: usize,
) -> i64
    requires slow { IsSlow (flow_of flow.now) }
    requires inside { t < length donors.now }
    requires small { Within (2 ^ 56) (at donors.now t) }
    ensures { result ≡ fluxed.flux_from n axis (flow_of flow.now) (at donors.now t) t j k }
{
    if is_closed(n, flow, along(axis, t, j, k)) {
        0
    } else {
        carry(flow.speed, flow.level, donors[t])
    }
}

/// The donors of a row of faces: of the cells on both sides those that the speed comes from.
#[inline]
fn donor_row<'a>(
    n: usize,
    g: usize,
    cells: &'a [i64],
    axis: Axis,
    flow: &FlowAlong,
    j: usize,
    k: usize,
) -> &'a [i64]
    requires size { IsSize n g }
    requires cells { length cells.now ≡ size_of (cell_extents n g) }
    requires row { (j < longer_on axis Y n) × (k < longer_on axis Z n) }
    ensures size { length result.now ≡ longer_on axis X n }
    ensures donors { (t : ℕ) → t < longer_on axis X n → at result.now t ≡ donor_at axis flow.now.speed (number_at (cell_extents n g) cells.now) (g + t) (g + j) (g + k) }
{
    let back = if flow.speed < 0 { 0 } else { 1 };
    row(
        Extents::of_cells(n, g),
        cells,
        g - step(axis, Axis::X, back),
        g + j - step(axis, Axis::Y, back),
        g + k - step(axis, Axis::Z, back),
        longer(axis, Axis::X, n),
    )
}

/// The fluxes through a row of faces from its donors.
#[inline]
fn flux_donors(
    n: usize,
    axis: Axis,
    flow: &FlowAlong,
    donors: &[i64],
    j: usize,
    k: usize,
    out: &mut [i64],
)
    requires slow { IsSlow (flow_of flow.now) }
    requires donors { length donors.now ≡ length out.old }
    requires small { (t : ℕ) → t < length out.old → Within (2 ^ 56) (at donors.now t) }
    ensures size { length out.new ≡ length out.old }
    ensures fluxes { (t : ℕ) → t < length out.old → at out.new t ≡ fluxed.flux_from n axis (flow_of flow.now) (at donors.now t) t j k }
{
    for t in 0..out.len() {
        out[t] = flux_from(n, axis, flow, donors, t, j, k);
    }
}

/// Sets the `m`-th row of the faces of a block normal to an axis to their fluxes.
#[inline]
fn flux_row(
    n: usize,
    g: usize,
    cells: &[i64],
    axis: Axis,
    flow: &FlowAlong,
    out: &mut [i64],
    m: usize,
)
    requires size { IsSize n g }
    requires cells { length cells.now ≡ size_of (cell_extents n g) }
    requires slow { IsSlow (flow_of flow.now) }
    requires small { AreSidesWithin (2 ^ 56) n g axis (number_at (cell_extents n g) cells.now) }
    requires out { length out.old ≡ size_of (face_extents n g axis) }
    requires row { m < longer_on axis Y n * longer_on axis Z n }
    ensures { let b = block_faces n g axis in
        IsRowWritten (row_of (face_extents n g axis) b m) b.along_x
        (λ t. flux_at n g axis (flow_of flow.now) (number_at (cell_extents n g) cells.now) t (m % b.along_y) (m / b.along_y)) out.old out.new }
{
    let many = longer(axis, Axis::X, n);
    let rows = longer(axis, Axis::Y, n);
    let j = m % rows;
    let k = m / rows;
    let donors = donor_row(n, g, cells, axis, flow, j, k);
    let to = place(Extents::of_faces(n, g, axis), g, g + j, g + k);
    flux_donors(n, axis, flow, donors, j, k, &mut out[to..to + many]);
}

/// Sets the faces of a block normal to an axis to their fluxes.
#[inline]
fn flux_faces(n: usize, g: usize, cells: &[i64], axis: Axis, flow: &FlowAlong, out: &mut [i64])
    requires size { IsSize n g }
    requires cells { length cells.now ≡ size_of (cell_extents n g) }
    requires slow { IsSlow (flow_of flow.now) }
    requires small { AreSidesWithin (2 ^ 56) n g axis (number_at (cell_extents n g) cells.now) }
    requires out { length out.old ≡ size_of (face_extents n g axis) }
    ensures fluxes { IsFluxed n g axis (flow_of flow.now) cells.now out.old out.new }
    ensures size { (most : ℕ) → AreSidesWithin most n g axis (number_at (cell_extents n g) cells.now)
        → AreFacesWithin most n g axis (number_at (face_extents n g axis) out.new) }
{
    for m in 0..longer(axis, Axis::Y, n) * longer(axis, Axis::Z, n) {
        flux_row(n, g, cells, axis, flow, out, m);
    }
}

/// Sets the faces of a block normal to an axis to what a speed carries through them in a step, and leaves all else of
/// the array. The speed counts in 2^-20 of the coarsest cell a step, and moves at most one cell of the block's level.
///
/// Each face gets what is carried of its donor, which is the cell beside it that the speed comes from: the one on the
/// low side for a speed that is not negative, and on the high side for a negative one. The donors of the faces on the
/// block's sides may be guard cells, of which the layer beside the block is read. A face on a closed side gets 0.
pub fn face_fluxes<const N: usize, const G: usize>(
    cells: &Cells<N, G>,
    axis: Axis,
    level: u32,
    speed: i64,
    closed_low: bool,
    closed_high: bool,
    out: &mut [i64],
)
    requires level { level ≤ 10 }
    requires speed { unsigned_abs speed * 2 ^ level ≤ 2 ^ 20 }
    requires small { AreSidesWithin (2 ^ 56) N G axis (number_at (cell_extents N G) cells.now) }
    requires out { length out.old ≡ size_of (face_extents N G axis) }
    ensures fluxes { IsFluxed N G axis (record { level = level; speed = speed; closed_low = closed_low; closed_high = closed_high }) cells.now out.old out.new }
    ensures size { (most : ℕ) → AreSidesWithin most N G axis (number_at (cell_extents N G) cells.now)
        → AreFacesWithin most N G axis (number_at (face_extents N G axis) out.new) }
{
    let flow = FlowAlong {
        level,
        speed,
        closed_low,
        closed_high,
    };
    let values = cells.values();
    match axis {
        Axis::X => flux_faces(N, G, values, Axis::X, &flow, out),
        Axis::Y => flux_faces(N, G, values, Axis::Y, &flow, out),
        Axis::Z => flux_faces(N, G, values, Axis::Z, &flow, out),
    }
}
