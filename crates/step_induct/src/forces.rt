//! The electromotive forces of a block's edges.

ghost use Rattle.amr_num.specs.Numbers.{Within, at};
ghost use Rattle.amr_num.specs.declared.Axis.TheVariants.{X, Y, Z};
ghost use Rattle.mesh_model.specs.Fields.Advect.{speed, three};
ghost use Rattle.mesh_model.specs.Fields.ArrayPlaces.{IsRowWritten, IsSize, edge_extents, face_extents, number_at, row_of, size_of};
ghost use Rattle.mesh_model.specs.Fields.EdgeSplits.{edge_box};
ghost use Rattle.mesh_model.specs.Fields.FaceSplits as splits;
ghost use Rattle.mesh_model.specs.Fields.FaceSplits.{by_axis};
ghost use Rattle.mesh_model.specs.Geometry.Coordinates as coordinates;
ghost use Rattle.mesh_model.specs.Geometry.Places.{longer_across};
ghost use Rattle.std.specs.Prelude.{◌≡◌, ℕ, ◌+◌, ◌*◌, ◌/◌, ◌%◌, ◌^◌, ◌<◌, ◌≤◌, length, unsigned_abs};
ghost use Rattle.step_induct.specs.Forces as forces;
ghost use Rattle.step_induct.specs.Forces.{AreEdgesWithin, AreFaceArrays, AreFacesNear, IsForced, IsSlow, flow_of, force_at, upstream_number};

use crate::circling::{Size, along, less};
use amr_num::{Axis, carry};
use block_store::{Extents, place, row};
use mesh_model::geometry::axes::after;

/// How a block is flowed through: at which level, at which speed on each axis, and which of its sides are closed.
#[derive(Clone, Copy)]
struct BlockFlow {
    level: u32,
    speeds: [i64; 3],
    closed: [bool; 6],
}

/// The speed on an axis.
#[inline]
fn speed_on(flow: &BlockFlow, axis: Axis) -> i64
    ensures { result ≡ speed (three flow.now.speeds) axis }
{
    match axis {
        Axis::X => flow.speeds[0],
        Axis::Y => flow.speeds[1],
        Axis::Z => flow.speeds[2],
    }
}

/// `h` on the axis itself, and 0 on others.
#[inline]
fn step_on(axis: Axis, other: Axis, h: usize) -> usize
    ensures { result ≡ coordinates.on other (coordinates.step axis h) }
{
    if axis == other { h } else { 0 }
}

/// The place on an axis.
#[inline]
fn position(axis: Axis, i: usize, j: usize, k: usize) -> usize
    ensures { result ≡ splits.position axis i j k }
{
    match axis {
        Axis::X => i,
        Axis::Y => j,
        Axis::Z => k,
    }
}

/// Whether a position on an axis lies on a closed side.
#[inline]
fn is_closed_position(n: usize, flow: &BlockFlow, axis: Axis, position: usize) -> bool
    ensures { result ≡ forces.is_closed_position n flow.now.closed axis position }
{
    let (low, high) = match axis {
        Axis::X => (flow.closed[0], flow.closed[1]),
        Axis::Y => (flow.closed[2], flow.closed[3]),
        Axis::Z => (flow.closed[4], flow.closed[5]),
    };
    let is_low = position == 0;
    let is_high = position == n;
    (is_low && low) || (is_high && high)
}

/// Whether an edge along an axis does.
#[inline]
fn is_closed_edge(n: usize, flow: &BlockFlow, axis: Axis, i: usize, j: usize, k: usize) -> bool
    ensures { result ≡ forces.is_closed_edge n flow.now.closed axis i j k }
{
    let b = after(axis);
    let c = after(b);
    let on_b = is_closed_position(n, flow, b, position(b, i, j, k));
    let on_c = is_closed_position(n, flow, c, position(c, i, j, k));
    on_b || on_c
}

/// The force of an edge along an axis, from the numbers of the faces upstream that are normal to the next two axes.
#[tactic(auto, unfolding(crate::specs::Forces::force_from))]
#[inline]
fn force_from(
    n: usize,
    axis: Axis,
    flow: &BlockFlow,
    face_b: i64,
    face_c: i64,
    i: usize,
    j: usize,
    k: usize,
) -> i64
    requires slow { IsSlow (flow_of flow.now) }
    requires first { Within (2 ^ 56) face_b }
    requires second { Within (2 ^ 56) face_c }
    ensures { result ≡ forces.force_from n axis (flow_of flow.now) face_b face_c i j k }
{
    if is_closed_edge(n, flow, axis, i, j, k) {
        0
    } else {
        let b = after(axis);
        let c = after(b);
        let forth = carry(speed_on(flow, c), flow.level, face_b);
        let back = carry(speed_on(flow, b), flow.level, face_c);
        less(forth, back)
    }
}

/// The forces of a row of edges.
#[inline]
fn force_row(
    n: usize,
    axis: Axis,
    flow: &BlockFlow,
    faces_b: &[i64],
    faces_c: &[i64],
    j: usize,
    k: usize,
    out: &mut [i64],
)
    requires slow { IsSlow (flow_of flow.now) }
    requires first { length faces_b.now ≡ length out.old }
    requires second { length faces_c.now ≡ length out.old }
    requires first_small { (t : ℕ) → t < length out.old → Within (2 ^ 56) (at faces_b.now t) }
    requires second_small { (t : ℕ) → t < length out.old → Within (2 ^ 56) (at faces_c.now t) }
    ensures size { length out.new ≡ length out.old }
    ensures forces { (t : ℕ) → t < length out.old → at out.new t ≡ forces.force_from n axis (flow_of flow.now) (at faces_b.now t) (at faces_c.now t) t j k }
{
    for t in 0..out.len() {
        out[t] = force_from(n, axis, flow, faces_b[t], faces_c[t], t, j, k);
    }
}

/// A row of the faces upstream on an axis, of those that are normal to another.
#[inline]
fn upstream_row<'a>(
    size: Size,
    normal: Axis,
    values: &'a [i64],
    axis: Axis,
    flow: &BlockFlow,
    j: usize,
    k: usize,
    many: usize,
) -> &'a [i64]
    requires size { IsSize size.n size.g }
    requires whole { length values.now ≡ size_of (face_extents size.n size.g normal) }
    requires some { 0 < many }
    requires inside { (many ≤ size.n + 1) × (j ≤ size.n) × (k ≤ size.n) }
    ensures size { length result.now ≡ many }
    ensures numbers { (t : ℕ) → t < many → at result.now t ≡ upstream_number axis (speed (three flow.now.speeds) axis) (number_at (face_extents size.n size.g normal) values.now) (size.g + t) (size.g + j) (size.g + k) }
{
    let Size { n, g } = size;
    let back = if speed_on(flow, axis) < 0 { 0 } else { 1 };
    row(
        Extents::of_faces(n, g, normal),
        values,
        g - step_on(axis, Axis::X, back),
        g + j - step_on(axis, Axis::Y, back),
        g + k - step_on(axis, Axis::Z, back),
        many,
    )
}

/// Sets a row of a block's edges along an axis to their forces.
#[inline]
fn edge_row(
    size: Size,
    axis: Axis,
    bx: &[i64],
    by: &[i64],
    bz: &[i64],
    flow: &BlockFlow,
    j: usize,
    k: usize,
    out: &mut [i64],
)
    requires size { IsSize size.n size.g }
    requires arrays { AreFaceArrays size.n size.g (by_axis bx.now by.now bz.now) }
    requires slow { IsSlow (flow_of flow.now) }
    requires inside { (j < longer_across axis Y size.n) × (k < longer_across axis Z size.n) }
    requires out { length out.old ≡ longer_across axis X size.n }
    ensures size { length out.new ≡ length out.old }
    ensures numbers { (t : ℕ) → t < longer_across axis X size.n → at out.new t ≡ force_at size.n size.g axis (flow_of flow.now) (by_axis bx.now by.now bz.now) t j k }
{
    let b = after(axis);
    let c = after(b);
    let normal_b = along(b, bx, by, bz);
    let normal_c = along(c, bx, by, bz);
    let many = out.len();
    let faces_b = upstream_row(size, b, normal_b, c, flow, j, k, many);
    let faces_c = upstream_row(size, c, normal_c, b, flow, j, k, many);
    force_row(size.n, axis, flow, faces_b, faces_c, j, k, out);
}

/// Sets the `m`-th row of a block's edges along an axis.
#[inline]
fn row_of_edges(
    size: Size,
    axis: Axis,
    bx: &[i64],
    by: &[i64],
    bz: &[i64],
    flow: &BlockFlow,
    m: usize,
    out: &mut [i64],
)
    requires size { IsSize size.n size.g }
    requires arrays { AreFaceArrays size.n size.g (by_axis bx.now by.now bz.now) }
    requires slow { IsSlow (flow_of flow.now) }
    requires row { m < longer_across axis Y size.n * longer_across axis Z size.n }
    requires out { length out.old ≡ size_of (edge_extents size.n size.g axis) }
    ensures { let h = longer_across axis Y size.n in
        IsRowWritten (row_of (edge_extents size.n size.g axis) (edge_box size.n size.g axis) m) (longer_across axis X size.n)
        (λ t. force_at size.n size.g axis (flow_of flow.now) (by_axis bx.now by.now bz.now) t (m % h) (m / h)) out.old out.new }
{
    let Size { n, g } = size;
    let many = Extents::of_block_edges(n, axis);
    let j = m % many.y;
    let k = m / many.y;
    let to = place(Extents::of_edges(n, g, axis), g, g + j, g + k);
    edge_row(
        size,
        axis,
        bx,
        by,
        bz,
        flow,
        j,
        k,
        &mut out[to..to + many.x],
    );
}

/// Sets a block's edges along an axis.
#[inline]
fn edges(
    size: Size,
    axis: Axis,
    bx: &[i64],
    by: &[i64],
    bz: &[i64],
    flow: &BlockFlow,
    out: &mut [i64],
)
    requires size { IsSize size.n size.g }
    requires arrays { AreFaceArrays size.n size.g (by_axis bx.now by.now bz.now) }
    requires slow { IsSlow (flow_of flow.now) }
    requires out { length out.old ≡ size_of (edge_extents size.n size.g axis) }
    ensures forces { IsForced size.n size.g axis (flow_of flow.now) (by_axis bx.now by.now bz.now) out.old out.new }
    ensures size { (most : ℕ) → AreFacesNear most size.n size.g (by_axis bx.now by.now bz.now) → AreEdgesWithin (2 * most) size.n size.g axis (number_at (edge_extents size.n size.g axis) out.new) }
{
    let many = Extents::of_block_edges(size.n, axis);
    for m in 0..many.y * many.z {
        row_of_edges(size, axis, bx, by, bz, flow, m, out);
    }
}

/// Sets each edge of a block along an axis, those on its sides among them, to its electromotive force, and leaves all else of
/// the array. `bx`, `by` and `bz` are the arrays of the block's faces normal to each axis, all of blocks of `N` cells along
/// each axis with `G` guard cells on each side. The speeds on x, y and z count in 2^-20 of the coarsest cell a step, and each
/// moves at most one cell of the block's level.
///
/// With b and c the axes after `axis` in the cycle x, y, z, an edge gets what the speed on c carries of the upstream face
/// normal to b, less what the speed on b carries of the upstream face normal to c. The upstream face is the one that the
/// speed comes from of the two beside the edge: the one on the low side for a speed that is not negative, and on the high
/// side for a negative one. For edges on the block's sides it may be a guard, of which the layer beside the block is read.
/// The numbers there and on the block's faces are at most 2^56 in absolute value.
///
/// `closed` says which of the block's sides are closed, in the order x low, x high, y low, y high, z low, z high. An edge on a
/// closed side gets 0.
pub fn edge_values<const N: usize, const G: usize>(
    bx: &[i64],
    by: &[i64],
    bz: &[i64],
    axis: Axis,
    level: u32,
    speeds: [i64; 3],
    closed: [bool; 6],
    out: &mut [i64],
)
    requires size { IsSize N G }
    requires arrays { AreFaceArrays N G (by_axis bx.now by.now bz.now) }
    requires slow { IsSlow (record { level = level; speeds = three speeds; closed = closed }) }
    requires out { length out.old ≡ size_of (edge_extents N G axis) }
    ensures forces { IsForced N G axis (record { level = level; speeds = three speeds; closed = closed }) (by_axis bx.now by.now bz.now) out.old out.new }
    ensures size { (most : ℕ) → AreFacesNear most N G (by_axis bx.now by.now bz.now) → AreEdgesWithin (2 * most) N G axis (number_at (edge_extents N G axis) out.new) }
{
    let size = Size { n: N, g: G };
    let flow = BlockFlow {
        level,
        speeds,
        closed,
    };
    match axis {
        Axis::X => edges(size, Axis::X, bx, by, bz, &flow, out),
        Axis::Y => edges(size, Axis::Y, bx, by, bz, &flow, out),
        Axis::Z => edges(size, Axis::Z, bx, by, bz, &flow, out),
    }
}
