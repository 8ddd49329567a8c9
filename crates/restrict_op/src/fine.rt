//! Sums of faces and of edges.

ghost use Rattle.amr_num.specs.Numbers.{Within, at, sum_below};
ghost use Rattle.mesh_model.specs.Fields.ArrayPlaces as places;
ghost use Rattle.mesh_model.specs.Fields.ArrayPlaces.{IsRowWritten, IsSize, extents_of, number_at, row_of, size_of};
ghost use Rattle.mesh_model.specs.Fields.FinePlaces as fine;
ghost use Rattle.mesh_model.specs.Fields.FinePlaces.{FineSumsAreSmall, IsSummed, array_octant, fine_step, fine_summed};
ghost use Rattle.mesh_model.specs.declared.fields.values.Var.TheVariants.{Edge, Face};
ghost use Rattle.std.specs.Prelude.{◌≡◌, ℕ, ◌+◌, ◌*◌, ◌/◌, ◌%◌, ◌^◌, ◌<◌, ◌≤◌, ◌+ℤ◌, length, slice_index};

use amr_num::Axis;
use block_store::{Extents, place};
use mesh_model::Var;

/// How many finer numbers make up one: eight sub-cells, four subfaces or two halves of an edge.
fn fine_count(var: Var) -> usize
    ensures value { result ≡ fine.fine_count var }
    ensures few { result ≤ 8 }
{
    match var {
        Var::Cell(_) | Var::CellWork => 8,
        Var::Face(_) | Var::FaceWork(_) => 4,
        Var::Edge(_) | Var::EdgeWork(_) => 2,
    }
}

/// How far in the list the finer number `q` of a face stands beyond the first.
fn quarter_place(axis: Axis, extents: Extents, q: usize) -> usize
    requires small { (extents.x ≤ 17) × (extents.y ≤ 17) × (extents.z ≤ 17) }
    requires two { (2 ≤ extents.x) × (2 ≤ extents.y) × (2 ≤ extents.z) }
    ensures { let s = fine_step (Face axis) q in result ≡ places.place_in extents s.x s.y s.z }
{
    match axis {
        Axis::X => place(extents, 0, q % 2, q / 2 % 2),
        Axis::Y => place(extents, q % 2, 0, q / 2 % 2),
        Axis::Z => place(extents, q % 2, q / 2 % 2, 0),
    }
}

/// How far in the list the half `h` of an edge stands beyond the first.
fn half_place(axis: Axis, extents: Extents, h: usize) -> usize
    requires small { (extents.x ≤ 17) × (extents.y ≤ 17) × (extents.z ≤ 17) }
    requires two { (2 ≤ extents.x) × (2 ≤ extents.y) × (2 ≤ extents.z) }
    ensures { let s = fine_step (Edge axis) h in result ≡ places.place_in extents s.x s.y s.z }
{
    match axis {
        Axis::X => place(extents, h % 2, 0, 0),
        Axis::Y => place(extents, 0, h % 2, 0),
        Axis::Z => place(extents, 0, 0, h % 2),
    }
}

/// How far in the list the finer number `q` of those that make up one stands beyond the first.
fn fine_place(var: Var, extents: Extents, q: usize) -> usize
    requires small { (extents.x ≤ 17) × (extents.y ≤ 17) × (extents.z ≤ 17) }
    requires two { (2 ≤ extents.x) × (2 ≤ extents.y) × (2 ≤ extents.z) }
    ensures { let s = fine_step var q in result ≡ places.place_in extents s.x s.y s.z }
{
    match var {
        Var::Cell(_) | Var::CellWork => place(extents, q % 2, q / 2 % 2, q / 4 % 2),
        Var::Face(axis) | Var::FaceWork(axis) => quarter_place(axis, extents, q),
        Var::Edge(axis) | Var::EdgeWork(axis) => half_place(axis, extents, q),
    }
}

/// How far each of them stands beyond the first.
fn fine_places(var: Var, extents: Extents, steps: &mut [usize])
    requires small { (extents.x ≤ 17) × (extents.y ≤ 17) × (extents.z ≤ 17) }
    requires two { (2 ≤ extents.x) × (2 ≤ extents.y) × (2 ≤ extents.z) }
    ensures size { length steps.new ≡ length steps.old }
    ensures steps { (q : ℕ) → q < length steps.old → let s = fine_step var q in slice_index steps.new q ≡ places.place_in extents s.x s.y s.z }
{
    for q in 0..steps.len() {
        steps[q] = fine_place(var, extents, q);
    }
}

/// A sum with one number more.
#[inline]
fn plus(sum: i128, number: i64) -> i128
    requires { Within (8 * 2 ^ 64) sum }
    ensures value { result ≡ sum +ℤ number }
    ensures size { (m : ℕ) → Within (m * 2 ^ 64) sum → Within ((m + 1) * 2 ^ 64) result }
{
    sum + i128::from(number)
}

/// The sum of the numbers that stand at some steps beyond a place.
fn sum_at(values: &[i64], from: usize, steps: &[usize]) -> i64
    requires few { length steps.now ≤ 8 }
    requires inside { (q : ℕ) → q < length steps.now → from + slice_index steps.now q < length values.now }
    requires small { Within (2 ^ 62) (sum_below (length steps.now) (λ q. at values.now (from + slice_index steps.now q))) }
    ensures { result ≡ sum_below (length steps.now) (λ q. at values.now (from + slice_index steps.now q)) }
{
    let mut sum = 0i128;
    for q in 0..steps.len() {
        sum = plus(sum, values[from + steps[q]]);
    }
    sum as i64
}

/// The sums of a row of a child: of every other place from one on.
fn sum_row(values: &[i64], from: usize, steps: &[usize], out: &mut [i64])
    requires few { length steps.now ≤ 8 }
    requires short { length out.old ≤ 8 }
    requires long { from + 2 * length out.old ≤ 2 ^ 32 }
    requires inside { (t q : ℕ) → t < length out.old → q < length steps.now → from + 2 * t + slice_index steps.now q < length values.now }
    requires small { (t : ℕ) → t < length out.old → Within (2 ^ 62) (sum_below (length steps.now) (λ q. at values.now (from + 2 * t + slice_index steps.now q))) }
    ensures size { length out.new ≡ length out.old }
    ensures sums { (t : ℕ) → t < length out.old → at out.new t ≡ sum_below (length steps.now) (λ q. at values.now (from + 2 * t + slice_index steps.now q)) }
{
    for t in 0..out.len() {
        out[t] = sum_at(values, from + 2 * t, steps);
    }
}

/// The places along each axis of half a block with `half` cells there, in a variable's array.
fn half_extents(half: usize, var: Var) -> Extents
    requires { half ≤ 4 }
    ensures { result ≡ fine.half_extents half var }
{
    let far = half + 1;
    match var {
        Var::Cell(_) | Var::CellWork => Extents {
            x: half,
            y: half,
            z: half,
        },
        Var::Face(axis) | Var::FaceWork(axis) => Extents {
            x: if axis == Axis::X { far } else { half },
            y: if axis == Axis::Y { far } else { half },
            z: if axis == Axis::Z { far } else { half },
        },
        Var::Edge(axis) | Var::EdgeWork(axis) => Extents {
            x: if axis == Axis::X { half } else { far },
            y: if axis == Axis::Y { half } else { far },
            z: if axis == Axis::Z { half } else { far },
        },
    }
}

/// A block's array of a variable, and the octant of it that stands for a child.
#[derive(Clone, Copy)]
struct Octant {
    n: usize,
    g: usize,
    var: Var,
    q: usize,
}

/// Sets the `m`-th row of an octant of a block to the sums of the child's numbers there.
fn sum_octant_row(octant: Octant, steps: &[usize], child: &[i64], parent: &mut [i64], m: usize)
    requires size { IsSize octant.n octant.g }
    requires octant { octant.q < 8 }
    requires count { length steps.now ≡ fine.fine_count octant.var }
    requires steps { (q : ℕ) → q < length steps.now → let s = fine_step octant.var q in
        slice_index steps.now q ≡ places.place_in (extents_of octant.n octant.g octant.var) s.x s.y s.z }
    requires child { length child.now ≡ size_of (extents_of octant.n octant.g octant.var) }
    requires parent { length parent.old ≡ size_of (extents_of octant.n octant.g octant.var) }
    requires few { FineSumsAreSmall octant.n octant.g octant.var (number_at (extents_of octant.n octant.g octant.var) child.now) }
    requires row { let h = fine.half_extents (octant.n / 2) octant.var in m < h.y * h.z }
    ensures { let e = extents_of octant.n octant.g octant.var in let h = fine.half_extents (octant.n / 2) octant.var in
        IsRowWritten (row_of e (array_octant octant.n octant.g octant.var octant.q) m) h.x
        (λ t. fine_summed octant.g octant.var (number_at e child.now) t (m % h.y) (m / h.y)) parent.old parent.new }
{
    let Octant { n, g, var, q } = octant;
    let half = n / 2;
    let extents = Extents::of(n, g, var);
    let along = half_extents(half, var);
    let j = m % along.y;
    let k = m / along.y;
    let x = g + half * (q % 2);
    let y = g + half * (q / 2 % 2) + j;
    let z = g + half * (q / 4 % 2) + k;
    let to = place(extents, x, y, z);
    let from = place(extents, g, g + 2 * j, g + 2 * k);
    sum_row(child, from, steps, &mut parent[to..to + along.x]);
}

/// Sets an octant of a block to the sums of its child's numbers there.
fn sum_octant(octant: Octant, child: &[i64], parent: &mut [i64])
    requires size { IsSize octant.n octant.g }
    requires octant { octant.q < 8 }
    requires child { length child.now ≡ size_of (extents_of octant.n octant.g octant.var) }
    requires parent { length parent.old ≡ size_of (extents_of octant.n octant.g octant.var) }
    requires few { FineSumsAreSmall octant.n octant.g octant.var (number_at (extents_of octant.n octant.g octant.var) child.now) }
    ensures { IsSummed octant.n octant.g octant.var octant.q child.now parent.old parent.new }
{
    let Octant { n, g, var, q: _ } = octant;
    let mut room = [0usize; 8];
    let steps = &mut room[..fine_count(var)];
    fine_places(var, Extents::of(n, g, var), steps);
    let along = half_extents(n / 2, var);
    for m in 0..along.y * along.z {
        sum_octant_row(octant, steps, child, parent, m);
    }
}

/// Sets the octant `octant` of a block's faces normal to an axis, which is i + 2 j + 4 k for the halves i on x, j on y
/// and k on z, to the sums of the four faces of its child at each of them, those on the octant's sides among them. All
/// else stays.
pub fn restrict_faces<const N: usize, const G: usize>(
    axis: Axis,
    octant: u32,
    child: &[i64],
    parent: &mut [i64],
)
    requires size { IsSize N G }
    requires octant { octant < 8 }
    requires child { length child.now ≡ size_of (extents_of N G (Face axis)) }
    requires parent { length parent.old ≡ size_of (extents_of N G (Face axis)) }
    requires few { FineSumsAreSmall N G (Face axis) (number_at (extents_of N G (Face axis)) child.now) }
    ensures { IsSummed N G (Face axis) octant child.now parent.old parent.new }
{
    let octant = Octant {
        n: N,
        g: G,
        var: Var::Face(axis),
        q: octant as usize,
    };
    sum_octant(octant, child, parent);
}

/// Sets the octant `octant` of a block's edges along an axis to the sums of the two edges of its child at each of them,
/// those on the octant's sides among them. All else stays.
pub fn restrict_edges<const N: usize, const G: usize>(
    axis: Axis,
    octant: u32,
    child: &[i64],
    parent: &mut [i64],
)
    requires size { IsSize N G }
    requires octant { octant < 8 }
    requires child { length child.now ≡ size_of (extents_of N G (Edge axis)) }
    requires parent { length parent.old ≡ size_of (extents_of N G (Edge axis)) }
    requires few { FineSumsAreSmall N G (Edge axis) (number_at (extents_of N G (Edge axis)) child.now) }
    ensures { IsSummed N G (Edge axis) octant child.now parent.old parent.new }
{
    let octant = Octant {
        n: N,
        g: G,
        var: Var::Edge(axis),
        q: octant as usize,
    };
    sum_octant(octant, child, parent);
}
