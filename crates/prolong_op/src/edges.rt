//! Parts of edges, and the means between them.

ghost use Rattle.amr_num.specs.Numbers.{Within, at, number_range};
ghost use Rattle.amr_num.specs.declared.Axis.TheVariants.{X, Y, Z};
ghost use Rattle.amr_num.specs.declared.Axis.{Axis as Axes};
ghost use Rattle.mesh_model.specs.Fields.ArrayPlaces as places;
ghost use Rattle.mesh_model.specs.Fields.ArrayPlaces.{IsRowWritten, IsSize, IsWritten, edge_extents, number_at, size_of};
ghost use Rattle.mesh_model.specs.Fields.EdgeSplits as splits;
ghost use Rattle.mesh_model.specs.Fields.EdgeSplits.{AreEdgesSplit, EdgeSourcesAreSmall, IsAxisSplit, all_edges, edge_box, edge_mean};
ghost use Rattle.mesh_model.specs.Fields.FaceSplits.{by_axis, position as position_on};
ghost use Rattle.mesh_model.specs.Geometry.Coordinates as coordinates;
ghost use Rattle.mesh_model.specs.Geometry.Places.{longer_across};
ghost use Rattle.prolong_op.specs.EdgeSplitting as splitting;
ghost use Rattle.prolong_op.specs.EdgeSplitting.{EvenEdgesAreSmall, edge_given, edge_part_or_old};
ghost use Rattle.std.specs.Prelude.{◌≡◌, ℕ, ◌+◌, ◌/◌, ◌%◌, ◌<◌, ◌≤◌, length};

use crate::common::{Row, Split, write_row};
use amr_num::{Axis, mean4, part};
use block_store::{Extents, edge_direction, is_kept, place, position, row};
use mesh_model::Var;
use mesh_model::geometry::axes::after;

/// Sets the edges of the child `octant` of a block, which is i + 2 j + 4 k for the halves i on x, j on y and k on z: those
/// along x in `cx` from the block's in `px`, and so on, those on the child's sides among them. Where both of its positions
/// are even an edge gets its part of the block's edge in which it lies, and elsewhere the mean, rounded down, of the two
/// or four edges at even positions beside or round it. Bit d of `kept` says that the part of the child's boundary in the
/// direction d = (dx + 1) + 3 (dy + 1) + 9 (dz + 1) has its numbers already: these stay, as the guard cells' edges do.
///
/// The arrays are those of blocks of `N` cells along each axis with `G` guard cells on each side. The numbers that stay,
/// and those of the block of which others are made, are at most [`amr_num::RANGE`] in absolute value.
pub fn split_edges<const N: usize, const G: usize>(
    octant: u32,
    kept: u32,
    px: &[i64],
    py: &[i64],
    pz: &[i64],
    cx: &mut [i64],
    cy: &mut [i64],
    cz: &mut [i64],
)
    requires size { IsSize N G }
    requires octant { octant < 8 }
    requires px { length px.now ≡ size_of (edge_extents N G X) }
    requires py { length py.now ≡ size_of (edge_extents N G Y) }
    requires pz { length pz.now ≡ size_of (edge_extents N G Z) }
    requires cx { length cx.old ≡ size_of (edge_extents N G X) }
    requires cy { length cy.old ≡ size_of (edge_extents N G Y) }
    requires cz { length cz.old ≡ size_of (edge_extents N G Z) }
    requires small { (a : Axes) → EdgeSourcesAreSmall N G octant kept a (all_edges N G (by_axis px.now py.now pz.now) a) (all_edges N G (by_axis cx.old cy.old cz.old) a) }
    ensures { AreEdgesSplit N G octant kept (by_axis px.now py.now pz.now) (by_axis cx.old cy.old cz.old) (by_axis cx.new cy.new cz.new) }
{
    let split = Split {
        n: N,
        g: G,
        q: octant as usize,
        kept,
    };
    split_axis(split, Axis::X, px, cx);
    split_axis(split, Axis::Y, py, cy);
    split_axis(split, Axis::Z, pz, cz);
}

/// Splits the edges along an axis: first those that are parts, then the means of these.
fn split_axis(split: Split, axis: Axis, parent: &[i64], child: &mut [i64])
    requires size { IsSize split.n split.g }
    requires octant { split.q < 8 }
    requires parent { length parent.now ≡ size_of (edge_extents split.n split.g axis) }
    requires child { length child.old ≡ size_of (edge_extents split.n split.g axis) }
    requires small { let e = edge_extents split.n split.g axis in EdgeSourcesAreSmall split.n split.g split.q split.kept axis (number_at e parent.now) (number_at e child.old) }
    ensures { IsAxisSplit split.n split.g split.q split.kept axis parent.now child.old child.new }
{
    part_edges(split, axis, parent, child);
    mean_edges(split, axis, child);
}

/// An edge of a block: the axis that it lies along, and its coordinates in the block.
#[derive(Clone, Copy)]
struct Edge {
    axis: Axis,
    i: usize,
    j: usize,
    k: usize,
}

/// Its position on the next axis.
fn first_position(edge: Edge) -> usize
    ensures { result ≡ position_on (coordinates.next edge.axis) edge.i edge.j edge.k }
{
    position(after(edge.axis), edge.i, edge.j, edge.k)
}

/// Its position on the axis after the next one.
fn second_position(edge: Edge) -> usize
    ensures { result ≡ position_on (coordinates.next (coordinates.next edge.axis)) edge.i edge.j edge.k }
{
    position(after(after(edge.axis)), edge.i, edge.j, edge.k)
}

/// Whether an edge lies on a part of the boundary that is kept.
fn is_kept_edge(split: Split, edge: Edge) -> bool
    ensures { result ≡ splits.is_kept_edge split.n split.kept edge.axis edge.i edge.j edge.k }
{
    let Edge { axis, i, j, k } = edge;
    let direction = edge_direction(split.n, axis, i, j, k);
    direction != 13 && is_kept(split.kept, direction)
}

/// Whether it is a part of the parent's edge.
fn is_part(split: Split, edge: Edge) -> bool
    ensures { result ≡ splitting.is_edge_part split.n split.kept edge.axis edge.i edge.j edge.k }
{
    !is_kept_edge(split, edge) && first_position(edge) % 2 == 0 && second_position(edge) % 2 == 0
}

/// What an edge is given: where it is a part, its part of `whole`, and `old` elsewhere.
#[tactic(auto, unfolding(crate::specs::EdgeSplitting::edge_given))]
fn part_or(split: Split, edge: Edge, whole: i64, old: i64) -> i64
    ensures { result ≡ edge_given split.n split.kept edge.axis edge.i edge.j edge.k whole old }
{
    if is_part(split, edge) {
        let half = position(edge.axis, edge.i, edge.j, edge.k) % 2;
        part(half as u32, whole, 2)
    } else {
        old
    }
}

/// What the edges of a row are given, from those of the parent from a place on and from what they had.
fn part_line(split: Split, row: Row, parent: &[i64], from: usize, old: &[i64], out: &mut [i64])
    requires old { length old.now ≡ length out.old }
    requires inside { (t : ℕ) → t < length out.old → from + t / 2 < length parent.now }
    ensures size { length out.new ≡ length out.old }
    ensures parts { (t : ℕ) → t < length out.old → at out.new t ≡ edge_given split.n split.kept row.axis t row.j row.k (at parent.now (from + t / 2)) (at old.now t) }
{
    for t in 0..out.len() {
        out[t] = part_or(split, edge_at(row, t), parent[from + t / 2], old[t]);
    }
}

/// The edge of a row with a coordinate on x.
fn edge_at(row: Row, i: usize) -> Edge
    ensures { result ≡ record { axis = row.axis; i = i; j = row.j; k = row.k } }
{
    let Row { axis, j, k } = row;
    Edge { axis, i, j, k }
}

/// How many edges along an axis stand along each axis in a block of `n` cells.
fn edges_along(n: usize, axis: Axis) -> Extents
    requires { n ≤ 8 }
    ensures x { result.x ≡ longer_across axis X n }
    ensures y { result.y ≡ longer_across axis Y n }
    ensures z { result.z ≡ longer_across axis Z n }
{
    Extents {
        x: if axis == Axis::X { n } else { n + 1 },
        y: if axis == Axis::Y { n } else { n + 1 },
        z: if axis == Axis::Z { n } else { n + 1 },
    }
}

/// Gives a row of a child's edges along an axis their parts of the parent's.
fn part_row(split: Split, line: Row, parent: &[i64], child: &mut [i64])
    requires size { IsSize split.n split.g }
    requires octant { split.q < 8 }
    requires parent { length parent.now ≡ size_of (edge_extents split.n split.g line.axis) }
    requires child { length child.old ≡ size_of (edge_extents split.n split.g line.axis) }
    requires inside { (line.j < longer_across line.axis Y split.n) × (line.k < longer_across line.axis Z split.n) }
    ensures { let e = edge_extents split.n split.g line.axis in
        IsRowWritten (places.place_in e split.g (split.g + line.j) (split.g + line.k)) (longer_across line.axis X split.n)
        (λ t. edge_part_or_old split.n split.g split.q split.kept line.axis (number_at e parent.now) (number_at e child.old) t line.j line.k) child.old child.new }
{
    let Split { n, g, q, kept: _ } = split;
    let Row { axis, j, k } = line;
    let half = n / 2;
    let extents = Extents::of(n, g, Var::Edge(axis));
    let many = edges_along(n, axis).x;
    let x = g + half * (q % 2);
    let y = g + half * (q / 2 % 2) + j / 2;
    let z = g + half * (q / 4 % 2) + k / 2;
    let from = place(extents, x, y, z);
    let mut room = [0i64; 9];
    let out = &mut room[..many];
    let old = row(extents, child, g, g + j, g + k, many);
    part_line(split, line, parent, from, old, out);
    write_row(extents, g, g + j, g + k, out, child);
}

/// Gives a child's edges along an axis their parts of the parent's.
fn part_edges(split: Split, axis: Axis, parent: &[i64], child: &mut [i64])
    requires size { IsSize split.n split.g }
    requires octant { split.q < 8 }
    requires parent { length parent.now ≡ size_of (edge_extents split.n split.g axis) }
    requires child { length child.old ≡ size_of (edge_extents split.n split.g axis) }
    ensures { let e = edge_extents split.n split.g axis in
        IsWritten e (edge_box split.n split.g axis) (edge_part_or_old split.n split.g split.q split.kept axis (number_at e parent.now) (number_at e child.old)) child.old child.new }
{
    let along = edges_along(split.n, axis);
    for m in 0..along.y * along.z {
        let j = m % along.y;
        let k = m / along.y;
        part_row(split, Row { axis, j, k }, parent, child);
    }
}

/// The number at two even positions beside an edge: `p` on the next axis and `r` on the one after it.
fn number_beside(n: usize, g: usize, values: &[i64], edge: Edge, p: usize, r: usize) -> i64
    requires size { IsSize n g }
    requires whole { length values.now ≡ size_of (edge_extents n g edge.axis) }
    requires inside { (edge.i < longer_across edge.axis X n) × (edge.j < longer_across edge.axis Y n) × (edge.k < longer_across edge.axis Z n) }
    requires across { (p ≤ n) × (r ≤ n) }
    requires even { (p % 2 ≡ 0) × (r % 2 ≡ 0) }
    requires small { EvenEdgesAreSmall n g edge.axis (number_at (edge_extents n g edge.axis) values.now) }
    ensures value { let e = edge_extents n g edge.axis in
        result ≡ splitting.number_beside edge.axis (λ i j k. number_at e values.now (g + i) (g + j) (g + k)) edge.i edge.j edge.k p r }
    ensures small { Within number_range result }
{
    let Edge { axis, i, j, k } = edge;
    let extents = Extents::of(n, g, Var::Edge(axis));
    match axis {
        Axis::X => values[place(extents, g + i, g + p, g + r)],
        Axis::Y => values[place(extents, g + r, g + j, g + p)],
        Axis::Z => values[place(extents, g + p, g + r, g + k)],
    }
}

/// The mean, rounded down, of the edges at the even positions beside or round an edge. Of a position that is even itself
/// each number counts twice.
fn mean_beside(n: usize, g: usize, values: &[i64], edge: Edge) -> i64
    requires size { IsSize n g }
    requires whole { length values.now ≡ size_of (edge_extents n g edge.axis) }
    requires inside { (edge.i < longer_across edge.axis X n) × (edge.j < longer_across edge.axis Y n) × (edge.k < longer_across edge.axis Z n) }
    requires small { EvenEdgesAreSmall n g edge.axis (number_at (edge_extents n g edge.axis) values.now) }
    ensures { let e = edge_extents n g edge.axis in result ≡ edge_mean edge.axis (λ i j k. number_at e values.now (g + i) (g + j) (g + k)) edge.i edge.j edge.k }
{
    let first = first_position(edge);
    let second = second_position(edge);
    let (low, high) = (first - first % 2, first + first % 2);
    let (near, far) = (second - second % 2, second + second % 2);
    mean4(
        number_beside(n, g, values, edge, low, near),
        number_beside(n, g, values, edge, low, far),
        number_beside(n, g, values, edge, high, near),
        number_beside(n, g, values, edge, high, far),
    )
}

/// What an edge has as the means are there: on a kept part of the boundary what it had, and else a mean.
#[tactic(auto, unfolding(crate::specs::EdgeSplitting::mean_or_old))]
fn mean_or(split: Split, values: &[i64], edge: Edge, old: i64) -> i64
    requires size { IsSize split.n split.g }
    requires whole { length values.now ≡ size_of (edge_extents split.n split.g edge.axis) }
    requires inside { (edge.i < longer_across edge.axis X split.n) × (edge.j < longer_across edge.axis Y split.n) × (edge.k < longer_across edge.axis Z split.n) }
    requires small { EvenEdgesAreSmall split.n split.g edge.axis (number_at (edge_extents split.n split.g edge.axis) values.now) }
    requires old { old ≡ number_at (edge_extents split.n split.g edge.axis) values.now (split.g + edge.i) (split.g + edge.j) (split.g + edge.k) }
    ensures { result ≡ splitting.mean_or_old split.n split.g split.kept edge.axis (number_at (edge_extents split.n split.g edge.axis) values.now) edge.i edge.j edge.k }
{
    if is_kept_edge(split, edge) {
        old
    } else {
        mean_beside(split.n, split.g, values, edge)
    }
}

/// What the edges of a row have as the means are there.
fn mean_line(split: Split, row: Row, values: &[i64], old: &[i64], out: &mut [i64])
    requires size { IsSize split.n split.g }
    requires whole { length values.now ≡ size_of (edge_extents split.n split.g row.axis) }
    requires inside { (row.j < longer_across row.axis Y split.n) × (row.k < longer_across row.axis Z split.n) }
    requires small { EvenEdgesAreSmall split.n split.g row.axis (number_at (edge_extents split.n split.g row.axis) values.now) }
    requires out { length out.old ≡ longer_across row.axis X split.n }
    requires long { length old.now ≡ length out.old }
    requires old { (t : ℕ) → t < length out.old → at old.now t ≡ number_at (edge_extents split.n split.g row.axis) values.now (split.g + t) (split.g + row.j) (split.g + row.k) }
    ensures size { length out.new ≡ length out.old }
    ensures means { (t : ℕ) → t < length out.old →
        at out.new t ≡ splitting.mean_or_old split.n split.g split.kept row.axis (number_at (edge_extents split.n split.g row.axis) values.now) t row.j row.k }
{
    for t in 0..out.len() {
        out[t] = mean_or(split, values, edge_at(row, t), old[t]);
    }
}

/// Sets a row of a child's edges along an axis to the means.
fn mean_row(split: Split, line: Row, child: &mut [i64])
    requires size { IsSize split.n split.g }
    requires child { length child.old ≡ size_of (edge_extents split.n split.g line.axis) }
    requires inside { (line.j < longer_across line.axis Y split.n) × (line.k < longer_across line.axis Z split.n) }
    requires small { EvenEdgesAreSmall split.n split.g line.axis (number_at (edge_extents split.n split.g line.axis) child.old) }
    ensures { let e = edge_extents split.n split.g line.axis in
        IsRowWritten (places.place_in e split.g (split.g + line.j) (split.g + line.k)) (longer_across line.axis X split.n)
        (λ t. splitting.mean_or_old split.n split.g split.kept line.axis (number_at e child.old) t line.j line.k) child.old child.new }
{
    let Split {
        n,
        g,
        q: _,
        kept: _,
    } = split;
    let Row { axis, j, k } = line;
    let extents = Extents::of(n, g, Var::Edge(axis));
    let many = edges_along(n, axis).x;
    let mut room = [0i64; 9];
    let out = &mut room[..many];
    let old = row(extents, child, g, g + j, g + k, many);
    mean_line(split, line, child, old, out);
    write_row(extents, g, g + j, g + k, out, child);
}

/// Sets a child's edges along an axis to the means of those at even positions, which are there.
fn mean_edges(split: Split, axis: Axis, child: &mut [i64])
    requires size { IsSize split.n split.g }
    requires child { length child.old ≡ size_of (edge_extents split.n split.g axis) }
    requires small { EvenEdgesAreSmall split.n split.g axis (number_at (edge_extents split.n split.g axis) child.old) }
    ensures { let e = edge_extents split.n split.g axis in
        IsWritten e (edge_box split.n split.g axis) (splitting.mean_or_old split.n split.g split.kept axis (number_at e child.old)) child.old child.new }
{
    let along = edges_along(split.n, axis);
    for m in 0..along.y * along.z {
        let j = m % along.y;
        let k = m / along.y;
        mean_row(split, Row { axis, j, k }, child);
    }
}
