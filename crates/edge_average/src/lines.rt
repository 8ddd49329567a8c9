//! Lines of edges in the arrays of a block.

ghost use Rattle.amr_num.specs.Numbers.{Within, at};
ghost use Rattle.edge_average.specs.EdgeSums.{IsEdgeSet, IsLineSet, edge_at, pair_at};
ghost use Rattle.edge_average.specs.Lines as lines;
ghost use Rattle.edge_average.specs.Lines.{IsEdgePlace, half_with, line_place, octant_at, place_within};
ghost use Rattle.mesh_model.specs.Fields.ArrayPlaces as places;
ghost use Rattle.mesh_model.specs.Fields.ArrayPlaces.{IsRowWritten, IsSize, edge_extents, size_of};
ghost use Rattle.mesh_model.specs.Fields.EdgeSplits as edge_splits;
ghost use Rattle.mesh_model.specs.Geometry.Coordinates.{next};
ghost use Rattle.std.specs.Prelude.{◌≡◌, ℕ, ◌+◌, ◌*◌, ◌/◌, ◌-◌, ◌^◌, ◌<◌, ◌≤◌, ◌+ℤ◌, ◌⊎◌, length};

use amr_num::Axis;
use block_store::{Extents, edge_direction, place};
use block_tree::Direction;
use mesh_model::geometry::axes::after;

/// A line of a block's edges: those along an axis at a position on each of the two axes after it.
#[derive(Clone, Copy)]
pub(crate) struct Line {
    pub axis: Axis,
    pub first: usize,
    pub second: usize,
}

/// Where the `p`-th edge of a line stands in the list of an array, in blocks of `n` cells along each axis with `g` guard
/// cells on each side.
fn edge_place(n: usize, g: usize, line: Line, p: usize) -> usize
    requires size { IsSize n g }
    requires inside { IsEdgePlace n p line.first line.second }
    ensures value { let c = line_place line.axis p line.first line.second in
        result ≡ places.place_in (edge_extents n g line.axis) (g + c.x) (g + c.y) (g + c.z) }
    ensures inside { result < size_of (edge_extents n g line.axis) }
{
    let extents = Extents::of_edges(n, g, line.axis);
    let s = line.first;
    let t = line.second;
    match line.axis {
        Axis::X => place(extents, g + p, g + s, g + t),
        Axis::Y => place(extents, g + t, g + p, g + s),
        Axis::Z => place(extents, g + s, g + t, g + p),
    }
}

/// The number of the `p`-th edge of a line.
fn edge(n: usize, g: usize, line: Line, values: &[i64], p: usize) -> i64
    requires size { IsSize n g }
    requires values { length values.now ≡ size_of (edge_extents n g line.axis) }
    requires inside { IsEdgePlace n p line.first line.second }
    ensures { result ≡ edge_at n g line.axis values.now p line.first line.second }
{
    values[edge_place(n, g, line, p)]
}

/// Gives it another number.
fn set_edge(n: usize, g: usize, line: Line, values: &mut [i64], p: usize, value: i64)
    requires size { IsSize n g }
    requires values { length values.old ≡ size_of (edge_extents n g line.axis) }
    requires inside { IsEdgePlace n p line.first line.second }
    ensures { IsEdgeSet n g line.axis p line.first line.second value values.old values.new }
{
    values[edge_place(n, g, line, p)] = value;
}

/// The sum of two numbers.
fn add_two(a: i64, b: i64) -> i64
    requires { Within (2 ^ 56) a × Within (2 ^ 56) b }
    ensures value { result ≡ a +ℤ b }
    ensures size { Within (2 ^ 58) result }
{
    a + b
}

/// The sum of the `m`-th two edges of a line.
fn sum_of_two(n: usize, g: usize, line: Line, values: &[i64], m: usize) -> i64
    requires size { IsSize n g }
    requires values { length values.now ≡ size_of (edge_extents n g line.axis) }
    requires line { (line.first ≤ n) × (line.second ≤ n) }
    requires inside { m < n / 2 }
    requires small { (p : ℕ) → p < n → Within (2 ^ 56) (edge_at n g line.axis values.now p line.first line.second) }
    ensures value { result ≡ pair_at n g line.axis values.now m line.first line.second }
    ensures size { Within (2 ^ 58) result }
{
    let low = edge(n, g, line, values, 2 * m);
    let high = edge(n, g, line, values, 2 * m + 1);
    add_two(low, high)
}

/// Puts the sums of a line's edges in pairs among some sums, from `from` on.
pub(crate) fn sum_line(
    n: usize,
    g: usize,
    line: Line,
    values: &[i64],
    from: usize,
    sums: &mut [i64],
)
    requires size { IsSize n g }
    requires values { length values.now ≡ size_of (edge_extents n g line.axis) }
    requires line { (line.first ≤ n) × (line.second ≤ n) }
    requires small { (p : ℕ) → p < n → Within (2 ^ 56) (edge_at n g line.axis values.now p line.first line.second) }
    requires room { from + n / 2 ≤ length sums.old }
    ensures row { IsRowWritten from (n / 2) (λ m. pair_at n g line.axis values.now m line.first line.second) sums.old sums.new }
    ensures within { (m : ℕ) → m < n / 2 → Within (2 ^ 58) (at sums.new (from + m)) }
{
    for m in 0..n / 2 {
        sums[from + m] = sum_of_two(n, g, line, values, m);
    }
}

/// Gives the edges of a line some numbers.
pub(crate) fn set_line(n: usize, g: usize, line: Line, values: &mut [i64], numbers: &[i64])
    requires size { IsSize n g }
    requires values { length values.old ≡ size_of (edge_extents n g line.axis) }
    requires line { (line.first ≤ n) × (line.second ≤ n) }
    requires numbers { n ≤ length numbers.now }
    ensures { IsLineSet n g line.axis line.first line.second (λ p. at numbers.now p) values.old values.new }
{
    for p in 0..n {
        set_edge(n, g, line, values, p, numbers[p]);
    }
}

/// The number of the direction of the part of a block's boundary on which a line lies.
pub(crate) fn part_of(n: usize, line: Line) -> u32
    ensures value { let c = line_place line.axis 0 line.first line.second in result ≡ edge_splits.edge_direction n line.axis c.x c.y c.z }
    ensures few { result < 27 }
{
    let s = line.first;
    let t = line.second;
    match line.axis {
        Axis::X => edge_direction(n, Axis::X, 0, s, t),
        Axis::Y => edge_direction(n, Axis::Y, t, 0, s),
        Axis::Z => edge_direction(n, Axis::Z, s, t, 0),
    }
}

/// The step of a direction on an axis.
fn step_on(axis: Axis, toward: Direction) -> u32
    ensures { result ≡ lines.step_on axis toward }
{
    match axis {
        Axis::X => toward.x,
        Axis::Y => toward.y,
        Axis::Z => toward.z,
    }
}

/// A position of a block of `n` cells on an axis, in the block that lies a step down the axis, at it, or a step up.
fn beyond(n: usize, step: u32, p: usize) -> usize
    ensures { result ≡ lines.beyond n step p }
{
    match step {
        0 => n,
        1 => p,
        _ => 0,
    }
}

/// The same line in the block that lies in a direction.
pub(crate) fn line_beyond(n: usize, toward: Direction, line: Line) -> Line
    ensures axis { result.axis ≡ line.axis }
    ensures first { result.first ≡ lines.beyond n (lines.step_on (next line.axis) toward) line.first }
    ensures second { result.second ≡ lines.beyond n (lines.step_on (next (next line.axis)) toward) line.second }
{
    let b = after(line.axis);
    let d = after(b);
    Line {
        axis: line.axis,
        first: beyond(n, step_on(b, toward), line.first),
        second: beyond(n, step_on(d, toward), line.second),
    }
}

/// The half of a block in which a place on an axis lies, where the middle belongs to the high half.
fn half_of(n: usize, p: usize) -> u32
    ensures value { result ≡ half_with n p }
    ensures few { result < 2 }
{
    if p < n / 2 { 0 } else { 1 }
}

/// The place in the child there at which it lies.
fn place_in_half(n: usize, p: usize) -> usize
    requires size { (n ≡ 4) ⊎ (n ≡ 8) }
    requires inside { p ≤ n }
    ensures value { result ≡ place_within n p }
    ensures inside { result ≤ n }
{
    if p < n / 2 { 2 * p } else { 2 * p - n }
}

/// The same line in the children of a block in which it lies.
pub(crate) fn line_within(n: usize, line: Line) -> Line
    requires size { (n ≡ 4) ⊎ (n ≡ 8) }
    requires inside { (line.first ≤ n) × (line.second ≤ n) }
    ensures axis { result.axis ≡ line.axis }
    ensures first { result.first ≡ place_within n line.first }
    ensures second { result.second ≡ place_within n line.second }
    ensures inside { (result.first ≤ n) × (result.second ≤ n) }
{
    Line {
        axis: line.axis,
        first: place_in_half(n, line.first),
        second: place_in_half(n, line.second),
    }
}

/// The octant of a block in which the low or the high half of a line lies.
pub(crate) fn octant_of(n: usize, line: Line, half: u32) -> u32
    requires { half < 2 }
    ensures value { result ≡ octant_at line.axis half (half_with n line.first) (half_with n line.second) }
    ensures octant { result < 8 }
{
    let j = half_of(n, line.first);
    let k = half_of(n, line.second);
    match line.axis {
        Axis::X => half + 2 * j + 4 * k,
        Axis::Y => k + 2 * half + 4 * j,
        Axis::Z => j + 2 * k + 4 * half,
    }
}
