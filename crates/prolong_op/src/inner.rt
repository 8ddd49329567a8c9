//! The inner rule: the faces between the octants of a cell.

ghost use Rattle.amr_num.specs.Numbers.{Within, at, floor_div, spread, sum_below};
ghost use Rattle.mesh_model.specs.Fields.InnerRule.{middle_x, middle_y, middle_z};
ghost use Rattle.prolong_op.specs.Sides.{AreSmall, FourWithin, sides_of};
ghost use Rattle.std.specs.Prelude.{◌≡◌, ℕ, ◌+◌, ◌*◌, ◌^◌, ◌<◌, ◌≤◌, ◌+ℤ◌, ◌-ℤ◌, All, length};

use amr_num::{mean2, spread2, spread4};

/// What stands on the 24 subfaces on the sides of a cell. On each side they go by quarter: j + 2 k on the sides normal to
/// x, i + 2 k on those normal to y and i + 2 j on those normal to z.
#[derive(Clone, Copy, Debug, PartialEq, Eq)]
pub struct Outer {
    pub x_low: [i64; 4],
    pub x_high: [i64; 4],
    pub y_low: [i64; 4],
    pub y_high: [i64; 4],
    pub z_low: [i64; 4],
    pub z_high: [i64; 4],
}

/// What stands on the 12 faces between its octants, by quarter.
#[derive(Clone, Copy, Debug, PartialEq, Eq)]
pub struct Inner {
    pub x: [i64; 4],
    pub y: [i64; 4],
    pub z: [i64; 4],
}

/// The faces between the octants of a cell, from the subfaces on its sides. The middle x faces balance the low x half of
/// the cell, in each x half the middle y faces balance the low y quarter, and each middle z face balances the octant below
/// it. The numbers on the sides are at most [`amr_num::RANGE`] in absolute value.
pub fn inner_faces(outer: &Outer) -> Inner
    requires small { AreSmall outer.now }
    ensures x { (q : ℕ) → q < 4 → at result.x q ≡ middle_x (sides_of outer.now) q }
    ensures y { (i k : ℕ) → i < 2 → k < 2 → at result.y (i + 2 * k) ≡ middle_y (sides_of outer.now) i k }
    ensures z { (i j : ℕ) → i < 2 → j < 2 → at result.z (i + 2 * j) ≡ middle_z (sides_of outer.now) i j }
    ensures small { FourWithin (2 ^ 46) result.x × FourWithin (2 ^ 46) result.y × FourWithin (2 ^ 46) result.z }
{
    let x = middle_x_faces(outer);
    let low = outflow(outer.x_low, x);
    let high = outflow(x, outer.x_high);
    let [a, b] = middle_y_faces(outer, low, 0);
    let [c, d] = middle_y_faces(outer, high, 1);
    let y = [a, c, b, d];
    let z = middle_z_faces(outer, low, high, y);
    Inner { x, y, z }
}

/// The sum of two numbers.
fn plus(a: i64, b: i64) -> i64
    requires a { Within (2 ^ 50) a }
    requires b { Within (2 ^ 50) b }
    ensures value { result ≡ a +ℤ b }
    ensures size { (m k : ℕ) → Within m a → Within k b → Within (m + k) result }
{
    a + b
}

/// `a` without `b`.
fn less(a: i64, b: i64) -> i64
    requires a { Within (2 ^ 50) a }
    requires b { Within (2 ^ 50) b }
    ensures value { result ≡ a -ℤ b }
    ensures size { (m k : ℕ) → Within m a → Within k b → Within (m + k) result }
{
    a - b
}

/// `a` without `b` and `c`.
fn less_two(a: i64, b: i64, c: i64) -> i64
    requires a { Within (2 ^ 48) a }
    requires b { Within (2 ^ 48) b }
    requires c { Within (2 ^ 48) c }
    ensures value { result ≡ a -ℤ b -ℤ c }
    ensures size { (m k l : ℕ) → Within m a → Within k b → Within l c → Within (m + k + l) result }
{
    less(less(a, b), c)
}

/// The sum of four numbers.
fn four(xs: [i64; 4]) -> i64
    requires { FourWithin (2 ^ 48) xs }
    ensures value { result ≡ at xs 0 +ℤ at xs 1 +ℤ at xs 2 +ℤ at xs 3 }
    ensures size { (m : ℕ) → FourWithin m xs → Within (m + m + m + m) result }
{
    plus(plus(plus(xs[0], xs[1]), xs[2]), xs[3])
}

/// The sum of two of four numbers.
fn two(xs: [i64; 4], p: usize, q: usize) -> i64
    requires places { (p < 4) × (q < 4) }
    requires small { FourWithin (2 ^ 48) xs }
    ensures value { result ≡ at xs p +ℤ at xs q }
    ensures size { (m : ℕ) → FourWithin m xs → Within (m + m) result }
{
    plus(xs[p], xs[q])
}

/// What flows out of each quarter of a high side, less what flows in through that of the low side.
fn outflow(low: [i64; 4], high: [i64; 4]) -> [i64; 4]
    requires low { FourWithin (2 ^ 46) low }
    requires high { FourWithin (2 ^ 46) high }
    ensures value { (q : ℕ) → q < 4 → at result q ≡ at high q -ℤ at low q }
    ensures size { (m k : ℕ) → FourWithin m high → FourWithin k low → FourWithin (m + k) result }
{
    [
        less(high[0], low[0]),
        less(high[1], low[1]),
        less(high[2], low[2]),
        less(high[3], low[3]),
    ]
}

/// The floored means of four pairs.
fn means(low: [i64; 4], high: [i64; 4]) -> [i64; 4]
    requires low { FourWithin (2 ^ 40) low }
    requires high { FourWithin (2 ^ 40) high }
    ensures value { (q : ℕ) → q < 4 → at result q ≡ floor_div (at low q +ℤ at high q) 2 }
    ensures small { All (Within (2 ^ 40)) result }
    ensures each { FourWithin (2 ^ 40) result }
{
    [
        mean2(low[0], high[0]),
        mean2(low[1], high[1]),
        mean2(low[2], high[2]),
        mean2(low[3], high[3]),
    ]
}

/// The total of the middle x faces: what flows into the low x half through its other sides.
fn half_total(outer: &Outer) -> i64
    requires small { AreSmall outer.now }
    ensures value { result ≡ at outer.now.x_low 0 +ℤ at outer.now.x_low 1 +ℤ at outer.now.x_low 2 +ℤ at outer.now.x_low 3
        -ℤ ((at outer.now.y_high 0 -ℤ at outer.now.y_low 0) +ℤ (at outer.now.y_high 2 -ℤ at outer.now.y_low 2))
        -ℤ ((at outer.now.z_high 0 -ℤ at outer.now.z_low 0) +ℤ (at outer.now.z_high 2 -ℤ at outer.now.z_low 2)) }
    ensures small { Within (12 * 2 ^ 40) result }
{
    less_two(
        four(outer.x_low),
        two(outflow(outer.y_low, outer.y_high), 0, 2),
        two(outflow(outer.z_low, outer.z_high), 0, 2),
    )
}

/// The four middle x faces.
fn middle_x_faces(outer: &Outer) -> [i64; 4]
    requires small { AreSmall outer.now }
    ensures value { (q : ℕ) → q < 4 → at result q ≡ middle_x (sides_of outer.now) q }
    ensures small { FourWithin (17 * 2 ^ 40) result }
{
    let total = half_total(outer);
    let guides = means(outer.x_low, outer.x_high);
    spread4(total, guides)
}

/// The total of the middle y faces of the x half `i`, where `x` is what flows out of it on x: what flows into its low y
/// quarter through its other sides.
fn quarter_total(outer: &Outer, x: [i64; 4], i: usize) -> i64
    requires small { AreSmall outer.now }
    requires half { i < 2 }
    requires x { FourWithin (18 * 2 ^ 40) x }
    ensures value { result ≡ at outer.now.y_low i +ℤ at outer.now.y_low (i + 2) -ℤ (at x 0 +ℤ at x 2) -ℤ (at outer.now.z_high i -ℤ at outer.now.z_low i) }
    ensures small { Within (40 * 2 ^ 40) result }
{
    less_two(
        two(outer.y_low, i, i + 2),
        two(x, 0, 2),
        less(outer.z_high[i], outer.z_low[i]),
    )
}

/// The two middle y faces of the x half `i`, where `x` is what flows out of it on x.
fn middle_y_faces(outer: &Outer, x: [i64; 4], i: usize) -> [i64; 2]
    requires small { AreSmall outer.now }
    requires half { i < 2 }
    requires x { FourWithin (18 * 2 ^ 40) x }
    ensures value { (k : ℕ) → k < 2 → at result k ≡ spread 2
        (sum_below 2 (λ k. at outer.now.y_low (i + 2 * k)) -ℤ sum_below 2 (λ k. at x (2 * k)) -ℤ (at outer.now.z_high i -ℤ at outer.now.z_low i))
        (λ k. floor_div (at outer.now.y_low (i + 2 * k) +ℤ at outer.now.y_high (i + 2 * k)) 2) k }
    ensures small { (k : ℕ) → k < 2 → Within (43 * 2 ^ 40) (at result k) }
{
    let guides = means(outer.y_low, outer.y_high);
    spread2(quarter_total(outer, x, i), [guides[i], guides[i + 2]])
}

/// The number `p` of the low z side, without what flows out at `j` on x and at `i` on y.
fn left_over(z: [i64; 4], p: usize, x: [i64; 4], j: usize, y: [i64; 4], i: usize) -> i64
    requires places { (p < 4) × (j < 4) × (i < 4) }
    requires z { FourWithin (2 ^ 40) z }
    requires x { FourWithin (18 * 2 ^ 40) x }
    requires y { FourWithin (44 * 2 ^ 40) y }
    ensures value { result ≡ at z p -ℤ at x j -ℤ at y i }
    ensures small { Within (63 * 2 ^ 40) result }
{
    less_two(z[p], x[j], y[i])
}

/// The four middle z faces, from the middle y faces and what flows out of the low and of the high x half on x.
fn middle_z_faces(outer: &Outer, low: [i64; 4], high: [i64; 4], y: [i64; 4]) -> [i64; 4]
    requires small { AreSmall outer.now }
    requires low { FourWithin (18 * 2 ^ 40) low }
    requires high { FourWithin (18 * 2 ^ 40) high }
    requires y { FourWithin (43 * 2 ^ 40) y }
    ensures first { at result 0 ≡ at outer.now.z_low 0 -ℤ at low 0 -ℤ (at y 0 -ℤ at outer.now.y_low 0) }
    ensures second { at result 1 ≡ at outer.now.z_low 1 -ℤ at high 0 -ℤ (at y 1 -ℤ at outer.now.y_low 1) }
    ensures third { at result 2 ≡ at outer.now.z_low 2 -ℤ at low 1 -ℤ (at outer.now.y_high 0 -ℤ at y 0) }
    ensures fourth { at result 3 ≡ at outer.now.z_low 3 -ℤ at high 1 -ℤ (at outer.now.y_high 1 -ℤ at y 1) }
    ensures small { FourWithin (63 * 2 ^ 40) result }
{
    let near = outflow(outer.y_low, y);
    let far = outflow(y, outer.y_high);
    [
        left_over(outer.z_low, 0, low, 0, near, 0),
        left_over(outer.z_low, 1, high, 0, near, 1),
        left_over(outer.z_low, 2, low, 1, far, 0),
        left_over(outer.z_low, 3, high, 1, far, 1),
    ]
}
