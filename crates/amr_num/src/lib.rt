//! Whole numbers and coordinates of an adaptive mesh.
//!
//! The numbers of a mesh are whole, so that sums are exact: a number is split into parts that add up to
//! it, a total is spread over guides, means are rounded down, and what a step moves is counted in units
//! of 2^20. Coordinates name blocks, cells, faces and edges by level and place.
#![tactic(auto)]

ghost use Rattle.std.specs.Prelude.{◌≡◌, ℕ, ◌+◌, ◌*◌, ◌^◌, ◌<◌, ◌≤◌, ◌+ℤ◌, ◌-ℤ◌, ◌*ℤ◌, ℤ, pos, All, IsTrue, ◌↔◌, unsigned_abs};
ghost use Rattle.amr_num.specs.Numbers as numbers;
ghost use Rattle.amr_num.specs.Numbers.{Within, floor_div, spread_all};

pub mod laws;

/// Memory was refused.
#[derive(Clone, Copy, Debug, PartialEq, Eq)]
pub struct OutOfMemory;

/// An axis of the domain. In the cycle x, y, z each axis has a next one.
#[derive(Clone, Copy, Debug, PartialEq, Eq, PartialOrd, Ord)]
pub enum Axis {
    X,
    Y,
    Z,
}

/// A side of a block or of the domain. The low side of an axis is the one at the smaller position.
#[derive(Clone, Copy, Debug, PartialEq, Eq, PartialOrd, Ord)]
pub enum Side {
    XLow,
    XHigh,
    YLow,
    YHigh,
    ZLow,
    ZHigh,
}

/// What lies beyond a side of the domain: the opposite side, a continuation of the last cells, or nothing
/// that anything flows to.
#[derive(Clone, Copy, Debug, PartialEq, Eq)]
pub enum SideKind {
    Periodic,
    Outflow,
    Closed,
}

/// A cell: its level, and its coordinates among the cells of that level, from 0.
#[derive(Clone, Copy, Debug, PartialEq, Eq, PartialOrd, Ord)]
pub struct CellAt {
    pub level: u32,
    pub x: u32,
    pub y: u32,
    pub z: u32,
}

/// A block: its level, and its coordinates among the blocks of that level, from 0.
#[derive(Clone, Copy, Debug, PartialEq, Eq, PartialOrd, Ord)]
pub struct BlockAt {
    pub level: u32,
    pub x: u32,
    pub y: u32,
    pub z: u32,
}

/// A face between cells of a level: the axis that it is normal to, its position on that axis, and cell
/// coordinates on the other two.
#[derive(Clone, Copy, Debug, PartialEq, Eq, PartialOrd, Ord)]
pub struct FaceAt {
    pub axis: Axis,
    pub level: u32,
    pub x: u32,
    pub y: u32,
    pub z: u32,
}

/// An edge between cells of a level: the axis that it lies along, its cell coordinate on that axis, and
/// positions on the other two.
#[derive(Clone, Copy, Debug, PartialEq, Eq, PartialOrd, Ord)]
pub struct EdgeAt {
    pub axis: Axis,
    pub level: u32,
    pub x: u32,
    pub y: u32,
    pub z: u32,
}

/// The greatest absolute value of a number that a leaf stores: 2^40.
pub const RANGE: i64 = 1099511627776;

/// The `q`-th of the `k` parts of `n`, which differ by at most 1, the greater ones first, and add up to `n`.
pub fn part(q: u32, n: i64, k: u32) -> i64
    requires { q < k }
    ensures value { result ≡ numbers.part q n k }
    ensures size { Within (unsigned_abs n) result }
{
    let k = k as i64;
    let whole = n.div_euclid(k);
    if (q as i64) < n.rem_euclid(k) {
        whole + 1
    } else {
        whole
    }
}

/// The mean of two numbers, rounded down.
pub fn mean2(a: i64, b: i64) -> i64
    requires a { Within (2 ^ 56) a }
    requires b { Within (2 ^ 56) b }
    ensures value { result ≡ floor_div (a +ℤ b) 2 }
    ensures size { (most : ℕ) → Within most a → Within most b → Within most result }
{
    (a + b).div_euclid(2)
}

/// The mean of four numbers, rounded down.
pub fn mean4(a: i64, b: i64, c: i64, d: i64) -> i64
    requires a { Within (2 ^ 56) a }
    requires b { Within (2 ^ 56) b }
    requires c { Within (2 ^ 56) c }
    requires d { Within (2 ^ 56) d }
    ensures value { result ≡ floor_div (a +ℤ b +ℤ c +ℤ d) 4 }
    ensures size { (most : ℕ) → Within most a → Within most b → Within most c → Within most d → Within most result }
{
    (a + b + c + d).div_euclid(4)
}

/// `total` without two guides.
fn without(total: i64, a: i64, b: i64) -> i64
    requires total { Within (3 * 2 ^ 56) total }
    requires a { Within (2 ^ 56) a }
    requires b { Within (2 ^ 56) b }
    ensures value { result ≡ total -ℤ (a +ℤ b) }
    ensures size { unsigned_abs result ≤ unsigned_abs total + 2 * 2 ^ 56 }
{
    total - (a + b)
}

/// A guide, with its part of what the guides miss.
fn corrected(guide: i64, q: u32, missed: i64, k: u32) -> i64
    requires guide { Within (2 ^ 56) guide }
    requires missed { Within (5 * 2 ^ 56) missed }
    requires place { q < k }
    ensures value { result ≡ guide +ℤ numbers.part q missed k }
    ensures size { Within (6 * 2 ^ 56) result }
{
    guide + part(q, missed, k)
}

/// `total` spread over two guides: each number is its guide and its part of what the guides miss, so that
/// the two add up to `total`.
pub fn spread2(total: i64, guides: [i64; 2]) -> [i64; 2]
    requires total { Within (2 ^ 56) total }
    requires guides { All (Within (2 ^ 56)) guides }
    ensures value { result ≡ spread_all 2 total guides }
    ensures size { (most each : ℕ) → Within most total → All (Within each) guides → All (Within (most + 3 * each)) result }
{
    let missed = without(total, guides[0], guides[1]);
    [
        corrected(guides[0], 0, missed, 2),
        corrected(guides[1], 1, missed, 2),
    ]
}

/// `total` spread over four guides: each number is its guide and its part of what the guides miss, so that
/// the four add up to `total`.
pub fn spread4(total: i64, guides: [i64; 4]) -> [i64; 4]
    requires total { Within (2 ^ 56) total }
    requires guides { All (Within (2 ^ 56)) guides }
    ensures value { result ≡ spread_all 4 total guides }
    ensures size { (most each : ℕ) → Within most total → All (Within each) guides → All (Within (most + 5 * each)) result }
{
    let missed = without(without(total, guides[0], guides[1]), guides[2], guides[3]);
    [
        corrected(guides[0], 0, missed, 4),
        corrected(guides[1], 1, missed, 4),
        corrected(guides[2], 2, missed, 4),
        corrected(guides[3], 3, missed, 4),
    ]
}

/// `amount` units of 2^-20 of a `value` of at most 2^42, rounded down: their product has at most 62 bits.
#[inline]
fn carry_small(amount: u64, value: i64) -> i64
    requires amount { amount ≤ 2 ^ 20 }
    requires value { Within (2 ^ 42) value }
    ensures value { result ≡ floor_div (pos amount *ℤ value) (2 ^ 20) }
    ensures small { Within (2 ^ 56) result }
{
    (amount as i64 * value) >> 20
}

/// `amount` units of 2^-20 of a greater `value`, rounded down.
fn carry_great(amount: u64, value: i64) -> i64
    requires amount { amount ≤ 2 ^ 20 }
    requires value { Within (2 ^ 56) value }
    ensures value { result ≡ floor_div (pos amount *ℤ value) (2 ^ 20) }
    ensures small { Within (2 ^ 56) result }
{
    let moved = (amount as i128) * (value as i128);
    moved.div_euclid(1 << 20) as i64
}

/// `amount` units of 2^-20 of `value`, rounded down. `amount` is at most 2^20. Contents of cells are small, and the sums
/// of great ones are not.
#[inline]
fn carry_up(amount: u64, value: i64) -> i64
    requires amount { amount ≤ 2 ^ 20 }
    requires value { Within (2 ^ 56) value }
    ensures value { result ≡ floor_div (pos amount *ℤ value) (2 ^ 20) }
    ensures small { Within (2 ^ 56) result }
{
    if value.unsigned_abs() <= 1 << 42 {
        carry_small(amount, value)
    } else {
        carry_great(amount, value)
    }
}

/// How much of `value` a speed of `n` units of 2^-20 coarsest cells a step carries through a face at `level`,
/// where a cell is 2^`level` times shorter. For a negative speed it is the negative of what the opposite
/// speed carries.
pub fn carry(n: i64, level: u32, value: i64) -> i64
    requires level { level ≤ 10 }
    requires speed { unsigned_abs n * 2 ^ level ≤ 2 ^ 20 }
    requires value { Within (2 ^ 56) value }
    ensures value { result ≡ numbers.carry n level value }
    ensures size { Within (unsigned_abs value) result }
{
    let whole = carry_up(n.unsigned_abs() << level, value);
    if n < 0 { -whole } else { whole }
}

/// Whether a leaf may store `n`: whether its absolute value is at most [`RANGE`].
pub fn fits(n: i64) -> bool
    ensures { IsTrue result ↔ Within (2 ^ 40) n }
{
    -RANGE <= n && n <= RANGE
}
