//! Sums of cells.

ghost use Rattle.amr_num.specs.Numbers.{Within, at};
ghost use Rattle.mesh_model.specs.Fields.Octants.{SumsAreSmall, IsRestricted, half_at, octant_box, summed};
ghost use Rattle.mesh_model.specs.Fields.ArrayPlaces.{IsRowWritten, IsSize, cell_extents, number_at, row_of, size_of};
ghost use Rattle.restrict_op.specs.Rows.{eight_in, pair_in};
ghost use Rattle.std.specs.Prelude.{◌≡◌, ℕ, ◌+◌, ◌*◌, ◌/◌, ◌%◌, ◌^◌, ◌<◌, ◌≤◌, ◌+ℤ◌, length};

use block_store::{Extents, cell_row, place};

/// The sum of two neighbours in a row.
#[inline]
fn pair(row: &[i64], t: usize) -> i128
    requires { 2 * t + 1 < length row.now }
    ensures value { result ≡ pair_in row.now t }
    ensures size { Within (2 ^ 64) result }
{
    i128::from(row[2 * t]) + i128::from(row[2 * t + 1])
}

/// The sum of two neighbours in each of two rows.
#[inline]
fn four(a: &[i64], b: &[i64], t: usize) -> i128
    requires a { 2 * t + 1 < length a.now }
    requires b { 2 * t + 1 < length b.now }
    ensures value { result ≡ pair_in a.now t +ℤ pair_in b.now t }
    ensures size { Within (2 ^ 65) result }
{
    pair(a, t) + pair(b, t)
}

/// The sum of two neighbours in each of four rows.
#[inline]
fn sum_of_eight(a: &[i64], b: &[i64], c: &[i64], d: &[i64], t: usize) -> i64
    requires a { 2 * t + 1 < length a.now }
    requires b { length b.now ≡ length a.now }
    requires c { length c.now ≡ length a.now }
    requires d { length d.now ≡ length a.now }
    requires few { Within (2 ^ 62) (eight_in a.now b.now c.now d.now t) }
    ensures { result ≡ eight_in a.now b.now c.now d.now t }
{
    (four(a, b, t) + four(c, d, t)) as i64
}

/// The sums of two neighbours in each of four rows.
fn sum_rows(a: &[i64], b: &[i64], c: &[i64], d: &[i64], out: &mut [i64])
    requires a { length a.now ≡ 2 * length out.old }
    requires b { length b.now ≡ length a.now }
    requires c { length c.now ≡ length a.now }
    requires d { length d.now ≡ length a.now }
    requires few { (t : ℕ) → t < length out.old → Within (2 ^ 62) (eight_in a.now b.now c.now d.now t) }
    ensures size { length out.new ≡ length out.old }
    ensures sums { (t : ℕ) → t < length out.old → at out.new t ≡ eight_in a.now b.now c.now d.now t }
{
    for t in 0..out.len() {
        out[t] = sum_of_eight(a, b, c, d, t);
    }
}

/// Sets the `m`-th row of an octant of a block to the sums of the child's cells there.
fn restrict_row(n: usize, g: usize, q: usize, child: &[i64], parent: &mut [i64], m: usize)
    requires size { IsSize n g }
    requires octant { q < 8 }
    requires child { length child.now ≡ size_of (cell_extents n g) }
    requires parent { length parent.old ≡ size_of (cell_extents n g) }
    requires few { SumsAreSmall n g (number_at (cell_extents n g) child.now) }
    requires row { m < n / 2 * (n / 2) }
    ensures { let e = cell_extents n g in let h = n / 2 in
        IsRowWritten (row_of e (octant_box n g q) m) h (λ t. summed g (number_at e child.now) t (m % h) (m / h)) parent.old parent.new }
{
    let half = n / 2;
    let extents = Extents::of_cells(n, g);
    let j = m % half;
    let k = m / half;
    let x = g + half * (q % 2);
    let y = g + half * (q / 2 % 2) + j;
    let z = g + half * (q / 4 % 2) + k;
    let to = place(extents, x, y, z);
    sum_rows(
        cell_row(n, g, child, 2 * j, 2 * k),
        cell_row(n, g, child, 2 * j + 1, 2 * k),
        cell_row(n, g, child, 2 * j, 2 * k + 1),
        cell_row(n, g, child, 2 * j + 1, 2 * k + 1),
        &mut parent[to..to + half],
    );
}

/// Sets the octant `q` of a block of `n` cells along each axis and `g` guard cells on each side to the sums of the cells
/// of its child there.
#[inline]
fn restrict(n: usize, g: usize, q: usize, child: &[i64], parent: &mut [i64])
    requires size { IsSize n g }
    requires octant { q < 8 }
    requires child { length child.now ≡ size_of (cell_extents n g) }
    requires parent { length parent.old ≡ size_of (cell_extents n g) }
    requires few { SumsAreSmall n g (number_at (cell_extents n g) child.now) }
    ensures { IsRestricted n g q child.now parent.old parent.new }
{
    let half = n / 2;
    for m in 0..half * half {
        restrict_row(n, g, q, child, parent, m);
    }
}

/// Sets the octant `octant` of a block, which is i + 2 j + 4 k for the halves i on x, j on y and k on z, to the sums of
/// the cells of its child there. All else of the block stays.
pub fn restrict_cells<const N: usize, const G: usize>(
    octant: u32,
    child: &[i64],
    parent: &mut [i64],
)
    requires size { IsSize N G }
    requires octant { octant < 8 }
    requires child { length child.now ≡ size_of (cell_extents N G) }
    requires parent { length parent.old ≡ size_of (cell_extents N G) }
    requires few { SumsAreSmall N G (number_at (cell_extents N G) child.now) }
    ensures { IsRestricted N G octant child.now parent.old parent.new }
{
    restrict(N, G, octant as usize, child, parent);
}
