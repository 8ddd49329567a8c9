//! Parts of cells.

ghost use Rattle.amr_num.specs.Numbers as numbers;
ghost use Rattle.amr_num.specs.Numbers.{at};
ghost use Rattle.mesh_model.specs.Fields.Octants.{IsSplit, parted};
ghost use Rattle.mesh_model.specs.Fields.ArrayPlaces.{IsRowWritten, IsSize, cell_extents, interior, number_at, row_of, size_of};
ghost use Rattle.std.specs.Prelude.{◌≡◌, ℕ, ◌+◌, ◌*◌, ◌/◌, ◌%◌, ◌<◌, ◌≤◌, length};

use amr_num::part;
use block_store::{Extents, cell_row, place};

/// The part of a cell that its sub-cell `octant` gets.
#[inline]
fn share(whole: i64, octant: usize) -> i64
    requires { octant < 8 }
    ensures { result ≡ numbers.part octant whole 8 }
{
    part(octant as u32, whole, 8)
}

/// Splits a row of cells into pairs: those of the octants `octant` and `octant + 1`.
fn split_row(whole: &[i64], octant: usize, out: &mut [i64])
    requires octant { octant < 7 }
    requires out { length out.old ≡ 2 * length whole.now }
    ensures size { length out.new ≡ length out.old }
    ensures parts { (i : ℕ) → i < length out.old → at out.new i ≡ numbers.part (octant + i % 2) (at whole.now (i / 2)) 8 }
{
    for i in 0..out.len() {
        out[i] = share(whole[i / 2], octant + i % 2);
    }
}

/// Sets the `m`-th row of the cells of the child `q` to their parts of the parent's cells.
fn part_row(n: usize, g: usize, q: usize, parent: &[i64], child: &mut [i64], m: usize)
    requires size { IsSize n g }
    requires octant { q < 8 }
    requires parent { length parent.now ≡ size_of (cell_extents n g) }
    requires child { length child.old ≡ size_of (cell_extents n g) }
    requires row { m < n * n }
    ensures { let e = cell_extents n g in
        IsRowWritten (row_of e (interior n g) m) n (λ t. parted n g q (number_at e parent.now) t (m % n) (m / n)) child.old child.new }
{
    let half = n / 2;
    let j = m % n;
    let k = m / n;
    let whole = cell_row(
        n,
        g,
        parent,
        half * (q / 2 % 2) + j / 2,
        half * (q / 4 % 2) + k / 2,
    );
    let from = half * (q % 2);
    let to = place(Extents::of_cells(n, g), g, g + j, g + k);
    split_row(
        &whole[from..from + half],
        2 * (j % 2) + 4 * (k % 2),
        &mut child[to..to + n],
    );
}

/// Sets the cells of the child `q` of a block of `n` cells along each axis and `g` guard cells on each side to their
/// parts of its cells.
#[inline]
fn split(n: usize, g: usize, q: usize, parent: &[i64], child: &mut [i64])
    requires size { IsSize n g }
    requires octant { q < 8 }
    requires parent { length parent.now ≡ size_of (cell_extents n g) }
    requires child { length child.old ≡ size_of (cell_extents n g) }
    ensures { IsSplit n g q parent.now child.old child.new }
{
    for m in 0..n * n {
        part_row(n, g, q, parent, child, m);
    }
}

/// Sets the cells of the child `octant` of a block, which is i + 2 j + 4 k for the halves i on x, j on y and k on z, to
/// their parts of the block's cells. The child's guard cells stay.
pub fn split_cells<const N: usize, const G: usize>(octant: u32, parent: &[i64], child: &mut [i64])
    requires size { IsSize N G }
    requires octant { octant < 8 }
    requires parent { length parent.now ≡ size_of (cell_extents N G) }
    requires child { length child.old ≡ size_of (cell_extents N G) }
    ensures { IsSplit N G octant parent.now child.old child.new }
{
    split(N, G, octant as usize, parent, child);
}
