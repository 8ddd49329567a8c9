//! Strips that get their numbers from the cells of a block of the same level, or their parts of a coarser one's.

ghost use Rattle.amr_num.specs.Numbers as numbers;
ghost use Rattle.amr_num.specs.Numbers.{at};
ghost use Rattle.guard_fill.specs.Strips.{AllReach, AreWithin, box_of, cell_at, from_cells, from_places, inner};
ghost use Rattle.mesh_model.specs.Fields.ArrayPlaces.{IsRowWritten, IsSize, IsWritten, cell_extents, number_at, place_in, size_of};
ghost use Rattle.mesh_model.specs.Fields.Octants.{parted};
ghost use Rattle.std.specs.Prelude.{◌≡◌, ℕ, ◌+◌, ◌*◌, ◌/◌, ◌%◌, ◌<◌, ◌≤◌, length};

use crate::strips::{Patch, Strip};
use amr_num::part;
use block_store::{Extents, cell_row, place, row};

/// The cell from which a place of a strip has its number.
#[inline]
fn cell(strip: Strip, t: usize) -> usize
    requires { cell_at strip t < 17 }
    ensures { result ≡ cell_at strip t }
{
    strip.first + strip.step * t
}

/// Where the row (j, k) of a patch begins in an array.
#[inline]
fn row_start(n: usize, g: usize, patch: Patch, j: usize, k: usize) -> usize
    requires size { IsSize n g }
    requires within { AreWithin n g patch }
    requires row { (j < patch.y.many) × (k < patch.z.many) }
    ensures value { result ≡ place_in (cell_extents n g) patch.x.to (patch.y.to + j) (patch.z.to + k) }
    ensures fits { result + patch.x.many ≤ size_of (cell_extents n g) }
{
    place(
        Extents::of_cells(n, g),
        patch.x.to,
        patch.y.to + j,
        patch.z.to + k,
    )
}

/// The numbers of a row of a strip, from a row of cells.
fn copy_row(x: Strip, cells: &[i64], out: &mut [i64])
    requires few { length cells.now ≤ 17 }
    requires cells { (t : ℕ) → t < length out.old → cell_at x t < length cells.now }
    ensures size { length out.new ≡ length out.old }
    ensures numbers { (t : ℕ) → t < length out.old → at out.new t ≡ at cells.now (cell_at x t) }
{
    for t in 0..out.len() {
        out[t] = cells[cell(x, t)];
    }
}

/// Their parts of a row of coarser cells: those of the octants `octant` and `octant + 1`.
fn part_row(x: Strip, octant: usize, cells: &[i64], out: &mut [i64])
    requires octant { octant < 7 }
    requires few { length cells.now ≤ 4 }
    requires cells { (t : ℕ) → t < length out.old → cell_at x t / 2 < length cells.now }
    ensures size { length out.new ≡ length out.old }
    ensures parts { (t : ℕ) → t < length out.old → at out.new t ≡ numbers.part (octant + cell_at x t % 2) (at cells.now (cell_at x t / 2)) 8 }
{
    for t in 0..out.len() {
        let cell = cell(x, t);
        out[t] = part((octant + cell % 2) as u32, cells[cell / 2], 8);
    }
}

/// Copies the row (j, k) of a strip from the cells of a block.
fn copy_strip_row(
    n: usize,
    g: usize,
    patch: Patch,
    source: &[i64],
    room: &mut [i64],
    j: usize,
    k: usize,
)
    requires size { IsSize n g }
    requires within { AreWithin n g patch }
    requires source { length source.now ≡ size_of (cell_extents n g) }
    requires room { length room.old ≡ size_of (cell_extents n g) }
    requires row { (j < patch.y.many) × (k < patch.z.many) }
    ensures { let e = cell_extents n g in
        IsRowWritten (place_in e patch.x.to (patch.y.to + j) (patch.z.to + k)) patch.x.many
        (λ t. from_cells patch (inner g (number_at e source.now)) t j k) room.old room.new }
{
    let cells = cell_row(n, g, source, cell(patch.y, j), cell(patch.z, k));
    let to = row_start(n, g, patch, j, k);
    copy_row(patch.x, cells, &mut room[to..to + patch.x.many]);
}

/// Copies a strip from the cells of a block.
pub(crate) fn copy_strip(n: usize, g: usize, patch: Patch, source: &[i64], room: &mut [i64])
    requires size { IsSize n g }
    requires within { AreWithin n g patch }
    requires source { length source.now ≡ size_of (cell_extents n g) }
    requires room { length room.old ≡ size_of (cell_extents n g) }
    ensures { let e = cell_extents n g in
        IsWritten e (box_of patch) (from_cells patch (inner g (number_at e source.now))) room.old room.new }
{
    for k in 0..patch.z.many {
        for j in 0..patch.y.many {
            copy_strip_row(n, g, patch, source, room, j, k);
        }
    }
}

/// Sets the row (j, k) of a strip to its parts of the cells of the block of whose child `q` the strip has the cells.
fn part_strip_row(
    n: usize,
    g: usize,
    q: usize,
    patch: Patch,
    parent: &[i64],
    room: &mut [i64],
    j: usize,
    k: usize,
)
    requires size { IsSize n g }
    requires octant { q < 8 }
    requires within { AreWithin n g patch }
    requires parent { length parent.now ≡ size_of (cell_extents n g) }
    requires room { length room.old ≡ size_of (cell_extents n g) }
    requires row { (j < patch.y.many) × (k < patch.z.many) }
    ensures { let e = cell_extents n g in
        IsRowWritten (place_in e patch.x.to (patch.y.to + j) (patch.z.to + k)) patch.x.many
        (λ t. from_cells patch (parted n g q (number_at e parent.now)) t j k) room.old room.new }
{
    let half = n / 2;
    let row = cell(patch.y, j);
    let plane = cell(patch.z, k);
    let whole = cell_row(
        n,
        g,
        parent,
        half * (q / 2 % 2) + row / 2,
        half * (q / 4 % 2) + plane / 2,
    );
    let from = half * (q % 2);
    let to = row_start(n, g, patch, j, k);
    part_row(
        patch.x,
        2 * (row % 2) + 4 * (plane % 2),
        &whole[from..from + half],
        &mut room[to..to + patch.x.many],
    );
}

/// Sets a strip to its parts of the cells of the block of whose child `q` it has the cells.
pub(crate) fn part_strip(
    n: usize,
    g: usize,
    q: usize,
    patch: Patch,
    parent: &[i64],
    room: &mut [i64],
)
    requires size { IsSize n g }
    requires octant { q < 8 }
    requires within { AreWithin n g patch }
    requires parent { length parent.now ≡ size_of (cell_extents n g) }
    requires room { length room.old ≡ size_of (cell_extents n g) }
    ensures { let e = cell_extents n g in
        IsWritten e (box_of patch) (from_cells patch (parted n g q (number_at e parent.now))) room.old room.new }
{
    for k in 0..patch.z.many {
        for j in 0..patch.y.many {
            part_strip_row(n, g, q, patch, parent, room, j, k);
        }
    }
}

/// Copies the row (j, k) of a patch from the places of a block's array with the same extents.
fn copy_places_row(
    extents: Extents,
    g: usize,
    patch: Patch,
    source: &[i64],
    room: &mut [i64],
    j: usize,
    k: usize,
)
    requires small { (extents.x ≤ 17) × (extents.y ≤ 17) × (extents.z ≤ 17) }
    requires reach { AllReach extents g patch }
    requires source { length source.now ≡ size_of extents }
    requires room { length room.old ≡ size_of extents }
    requires row { (j < patch.y.many) × (k < patch.z.many) }
    ensures { IsRowWritten (place_in extents patch.x.to (patch.y.to + j) (patch.z.to + k)) patch.x.many
        (λ t. from_places g patch (number_at extents source.now) t j k) room.old room.new }
{
    let y = g + cell(patch.y, j);
    let z = g + cell(patch.z, k);
    let numbers = row(extents, source, g, y, z, extents.x - 2 * g);
    let to = place(extents, patch.x.to, patch.y.to + j, patch.z.to + k);
    copy_row(patch.x, numbers, &mut room[to..to + patch.x.many]);
}

/// Copies a patch from the places of a block's array with the same extents.
pub(crate) fn copy_places(
    extents: Extents,
    g: usize,
    patch: Patch,
    source: &[i64],
    room: &mut [i64],
)
    requires small { (extents.x ≤ 17) × (extents.y ≤ 17) × (extents.z ≤ 17) }
    requires reach { AllReach extents g patch }
    requires source { length source.now ≡ size_of extents }
    requires room { length room.old ≡ size_of extents }
    ensures { IsWritten extents (box_of patch) (from_places g patch (number_at extents source.now)) room.old room.new }
{
    for k in 0..patch.z.many {
        for j in 0..patch.y.many {
            copy_places_row(extents, g, patch, source, room, j, k);
        }
    }
}
