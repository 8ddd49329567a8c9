//! Parts of faces, and the faces between them.

ghost use Rattle.amr_num.specs.Numbers.{Within, at};
ghost use Rattle.amr_num.specs.declared.Axis.TheVariants.{X, Y, Z};
ghost use Rattle.amr_num.specs.declared.Axis.{Axis as Axes};
ghost use Rattle.mesh_model.specs.Fields.ArrayPlaces as places;
ghost use Rattle.mesh_model.specs.Fields.ArrayPlaces.{Fits, IsRowWritten, IsSize, IsWritten, face_extents, number_at, row_of, size_of};
ghost use Rattle.mesh_model.specs.Fields.FaceSplits as splits;
ghost use Rattle.mesh_model.specs.Fields.FaceSplits.{AreFacesSplit, SourcesAreSmall, all_faces, by_axis, face_between, face_box, four_from, sides_from};
ghost use Rattle.mesh_model.specs.Fields.Views as views;
ghost use Rattle.mesh_model.specs.Fields.Views.{inner_face};
ghost use Rattle.mesh_model.specs.Geometry.Places.{longer_on};
ghost use Rattle.prolong_op.specs.Splitting as splitting;
ghost use Rattle.prolong_op.specs.Splitting.{AreBetween, AreSides, EvenAreSmall, SidesAreSmall, four_box, given, middle_box, part_or_old};
ghost use Rattle.prolong_op.specs.Sides.{sides_of};
ghost use Rattle.std.specs.Prelude.{◌≡◌, ℕ, ◌+◌, ◌*◌, ◌/◌, ◌%◌, ◌^◌, ◌<◌, ◌≤◌, if◌then◌else◌, length};

use crate::common::{Row, Split, write_row};
use crate::inner::{Inner, Outer, inner_faces};
use amr_num::{Axis, part};
use block_store::{Extents, direction, is_kept, place, position, row};

/// Sets the faces of the child `octant` of a block, which is i + 2 j + 4 k for the halves i on x, j on y and k on z: those
/// normal to x in `cx` from the block's in `px`, and so on, those on the child's sides among them. At an even position a
/// face gets its part of the block's face in which it lies, and at an odd one what the inner rule gives of the subfaces on
/// the sides of the block's cell in which it lies. Bit d of `kept` says that the child's side in the direction
/// d = (dx + 1) + 3 (dy + 1) + 9 (dz + 1) has its numbers already: these stay, as the guard cells' faces do.
///
/// The arrays are those of blocks of `N` cells along each axis with `G` guard cells on each side. The numbers that stay,
/// and those of the block of which others are made, are at most [`amr_num::RANGE`] in absolute value.
pub fn split_faces<const N: usize, const G: usize>(
    octant: u32,
    kept: u32,
    px: &[i64],
    py: &[i64],
    pz: &[i64],
    cx: &mut [i64],
    cy: &mut [i64],
    cz: &mut [i64],
)
    requires size { IsSize N G }
    requires octant { octant < 8 }
    requires px { length px.now ≡ size_of (face_extents N G X) }
    requires py { length py.now ≡ size_of (face_extents N G Y) }
    requires pz { length pz.now ≡ size_of (face_extents N G Z) }
    requires cx { length cx.old ≡ size_of (face_extents N G X) }
    requires cy { length cy.old ≡ size_of (face_extents N G Y) }
    requires cz { length cz.old ≡ size_of (face_extents N G Z) }
    requires small { SourcesAreSmall N G octant kept (all_faces N G (by_axis px.now py.now pz.now)) (all_faces N G (by_axis cx.old cy.old cz.old)) }
    ensures { AreFacesSplit N G octant kept (by_axis px.now py.now pz.now) (by_axis cx.old cy.old cz.old) (by_axis cx.new cy.new cz.new) }
{
    let split = Split {
        n: N,
        g: G,
        q: octant as usize,
        kept,
    };
    split_all(split, px, py, pz, cx, cy, cz);
}

/// The direction of the side that lies one step down or up an axis.
fn side_direction(axis: Axis, step: u32) -> u32
    requires { step ≤ 2 }
    ensures value { result ≡ splits.side_direction axis step }
    ensures few { result < 27 }
{
    match axis {
        Axis::X => direction(step, 1, 1),
        Axis::Y => direction(1, step, 1),
        Axis::Z => direction(1, 1, step),
    }
}

/// Whether a face at a position on its axis is on a side that is kept.
fn is_kept_side(n: usize, kept: u32, axis: Axis, position: usize) -> bool
    ensures { result ≡ splits.is_kept_side n kept axis position }
{
    let low = is_kept(kept, side_direction(axis, 0));
    let high = is_kept(kept, side_direction(axis, 2));
    position == 0 && low || position == n && high
}

/// Whether it is a part of the parent's face.
fn is_part(split: Split, axis: Axis, position: usize) -> bool
    ensures { result ≡ splitting.is_part split.n split.kept axis position }
{
    !is_kept_side(split.n, split.kept, axis, position) && position % 2 == 0
}

/// Which quarter of its parent the face at three coordinates is.
fn quarter(axis: Axis, i: usize, j: usize, k: usize) -> u32
    ensures value { result ≡ views.cross axis (i % 2) (j % 2) (k % 2) }
    ensures few { result < 4 }
{
    let quarter = match axis {
        Axis::X => j % 2 + 2 * (k % 2),
        Axis::Y => i % 2 + 2 * (k % 2),
        Axis::Z => i % 2 + 2 * (j % 2),
    };
    quarter as u32
}

/// What a face is given: where it is a part, its part of `whole`, and `old` elsewhere.
#[tactic(auto, unfolding(crate::specs::Splitting::given))]
fn part_or(split: Split, axis: Axis, i: usize, j: usize, k: usize, whole: i64, old: i64) -> i64
    ensures { result ≡ given split.n split.kept axis i j k whole old }
{
    if is_part(split, axis, position(axis, i, j, k)) {
        part(quarter(axis, i, j, k), whole, 4)
    } else {
        old
    }
}

/// What the faces of a row are given, from those of the parent from a place on and from what they had.
fn part_line(split: Split, row: Row, parent: &[i64], from: usize, old: &[i64], out: &mut [i64])
    requires old { length old.now ≡ length out.old }
    requires inside { (t : ℕ) → t < length out.old → from + t / 2 < length parent.now }
    ensures size { length out.new ≡ length out.old }
    ensures parts { (t : ℕ) → t < length out.old → at out.new t ≡ given split.n split.kept row.axis t row.j row.k (at parent.now (from + t / 2)) (at old.now t) }
{
    for t in 0..out.len() {
        out[t] = part_or(
            split,
            row.axis,
            t,
            row.j,
            row.k,
            parent[from + t / 2],
            old[t],
        );
    }
}

/// How many faces normal to an axis stand along each axis in a block of `n` cells.
fn faces_along(n: usize, axis: Axis) -> Extents
    requires { n ≤ 8 }
    ensures x { result.x ≡ longer_on axis X n }
    ensures y { result.y ≡ longer_on axis Y n }
    ensures z { result.z ≡ longer_on axis Z n }
{
    Extents {
        x: if axis == Axis::X { n + 1 } else { n },
        y: if axis == Axis::Y { n + 1 } else { n },
        z: if axis == Axis::Z { n + 1 } else { n },
    }
}

/// Gives a row of a child's faces normal to an axis their parts of the parent's.
fn part_row(split: Split, line: Row, parent: &[i64], child: &mut [i64])
    requires size { IsSize split.n split.g }
    requires octant { split.q < 8 }
    requires parent { length parent.now ≡ size_of (face_extents split.n split.g line.axis) }
    requires child { length child.old ≡ size_of (face_extents split.n split.g line.axis) }
    requires inside { (line.j < longer_on line.axis Y split.n) × (line.k < longer_on line.axis Z split.n) }
    ensures { let e = face_extents split.n split.g line.axis in
        IsRowWritten (places.place_in e split.g (split.g + line.j) (split.g + line.k)) (longer_on line.axis X split.n)
        (λ t. part_or_old split.n split.g split.q split.kept line.axis (number_at e parent.now) (number_at e child.old) t line.j line.k) child.old child.new }
{
    let Split { n, g, q, kept: _ } = split;
    let Row { axis, j, k } = line;
    let half = n / 2;
    let extents = Extents::of_faces(n, g, axis);
    let many = faces_along(n, axis).x;
    let x = g + half * (q % 2);
    let y = g + half * (q / 2 % 2) + j / 2;
    let z = g + half * (q / 4 % 2) + k / 2;
    let from = place(extents, x, y, z);
    let mut room = [0i64; 9];
    let out = &mut room[..many];
    let old = row(extents, child, g, g + j, g + k, many);
    part_line(split, line, parent, from, old, out);
    write_row(extents, g, g + j, g + k, out, child);
}

/// Gives a child's faces normal to an axis their parts of the parent's.
fn part_faces(split: Split, axis: Axis, parent: &[i64], child: &mut [i64])
    requires size { IsSize split.n split.g }
    requires octant { split.q < 8 }
    requires parent { length parent.now ≡ size_of (face_extents split.n split.g axis) }
    requires child { length child.old ≡ size_of (face_extents split.n split.g axis) }
    ensures { let e = face_extents split.n split.g axis in
        IsWritten e (face_box split.n split.g axis) (part_or_old split.n split.g split.q split.kept axis (number_at e parent.now) (number_at e child.old)) child.old child.new }
{
    let along = faces_along(split.n, axis);
    for m in 0..along.y * along.z {
        let j = m % along.y;
        let k = m / along.y;
        part_row(split, Row { axis, j, k }, parent, child);
    }
}

/// The face that is the quarter `q` of four side by side from a place on.
fn quarter_at(
    axis: Axis,
    extents: Extents,
    faces: &[i64],
    x: usize,
    y: usize,
    z: usize,
    q: usize,
) -> i64
    requires small { (extents.x ≤ 17) × (extents.y ≤ 17) × (extents.z ≤ 17) }
    requires inside { Fits extents (four_box axis x y z) }
    requires size { length faces.now ≡ size_of extents }
    requires quarter { q < 4 }
    ensures { result ≡ four_from axis (number_at extents faces.now) x y z q }
{
    match axis {
        Axis::X => faces[place(extents, x, y + q % 2, z + q / 2 % 2)],
        Axis::Y => faces[place(extents, x + q % 2, y, z + q / 2 % 2)],
        Axis::Z => faces[place(extents, x + q % 2, y + q / 2 % 2, z)],
    }
}

/// Four faces side by side from a place on, by quarter.
fn four_at(axis: Axis, extents: Extents, faces: &[i64], x: usize, y: usize, z: usize) -> [i64; 4]
    requires small { (extents.x ≤ 17) × (extents.y ≤ 17) × (extents.z ≤ 17) }
    requires inside { Fits extents (four_box axis x y z) }
    requires size { length faces.now ≡ size_of extents }
    ensures { (q : ℕ) → q < 4 → at result q ≡ four_from axis (number_at extents faces.now) x y z q }
{
    [
        quarter_at(axis, extents, faces, x, y, z, 0),
        quarter_at(axis, extents, faces, x, y, z, 1),
        quarter_at(axis, extents, faces, x, y, z, 2),
        quarter_at(axis, extents, faces, x, y, z, 3),
    ]
}

/// The cell of a block one level coarser whose first sub-cell stands at a place of the block's array.
#[derive(Clone, Copy)]
struct Corner {
    x: usize,
    y: usize,
    z: usize,
}

/// The subfaces on the sides of such a cell.
fn sides(n: usize, g: usize, cx: &[i64], cy: &[i64], cz: &[i64], corner: Corner) -> Outer
    requires size { IsSize n g }
    requires cx { length cx.now ≡ size_of (face_extents n g X) }
    requires cy { length cy.now ≡ size_of (face_extents n g Y) }
    requires cz { length cz.now ≡ size_of (face_extents n g Z) }
    requires inside { (corner.x + 2 ≤ n + g) × (corner.y + 2 ≤ n + g) × (corner.z + 2 ≤ n + g) }
    ensures { AreSides (sides_of result) (sides_from (all_faces n g (by_axis cx.now cy.now cz.now)) corner.x corner.y corner.z) }
{
    let ex = Extents::of_faces(n, g, Axis::X);
    let ey = Extents::of_faces(n, g, Axis::Y);
    let ez = Extents::of_faces(n, g, Axis::Z);
    let Corner { x, y, z } = corner;
    Outer {
        x_low: four_at(Axis::X, ex, cx, x, y, z),
        x_high: four_at(Axis::X, ex, cx, x + 2, y, z),
        y_low: four_at(Axis::Y, ey, cy, x, y, z),
        y_high: four_at(Axis::Y, ey, cy, x, y + 2, z),
        z_low: four_at(Axis::Z, ez, cz, x, y, z),
        z_high: four_at(Axis::Z, ez, cz, x, y, z + 2),
    }
}

/// How many of four faces side by side stand along each axis.
fn four_extents(axis: Axis) -> Extents
    ensures { result ≡ splitting.four_extents axis }
{
    match axis {
        Axis::X => Extents { x: 1, y: 2, z: 2 },
        Axis::Y => Extents { x: 2, y: 1, z: 2 },
        Axis::Z => Extents { x: 2, y: 2, z: 1 },
    }
}

/// Sets the `m`-th row of four faces side by side.
fn put_row(
    axis: Axis,
    extents: Extents,
    corner: Corner,
    values: [i64; 4],
    faces: &mut [i64],
    m: usize,
)
    requires small { (extents.x ≤ 17) × (extents.y ≤ 17) × (extents.z ≤ 17) }
    requires inside { Fits extents (four_box axis corner.x corner.y corner.z) }
    requires size { length faces.old ≡ size_of extents }
    requires row { let f = splitting.four_extents axis in m < f.y * f.z }
    ensures { let f = splitting.four_extents axis in let b = four_box axis corner.x corner.y corner.z in
        IsRowWritten (row_of extents b m) f.x (λ t. at values (places.place_in f t (m % f.y) (m / f.y))) faces.old faces.new }
{
    let along = four_extents(axis);
    let from = along.x * m;
    write_row(
        extents,
        corner.x,
        corner.y + m % along.y,
        corner.z + m / along.y,
        &values[from..from + along.x],
        faces,
    );
}

/// Sets four faces side by side from a place on.
fn put_four(axis: Axis, extents: Extents, corner: Corner, values: [i64; 4], faces: &mut [i64])
    requires small { (extents.x ≤ 17) × (extents.y ≤ 17) × (extents.z ≤ 17) }
    requires inside { Fits extents (four_box axis corner.x corner.y corner.z) }
    requires size { length faces.old ≡ size_of extents }
    ensures { IsWritten extents (four_box axis corner.x corner.y corner.z) (λ i j k. at values (places.place_in (splitting.four_extents axis) i j k)) faces.old faces.new }
{
    let along = four_extents(axis);
    for m in 0..along.y * along.z {
        put_row(axis, extents, corner, values, faces, m);
    }
}

/// Sets the faces between the octants of a cell to what the inner rule gives of the subfaces on its sides.
fn fill_cell(n: usize, g: usize, corner: Corner, cx: &mut [i64], cy: &mut [i64], cz: &mut [i64])
    requires size { IsSize n g }
    requires cx { length cx.old ≡ size_of (face_extents n g X) }
    requires cy { length cy.old ≡ size_of (face_extents n g Y) }
    requires cz { length cz.old ≡ size_of (face_extents n g Z) }
    requires inside { (corner.x + 2 ≤ n + g) × (corner.y + 2 ≤ n + g) × (corner.z + 2 ≤ n + g) }
    requires small { SidesAreSmall (sides_from (all_faces n g (by_axis cx.old cy.old cz.old)) corner.x corner.y corner.z) }
    ensures { (a : Axes) → IsWritten (face_extents n g a) (middle_box a corner.x corner.y corner.z)
        (λ i j k. inner_face (sides_from (all_faces n g (by_axis cx.old cy.old cz.old)) corner.x corner.y corner.z) a i j k) (by_axis cx.old cy.old cz.old a) (by_axis cx.new cy.new cz.new a) }
{
    let Corner { x, y, z } = corner;
    let Inner {
        x: on_x,
        y: on_y,
        z: on_z,
    } = inner_faces(&sides(n, g, cx, cy, cz, corner));
    put_four(
        Axis::X,
        Extents::of_faces(n, g, Axis::X),
        Corner { x: x + 1, y, z },
        on_x,
        cx,
    );
    put_four(
        Axis::Y,
        Extents::of_faces(n, g, Axis::Y),
        Corner { x, y: y + 1, z },
        on_y,
        cy,
    );
    put_four(
        Axis::Z,
        Extents::of_faces(n, g, Axis::Z),
        Corner { x, y, z: z + 1 },
        on_z,
        cz,
    );
}

/// Sets the faces at odd positions, cell by cell of the parent's octant.
fn fill_cells(n: usize, g: usize, cx: &mut [i64], cy: &mut [i64], cz: &mut [i64])
    requires size { IsSize n g }
    requires cx { length cx.old ≡ size_of (face_extents n g X) }
    requires cy { length cy.old ≡ size_of (face_extents n g Y) }
    requires cz { length cz.old ≡ size_of (face_extents n g Z) }
    requires small { EvenAreSmall n g (all_faces n g (by_axis cx.old cy.old cz.old)) }
    ensures { (a : Axes) → AreBetween (n / 2 * (n / 2) * (n / 2)) n g a (face_between g a (all_faces n g (by_axis cx.old cy.old cz.old)))
        (by_axis cx.old cy.old cz.old a) (by_axis cx.new cy.new cz.new a) }
{
    let half = n / 2;
    for c in 0..half * half * half {
        let corner = Corner {
            x: g + 2 * (c % half),
            y: g + 2 * (c / half % half),
            z: g + 2 * (c / half / half),
        };
        fill_cell(n, g, corner, cx, cy, cz);
    }
}

/// Splits the faces normal to all axes.
fn split_all(
    split: Split,
    px: &[i64],
    py: &[i64],
    pz: &[i64],
    cx: &mut [i64],
    cy: &mut [i64],
    cz: &mut [i64],
)
    requires size { IsSize split.n split.g }
    requires octant { split.q < 8 }
    requires px { length px.now ≡ size_of (face_extents split.n split.g X) }
    requires py { length py.now ≡ size_of (face_extents split.n split.g Y) }
    requires pz { length pz.now ≡ size_of (face_extents split.n split.g Z) }
    requires cx { length cx.old ≡ size_of (face_extents split.n split.g X) }
    requires cy { length cy.old ≡ size_of (face_extents split.n split.g Y) }
    requires cz { length cz.old ≡ size_of (face_extents split.n split.g Z) }
    requires small { SourcesAreSmall split.n split.g split.q split.kept (all_faces split.n split.g (by_axis px.now py.now pz.now))
        (all_faces split.n split.g (by_axis cx.old cy.old cz.old)) }
    ensures { AreFacesSplit split.n split.g split.q split.kept (by_axis px.now py.now pz.now) (by_axis cx.old cy.old cz.old) (by_axis cx.new cy.new cz.new) }
{
    part_faces(split, Axis::X, px, cx);
    part_faces(split, Axis::Y, py, cy);
    part_faces(split, Axis::Z, pz, cz);
    fill_cells(split.n, split.g, cx, cy, cz);
}
