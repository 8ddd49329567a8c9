//! Numbers on the faces of a block, by their position along the axis and two places across it.

ghost use Rattle.amr_num.specs.Numbers.{Within, at};
ghost use Rattle.flux_conserve.specs.Jumps.{IsFacePlace, spot};
ghost use Rattle.flux_conserve.specs.Sums.{IsFaceSet, four_at};
ghost use Rattle.flux_conserve.specs.FaceArrays.{face_at};
ghost use Rattle.mesh_model.specs.Fields.ArrayPlaces as places;
ghost use Rattle.mesh_model.specs.Fields.ArrayPlaces.{IsSize, face_extents, size_of};
ghost use Rattle.std.specs.Prelude.{◌≡◌, ℕ, ◌+◌, ◌*◌, ◌/◌, ◌%◌, ◌^◌, ◌<◌, ◌≤◌, ◌+ℤ◌, length};

use amr_num::Axis;
use block_store::{Extents, place};
use mesh_model::Var;

/// The arrays of a block's faces normal to an axis: `n` cells along each axis, and `g` guard cells on each side.
#[derive(Clone, Copy)]
pub(crate) struct Faces {
    pub n: usize,
    pub g: usize,
    pub axis: Axis,
}

/// Where a face stands in the list of an array: at the position `p` along the axis, and s and t on the others in order.
fn face_place(faces: Faces, p: usize, s: usize, t: usize) -> usize
    requires size { IsSize faces.n faces.g }
    requires inside { IsFacePlace faces.n p s t }
    ensures value { let c = spot faces.axis p s t in
        result ≡ places.place_in (face_extents faces.n faces.g faces.axis) (faces.g + c.x) (faces.g + c.y) (faces.g + c.z) }
    ensures inside { result < size_of (face_extents faces.n faces.g faces.axis) }
{
    let g = faces.g;
    let extents = Extents::of(faces.n, g, Var::FaceWork(faces.axis));
    match faces.axis {
        Axis::X => place(extents, g + p, g + s, g + t),
        Axis::Y => place(extents, g + s, g + p, g + t),
        Axis::Z => place(extents, g + s, g + t, g + p),
    }
}

/// The number of a face.
fn face(faces: Faces, values: &[i64], p: usize, s: usize, t: usize) -> i64
    requires size { IsSize faces.n faces.g }
    requires values { length values.now ≡ size_of (face_extents faces.n faces.g faces.axis) }
    requires inside { IsFacePlace faces.n p s t }
    ensures { result ≡ face_at faces.n faces.g faces.axis values.now p s t }
{
    values[face_place(faces, p, s, t)]
}

/// Gives a face another number.
pub(crate) fn set_face(faces: Faces, values: &mut [i64], p: usize, s: usize, t: usize, value: i64)
    requires size { IsSize faces.n faces.g }
    requires values { length values.old ≡ size_of (face_extents faces.n faces.g faces.axis) }
    requires inside { IsFacePlace faces.n p s t }
    ensures { IsFaceSet faces.n faces.g faces.axis p s t value values.old values.new }
{
    values[face_place(faces, p, s, t)] = value;
}

/// The sum of four numbers.
fn add_four(a: i64, b: i64, c: i64, d: i64) -> i64
    requires { Within (2 ^ 56) a × Within (2 ^ 56) b × Within (2 ^ 56) c × Within (2 ^ 56) d }
    ensures value { result ≡ a +ℤ b +ℤ c +ℤ d }
    ensures size { Within (2 ^ 58) result }
{
    a + b + c + d
}

/// The sum of the four finer faces at a coarse face, which is the one at s and t in a quarter of its block's side.
pub(crate) fn sum_of_four(faces: Faces, values: &[i64], p: usize, s: usize, t: usize) -> i64
    requires size { IsSize faces.n faces.g }
    requires values { length values.now ≡ size_of (face_extents faces.n faces.g faces.axis) }
    requires position { p ≤ faces.n }
    requires inside { (s < faces.n / 2) × (t < faces.n / 2) }
    requires small { (i j : ℕ) → i < faces.n → j < faces.n → Within (2 ^ 56) (face_at faces.n faces.g faces.axis values.now p i j) }
    ensures value { result ≡ four_at faces.n faces.g faces.axis values.now p s t }
    ensures size { Within (2 ^ 58) result }
{
    let a = face(faces, values, p, 2 * s, 2 * t);
    let b = face(faces, values, p, 2 * s + 1, 2 * t);
    let c = face(faces, values, p, 2 * s, 2 * t + 1);
    let d = face(faces, values, p, 2 * s + 1, 2 * t + 1);
    add_four(a, b, c, d)
}
