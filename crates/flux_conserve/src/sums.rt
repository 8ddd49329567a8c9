//! Sums of the faces of finer blocks at a side of a coarser one.

ghost use Rattle.amr_num.specs.Numbers.{Within, at};
ghost use Rattle.flux_conserve.specs.Jumps as jumps;
ghost use Rattle.flux_conserve.specs.Sums.{IsSideSet, four_at, quarter_size, sum_place};
ghost use Rattle.flux_conserve.specs.FaceArrays.{face_at};
ghost use Rattle.mesh_model.specs.Fields.ArrayPlaces.{IsRowWritten, IsSize, face_extents, size_of};
ghost use Rattle.std.specs.Prelude.{◌≡◌, ℕ, ◌+◌, ◌*◌, ◌/◌, ◌%◌, ◌^◌, ◌<◌, ◌≤◌, length};

use crate::faces::{Faces, set_face, sum_of_four};

/// The place of the sum for the face at s and t of a side among those of its four quarters.
fn sum_place_of(n: usize, s: usize, t: usize) -> usize
    requires size { n ≤ 8 }
    requires some { 4 ≤ n }
    requires inside { (s < n) × (t < n) }
    ensures { result ≡ sum_place n s t }
{
    let half = n / 2;
    let quarter = s / half + 2 * (t / half);
    half * half * quarter + s % half + half * (t % half)
}

/// Puts the sums of a finer block's faces at the position `p` among the sums, from `from` on.
pub(crate) fn sum_side(faces: Faces, values: &[i64], p: usize, from: usize, sums: &mut [i64])
    requires size { IsSize faces.n faces.g }
    requires values { length values.now ≡ size_of (face_extents faces.n faces.g faces.axis) }
    requires position { p ≤ faces.n }
    requires small { (i j : ℕ) → i < faces.n → j < faces.n → Within (2 ^ 56) (face_at faces.n faces.g faces.axis values.now p i j) }
    requires room { from + quarter_size faces.n ≤ length sums.old }
    ensures row { let h = faces.n / 2 in
        IsRowWritten from (quarter_size faces.n) (λ m. four_at faces.n faces.g faces.axis values.now p (m % h) (m / h)) sums.old sums.new }
    ensures within { (m : ℕ) → m < quarter_size faces.n → Within (2 ^ 58) (at sums.new (from + m)) }
{
    let half = faces.n / 2;
    for m in 0..half * half {
        sums[from + m] = sum_of_four(faces, values, p, m % half, m / half);
    }
}

/// Gives the faces of a block at the position `p` the sums of the four quarters.
pub(crate) fn set_side(faces: Faces, values: &mut [i64], p: usize, sums: &[i64])
    requires size { IsSize faces.n faces.g }
    requires values { length values.old ≡ size_of (face_extents faces.n faces.g faces.axis) }
    requires position { p ≤ faces.n }
    requires sums { faces.n * faces.n ≤ length sums.now }
    ensures { IsSideSet faces.n faces.g faces.axis p (λ s t. at sums.now (sum_place faces.n s t)) values.old values.new }
{
    let n = faces.n;
    for m in 0..n * n {
        let s = m % n;
        let t = m / n;
        set_face(faces, values, p, s, t, sums[sum_place_of(n, s, t)]);
    }
}
