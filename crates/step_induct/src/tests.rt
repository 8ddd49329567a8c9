//! Curls, forces and steps that are worked by hand.

ghost use Rattle.amr_num.specs.Numbers.{Within, at};
ghost use Rattle.mesh_model.specs.Fields.ArrayPlaces.{face_extents, size_of};
ghost use Rattle.std.specs.Prelude.{◌≡◌, ◌^◌, ◌<◌, ◌≤◌, ℕ, IfOk, length, unsigned_abs};

use crate::laws::{
    block_circulations_are_held, block_forces_are_of_leaves, block_steps_are_inducts,
};
use crate::{RangeAt, apply, curl, edge_values};
use amr_num::{Axis, OutOfMemory};
use std::alloc::Global;

/// So many numbers that are all 0.
fn zeros(alloc: Global, count: usize) -> Result<Vec<i64>, OutOfMemory>
    ensures size { IfOk result (λ list. length list.items ≡ count) }
    ensures few { IfOk result (λ list. (p : ℕ) → Within (2 ^ 56) (at list.items p)) }
{
    match vec![in alloc; 0; count] {
        Ok(list) => Ok(list),
        Err(_) => Err(OutOfMemory),
    }
}

/// Sets a number.
fn set(list: &mut [i64], place: usize, number: i64)
    requires place { place < length list.old }
    requires number { Within (2 ^ 56) number }
    requires few { (p : ℕ) → Within (2 ^ 56) (at list.old p) }
    ensures size { length list.new ≡ length list.old }
    ensures few { (p : ℕ) → Within (2 ^ 56) (at list.new p) }
{
    list[place] = number;
}

/// So many numbers that are all 0 but one.
fn one_number(
    alloc: Global,
    count: usize,
    place: usize,
    number: i64,
) -> Result<Vec<i64>, OutOfMemory>
    requires inside { place < count }
    requires number { Within (2 ^ 56) number }
    ensures size { IfOk result (λ list. length list.items ≡ count) }
    ensures few { IfOk result (λ list. (p : ℕ) → Within (2 ^ 56) (at list.items p)) }
{
    let Ok(mut list) = zeros(alloc, count) else {
        return Err(OutOfMemory);
    };
    set(&mut list, place, number);
    Ok(list)
}

/// The curl of a block of 4 cells along each axis with a guard cell on each side that has edges along z alone.
#[tactic(auto, using(crate::proofs::Rounds::few_arrays))]
fn curl_along_z(
    axis: Axis,
    zeros: &[i64],
    ez: &[i64],
    sides: [bool; 6],
    out: &mut [i64],
) -> Result<(), RangeAt>
    requires zeros { length zeros.now ≡ 294 }
    requires ez { length ez.now ≡ 294 }
    requires few_zeros { (p : ℕ) → Within (2 ^ 56) (at zeros.now p) }
    requires few { (p : ℕ) → Within (2 ^ 56) (at ez.now p) }
    requires out { length out.old ≡ size_of (face_extents 4 1 axis) }
    ensures { length out.new ≡ length out.old }
{
    curl::<4, 1>(axis, zeros, zeros, ez, sides, out)
}

/// Of four cells along each axis with a guard cell on each side, an array of edges along z has 7 places on x and on y and 6
/// on z, one of faces normal to x 7, 6 and 6, and one of faces normal to y 6, 7 and 6. The edge along z at (1, 1, 0) has 10.
#[test]
fn an_edge_is_circled(rt: HostRuntime) {
    let none = zeros(rt.alloc(), 294).expect(&rt, "memory");
    let mut ez = zeros(rt.alloc(), 294).expect(&rt, "memory");
    set(&mut ez, 2 + 14 + 49, 10);
    let mut on_x = [3i64; 252];
    let mut on_y = [3i64; 252];
    let sides = [true; 6];
    assert_eq!(rt; curl_along_z(Axis::X, &none, &ez, sides, &mut on_x), Ok(()));
    assert_eq!(rt; curl_along_z(Axis::Y, &none, &ez, sides, &mut on_y), Ok(()));
    assert_eq!(rt; on_x[2 + 7 + 42], 10);
    assert_eq!(rt; on_x[2 + 14 + 42], -10);
    assert_eq!(rt; on_x[1 + 7 + 42], 0);
    assert_eq!(rt; on_x[0], 3);
    assert_eq!(rt; on_y[1 + 12 + 42], -10);
    assert_eq!(rt; on_y[2 + 12 + 42], 10);
    block_circulations_are_held();
}

/// Two edges of 2^40 and -2^40 make the face between them too great, and the faces on the sides of the block that are no
/// leaf faces may be.
#[test]
fn a_circulation_is_out_of_range(rt: HostRuntime) {
    let none = zeros(rt.alloc(), 294).expect(&rt, "memory");
    let mut ez = zeros(rt.alloc(), 294).expect(&rt, "memory");
    set(&mut ez, 1 + 14 + 49, -1_099_511_627_776);
    set(&mut ez, 1 + 21 + 49, 1_099_511_627_776);
    let mut on_x = [0i64; 252];
    let found = RangeAt {
        axis: Axis::X,
        i: 0,
        j: 1,
        k: 0,
        value: 2_199_023_255_552,
    };
    assert_eq!(rt;
        curl_along_z(Axis::X, &none, &ez, [true; 6], &mut on_x),
        Err(found)
    );
    let sides = [false, true, true, true, true, true];
    assert_eq!(rt; curl_along_z(Axis::X, &none, &ez, sides, &mut on_x), Ok(()));
    assert_eq!(rt; on_x[1 + 14 + 42], 2_199_023_255_552);
}

/// The step of the faces normal to x of such a block.
#[tactic(auto, using(crate::proofs::Rounds::few_arrays, crate::proofs::Rounds::few_faces))]
fn apply_along_z(faces: &[i64], zeros: &[i64], ez: &[i64], out: &mut [i64]) -> Result<(), RangeAt>
    requires faces { length faces.now ≡ 252 }
    requires zeros { length zeros.now ≡ 294 }
    requires ez { length ez.now ≡ 294 }
    requires few_faces { (p : ℕ) → Within (2 ^ 56) (at faces.now p) }
    requires few_zeros { (p : ℕ) → Within (2 ^ 56) (at zeros.now p) }
    requires few { (p : ℕ) → Within (2 ^ 56) (at ez.now p) }
    requires out { length out.old ≡ 252 }
    ensures { length out.new ≡ length out.old }
{
    apply::<4, 1>(Axis::X, faces, zeros, zeros, ez, [true; 6], out)
}

/// The edge along z at (1, 1, 0) has 10, which flows forth round the face normal to x at (1, 0, 0) and back round that at
/// (1, 1, 0).
#[test]
fn circulations_are_taken(rt: HostRuntime) {
    let none = zeros(rt.alloc(), 294).expect(&rt, "memory");
    let ez = one_number(rt.alloc(), 294, 2 + 14 + 49, 10).expect(&rt, "memory");
    let faces = one_number(rt.alloc(), 252, 2 + 7 + 42, 7).expect(&rt, "memory");
    let mut out = [3i64; 252];
    assert_eq!(rt; apply_along_z(&faces, &none, &ez, &mut out), Ok(()));
    assert_eq!(rt; out[2 + 7 + 42], -3);
    assert_eq!(rt; out[2 + 14 + 42], 10);
    assert_eq!(rt; out[3 + 7 + 42], 0);
    assert_eq!(rt; out[0], 3);
    block_steps_are_inducts();
}

/// A face with 2^40 from which a circulation of -10 is taken is out of range.
#[test]
fn a_step_is_out_of_range(rt: HostRuntime) {
    let none = zeros(rt.alloc(), 294).expect(&rt, "memory");
    let ez = one_number(rt.alloc(), 294, 2 + 14 + 49, 10).expect(&rt, "memory");
    let faces = one_number(rt.alloc(), 252, 2 + 14 + 42, 1_099_511_627_776).expect(&rt, "memory");
    let mut out = [0i64; 252];
    let found = RangeAt {
        axis: Axis::X,
        i: 1,
        j: 1,
        k: 0,
        value: 1_099_511_627_786,
    };
    assert_eq!(rt; apply_along_z(&faces, &none, &ez, &mut out), Err(found));
}

/// The edges along x of such a block, for speeds on y and z.
#[tactic(auto, using(crate::proofs::Rounds::few_face_arrays, crate::proofs::Rounds::slow_flow))]
fn forces_along_x(
    zeros: &[i64],
    by: &[i64],
    bz: &[i64],
    y: i64,
    z: i64,
    closed: [bool; 6],
    out: &mut [i64],
)
    requires zeros { length zeros.now ≡ 252 }
    requires by { length by.now ≡ 252 }
    requires bz { length bz.now ≡ 252 }
    requires few_zeros { (p : ℕ) → Within (2 ^ 56) (at zeros.now p) }
    requires few_y { (p : ℕ) → Within (2 ^ 56) (at by.now p) }
    requires few_z { (p : ℕ) → Within (2 ^ 56) (at bz.now p) }
    requires y { unsigned_abs y ≤ 2 ^ 20 }
    requires z { unsigned_abs z ≤ 2 ^ 20 }
    requires out { length out.old ≡ 294 }
    ensures { length out.new ≡ length out.old }
{
    edge_values::<4, 1>(zeros, by, bz, Axis::X, 0, [0, y, z], closed, out);
}

/// An array of edges along x has 6 places on x and 7 on y and on z, one of faces normal to y 6, 7 and 6, and one of faces
/// normal to z 6, 6 and 7. Of a face normal to y at (1, 2, 3) with 10 a speed of half a cell on z carries 5 to the edge
/// above it, and one of half a cell down -5 to the edge below it. Where the high side on z is closed, the edge above it
/// has 0.
#[test]
fn forces_come_from_upstream(rt: HostRuntime) {
    let half = 524_288;
    let none = zeros(rt.alloc(), 252).expect(&rt, "memory");
    let by = one_number(rt.alloc(), 252, 2 + 6 * 3 + 42 * 4, 10).expect(&rt, "memory");
    let mut ex = [3i64; 294];
    forces_along_x(&none, &by, &none, 0, half, [false; 6], &mut ex);
    assert_eq!(rt; ex[2 + 6 * 3 + 42 * 5], 5);
    assert_eq!(rt; ex[2 + 6 * 3 + 42 * 4], 0);
    assert_eq!(rt; ex[0], 3);
    forces_along_x(&none, &by, &none, 0, -half, [false; 6], &mut ex);
    assert_eq!(rt; ex[2 + 6 * 3 + 42 * 5], 0);
    assert_eq!(rt; ex[2 + 6 * 3 + 42 * 4], -5);
    let high = [false, false, false, false, false, true];
    forces_along_x(&none, &by, &none, 0, half, high, &mut ex);
    assert_eq!(rt; ex[2 + 6 * 3 + 42 * 5], 0);
    block_forces_are_of_leaves();
}

/// A guard normal to y below (1, 2, 0) with 8 gives 4 to the edge on the low side on z, but not where that is closed.
#[test]
fn forces_come_from_guards(rt: HostRuntime) {
    let half = 524_288;
    let none = zeros(rt.alloc(), 252).expect(&rt, "memory");
    let by = one_number(rt.alloc(), 252, 2 + 6 * 3, 8).expect(&rt, "memory");
    let mut ex = [3i64; 294];
    forces_along_x(&none, &by, &none, 0, half, [false; 6], &mut ex);
    assert_eq!(rt; ex[2 + 6 * 3 + 42], 4);
    let low = [false, false, false, false, true, false];
    forces_along_x(&none, &by, &none, 0, half, low, &mut ex);
    assert_eq!(rt; ex[2 + 6 * 3 + 42], 0);
}

/// What a speed on y carries of a face normal to z at (1, 2, 3) with 10 is taken away.
#[test]
fn the_other_speed_carries_back(rt: HostRuntime) {
    let half = 524_288;
    let none = zeros(rt.alloc(), 252).expect(&rt, "memory");
    let bz = one_number(rt.alloc(), 252, 2 + 6 * 3 + 36 * 4, 10).expect(&rt, "memory");
    let mut ex = [3i64; 294];
    forces_along_x(&none, &none, &bz, half, 0, [false; 6], &mut ex);
    assert_eq!(rt; ex[2 + 6 * 4 + 42 * 4], -5);
    assert_eq!(rt; ex[2 + 6 * 3 + 42 * 4], 0);
}
