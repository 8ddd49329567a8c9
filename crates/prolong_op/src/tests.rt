//! Parts of cells and of faces that are worked by hand.

ghost use Rattle.amr_num.specs.Numbers.{Within, at};
ghost use Rattle.std.specs.Prelude.{◌≡◌, ℕ, ◌^◌, ◌<◌, ◌≤◌, IfOk, length};

use crate::laws::{children_hold_views, edge_children_hold_views, face_children_hold_views};
use crate::{Outer, inner_faces, split_cells, split_edges, split_faces};
use amr_num::OutOfMemory;
use std::alloc::Global;

/// So many numbers that are all 7.
fn sevens(alloc: Global, count: usize) -> Result<Vec<i64>, OutOfMemory>
    ensures size { IfOk result (λ list. length list.items ≡ count) }
    ensures few { IfOk result (λ list. (p : ℕ) → Within (2 ^ 40) (at list.items p)) }
{
    match vec![in alloc; 7; count] {
        Ok(list) => Ok(list),
        Err(_) => Err(OutOfMemory),
    }
}

/// Sets a number.
fn set(list: &mut [i64], place: usize, number: i64)
    requires place { place < length list.old }
    requires number { Within (2 ^ 40) number }
    requires few { (p : ℕ) → Within (2 ^ 40) (at list.old p) }
    ensures size { length list.new ≡ length list.old }
    ensures few { (p : ℕ) → Within (2 ^ 40) (at list.new p) }
{
    list[place] = number;
}

#[test]
fn one_cell_makes_eight(rt: HostRuntime) {
    let mut parent = [0i64; 216];
    // The cell (2, 0, 0) is the first that the child 1 gets.
    parent[3 + 6 + 36] = 13;
    let mut child = [7i64; 216];
    split_cells::<4, 1>(1, &parent, &mut child);
    assert_eq!(rt; child[1 + 6 + 36], 2);
    assert_eq!(rt; child[2 + 6 + 36], 2);
    assert_eq!(rt; child[1 + 12 + 36], 2);
    assert_eq!(rt; child[2 + 12 + 36], 2);
    assert_eq!(rt; child[1 + 6 + 72], 2);
    assert_eq!(rt; child[2 + 6 + 72], 1);
    assert_eq!(rt; child[1 + 12 + 72], 1);
    assert_eq!(rt; child[2 + 12 + 72], 1);
    assert_eq!(rt; child[3 + 6 + 36], 0);
    assert_eq!(rt; child[6 + 36], 7);
    children_hold_views();
}

#[test]
fn octants_balance(rt: HostRuntime) {
    let inner = inner_faces(&Outer {
        x_low: [3, 1, 0, 1],
        x_high: [1, 0, 0, 0],
        y_low: [0, 0, 0, 0],
        y_high: [1, 0, 0, 2],
        z_low: [0, 0, 0, 0],
        z_high: [0, 1, 0, 0],
    });
    assert_eq!(rt; inner.x, [3, 1, 0, 0]);
    assert_eq!(rt; inner.y, [0, 0, 0, 1]);
    assert_eq!(rt; inner.z, [0, 2, -1, 1]);
}

#[test]
fn a_cell_is_split_between_its_sides(rt: HostRuntime) {
    // A row on x has 7 places, and those of y and z 6. A plane on y has 7 rows, and those of x and z 6.
    let mut px = sevens(rt.alloc(), 252).expect(&rt, "memory");
    let mut py = sevens(rt.alloc(), 252).expect(&rt, "memory");
    let mut pz = sevens(rt.alloc(), 252).expect(&rt, "memory");
    let mut cx = sevens(rt.alloc(), 252).expect(&rt, "memory");
    let mut cy = sevens(rt.alloc(), 252).expect(&rt, "memory");
    let mut cz = sevens(rt.alloc(), 252).expect(&rt, "memory");
    // Of the parent's cell (0, 0, 0) 1 flows out on x, 3 on y and 1 on z, and 5 flow in through the low x side, which is
    // the child's and is kept.
    set(&mut px, 2 + 7 + 42, 1);
    set(&mut py, 1 + 6 + 42, 0);
    set(&mut py, 1 + 12 + 42, 3);
    set(&mut pz, 1 + 6 + 36, 0);
    set(&mut pz, 1 + 6 + 72, 1);
    set(&mut cx, 1 + 7 + 42, 3);
    set(&mut cx, 1 + 14 + 42, 1);
    set(&mut cx, 1 + 7 + 84, 0);
    set(&mut cx, 1 + 14 + 84, 1);
    split_faces::<4, 1>(0, 4096, &px, &py, &pz, &mut cx, &mut cy, &mut cz);
    assert_eq!(rt; cx[1 + 7 + 42], 3);
    assert_eq!(rt; cx[1 + 28 + 168], 7);
    assert_eq!(rt; cx[2 + 7 + 42], 2);
    assert_eq!(rt; cx[2 + 14 + 42], 0);
    assert_eq!(rt; cx[2 + 7 + 84], 0);
    assert_eq!(rt; cx[3 + 7 + 42], 1);
    assert_eq!(rt; cx[3 + 14 + 42], 0);
    // The high x side is not kept: the parent's face there has 7, of which the last quarter is 1.
    assert_eq!(rt; cx[5 + 7 + 42], 2);
    assert_eq!(rt; cx[5 + 14 + 84], 1);
    assert_eq!(rt; cx[7 + 42], 7);
    assert_eq!(rt; cy[1 + 12 + 42], 0);
    assert_eq!(rt; cy[2 + 12 + 42], 1);
    assert_eq!(rt; cy[1 + 12 + 84], 0);
    assert_eq!(rt; cy[1 + 18 + 84], 1);
    assert_eq!(rt; cy[2 + 18 + 84], 0);
    assert_eq!(rt; cz[1 + 6 + 72], 1);
    assert_eq!(rt; cz[2 + 6 + 72], 0);
    assert_eq!(rt; cz[1 + 12 + 72], 0);
    assert_eq!(rt; cz[1 + 6 + 108], 1);
    face_children_hold_views();
}

#[test]
fn edges_are_halves_and_means_between_them(rt: HostRuntime) {
    // A row on x of the edges along x has 6 places, and one of those along y or z 7. A plane of those along x or z has 7
    // rows, and one of those along y 6.
    let mut px = sevens(rt.alloc(), 294).expect(&rt, "memory");
    let py = sevens(rt.alloc(), 294).expect(&rt, "memory");
    let pz = sevens(rt.alloc(), 294).expect(&rt, "memory");
    let mut cx = sevens(rt.alloc(), 294).expect(&rt, "memory");
    let mut cy = sevens(rt.alloc(), 294).expect(&rt, "memory");
    let mut cz = sevens(rt.alloc(), 294).expect(&rt, "memory");
    // The parent's edges along x at the four corners of its cell (0, 0, 0), of which the child 0 has the halves.
    set(&mut px, 1 + 6 + 42, 5);
    set(&mut px, 1 + 12 + 42, 0);
    set(&mut px, 1 + 6 + 84, -4);
    set(&mut px, 1 + 12 + 84, -7);
    // The part of the child's boundary low on y and on z, in the direction 1, is kept.
    set(&mut cx, 1 + 6 + 42, 9);
    split_edges::<4, 1>(0, 2, &px, &py, &pz, &mut cx, &mut cy, &mut cz);
    assert_eq!(rt; cx[1 + 6 + 42], 9);
    assert_eq!(rt; cx[2 + 6 + 42], 7);
    assert_eq!(rt; cx[1 + 18 + 42], 0);
    assert_eq!(rt; cx[1 + 6 + 126], -2);
    assert_eq!(rt; cx[1 + 18 + 126], -3);
    assert_eq!(rt; cx[2 + 18 + 126], -4);
    // Between two and between four of these, rounded down.
    assert_eq!(rt; cx[1 + 12 + 42], 4);
    assert_eq!(rt; cx[1 + 6 + 84], 3);
    assert_eq!(rt; cx[1 + 12 + 126], -3);
    assert_eq!(rt; cx[1 + 12 + 84], 1);
    assert_eq!(rt; cx[6 + 42], 7);
    assert_eq!(rt; cy[1 + 7 + 42], 4);
    assert_eq!(rt; cy[1 + 14 + 42], 3);
    assert_eq!(rt; cz[1 + 7 + 98], 3);
    edge_children_hold_views();
}
