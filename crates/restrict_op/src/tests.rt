//! Sums of cells that are worked by hand.

ghost use Rattle.mesh_model.specs.Fields.FinePlaces.{FineSumsAreSmall};
ghost use Rattle.mesh_model.specs.Fields.Octants.{SumsAreSmall};
ghost use Rattle.mesh_model.specs.Fields.ArrayPlaces.{cell_extents, extents_of, number_at};
ghost use Rattle.mesh_model.specs.declared.fields.values.Var.{Var as Vars};
ghost use Rattle.std.specs.Prelude.{◌≡◌, IfOk, length};

use crate::laws::{children_make_parents, face_children_make_parents};
use crate::{restrict_cells, restrict_edges, restrict_faces};
use amr_num::{Axis, OutOfMemory};
use std::alloc::Global;

/// So many numbers that are all 5.
fn fives(alloc: Global, count: usize) -> Result<Vec<i64>, OutOfMemory>
    ensures size { IfOk result (λ list. length list.items ≡ count) }
    ensures few { IfOk result (λ list. SumsAreSmall 4 1 (number_at (cell_extents 4 1) list.items)) }
    ensures fine { IfOk result (λ list. (var : Vars) → FineSumsAreSmall 4 1 var (number_at (extents_of 4 1 var) list.items)) }
{
    match vec![in alloc; 5; count] {
        Ok(list) => Ok(list),
        Err(_) => Err(OutOfMemory),
    }
}

#[test]
fn eight_cells_make_one(rt: HostRuntime) {
    let child = fives(rt.alloc(), 216).expect(&rt, "memory");
    let mut parent = [7i64; 216];
    restrict_cells::<4, 1>(1, &child, &mut parent);
    // The octant 1 is the half of the block's cells that is at x = 2 and 3, and y and z = 0 and 1.
    assert_eq!(rt; parent[3 + 6 + 36], 40);
    assert_eq!(rt; parent[4 + 12 + 72], 40);
    assert_eq!(rt; parent[2 + 6 + 36], 7);
    assert_eq!(rt; parent[5 + 6 + 36], 7);
    assert_eq!(rt; parent[3 + 18 + 36], 7);
    assert_eq!(rt; parent[3 + 6 + 108], 7);
    children_make_parents();
}

#[test]
fn four_faces_make_one(rt: HostRuntime) {
    let child = fives(rt.alloc(), 252).expect(&rt, "memory");
    let mut parent = [7i64; 252];
    restrict_faces::<4, 1>(Axis::Y, 1, &child, &mut parent);
    // The octant 1 has the faces normal to y at x = 2 and 3, y = 0, 1 and 2, and z = 0 and 1. A row has 6 places, and a
    // plane 7 rows.
    assert_eq!(rt; parent[3 + 6 + 42], 20);
    assert_eq!(rt; parent[4 + 18 + 84], 20);
    assert_eq!(rt; parent[2 + 6 + 42], 7);
    assert_eq!(rt; parent[5 + 6 + 42], 7);
    assert_eq!(rt; parent[3 + 24 + 42], 7);
    assert_eq!(rt; parent[3 + 6 + 126], 7);
    face_children_make_parents();
}

#[test]
fn two_edges_make_one(rt: HostRuntime) {
    let child = fives(rt.alloc(), 294).expect(&rt, "memory");
    let mut parent = [7i64; 294];
    restrict_edges::<4, 1>(Axis::X, 6, &child, &mut parent);
    // The octant 6 has the edges along x at x = 0 and 1, and y and z = 2, 3 and 4. A row has 6 places, and a plane 7 rows.
    assert_eq!(rt; parent[1 + 18 + 126], 10);
    assert_eq!(rt; parent[2 + 30 + 210], 10);
    assert_eq!(rt; parent[3 + 18 + 126], 7);
    assert_eq!(rt; parent[1 + 12 + 126], 7);
    assert_eq!(rt; parent[1 + 36 + 210], 7);
    assert_eq!(rt; parent[18 + 126], 7);
}
