//! A pool's calls, once each.

use crate::{
    Beside, Cells, CountedFaces, Edges, Extents, Faces, Layout, PlaceAt, Pool, Region, block_above,
    copy_region, faces_above,
};
use amr_num::Axis;
use mesh_model::Var;

#[tactic(auto, unfolding(mesh_model::specs::Fields::Arrays::with_array))]
#[test]
fn slots_come_and_go(rt: HostRuntime) {
    let alloc = rt.alloc();
    let layout = Layout {
        cells: 1,
        faces: 0,
        edges: 1,
    };
    let mut pool = Pool::<4, 1>::new(alloc, layout).expect(&rt, "memory");
    pool.reserve(2).expect(&rt, "memory");
    assert_eq!(rt; pool.spare(), 2);
    let slot = pool.take(7);
    assert_eq!(rt; pool.spare(), 1);
    assert_eq!(rt; pool.values(Var::Cell(0), slot).len(), 216);
    assert_eq!(rt; pool.values(Var::FaceWork(Axis::Y), slot).len(), 252);
    assert_eq!(rt; pool.values(Var::Edge(Axis::Z), slot).len(), 294);
    pool.values_mut(Var::Cell(0), slot)[43] = 5;
    // The place (1, 1, 1), which is 1 + 6 + 36, is the first cell's.
    let first = Cells::<4, 1>::new(pool.values(Var::Cell(0), slot)).get(0, 0, 0);
    assert_eq!(rt; first, 5);
    let Beside {
        a,
        b: _,
        c: _,
        d: _,
        out,
    } = pool.beside(slot, [Var::Cell(0); 4], Var::CellWork);
    out.copy_from_slice(a);
    assert_eq!(rt; pool.values(Var::CellWork, slot)[43], 5);
    pool.give_back(slot);
    assert_eq!(rt; pool.spare(), 2);
    let again = pool.take(3);
    assert_eq!(rt; pool.values(Var::Cell(0), again)[43], 0);
}

#[test]
fn faces_and_edges_are_read_by_block_indices(rt: HostRuntime) {
    let mut faces = [0i64; 252];
    // The face (4, 0, 3) normal to x has the place (5, 1, 4), which is 5 + 7 + 4 * 42.
    faces[180] = 5;
    assert_eq!(rt; Faces::<4, 1>::new(Axis::X, &faces).get(4, 0, 3), 5);
    let mut edges = [0i64; 294];
    // The edge (-1, 4, 0) along x has the place (0, 5, 1), which is 5 * 6 + 42.
    edges[72] = 7;
    assert_eq!(rt; Edges::<4, 1>::new(Axis::X, &edges).get(-1, 4, 0), 7);
}

#[test]
fn the_first_number_out_of_range_is_told(rt: HostRuntime) {
    let mut faces = [0i64; 252];
    // A row of faces normal to x has 7 places, and a plane 42. The place (1, 2, 1) is on the low side.
    faces[1 + 14 + 42] = 1 << 41;
    faces[3 + 14 + 42] = -(1 << 42);
    let on_sides = CountedFaces {
        axis: Axis::X,
        low: true,
        high: true,
    };
    let inside = CountedFaces {
        axis: Axis::X,
        low: false,
        high: true,
    };
    assert_eq!(rt;
        faces_above(4, 1, &faces, on_sides).map(|a| (a.i, a.j, a.k, a.value)),
        Some((0, 1, 0, 1 << 41))
    );
    assert_eq!(rt;
        faces_above(4, 1, &faces, inside).map(|a| (a.i, a.j, a.k, a.value)),
        Some((2, 1, 0, -(1 << 42)))
    );
    let cells = [0i64; 216];
    assert_eq!(rt; block_above(4, 1, &cells).is_none(), true);
}

#[test]
fn a_region_is_copied(rt: HostRuntime) {
    let mut from = [0i64; 216];
    from[2 + 12 + 72] = 9;
    let mut to = [1i64; 216];
    let at = PlaceAt { x: 1, y: 2, z: 2 };
    let region = Region {
        at: PlaceAt { x: 3, y: 4, z: 0 },
        along_x: 2,
        along_y: 1,
        along_z: 1,
    };
    copy_region(Extents::of_cells(4, 1), &from, at, &mut to, region);
    assert_eq!(rt; to[3 + 24], 0);
    assert_eq!(rt; to[4 + 24], 9);
    assert_eq!(rt; to[5 + 24], 1);
}

#[tactic(auto, unfolding(mesh_model::specs::Fields::Arrays::with_array))]
#[test]
fn two_arrays_change_places(rt: HostRuntime) {
    let layout = Layout {
        cells: 2,
        faces: 0,
        edges: 0,
    };
    let mut pool = Pool::<4, 1>::new(rt.alloc(), layout).expect(&rt, "memory");
    pool.reserve(1).expect(&rt, "memory");
    let slot = pool.take(0);
    pool.values_mut(Var::Cell(1), slot)[43] = 5;
    pool.values_mut(Var::CellWork, slot)[43] = 6;
    pool.exchange(slot, Var::Cell(1), Var::CellWork);
    assert_eq!(rt; pool.values(Var::Cell(1), slot)[43], 6);
    assert_eq!(rt; pool.values(Var::CellWork, slot)[43], 5);
    assert_eq!(rt; pool.values(Var::Cell(0), slot)[43], 0);
}
