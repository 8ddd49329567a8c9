//! Fields on faces and edges that are worked by hand.
//!
//! Two roots lie side by side on x, and the first one is refined: its children are the nodes 1 to 8, in the order of octants,
//! and the second root is node 9. Blocks have 4 cells along each axis and 1 guard cell on each side. So the face at (i, j, k)
//! of a block has the place (1 + i) + 7 (1 + j) + 42 (1 + k) in the array of those normal to x, (1 + i) + 6 (1 + j) +
//! 42 (1 + k) normal to y, and (1 + i) + 6 (1 + j) + 36 (1 + k) normal to z; the edge there has (1 + i) + 6 (1 + j) +
//! 42 (1 + k) along x, (1 + i) + 7 (1 + j) + 42 (1 + k) along y, and (1 + i) + 7 (1 + j) + 49 (1 + k) along z.

ghost use Rattle.mesh_model.specs.Fields.Ranks.{IsFit};
ghost use Rattle.mesh_model.specs.Geometry.Limits.{IsShape};
ghost use Rattle.mesh_model.specs.Language.Commands.{AreThree};
ghost use Rattle.std.specs.Prelude.{◌≡◌, ◌^◌, IfSome};

use crate::cells::cell_in;
use crate::{NoEdge, NoFace, set_edge, set_face, set_uniform};
use amr_num::{Axis, BlockAt, CellAt, EdgeAt, FaceAt, SideKind};
use block_store::Layout;
use block_tree::Tree;
use mesh_model::{Shape, Var};
use rank_world::{FaceAbove, World};
use std::alloc::Global;

/// Two roots side by side on x, with all sides of one kind, and levels 0 and 1.
fn two_roots(kind: SideKind) -> Shape
    ensures shape { IsShape result }
    ensures sizes { (result.n ≡ 4) × (result.g ≡ 1) }
    ensures max { result.max ≡ 1 }
{
    Shape {
        rx: 2,
        ry: 1,
        rz: 1,
        n: 4,
        g: 1,
        min: 0,
        max: 1,
        sides: [kind; 6],
    }
}

/// The world of those, with the first refined, a face variable and an edge variable.
fn refined_world(alloc: Global, kind: SideKind) -> Option<World<4, 1>>
    ensures fit { IfSome result (λ world. IsFit 4 1 world) }
    ensures declared { IfSome result (λ world. (world.told.counts.faces ≡ 1) × (world.told.counts.edges ≡ 1)) }
{
    let layout = Layout {
        cells: 0,
        faces: 1,
        edges: 1,
    };
    let roots = match Tree::roots(alloc, two_roots(kind)) {
        Ok(roots) => roots,
        Err(_) => return None,
    };
    if roots.len() != 2 {
        return None;
    }
    let tree = match roots.regrown(alloc, &[true, false], &[false, false]) {
        Ok(tree) => tree,
        Err(_) => return None,
    };
    match World::on_tree(alloc, tree, layout) {
        Ok(world) => Some(world),
        Err(_) => None,
    }
}

/// The number at a place of a node's faces normal to an axis.
fn face(world: &World<4, 1>, axis: Axis, node: u32, place: usize) -> Option<i64>
    requires fit { IsFit 4 1 world.now }
    requires declared { world.now.told.counts.faces ≡ 1 }
{
    if node < world.tree().len() {
        world.values(Var::Face(axis), node).get(place).copied()
    } else {
        None
    }
}

/// The number at a place of a node's edges along an axis.
fn edge(world: &World<4, 1>, axis: Axis, node: u32, place: usize) -> Option<i64>
    requires fit { IsFit 4 1 world.now }
    requires declared { world.now.told.counts.edges ≡ 1 }
{
    if node < world.tree().len() {
        world.values(Var::Edge(axis), node).get(place).copied()
    } else {
        None
    }
}

/// Sets the uniform field.
fn uniform(world: &mut World<4, 1>, fluxes: [i64; 3]) -> Result<(), FaceAbove>
    requires fit { IsFit 4 1 world.old }
    requires declared { world.old.told.counts.faces ≡ 1 }
    requires fluxes { AreThree (2 ^ 40) fluxes }
    ensures fit { IsFit 4 1 world.new }
    ensures declared { world.new.told.counts.faces ≡ 1 }
{
    set_uniform(world, fluxes)
}

/// Sets a face, by its axis, its level and its three numbers.
fn put_face(
    world: &mut World<4, 1>,
    axis: Axis,
    level: u32,
    at: [u32; 3],
    value: i64,
) -> Result<(), NoFace>
    requires fit { IsFit 4 1 world.old }
    requires declared { world.old.told.counts.faces ≡ 1 }
    ensures fit { IsFit 4 1 world.new }
    ensures declared { world.new.told.counts.faces ≡ 1 }
{
    let [x, y, z] = at;
    let face = FaceAt {
        axis,
        level,
        x,
        y,
        z,
    };
    set_face(world, face, value)
}

/// Sets an edge, by its axis, its level and its three numbers.
fn put_edge(
    world: &mut World<4, 1>,
    axis: Axis,
    level: u32,
    at: [u32; 3],
    value: i64,
) -> Result<(), NoEdge>
    requires fit { IsFit 4 1 world.old }
    requires declared { world.old.told.counts.edges ≡ 1 }
    ensures fit { IsFit 4 1 world.new }
    ensures declared { world.new.told.counts.edges ≡ 1 }
{
    let [x, y, z] = at;
    let edge = EdgeAt {
        axis,
        level,
        x,
        y,
        z,
    };
    set_edge(world, edge, value)
}

/// Faces after the fluxes (5, -3, 2) of a finest face: an axis, a node, a place and a number. Level 1 is the finest, so its
/// faces have 4^(1 - 1) = 1 times the flux, and those of node 9, of level 0, have 4^(1 - 0) = 4 times: 20, -12 and 8. So
/// has the face of node 9 at i = 0, beside the refined root.
const UNIFORM: [(Axis, u32, usize, i64); 9] = [
    (Axis::X, 1, 50, 5),
    (Axis::X, 4, 54, 5),
    (Axis::X, 9, 50, 20),
    (Axis::X, 9, 54, 20),
    (Axis::Y, 8, 49, -3),
    (Axis::Y, 9, 49, -12),
    (Axis::Y, 9, 199, -12),
    (Axis::Z, 6, 43, 2),
    (Axis::Z, 9, 43, 8),
];

#[test]
fn a_uniform_field_is_times_the_area(rt: HostRuntime) {
    for kind in [SideKind::Outflow, SideKind::Periodic] {
        let mut mesh = refined_world(rt.alloc(), kind).expect(&rt, "memory");
        assert_eq!(rt; uniform(&mut mesh, [5, -3, 2]), Ok(()));
        for (axis, node, place, number) in UNIFORM {
            assert_eq!(rt; face(&mesh, axis, node, place), Some(number));
        }
    }
}

/// One more than a quarter of the range, 2^38 + 1, and four times that, 2^40 + 4.
const MORE: i64 = 274877906945;

const HIGH: i64 = 1099511627780;

/// What a uniform field of one more than a quarter of the range is refused with, on each axis: the fine faces are in range,
/// and the coarse ones are not. Node 9 begins at x = 4. Its face normal to x there has a split side and is no leaf
/// face, so the first in the walk is the next one on x, at 5; normal to y and to z it is the first of all.
#[test]
fn a_uniform_field_out_of_range_is_refused(rt: HostRuntime) {
    let mut mesh = refined_world(rt.alloc(), SideKind::Outflow).expect(&rt, "memory");
    let on_x = FaceAt {
        axis: Axis::X,
        level: 0,
        x: 5,
        y: 0,
        z: 0,
    };
    let on_y = FaceAt {
        axis: Axis::Y,
        level: 0,
        x: 4,
        y: 0,
        z: 0,
    };
    let on_z = FaceAt {
        axis: Axis::Z,
        level: 0,
        x: 4,
        y: 0,
        z: 0,
    };
    assert_eq!(rt;
        uniform(&mut mesh, [MORE, -MORE, 7]),
        Err(FaceAbove {
            face: on_x,
            value: HIGH
        })
    );
    assert_eq!(rt;
        uniform(&mut mesh, [274877906944, -MORE, 7]),
        Err(FaceAbove {
            face: on_y,
            value: -HIGH
        })
    );
    assert_eq!(rt;
        uniform(&mut mesh, [-274877906944, 7, MORE]),
        Err(FaceAbove {
            face: on_z,
            value: HIGH
        })
    );
    // It was refused whole: no number was set.
    assert_eq!(rt; face(&mesh, Axis::X, 1, 50), Some(0));
    assert_eq!(rt; face(&mesh, Axis::Y, 9, 49), Some(0));
    // 4 * 2^38 = 2^40 is in range still.
    assert_eq!(rt;
        uniform(&mut mesh, [-274877906944, 0, 274877906944]),
        Ok(())
    );
    assert_eq!(rt; face(&mesh, Axis::X, 9, 51), Some(-1099511627776));
    assert_eq!(rt; face(&mesh, Axis::Z, 9, 43), Some(1099511627776));
}

/// Faces after some were set on a periodic mesh: an axis, a node, a place and a number.
///
/// The face of level 1 at x = 4, y = 1 and z = 2 is that of node 1 at i = 4 and of node 2 at i = 0. At x = 0 it is that of
/// node 1 at i = 0, and beyond the seam lies the coarser node 9, whose face is another. So is at x = 8 that of node 2 at
/// i = 4. The face of level 0 normal to y at x = 5, y = 0 and z = 1 is that of node 9 at i = 1, k = 1 and both j = 0 and
/// j = 4, since y is periodic and the domain is one root wide there. The one normal to z of level 1 at x = 6, y = 3 and
/// z = 0 is that of node 2, with the octant (1, 0, 0), at k = 0, and of node 6, with (1, 0, 1), at k = 4.
const FACES: [(Axis, u32, usize, i64); 14] = [
    (Axis::X, 1, 145, -7),
    (Axis::X, 2, 141, -7),
    (Axis::X, 1, 141, 11),
    (Axis::X, 9, 96, 0),
    (Axis::X, 2, 145, 12),
    (Axis::X, 9, 92, 0),
    (Axis::Y, 9, 92, 13),
    (Axis::Y, 9, 116, 13),
    (Axis::Y, 9, 98, 0),
    (Axis::Z, 2, 63, 14),
    (Axis::Z, 6, 207, 14),
    (Axis::Z, 2, 207, 0),
    (Axis::Z, 6, 63, 0),
    (Axis::X, 1, 144, 0),
];

#[test]
fn both_copies_of_a_face_are_set(rt: HostRuntime) {
    let mut mesh = refined_world(rt.alloc(), SideKind::Periodic).expect(&rt, "memory");
    assert_eq!(rt; put_face(&mut mesh, Axis::X, 1, [4, 1, 2], -7), Ok(()));
    assert_eq!(rt; put_face(&mut mesh, Axis::X, 1, [0, 1, 2], 11), Ok(()));
    assert_eq!(rt; put_face(&mut mesh, Axis::X, 1, [8, 1, 2], 12), Ok(()));
    assert_eq!(rt; put_face(&mut mesh, Axis::Y, 0, [5, 0, 1], 13), Ok(()));
    assert_eq!(rt; put_face(&mut mesh, Axis::Z, 1, [6, 3, 0], 14), Ok(()));
    for (axis, node, place, number) in FACES {
        assert_eq!(rt; face(&mesh, axis, node, place), Some(number));
    }
}

/// No leaf face: one with a split side, between the two roots and across the seam; one between two cells of the refined
/// root; one of level 1 within node 9; the other name of a face at a seam; one beyond the domain; and one of no level.
/// Where sides are open the position at the end is no other name.
#[test]
fn a_face_that_is_none_is_refused(rt: HostRuntime) {
    let mut mesh = refined_world(rt.alloc(), SideKind::Periodic).expect(&rt, "memory");
    assert_eq!(rt; put_face(&mut mesh, Axis::X, 0, [4, 1, 1], 1), Err(NoFace));
    assert_eq!(rt; put_face(&mut mesh, Axis::X, 0, [0, 1, 1], 1), Err(NoFace));
    assert_eq!(rt; put_face(&mut mesh, Axis::X, 0, [3, 1, 1], 1), Err(NoFace));
    assert_eq!(rt; put_face(&mut mesh, Axis::X, 1, [10, 1, 1], 1), Err(NoFace));
    assert_eq!(rt; put_face(&mut mesh, Axis::Y, 0, [5, 4, 1], 1), Err(NoFace));
    assert_eq!(rt; put_face(&mut mesh, Axis::Y, 0, [9, 1, 1], 1), Err(NoFace));
    assert_eq!(rt; put_face(&mut mesh, Axis::X, 11, [4, 1, 1], 1), Err(NoFace));
    assert_eq!(rt; face(&mesh, Axis::X, 9, 92), Some(0));
    let mut open = refined_world(rt.alloc(), SideKind::Outflow).expect(&rt, "memory");
    assert_eq!(rt; put_face(&mut open, Axis::Y, 0, [5, 4, 1], 15), Ok(()));
    assert_eq!(rt; face(&open, Axis::Y, 9, 116), Some(15));
    assert_eq!(rt; face(&open, Axis::Y, 9, 92), Some(0));
}

/// Edges after some were set on a periodic mesh: an axis, a node, a place and a number.
///
/// The edge of level 1 along z at x = 4, y = 4 and z = 1 has four leaves round it: the nodes 1, 2, 3 and 4, with the octants
/// (0, 0, 0), (1, 0, 0), (0, 1, 0) and (1, 1, 0), have it at k = 1 and the corner (4, 4), (0, 4), (4, 0) and (0, 0). The
/// edge of level 0 along x at x = 5, y = 0 and z = 0 is that of node 9 at i = 1 and all of j and k of 0 and 4, where y and
/// z are periodic. The one of level 1 along y at x = 8, y = 0 and z = 4 is that of node 2, with the octant (1, 0, 0), at
/// (4, 0, 4) and of node 6, with (1, 0, 1), at (4, 0, 0); on the other side lies the coarser node 9, whose edge is another.
/// At x = 0 across the seam it is that of the nodes 1 and 5 at i = 0.
const EDGES: [(Axis, u32, usize, i64); 16] = [
    (Axis::Z, 1, 138, 21),
    (Axis::Z, 2, 134, 21),
    (Axis::Z, 3, 110, 21),
    (Axis::Z, 4, 106, 21),
    (Axis::X, 9, 50, -22),
    (Axis::X, 9, 74, -22),
    (Axis::X, 9, 218, -22),
    (Axis::X, 9, 242, -22),
    (Axis::X, 9, 56, 0),
    (Axis::Y, 2, 222, 23),
    (Axis::Y, 6, 54, 23),
    (Axis::Y, 9, 134, 0),
    (Axis::Y, 1, 218, 24),
    (Axis::Y, 5, 50, 24),
    (Axis::Y, 9, 138, 0),
    (Axis::Z, 1, 134, 0),
];

#[test]
fn all_copies_round_an_edge_are_set(rt: HostRuntime) {
    let mut mesh = refined_world(rt.alloc(), SideKind::Periodic).expect(&rt, "memory");
    assert_eq!(rt; put_edge(&mut mesh, Axis::Z, 1, [4, 4, 1], 21), Ok(()));
    assert_eq!(rt; put_edge(&mut mesh, Axis::X, 0, [5, 0, 0], -22), Ok(()));
    assert_eq!(rt; put_edge(&mut mesh, Axis::Y, 1, [8, 0, 4], 23), Ok(()));
    assert_eq!(rt; put_edge(&mut mesh, Axis::Y, 1, [0, 0, 4], 24), Ok(()));
    for (axis, node, place, number) in EDGES {
        assert_eq!(rt; edge(&mesh, axis, node, place), Some(number));
    }
}

/// No leaf edge: one with split cells round it, between the roots and across the seam; one within the refined root; one of
/// level 1 within node 9; the other names of an edge at a seam, on each of its two positions; one beyond the domain; and one
/// of no level. Where sides are open the positions at the end are no other names.
#[test]
fn an_edge_that_is_none_is_refused(rt: HostRuntime) {
    let mut mesh = refined_world(rt.alloc(), SideKind::Periodic).expect(&rt, "memory");
    assert_eq!(rt; put_edge(&mut mesh, Axis::Z, 0, [4, 1, 1], 1), Err(NoEdge));
    assert_eq!(rt; put_edge(&mut mesh, Axis::Z, 0, [0, 1, 1], 1), Err(NoEdge));
    assert_eq!(rt; put_edge(&mut mesh, Axis::Y, 0, [2, 1, 1], 1), Err(NoEdge));
    assert_eq!(rt; put_edge(&mut mesh, Axis::Y, 1, [10, 1, 1], 1), Err(NoEdge));
    assert_eq!(rt; put_edge(&mut mesh, Axis::X, 0, [5, 4, 0], 1), Err(NoEdge));
    assert_eq!(rt; put_edge(&mut mesh, Axis::X, 0, [5, 0, 4], 1), Err(NoEdge));
    assert_eq!(rt; put_edge(&mut mesh, Axis::X, 0, [8, 1, 1], 1), Err(NoEdge));
    assert_eq!(rt; put_edge(&mut mesh, Axis::X, 11, [5, 0, 0], 1), Err(NoEdge));
    assert_eq!(rt; edge(&mesh, Axis::X, 9, 50), Some(0));
    let mut open = refined_world(rt.alloc(), SideKind::Closed).expect(&rt, "memory");
    assert_eq!(rt; put_edge(&mut open, Axis::X, 0, [5, 4, 4], 25), Ok(()));
    assert_eq!(rt; edge(&open, Axis::X, 9, 242), Some(25));
    assert_eq!(rt; edge(&open, Axis::X, 9, 50), Some(0));
}

/// The cell at (1, 2, 3) of the block (3, 0, 2), whose first cell is (4 * 3, 4 * 0, 4 * 2) = (12, 0, 8).
#[test]
fn a_cell_has_its_blocks_coordinates(rt: HostRuntime) {
    let block = BlockAt {
        level: 1,
        x: 3,
        y: 0,
        z: 2,
    };
    let cell = CellAt {
        level: 1,
        x: 13,
        y: 2,
        z: 11,
    };
    assert_eq!(rt; cell_in(4, block, 1, 2, 3), cell);
}
