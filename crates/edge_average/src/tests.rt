//! A coarse leaf beside finer ones, worked by hand.

ghost use Rattle.amr_num.specs.Numbers.{Within, at};
ghost use Rattle.edge_average.specs.EdgeArrays.{EdgesWithin};
ghost use Rattle.flux_conserve.specs.FaceArrays.{FacesWithin};
ghost use Rattle.mesh_model.specs.Fields.Ranks.{IsFit};
ghost use Rattle.mesh_model.specs.Geometry.Limits.{IsShape};
ghost use Rattle.rank_world.specs.Puts.{IsPut};
ghost use Rattle.std.specs.Prelude.{◌≡◌, ◌≤◌, ◌^◌, Bool, false, IfSome};

use crate::agree;
use crate::halving::edge_var;
use crate::laws::leaf_edge_views_are_halves;
use amr_num::{Axis, SideKind};
use block_store::Layout;
use block_tree::Tree;
use mesh_model::{Group, Shape, Var};
use rank_world::World;
use std::alloc::Global;

/// Two roots side by side on x, with all sides of one kind.
fn two_roots(kind: SideKind) -> Shape
    ensures shape { IsShape result }
    ensures sizes { (result.n ≡ 4) × (result.g ≡ 1) }
    ensures max { result.max ≡ 1 }
{
    Shape {
        rx: 2,
        ry: 1,
        rz: 1,
        n: 4,
        g: 1,
        min: 0,
        max: 1,
        sides: [kind; 6],
    }
}

/// The world of two roots of which the first is refined: its children are the nodes 1 to 8, and the other root is node 9.
/// It has a face variable and an edge variable.
fn refined_world(alloc: Global, kind: SideKind) -> Option<World<4, 1>>
    ensures fit { IfSome result (λ world. IsFit 4 1 world) }
    ensures declared { IfSome result (λ world. (world.told.counts.faces ≡ 1) × (world.told.counts.edges ≡ 1)) }
    ensures small { IfSome result (λ world. FacesWithin false world (2 ^ 56)) }
    ensures small_edges { IfSome result (λ world. (work : Bool) → EdgesWithin work world (2 ^ 56)) }
{
    let layout = Layout {
        cells: 0,
        faces: 1,
        edges: 1,
    };
    let roots = match Tree::roots(alloc, two_roots(kind)) {
        Ok(roots) => roots,
        Err(_) => return None,
    };
    if roots.len() != 2 {
        return None;
    }
    let tree = match roots.regrown(alloc, &[true, false], &[false, false]) {
        Ok(tree) => tree,
        Err(_) => return None,
    };
    match World::on_tree(alloc, tree, layout) {
        Ok(world) => Some(world),
        Err(_) => None,
    }
}

/// Puts a number of few bits at a place of a list that is that long.
fn put(values: &mut [i64], place: usize, value: i32)
    ensures { IsPut (2 ^ 56) values.old values.new }
{
    if place < values.len() {
        values[place] = i64::from(value);
    }
}

/// Puts a number at a place of the faces normal to x of a node that is there.
fn set_face(world: &mut World<4, 1>, node: u32, place: usize, value: i32)
    requires fit { IsFit 4 1 world.old }
    requires declared { world.old.told.counts.faces ≡ 1 }
    requires small { FacesWithin false world.old (2 ^ 56) }
    ensures fit { IsFit 4 1 world.new }
    ensures declared { world.new.told.counts.faces ≡ 1 }
    ensures small { FacesWithin false world.new (2 ^ 56) }
{
    if node < world.tree().len() {
        put(world.values_mut(Var::Face(Axis::X), node), place, value);
    }
}

/// The number there.
fn face(world: &World<4, 1>, node: u32, place: usize) -> Option<i64>
    requires fit { IsFit 4 1 world.now }
    requires declared { world.now.told.counts.faces ≡ 1 }
{
    if node < world.tree().len() {
        world.values(Var::Face(Axis::X), node).get(place).copied()
    } else {
        None
    }
}

/// Numbers of faces normal to x before: a node, a place, which is (1 + i) + 7 (1 + j) + 42 (1 + k) for the face at
/// i, j and k of the block, and a number. Node 4 has the octant (1, 1, 0), and its faces at i = 4 with j and k of 2 and 3
/// make up the one of node 9 at i = 0, j = 3 and k = 1. Node 1 has the octant (0, 0, 0), and its faces at i = 0 with j and
/// k of 0 and 1 make up the one of node 9 at i = 4, j = 0 and k = 0 where x is periodic. The faces of node 1 at i = 4 and
/// of node 2 at i = 0 are the same.
const BEFORE: [(u32, usize, i32); 14] = [
    (4, 152, 10),
    (4, 159, -20),
    (4, 194, 30),
    (4, 201, 5),
    (9, 113, 999),
    (1, 50, 3),
    (1, 57, 4),
    (1, 92, -1),
    (1, 99, 7),
    (9, 54, -777),
    (1, 54, 6),
    (2, 50, 6),
    (9, 52, 8),
    (9, 51, 9),
];

/// Numbers afterwards, on sides where the mesh ends and on periodic ones.
const AFTER: [(u32, usize, i64, i64); 9] = [
    (9, 113, 25, 25),
    (9, 54, -777, 13),
    (9, 50, 0, 0),
    (9, 52, 8, 8),
    (9, 51, 9, 9),
    (1, 54, 6, 6),
    (2, 50, 6, 6),
    (4, 159, -20, -20),
    (1, 92, -1, -1),
];

/// The world with the numbers before.
fn world_before(alloc: Global, kind: SideKind) -> Option<World<4, 1>>
    ensures fit { IfSome result (λ world. IsFit 4 1 world) }
    ensures declared { IfSome result (λ world. world.told.counts.faces ≡ 1) }
    ensures small { IfSome result (λ world. FacesWithin false world (2 ^ 56)) }
{
    let mut world = refined_world(alloc, kind)?;
    for (node, place, value) in BEFORE {
        set_face(&mut world, node, place, value);
    }
    Some(world)
}

/// Coarse faces have the sums of the finer ones beside them, whatever stood there, and all other faces keep their numbers.
#[test]
fn coarse_faces_agree_with_finer_ones(rt: HostRuntime) {
    for kind in [SideKind::Outflow, SideKind::Periodic] {
        let mut mesh = world_before(rt.alloc(), kind).expect(&rt, "memory");
        agree(&mut mesh, Group::Face, false);
        for (node, place, ended, wrapped) in AFTER {
            let wanted = if kind == SideKind::Periodic {
                wrapped
            } else {
                ended
            };
            assert_eq!(rt; face(&mesh, node, place), Some(wanted));
        }
    }
}

/// Puts a number at a place of the edges along an axis of a node that is there.
fn set_edge(world: &mut World<4, 1>, work: bool, node: u32, axis: Axis, place: usize, value: i32)
    requires fit { IsFit 4 1 world.old }
    requires declared { world.old.told.counts.edges ≡ 1 }
    requires small { (other : Bool) → EdgesWithin other world.old (2 ^ 56) }
    ensures fit { IsFit 4 1 world.new }
    ensures declared { world.new.told.counts.edges ≡ 1 }
    ensures small { (other : Bool) → EdgesWithin other world.new (2 ^ 56) }
{
    if node < world.tree().len() {
        put(world.values_mut(edge_var(work, axis), node), place, value);
    }
}

/// The number there.
fn edge(world: &World<4, 1>, work: bool, node: u32, axis: Axis, place: usize) -> Option<i64>
    requires fit { IsFit 4 1 world.now }
    requires declared { world.now.told.counts.edges ≡ 1 }
{
    if node < world.tree().len() {
        world.values(edge_var(work, axis), node).get(place).copied()
    } else {
        None
    }
}

/// Numbers of edges before: a node, an axis, a place and a number. The place of the edge at i, j and k of the block is
/// (1 + i) + 7 (1 + j) + 42 (1 + k) along y, and (1 + i) + 7 (1 + j) + 49 (1 + k) along z.
///
/// Along y node 2, which has the octant (1, 0, 0), has the halves of the edge (0, 1, 1) of node 9 at i = 4, k = 2 and j of 2
/// and 3, and those of (0, 0, 2) at k = 4 and j of 0 and 1, which are edges of node 6 too, at k = 0. Along z node 6, with the
/// octant (1, 0, 1), has those of the edge (0, 0, 3) on a corner line of node 9, and node 8, with (1, 1, 1), those of
/// (0, 4, 3), which where y is periodic is the same edge. Where x is periodic node 1 has the halves of (4, 1, 1) along y.
const EDGES_BEFORE: [(u32, Axis, usize, i32); 17] = [
    (2, Axis::Y, 152, 10),
    (2, Axis::Y, 159, -3),
    (9, Axis::Y, 99, 999),
    (2, Axis::Y, 222, 4),
    (2, Axis::Y, 229, 5),
    (6, Axis::Y, 54, 4),
    (6, Axis::Y, 61, 5),
    (6, Axis::Z, 159, 20),
    (6, Axis::Z, 208, 30),
    (8, Axis::Z, 187, 20),
    (8, Axis::Z, 236, 30),
    (9, Axis::Z, 204, -5),
    (1, Axis::Y, 148, 100),
    (1, Axis::Y, 155, 23),
    (9, Axis::Y, 103, -777),
    (9, Axis::Z, 208, 6),
    (9, Axis::Y, 101, 8),
];

/// Numbers afterwards, on sides where the mesh ends and on periodic ones.
const EDGES_AFTER: [(u32, Axis, usize, i64, i64); 10] = [
    (9, Axis::Y, 99, 7, 7),
    (9, Axis::Y, 134, 9, 9),
    (9, Axis::Z, 204, 50, 50),
    (9, Axis::Z, 232, 50, 50),
    (9, Axis::Y, 103, -777, 123),
    (9, Axis::Z, 208, 6, 0),
    (9, Axis::Y, 101, 8, 8),
    (2, Axis::Y, 152, 10, 10),
    (6, Axis::Y, 61, 5, 5),
    (1, Axis::Y, 155, 23, 23),
];

/// The world with these numbers in the arrays of the edge variable, or in the work edges.
fn edges_before(alloc: Global, kind: SideKind, work: bool) -> Option<World<4, 1>>
    ensures fit { IfSome result (λ world. IsFit 4 1 world) }
    ensures declared { IfSome result (λ world. world.told.counts.edges ≡ 1) }
    ensures small { IfSome result (λ world. (other : Bool) → EdgesWithin other world (2 ^ 56)) }
{
    let mut world = refined_world(alloc, kind)?;
    for (node, axis, place, value) in EDGES_BEFORE {
        set_edge(&mut world, work, node, axis, place, value);
    }
    Some(world)
}

/// Coarse edges have the sums of their halves, whatever stood there, on a side and on a corner line, and all other edges
/// keep their numbers, as do those in the other arrays.
#[test]
fn coarse_edges_agree_with_their_halves(rt: HostRuntime) {
    leaf_edge_views_are_halves();
    for kind in [SideKind::Outflow, SideKind::Periodic] {
        for work in [false, true] {
            let mut mesh = edges_before(rt.alloc(), kind, work).expect(&rt, "memory");
            agree(&mut mesh, Group::Edge, work);
            for (node, axis, place, ended, wrapped) in EDGES_AFTER {
                let wanted = if kind == SideKind::Periodic {
                    wrapped
                } else {
                    ended
                };
                assert_eq!(rt; edge(&mesh, work, node, axis, place), Some(wanted));
                assert_eq!(rt; edge(&mesh, !work, node, axis, place), Some(0));
            }
        }
    }
}
