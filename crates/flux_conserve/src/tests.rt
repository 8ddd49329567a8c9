//! Jumps of level that are worked by hand.

ghost use Rattle.amr_num.specs.Numbers.{Within, at};
ghost use Rattle.flux_conserve.specs.FaceArrays.{FacesWithin};
ghost use Rattle.rank_world.specs.Puts.{IsPut};
ghost use Rattle.mesh_model.specs.Fields.Ranks.{IsFit};
ghost use Rattle.mesh_model.specs.Geometry.Limits.{IsShape};
ghost use Rattle.std.specs.Prelude.{◌≡◌, ◌≤◌, ◌^◌, Bool, IfSome};

use crate::laws::fluxes_are_jumped;
use crate::{correct, correct_faces, has_jump, is_at_jump};
use amr_num::{Axis, SideKind};
use block_store::Layout;
use block_tree::Tree;
use mesh_model::Shape;
use rank_world::{World, face_var};
use std::alloc::Global;

/// Two roots side by side on x, with all sides of one kind.
fn two_roots(kind: SideKind) -> Shape
    ensures shape { IsShape result }
    ensures sizes { (result.n ≡ 4) × (result.g ≡ 1) }
    ensures max { result.max ≡ 1 }
{
    Shape {
        rx: 2,
        ry: 1,
        rz: 1,
        n: 4,
        g: 1,
        min: 0,
        max: 1,
        sides: [kind; 6],
    }
}

/// The world of two roots of which the first is refined: its children are the nodes 1 to 8, and the other root is node 9.
/// It has a face variable.
fn refined_world(alloc: Global, kind: SideKind) -> Option<World<4, 1>>
    ensures fit { IfSome result (λ world. IsFit 4 1 world) }
    ensures declared { IfSome result (λ world. world.told.counts.faces ≡ 1) }
    ensures small { (work : Bool) → IfSome result (λ world. FacesWithin work world (2 ^ 56)) }
{
    let layout = Layout {
        cells: 1,
        faces: 1,
        edges: 0,
    };
    let roots = match Tree::roots(alloc, two_roots(kind)) {
        Ok(roots) => roots,
        Err(_) => return None,
    };
    if roots.len() != 2 {
        return None;
    }
    let tree = match roots.regrown(alloc, &[true, false], &[false, false]) {
        Ok(tree) => tree,
        Err(_) => return None,
    };
    match World::on_tree(alloc, tree, layout) {
        Ok(world) => Some(world),
        Err(_) => None,
    }
}

/// Puts a number of few bits at a place of a list that is that long.
fn put(values: &mut [i64], place: usize, value: i32)
    ensures { IsPut (2 ^ 56) values.old values.new }
{
    if place < values.len() {
        values[place] = i64::from(value);
    }
}

/// Puts a number at a place of the faces normal to x of a node that is there, or of its work faces.
fn set_face(world: &mut World<4, 1>, work: bool, node: u32, place: usize, value: i32)
    requires fit { IsFit 4 1 world.old }
    requires declared { world.old.told.counts.faces ≡ 1 }
    requires small { FacesWithin work world.old (2 ^ 56) }
    ensures fit { IsFit 4 1 world.new }
    ensures declared { world.new.told.counts.faces ≡ 1 }
    ensures small { FacesWithin work world.new (2 ^ 56) }
{
    if node < world.tree().len() {
        put(
            world.values_mut(face_var(work, Axis::X), node),
            place,
            value,
        );
    }
}

/// The number there.
fn face(world: &World<4, 1>, work: bool, node: u32, place: usize) -> Option<i64>
    requires fit { IsFit 4 1 world.now }
    requires declared { world.now.told.counts.faces ≡ 1 }
{
    if node < world.tree().len() {
        world
            .values(face_var(work, Axis::X), node)
            .get(place)
            .copied()
    } else {
        None
    }
}

/// Numbers of faces normal to x before: a node, a place, which is (1 + i) + 7 (1 + j) + 42 (1 + k) for the face at
/// i, j and k of the block, and a number. Node 2 has the octant (1, 0, 0), node 8 (1, 1, 1), and node 1 (0, 0, 0).
const BEFORE: [(u32, usize, i32); 11] = [
    (2, 54, 1),
    (2, 61, 2),
    (2, 96, 3),
    (2, 103, 4),
    (2, 50, 1000),
    (8, 194, 100),
    (1, 99, 9),
    (9, 50, 77),
    (9, 57, 6),
    (9, 51, 8),
    (9, 54, 5),
];

/// Numbers afterwards, on sides where the mesh ends and on periodic ones.
const AFTER: [(u32, usize, i64, i64); 8] = [
    (9, 50, 10, 10),
    (9, 57, 0, 0),
    (9, 197, 100, 100),
    (9, 51, 8, 8),
    (9, 54, 5, 9),
    (2, 54, 1, 1),
    (2, 50, 1000, 1000),
    (1, 99, 9, 9),
];

/// The world with these numbers on its faces or on its work faces.
fn world_before(alloc: Global, kind: SideKind, work: bool) -> Option<World<4, 1>>
    ensures fit { IfSome result (λ world. IsFit 4 1 world) }
    ensures declared { IfSome result (λ world. world.told.counts.faces ≡ 1) }
    ensures small { IfSome result (λ world. FacesWithin work world (2 ^ 56)) }
{
    let mut world = refined_world(alloc, kind)?;
    for (node, place, value) in BEFORE {
        set_face(&mut world, work, node, place, value);
    }
    Some(world)
}

/// Whether its faces, or its work faces, have the numbers that they are to have afterwards.
fn is_after(world: &World<4, 1>, kind: SideKind, work: bool) -> bool
    requires fit { IsFit 4 1 world.now }
    requires declared { world.now.told.counts.faces ≡ 1 }
{
    for (node, place, ended, wrapped) in AFTER {
        let wanted = if kind == SideKind::Periodic {
            wrapped
        } else {
            ended
        };
        if face(world, work, node, place) != Some(wanted) {
            return false;
        }
    }
    true
}

/// Two roots side by side, of which the first is refined.
#[test]
fn coarse_work_faces_take_the_sums_of_finer_ones(rt: HostRuntime) {
    for kind in [SideKind::Outflow, SideKind::Periodic] {
        let mut mesh = world_before(rt.alloc(), kind, true).expect(&rt, "memory");
        correct(&mut mesh);
        assert!(rt; is_after(&mesh, kind, true));
        assert!(rt; !is_after(&mesh, kind, false));
    }
    fluxes_are_jumped();
}

/// The same of the face variable.
#[test]
fn coarse_faces_take_the_sums_of_finer_ones(rt: HostRuntime) {
    for kind in [SideKind::Outflow, SideKind::Periodic] {
        let mut mesh = world_before(rt.alloc(), kind, false).expect(&rt, "memory");
        correct_faces(&mut mesh);
        assert!(rt; is_after(&mesh, kind, false));
        assert!(rt; !is_after(&mesh, kind, true));
    }
}

/// Whether the leaf of a node is at a jump of level.
fn at_jump(world: &World<4, 1>, node: u32) -> bool {
    let tree = world.tree();
    node < tree.len() && is_at_jump(tree, tree.at(node))
}

/// The octants beside the other root are at a jump, and on a periodic axis those at the far side too.
#[test]
fn leaves_are_at_jumps(rt: HostRuntime) {
    for kind in [SideKind::Outflow, SideKind::Periodic] {
        let mesh = refined_world(rt.alloc(), kind).expect(&rt, "memory");
        let wraps = kind == SideKind::Periodic;
        assert!(rt; has_jump(mesh.tree()));
        for (node, jumps) in [(9, true), (2, true), (8, true), (1, wraps), (7, wraps)] {
            assert_eq!(rt; at_jump(&mesh, node), jumps);
        }
    }
}
