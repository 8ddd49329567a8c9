//! A world's calls, once each.

ghost use Rattle.mesh_model.specs.Fields.Arrays.{HasVar};
ghost use Rattle.mesh_model.specs.Fields.Ranks.{IsFit};
ghost use Rattle.std.specs.Prelude.{◌≡◌};

use crate::{FaceAbove, World, face_var, first_face_above, first_work_face_above};
use amr_num::{Axis, FaceAt, SideKind};
use block_store::{Beside, Layout};
use block_tree::Tree;
use mesh_model::{BlockValues, Shape, Var};

#[tactic(auto, unfolding(mesh_model::specs::Fields::Arrays::with_array))]
#[test]
fn a_world_of_two_blocks(rt: HostRuntime) {
    let alloc = rt.alloc();
    let shape = Shape {
        rx: 2,
        ry: 1,
        rz: 1,
        n: 4,
        g: 1,
        min: 0,
        max: 1,
        sides: [SideKind::Periodic; 6],
    };
    let layout = Layout {
        cells: 1,
        faces: 0,
        edges: 0,
    };
    let tree = Tree::roots(alloc, shape).expect(&rt, "memory");
    let mut world = World::<4, 1>::on_tree(alloc, tree, layout).expect(&rt, "memory");
    assert_eq!(rt; world.tree().len(), 2);
    assert_eq!(rt; world.layout().cells, 1);
    world.values_mut(Var::Cell(0), 1)[43] = 5;
    assert_eq!(rt; world.value(Var::Cell(0), 1, 0, 0, 0), 5);
    assert_eq!(rt; BlockValues::value(&world, Var::Cell(0), 0, 0, 0, 0), 0);
    let mut again = World::<4, 1>::new(alloc, shape, layout).expect(&rt, "memory");
    let Beside {
        a,
        b: _,
        c: _,
        d: _,
        out,
    } = again.beside(1, [Var::Cell(0); 4], Var::CellWork);
    let first = a[43];
    out[43] = 6;
    assert_eq!(rt; first, 0);
    assert_eq!(rt; again.values(Var::CellWork, 1)[43], 6);
    again.exchange(1, Var::Cell(0), Var::CellWork);
    assert_eq!(rt; again.values(Var::Cell(0), 1)[43], 6);
    assert_eq!(rt; again.values(Var::CellWork, 1)[43], 0);
}

/// Puts a number at a place of an array of a node that is there.
fn set(world: &mut World<4, 1>, var: Var, node: u32, place: usize, value: i64)
    requires fit { IsFit 4 1 world.old }
    requires declared { HasVar world.old.told.counts var }
    ensures fit { IsFit 4 1 world.new }
    ensures told { world.new.told ≡ world.old.told }
{
    if node < world.tree().len() {
        let values = world.values_mut(var, node);
        if place < values.len() {
            values[place] = value;
        }
    }
}

/// The first face of a node that is out of range, and the first work face, where the node is a leaf.
fn first_two(world: &World<4, 1>, node: u32) -> (Option<FaceAbove>, Option<FaceAbove>)
    requires fit { IsFit 4 1 world.now }
    requires declared { world.now.told.counts.faces ≡ 1 }
{
    let tree = world.tree();
    if node < tree.len() && tree.is_leaf(node) {
        (
            first_face_above(world, node),
            first_work_face_above(world, node),
        )
    } else {
        (None, None)
    }
}

/// Of two blocks side by side on a periodic axis the second has a face at (1, 0, 2) normal to y, and a work face at (4, 2, 3)
/// normal to x, which is a face of the first one at 0 by its name. One at 2^40 is in range.
#[test]
fn faces_out_of_range(rt: HostRuntime) {
    let alloc = rt.alloc();
    let shape = Shape {
        rx: 2,
        ry: 1,
        rz: 1,
        n: 4,
        g: 1,
        min: 0,
        max: 1,
        sides: [SideKind::Periodic; 6],
    };
    let layout = Layout {
        cells: 0,
        faces: 1,
        edges: 0,
    };
    let mut world = World::<4, 1>::new(alloc, shape, layout).expect(&rt, "memory");
    set(&mut world, face_var(false, Axis::X), 1, 50, 1099511627776);
    set(&mut world, face_var(false, Axis::Y), 1, 134, -1099511627777);
    set(&mut world, face_var(true, Axis::X), 1, 194, 1099511627778);
    let face = FaceAbove {
        face: FaceAt {
            axis: Axis::Y,
            level: 0,
            x: 5,
            y: 0,
            z: 2,
        },
        value: -1099511627777,
    };
    let work = FaceAbove {
        face: FaceAt {
            axis: Axis::X,
            level: 0,
            x: 0,
            y: 2,
            z: 3,
        },
        value: 1099511627778,
    };
    assert_eq!(rt; first_two(&world, 1), (Some(face), Some(work)));
    assert_eq!(rt; first_two(&world, 0), (None, None));
}
