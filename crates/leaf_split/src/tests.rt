//! Edges of children that are worked by hand.

ghost use Rattle.block_tree.specs.GridOf.{grid_of};
ghost use Rattle.block_tree.specs.Numbered.{IsNode};
ghost use Rattle.leaf_split.specs.Tried.{MayTry};
ghost use Rattle.mesh_model.specs.Fields.Ranks.{IsFit, IsSized, OnlyOf};
ghost use Rattle.mesh_model.specs.Geometry.Limits.{IsShape};
ghost use Rattle.mesh_model.specs.declared.fields.values.Var.TheVariants.{Edge};
ghost use Rattle.rank_world.specs.Holding.{edge_array};
ghost use Rattle.std.specs.Prelude.{◌≡◌, ◌<◌, IfSome, false, length};

use crate::child_edges;
use amr_num::{Axis, BlockAt, SideKind};
use block_store::Layout;
use block_tree::Tree;
use mesh_model::{Shape, Var};
use rank_world::World;
use std::alloc::Global;

/// One root with outflow sides, and levels 0 and 1.
fn one_block() -> Shape
    ensures shape { IsShape result }
    ensures sizes { IsSized 4 1 result }
{
    Shape {
        rx: 1,
        ry: 1,
        rz: 1,
        n: 4,
        g: 1,
        min: 0,
        max: 1,
        sides: [SideKind::Outflow; 6],
    }
}

/// The tree of that.
fn one_root(alloc: Global) -> Option<Tree>
    ensures { IfSome result (λ tree. IsSized 4 1 (grid_of tree).shape) }
{
    match Tree::roots(alloc, one_block()) {
        Ok(tree) => Some(tree),
        Err(_) => None,
    }
}

/// Gives the first node's edges along an axis other numbers.
fn put_edges(world: &mut World<4, 1>, axis: Axis, values: &[i64])
    requires fit { IsFit 4 1 world.old }
    requires declared { 0 < world.old.told.counts.edges }
    requires node { IsNode world.old.told.grid 0 }
    requires values { length values.now ≡ 294 }
    ensures only { OnlyOf world.old world.new 0 (Edge axis) 0 }
    ensures fit { IsFit 4 1 world.new }
    ensures value { edge_array false world.new axis 0 ≡ values.now }
{
    let _size = world.values(Var::Edge(axis), 0);
    world.values_mut(Var::Edge(axis), 0).copy_from_slice(values);
}

/// The world of one root, whose edges all have the number 7.
fn uniform(alloc: Global) -> Option<World<4, 1>>
    ensures { IfSome result (λ world. MayTry 4 1 world) }
{
    let layout = Layout {
        cells: 0,
        faces: 0,
        edges: 1,
    };
    let mut world = match World::on_tree(alloc, one_root(alloc)?, layout) {
        Ok(world) => world,
        Err(_) => return None,
    };
    if world.tree().len() != 1 {
        return None;
    }
    let edges = [7i64; 294];
    put_edges(&mut world, Axis::X, &edges);
    put_edges(&mut world, Axis::Y, &edges);
    put_edges(&mut world, Axis::Z, &edges);
    Some(world)
}

/// Makes the edges of the root's first child, where the root is a leaf.
fn first_child(world: &World<4, 1>, cx: &mut [i64], cy: &mut [i64], cz: &mut [i64]) -> bool
    requires may { MayTry 4 1 world.now }
    requires cx { length cx.old ≡ 294 }
    requires cy { length cy.old ≡ 294 }
    requires cz { length cz.old ≡ 294 }
    ensures cx { length cx.new ≡ 294 }
    ensures cy { length cy.new ≡ 294 }
    ensures cz { length cz.new ≡ 294 }
{
    let tree = world.tree();
    let shape = tree.shape();
    let root = BlockAt {
        level: 0,
        x: 0,
        y: 0,
        z: 0,
    };
    match tree.leaf_at(root) {
        None => false,
        Some(node) => {
            if shape.max == 0 {
                return false;
            }
            let block = BlockAt {
                level: 1,
                x: 0,
                y: 0,
                z: 0,
            };
            child_edges(world, node, 0, block, cx, cy, cz);
            true
        }
    }
}

/// The halves of 7 are 4 and 3, and an edge between the parent's has the mean of equal halves. Along x the place of (i, j, k)
/// is (1 + i) + 6 (1 + j) + 42 (1 + k), along y (1 + i) + 7 (1 + j) + 42 (1 + k), and along z (1 + i) + 7 (1 + j) + 49 (1 + k).
/// No leaves stand round the child, and its guards stay.
#[test]
fn edges_of_the_first_child_are_halved(rt: HostRuntime) {
    let world = uniform(rt.alloc()).expect(&rt, "memory");
    let mut cx = [5i64; 294];
    let mut cy = [5i64; 294];
    let mut cz = [5i64; 294];
    assert!(rt; first_child(&world, &mut cx, &mut cy, &mut cz));
    assert_eq!(rt; cx[49], 4);
    assert_eq!(rt; cx[50], 3);
    assert_eq!(rt; cx[56], 3);
    assert_eq!(rt; cx[238], 3);
    assert_eq!(rt; cx[48], 5);
    assert_eq!(rt; cy[50], 4);
    assert_eq!(rt; cy[57], 3);
    assert_eq!(rt; cy[7], 5);
    assert_eq!(rt; cz[57], 4);
    assert_eq!(rt; cz[107], 3);
    assert_eq!(rt; cz[8], 5);
}
