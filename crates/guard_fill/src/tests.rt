//! Sums and guard cells that are worked by hand.

ghost use Rattle.guard_fill.specs.Trials.{IsTrial};
ghost use Rattle.mesh_model.specs.Geometry.Limits.{IsShape};
ghost use Rattle.std.specs.Prelude.{◌<◌, ◌≤◌, IfSome};

use crate::laws::near_views_are_small;
use crate::{fill, fill_sides, restrict_all};
use amr_num::{BlockAt, SideKind};
use block_store::Layout;
use block_tree::{Marks, Tree};
use mesh_model::{Group, Shape, Var};
use rank_world::World;
use refine_marks::{SetMarks, close};
use std::alloc::Global;
use std::test::Fail;

/// A domain of so many roots along x, with levels 0 and 1.
fn shape(rx: u32, sides: [SideKind; 3]) -> Shape
    requires { (0 < rx) × (rx ≤ 8) }
    ensures { IsShape result }
{
    let [x, y, z] = sides;
    Shape {
        rx,
        ry: 1,
        rz: 1,
        n: 4,
        g: 1,
        min: 0,
        max: 1,
        sides: [x, x, y, y, z, z],
    }
}

/// The world of a tree, with one cell variable.
fn world_of(alloc: Global, tree: Tree) -> Option<World<4, 1>>
    ensures { IfSome result (λ world. IsTrial world) }
{
    let shape = tree.shape();
    if shape.n != 4 || shape.g != 1 {
        return None;
    }
    let layout = Layout {
        cells: 1,
        faces: 0,
        edges: 0,
    };
    match World::on_tree(alloc, tree, layout) {
        Ok(world) => Some(world),
        Err(_) => None,
    }
}

/// Writes a number at a place of a node.
fn put(world: &mut World<4, 1>, at: BlockAt, place: [usize; 3], number: i64) -> bool
    requires { IsTrial world.old }
    ensures { IsTrial world.new }
{
    let [i, j, k] = place;
    if i >= 6 || j >= 6 || k >= 6 || number < -100 || number > 100 {
        return false;
    }
    match world.tree().node_at(at) {
        Some(node) => {
            world.values_mut(Var::Cell(0), node)[i + 6 * j + 36 * k] = number;
            true
        }
        None => false,
    }
}

/// Writes numbers at places of nodes.
fn put_all(world: &mut World<4, 1>, numbers: &[(BlockAt, [usize; 3], i64)]) -> bool
    requires { IsTrial world.old }
    ensures { IsTrial world.new }
{
    for (at, place, number) in numbers {
        if !put(world, *at, *place, *number) {
            return false;
        }
    }
    true
}

/// The number at a place of a node.
fn number(world: &World<4, 1>, at: BlockAt, place: [usize; 3]) -> Option<i64>
    requires { IsTrial world.now }
{
    let [i, j, k] = place;
    let node = world.tree().node_at(at)?;
    if i < 6 && j < 6 && k < 6 {
        Some(world.values(Var::Cell(0), node)[i + 6 * j + 36 * k])
    } else {
        None
    }
}

/// Sums the numbers of leaves into the nodes above them, and fills guard cells.
fn settle(world: &mut World<4, 1>)
    requires { IsTrial world.old }
    ensures { IsTrial world.new }
{
    let _tree = world.tree();
    restrict_all(world, Group::Cell(0));
    fill(world, Group::Cell(0));
}

/// The same, but fills the guard cells straight across sides alone.
fn settle_sides(world: &mut World<4, 1>)
    requires { IsTrial world.old }
    ensures { IsTrial world.new }
{
    let _tree = world.tree();
    restrict_all(world, Group::Cell(0));
    fill_sides(world, 0);
}

fn block(level: u32, x: u32, y: u32, z: u32) -> BlockAt {
    BlockAt { level, x, y, z }
}

/// The tree of the roots with the first of them refined.
fn refined(alloc: Global, roots: &Tree) -> Option<Tree> {
    let mut marks = Marks::empty(alloc, roots).ok()?;
    let node = roots.leaf_at(block(0, 0, 0, 0))?;
    marks.set_refine(roots, node).ok()?;
    let plan = close(alloc, roots, &marks).ok()?;
    roots.regrown(alloc, &plan.refine, &plan.merge).ok()
}

#[test]
fn a_block_is_its_own_neighbour(rt: HostRuntime) -> Result<(), Fail> {
    let roots = Tree::roots(rt.alloc(), shape(1, [SideKind::Periodic; 3]))?;
    let mut world = world_of(rt.alloc(), roots).ok_or("no world")?;
    let root = block(0, 0, 0, 0);
    let numbers = [
        (root, [4, 2, 3], 11),
        (root, [1, 2, 3], 12),
        (root, [4, 4, 4], 13),
        (root, [4, 1, 2], 14),
    ];
    assert!(rt; put_all(&mut world, &numbers));
    settle(&mut world);
    for (place, value) in [
        ([0, 2, 3], 11),
        ([5, 2, 3], 12),
        ([0, 0, 0], 13),
        ([0, 5, 2], 14),
        ([4, 2, 3], 11),
        ([5, 3, 3], 0),
    ] {
        assert_eq!(rt; number(&world, root, place), Some(value));
    }
    Ok(())
}

#[test]
fn guards_lie_in_finer_and_in_coarser_blocks(rt: HostRuntime) -> Result<(), Fail> {
    let sides = [SideKind::Outflow, SideKind::Closed, SideKind::Periodic];
    let roots = Tree::roots(rt.alloc(), shape(2, sides))?;
    let tree = refined(rt.alloc(), &roots).ok_or("no tree")?;
    let mut world = world_of(rt.alloc(), tree).ok_or("no world")?;
    let fine = block(1, 1, 0, 0);
    let coarse = block(0, 1, 0, 0);
    let numbers = [
        // The eight cells of the fine block that make the coarse cell beside its neighbour's first.
        (fine, [3, 1, 1], 1),
        (fine, [4, 1, 1], 2),
        (fine, [3, 2, 1], 3),
        (fine, [4, 2, 1], 4),
        (fine, [3, 1, 2], 5),
        (fine, [4, 1, 2], 6),
        (fine, [3, 2, 2], 7),
        (fine, [4, 2, 2], 8),
        (fine, [1, 1, 1], 20),
        // 13 has the parts 2, 2, 2, 2, 2, 1, 1, 1, and -11 has five times -1 and three times -2.
        (coarse, [1, 1, 1], 13),
        (coarse, [1, 1, 4], -11),
        (coarse, [4, 1, 1], 7),
        (coarse, [4, 1, 4], 9),
    ];
    assert!(rt; put_all(&mut world, &numbers));
    settle(&mut world);
    for (at, place, value) in [
        // Beside finer blocks: the sum, in the node above them and in the coarse block's guard cell.
        (block(0, 0, 0, 0), [4, 1, 1], 36),
        (coarse, [0, 1, 1], 36),
        (coarse, [0, 0, 1], 36),
        (coarse, [0, 1, 5], 36),
        // Beside a coarser block: its parts, in a side, along an edge that is clamped, and in a corner that wraps.
        (fine, [5, 1, 1], 2),
        (fine, [5, 2, 2], 1),
        (fine, [5, 0, 1], 2),
        (fine, [5, 0, 0], -1),
        (block(1, 1, 0, 1), [5, 2, 4], -2),
        // Beside a block of the same level.
        (block(1, 0, 0, 0), [5, 1, 1], 20),
        // Outside the domain, where it is clamped, and where it wraps.
        (coarse, [5, 1, 1], 7),
        (coarse, [5, 0, 1], 7),
        (coarse, [5, 1, 0], 9),
        (fine, [3, 0, 1], 1),
    ] {
        assert_eq!(rt; number(&world, at, place), Some(value));
    }
    near_views_are_small();
    Ok(())
}

#[test]
fn edges_and_corners_are_no_sides(rt: HostRuntime) -> Result<(), Fail> {
    let roots = Tree::roots(rt.alloc(), shape(1, [SideKind::Periodic; 3]))?;
    let mut world = world_of(rt.alloc(), roots).ok_or("no world")?;
    let root = block(0, 0, 0, 0);
    let numbers = [
        (root, [4, 2, 3], 11),
        (root, [4, 4, 4], 13),
        (root, [4, 1, 2], 14),
        (root, [2, 3, 4], 15),
    ];
    assert!(rt; put_all(&mut world, &numbers));
    settle_sides(&mut world);
    for (place, value) in [
        ([0, 2, 3], 11),
        ([0, 4, 4], 13),
        ([4, 0, 4], 13),
        ([4, 4, 0], 13),
        ([2, 3, 0], 15),
        ([4, 2, 3], 11),
        ([0, 0, 4], 0),
        ([0, 0, 0], 0),
        ([0, 5, 2], 0),
    ] {
        assert_eq!(rt; number(&world, root, place), Some(value));
    }
    Ok(())
}
