//! Regrids that are worked by hand.

ghost use Rattle.block_tree.specs.GridOf.{grid_of};
ghost use Rattle.block_tree.specs.Growing.{MayRegrow};
ghost use Rattle.mesh_model.specs.Fields.Ranks.{IsFit, IsSized};
ghost use Rattle.mesh_model.specs.Geometry.Limits.{IsShape};
ghost use Rattle.refine_marks.specs.Flags.{IsOnePerNode};
ghost use Rattle.refine_marks.specs.Planned.{merged_by, refined_by};
ghost use Rattle.regrid_move.specs.Tried.{MayTry, MayTryAxes};
ghost use Rattle.rank_world.specs.Puts.{IsPut};
ghost use Rattle.std.specs.Prelude.{◌≡◌, ◌<◌, ◌≤◌, ◌^◌, ◌⊎◌, IfSome};

use crate::kinds::Staggered;
use crate::splitting::put_axis;
use crate::{RegridStop, regrid};
use amr_num::{Axis, CellAt, SideKind, fits};
use block_store::Layout;
use block_tree::{Marks, Tree};
use mesh_model::{Group, RangeStop, Shape, Spot, Var};
use rank_world::World;
use refine_marks::{Plan, SetMarks, close};
use std::alloc::Global;

/// A cube of roots with levels 0 and 1.
fn cube(roots: u32, guards: u32) -> Shape
    requires roots { (0 < roots) × (roots ≤ 8) }
    requires guards { (guards ≡ 1) ⊎ (guards ≡ 4) }
    ensures shape { IsShape result }
    ensures sizes { IsSized 4 guards result }
{
    Shape {
        rx: roots,
        ry: roots,
        rz: roots,
        n: 4,
        g: guards,
        min: 0,
        max: 1,
        sides: [SideKind::Periodic; 6],
    }
}

/// The plan that refines all leaves of a tree of roots, and merges all others.
fn plan_of(alloc: Global, tree: &Tree) -> Option<Plan>
    ensures refine { IfSome result (λ plan. IsOnePerNode (grid_of tree.now) plan.refine.items) }
    ensures merge { IfSome result (λ plan. IsOnePerNode (grid_of tree.now) plan.merge.items) }
    ensures may { IfSome result (λ plan. MayRegrow (grid_of tree.now) (refined_by (grid_of tree.now) plan) (merged_by (grid_of tree.now) plan)) }
{
    let mut marks = match Marks::empty(alloc, tree) {
        Ok(marks) => marks,
        Err(_) => return None,
    };
    for node in 0..tree.len() {
        if tree.is_leaf(node) {
            let _ = marks.set_refine(tree, node);
            let _ = marks.set_derefine(tree, node);
        }
    }
    match close(alloc, tree, &marks) {
        Ok(plan) => Some(plan),
        Err(_) => None,
    }
}

/// The tree after that plan.
fn planned(alloc: Global, tree: &Tree) -> Option<Tree>
    ensures { IfSome result (λ new. (grid_of new).shape ≡ (grid_of tree.now).shape) }
{
    let plan = plan_of(alloc, tree)?;
    match tree.regrown(alloc, &plan.refine, &plan.merge) {
        Ok(tree) => Some(tree),
        Err(_) => None,
    }
}

/// The world of a tree, with one cell variable.
fn world_on<const N: usize, const G: usize>(alloc: Global, tree: Tree) -> Option<World<N, G>>
    requires { IsSized N G (grid_of tree).shape }
    ensures { IfSome result (λ world. MayTry N G world) }
{
    let layout = Layout {
        cells: 1,
        faces: 0,
        edges: 0,
    };
    match World::on_tree(alloc, tree, layout) {
        Ok(world) => Some(world),
        Err(_) => None,
    }
}

/// Regrids a world by the plan for its tree.
fn regridded<const N: usize, const G: usize>(
    alloc: Global,
    world: &mut World<N, G>,
) -> Option<Result<(), RegridStop>>
    requires { MayTry N G world.old }
    ensures { IsFit N G world.new }
{
    let plan = plan_of(alloc, world.tree())?;
    Some(regrid(alloc, world, &plan))
}

/// Puts a number within the range at a place of a list that is that long.
fn put(values: &mut [i64], place: usize, value: i64)
    ensures { IsPut (2 ^ 40) values.old values.new }
{
    if place < values.len() && fits(value) {
        values[place] = value;
    }
}

/// Puts a number at a place of the cells of a node that is there.
fn set_cell<const N: usize, const G: usize>(
    world: &mut World<N, G>,
    node: u32,
    place: usize,
    value: i64,
)
    requires { MayTry N G world.old }
    ensures { MayTry N G world.new }
{
    let _shape = world.tree().shape();
    if node < world.tree().len() && world.layout().cells > 0 {
        put(world.values_mut(Var::Cell(0), node), place, value);
    }
}

/// The number there.
fn cell<const N: usize, const G: usize>(world: &World<N, G>, node: u32, place: usize) -> Option<i64>
    requires { IsFit N G world.now }
{
    if node < world.tree().len() && world.layout().cells > 0 {
        world.values(Var::Cell(0), node).get(place).copied()
    } else {
        None
    }
}

/// One root.
fn one_root(alloc: Global) -> Option<Tree>
    ensures { IfSome result (λ tree. IsSized 4 1 (grid_of tree).shape) }
{
    match Tree::roots(alloc, cube(1, 1)) {
        Ok(tree) => Some(tree),
        Err(_) => None,
    }
}

/// The world of the eight children of one root, which are the nodes 1 to 8.
fn eight_blocks(alloc: Global) -> Option<World<4, 1>>
    ensures { IfSome result (λ world. MayTry 4 1 world) }
{
    let root = one_root(alloc)?;
    world_on(alloc, planned(alloc, &root)?)
}

/// The cells (0, 0, 0) and (2, 1, 3) of a root, at the places (1 + i) + 6 (1 + j) + 36 (1 + k).
const WHOLES: [(usize, i64); 2] = [(43, 13), (159, -9)];

/// Cells of its children: a node, a place, and the part. The children of the first cell's octants are those of the
/// node 1 at 0 or 1, those of the second's are those of the node 6 at 0 or 1, 2 or 3, and 2 or 3.
const PARTS: [(u32, usize, i64); 11] = [
    (1, 43, 2),
    (1, 44, 2),
    (1, 49, 2),
    (1, 50, 2),
    (1, 79, 2),
    (1, 80, 1),
    (1, 85, 1),
    (1, 86, 1),
    (6, 127, -1),
    (6, 169, -1),
    (6, 170, -2),
];

#[test]
fn one_block_makes_eight(rt: HostRuntime) {
    let tree = one_root(rt.alloc()).expect(&rt, "memory");
    let mut mesh = world_on::<4, 1>(rt.alloc(), tree).expect(&rt, "memory");
    for (place, value) in WHOLES {
        set_cell(&mut mesh, 0, place, value);
    }
    assert_eq!(rt; regridded(rt.alloc(), &mut mesh), Some(Ok(())));
    assert_eq!(rt; mesh.tree().len(), 9);
    for (node, place, part) in PARTS {
        assert_eq!(rt; cell(&mesh, node, place), Some(part));
    }
}

#[test]
fn eight_blocks_make_one(rt: HostRuntime) {
    let mut mesh = eight_blocks(rt.alloc()).expect(&rt, "memory");
    for (node, place, part) in PARTS {
        set_cell(&mut mesh, node, place, part);
    }
    assert_eq!(rt; regridded(rt.alloc(), &mut mesh), Some(Ok(())));
    assert_eq!(rt; mesh.tree().len(), 1);
    // Of the second cell three parts are there: -1, -1 and -2.
    for (place, whole) in [(43, 13), (159, -4), (44, 0)] {
        assert_eq!(rt; cell(&mesh, 0, place), Some(whole));
    }
}

/// Children whose sums are out of range in the cells (1, 0, 0) and (0, 1, 0), and of the first only just in range in the
/// cell (0, 0, 0).
const LARGE: [(u32, usize, i64); 5] = [
    (1, 43, 1 << 40),
    (1, 45, 1 << 40),
    (1, 46, 1),
    (1, 55, 1 << 40),
    (1, 56, 5),
];

#[test]
fn the_first_sum_out_of_range_is_told(rt: HostRuntime) {
    let mut mesh = eight_blocks(rt.alloc()).expect(&rt, "memory");
    for (node, place, part) in LARGE {
        set_cell(&mut mesh, node, place, part);
    }
    let first = CellAt {
        level: 0,
        x: 1,
        y: 0,
        z: 0,
    };
    let stop = RangeStop {
        var: Group::Cell(0),
        spot: Spot::Cell(first),
        value: (1 << 40) + 1,
    };
    assert_eq!(rt;
        regridded(rt.alloc(), &mut mesh),
        Some(Err(RegridStop::Range(stop)))
    );
    assert_eq!(rt; mesh.tree().len(), 9);
    assert_eq!(rt; cell(&mesh, 1, 46), Some(1));
}

#[test]
fn too_many_blocks_are_counted(rt: HostRuntime) {
    let alloc = rt.alloc();
    let tree = Tree::roots(alloc, cube(8, 4)).expect(&rt, "memory");
    let mut mesh = world_on::<4, 4>(alloc, tree).expect(&rt, "memory");
    assert_eq!(rt;
        regridded(alloc, &mut mesh),
        Some(Err(RegridStop::Blocks(4608)))
    );
    assert_eq!(rt; mesh.tree().len(), 512);
}

/// The world of one root, whose faces all have the number 13.
fn uniform_faces(alloc: Global) -> Option<World<4, 1>>
    ensures { IfSome result (λ world. MayTryAxes 4 1 world) }
{
    let layout = Layout {
        cells: 0,
        faces: 1,
        edges: 0,
    };
    let mut world = match World::on_tree(alloc, one_root(alloc)?, layout) {
        Ok(world) => world,
        Err(_) => return None,
    };
    if world.tree().len() != 1 {
        return None;
    }
    let faces = [13i64; 252];
    put_axis(&mut world, Staggered::Faces, Axis::X, 0, &faces);
    put_axis(&mut world, Staggered::Faces, Axis::Y, 0, &faces);
    put_axis(&mut world, Staggered::Faces, Axis::Z, 0, &faces);
    Some(world)
}

/// The world of one root, whose edges all have the number 7.
fn uniform_edges(alloc: Global) -> Option<World<4, 1>>
    ensures { IfSome result (λ world. MayTryAxes 4 1 world) }
{
    let layout = Layout {
        cells: 0,
        faces: 0,
        edges: 1,
    };
    let mut world = match World::on_tree(alloc, one_root(alloc)?, layout) {
        Ok(world) => world,
        Err(_) => return None,
    };
    if world.tree().len() != 1 {
        return None;
    }
    let edges = [7i64; 294];
    put_axis(&mut world, Staggered::Edges, Axis::X, 0, &edges);
    put_axis(&mut world, Staggered::Edges, Axis::Y, 0, &edges);
    put_axis(&mut world, Staggered::Edges, Axis::Z, 0, &edges);
    Some(world)
}

/// Regrids a world with a face or an edge variable alone by the plan for its tree.
fn regridded_axes<const N: usize, const G: usize>(
    alloc: Global,
    world: &mut World<N, G>,
) -> Option<Result<(), RegridStop>>
    requires { MayTryAxes N G world.old }
    ensures { IsFit N G world.new }
{
    let plan = plan_of(alloc, world.tree())?;
    Some(regrid(alloc, world, &plan))
}

/// The number at a place of a node's faces normal to an axis.
fn face<const N: usize, const G: usize>(
    world: &World<N, G>,
    axis: Axis,
    node: u32,
    place: usize,
) -> Option<i64>
    requires { IsFit N G world.now }
{
    if node < world.tree().len() && world.layout().faces > 0 {
        world.values(Var::Face(axis), node).get(place).copied()
    } else {
        None
    }
}

/// The number at a place of a node's edges along an axis.
fn edge<const N: usize, const G: usize>(
    world: &World<N, G>,
    axis: Axis,
    node: u32,
    place: usize,
) -> Option<i64>
    requires { IsFit N G world.now }
{
    if node < world.tree().len() && world.layout().edges > 0 {
        world.values(Var::Edge(axis), node).get(place).copied()
    } else {
        None
    }
}

/// Faces of the children: an axis, a node, a place, and the number. The quarters of 13 are 4, 3, 3 and 3, and the faces
/// between the octants of a cell let through what those on its sides do. On x the place of (i, j, k) is
/// (1 + i) + 7 (1 + j) + 42 (1 + k), on y (1 + i) + 6 (1 + j) + 42 (1 + k), and on z (1 + i) + 6 (1 + j) + 36 (1 + k).
const QUARTERS: [(Axis, u32, usize, i64); 9] = [
    (Axis::X, 1, 50, 4),
    (Axis::X, 1, 51, 4),
    (Axis::X, 1, 57, 3),
    (Axis::X, 1, 92, 3),
    (Axis::X, 8, 54, 4),
    (Axis::Y, 1, 49, 4),
    (Axis::Y, 3, 56, 3),
    (Axis::Z, 5, 79, 4),
    (Axis::Z, 5, 86, 3),
];

#[test]
fn faces_of_one_block_are_quartered(rt: HostRuntime) {
    let mut mesh = uniform_faces(rt.alloc()).expect(&rt, "memory");
    assert_eq!(rt; regridded_axes(rt.alloc(), &mut mesh), Some(Ok(())));
    assert_eq!(rt; mesh.tree().len(), 9);
    for (axis, node, place, part) in QUARTERS {
        assert_eq!(rt; face(&mesh, axis, node, place), Some(part));
    }
}

/// Edges of the children: an axis, a node, a place, and the number. The halves of 7 are 4 and 3, and an edge between parents'
/// edges has the mean of equal halves. Along x the place of (i, j, k) is (1 + i) + 6 (1 + j) + 42 (1 + k), along y
/// (1 + i) + 7 (1 + j) + 42 (1 + k), and along z (1 + i) + 7 (1 + j) + 49 (1 + k).
const HALVES: [(Axis, u32, usize, i64); 8] = [
    (Axis::X, 1, 49, 4),
    (Axis::X, 1, 50, 3),
    (Axis::X, 1, 56, 3),
    (Axis::X, 8, 238, 3),
    (Axis::Y, 1, 50, 4),
    (Axis::Y, 3, 57, 3),
    (Axis::Z, 5, 57, 4),
    (Axis::Z, 5, 107, 3),
];

#[test]
fn edges_of_one_block_are_halved(rt: HostRuntime) {
    let mut mesh = uniform_edges(rt.alloc()).expect(&rt, "memory");
    assert_eq!(rt; regridded_axes(rt.alloc(), &mut mesh), Some(Ok(())));
    assert_eq!(rt; mesh.tree().len(), 9);
    for (axis, node, place, part) in HALVES {
        assert_eq!(rt; edge(&mesh, axis, node, place), Some(part));
    }
}
