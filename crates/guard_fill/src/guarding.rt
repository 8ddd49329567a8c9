//! The guard places of arrays of faces and of edges.

ghost use Rattle.amr_num.specs.declared.CellAt.{CellAt};
ghost use Rattle.amr_num.specs.declared.EdgeAt.{EdgeAt};
ghost use Rattle.amr_num.specs.declared.FaceAt.{FaceAt};
ghost use Rattle.block_tree.specs.Numbered.{block_at};
ghost use Rattle.guard_fill.specs.Filling.{IsKnown};
ghost use Rattle.guard_fill.specs.Guarding as guarding;
ghost use Rattle.guard_fill.specs.Guarding.{AreNodeViews, AreReaches, AreViews, IsField, IsReachedTo, IsSpread, IsSpreadTo, LeavesGuardedEdges, LeavesGuardedFaces, LeavesReached, OnlyGuardAxes, OnlyGuardPlaces, canon};
ghost use Rattle.guard_fill.specs.Restricting.{HasViews, IsReady};
ghost use Rattle.guard_fill.specs.Strips.{AllReach, block_of};
ghost use Rattle.mesh_model.specs.declared.fields.values.Var.TheVariants.{Edge, Face};
ghost use Rattle.mesh_model.specs.Fields.ArrayPlaces.{IsSize, edge_extents, extents_of, face_extents, number_at, size_of};
ghost use Rattle.mesh_model.specs.Fields.Arrays.{array_in};
ghost use Rattle.mesh_model.specs.Fields.Ranks.{IsFit, OnlyOf, rank_at};
ghost use Rattle.mesh_model.specs.Geometry.Blocks.{InDomain, child_block, parent_block};
ghost use Rattle.mesh_model.specs.Geometry.Limits.{IsShape};
ghost use Rattle.mesh_model.specs.Tree.Kinds.{is_leaf_block};
ghost use Rattle.rank_world.specs.Holding.{IsLeafNode, IsOfValidMesh, NodesHoldEdges, NodesHoldFaces};
ghost use Rattle.std.specs.Prelude.{◌≡◌, ◌<◌, ℤ, length, true};

use crate::copying::copy_places;
use crate::restricting::{MOST_NUMBERS, place_count};
use crate::strips::{Patch, strip_on};
use amr_num::{Axis, BlockAt};
use block_store::Extents;
use leaf_split::{child_edges, child_faces};
use mesh_model::{Shape, Var};
use rank_world::World;

/// The direction of a block's own places.
const OWN_PLACES: usize = 13;

/// Whether numbers stand at positions along an axis in a variable's arrays, and else at cells.
fn at_positions(var: Var, axis: Axis) -> bool
    ensures { result ≡ guarding.at_positions var axis }
{
    match var {
        Var::Cell(_) | Var::CellWork => false,
        Var::Face(normal) | Var::FaceWork(normal) => normal == axis,
        Var::Edge(along) | Var::EdgeWork(along) => along != axis,
    }
}

/// The places of a block's array in one of the 27 directions.
fn places_of(n: usize, g: usize, shape: &Shape, var: Var, block: BlockAt, direction: usize) -> Patch
    requires size { IsSize n g }
    requires shape { IsShape shape.now }
    requires block { InDomain shape.now block }
    requires direction { direction < 27 }
    ensures { AreReaches n g shape.now var block direction result }
{
    let x = at_positions(var, Axis::X);
    let y = at_positions(var, Axis::Y);
    let z = at_positions(var, Axis::Z);
    Patch {
        x: strip_on(n, g, x, shape, Axis::X, block, direction % 3),
        y: strip_on(n, g, y, shape, Axis::Y, block, direction / 3 % 3),
        z: strip_on(n, g, z, shape, Axis::Z, block, direction / 9),
    }
}

/// Makes the faces normal to an axis that a child of a leaf would have.
fn make_faces<const N: usize, const G: usize>(
    world: &World<N, G>,
    axis: Axis,
    leaf: u32,
    octant: u32,
    block: BlockAt,
    room: &mut [i64],
)
    requires ready { IsReady N G world.now (Face axis) }
    requires mesh { IsOfValidMesh world.now }
    requires leaf { IsLeafNode world.now.told.grid leaf }
    requires octant { octant < 8 }
    requires child { child_block (block_at world.now.told.grid leaf) octant ≡ block }
    requires block { InDomain world.now.told.grid.shape block }
    requires room { length room.old ≡ size_of (face_extents N G axis) }
    ensures size { length room.new ≡ length room.old }
    ensures views { (view : CellAt → ℤ) → AreViews world.now (Face axis) view → let s = world.now.told.grid.shape in
        HasViews s (Face axis) (λ c. view (canon s (Face axis) c)) block (number_at (extents_of s.n s.g (Face axis)) room.new) }
{
    let mut on_x = [0i64; MOST_NUMBERS];
    let mut on_y = [0i64; MOST_NUMBERS];
    let mut on_z = [0i64; MOST_NUMBERS];
    let cx = &mut on_x[..place_count(N, G, Var::Face(Axis::X))];
    let cy = &mut on_y[..place_count(N, G, Var::Face(Axis::Y))];
    let cz = &mut on_z[..place_count(N, G, Var::Face(Axis::Z))];
    child_faces(world, leaf, octant, block, cx, cy, cz);
    match axis {
        Axis::X => room.copy_from_slice(cx),
        Axis::Y => room.copy_from_slice(cy),
        Axis::Z => room.copy_from_slice(cz),
    }
}

/// Makes the edges along an axis that a child of a leaf would have.
fn make_edges<const N: usize, const G: usize>(
    world: &World<N, G>,
    axis: Axis,
    leaf: u32,
    octant: u32,
    block: BlockAt,
    room: &mut [i64],
)
    requires ready { IsReady N G world.now (Edge axis) }
    requires mesh { IsOfValidMesh world.now }
    requires leaf { IsLeafNode world.now.told.grid leaf }
    requires octant { octant < 8 }
    requires child { child_block (block_at world.now.told.grid leaf) octant ≡ block }
    requires block { InDomain world.now.told.grid.shape block }
    requires room { length room.old ≡ size_of (edge_extents N G axis) }
    ensures size { length room.new ≡ length room.old }
    ensures views { (view : CellAt → ℤ) → AreViews world.now (Edge axis) view → let s = world.now.told.grid.shape in
        HasViews s (Edge axis) (λ c. view (canon s (Edge axis) c)) block (number_at (extents_of s.n s.g (Edge axis)) room.new) }
{
    let mut on_x = [0i64; MOST_NUMBERS];
    let mut on_y = [0i64; MOST_NUMBERS];
    let mut on_z = [0i64; MOST_NUMBERS];
    let cx = &mut on_x[..place_count(N, G, Var::Edge(Axis::X))];
    let cy = &mut on_y[..place_count(N, G, Var::Edge(Axis::Y))];
    let cz = &mut on_z[..place_count(N, G, Var::Edge(Axis::Z))];
    child_edges(world, leaf, octant, block, cx, cy, cz);
    match axis {
        Axis::X => room.copy_from_slice(cx),
        Axis::Y => room.copy_from_slice(cy),
        Axis::Z => room.copy_from_slice(cz),
    }
}

/// Makes the array of a variable that a child of a leaf would have.
fn make_child<const N: usize, const G: usize>(
    world: &World<N, G>,
    var: Var,
    leaf: u32,
    octant: u32,
    block: BlockAt,
    room: &mut [i64],
)
    requires ready { IsReady N G world.now var }
    requires field { IsField var }
    requires mesh { IsOfValidMesh world.now }
    requires leaf { IsLeafNode world.now.told.grid leaf }
    requires octant { octant < 8 }
    requires child { child_block (block_at world.now.told.grid leaf) octant ≡ block }
    requires block { InDomain world.now.told.grid.shape block }
    requires room { length room.old ≡ size_of (extents_of N G var) }
    ensures size { length room.new ≡ length room.old }
    ensures views { (view : CellAt → ℤ) → AreViews world.now var view → let s = world.now.told.grid.shape in
        HasViews s var (λ c. view (canon s var c)) block (number_at (extents_of s.n s.g var) room.new) }
{
    match var {
        Var::Face(axis) => make_faces(world, axis, leaf, octant, block, room),
        Var::Edge(axis) => make_edges(world, axis, leaf, octant, block, room),
        Var::Cell(_) => unreachable!(),
        Var::CellWork => unreachable!(),
        Var::FaceWork(_) => unreachable!(),
        Var::EdgeWork(_) => unreachable!(),
    }
}

/// Copies the places of a patch from the child that a leaf would have.
fn spread_child<const N: usize, const G: usize>(
    world: &World<N, G>,
    var: Var,
    block: BlockAt,
    patch: Patch,
    child: &mut [i64],
    room: &mut [i64],
)
    requires ready { IsReady N G world.now var }
    requires field { IsField var }
    requires mesh { IsOfValidMesh world.now }
    requires reach { AllReach (extents_of N G var) G patch }
    requires block { block ≡ block_of block.level patch }
    requires parent { (0 < block.level) × (is_leaf_block world.now.told.grid (parent_block block) ≡ true) }
    requires inside { InDomain world.now.told.grid.shape block }
    requires child { length child.old ≡ size_of (extents_of N G var) }
    requires room { length room.old ≡ size_of (extents_of N G var) }
    ensures child { length child.new ≡ length child.old }
    ensures spread { IsSpread N G world.now var block.level patch room.old room.new }
{
    let octant = block.x % 2 + 2 * (block.y % 2) + 4 * (block.z % 2);
    let parent = BlockAt {
        level: block.level - 1,
        x: block.x / 2,
        y: block.y / 2,
        z: block.z / 2,
    };
    match world.tree().leaf_at(parent) {
        Some(leaf) => {
            make_child(world, var, leaf, octant, block, child);
            copy_places(Extents::of(N, G, var), G, patch, child, room);
        }
        None => unreachable!(),
    }
}

/// Copies the places of a patch from the node of their level, or where none is there, from the child that a leaf would
/// have.
fn spread<const N: usize, const G: usize>(
    world: &World<N, G>,
    var: Var,
    level: u32,
    patch: Patch,
    child: &mut [i64],
    room: &mut [i64],
)
    requires ready { IsReady N G world.now var }
    requires field { IsField var }
    requires mesh { IsOfValidMesh world.now }
    requires reach { AllReach (extents_of N G var) G patch }
    requires known { IsKnown world.now.told.grid (block_of level patch) }
    requires inside { InDomain world.now.told.grid.shape (block_of level patch) }
    requires child { length child.old ≡ size_of (extents_of N G var) }
    requires room { length room.old ≡ size_of (extents_of N G var) }
    ensures child { length child.new ≡ length child.old }
    ensures spread { IsSpread N G world.now var level patch room.old room.new }
{
    let block = BlockAt {
        level,
        x: patch.x.block,
        y: patch.y.block,
        z: patch.z.block,
    };
    match world.tree().node_at(block) {
        Some(node) => {
            let values = world.values(var, node);
            copy_places(Extents::of(N, G, var), G, patch, values, room);
        }
        None => spread_child(world, var, block, patch, child, room),
    }
}

/// Sets the places of a leaf's array in one direction to the views that belong there.
fn spread_direction<const N: usize, const G: usize>(
    world: &World<N, G>,
    var: Var,
    block: BlockAt,
    direction: usize,
    child: &mut [i64],
    room: &mut [i64],
)
    requires ready { IsReady N G world.now var }
    requires field { IsField var }
    requires mesh { IsOfValidMesh world.now }
    requires leaf { is_leaf_block world.now.told.grid block ≡ true }
    requires direction { direction < 27 }
    requires child { length child.old ≡ size_of (extents_of N G var) }
    requires room { length room.old ≡ size_of (extents_of N G var) }
    ensures child { length child.new ≡ length child.old }
    ensures spread { IsSpreadTo N G world.now var block direction room.old room.new }
{
    let shape = world.tree().shape();
    let patch = places_of(N, G, &shape, var, block, direction);
    spread(world, var, block.level, patch, child, room);
}

/// Gathers the numbers of a leaf's array, those on its guard places among them.
fn reach<const N: usize, const G: usize>(
    world: &World<N, G>,
    var: Var,
    node: u32,
    child: &mut [i64],
    room: &mut [i64],
)
    requires ready { IsReady N G world.now var }
    requires field { IsField var }
    requires mesh { IsOfValidMesh world.now }
    requires leaf { IsLeafNode world.now.told.grid node }
    requires child { length child.old ≡ size_of (extents_of N G var) }
    requires room { length room.old ≡ size_of (extents_of N G var) }
    ensures child { length child.new ≡ length child.old }
    ensures reached { IsReachedTo N G world.now var node 27 room.new }
{
    let block = world.tree().at(node);
    room.copy_from_slice(world.values(var, node));
    for direction in 0..27 {
        if direction != OWN_PLACES {
            spread_direction(world, var, block, direction, child, room);
        }
    }
}

/// Writes the guard places of a leaf.
fn reach_leaf<const N: usize, const G: usize>(
    world: &mut World<N, G>,
    var: Var,
    node: u32,
    child: &mut [i64],
    room: &mut [i64],
)
    requires ready { IsReady N G world.old var }
    requires field { IsField var }
    requires mesh { IsOfValidMesh world.old }
    requires leaf { IsLeafNode world.old.told.grid node }
    requires child { length child.old ≡ size_of (extents_of N G var) }
    requires room { length room.old ≡ size_of (extents_of N G var) }
    ensures child { length child.new ≡ length child.old }
    ensures room { length room.new ≡ length room.old }
    ensures only { OnlyOf world.old world.new 0 var node }
    ensures fit { IsFit N G world.new }
    ensures reached { IsReachedTo N G world.old var node 27 (array_in (rank_at world.new 0).own.values var node) }
{
    reach(world, var, node, child, room);
    world.values_mut(var, node).copy_from_slice(room);
}

/// Writes the guard places of all leaves.
fn reach_leaves<const N: usize, const G: usize>(
    world: &mut World<N, G>,
    var: Var,
    child: &mut [i64],
    room: &mut [i64],
)
    requires ready { IsReady N G world.old var }
    requires field { IsField var }
    requires mesh { IsOfValidMesh world.old }
    requires child { length child.old ≡ size_of (extents_of N G var) }
    requires room { length room.old ≡ size_of (extents_of N G var) }
    ensures only { OnlyGuardPlaces world.old world.new var }
    ensures fit { IsFit N G world.new }
    ensures guards { (view : CellAt → ℤ) → AreNodeViews world.old var view → LeavesReached world.new var view }
{
    for node in 0..world.tree().len() {
        if world.tree().is_leaf(node) {
            reach_leaf(world, var, node, child, room);
        }
    }
}

/// Writes the guard places of a variable's arrays in all leaves, by way of rooms of its own.
fn reach_arrays<const N: usize, const G: usize>(world: &mut World<N, G>, var: Var)
    requires ready { IsReady N G world.old var }
    requires field { IsField var }
    requires mesh { IsOfValidMesh world.old }
    ensures only { OnlyGuardPlaces world.old world.new var }
    ensures fit { IsFit N G world.new }
    ensures guards { (view : CellAt → ℤ) → AreNodeViews world.old var view → LeavesReached world.new var view }
{
    let mut child_room = [0i64; MOST_NUMBERS];
    let mut leaf_room = [0i64; MOST_NUMBERS];
    let child = &mut child_room[..place_count(N, G, var)];
    let room = &mut leaf_room[..place_count(N, G, var)];
    reach_leaves(world, var, child, room);
}

/// Writes the guard places of the faces on each axis into all leaves.
pub(crate) fn fill_faces_of<const N: usize, const G: usize>(world: &mut World<N, G>)
    requires fit { IsFit N G world.old }
    requires mesh { IsOfValidMesh world.old }
    requires variable { 0 < world.old.told.counts.faces }
    ensures only { OnlyGuardAxes Face world.old world.new }
    ensures fit { IsFit N G world.new }
    ensures guards { (field : FaceAt → ℤ) → NodesHoldFaces world.old field → LeavesGuardedFaces world.new field }
{
    let _shape = world.tree().shape();
    reach_arrays(world, Var::Face(Axis::X));
    reach_arrays(world, Var::Face(Axis::Y));
    reach_arrays(world, Var::Face(Axis::Z));
}

/// Writes the guard places of the edges along each axis into all leaves.
pub(crate) fn fill_edges_of<const N: usize, const G: usize>(world: &mut World<N, G>)
    requires fit { IsFit N G world.old }
    requires mesh { IsOfValidMesh world.old }
    requires variable { 0 < world.old.told.counts.edges }
    ensures only { OnlyGuardAxes Edge world.old world.new }
    ensures fit { IsFit N G world.new }
    ensures guards { (field : EdgeAt → ℤ) → NodesHoldEdges world.old field → LeavesGuardedEdges world.new field }
{
    let _shape = world.tree().shape();
    reach_arrays(world, Var::Edge(Axis::X));
    reach_arrays(world, Var::Edge(Axis::Y));
    reach_arrays(world, Var::Edge(Axis::Z));
}
