//! The guard cells of leaves.

ghost use Rattle.amr_num.specs.declared.CellAt.{CellAt};
ghost use Rattle.guard_fill.specs.Filling as asked;
ghost use Rattle.guard_fill.specs.Filling.{IsFilled, IsFilledAsked, IsGathered, IsKnown, IsPatched, LeavesAsked, LeavesSided, OnlyGuards};
ghost use Rattle.guard_fill.specs.Guarding.{HasMesh, LeavesGuardedOf, OnlyGuardsOf};
ghost use Rattle.guard_fill.specs.Restricting.{FieldOf, IsGroupOf, IsReady, NodesHoldOf};
ghost use Rattle.guard_fill.specs.Strips.{AreWithin, IsPatch, block_of};
ghost use Rattle.mesh_model.specs.declared.fields.values.Var.TheVariants.{Cell};
ghost use Rattle.mesh_model.specs.Fields.ArrayPlaces.{IsSize, cell_extents, size_of};
ghost use Rattle.mesh_model.specs.Fields.Ranks.{IsFit, OnlyOf};
ghost use Rattle.mesh_model.specs.Geometry.Blocks.{InDomain, parent_block};
ghost use Rattle.mesh_model.specs.Geometry.Limits.{IsShape};
ghost use Rattle.mesh_model.specs.Tree.Kinds.{is_leaf_block};
ghost use Rattle.rank_world.specs.Holding.{IsLeafNode, NodesHold, cell_array};
ghost use Rattle.std.specs.Prelude.{◌≡◌, ◌*◌, ◌^◌, ◌<◌, ℤ, length, true};

use crate::copying::{copy_strip, part_strip};
use crate::guarding::{fill_edges_of, fill_faces_of};
use crate::restricting::MOST_PLACES;
use crate::strips::{Patch, strip_on};
use amr_num::{Axis, BlockAt};
use mesh_model::{Group, Shape, Var};
use rank_world::World;

/// The direction of a block's own cells.
const OWN_CELLS: usize = 13;

/// Which guard cells are filled.
#[derive(Clone, Copy)]
enum Guards {
    /// All of them.
    All,
    /// Those that lie straight across a side of a block.
    AcrossSides,
}

/// Whether the guard cells in a direction are filled.
#[tactic(auto, unfolding(crate::specs::Filling::is_straight))]
fn is_asked(guards: Guards, direction: usize) -> bool
    ensures { result ≡ asked.is_asked guards direction }
{
    match guards {
        Guards::All => true,
        Guards::AcrossSides => {
            let x = direction % 3 == 1;
            let y = direction / 3 % 3 == 1;
            let z = direction / 9 == 1;
            (x && y) || ((x && z) || (y && z))
        }
    }
}

/// The places of a block's array in one of the 27 directions.
fn patch_of(n: usize, g: usize, shape: &Shape, block: BlockAt, direction: usize) -> Patch
    requires size { IsSize n g }
    requires shape { IsShape shape.now }
    requires block { InDomain shape.now block }
    requires direction { direction < 27 }
    ensures { IsPatch n g shape.now block direction result }
{
    Patch {
        x: strip_on(n, g, false, shape, Axis::X, block, direction % 3),
        y: strip_on(n, g, false, shape, Axis::Y, block, direction / 3 % 3),
        z: strip_on(n, g, false, shape, Axis::Z, block, direction / 9),
    }
}

/// Sets a patch to its parts of the leaf of which the block of `level` is a child whose cells it has.
fn part_patch<const N: usize, const G: usize>(
    world: &World<N, G>,
    v: u32,
    block: BlockAt,
    patch: Patch,
    room: &mut [i64],
)
    requires ready { IsReady N G world.now (Cell v) }
    requires within { AreWithin N G patch }
    requires block { block ≡ block_of block.level patch }
    requires parent { (0 < block.level) × (is_leaf_block world.now.told.grid (parent_block block) ≡ true) }
    requires room { length room.old ≡ size_of (cell_extents N G) }
    ensures { IsPatched N G world.now v block.level patch room.old room.new }
{
    let octant = block.x % 2 + 2 * (block.y % 2) + 4 * (block.z % 2);
    let parent = BlockAt {
        level: block.level - 1,
        x: block.x / 2,
        y: block.y / 2,
        z: block.z / 2,
    };
    match world.tree().leaf_at(parent) {
        Some(leaf) => {
            let values = world.values(Var::Cell(v), leaf);
            part_strip(N, G, octant as usize, patch, values, room);
        }
        None => unreachable!(),
    }
}

/// Sets a patch to the views of the cells of `level` from which it has its numbers.
fn read_patch<const N: usize, const G: usize>(
    world: &World<N, G>,
    v: u32,
    level: u32,
    patch: Patch,
    room: &mut [i64],
)
    requires ready { IsReady N G world.now (Cell v) }
    requires within { AreWithin N G patch }
    requires known { IsKnown world.now.told.grid (block_of level patch) }
    requires room { length room.old ≡ size_of (cell_extents N G) }
    ensures { IsPatched N G world.now v level patch room.old room.new }
{
    let block = BlockAt {
        level,
        x: patch.x.block,
        y: patch.y.block,
        z: patch.z.block,
    };
    match world.tree().node_at(block) {
        Some(node) => {
            let values = world.values(Var::Cell(v), node);
            copy_strip(N, G, patch, values, room);
        }
        None => part_patch(world, v, block, patch, room),
    }
}

/// Sets the places of a leaf's array in one direction to the views that belong there.
fn fill_direction<const N: usize, const G: usize>(
    world: &World<N, G>,
    v: u32,
    block: BlockAt,
    direction: usize,
    room: &mut [i64],
)
    requires ready { IsReady N G world.now (Cell v) }
    requires leaf { is_leaf_block world.now.told.grid block ≡ true }
    requires direction { direction < 27 }
    requires room { length room.old ≡ size_of (cell_extents N G) }
    ensures { IsFilled N G world.now v block direction room.old room.new }
{
    let shape = world.tree().shape();
    let patch = patch_of(N, G, &shape, block, direction);
    read_patch(world, v, block.level, patch, room);
}

/// The same where the direction is asked for.
fn fill_asked<const N: usize, const G: usize>(
    world: &World<N, G>,
    v: u32,
    block: BlockAt,
    guards: Guards,
    direction: usize,
    room: &mut [i64],
)
    requires ready { IsReady N G world.now (Cell v) }
    requires leaf { is_leaf_block world.now.told.grid block ≡ true }
    requires direction { direction < 27 }
    requires room { length room.old ≡ size_of (cell_extents N G) }
    ensures size { length room.new ≡ length room.old }
    ensures filled { IsFilledAsked N G guards world.now v block direction room.old room.new }
{
    if is_asked(guards, direction) {
        fill_direction(world, v, block, direction, room);
    }
}

/// Gathers the numbers of a leaf's array, its guard cells' among them.
fn gather<const N: usize, const G: usize>(
    world: &World<N, G>,
    v: u32,
    node: u32,
    guards: Guards,
    room: &mut [i64],
)
    requires ready { IsReady N G world.now (Cell v) }
    requires leaf { IsLeafNode world.now.told.grid node }
    requires room { length room.old ≡ size_of (cell_extents N G) }
    ensures { IsGathered N G guards world.now v node room.new }
{
    let block = world.tree().at(node);
    room.copy_from_slice(world.values(Var::Cell(v), node));
    for direction in 0..27 {
        if direction != OWN_CELLS {
            fill_asked(world, v, block, guards, direction, room);
        }
    }
}

/// Writes the guard cells of a leaf.
fn fill_leaf<const N: usize, const G: usize>(
    world: &mut World<N, G>,
    v: u32,
    node: u32,
    guards: Guards,
    room: &mut [i64],
)
    requires ready { IsReady N G world.old (Cell v) }
    requires leaf { IsLeafNode world.old.told.grid node }
    requires room { length room.old ≡ size_of (cell_extents N G) }
    ensures only { OnlyOf world.old world.new 0 (Cell v) node }
    ensures fit { IsFit N G world.new }
    ensures gathered { IsGathered N G guards world.old v node (cell_array world.new v node) }
{
    gather(world, v, node, guards, room);
    world.values_mut(Var::Cell(v), node).copy_from_slice(room);
}

/// Writes the guard cells of all leaves.
fn fill_variable<const N: usize, const G: usize>(
    world: &mut World<N, G>,
    v: u32,
    guards: Guards,
    room: &mut [i64],
)
    requires ready { IsReady N G world.old (Cell v) }
    requires room { length room.old ≡ size_of (cell_extents N G) }
    ensures only { OnlyGuards world.old world.new v }
    ensures fit { IsFit N G world.new }
    ensures guards { (content : CellAt → ℤ) → NodesHold world.old v content → LeavesAsked guards world.new v content }
{
    for node in 0..world.tree().len() {
        if world.tree().is_leaf(node) {
            fill_leaf(world, v, node, guards, room);
        }
    }
}

/// Writes the guard cells of a cell variable into all leaves.
fn fill_cells_of<const N: usize, const G: usize>(world: &mut World<N, G>, v: u32, guards: Guards)
    requires fit { IsFit N G world.old }
    requires variable { v < world.old.told.counts.cells }
    ensures only { OnlyGuards world.old world.new v }
    ensures fit { IsFit N G world.new }
    ensures guards { (content : CellAt → ℤ) → NodesHold world.old v content → LeavesAsked guards world.new v content }
{
    let _shape = world.tree().shape();
    let side = N + 2 * G;
    let mut room = [0i64; MOST_PLACES];
    fill_variable(world, v, guards, &mut room[..side * (side * side)]);
}

/// Writes the guard places of a variable into all leaves: each has the view at its coordinate, wrapped on a periodic axis
/// and clamped on another, on the faces and edges of its sides too. The nodes above the leaves must hold their sums, as
/// `restrict_all` leaves them. All else of the world stays.
pub fn fill<const N: usize, const G: usize>(world: &mut World<N, G>, group: Group)
    requires fit { IsFit N G world.old }
    requires group { IsGroupOf world.old.told.counts group }
    requires mesh { HasMesh group world.old }
    ensures only { OnlyGuardsOf group world.old world.new }
    ensures fit { IsFit N G world.new }
    ensures guards { (field : FieldOf group) → NodesHoldOf world.old group field → LeavesGuardedOf world.new group field }
{
    match group {
        Group::Cell(v) => fill_cells_of(world, v, Guards::All),
        Group::Face => fill_faces_of(world),
        Group::Edge => fill_edges_of(world),
    }
}

/// Writes those guard cells of a cell variable that lie straight across a side of a block into all leaves, as `fill` does:
/// a step reads no others. What the guard cells at edges and corners hold is not said. All else of the world stays.
pub fn fill_sides<const N: usize, const G: usize>(world: &mut World<N, G>, v: u32)
    requires fit { IsFit N G world.old }
    requires variable { v < world.old.told.counts.cells }
    ensures only { OnlyGuards world.old world.new v }
    ensures fit { IsFit N G world.new }
    ensures guards { (content : CellAt → ℤ) → NodesHold world.old v content → LeavesSided world.new v content }
{
    fill_cells_of(world, v, Guards::AcrossSides);
}
