//! The edges that a child of a leaf would have.

ghost use Rattle.amr_num.specs.declared.Axis.{Axis as Axes};
ghost use Rattle.amr_num.specs.declared.Axis.TheVariants.{X, Y, Z};
ghost use Rattle.amr_num.specs.declared.EdgeAt.{EdgeAt};
ghost use Rattle.block_store.specs.Regions.{box_of};
ghost use Rattle.block_tree.specs.Directions.{AreParts, IsRound, direction_of};
ghost use Rattle.block_tree.specs.Numbered.{block_at};
ghost use Rattle.leaf_split.specs.EdgeKeeps as keeps;
ghost use Rattle.leaf_split.specs.EdgeKeeps.{AreSteps, IsKeptPart, IsPartCopied, IsToPart, KeptPartsHold, OtherEdgesStay, OtherPartsStay, PartHolds, part_at, part_box, part_there};
ghost use Rattle.mesh_model.specs.Geometry.Blocks.{InDomain, child_block};
ghost use Rattle.mesh_model.specs.Fields.ArrayPlaces.{HoldsEdges, IsSize, edge_extents, size_of};
ghost use Rattle.mesh_model.specs.Fields.FaceSplits.{by_axis};
ghost use Rattle.mesh_model.specs.Fields.FinePlaces.{edges_in};
ghost use Rattle.mesh_model.specs.Fields.Ranks.{IsFit};
ghost use Rattle.rank_world.specs.Holding.{IsLeafNode, IsOfValidMesh, LeavesHoldEdges};
ghost use Rattle.std.specs.Prelude.{◌≡◌, ◌<◌, ◌≤◌, ℤ, false, length, true};

use amr_num::{Axis, BlockAt};
use block_store::{Extents, PlaceAt, Region, copy_region};
use block_tree::{Direction, Round, direction_at, direction_bit, node_round};
use mesh_model::Var;
use prolong_op::split_edges;
use rank_world::World;

/// The step of a direction on an axis.
fn step_on(axis: Axis, toward: Direction) -> u32
    ensures { result ≡ keeps.step_on axis toward }
{
    match axis {
        Axis::X => toward.x,
        Axis::Y => toward.y,
        Axis::Z => toward.z,
    }
}

/// The first position on an axis of the edges on a part of a block's boundary, by the step to that part on the axis, along
/// which the edges lie or not.
fn first_on(n: usize, along: bool, step: u32) -> usize
    requires { n ≤ 8 }
    ensures value { result ≡ keeps.first_on n along step }
    ensures few { result ≤ 8 }
{
    match step {
        0 => 0,
        1 => { if along { 0 } else { 1 } }
        _ => n,
    }
}

/// How many positions they have there.
fn count_on(n: usize, along: bool, step: u32) -> usize
    requires { (0 < n) × (n ≤ 8) }
    ensures { result ≡ keeps.count_on n along step }
{
    match step {
        1 => { if along { n } else { n - 1 } }
        _ => 1,
    }
}

/// The same position in the block that lies one step away on the axis.
fn there_on(n: usize, step: u32, first: usize) -> usize
    requires { (n ≤ 8) × (first ≤ 8) }
    ensures value { result ≡ keeps.there_on n step first }
    ensures few { result ≤ 8 }
{
    match step {
        0 => n,
        1 => first,
        _ => 0,
    }
}

/// The place of the first edge along an axis on a part of a block's boundary in the block's array.
fn part_place(n: usize, g: usize, axis: Axis, part: Direction) -> PlaceAt
    requires { (g ≤ 4) × (n ≤ 8) }
    ensures { result ≡ part_at n g axis part }
{
    PlaceAt {
        x: g + first_on(n, axis == Axis::X, part.x),
        y: g + first_on(n, axis == Axis::Y, part.y),
        z: g + first_on(n, axis == Axis::Z, part.z),
    }
}

/// The edges along an axis on a part of a block's boundary in the block's array.
fn part_region(n: usize, g: usize, axis: Axis, part: Direction) -> Region
    requires { (g ≤ 4) × (0 < n) × (n ≤ 8) }
    ensures { box_of result ≡ part_box n g axis part }
{
    Region {
        at: part_place(n, g, axis, part),
        along_x: count_on(n, axis == Axis::X, part.x),
        along_y: count_on(n, axis == Axis::Y, part.y),
        along_z: count_on(n, axis == Axis::Z, part.z),
    }
}

/// The place of the first of them in the array of the block that lies in a direction.
fn place_there(n: usize, g: usize, axis: Axis, part: Direction, toward: Direction) -> PlaceAt
    requires { (g ≤ 4) × (n ≤ 8) }
    ensures { result ≡ part_there n g axis part toward }
{
    PlaceAt {
        x: g + there_on(n, toward.x, first_on(n, axis == Axis::X, part.x)),
        y: g + there_on(n, toward.y, first_on(n, axis == Axis::Y, part.y)),
        z: g + there_on(n, toward.z, first_on(n, axis == Axis::Z, part.z)),
    }
}

/// Copies the edges along an axis on a part of a block's boundary from the array of the block that lies in a direction.
fn copy_part(
    n: usize,
    g: usize,
    axis: Axis,
    part: Direction,
    toward: Direction,
    from: &[i64],
    to: &mut [i64],
)
    requires size { IsSize n g }
    requires steps { AreSteps part }
    requires near { IsToPart part toward }
    requires from { length from.now ≡ size_of (edge_extents n g axis) }
    requires to { length to.old ≡ size_of (edge_extents n g axis) }
    ensures { IsPartCopied n g axis part toward from.now to.old to.new }
{
    copy_region(
        Extents::of_edges(n, g, axis),
        from,
        place_there(n, g, axis, part, toward),
        to,
        part_region(n, g, axis, part),
    );
}

/// Copies the edges along an axis on a part of a block's boundary from a leaf of the block's level round them.
fn keep_axis<const N: usize, const G: usize>(
    world: &World<N, G>,
    axis: Axis,
    part: Direction,
    round: Round,
    block: BlockAt,
    to: &mut [i64],
)
    requires fit { IsFit N G world.now }
    requires declared { 0 < world.now.told.counts.edges }
    requires block { InDomain world.now.told.grid.shape block }
    requires steps { AreSteps part }
    requires round { IsRound world.now.told.grid true block part round }
    requires to { length to.old ≡ size_of (edge_extents N G axis) }
    ensures size { length to.new ≡ length to.old }
    ensures views { (field : EdgeAt → ℤ) → LeavesHoldEdges false world.now field → PartHolds world.now.told.grid field axis block part (edges_in world.now.told.grid axis to.new) }
    ensures others { OtherEdgesStay world.now.told.grid axis part to.old to.new }
{
    if step_on(axis, part) != 1 {
        return;
    }
    let values = world.values(Var::Edge(axis), round.node);
    copy_part(N, G, axis, part, round.toward, values, to);
}

/// Copies the edges on the part of a block's boundary in the direction with a number, where a leaf of the block's level lies
/// round them.
fn keep_part<const N: usize, const G: usize>(
    world: &World<N, G>,
    number: u32,
    block: BlockAt,
    cx: &mut [i64],
    cy: &mut [i64],
    cz: &mut [i64],
) -> bool
    requires fit { IsFit N G world.now }
    requires declared { 0 < world.now.told.counts.edges }
    requires block { InDomain world.now.told.grid.shape block }
    requires cx { length cx.old ≡ size_of (edge_extents N G X) }
    requires cy { length cy.old ≡ size_of (edge_extents N G Y) }
    requires cz { length cz.old ≡ size_of (edge_extents N G Z) }
    ensures cx { length cx.new ≡ length cx.old }
    ensures cy { length cy.new ≡ length cy.old }
    ensures cz { length cz.new ≡ length cz.old }
    ensures part { IsKeptPart world.now block (direction_of number) result (by_axis cx.new cy.new cz.new) }
    ensures others { OtherPartsStay world.now.told.grid (direction_of number) (by_axis cx.old cy.old cz.old) (by_axis cx.new cy.new cz.new) }
{
    let part = direction_at(number);
    match node_round(world.tree(), true, part, block) {
        None => false,
        Some(round) => {
            keep_axis(world, Axis::X, part, round, block, cx);
            keep_axis(world, Axis::Y, part, round, block, cy);
            keep_axis(world, Axis::Z, part, round, block, cz);
            true
        }
    }
}

/// All parts of the boundary: the bit of each that is kept.
fn keep_parts<const N: usize, const G: usize>(
    world: &World<N, G>,
    block: BlockAt,
    cx: &mut [i64],
    cy: &mut [i64],
    cz: &mut [i64],
) -> u32
    requires fit { IsFit N G world.now }
    requires declared { 0 < world.now.told.counts.edges }
    requires block { InDomain world.now.told.grid.shape block }
    requires cx { length cx.old ≡ size_of (edge_extents N G X) }
    requires cy { length cy.old ≡ size_of (edge_extents N G Y) }
    requires cz { length cz.old ≡ size_of (edge_extents N G Z) }
    ensures cx { length cx.new ≡ length cx.old }
    ensures cy { length cy.new ≡ length cy.old }
    ensures cz { length cz.new ≡ length cz.old }
    ensures parts { AreParts world.now.told.grid true block 27 result }
    ensures views { KeptPartsHold world.now block 27 (by_axis cx.new cy.new cz.new) }
{
    let mut kept = 0;
    for number in 0..27 {
        let stands = keep_part(world, number, block, cx, cy, cz);
        kept += direction_bit(stands, number);
    }
    kept
}

/// Makes the edges of a child of a leaf, as if the leaf were refined, in arrays of their own: halves of the leaf's edges and
/// between them floored means. Where leaves of the child's level lie round an edge, it has their number. So it holds the
/// views at its coordinates, whatever its arrays had before; guards may have anything afterwards. `block` is the child,
/// whose octant in its parent is i + 2 j + 4 k for the halves i on x, j on y and k on z.
pub fn child_edges<const N: usize, const G: usize>(
    world: &World<N, G>,
    parent: u32,
    octant: u32,
    block: BlockAt,
    cx: &mut [i64],
    cy: &mut [i64],
    cz: &mut [i64],
)
    requires fit { IsFit N G world.now }
    requires declared { 0 < world.now.told.counts.edges }
    requires mesh { IsOfValidMesh world.now }
    requires parent { IsLeafNode world.now.told.grid parent }
    requires octant { octant < 8 }
    requires child { child_block (block_at world.now.told.grid parent) octant ≡ block }
    requires block { InDomain world.now.told.grid.shape block }
    requires cx { length cx.old ≡ size_of (edge_extents N G X) }
    requires cy { length cy.old ≡ size_of (edge_extents N G Y) }
    requires cz { length cz.old ≡ size_of (edge_extents N G Z) }
    ensures cx { length cx.new ≡ length cx.old }
    ensures cy { length cy.new ≡ length cy.old }
    ensures cz { length cz.new ≡ length cz.old }
    ensures views { let g = world.now.told.grid in (field : EdgeAt → ℤ) → LeavesHoldEdges false world.now field
        → (a : Axes) → HoldsEdges g field a block (edges_in g a (by_axis cx.new cy.new cz.new a)) }
{
    let kept = keep_parts(world, block, cx, cy, cz);
    let px = world.values(Var::Edge(Axis::X), parent);
    let py = world.values(Var::Edge(Axis::Y), parent);
    let pz = world.values(Var::Edge(Axis::Z), parent);
    split_edges::<N, G>(octant, kept, px, py, pz, cx, cy, cz);
}
