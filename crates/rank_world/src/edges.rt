//! The leaf edges of leaves.

ghost use Rattle.amr_num.specs.declared.EdgeAt.{EdgeAt as Edges};
ghost use Rattle.block_tree.specs.Directions as directions;
ghost use Rattle.block_tree.specs.Directions.{AreParts};
ghost use Rattle.block_tree.specs.Numbered.{block_at};
ghost use Rattle.mesh_model.specs.Fields.Ranks.{IsFit};
ghost use Rattle.mesh_model.specs.Geometry.Canonical as canonical;
ghost use Rattle.mesh_model.specs.Geometry.Limits.{IsShape};
ghost use Rattle.rank_world.specs.EdgeRange as above;
ghost use Rattle.rank_world.specs.EdgeRange.{HasEdges, HasEdgesOn, told_edge};
ghost use Rattle.rank_world.specs.Holding.{IsLeafNode};
ghost use Rattle.std.specs.Prelude.{◌≡◌, ◌<◌, ◌≤◌, ℤ, false};

use crate::naming::numbers_of;
use crate::world::World;
use amr_num::{Axis, BlockAt, CellAt, EdgeAt};
use block_store::{Above, CountedEdges, edges_above};
use block_tree::finer_parts;
use mesh_model::geometry::axes::after;
use mesh_model::{Shape, Var, canonical_face};

/// A number on a leaf edge that is out of range, and the edge by its canonical name.
#[derive(Clone, Copy, Debug, PartialEq, Eq)]
pub struct EdgeAbove {
    /// The edge.
    pub edge: EdgeAt,
    /// The number.
    pub value: i64,
}

/// Three numbers with the canonical position on an axis.
fn canonical_on(shape: &Shape, axis: Axis, c: CellAt) -> CellAt
    requires shape { IsShape shape.now }
    requires level { c.level ≤ 10 }
    ensures value { result ≡ canonical.canonical_on shape.now axis c }
    ensures level { result.level ≡ c.level }
{
    let named = canonical_face(shape, axis, c);
    CellAt {
        level: named.level,
        x: named.x,
        y: named.y,
        z: named.z,
    }
}

/// The canonical name of a block's edge along an axis at a place.
fn name_of(shape: &Shape, block: BlockAt, axis: Axis, found: Above) -> EdgeAt
    requires shape { IsShape shape.now }
    requires level { block.level ≤ 10 }
    requires block { (block.x < 8192) × (block.y < 8192) × (block.z < 8192) }
    requires place { (found.i ≤ shape.now.n) × (found.j ≤ shape.now.n) × (found.k ≤ shape.now.n) }
    ensures { result ≡ directions.edge_name shape.now axis block found.i found.j found.k }
{
    let next = after(axis);
    let numbers = numbers_of(shape, block, found);
    let named = canonical_on(shape, next, canonical_on(shape, after(next), numbers));
    EdgeAt {
        axis,
        level: named.level,
        x: named.x,
        y: named.y,
        z: named.z,
    }
}

/// What is told of a number out of range among a block's edges along an axis: the edge by its canonical name.
fn edge_told(shape: &Shape, block: BlockAt, axis: Axis, found: Above) -> EdgeAbove
    requires shape { IsShape shape.now }
    requires level { block.level ≤ 10 }
    requires block { (block.x < 8192) × (block.y < 8192) × (block.z < 8192) }
    requires place { (found.i ≤ shape.now.n) × (found.j ≤ shape.now.n) × (found.k ≤ shape.now.n) }
    ensures { result ≡ told_edge shape.now block axis found }
{
    EdgeAbove {
        edge: name_of(shape, block, axis, found),
        value: found.value,
    }
}

/// The first leaf edge of a leaf along an axis whose number is out of range, where the parts of the leaf's boundary are known
/// round whose edges finer leaves stand.
fn axis_above<const N: usize, const G: usize>(
    world: &World<N, G>,
    axis: Axis,
    node: u32,
    finer: u32,
) -> Option<EdgeAbove>
    requires fit { IsFit N G world.now }
    requires declared { 0 < world.now.told.counts.edges }
    requires leaf { IsLeafNode world.now.told.grid node }
    requires finer { AreParts world.now.told.grid false (block_at world.now.told.grid node) 27 finer }
    ensures { (field : Edges → ℤ) → HasEdgesOn world.now field node axis → result ≡ above.axis_above world.now.told.grid field (block_at world.now.told.grid node) axis }
{
    let tree = world.tree();
    let shape = tree.shape();
    let block = tree.at(node);
    let edges = CountedEdges {
        axis,
        left_out: finer,
    };
    match edges_above(N, G, world.values(Var::Edge(axis), node), edges) {
        None => None,
        Some(found) => Some(edge_told(&shape, block, axis, found)),
    }
}

/// The first leaf edge of a leaf whose number is out of range, with that number: first those along x, then y, then z, and
/// among these x goes fastest, then y, then z. Of a leaf that is its own neighbour all copies of an edge on its sides have to
/// agree.
pub fn first_edge_above<const N: usize, const G: usize>(
    world: &World<N, G>,
    node: u32,
) -> Option<EdgeAbove>
    requires fit { IsFit N G world.now }
    requires declared { 0 < world.now.told.counts.edges }
    requires leaf { IsLeafNode world.now.told.grid node }
    ensures { (field : Edges → ℤ) → HasEdges world.now field node → result ≡ above.first_above world.now.told.grid field (block_at world.now.told.grid node) }
{
    let tree = world.tree();
    let finer = finer_parts(tree, tree.at(node));
    let on_x = axis_above(world, Axis::X, node, finer);
    if on_x.is_some() {
        return on_x;
    }
    let on_y = axis_above(world, Axis::Y, node, finer);
    if on_y.is_some() {
        return on_y;
    }
    axis_above(world, Axis::Z, node, finer)
}
