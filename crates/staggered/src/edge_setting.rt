//! Single edges that are set.

ghost use Rattle.amr_num.specs.Numbers.{at};
ghost use Rattle.amr_num.specs.declared.Axis.TheVariants.{X, Y, Z};
ghost use Rattle.amr_num.specs.declared.EdgeAt.{EdgeAt as Edges};
ghost use Rattle.block_tree.specs.Directions.{edge_name};
ghost use Rattle.block_tree.specs.GridOf.{grid_of};
ghost use Rattle.block_tree.specs.Numbered.{IsNode, block_at};
ghost use Rattle.mesh_model.specs.Fields.ArrayPlaces.{IsRowWritten, IsSize, edge_extents, row_of, size_of};
ghost use Rattle.mesh_model.specs.Fields.EdgeSplits.{edge_box};
ghost use Rattle.mesh_model.specs.Fields.Ranks.{IsFit, OnlyOf};
ghost use Rattle.mesh_model.specs.Geometry.Canonical as canonical;
ghost use Rattle.mesh_model.specs.Geometry.Canonical.{canonical_on};
ghost use Rattle.mesh_model.specs.Geometry.Coordinates as coordinates;
ghost use Rattle.mesh_model.specs.Geometry.Coordinates.{edge_of, is_same_edge, next};
ghost use Rattle.mesh_model.specs.Geometry.Limits.{IsShape};
ghost use Rattle.mesh_model.specs.Geometry.Places.{in_block, longer_across};
ghost use Rattle.mesh_model.specs.Tree.Kinds as kinds;
ghost use Rattle.mesh_model.specs.declared.fields.values.Var.TheVariants.{Edge};
ghost use Rattle.rank_world.specs.Holding.{LeafEdgesHold, LeavesHoldEdges, OnlyAxes, edge_array};
ghost use Rattle.staggered.specs.Blocks.{IsSmallBlock};
ghost use Rattle.staggered.specs.EdgeSetting as setting;
ghost use Rattle.staggered.specs.EdgeSetting.{AreEdgesSet, HasEdges, IsEdgeSet, IsNodeSet, edges_set, set_or, with_edge};
ghost use Rattle.std.specs.Prelude.{◌≡◌, ℕ, ◌+◌, ◌*◌, ◌/◌, ◌%◌, ◌<◌, ◌≤◌, ◌&&◌, ℤ, true, false, OnOk, IfErr, length};

use crate::setting::{is_leaf_cell, is_split_cell};
use amr_num::{Axis, BlockAt, CellAt, EdgeAt};
use block_store::{Extents, place};
use block_tree::Tree;
use mesh_model::geometry::axes::{after, block_on, extent, is_periodic, place as coordinate};
use mesh_model::{Shape, Var, around_edge, canonical_face};
use rank_world::World;

/// There is no such leaf edge.
#[derive(Clone, Copy, Debug, PartialEq, Eq)]
pub struct NoEdge;

/// An edge, and the number that it gets.
#[derive(Clone, Copy)]
struct Target {
    edge: EdgeAt,
    value: i64,
}

/// A row of a block's edges along an axis, by its places on y and z.
#[derive(Clone, Copy)]
struct Row {
    block: BlockAt,
    axis: Axis,
    j: usize,
    k: usize,
}

/// A block and its array of edges: `n` cells along each axis, and `g` guard cells on each side.
#[derive(Clone, Copy)]
struct BlockArray {
    n: usize,
    g: usize,
    block: BlockAt,
}

/// The three numbers of an edge.
fn numbers(e: EdgeAt) -> CellAt
    ensures { result ≡ coordinates.edge_numbers e }
{
    CellAt {
        level: e.level,
        x: e.x,
        y: e.y,
        z: e.z,
    }
}

/// Whether a position on an axis of a level is one by which faces and edges are named.
#[tactic(auto, unfolding(mesh_model::specs::Geometry::Canonical::is_canonical_at))]
fn is_canonical_on(shape: &Shape, axis: Axis, e: EdgeAt) -> bool
    requires shape { IsShape shape.now }
    requires level { e.level ≤ 10 }
    ensures { result ≡ canonical.is_canonical_at shape.now axis e.level (coordinates.on axis (coordinates.edge_numbers e)) }
{
    !is_periodic(shape, axis) || coordinate(axis, numbers(e)) < extent(shape, axis, e.level)
}

/// Whether an edge is named by its canonical name.
fn is_canonical(shape: &Shape, e: EdgeAt) -> bool
    requires shape { IsShape shape.now }
    requires level { e.level ≤ 10 }
    ensures { result ≡ canonical.is_canonical_edge shape.now e }
{
    let b = after(e.axis);
    let on_first = is_canonical_on(shape, b, e);
    let on_second = is_canonical_on(shape, after(b), e);
    on_first && on_second
}

/// Whether it is a leaf edge: a cell round it is a leaf cell, and none is split.
#[tactic(auto, unfolding(mesh_model::specs::Tree::Kinds::is_leaf_edge, mesh_model::specs::Tree::Kinds::is_split_edge))]
fn is_leaf_edge(tree: &Tree, e: EdgeAt) -> bool
    requires { e.level ≤ 10 }
    ensures { result ≡ kinds.is_leaf_edge (grid_of tree.now) e }
{
    let round = around_edge(&tree.shape(), e);
    let leaf_low = is_leaf_cell(tree, round[0]) || is_leaf_cell(tree, round[1]);
    let leaf_high = is_leaf_cell(tree, round[2]) || is_leaf_cell(tree, round[3]);
    let split_low = is_split_cell(tree, round[0]) || is_split_cell(tree, round[1]);
    let split_high = is_split_cell(tree, round[2]) || is_split_cell(tree, round[3]);
    (leaf_low || leaf_high) && !(split_low || split_high)
}

/// Whether an edge is a leaf edge and has its canonical name, wherever it lies.
fn can_be_set(tree: &Tree, e: EdgeAt) -> bool
    ensures value { result ≡ (canonical.is_canonical_edge (grid_of tree.now).shape e && kinds.is_leaf_edge (grid_of tree.now) e) }
    ensures level { result ≡ true → e.level ≤ 10 }
{
    if e.level > 10 {
        return false;
    }
    let canonical = is_canonical(&tree.shape(), e);
    let leaf = is_leaf_edge(tree, e);
    canonical && leaf
}

/// The canonical name of the edge along an axis that has these three numbers: its positions on the two other axes, which
/// on a periodic axis are 0 at the far end too, and its cell coordinate on its own.
fn canonical_edge(shape: &Shape, axis: Axis, c: CellAt) -> EdgeAt
    requires shape { IsShape shape.now }
    requires level { c.level ≤ 10 }
    ensures { result ≡ edge_of axis (canonical_on shape.now (next axis) (canonical_on shape.now (next (next axis)) c)) }
{
    let b = after(axis);
    let second = canonical_face(shape, after(b), c);
    let named = CellAt {
        level: second.level,
        x: second.x,
        y: second.y,
        z: second.z,
    };
    let both = canonical_face(shape, b, named);
    EdgeAt {
        axis,
        level: both.level,
        x: both.x,
        y: both.y,
        z: both.z,
    }
}

/// The coordinate on an axis of a block's place.
fn coordinate_of(n: u32, block: u32, i: usize) -> u32
    requires size { n ≤ 8 }
    requires block { block < 8192 }
    requires place { i ≤ n }
    ensures { result ≡ n * block + i }
{
    n * block + i as u32
}

/// The canonical name of a block's edge along an axis, by its place.
fn name_of(shape: &Shape, block: BlockAt, axis: Axis, i: usize, j: usize, k: usize) -> EdgeAt
    requires shape { IsShape shape.now }
    requires block { IsSmallBlock block }
    requires place { (i ≤ shape.now.n) × (j ≤ shape.now.n) × (k ≤ shape.now.n) }
    ensures { result ≡ edge_name shape.now axis block i j k }
{
    let numbers = CellAt {
        level: block.level,
        x: coordinate_of(shape.n, block.x, i),
        y: coordinate_of(shape.n, block.y, j),
        z: coordinate_of(shape.n, block.z, k),
    };
    canonical_edge(shape, axis, numbers)
}

/// Whether two edges are the same.
fn is_same(e: EdgeAt, other: EdgeAt) -> bool
    ensures { result ≡ is_same_edge e other }
{
    e.axis == other.axis
        && e.level == other.level
        && e.x == other.x
        && e.y == other.y
        && e.z == other.z
}

/// What an edge has after the target was set: the target's number where it is that edge, and else what it had.
fn number_of(target: &Target, edge: EdgeAt, old: i64) -> i64
    ensures { result ≡ set_or target.now.edge target.now.value edge old }
{
    if is_same(edge, target.edge) {
        target.value
    } else {
        old
    }
}

/// Sets the edge in a row of a block, where it stands in it.
fn set_in_row(shape: &Shape, row: Row, target: &Target, out: &mut [i64])
    requires shape { IsShape shape.now }
    requires block { IsSmallBlock row.block }
    requires inside { (row.j ≤ shape.now.n) × (row.k ≤ shape.now.n) }
    requires out { length out.old ≤ shape.now.n + 1 }
    ensures size { length out.new ≡ length out.old }
    ensures numbers { (t : ℕ) → t < length out.old →
        at out.new t ≡ set_or target.now.edge target.now.value (edge_name shape.now row.axis row.block t row.j row.k) (at out.old t) }
{
    for t in 0..out.len() {
        let name = name_of(shape, row.block, row.axis, t, row.j, row.k);
        out[t] = number_of(target, name, out[t]);
    }
}

/// Sets the edge in the `m`-th row of a block's edges along its axis.
fn set_row(shape: &Shape, array: BlockArray, target: &Target, m: usize, values: &mut [i64])
    requires shape { IsShape shape.now }
    requires size { IsSize array.n array.g }
    requires cells { shape.now.n ≡ array.n }
    requires block { IsSmallBlock array.block }
    requires row { let a = target.now.edge.axis in m < longer_across a Y array.n * longer_across a Z array.n }
    requires values { length values.old ≡ size_of (edge_extents array.n array.g target.now.edge.axis) }
    ensures { let n = array.n in let g = array.g in let a = target.now.edge.axis in let h = longer_across a Y n in
        IsRowWritten (row_of (edge_extents n g a) (edge_box n g a) m) (longer_across a X n)
        (λ t. edges_set n g shape.now a array.block target.now.edge target.now.value values.old t (m % h) (m / h)) values.old values.new }
{
    let BlockArray { n, g, block } = array;
    let axis = target.edge.axis;
    let many = Extents::of_block_edges(n, axis);
    let j = m % many.y;
    let k = m / many.y;
    let to = place(Extents::of_edges(n, g, axis), g, g + j, g + k);
    let row = Row { block, axis, j, k };
    set_in_row(shape, row, target, &mut values[to..to + many.x]);
}

/// Sets the edge in a block's array of edges along its axis, at each place where it stands.
fn set_rows(shape: &Shape, array: BlockArray, target: &Target, values: &mut [i64])
    requires shape { IsShape shape.now }
    requires size { IsSize array.n array.g }
    requires cells { shape.now.n ≡ array.n }
    requires block { IsSmallBlock array.block }
    requires values { length values.old ≡ size_of (edge_extents array.n array.g target.now.edge.axis) }
    ensures { AreEdgesSet array.n array.g shape.now target.now.edge.axis array.block target.now.edge target.now.value values.old values.new }
{
    let many = Extents::of_block_edges(array.n, target.edge.axis);
    for m in 0..many.y * many.z {
        set_row(shape, array, target, m, values);
    }
}

/// Sets the edge in a leaf.
fn set_leaf<const N: usize, const G: usize>(world: &mut World<N, G>, node: u32, target: &Target)
    requires leaf { HasEdges N G world.old node }
    ensures only { OnlyOf world.old world.new 0 (Edge target.now.edge.axis) node }
    ensures fit { IsFit N G world.new }
    ensures set { let g = world.old.told.grid in let a = target.now.edge.axis in
        AreEdgesSet N G g.shape a (block_at g node) target.now.edge target.now.value (edge_array false world.old a node) (edge_array false world.new a node) }
{
    let tree = world.tree();
    let shape = tree.shape();
    let array = BlockArray {
        n: N,
        g: G,
        block: tree.at(node),
    };
    let values = world.values_mut(Var::Edge(target.edge.axis), node);
    set_rows(&shape, array, target, values);
}

/// Whether an edge lies on a block's level, and along the axis where the block does: others do not have it.
fn is_beside(shape: &Shape, block: BlockAt, e: EdgeAt) -> bool
    requires { IsShape shape.now }
    ensures { result ≡ setting.is_beside shape.now.n block e }
{
    block.level == e.level && coordinate(e.axis, numbers(e)) / shape.n == block_on(e.axis, block)
}

/// Sets the edge in a node, where that is a leaf which may have it.
fn set_node<const N: usize, const G: usize>(world: &mut World<N, G>, node: u32, target: &Target)
    requires fit { IsFit N G world.old }
    requires declared { 0 < world.old.told.counts.edges }
    requires node { IsNode world.old.told.grid node }
    ensures only { OnlyOf world.old world.new 0 (Edge target.now.edge.axis) node }
    ensures fit { IsFit N G world.new }
    ensures set { let g = world.old.told.grid in kinds.is_leaf_block g (block_at g node) ≡ true
        → IsNodeSet g world.old world.new target.now.edge target.now.value node }
{
    let tree = world.tree();
    let shape = tree.shape();
    if tree.is_leaf(node) && is_beside(&shape, tree.at(node), target.edge) {
        set_leaf(world, node, target);
    }
}

/// Sets the edge in all leaves.
fn set_leaves<const N: usize, const G: usize>(world: &mut World<N, G>, target: &Target)
    requires fit { IsFit N G world.old }
    requires declared { 0 < world.old.told.counts.edges }
    ensures only { OnlyAxes Edge world.old world.new }
    ensures fit { IsFit N G world.new }
    ensures set { IsEdgeSet world.old world.new target.now.edge target.now.value }
{
    for node in 0..world.tree().len() {
        set_node(world, node, target);
    }
}

/// Sets a leaf edge, in each of the leaves of its level round it; one leaf may lie there more than once. The world stays
/// where there is no leaf edge of this canonical name.
pub fn set_edge<const N: usize, const G: usize>(
    world: &mut World<N, G>,
    at: EdgeAt,
    value: i64,
) -> Result<(), NoEdge>
    requires fit { IsFit N G world.old }
    requires declared { 0 < world.old.told.counts.edges }
    ensures only { OnlyAxes Edge world.old world.new }
    ensures fit { IsFit N G world.new }
    ensures there { let g = world.old.told.grid in OnOk result ((canonical.is_canonical_edge g.shape at && kinds.is_leaf_edge g at) ≡ true) }
    ensures set { OnOk result (IsEdgeSet world.old world.new at value) }
    ensures holds { OnOk result ((field : Edges → ℤ) → LeavesHoldEdges false world.old field → LeafEdgesHold false world.new (with_edge field at value)) }
    ensures refused { let g = world.old.told.grid in IfErr result (λ none. (canonical.is_canonical_edge g.shape at && kinds.is_leaf_edge g at) ≡ false) }
    ensures stays { IfErr result (λ none. world.new ≡ world.old) }
{
    if !can_be_set(world.tree(), at) {
        return Err(NoEdge);
    }
    set_leaves(world, &Target { edge: at, value });
    Ok(())
}
