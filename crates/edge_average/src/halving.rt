//! The edges of leaves round which finer leaves stand: in the arrays of the edge variable, or in the work edges.

ghost use Rattle.amr_num.specs.Numbers.{Within, at};
ghost use Rattle.amr_num.specs.declared.Axis.{Axis as Axes};
ghost use Rattle.amr_num.specs.declared.EdgeAt.{EdgeAt};
ghost use Rattle.block_tree.specs.Directions.{AreParts, IsRound};
ghost use Rattle.block_tree.specs.Numbered.{IsNode, block_at};
ghost use Rattle.edge_average.specs.EdgeArrays.{AreHalved, EdgesWithin, IsNear, IsTame, LineHolds, LineTaken, edge_stored};
ghost use Rattle.edge_average.specs.EdgeSums.{pair_at};
ghost use Rattle.edge_average.specs.Lines as lines;
ghost use Rattle.edge_average.specs.Lines.{edge_there, sum_of_halves};
ghost use Rattle.mesh_model.specs.Fields.ArrayPlaces.{IsRowWritten};
ghost use Rattle.mesh_model.specs.Fields.Arrays.{HasVar};
ghost use Rattle.mesh_model.specs.Fields.Ranks.{IsFit};
ghost use Rattle.mesh_model.specs.Geometry.Coordinates.{next};
ghost use Rattle.mesh_model.specs.Tree.Kinds.{is_leaf_block};
ghost use Rattle.rank_world.specs.Holding as holding;
ghost use Rattle.rank_world.specs.Holding.{IsLeafNode, LeafEdgesHold, LeavesHoldEdges, OnlyLeafAxes, edge_array};
ghost use Rattle.std.specs.Prelude.{◌≡◌, ◌+◌, ◌*◌, ◌/◌, ◌^◌, ◌<◌, ◌≤◌, ℕ, ℤ, false, length};

use crate::lines::{Line, line_beyond, line_within, octant_of, part_of, set_line, sum_line};
use amr_num::Axis;
use block_store::is_kept;
use block_tree::{direction_at, finer_parts, node_round};
use mesh_model::Var;
use rank_world::World;

/// The array of a block's edges along an axis: its work edges, or those of the edge variable.
pub(crate) fn edge_var(work: bool, axis: Axis) -> Var
    ensures { result ≡ holding.edge_var work axis }
{
    if work {
        Var::EdgeWork(axis)
    } else {
        Var::Edge(axis)
    }
}

/// Puts the sums of a finer leaf's edges on a line, in pairs, among some sums.
fn sum_child<const N: usize, const G: usize>(
    world: &World<N, G>,
    work: bool,
    child: u32,
    line: Line,
    from: usize,
    sums: &mut [i64],
)
    requires fit { IsFit N G world.now }
    requires declared { HasVar world.now.told.counts (holding.edge_var work line.axis) }
    requires child { IsNode world.now.told.grid child }
    requires line { (line.first ≤ N) × (line.second ≤ N) }
    requires small { (p : ℕ) → p < world.now.told.grid.shape.n → Within (2 ^ 56) (edge_stored work world.now line.axis child p line.first line.second) }
    requires room { from + N / 2 ≤ length sums.old }
    ensures row { IsRowWritten from (N / 2) (λ m. pair_at N G line.axis (edge_array work world.now line.axis child) m line.first line.second) sums.old sums.new }
    ensures within { (m : ℕ) → m < N / 2 → Within (2 ^ 58) (at sums.new (from + m)) }
{
    let values = world.values(edge_var(work, line.axis), child);
    sum_line(N, G, line, values, from, sums);
}

/// Sums the halves of the edges on a line of a block that is no leaf, from the finer leaves in it.
fn gather<const N: usize, const G: usize>(
    world: &World<N, G>,
    work: bool,
    finer: u32,
    line: Line,
    sums: &mut [i64],
)
    requires fit { IsFit N G world.now }
    requires declared { HasVar world.now.told.counts (holding.edge_var work line.axis) }
    requires node { IsNode world.now.told.grid finer }
    requires inner { is_leaf_block world.now.told.grid (block_at world.now.told.grid finer) ≡ false }
    requires line { (line.first ≤ N) × (line.second ≤ N) }
    requires near { IsNear world.now.told.grid line.axis (block_at world.now.told.grid finer) line.first line.second }
    requires tame { IsTame work world.now }
    requires room { N ≤ length sums.old }
    ensures sums { (field : EdgeAt → ℤ) → LeafEdgesHold work world.now field → (p : ℕ) → p < N
        → at sums.new p ≡ sum_of_halves field (edge_there world.now.told.grid.shape line.axis (block_at world.now.told.grid finer) p line.first line.second) }
    ensures within { (p : ℕ) → p < N → Within (2 ^ 58) (at sums.new p) }
{
    let tree = world.tree();
    let _shape = tree.shape();
    let inner = line_within(N, line);
    for half in 0..2 {
        match tree.child(finer, octant_of(N, line, half)) {
            Some(child) => sum_child(world, work, child, inner, N / 2 * half as usize, sums),
            None => unreachable!(),
        }
    }
}

/// Gives the edges on a line of a leaf the sums of their halves, from the finer leaves in a node round the line.
fn take_sums<const N: usize, const G: usize>(
    world: &mut World<N, G>,
    work: bool,
    node: u32,
    line: Line,
    finer: u32,
    there: Line,
)
    requires fit { IsFit N G world.old }
    requires declared { HasVar world.old.told.counts (holding.edge_var work line.axis) }
    requires leaf { IsLeafNode world.old.told.grid node }
    requires node { IsNode world.old.told.grid finer }
    requires inner { is_leaf_block world.old.told.grid (block_at world.old.told.grid finer) ≡ false }
    requires line { (line.first ≤ N) × (line.second ≤ N) }
    requires there { (there.first ≤ N) × (there.second ≤ N) }
    requires axis { there.axis ≡ line.axis }
    requires near { IsNear world.old.told.grid line.axis (block_at world.old.told.grid finer) there.first there.second }
    requires tame { IsTame work world.old }
    ensures { LineTaken work N G world.old world.new node line.axis line.first line.second (block_at world.old.told.grid finer) there.first there.second }
{
    let _shape = world.tree().shape();
    let mut sums = [0i64; 8];
    gather(world, work, finer, there, &mut sums);
    let values = world.values_mut(edge_var(work, line.axis), node);
    set_line(N, G, line, values, &sums);
}

/// Gives the edges on a line of a leaf these sums, where finer leaves stand round the line: on one of some parts of the
/// block's boundary.
fn agree_line<const N: usize, const G: usize>(
    world: &mut World<N, G>,
    work: bool,
    node: u32,
    parts: u32,
    line: Line,
)
    requires fit { IsFit N G world.old }
    requires declared { HasVar world.old.told.counts (holding.edge_var work line.axis) }
    requires leaf { IsLeafNode world.old.told.grid node }
    requires parts { AreParts world.old.told.grid false (block_at world.old.told.grid node) 27 parts }
    requires line { (line.first ≤ N) × (line.second ≤ N) }
    requires tame { IsTame work world.old }
    ensures halved { AreHalved work N G world.old world.new }
    ensures line { (field : EdgeAt → ℤ) → LeafEdgesHold work world.old field → LineHolds work world.new field node line.axis line.first line.second }
{
    let tree = world.tree();
    let part = part_of(N, line);
    if !is_kept(parts, part) {
        return;
    }
    match node_round(tree, false, direction_at(part), tree.at(node)) {
        Some(round) => {
            let there = line_beyond(N, round.toward, line);
            take_sums(world, work, node, line, round.node, there);
        }
        None => (),
    }
}

/// The same on all lines of a leaf along an axis.
fn agree_axis<const N: usize, const G: usize>(
    world: &mut World<N, G>,
    work: bool,
    node: u32,
    parts: u32,
    axis: Axis,
)
    requires fit { IsFit N G world.old }
    requires declared { HasVar world.old.told.counts (holding.edge_var work axis) }
    requires leaf { IsLeafNode world.old.told.grid node }
    requires parts { AreParts world.old.told.grid false (block_at world.old.told.grid node) 27 parts }
    requires tame { IsTame work world.old }
    ensures halved { AreHalved work N G world.old world.new }
    ensures lines { (field : EdgeAt → ℤ) (s t : ℕ) → s ≤ N → t ≤ N → LeafEdgesHold work world.old field → LineHolds work world.new field node axis s t }
{
    let _shape = world.tree().shape();
    let many = N + 1;
    for m in 0..many * many {
        let line = Line {
            axis,
            first: m % many,
            second: m / many,
        };
        agree_line(world, work, node, parts, line);
    }
}

/// The same on all lines of a leaf.
fn agree_axes<const N: usize, const G: usize>(
    world: &mut World<N, G>,
    work: bool,
    node: u32,
    parts: u32,
)
    requires fit { IsFit N G world.old }
    requires declared { (a : Axes) → HasVar world.old.told.counts (holding.edge_var work a) }
    requires leaf { IsLeafNode world.old.told.grid node }
    requires parts { AreParts world.old.told.grid false (block_at world.old.told.grid node) 27 parts }
    requires tame { IsTame work world.old }
    ensures halved { AreHalved work N G world.old world.new }
    ensures lines { (field : EdgeAt → ℤ) (a : Axes) (s t : ℕ) → s ≤ N → t ≤ N → LeafEdgesHold work world.old field → LineHolds work world.new field node a s t }
{
    agree_axis(world, work, node, parts, Axis::X);
    agree_axis(world, work, node, parts, Axis::Y);
    agree_axis(world, work, node, parts, Axis::Z);
}

/// The same on all lines of a leaf, most of which have no finer leaves round them.
fn agree_leaf<const N: usize, const G: usize>(world: &mut World<N, G>, work: bool, node: u32)
    requires fit { IsFit N G world.old }
    requires declared { (a : Axes) → HasVar world.old.told.counts (holding.edge_var work a) }
    requires leaf { IsLeafNode world.old.told.grid node }
    requires tame { IsTame work world.old }
    ensures halved { AreHalved work N G world.old world.new }
    ensures lines { (field : EdgeAt → ℤ) (a : Axes) (s t : ℕ) → s ≤ N → t ≤ N → LeafEdgesHold work world.old field → LineHolds work world.new field node a s t }
{
    let tree = world.tree();
    let _shape = tree.shape();
    let parts = finer_parts(tree, tree.at(node));
    if parts != 0 {
        agree_axes(world, work, node, parts);
    }
}

/// The same of a node, where it is a leaf.
fn agree_node<const N: usize, const G: usize>(world: &mut World<N, G>, work: bool, node: u32)
    requires fit { IsFit N G world.old }
    requires declared { (a : Axes) → HasVar world.old.told.counts (holding.edge_var work a) }
    requires node { IsNode world.old.told.grid node }
    requires tame { IsTame work world.old }
    ensures halved { AreHalved work N G world.old world.new }
    ensures lines { (field : EdgeAt → ℤ) (a : Axes) (s t : ℕ) → IsLeafNode world.old.told.grid node → s ≤ N → t ≤ N → LeafEdgesHold work world.old field
        → LineHolds work world.new field node a s t }
{
    if world.tree().is_leaf(node) {
        agree_leaf(world, work, node);
    }
}

/// Gives each edge of a leaf round which finer leaves stand the sum of its two halves, whatever stood there, once each copy
/// of each leaf edge has that edge's number. Leaf edges keep theirs; guards may have anything afterwards.
pub(crate) fn agree_edges<const N: usize, const G: usize>(world: &mut World<N, G>, work: bool)
    requires fit { IsFit N G world.old }
    requires declared { (a : Axes) → HasVar world.old.told.counts (holding.edge_var work a) }
    requires small { EdgesWithin work world.old (2 ^ 56) }
    ensures only { OnlyLeafAxes (holding.edge_var work) world.old world.new }
    ensures fit { IsFit N G world.new }
    ensures views { (field : EdgeAt → ℤ) → LeafEdgesHold work world.old field → LeavesHoldEdges work world.new field }
    ensures small { EdgesWithin work world.new (2 ^ 58) }
{
    for node in 0..world.tree().len() {
        agree_node(world, work, node);
    }
}
