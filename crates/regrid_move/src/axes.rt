//! The faces or edges of a new leaf, from those of old leaves.

ghost use Rattle.amr_num.specs.declared.Axis.{Axis as Axes};
ghost use Rattle.block_tree.specs.Numbered.{IsNumberOf, block_at};
ghost use Rattle.mesh_model.specs.Geometry.Blocks.{child_block};
ghost use Rattle.mesh_model.specs.Tree.Order.{IsIn};
ghost use Rattle.mesh_model.specs.Tree.Kinds.{is_leaf_block};
ghost use Rattle.mesh_model.specs.Fields.ArrayPlaces.{IsSize, extents_of, number_at, size_of};
ghost use Rattle.mesh_model.specs.Fields.FinePlaces.{FineSumsAreSmall, IsSummed};
ghost use Rattle.mesh_model.specs.Fields.Ranks.{IsFit, OnlyOf};
ghost use Rattle.rank_world.specs.Holding.{IsLeafNode, OnlyAxesOf};
ghost use Rattle.regrid_move.specs.AxisMoves as moves;
ghost use Rattle.regrid_move.specs.AxisMoves.{AxesMoved, AxisMoved, AxisOctantMoved, FieldOf, LeavesHoldAxes, MayMoveAxes};
ghost use Rattle.regrid_move.specs.Near.{IsNear};
ghost use Rattle.std.specs.Prelude.{◌≡◌, ◌≢◌, ◌<◌, ℕ, false, length};

use crate::kinds::{Staggered, var_of};
use crate::leaves::parent_leaf;
use crate::splitting::{put_axis, split_axes};
use amr_num::{Axis, BlockAt};
use rank_world::World;
use restrict_op::{restrict_edges, restrict_faces};

/// Copies an old leaf's array on an axis.
fn copy_axis<const N: usize, const G: usize>(
    old: &World<N, G>,
    new: &mut World<N, G>,
    kind: Staggered,
    axis: Axis,
    from: u32,
    node: u32,
)
    requires may { MayMoveAxes N G kind old.now new.old node }
    requires from { IsLeafNode old.now.told.grid from }
    requires same { block_at old.now.told.grid from ≡ block_at new.old.told.grid node }
    ensures only { OnlyOf new.old new.new 0 (moves.var_of kind axis) node }
    ensures fit { IsFit N G new.new }
    ensures views { (field : FieldOf kind) → LeavesHoldAxes kind old.now field → AxisMoved kind old.now new.new field node axis }
{
    let values = old.values(var_of(kind, axis), from);
    put_axis(new, kind, axis, node, values);
}

/// Copies its arrays on all axes.
fn copy_axes<const N: usize, const G: usize>(
    old: &World<N, G>,
    new: &mut World<N, G>,
    kind: Staggered,
    from: u32,
    node: u32,
)
    requires may { MayMoveAxes N G kind old.now new.old node }
    requires from { IsLeafNode old.now.told.grid from }
    requires same { block_at old.now.told.grid from ≡ block_at new.old.told.grid node }
    ensures only { OnlyAxesOf (moves.var_of kind) new.old new.new node }
    ensures fit { IsFit N G new.new }
    ensures views { (field : FieldOf kind) → LeavesHoldAxes kind old.now field → AxesMoved kind old.now new.new field node }
{
    copy_axis(old, new, kind, Axis::X, from, node);
    copy_axis(old, new, kind, Axis::Y, from, node);
    copy_axis(old, new, kind, Axis::Z, from, node);
}

/// Sets an octant of a block's array on an axis to the sums of the finer numbers of its child there.
fn restrict_axis<const N: usize, const G: usize>(
    kind: Staggered,
    axis: Axis,
    octant: u32,
    child: &[i64],
    parent: &mut [i64],
)
    requires size { IsSize N G }
    requires octant { octant < 8 }
    requires child { length child.now ≡ size_of (extents_of N G (moves.var_of kind axis)) }
    requires parent { length parent.old ≡ size_of (extents_of N G (moves.var_of kind axis)) }
    requires few { FineSumsAreSmall N G (moves.var_of kind axis) (number_at (extents_of N G (moves.var_of kind axis)) child.now) }
    ensures { IsSummed N G (moves.var_of kind axis) octant child.now parent.old parent.new }
{
    match kind {
        Staggered::Faces => restrict_faces::<N, G>(axis, octant, child, parent),
        Staggered::Edges => restrict_edges::<N, G>(axis, octant, child, parent),
    }
}

/// Sums an old leaf's array on an axis into the octant of a new leaf in which it lies.
fn sum_axis<const N: usize, const G: usize>(
    old: &World<N, G>,
    new: &mut World<N, G>,
    kind: Staggered,
    axis: Axis,
    child: u32,
    octant: u32,
    node: u32,
)
    requires may { MayMoveAxes N G kind old.now new.old node }
    requires child { IsLeafNode old.now.told.grid child }
    requires octant { octant < 8 }
    requires inside { block_at old.now.told.grid child ≡ child_block (block_at new.old.told.grid node) octant }
    ensures only { OnlyOf new.old new.new 0 (moves.var_of kind axis) node }
    ensures fit { IsFit N G new.new }
    ensures sums { (field : FieldOf kind) → LeavesHoldAxes kind old.now field → AxisOctantMoved kind old.now new.new field node octant axis }
    ensures stays { (field : FieldOf kind) (p : ℕ) → p < 8 → p ≢ octant → LeavesHoldAxes kind old.now field
        → AxisOctantMoved kind old.now new.old field node p axis → AxisOctantMoved kind old.now new.new field node p axis }
{
    let _tree = old.tree();
    let var = var_of(kind, axis);
    let values = old.values(var, child);
    restrict_axis::<N, G>(kind, axis, octant, values, new.values_mut(var, node));
}

/// Sums its arrays on all axes.
fn sum_child_axes<const N: usize, const G: usize>(
    old: &World<N, G>,
    new: &mut World<N, G>,
    kind: Staggered,
    child: u32,
    octant: u32,
    node: u32,
)
    requires may { MayMoveAxes N G kind old.now new.old node }
    requires child { IsLeafNode old.now.told.grid child }
    requires octant { octant < 8 }
    requires inside { block_at old.now.told.grid child ≡ child_block (block_at new.old.told.grid node) octant }
    ensures only { OnlyAxesOf (moves.var_of kind) new.old new.new node }
    ensures fit { IsFit N G new.new }
    ensures sums { (field : FieldOf kind) (a : Axes) → LeavesHoldAxes kind old.now field → AxisOctantMoved kind old.now new.new field node octant a }
    ensures stays { (field : FieldOf kind) (p : ℕ) (a : Axes) → p < 8 → p ≢ octant → LeavesHoldAxes kind old.now field
        → AxisOctantMoved kind old.now new.old field node p a → AxisOctantMoved kind old.now new.new field node p a }
{
    sum_axis(old, new, kind, Axis::X, child, octant, node);
    sum_axis(old, new, kind, Axis::Y, child, octant, node);
    sum_axis(old, new, kind, Axis::Z, child, octant, node);
}

/// Sums the arrays of eight old leaves into those of the new leaf in which they lie.
fn sum_axes<const N: usize, const G: usize>(
    old: &World<N, G>,
    new: &mut World<N, G>,
    kind: Staggered,
    from: u32,
    node: u32,
)
    requires may { MayMoveAxes N G kind old.now new.old node }
    requires from { IsNumberOf old.now.told.grid (block_at new.old.told.grid node) from }
    requires children { (q : ℕ) → q < 8 → IsIn (child_block (block_at new.old.told.grid node) q) old.now.told.grid.leaves }
    requires inner { is_leaf_block old.now.told.grid (block_at new.old.told.grid node) ≡ false }
    ensures only { OnlyAxesOf (moves.var_of kind) new.old new.new node }
    ensures fit { IsFit N G new.new }
    ensures views { (field : FieldOf kind) → LeavesHoldAxes kind old.now field → AxesMoved kind old.now new.new field node }
{
    let tree = old.tree();
    for octant in 0..8 {
        match tree.child(from, octant) {
            Some(child) => sum_child_axes(old, new, kind, child, octant, node),
            None => unreachable!(),
        }
    }
}

/// Sums the arrays of the eight children of a block of the old tree into those of the new leaf there.
fn sum_up_axes<const N: usize, const G: usize>(
    old: &World<N, G>,
    new: &mut World<N, G>,
    kind: Staggered,
    block: BlockAt,
    node: u32,
)
    requires may { MayMoveAxes N G kind old.now new.old node }
    requires children { (q : ℕ) → q < 8 → IsIn (child_block block q) old.now.told.grid.leaves }
    requires inner { is_leaf_block old.now.told.grid block ≡ false }
    requires block { block ≡ block_at new.old.told.grid node }
    ensures only { OnlyAxesOf (moves.var_of kind) new.old new.new node }
    ensures fit { IsFit N G new.new }
    ensures views { (field : FieldOf kind) → LeavesHoldAxes kind old.now field → AxesMoved kind old.now new.new field node }
{
    match old.tree().node_at(block) {
        Some(from) => sum_axes(old, new, kind, from, node),
        None => unreachable!(),
    }
}

/// Makes the arrays of a new leaf that was none: from its parent that was one, or from its children.
fn make_axes<const N: usize, const G: usize>(
    old: &World<N, G>,
    new: &mut World<N, G>,
    kind: Staggered,
    block: BlockAt,
    node: u32,
)
    requires may { MayMoveAxes N G kind old.now new.old node }
    requires near { IsNear old.now.told.grid block }
    requires no_leaf { is_leaf_block old.now.told.grid block ≡ false }
    requires block { block ≡ block_at new.old.told.grid node }
    ensures only { OnlyAxesOf (moves.var_of kind) new.old new.new node }
    ensures fit { IsFit N G new.new }
    ensures views { (field : FieldOf kind) → LeavesHoldAxes kind old.now field → AxesMoved kind old.now new.new field node }
{
    let octant = block.x % 2 + 2 * (block.y % 2) + 4 * (block.z % 2);
    match parent_leaf(old.tree(), block) {
        Some(parent) => split_axes(old, new, kind, parent, octant, node),
        None => sum_up_axes(old, new, kind, block, node),
    }
}

/// Writes the old views of a new leaf's faces or edges into it.
pub(crate) fn move_axes<const N: usize, const G: usize>(
    old: &World<N, G>,
    new: &mut World<N, G>,
    kind: Staggered,
    node: u32,
)
    requires may { MayMoveAxes N G kind old.now new.old node }
    requires near { IsNear old.now.told.grid (block_at new.old.told.grid node) }
    ensures only { OnlyAxesOf (moves.var_of kind) new.old new.new node }
    ensures fit { IsFit N G new.new }
    ensures views { (field : FieldOf kind) → LeavesHoldAxes kind old.now field → AxesMoved kind old.now new.new field node }
{
    let block = new.tree().at(node);
    match old.tree().leaf_at(block) {
        Some(from) => copy_axes(old, new, kind, from, node),
        None => make_axes(old, new, kind, block, node),
    }
}
