//! The faces or edges of new leaves, and the first of them whose number is out of range.

ghost use Rattle.block_tree.specs.Numbered.{IsNode, block_at};
ghost use Rattle.mesh_model.specs.Fields.Ranks.{IsFit};
ghost use Rattle.mesh_model.specs.Tree.Order.{nodes};
ghost use Rattle.rank_world.specs.Holding.{IsLeafNode, OnlyAxes, OnlyAxesOf};
ghost use Rattle.regrid_move.specs.AxisMoves as moves;
ghost use Rattle.regrid_move.specs.AxisMoves.{AxesMoved, FieldOf, HasAxes, LeafAxesMoved, LeavesHoldAxes, MayMoveAllAxes, MayMoveAxes, axes_stop, block_axes_stop, count_of, declared_stop, edge_range, face_range, first_stop, node_axes_stop};
ghost use Rattle.regrid_move.specs.Near.{IsNear};
ghost use Rattle.std.specs.Prelude.{◌≡◌, ◌<◌, None, length};

use crate::axes::move_axes;
use crate::kinds::Staggered;
use mesh_model::{Group, RangeStop, Spot};
use rank_world::{EdgeAbove, FaceAbove, World, first_edge_above, first_face_above};

/// What is told of a face that is out of range.
fn face_stop(found: FaceAbove) -> RangeStop
    ensures { result ≡ face_range found }
{
    RangeStop {
        var: Group::Face,
        spot: Spot::Face(found.face),
        value: i128::from(found.value),
    }
}

/// What is told of an edge that is out of range.
fn edge_stop(found: EdgeAbove) -> RangeStop
    ensures { result ≡ edge_range found }
{
    RangeStop {
        var: Group::Edge,
        spot: Spot::Edge(found.edge),
        value: i128::from(found.value),
    }
}

/// The first leaf face or leaf edge of a leaf that is out of range.
fn leaf_stop<const N: usize, const G: usize>(
    world: &World<N, G>,
    kind: Staggered,
    node: u32,
) -> Option<RangeStop>
    requires fit { IsFit N G world.now }
    requires declared { 0 < count_of kind world.now.told.counts }
    requires leaf { IsLeafNode world.now.told.grid node }
    ensures { (field : FieldOf kind) → HasAxes kind world.now field node → result ≡ first_stop kind world.now.told.grid field (block_at world.now.told.grid node) }
{
    match kind {
        Staggered::Faces => match first_face_above(world, node) {
            None => None,
            Some(found) => Some(face_stop(found)),
        },
        Staggered::Edges => match first_edge_above(world, node) {
            None => None,
            Some(found) => Some(edge_stop(found)),
        },
    }
}

/// Writes the old views of a new leaf's faces or edges into it, and tells the first leaf one that is out of range.
fn move_axes_checked<const N: usize, const G: usize>(
    old: &World<N, G>,
    new: &mut World<N, G>,
    kind: Staggered,
    node: u32,
) -> Option<RangeStop>
    requires may { MayMoveAxes N G kind old.now new.old node }
    requires near { IsNear old.now.told.grid (block_at new.old.told.grid node) }
    ensures only { OnlyAxesOf (moves.var_of kind) new.old new.new node }
    ensures fit { IsFit N G new.new }
    ensures views { (field : FieldOf kind) → LeavesHoldAxes kind old.now field → AxesMoved kind old.now new.new field node }
    ensures stop { (field : FieldOf kind) → LeavesHoldAxes kind old.now field
        → result ≡ block_axes_stop kind old.now.told.grid new.new.told.grid field (block_at new.new.told.grid node) }
{
    move_axes(old, new, kind, node);
    leaf_stop(new, kind, node)
}

/// The same of a node, where it is a leaf.
fn move_node_axes<const N: usize, const G: usize>(
    old: &World<N, G>,
    new: &mut World<N, G>,
    kind: Staggered,
    node: u32,
) -> Option<RangeStop>
    requires may { MayMoveAllAxes N G old.now new.old }
    requires declared { 0 < count_of kind old.now.told.counts }
    requires node { IsNode new.old.told.grid node }
    ensures only { OnlyAxesOf (moves.var_of kind) new.old new.new node }
    ensures fit { IsFit N G new.new }
    ensures views { (field : FieldOf kind) → LeavesHoldAxes kind old.now field → IsLeafNode new.new.told.grid node → AxesMoved kind old.now new.new field node }
    ensures stop { (field : FieldOf kind) → LeavesHoldAxes kind old.now field
        → result ≡ node_axes_stop kind old.now.told.grid new.new.told.grid field node }
{
    if new.tree().is_leaf(node) {
        move_axes_checked(old, new, kind, node)
    } else {
        None
    }
}

/// Writes the old views of the face variable or of the edge variable into each leaf of the new tree, up to the first leaf
/// face or leaf edge that is out of range.
fn move_axes_variable<const N: usize, const G: usize>(
    old: &World<N, G>,
    new: &mut World<N, G>,
    kind: Staggered,
) -> Option<RangeStop>
    requires may { MayMoveAllAxes N G old.now new.old }
    requires declared { 0 < count_of kind old.now.told.counts }
    ensures only { OnlyAxes (moves.var_of kind) new.old new.new }
    ensures fit { IsFit N G new.new }
    ensures views { result ≡ None → (field : FieldOf kind) → LeavesHoldAxes kind old.now field → LeafAxesMoved kind old.now new.new field }
    ensures stop { (field : FieldOf kind) → LeavesHoldAxes kind old.now field
        → result ≡ axes_stop kind old.now.told.grid new.new.told.grid field (length (nodes new.new.told.grid.leaves)) }
{
    for node in 0..new.tree().len() {
        let stop = move_node_axes(old, new, kind, node);
        if stop.is_some() {
            return stop;
        }
    }
    None
}

/// How many variables of a kind a world has.
fn declared<const N: usize, const G: usize>(world: &World<N, G>, kind: Staggered) -> u32
    ensures { result ≡ count_of kind world.now.told.counts }
{
    match kind {
        Staggered::Faces => world.layout().faces,
        Staggered::Edges => world.layout().edges,
    }
}

/// The same where the variable is declared.
pub(crate) fn move_declared<const N: usize, const G: usize>(
    old: &World<N, G>,
    new: &mut World<N, G>,
    kind: Staggered,
) -> Option<RangeStop>
    requires { MayMoveAllAxes N G old.now new.old }
    ensures only { OnlyAxes (moves.var_of kind) new.old new.new }
    ensures fit { IsFit N G new.new }
    ensures views { result ≡ None → 0 < count_of kind old.now.told.counts → (field : FieldOf kind) → LeavesHoldAxes kind old.now field
        → LeafAxesMoved kind old.now new.new field }
    ensures stop { (field : FieldOf kind) → (0 < count_of kind old.now.told.counts → LeavesHoldAxes kind old.now field)
        → result ≡ declared_stop kind old.now.told.grid new.new.told.grid field old.now.told.counts }
{
    if declared(old, kind) == 0 {
        return None;
    }
    move_axes_variable(old, new, kind)
}
