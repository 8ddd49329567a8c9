//! The faces or edges of a new leaf that are split from those of its parent, which was a leaf.

ghost use Rattle.amr_num.specs.declared.Axis.{Axis as Axes};
ghost use Rattle.amr_num.specs.declared.Axis.TheVariants.{X, Y, Z};
ghost use Rattle.block_tree.specs.Numbered.{IsNode, block_at};
ghost use Rattle.mesh_model.specs.Geometry.Blocks.{InDomain, child_block};
ghost use Rattle.mesh_model.specs.Fields.ArrayPlaces.{IsSize, extents_of, size_of};
ghost use Rattle.mesh_model.specs.Fields.FaceSplits.{by_axis};
ghost use Rattle.mesh_model.specs.Fields.Ranks.{IsFit, OnlyOf};
ghost use Rattle.rank_world.specs.Holding.{IsLeafNode, IsOfValidMesh, OnlyAxesOf};
ghost use Rattle.regrid_move.specs.AxisMoves as moves;
ghost use Rattle.regrid_move.specs.AxisMoves.{AxesMoved, FieldOf, HoldsAxis, LeavesHoldAxes, MayMoveAxes, array_of, count_of};
ghost use Rattle.std.specs.Prelude.{◌≡◌, ◌<◌, ◌≤◌, length};

use crate::kinds::{Staggered, var_of};
use amr_num::{Axis, BlockAt};
use block_store::Extents;
use leaf_split::{child_edges, child_faces};
use rank_world::World;

/// How many numbers a block's array on an axis has.
fn array_count(n: usize, g: usize, kind: Staggered, axis: Axis) -> usize
    requires { IsSize n g }
    ensures value { result ≡ size_of (extents_of n g (moves.var_of kind axis)) }
    ensures most { result ≤ 4624 }
{
    Extents::of(n, g, var_of(kind, axis)).count()
}

/// Gives a node's array on an axis other numbers.
pub(crate) fn put_axis<const N: usize, const G: usize>(
    new: &mut World<N, G>,
    kind: Staggered,
    axis: Axis,
    node: u32,
    values: &[i64],
)
    requires size { IsSize N G }
    requires fit { IsFit N G new.old }
    requires declared { 0 < count_of kind new.old.told.counts }
    requires node { IsNode new.old.told.grid node }
    requires values { length values.now ≡ size_of (extents_of N G (moves.var_of kind axis)) }
    ensures only { OnlyOf new.old new.new 0 (moves.var_of kind axis) node }
    ensures fit { IsFit N G new.new }
    ensures value { array_of kind new.new axis node ≡ values.now }
{
    new.values_mut(var_of(kind, axis), node)
        .copy_from_slice(values);
}

/// Makes the faces or edges of a child of a leaf.
fn child_axes<const N: usize, const G: usize>(
    old: &World<N, G>,
    kind: Staggered,
    parent: u32,
    octant: u32,
    block: BlockAt,
    cx: &mut [i64],
    cy: &mut [i64],
    cz: &mut [i64],
)
    requires fit { IsFit N G old.now }
    requires declared { 0 < count_of kind old.now.told.counts }
    requires mesh { IsOfValidMesh old.now }
    requires parent { IsLeafNode old.now.told.grid parent }
    requires octant { octant < 8 }
    requires child { child_block (block_at old.now.told.grid parent) octant ≡ block }
    requires block { InDomain old.now.told.grid.shape block }
    requires cx { length cx.old ≡ size_of (extents_of N G (moves.var_of kind X)) }
    requires cy { length cy.old ≡ size_of (extents_of N G (moves.var_of kind Y)) }
    requires cz { length cz.old ≡ size_of (extents_of N G (moves.var_of kind Z)) }
    ensures cx { length cx.new ≡ length cx.old }
    ensures cy { length cy.new ≡ length cy.old }
    ensures cz { length cz.new ≡ length cz.old }
    ensures views { (field : FieldOf kind) → LeavesHoldAxes kind old.now field
        → (a : Axes) → HoldsAxis kind old.now.told.grid field a block (by_axis cx.new cy.new cz.new a) }
{
    match kind {
        Staggered::Faces => child_faces(old, parent, octant, block, cx, cy, cz),
        Staggered::Edges => child_edges(old, parent, octant, block, cx, cy, cz),
    }
}

/// Splits the faces or edges of an old leaf into those of one of its children. Where leaves of the child's level stood
/// beside or round it, their numbers stay.
pub(crate) fn split_axes<const N: usize, const G: usize>(
    old: &World<N, G>,
    new: &mut World<N, G>,
    kind: Staggered,
    parent: u32,
    octant: u32,
    node: u32,
)
    requires may { MayMoveAxes N G kind old.now new.old node }
    requires parent { IsLeafNode old.now.told.grid parent }
    requires octant { octant < 8 }
    requires child { child_block (block_at old.now.told.grid parent) octant ≡ block_at new.old.told.grid node }
    ensures only { OnlyAxesOf (moves.var_of kind) new.old new.new node }
    ensures fit { IsFit N G new.new }
    ensures views { (field : FieldOf kind) → LeavesHoldAxes kind old.now field → AxesMoved kind old.now new.new field node }
{
    let block = new.tree().at(node);
    let mut x_room = [0i64; 4624];
    let mut y_room = [0i64; 4624];
    let mut z_room = [0i64; 4624];
    let cx = &mut x_room[..array_count(N, G, kind, Axis::X)];
    let cy = &mut y_room[..array_count(N, G, kind, Axis::Y)];
    let cz = &mut z_room[..array_count(N, G, kind, Axis::Z)];
    child_axes(old, kind, parent, octant, block, cx, cy, cz);
    put_axis(new, kind, Axis::X, node, cx);
    put_axis(new, kind, Axis::Y, node, cy);
    put_axis(new, kind, Axis::Z, node, cz);
}
