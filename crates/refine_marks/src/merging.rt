//! The merged parents.

ghost use Rattle.std.specs.Prelude.{◌≡◌, Bool, ◌<◌, IfOk, false, suc};
ghost use Rattle.std.specs.List.{list_all};
ghost use Rattle.amr_num.specs.declared.BlockAt.{BlockAt};
ghost use Rattle.block_tree.specs.GridOf.{grid_of};
ghost use Rattle.block_tree.specs.Marked.{IsMarksOf};
ghost use Rattle.block_tree.specs.Numbered.{IsNode, block_at};
ghost use Rattle.mesh_model.specs.Geometry.Blocks.{child_block, children};
ghost use Rattle.mesh_model.specs.Tree.Closure as closure;
ghost use Rattle.mesh_model.specs.Tree.Closure.{is_merged, is_refined};
ghost use Rattle.refine_marks.specs.Closing as closing;
ghost use Rattle.refine_marks.specs.Closing.{merged_with, stays_beside};
ghost use Rattle.refine_marks.specs.Flags.{AreFlagsAt, AreFlagsOf, IsOnePerNode};
ghost use Rattle.refine_marks.specs.Planned.{marked_by};

use crate::flag_lists::unflagged;
use crate::neighbours::touches_flagged;
use amr_num::OutOfMemory;
use block_tree::{Marks, Tree};
use std::alloc::Global;

/// Whether a node is a leaf that may be merged with its siblings: it is marked so, above the coarsest level that
/// merging leaves, and not refined.
fn is_ready(tree: &Tree, marks: &Marks, refine: &[bool], node: u32) -> bool
    requires marks { IsMarksOf (grid_of tree.now) marks.now }
    requires refine { AreFlagsOf (grid_of tree.now) (is_refined (marked_by tree.now marks.now)) refine.now }
    requires node { IsNode (grid_of tree.now) node }
    ensures { result ≡ closure.is_ready (marked_by tree.now marks.now) (block_at (grid_of tree.now) node) }
{
    tree.is_leaf(node)
        && marks.derefine(node)
        && tree.shape().min < tree.at(node).level
        && !refine[node as usize]
}

/// Whether a child of a node is such a leaf. A leaf has no child.
fn is_ready_child(tree: &Tree, marks: &Marks, refine: &[bool], node: u32, octant: u32) -> bool
    requires marks { IsMarksOf (grid_of tree.now) marks.now }
    requires refine { AreFlagsOf (grid_of tree.now) (is_refined (marked_by tree.now marks.now)) refine.now }
    requires node { IsNode (grid_of tree.now) node }
    requires octant { octant < 8 }
    ensures { result ≡ closure.is_ready (marked_by tree.now marks.now) (child_block (block_at (grid_of tree.now) node) octant) }
{
    match tree.child(node, octant) {
        Some(child) => is_ready(tree, marks, refine, child),
        None => false,
    }
}

/// Whether the eight children of a node are such leaves.
fn has_ready_children(tree: &Tree, marks: &Marks, refine: &[bool], node: u32) -> bool
    requires marks { IsMarksOf (grid_of tree.now) marks.now }
    requires refine { AreFlagsOf (grid_of tree.now) (is_refined (marked_by tree.now marks.now)) refine.now }
    requires node { IsNode (grid_of tree.now) node }
    ensures { result ≡ list_all (closure.is_ready (marked_by tree.now marks.now)) (children (block_at (grid_of tree.now) node)) }
{
    for octant in 0..8 {
        if !is_ready_child(tree, marks, refine, node, octant) {
            return false;
        }
    }
    true
}

/// Whether a node is of `level` and may be merged beside the refined leaves and the finer leaves that stay.
fn may_merge(
    tree: &Tree,
    marks: &Marks,
    refine: &[bool],
    stays: &[bool],
    node: u32,
    level: u32,
) -> bool
    requires marks { IsMarksOf (grid_of tree.now) marks.now }
    requires refine { AreFlagsOf (grid_of tree.now) (is_refined (marked_by tree.now marks.now)) refine.now }
    requires stays { IsOnePerNode (grid_of tree.now) stays.now }
    requires node { IsNode (grid_of tree.now) node }
    requires level { level < 10 }
    ensures { let b = block_at (grid_of tree.now) node in
        (kept : BlockAt → Bool) → AreFlagsAt (grid_of tree.now) (suc (suc level)) kept stays.now
        → result ≡ closing.may_merge (marked_by tree.now marks.now) level kept b }
{
    let block = tree.at(node);
    block.level == level
        && has_ready_children(tree, marks, refine, node)
        && !touches_flagged(tree, refine, block, level + 1)
        && !touches_flagged(tree, stays, block, level + 2)
}

/// Flags the parents of `level` that may be merged.
fn merge_level(
    tree: &Tree,
    marks: &Marks,
    refine: &[bool],
    stays: &[bool],
    merge: &mut [bool],
    level: u32,
)
    requires marks { IsMarksOf (grid_of tree.now) marks.now }
    requires refine { AreFlagsOf (grid_of tree.now) (is_refined (marked_by tree.now marks.now)) refine.now }
    requires stays { IsOnePerNode (grid_of tree.now) stays.now }
    requires merge { IsOnePerNode (grid_of tree.now) merge.old }
    requires level { level < 10 }
    ensures { (kept set : BlockAt → Bool) → AreFlagsOf (grid_of tree.now) kept stays.now → AreFlagsOf (grid_of tree.now) set merge.old
        → AreFlagsOf (grid_of tree.now) (merged_with (marked_by tree.now marks.now) level kept set) merge.new }
{
    for node in 0..tree.len() {
        if may_merge(tree, marks, refine, stays, node, level) {
            merge[node as usize] = true;
        }
    }
}

/// Whether a node has no flagged parent.
fn has_no_flagged_parent(tree: &Tree, merge: &[bool], node: u32) -> bool
    requires merge { IsOnePerNode (grid_of tree.now) merge.now }
    requires node { IsNode (grid_of tree.now) node }
    ensures { (set : BlockAt → Bool) → AreFlagsOf (grid_of tree.now) set merge.now
        → result ≡ stays_beside set (block_at (grid_of tree.now) node) }
{
    match tree.parent(node) {
        Some(parent) => !merge[parent as usize],
        None => true,
    }
}

/// Flags the nodes without a merged parent in `stays`, and no others.
fn flag_kept(tree: &Tree, merge: &[bool], stays: &mut [bool])
    requires merge { IsOnePerNode (grid_of tree.now) merge.now }
    requires stays { IsOnePerNode (grid_of tree.now) stays.old }
    ensures { (set : BlockAt → Bool) → AreFlagsOf (grid_of tree.now) set merge.now
        → AreFlagsOf (grid_of tree.now) (stays_beside set) stays.new }
{
    for node in 0..tree.len() {
        stays[node as usize] = has_no_flagged_parent(tree, merge, node);
    }
}

/// Flags the merged parents, from the finest level to the coarsest. `stays` is room for flags of the nodes without a
/// merged parent.
fn flag_merged(tree: &Tree, marks: &Marks, refine: &[bool], stays: &mut [bool], merge: &mut [bool])
    requires marks { IsMarksOf (grid_of tree.now) marks.now }
    requires refine { AreFlagsOf (grid_of tree.now) (is_refined (marked_by tree.now marks.now)) refine.now }
    requires stays { IsOnePerNode (grid_of tree.now) stays.old }
    requires merge { AreFlagsOf (grid_of tree.now) (λ b. false) merge.old }
    ensures { AreFlagsOf (grid_of tree.now) (is_merged (marked_by tree.now marks.now)) merge.new }
{
    for level in (0..tree.shape().max).rev() {
        flag_kept(tree, merge, stays);
        merge_level(tree, marks, refine, stays, merge, level);
    }
}

/// The merged parents.
pub fn merged(
    alloc: Global,
    tree: &Tree,
    marks: &Marks,
    refine: &[bool],
) -> Result<Vec<bool>, OutOfMemory>
    requires marks { IsMarksOf (grid_of tree.now) marks.now }
    requires refine { AreFlagsOf (grid_of tree.now) (is_refined (marked_by tree.now marks.now)) refine.now }
    ensures { IfOk result (λ flags. AreFlagsOf (grid_of tree.now) (is_merged (marked_by tree.now marks.now)) flags.items) }
{
    let mut merge = unflagged(alloc, tree)?;
    let mut stays = unflagged(alloc, tree)?;
    flag_merged(tree, marks, refine, &mut stays, &mut merge);
    Ok(merge)
}
