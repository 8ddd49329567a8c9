//! The refined leaves.

ghost use Rattle.std.specs.Prelude.{◌≡◌, Bool, suc, ◌<◌, ◌==◌, ◌&&◌, IfOk};
ghost use Rattle.amr_num.specs.declared.BlockAt.{BlockAt};
ghost use Rattle.block_tree.specs.GridOf.{grid_of};
ghost use Rattle.block_tree.specs.Marked.{IsMarksOf, refine_of};
ghost use Rattle.block_tree.specs.Numbered.{IsNode, block_at};
ghost use Rattle.mesh_model.specs.Tree.Closure.{is_refined};
ghost use Rattle.mesh_model.specs.Tree.Kinds.{is_leaf_block};
ghost use Rattle.refine_marks.specs.Closing.{spread_to};
ghost use Rattle.refine_marks.specs.Flags.{AreFlagsAt, AreFlagsOf, IsOnePerNode, touches_any};
ghost use Rattle.refine_marks.specs.Planned.{marked_by};

use crate::flag_lists::unflagged;
use crate::neighbours::touches_flagged;
use amr_num::OutOfMemory;
use block_tree::{Marks, Tree};
use std::alloc::Global;

/// Flags the leaves that are marked to be refined, and no others.
fn flag_marked(tree: &Tree, marks: &Marks, flags: &mut [bool])
    requires marks { IsMarksOf (grid_of tree.now) marks.now }
    requires flags { IsOnePerNode (grid_of tree.now) flags.old }
    ensures { AreFlagsOf (grid_of tree.now) (refine_of (grid_of tree.now) marks.now) flags.new }
{
    for node in 0..tree.len() {
        flags[node as usize] = marks.refine(node);
    }
}

/// Whether a node is a leaf of `level` that touches a flagged leaf one level finer.
fn is_beside_finer(tree: &Tree, flags: &[bool], node: u32, level: u32) -> bool
    requires flags { IsOnePerNode (grid_of tree.now) flags.now }
    requires node { IsNode (grid_of tree.now) node }
    requires level { level < 10 }
    ensures { let b = block_at (grid_of tree.now) node in
        (set : BlockAt → Bool) → AreFlagsAt (grid_of tree.now) (suc level) set flags.now
        → result ≡ ((b.level == level) && is_leaf_block (grid_of tree.now) b && touches_any (grid_of tree.now) set (suc level) b) }
{
    let block = tree.at(node);
    block.level == level && tree.is_leaf(node) && touches_flagged(tree, flags, block, level + 1)
}

/// Flags the leaves of `level` that touch a flagged leaf one level finer.
fn spread(tree: &Tree, flags: &mut [bool], level: u32)
    requires flags { IsOnePerNode (grid_of tree.now) flags.old }
    requires level { level < 10 }
    ensures { (set : BlockAt → Bool) → AreFlagsOf (grid_of tree.now) set flags.old
        → AreFlagsOf (grid_of tree.now) (spread_to (grid_of tree.now) level set) flags.new }
{
    for node in 0..tree.len() {
        if is_beside_finer(tree, flags, node, level) {
            flags[node as usize] = true;
        }
    }
}

/// Flags the refined leaves, and no others: the marked ones, and from the finest level to the coarsest those that touch
/// one which is one level finer.
fn flag_refined(tree: &Tree, marks: &Marks, flags: &mut [bool])
    requires marks { IsMarksOf (grid_of tree.now) marks.now }
    requires flags { IsOnePerNode (grid_of tree.now) flags.old }
    ensures { AreFlagsOf (grid_of tree.now) (is_refined (marked_by tree.now marks.now)) flags.new }
{
    flag_marked(tree, marks, flags);
    for level in (0..tree.shape().max).rev() {
        spread(tree, flags, level);
    }
}

/// The refined leaves.
pub fn refined(alloc: Global, tree: &Tree, marks: &Marks) -> Result<Vec<bool>, OutOfMemory>
    requires { IsMarksOf (grid_of tree.now) marks.now }
    ensures { IfOk result (λ flags. AreFlagsOf (grid_of tree.now) (is_refined (marked_by tree.now marks.now)) flags.items) }
{
    let mut flags = unflagged(alloc, tree)?;
    flag_refined(tree, marks, &mut flags);
    Ok(flags)
}
