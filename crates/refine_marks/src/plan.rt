//! The closure of marks.

ghost use Rattle.std.specs.Prelude.{◌≡◌, IfOk, map};
ghost use Rattle.block_tree.specs.GridOf.{grid_of};
ghost use Rattle.block_tree.specs.Growing.{MayRegrow};
ghost use Rattle.block_tree.specs.Marked.{IsMarksOf};
ghost use Rattle.mesh_model.specs.Tree.Closure.{is_merged, is_refined};
ghost use Rattle.mesh_model.specs.Tree.Order.{nodes};
ghost use Rattle.mesh_model.specs.Tree.Regrown.{new_grid, regrown};
ghost use Rattle.refine_marks.specs.Flags.{IsOnePerNode};
ghost use Rattle.refine_marks.specs.Planned.{IsGreatest, IsLeast, marked_by, merged_by, refined_by};

use crate::merging::merged;
use crate::refining::refined;
use amr_num::OutOfMemory;
use block_tree::{Marks, Tree};
use std::alloc::Global;

/// Which leaves of a tree are refined, and which parents merged: in each list one flag for each node.
#[derive(Drop)]
pub struct Plan {
    /// The leaves that are refined.
    pub refine: Vec<bool>,
    /// The parents whose eight children are merged.
    pub merge: Vec<bool>,
}

/// The closure of marks on a tree.
///
/// The refined leaves are the least set that holds the marked ones and may be refined under the level rule. The
/// merged parents are the greatest set of parents with eight children marked so that may be merged beside them.
pub fn close(alloc: Global, tree: &Tree, marks: &Marks) -> Result<Plan, OutOfMemory>
    requires { IsMarksOf (grid_of tree.now) marks.now }
    ensures refine_flags { IfOk result (λ plan. IsOnePerNode (grid_of tree.now) plan.refine.items) }
    ensures merge_flags { IfOk result (λ plan. IsOnePerNode (grid_of tree.now) plan.merge.items) }
    ensures refine { IfOk result (λ plan.
        plan.refine.items ≡ map (is_refined (marked_by tree.now marks.now)) (nodes (grid_of tree.now).leaves)) }
    ensures merge { IfOk result (λ plan.
        plan.merge.items ≡ map (is_merged (marked_by tree.now marks.now)) (nodes (grid_of tree.now).leaves)) }
    ensures least { IfOk result (λ plan. IsLeast (marked_by tree.now marks.now) (refined_by (grid_of tree.now) plan)) }
    ensures greatest { IfOk result (λ plan. IsGreatest (marked_by tree.now marks.now) (merged_by (grid_of tree.now) plan)) }
    ensures new_grid { IfOk result (λ plan. new_grid (marked_by tree.now marks.now)
        ≡ regrown (grid_of tree.now) (refined_by (grid_of tree.now) plan) (merged_by (grid_of tree.now) plan)) }
    ensures may_regrow { IfOk result (λ plan. MayRegrow (grid_of tree.now)
        (refined_by (grid_of tree.now) plan) (merged_by (grid_of tree.now) plan)) }
{
    let refine = refined(alloc, tree, marks)?;
    let merge = merged(alloc, tree, marks, &refine)?;
    Ok(Plan { refine, merge })
}
