//! Explicit marks on leaves.

ghost use Rattle.std.specs.Prelude.{◌≡◌, Bool, ℕ, ◌≤◌, ◌↔◌, IfErr, IsErr, OnErr, OnOk, true};
ghost use Rattle.amr_num.specs.declared.BlockAt.{BlockAt};
ghost use Rattle.block_tree.specs.GridOf.{grid_of};
ghost use Rattle.block_tree.specs.Marked as marked;
ghost use Rattle.block_tree.specs.Numbered.{IsNode, block_at};
ghost use Rattle.mesh_model.specs.Tree.Kinds.{Grid, is_leaf_block};
ghost use Rattle.refine_marks.specs.Flags.{AddsBlock, IsSameSet};

use block_tree::{Marks, Tree};
pub use mesh_model::run::stops::LevelStop;

/// Marks a single leaf.
pub trait SetMarks {
    /// These are marks of the tree with a grid.
    ghost are_marks_of: { Grid → Self → Type 0 };

    /// The leaves marked to be refined.
    ghost refine_set: { Grid → Self → BlockAt → Bool };

    /// The leaves marked to be merged.
    ghost derefine_set: { Grid → Self → BlockAt → Bool };

    /// For how many nodes there is room.
    ghost room_of: { Self → ℕ };

    /// Marks a leaf to be refined. Refused exactly where its level is the finest that refining reaches.
    fn set_refine(&mut self, tree: &Tree, node: u32) -> Result<(), LevelStop>
        requires node { IsNode (grid_of tree.now) node }
        requires leaf { is_leaf_block (grid_of tree.now) (block_at (grid_of tree.now) node) ≡ true }
        requires marks { are_marks_of (grid_of tree.now) self.old }
        ensures refused { IsErr result ↔ ((block_at (grid_of tree.now) node).level ≡ (grid_of tree.now).shape.max) }
        ensures stop { let level = (block_at (grid_of tree.now) node).level in
            IfErr result (λ stop. stop ≡ record { level = level; limit = (grid_of tree.now).shape.max }) }
        ensures refine { let leaf = block_at (grid_of tree.now) node in
            OnOk result (AddsBlock leaf (refine_set (grid_of tree.now) self.old) (refine_set (grid_of tree.now) self.new)) }
        ensures derefine { IsSameSet (derefine_set (grid_of tree.now) self.old) (derefine_set (grid_of tree.now) self.new) }
        ensures unchanged { OnErr result (self.new ≡ self.old) }
        ensures room { room_of self.new ≡ room_of self.old }
        ensures marks { are_marks_of (grid_of tree.now) self.new };

    /// Marks a leaf to be merged with its siblings. Refused exactly where its level is the coarsest that merging
    /// leaves, or coarser.
    fn set_derefine(&mut self, tree: &Tree, node: u32) -> Result<(), LevelStop>
        requires node { IsNode (grid_of tree.now) node }
        requires leaf { is_leaf_block (grid_of tree.now) (block_at (grid_of tree.now) node) ≡ true }
        requires marks { are_marks_of (grid_of tree.now) self.old }
        ensures refused { IsErr result ↔ ((block_at (grid_of tree.now) node).level ≤ (grid_of tree.now).shape.min) }
        ensures stop { let level = (block_at (grid_of tree.now) node).level in
            IfErr result (λ stop. stop ≡ record { level = level; limit = (grid_of tree.now).shape.min }) }
        ensures derefine { let leaf = block_at (grid_of tree.now) node in
            OnOk result (AddsBlock leaf (derefine_set (grid_of tree.now) self.old) (derefine_set (grid_of tree.now) self.new)) }
        ensures refine { IsSameSet (refine_set (grid_of tree.now) self.old) (refine_set (grid_of tree.now) self.new) }
        ensures unchanged { OnErr result (self.new ≡ self.old) }
        ensures room { room_of self.new ≡ room_of self.old }
        ensures marks { are_marks_of (grid_of tree.now) self.new };
}

impl SetMarks for Marks {
    ghost are_marks_of = { marked.IsMarksOf };

    ghost refine_set = { marked.refine_of };

    ghost derefine_set = { marked.derefine_of };

    ghost room_of = { marked.room };

    fn set_refine(&mut self, tree: &Tree, node: u32) -> Result<(), LevelStop> {
        let level = tree.at(node).level;
        let limit = tree.shape().max;
        if level == limit {
            return Err(LevelStop { level, limit });
        }
        let derefine = self.derefine(node);
        self.put(tree, node, true, derefine);
        Ok(())
    }

    fn set_derefine(&mut self, tree: &Tree, node: u32) -> Result<(), LevelStop> {
        let level = tree.at(node).level;
        let limit = tree.shape().min;
        if level <= limit {
            return Err(LevelStop { level, limit });
        }
        let refine = self.refine(node);
        self.put(tree, node, refine, true);
        Ok(())
    }
}
