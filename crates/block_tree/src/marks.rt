//! Marks on the leaves of a tree.

ghost use Rattle.std.specs.Prelude.{◌≡◌, IfOk, false, length, replicate};

use crate::Tree;
use crate::blocks::most_nodes;
use amr_num::OutOfMemory;
use std::alloc::Global;

/// Marks on the leaves of a tree: to refine a leaf, which is below the finest level, and to merge it with its siblings,
/// which are above the coarsest level that merging leaves.
#[derive(Drop)]
pub struct Marks {
    refine: Vec<bool>,
    derefine: Vec<bool>,
    pub ghost same_room: { length derefine.items ≡ length refine.items },
}

/// So many flags, all down.
fn lowered(alloc: Global, count: usize) -> Result<Vec<bool>, OutOfMemory>
    ensures { IfOk result (λ flags. flags.items ≡ replicate count false) }
{
    match vec![in alloc; false; count] {
        Ok(flags) => Ok(flags),
        Err(_) => Err(OutOfMemory),
    }
}

/// Takes all flags down.
fn lower(flags: &mut Vec<bool>)
    ensures { flags.new.items ≡ replicate (length flags.old.items) false }
{
    flags.fill(false);
}

impl Marks {
    ghost use Rattle.amr_num.specs.declared.BlockAt.{BlockAt};
    ghost use Rattle.block_tree.specs.GridOf.{grid_of};
    ghost use Rattle.block_tree.specs.Marked.{IsMarksOf, IsUnmarked, derefine_at, derefine_of, refine_at, refine_of, room};
    ghost use Rattle.block_tree.specs.Numbered.{IsNode, block_at};
    ghost use Rattle.mesh_model.specs.Geometry.Limits as limits;
    ghost use Rattle.mesh_model.specs.Tree.Order.{nodes};
    ghost use Rattle.mesh_model.specs.Tree.Kinds.{is_leaf_block};
    ghost use Rattle.mesh_model.specs.Geometry.Blocks.{is_same_block};
    ghost use Rattle.std.specs.Prelude.{◌≡◌, ◌<◌, ◌≤◌, IfOk, if◌then◌else◌, length, true};

    /// No mark, with room for as many nodes as a tree of this shape may have.
    pub fn empty(alloc: Global, tree: &Tree) -> Result<Marks, OutOfMemory>
        ensures room { IfOk result (λ marks. room marks ≡ limits.most_nodes (grid_of tree.now).shape) }
        ensures none { IfOk result (IsUnmarked (grid_of tree.now)) }
        ensures marks { IfOk result (IsMarksOf (grid_of tree.now)) }
    {
        let most = most_nodes(&tree.shape()) as usize;
        let refine = lowered(alloc, most)?;
        let derefine = lowered(alloc, most)?;
        Ok(Marks { refine, derefine })
    }

    /// Takes all marks away, and makes the list one for `tree`. There is room for each tree of the same shape.
    pub fn reset(&mut self, tree: &Tree)
        requires { length (nodes (grid_of tree.now).leaves) ≤ room self.old }
        ensures room { room self.new ≡ room self.old }
        ensures none { IsUnmarked (grid_of tree.now) self.new }
        ensures marks { IsMarksOf (grid_of tree.now) self.new }
    {
        lower(&mut self.refine);
        lower(&mut self.derefine);
    }

    /// Sets both marks of a node. A mark that stands is on a leaf: one to refine below the finest level, and one to merge
    /// above the coarsest level that merging leaves.
    pub fn put(&mut self, tree: &Tree, node: u32, refine: bool, derefine: bool)
        requires node { IsNode (grid_of tree.now) node }
        requires marks { IsMarksOf (grid_of tree.now) self.old }
        requires refine { let b = block_at (grid_of tree.now) node in
            refine ≡ true → (is_leaf_block (grid_of tree.now) b ≡ true) × (b.level < (grid_of tree.now).shape.max) }
        requires derefine { let b = block_at (grid_of tree.now) node in
            derefine ≡ true → (is_leaf_block (grid_of tree.now) b ≡ true) × ((grid_of tree.now).shape.min < b.level) }
        ensures room { room self.new ≡ room self.old }
        ensures refine { (b : BlockAt) → refine_of (grid_of tree.now) self.new b
            ≡ (if is_same_block (block_at (grid_of tree.now) node) b then refine else refine_of (grid_of tree.now) self.old b) }
        ensures derefine { (b : BlockAt) → derefine_of (grid_of tree.now) self.new b
            ≡ (if is_same_block (block_at (grid_of tree.now) node) b then derefine else derefine_of (grid_of tree.now) self.old b) }
        ensures marks { IsMarksOf (grid_of tree.now) self.new }
    {
        self.refine[node as usize] = refine;
        self.derefine[node as usize] = derefine;
    }

    /// Whether a node is marked to be refined.
    pub fn refine(&self, node: u32) -> bool
        requires { node < room self.now }
        ensures { result ≡ refine_at self.now node }
    {
        self.refine[node as usize]
    }

    /// Whether a node is marked to be merged with its siblings.
    pub fn derefine(&self, node: u32) -> bool
        requires { node < room self.now }
        ensures { result ≡ derefine_at self.now node }
    {
        self.derefine[node as usize]
    }
}
