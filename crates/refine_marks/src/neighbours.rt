//! Search for the leaves that touch a block.

ghost use Rattle.std.specs.Prelude.{◌≡◌, Bool, ◌&&◌, ◌==◌};
ghost use Rattle.amr_num.specs.declared.BlockAt.{BlockAt};
ghost use Rattle.block_tree.specs.GridOf.{grid_of};
ghost use Rattle.block_tree.specs.Numbered.{IsNode, block_at, flag_in};
ghost use Rattle.mesh_model.specs.Tree.Kinds.{is_leaf_block};
ghost use Rattle.mesh_model.specs.Geometry.Touch as touch;
ghost use Rattle.mesh_model.specs.Geometry.Blocks.{InDomain};
ghost use Rattle.refine_marks.specs.Flags.{AreFlagsAt, IsOnePerNode, touches_any};

use amr_num::BlockAt;
use block_tree::Tree;
use mesh_model::touches;

/// Whether a node is a flagged leaf of `level` that touches `block`.
fn is_flagged_leaf(tree: &Tree, flags: &[bool], node: u32, block: BlockAt, level: u32) -> bool
    requires flags { IsOnePerNode (grid_of tree.now) flags.now }
    requires node { IsNode (grid_of tree.now) node }
    requires block { InDomain (grid_of tree.now).shape block }
    ensures { let leaf = block_at (grid_of tree.now) node in
        result ≡ ((leaf.level == level) && is_leaf_block (grid_of tree.now) leaf && flag_in flags.now node
        && touch.touches (grid_of tree.now).shape leaf block) }
{
    let leaf = tree.at(node);
    leaf.level == level
        && tree.is_leaf(node)
        && flags[node as usize]
        && touches(&tree.shape(), leaf, block)
}

/// Whether some leaf of `level` that touches `block` is flagged. There is one flag for each node.
pub fn touches_flagged(tree: &Tree, flags: &[bool], block: BlockAt, level: u32) -> bool
    requires flags { IsOnePerNode (grid_of tree.now) flags.now }
    requires block { InDomain (grid_of tree.now).shape block }
    ensures { (set : BlockAt → Bool) → AreFlagsAt (grid_of tree.now) level set flags.now
        → result ≡ touches_any (grid_of tree.now) set level block }
{
    for node in 0..tree.len() {
        if is_flagged_leaf(tree, flags, node, block, level) {
            return true;
        }
    }
    false
}
