//! Leaves at jumps of level.

ghost use Rattle.block_tree.specs.GridOf.{grid_of};
ghost use Rattle.flux_conserve.specs.Jumps as jumps;
ghost use Rattle.flux_conserve.specs.FaceArrays.{HasNoJump};
ghost use Rattle.mesh_model.specs.Geometry.Blocks.{InDomain};
ghost use Rattle.mesh_model.specs.Tree.Kinds.{is_leaf_block};
ghost use Rattle.std.specs.Prelude.{◌≡◌, true, false};

use amr_num::{Axis, BlockAt};
use block_tree::{Tree, block_beside};

/// Whether the block is a leaf.
fn is_leaf(tree: &Tree, b: BlockAt) -> bool
    ensures { result ≡ is_leaf_block (grid_of tree.now) b }
{
    match tree.leaf_at(b) {
        Some(_) => true,
        None => false,
    }
}

/// Whether the level jumps across the low or the high side of a leaf on an axis: a coarser leaf or finer ones stand there.
#[tactic(auto, unfolding(crate::specs::Jumps::jumps_at))]
fn jumps_at(tree: &Tree, axis: Axis, high: bool, b: BlockAt) -> bool
    requires { InDomain (grid_of tree.now).shape b }
    ensures { result ≡ jumps.jumps_at (grid_of tree.now) axis high b }
{
    match block_beside(&tree.shape(), axis, high, b) {
        Some(block) => !is_leaf(tree, block),
        None => false,
    }
}

/// Whether it jumps across one of its sides on an axis.
fn jumps_on(tree: &Tree, axis: Axis, b: BlockAt) -> bool
    requires { InDomain (grid_of tree.now).shape b }
    ensures { result ≡ jumps.jumps_on (grid_of tree.now) axis b }
{
    jumps_at(tree, axis, false, b) || jumps_at(tree, axis, true, b)
}

/// Whether the level jumps across some side of a leaf: a coarser leaf or finer ones stand there, wrapped on a periodic
/// axis. Of such leaves alone the work faces are read or written.
#[tactic(auto, unfolding(crate::specs::Jumps::is_at_jump))]
pub fn is_at_jump(tree: &Tree, b: BlockAt) -> bool
    requires { InDomain (grid_of tree.now).shape b }
    ensures { result ≡ jumps.is_at_jump (grid_of tree.now) b }
{
    jumps_on(tree, Axis::X, b) || jumps_on(tree, Axis::Y, b) || jumps_on(tree, Axis::Z, b)
}

/// Whether some leaf is at a jump of level. Where none is, all leaves lie beside leaves of their own level alone.
pub fn has_jump(tree: &Tree) -> bool
    ensures none { result ≡ false → HasNoJump (grid_of tree.now) }
    ensures some { result ≡ true → HasNoJump (grid_of tree.now) → ⊥ }
{
    for node in 0..tree.len() {
        if tree.is_leaf(node) && is_at_jump(tree, tree.at(node)) {
            return true;
        }
    }
    false
}
