//! Lists with one flag for each node.

ghost use Rattle.std.specs.Prelude.{◌≡◌, IfOk, false};
ghost use Rattle.block_tree.specs.GridOf.{grid_of};
ghost use Rattle.refine_marks.specs.Flags.{AreFlagsOf};

use amr_num::OutOfMemory;
use block_tree::Tree;
use std::alloc::Global;

/// One flag for each node, all down.
pub fn unflagged(alloc: Global, tree: &Tree) -> Result<Vec<bool>, OutOfMemory>
    ensures { IfOk result (λ flags. AreFlagsOf (grid_of tree.now) (λ b. false) flags.items) }
{
    match vec![in alloc; false; tree.len() as usize] {
        Ok(flags) => Ok(flags),
        Err(_) => Err(OutOfMemory),
    }
}
