//! What every rank knows.

use block_store::Layout;
use block_tree::Tree;

/// What every rank knows: the tree, and how many variables there are.
#[derive(Drop)]
pub struct Known {
    pub(crate) tree: Tree,
    pub(crate) layout: Layout,
}

impl Known {
    ghost use Rattle.block_tree.specs.GridOf.{grid_of};
    ghost use Rattle.rank_world.specs.Knowing.{told};
    ghost use Rattle.std.specs.Prelude.{◌≡◌};

    /// The tree.
    pub fn tree(&self) -> &Tree
        ensures { grid_of result.now ≡ (told self.now).grid }
    {
        &self.tree
    }

    /// How many variables there are.
    pub fn layout(&self) -> Layout
        ensures { result ≡ (told self.now).counts }
    {
        self.layout
    }
}
