//! Laws of the keys: each is the contract of a function that does nothing.

ghost use Rattle.morton_key.specs.Laws as laws;

/// No two blocks have the same key, so that the block of a block's key is that block.
pub fn keys_are_of_one_block()
    ensures { laws.KeysAreOfOneBlock }
{}

/// Keys rise in Morton order.
pub fn keys_rise()
    ensures outer { laws.OuterBlocksComeFirst }
    ensures parent { laws.ParentsComeFirst }
    ensures children { laws.ChildrenGoByOctant }
    ensures inside { laws.ChildrenKeepTheirBlocks }
{}
