//! Search through nodes in Morton order.

ghost use Rattle.std.specs.Prelude.{◌≡◌, ℕ, ◌<◌, ◌≤◌, length, MatchOption};
ghost use Rattle.amr_num.specs.declared.BlockAt.{BlockAt};
ghost use Rattle.block_tree.specs.Numbered.{block_in};
ghost use Rattle.block_tree.specs.Searching.{IsCut};
ghost use Rattle.mesh_model.specs.Tree.Order.{IsIn, Sorted};
ghost use Rattle.morton_key.specs.Keyed.{HasKey};

use amr_num::BlockAt;
use morton_key::{Key, key_of};

/// How many of the nodes have a smaller key.
fn count_below(nodes: &[BlockAt], key: Key) -> usize
    requires keyed { (b : BlockAt) → IsIn b nodes.now → HasKey b }
    requires order { Sorted nodes.now }
    requires few { length nodes.now ≤ 8192 }
    ensures { IsCut nodes.now key.0 result result }
{
    let mut low = 0;
    let mut high = nodes.len();
    while low < high {
        let middle = low + (high - low) / 2;
        if key_of(nodes[middle]) < key {
            low = middle + 1;
        } else {
            high = middle;
        }
    }
    low
}

/// The place of a block among the nodes.
pub fn place_of(nodes: &[BlockAt], b: BlockAt) -> Option<usize>
    requires keyed { (b : BlockAt) → IsIn b nodes.now → HasKey b }
    requires order { Sorted nodes.now }
    requires few { length nodes.now ≤ 8192 }
    requires key { HasKey b }
    ensures { MatchOption result (IsIn b nodes.now → ⊥) (λ place. (place < length nodes.now) × (block_in nodes.now place ≡ b)) }
{
    let place = count_below(nodes, key_of(b));
    if place < nodes.len() && nodes[place] == b {
        Some(place)
    } else {
        None
    }
}
