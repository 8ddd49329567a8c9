//! The level rule among nodes.

ghost use Rattle.std.specs.Prelude.{◌≡◌, ◌≤◌, ◌↔◌, IsTrue, Some, length};
ghost use Rattle.amr_num.specs.declared.BlockAt.{BlockAt};
ghost use Rattle.block_tree.specs.Directions as directions;
ghost use Rattle.block_tree.specs.Directions.{direction_of};
ghost use Rattle.block_tree.specs.Surrounded.{AreRound};
ghost use Rattle.mesh_model.specs.Geometry.Blocks.{InDomain};
ghost use Rattle.mesh_model.specs.Geometry.Limits.{IsShape};
ghost use Rattle.mesh_model.specs.Tree.Forest.{lowered, visited};
ghost use Rattle.mesh_model.specs.Tree.Order.{IsIn, Sorted};
ghost use Rattle.mesh_model.specs.Tree.Start.{start_leaves};
ghost use Rattle.mesh_model.specs.Tree.ValidGrid.{LevelRule};
ghost use Rattle.morton_key.specs.Keyed.{HasKey};

use crate::directions::{block_toward, direction_at};
use crate::search::place_of;
use amr_num::BlockAt;
use mesh_model::Shape;

/// Whether the block in a direction from another, if it lies in the domain, is a node.
fn has_node_toward(shape: &Shape, nodes: &[BlockAt], b: BlockAt, number: u32) -> bool
    requires shape { IsShape shape.now }
    requires inside { InDomain shape.now b }
    requires keyed { (b : BlockAt) → IsIn b nodes.now → HasKey b }
    requires order { Sorted nodes.now }
    requires few { length nodes.now ≤ 8192 }
    ensures { IsTrue result ↔ ((e : BlockAt) → directions.block_toward shape.now (direction_of number) b ≡ Some e → IsIn e nodes.now) }
{
    match block_toward(shape, direction_at(number), b) {
        Some(block) => place_of(nodes, block).is_some(),
        None => true,
    }
}

/// Whether the blocks of its level in all directions from a block, those of the domain, are nodes.
fn is_surrounded(shape: &Shape, nodes: &[BlockAt], b: BlockAt) -> bool
    requires shape { IsShape shape.now }
    requires inside { InDomain shape.now b }
    requires keyed { (b : BlockAt) → IsIn b nodes.now → HasKey b }
    requires order { Sorted nodes.now }
    requires few { length nodes.now ≤ 8192 }
    ensures { IsTrue result ↔ AreRound shape.now nodes.now b 27 }
{
    for number in 0..27 {
        if !has_node_toward(shape, nodes, b, number) {
            return false;
        }
    }
    true
}

/// Whether the leaves among the nodes with these flags keep the level rule.
///
/// They do exactly where each parent is surrounded by nodes of its level: a block beside it that is no node lies in a
/// leaf that is coarser than the parent, and touches one that is finer.
pub fn keeps_level_rule(shape: &Shape, nodes: &[BlockAt], above: &[bool]) -> bool
    requires shape { IsShape shape.now }
    requires nodes { visited shape.now.max above.now (start_leaves shape.now) ≡ Some nodes.now }
    requires few { length nodes.now ≤ 8192 }
    ensures { IsTrue result ↔ LevelRule (record { shape = shape.now; leaves = lowered above.now nodes.now }) }
{
    for (node, b) in nodes.iter().enumerate() {
        if above[node] && !is_surrounded(shape, nodes, *b) {
            return false;
        }
    }
    true
}
