//! The nodes that flags stand for.

ghost use Rattle.std.specs.Prelude.{◌≡◌, ◌<◌, ◌≤◌, ◌++◌, IfOk, OnOk, reverse};
ghost use Rattle.std.specs.Option.{option_map};
ghost use Rattle.amr_num.specs.declared.BlockAt.{BlockAt};
ghost use Rattle.mesh_model.specs.Geometry.Blocks.{children};
ghost use Rattle.mesh_model.specs.Geometry.Limits.{IsShape};
ghost use Rattle.mesh_model.specs.Tree.Forest.{visited};
ghost use Rattle.mesh_model.specs.Tree.Order.{IsIn};
ghost use Rattle.mesh_model.specs.Tree.Start.{start_leaves};
ghost use Rattle.morton_key.specs.Keyed.{HasKey};

use crate::blocks::child_block;
use crate::places::{push, root_blocks};
use amr_num::{BlockAt, OutOfMemory};
use mesh_model::Shape;
use std::alloc::Global;

/// Puts the children of a block on a pile, the first on top.
fn pile_children(pending: &mut Vec<BlockAt>, b: BlockAt) -> Result<(), OutOfMemory>
    requires level { b.level < 10 }
    requires place { HasKey b }
    ensures { OnOk result (reverse pending.new.items ≡ children b ++ reverse pending.old.items) }
{
    for octant in 0..8 {
        push(pending, child_block(b, 7 - octant))?;
    }
    Ok(())
}

/// A pile of blocks, the first on top.
fn piled(alloc: Global, blocks: &[BlockAt]) -> Result<Vec<BlockAt>, OutOfMemory>
    ensures { IfOk result (λ pile. reverse pile.items ≡ blocks.now) }
{
    let mut pile = match Vec::from_slice(alloc, blocks) {
        Ok(pile) => pile,
        Err(_) => return Err(OutOfMemory),
    };
    pile.reverse();
    Ok(pile)
}

/// The blocks of the nodes with these flags, where the blocks of a list are still to come: a parent is above the finest
/// level, and its children are next. `None` where flags are wanting or left over.
fn visit(
    alloc: Global,
    max: u32,
    blocks: &[BlockAt],
    above: &[bool],
) -> Result<Option<Vec<BlockAt>>, OutOfMemory>
    requires max { max ≤ 10 }
    requires keyed { (b : BlockAt) → IsIn b blocks.now → HasKey b }
    ensures { IfOk result (λ found. option_map (λ nodes. nodes.items) found ≡ visited max above.now blocks.now) }
{
    let mut nodes = Vec::new(alloc);
    let mut pending = piled(alloc, blocks)?;
    for flag in above {
        let b = match pending.pop() {
            Some(b) => b,
            None => return Ok(None),
        };
        push(&mut nodes, b)?;
        if *flag {
            if b.level >= max {
                return Ok(None);
            }
            pile_children(&mut pending, b)?;
        }
    }
    if pending.is_empty() {
        Ok(Some(nodes))
    } else {
        Ok(None)
    }
}

/// The nodes of a shape's tree with these flags: up for a parent, down for a leaf. `None` exactly where flags are wanting
/// or left over, or a parent stands at the finest level.
pub fn nodes_of(
    alloc: Global,
    shape: &Shape,
    above: &[bool],
) -> Result<Option<Vec<BlockAt>>, OutOfMemory>
    requires { IsShape shape.now }
    ensures { IfOk result (λ found. option_map (λ nodes. nodes.items) found ≡ visited shape.now.max above.now (start_leaves shape.now)) }
{
    let roots = root_blocks(alloc, shape)?;
    visit(alloc, shape.max, &roots, above)
}
