//! Lists of nodes: the roots, and what stands in the place of a node after refining and merging.

ghost use Rattle.std.specs.Prelude.{◌≡◌, ◌<◌, ◌++◌, IfOk, OnOk, length, [], ◌∷◌, true};
ghost use Rattle.block_tree.specs.Places as places;
ghost use Rattle.mesh_model.specs.Geometry.Blocks.{children};
ghost use Rattle.mesh_model.specs.Geometry.Limits.{IsShape};
ghost use Rattle.mesh_model.specs.Tree.Start.{start_leaves};
ghost use Rattle.morton_key.specs.Keyed.{HasKey};

use crate::blocks::{child_block, is_in_domain, root_at};
use amr_num::{BlockAt, OutOfMemory};
use mesh_model::Shape;
use std::alloc::Global;

/// Puts a block at the end of a list.
pub fn push(nodes: &mut Vec<BlockAt>, b: BlockAt) -> Result<(), OutOfMemory>
    ensures { OnOk result (nodes.new.items ≡ nodes.old.items ++ b ∷ []) }
{
    match nodes.push(b) {
        Ok(()) => Ok(()),
        Err(_) => Err(OutOfMemory),
    }
}

/// The roots of the domain, in Morton order.
pub fn root_blocks(alloc: Global, shape: &Shape) -> Result<Vec<BlockAt>, OutOfMemory>
    requires { IsShape shape.now }
    ensures { IfOk result (λ roots. roots.items ≡ start_leaves shape.now) }
{
    let mut roots = Vec::new(alloc);
    for place in 0..512 {
        let root = root_at(place);
        if is_in_domain(shape, root) {
            push(&mut roots, root)?;
        }
    }
    Ok(roots)
}

/// Puts the children of a block at the end of a list.
fn push_children(nodes: &mut Vec<BlockAt>, b: BlockAt) -> Result<(), OutOfMemory>
    requires level { b.level < 10 }
    requires place { HasKey b }
    ensures { OnOk result (nodes.new.items ≡ nodes.old.items ++ children b) }
{
    for octant in 0..8 {
        push(nodes, child_block(b, octant))?;
    }
    Ok(())
}

/// Puts what stands in the place of a node at the end of a list.
pub fn push_place(
    nodes: &mut Vec<BlockAt>,
    b: BlockAt,
    refine: bool,
    goes: bool,
) -> Result<(), OutOfMemory>
    requires level { refine ≡ true → b.level < 10 }
    requires place { HasKey b }
    ensures { OnOk result (nodes.new.items ≡ nodes.old.items ++ places.nodes_for b refine goes) }
{
    if goes {
        return Ok(());
    }
    push(nodes, b)?;
    if refine {
        push_children(nodes, b)?;
    }
    Ok(())
}
