//! Slots for nodes.

ghost use Rattle.block_store.specs.Pools.{spare_of};
ghost use Rattle.rank_world.specs.Slots.{AreTaken};
ghost use Rattle.std.specs.Prelude.{◌≡◌, ◌≤◌, [], IfOk};

use amr_num::OutOfMemory;
use block_store::Pool;
use std::alloc::Global;

/// Takes a slot for each of so many nodes.
pub(crate) fn take_slots<const N: usize, const G: usize>(
    alloc: Global,
    pool: &mut Pool<N, G>,
    nodes: u32,
) -> Result<Vec<u32>, OutOfMemory>
    requires { nodes ≤ spare_of pool.old }
    ensures { IfOk result (λ slots. AreTaken N G pool.old pool.new nodes slots.items) }
{
    let mut slots = match Vec::with_capacity(alloc, nodes as usize) {
        Ok(slots) => slots,
        Err(_) => return Err(OutOfMemory),
    };
    for node in 0..nodes {
        slots.push_reserved(pool.take(node));
    }
    Ok(slots)
}
