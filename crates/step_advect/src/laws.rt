//! Laws of the fluxes and the step of a block: each is the contract of a function that does nothing.

ghost use Rattle.step_advect.specs.Lifts.{AppliedIsAdvected, FluxesAreOfLeaves, LeftIsAdvected, NoneIsRefused, OutIsLost, RefusedIsFirst};

/// Where the array of a block's cells has its guard values, and its closed sides are those of the domain, each of its
/// faces gets the flux that the mesh has through it, as the leaves beside it give it.
pub fn block_fluxes_are_of_leaves()
    ensures { FluxesAreOfLeaves }
{}

/// Where the arrays of a leaf block have its contents and the mesh's fluxes through its faces, the step gives it what the
/// mesh has after advect. The cell that is refused is the block's first with a content out of range, and what flows out
/// through the block's outer sides is what its cells lose through those of the domain.
pub fn block_steps_are_advects()
    ensures left { LeftIsAdvected }
    ensures applied { AppliedIsAdvected }
    ensures refused { RefusedIsFirst }
    ensures in_range { NoneIsRefused }
    ensures out { OutIsLost }
{}
