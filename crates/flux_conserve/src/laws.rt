//! Laws of fluxes: each is the contract of a function that does nothing.

ghost use Rattle.flux_conserve.specs.Laws.{CalmFluxesAreOwn, FluxesAreHeld, FluxesAreJumped};

/// The flux through a face of a leaf is what the leaf's own step gives of it, or at a jump of level the sum of what the
/// finer leaves' steps give of its four finer faces. So corrected faces hold the mesh's fluxes, and those of a leaf at no
/// jump hold them as they are.
pub fn fluxes_are_jumped()
    ensures jumped { FluxesAreJumped }
    ensures held { FluxesAreHeld }
    ensures calm { CalmFluxesAreOwn }
{}
