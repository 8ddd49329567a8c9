//! Laws of circulations and electromotive forces: each is the contract of a function that does nothing.

ghost use Rattle.step_induct.specs.Circling.{CirculationsAreHeld, LessenedAreHeld, LessenedIsInducted};
ghost use Rattle.step_induct.specs.Forces.{ForcesAreOfLeaves};

/// Where a block's edges have a field on edges, its faces that were made of them have the field's circulations.
pub fn block_circulations_are_held()
    ensures { CirculationsAreHeld }
{}

/// Where a block's faces have the views of a field on faces and its edges a field on edges, the faces that lost the
/// circulations of the edges have the views without the field's circulations. So with the electromotive forces on the edges
/// the leaf faces among them have what the mesh has after induct.
pub fn block_steps_are_inducts()
    ensures held { LessenedAreHeld }
    ensures inducted { LessenedIsInducted }
{}

/// Where the arrays of a block's faces have their guard values, and its closed sides are those of the domain, each of its
/// edges gets the electromotive force that the mesh has on it, as the faces upstream of it give it.
pub fn block_forces_are_of_leaves()
    ensures { ForcesAreOfLeaves }
{}
