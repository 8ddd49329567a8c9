//! Laws of sums: each is the contract of a function that does nothing.

ghost use Rattle.mesh_model.specs.Fields.FinePlaces.{EdgeOctantsAreSummed, EdgeOctantsMakeBlocks, EdgeOctantsStay, FaceOctantsAreSummed, FaceOctantsMakeBlocks, FaceOctantsStay};
ghost use Rattle.mesh_model.specs.Fields.Octants.{OctantsAreSummed, OctantsMakeBlocks, OctantsStay};

/// Where a block's octants are set to the sums of its children, one after the other, and the children hold the views of
/// a field, the block holds views.
pub fn children_make_parents()
    ensures sums { OctantsAreSummed }
    ensures stay { OctantsStay }
    ensures whole { OctantsMakeBlocks }
{}

/// The same of a block's faces normal to an axis and the views of a field on faces. Octants have faces in common, and
/// those keep views too.
pub fn face_children_make_parents()
    ensures sums { FaceOctantsAreSummed }
    ensures stay { FaceOctantsStay }
    ensures whole { FaceOctantsMakeBlocks }
{}

/// The same of its edges along an axis and the views of a field on edges.
pub fn edge_children_make_parents()
    ensures sums { EdgeOctantsAreSummed }
    ensures stay { EdgeOctantsStay }
    ensures whole { EdgeOctantsMakeBlocks }
{}
