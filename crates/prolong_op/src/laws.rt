//! Laws of parts: each is the contract of a function that does nothing.

ghost use Rattle.mesh_model.specs.Fields.EdgeSplits.{EdgeChildrenAreSplit};
ghost use Rattle.mesh_model.specs.Fields.FaceSplits.{FaceChildrenAreSplit};
ghost use Rattle.mesh_model.specs.Fields.Octants.{ChildrenAreSplit};

/// A child that was split from a block that is not split itself, and that holds the views of a field, holds views.
pub fn children_hold_views()
    ensures { ChildrenAreSplit }
{}

/// The same of its faces and the views of a field on faces, where the sides that were kept held views and the others lie
/// inside coarser leaves.
pub fn face_children_hold_views()
    ensures { FaceChildrenAreSplit }
{}

/// The same of its edges along an axis and the views of a field on edges, where the parts of its boundary that were kept
/// held views and the others lie inside coarser leaves.
pub fn edge_children_hold_views()
    ensures { EdgeChildrenAreSplit }
{}
