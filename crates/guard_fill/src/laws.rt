//! Laws of guard cells: each is the contract of a function that does nothing.

ghost use Rattle.guard_fill.specs.Near.{NearFaceViewsAreSmall, NearViewsAreSmall};

/// The views of a field in the nearest layer of a leaf's guard cells, and in its own cells, are small, since a cell
/// beside a leaf is split at most once: at most 2^56 where the field's contents are at most 2^40.
pub fn near_views_are_small()
    ensures { NearViewsAreSmall }
{}

/// The views of a field on faces in the nearest layer of a leaf's guard cells, and on its own faces, are small: at most
/// 2^56 where the field's numbers are at most 2^40. A face there is split at most once, and where it lies inside a
/// coarser leaf, that is one level coarser.
pub fn near_face_views_are_small()
    ensures { NearFaceViewsAreSmall }
{}
