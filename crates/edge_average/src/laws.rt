//! Laws of edges: each is the contract of a function that does nothing.

ghost use Rattle.edge_average.specs.Laws.{LeafEdgeViewsAreHalves, LeafEdgeViewsAreSmall};

/// The view of a field on an edge of a leaf is the field there, or where finer leaves stand round the edge the sum of the
/// field at its two halves, which are leaf edges. So such views are at most twice as great as the field is on leaf edges.
pub fn leaf_edge_views_are_halves()
    ensures halves { LeafEdgeViewsAreHalves }
    ensures small { LeafEdgeViewsAreSmall }
{}
