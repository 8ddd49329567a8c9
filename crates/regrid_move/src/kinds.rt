//! The variables that have an array on each axis.

ghost use Rattle.regrid_move.specs.AxisMoves as moves;
ghost use Rattle.std.specs.Prelude.{◌≡◌};

use amr_num::Axis;
use mesh_model::Var;

/// A kind of such variables.
#[derive(Clone, Copy)]
pub(crate) enum Staggered {
    /// The face variable: an array of the faces normal to each axis.
    Faces,
    /// The edge variable: an array of the edges along each axis.
    Edges,
}

/// The array on an axis.
pub(crate) fn var_of(kind: Staggered, axis: Axis) -> Var
    ensures { result ≡ moves.var_of kind axis }
{
    match kind {
        Staggered::Faces => Var::Face(axis),
        Staggered::Edges => Var::Edge(axis),
    }
}
