//! How many variables there are.

ghost use Rattle.mesh_model.specs.Fields.Arrays as arrays;
ghost use Rattle.std.specs.Prelude.{◌≡◌};

use amr_num::Axis;
use mesh_model::Var;
use std::marker::Model;

/// How many variables there are of each group. Work arrays are there in every layout.
#[derive(Clone, Copy, Debug, PartialEq, Eq)]
pub struct Layout {
    /// Cell variables.
    pub cells: u32,
    /// Face variables: none or one.
    pub faces: u32,
    /// Edge variables: none or one.
    pub edges: u32,
}

impl Model for Layout {
    ghost use Rattle.mesh_model.specs.Fields.Arrays.{Counts};

    ghost Value = { Counts };

    ghost view = { λ l. record { cells = l.cells; faces = l.faces; edges = l.edges } };

    ghost inverse = { λ n. record { cells = n.cells; faces = n.faces; edges = n.edges } };
}

impl Layout {
    ghost use Rattle.std.specs.Prelude.{◌+◌};

    /// How many arrays a block has, with those of variables that are not there.
    pub(crate) fn arrays(&self) -> usize
        ensures { result ≡ arrays.array_count self.now }
    {
        13 + self.cells as usize
    }
}

/// The place of an axis among the axes.
fn axis_number(axis: Axis) -> usize
    ensures { result ≡ axis_index axis }
{
    match axis {
        Axis::X => 0,
        Axis::Y => 1,
        Axis::Z => 2,
    }
}

/// The place of a variable's array among those of a block.
pub(crate) fn array_number(var: Var) -> usize
    ensures { result ≡ arrays.array_number var }
{
    match var {
        Var::CellWork => 0,
        Var::FaceWork(axis) => 1 + axis_number(axis),
        Var::EdgeWork(axis) => 4 + axis_number(axis),
        Var::Face(axis) => 7 + axis_number(axis),
        Var::Edge(axis) => 10 + axis_number(axis),
        Var::Cell(variable) => 13 + variable as usize,
    }
}

ghost use Rattle.mesh_model.specs.Geometry.Coordinates.{axis_index};
