//! The arrays of a block, and where their numbers come from.

ghost use Rattle.std.specs.Prelude.{◌≡◌, ℕ, ℤ};
ghost use Rattle.mesh_model.specs.declared.fields.values.Var.{Var};

use amr_num::Axis;

/// Which numbers of a block a call or a command speaks of.
#[derive(Clone, Copy, Debug, PartialEq, Eq)]
pub enum Group {
    /// A cell variable, by its number in declared order from 0.
    Cell(u32),
    /// The face variable.
    Face,
    /// The edge variable.
    Edge,
}

/// An array of numbers of a block.
#[derive(Clone, Copy, Debug, PartialEq, Eq)]
pub enum Var {
    /// A cell variable, by its number in declared order from 0.
    Cell(u32),
    /// The face variable, on the faces normal to an axis.
    Face(Axis),
    /// The edge variable, on the edges along an axis.
    Edge(Axis),
    /// What a step works out in cells.
    CellWork,
    /// What a step works out on the faces normal to an axis.
    FaceWork(Axis),
    /// What a step works out on the edges along an axis.
    EdgeWork(Axis),
}

/// What has the numbers of nodes at block indices: from 0 in the interior, below 0 and from the number of
/// cells on among the guard cells.
pub trait BlockValues {
    // Where there is a number: at an array, a node and block indices.
    ghost is_there: { Self → Var → ℕ → ℤ → ℤ → ℤ → Type 0 };

    // The number there.
    ghost number: { Self → Var → ℕ → ℤ → ℤ → ℤ → ℤ };

    /// The number of a node's array at block indices, guard cells included.
    fn value(&self, var: Var, node: u32, i: i64, j: i64, k: i64) -> i64
        requires { is_there self.now var node i j k }
        ensures { result ≡ number self.now var node i j k };
}
