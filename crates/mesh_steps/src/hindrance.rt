//! Why a step is not made.

use amr_num::CellAt;
use rank_world::FaceAbove;

/// A cell that would hold a number out of range, and the number.
#[derive(Clone, Copy, Debug, PartialEq, Eq)]
pub struct Above {
    pub cell: CellAt,
    /// What it would hold.
    pub value: i128,
}

/// Why a step is not made.
#[derive(Clone, Copy, Debug, PartialEq, Eq)]
pub enum Hindrance {
    /// The speeds move more than one finest cell a step.
    TooFast,
    /// The first cell that would hold a number out of range.
    Content(Above),
    /// What would have flowed out in all, which is out of range.
    FlowedOut(i128),
}

/// Why a step of the face variable is not made.
#[derive(Clone, Copy, Debug, PartialEq, Eq)]
pub enum FaceHindrance {
    /// The speeds move more than one finest cell a step.
    TooFast,
    /// The first face that would hold a number out of range.
    Number(FaceAbove),
}
