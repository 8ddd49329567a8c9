//! Where a number of a mesh stands, and numbers out of range.

use crate::fields::values::Group;
use amr_num::{CellAt, EdgeAt, FaceAt};

/// Where a number of a mesh stands. Faces and edges are named by their canonical positions.
#[derive(Clone, Copy, Debug, PartialEq, Eq)]
pub enum Spot {
    Cell(CellAt),
    Face(FaceAt),
    Edge(EdgeAt),
    /// What has flowed out of a cell variable.
    Out,
}

/// A number out of range: a leaf number above 2^40 in absolute value, or what has flowed out of a variable
/// above 2^100.
#[derive(Clone, Copy, Debug, PartialEq, Eq)]
pub struct RangeStop {
    /// The variable.
    pub var: Group,
    /// Where the number would stand.
    pub spot: Spot,
    /// The number.
    pub value: i128,
}
