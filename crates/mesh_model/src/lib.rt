//! The plain mesh: its definitions and their laws, and the calls on coordinates.
//!
//! Its rooms, each of which names only those before it: geometry, the tree, fields, the language, the run,
//! and images.
#![tactic(auto)]

pub mod fields;
pub mod geometry;
pub mod images;
pub mod language;
pub mod run;
pub mod tree;

pub use fields::spot::{RangeStop, Spot};
pub use fields::values::{BlockValues, Group, Var};
pub use geometry::coordinates::{
    half_edge, parent_cell, parent_edge, parent_face, sub_cell, sub_face,
};
pub use geometry::{
    Shape, around_edge, canonical_face, inside_cell, inside_edge, inside_face, side_cells, touches,
};
pub use images::{BadImage, Part};
pub use tree::NodeKind;
