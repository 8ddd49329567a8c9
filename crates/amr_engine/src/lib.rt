//! The commands of a script, done one after the other on a mesh.
#![tactic(auto)]

pub mod built;
pub mod cause;
pub mod engine;
mod filling;
pub mod laws;
mod marking;
pub mod netting;
mod region;
mod saving;
mod totals;

pub use mesh_model::Group;
pub use mesh_model::language::names::Names;
pub use mesh_model::language::script::{Command, Declared, Line, Script};
