//! The language of scripts.
#![tactic(auto)]

mod actions;
mod declarations;
pub mod laws;
pub mod reader;
pub mod sample;
mod variables;
pub mod words;

pub use mesh_model::Group;
pub use mesh_model::language::names::Names;
pub use mesh_model::language::script::{Command, Declared, Line, Reason, Script};
