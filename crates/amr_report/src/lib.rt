//! The printed reports of a mesh: its size, leaves and tree, the numbers of its variables, totals and net fluxes.
//!
//! Each call writes its lines to a sink, and takes no memory. It answers `Failed` only where the sink failed in that
//! call, and the sink then took the first bytes of the lines.
#![tactic(auto)]

mod arrays;
mod line;
mod mesh;
mod neighbours;
mod nodes;
#[cfg(test)]
mod tests;
mod totals;
mod variables;

pub use arrays::axis_name;
pub use line::{LINE_LENGTH, Line};
pub use mesh::{print_mesh, print_size};
pub use nodes::print_tree;
pub use totals::{print_netflux, print_total};
pub use variables::{print_guards, print_var};
