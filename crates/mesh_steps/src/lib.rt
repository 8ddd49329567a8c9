//! Steps of a mesh over the leaves of a world: `advect` of a cell variable, and the face variable from numbers on edges.
#![tactic(auto)]

mod advection;
mod circulations;
mod flowing;
mod forcing;
mod hindrance;
mod induction;
mod settling;

pub use advection::{MOST_OUT, advect};
pub use circulations::set_curl;
pub use hindrance::{Above, FaceHindrance, Hindrance};
pub use induction::induct;
