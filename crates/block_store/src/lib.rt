//! The arrays of blocks in memory: a pool that lends them by slots, and views of them by block indices.
//!
//! An array has a block's places with its guard cells, x fastest, then y, then z. Along each axis it has `N + 2 G`
//! places, an array on faces one more along its axis, and one on edges one more along the other two.
#![tactic(auto)]

mod above;
mod axes;
mod cells;
mod layout;
mod making;
mod places;
mod pool;
mod regions;
mod store;

pub use above::{Above, CountedEdges, CountedFaces, block_above, edges_above, faces_above};
pub use axes::{Edges, Faces};
pub use cells::Cells;
pub use layout::Layout;
pub use mesh_model::fields::boundary::{direction, edge_direction, is_kept, position};
pub use places::{Extents, cell_row, number_of, place, row};
pub use pool::Pool;
pub use regions::{PlaceAt, Region, copy_region};
pub use store::Beside;

#[cfg(test)]
mod tests;
