//! The cells of a block by their places.

ghost use Rattle.mesh_model.specs.Geometry.Places.{in_block};
ghost use Rattle.std.specs.Prelude.{◌≡◌, ◌<◌, ◌≤◌, ◌^◌};
ghost use Rattle.staggered.specs.Blocks.{IsSmallBlock};

use amr_num::{BlockAt, CellAt};

/// The cell at the place (i, j, k) of a block of `n` cells along each axis.
pub fn cell_in(n: u32, block: BlockAt, i: u32, j: u32, k: u32) -> CellAt
    requires size { n ≤ 8 }
    requires block { IsSmallBlock block }
    requires place { (i < n) × (j < n) × (k < n) }
    ensures value { result ≡ in_block n block i j k }
    ensures near { (result.x < 2 ^ 20) × (result.y < 2 ^ 20) × (result.z < 2 ^ 20) }
    ensures level { result.level ≤ 10 }
{
    CellAt {
        level: block.level,
        x: n * block.x + i,
        y: n * block.y + j,
        z: n * block.z + k,
    }
}
