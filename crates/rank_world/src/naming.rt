//! Coordinates of places of blocks, by which faces and edges are named.

ghost use Rattle.mesh_model.specs.Geometry.Limits.{IsShape};
ghost use Rattle.mesh_model.specs.Geometry.Places.{in_block};
ghost use Rattle.std.specs.Prelude.{◌≡◌, ◌+◌, ◌*◌, ◌<◌, ◌≤◌};

use amr_num::{BlockAt, CellAt};
use block_store::Above;
use mesh_model::Shape;

/// The coordinate on an axis of a block's place.
fn place_on(n: u32, block: u32, i: u32) -> u32
    requires size { n ≤ 8 }
    requires block { block < 8192 }
    requires place { i ≤ n }
    ensures { result ≡ n * block + i }
{
    n * block + i
}

/// The coordinates of the place of a block at which a number was found.
pub(crate) fn numbers_of(shape: &Shape, block: BlockAt, found: Above) -> CellAt
    requires shape { IsShape shape.now }
    requires block { (block.x < 8192) × (block.y < 8192) × (block.z < 8192) }
    requires place { (found.i ≤ shape.now.n) × (found.j ≤ shape.now.n) × (found.k ≤ shape.now.n) }
    ensures { result ≡ in_block shape.now.n block found.i found.j found.k }
{
    CellAt {
        level: block.level,
        x: place_on(shape.n, block.x, found.i),
        y: place_on(shape.n, block.y, found.j),
        z: place_on(shape.n, block.z, found.k),
    }
}
