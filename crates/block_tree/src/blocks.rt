//! Blocks by coordinates.

ghost use Rattle.std.specs.Prelude.{◌≡◌, ◌+◌, ◌-◌, ◌*◌, ◌/◌, ◌^◌, ◌<◌, ◌≤◌, ◌↔◌, IsTrue};
ghost use Rattle.mesh_model.specs.Geometry.Blocks as model;
ghost use Rattle.mesh_model.specs.Geometry.Limits.{IsShape};
ghost use Rattle.mesh_model.specs.Geometry.Limits as limits;
ghost use Rattle.mesh_model.specs.Tree.Start as start;
ghost use Rattle.mesh_model.specs.Geometry.Blocks.{InDomain};
ghost use Rattle.morton_key.specs.Keyed.{HasKey};

use amr_num::{BlockAt, CellAt};
use mesh_model::Shape;

/// The block one level coarser in which a block lies.
pub fn parent_block(b: BlockAt) -> BlockAt
    requires { 0 < b.level }
    ensures { result ≡ model.parent_block b }
{
    BlockAt {
        level: b.level - 1,
        x: b.x / 2,
        y: b.y / 2,
        z: b.z / 2,
    }
}

/// The child `octant` of a block.
pub fn child_block(b: BlockAt, octant: u32) -> BlockAt
    requires level { b.level < 10 }
    requires place { HasKey b }
    requires octant { octant < 8 }
    ensures { result ≡ model.child_block b octant }
{
    BlockAt {
        level: b.level + 1,
        x: 2 * b.x + octant % 2,
        y: 2 * b.y + octant / 2 % 2,
        z: 2 * b.z + octant / 4 % 2,
    }
}

/// `x` halved so many times, rounded down.
fn halved(x: u32, times: u32) -> u32
    ensures { result ≡ x / 2 ^ times }
{
    if times < 32 { x >> times } else { 0 }
}

/// The block of `level` in which a cell lies, in blocks of `n` cells along each axis.
pub fn block_over(n: u32, c: CellAt, level: u32) -> BlockAt
    requires cells { 0 < n }
    requires level { level ≤ c.level }
    ensures { let scale = 2 ^ (c.level - level) in
        result ≡ record { level = level; x = c.x / n / scale; y = c.y / n / scale; z = c.z / n / scale } }
{
    let times = c.level - level;
    BlockAt {
        level,
        x: halved(c.x / n, times),
        y: halved(c.y / n, times),
        z: halved(c.z / n, times),
    }
}

/// Whether a block lies in the domain and has a level of the mesh.
pub fn is_in_domain(shape: &Shape, b: BlockAt) -> bool
    requires { IsShape shape.now }
    ensures { IsTrue result ↔ InDomain shape.now b }
{
    b.level <= shape.max
        && b.x < shape.rx << b.level
        && b.y < shape.ry << b.level
        && b.z < shape.rz << b.level
}

/// The number whose bits are every third bit of a number below 512.
fn every_third(m: u32) -> u32
    ensures { result ≡ start.every_third m }
{
    m % 2 + 2 * (m / 8 % 2) + 4 * (m / 64 % 2)
}

/// The root at place `m` of the Morton order of 8 by 8 by 8 roots.
pub fn root_at(m: u32) -> BlockAt
    ensures { result ≡ start.root_at m }
{
    BlockAt {
        level: 0,
        x: every_third(m),
        y: every_third(m / 2),
        z: every_third(m / 4),
    }
}

/// The most nodes that a tree of this shape has.
pub fn most_nodes(shape: &Shape) -> u32
    ensures value { result ≡ limits.most_nodes shape.now }
    ensures few { result ≤ 8192 }
{
    if shape.g == 4 { 4096 } else { 8192 }
}
