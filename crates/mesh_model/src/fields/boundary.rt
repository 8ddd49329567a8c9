//! The parts of a block's boundary: its sides, its edges and its corners, by the direction in which they lie.
//!
//! On each axis 0 is down, 1 is none and 2 is up, and the direction with the steps x, y and z has the number x + 3 y + 9 z.
//! So 13 stands for what lies inside a block. A set of parts has the bit of each of their directions.

ghost use Rattle.mesh_model.specs.Fields.EdgeSplits as edge_splits;
ghost use Rattle.mesh_model.specs.Fields.FaceSplits as splits;
ghost use Rattle.std.specs.Prelude.{◌≡◌, ◌<◌, ◌≤◌};

use amr_num::Axis;

/// The one of three coordinates that is on an axis.
#[inline]
pub fn position(axis: Axis, i: usize, j: usize, k: usize) -> usize
    ensures { result ≡ splits.position axis i j k }
{
    match axis {
        Axis::X => i,
        Axis::Y => j,
        Axis::Z => k,
    }
}

/// The direction with a step on each axis.
pub fn direction(x: u32, y: u32, z: u32) -> u32
    requires { (x ≤ 2) × (y ≤ 2) × (z ≤ 2) }
    ensures value { result ≡ splits.direction x y z }
    ensures few { result < 27 }
{
    x + 3 * y + 9 * z
}

/// Whether the part in a direction is one of the set.
pub fn is_kept(kept: u32, direction: u32) -> bool
    requires { direction < 27 }
    ensures { result ≡ splits.is_kept kept direction }
{
    (kept >> direction) % 2 == 1
}

/// The step to the part of the boundary at a position on an axis of `n` cells.
pub fn end_step(n: usize, position: usize) -> u32
    ensures value { result ≡ edge_splits.end_step n position }
    ensures few { result ≤ 2 }
{
    if position == 0 {
        0
    } else if position == n {
        2
    } else {
        1
    }
}

/// The direction of the part of a block's boundary on which one of its edges lies, by the axis along which it lies and its
/// coordinates in the block of `n` cells along each axis.
pub fn edge_direction(n: usize, axis: Axis, i: usize, j: usize, k: usize) -> u32
    ensures value { result ≡ edge_splits.edge_direction n axis i j k }
    ensures few { result < 27 }
{
    match axis {
        Axis::X => direction(1, end_step(n, j), end_step(n, k)),
        Axis::Y => direction(end_step(n, i), 1, end_step(n, k)),
        Axis::Z => direction(end_step(n, i), end_step(n, j), 1),
    }
}
