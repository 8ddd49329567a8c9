//! Blocks that touch.

ghost use Rattle.std.specs.Prelude.{◌≡◌, ◌+◌, ◌*◌, ◌^◌, ◌<◌, ◌≤◌};
ghost use Rattle.mesh_model.specs.Geometry.Coordinates as coordinates;
ghost use Rattle.mesh_model.specs.Geometry.Limits.{IsShape};
ghost use Rattle.mesh_model.specs.Geometry.Touch as touch;
ghost use Rattle.mesh_model.specs.Geometry.Blocks.{InDomain};

use crate::geometry::Shape;
use crate::geometry::axes::{block_on, is_periodic, power_of_two, roots};
use amr_num::{Axis, BlockAt};

/// Where the block at `x` of `level` begins, in blocks of level 10.
fn low_end(level: u32, x: u32) -> u32
    requires level { level ≤ 10 }
    requires place { x < 8 * 2 ^ level }
    ensures value { result ≡ touch.low_end level x }
    ensures size { result ≤ 8192 }
{
    x * power_of_two(10 - level)
}

/// Where the block at `x` of `level` ends, in blocks of level 10.
fn high_end(level: u32, x: u32) -> u32
    requires level { level ≤ 10 }
    requires place { x < 8 * 2 ^ level }
    ensures value { result ≡ touch.high_end level x }
    ensures size { result ≤ 8192 }
{
    (x + 1) * power_of_two(10 - level)
}

/// Whether two closed stretches of an axis of `extent` units meet, where it is periodic also one turn on.
#[tactic(auto, unfolding(crate::specs::Geometry::Touch::stretches_meet))]
fn stretches_meet(
    periodic: bool,
    extent: u32,
    low: u32,
    high: u32,
    other_low: u32,
    other_high: u32,
) -> bool
    requires extent { extent ≤ 8192 }
    requires low { low ≤ 8192 }
    requires other_low { other_low ≤ 8192 }
    ensures { result ≡ touch.stretches_meet periodic extent low high other_low other_high }
{
    (low <= other_high && other_low <= high)
        || (periodic && (low + extent <= other_high || other_low + extent <= high))
}

/// Whether two blocks meet on an axis.
fn meet_on(shape: &Shape, a: BlockAt, b: BlockAt, axis: Axis) -> bool
    requires shape { IsShape shape.now }
    requires first { (a.level ≤ 10) × (touch.block_on axis a < 8 * 2 ^ a.level) }
    requires second { (b.level ≤ 10) × (touch.block_on axis b < 8 * 2 ^ b.level) }
    ensures { result ≡ touch.meet_on shape.now a b axis }
{
    let extent = roots(shape, axis) * 1024;
    let low = low_end(a.level, block_on(axis, a));
    let high = high_end(a.level, block_on(axis, a));
    let other_low = low_end(b.level, block_on(axis, b));
    let other_high = high_end(b.level, block_on(axis, b));
    stretches_meet(
        is_periodic(shape, axis),
        extent,
        low,
        high,
        other_low,
        other_high,
    )
}

/// Whether two blocks of the domain touch: their closed boxes meet, in a face, an edge or a corner too, with
/// wrap on periodic axes. A block touches itself.
#[tactic(auto, unfolding(crate::specs::Geometry::Touch::touches))]
pub fn touches(shape: &Shape, a: BlockAt, b: BlockAt) -> bool
    requires shape { IsShape shape.now }
    requires first { InDomain shape.now a }
    requires second { InDomain shape.now b }
    ensures { result ≡ touch.touches shape.now a b }
{
    meet_on(shape, a, b, Axis::X) && meet_on(shape, a, b, Axis::Y) && meet_on(shape, a, b, Axis::Z)
}
