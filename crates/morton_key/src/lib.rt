//! Keys of blocks on the Morton curve: nodes of the tree go by rising key, and a key tells its block.
//!
//! A key holds, from its lowest bits, the block's level in 4 bits and its place on the curve in 39: the 13 bits
//! of each coordinate at which the block begins, in blocks of level 10, interleaved with x lowest.
#![tactic(auto)]

ghost use Rattle.std.specs.Prelude.{◌≡◌, ◌-◌, ◌*◌, ◌/◌, ◌^◌, ◌<◌, ◌≤◌, MatchOption};
ghost use Rattle.amr_num.specs.MortonKey.{key, low_end};
ghost use Rattle.amr_num.specs.declared.BlockAt.{BlockAt};
ghost use Rattle.morton_key.specs.Bits.{respaced};
ghost use Rattle.morton_key.specs.Keyed.{HasKey};

pub mod laws;

use amr_num::BlockAt;

/// The key of a block. Blocks stand in Morton order where their keys rise.
#[derive(Clone, Copy, Debug, PartialEq, Eq, PartialOrd, Ord)]
pub struct Key(pub u64);

/// The bits of a number below 2^13, three places apart.
///
/// Each step doubles the number and keeps of the two copies what moves on and what stays: first the upper 5 of
/// the 13 bits move on, then the upper 4 of each 8, then 2 of each 4, then 1 of each 2.
fn spread(n: u64) -> u64
    requires { n < 2 ^ 13 }
    ensures value { result ≡ respaced 1 3 13 n }
    ensures size { 7 * result < 2 ^ 39 }
{
    let n = (n | n << 16) & 0x1f00_00ff;
    let n = (n | n << 8) & 0x10_0f00_f00f;
    let n = (n | n << 4) & 0x10_c30c_30c3;
    (n | n << 2) & 0x12_4924_9249
}

/// Every third bit of a number, from the lowest, 13 in all, side by side: the steps of [`spread`] back.
fn gathered(n: u64) -> u64
    ensures value { result ≡ respaced 3 1 13 n }
    ensures size { result < 2 ^ 13 }
{
    let n = n & 0x12_4924_9249;
    let n = (n | n >> 2) & 0x10_c30c_30c3;
    let n = (n | n >> 4) & 0x10_0f00_f00f;
    let n = (n | n >> 8) & 0x1f00_00ff;
    (n | n >> 16) & 0x1fff
}

/// Where the block at `x` of `level` begins, in blocks of level 10.
fn beginning(level: u32, x: u32) -> u64
    requires level { level ≤ 10 }
    requires place { x < 8 * 2 ^ level }
    ensures value { result ≡ low_end level x }
    ensures size { result < 2 ^ 13 }
{
    u64::from(x) << (10 - level)
}

/// The coordinate at `level` of the block in which the block of level 10 at `x` lies.
fn coordinate(level: u32, x: u64) -> u32
    requires level { level ≤ 10 }
    requires place { x < 2 ^ 13 }
    ensures value { result ≡ x / 2 ^ (10 - level) }
    ensures size { result < 8 * 2 ^ level }
{
    (x >> (10 - level)) as u32
}

/// The key of a block of a level of at most 10 and coordinates below 8 * 2^level.
pub fn key_of(b: BlockAt) -> Key
    requires { HasKey b }
    ensures value { result.0 ≡ key b }
    ensures size { result.0 < 2 ^ 43 }
{
    let x = spread(beginning(b.level, b.x));
    let y = spread(beginning(b.level, b.y));
    let z = spread(beginning(b.level, b.z));
    let place = x + (y << 1) + (z << 2);
    Key((place << 4) + u64::from(b.level))
}

/// The block with a key; `None` exactly where no block of a level of at most 10 and coordinates below 8 * 2^level has it.
pub fn block_of(k: Key) -> Option<BlockAt>
    ensures exact { MatchOption result ((b : BlockAt) → HasKey b → key b ≡ k.0 → ⊥) (λ b. HasKey b × (key b ≡ k.0)) }
    ensures back { (b : BlockAt) → HasKey b → key b ≡ k.0 → result ≡ Some b }
{
    let level = (k.0 % 16) as u32;
    if level > 10 {
        return None;
    }
    let place = k.0 >> 4;
    let b = BlockAt {
        level,
        x: coordinate(level, gathered(place)),
        y: coordinate(level, gathered(place >> 1)),
        z: coordinate(level, gathered(place >> 2)),
    };
    // What is no key has bits above the curve's, or bits on levels finer than its own.
    if key_of(b) == k { Some(b) } else { None }
}

#[cfg(test)]
mod tests {
    use super::*;

    #[test]
    fn keys_are_the_worked_ones(rt: HostRuntime) {
        let rows = [
            (0, 0, 0, 0, 0),
            (1, 0, 0, 0, 1),
            (1, 1, 0, 0, 2147483649),
            (1, 0, 1, 0, 4294967297),
            (0, 1, 0, 0, 17179869184),
        ];
        for (level, x, y, z, key) in rows {
            let b = BlockAt { level, x, y, z };
            assert_eq!(rt; key_of(b), Key(key));
            assert_eq!(rt; block_of(Key(key)), Some(b));
        }
    }
}
