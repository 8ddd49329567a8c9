//! Why a command is refused, and where the reason stands.

use crate::fields::spot::{RangeStop, Spot};
use amr_num::BlockAt;

/// A leaf that may not be marked: its level, and the limit at which it stands.
#[derive(Clone, Copy, Debug, PartialEq, Eq)]
pub struct LevelStop {
    /// The level of the leaf.
    pub level: u32,
    /// The finest level where it is marked to be refined, and the coarsest where it is marked to be merged.
    pub limit: u32,
}

/// Why a command is refused. It leaves the mesh then.
#[derive(Clone, Copy, Debug, PartialEq, Eq)]
pub enum Refusal {
    /// It would store a number out of range: the first of them in the walk through the mesh.
    Range(RangeStop),
    /// Its speeds move more than one finest cell a step.
    Courant([i64; 3]),
    /// It marks a leaf at the limit of levels.
    Level(LevelStop),
    /// It names no canonical leaf face, or no canonical leaf edge.
    Place(Spot),
    /// It names no leaf.
    PlaceBlock(BlockAt),
    /// It would make more nodes than the limit: how many.
    Blocks(u32),
}
