//! Blocks in all directions from a block, and what lies round the edges on its boundary.

ghost use Rattle.block_tree.specs.Directions as directions;
ghost use Rattle.block_tree.specs.Directions.{AreParts, IsRound, IsToward, direction_of, is_kind, lies_round, lies_toward};
ghost use Rattle.block_tree.specs.GridOf.{grid_of};
ghost use Rattle.block_tree.specs.Numbered.{IsNumberOf};
ghost use Rattle.mesh_model.specs.Geometry.Blocks.{InDomain};
ghost use Rattle.mesh_model.specs.Geometry.Coordinates as coordinates;
ghost use Rattle.mesh_model.specs.Geometry.Limits.{IsShape};
ghost use Rattle.std.specs.Prelude.{◌≡◌, ◌*◌, ◌^◌, ◌<◌, ◌≤◌, MatchOption, true, false, if◌then◌else◌};

use crate::beside::blocks_on;
use crate::tree::Tree;
use amr_num::{Axis, BlockAt};
use mesh_model::Shape;
use mesh_model::geometry::axes::{block_on, is_periodic};
use mesh_model::geometry::{above, below};

/// A direction from a block: on each axis 0 is down, 1 is none and 2 is up.
#[derive(Clone, Copy, Debug, PartialEq, Eq)]
pub struct Direction {
    /// On the axis x.
    pub x: u32,
    /// On the axis y.
    pub y: u32,
    /// On the axis z.
    pub z: u32,
}

/// A node that lies in a direction from a block.
#[derive(Clone, Copy, Debug, PartialEq, Eq)]
pub struct Round {
    /// The node.
    pub node: u32,
    /// The direction in which it lies.
    pub toward: Direction,
}

/// The direction with a number: x + 3 y + 9 z.
pub fn direction_at(number: u32) -> Direction
    ensures { result ≡ direction_of number }
{
    Direction {
        x: number % 3,
        y: number / 3 % 3,
        z: number / 9 % 3,
    }
}

/// The coordinate one step along an axis of `many` blocks.
fn coordinate_toward(periodic: bool, step: u32, many: u32, at: u32) -> Option<u32>
    requires { at < many }
    ensures { result ≡ directions.toward_on periodic step many at }
{
    match step {
        0 => below(periodic, many, at),
        1 => Some(at),
        _ => above(periodic, many, at + 1),
    }
}

/// The same of a block, on one of its axes.
fn along(shape: &Shape, axis: Axis, step: u32, b: BlockAt) -> Option<u32>
    requires shape { IsShape shape.now }
    requires inside { InDomain shape.now b }
    ensures { result ≡ directions.along shape.now axis step b }
{
    let many = blocks_on(shape, axis, b.level);
    coordinate_toward(is_periodic(shape, axis), step, many, block_on(axis, b))
}

/// The block of the same level in a direction from `b`, wrapped on periodic axes. `None` exactly where that is outside
/// the domain.
#[tactic(auto, unfolding(crate::specs::Directions::block_toward))]
pub fn block_toward(shape: &Shape, toward: Direction, b: BlockAt) -> Option<BlockAt>
    requires shape { IsShape shape.now }
    requires inside { InDomain shape.now b }
    ensures { result ≡ directions.block_toward shape.now toward b }
{
    match along(shape, Axis::X, toward.x, b) {
        None => None,
        Some(x) => match along(shape, Axis::Y, toward.y, b) {
            None => None,
            Some(y) => match along(shape, Axis::Z, toward.z, b) {
                None => None,
                Some(z) => Some(BlockAt {
                    level: b.level,
                    x,
                    y,
                    z,
                }),
            },
        },
    }
}

/// The node of a block that is a leaf, or with `leaf` false that is none.
#[tactic(auto, using(crate::proofs::Numbers::splits))]
fn node_of_kind(tree: &Tree, leaf: bool, b: BlockAt) -> Option<u32>
    ensures { MatchOption result (is_kind (grid_of tree.now) leaf b ≡ false)
        (λ node. (is_kind (grid_of tree.now) leaf b ≡ true) × IsNumberOf (grid_of tree.now) b node) }
{
    if leaf {
        return tree.leaf_at(b);
    }
    match tree.node_at(b) {
        None => None,
        Some(node) => { if tree.is_leaf(node) { None } else { Some(node) } }
    }
}

/// The node in a direction from a block, where it is a leaf, or with `leaf` false where it is none.
#[tactic(auto, unfolding(crate::specs::Directions::lies_toward))]
fn node_toward(tree: &Tree, leaf: bool, toward: Direction, b: BlockAt) -> Option<u32>
    requires { InDomain (grid_of tree.now).shape b }
    ensures { MatchOption result (lies_toward (grid_of tree.now) leaf b toward ≡ false) (IsToward (grid_of tree.now) leaf b toward) }
{
    match block_toward(&tree.shape(), toward, b) {
        None => None,
        Some(block) => node_of_kind(tree, leaf, block),
    }
}

/// Whether edges lie on the part of a block's boundary in a direction: on all parts but the corners.
fn has_edges(toward: Direction) -> bool
    ensures { result ≡ directions.has_edges toward }
{
    toward.x == 1 || toward.y == 1 || toward.z == 1
}

/// A node round the edges on the part of a block's boundary in a direction, where one of those is a leaf, or with `leaf`
/// false where one is none: of the block in that direction, and of those in the directions with one step less. `None` where
/// all are of the other kind, are no nodes or lie outside the domain, and at corners, where no edges are.
#[tactic(auto, unfolding(crate::specs::Directions::lies_round))]
pub fn node_round(tree: &Tree, leaf: bool, toward: Direction, b: BlockAt) -> Option<Round>
    requires { InDomain (grid_of tree.now).shape b }
    ensures { MatchOption result (lies_round (grid_of tree.now) leaf b toward ≡ false) (IsRound (grid_of tree.now) leaf b toward) }
{
    if !has_edges(toward) {
        return None;
    }
    let less_x = Direction { x: 1, ..toward };
    let less_y = Direction { y: 1, ..toward };
    let less_z = Direction { z: 1, ..toward };
    if let Some(node) = node_toward(tree, leaf, toward, b) {
        return Some(Round { node, toward });
    }
    if let Some(node) = node_toward(tree, leaf, less_x, b) {
        return Some(Round {
            node,
            toward: less_x,
        });
    }
    if let Some(node) = node_toward(tree, leaf, less_y, b) {
        return Some(Round {
            node,
            toward: less_y,
        });
    }
    match node_toward(tree, leaf, less_z, b) {
        None => None,
        Some(node) => Some(Round {
            node,
            toward: less_z,
        }),
    }
}

/// The bit of a direction, where it stands.
pub fn direction_bit(stands: bool, number: u32) -> u32
    requires { number < 27 }
    ensures value { result ≡ (if stands then 2 ^ number else 0) }
    ensures few { result ≤ 2 ^ number }
{
    if stands { 1 << number } else { 0 }
}

/// The parts of a block's boundary round whose edges finer leaves stand: bit x + 3 y + 9 z of the part in a direction.
pub fn finer_parts(tree: &Tree, b: BlockAt) -> u32
    requires { InDomain (grid_of tree.now).shape b }
    ensures { AreParts (grid_of tree.now) false b 27 result }
{
    let mut parts = 0;
    for number in 0..27 {
        let stands = node_round(tree, false, direction_at(number), b).is_some();
        parts += direction_bit(stands, number);
    }
    parts
}
