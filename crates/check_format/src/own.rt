//! Which of a leaf's faces and edges stand in an image under this leaf.
//!
//! What lies on the boundary of a leaf may belong to other leaves too. In an image it stands under the first leaf of its level
//! in Morton order that has it, once, and nowhere where finer leaves stand beside it.

ghost use Rattle.block_tree.specs.Directions.{direction_of};
ghost use Rattle.block_tree.specs.GridOf.{grid_of};
ghost use Rattle.block_tree.specs.Numbered.{IsNode, block_at};
ghost use Rattle.check_format.specs.Own as own;
ghost use Rattle.check_format.specs.Own.{AreBits, AreTaken, IsOwn, is_free, is_own_edge, is_own_face, place};
ghost use Rattle.mesh_model.specs.Geometry.Blocks.{InDomain};
ghost use Rattle.mesh_model.specs.Tree.Kinds.{Grid, is_leaf_block};
ghost use Rattle.amr_num.specs.declared.BlockAt.{BlockAt};
ghost use Rattle.std.specs.Prelude.{◌≡◌, ◌≤◌, ◌<◌, true};

use amr_num::{Axis, BlockAt};
use block_tree::{Direction, Tree, block_toward, direction_at, direction_bit};
use mesh_model::fields::boundary::{direction, edge_direction, end_step, is_kept, position};
use morton_key::key_of;

/// The parts of a leaf's boundary, its inside among them, of which all faces and edges stand in an image under this leaf.
#[derive(Clone, Copy, Debug, PartialEq, Eq)]
pub struct Own {
    /// Bit x + 3 y + 9 z is that of the part in the direction with these steps.
    kept: u32,
}

/// Whether a direction has a step up.
fn goes_up(toward: Direction) -> bool
    ensures { result ≡ own.goes_up toward }
{
    toward.x == 2 || toward.y == 2 || toward.z == 2
}

/// Whether what lies towards a block belongs to that block, and not to the leaf `b`.
fn goes_to(tree: &Tree, b: BlockAt, toward: Direction, block: BlockAt) -> bool
    requires { InDomain (grid_of tree.now).shape b }
    ensures { result ≡ own.goes_to (grid_of tree.now) b toward block }
{
    if block == b {
        return goes_up(toward);
    }
    match tree.node_at(block) {
        None => false,
        Some(node) => !tree.is_leaf(node) || key_of(block).0 < key_of(b).0,
    }
}

/// Whether the block in a direction takes what lies towards it.
#[tactic(auto, unfolding(crate::specs::Own::is_taken))]
fn is_taken(tree: &Tree, b: BlockAt, toward: Direction) -> bool
    requires { InDomain (grid_of tree.now).shape b }
    ensures { result ≡ own.is_taken (grid_of tree.now) b toward }
{
    match block_toward(&tree.shape(), toward, b) {
        None => false,
        Some(block) => goes_to(tree, b, toward, block),
    }
}

/// The parts of the leaf `b`'s boundary that blocks take.
fn taken_parts(tree: &Tree, b: BlockAt) -> u32
    requires { InDomain (grid_of tree.now).shape b }
    ensures { AreTaken (grid_of tree.now) b result }
{
    let mut taken = 0;
    for number in 0..27 {
        taken += direction_bit(is_taken(tree, b, direction_at(number)), number);
    }
    taken
}

/// Whether no choice of steps of a direction is that of a part that is taken.
#[tactic(auto, unfolding(crate::specs::Own::is_free))]
fn is_free(taken: u32, part: Direction) -> bool
    requires { (part.x ≤ 2) × (part.y ≤ 2) × (part.z ≤ 2) }
    ensures { result ≡ is_free taken part }
{
    let Direction { x, y, z } = part;
    let all = is_kept(taken, direction(x, y, z));
    let less_x = is_kept(taken, direction(1, y, z));
    let less_y = is_kept(taken, direction(x, 1, z));
    let less_z = is_kept(taken, direction(x, y, 1));
    let on_x = is_kept(taken, direction(x, 1, 1));
    let on_y = is_kept(taken, direction(1, y, 1));
    let on_z = is_kept(taken, direction(1, 1, z));
    let inside = is_kept(taken, direction(1, 1, 1));
    !(all || less_x || less_y || less_z || on_x || on_y || on_z || inside)
}

/// The parts of which no choice of steps is that of a part that is taken.
fn free_parts(taken: u32) -> u32
    ensures { AreBits (λ d. is_free taken (direction_of d)) 27 result }
{
    let mut free = 0;
    for number in 0..27 {
        free += direction_bit(is_free(taken, direction_at(number)), number);
    }
    free
}

impl Own {
    /// What stands under a leaf. Needs no memory, and looks for 26 nodes at most.
    pub fn of(tree: &Tree, node: u32) -> Own
        requires node { IsNode (grid_of tree.now) node }
        requires leaf { is_leaf_block (grid_of tree.now) (block_at (grid_of tree.now) node) ≡ true }
        ensures { IsOwn (grid_of tree.now) (block_at (grid_of tree.now) node) result }
    {
        Own {
            kept: free_parts(taken_parts(tree, tree.at(node))),
        }
    }

    /// Whether the face normal to `axis` at the place (i, j, k) of the leaf, a block of `n` cells along each axis, stands under
    /// it. Places count from the leaf's first cell, up to `n` along the face's axis and below `n` across it.
    pub fn has_face(&self, n: u32, axis: Axis, i: u32, j: u32, k: u32) -> bool
        ensures { (g : Grid) (b : BlockAt) → IsOwn g b self.now → n ≡ g.shape.n → result ≡ is_own_face g b axis (place i j k) }
    {
        let at = position(axis, i as usize, j as usize, k as usize);
        let step = end_step(n as usize, at);
        let part = match axis {
            Axis::X => direction(step, 1, 1),
            Axis::Y => direction(1, step, 1),
            Axis::Z => direction(1, 1, step),
        };
        is_kept(self.kept, part)
    }

    /// The same of the edge along `axis` at a place, which counts up to `n` across the edge's axis and below `n` along it.
    pub fn has_edge(&self, n: u32, axis: Axis, i: u32, j: u32, k: u32) -> bool
        ensures { (g : Grid) (b : BlockAt) → IsOwn g b self.now → n ≡ g.shape.n → result ≡ is_own_edge g b axis (place i j k) }
    {
        is_kept(
            self.kept,
            edge_direction(n as usize, axis, i as usize, j as usize, k as usize),
        )
    }
}
