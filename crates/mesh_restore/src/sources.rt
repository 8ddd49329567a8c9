//! Leaves from which a leaf takes the numbers that it has in common with them.

ghost use Rattle.block_tree.specs.Directions.{direction_of};
ghost use Rattle.block_tree.specs.GridOf.{grid_of};
ghost use Rattle.block_tree.specs.Numbered.{IsNode};
ghost use Rattle.mesh_model.specs.Tree.Kinds.{Grid};
ghost use Rattle.mesh_restore.specs.Sources as sources;
ghost use Rattle.mesh_restore.specs.Sources.{AreSources, IsSourceRound, IsSourceToward};
ghost use Rattle.std.specs.Prelude.{◌≡◌, ◌≤◌, ◌<◌, ℕ};

use block_tree::{Direction, Tree, block_toward, direction_at};
use mesh_model::fields::boundary::direction;

/// A leaf that lies in a direction from another one, and is filled before.
#[derive(Clone, Copy, Debug, PartialEq, Eq)]
pub struct Source {
    /// The node of the leaf. It is the other leaf itself on an axis of one root.
    pub node: u32,
    /// The direction in which it lies.
    pub toward: Direction,
}

/// Whether some step of a direction is up.
fn goes_up(toward: Direction) -> bool
    ensures { result ≡ up.goes_up toward }
{
    toward.x == 2 || toward.y == 2 || toward.z == 2
}

/// Whether no step of a direction is down, and some is up.
fn goes_only_up(toward: Direction) -> bool
    ensures { result ≡ sources.goes_only_up toward }
{
    goes_up(toward) && !(toward.x == 0 || toward.y == 0 || toward.z == 0)
}

/// Whether what a leaf has in common with another leaf in a direction is filled there before.
fn comes_before(node: u32, toward: Direction, other: u32) -> bool
    ensures { result ≡ sources.comes_before node toward other }
{
    other < node || (other == node && goes_only_up(toward))
}

/// The leaf in a direction from the leaf `node`, where it is filled before.
fn source_toward(tree: &Tree, node: u32, toward: Direction) -> Option<Source>
    requires { IsNode (grid_of tree.now) node }
    ensures { IsSourceToward (grid_of tree.now) node toward result }
{
    let block = match block_toward(&tree.shape(), toward, tree.at(node)) {
        None => return None,
        Some(block) => block,
    };
    match tree.leaf_at(block) {
        None => None,
        Some(other) => if comes_before(node, toward, other) {
            Some(Source {
                node: other,
                toward,
            })
        } else {
            None
        },
    }
}

/// The leaves in all directions from the leaf `node` that are filled before, by the numbers x + 3 y + 9 z of the directions.
pub fn sources_of(tree: &Tree, node: u32) -> [Option<Source>; 27]
    requires { IsNode (grid_of tree.now) node }
    ensures { AreSources (grid_of tree.now) node result }
{
    let mut sources = [None; 27];
    for number in 0..27 {
        sources[number as usize] = source_toward(tree, node, direction_at(number));
    }
    sources
}

/// A choice of steps of a direction: on each axis the direction's step, or none where the bit of the axis stands.
fn choice(part: Direction, bits: u32) -> Direction
    ensures { result ≡ sources.choice_of part bits }
{
    Direction {
        x: if bits % 2 == 0 { part.x } else { 1 },
        y: if bits / 2 % 2 == 0 { part.y } else { 1 },
        z: if bits / 4 % 2 == 0 { part.z } else { 1 },
    }
}

/// A leaf that is filled before and has what lies on a part of the boundary in common: one in a direction that has steps of
/// the part's direction, and none.
pub fn source_round(sources: &[Option<Source>], part: Direction) -> Option<Source>
    requires part { (part.x ≤ 2) × (part.y ≤ 2) × (part.z ≤ 2) }
    requires size { length sources.now ≡ 27 }
    ensures { (g : Grid) (node : ℕ) → AreSources g node sources.now → IsSourceRound g node part result }
{
    for bits in 0..8 {
        let toward = choice(part, bits);
        let found = sources[direction(toward.x, toward.y, toward.z) as usize];
        if found.is_some() {
            return found;
        }
    }
    None
}

ghost use Rattle.check_format.specs.Own as up;
ghost use Rattle.std.specs.Prelude.{length};
