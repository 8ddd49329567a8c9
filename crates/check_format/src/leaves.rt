//! The numbers of leaves in an image, in numbered pieces.

ghost use Rattle.std.specs.Prelude.{◌≡◌, ◌*◌, ◌<◌, ◌≤◌, length, true};
ghost use Rattle.block_tree.specs.GridOf.{grid_of};
ghost use Rattle.block_tree.specs.Interior.{HasInterior};
ghost use Rattle.block_tree.specs.Numbered.{IsNode, block_at};
ghost use Rattle.check_format.specs.Numbered.{IsPut};
ghost use Rattle.check_format.specs.Own.{IsOwn};
ghost use Rattle.check_format.specs.Written as written;
ghost use Rattle.check_format.specs.Writing.{IsOfGrid};
ghost use Rattle.mesh_model.specs.Tree.Kinds.{is_leaf_block};
ghost use Rattle.mesh_model.specs.Tree.Order.{nodes};

use crate::own::Own;
use crate::rows::Row;
use block_tree::{Tree, axes_of};
use mesh_model::{BlockValues, Group};

/// The last leaf that was looked at, and what stands under it.
#[derive(Clone, Copy)]
pub struct LastLeaf {
    node: u32,
    own: Own,
}

/// How many pieces an array has at a leaf: two for each row over x, of rows at one more place on y and z than there are
/// cells.
fn array_count(tree: &Tree) -> u32
    ensures value { result ≡ written.array_count (grid_of tree.now) }
    ensures some { 0 < result }
    ensures few { result ≤ 162 }
{
    let wide = tree.shape().n + 1;
    wide * (wide * 2)
}

/// How many pieces the arrays of a group have at a node.
fn node_count(tree: &Tree, group: Group) -> u32
    ensures value { result ≡ written.node_count (grid_of tree.now) group }
    ensures some { 0 < result }
    ensures few { result ≤ 486 }
{
    axes_of(group).len() as u32 * array_count(tree)
}

/// How many pieces the arrays of a group have.
pub fn group_count(tree: &Tree, group: Group) -> u32
    ensures value { result ≡ length (nodes (grid_of tree.now).leaves) * written.node_count (grid_of tree.now) group }
    ensures few { result ≤ 8192 * 486 }
{
    tree.len() * node_count(tree, group)
}

/// What stands under a leaf, which the last one remembers.
fn own_of(last: &mut Option<LastLeaf>, tree: &Tree, node: u32) -> Own
    requires last { IsOfGrid (grid_of tree.now) last.old }
    requires node { IsNode (grid_of tree.now) node }
    requires leaf { is_leaf_block (grid_of tree.now) (block_at (grid_of tree.now) node) ≡ true }
    ensures own { IsOwn (grid_of tree.now) (block_at (grid_of tree.now) node) result }
    ensures last { IsOfGrid (grid_of tree.now) last.new }
{
    if let Some(leaf) = last {
        if leaf.node == node {
            return leaf.own;
        }
    }
    let own = Own::of(tree, node);
    *last = Some(LastLeaf { node, own });
    own
}

/// Puts a piece of the arrays of a group at a leaf at the front of a buffer, and answers how many bytes it has.
fn put_leaf<V: BlockValues>(
    tree: &Tree,
    values: &V,
    own: &Own,
    group: Group,
    node: u32,
    number: u32,
    buf: &mut [u8],
) -> usize
    requires own { let g = grid_of tree.now in IsOwn g (block_at g node) own.now }
    requires node { IsNode (grid_of tree.now) node }
    requires leaf { let g = grid_of tree.now in is_leaf_block g (block_at g node) ≡ true }
    requires there { HasInterior (V.is_there values.now) (grid_of tree.now) group }
    requires number { number < written.node_count (grid_of tree.now) group }
    requires room { 64 ≤ length buf.old }
    ensures put { IsPut ((written.leaf_pieces (grid_of tree.now) (V.number values.now) group node).piece number) result buf.old buf.new }
    ensures few { result ≤ 64 }
{
    let wide = tree.shape().n + 1;
    let many = array_count(tree);
    let place = number % many;
    let on_plane = place % (wide * 2);
    let row = Row {
        group,
        axis: axes_of(group)[(number / many) as usize],
        node,
        k: place / (wide * 2),
        j: on_plane / 2,
    };
    row.put_piece(tree, values, own, on_plane % 2, buf)
}

/// Puts a piece of the arrays of a group at the front of a buffer, and answers how many bytes it has.
pub fn put_group<V: BlockValues>(
    tree: &Tree,
    values: &V,
    last: &mut Option<LastLeaf>,
    group: Group,
    number: u32,
    buf: &mut [u8],
) -> usize
    requires last { IsOfGrid (grid_of tree.now) last.old }
    requires there { HasInterior (V.is_there values.now) (grid_of tree.now) group }
    requires number { number < (written.group_pieces (grid_of tree.now) (V.number values.now) group).count }
    requires room { 64 ≤ length buf.old }
    ensures put { IsPut ((written.group_pieces (grid_of tree.now) (V.number values.now) group).piece number) result buf.old buf.new }
    ensures few { result ≤ 64 }
    ensures last { IsOfGrid (grid_of tree.now) last.new }
{
    let many = node_count(tree, group);
    let node = number / many;
    if !tree.is_leaf(node) {
        return 0;
    }
    let own = own_of(last, tree, node);
    put_leaf(tree, values, &own, group, node, number % many, buf)
}
