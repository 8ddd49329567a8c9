//! How many numbers an image has.

ghost use Rattle.std.specs.Prelude.{◌≡◌, ◌≤◌, length, true};
ghost use Rattle.block_tree.specs.GridOf.{grid_of};
ghost use Rattle.block_tree.specs.Numbered.{IsNode, block_at};
ghost use Rattle.check_format.specs.Counts as counts;
ghost use Rattle.check_format.specs.Own.{IsOwn};
ghost use Rattle.mesh_model.specs.Tree.Kinds.{is_leaf_block};

use crate::own::Own;
use crate::rows::Row;
use amr_num::Axis;
use block_tree::{Tree, array_on, axes_of, places_along};
use mesh_model::Group;

/// How many numbers of a row are written under its leaf.
fn row_count(tree: &Tree, own: &Own, row: Row) -> u32
    requires { let g = grid_of tree.now in IsOwn g (block_at g row.node) own.now }
    ensures value { let g = grid_of tree.now in
        result ≡ length (counts.own_row row.group g (block_at g row.node) row.axis row.k row.j) }
    ensures few { result ≤ 9 }
{
    let many = places_along(tree.shape().n, array_on(row.group, row.axis), Axis::X);
    let mut count = 0;
    for i in 0..many {
        count += u32::from(row.is_own(tree, own, i));
    }
    count
}

/// How many numbers of a row's plane are.
fn plane_count(tree: &Tree, own: &Own, row: Row) -> u32
    requires { let g = grid_of tree.now in IsOwn g (block_at g row.node) own.now }
    ensures value { let g = grid_of tree.now in
        result ≡ length (counts.own_plane row.group g (block_at g row.node) row.axis row.k) }
    ensures few { result ≤ 81 }
{
    let many = places_along(tree.shape().n, array_on(row.group, row.axis), Axis::Y);
    let mut count = 0;
    for j in 0..many {
        count += row_count(tree, own, Row { j, ..row });
    }
    count
}

/// How many numbers of a row's array are.
fn array_count(tree: &Tree, own: &Own, row: Row) -> u32
    requires { let g = grid_of tree.now in IsOwn g (block_at g row.node) own.now }
    ensures value { let g = grid_of tree.now in
        result ≡ length (counts.own_array row.group g (block_at g row.node) row.axis) }
    ensures few { result ≤ 729 }
{
    let many = places_along(tree.shape().n, array_on(row.group, row.axis), Axis::Z);
    let mut count = 0;
    for k in 0..many {
        count += plane_count(tree, own, Row { k, ..row });
    }
    count
}

/// How many numbers of a group are written under a leaf.
fn leaf_count(tree: &Tree, group: Group, node: u32) -> u32
    requires node { IsNode (grid_of tree.now) node }
    requires leaf { is_leaf_block (grid_of tree.now) (block_at (grid_of tree.now) node) ≡ true }
    ensures value { let g = grid_of tree.now in result ≡ length (counts.own_leaf group g (block_at g node)) }
    ensures few { result ≤ 2187 }
{
    let own = Own::of(tree, node);
    let mut count = 0;
    for axis in axes_of(group) {
        let row = Row {
            group,
            axis: *axis,
            node,
            k: 0,
            j: 0,
        };
        count += array_count(tree, &own, row);
    }
    count
}

/// The same at any node: none where it is no leaf.
fn node_count(tree: &Tree, group: Group, node: u32) -> u32
    requires { IsNode (grid_of tree.now) node }
    ensures value { result ≡ length (counts.own_node group (grid_of tree.now) node) }
    ensures few { result ≤ 2187 }
{
    if tree.is_leaf(node) {
        leaf_count(tree, group, node)
    } else {
        0
    }
}

/// How many numbers a variable of the group has.
pub fn number_count(tree: &Tree, group: Group) -> u32
    ensures { result ≡ counts.number_count group (grid_of tree.now) }
{
    let mut count = 0;
    for node in 0..tree.len() {
        count += node_count(tree, group, node);
    }
    count
}
