//! The nodes of a tree, and how they are joined.

ghost use Rattle.amr_report.specs.Printing.{Prints, with_word};
ghost use Rattle.amr_report.specs.Nodes as shown;
ghost use Rattle.block_tree.specs.GridOf.{grid_of};
ghost use Rattle.block_tree.specs.Numbered.{IsNode, block_at};
ghost use Rattle.mesh_model.specs.Tree.Order.{nodes};
ghost use Rattle.mesh_model.specs.Tree.Reported as model;
ghost use Rattle.mesh_model.specs.Run.TreeText.{nodes_text, tree_text};
ghost use Rattle.mesh_model.specs.Geometry.Blocks.{InDomain};
ghost use Rattle.std.specs.Prelude.{◌≡◌, ◌+◌, ◌*◌, ◌<◌, ◌≤◌, length};

use crate::line::Line;
use crate::neighbours::{high_neighbour, low_neighbour};
use amr_num::{Axis, BlockAt};
use block_tree::{NodeKind, Tree};
use outside_io::Failed;
use outside_io::sink::Sink;

/// What stands for the parent of a root.
const NO_PARENT: i64 = -1;

/// What stands for a neighbour that is no node.
const NO_NODE: i64 = -1;

/// What stands for an outer boundary.
const OUTER: i64 = -20;

/// The type of a node: 1 for a leaf, 2 for a parent of at least one leaf, 3 for any other node.
fn type_of(tree: &Tree, node: u32) -> u32
    requires { IsNode (grid_of tree.now) node }
    ensures { result ≡ model.type_of (grid_of tree.now) (block_at (grid_of tree.now) node) }
{
    match tree.kind(node) {
        NodeKind::Leaf => 1,
        NodeKind::AboveLeaf => 2,
        NodeKind::Inner => 3,
    }
}

/// The number of a node's parent, or `NO_PARENT` for a root.
fn parent_of(tree: &Tree, node: u32) -> i64
    requires { IsNode (grid_of tree.now) node }
    ensures { result ≡ model.parent_reported (grid_of tree.now) (block_at (grid_of tree.now) node) }
{
    match tree.parent(node) {
        Some(parent) => i64::from(parent),
        None => NO_PARENT,
    }
}

/// The number of a neighbour, `NO_NODE` where that block is no node, or `OUTER` where there is no such block.
fn number_across(tree: &Tree, neighbour: Option<BlockAt>) -> i64
    ensures { result ≡ model.across (grid_of tree.now) neighbour }
{
    match neighbour {
        Some(b) => match tree.node_at(b) {
            Some(node) => i64::from(node),
            None => NO_NODE,
        },
        None => OUTER,
    }
}

/// Adds what lies across both sides of a block on an axis, the low side first.
fn push_across(line: &mut Line, tree: &Tree, axis: Axis, b: BlockAt)
    requires room { length line.old + 62 ≤ 512 }
    requires inside { InDomain (grid_of tree.now).shape b }
    ensures text { line.new ≡ shown.with_across line.old (grid_of tree.now) axis b }
    ensures short { length line.new ≤ length line.old + 42 }
{
    let shape = tree.shape();
    line.push_number(number_across(tree, low_neighbour(&shape, axis, b)));
    line.push_number(number_across(tree, high_neighbour(&shape, axis, b)));
}

/// The line of a node up to its place.
fn begin_node(node: u32, b: BlockAt) -> Line
    ensures text { result ≡ shown.node_begin node b }
    ensures short { length result ≤ 80 }
{
    let mut line = Line::begin("node");
    line.push_number(node);
    line.push_word("level");
    line.push_number(b.level);
    line.push_word("at");
    line.push_number(b.x);
    line.push_number(b.y);
    line.push_number(b.z);
    line
}

/// Adds a node's type and the number of its parent.
fn push_kind(line: &mut Line, kind: u32, parent: i64)
    requires room { length line.old ≤ 80 }
    ensures text { line.new ≡ shown.with_kind line.old kind parent }
    ensures short { length line.new ≤ length line.old + 80 }
{
    line.push_word("type");
    line.push_number(kind);
    line.push_word("parent");
    line.push_number(parent);
    line.push_word("faces");
}

fn node_line(tree: &Tree, node: u32) -> Line
    requires { IsNode (grid_of tree.now) node }
    ensures { result ≡ shown.node_line (grid_of tree.now) node }
{
    let b = tree.at(node);
    let mut line = begin_node(node, b);
    push_kind(&mut line, type_of(tree, node), parent_of(tree, node));
    push_across(&mut line, tree, Axis::X, b);
    push_across(&mut line, tree, Axis::Y, b);
    push_across(&mut line, tree, Axis::Z, b);
    line.end();
    line
}

/// Prints a node.
fn print_node<K: Sink>(sink: &mut K, tree: &Tree, node: u32) -> Result<(), Failed>
    requires { IsNode (grid_of tree.now) node }
    ensures { Prints result (K.taken sink.old) (shown.node_line (grid_of tree.now) node)
        (K.taken sink.new) (K.faults sink.old) (K.faults sink.new) }
{
    node_line(tree, node).print(sink)
}

/// Prints the nodes.
fn print_nodes<K: Sink>(sink: &mut K, tree: &Tree) -> Result<(), Failed>
    ensures { Prints result (K.taken sink.old) (nodes_text (grid_of tree.now) 0 (nodes (grid_of tree.now).leaves))
        (K.taken sink.new) (K.faults sink.old) (K.faults sink.new) }
{
    for node in 0..tree.len() {
        print_node(sink, tree, node)?;
    }
    Ok(())
}

/// Prints the nodes of the tree in Morton order: of each its number, its level and place, its type, its parent, and
/// what lies across its six sides.
pub fn print_tree<K: Sink>(sink: &mut K, tree: &Tree) -> Result<(), Failed>
    ensures { Prints result (K.taken sink.old) (tree_text (grid_of tree.now))
        (K.taken sink.new) (K.faults sink.old) (K.faults sink.new) }
{
    print_nodes(sink, tree)
}
