//! How many nodes and leaves a mesh has, and the list of its leaves.

ghost use Rattle.amr_report.specs.Nodes.{of_leaf};
ghost use Rattle.amr_report.specs.Printing.{Prints};
ghost use Rattle.block_tree.specs.GridOf.{grid_of};
ghost use Rattle.block_tree.specs.Numbered.{IsNode};
ghost use Rattle.mesh_model.specs.Run.Texts.{leaf_text, mesh_text, size_text};
ghost use Rattle.std.specs.Prelude.{◌≡◌, flat_map};

use crate::line::Line;
use amr_num::BlockAt;
use block_tree::Tree;
use outside_io::Failed;
use outside_io::sink::Sink;

#[tactic(auto, unfolding(mesh_model::specs::Run::Texts::size_text))]
fn size_line(tree: &Tree) -> Line
    ensures { result ≡ size_text (grid_of tree.now) }
{
    let mut line = Line::begin("mesh");
    line.push_word("nodes");
    line.push_number(tree.len());
    line.push_word("leaves");
    line.push_number(tree.leaf_count());
    line.end();
    line
}

/// Prints how many nodes and leaves the tree has.
pub fn print_size<K: Sink>(sink: &mut K, tree: &Tree) -> Result<(), Failed>
    ensures { Prints result (K.taken sink.old) (size_text (grid_of tree.now))
        (K.taken sink.new) (K.faults sink.old) (K.faults sink.new) }
{
    size_line(tree).print(sink)
}

fn leaf_line(b: BlockAt) -> Line
    ensures { result ≡ leaf_text b }
{
    let mut line = Line::begin("leaf");
    line.push_number(b.level);
    line.push_number(b.x);
    line.push_number(b.y);
    line.push_number(b.z);
    line.end();
    line
}

/// Prints a node that is a leaf, and nothing for any other node.
fn print_if_leaf<K: Sink>(sink: &mut K, tree: &Tree, node: u32) -> Result<(), Failed>
    requires { IsNode (grid_of tree.now) node }
    ensures { Prints result (K.taken sink.old) (of_leaf (grid_of tree.now) leaf_text node)
        (K.taken sink.new) (K.faults sink.old) (K.faults sink.new) }
{
    if tree.is_leaf(node) {
        leaf_line(tree.at(node)).print(sink)
    } else {
        Ok(())
    }
}

/// Prints the leaves.
fn print_leaves<K: Sink>(sink: &mut K, tree: &Tree) -> Result<(), Failed>
    ensures { Prints result (K.taken sink.old) (flat_map leaf_text (grid_of tree.now).leaves)
        (K.taken sink.new) (K.faults sink.old) (K.faults sink.new) }
{
    for node in 0..tree.len() {
        print_if_leaf(sink, tree, node)?;
    }
    Ok(())
}

/// Prints how many nodes and leaves the tree has, and then its leaves in Morton order.
pub fn print_mesh<K: Sink>(sink: &mut K, tree: &Tree) -> Result<(), Failed>
    ensures { Prints result (K.taken sink.old) (mesh_text (grid_of tree.now))
        (K.taken sink.new) (K.faults sink.old) (K.faults sink.new) }
{
    print_size(sink, tree)?;
    print_leaves(sink, tree)
}
