//! The numbers of a variable, leaf by leaf, and in and round one leaf.

ghost use Rattle.amr_report.specs.Arrays.{leaf_text_of, IsSmall};
ghost use Rattle.amr_report.specs.Printing.{Prints};
ghost use Rattle.amr_report.specs.Values.{HasGuardValues, HasInterior, HasViews, HasWhole};
ghost use Rattle.block_tree.specs.GridOf.{grid_of};
ghost use Rattle.block_tree.specs.Numbered.{IsNode, block_at};
ghost use Rattle.mesh_model.specs.Tree.Order.{nodes};
ghost use Rattle.mesh_model.specs.Fields.Plain.{Mesh};
ghost use Rattle.mesh_model.specs.Tree.Kinds.{is_leaf_block};
ghost use Rattle.mesh_model.specs.Run.Texts.{group_name, guards_text, variable_text};
ghost use Rattle.mesh_model.specs.Geometry.Places.{places};
ghost use Rattle.std.specs.Prelude.{◌≡◌, ◌≤◌, flat_map, length, true};

use crate::arrays::{Shown, print_group};
use block_tree::Tree;
use mesh_model::{BlockValues, Group};
use outside_io::Failed;
use outside_io::sink::Sink;

/// Prints the arrays of a node that is a leaf, and nothing for any other node.
fn print_if_leaf<K: Sink, V: BlockValues>(
    sink: &mut K,
    tree: &Tree,
    name: &str,
    group: Group,
    values: &V,
    node: u32,
) -> Result<(), Failed>
    requires name { length name.now ≤ 16 }
    requires node { IsNode (grid_of tree.now) node }
    requires there { HasInterior (V.is_there values.now) (grid_of tree.now) group }
    ensures { Prints result (K.taken sink.old) (leaf_text_of (V.number values.now) name.now (grid_of tree.now) group node)
        (K.taken sink.new) (K.faults sink.old) (K.faults sink.new) }
{
    if !tree.is_leaf(node) {
        return Ok(());
    }
    let shown = Shown {
        node,
        block: tree.at(node),
        cells: tree.shape().n,
        guards: None,
    };
    print_group(sink, name, group, values, &shown)
}

/// Prints the arrays of the leaves.
fn print_leaves<K: Sink, V: BlockValues>(
    sink: &mut K,
    tree: &Tree,
    name: &str,
    group: Group,
    values: &V,
) -> Result<(), Failed>
    requires name { length name.now ≤ 16 }
    requires there { HasInterior (V.is_there values.now) (grid_of tree.now) group }
    ensures { Prints result (K.taken sink.old)
        (flat_map (leaf_text_of (V.number values.now) name.now (grid_of tree.now) group) (places (length (nodes (grid_of tree.now).leaves))))
        (K.taken sink.new) (K.faults sink.old) (K.faults sink.new) }
{
    for node in 0..tree.len() {
        print_if_leaf(sink, tree, name, group, values, node)?;
    }
    Ok(())
}

/// Prints the numbers of a variable, leaf by leaf in Morton order: of a cell variable the contents of each leaf's
/// cells, of the face or the edge variable the views of its faces or edges, one axis after the other. `values` has
/// these numbers at the interior places of each leaf. A name has at most 16 bytes.
pub fn print_var<K: Sink, V: BlockValues>(
    sink: &mut K,
    tree: &Tree,
    name: &str,
    group: Group,
    values: &V,
) -> Result<(), Failed>
    requires name { length name.now ≤ 16 }
    requires there { HasInterior (V.is_there values.now) (grid_of tree.now) group }
    ensures { (m : Mesh) → m.grid ≡ grid_of tree.now → group_name m.names group ≡ name.now
        → HasViews (V.number values.now) m group
        → Prints result (K.taken sink.old) (variable_text m group)
        (K.taken sink.new) (K.faults sink.old) (K.faults sink.new) }
{
    print_leaves(sink, tree, name, group, values)
}

/// Prints the numbers of a variable in and round a leaf: of each of its arrays all places, guard places included.
/// `values` has the guard values there. A name has at most 16 bytes.
pub fn print_guards<K: Sink, V: BlockValues>(
    sink: &mut K,
    tree: &Tree,
    name: &str,
    group: Group,
    values: &V,
    node: u32,
) -> Result<(), Failed>
    requires name { length name.now ≤ 16 }
    requires node { IsNode (grid_of tree.now) node }
    requires leaf { is_leaf_block (grid_of tree.now) (block_at (grid_of tree.now) node) ≡ true }
    requires there { HasWhole (V.is_there values.now) (grid_of tree.now) group node }
    ensures { (m : Mesh) → m.grid ≡ grid_of tree.now → group_name m.names group ≡ name.now
        → HasGuardValues (V.number values.now) m group node
        → Prints result (K.taken sink.old) (guards_text m group (block_at m.grid node))
        (K.taken sink.new) (K.faults sink.old) (K.faults sink.new) }
{
    let shape = tree.shape();
    let shown = Shown {
        node,
        block: tree.at(node),
        cells: shape.n,
        guards: Some(shape.g),
    };
    print_group(sink, name, group, values, &shown)
}
