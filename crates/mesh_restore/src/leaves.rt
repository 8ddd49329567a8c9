//! The arrays of a group at all leaves.

ghost use Rattle.block_tree.specs.Interior as interior;
ghost use Rattle.block_tree.specs.Numbered.{IsNode};
ghost use Rattle.amr_num.specs.declared.Axis.{Axis as Axes};
ghost use Rattle.mesh_model.specs.Fields.Arrays.{HasVar};
ghost use Rattle.mesh_model.specs.Fields.Ranks.{IsFit};
ghost use Rattle.mesh_model.specs.declared.fields.values.Group.TheVariants as groups;
ghost use Rattle.mesh_restore.specs.Filling.{IsFilled, IsFilledLeaf, IsLeafFilled, IsNodeFilled};
ghost use Rattle.std.specs.Prelude.{◌≡◌, ℕ};

use crate::filling::{Array, fill_array};
use crate::sources::{Source, sources_of};
use amr_num::Axis;
use check_format::Own;
use mesh_model::Group;
use rank_world::World;

/// Fills the arrays of a leaf's faces or edges, one for each axis.
fn fill_axes<'a, const N: usize, const G: usize>(
    world: &mut World<N, G>,
    own: &Own,
    sources: &[Option<Source>],
    group: Group,
    node: u32,
    rest: &'a [i64],
) -> &'a [i64]
    requires fit { IsFit N G world.old }
    requires declared { (a : Axes) → HasVar world.old.told.counts (interior.array_on group a) }
    requires leaf { IsFilledLeaf world.old.told.grid node own.now sources.now }
    requires axes { (v : ℕ) → group ≡ groups.Cell v → ⊥ }
    ensures fit { IsFit N G world.new }
    ensures filled { IsLeafFilled world.old.told.grid group node world.old world.new rest.now result.now }
{
    let on_x = Array {
        group,
        axis: Axis::X,
        node,
    };
    let on_y = Array {
        group,
        axis: Axis::Y,
        node,
    };
    let on_z = Array {
        group,
        axis: Axis::Z,
        node,
    };
    let behind_x = fill_array(world, own, sources, on_x, rest);
    let behind_y = fill_array(world, own, sources, on_y, behind_x);
    fill_array(world, own, sources, on_z, behind_y)
}

/// Fills the array of a leaf's cells.
fn fill_cells<'a, const N: usize, const G: usize>(
    world: &mut World<N, G>,
    own: &Own,
    sources: &[Option<Source>],
    variable: u32,
    node: u32,
    rest: &'a [i64],
) -> &'a [i64]
    requires fit { IsFit N G world.old }
    requires declared { (a : Axes) → HasVar world.old.told.counts (interior.array_on (groups.Cell variable) a) }
    requires leaf { IsFilledLeaf world.old.told.grid node own.now sources.now }
    ensures fit { IsFit N G world.new }
    ensures filled { IsLeafFilled world.old.told.grid (groups.Cell variable) node world.old world.new rest.now result.now }
{
    let array = Array {
        group: Group::Cell(variable),
        axis: Axis::X,
        node,
    };
    fill_array(world, own, sources, array, rest)
}

/// Fills the arrays of a group at a leaf.
fn fill_leaf<'a, const N: usize, const G: usize>(
    world: &mut World<N, G>,
    own: &Own,
    sources: &[Option<Source>],
    group: Group,
    node: u32,
    rest: &'a [i64],
) -> &'a [i64]
    requires fit { IsFit N G world.old }
    requires declared { (a : Axes) → HasVar world.old.told.counts (interior.array_on group a) }
    requires leaf { IsFilledLeaf world.old.told.grid node own.now sources.now }
    ensures fit { IsFit N G world.new }
    ensures filled { IsLeafFilled world.old.told.grid group node world.old world.new rest.now result.now }
{
    match group {
        Group::Cell(variable) => fill_cells(world, own, sources, variable, node, rest),
        Group::Face => fill_axes(world, own, sources, Group::Face, node, rest),
        Group::Edge => fill_axes(world, own, sources, Group::Edge, node, rest),
    }
}

/// Fills the arrays of a group at a node, where that is a leaf.
fn fill_node<'a, const N: usize, const G: usize>(
    world: &mut World<N, G>,
    group: Group,
    node: u32,
    rest: &'a [i64],
) -> &'a [i64]
    requires fit { IsFit N G world.old }
    requires declared { (a : Axes) → HasVar world.old.told.counts (interior.array_on group a) }
    requires node { IsNode world.old.told.grid node }
    ensures fit { IsFit N G world.new }
    ensures filled { IsNodeFilled world.old.told.grid group node world.old world.new rest.now result.now }
{
    let tree = world.tree();
    let _shape = tree.shape();
    if !tree.is_leaf(node) {
        return rest;
    }
    let own = Own::of(tree, node);
    let sources = sources_of(tree, node);
    fill_leaf(world, &own, &sources, group, node, rest)
}

/// Fills the arrays of a group at all leaves with the numbers that an image has of it.
pub fn fill_group<const N: usize, const G: usize>(
    world: &mut World<N, G>,
    group: Group,
    numbers: &[i64],
)
    requires fit { IsFit N G world.old }
    requires declared { (a : Axes) → HasVar world.old.told.counts (interior.array_on group a) }
    ensures fit { IsFit N G world.new }
    ensures filled { IsFilled world.old.told.grid group world.old world.new numbers.now }
{
    let mut rest = numbers;
    for node in 0..world.tree().len() {
        rest = fill_node(world, group, node, rest);
    }
}
