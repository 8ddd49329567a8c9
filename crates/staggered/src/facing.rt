//! A uniform field on the faces of all leaves.

ghost use Rattle.staggered.specs.Facing.{AreEven, HasLeafFaces, IsCalmBelow, IsEven, level_flux, node_above, walked_above};
ghost use Rattle.amr_num.specs.Numbers.{Within};
ghost use Rattle.block_tree.specs.GridOf.{grid_of};
ghost use Rattle.block_tree.specs.Numbered.{IsNode, block_at};
ghost use Rattle.mesh_model.specs.Fields.Advect.{speed, three};
ghost use Rattle.mesh_model.specs.Fields.Induct.{uniform_faces};
ghost use Rattle.mesh_model.specs.Fields.Ranks.{IsFit, OnlyOf};
ghost use Rattle.mesh_model.specs.Geometry.Blocks.{InDomain};
ghost use Rattle.mesh_model.specs.Geometry.Canonical.{canonical_on};
ghost use Rattle.mesh_model.specs.Geometry.Coordinates as coordinates;
ghost use Rattle.mesh_model.specs.Geometry.Coordinates.{face_of};
ghost use Rattle.mesh_model.specs.Geometry.Limits.{IsShape};
ghost use Rattle.mesh_model.specs.Geometry.Places.{in_block};
ghost use Rattle.mesh_model.specs.Language.Commands.{AreThree};
ghost use Rattle.mesh_model.specs.declared.fields.values.Var.TheVariants.{Face};
ghost use Rattle.rank_world.specs.FaceRange as above;
ghost use Rattle.rank_world.specs.FaceRange.{first_above};
ghost use Rattle.rank_world.specs.Holding.{LeavesHoldFaces, OnlyAxes, OnlyAxesOf};
ghost use Rattle.staggered.specs.Blocks.{IsSmallBlock};
ghost use Rattle.std.specs.Prelude.{◌≡◌, ◌-◌, ◌<◌, ◌≤◌, ◌^◌, ◌*ℤ◌, pos, None, Some, OnOk, IfErr, length, replicate};

use crate::cells::cell_in;
use amr_num::{Axis, BlockAt, CellAt, FaceAt, fits};
use block_tree::{Tree, finer_beside};
use mesh_model::{Shape, Var, canonical_face};
use rank_world::{FaceAbove, World};

/// The flux on an axis.
fn flux_on(fluxes: [i64; 3], axis: Axis) -> i64
    requires { AreThree (2 ^ 40) fluxes }
    ensures value { result ≡ speed (three fluxes) axis }
    ensures small { Within (2 ^ 40) result }
{
    match axis {
        Axis::X => fluxes[0],
        Axis::Y => fluxes[1],
        Axis::Z => fluxes[2],
    }
}

/// The area of a face that lies so many levels above the finest ones, in finest faces.
fn area(levels: u32) -> i64
    requires { levels ≤ 10 }
    ensures { result ≡ pos (4 ^ levels) }
{
    1i64 << (2 * levels)
}

/// What flows through an area on an axis.
fn flux_through(flux: i64, levels: u32) -> i64
    requires flux { Within (2 ^ 40) flux }
    requires levels { levels ≤ 10 }
    ensures value { result ≡ flux *ℤ pos (4 ^ levels) }
    ensures small { Within (2 ^ 60) result }
{
    flux * area(levels)
}

/// What flows through a face of a level normal to an axis.
fn face_flux(tree: &Tree, fluxes: [i64; 3], axis: Axis, level: u32) -> i64
    requires fluxes { AreThree (2 ^ 40) fluxes }
    requires level { level ≤ (grid_of tree.now).shape.max }
    ensures value { result ≡ level_flux (grid_of tree.now) (three fluxes) axis level }
    ensures small { Within (2 ^ 60) result }
{
    let shape = tree.shape();
    flux_through(flux_on(fluxes, axis), shape.max - level)
}

/// Whether no finer leaves stand at the low side of a block on an axis.
fn is_calm_below(tree: &Tree, axis: Axis, block: BlockAt) -> bool
    requires { InDomain (grid_of tree.now).shape block }
    ensures { IsCalmBelow (grid_of tree.now) axis block result }
{
    finer_beside(tree, axis, false, block).is_none()
}

/// The place of a block's cells that is the `p`-th on an axis and the first on the others.
fn along(n: u32, block: BlockAt, axis: Axis, p: u32) -> CellAt
    requires size { n ≤ 8 }
    requires block { IsSmallBlock block }
    requires place { (0 < n) × (p < n) }
    ensures value { result ≡ in_block n block (coordinates.step axis p).x (coordinates.step axis p).y (coordinates.step axis p).z }
    ensures level { result.level ≤ 10 }
{
    match axis {
        Axis::X => cell_in(n, block, p, 0, 0),
        Axis::Y => cell_in(n, block, 0, p, 0),
        Axis::Z => cell_in(n, block, 0, 0, p),
    }
}

/// The canonical name of a block's first face normal to an axis, on its low side or one further.
fn face_along(shape: &Shape, block: BlockAt, axis: Axis, p: u32) -> FaceAt
    requires shape { IsShape shape.now }
    requires block { IsSmallBlock block }
    requires place { p < 2 }
    ensures { let s = shape.now in
        result ≡ face_of axis (canonical_on s axis (in_block s.n block (coordinates.step axis p).x (coordinates.step axis p).y (coordinates.step axis p).z)) }
{
    canonical_face(shape, axis, along(shape.n, block, axis, p))
}

/// The first leaf face of a leaf normal to an axis whose number would be out of range.
fn axis_above<const N: usize, const G: usize>(
    world: &World<N, G>,
    fluxes: [i64; 3],
    node: u32,
    axis: Axis,
) -> Option<FaceAbove>
    requires fluxes { AreThree (2 ^ 40) fluxes }
    requires leaf { HasLeafFaces N G world.now node }
    ensures { let g = world.now.told.grid in result ≡ above.axis_above g (uniform_faces g (three fluxes)) (block_at g node) axis }
{
    let tree = world.tree();
    let shape = tree.shape();
    let block = tree.at(node);
    let value = face_flux(tree, fluxes, axis, block.level);
    if fits(value) {
        return None;
    }
    let place = if is_calm_below(tree, axis, block) {
        0
    } else {
        1
    };
    let face = face_along(&shape, block, axis, place);
    Some(FaceAbove { face, value })
}

/// The first leaf face of a leaf whose number would be out of range.
fn leaf_above<const N: usize, const G: usize>(
    world: &World<N, G>,
    fluxes: [i64; 3],
    node: u32,
) -> Option<FaceAbove>
    requires fluxes { AreThree (2 ^ 40) fluxes }
    requires leaf { HasLeafFaces N G world.now node }
    ensures { let g = world.now.told.grid in result ≡ first_above g (uniform_faces g (three fluxes)) (block_at g node) }
{
    let on_x = axis_above(world, fluxes, node, Axis::X);
    if on_x.is_some() {
        return on_x;
    }
    let on_y = axis_above(world, fluxes, node, Axis::Y);
    if on_y.is_some() {
        return on_y;
    }
    axis_above(world, fluxes, node, Axis::Z)
}

/// The same of a node, where it is a leaf.
fn found_above<const N: usize, const G: usize>(
    world: &World<N, G>,
    fluxes: [i64; 3],
    node: u32,
) -> Option<FaceAbove>
    requires fluxes { AreThree (2 ^ 40) fluxes }
    requires fit { IsFit N G world.now }
    requires declared { 0 < world.now.told.counts.faces }
    requires node { IsNode world.now.told.grid node }
    ensures { let g = world.now.told.grid in result ≡ node_above g (uniform_faces g (three fluxes)) node }
{
    if world.tree().is_leaf(node) {
        leaf_above(world, fluxes, node)
    } else {
        None
    }
}

/// The first leaf face in the walk over the leaves whose number would be out of range.
fn walk_above<const N: usize, const G: usize>(
    world: &World<N, G>,
    fluxes: [i64; 3],
) -> Option<FaceAbove>
    requires fluxes { AreThree (2 ^ 40) fluxes }
    requires fit { IsFit N G world.now }
    requires declared { 0 < world.now.told.counts.faces }
    ensures { let g = world.now.told.grid in result ≡ walked_above g (uniform_faces g (three fluxes)) }
{
    for node in 0..world.tree().len() {
        let found = found_above(world, fluxes, node);
        if found.is_some() {
            return found;
        }
    }
    None
}

/// Sets all numbers of an array.
fn fill_all(values: &mut [i64], number: i64)
    ensures { values.new ≡ replicate (length values.old) number }
{
    values.fill(number);
}

/// Sets the faces of a leaf normal to an axis.
fn set_axis<const N: usize, const G: usize>(
    world: &mut World<N, G>,
    fluxes: [i64; 3],
    node: u32,
    axis: Axis,
)
    requires fluxes { AreThree (2 ^ 40) fluxes }
    requires leaf { HasLeafFaces N G world.old node }
    ensures only { OnlyOf world.old world.new 0 (Face axis) node }
    ensures fit { IsFit N G world.new }
    ensures even { IsEven N G world.new (three fluxes) node axis }
{
    let tree = world.tree();
    let _shape = tree.shape();
    let block = tree.at(node);
    let number = face_flux(tree, fluxes, axis, block.level);
    fill_all(world.values_mut(Var::Face(axis), node), number);
}

/// Sets all faces of a leaf.
fn set_leaf<const N: usize, const G: usize>(world: &mut World<N, G>, fluxes: [i64; 3], node: u32)
    requires fluxes { AreThree (2 ^ 40) fluxes }
    requires leaf { HasLeafFaces N G world.old node }
    ensures only { OnlyAxesOf Face world.old world.new node }
    ensures fit { IsFit N G world.new }
    ensures even { AreEven N G world.new (three fluxes) node }
{
    set_axis(world, fluxes, node, Axis::X);
    set_axis(world, fluxes, node, Axis::Y);
    set_axis(world, fluxes, node, Axis::Z);
}

/// Sets the faces of all leaves.
fn set_leaves<const N: usize, const G: usize>(world: &mut World<N, G>, fluxes: [i64; 3])
    requires fluxes { AreThree (2 ^ 40) fluxes }
    requires fit { IsFit N G world.old }
    requires declared { 0 < world.old.told.counts.faces }
    ensures only { OnlyAxes Face world.old world.new }
    ensures fit { IsFit N G world.new }
    ensures holds { let g = world.old.told.grid in LeavesHoldFaces world.new (uniform_faces g (three fluxes)) }
{
    for node in 0..world.tree().len() {
        if world.tree().is_leaf(node) {
            set_leaf(world, fluxes, node);
        }
    }
}

/// Sets each leaf face to the flux on its axis, times its area in finest faces. Where a number would be out of range the
/// first such face in the walk over the leaves is told, and the world stays.
pub fn set_uniform<const N: usize, const G: usize>(
    world: &mut World<N, G>,
    fluxes: [i64; 3],
) -> Result<(), FaceAbove>
    requires fluxes { AreThree (2 ^ 40) fluxes }
    requires fit { IsFit N G world.old }
    requires declared { 0 < world.old.told.counts.faces }
    ensures only { OnlyAxes Face world.old world.new }
    ensures fit { IsFit N G world.new }
    ensures in_range { let g = world.old.told.grid in OnOk result (walked_above g (uniform_faces g (three fluxes)) ≡ None) }
    ensures holds { let g = world.old.told.grid in OnOk result (LeavesHoldFaces world.new (uniform_faces g (three fluxes))) }
    ensures stop { let g = world.old.told.grid in IfErr result (λ above. walked_above g (uniform_faces g (three fluxes)) ≡ Some above) }
    ensures stays { IfErr result (λ above. world.new ≡ world.old) }
{
    match walk_above(world, fluxes) {
        Some(above) => Err(above),
        None => {
            set_leaves(world, fluxes);
            Ok(())
        }
    }
}
