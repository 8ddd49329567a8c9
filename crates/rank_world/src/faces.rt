//! The leaf faces of leaves.

ghost use Rattle.amr_num.specs.declared.Axis.{Axis as Axes};
ghost use Rattle.amr_num.specs.declared.FaceAt.{FaceAt as Faces};
ghost use Rattle.block_tree.specs.GridOf.{grid_of};
ghost use Rattle.block_tree.specs.Numbered.{block_at};
ghost use Rattle.mesh_model.specs.Fields.ArrayPlaces.{extents_of, face_extents};
ghost use Rattle.mesh_model.specs.Fields.Arrays.{HasVar};
ghost use Rattle.mesh_model.specs.Fields.Ranks.{IsFit};
ghost use Rattle.mesh_model.specs.Geometry.Blocks.{InDomain};
ghost use Rattle.mesh_model.specs.Geometry.Canonical.{canonical_on};
ghost use Rattle.mesh_model.specs.Geometry.Coordinates.{face_of};
ghost use Rattle.mesh_model.specs.Geometry.Limits.{IsShape};
ghost use Rattle.mesh_model.specs.Geometry.Places.{in_block};
ghost use Rattle.rank_world.specs.FaceRange as above;
ghost use Rattle.rank_world.specs.FaceRange.{CountLeafFaces, HasAxes, HasAxis, HasField, HasWorkField, told_face};
ghost use Rattle.rank_world.specs.Holding as holding;
ghost use Rattle.rank_world.specs.Holding.{IsLeafNode};
ghost use Rattle.std.specs.Prelude.{◌≡◌, ℕ, ◌<◌, ◌≤◌, ℤ};

use crate::naming::numbers_of;
use crate::world::World;
use amr_num::{Axis, BlockAt, FaceAt};
use block_store::{Above, CountedFaces, faces_above};
use block_tree::{Tree, finer_beside};
use mesh_model::{Shape, Var, canonical_face};

/// A number on a leaf face that is out of range, and the face by its canonical name.
#[derive(Clone, Copy, Debug, PartialEq, Eq)]
pub struct FaceAbove {
    /// The face.
    pub face: FaceAt,
    /// The number.
    pub value: i64,
}

/// The array of a block's faces normal to an axis: its work faces, or those of the face variable.
pub fn face_var(work: bool, axis: Axis) -> Var
    ensures value { result ≡ holding.face_var work axis }
    ensures extents { (n g : ℕ) → extents_of n g result ≡ face_extents n g axis }
{
    if work {
        Var::FaceWork(axis)
    } else {
        Var::Face(axis)
    }
}

/// The canonical name of a block's face at a place.
fn name_of(shape: &Shape, block: BlockAt, axis: Axis, found: Above) -> FaceAt
    requires shape { IsShape shape.now }
    requires level { block.level ≤ 10 }
    requires block { (block.x < 8192) × (block.y < 8192) × (block.z < 8192) }
    requires place { (found.i ≤ shape.now.n) × (found.j ≤ shape.now.n) × (found.k ≤ shape.now.n) }
    ensures { result ≡ face_of axis (canonical_on shape.now axis (in_block shape.now.n block found.i found.j found.k)) }
{
    let numbers = numbers_of(shape, block, found);
    canonical_face(shape, axis, numbers)
}

/// What is told of a number out of range among a block's faces normal to an axis: the face by its canonical name.
pub fn face_told(shape: &Shape, block: BlockAt, axis: Axis, found: Above) -> FaceAbove
    requires shape { IsShape shape.now }
    requires level { block.level ≤ 10 }
    requires block { (block.x < 8192) × (block.y < 8192) × (block.z < 8192) }
    requires place { (found.i ≤ shape.now.n) × (found.j ≤ shape.now.n) × (found.k ≤ shape.now.n) }
    ensures { result ≡ told_face shape.now block axis found }
{
    FaceAbove {
        face: name_of(shape, block, axis, found),
        value: found.value,
    }
}

/// Which faces of a leaf normal to an axis are leaf faces: all but those on a side at which finer leaves stand.
pub fn leaf_faces(tree: &Tree, axis: Axis, block: BlockAt) -> CountedFaces
    requires { InDomain (grid_of tree.now).shape block }
    ensures axis { result.axis ≡ axis }
    ensures counts { CountLeafFaces (grid_of tree.now) block result }
{
    let low = finer_beside(tree, axis, false, block).is_none();
    let high = finer_beside(tree, axis, true, block).is_none();
    CountedFaces { axis, low, high }
}

/// The first leaf face of a leaf normal to an axis whose number is out of range.
fn axis_above<const N: usize, const G: usize>(
    world: &World<N, G>,
    work: bool,
    axis: Axis,
    node: u32,
) -> Option<FaceAbove>
    requires fit { IsFit N G world.now }
    requires declared { HasVar world.now.told.counts (holding.face_var work axis) }
    requires leaf { IsLeafNode world.now.told.grid node }
    ensures { (field : Faces → ℤ) → HasAxis work world.now field node axis → result ≡ above.axis_above world.now.told.grid field (block_at world.now.told.grid node) axis }
{
    let tree = world.tree();
    let shape = tree.shape();
    let block = tree.at(node);
    let faces = leaf_faces(tree, axis, block);
    match faces_above(N, G, world.values(face_var(work, axis), node), faces) {
        None => None,
        Some(found) => Some(face_told(&shape, block, axis, found)),
    }
}

/// The first leaf face of a leaf whose number is out of range, on all axes.
fn first_above<const N: usize, const G: usize>(
    world: &World<N, G>,
    work: bool,
    node: u32,
) -> Option<FaceAbove>
    requires fit { IsFit N G world.now }
    requires declared { (a : Axes) → HasVar world.now.told.counts (holding.face_var work a) }
    requires leaf { IsLeafNode world.now.told.grid node }
    ensures { (field : Faces → ℤ) → HasAxes work world.now field node → result ≡ above.first_above world.now.told.grid field (block_at world.now.told.grid node) }
{
    let on_x = axis_above(world, work, Axis::X, node);
    if on_x.is_some() {
        return on_x;
    }
    let on_y = axis_above(world, work, Axis::Y, node);
    if on_y.is_some() {
        return on_y;
    }
    axis_above(world, work, Axis::Z, node)
}

/// The first leaf face of a leaf whose number is out of range, with that number: first those normal to x, then y, then z,
/// and among these x goes fastest, then y, then z. Of a leaf that is its own neighbour both copies of a face on its sides
/// have to agree.
pub fn first_face_above<const N: usize, const G: usize>(
    world: &World<N, G>,
    node: u32,
) -> Option<FaceAbove>
    requires fit { IsFit N G world.now }
    requires declared { 0 < world.now.told.counts.faces }
    requires leaf { IsLeafNode world.now.told.grid node }
    ensures { (field : Faces → ℤ) → HasField world.now field node → result ≡ above.first_above world.now.told.grid field (block_at world.now.told.grid node) }
{
    first_above(world, false, node)
}

/// The first leaf face of a leaf whose number in the work faces is out of range, with that number, in the same order. So new
/// numbers can be looked at before they are taken over.
pub fn first_work_face_above<const N: usize, const G: usize>(
    world: &World<N, G>,
    node: u32,
) -> Option<FaceAbove>
    requires fit { IsFit N G world.now }
    requires leaf { IsLeafNode world.now.told.grid node }
    ensures { (field : Faces → ℤ) → HasWorkField world.now field node → result ≡ above.first_above world.now.told.grid field (block_at world.now.told.grid node) }
{
    first_above(world, true, node)
}
