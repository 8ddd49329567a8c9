//! Single faces that are set.

ghost use Rattle.staggered.specs.Facing.{HasLeafFaces};
ghost use Rattle.staggered.specs.Setting.{IsBesideSet, IsFaceSet, IsPlace, IsSideSet, side_place, with_face};
ghost use Rattle.amr_num.specs.declared.FaceAt.{FaceAt as Faces};
ghost use Rattle.block_tree.specs.GridOf.{grid_of};
ghost use Rattle.mesh_model.specs.Fields.ArrayPlaces as places;
ghost use Rattle.mesh_model.specs.Fields.ArrayPlaces.{face_extents};
ghost use Rattle.mesh_model.specs.Fields.Ranks.{IsFit, OnlyOf};
ghost use Rattle.mesh_model.specs.Geometry.Canonical as canonical;
ghost use Rattle.mesh_model.specs.Geometry.Coordinates as coordinates;
ghost use Rattle.mesh_model.specs.Geometry.Limits.{IsShape};
ghost use Rattle.mesh_model.specs.Tree.Kinds as kinds;
ghost use Rattle.mesh_model.specs.Tree.Kinds.{holds, is_leaf, is_split};
ghost use Rattle.mesh_model.specs.declared.fields.values.Var.TheVariants.{Face};
ghost use Rattle.rank_world.specs.Holding.{LeafFacesHold, LeavesHoldFaces, OnlyAxes, face_array};
ghost use Rattle.std.specs.Prelude.{◌≡◌, ◌+◌, ◌<◌, ◌≤◌, ◌&&◌, ℤ, true, false, set, OnOk, IfErr};

use amr_num::{Axis, BlockAt, CellAt, FaceAt};
use block_store::{Extents, PlaceAt, place};
use block_tree::Tree;
use mesh_model::geometry::axes::{extent, is_periodic};
use mesh_model::{Shape, Var, side_cells};
use rank_world::World;

/// There is no such leaf face.
#[derive(Clone, Copy, Debug, PartialEq, Eq)]
pub struct NoFace;

/// The block of `n` cells along each axis in which a cell lies.
fn block_of(n: u32, c: CellAt) -> BlockAt
    requires { 0 < n }
    ensures { result ≡ kinds.block_of n c }
{
    BlockAt {
        level: c.level,
        x: c.x / n,
        y: c.y / n,
        z: c.z / n,
    }
}

/// Whether a cell is there and is a leaf cell.
pub(crate) fn is_leaf_cell(tree: &Tree, cell: Option<CellAt>) -> bool
    ensures { result ≡ holds (is_leaf (grid_of tree.now)) cell }
{
    let shape = tree.shape();
    match cell {
        None => false,
        Some(c) => tree.leaf_at(block_of(shape.n, c)).is_some(),
    }
}

/// Whether a block is split.
fn is_split_block(tree: &Tree, block: BlockAt) -> bool
    ensures { result ≡ kinds.is_split_block (grid_of tree.now) block }
{
    match tree.node_at(block) {
        None => false,
        Some(node) => !tree.is_leaf(node),
    }
}

/// Whether a cell is there and is split.
pub(crate) fn is_split_cell(tree: &Tree, cell: Option<CellAt>) -> bool
    ensures { result ≡ holds (is_split (grid_of tree.now)) cell }
{
    let shape = tree.shape();
    match cell {
        None => false,
        Some(c) => is_split_block(tree, block_of(shape.n, c)),
    }
}

/// The position of a face on the axis that it is normal to.
fn position(f: FaceAt) -> u32
    ensures { result ≡ coordinates.on f.axis (coordinates.face_numbers f) }
{
    match f.axis {
        Axis::X => f.x,
        Axis::Y => f.y,
        Axis::Z => f.z,
    }
}

/// Whether a face is named by its canonical name.
#[tactic(auto, unfolding(mesh_model::specs::Geometry::Canonical::is_canonical_at))]
fn is_canonical(shape: &Shape, f: FaceAt) -> bool
    requires shape { IsShape shape.now }
    requires level { f.level ≤ 10 }
    ensures { result ≡ canonical.is_canonical shape.now f }
{
    !is_periodic(shape, f.axis) || position(f) < extent(shape, f.axis, f.level)
}

/// Whether it is a leaf face: a cell beside it is a leaf cell, and none is split.
#[tactic(auto, unfolding(mesh_model::specs::Tree::Kinds::is_leaf_face, mesh_model::specs::Tree::Kinds::is_split_face))]
fn is_leaf_face(tree: &Tree, f: FaceAt) -> bool
    requires { f.level ≤ 10 }
    ensures { result ≡ kinds.is_leaf_face (grid_of tree.now) f }
{
    let sides = side_cells(&tree.shape(), f);
    let leaf_low = is_leaf_cell(tree, sides[0]);
    let leaf_high = is_leaf_cell(tree, sides[1]);
    let split_low = is_split_cell(tree, sides[0]);
    let split_high = is_split_cell(tree, sides[1]);
    (leaf_low || leaf_high) && !(split_low || split_high)
}

/// Whether a face is a leaf face and has its canonical name, wherever it lies.
fn can_be_set(tree: &Tree, f: FaceAt) -> bool
    ensures value { result ≡ (canonical.is_canonical (grid_of tree.now).shape f && kinds.is_leaf_face (grid_of tree.now) f) }
    ensures level { result ≡ true → f.level ≤ 10 }
{
    if f.level > 10 {
        return false;
    }
    let canonical = is_canonical(&tree.shape(), f);
    let leaf = is_leaf_face(tree, f);
    canonical && leaf
}

/// The place of the face on the low or the high side of a cell, in the block in which the cell lies.
fn place_beside(n: u32, axis: Axis, high: bool, c: CellAt) -> PlaceAt
    requires { (0 < n) × (n ≤ 8) }
    ensures { let p = side_place n axis high c in (result.x ≡ p.x) × (result.y ≡ p.y) × (result.z ≡ p.z) }
{
    let step = usize::from(high);
    let x = (c.x % n) as usize;
    let y = (c.y % n) as usize;
    let z = (c.z % n) as usize;
    match axis {
        Axis::X => PlaceAt { x: x + step, y, z },
        Axis::Y => PlaceAt { x, y: y + step, z },
        Axis::Z => PlaceAt { x, y, z: z + step },
    }
}

/// Sets one number of a leaf's faces normal to an axis.
fn put<const N: usize, const G: usize>(
    world: &mut World<N, G>,
    node: u32,
    axis: Axis,
    at: PlaceAt,
    value: i64,
)
    requires leaf { HasLeafFaces N G world.old node }
    requires place { IsPlace N axis at.x at.y at.z }
    ensures only { OnlyOf world.old world.new 0 (Face axis) node }
    ensures fit { IsFit N G world.new }
    ensures put { face_array world.new axis node ≡ set (face_array world.old axis node) (places.place_in (face_extents N G axis) (G + at.x) (G + at.y) (G + at.z)) value }
{
    let _shape = world.tree().shape();
    let values = world.values_mut(Var::Face(axis), node);
    let place = place(Extents::of_faces(N, G, axis), G + at.x, G + at.y, G + at.z);
    values[place] = value;
}

/// Sets the face on the low or the high side of a cell, in the leaf in which the cell lies, if it lies in one.
fn put_beside<const N: usize, const G: usize>(
    world: &mut World<N, G>,
    c: CellAt,
    axis: Axis,
    high: bool,
    value: i64,
)
    requires fit { IsFit N G world.old }
    requires declared { 0 < world.old.told.counts.faces }
    ensures only { OnlyAxes Face world.old world.new }
    ensures fit { IsFit N G world.new }
    ensures set { IsSideSet world.old.told.grid world.old world.new axis high value c }
{
    let tree = world.tree();
    let shape = tree.shape();
    if let Some(node) = tree.leaf_at(block_of(shape.n, c)) {
        put(
            world,
            node,
            axis,
            place_beside(shape.n, axis, high, c),
            value,
        );
    }
}

/// The same of a cell that may not be there.
fn put_side<const N: usize, const G: usize>(
    world: &mut World<N, G>,
    cell: Option<CellAt>,
    axis: Axis,
    high: bool,
    value: i64,
)
    requires fit { IsFit N G world.old }
    requires declared { 0 < world.old.told.counts.faces }
    ensures only { OnlyAxes Face world.old world.new }
    ensures fit { IsFit N G world.new }
    ensures set { IsBesideSet world.old.told.grid world.old world.new axis high value cell }
{
    match cell {
        None => {}
        Some(c) => put_beside(world, c, axis, high, value),
    }
}

/// Sets a leaf face, in each of the leaves of its level beside it; one leaf may lie on both of its sides. The world stays
/// where there is no leaf face of this canonical name.
pub fn set_face<const N: usize, const G: usize>(
    world: &mut World<N, G>,
    at: FaceAt,
    value: i64,
) -> Result<(), NoFace>
    requires fit { IsFit N G world.old }
    requires declared { 0 < world.old.told.counts.faces }
    ensures only { OnlyAxes Face world.old world.new }
    ensures fit { IsFit N G world.new }
    ensures there { let g = world.old.told.grid in OnOk result ((canonical.is_canonical g.shape at && kinds.is_leaf_face g at) ≡ true) }
    ensures set { OnOk result (IsFaceSet world.old world.new at value) }
    ensures holds { OnOk result ((field : Faces → ℤ) → LeavesHoldFaces world.old field → LeafFacesHold world.new (with_face field at value)) }
    ensures refused { let g = world.old.told.grid in IfErr result (λ none. (canonical.is_canonical g.shape at && kinds.is_leaf_face g at) ≡ false) }
    ensures stays { IfErr result (λ none. world.new ≡ world.old) }
{
    let tree = world.tree();
    let shape = tree.shape();
    if !can_be_set(tree, at) {
        return Err(NoFace);
    }
    let sides = side_cells(&shape, at);
    put_side(world, sides[0], at.axis, true, value);
    put_side(world, sides[1], at.axis, false, value);
    Ok(())
}
