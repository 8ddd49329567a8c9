//! The faces that a child of a leaf would have.

ghost use Rattle.amr_num.specs.declared.Axis.{Axis as Axes};
ghost use Rattle.amr_num.specs.declared.Axis.TheVariants.{X, Y, Z};
ghost use Rattle.amr_num.specs.declared.FaceAt.{FaceAt};
ghost use Rattle.block_tree.specs.GridOf.{grid_of};
ghost use Rattle.block_store.specs.Regions.{box_of};
ghost use Rattle.block_tree.specs.Numbered.{block_at};
ghost use Rattle.leaf_split.specs.FaceKeeps.{AreBitsOf, AreKeptSides, IsKeptSide, IsLeafBeside, IsSideCopied, NoLeafBeside, OthersStay, side_at, side_box};
ghost use Rattle.mesh_model.specs.Geometry.Blocks.{InDomain, child_block};
ghost use Rattle.mesh_model.specs.Fields.ArrayPlaces.{HoldsFaces, IsSize, face_extents, size_of};
ghost use Rattle.mesh_model.specs.Fields.FaceSplits.{by_axis};
ghost use Rattle.mesh_model.specs.Fields.FinePlaces.{faces_in};
ghost use Rattle.mesh_model.specs.Fields.Ranks.{IsFit};
ghost use Rattle.rank_world.specs.Holding.{IsLeafNode, IsOfValidMesh, LeavesHoldFaces};
ghost use Rattle.std.specs.Prelude.{◌≡◌, ◌^◌, ◌<◌, ◌≤◌, ℤ, MatchOption, if◌then◌else◌, length};

use amr_num::{Axis, BlockAt};
use block_store::{Extents, PlaceAt, Region, copy_region};
use block_tree::{Tree, block_beside};
use mesh_model::Var;
use prolong_op::split_faces;
use rank_world::World;

/// Which of a block's two sides on an axis are kept.
#[derive(Clone, Copy)]
struct Sides {
    low: bool,
    high: bool,
}

/// The leaf of the same level beside a block, on a side.
fn leaf_beside(tree: &Tree, axis: Axis, high: bool, block: BlockAt) -> Option<u32>
    requires { InDomain (grid_of tree.now).shape block }
    ensures { MatchOption result (NoLeafBeside (grid_of tree.now) axis high block) (IsLeafBeside (grid_of tree.now) axis high block) }
{
    let beside = block_beside(&tree.shape(), axis, high, block)?;
    tree.leaf_at(beside)
}

/// The place of a side's first face in a block's array, where the side stands at a position on its axis.
fn side_place(g: usize, axis: Axis, at: usize) -> PlaceAt
    requires { (g ≤ 4) × (at ≤ 8) }
    ensures { result ≡ side_at g axis at }
{
    match axis {
        Axis::X => PlaceAt {
            x: g + at,
            y: g,
            z: g,
        },
        Axis::Y => PlaceAt {
            x: g,
            y: g + at,
            z: g,
        },
        Axis::Z => PlaceAt {
            x: g,
            y: g,
            z: g + at,
        },
    }
}

/// The faces of a side in a block's array, where the side stands at a position on its axis.
fn side_region(n: usize, g: usize, axis: Axis, at: usize) -> Region
    requires { (g ≤ 4) × (at ≤ 8) }
    ensures { box_of result ≡ side_box n g axis at }
{
    Region {
        at: side_place(g, axis, at),
        along_x: if axis == Axis::X { 1 } else { n },
        along_y: if axis == Axis::Y { 1 } else { n },
        along_z: if axis == Axis::Z { 1 } else { n },
    }
}

/// Copies the faces of a side from a block's array to that of the block beside it.
fn copy_side(n: usize, g: usize, axis: Axis, high: bool, from: &[i64], to: &mut [i64])
    requires size { IsSize n g }
    requires from { length from.now ≡ size_of (face_extents n g axis) }
    requires to { length to.old ≡ size_of (face_extents n g axis) }
    ensures { IsSideCopied n g axis high from.now to.old to.new }
{
    let (there, here) = if high { (0, n) } else { (n, 0) };
    let region = side_region(n, g, axis, here);
    copy_region(
        Extents::of_faces(n, g, axis),
        from,
        side_place(g, axis, there),
        to,
        region,
    );
}

/// Copies the faces of a side from the leaf of the same level beside a block, where one stands there.
fn keep_side<const N: usize, const G: usize>(
    world: &World<N, G>,
    axis: Axis,
    high: bool,
    block: BlockAt,
    to: &mut [i64],
) -> bool
    requires fit { IsFit N G world.now }
    requires declared { 0 < world.now.told.counts.faces }
    requires block { InDomain world.now.told.grid.shape block }
    requires to { length to.old ≡ size_of (face_extents N G axis) }
    ensures size { length to.new ≡ length to.old }
    ensures side { IsKeptSide world.now axis high block result to.new }
    ensures others { OthersStay world.now.told.grid axis high to.old to.new }
{
    match leaf_beside(world.tree(), axis, high, block) {
        None => false,
        Some(leaf) => {
            copy_side(N, G, axis, high, world.values(Var::Face(axis), leaf), to);
            true
        }
    }
}

/// Both sides on an axis.
fn keep_sides<const N: usize, const G: usize>(
    world: &World<N, G>,
    axis: Axis,
    block: BlockAt,
    to: &mut [i64],
) -> Sides
    requires fit { IsFit N G world.now }
    requires declared { 0 < world.now.told.counts.faces }
    requires mesh { IsOfValidMesh world.now }
    requires block { InDomain world.now.told.grid.shape block }
    requires to { length to.old ≡ size_of (face_extents N G axis) }
    ensures size { length to.new ≡ length to.old }
    ensures sides { AreKeptSides world.now axis block result to.new }
{
    let low = keep_side(world, axis, false, block, to);
    let high = keep_side(world, axis, true, block, to);
    Sides { low, high }
}

/// The bit of a direction, where it stands.
fn bit(stands: bool, direction: u32) -> u32
    requires { direction < 27 }
    ensures value { result ≡ (if stands then 2 ^ direction else 0) }
    ensures few { result ≤ 2 ^ direction }
{
    if stands { 1 << direction } else { 0 }
}

/// The bits of the sides that are kept: of the side in the direction (dx, dy, dz), bit (dx + 1) + 3 (dy + 1) + 9 (dz + 1).
fn bits_of(x: Sides, y: Sides, z: Sides) -> u32
    ensures { AreBitsOf result x y z }
{
    let on_x = bit(x.low, 12) + bit(x.high, 14);
    let on_y = bit(y.low, 10) + bit(y.high, 16);
    let on_z = bit(z.low, 4) + bit(z.high, 22);
    on_x + on_y + on_z
}

/// Makes the faces of a child of a leaf, as if the leaf were refined, in arrays of their own: parts of the leaf's faces and
/// between them what the inner rule gives. Where leaves of the child's level stand beside it, it has their numbers. So it
/// holds the views at its coordinates, whatever its arrays had before; guards may have anything afterwards. `block` is the
/// child, whose octant in its parent is i + 2 j + 4 k for the halves i on x, j on y and k on z.
pub fn child_faces<const N: usize, const G: usize>(
    world: &World<N, G>,
    parent: u32,
    octant: u32,
    block: BlockAt,
    cx: &mut [i64],
    cy: &mut [i64],
    cz: &mut [i64],
)
    requires fit { IsFit N G world.now }
    requires declared { 0 < world.now.told.counts.faces }
    requires mesh { IsOfValidMesh world.now }
    requires parent { IsLeafNode world.now.told.grid parent }
    requires octant { octant < 8 }
    requires child { child_block (block_at world.now.told.grid parent) octant ≡ block }
    requires block { InDomain world.now.told.grid.shape block }
    requires cx { length cx.old ≡ size_of (face_extents N G X) }
    requires cy { length cy.old ≡ size_of (face_extents N G Y) }
    requires cz { length cz.old ≡ size_of (face_extents N G Z) }
    ensures cx { length cx.new ≡ length cx.old }
    ensures cy { length cy.new ≡ length cy.old }
    ensures cz { length cz.new ≡ length cz.old }
    ensures views { let g = world.now.told.grid in (field : FaceAt → ℤ) → LeavesHoldFaces world.now field
        → (a : Axes) → HoldsFaces g field a block (faces_in g a (by_axis cx.new cy.new cz.new a)) }
{
    let x = keep_sides(world, Axis::X, block, cx);
    let y = keep_sides(world, Axis::Y, block, cy);
    let z = keep_sides(world, Axis::Z, block, cz);
    let kept = bits_of(x, y, z);
    let px = world.values(Var::Face(Axis::X), parent);
    let py = world.values(Var::Face(Axis::Y), parent);
    let pz = world.values(Var::Face(Axis::Z), parent);
    split_faces::<N, G>(octant, kept, px, py, pz, cx, cy, cz);
}
