//! Places of leaves' arrays.

ghost use Rattle.amr_num.specs.declared.Axis.TheVariants.{X, Y, Z};
ghost use Rattle.amr_num.specs.declared.BlockAt.{BlockAt};
ghost use Rattle.block_tree.specs.Interior as interior;
ghost use Rattle.check_format.specs.Own.{IsOwn, place as place_at, step_at};
ghost use Rattle.check_format.specs.Written as written;
ghost use Rattle.mesh_model.specs.Fields.ArrayPlaces as arrays;
ghost use Rattle.mesh_model.specs.Fields.ArrayPlaces.{IsSize, extents_of};
ghost use Rattle.mesh_model.specs.Fields.Arrays.{var_length};
ghost use Rattle.mesh_model.specs.Tree.Kinds.{Grid};
ghost use Rattle.mesh_restore.specs.Filling as filling;
ghost use Rattle.mesh_restore.specs.Sources as sources;
ghost use Rattle.std.specs.Prelude.{◌≡◌, ◌≤◌, ◌<◌, ◌+◌};

use amr_num::Axis;
use block_store::{Extents, place};
use block_tree::Direction;
use check_format::Own;
use mesh_model::fields::boundary::end_step;
use mesh_model::{Group, Var};

/// Whether the number at the place (i, j, k) of a group's array for an axis stands in an image under the leaf. Blocks have
/// `n` cells along each axis.
pub fn is_own(own: &Own, n: u32, group: Group, axis: Axis, i: u32, j: u32, k: u32) -> bool
    ensures { (g : Grid) (b : BlockAt) → IsOwn g b own.now → n ≡ g.shape.n → result ≡ written.is_own_place group g b axis (place_at i j k) }
{
    match group {
        Group::Cell(_) => true,
        Group::Face => own.has_face(n, axis, i, j, k),
        Group::Edge => own.has_edge(n, axis, i, j, k),
    }
}

/// Whether what stands at places of a group's array for an axis stands at positions on another axis, and not at cells.
fn stands(group: Group, at: Axis, axis: Axis) -> bool
    ensures { result ≡ filling.stands group at axis }
{
    match group {
        Group::Cell(_) => false,
        Group::Face => at == axis,
        Group::Edge => at != axis,
    }
}

/// The step to the end of a block at a position, and none at cells.
fn step(n: u32, stands: bool, i: u32) -> u32
    ensures value { result ≡ step_at n stands i }
    ensures few { result ≤ 2 }
{
    if stands {
        end_step(n as usize, i as usize)
    } else {
        1
    }
}

/// The part of the boundary on which a place lies.
pub fn part_of(n: u32, group: Group, axis: Axis, i: u32, j: u32, k: u32) -> Direction
    ensures value { result ≡ filling.part_of n group axis (place_at i j k) }
    ensures few { (result.x ≤ 2) × (result.y ≤ 2) × (result.z ≤ 2) }
{
    Direction {
        x: step(n, stands(group, axis, Axis::X), i),
        y: step(n, stands(group, axis, Axis::Y), j),
        z: step(n, stands(group, axis, Axis::Z), k),
    }
}

/// A place of `n` cells on an axis as it is counted in the block a step further.
pub fn seen_at(n: u32, step: u32, i: u32) -> u32
    ensures { result ≡ sources.seen_at n step i }
{
    match step {
        0 => n,
        1 => i,
        _ => 0,
    }
}

/// Where an interior place stands in the array of a variable.
pub fn array_place(n: usize, g: usize, var: Var, i: u32, j: u32, k: u32) -> usize
    requires size { IsSize n g }
    requires inside { (i < interior.places_along n var X) × (j < interior.places_along n var Y) × (k < interior.places_along n var Z) }
    ensures value { result ≡ arrays.place_in (extents_of n g var) (g + i) (g + j) (g + k) }
    ensures inside { result < var_length n g var }
{
    place(
        Extents::of(n, g, var),
        g + i as usize,
        g + j as usize,
        g + k as usize,
    )
}
