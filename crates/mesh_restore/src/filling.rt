//! Arrays of leaves that are filled.
//!
//! An image has the number of each cell, leaf face and leaf edge once, under the first leaf that has it, and leaves follow
//! each other in Morton order. So a place that stands under the leaf takes the next number, and any other place the number
//! of a leaf that was filled before. Where no such leaf has it finer leaves stand beside it, and it gets 0.

ghost use Rattle.amr_num.specs.declared.Axis.TheVariants.{X, Y, Z};
ghost use Rattle.block_tree.specs.Interior as interior;
ghost use Rattle.block_tree.specs.Numbered.{IsNode};
ghost use Rattle.check_format.specs.Own.{place};
ghost use Rattle.check_format.specs.Written.{many};
ghost use Rattle.mesh_model.specs.Fields.Arrays.{HasVar};
ghost use Rattle.mesh_model.specs.Fields.Ranks.{IsFit};
ghost use Rattle.mesh_restore.specs.Filling.{IsBeside, IsFilledLeaf, IsFilling, IsPlaceOf, IsPutAt, all_places, number_in, order_of, plane_places, row_places};
ghost use Rattle.mesh_restore.specs.Sources.{seen_place};
ghost use Rattle.std.specs.Prelude.{◌≡◌, ◌*◌, ◌+◌, ◌<◌, [], ◌∷◌, drop, pos, slice_index_or};

use crate::places::{array_place, is_own, part_of, seen_at};
use crate::sources::{Source, source_round};
use amr_num::Axis;
use block_tree::{array_on, places_along};
use check_format::Own;
use mesh_model::Group;
use rank_world::World;

/// A leaf's array for an axis.
#[derive(Clone, Copy, Debug, PartialEq, Eq)]
pub struct Array {
    /// The group of the array.
    pub group: Group,
    /// The axis of the array.
    pub axis: Axis,
    /// The leaf.
    pub node: u32,
}

/// The next number of a list, and 0 where none is left.
fn first_of(rest: &[i64]) -> i64
    ensures { result ≡ slice_index_or rest.now 0 (pos 0) }
{
    if rest.is_empty() { 0 } else { rest[0] }
}

/// The numbers behind it.
fn after_first(rest: &[i64]) -> &[i64]
    ensures { result.now ≡ drop 1 rest.now }
{
    if rest.is_empty() { rest } else { &rest[1..] }
}

/// Puts a number at a place of a node's array.
fn put<const N: usize, const G: usize>(
    world: &mut World<N, G>,
    array: Array,
    i: u32,
    j: u32,
    k: u32,
    number: i64,
)
    requires fit { IsFit N G world.old }
    requires declared { HasVar world.old.told.counts (interior.array_on array.group array.axis) }
    requires node { IsNode world.old.told.grid array.node }
    requires inside { IsPlaceOf world.old.told.grid array.group array.axis (place i j k) }
    ensures fit { IsFit N G world.new }
    ensures put { IsPutAt world.old.told.grid array.group array.axis array.node (place i j k) number world.old world.new }
{
    let tree = world.tree();
    let _shape = tree.shape();
    let var = array_on(array.group, array.axis);
    let at = array_place(N, G, var, i, j, k);
    let values = world.values_mut(var, array.node);
    values[at] = number;
}

/// The number at a place of a node's array.
fn number_at<const N: usize, const G: usize>(
    world: &World<N, G>,
    array: Array,
    i: u32,
    j: u32,
    k: u32,
) -> i64
    requires fit { IsFit N G world.now }
    requires declared { HasVar world.now.told.counts (interior.array_on array.group array.axis) }
    requires node { IsNode world.now.told.grid array.node }
    requires inside { IsPlaceOf world.now.told.grid array.group array.axis (place i j k) }
    ensures { result ≡ number_in world.now.told.grid world.now array.group array.axis array.node (place i j k) }
{
    let tree = world.tree();
    let _shape = tree.shape();
    let var = array_on(array.group, array.axis);
    let at = array_place(N, G, var, i, j, k);
    world.values(var, array.node)[at]
}

/// The number that a leaf filled before has at a place.
fn number_of_source<const N: usize, const G: usize>(
    world: &World<N, G>,
    array: Array,
    source: Source,
    i: u32,
    j: u32,
    k: u32,
) -> i64
    requires fit { IsFit N G world.now }
    requires declared { HasVar world.now.told.counts (interior.array_on array.group array.axis) }
    requires node { IsNode world.now.told.grid source.node }
    requires inside { IsPlaceOf world.now.told.grid array.group array.axis (seen_place world.now.told.grid.shape.n source.toward (place i j k)) }
    ensures { let g = world.now.told.grid in
        result ≡ number_in g world.now array.group array.axis source.node (seen_place g.shape.n source.toward (place i j k)) }
{
    let n = world.tree().shape().n;
    let Source { node, toward } = source;
    let there = Array { node, ..array };
    let x = seen_at(n, toward.x, i);
    let y = seen_at(n, toward.y, j);
    let z = seen_at(n, toward.z, k);
    number_at(world, there, x, y, z)
}

/// The number that a place gets which does not stand under the leaf: that of a leaf filled before, and 0 where no such leaf
/// has it.
fn number_beside<const N: usize, const G: usize>(
    world: &World<N, G>,
    own: &Own,
    sources: &[Option<Source>],
    array: Array,
    i: u32,
    j: u32,
    k: u32,
) -> i64
    requires fit { IsFit N G world.now }
    requires declared { HasVar world.now.told.counts (interior.array_on array.group array.axis) }
    requires leaf { IsFilledLeaf world.now.told.grid array.node own.now sources.now }
    requires inside { IsPlaceOf world.now.told.grid array.group array.axis (place i j k) }
    ensures { IsBeside world.now.told.grid world.now array.group array.axis array.node (place i j k) result }
{
    let n = world.tree().shape().n;
    let part = part_of(n, array.group, array.axis, i, j, k);
    match source_round(sources, part) {
        None => 0,
        Some(source) => number_of_source(world, array, source, i, j, k),
    }
}

/// Fills a place of a leaf's array.
fn fill_place<'a, const N: usize, const G: usize>(
    world: &mut World<N, G>,
    own: &Own,
    sources: &[Option<Source>],
    array: Array,
    i: u32,
    j: u32,
    k: u32,
    rest: &'a [i64],
) -> &'a [i64]
    requires fit { IsFit N G world.old }
    requires declared { HasVar world.old.told.counts (interior.array_on array.group array.axis) }
    requires leaf { IsFilledLeaf world.old.told.grid array.node own.now sources.now }
    requires inside { IsPlaceOf world.old.told.grid array.group array.axis (place i j k) }
    ensures fit { IsFit N G world.new }
    ensures filling { let p = place i j k in
        IsFilling world.old.told.grid array.group array.axis array.node (order_of p) (order_of p + 1) (p ∷ []) world.old world.new rest.now result.now }
{
    let n = world.tree().shape().n;
    if is_own(own, n, array.group, array.axis, i, j, k) {
        let number = first_of(rest);
        put(world, array, i, j, k, number);
        return after_first(rest);
    }
    let number = number_beside(world, own, sources, array, i, j, k);
    put(world, array, i, j, k, number);
    rest
}

/// Fills a row over x of a leaf's array.
fn fill_row<'a, const N: usize, const G: usize>(
    world: &mut World<N, G>,
    own: &Own,
    sources: &[Option<Source>],
    array: Array,
    j: u32,
    k: u32,
    rest: &'a [i64],
) -> &'a [i64]
    requires fit { IsFit N G world.old }
    requires declared { HasVar world.old.told.counts (interior.array_on array.group array.axis) }
    requires leaf { IsFilledLeaf world.old.told.grid array.node own.now sources.now }
    requires inside { (j < many world.old.told.grid array.group array.axis Y) × (k < many world.old.told.grid array.group array.axis Z) }
    ensures fit { IsFit N G world.new }
    ensures filling { let g = world.old.told.grid in
        IsFilling g array.group array.axis array.node (16 * j + 256 * k) (16 * (j + 1) + 256 * k) (row_places g array.group array.axis k j) world.old world.new rest.now result.now }
{
    let n = world.tree().shape().n;
    let mut rest = rest;
    for i in 0..places_along(n, array_on(array.group, array.axis), Axis::X) {
        rest = fill_place(world, own, sources, array, i, j, k, rest);
    }
    rest
}

/// Fills a plane of a leaf's array across z.
fn fill_plane<'a, const N: usize, const G: usize>(
    world: &mut World<N, G>,
    own: &Own,
    sources: &[Option<Source>],
    array: Array,
    k: u32,
    rest: &'a [i64],
) -> &'a [i64]
    requires fit { IsFit N G world.old }
    requires declared { HasVar world.old.told.counts (interior.array_on array.group array.axis) }
    requires leaf { IsFilledLeaf world.old.told.grid array.node own.now sources.now }
    requires inside { k < many world.old.told.grid array.group array.axis Z }
    ensures fit { IsFit N G world.new }
    ensures filling { let g = world.old.told.grid in
        IsFilling g array.group array.axis array.node (256 * k) (256 * (k + 1)) (plane_places g array.group array.axis k) world.old world.new rest.now result.now }
{
    let n = world.tree().shape().n;
    let mut rest = rest;
    for j in 0..places_along(n, array_on(array.group, array.axis), Axis::Y) {
        rest = fill_row(world, own, sources, array, j, k, rest);
    }
    rest
}

/// Fills a leaf's array.
pub fn fill_array<'a, const N: usize, const G: usize>(
    world: &mut World<N, G>,
    own: &Own,
    sources: &[Option<Source>],
    array: Array,
    rest: &'a [i64],
) -> &'a [i64]
    requires fit { IsFit N G world.old }
    requires declared { HasVar world.old.told.counts (interior.array_on array.group array.axis) }
    requires leaf { IsFilledLeaf world.old.told.grid array.node own.now sources.now }
    ensures fit { IsFit N G world.new }
    ensures filling { let g = world.old.told.grid in
        IsFilling g array.group array.axis array.node 0 4096 (all_places g array.group array.axis) world.old world.new rest.now result.now }
{
    let n = world.tree().shape().n;
    let mut rest = rest;
    for k in 0..places_along(n, array_on(array.group, array.axis), Axis::Z) {
        rest = fill_plane(world, own, sources, array, k, rest);
    }
    rest
}
