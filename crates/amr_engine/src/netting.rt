//! The leaf cells with a net flux.

ghost use Rattle.amr_num.specs.Numbers.{Within, at, sum_below};
ghost use Rattle.amr_engine.specs.Netting.{IsNetCount, IsNodeNet, counted, faces_of, net_at};
ghost use Rattle.amr_num.specs.declared.Axis.TheVariants.{X, Y, Z};
ghost use Rattle.block_tree.specs.Numbered.{IsNode};
ghost use Rattle.mesh_model.specs.Fields.ArrayPlaces.{IsSize, face_extents, size_of};
ghost use Rattle.mesh_model.specs.Fields.Ranks.{IsFit};
ghost use Rattle.mesh_model.specs.Fields.Totals.{box_sum};
ghost use Rattle.std.specs.Prelude.{◌≡◌, ◌+◌, ◌*◌, ◌<◌, ◌≤◌, ◌^◌, ◌+ℤ◌, ◌-ℤ◌, length, pos};

use amr_num::Axis;
use block_store::{Extents, row};
use mesh_model::Var;
use rank_world::World;

/// High minus low of the numbers on two sides of a cell.
fn difference(low: i64, high: i64) -> i128
    ensures value { result ≡ high -ℤ low }
    ensures small { Within (2 ^ 64) result }
{
    i128::from(high) - i128::from(low)
}

/// The net flux out of a cell: what the sides on all three axes make together.
fn net_of(x: i128, y: i128, z: i128) -> i128
    requires { (Within (2 ^ 64) x) × (Within (2 ^ 64) y) × (Within (2 ^ 64) z) }
    ensures value { result ≡ x +ℤ y +ℤ z }
    ensures small { Within (2 ^ 66) result }
{
    x + y + z
}

/// 1 for a net flux other than 0.
fn count_of(net: i128) -> u64
    requires { Within (2 ^ 66) net }
    ensures value { pos result ≡ counted net }
    ensures few { result ≤ 1 }
{
    if net == 0 { 0 } else { 1 }
}

/// How many cells of a row have a net flux, from the numbers on their sides.
fn count_row(x: &[i64], y_low: &[i64], y_high: &[i64], z_low: &[i64], z_high: &[i64]) -> u64
    requires x { (length x.now ≡ length y_low.now + 1) × (length x.now ≤ 9) }
    requires y { length y_high.now ≡ length y_low.now }
    requires z { (length z_low.now ≡ length y_low.now) × (length z_high.now ≡ length y_low.now) }
    ensures value { pos result ≡ sum_below (length y_low.now) (λ i. counted ((at x.now (i + 1) -ℤ at x.now i) +ℤ (at y_high.now i -ℤ at y_low.now i) +ℤ (at z_high.now i -ℤ at z_low.now i))) }
    ensures few { result ≤ 8 }
{
    let mut count = 0;
    for i in 0..y_low.len() {
        let on_x = difference(x[i], x[i + 1]);
        let on_y = difference(y_low[i], y_high[i]);
        let on_z = difference(z_low[i], z_high[i]);
        count += count_of(net_of(on_x, on_y, on_z));
    }
    count
}

/// How many cells of the row of a block at the places `j` and `k` have a net flux.
fn count_row_of(n: usize, g: usize, x: &[i64], y: &[i64], z: &[i64], j: usize, k: usize) -> u64
    requires size { IsSize n g }
    requires x { length x.now ≡ size_of (face_extents n g X) }
    requires y { length y.now ≡ size_of (face_extents n g Y) }
    requires z { length z.now ≡ size_of (face_extents n g Z) }
    requires place { (j < n) × (k < n) }
    ensures value { pos result ≡ sum_below n (λ i. counted (net_at (faces_of n g x.now y.now z.now) i j k)) }
    ensures few { result ≤ 8 }
{
    let of_y = Extents::of_faces(n, g, Axis::Y);
    let of_z = Extents::of_faces(n, g, Axis::Z);
    count_row(
        row(Extents::of_faces(n, g, Axis::X), x, g, g + j, g + k, n + 1),
        row(of_y, y, g, g + j, g + k, n),
        row(of_y, y, g, g + j + 1, g + k, n),
        row(of_z, z, g, g + j, g + k, n),
        row(of_z, z, g, g + j, g + k + 1, n),
    )
}

/// How many cells of the plane of a block at the place `k` have one.
fn count_plane(n: usize, g: usize, x: &[i64], y: &[i64], z: &[i64], k: usize) -> u64
    requires size { IsSize n g }
    requires x { length x.now ≡ size_of (face_extents n g X) }
    requires y { length y.now ≡ size_of (face_extents n g Y) }
    requires z { length z.now ≡ size_of (face_extents n g Z) }
    requires place { k < n }
    ensures value { pos result ≡ sum_below n (λ j. sum_below n (λ i. counted (net_at (faces_of n g x.now y.now z.now) i j k))) }
    ensures few { result ≤ 64 }
{
    let mut count = 0;
    for j in 0..n {
        count += count_row_of(n, g, x, y, z, j, k);
    }
    count
}

/// How many cells of a block have one.
fn count_block(n: usize, g: usize, x: &[i64], y: &[i64], z: &[i64]) -> u64
    requires size { IsSize n g }
    requires x { length x.now ≡ size_of (face_extents n g X) }
    requires y { length y.now ≡ size_of (face_extents n g Y) }
    requires z { length z.now ≡ size_of (face_extents n g Z) }
    ensures value { pos result ≡ box_sum n n n (λ i j k. counted (net_at (faces_of n g x.now y.now z.now) i j k)) }
    ensures few { result ≤ 512 }
{
    let mut count = 0;
    for k in 0..n {
        count += count_plane(n, g, x, y, z, k);
    }
    count
}

/// How many cells of a node have one, where it is a leaf.
fn count_node<const N: usize, const G: usize>(world: &World<N, G>, node: u32) -> u64
    requires fit { IsFit N G world.now }
    requires declared { 0 < world.now.told.counts.faces }
    requires node { IsNode world.now.told.grid node }
    ensures value { IsNodeNet world.now node result }
    ensures few { result ≤ 512 }
{
    if !world.tree().is_leaf(node) {
        return 0;
    }
    let x = world.values(Var::Face(Axis::X), node);
    let y = world.values(Var::Face(Axis::Y), node);
    let z = world.values(Var::Face(Axis::Z), node);
    count_block(N, G, x, y, z)
}

/// How many leaf cells have a net flux other than 0: high minus low of the numbers on their sides, over all three axes.
pub fn net_fluxes<const N: usize, const G: usize>(world: &World<N, G>) -> u64
    requires fit { IsFit N G world.now }
    requires declared { 0 < world.now.told.counts.faces }
    ensures count { IsNetCount world.now result }
    ensures few { result < 2 ^ 32 }
{
    let mut count = 0;
    for node in 0..world.tree().len() {
        count += count_node(world, node);
    }
    count
}
