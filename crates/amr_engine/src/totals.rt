//! The total of a cell variable.

ghost use Rattle.amr_num.specs.Numbers.{Within, at, sum_below};
ghost use Rattle.block_tree.specs.Numbered.{IsNode};
ghost use Rattle.mesh_model.specs.Fields.ArrayPlaces.{IsSize, cell_extents, number_at, size_of};
ghost use Rattle.mesh_model.specs.Fields.Ranks.{IsFit};
ghost use Rattle.mesh_model.specs.Fields.Totals.{box_sum};
ghost use Rattle.mesh_model.specs.Tree.Kinds.{is_leaf_block};
ghost use Rattle.amr_engine.specs.Totals.{IsNodeSum, IsTotal};
ghost use Rattle.std.specs.Prelude.{◌≡◌, ◌+◌, ◌<◌, ◌≤◌, ◌^◌, length};

use block_store::cell_row;
use mesh_model::Var;
use rank_world::World;

/// The sum of at most 8 numbers.
fn sum_of(row: &[i64]) -> i128
    requires { length row.now ≤ 8 }
    ensures value { result ≡ sum_below (length row.now) (λ i. at row.now i) }
    ensures small { Within (2 ^ 66) result }
{
    let mut sum: i128 = 0;
    for number in row {
        sum += i128::from(*number);
    }
    sum
}

/// The sum of the row of a block's cells at the places `j` and `k`.
fn row_total(n: usize, g: usize, values: &[i64], j: usize, k: usize) -> i128
    requires size { IsSize n g }
    requires values { length values.now ≡ size_of (cell_extents n g) }
    requires place { (j < n) × (k < n) }
    ensures value { result ≡ sum_below n (λ i. number_at (cell_extents n g) values.now (g + i) (g + j) (g + k)) }
    ensures small { Within (2 ^ 66) result }
{
    sum_of(cell_row(n, g, values, j, k))
}

/// The sum of the plane of a block's cells at the place `k`.
fn plane_total(n: usize, g: usize, values: &[i64], k: usize) -> i128
    requires size { IsSize n g }
    requires values { length values.now ≡ size_of (cell_extents n g) }
    requires place { k < n }
    ensures value { result ≡ sum_below n (λ j. sum_below n (λ i. number_at (cell_extents n g) values.now (g + i) (g + j) (g + k))) }
    ensures small { Within (2 ^ 69) result }
{
    let mut sum: i128 = 0;
    for j in 0..n {
        sum += row_total(n, g, values, j, k);
    }
    sum
}

/// The sum of a block's cells.
fn block_total(n: usize, g: usize, values: &[i64]) -> i128
    requires size { IsSize n g }
    requires values { length values.now ≡ size_of (cell_extents n g) }
    ensures value { result ≡ box_sum n n n (λ i j k. number_at (cell_extents n g) values.now (g + i) (g + j) (g + k)) }
    ensures small { Within (2 ^ 72) result }
{
    let mut sum: i128 = 0;
    for k in 0..n {
        sum += plane_total(n, g, values, k);
    }
    sum
}

/// The sum of a node's cells where it is a leaf, and 0 where it is none.
fn node_total<const N: usize, const G: usize>(world: &World<N, G>, v: u32, node: u32) -> i128
    requires fit { IsFit N G world.now }
    requires variable { v < world.now.told.counts.cells }
    requires node { IsNode world.now.told.grid node }
    ensures value { IsNodeSum world.now v node result }
    ensures small { Within (2 ^ 72) result }
{
    if world.tree().is_leaf(node) {
        block_total(N, G, world.values(Var::Cell(v), node))
    } else {
        0
    }
}

/// The sum of a variable's contents over all leaf cells.
pub fn total<const N: usize, const G: usize>(world: &World<N, G>, v: u32) -> i128
    requires fit { IsFit N G world.now }
    requires variable { v < world.now.told.counts.cells }
    ensures value { IsTotal world.now v result }
    ensures small { Within (2 ^ 85) result }
{
    let mut sum: i128 = 0;
    for node in 0..world.tree().len() {
        sum += node_total(world, v, node);
    }
    sum
}
