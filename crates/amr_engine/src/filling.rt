//! Fills of a cell variable.

ghost use Rattle.staggered.specs.Blocks.{IsSmallBlock};
ghost use Rattle.amr_engine.specs.Filling.{AreLeavesFilled, IsFilled, IsFilledRow, filled_cell};
ghost use Rattle.amr_engine.specs.Regions.{IsRegion, covers as covered};
ghost use Rattle.amr_num.specs.Numbers.{Within, at};
ghost use Rattle.mesh_model.specs.Fields.ArrayPlaces.{IsRowWritten, IsSize, cell_extents, interior, number_at, row_of, size_of};
ghost use Rattle.mesh_model.specs.Fields.Ranks.{IsFit, OnlyOf};
ghost use Rattle.mesh_model.specs.Geometry.Places.{in_block};
ghost use Rattle.mesh_model.specs.declared.fields.values.Var.TheVariants.{Cell};
ghost use Rattle.block_tree.specs.Numbered.{IsNode, block_at};
ghost use Rattle.rank_world.specs.Holding.{cell_array};
ghost use Rattle.rank_world.specs.Holding.{OnlyCells};
ghost use Rattle.rank_world.specs.Writing.{IsLeafArray};
ghost use Rattle.std.specs.Prelude.{◌≡◌, ℕ, ◌+◌, ◌*◌, ◌/◌, ◌%◌, ◌<◌, ◌≤◌, ◌^◌, length, if◌then◌else◌};

use crate::region::{Fill, covers};
use amr_num::BlockAt;
use block_store::{Extents, place};
use mesh_model::Var;
use rank_world::World;
use staggered::cells::cell_in;

/// Each cell of a row of a block takes the value where the region covers it. The row stands at the places j and k.
fn fill_row(row: &mut [i64], block: BlockAt, j: u32, k: u32, fill: Fill)
    requires short { length row.old ≤ 8 }
    requires block { IsSmallBlock block }
    requires place { (j < length row.old) × (k < length row.old) }
    requires region { IsRegion fill.region }
    requires value { Within (2 ^ 40) fill.value }
    ensures { IsFilledRow row.old row.new block j k fill }
{
    let n = row.len() as u32;
    for i in 0..row.len() {
        if covers(fill.region, cell_in(n, block, i as u32, j, k)) {
            row[i] = fill.value;
        }
    }
}

/// The same of the `m`-th row of a block's cells.
fn fill_row_of(n: usize, g: usize, values: &mut [i64], block: BlockAt, m: usize, fill: Fill)
    requires size { IsSize n g }
    requires values { length values.old ≡ size_of (cell_extents n g) }
    requires block { IsSmallBlock block }
    requires row { m < n * n }
    requires region { IsRegion fill.region }
    requires value { Within (2 ^ 40) fill.value }
    ensures { let e = cell_extents n g in
        IsRowWritten (row_of e (interior n g) m) n (λ t. filled_cell n g values.old block fill t (m % n) (m / n)) values.old values.new }
{
    let j = m % n;
    let k = m / n;
    let to = place(Extents::of_cells(n, g), g, g + j, g + k);
    fill_row(&mut values[to..to + n], block, j as u32, k as u32, fill);
}

/// The same of all cells of a block.
fn fill_block(n: usize, g: usize, values: &mut [i64], block: BlockAt, fill: Fill)
    requires size { IsSize n g }
    requires values { length values.old ≡ size_of (cell_extents n g) }
    requires block { IsSmallBlock block }
    requires region { IsRegion fill.region }
    requires value { Within (2 ^ 40) fill.value }
    ensures { IsFilled n g block fill values.old values.new }
{
    for m in 0..n * n {
        fill_row_of(n, g, values, block, m, fill);
    }
}

/// The same of a leaf.
fn fill_leaf<const N: usize, const G: usize>(world: &mut World<N, G>, v: u32, node: u32, fill: Fill)
    requires leaf { IsLeafArray N G world.old v node }
    requires region { IsRegion fill.region }
    requires value { Within (2 ^ 40) fill.value }
    ensures only { OnlyOf world.old world.new 0 (Cell v) node }
    ensures fit { IsFit N G world.new }
    ensures filled { IsFilled N G (block_at world.old.told.grid node) fill (cell_array world.old v node) (cell_array world.new v node) }
{
    let _shape = world.tree().shape();
    let block = world.tree().at(node);
    fill_block(N, G, world.values_mut(Var::Cell(v), node), block, fill);
}

/// Each leaf cell of the variable takes the value where the region covers it.
pub fn fill_leaves<const N: usize, const G: usize>(world: &mut World<N, G>, v: u32, fill: Fill)
    requires fit { IsFit N G world.old }
    requires variable { v < world.old.told.counts.cells }
    requires region { IsRegion fill.region }
    requires value { Within (2 ^ 40) fill.value }
    ensures only { OnlyCells world.old world.new v }
    ensures fit { IsFit N G world.new }
    ensures filled { AreLeavesFilled world.old world.new v fill }
{
    for node in 0..world.tree().len() {
        if world.tree().is_leaf(node) {
            fill_leaf(world, v, node, fill);
        }
    }
}
