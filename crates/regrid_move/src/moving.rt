//! The numbers of new leaves, and the first of them that is out of range.

ghost use Rattle.amr_num.specs.declared.CellAt.{CellAt};
ghost use Rattle.block_tree.specs.Numbered.{IsNode, block_at};
ghost use Rattle.mesh_model.specs.Fields.Ranks.{IsFit, OnlyOf};
ghost use Rattle.mesh_model.specs.declared.fields.values.Var.TheVariants.{Cell};
ghost use Rattle.rank_world.specs.Holding.{IsLeafNode, LeavesHold, OnlyCells};
ghost use Rattle.regrid_move.specs.Near.{LeavesMoved, MayMove, MayMoveAll, NodeMoved, all_stop, block_stop, node_stop, variable_stop, IsNear};
ghost use Rattle.std.specs.Prelude.{◌≡◌, ◌<◌, ◌≤◌, ◌+◌, ◌*◌, ℕ, ℤ, None};

use crate::leaves::move_leaf;
use amr_num::{BlockAt, CellAt};
use block_store::{Above, block_above};
use mesh_model::{Group, RangeStop, Spot, Var};
use rank_world::World;

/// The coordinate on an axis of a block's cell.
fn place_on(n: u32, block: u32, i: u32) -> u32
    requires size { n ≤ 8 }
    requires block { block < 8192 }
    requires place { i < n }
    ensures { result ≡ n * block + i }
{
    n * block + i
}

/// A cell of a block.
fn cell_of(n: u32, block: BlockAt, found: Above) -> CellAt
    requires size { n ≤ 8 }
    requires block { (block.x < 8192) × (block.y < 8192) × (block.z < 8192) }
    requires place { (found.i < n) × (found.j < n) × (found.k < n) }
    ensures { result ≡ in_block n block found.i found.j found.k }
{
    CellAt {
        level: block.level,
        x: place_on(n, block.x, found.i),
        y: place_on(n, block.y, found.j),
        z: place_on(n, block.z, found.k),
    }
}

/// The first number of a new leaf that is out of range.
fn leaf_stop<const N: usize, const G: usize>(
    old: &World<N, G>,
    new: &World<N, G>,
    v: u32,
    node: u32,
) -> Option<RangeStop>
    requires { MayMove N G old.now new.now v node }
    ensures { (content : CellAt → ℤ) → NodeMoved old.now new.now v content node
        → result ≡ block_stop old.now.told.grid content v (block_at new.now.told.grid node) }
{
    let _old = old;
    let _shape = new.tree().shape();
    let block = new.tree().at(node);
    let values = new.values(Var::Cell(v), node);
    match block_above(N, G, values) {
        None => None,
        Some(found) => Some(RangeStop {
            var: Group::Cell(v),
            spot: Spot::Cell(cell_of(N as u32, block, found)),
            value: i128::from(found.value),
        }),
    }
}

/// Writes the old views of a new leaf's cells into it, and tells the first that is out of range.
fn move_checked<const N: usize, const G: usize>(
    old: &World<N, G>,
    new: &mut World<N, G>,
    v: u32,
    node: u32,
) -> Option<RangeStop>
    requires may { MayMove N G old.now new.old v node }
    requires near { IsNear old.now.told.grid (block_at new.old.told.grid node) }
    ensures only { OnlyOf new.old new.new 0 (Cell v) node }
    ensures fit { IsFit N G new.new }
    ensures views { (content : CellAt → ℤ) → LeavesHold old.now v content → NodeMoved old.now new.new v content node }
    ensures stop { (content : CellAt → ℤ) → LeavesHold old.now v content
        → result ≡ block_stop old.now.told.grid content v (block_at new.new.told.grid node) }
{
    move_leaf(old, new, v, node);
    leaf_stop(old, new, v, node)
}

/// The same of a node, where it is a leaf.
fn move_node<const N: usize, const G: usize>(
    old: &World<N, G>,
    new: &mut World<N, G>,
    v: u32,
    node: u32,
) -> Option<RangeStop>
    requires may { MayMoveAll N G old.now new.old }
    requires variable { v < old.now.told.counts.cells }
    requires node { IsNode new.old.told.grid node }
    ensures only { OnlyOf new.old new.new 0 (Cell v) node }
    ensures fit { IsFit N G new.new }
    ensures views { (content : CellAt → ℤ) → LeavesHold old.now v content → IsLeafNode new.new.told.grid node
        → NodeMoved old.now new.new v content node }
    ensures stop { (content : CellAt → ℤ) → LeavesHold old.now v content
        → result ≡ node_stop old.now.told.grid new.new.told.grid content v node }
{
    if new.tree().is_leaf(node) {
        move_checked(old, new, v, node)
    } else {
        None
    }
}

/// Writes the old views of a cell variable into each leaf of the new tree, up to the first that is out of range.
fn move_variable<const N: usize, const G: usize>(
    old: &World<N, G>,
    new: &mut World<N, G>,
    v: u32,
) -> Option<RangeStop>
    requires may { MayMoveAll N G old.now new.old }
    requires variable { v < old.now.told.counts.cells }
    ensures only { OnlyCells new.old new.new v }
    ensures fit { IsFit N G new.new }
    ensures views { result ≡ None → (content : CellAt → ℤ) → LeavesHold old.now v content → LeavesMoved old.now new.new v content }
    ensures stop { (content : CellAt → ℤ) → LeavesHold old.now v content
        → result ≡ variable_stop old.now.told.grid new.new.told.grid content v }
{
    for node in 0..new.tree().len() {
        let stop = move_node(old, new, v, node);
        if stop.is_some() {
            return stop;
        }
    }
    None
}

/// Writes the old views of all cell variables into each leaf of the new tree, up to the first that is out of range.
pub(crate) fn move_all<const N: usize, const G: usize>(
    old: &World<N, G>,
    new: &mut World<N, G>,
) -> Option<RangeStop>
    requires { MayMoveAll N G old.now new.old }
    ensures told { new.new.told ≡ new.old.told }
    ensures fit { IsFit N G new.new }
    ensures views { result ≡ None → (v : ℕ) (content : CellAt → ℤ) → v < old.now.told.counts.cells → LeavesHold old.now v content
        → LeavesMoved old.now new.new v content }
    ensures stop { (contents : ℕ → CellAt → ℤ) → ((v : ℕ) → v < old.now.told.counts.cells → LeavesHold old.now v (contents v))
        → result ≡ all_stop old.now.told.grid new.new.told.grid contents old.now.told.counts.cells }
{
    for v in 0..old.layout().cells {
        let stop = move_variable(old, new, v);
        if stop.is_some() {
            return stop;
        }
    }
    None
}

ghost use Rattle.mesh_model.specs.Geometry.Places.{in_block};
