//! The cells of a new leaf, from those of old leaves.

ghost use Rattle.amr_num.specs.declared.CellAt.{CellAt};
ghost use Rattle.block_tree.specs.GridOf.{grid_of};
ghost use Rattle.block_tree.specs.Numbered.{IsNumberOf, block_at};
ghost use Rattle.mesh_model.specs.Geometry.Blocks.{child_block, parent_block};
ghost use Rattle.mesh_model.specs.Tree.Order.{IsIn};
ghost use Rattle.mesh_model.specs.Tree.Kinds.{is_leaf_block};
ghost use Rattle.mesh_model.specs.Fields.Ranks.{IsFit, OnlyOf};
ghost use Rattle.mesh_model.specs.declared.fields.values.Var.TheVariants.{Cell};
ghost use Rattle.rank_world.specs.Holding.{IsLeafNode, LeavesHold};
ghost use Rattle.regrid_move.specs.Near.{IsNear, MayMove, NodeMoved, OctantMoved};
ghost use Rattle.std.specs.Prelude.{◌≡◌, ◌≢◌, ◌<◌, ℕ, ℤ, MatchOption, false};

use amr_num::BlockAt;
use block_tree::Tree;
use mesh_model::Var;
use prolong_op::split_cells;
use rank_world::World;
use restrict_op::restrict_cells;

/// Copies an old leaf.
fn copy_leaf<const N: usize, const G: usize>(
    old: &World<N, G>,
    new: &mut World<N, G>,
    v: u32,
    from: u32,
    node: u32,
)
    requires may { MayMove N G old.now new.old v node }
    requires from { IsLeafNode old.now.told.grid from }
    requires same { block_at old.now.told.grid from ≡ block_at new.old.told.grid node }
    ensures only { OnlyOf new.old new.new 0 (Cell v) node }
    ensures fit { IsFit N G new.new }
    ensures views { (content : CellAt → ℤ) → LeavesHold old.now v content → NodeMoved old.now new.new v content node }
{
    let values = old.values(Var::Cell(v), from);
    new.values_mut(Var::Cell(v), node).copy_from_slice(values);
}

/// Splits an old leaf into one of its children.
fn split_leaf<const N: usize, const G: usize>(
    old: &World<N, G>,
    new: &mut World<N, G>,
    v: u32,
    parent: u32,
    octant: u32,
    node: u32,
)
    requires may { MayMove N G old.now new.old v node }
    requires parent { IsLeafNode old.now.told.grid parent }
    requires octant { octant < 8 }
    requires child { child_block (block_at old.now.told.grid parent) octant ≡ block_at new.old.told.grid node }
    ensures only { OnlyOf new.old new.new 0 (Cell v) node }
    ensures fit { IsFit N G new.new }
    ensures views { (content : CellAt → ℤ) → LeavesHold old.now v content → NodeMoved old.now new.new v content node }
{
    let _tree = old.tree();
    let values = old.values(Var::Cell(v), parent);
    split_cells::<N, G>(octant, values, new.values_mut(Var::Cell(v), node));
}

/// Sums the cells of an old leaf into the octant of a new leaf in which it lies.
fn sum_child<const N: usize, const G: usize>(
    old: &World<N, G>,
    new: &mut World<N, G>,
    v: u32,
    child: u32,
    octant: u32,
    node: u32,
)
    requires may { MayMove N G old.now new.old v node }
    requires child { IsLeafNode old.now.told.grid child }
    requires octant { octant < 8 }
    requires inside { block_at old.now.told.grid child ≡ child_block (block_at new.old.told.grid node) octant }
    ensures only { OnlyOf new.old new.new 0 (Cell v) node }
    ensures fit { IsFit N G new.new }
    ensures sums { (content : CellAt → ℤ) → LeavesHold old.now v content → OctantMoved old.now new.new v content node octant }
    ensures stays { (content : CellAt → ℤ) (p : ℕ) → p < 8 → p ≢ octant
        → OctantMoved old.now new.old v content node p → OctantMoved old.now new.new v content node p }
{
    let _tree = old.tree();
    let values = old.values(Var::Cell(v), child);
    restrict_cells::<N, G>(octant, values, new.values_mut(Var::Cell(v), node));
}

/// Sums eight old leaves into the new leaf in which they lie.
fn sum_leaf<const N: usize, const G: usize>(
    old: &World<N, G>,
    new: &mut World<N, G>,
    v: u32,
    from: u32,
    node: u32,
)
    requires may { MayMove N G old.now new.old v node }
    requires from { IsNumberOf old.now.told.grid (block_at new.old.told.grid node) from }
    requires children { (q : ℕ) → q < 8 → IsIn (child_block (block_at new.old.told.grid node) q) old.now.told.grid.leaves }
    requires inner { is_leaf_block old.now.told.grid (block_at new.old.told.grid node) ≡ false }
    ensures only { OnlyOf new.old new.new 0 (Cell v) node }
    ensures fit { IsFit N G new.new }
    ensures views { (content : CellAt → ℤ) → LeavesHold old.now v content → NodeMoved old.now new.new v content node }
{
    let tree = old.tree();
    for octant in 0..8 {
        match tree.child(from, octant) {
            Some(child) => sum_child(old, new, v, child, octant, node),
            None => unreachable!(),
        }
    }
}

/// Sums the eight children of a block of the old tree into the new leaf there.
fn sum_up<const N: usize, const G: usize>(
    old: &World<N, G>,
    new: &mut World<N, G>,
    v: u32,
    block: BlockAt,
    node: u32,
)
    requires may { MayMove N G old.now new.old v node }
    requires children { (q : ℕ) → q < 8 → IsIn (child_block block q) old.now.told.grid.leaves }
    requires inner { is_leaf_block old.now.told.grid block ≡ false }
    requires block { block ≡ block_at new.old.told.grid node }
    ensures only { OnlyOf new.old new.new 0 (Cell v) node }
    ensures fit { IsFit N G new.new }
    ensures views { (content : CellAt → ℤ) → LeavesHold old.now v content → NodeMoved old.now new.new v content node }
{
    match old.tree().node_at(block) {
        Some(from) => sum_leaf(old, new, v, from, node),
        None => unreachable!(),
    }
}

/// The leaf of the tree that a block is a child of.
pub(crate) fn parent_leaf(tree: &Tree, b: BlockAt) -> Option<u32>
    ensures { let g = grid_of tree.now in
        MatchOption result (0 < b.level → is_leaf_block g (parent_block b) ≡ false) (λ parent. (0 < b.level) × IsLeafNode g parent × (block_at g parent ≡ parent_block b)) }
{
    if b.level == 0 {
        return None;
    }
    tree.leaf_at(BlockAt {
        level: b.level - 1,
        x: b.x / 2,
        y: b.y / 2,
        z: b.z / 2,
    })
}

/// Makes a new leaf that was none: from its parent that was one, or from its children.
fn make_leaf<const N: usize, const G: usize>(
    old: &World<N, G>,
    new: &mut World<N, G>,
    v: u32,
    block: BlockAt,
    node: u32,
)
    requires may { MayMove N G old.now new.old v node }
    requires near { IsNear old.now.told.grid block }
    requires no_leaf { is_leaf_block old.now.told.grid block ≡ false }
    requires block { block ≡ block_at new.old.told.grid node }
    ensures only { OnlyOf new.old new.new 0 (Cell v) node }
    ensures fit { IsFit N G new.new }
    ensures views { (content : CellAt → ℤ) → LeavesHold old.now v content → NodeMoved old.now new.new v content node }
{
    let octant = block.x % 2 + 2 * (block.y % 2) + 4 * (block.z % 2);
    match parent_leaf(old.tree(), block) {
        Some(parent) => split_leaf(old, new, v, parent, octant, node),
        None => sum_up(old, new, v, block, node),
    }
}

/// Writes the old views of a new leaf's cells into it.
pub(crate) fn move_leaf<const N: usize, const G: usize>(
    old: &World<N, G>,
    new: &mut World<N, G>,
    v: u32,
    node: u32,
)
    requires may { MayMove N G old.now new.old v node }
    requires near { IsNear old.now.told.grid (block_at new.old.told.grid node) }
    ensures only { OnlyOf new.old new.new 0 (Cell v) node }
    ensures fit { IsFit N G new.new }
    ensures views { (content : CellAt → ℤ) → LeavesHold old.now v content → NodeMoved old.now new.new v content node }
{
    let block = new.tree().at(node);
    match old.tree().leaf_at(block) {
        Some(from) => copy_leaf(old, new, v, from, node),
        None => make_leaf(old, new, v, block, node),
    }
}
