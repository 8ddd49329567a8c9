//! Marks by what leaves contain.

ghost use Rattle.amr_num.specs.Numbers.{at};
ghost use Rattle.amr_num.specs.declared.CellAt.{CellAt};
ghost use Rattle.amr_num.specs.declared.BlockAt.{BlockAt};
ghost use Rattle.amr_engine.specs.MarkedWhere.{IsFoundAt, IsMarkedWhere, MayMark, block_has, derefine_with, is_found_by, passes as does_pass, plane_has, refine_with};
ghost use Rattle.block_tree.specs.GridOf.{grid_of};
ghost use Rattle.block_tree.specs.Marked.{IsMarksOf, derefine_of, refine_of, room};
ghost use Rattle.block_tree.specs.Numbered.{IsNode, block_at};
ghost use Rattle.mesh_model.specs.Geometry.Blocks.{is_same_block};
ghost use Rattle.mesh_model.specs.Fields.ArrayPlaces.{IsSize, cell_extents, number_at, size_of};
ghost use Rattle.mesh_model.specs.Fields.Ranks.{IsFit};
ghost use Rattle.rank_world.specs.Writing.{IsLeafArray};
ghost use Rattle.std.specs.List.{list_any};
ghost use Rattle.std.specs.Prelude.{◌≡◌, ◌+◌, ◌<◌, ◌≤◌, length};

use amr_num::BlockAt;
use block_store::cell_row;
use block_tree::{Marks, Tree};
use mesh_model::{Shape, Var};
use rank_world::World;

/// A mark, and the contents for which a leaf gets it.
#[derive(Clone, Copy, Debug, PartialEq, Eq)]
pub enum Where {
    /// To be refined: below the greatest level, where some content is above the number.
    RefineAbove(i64),
    /// To be merged: above the least level, where all contents are below the number.
    DerefineBelow(i64),
}

/// Whether a content of a leaf decides: it is above the number, or it is not below.
fn passes(rule: Where, content: i64) -> bool
    ensures { result ≡ does_pass rule content }
{
    match rule {
        Where::RefineAbove(above) => content > above,
        Where::DerefineBelow(below) => content >= below,
    }
}

/// Whether some number of a row decides.
fn row_has(row: &[i64], rule: Where) -> bool
    ensures { result ≡ list_any (λ content. does_pass rule content) row.now }
{
    row.iter().any(|content| passes(rule, *content))
}

/// Whether some cell of the plane of a block at the place `k` decides.
fn some_in_plane(n: usize, g: usize, values: &[i64], k: usize, rule: Where) -> bool
    requires size { IsSize n g }
    requires values { length values.now ≡ size_of (cell_extents n g) }
    requires place { k < n }
    ensures { result ≡ plane_has n (λ x y z. number_at (cell_extents n g) values.now (g + x) (g + y) (g + z)) rule k }
{
    for j in 0..n {
        if row_has(cell_row(n, g, values, j, k), rule) {
            return true;
        }
    }
    false
}

/// Whether some cell of a block decides.
fn some_in_block(n: usize, g: usize, values: &[i64], rule: Where) -> bool
    requires size { IsSize n g }
    requires values { length values.now ≡ size_of (cell_extents n g) }
    ensures { result ≡ block_has n (λ x y z. number_at (cell_extents n g) values.now (g + x) (g + y) (g + z)) rule }
{
    for k in 0..n {
        if some_in_plane(n, g, values, k, rule) {
            return true;
        }
    }
    false
}

/// Whether a leaf with such contents gets the mark: some content decides where it is to be refined, and none where it is
/// to be merged. It stands below the greatest level, or above the least.
fn is_found(shape: &Shape, block: BlockAt, decides: bool, rule: Where) -> bool
    ensures { result ≡ is_found_by shape.now block decides rule }
{
    match rule {
        Where::RefineAbove(_) => block.level < shape.max && decides,
        Where::DerefineBelow(_) => shape.min < block.level && !decides,
    }
}

/// Whether a node is a leaf that gets the mark.
fn is_wanted<const N: usize, const G: usize>(
    world: &World<N, G>,
    v: u32,
    node: u32,
    rule: Where,
) -> bool
    requires fit { IsFit N G world.now }
    requires variable { v < world.now.told.counts.cells }
    requires node { IsNode world.now.told.grid node }
    ensures { IsFoundAt world.now v rule node result }
{
    let tree = world.tree();
    if !tree.is_leaf(node) {
        return false;
    }
    let decides = some_in_block(N, G, world.values(Var::Cell(v), node), rule);
    is_found(&tree.shape(), tree.at(node), decides, rule)
}

/// Puts the mark on a node.
fn put(tree: &Tree, marks: &mut Marks, node: u32, rule: Where)
    requires node { IsNode (grid_of tree.now) node }
    requires marks { IsMarksOf (grid_of tree.now) marks.old }
    requires may { MayMark (grid_of tree.now) rule (block_at (grid_of tree.now) node) }
    ensures room { room marks.new ≡ room marks.old }
    ensures marks { IsMarksOf (grid_of tree.now) marks.new }
    ensures refine { (b : BlockAt) → refine_of (grid_of tree.now) marks.new b
        ≡ refine_with rule (is_same_block (block_at (grid_of tree.now) node) b) (refine_of (grid_of tree.now) marks.old b) }
    ensures derefine { (b : BlockAt) → derefine_of (grid_of tree.now) marks.new b
        ≡ derefine_with rule (is_same_block (block_at (grid_of tree.now) node) b) (derefine_of (grid_of tree.now) marks.old b) }
{
    let refine = marks.refine(node);
    let derefine = marks.derefine(node);
    match rule {
        Where::RefineAbove(_) => marks.put(tree, node, true, derefine),
        Where::DerefineBelow(_) => marks.put(tree, node, refine, true),
    }
}

/// Marks every leaf whose contents of the variable ask for it.
pub fn mark_where<const N: usize, const G: usize>(
    world: &World<N, G>,
    marks: &mut Marks,
    v: u32,
    rule: Where,
)
    requires fit { IsFit N G world.now }
    requires variable { v < world.now.told.counts.cells }
    requires marks { IsMarksOf world.now.told.grid marks.old }
    ensures room { room marks.new ≡ room marks.old }
    ensures marks { IsMarksOf world.now.told.grid marks.new }
    ensures marked { IsMarkedWhere world.now v rule marks.old marks.new }
{
    for node in 0..world.tree().len() {
        if is_wanted(world, v, node, rule) {
            put(world.tree(), marks, node, rule);
        }
    }
}
