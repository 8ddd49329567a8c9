//! The world of a tree with the numbers of an image.

ghost use Rattle.amr_num.specs.declared.CellAt.{CellAt};
ghost use Rattle.amr_num.specs.declared.EdgeAt.{EdgeAt};
ghost use Rattle.amr_num.specs.declared.FaceAt.{FaceAt};
ghost use Rattle.block_tree.specs.GridOf.{grid_of};
ghost use Rattle.block_tree.specs.Interior.{array_on};
ghost use Rattle.mesh_model.specs.Fields.Plain.{Mesh};
ghost use Rattle.mesh_model.specs.Fields.RangeWalk.{cells_walked};
ghost use Rattle.mesh_model.specs.Fields.Ranks.{IsFit, IsSized};
ghost use Rattle.mesh_model.specs.Fields.Valid.{ValidMesh};
ghost use Rattle.mesh_model.specs.Images.Image.{leaf_edges, leaf_faces};
ghost use Rattle.mesh_model.specs.declared.fields.values.Group.TheVariants as groups;
ghost use Rattle.mesh_restore.specs.Filling.{AreWithin, ArraysWithin};
ghost use Rattle.mesh_restore.specs.Restoring.{IsStoredOf, OnlyCellArrays};
ghost use Rattle.rank_world.specs.Holding.{IsOfMesh, LeavesHold, LeavesHoldEdges, LeavesHoldFaces, OnlyAxes};
ghost use Rattle.std.specs.Prelude.{◌≡◌, ◌<◌, ◌^◌, ℕ, ℤ, false, IfOk, length, map};

use crate::leaves::fill_group;
use amr_num::OutOfMemory;
use block_store::Layout;
use block_tree::Tree;
use edge_average::agree;
use mesh_model::Group;
use rank_world::World;
use std::alloc::Global;

/// Fills the cell variables with their contents, a list for each.
fn fill_cells<const N: usize, const G: usize>(world: &mut World<N, G>, cells: &[Vec<i64>])
    requires fit { IsFit N G world.old }
    requires cells { length cells.now ≡ world.old.told.counts.cells }
    ensures fit { IsFit N G world.new }
    ensures only { OnlyCellArrays world.old world.new }
    ensures contents { let g = world.old.told.grid in (v : ℕ) (field : CellAt → ℤ) → v < length cells.now → list_at cells.now v ≡ map field (cells_walked g) → LeavesHold world.new v field }
{
    let _tree = world.tree();
    let layout = world.layout();
    for variable in 0..layout.cells {
        fill_group(world, Group::Cell(variable), &cells[variable as usize]);
    }
}

/// Fills the face variable, where it is declared, with the numbers of the leaf faces.
fn fill_faces<const N: usize, const G: usize>(world: &mut World<N, G>, faces: &[i64])
    requires fit { IsFit N G world.old }
    requires small { 0 < world.old.told.counts.faces → ArraysWithin world.old.told.grid groups.Face (2 ^ 40) world.old }
    requires faces { AreWithin (2 ^ 40) faces.now }
    ensures fit { IsFit N G world.new }
    ensures only { OnlyAxes (array_on groups.Face) world.old world.new }
    ensures holds { 0 < world.old.told.counts.faces → (field : FaceAt → ℤ) → faces.now ≡ map field (leaf_faces world.old.told.grid) → LeavesHoldFaces world.new field }
{
    let _tree = world.tree();
    let layout = world.layout();
    if layout.faces > 0 {
        fill_group(world, Group::Face, faces);
        agree(world, Group::Face, false);
    }
}

/// Fills the edge variable, where it is declared, with the numbers of the leaf edges.
fn fill_edges<const N: usize, const G: usize>(world: &mut World<N, G>, edges: &[i64])
    requires fit { IsFit N G world.old }
    requires small { 0 < world.old.told.counts.edges → ArraysWithin world.old.told.grid groups.Edge (2 ^ 40) world.old }
    requires edges { AreWithin (2 ^ 40) edges.now }
    ensures fit { IsFit N G world.new }
    ensures only { OnlyAxes (array_on groups.Edge) world.old world.new }
    ensures holds { 0 < world.old.told.counts.edges → (field : EdgeAt → ℤ) → edges.now ≡ map field (leaf_edges world.old.told.grid) → LeavesHoldEdges false world.new field }
{
    let _tree = world.tree();
    let layout = world.layout();
    if layout.edges > 0 {
        fill_group(world, Group::Edge, edges);
        agree(world, Group::Edge, false);
    }
}

/// The world of a tree with the numbers that an image has: for each cell variable a list of contents, the numbers of the
/// leaf faces and those of the leaf edges, each once, in the order of the image. Each leaf then has the contents of its
/// cells, and the views of the two fields on all its faces and edges.
pub fn world_of<const N: usize, const G: usize>(
    alloc: Global,
    tree: Tree,
    layout: Layout,
    cells: &[Vec<i64>],
    faces: &[i64],
    edges: &[i64],
) -> Result<World<N, G>, OutOfMemory>
    requires sizes { IsSized N G (grid_of tree).shape }
    requires cells { length cells.now ≡ layout.cells }
    requires faces { AreWithin (2 ^ 40) faces.now }
    requires edges { AreWithin (2 ^ 40) edges.now }
    ensures fit { IfOk result (λ world. IsFit N G world) }
    ensures grid { IfOk result (λ world. world.told.grid ≡ grid_of tree) }
    ensures counts { IfOk result (λ world. world.told.counts ≡ layout) }
    ensures mesh { IfOk result (λ world. (m : Mesh) → ValidMesh m → IsStoredOf m (grid_of tree) layout (numbers cells.now) faces.now edges.now → IsOfMesh world m) }
{
    let mut world = World::on_tree(alloc, tree, layout)?;
    fill_cells(&mut world, cells);
    fill_faces(&mut world, faces);
    fill_edges(&mut world, edges);
    Ok(world)
}

ghost use Rattle.block_store.specs.Held.{numbers};
ghost use Rattle.mesh_restore.specs.Restoring.{list_at};
