//! A world on the tree after refining and merging.

ghost use Rattle.amr_num.specs.declared.CellAt.{CellAt};
ghost use Rattle.amr_num.specs.declared.EdgeAt.{EdgeAt};
ghost use Rattle.amr_num.specs.declared.FaceAt.{FaceAt};
ghost use Rattle.block_tree.specs.Growing.{MayRegrow};
ghost use Rattle.mesh_model.specs.Fields.Plain.{Mesh};
ghost use Rattle.mesh_model.specs.Fields.Ranks.{IsFit};
ghost use Rattle.rank_world.specs.Holding.{IsOfValidMesh, LeavesHold, LeavesHoldEdges, LeavesHoldFaces, LeavesInRange};
ghost use Rattle.refine_marks.specs.Flags.{IsOnePerNode};
ghost use Rattle.refine_marks.specs.Planned.{merged_by, refined_by};
ghost use Rattle.regrid_move.specs.AxisMoves.{LeafAxesMoved, values_stop};
ghost use Rattle.regrid_move.specs.declared.kinds.Staggered.TheVariants.{Edges, Faces};
ghost use Rattle.regrid_move.specs.Near.{LeavesMoved, MayMoveAll};
ghost use Rattle.regrid_move.specs.Regrids.{AreOfMesh, IsRegridStop, IsRegridded, of_growth};
ghost use Rattle.std.specs.Prelude.{◌≡◌, ◌<◌, ℕ, ℤ, None, false, IfErr, OnErr, OnOk};

use crate::kinds::Staggered;
use crate::moving::move_all;
use crate::ranging::move_declared;
use amr_num::OutOfMemory;
use block_tree::GrowStop;
use mesh_model::RangeStop;
use rank_world::World;
use refine_marks::Plan;
use std::alloc::Global;

/// Why a world was not regridded.
#[derive(Clone, Copy, Debug, PartialEq, Eq)]
pub enum RegridStop {
    /// So many nodes would stand, which are too many.
    Blocks(u32),
    /// A number would be out of range: the first of them in the walk through the mesh.
    Range(RangeStop),
    /// Memory was refused.
    OutOfMemory,
}

/// A world is not regridded where there is no new tree.
fn no_tree(stop: GrowStop) -> RegridStop
    ensures { result ≡ of_growth stop }
{
    match stop {
        GrowStop::Blocks(count) => RegridStop::Blocks(count),
        GrowStop::OutOfMemory => RegridStop::OutOfMemory,
    }
}

/// Writes the old views of all variables into each leaf of the new tree, up to the first that is out of range: cells
/// first, then faces and edges where a variable of these is declared.
fn move_values<const N: usize, const G: usize>(
    old: &World<N, G>,
    new: &mut World<N, G>,
) -> Option<RangeStop>
    requires may { MayMoveAll N G old.now new.old }
    requires mesh { IsOfValidMesh old.now }
    ensures told { new.new.told ≡ new.old.told }
    ensures fit { IsFit N G new.new }
    ensures cells { result ≡ None → (v : ℕ) (content : CellAt → ℤ) → v < old.now.told.counts.cells → LeavesHold old.now v content
        → LeavesMoved old.now new.new v content }
    ensures faces { result ≡ None → 0 < old.now.told.counts.faces → (field : FaceAt → ℤ) → LeavesHoldFaces old.now field
        → LeafAxesMoved Faces old.now new.new field }
    ensures edges { result ≡ None → 0 < old.now.told.counts.edges → (field : EdgeAt → ℤ) → LeavesHoldEdges false old.now field
        → LeafAxesMoved Edges old.now new.new field }
    ensures stop { (contents : ℕ → CellAt → ℤ) (on_faces : FaceAt → ℤ) (on_edges : EdgeAt → ℤ)
        → ((v : ℕ) → v < old.now.told.counts.cells → LeavesHold old.now v (contents v))
        → (0 < old.now.told.counts.faces → LeavesHoldFaces old.now on_faces) → (0 < old.now.told.counts.edges → LeavesHoldEdges false old.now on_edges)
        → result ≡ values_stop old.now.told.grid new.new.told.grid contents on_faces on_edges old.now.told.counts }
{
    let cells = move_all(old, new);
    if cells.is_some() {
        return cells;
    }
    let faces = move_declared(old, new, Staggered::Faces);
    if faces.is_some() {
        return faces;
    }
    move_declared(old, new, Staggered::Edges)
}

/// Puts a world on the new tree in place of one on the old. A refusal leaves the old one.
pub fn regrid<const N: usize, const G: usize>(
    alloc: Global,
    world: &mut World<N, G>,
    plan: &Plan,
) -> Result<(), RegridStop>
    requires fit { IsFit N G world.old }
    requires mesh { IsOfValidMesh world.old }
    requires range { LeavesInRange world.old }
    requires refine { IsOnePerNode world.old.told.grid plan.now.refine.items }
    requires merge { IsOnePerNode world.old.told.grid plan.now.merge.items }
    requires may { MayRegrow world.old.told.grid (refined_by world.old.told.grid plan.now) (merged_by world.old.told.grid plan.now) }
    ensures fit { IsFit N G world.new }
    ensures mesh { OnOk result ((m : Mesh) → AreOfMesh world.old plan.now m → IsRegridded m world.new) }
    ensures refused { OnErr result (world.new ≡ world.old) }
    ensures stop { IfErr result (λ stop. (m : Mesh) → AreOfMesh world.old plan.now m → IsRegridStop m stop) }
{
    let tree = match world.tree().regrown(alloc, &plan.refine, &plan.merge) {
        Ok(tree) => tree,
        Err(stop) => return Err(no_tree(stop)),
    };
    let mut new = match World::on_tree(alloc, tree, world.layout()) {
        Ok(new) => new,
        Err(OutOfMemory) => return Err(RegridStop::OutOfMemory),
    };
    match move_values(world, &mut new) {
        Some(stop) => Err(RegridStop::Range(stop)),
        None => {
            *world = new;
            Ok(())
        }
    }
}
