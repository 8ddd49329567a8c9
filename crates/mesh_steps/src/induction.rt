//! One step of the face variable, over all levels.

ghost use Rattle.amr_num.specs.declared.FaceAt.{FaceAt};
ghost use Rattle.mesh_model.specs.Fields.Advect as stepping;
ghost use Rattle.mesh_model.specs.Fields.Advect.{three};
ghost use Rattle.mesh_model.specs.Fields.Induct.{leaf_electromotive_force};
ghost use Rattle.mesh_model.specs.Fields.Plain.{Mesh};
ghost use Rattle.mesh_model.specs.Fields.Ranks.{IsFit};
ghost use Rattle.mesh_model.specs.Fields.Valid.{ValidMesh};
ghost use Rattle.mesh_model.specs.Language.Commands.{AreThree};
ghost use Rattle.mesh_steps.specs.Circulations.{IsSmall};
ghost use Rattle.mesh_steps.specs.Inducting.{Inducts};
ghost use Rattle.mesh_steps.specs.Stepping.{KeepsMeshes};
ghost use Rattle.mesh_steps.specs.declared.circulations.Step.TheVariants as steps;
ghost use Rattle.rank_world.specs.Holding.{IsLeafNode, IsOfMesh, IsOfValidMesh, LeavesHoldEdges, LeavesHoldFaces};
ghost use Rattle.std.specs.Prelude.{◌≡◌, ◌<◌, ◌≤◌, ◌^◌, ℕ, ℤ, true};

use crate::advection::keeps_courant;
use crate::circulations::{Step, step_leaves, take_faces};
use crate::forcing::force;
use crate::hindrance::FaceHindrance;
use edge_average::agree;
use guard_fill::{fill, restrict_all};
use mesh_model::Group;
use rank_world::World;

/// Fills the guard faces of all leaves, and sets their work edges to the electromotive forces of the mesh: where finer
/// leaves stand round an edge, to the sum of its halves.
fn drive<const N: usize, const G: usize>(world: &mut World<N, G>, speeds: [i64; 3])
    requires fit { IsFit N G world.old }
    requires mesh { IsOfValidMesh world.old }
    requires faces { 0 < world.old.told.counts.faces }
    requires speeds { AreThree (2 ^ 20) speeds }
    requires courant { stepping.keeps_courant world.old.told.grid.shape (three speeds) ≡ true }
    ensures fit { IsFit N G world.new }
    ensures told { world.new.told ≡ world.old.told }
    ensures meshes { KeepsMeshes world.old world.new }
    ensures forces { (field : FaceAt → ℤ) → LeavesHoldFaces world.old field
        → LeavesHoldEdges true world.new (leaf_electromotive_force world.old.told.grid field (three speeds)) }
    ensures small { (node : ℕ) → IsLeafNode world.new.told.grid node → IsSmall steps.Induct N G world.new node }
{
    restrict_all(world, Group::Face);
    fill(world, Group::Face);
    force(world, speeds);
    agree(world, Group::Edge, true);
}

/// Makes one step of the face variable at the speeds, which count in 2^-20 of the coarsest cell a step: each leaf face loses
/// the circulation of the electromotive forces round it, so that each leaf cell keeps its net flux. A coarse face beside
/// finer leaves gets the sum of the four finer ones. The guards of faces are not said afterwards, and the work faces and
/// the work edges are used. A step that is hindered leaves the face variable.
///
/// # Errors
///
/// [`FaceHindrance::TooFast`] where the speeds together move more than one finest cell a step, and else
/// [`FaceHindrance::Number`] with the first leaf face in the walk over the leaves that would hold a number out of range.
pub fn induct<const N: usize, const G: usize>(
    world: &mut World<N, G>,
    speeds: [i64; 3],
) -> Result<(), FaceHindrance>
    requires fit { IsFit N G world.old }
    requires mesh { IsOfValidMesh world.old }
    requires faces { 0 < world.old.told.counts.faces }
    requires speeds { AreThree (2 ^ 20) speeds }
    ensures fit { IsFit N G world.new }
    ensures told { world.new.told ≡ world.old.told }
    ensures inducts { (m : Mesh) → ValidMesh m → IsOfMesh world.old m → Inducts m speeds world.new result }
{
    if !keeps_courant(&world.tree().shape(), speeds) {
        return Err(FaceHindrance::TooFast);
    }
    drive(world, speeds);
    match step_leaves(world, Step::Induct) {
        Ok(()) => {
            take_faces(world);
            Ok(())
        }
        Err(found) => Err(FaceHindrance::Number(found)),
    }
}
