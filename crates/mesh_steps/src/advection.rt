//! One step of a cell variable, over all levels.

ghost use Rattle.mesh_steps.specs.Stepping.{KeepsMeshes, Steps};
ghost use Rattle.amr_num.specs.Numbers.{Within};
ghost use Rattle.amr_num.specs.declared.CellAt.{CellAt};
ghost use Rattle.mesh_steps.specs.Flowing.{AreGuarded};
ghost use Rattle.flux_conserve.specs.Work.{HasNoJump, OnlyWorkFaces, WorkHolds, WorkWithin};
ghost use Rattle.guard_fill.specs.Filling.{LeavesSided};
ghost use Rattle.mesh_model.specs.Fields.Advect as stepping;
ghost use Rattle.mesh_model.specs.Fields.Advect.{flux, three};
ghost use Rattle.mesh_model.specs.Fields.Plain.{Mesh};
ghost use Rattle.mesh_model.specs.Fields.Ranks.{IsFit};
ghost use Rattle.mesh_model.specs.Fields.Valid.{ValidMesh};
ghost use Rattle.mesh_model.specs.Language.Commands.{AreThree};
ghost use Rattle.rank_world.specs.Holding.{IsOfMesh, IsOfValidMesh, LeavesHold, LeavesInRange};
ghost use Rattle.std.specs.Prelude.{◌≡◌, ◌+◌, ◌<◌, ◌≤◌, ◌*◌, ◌^◌, ℤ, true, false, unsigned_abs};

use crate::flowing::flow;
use crate::hindrance::Hindrance;
use crate::settling::{settle, take_over};
use flux_conserve::{correct, has_jump};
use guard_fill::{fill_sides, restrict_all};
use mesh_model::{Group, Shape};
use rank_world::World;

/// The greatest absolute value of what has flowed out of a variable.
pub const MOST_OUT: u128 = 1 << 100;

/// The speeds together, whatever their signs.
fn speeds_together(speeds: [i64; 3]) -> u64
    requires { AreThree (2 ^ 20) speeds }
    ensures value { result ≡ unsigned_abs (three speeds).x + unsigned_abs (three speeds).y + unsigned_abs (three speeds).z }
    ensures small { result ≤ 3 * 2 ^ 20 }
{
    speeds[0].unsigned_abs() + speeds[1].unsigned_abs() + speeds[2].unsigned_abs()
}

/// Whether the speeds keep the Courant limit: together they move at most one finest cell a step.
#[tactic(auto, unfolding(mesh_model::specs::Fields::Advect::keeps_courant))]
pub(crate) fn keeps_courant(shape: &Shape, speeds: [i64; 3]) -> bool
    requires level { shape.now.max ≤ 10 }
    requires speeds { AreThree (2 ^ 20) speeds }
    ensures { result ≡ stepping.keeps_courant shape.now (three speeds) }
{
    speeds_together(speeds) << shape.max <= 1 << 20
}

/// Sets the work faces of leaves at a jump of level to the mesh's fluxes, with the sums of finer faces there. `jumps`
/// tells whether there are such leaves.
fn blow_faces<const N: usize, const G: usize>(
    world: &mut World<N, G>,
    v: u32,
    speeds: [i64; 3],
    jumps: bool,
)
    requires fit { IsFit N G world.old }
    requires variable { v < world.old.told.counts.cells }
    requires guarded { AreGuarded world.old v }
    requires speeds { AreThree (2 ^ 20) speeds }
    requires courant { stepping.keeps_courant world.old.told.grid.shape (three speeds) ≡ true }
    requires calm { jumps ≡ false → HasNoJump world.old.told.grid }
    ensures only { OnlyWorkFaces world.old world.new }
    ensures fit { IsFit N G world.new }
    ensures flows { (content : CellAt → ℤ) → LeavesSided world.old v content → WorkHolds world.new (flux world.old.told.grid content (three speeds)) }
    ensures small { WorkWithin world.new (2 ^ 58) }
{
    let _shape = world.tree().shape();
    if jumps {
        flow(world, v, speeds);
        correct(world);
    }
}

/// Fills the guard cells straight across the sides of all leaves, and sets the work faces of those at a jump of level to
/// the mesh's fluxes. `jumps` tells whether there are such leaves.
fn blow<const N: usize, const G: usize>(
    world: &mut World<N, G>,
    v: u32,
    speeds: [i64; 3],
    jumps: bool,
)
    requires fit { IsFit N G world.old }
    requires mesh { IsOfValidMesh world.old }
    requires variable { v < world.old.told.counts.cells }
    requires speeds { AreThree (2 ^ 20) speeds }
    requires courant { stepping.keeps_courant world.old.told.grid.shape (three speeds) ≡ true }
    requires calm { jumps ≡ false → HasNoJump world.old.told.grid }
    ensures fit { IsFit N G world.new }
    ensures told { world.new.told ≡ world.old.told }
    ensures meshes { KeepsMeshes world.old world.new }
    ensures guarded { (content : CellAt → ℤ) → LeavesHold world.old v content → LeavesSided world.new v content }
    ensures flows { (content : CellAt → ℤ) → LeavesHold world.old v content → WorkHolds world.new (flux world.old.told.grid content (three speeds)) }
    ensures small { WorkWithin world.new (2 ^ 58) }
{
    restrict_all(world, Group::Cell(v));
    fill_sides(world, v);
    blow_faces(world, v, speeds, jumps);
}

/// Makes one step of a variable, and gives what has flowed out of it in all, which was `out` before. A step that is
/// hindered leaves the contents.
pub fn advect<const N: usize, const G: usize>(
    world: &mut World<N, G>,
    v: u32,
    speeds: [i64; 3],
    out: i128,
) -> Result<i128, Hindrance>
    requires fit { IsFit N G world.old }
    requires mesh { IsOfValidMesh world.old }
    requires variable { v < world.old.told.counts.cells }
    requires speeds { AreThree (2 ^ 20) speeds }
    requires out { Within (2 ^ 100) out }
    ensures fit { IsFit N G world.new }
    ensures told { world.new.told ≡ world.old.told }
    ensures steps { (m : Mesh) → ValidMesh m → IsOfMesh world.old m → out ≡ m.outs v → Steps m v speeds world.new result }
{
    if !keeps_courant(&world.tree().shape(), speeds) {
        return Err(Hindrance::TooFast);
    }
    let jumps = has_jump(world.tree());
    blow(world, v, speeds, jumps);
    let flown = match settle(world, v, speeds, jumps) {
        Ok(flown) => flown,
        Err(above) => return Err(Hindrance::Content(above)),
    };
    let out = out + flown;
    if out.unsigned_abs() > MOST_OUT {
        return Err(Hindrance::FlowedOut(out));
    }
    take_over(world, v);
    Ok(out)
}
