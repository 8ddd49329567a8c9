//! A whole checkpoint, and several.
ghost use Rattle.std.specs.Prelude.{◌≡◌, ◌⊎◌, ℕ, ◌≤◌, Some, is_some, length, map, OnOk, OnErr};
ghost use Rattle.std.specs.List.{All};
ghost use Rattle.outside_io.specs.Areas.{Areas};
ghost use Rattle.outside_io.specs.Crash.{LeavesOnly, Rests};
ghost use Rattle.outside_io.specs.Moved.{Rose};
ghost use Rattle.mesh_model.specs.Images.Held.{Found, IsWhole};
ghost use Rattle.check_disk.specs.Held.{held};
ghost use Rattle.check_disk.specs.Stages.{stage, IsStage};

use crate::look::survey;
use crate::pieces::Pieces;
use crate::steps::Closed;
use outside_io::Failed;
use outside_io::disk::{Area, Disk};

/// Writes a checkpoint of the pieces' mesh into the area that is not the newer: nothing of the pieces was given, and the
/// buffer has at least 64 bytes. Where nothing was pending and nothing is damaged, a crash at any moment leaves what was
/// held before or that mesh, and once it has answered Ok that mesh alone.
pub fn save<D: Disk, P: Pieces>(disk: &mut D, pieces: &mut P, buf: &mut [u8]) -> Result<(), Failed>
    requires room { 64 ≤ length buf.old }
    requires fresh { P.given pieces.old ≡ 0 }
    requires fits { P.format.Fits (P.mesh pieces.old) }
    ensures saved { OnOk result ((areas : Areas) → Rests D.holds D.may_leave disk.old areas → IsWhole (held P.format areas)
        → (after : Areas) × Rests D.holds D.may_leave disk.new after × (held P.format after ≡ Found (P.mesh pieces.old))) }
    ensures moments { (areas : Areas) → Rests D.holds D.may_leave disk.old areas → IsWhole (held P.format areas)
        → LeavesOnly D.moment D.left_since disk.old disk.new (λ c. (held P.format c ≡ held P.format areas) ⊎ (held P.format c ≡ Found (P.mesh pieces.old))) }
    ensures tells { is_some (D.holds disk.new) ≡ is_some (D.holds disk.old) }
    ensures calm { OnOk result (D.faults disk.new ≡ D.faults disk.old) }
    ensures fault { OnErr result (Rose (D.faults disk.old) (D.faults disk.new)) }
{
    let target = survey(disk)?;
    let closed = Closed::make(disk, target)?;
    let body = closed.body(disk, pieces, buf)?;
    body.open(disk)?;
    Ok(())
}

/// Writes a checkpoint of each mesh, one after another. Stopped at any moment, the disk holds what it held before, or
/// one of the meshes, whole.
pub fn save_each<D: Disk, P: Pieces>(
    disk: &mut D,
    all: &mut [P],
    buf: &mut [u8],
) -> Result<(), Failed>
    requires room { 64 ≤ length buf.old }
    requires fresh { All (λ p. P.given p ≡ 0) all.old }
    requires fits { All (λ p. P.format.Fits (P.mesh p)) all.old }
    ensures moments { (areas : Areas) → Rests D.holds D.may_leave disk.old areas → IsWhole (held P.format areas)
        → LeavesOnly D.moment D.left_since disk.old disk.new (IsStage P.format (held P.format areas) (map P.mesh all.old) (length all.old)) }
    ensures saved { OnOk result ((areas : Areas) → Rests D.holds D.may_leave disk.old areas → IsWhole (held P.format areas)
        → (after : Areas) × Rests D.holds D.may_leave disk.new after × (held P.format after ≡ stage (held P.format areas) (map P.mesh all.old) (length all.old))) }
    ensures calm { OnOk result (D.faults disk.new ≡ D.faults disk.old) }
    ensures fault { OnErr result (Rose (D.faults disk.old) (D.faults disk.new)) }
{
    for one in all.iter_mut() {
        save(disk, one, buf)?;
    }
    Ok(())
}

/// Syncs both areas: nothing is pending then. A save that failed may leave writes pending.
pub fn settle<D: Disk>(disk: &mut D) -> Result<(), Failed>
    ensures rests { OnOk result ((areas : Areas) → D.holds disk.old ≡ Some areas → Rests D.holds D.may_leave disk.new areas) }
    ensures crash { (c : Areas) → D.may_leave disk.new c → D.may_leave disk.old c }
    ensures calm { OnOk result (D.faults disk.new ≡ D.faults disk.old) }
    ensures fault { OnErr result (Rose (D.faults disk.old) (D.faults disk.new)) }
{
    disk.sync(Area::A)?;
    disk.sync(Area::B)
}
