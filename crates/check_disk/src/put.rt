// What a checkpoint writes: a gate, and the pieces of an image.
ghost use Rattle.std.specs.Prelude.{◌≡◌, ℕ, ◌≤◌, Some, is_some, [], ◌∷◌, ◌++◌, length, drop, IfSome, OnOk, OnErr};
ghost use Rattle.outside_io.specs.Areas.{Areas, bytes_of, with_bytes};
ghost use Rattle.outside_io.specs.Crash.{Torn, InArea, LeavesOnly, Rests};
ghost use Rattle.outside_io.specs.Moved.{Rose};
ghost use Rattle.check_disk.specs.Steps.{KeepsGate};

use crate::pieces::Pieces;
use crate::target::Target;
use outside_io::Failed;
use outside_io::disk::{Area, Disk};

/// Writes a gate, and syncs the area.
pub fn put_gate<D: Disk>(disk: &mut D, area: Area, gate: u8) -> Result<(), Failed>
    ensures put { OnOk result (IfSome (D.holds disk.old) (λ areas. D.holds disk.new ≡ Some (with_bytes areas area (gate ∷ drop 1 (bytes_of areas area))))) }
    ensures tells { is_some (D.holds disk.new) ≡ is_some (D.holds disk.old) }
    ensures done { OnOk result ((areas : Areas) → Rests D.holds D.may_leave disk.old areas → Rests D.holds D.may_leave disk.new (with_bytes areas area (gate ∷ drop 1 (bytes_of areas area)))) }
    ensures moments { (areas : Areas) → Rests D.holds D.may_leave disk.old areas → LeavesOnly D.moment D.left_since disk.old disk.new (InArea area (Torn 0 1) areas) }
    ensures calm { OnOk result (D.faults disk.new ≡ D.faults disk.old) }
    ensures fault { OnErr result (Rose (D.faults disk.old) (D.faults disk.new)) }
{
    disk.write_at(area, 0, &[gate])?;
    disk.sync(area)
}

/// The most bytes that are written in one call.
const PIECE: usize = 65536;

/// Writes the pieces of an image from place 1 on.
pub fn put_image<D: Disk, P: Pieces>(
    disk: &mut D,
    target: Target,
    pieces: &mut P,
    buf: &mut [u8],
) -> Result<(), Failed>
    requires room { 64 ≤ length buf.old }
    requires few { target.turn ≤ 2 }
    requires fresh { P.given pieces.old ≡ 0 }
    requires fits { P.format.Fits (P.mesh pieces.old) }
    requires gate { IfSome (D.holds disk.old) (λ areas. length (bytes_of areas target.area) ≡ 1) }
    ensures done { OnOk result (IfSome (D.holds disk.old) (λ areas. D.holds disk.new ≡ Some (with_bytes areas target.area (bytes_of areas target.area ++ P.format.image (P.mesh pieces.old) target.turn)))) }
    ensures tells { is_some (D.holds disk.new) ≡ is_some (D.holds disk.old) }
    ensures crash { (base : Areas) → ((c : Areas) → D.may_leave disk.old c → KeepsGate target.area base c) → (c : Areas) → D.may_leave disk.new c → KeepsGate target.area base c }
    ensures moments { (base : Areas) → ((c : Areas) → D.may_leave disk.old c → KeepsGate target.area base c) → LeavesOnly D.moment D.left_since disk.old disk.new (KeepsGate target.area base) }
    ensures mesh { P.mesh pieces.new ≡ P.mesh pieces.old }
    ensures calm { OnOk result (D.faults disk.new ≡ D.faults disk.old) }
    ensures fault { OnErr result (Rose (D.faults disk.old) (D.faults disk.new)) }
{
    let mut place = 1u64;
    loop {
        let room = buf.len().min(PIECE);
        let piece = &mut buf[..room];
        let n = pieces.next(target.turn, piece) as usize;
        if n == 0 {
            return Ok(());
        }
        disk.write_at(target.area, place, &piece[..n])?;
        place += n as u64;
    }
}
