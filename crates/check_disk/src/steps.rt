//! The steps of a checkpoint: the gate is closed, the image is written behind it, the gate is opened. Each step needs
//! the disk as the step before left it; one that is refused spends its value, and the disk is surveyed again.
ghost use Rattle.std.specs.Prelude.{◌≡◌, ◌⊎◌, ℕ, ◌≤◌, List, Some, is_some, ◌∷◌, length, IfOk, IfSome, OnOk, OnErr};
ghost use Rattle.outside_io.specs.Areas.{Areas, bytes_of, with_bytes};
ghost use Rattle.outside_io.specs.Crash.{LeavesOnly, Rests};
ghost use Rattle.outside_io.specs.Moved.{Rose};
ghost use Rattle.check_disk.specs.Held.{next_of};
ghost use Rattle.check_disk.specs.Steps.{IsReady, IsWritten, IsBehind, IsOpened};

use crate::look::byte_at;
use crate::pieces::Pieces;
use crate::put::{put_gate, put_image};
use crate::target::Target;
use outside_io::Failed;
use outside_io::disk::Disk;

/// The target's gate is closed.
#[derive(Debug, PartialEq, Eq, Drop)]
pub struct Closed {
    target: Target,
}

/// The target has the image behind its closed gate.
#[derive(Debug, PartialEq, Eq, Drop)]
pub struct Body {
    target: Target,
}

/// The target is open with the image.
#[derive(Debug, PartialEq, Eq, Drop)]
pub struct Opened;

impl Closed {
    /// Closes the target's gate; the target is what `survey` answered on this disk. Where nothing was pending, a crash
    /// at any moment leaves the areas as they were, or the target closed and the other area as it was.
    pub fn make<D: Disk>(disk: &mut D, target: Target) -> Result<Closed, Failed>
        requires few { target.turn ≤ 2 }
        requires surveyed { IfSome (D.holds disk.old) (λ areas. next_of areas ≡ target) }
        ensures target { IfOk result (λ closed. closed.target ≡ target) }
        ensures closed { OnOk result (IfSome (D.holds disk.new) (λ after. IsReady after target)) }
        ensures tells { is_some (D.holds disk.new) ≡ is_some (D.holds disk.old) }
        ensures ready { OnOk result ((areas : Areas) → Rests D.holds D.may_leave disk.old areas
            → (after : Areas) × Rests D.holds D.may_leave disk.new after × IsReady after target × IsBehind target.area areas after) }
        ensures moments { (areas : Areas) → Rests D.holds D.may_leave disk.old areas
            → LeavesOnly D.moment D.left_since disk.old disk.new (λ c. (c ≡ areas) ⊎ IsBehind target.area areas c) }
        ensures calm { OnOk result (D.faults disk.new ≡ D.faults disk.old) }
        ensures fault { OnErr result (Rose (D.faults disk.old) (D.faults disk.new)) }
    {
        let gate = byte_at(disk, target.area, 0)?;
        if gate.unwrap_or(1) != 1 {
            return Ok(Closed { target });
        }
        put_gate(disk, target.area, 0)?;
        Ok(Closed { target })
    }

    /// Writes the image behind the closed gate, from pieces of which nothing was given, by a buffer of at least 64 bytes.
    /// Where nothing was pending, a crash at any moment leaves the target closed and the other area as it was.
    pub fn body<D: Disk, P: Pieces>(
        self,
        disk: &mut D,
        pieces: &mut P,
        buf: &mut [u8],
    ) -> Result<Body, Failed>
        requires room { 64 ≤ length buf.old }
        requires few { self.target.turn ≤ 2 }
        requires fresh { P.given pieces.old ≡ 0 }
        requires fits { P.format.Fits (P.mesh pieces.old) }
        requires ready { IfSome (D.holds disk.old) (λ areas. IsReady areas self.target) }
        ensures target { IfOk result (λ body. body.target ≡ self.target) }
        ensures put { OnOk result (IfSome (D.holds disk.new) (λ after. IsWritten after self.target (P.format.image (P.mesh pieces.old) self.target.turn))) }
        ensures tells { is_some (D.holds disk.new) ≡ is_some (D.holds disk.old) }
        ensures written { OnOk result ((areas : Areas) → Rests D.holds D.may_leave disk.old areas
            → (after : Areas) × Rests D.holds D.may_leave disk.new after × IsWritten after self.target (P.format.image (P.mesh pieces.old) self.target.turn) × IsBehind self.target.area areas after) }
        ensures moments { (areas : Areas) → Rests D.holds D.may_leave disk.old areas
            → LeavesOnly D.moment D.left_since disk.old disk.new (IsBehind self.target.area areas) }
        ensures calm { OnOk result (D.faults disk.new ≡ D.faults disk.old) }
        ensures fault { OnErr result (Rose (D.faults disk.old) (D.faults disk.new)) }
    {
        let target = self.target;
        disk.cut(target.area, 1)?;
        put_image(disk, target, pieces, buf)?;
        disk.sync(target.area)?;
        Ok(Body { target })
    }
}

impl Body {
    /// Opens the gate. Where nothing was pending, a crash at any moment leaves the other area as it was, and the target
    /// closed or open with the image; after Ok it is open.
    pub fn open<D: Disk>(self, disk: &mut D) -> Result<Opened, Failed>
        requires few { self.target.turn ≤ 2 }
        requires written { IfSome (D.holds disk.old) (λ areas. (bytes : List ℕ) × IsWritten areas self.target bytes) }
        ensures tells { is_some (D.holds disk.new) ≡ is_some (D.holds disk.old) }
        ensures opened { OnOk result ((areas : Areas) (bytes : List ℕ) → Rests D.holds D.may_leave disk.old areas → IsWritten areas self.target bytes
            → (after : Areas) × Rests D.holds D.may_leave disk.new after × IsOpened self.target.area bytes areas after) }
        ensures moments { (areas : Areas) (bytes : List ℕ) → Rests D.holds D.may_leave disk.old areas → IsWritten areas self.target bytes
            → LeavesOnly D.moment D.left_since disk.old disk.new (λ c. IsBehind self.target.area areas c ⊎ IsOpened self.target.area bytes areas c) }
        ensures calm { OnOk result (D.faults disk.new ≡ D.faults disk.old) }
        ensures fault { OnErr result (Rose (D.faults disk.old) (D.faults disk.new)) }
    {
        put_gate(disk, self.target.area, 1)?;
        Ok(Opened)
    }
}
