//! Why a command stopped.

use amr_num::BlockAt;
use mesh_model::run::stops::{LevelStop, Refusal};
use mesh_model::{Group, RangeStop, Spot};
use mesh_steps::{FaceHindrance, Hindrance};
use rank_world::FaceAbove;
use regrid_move::RegridStop;

/// Why a command stopped.
#[derive(Clone, Copy, Debug, PartialEq, Eq)]
pub enum Cause {
    /// It would store a number out of range: the first of them in the walk through the mesh.
    Range(RangeStop),
    /// Its speeds move more than one finest cell a step.
    Courant([i64; 3]),
    /// It marks a leaf at the limit of levels.
    Level(LevelStop),
    /// It names no canonical leaf face, or no canonical leaf edge.
    Place(Spot),
    /// It names no leaf.
    PlaceBlock(BlockAt),
    /// It would make more nodes than the limit: how many.
    Blocks(u32),
    /// The sink failed.
    WriteFault,
    /// The disk failed.
    DiskFault,
    /// Memory was refused.
    OutOfMemory,
}

/// What stopped a command.
#[derive(Clone, Copy, Debug, PartialEq, Eq)]
pub enum StoppedBy {
    /// The mesh, which refuses it.
    Mesh(Refusal),
    /// The sink, which failed.
    Sink,
    /// The disk, which failed.
    Disk,
    /// Want of memory.
    Memory,
}

/// A command that was stopped: the number of its line, and why.
#[derive(Clone, Copy, Debug, PartialEq, Eq)]
pub struct Stop {
    /// The line of the script, from 1.
    pub line: u32,
    pub cause: Cause,
}

impl Cause {
    ghost use Rattle.amr_engine.specs.Stopping as plain;
    ghost use Rattle.std.specs.Prelude.{◌≡◌};

    /// What stopped the command: here alone causes are told apart.
    pub fn stopped_by(self) -> StoppedBy
        ensures { result ≡ plain.stopped_by self }
    {
        match self {
            Cause::Range(stop) => StoppedBy::Mesh(Refusal::Range(stop)),
            Cause::Courant(speeds) => StoppedBy::Mesh(Refusal::Courant(speeds)),
            Cause::Level(stop) => StoppedBy::Mesh(Refusal::Level(stop)),
            Cause::Place(spot) => StoppedBy::Mesh(Refusal::Place(spot)),
            Cause::PlaceBlock(at) => StoppedBy::Mesh(Refusal::PlaceBlock(at)),
            Cause::Blocks(count) => StoppedBy::Mesh(Refusal::Blocks(count)),
            Cause::WriteFault => StoppedBy::Sink,
            Cause::DiskFault => StoppedBy::Disk,
            Cause::OutOfMemory => StoppedBy::Memory,
        }
    }

    /// Why a regrid stops.
    pub(crate) fn of_regrid(stop: RegridStop) -> Cause
        ensures { result ≡ plain.cause_of_regrid stop }
    {
        match stop {
            RegridStop::Blocks(count) => Cause::Blocks(count),
            RegridStop::Range(stop) => Cause::Range(stop),
            RegridStop::OutOfMemory => Cause::OutOfMemory,
        }
    }

    /// Why the face variable can't be set: a number would be out of range.
    pub(crate) fn of_faces(found: FaceAbove) -> Cause
        ensures { result ≡ plain.cause_of_faces found }
    {
        Cause::Range(RangeStop {
            var: Group::Face,
            spot: Spot::Face(found.face),
            value: i128::from(found.value),
        })
    }

    /// Why an induct at the speeds stops.
    pub(crate) fn of_induct(speeds: [i64; 3], hindrance: FaceHindrance) -> Cause
        ensures { result ≡ plain.cause_of_induct speeds hindrance }
    {
        match hindrance {
            FaceHindrance::TooFast => Cause::Courant(speeds),
            FaceHindrance::Number(found) => Cause::of_faces(found),
        }
    }

    /// Why an advect of the variable at the speeds stops.
    pub(crate) fn of_advect(var: u32, speeds: [i64; 3], hindrance: Hindrance) -> Cause
        ensures { result ≡ plain.cause_told var speeds hindrance }
    {
        let out_of_range = |spot, value| {
            Cause::Range(RangeStop {
                var: Group::Cell(var),
                spot,
                value,
            })
        };
        match hindrance {
            Hindrance::TooFast => Cause::Courant(speeds),
            Hindrance::Content(above) => out_of_range(Spot::Cell(above.cell), above.value),
            Hindrance::FlowedOut(out) => out_of_range(Spot::Out, out),
        }
    }
}
