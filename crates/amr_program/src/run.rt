//! The run of a script: its commands one after the other.

ghost use Rattle.amr_engine.specs.Built.{IsBuiltLine};
ghost use Rattle.amr_engine.specs.Plain.{declared_of, plain};
ghost use Rattle.amr_engine.specs.Stopping.{Wrote, stopped_by};
ghost use Rattle.amr_program.specs.Answer.{status_of};
ghost use Rattle.amr_program.specs.Lasting.{disk_run};
ghost use Rattle.amr_program.specs.Origins.{CanBegin, mesh_from};
ghost use Rattle.amr_program.specs.Outcome.{Came, Ended, RunStops, Stopped, WereDone};
ghost use Rattle.mesh_model.specs.Fields.Ranks.{IsSized};
ghost use Rattle.mesh_model.specs.Language.Commands.{IsLineOf};
ghost use Rattle.mesh_model.specs.Run.Runs.{TheDisk, declared_in, done, needs, stop, texts};
ghost use Rattle.mesh_model.specs.Run.StopTexts.{stop_line};
ghost use Rattle.std.specs.Prelude.{◌≡◌, ◌≢◌, All, IfErr, OnOk, None, Ok, length};

use crate::ending::{end, end_with};
use crate::lines::{DISK_LINE, MEMORY_LINE};
use crate::origin::Origin;
use crate::status::Status;
use crate::stop_line::stop_text;
use amr_engine::cause::{Stop, StoppedBy};
use amr_engine::engine::Engine;
use mesh_model::language::names::Names;
use mesh_model::run::stops::Refusal;
use outside_io::disk::Disk;
use outside_io::sink::Sink;
use script_lang::Line as ScriptLine;
use std::alloc::Global;

/// Does the commands of the lines in order, up to the first that stops.
fn run<const N: usize, const G: usize, K: Sink, D: Disk>(
    engine: &mut Engine<N, G>,
    lines: &[ScriptLine],
    sink: &mut K,
    disk: &mut D,
) -> Result<(), Stop>
    requires fit { All (IsLineOf (declared_of engine.old)) lines.now }
    requires built { All IsBuiltLine lines.now }
    ensures text { OnOk result (Wrote (texts (plain engine.old) (done (plain engine.old) lines.now)) (record { before = K.taken sink.old; after = K.taken sink.new; faults = K.faults sink.old; new_faults = K.faults sink.new })) }
    ensures whole { OnOk result (stop (plain engine.old) lines.now ≡ None) }
    ensures lasts { OnOk result (WereDone (length (done (plain engine.old) lines.now)) (plain engine.old) lines.now (disk_run D.holds D.may_leave D.moment D.left_since D.faults disk.old disk.new)) }
    ensures stops { IfErr result (λ stopped. RunStops (stopped_by stopped.cause) stopped.line (plain engine.old) lines.now
        (record { before = K.taken sink.old; after = K.taken sink.new; faults = K.faults sink.old; new_faults = K.faults sink.new })
        (disk_run D.holds D.may_leave D.moment D.left_since D.faults disk.old disk.new)) }
    ensures names { declared_of engine.new ≡ declared_of engine.old }
    ensures idle { All (λ line. needs line.command ≢ TheDisk) lines.now → disk.new ≡ disk.old }
{
    for line in lines {
        engine.command(line, sink, disk)?;
    }
    Ok(())
}

/// Writes the last line of a run that a refused command ends.
fn end_refused<K: Sink>(sink: &mut K, names: &Names, line: u32, why: Refusal) -> Status
    ensures { Ended (status_of why) (stop_line names.now line why) result (record { before = K.taken sink.old; after = K.taken sink.new; faults = K.faults sink.old; new_faults = K.faults sink.new }) }
{
    let text = stop_text(names, line, why);
    end_with(sink, text.as_bytes(), Status::of_refusal(why))
}

/// Ends a run that is stopped.
fn end_stopped<const N: usize, const G: usize, K: Sink>(
    engine: &Engine<N, G>,
    stop: Stop,
    sink: &mut K,
) -> Status
    ensures { Stopped (stopped_by stop.cause) stop.line (declared_of engine.now).names result (record { before = K.taken sink.old; after = K.taken sink.new; faults = K.faults sink.old; new_faults = K.faults sink.new }) }
{
    match stop.cause.stopped_by() {
        StoppedBy::Mesh(why) => end_refused(sink, engine.names(), stop.line, why),
        StoppedBy::Sink => Status::WriteFault,
        StoppedBy::Disk => end(sink, DISK_LINE, Status::DiskFault),
        StoppedBy::Memory => end(sink, MEMORY_LINE, Status::OutOfMemory),
    }
}

/// Runs lines from the mesh with which they begin, in blocks of `N` cells along each axis with `G` guard cells on each side.
fn run_sized<const N: usize, const G: usize, K: Sink, D: Disk>(
    alloc: Global,
    origin: Origin,
    lines: &[ScriptLine],
    sink: &mut K,
    disk: &mut D,
) -> Status
    requires begins { CanBegin origin }
    requires sizes { IsSized N G (declared_in (mesh_from origin)).shape }
    requires fit { All (IsLineOf (declared_in (mesh_from origin))) lines.now }
    requires built { All IsBuiltLine lines.now }
    ensures came { Came (Ok (record { mesh = mesh_from origin; lines = lines.now })) result
        (record { before = K.taken sink.old; after = K.taken sink.new; faults = K.faults sink.old; new_faults = K.faults sink.new })
        (disk_run D.holds D.may_leave D.moment D.left_since D.faults disk.old disk.new) }
    ensures idle { All (λ line. needs line.command ≢ TheDisk) lines.now → disk.new ≡ disk.old }
{
    let mut engine = match origin.engine::<N, G>(alloc) {
        Ok(engine) => engine,
        Err(_) => return end(sink, MEMORY_LINE, Status::OutOfMemory),
    };
    match run(&mut engine, lines, sink, disk) {
        Ok(()) => Status::Done,
        Err(stop) => end_stopped(&engine, stop, sink),
    }
}

/// Runs lines from the mesh with which they begin: here alone the sizes of blocks are told apart.
pub fn run_lines<K: Sink, D: Disk>(
    alloc: Global,
    origin: Origin,
    lines: &[ScriptLine],
    sink: &mut K,
    disk: &mut D,
) -> Status
    requires begins { CanBegin origin }
    requires fit { All (IsLineOf (declared_in (mesh_from origin))) lines.now }
    requires built { All IsBuiltLine lines.now }
    ensures came { Came (Ok (record { mesh = mesh_from origin; lines = lines.now })) result
        (record { before = K.taken sink.old; after = K.taken sink.new; faults = K.faults sink.old; new_faults = K.faults sink.new })
        (disk_run D.holds D.may_leave D.moment D.left_since D.faults disk.old disk.new) }
    ensures idle { All (λ line. needs line.command ≢ TheDisk) lines.now → disk.new ≡ disk.old }
{
    let shape = origin.shape();
    match (shape.n, shape.g) {
        (4, 1) => run_sized::<4, 1, K, D>(alloc, origin, lines, sink, disk),
        (4, 2) => run_sized::<4, 2, K, D>(alloc, origin, lines, sink, disk),
        (4, 4) => run_sized::<4, 4, K, D>(alloc, origin, lines, sink, disk),
        (8, 1) => run_sized::<8, 1, K, D>(alloc, origin, lines, sink, disk),
        (8, 2) => run_sized::<8, 2, K, D>(alloc, origin, lines, sink, disk),
        (8, 4) => run_sized::<8, 4, K, D>(alloc, origin, lines, sink, disk),
        _ => unreachable!(),
    }
}
