//! How a run ends: its last line, and its status.

ghost use Rattle.amr_program.specs.Outcome.{Ended, RefusedWith};

use crate::lines::{
    MEMORY_LINE, NO_CHECKPOINT_LINE, NOT_BUILT_LINE, WORDS_LINE, damaged_line, fault_line,
};
use crate::not_run::NotRun;
use crate::status::Status;
use outside_io::sink::{Sink, write_all};
use std::alloc::Global;

/// Writes the last line of a run, and answers the status, or that the sink failed.
pub fn end_with<K: Sink>(sink: &mut K, line: &[u8], status: Status) -> Status
    ensures { Ended status line.now result (record { before = K.taken sink.old; after = K.taken sink.new; faults = K.faults sink.old; new_faults = K.faults sink.new }) }
{
    match write_all(sink, line) {
        Ok(()) => status,
        Err(_) => Status::WriteFault,
    }
}

/// Does what `end_with` does, with a line of text.
pub fn end<K: Sink>(sink: &mut K, line: &str, status: Status) -> Status
    ensures { Ended status line.now result (record { before = K.taken sink.old; after = K.taken sink.new; faults = K.faults sink.old; new_faults = K.faults sink.new }) }
{
    end_with(sink, line.as_bytes(), status)
}

/// Says why nothing is run.
pub fn refuse<K: Sink>(alloc: Global, reason: NotRun, sink: &mut K) -> Status
    ensures { RefusedWith reason result (record { before = K.taken sink.old; after = K.taken sink.new; faults = K.faults sink.old; new_faults = K.faults sink.new }) }
{
    let status = reason.status();
    match reason {
        NotRun::Words => end(sink, WORDS_LINE, status),
        NotRun::NoCheckpoint => end(sink, NO_CHECKPOINT_LINE, status),
        NotRun::Damaged { area, bad } => match damaged_line(alloc, area, bad) {
            Ok(line) => end_with(sink, line.as_bytes(), status),
            Err(_) => end(sink, MEMORY_LINE, Status::OutOfMemory),
        },
        NotRun::Fault { line, reason } => {
            end_with(sink, fault_line(line, reason).as_bytes(), status)
        }
        NotRun::NotBuilt => end(sink, NOT_BUILT_LINE, status),
    }
}
