//! The text of the script that the words ask for.

ghost use Rattle.amr_program.specs.Answer.{ReadsAt, most_read, script_at};
ghost use Rattle.amr_program.specs.Outcome.{WasRead};
ghost use Rattle.outside_io.specs.Moved.{Rose};
ghost use Rattle.std.specs.Prelude.{◌≡◌, ◌≢◌, Err, IfOk, IfSome, Some, drop, take};

use crate::words::Start;
use outside_io::source::{ReadStop, Source, read_up_to, skip_up_to};
use script_lang::sample::sample;
use std::alloc::Global;

/// The most bytes that are read of a source: one more than a script may have.
pub const LIMIT: usize = (1 << 20) + 1;

/// The first `LIMIT` bytes of the source. Where memory for them is wanting they are passed over.
fn source_text<S: Source>(alloc: Global, source: &mut S) -> Result<Vec<u8>, ReadStop>
    ensures text { IfOk result (λ text. IfSome (S.left source.old) (λ bytes. text.items ≡ take most_read bytes)) }
    ensures left { result ≢ Err ReadStop.Failed → IfSome (S.left source.old) (λ bytes. S.left source.new ≡ Some (drop most_read bytes)) }
    ensures calm { result ≢ Err ReadStop.Failed → S.faults source.new ≡ S.faults source.old }
    ensures failed { result ≡ Err ReadStop.Failed → Rose (S.faults source.old) (S.faults source.new) }
{
    match read_up_to(alloc, source, LIMIT) {
        Ok(text) => Ok(text),
        Err(ReadStop::Failed) => Err(ReadStop::Failed),
        Err(ReadStop::OutOfMemory) => match skip_up_to(source, LIMIT) {
            Ok(()) => Err(ReadStop::OutOfMemory),
            Err(_) => Err(ReadStop::Failed),
        },
    }
}

/// The bytes of the script: those of the sample that is asked for, or the first ones that the source has.
pub fn script_text<S: Source>(
    alloc: Global,
    start: Start,
    source: &mut S,
) -> Result<Vec<u8>, ReadStop>
    ensures script { IfOk result (λ text. IfSome (script_at start (S.left source.old)) (λ script. text.items ≡ script)) }
    ensures left { result ≢ Err ReadStop.Failed → WasRead start (record { before = S.left source.old; after = S.left source.new; faults = S.faults source.old; new_faults = S.faults source.new }) }
    ensures calm { result ≢ Err ReadStop.Failed → S.faults source.new ≡ S.faults source.old }
    ensures failed { result ≡ Err ReadStop.Failed → ReadsAt start × Rose (S.faults source.old) (S.faults source.new) }
    ensures unread { ¬ ReadsAt start → source.new ≡ source.old }
{
    match start {
        Start::Sample(seed) => match sample(alloc, seed) {
            Ok(text) => Ok(text),
            Err(_) => Err(ReadStop::OutOfMemory),
        },
        Start::New | Start::Restart => source_text(alloc, source),
    }
}
