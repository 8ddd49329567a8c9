//! The program, from words and the bytes of a script to a status and printed bytes.

ghost use Rattle.amr_engine.specs.Built.{IsBuiltLine};
ghost use Rattle.amr_program.specs.Answer.{AlongRun, HasBytes, IsAccepted, IsAnswer, IsDamagedIn, IsRestart, IsStoppedWith, IsTold, IsUnrunWith, KeepsOff, ReadsSource, SavesNothing, TookBeforeFault, TookBeforeMemory, TookPart, held_in, job_from, job_in, most_read, plain_answer, saved_by_then, saved_in, script_in};
ghost use Rattle.amr_program.specs.Lasting.{EndsAfter, EndsWanting, Lasts, disk_run};
ghost use Rattle.amr_program.specs.Lines.{read_line};
ghost use Rattle.amr_program.specs.Origins.{begin_by, given_by};
ghost use Rattle.amr_program.specs.Outcome.{Came, FromBytes, Outcome};
ghost use Rattle.amr_program.specs.Words.{asked_in, texts_of};
ghost use Rattle.check_format.specs.ReadImages.{IsRead};
ghost use Rattle.mesh_model.specs.Images.Held.{IsWhole, Nothing, held};
ghost use Rattle.mesh_model.specs.Language.Grammar.{script_of};
ghost use Rattle.mesh_model.specs.Run.Runs.{KeepsBalance, KeepsOuts, KeepsTotals, MakesBalance, StaysPositive, first_mesh};
ghost use Rattle.outside_io.specs.Areas.{Areas};
ghost use Rattle.outside_io.specs.Crash.{Reads, Rests};
ghost use Rattle.outside_io.specs.Moved.{Rose, Takes};
ghost use Rattle.std.specs.Option.{option_copied};
ghost use Rattle.std.specs.Prelude.{◌≡◌, ◌≢◌, ℕ, ◌<◌, ◌⊎◌, IfSome, None, Some, drop};

use crate::ending::{end, refuse};
use crate::lines::{DISK_LINE, MEMORY_LINE, READ_LINE};
use crate::not_run::NotRun;
use crate::origin::Origin;
use crate::run::run_lines;
use crate::script_text::script_text;
use crate::status::Status;
use crate::words::{Asked, Start, WordsStop, asked_in};
use amr_engine::built::built;
use check_disk::newest::{NewestStop, newest};
use check_format::Image;
use mesh_model::language::script::Declared;
use outside_io::disk::Disk;
use outside_io::sink::Sink;
use outside_io::source::{ReadStop, Source};
use script_lang::Script;
use script_lang::reader::{ScriptStop, read_script};
use std::alloc::Global;

/// Runs the script that the source has, or the sample that the words ask for, and prints what its commands print to the sink.
pub fn amr<S: Source, K: Sink, D: Disk>(
    alloc: Global,
    words: &[String],
    source: &mut S,
    sink: &mut K,
    disk: &mut D,
) -> Status
    // Where nothing failed, the status and all that the sink took are the plain answer's.
    ensures answer { IsTold (asked_in (texts_of words.now)) (D.holds disk.old) → ¬ Rose (S.faults source.old) (S.faults source.new) → ¬ Rose (D.faults disk.old) (D.faults disk.new) → ¬ Rose (K.faults sink.old) (K.faults sink.new) → result ≢ Status.OutOfMemory →
        IfSome (script_in (texts_of words.now) (S.left source.old)) (λ script. IsAnswer (plain_answer (texts_of words.now) script (held_in (D.holds disk.old))) result (K.taken sink.old) (K.taken sink.new)) }

    // Each other status has its cause, and comes where the cause is.
    ensures words_refused { result ≡ Status.Words → asked_in (texts_of words.now) ≡ None }
    ensures words_alone { asked_in (texts_of words.now) ≡ None → (result ≡ Status.Words) ⊎ ((result ≡ Status.WriteFault) ⊎ (result ≡ Status.OutOfMemory)) }
    ensures no_checkpoint { result ≡ Status.NoCheckpoint → IsRestart (asked_in (texts_of words.now)) × IfSome (D.holds disk.old) (λ areas. held areas.a areas.b ≡ Nothing) }
    ensures damaged { result ≡ Status.Damaged → IsRestart (asked_in (texts_of words.now)) × IfSome (D.holds disk.old) (λ areas. IsDamagedIn (held areas.a areas.b)) }
    ensures stopped { result ≡ Status.Stopped → IsTold (asked_in (texts_of words.now)) (D.holds disk.old) →
        IfSome (script_in (texts_of words.now) (S.left source.old)) (λ script. IsStoppedWith Status.Stopped (job_in (texts_of words.now) (D.holds disk.old) script)) }
    ensures level { result ≡ Status.Level → IsTold (asked_in (texts_of words.now)) (D.holds disk.old) →
        IfSome (script_in (texts_of words.now) (S.left source.old)) (λ script. IsStoppedWith Status.Level (job_in (texts_of words.now) (D.holds disk.old) script)) }
    ensures script_refused { result ≡ Status.Script → IsTold (asked_in (texts_of words.now)) (D.holds disk.old) →
        IfSome (script_in (texts_of words.now) (S.left source.old)) (λ script. IsUnrunWith Status.Script (job_in (texts_of words.now) (D.holds disk.old) script)) }
    ensures read_fault { result ≡ Status.ReadFault → Rose (S.faults source.old) (S.faults source.new) }
    ensures read_fault_told { S.faults source.old < S.faults source.new → ¬ Rose (K.faults sink.old) (K.faults sink.new) → (result ≡ Status.ReadFault) × Takes (K.taken sink.old) read_line (K.taken sink.new) }
    ensures disk_fault { result ≡ Status.DiskFault → Rose (D.faults disk.old) (D.faults disk.new) }
    ensures disk_fault_told { D.faults disk.old < D.faults disk.new → ¬ Rose (K.faults sink.old) (K.faults sink.new) → (result ≡ Status.DiskFault) × (IsTold (asked_in (texts_of words.now)) (D.holds disk.old) →
        IfSome (script_in (texts_of words.now) (S.left source.old)) (λ script. TookBeforeFault (asked_in (texts_of words.now)) (job_in (texts_of words.now) (D.holds disk.old) script) (Reads D.holds D.may_leave D.moment D.left_since disk.old disk.new) (K.taken sink.old) (K.taken sink.new))) }
    ensures write_fault { result ≡ Status.WriteFault → Rose (K.faults sink.old) (K.faults sink.new) }
    ensures write_fault_told { K.faults sink.old < K.faults sink.new → result ≡ Status.WriteFault }
    ensures complete { IsTold (asked_in (texts_of words.now)) (D.holds disk.old) → ¬ Rose (S.faults source.old) (S.faults source.new) → ¬ Rose (D.faults disk.old) (D.faults disk.new) → ¬ Rose (K.faults sink.old) (K.faults sink.new) →
        IfSome (script_in (texts_of words.now) (S.left source.old)) (λ script. IsAccepted (job_in (texts_of words.now) (D.holds disk.old) script) → (result ≡ Status.Done) ⊎ (result ≡ Status.OutOfMemory)) }

    // What was printed where the sink failed, or memory was wanting: before the first command, or at one that is reached and needs memory.
    ensures part { result ≡ Status.WriteFault → IsTold (asked_in (texts_of words.now)) (D.holds disk.old) →
        IfSome (script_in (texts_of words.now) (S.left source.old)) (λ script. TookPart (asked_in (texts_of words.now)) (job_in (texts_of words.now) (D.holds disk.old) script) (Rose (S.faults source.old) (S.faults source.new)) (Rose (D.faults disk.old) (D.faults disk.new)) (K.taken sink.old) (K.taken sink.new)) }
    ensures memory { result ≡ Status.OutOfMemory → IsTold (asked_in (texts_of words.now)) (D.holds disk.old) →
        IfSome (script_in (texts_of words.now) (S.left source.old)) (λ script. TookBeforeMemory (job_in (texts_of words.now) (D.holds disk.old) script) (K.taken sink.old) (K.taken sink.new)) }

    // The source at return.
    ensures unread { ¬ ReadsSource (asked_in (texts_of words.now)) → source.new ≡ source.old }
    ensures read { ReadsSource (asked_in (texts_of words.now)) → ¬ Rose (S.faults source.old) (S.faults source.new) →
        IfSome (S.left source.old) (λ bytes. (S.left source.new ≡ Some (drop most_read bytes)) ⊎ (EndsWanting result (K.taken sink.old) (K.taken sink.new) × (S.left source.new ≡ S.left source.old))) }

    // The disk. Where nothing is pending at entry and each area is closed or has an image, the run stopped at any moment leaves what was
    // held at entry or the mesh of a checkpoint that was begun; at return it leaves that of the last checkpoint before the place where the
    // run ended, or of one at which the disk failed. Where the source failed, or the words, the restart or the script are refused, both
    // areas stay, and without a restart only a checkpoint calls the disk.
    ensures lasts { (areas : Areas) → Rests D.holds D.may_leave disk.old areas → IsWhole (held areas.a areas.b) → IfSome (script_in (texts_of words.now) (S.left source.old)) (λ script.
        let job = job_in (texts_of words.now) (Some areas) script in (k : ℕ)
        × EndsAfter (asked_in (texts_of words.now)) job k result (Rose (S.faults source.old) (S.faults source.new)) (Rose (D.faults disk.old) (D.faults disk.new)) (Reads D.holds D.may_leave D.moment D.left_since disk.old disk.new) (K.taken sink.old) (K.taken sink.new)
        × Lasts D.holds D.may_leave D.moment D.left_since (Rose (D.faults disk.old) (D.faults disk.new)) (held areas.a areas.b) (saved_in job) (saved_by_then job k) disk.old disk.new) }
    ensures untouched { KeepsOff result ⊎ ((S.faults source.old < S.faults source.new) ⊎ (asked_in (texts_of words.now) ≡ None)) → Reads D.holds D.may_leave D.moment D.left_since disk.old disk.new }
    ensures idle { ¬ IsRestart (asked_in (texts_of words.now)) → IfSome (script_in (texts_of words.now) (S.left source.old)) (λ script. SavesNothing (job_in (texts_of words.now) (D.holds disk.old) script) → disk.new ≡ disk.old) }

    // Laws of the script's plain run, which `answer` ties to what is printed; they name neither the status nor the sink. The
    // total of a variable and what has flowed out of it change together by fills alone, what has flowed out by advects alone,
    // and an advect leaves no content below 0 where none was. Where no leaf cell has a net flux of the face variable none has one
    // after any command but faceset, and after uniform none has one at all. Of a restart they are told where its areas have bytes.
    ensures totals { HasBytes (asked_in (texts_of words.now)) (D.holds disk.old) → IfSome (script_in (texts_of words.now) (S.left source.old)) (λ script. AlongRun KeepsTotals (job_in (texts_of words.now) (D.holds disk.old) script)) }
    ensures outs { HasBytes (asked_in (texts_of words.now)) (D.holds disk.old) → IfSome (script_in (texts_of words.now) (S.left source.old)) (λ script. AlongRun KeepsOuts (job_in (texts_of words.now) (D.holds disk.old) script)) }
    ensures positive { HasBytes (asked_in (texts_of words.now)) (D.holds disk.old) → IfSome (script_in (texts_of words.now) (S.left source.old)) (λ script. AlongRun StaysPositive (job_in (texts_of words.now) (D.holds disk.old) script)) }
    ensures balance { HasBytes (asked_in (texts_of words.now)) (D.holds disk.old) → IfSome (script_in (texts_of words.now) (S.left source.old)) (λ script. AlongRun KeepsBalance (job_in (texts_of words.now) (D.holds disk.old) script)) }
    ensures balanced { HasBytes (asked_in (texts_of words.now)) (D.holds disk.old) → IfSome (script_in (texts_of words.now) (S.left source.old)) (λ script. AlongRun MakesBalance (job_in (texts_of words.now) (D.holds disk.old) script)) }
{
    answer_words(alloc, words, source, sink, disk)
}

/// Does what `amr` does: this clause holds all that the clauses of `amr` say.
fn answer_words<S: Source, K: Sink, D: Disk>(
    alloc: Global,
    words: &[String],
    source: &mut S,
    sink: &mut K,
    disk: &mut D,
) -> Status
    ensures outcome { Outcome (texts_of words.now) (D.holds disk.old) result
        (record { before = S.left source.old; after = S.left source.new; faults = S.faults source.old; new_faults = S.faults source.new })
        (record { before = K.taken sink.old; after = K.taken sink.new; faults = K.faults sink.old; new_faults = K.faults sink.new })
        (disk_run D.holds D.may_leave D.moment D.left_since D.faults disk.old disk.new) }
    ensures unread { ¬ ReadsSource (asked_in (texts_of words.now)) → source.new ≡ source.old }
    ensures idle { ¬ IsRestart (asked_in (texts_of words.now)) → IfSome (script_in (texts_of words.now) (S.left source.old)) (λ script. SavesNothing (job_in (texts_of words.now) (D.holds disk.old) script) → disk.new ≡ disk.old) }
{
    let asked = match asked_in(alloc, words) {
        Ok(asked) => asked,
        Err(WordsStop::Refused) => return refuse(alloc, NotRun::Words, sink),
        Err(WordsStop::OutOfMemory) => return end(sink, MEMORY_LINE, Status::OutOfMemory),
    };
    match script_text(alloc, asked.start, source) {
        Ok(script) => answer_bytes(alloc, &asked, &script, sink, disk),
        Err(ReadStop::Failed) => end(sink, READ_LINE, Status::ReadFault),
        Err(ReadStop::OutOfMemory) => end(sink, MEMORY_LINE, Status::OutOfMemory),
    }
}

/// Runs the script that the bytes say, from where the words ask.
fn answer_bytes<K: Sink, D: Disk>(
    alloc: Global,
    asked: &Asked,
    bytes: &[u8],
    sink: &mut K,
    disk: &mut D,
) -> Status
    ensures came { FromBytes asked.now (D.holds disk.old) bytes.now result
        (record { before = K.taken sink.old; after = K.taken sink.new; faults = K.faults sink.old; new_faults = K.faults sink.new })
        (disk_run D.holds D.may_leave D.moment D.left_since D.faults disk.old disk.new) }
    ensures idle { asked.now.start ≢ Start.Restart → SavesNothing (job_from asked.now first_mesh (script_of None bytes.now)) → disk.new ≡ disk.old }
{
    match asked.start {
        Start::New | Start::Sample(_) => answer_script(alloc, asked, None, bytes, sink, disk),
        Start::Restart => match newest(alloc, disk) {
            Ok(Some(image)) => answer_script(alloc, asked, Some(image), bytes, sink, disk),
            Ok(None) => refuse(alloc, NotRun::NoCheckpoint, sink),
            Err(NewestStop::Damaged { area, bad }) => {
                refuse(alloc, NotRun::Damaged { area, bad }, sink)
            }
            Err(NewestStop::Failed) => end(sink, DISK_LINE, Status::DiskFault),
            Err(NewestStop::OutOfMemory) => end(sink, MEMORY_LINE, Status::OutOfMemory),
        },
    }
}

/// What the image has declared, if there is one.
fn declared_of(image: &Option<Image>) -> Option<&Declared>
    ensures { option_copied result ≡ given_by image.now }
{
    match image {
        Some(image) => Some(&image.declared),
        None => None,
    }
}

/// Reads and runs the script that the bytes say, from the mesh of an image or, without one, from the start mesh of its declarations.
fn answer_script<K: Sink, D: Disk>(
    alloc: Global,
    asked: &Asked,
    image: Option<Image>,
    bytes: &[u8],
    sink: &mut K,
    disk: &mut D,
) -> Status
    requires image { IfSome image IsRead }
    ensures came { Came (job_from asked.now (begin_by image) (script_of (given_by image) bytes.now)) result
        (record { before = K.taken sink.old; after = K.taken sink.new; faults = K.faults sink.old; new_faults = K.faults sink.new })
        (disk_run D.holds D.may_leave D.moment D.left_since D.faults disk.old disk.new) }
    ensures idle { SavesNothing (job_from asked.now (begin_by image) (script_of (given_by image) bytes.now)) → disk.new ≡ disk.old }
{
    let script = match read_script(alloc, declared_of(&image), bytes) {
        Ok(script) => script,
        Err(ScriptStop::Fault { line, reason }) => {
            return refuse(alloc, NotRun::Fault { line, reason }, sink);
        }
        Err(ScriptStop::OutOfMemory) => return end(sink, MEMORY_LINE, Status::OutOfMemory),
    };
    if !built(&script, asked.ranks, asked.workers) {
        return refuse(alloc, NotRun::NotBuilt, sink);
    }
    let Script { declared, lines } = script;
    let origin = match image {
        Some(image) => Origin::Image(image),
        None => Origin::Declared(declared),
    };
    run_lines(alloc, origin, &lines, sink, disk)
}
