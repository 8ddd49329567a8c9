//! The last lines that a run writes.

ghost use Rattle.amr_program.specs.Lines as plain;
ghost use Rattle.amr_program.specs.declared.not_run.NotRun.TheVariants as reasons;
ghost use Rattle.hex.specs.Hex.{encode_lower};
ghost use Rattle.std.specs.Prelude.{◌≡◌, ◌≤◌, IfOk, length, string_bytes};

use amr_num::OutOfMemory;
use amr_report::Line;
use mesh_model::language::script::Reason;
use mesh_model::{BadImage, Part};
use outside_io::disk::Area;
use std::alloc::Global;

/// What is written where the words are refused.
pub const WORDS_LINE: &str =
    "error: words; usage: amr [--ranks R] [--order K] [--workers W] [--restart | --sample K]\n";

/// What is written where the script asks for what is not built.
pub const NOT_BUILT_LINE: &str = "error: not built\n";

/// What is written where the source failed.
pub const READ_LINE: &str = "error: read failed\n";

/// What is written where the disk failed.
pub const DISK_LINE: &str = "error: disk failed\n";

/// What is written where a restart finds no area open.
pub const NO_CHECKPOINT_LINE: &str = "error: no checkpoint\n";

/// What is written where memory was refused.
pub const MEMORY_LINE: &str = "error: out of memory\n";

/// The line that names a fault of the script.
pub fn fault_line(line: u32, reason: Reason) -> Line
    ensures { result ≡ plain.not_run_line (reasons.Fault line reason) }
{
    let mut text = Line::begin("error: script line");
    text.push_number(line);
    text.push_text(":");
    text.push_word(reason.text());
    text.end();
    text
}

/// The name of an area.
fn area_name(area: Area) -> &'static str
    ensures name { result.now ≡ plain.area_name area }
    ensures short { length result.now ≤ 1 }
{
    match area {
        Area::A => "A",
        Area::B => "B",
    }
}

/// The name of a part of an image.
fn part_name(part: Part) -> &'static str
    ensures name { result.now ≡ plain.part_name part }
    ensures short { length result.now ≤ 6 }
{
    match part {
        Part::Length => "length",
        Part::Digest => "digest",
        Part::Header => "header",
        Part::Tree => "tree",
        Part::Values => "values",
        Part::Ending => "ending",
    }
}

/// The digits of a digest.
fn digest_text(alloc: Global, digest: &[u8; 32]) -> Result<String, OutOfMemory>
    ensures digits { IfOk result (λ text. string_bytes text ≡ encode_lower digest.now) }
    ensures short { IfOk result (λ text. length (string_bytes text) ≤ 64) }
{
    match hex::encode(alloc, *digest) {
        Ok(text) => Ok(text),
        Err(_) => Err(OutOfMemory),
    }
}

/// The line that names an area that holds no image, and why.
pub fn damaged_line(alloc: Global, area: Area, bad: BadImage) -> Result<Line, OutOfMemory>
    ensures { IfOk result (λ line. line ≡ plain.damaged_line area bad) }
{
    let kept = digest_text(alloc, &bad.kept)?;
    let found = digest_text(alloc, &bad.found)?;
    let mut text = Line::begin("error: damaged area");
    text.push_word(area_name(area));
    text.push_word("part");
    text.push_word(part_name(bad.part));
    text.push_word("kept");
    text.push_word(kept.as_str());
    text.push_word("found");
    text.push_word(found.as_str());
    text.end();
    Ok(text)
}
