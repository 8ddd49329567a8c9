//! The words of the program.

ghost use Rattle.clap.specs.Words.{app_of, first_value, found_of, kind_of, rule_of};
ghost use Rattle.std.specs.Prelude.{◌≡◌, IfOk, codes, false, map, string_bytes};
ghost use Rattle.amr_program.specs.Words as plain;

use clap::error::ErrorKind;
use clap::{Arg, ArgAction, ArgMatches, Command, Error};
use script_lang::words::count;
use std::alloc::{AllocError, Global};

/// Where a run starts, and where its script comes from.
#[derive(Clone, Copy, Debug, PartialEq, Eq)]
pub enum Start {
    /// From the source's script alone, with all numbers 0.
    New,
    /// From the image that the disk holds, with the source's script.
    Restart,
    /// From the sample script of this seed, with all numbers 0.
    Sample(u32),
}

/// What the words ask for.
#[derive(Clone, Copy, Debug, PartialEq, Eq)]
pub struct Asked {
    /// Where the run starts.
    pub start: Start,
    /// Over how many ranks the blocks are spread: 1 to 64, 1 where none is named.
    pub ranks: u32,
    /// Which order of delivery the ranks' packets have: 0 where none is named.
    pub order: u32,
    /// How many threads work beside each other: 1 to 16, 1 where none is named.
    pub workers: u32,
}

/// Why nothing is asked.
#[derive(Clone, Copy, Debug, PartialEq, Eq)]
pub enum WordsStop {
    /// The words are refused.
    Refused,
    /// Memory to read them is wanting.
    OutOfMemory,
}

/// The option of this name, which takes one value.
fn option<'a>(alloc: Global, name: &'a str) -> Arg<'a>
    ensures rule { rule_of result ≡ plain.option name.entry.now }
    ensures local { result.global ≡ false }
{
    Arg::new(alloc, name).long(name).action(ArgAction::Set)
}

/// The command of which the words are.
fn command<'a>(alloc: Global) -> Result<Command<'a>, AllocError>
    ensures { IfOk result (λ c. app_of c ≡ plain.program_command) }
{
    let restart = Arg::new(alloc, "restart")
        .long("restart")
        .action(ArgAction::SetTrue);
    Command::new(alloc, "amr")
        .no_binary_name(true)
        .arg(option(alloc, "ranks"))?
        .arg(option(alloc, "order"))?
        .arg(option(alloc, "workers"))?
        .arg(option(alloc, "sample"))?
        .arg(restart)
}

/// The number from `low` to `high` that the text is, in digits without a sign or a leading zero.
fn number_in(text: &str, low: u32, high: u32) -> Option<u32>
    ensures { result ≡ plain.number_in low high text.now }
{
    count(text.as_bytes(), low, high).ok()
}

/// The number from `low` to `high` that the option has, or `default` where it is not there.
fn number_or(matches: &ArgMatches<'_>, name: &str, low: u32, high: u32, default: u32) -> Option<u32>
    ensures { result ≡ plain.number_or low high default (first_value (found_of matches.now) name.now) }
{
    match matches.get_str(name) {
        Some(text) => number_in(text, low, high),
        None => Some(default),
    }
}

/// Where the run starts, unless a restart and a sample are asked for.
fn start_by(matches: &ArgMatches<'_>) -> Option<Start>
    ensures { result ≡ plain.start_by (first_value (found_of matches.now) (codes "restart")) (first_value (found_of matches.now) (codes "sample")) }
{
    let restart = matches.get_str("restart") == Some("true");
    match matches.get_str("sample") {
        None if restart => Some(Start::Restart),
        None => Some(Start::New),
        Some(_) if restart => None,
        Some(text) => Some(Start::Sample(number_in(text, 0, u32::MAX)?)),
    }
}

/// What the values of the options ask for, where each is in its range.
fn asked_by(matches: &ArgMatches<'_>) -> Option<Asked>
    ensures { result ≡ plain.asked_by (λ name. first_value (found_of matches.now) name) }
{
    Some(Asked {
        start: start_by(matches)?,
        ranks: number_or(matches, "ranks", 1, 64, 1)?,
        order: number_or(matches, "order", 0, u32::MAX, 0)?,
        workers: number_or(matches, "workers", 1, 16, 1)?,
    })
}

/// Why the parse failed.
fn stop_of(error: &Error) -> WordsStop
    ensures { result ≡ plain.stop_of (kind_of error.now) }
{
    match error.kind() {
        ErrorKind::OutOfMemory => WordsStop::OutOfMemory,
        _ => WordsStop::Refused,
    }
}

/// What the words ask for. `Refused` where the command does not take them, or where its options do not go together.
pub fn asked_in(alloc: Global, words: &[String]) -> Result<Asked, WordsStop>
    ensures { plain.Tells (plain.asked_in (plain.texts_of words.now)) result }
{
    let Ok(command) = command(alloc) else {
        return Err(WordsStop::OutOfMemory);
    };
    match command.try_get_matches_from(words) {
        Ok(matches) => asked_by(&matches).ok_or(WordsStop::Refused),
        Err(error) => Err(stop_of(&error)),
    }
}
