//! A block-tree manager for adaptive meshes: reads a script from standard input and prints what its commands print.
#![tactic(auto)]

ghost use Rattle.amr_program.specs.Exit.{exit_of};
ghost use Rattle.std.specs.IoError.{error_kind};
ghost use Rattle.std.specs.Prelude.{◌≡◌, ◌≢◌};
ghost use Rattle.std.specs.Process.{exit_status};

mod ending;
mod lines;
mod not_run;
mod origin;
mod program;
#[cfg(test)]
mod restart_tests;
mod run;
mod script_text;
mod status;
mod stop_line;
#[cfg(test)]
mod tests;
mod words;
#[cfg(test)]
mod words_tests;

use outside_io::folder_disk::FolderDisk;
use outside_io::std_sink::StdSink;
use outside_io::std_source::StdSource;
use program::amr;
use status::Status;
use std::alloc::Global;
use std::io::ErrorKind;
use std::process::ExitCode;
use std::rt::{Env, Files};
use std::{env, io};

/// The words of the program, without its own name.
fn words_of<R: Env + Alloc<A = Global>>(rt: &R) -> io::Result<Vec<String>> {
    env::args(rt)?
        .skip(1)
        .collect(rt.alloc())
        .map_err(io::Error::from)
}

/// The status where the words cannot be had: memory was refused, or one of them is not UTF-8.
fn without_words(error: &io::Error) -> Status
    ensures memory { error_kind error.now ≡ ErrorKind.OutOfMemory → result ≡ Status.OutOfMemory }
    ensures words { error_kind error.now ≢ ErrorKind.OutOfMemory → result ≡ Status.Words }
{
    if error.kind() == ErrorKind::OutOfMemory {
        Status::OutOfMemory
    } else {
        Status::Words
    }
}

/// Runs `amr` over standard input, standard output and the current folder.
fn answer<R: Env + Input + Print + Files + AllocGlobal>(rt: &R) -> Status {
    let words = match words_of(rt) {
        Ok(words) => words,
        Err(e) => return without_words(&e),
    };
    let Ok(folder) = String::from_str(rt.alloc(), ".") else {
        return Status::OutOfMemory;
    };
    let mut source = StdSource::new(rt.reader());
    let mut sink = StdSink::new(io::writer(rt));
    let mut disk = FolderDisk::new(rt, folder);
    amr(rt.alloc(), &words, &mut source, &mut sink, &mut disk)
}

/// The status as the exit number that the system is told.
fn exit_code(status: Status) -> ExitCode
    ensures { exit_status result ≡ exit_of status }
{
    ExitCode::from(status.exit())
}

fn main(rt: HostRuntime) -> ExitCode {
    exit_code(answer(&rt))
}
