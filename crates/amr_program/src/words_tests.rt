//! The words of the program, and the sample.

use crate::program::amr;
use crate::status::Status;
use outside_io::memory_disk::MemDisk;
use outside_io::memory_sink::MemSink;
use outside_io::memory_source::MemSource;
use outside_io::source::Source;
use std::alloc::Global;
use std::test::Fail;

/// A script that prints a line.
const SCRIPT: &[u8] = b"domain 1 1 1\nprint size\nend\n";

/// What a run ends with: its status, what it printed, and how many bytes of the source it left.
#[derive(Drop)]
struct Ended {
    status: Status,
    sink: MemSink,
    left: usize,
}

/// The words between the spaces.
fn words_of(alloc: Global, line: &str) -> Result<Vec<String>, Fail> {
    let mut words = Vec::new(alloc);
    for word in line.split(' ') {
        if !word.is_empty() {
            words.push(String::from_str(alloc, word)?)?;
        }
    }
    Ok(words)
}

/// Runs the script with the words.
fn run(alloc: Global, line: &str) -> Result<Ended, Fail> {
    let words = words_of(alloc, line)?;
    let script = Vec::from_slice(alloc, SCRIPT)?;
    let mut source = MemSource::new(script, 64, Vec::new(alloc));
    let mut sink = MemSink::new(alloc, 1 << 16, 4096, Vec::new(alloc))?;
    let (a, b) = (Vec::new(alloc), Vec::new(alloc));
    let mut disk = MemDisk::new(alloc, a, b, 4000, Vec::new(alloc), None)?;
    let status = amr(alloc, &words, &mut source, &mut sink, &mut disk);
    let mut rest = [0u8; 64];
    let left = source.read(&mut rest).unwrap_or(0);
    Ok(Ended { status, sink, left })
}

#[test]
fn words_in_form_are_taken(rt: HostRuntime) -> Result<(), Fail> {
    let taken = [
        "",
        "--ranks 1",
        "--ranks=1 --order=0",
        "--order 4294967295 --workers 1",
        "--workers=1 --ranks=1",
    ];
    for line in taken {
        let ended = run(rt.alloc(), line)?;
        assert_eq!(rt; ended.status, Status::Done);
        assert_eq!(rt; ended.sink.taken(), b"mesh nodes 1 leaves 1\n".as_slice());
        assert_eq!(rt; ended.left, 0);
    }
    Ok(())
}

#[test]
fn words_out_of_form_are_refused_before_the_source_is_read(rt: HostRuntime) -> Result<(), Fail> {
    let refused = [
        "more",
        "-h",
        "--help",
        "--version",
        "--ranks",
        "--ranks 0",
        "--ranks 65",
        "--ranks +3",
        "--ranks 007",
        "--ranks 1 --ranks 1",
        "--order -1",
        "--order 4294967296",
        "--workers 17",
        "--sample",
        "--sample 4294967296",
        "--restart=true",
        "--restart --restart",
        "--restart --sample 0",
    ];
    for line in refused {
        let ended = run(rt.alloc(), line)?;
        assert_eq!(rt; ended.status, Status::Words);
        assert!(rt; ended.sink.taken().starts_with(b"error: words; usage: amr "));
        assert_eq!(rt; ended.left, SCRIPT.len());
    }
    Ok(())
}

#[test]
fn more_ranks_and_workers_are_not_built(rt: HostRuntime) -> Result<(), Fail> {
    for line in ["--ranks 2", "--ranks 64 --workers 1", "--workers 16"] {
        let ended = run(rt.alloc(), line)?;
        assert_eq!(rt; ended.status, Status::Script);
        assert_eq!(rt; ended.sink.taken(), b"error: not built\n".as_slice());
    }
    Ok(())
}

#[test]
fn no_area_is_told_where_a_restart_is_asked(rt: HostRuntime) -> Result<(), Fail> {
    let ended = run(rt.alloc(), "--restart --order 7")?;
    assert_eq!(rt; ended.status, Status::NoCheckpoint);
    assert_eq!(rt; ended.sink.taken(), b"error: no checkpoint\n".as_slice());
    Ok(())
}
