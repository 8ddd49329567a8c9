//! The adapters over a reader and a writer that move little, fail, take nothing, and are interrupted.

ghost use Rattle.std.specs.Prelude.{◌≤◌, IfOk};

use crate::Failed;
use crate::sink::{Sink, write_all};
use crate::source::{ReadStop, Source, read_up_to};
use crate::std_sink::StdSink;
use crate::std_source::StdSource;
use std::io;
use std::io::{ErrorKind, Read, Write};
use std::test::Fail;

/// What a call on the reader or the writer does.
#[derive(Clone, Copy)]
enum Step {
    /// Moves so many bytes at most.
    Moves(usize),
    /// Is interrupted by a signal.
    IsInterrupted,
    /// Fails.
    Fails,
}

impl Step {
    /// How many bytes of `room` the call moves.
    fn count(self, room: usize) -> io::Result<usize>
        ensures { IfOk result (λ n. n ≤ room) }
    {
        match self {
            Step::Moves(most) => Ok(most.min(room)),
            Step::IsInterrupted => Err(io::Error::from(ErrorKind::Interrupted)),
            Step::Fails => Err(io::Error::from(ErrorKind::BrokenPipe)),
        }
    }
}

/// The step of the next call, which is taken off the list; after the last one each call moves all that it can.
fn next(steps: &mut &[Step]) -> Step {
    match steps.split_first() {
        Some((step, others)) => {
            *steps = others;
            *step
        }
        None => Step::Moves(usize::MAX),
    }
}

/// A reader of the bytes that goes by the steps.
#[derive(Drop)]
struct Reader<'a> {
    bytes: &'a [u8],
    steps: &'a [Step],
}

impl<'a> Read for Reader<'a> {
    fn read(&mut self, buf: &mut [u8]) -> io::Result<usize> {
        let n = next(&mut self.steps).count(buf.len().min(self.bytes.len()))?;
        buf[..n].copy_from_slice(&self.bytes[..n]);
        self.bytes = &self.bytes[n..];
        Ok(n)
    }
}

/// A writer that goes by the steps.
#[derive(Drop)]
struct Writer<'a> {
    taken: Vec<u8>,
    steps: &'a [Step],
}

impl<'a> Write for Writer<'a> {
    fn write(&mut self, piece: &[u8]) -> io::Result<usize> {
        let n = next(&mut self.steps).count(piece.len())?;
        self.taken.extend_from_slice(&piece[..n])?;
        Ok(n)
    }

    fn flush(&mut self) -> io::Result<()> {
        Ok(())
    }
}

#[test]
fn an_interrupted_read_is_no_end_and_no_fault(rt: HostRuntime) -> Result<(), Fail> {
    let reader = Reader {
        bytes: b"advection",
        steps: &[
            Step::IsInterrupted,
            Step::Moves(1),
            Step::IsInterrupted,
            Step::IsInterrupted,
            Step::Moves(3),
        ],
    };
    let mut source = StdSource::new(reader);
    let read = read_up_to(rt.alloc(), &mut source, 100)?;
    assert_eq!(rt; read.as_slice(), b"advection".as_slice());
    assert_eq!(rt; source.faults(), 0);
    Ok(())
}

#[test]
fn a_failed_read_is_a_fault_and_loses_nothing(rt: HostRuntime) -> Result<(), Fail> {
    let reader = Reader {
        bytes: b"advection",
        steps: &[Step::Moves(2), Step::Fails, Step::Moves(3)],
    };
    let mut source = StdSource::new(reader);
    let mut buf = [0; 4];
    assert_eq!(rt; source.read(&mut buf), Ok(2));
    assert_eq!(rt; &buf[..2], b"ad".as_slice());
    let stop = read_up_to(rt.alloc(), &mut source, 100);
    assert_eq!(rt; stop.err(), Some(ReadStop::Failed));
    assert_eq!(rt; source.faults(), 1);
    let read = read_up_to(rt.alloc(), &mut source, 100)?;
    assert_eq!(rt; read.as_slice(), b"vection".as_slice());
    assert_eq!(rt; source.faults(), 1);
    Ok(())
}

#[test]
fn what_a_write_leaves_is_offered_again(rt: HostRuntime) -> Result<(), Fail> {
    let mut writer = Writer {
        taken: Vec::new(rt.alloc()),
        steps: &[
            Step::Moves(0),
            Step::IsInterrupted,
            Step::Moves(1),
            Step::IsInterrupted,
            Step::IsInterrupted,
            Step::Moves(3),
        ],
    };
    let mut sink = StdSink::new(&mut writer);
    assert_eq!(rt; sink.write(b""), Ok(0), "an empty piece is taken whole");
    assert_eq!(rt; sink.write(b"advection"), Ok(1));
    assert_eq!(rt; write_all(&mut sink, b"dvection"), Ok(()));
    assert_eq!(rt; sink.faults(), 0);
    assert_eq!(rt; writer.taken.as_slice(), b"advection".as_slice());
    Ok(())
}

#[test]
fn a_write_that_fails_or_takes_nothing_is_a_fault(rt: HostRuntime) -> Result<(), Fail> {
    for stop in [Step::Fails, Step::Moves(0)] {
        let mut writer = Writer {
            taken: Vec::new(rt.alloc()),
            steps: &[Step::Moves(2), stop],
        };
        let mut sink = StdSink::new(&mut writer);
        assert_eq!(rt; write_all(&mut sink, b"advection"), Err(Failed));
        assert_eq!(rt; sink.faults(), 1);
        assert_eq!(rt; write_all(&mut sink, b"vection"), Ok(()));
        assert_eq!(rt; sink.faults(), 1);
        assert_eq!(rt; writer.taken.as_slice(), b"advection".as_slice());
    }
    Ok(())
}
