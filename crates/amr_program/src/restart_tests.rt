//! Checkpoints and restarts of whole runs.

use crate::program::amr;
use crate::status::Status;
use outside_io::disk::Area;
use outside_io::memory_disk::MemDisk;
use outside_io::memory_sink::MemSink;
use outside_io::memory_source::MemSource;
use std::alloc::Global;
use std::test::Fail;

/// One root of 4^3 cells, all of which have 1 at the first checkpoint and 2 at the second; a line is printed after each.
const SAVED: &[u8] = b"domain 1 1 1\ncells 4 1\nlevels 0 0\ncellvar u\nfill u all 1\ncheckpoint\n\
total u\nfill u all 2\ncheckpoint\ntotal u\nend\n";

/// What a restart is asked.
const ASKED: &[u8] = b"total u\nend\n";

/// A disk of empty areas, of which calls fail after so many.
fn empty_disk(alloc: Global, fuse: Option<u64>) -> Result<MemDisk, Fail> {
    let (a, b, fails) = (Vec::new(alloc), Vec::new(alloc), Vec::new(alloc));
    Ok(MemDisk::new(alloc, a, b, 4000, fails, fuse)?)
}

/// A disk with the area A of another and an area B of its own.
fn with_area_b(alloc: Global, disk: &MemDisk, b: Vec<u8>) -> Result<MemDisk, Fail> {
    let a = Vec::from_slice(alloc, disk.area(Area::A))?;
    let room = a.len().max(b.len()) as u64;
    Ok(MemDisk::new(alloc, a, b, room, Vec::new(alloc), None)?)
}

/// Runs a script on a disk, from the start or from what the disk holds.
fn run(
    alloc: Global,
    restart: bool,
    script: &[u8],
    disk: &mut MemDisk,
) -> Result<(Status, MemSink), Fail> {
    let mut words = Vec::new(alloc);
    if restart {
        words.push(String::from_str(alloc, "--restart")?)?;
    }
    let script = Vec::from_slice(alloc, script)?;
    let mut source = MemSource::new(script, 1 << 20, Vec::new(alloc));
    let mut sink = MemSink::new(alloc, 1 << 20, 4096, Vec::new(alloc))?;
    let status = amr(alloc, &words, &mut source, &mut sink, disk);
    Ok((status, sink))
}

#[test]
fn a_restart_goes_on_from_the_last_checkpoint(rt: HostRuntime) -> Result<(), Fail> {
    let mut disk = empty_disk(rt.alloc(), None)?;
    let (status, sink) = run(rt.alloc(), false, SAVED, &mut disk)?;
    assert_eq!(rt; status, Status::Done);
    assert_eq!(rt;
        sink.taken(),
        b"total u 64 out 0\ntotal u 128 out 0\n".as_slice()
    );
    assert_eq!(rt; disk.area(Area::A).len(), 593);
    assert_eq!(rt; disk.area(Area::B).len(), 593);
    let (status, sink) = run(rt.alloc(), true, ASKED, &mut disk)?;
    assert_eq!(rt; status, Status::Done);
    assert_eq!(rt; sink.taken(), b"total u 128 out 0\n".as_slice());
    Ok(())
}

#[test]
fn stopped_at_any_disk_call_the_last_checkpoint_or_the_next_is_found(
    rt: HostRuntime,
) -> Result<(), Fail> {
    for fuse in 0..40 {
        let mut disk = empty_disk(rt.alloc(), Some(fuse))?;
        let (status, printed) = run(rt.alloc(), false, SAVED, &mut disk)?;
        let first = printed.taken().starts_with(b"total u 64 out 0\n");
        let second = printed
            .taken()
            .starts_with(b"total u 64 out 0\ntotal u 128 out 0\n");
        assert_eq!(rt; status == Status::Done, second);
        assert_eq!(rt; status == Status::DiskFault, !second);
        let (status, sink) = run(rt.alloc(), true, ASKED, &mut disk.crash())?;
        let found = sink.taken();
        let older = found == b"total u 64 out 0\n".as_slice();
        let newer = found == b"total u 128 out 0\n".as_slice();
        let none = found == b"error: no checkpoint\n".as_slice();
        assert_eq!(rt; status == Status::NoCheckpoint, none);
        assert_eq!(rt; status == Status::Done, older || newer);
        assert_eq!(rt; none && first, false, "an acknowledged checkpoint is found");
        assert_eq!(rt; older && second, false, "a later one is found in its place");
        assert_eq!(rt; newer && !first, false, "none is found before it was begun");
    }
    Ok(())
}

#[test]
fn a_damaged_area_is_told_with_its_digests(rt: HostRuntime) -> Result<(), Fail> {
    let alloc = rt.alloc();
    let mut disk = empty_disk(alloc, None)?;
    let (_, _) = run(alloc, false, SAVED, &mut disk)?;
    let mut b = Vec::from_slice(alloc, disk.area(Area::B))?;
    if let Some(byte) = b.get_mut(40) {
        *byte = *byte ^ 1;
    }
    let mut damaged = with_area_b(alloc, &disk, b)?;
    let (status, sink) = run(alloc, true, ASKED, &mut damaged)?;
    assert_eq!(rt; status, Status::Damaged);
    assert_eq!(rt; sink.taken(), DAMAGED);
    Ok(())
}

/// The line of area B after its bit was changed. The digests are by another program.
const DAMAGED: &[u8] = b"error: damaged area B part digest \
kept e027b6e1a4f64e40658f4a77401207aa4894338d9636c9518b533e6d8a71dffd \
found 18835fc7a0d7ee558fb79e1c9e3b54c1840397fd4c0eb70465a8e373432bc19e\n";

#[test]
fn a_closed_area_is_passed_over(rt: HostRuntime) -> Result<(), Fail> {
    let alloc = rt.alloc();
    let mut disk = empty_disk(alloc, None)?;
    let (_, _) = run(alloc, false, SAVED, &mut disk)?;
    let mut b = Vec::from_slice(alloc, disk.area(Area::B))?;
    b.truncate(100);
    if let Some(gate) = b.first_mut() {
        *gate = 0;
    }
    let mut cut = with_area_b(alloc, &disk, b)?;
    let (status, sink) = run(alloc, true, ASKED, &mut cut)?;
    assert_eq!(rt; status, Status::Done);
    assert_eq!(rt; sink.taken(), b"total u 64 out 0\n".as_slice());
    Ok(())
}

/// A refined mesh with each kind of variable and marks, and what is printed of it.
const MIXED: &[u8] =
    b"domain 2 1 1\ncells 4 2\nlevels 0 2\nbounds periodic periodic outflow closed periodic periodic\n\
cellvar u\ncellvar v\nfacevar b\nedgevar e\nfill u box 0 1 0 0 6 3 4 1000\nedgeset z 0 2 2 1 90000\n\
edgeset x 0 3 1 2 70000\ncurl\nmark refine 0 0 0 0\nregrid\nadvect u 30000 -20000 10000\n\
induct 1000 2000 -500\nmark refine 1 1 1 1\nmark derefine 1 0 0 0\n";

const REPORTS: &[u8] = b"print mesh\nprint u\nprint v\nprint b\nprint e\nprint guards b 1 0 0 0\n\
netflux\ntotal u\nregrid\nprint mesh\nprint u\nprint b\ninduct 500 -700 900\nprint b\nend\n";

#[test]
fn a_mixed_mesh_goes_on_as_if_never_stopped(rt: HostRuntime) -> Result<(), Fail> {
    let alloc = rt.alloc();
    let mut whole = Vec::from_slice(alloc, MIXED)?;
    whole.extend_from_slice(REPORTS)?;
    let mut saved = Vec::from_slice(alloc, MIXED)?;
    saved.extend_from_slice(b"checkpoint\nend\n")?;
    let (a, b) = (Vec::new(alloc), Vec::new(alloc));
    let mut disk = MemDisk::new(alloc, a, b, 1 << 20, Vec::new(alloc), None)?;
    let (status, all) = run(alloc, false, &whole, &mut disk)?;
    assert_eq!(rt; status, Status::Done);
    let (status, _) = run(alloc, false, &saved, &mut disk)?;
    assert_eq!(rt; status, Status::Done);
    let (status, rest) = run(alloc, true, REPORTS, &mut disk)?;
    assert_eq!(rt; status, Status::Done);
    assert_eq!(rt; rest.taken() == all.taken(), true);
    Ok(())
}
