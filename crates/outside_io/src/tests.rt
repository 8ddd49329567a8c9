use crate::Failed;
use crate::disk::{Area, Disk};
use crate::folder_disk::FolderDisk;
use crate::memory_disk::MemDisk;
use crate::memory_sink::MemSink;
use crate::memory_source::MemSource;
use crate::sink::write_all;
use crate::source::{ReadStop, Source, read_up_to, skip_up_to};
use crate::std_sink::StdSink;
use crate::std_source::StdSource;
use std::fs;
use std::test::Fail;

#[test]
fn reads_a_few_bytes_at_a_time(rt: HostRuntime) -> Result<(), Fail> {
    let bytes = [10, 20, 30, 40, 50, 60, 70].to_vec(rt.alloc())?;
    let mut source = MemSource::new(bytes, 2, [6].to_vec(rt.alloc())?);
    let read = read_up_to(rt.alloc(), &mut source, 4)?;
    assert_eq!(rt; read.as_slice(), [10, 20, 30, 40].as_slice());
    assert_eq!(rt; skip_up_to(&mut source, 2), Ok(()));
    let read = read_up_to(rt.alloc(), &mut source, 4)?;
    assert_eq!(rt; read.as_slice(), [70].as_slice());
    assert_eq!(rt; source.faults(), 0);
    let stop = read_up_to(rt.alloc(), &mut source, 4);
    assert_eq!(rt; stop.err(), Some(ReadStop::Failed));
    assert_eq!(rt; source.faults(), 1);
    Ok(())
}

#[test]
fn writes_a_few_bytes_at_a_time(rt: HostRuntime) -> Result<(), Fail> {
    let mut sink = MemSink::new(rt.alloc(), 5, 2, [3].to_vec(rt.alloc())?)?;
    assert_eq!(rt; write_all(&mut sink, &[10, 20, 30]), Ok(()));
    assert_eq!(rt; sink.taken(), [10, 20, 30].as_slice());
    assert_eq!(rt;
        write_all(&mut sink, &[40]),
        Err(Failed),
        "the third write fails"
    );
    assert_eq!(rt;
        write_all(&mut sink, &[40, 50, 60]),
        Err(Failed),
        "no room is left"
    );
    assert_eq!(rt; sink.taken(), [10, 20, 30, 40, 50].as_slice());
    assert_eq!(rt; sink.faults(), 2);
    Ok(())
}

/// The area's length. Like the calls below it tells its caller's proof nothing of the disk.
pub fn size(disk: &mut MemDisk, area: Area) -> Result<u64, Failed> {
    disk.length(area)
}

/// Syncs the area.
pub fn settle(disk: &mut MemDisk, area: Area) -> Result<(), Failed> {
    disk.sync(area)
}

/// Writes where the place is within the area.
pub fn put(disk: &mut MemDisk, area: Area, place: u64, piece: &[u8]) -> Result<(), Failed> {
    if place > disk.area(area).len() as u64 {
        return Err(Failed);
    }
    disk.write_at(area, place, piece)
}

/// Cuts an area that is as long.
pub fn shorten(disk: &mut MemDisk, area: Area, most: u64) -> Result<(), Failed> {
    if most > disk.area(area).len() as u64 {
        return Err(Failed);
    }
    disk.cut(area, most)
}

#[test]
fn keeps_two_areas(rt: HostRuntime) -> Result<(), Fail> {
    let a = [10, 20, 30].to_vec(rt.alloc())?;
    let b = [7].to_vec(rt.alloc())?;
    let mut disk = MemDisk::new(rt.alloc(), a, b, 7, [2].to_vec(rt.alloc())?, None)?;
    assert_eq!(rt; size(&mut disk, Area::A), Ok(3));
    assert_eq!(rt;
        settle(&mut disk, Area::A),
        Err(Failed),
        "the second call fails"
    );
    assert_eq!(rt; put(&mut disk, Area::A, 2, &[31, 40]), Ok(()));
    assert_eq!(rt; disk.area(Area::A), [10, 20, 31, 40].as_slice());
    let mut buf = [0; 4];
    assert_eq!(rt; disk.read_at(Area::A, 1, &mut buf), Ok(3));
    assert_eq!(rt; buf, [20, 31, 40, 0]);
    assert_eq!(rt; shorten(&mut disk, Area::A, 1), Ok(()));
    assert_eq!(rt; disk.area(Area::A), [10].as_slice());
    assert_eq!(rt;
        put(&mut disk, Area::B, 1, &[8, 9, 10, 11, 12, 13]),
        Err(Failed),
        "eight bytes written"
    );
    assert_eq!(rt; disk.area(Area::B), [7].as_slice());
    assert_eq!(rt; settle(&mut disk, Area::B), Ok(()));
    assert_eq!(rt;
        settle(&mut disk, Area::B),
        Err(Failed),
        "the call after the seventh"
    );
    assert_eq!(rt; disk.faults(), 3);
    Ok(())
}

#[test]
fn reads_from_a_reader(rt: HostRuntime) -> Result<(), Fail> {
    let mut source = StdSource::new(b"uniform".as_slice());
    let read = read_up_to(rt.alloc(), &mut source, 100)?;
    assert_eq!(rt; read.as_slice(), b"uniform".as_slice());
    Ok(())
}

#[test]
fn writes_to_a_writer(rt: HostRuntime) -> Result<(), Fail> {
    let mut text = Vec::new(rt.alloc());
    let mut sink = StdSink::new(&mut text);
    assert_eq!(rt; write_all(&mut sink, b"uniform"), Ok(()));
    assert_eq!(rt; text.as_slice(), b"uniform".as_slice());
    Ok(())
}

#[test]
fn keeps_two_files(rt: HostRuntime) -> Result<(), Fail> {
    let _ = fs::remove_dir_all(&rt, "two_areas");
    fs::create_dir(&rt, "two_areas")?;
    let mut disk = FolderDisk::new(&rt, format!(in rt.alloc(); "two_areas")?);
    assert_eq!(rt; disk.length(Area::A), Ok(0), "a missing file");
    assert_eq!(rt; disk.cut(Area::A, 0), Ok(()));
    assert_eq!(rt; disk.write_at(Area::A, 0, b"10 20 30"), Ok(()));
    assert_eq!(rt; disk.write_at(Area::A, 6, b"4050"), Ok(()));
    assert_eq!(rt; disk.sync(Area::A), Ok(()));
    let text = fs::read_to_string(&rt, "two_areas/amr_a.chk")?;
    assert_eq!(rt; text.as_str(), "10 20 4050");
    let mut buf = [0; 6];
    assert_eq!(rt; disk.read_at(Area::A, 6, &mut buf), Ok(4));
    assert_eq!(rt; &buf[..4], b"4050".as_slice());
    assert_eq!(rt; disk.cut(Area::A, 2), Ok(()));
    assert_eq!(rt; disk.length(Area::A), Ok(2));
    assert_eq!(rt; disk.write_at(Area::B, 0, b"7"), Ok(()));
    let text = fs::read_to_string(&rt, "two_areas/amr_b.chk")?;
    assert_eq!(rt; text.as_str(), "7");
    fs::remove_dir_all(&rt, "two_areas")?;
    assert_eq!(rt; disk.sync(Area::A), Err(Failed), "the folder is gone");
    Ok(())
}
