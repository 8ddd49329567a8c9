//! What a crash leaves of a disk in memory: torn where a write is pending, and nowhere else.

ghost use Rattle.std.specs.Prelude.{◌≤◌, length};

use crate::Failed;
use crate::disk::{Area, Disk};
use crate::memory_disk::MemDisk;
use crate::tests::{put, settle, shorten, size};
use std::alloc::Global;
use std::test::Fail;

/// How many crashes of the same disk are tried.
const TRIES: u64 = 40;

/// A disk of these bytes with ample room.
fn disk_of(alloc: Global, a: &[u8], b: &[u8]) -> Result<MemDisk, Fail>
    requires a { length a.now ≤ 1000 }
    requires b { length b.now ≤ 1000 }
{
    let a = a.to_vec(alloc)?;
    let b = b.to_vec(alloc)?;
    Ok(MemDisk::new(alloc, a, b, 1000, Vec::new(alloc), None)?)
}

/// One of the crashes: calls that change nothing come before it.
fn crash_of(mut disk: MemDisk, number: u64) -> MemDisk {
    for _ in 0..number {
        let _ = size(&mut disk, Area::A);
    }
    disk.crash()
}

#[test]
fn a_call_past_the_fuse_fails(rt: HostRuntime) -> Result<(), Fail> {
    let alloc = rt.alloc();
    let a = [10, 20].to_vec(alloc)?;
    let mut disk = MemDisk::new(alloc, a, Vec::new(alloc), 9, Vec::new(alloc), Some(2))?;
    assert_eq!(rt; size(&mut disk, Area::A), Ok(2));
    assert_eq!(rt; put(&mut disk, Area::B, 0, &[7]), Ok(()));
    assert_eq!(rt; settle(&mut disk, Area::B), Err(Failed), "the third call");
    assert_eq!(rt; size(&mut disk, Area::A), Err(Failed));
    assert_eq!(rt; disk.faults(), 2);
    let mut again = disk.crash();
    assert_eq!(rt; again.faults(), 0);
    assert_eq!(rt; size(&mut again, Area::A), Ok(2));
    assert_eq!(rt; settle(&mut again, Area::A), Ok(()));
    assert_eq!(rt; size(&mut again, Area::A), Ok(2), "no fuse is left");
    Ok(())
}

#[test]
fn what_is_synced_stays(rt: HostRuntime) -> Result<(), Fail> {
    for number in 0..TRIES {
        let mut disk = disk_of(rt.alloc(), &[10, 20, 30], &[7])?;
        assert_eq!(rt; put(&mut disk, Area::A, 1, &[21, 31, 41]), Ok(()));
        assert_eq!(rt; shorten(&mut disk, Area::A, 3), Ok(()));
        assert_eq!(rt; settle(&mut disk, Area::A), Ok(()));
        let again = crash_of(disk, number);
        assert_eq!(rt; again.area(Area::A), [10, 21, 31].as_slice());
        assert_eq!(rt; again.area(Area::B), [7].as_slice());
    }
    Ok(())
}

#[test]
fn a_write_is_torn_in_its_range(rt: HostRuntime) -> Result<(), Fail> {
    let mut older = false;
    let mut newer = false;
    let mut other = false;
    for number in 0..TRIES {
        let mut disk = disk_of(rt.alloc(), &[10, 20, 30, 40], &[7])?;
        assert_eq!(rt; put(&mut disk, Area::A, 1, &[21, 31]), Ok(()));
        assert_eq!(rt; settle(&mut disk, Area::B), Ok(()), "the other area");
        let again = crash_of(disk, number);
        let bytes = again.area(Area::A);
        assert_eq!(rt; bytes.len(), 4);
        assert_eq!(rt; bytes[0], 10);
        assert_eq!(rt; bytes[3], 40);
        assert_eq!(rt; again.area(Area::B), [7].as_slice());
        older |= bytes[1] == 20;
        newer |= bytes[1] == 21;
        other |= bytes[1] != 20 && bytes[1] != 21;
    }
    assert_eq!(rt; older, true, "the byte before");
    assert_eq!(rt; newer, true, "the byte that was written");
    assert_eq!(rt; other, true, "any other byte");
    Ok(())
}

#[test]
fn a_cut_leaves_a_length_between(rt: HostRuntime) -> Result<(), Fail> {
    let mut seen = [false; 5];
    for number in 0..TRIES {
        let mut disk = disk_of(rt.alloc(), &[10, 20, 30, 40], &[])?;
        assert_eq!(rt; shorten(&mut disk, Area::A, 1), Ok(()));
        assert_eq!(rt; disk.area(Area::A), [10].as_slice());
        let again = crash_of(disk, number);
        let bytes = again.area(Area::A);
        assert_eq!(rt; [10, 20, 30, 40].starts_with(bytes), true);
        if let Some(length) = seen.get_mut(bytes.len()) {
            *length = true;
        }
    }
    assert_eq!(rt;
        seen,
        [false, true, true, true, true],
        "each length from 1 to 4"
    );
    Ok(())
}

#[test]
fn a_write_past_the_end_leaves_a_length_between(rt: HostRuntime) -> Result<(), Fail> {
    let mut seen = [false; 4];
    for number in 0..TRIES {
        let mut disk = disk_of(rt.alloc(), &[10], &[])?;
        assert_eq!(rt; put(&mut disk, Area::A, 1, &[20, 30]), Ok(()));
        let again = crash_of(disk, number);
        let bytes = again.area(Area::A);
        assert_eq!(rt; bytes.first(), Some(&10));
        if let Some(length) = seen.get_mut(bytes.len()) {
            *length = true;
        }
    }
    assert_eq!(rt; seen, [false, true, true, true], "each length from 1 to 3");
    Ok(())
}
