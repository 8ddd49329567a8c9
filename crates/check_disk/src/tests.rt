use crate::laws::good_is_whole;
use crate::list_pieces::ListPieces;
use crate::look::survey;
use crate::save::{save, save_each, settle};
use crate::steps::Closed;
use crate::target::Target;
use outside_io::Failed;
use outside_io::disk::{Area, Disk};
use outside_io::memory_disk::MemDisk;
use std::alloc::Global;
use std::test::Fail;

/// The bytes of each mesh that is written here: a number, so many times.
const LENGTH: usize = 200;

/// What stands in the areas.
#[derive(Clone, Copy, Debug, PartialEq, Eq)]
enum Found {
    Nothing,
    Damaged,
    Mesh(u8),
}

/// An open area's number and turn, where its bytes are an image: eight bytes 65, the turn, and the number 200 times.
fn mesh_in(area: &[u8]) -> Option<(u8, u8)> {
    if area.len() != 10 + LENGTH || area[1..9] != [65; 8] {
        return None;
    }
    let number = area[10];
    if area[10..].iter().all(|&byte| byte == number) {
        return Some((number, area[9]));
    }
    None
}

/// What the disk's bytes hold, by the rule of the gates and turns.
fn found_in(disk: &MemDisk) -> Found {
    let a = disk.area(Area::A);
    let b = disk.area(Area::B);
    let a_open = a.len() >= 2 && a[0] == 1;
    let b_open = b.len() >= 2 && b[0] == 1;
    match (a_open, b_open, mesh_in(a), mesh_in(b)) {
        (false, false, _, _) => Found::Nothing,
        (true, false, Some(m), _) | (false, true, _, Some(m)) => Found::Mesh(m.0),
        (true, true, Some(m), Some(k)) if k.1 as u32 == (m.1 as u32 + 1) % 3 => Found::Mesh(k.0),
        (true, true, Some(m), Some(_)) => Found::Mesh(m.0),
        _ => Found::Damaged,
    }
}

/// An empty disk.
fn empty_disk(alloc: Global, fails: &[u64], fuse: Option<u64>) -> Result<MemDisk, Fail> {
    let fails = fails.to_vec(alloc)?;
    Ok(MemDisk::new(alloc, Vec::new(alloc), Vec::new(alloc), 5000, fails, fuse)?)
}

/// Saves the meshes of the numbers 1 to 4 up to the first failure, and tells how many were.
fn save_four(disk: &mut MemDisk) -> u8 {
    let mut buf = [0; 64];
    for number in 1..5 {
        let mesh = [number; LENGTH];
        if save(disk, &mut ListPieces::new(&mesh), &mut buf).is_err() {
            return number - 1;
        }
    }
    4
}

/// What was held after so many saves.
fn after(saves: u8) -> Found {
    if saves == 0 {
        Found::Nothing
    } else {
        Found::Mesh(saves)
    }
}

#[test]
fn a_crash_at_any_call_leaves_the_older_or_the_newer(rt: HostRuntime) -> Result<(), Fail> {
    let mut whole = false;
    let mut newer = false;
    for fuse in 0..80 {
        for more in 0..6 {
            let mut disk = empty_disk(rt.alloc(), &[], Some(fuse))?;
            let saved = save_four(&mut disk);
            for _ in 0..more {
                let _ = disk.length(Area::A);
            }
            let found = found_in(&disk.crash());
            if found != after(saved) {
                assert_eq!(rt; found, after(saved.saturating_add(1)));
                newer = true;
            }
            whole |= saved == 4;
        }
    }
    assert_eq!(rt;
        newer,
        true,
        "a crash may leave the mesh that was being saved"
    );
    assert_eq!(rt; whole, true, "the last fuses outlast the four saves");
    Ok(())
}

#[test]
fn a_call_that_fails_leaves_the_older_or_the_newer(rt: HostRuntime) -> Result<(), Fail> {
    for number in 1..70 {
        let mut disk = empty_disk(rt.alloc(), &[number], None)?;
        let saved = save_four(&mut disk);
        let mut again = disk.crash();
        let found = found_in(&again);
        assert_eq!(rt;
            found == after(saved) || found == after(saved.saturating_add(1)),
            true
        );
        let mesh = [9; LENGTH];
        assert_eq!(rt;
            save(&mut again, &mut ListPieces::new(&mesh), &mut [0; 64]),
            Ok(())
        );
        assert_eq!(rt; found_in(&again), Found::Mesh(9));
    }
    Ok(())
}

#[test]
fn the_steps_write_a_closed_gate_the_image_and_an_open_gate(rt: HostRuntime) -> Result<(), Fail> {
    let mut disk = empty_disk(rt.alloc(), &[], None)?;
    let target = survey(&mut disk)?;
    assert_eq!(rt;
        target,
        Target {
            area: Area::A,
            turn: 0
        }
    );
    let closed = Closed::make(&mut disk, target)?;
    assert_eq!(rt; disk.area(Area::A), [0].as_slice());
    let body = closed.body(&mut disk, &mut ListPieces::new(&[7, 8]), &mut [0; 64])?;
    let behind = [0, 65, 65, 65, 65, 65, 65, 65, 65, 0, 7, 8];
    assert_eq!(rt; disk.area(Area::A), behind.as_slice());
    body.open(&mut disk)?;
    let open = [1, 65, 65, 65, 65, 65, 65, 65, 65, 0, 7, 8];
    assert_eq!(rt; disk.area(Area::A), open.as_slice());
    assert_eq!(rt;
        survey(&mut disk)?,
        Target {
            area: Area::B,
            turn: 1
        }
    );
    assert_eq!(rt; disk.area(Area::B), [].as_slice());
    Ok(())
}

/// An area with this gate and this turn byte.
fn area_of(gate: u8, turn: u8) -> [u8; 62] {
    let mut bytes = [65; 62];
    bytes[0] = gate;
    bytes[9] = turn;
    bytes
}

#[test]
fn the_area_that_is_not_the_newer_is_next(rt: HostRuntime) -> Result<(), Fail> {
    let alloc = rt.alloc();
    // The gates and turn bytes of A and B, and where the next image goes.
    let rows = [
        (0, 1, 0, 2, Area::A, 0),
        (1, 1, 2, 2, Area::B, 2),
        (7, 1, 1, 2, Area::A, 0),
        (1, 0, 1, 1, Area::A, 2),
        (1, 2, 1, 0, Area::A, 1),
        (1, 2, 1, 1, Area::B, 0),
        (1, 255, 1, 1, Area::A, 2),
        (1, 1, 1, 255, Area::B, 2),
    ];
    for (gate_a, turn_a, gate_b, turn_b, area, turn) in rows {
        let a = area_of(gate_a, turn_a).to_vec(alloc)?;
        let b = area_of(gate_b, turn_b).to_vec(alloc)?;
        let mut disk = MemDisk::new(alloc, a, b, 100, Vec::new(alloc), None)?;
        assert_eq!(rt; survey(&mut disk), Ok(Target { area, turn }));
    }
    Ok(())
}

#[test]
fn saves_follow_each_other(rt: HostRuntime) -> Result<(), Fail> {
    let mut disk = empty_disk(rt.alloc(), &[], None)?;
    let one = [1; LENGTH];
    let two = [2; LENGTH];
    let mut all = [ListPieces::new(&one), ListPieces::new(&two)];
    assert_eq!(rt; save_each(&mut disk, &mut all, &mut [0; 100]), Ok(()));
    assert_eq!(rt; settle(&mut disk), Ok(()));
    assert_eq!(rt; mesh_in(disk.area(Area::A)), Some((1, 0)));
    assert_eq!(rt; mesh_in(disk.area(Area::B)), Some((2, 1)));
    good_is_whole::<ListPieces>();
    Ok(())
}

#[test]
fn a_failed_save_is_told(rt: HostRuntime) -> Result<(), Fail> {
    let mut disk = empty_disk(rt.alloc(), &[], Some(3))?;
    let mesh = [1; LENGTH];
    let result = save(&mut disk, &mut ListPieces::new(&mesh), &mut [0; 64]);
    assert_eq!(rt; result, Err(Failed));
    assert_eq!(rt; disk.faults(), 1);
    assert_eq!(rt; settle(&mut disk), Err(Failed));
    assert_eq!(rt; disk.faults(), 2);
    Ok(())
}
