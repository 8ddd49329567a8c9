//! What is told of areas whose bytes are known.

ghost use Rattle.std.specs.Prelude.{None};

use crate::newest::{NewestStop, newest};
use check_format::Image;
use mesh_model::{BadImage, Part};
use outside_io::Failed;
use outside_io::disk::{Area, Disk};
use outside_io::memory_disk::MemDisk;
use std::alloc::Global;
use std::test::Fail;

/// The bytes of an image behind the turn and before the contents: one root of four cells on each axis with one guard
/// cell, at level 0 alone, with the cell variable `u`, out of which nothing has flowed.
const MIDDLE: [u8; 39] = [
    4, 1, 1, 1, 1, 0, 0, 0, 0, 0, 0, 0, 0, 1, 0, 0, 1, 0x75, 1, 0, 0, 0, 0, 0, 0, 0, 0, 0, 0, 0, 0,
    0, 0, 0, 0, 0, 0, 0, 0,
];

/// The digests of the images whose contents are all 1, by the turn.
const ONES: [[u8; 32]; 3] = [
    [
        0x16, 0xac, 0xf3, 0x29, 0x90, 0x31, 0x8d, 0xf9, 0x8a, 0x07, 0x5f, 0x77, 0xda, 0x7c, 0xfd,
        0xdd, 0xea, 0xb5, 0x09, 0x53, 0x1f, 0xe9, 0x86, 0x0a, 0x1d, 0x66, 0x48, 0x85, 0xaa, 0x20,
        0xb3, 0xae,
    ],
    [
        0xc2, 0x47, 0x46, 0x0e, 0x7e, 0xf4, 0xea, 0x3a, 0x1a, 0x2d, 0xb3, 0x42, 0x40, 0xf2, 0xc5,
        0xae, 0x32, 0xe9, 0x48, 0x32, 0x2c, 0x0d, 0x4a, 0x9f, 0x51, 0x2c, 0x44, 0x41, 0x9d, 0x4d,
        0x23, 0x7f,
    ],
    [
        0x9f, 0x7c, 0xff, 0x45, 0x1c, 0xc7, 0x25, 0xa4, 0xf0, 0x80, 0xb0, 0x2b, 0x4d, 0xc6, 0x77,
        0xd0, 0xec, 0x3b, 0x7f, 0xff, 0xe4, 0x68, 0xd3, 0x26, 0xbe, 0xf2, 0xa0, 0xf9, 0xfb, 0x47,
        0xbb, 0xdc,
    ],
];

/// The digests of the images whose contents are all 2, by the turn.
const TWOS: [[u8; 32]; 3] = [
    [
        0xc7, 0xa7, 0x0c, 0x11, 0x61, 0x92, 0xbb, 0x9a, 0x3b, 0xfa, 0x4c, 0x84, 0xa2, 0xf2, 0x9b,
        0x52, 0xdd, 0x66, 0xb8, 0x45, 0x20, 0xeb, 0xa6, 0xc1, 0x98, 0xbc, 0x39, 0x25, 0xeb, 0x8e,
        0xef, 0x1b,
    ],
    [
        0xe0, 0x27, 0xb6, 0xe1, 0xa4, 0xf6, 0x4e, 0x40, 0x65, 0x8f, 0x4a, 0x77, 0x40, 0x12, 0x07,
        0xaa, 0x48, 0x94, 0x33, 0x8d, 0x96, 0x36, 0xc9, 0x51, 0x8b, 0x53, 0x3e, 0x6d, 0x8a, 0x71,
        0xdf, 0xfd,
    ],
    [
        0xd4, 0x9c, 0x8f, 0x18, 0x27, 0x17, 0x36, 0x14, 0xde, 0x70, 0x81, 0x39, 0xbe, 0xf1, 0x89,
        0x19, 0x4a, 0xe4, 0xda, 0x5d, 0xac, 0x17, 0xc2, 0x77, 0xc8, 0x77, 0x7c, 0x93, 0xbf, 0xb8,
        0x1d, 0x61,
    ],
];

/// The digest of the image with turn 1 whose contents are all 2, and one bit of byte 39 is turned.
const TURNED_DIGEST: [u8; 32] = [
    0x18, 0x83, 0x5f, 0xc7, 0xa0, 0xd7, 0xee, 0x55, 0x8f, 0xb7, 0x9e, 0x1c, 0x9e, 0x3b, 0x54, 0xc1,
    0x84, 0x03, 0x97, 0xfd, 0x4c, 0x0e, 0xb7, 0x04, 0x65, 0xa8, 0xe3, 0x73, 0x43, 0x2b, 0xc1, 0x9e,
];

/// The digest of the image of one root that has no variable, with turn 0.
const BARE_DIGEST: [u8; 32] = [
    0x43, 0xfc, 0x5c, 0xb1, 0xd0, 0x50, 0x11, 0x50, 0x95, 0x0a, 0xea, 0x9d, 0xe3, 0xda, 0xf9, 0xc0,
    0xc0, 0xc4, 0x52, 0xb3, 0x60, 0x61, 0x72, 0xd1, 0x49, 0x7a, 0x5c, 0xfd, 0xe6, 0x71, 0xc5, 0xfd,
];

/// How many bytes an area with an image of that mesh has.
const LENGTH: usize = 593;

/// The bytes of an area.
#[derive(Clone, Copy)]
enum Given {
    /// An image behind a gate, by the gate and the turn.
    Whole(u8, u8),
    /// An image behind an open gate, of which one bit of byte 39 is turned, by its turn.
    Turned(u8),
    /// The first bytes of an area, by the gate, the turn and how many there are.
    Cut(u8, u8, usize),
}

/// An area's bytes, with that content in each cell.
fn area_of(alloc: Global, given: Given, content: u8) -> Result<Vec<u8>, Fail> {
    let (gate, turn, bit, length) = match given {
        Given::Whole(gate, turn) => (gate, turn, 0, LENGTH),
        Given::Turned(turn) => (1, turn, 1, LENGTH),
        Given::Cut(gate, turn, length) => (gate, turn, 0, length),
    };
    let digests = if content == 1 { ONES } else { TWOS };
    let mut bytes = Vec::new(alloc);
    bytes.push(gate)?;
    bytes.extend_from_slice(b"AMRCHK01")?;
    bytes.push(turn)?;
    bytes.extend_from_slice(&MIDDLE)?;
    for _ in 0..64 {
        bytes.extend_from_slice(&[content, 0, 0, 0, 0, 0, 0, 0])?;
    }
    bytes.extend_from_slice(digests.get(turn as usize).ok_or("a turn")?)?;
    if let Some(byte) = bytes.get_mut(40) {
        *byte ^= bit;
    }
    bytes.truncate(length);
    Ok(bytes)
}

/// A disk with these bytes.
fn disk_of(alloc: Global, a: Vec<u8>, b: Vec<u8>, fails: &[u64]) -> Result<MemDisk, Fail> {
    let room = a.len().max(b.len()).max(100) as u64;
    let fails = fails.to_vec(alloc)?;
    Ok(MemDisk::new(alloc, a, b, room, fails, None)?)
}

/// What is told.
#[derive(Clone, Copy, Debug, PartialEq, Eq)]
enum Answer {
    Nothing,
    /// An image with this turn, each of whose 64 contents is this.
    Image(u8, i64),
    /// An image of something else.
    Other,
    Damaged(Area, Part),
    Stopped,
}

/// What is told of an image.
fn image_told(image: &Image) -> Answer {
    let (Some(contents), Some(out)) = (image.cells.first(), image.outs.first()) else {
        return Answer::Other;
    };
    let content = contents.first().copied().unwrap_or(-1);
    if contents.len() == 64 && contents.iter().all(|&one| one == content) && *out == 0 {
        return Answer::Image(image.turn, content);
    }
    Answer::Other
}

/// What is told of a disk.
fn told(alloc: Global, disk: &mut MemDisk) -> Answer {
    match newest(alloc, disk) {
        Ok(None) => Answer::Nothing,
        Ok(Some(image)) => image_told(&image),
        Err(NewestStop::Damaged { area, bad }) => Answer::Damaged(area, bad.part),
        Err(_) => Answer::Stopped,
    }
}

/// The areas, and what is told of them. The contents are 1 in A and 2 in B.
const ROWS: [(Given, Given, Answer); 24] = [
    (Given::Cut(0, 0, 0), Given::Cut(0, 0, 0), Answer::Nothing),
    (Given::Whole(0, 0), Given::Whole(0, 1), Answer::Nothing),
    (Given::Whole(2, 0), Given::Whole(255, 1), Answer::Nothing),
    (Given::Cut(1, 0, 1), Given::Cut(0, 0, 0), Answer::Nothing),
    (Given::Whole(1, 0), Given::Cut(0, 0, 0), Answer::Image(0, 1)),
    (Given::Whole(1, 2), Given::Whole(0, 0), Answer::Image(2, 1)),
    (Given::Cut(0, 0, 0), Given::Whole(1, 0), Answer::Image(0, 2)),
    (Given::Whole(0, 1), Given::Whole(1, 2), Answer::Image(2, 2)),
    (Given::Whole(1, 0), Given::Whole(1, 0), Answer::Image(0, 1)),
    (Given::Whole(1, 0), Given::Whole(1, 1), Answer::Image(1, 2)),
    (Given::Whole(1, 0), Given::Whole(1, 2), Answer::Image(0, 1)),
    (Given::Whole(1, 1), Given::Whole(1, 0), Answer::Image(1, 1)),
    (Given::Whole(1, 1), Given::Whole(1, 2), Answer::Image(2, 2)),
    (Given::Whole(1, 2), Given::Whole(1, 0), Answer::Image(0, 2)),
    (Given::Whole(1, 2), Given::Whole(1, 1), Answer::Image(2, 1)),
    (
        Given::Turned(0),
        Given::Cut(0, 0, 0),
        Answer::Damaged(Area::A, Part::Digest),
    ),
    (
        Given::Turned(0),
        Given::Whole(1, 1),
        Answer::Damaged(Area::A, Part::Digest),
    ),
    (
        Given::Turned(1),
        Given::Whole(1, 0),
        Answer::Damaged(Area::A, Part::Digest),
    ),
    (
        Given::Whole(1, 0),
        Given::Turned(1),
        Answer::Damaged(Area::B, Part::Digest),
    ),
    (
        Given::Whole(1, 1),
        Given::Turned(0),
        Answer::Damaged(Area::B, Part::Digest),
    ),
    (
        Given::Cut(1, 0, 40),
        Given::Turned(1),
        Answer::Damaged(Area::A, Part::Length),
    ),
    (
        Given::Turned(1),
        Given::Cut(1, 0, 62),
        Answer::Damaged(Area::A, Part::Digest),
    ),
    (
        Given::Whole(0, 0),
        Given::Cut(1, 1, 62),
        Answer::Damaged(Area::B, Part::Length),
    ),
    (
        Given::Whole(1, 0),
        Given::Cut(0, 1, 100),
        Answer::Image(0, 1),
    ),
];

#[test]
fn the_newer_of_the_open_areas_is_told(rt: HostRuntime) -> Result<(), Fail> {
    let alloc = rt.alloc();
    for (a, b, expected) in ROWS {
        let a = area_of(alloc, a, 1)?;
        let b = area_of(alloc, b, 2)?;
        let mut disk = disk_of(alloc, a, b, &[])?;
        assert_eq!(rt; told(alloc, &mut disk), expected);
    }
    Ok(())
}

#[test]
fn both_digests_are_told(rt: HostRuntime) -> Result<(), Fail> {
    let alloc = rt.alloc();
    let a = area_of(alloc, Given::Whole(1, 0), 1)?;
    let b = area_of(alloc, Given::Turned(1), 2)?;
    let mut disk = disk_of(alloc, a, b, &[])?;
    let bad = BadImage {
        part: Part::Digest,
        kept: TWOS[1],
        found: TURNED_DIGEST,
    };
    assert_eq!(rt;
        newest(alloc, &mut disk).err(),
        Some(NewestStop::Damaged { area: Area::B, bad })
    );
    Ok(())
}

#[test]
fn an_image_without_variables_is_told(rt: HostRuntime) -> Result<(), Fail> {
    let alloc = rt.alloc();
    let mut a = Vec::from_slice(alloc, b"\x01AMRCHK01")?;
    a.extend_from_slice(&[
        0, 8, 2, 1, 1, 1, 0, 3, 0, 0, 0, 0, 0, 0, 0, 0, 0, 1, 0, 0, 0, 0,
    ])?;
    a.extend_from_slice(&BARE_DIGEST)?;
    let mut disk = disk_of(alloc, a, Vec::new(alloc), &[])?;
    let image = newest(alloc, &mut disk)?.ok_or("an image")?;
    assert_eq!(rt; image.turn, 0);
    assert_eq!(rt; image.declared.shape.n, 8);
    assert_eq!(rt; image.declared.shape.max, 3);
    assert_eq!(rt; image.tree.len(), 1);
    assert_eq!(rt; image.cells.len(), 0);
    assert_eq!(rt; image.faces.len(), 0);
    Ok(())
}

#[test]
fn a_call_that_fails_is_told(rt: HostRuntime) -> Result<(), Fail> {
    let alloc = rt.alloc();
    // Three calls look at each area, and two read each image.
    for number in 1..11 {
        let a = area_of(alloc, Given::Whole(1, 0), 1)?;
        let b = area_of(alloc, Given::Whole(1, 1), 2)?;
        let mut disk = disk_of(alloc, a, b, &[number])?;
        assert_eq!(rt; newest(alloc, &mut disk).err(), Some(NewestStop::Failed));
        assert_eq!(rt; disk.faults(), 1);
        assert_eq!(rt; told(alloc, &mut disk), Answer::Image(1, 2));
    }
    Ok(())
}

/// A disk with these bytes in A and none in B, that says that A has more.
#[derive(Drop)]
struct ShortDisk<'a> {
    a: &'a [u8],
}

impl<'a> Disk for ShortDisk<'a> {
    ghost holds = { λ _. None };

    ghost may_leave = { λ _ _. Unit {0} };

    ghost moment = { λ _. 0 };

    ghost left_since = { λ _ _ _. Unit {0} };

    ghost faults = { λ _. 0 };

    ghost read_is_possible = { λ _. tt };

    ghost counts_now = { λ _ _ _ _ _. tt };

    ghost only_now = { λ _ _ _. tt };

    fn length(&mut self, area: Area) -> Result<u64, Failed> {
        match area {
            Area::A => Ok((self.a.len() as u64).saturating_add(9)),
            Area::B => Ok(0),
        }
    }

    fn read_at(&mut self, area: Area, place: u64, buf: &mut [u8]) -> Result<usize, Failed> {
        let rest = match area {
            Area::A => self.a.get(place as usize..).unwrap_or(&[]),
            Area::B => &[],
        };
        let count = rest.len().min(buf.len());
        buf[..count].copy_from_slice(&rest[..count]);
        Ok(count)
    }

    fn write_at(&mut self, _area: Area, _place: u64, _piece: &[u8]) -> Result<(), Failed> {
        Ok(())
    }

    fn cut(&mut self, _area: Area, _most: u64) -> Result<(), Failed> {
        Ok(())
    }

    fn sync(&mut self, _area: Area) -> Result<(), Failed> {
        Ok(())
    }
}

#[test]
fn an_area_ends_where_a_read_gives_fewer_bytes(rt: HostRuntime) -> Result<(), Fail> {
    let alloc = rt.alloc();
    let a = area_of(alloc, Given::Whole(1, 0), 1)?;
    let image = newest(alloc, &mut ShortDisk { a: &a })?.ok_or("an image")?;
    assert_eq!(rt; image_told(&image), Answer::Image(0, 1));
    Ok(())
}
