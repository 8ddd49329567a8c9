//! The image that is held, from which a run goes on.
ghost use Rattle.std.specs.Prelude.{◌≡◌, true, false, drop, IfErr, IfOk, IfSome, OnOk};
ghost use Rattle.outside_io.specs.Areas.{bytes_of};
ghost use Rattle.outside_io.specs.Crash.{Reads};
ghost use Rattle.mesh_model.specs.Images.Held.{held, held_by, read_mesh};
ghost use Rattle.check_format.specs.ReadImages.{IsRead};
ghost use Rattle.check_disk.specs.Newest.{IsCounted, Tells, answer, as_mesh, stop_of};

use crate::look::{look_at, turn_after};
use check_format::{Image, ImageStop, read_image};
use mesh_model::BadImage;
use outside_io::Failed;
use outside_io::disk::{Area, Disk};
use outside_io::source::ReadStop;
use std::alloc::Global;

/// Why there is no newest image.
#[derive(Clone, Copy, Debug, PartialEq, Eq)]
pub enum NewestStop {
    /// A call of the disk failed.
    Failed,
    /// The area is open and holds no image.
    Damaged { area: Area, bad: BadImage },
    /// Memory was refused.
    OutOfMemory,
}

impl From<Failed> for NewestStop {
    ghost use Rattle.check_disk.specs.declared.newest.NewestStop.TheVariants as stops;

    ghost from_gives = { λ _ stop. stop ≡ stops.Failed };

    fn from(_: Failed) -> Self {
        NewestStop::Failed
    }
}

impl From<ReadStop> for NewestStop {
    ghost use Rattle.check_disk.specs.Newest.{stop_of};

    ghost from_gives = { λ stop out. out ≡ stop_of stop };

    fn from(stop: ReadStop) -> Self {
        match stop {
            ReadStop::Failed => NewestStop::Failed,
            ReadStop::OutOfMemory => NewestStop::OutOfMemory,
        }
    }
}

/// The bytes behind the gate of an area. Where a read gives fewer bytes than the length said, the area ends there.
fn bytes_behind<D: Disk>(alloc: Global, disk: &mut D, area: Area) -> Result<Vec<u8>, ReadStop>
    ensures bytes { IfOk result (λ read. IfSome (D.holds disk.old) (λ areas. read.items ≡ drop 1 (bytes_of areas area))) }
    ensures reads { Reads D.holds D.may_leave D.moment D.left_since disk.old disk.new }
    ensures calm { OnOk result (D.faults disk.new ≡ D.faults disk.old) }
    ensures fault { IfErr result (λ stop. IsCounted (D.faults disk.old) (D.faults disk.new) (stop_of stop)) }
{
    let length = match disk.length(area) {
        Ok(length) => length as usize,
        Err(Failed) => return Err(ReadStop::Failed),
    };
    let Ok(mut bytes) = vec![in alloc; 0; length.saturating_sub(1)] else {
        return Err(ReadStop::OutOfMemory);
    };
    match disk.read_at(area, 1, &mut bytes) {
        Ok(count) => {
            bytes.truncate(count);
            Ok(bytes)
        }
        Err(Failed) => Err(ReadStop::Failed),
    }
}

/// The image in an area, or why its bytes are none.
fn image_in<D: Disk>(
    alloc: Global,
    disk: &mut D,
    area: Area,
) -> Result<Result<Image, BadImage>, ReadStop>
    ensures mesh { IfOk result (λ image. IfSome (D.holds disk.old) (λ areas. read_mesh (drop 1 (bytes_of areas area)) ≡ as_mesh image)) }
    ensures read { IfOk result (λ image. IfOk image IsRead) }
    ensures reads { Reads D.holds D.may_leave D.moment D.left_since disk.old disk.new }
    ensures calm { OnOk result (D.faults disk.new ≡ D.faults disk.old) }
    ensures fault { IfErr result (λ stop. IsCounted (D.faults disk.old) (D.faults disk.new) (stop_of stop)) }
{
    let bytes = bytes_behind(alloc, disk, area)?;
    match read_image(alloc, &bytes) {
        Ok(image) => Ok(Ok(image)),
        Err(ImageStop::Bad(bad)) => Ok(Err(bad)),
        Err(ImageStop::OutOfMemory) => Err(ReadStop::OutOfMemory),
    }
}

/// What is answered of the area that counts.
fn told(area: Area, image: Result<Image, BadImage>) -> Result<Option<Image>, NewestStop>
    ensures { result ≡ answer area image }
{
    match image {
        Ok(image) => Ok(Some(image)),
        Err(bad) => Err(NewestStop::Damaged { area, bad }),
    }
}

/// What is held where both areas are open and A is the newer. The image in B is let go of before A is read.
fn newer_a<D: Disk>(alloc: Global, disk: &mut D) -> Result<Option<Image>, NewestStop>
    ensures held { IfSome (D.holds disk.old) (λ areas. Tells (held_by true (read_mesh (drop 1 areas.a)) true (read_mesh (drop 1 areas.b)) false) result) }
    ensures read { IfOk result (λ found. IfSome found IsRead) }
    ensures reads { Reads D.holds D.may_leave D.moment D.left_since disk.old disk.new }
    ensures calm { OnOk result (D.faults disk.new ≡ D.faults disk.old) }
    ensures fault { IfErr result (IsCounted (D.faults disk.old) (D.faults disk.new)) }
{
    let older = image_in(alloc, disk, Area::B)?.err();
    let newer = image_in(alloc, disk, Area::A)?;
    match (newer, older) {
        (Err(bad), _) => Err(NewestStop::Damaged { area: Area::A, bad }),
        (Ok(_), Some(bad)) => Err(NewestStop::Damaged { area: Area::B, bad }),
        (Ok(image), None) => Ok(Some(image)),
    }
}

/// What is held where both areas are open and B is the newer. The image in A is let go of before B is read.
fn newer_b<D: Disk>(alloc: Global, disk: &mut D) -> Result<Option<Image>, NewestStop>
    ensures held { IfSome (D.holds disk.old) (λ areas. Tells (held_by true (read_mesh (drop 1 areas.a)) true (read_mesh (drop 1 areas.b)) true) result) }
    ensures read { IfOk result (λ found. IfSome found IsRead) }
    ensures reads { Reads D.holds D.may_leave D.moment D.left_since disk.old disk.new }
    ensures calm { OnOk result (D.faults disk.new ≡ D.faults disk.old) }
    ensures fault { IfErr result (IsCounted (D.faults disk.old) (D.faults disk.new)) }
{
    if let Err(bad) = image_in(alloc, disk, Area::A)? {
        return Err(NewestStop::Damaged { area: Area::A, bad });
    }
    told(Area::B, image_in(alloc, disk, Area::B)?)
}

/// The image in the newer of the open areas. None exactly where both areas are closed. `Damaged` comes exactly where an
/// open area holds no image, A before B: no older image is taken in its place. `Failed` comes exactly where a call of
/// the disk failed. Memory is taken in proportion to the bytes of one area at a time.
pub fn newest<D: Disk>(alloc: Global, disk: &mut D) -> Result<Option<Image>, NewestStop>
    ensures held { IfSome (D.holds disk.old) (λ areas. Tells (held areas.a areas.b) result) }
    ensures read { IfOk result (λ found. IfSome found IsRead) }
    ensures reads { Reads D.holds D.may_leave D.moment D.left_since disk.old disk.new }
    ensures calm { OnOk result (D.faults disk.new ≡ D.faults disk.old) }
    ensures fault { IfErr result (IsCounted (D.faults disk.old) (D.faults disk.new)) }
{
    let a = look_at(disk, Area::A)?;
    let b = look_at(disk, Area::B)?;
    match (a.open, b.open) {
        (false, false) => Ok(None),
        (true, false) => told(Area::A, image_in(alloc, disk, Area::A)?),
        (false, true) => told(Area::B, image_in(alloc, disk, Area::B)?),
        (true, true) if b.turn == turn_after(a.turn) => newer_b(alloc, disk),
        (true, true) => newer_a(alloc, disk),
    }
}
