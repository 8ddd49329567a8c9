// A disk in memory.
ghost use Rattle.outside_io.specs.Areas.{Areas, bytes_of, with_bytes, overwritten};
ghost use Rattle.outside_io.specs.Crash.{Torn, Shortened, InArea, Follows, OnlyIn, Elapses};
ghost use Rattle.outside_io.specs.Log.{Wrote, CutTo, Synced, Leaves, LeftSince, IsSound, after_all, begun};
ghost use Rattle.outside_io.specs.Memory.{disk_fails, disk_write_fails, past_fuse, after_disk_call, after_failed_disk_call, after_disk_change};
ghost use Rattle.outside_io.specs.Moved.{Rose};
ghost use Rattle.outside_io.specs.LogLaws.{now_counts, now_only};
ghost use Rattle.std.proofs.Common.{inl};
ghost use Rattle.std.specs.Prelude.{◌≡◌, ◌⊎◌, ℕ, ◌+◌, ◌-◌, ◌<◌, ◌≤◌, refl, Some, None, [], length, take, drop, min, is_err, IfOk, IfSome, OnOk, OnErr, IsOk};

use crate::Failed;
use crate::calls::Calls;
use crate::disk::{Area, Disk};
use crate::history::History;
use crate::memory_areas::MemAreas;
use crate::pending::mixed;
use amr_num::OutOfMemory;
use std::alloc::Global;
use std::marker::Model;

/// Two lists of bytes as a disk.
#[derive(Drop)]
pub struct MemDisk {
    held: MemAreas,
    calls: Calls,
    fuse: Option<u64>,
    history: History,
}

impl Model for MemDisk {
    ghost use Rattle.std.specs.Prelude.{◌≡◌, ◌≤◌, length};
    ghost use Rattle.outside_io.specs.Log.{after_all, begun, seen_of};
    ghost use Rattle.outside_io.specs.Memory.{DiskState};

    ghost Value = { DiskState };

    ghost view = { λ d. record { areas = seen_of d.held.both; room = d.held.room; written = d.history.written; calls = d.calls; fuse = d.fuse; first = d.history.first; log = d.history.log } };

    ghost invariant = { λ d. (d.history.room ≡ d.held.room) × (length d.history.log ≤ d.calls.made) × (d.history.written ≤ d.held.room) × (d.held.both ≡ after_all (begun d.history.first) d.history.log) };
}

/// Whether so many calls were made that the fuse is burnt.
fn is_past(fuse: Option<u64>, made: u64) -> bool
    ensures { result ≡ past_fuse fuse made }
{
    match fuse {
        None => false,
        Some(k) => k <= made,
    }
}

impl MemDisk {
    /// A disk whose areas have the bytes `a` and `b`, with nothing pending. Room for `room` bytes in each area is
    /// reserved here, and a record of `room` calls and `room` written bytes. A call fails where its number, counted
    /// from 1, is in `fails`, above `room` or above the fuse, where it would write past the room of an area, or where
    /// all bytes written would be more than `room`, and nowhere else.
    pub fn new(
        alloc: Global,
        a: Vec<u8>,
        b: Vec<u8>,
        room: u64,
        fails: Vec<u64>,
        fuse: Option<u64>,
    ) -> Result<MemDisk, OutOfMemory>
        requires a { length a.items ≤ room }
        requires b { length b.items ≤ room }
        ensures { IfOk result (λ disk. disk ≡ record { areas = record { a = a.items; b = b.items }; room = room; written = 0; calls = record { made = 0; fails = fails.items; faults = 0 }; fuse = fuse; first = record { a = a.items; b = b.items }; log = [] }) }
    {
        let held = MemAreas::new(alloc, &a, &b, room)?;
        let history = History::new(alloc, &a, &b, room)?;
        Ok(MemDisk {
            held,
            calls: Calls::new(fails),
            fuse,
            history,
        })
    }

    /// The bytes of an area.
    pub fn area(&self, area: Area) -> &[u8]
        ensures { result.now ≡ bytes_of self.now.areas area }
    {
        self.held.seen(area)
    }

    /// How many calls failed.
    pub fn faults(&self) -> u64
        ensures { result ≡ self.now.calls.faults }
    {
        self.calls.faults()
    }

    /// Counts a call, which fails where its number is named, or above the room or the fuse.
    fn begin(&mut self) -> Result<(), Failed>
        ensures fails { is_err result ≡ disk_fails self.old }
        ensures passed { OnOk result (self.new ≡ after_disk_call self.old) }
        ensures room { OnOk result (length self.new.log < self.new.room) }
        ensures counted { OnOk result (length self.new.log < self.new.calls.made) }
        ensures failed { OnErr result (self.new ≡ after_failed_disk_call self.old) }
        ensures fault { OnErr result (Rose self.old.calls.faults self.new.calls.faults) }
        ensures sound { IsSound (after_all (begun self.old.first) self.old.log) self.old.areas }
    {
        self.held.is_sound();
        let made = self.calls.made();
        let spent = made >= self.held.room();
        let past = is_past(self.fuse, made);
        if self.calls.begin() || spent || past {
            return Err(self.calls.fault());
        }
        Ok(())
    }

    /// Writes, and keeps the write.
    fn write(&mut self, area: Area, place: u64, piece: &[u8]) -> Result<(), Failed>
        requires { place ≤ length (bytes_of self.old.areas area) }
        ensures fails { is_err result ≡ disk_write_fails self.old place piece.now }
        ensures after { OnOk result (self.new ≡ after_disk_change area (Wrote place piece.now) (overwritten place piece.now (bytes_of self.old.areas area)) (length piece.now) self.old) }
        ensures unmoved { OnErr result (self.new ≡ after_failed_disk_call self.old) }
        ensures fault { OnErr result (Rose self.old.calls.faults self.new.calls.faults) }
        ensures sound { IsSound (after_all (begun self.old.first) self.old.log) self.old.areas }
    {
        self.begin()?;
        let len = piece.len() as u64;
        let room = self.held.room();
        if len > room - place || len > room - self.history.written() {
            return Err(self.calls.fault());
        }
        let Ok(()) = self.history.write(area, place, piece) else {
            return Err(self.calls.fault());
        };
        self.held.write(area, place, piece);
        Ok(())
    }

    /// Cuts, and keeps the cut.
    fn shorten(&mut self, area: Area, most: u64) -> Result<(), Failed>
        ensures fails { is_err result ≡ disk_fails self.old }
        ensures after { OnOk result (self.new ≡ after_disk_change area (CutTo most) (take most (bytes_of self.old.areas area)) 0 self.old) }
        ensures unmoved { OnErr result (self.new ≡ after_failed_disk_call self.old) }
        ensures fault { OnErr result (Rose self.old.calls.faults self.new.calls.faults) }
        ensures sound { IsSound (after_all (begun self.old.first) self.old.log) self.old.areas }
    {
        self.begin()?;
        let Ok(()) = self.history.cut(area, most) else {
            return Err(self.calls.fault());
        };
        self.held.cut(area, most);
        Ok(())
    }

    /// Syncs, and keeps the sync.
    fn settle(&mut self, area: Area) -> Result<(), Failed>
        ensures fails { is_err result ≡ disk_fails self.old }
        ensures after { OnOk result (self.new ≡ after_disk_change area Synced (bytes_of self.old.areas area) 0 self.old) }
        ensures unmoved { OnErr result (self.new ≡ after_failed_disk_call self.old) }
        ensures fault { OnErr result (Rose self.old.calls.faults self.new.calls.faults) }
        ensures sound { IsSound (after_all (begun self.old.first) self.old.log) self.old.areas }
    {
        self.begin()?;
        let Ok(()) = self.history.sync(area) else {
            return Err(self.calls.fault());
        };
        self.held.sync(area);
        Ok(())
    }

    /// One of the disks that a crash now may leave: each area has a length between the least and the greatest since its
    /// last sync, and each range written since, and all past the old end, may be torn. Which one is chosen by how many
    /// calls were made and how many bytes were written, so a run always gives the same one, and a run with a call more,
    /// as of `length`, another. It has the same room, an empty record, nothing pending, no call that fails and no fuse.
    pub fn crash(self) -> MemDisk
        ensures possible { Leaves self.first self.log self.areas result.areas }
        ensures anew { result ≡ record { areas = result.areas; room = self.room; written = 0; calls = record { made = 0; fails = []; faults = 0 }; fuse = None; first = result.areas; log = [] } }
    {
        let MemDisk {
            mut held,
            calls,
            fuse: _,
            mut history,
        } = self;
        held.crash(mixed(calls.made(), history.written()));
        history.restart(held.seen(Area::A), held.seen(Area::B));
        MemDisk {
            held,
            calls: calls.again(),
            fuse: None,
            history,
        }
    }
}

impl Disk for MemDisk {
    ghost holds = { λ d. Some d.areas };

    ghost may_leave = { λ d c. Leaves d.first d.log d.areas c };

    ghost moment = { λ d. length d.log };

    ghost left_since = { λ d t c. LeftSince d.first d.log d.areas t c };

    ghost faults = { λ d. d.calls.faults };

    ghost read_is_possible = { λ d. inl refl };

    ghost counts_now = { λ d t c le left. now_counts d.first d.log d.areas t c le left };

    ghost only_now = { λ d c left. now_only d.first d.log d.areas c left };

    fn length(&mut self, area: Area) -> Result<u64, Failed>
        ensures fails { is_err result ≡ disk_fails self.old }
        ensures after { OnOk result (self.new ≡ after_disk_call self.old) }
        ensures unmoved { OnErr result (self.new ≡ after_failed_disk_call self.old) }
        ensures length { IfOk result (λ n. n ≡ length (bytes_of self.old.areas area)) }
        ensures kept { self.new.areas ≡ self.old.areas }
        ensures crash { (c : Areas) → Leaves self.new.first self.new.log self.new.areas c → Leaves self.old.first self.old.log self.old.areas c }
        ensures time { Elapses (length self.old.log) (length self.new.log) (LeftSince self.old.first self.old.log self.old.areas) (LeftSince self.new.first self.new.log self.new.areas) (Leaves self.new.first self.new.log self.new.areas) }
        ensures calm { OnOk result (self.new.calls.faults ≡ self.old.calls.faults) }
        ensures fault { OnErr result (Rose self.old.calls.faults self.new.calls.faults) }
    {
        self.begin()?;
        Ok(self.area(area).len() as u64)
    }

    fn read_at(&mut self, area: Area, place: u64, buf: &mut [u8]) -> Result<usize, Failed>
        ensures fails { is_err result ≡ disk_fails self.old }
        ensures after { OnOk result (self.new ≡ after_disk_call self.old) }
        ensures unmoved { OnErr result (self.new ≡ after_failed_disk_call self.old) }
        ensures within { IfOk result (λ n. n ≤ length buf.new) }
        ensures count { IfOk result (λ n. n ≡ min (length buf.new) (length (bytes_of self.old.areas area) - place)) }
        ensures bytes { IfOk result (λ n. take n buf.new ≡ take n (drop place (bytes_of self.old.areas area))) }
        ensures kept { self.new.areas ≡ self.old.areas }
        ensures crash { (c : Areas) → Leaves self.new.first self.new.log self.new.areas c → Leaves self.old.first self.old.log self.old.areas c }
        ensures time { Elapses (length self.old.log) (length self.new.log) (LeftSince self.old.first self.old.log self.old.areas) (LeftSince self.new.first self.new.log self.new.areas) (Leaves self.new.first self.new.log self.new.areas) }
        ensures calm { OnOk result (self.new.calls.faults ≡ self.old.calls.faults) }
        ensures fault { OnErr result (Rose self.old.calls.faults self.new.calls.faults) }
    {
        self.begin()?;
        let bytes = self.area(area);
        let start = (place as usize).min(bytes.len());
        let n = buf.len().min(bytes.len() - start);
        buf[..n].copy_from_slice(&bytes[start..start + n]);
        Ok(n)
    }

    fn write_at(&mut self, area: Area, place: u64, piece: &[u8]) -> Result<(), Failed>
        requires { place ≤ length (bytes_of self.old.areas area) }
        ensures fails { is_err result ≡ disk_write_fails self.old place piece.now }
        ensures after { OnOk result (self.new ≡ after_disk_change area (Wrote place piece.now) (overwritten place piece.now (bytes_of self.old.areas area)) (length piece.now) self.old) }
        ensures unmoved { OnErr result (self.new ≡ after_failed_disk_call self.old) }
        ensures bytes { OnOk result (self.new.areas ≡ with_bytes self.old.areas area (overwritten place piece.now (bytes_of self.old.areas area))) }
        ensures crash { Follows (InArea area (Torn place (length piece.now))) (Leaves self.old.first self.old.log self.old.areas) (Leaves self.new.first self.new.log self.new.areas) }
        ensures time { Elapses (length self.old.log) (length self.new.log) (LeftSince self.old.first self.old.log self.old.areas) (LeftSince self.new.first self.new.log self.new.areas) (Leaves self.new.first self.new.log self.new.areas) }
        ensures calm { OnOk result (self.new.calls.faults ≡ self.old.calls.faults) }
        ensures fault { OnErr result (Rose self.old.calls.faults self.new.calls.faults) }
    {
        self.write(area, place, piece)
    }

    fn cut(&mut self, area: Area, most: u64) -> Result<(), Failed>
        requires { most ≤ length (bytes_of self.old.areas area) }
        ensures fails { is_err result ≡ disk_fails self.old }
        ensures after { OnOk result (self.new ≡ after_disk_change area (CutTo most) (take most (bytes_of self.old.areas area)) 0 self.old) }
        ensures unmoved { OnErr result (self.new ≡ after_failed_disk_call self.old) }
        ensures bytes { OnOk result (self.new.areas ≡ with_bytes self.old.areas area (take most (bytes_of self.old.areas area))) }
        ensures crash { Follows (InArea area (Shortened most)) (Leaves self.old.first self.old.log self.old.areas) (Leaves self.new.first self.new.log self.new.areas) }
        ensures time { Elapses (length self.old.log) (length self.new.log) (LeftSince self.old.first self.old.log self.old.areas) (LeftSince self.new.first self.new.log self.new.areas) (Leaves self.new.first self.new.log self.new.areas) }
        ensures calm { OnOk result (self.new.calls.faults ≡ self.old.calls.faults) }
        ensures fault { OnErr result (Rose self.old.calls.faults self.new.calls.faults) }
    {
        self.shorten(area, most)
    }

    fn sync(&mut self, area: Area) -> Result<(), Failed>
        ensures fails { is_err result ≡ disk_fails self.old }
        ensures after { OnOk result (self.new ≡ after_disk_change area Synced (bytes_of self.old.areas area) 0 self.old) }
        ensures unmoved { OnErr result (self.new ≡ after_failed_disk_call self.old) }
        ensures durable { OnOk result (OnlyIn area (bytes_of self.old.areas area) (Leaves self.new.first self.new.log self.new.areas)) }
        ensures kept { self.new.areas ≡ self.old.areas }
        ensures crash { (c : Areas) → Leaves self.new.first self.new.log self.new.areas c → Leaves self.old.first self.old.log self.old.areas c }
        ensures time { Elapses (length self.old.log) (length self.new.log) (LeftSince self.old.first self.old.log self.old.areas) (LeftSince self.new.first self.new.log self.new.areas) (Leaves self.new.first self.new.log self.new.areas) }
        ensures calm { OnOk result (self.new.calls.faults ≡ self.old.calls.faults) }
        ensures fault { OnErr result (Rose self.old.calls.faults self.new.calls.faults) }
    {
        self.settle(area)
    }
}
