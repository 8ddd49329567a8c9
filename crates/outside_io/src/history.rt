// What was done to the areas of a disk in memory: its first bytes, and each call since that changed or synced them.
ghost use Rattle.outside_io.specs.Areas.{Areas};
ghost use Rattle.outside_io.specs.Log.{Change, Wrote, CutTo, Synced, with_entry};
ghost use Rattle.std.specs.Prelude.{◌≡◌, ◌+◌, ◌<◌, ◌≤◌, [], ◌∷◌, ◌++◌, length, vec_capacity, IfOk, OnOk, OnErr, IsOk};

use crate::Failed;
use crate::disk::Area;
use crate::memory_area::{refill, with_room};
use amr_num::OutOfMemory;
use std::alloc::Global;
use std::marker::Model;

/// What a call did: a write of so many bytes at a place, a cut to a length, or a sync.
#[derive(Clone, Copy, Debug, PartialEq, Eq)]
pub enum Kind {
    Writes(u64, usize),
    Cuts(u64),
    Syncs,
}

/// A call that changed an area, or synced it.
#[derive(Clone, Copy, Debug, PartialEq, Eq)]
pub struct Event {
    pub area: Area,
    pub kind: Kind,
}

/// Adds an event.
fn add(events: &mut Vec<Event>, event: Event) -> Result<(), Failed>
    ensures added { OnOk result (events.new.items ≡ events.old.items ++ event ∷ []) }
    ensures same { OnErr result (events.new.items ≡ events.old.items) }
    ensures capacity { vec_capacity events.old ≤ vec_capacity events.new }
    ensures fits { length events.old.items < vec_capacity events.old → IsOk result }
{
    match events.push(event) {
        Ok(()) => Ok(()),
        Err(_) => Err(Failed),
    }
}

/// Adds bytes.
fn put(bytes: &mut Vec<u8>, piece: &[u8]) -> Result<(), Failed>
    ensures added { OnOk result (bytes.new.items ≡ bytes.old.items ++ piece.now) }
    ensures same { OnErr result (bytes.new.items ≡ bytes.old.items) }
    ensures capacity { vec_capacity bytes.old ≤ vec_capacity bytes.new }
    ensures fits { length bytes.old.items + length piece.now ≤ vec_capacity bytes.old → IsOk result }
{
    match bytes.extend_from_slice(piece) {
        Ok(()) => Ok(()),
        Err(_) => Err(Failed),
    }
}

/// The first bytes of both areas, each call since, and the bytes of all writes one after another.
#[derive(Drop)]
pub struct History {
    first_a: Vec<u8>,
    first_b: Vec<u8>,
    events: Vec<Event>,
    bytes: Vec<u8>,
    room: u64,
}

impl Model for History {
    ghost use Rattle.std.specs.Prelude.{◌≡◌, ◌≤◌, length, vec_capacity};
    ghost use Rattle.outside_io.specs.Log.{HistoryState, logged, total_count};

    ghost Value = { HistoryState };

    ghost view = { λ h. record { first = record { a = h.first_a.items; b = h.first_b.items }; log = logged h.events.items h.bytes.items; written = length h.bytes.items; room = h.room } };

    ghost invariant = { λ h. (total_count h.events.items ≡ length h.bytes.items) × (h.room ≤ vec_capacity h.events) × (h.room ≤ vec_capacity h.bytes) × (h.room ≤ vec_capacity h.first_a) × (h.room ≤ vec_capacity h.first_b) × (length (logged h.events.items h.bytes.items) ≡ length h.events.items) };
}

impl History {
    /// A history that begins with these bytes, with room for so many calls and so many written bytes.
    pub fn new(alloc: Global, a: &[u8], b: &[u8], room: u64) -> Result<History, OutOfMemory>
        requires a { length a.now ≤ room }
        requires b { length b.now ≤ room }
        ensures { IfOk result (λ h. h ≡ record { first = record { a = a.now; b = b.now }; log = []; written = 0; room = room }) }
    {
        let first_a = with_room(alloc, a, room)?;
        let first_b = with_room(alloc, b, room)?;
        let Ok(events) = Vec::with_capacity(alloc, room as usize) else {
            return Err(OutOfMemory);
        };
        let Ok(bytes) = Vec::with_capacity(alloc, room as usize) else {
            return Err(OutOfMemory);
        };
        Ok(History {
            first_a,
            first_b,
            events,
            bytes,
            room,
        })
    }

    /// How many bytes were written in all.
    pub fn written(&self) -> u64
        ensures { result ≡ self.now.written }
    {
        self.bytes.len() as u64
    }

    /// Begins anew with these bytes.
    pub fn restart(&mut self, a: &[u8], b: &[u8])
        requires a { length a.now ≤ self.old.room }
        requires b { length b.now ≤ self.old.room }
        ensures { self.new ≡ record { first = record { a = a.now; b = b.now }; log = []; written = 0; room = self.old.room } }
    {
        self.events.clear();
        self.bytes.clear();
        refill(&mut self.first_a, a);
        refill(&mut self.first_b, b);
    }

    /// Keeps a write.
    pub fn write(&mut self, area: Area, place: u64, piece: &[u8]) -> Result<(), Failed>
        ensures kept { OnOk result (self.new ≡ with_entry area (Wrote place piece.now) (length piece.now) self.old) }
        ensures unmoved { OnErr result (self.new ≡ self.old) }
        ensures fits { length self.old.log < self.old.room → self.old.written + length piece.now ≤ self.old.room → IsOk result }
    {
        let before = self.bytes.len();
        put(&mut self.bytes, piece)?;
        let event = Event {
            area,
            kind: Kind::Writes(place, piece.len()),
        };
        match add(&mut self.events, event) {
            Ok(()) => Ok(()),
            Err(failed) => {
                self.bytes.truncate(before);
                Err(failed)
            }
        }
    }

    /// Keeps a cut.
    pub fn cut(&mut self, area: Area, most: u64) -> Result<(), Failed>
        ensures kept { OnOk result (self.new ≡ with_entry area (CutTo most) 0 self.old) }
        ensures unmoved { OnErr result (self.new ≡ self.old) }
        ensures fits { length self.old.log < self.old.room → IsOk result }
    {
        let event = Event {
            area,
            kind: Kind::Cuts(most),
        };
        add(&mut self.events, event)?;
        Ok(())
    }

    /// Keeps a sync.
    pub fn sync(&mut self, area: Area) -> Result<(), Failed>
        ensures kept { OnOk result (self.new ≡ with_entry area Synced 0 self.old) }
        ensures unmoved { OnErr result (self.new ≡ self.old) }
        ensures fits { length self.old.log < self.old.room → IsOk result }
    {
        let event = Event {
            area,
            kind: Kind::Syncs,
        };
        add(&mut self.events, event)?;
        Ok(())
    }
}
