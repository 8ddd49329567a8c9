// One area of a disk in memory.
ghost use Rattle.outside_io.specs.Areas.{overwritten};
ghost use Rattle.outside_io.specs.Log.{Wrote, CutTo, Synced, IsFine, after_change, at_rest};
ghost use Rattle.outside_io.specs.Pending.{IsOutcome};
ghost use Rattle.std.specs.Prelude.{◌≡◌, ◌+◌, ◌<◌, ◌≤◌, [], ◌∷◌, ◌++◌, length, vec_capacity, IfOk};

use crate::pending::{Span, between, tear};
use amr_num::OutOfMemory;
use std::alloc::Global;
use std::marker::Model;

/// The bytes of an area, with room reserved for more, and what is pending since the last sync: the bytes then, the
/// ranges written since, and the least and the greatest length since.
#[derive(Drop)]
pub struct MemArea {
    seen: Vec<u8>,
    synced: Vec<u8>,
    spans: Vec<Span>,
    least: u64,
    greatest: u64,
    room: u64,
}

impl Model for MemArea {
    ghost use Rattle.std.specs.Prelude.{◌≤◌, length, vec_capacity};
    ghost use Rattle.outside_io.specs.Log.{IsFine};
    ghost use Rattle.outside_io.specs.Memory.{AreaState};

    ghost Value = { AreaState };

    ghost view = { λ a. record { stands = record { seen = a.seen.items; pending = record { synced = a.synced.items; spans = a.spans.items; least = a.least; greatest = a.greatest } }; room = a.room } };

    ghost invariant = { λ a. (a.greatest ≤ a.room) × (a.room ≤ vec_capacity a.seen) × (a.room ≤ vec_capacity a.synced) × (a.room ≤ vec_capacity a.spans) × IsFine (record { seen = a.seen.items; pending = record { synced = a.synced.items; spans = a.spans.items; least = a.least; greatest = a.greatest } }) a.seen.items };
}

/// The bytes in a vector with room for that many.
pub fn with_room(alloc: Global, bytes: &[u8], room: u64) -> Result<Vec<u8>, OutOfMemory>
    requires { length bytes.now ≤ room }
    ensures bytes { IfOk result (λ v. v.items ≡ bytes.now) }
    ensures room { IfOk result (λ v. room ≤ vec_capacity v) }
{
    let Ok(mut held) = Vec::with_capacity(alloc, room as usize) else {
        return Err(OutOfMemory);
    };
    match held.extend_from_slice(bytes) {
        Ok(()) => Ok(held),
        Err(_) => Err(OutOfMemory),
    }
}

/// Puts other bytes in a vector that has room for them.
pub fn refill(bytes: &mut Vec<u8>, other: &[u8])
    requires { length other.now ≤ vec_capacity bytes.old }
    ensures bytes { bytes.new.items ≡ other.now }
    ensures capacity { vec_capacity bytes.old ≤ vec_capacity bytes.new }
{
    bytes.clear();
    let _ = bytes.extend_from_slice(other);
}

/// Writes the piece over the bytes from `place` on, where there is room.
fn overwrite(bytes: &mut Vec<u8>, place: usize, piece: &[u8])
    requires fits { place ≤ length bytes.old.items }
    requires room { place + length piece.now ≤ vec_capacity bytes.old }
    ensures bytes { bytes.new.items ≡ overwritten place piece.now bytes.old.items }
    ensures capacity { vec_capacity bytes.old ≤ vec_capacity bytes.new }
{
    let over = piece.len().min(bytes.len() - place);
    bytes[place..place + over].copy_from_slice(&piece[..over]);
    let _ = bytes.extend_from_slice(&piece[over..]);
}

/// Adds a range where there is room.
fn add(spans: &mut Vec<Span>, span: Span)
    requires { length spans.old.items < vec_capacity spans.old }
    ensures added { spans.new.items ≡ spans.old.items ++ span ∷ [] }
    ensures capacity { vec_capacity spans.old ≤ vec_capacity spans.new }
{
    let _ = spans.push(span);
}

impl MemArea {
    /// An area with these bytes, nothing pending, and room for so many bytes and calls.
    pub fn new(alloc: Global, bytes: &[u8], room: u64) -> Result<MemArea, OutOfMemory>
        requires { length bytes.now ≤ room }
        ensures { IfOk result (λ area. area ≡ record { stands = at_rest bytes.now; room = room }) }
    {
        let seen = with_room(alloc, bytes, room)?;
        let synced = with_room(alloc, bytes, room)?;
        let Ok(spans) = Vec::with_capacity(alloc, room as usize) else {
            return Err(OutOfMemory);
        };
        Ok(MemArea {
            seen,
            synced,
            spans,
            least: bytes.len() as u64,
            greatest: bytes.len() as u64,
            room,
        })
    }

    /// The bytes that a read gives.
    pub fn seen(&self) -> &[u8]
        ensures bytes { result.now ≡ self.now.stands.seen }
        ensures fits { length result.now ≤ self.now.room }
        ensures fine { IsFine self.now.stands self.now.stands.seen }
    {
        &self.seen
    }

    /// How many bytes have room.
    pub fn room(&self) -> u64
        ensures room { result ≡ self.now.room }
        ensures fits { length self.now.stands.seen ≤ result }
    {
        self.room
    }

    /// Writes a piece that has room.
    pub fn write(&mut self, place: u64, piece: &[u8])
        requires fits { place ≤ length self.old.stands.seen }
        requires room { place + length piece.now ≤ self.old.room }
        requires few { length self.old.stands.pending.spans < self.old.room }
        ensures { self.new ≡ record { stands = after_change (Wrote place piece.now) self.old.stands; room = self.old.room } }
    {
        overwrite(&mut self.seen, place as usize, piece);
        let count = piece.len() as u64;
        add(&mut self.spans, Span { place, count });
        self.greatest = self.greatest.max(place + count);
    }

    /// Keeps the first bytes.
    pub fn cut(&mut self, most: u64)
        ensures { self.new ≡ record { stands = after_change (CutTo most) self.old.stands; room = self.old.room } }
    {
        self.seen.truncate(most as usize);
        self.least = self.least.min(most);
    }

    /// Nothing is pending any more.
    pub fn sync(&mut self)
        ensures { self.new ≡ record { stands = after_change Synced self.old.stands; room = self.old.room } }
    {
        refill(&mut self.synced, &self.seen);
        self.spans.clear();
        self.least = self.seen.len() as u64;
        self.greatest = self.seen.len() as u64;
    }

    /// Makes of the area what a crash may leave: of a length between the least and the greatest, and torn in each range
    /// that was written and past the end at the last sync, all as the seed chooses. Nothing is pending then.
    pub fn crash(&mut self, seed: u64)
        ensures possible { IsOutcome self.old.stands.pending self.new.stands.seen }
        ensures anew { self.new ≡ record { stands = at_rest self.new.stands.seen; room = self.old.room } }
    {
        let end = self.synced.len();
        let length = between(seed, self.least, self.greatest) as usize;
        let _ = self.synced.resize(length, 0);
        tear(&mut self.synced, &self.seen, &self.spans, end, seed);
        refill(&mut self.seen, &self.synced);
        self.spans.clear();
        self.least = length as u64;
        self.greatest = length as u64;
    }
}
