// The two areas of a disk in memory.
ghost use Rattle.outside_io.specs.Areas.{bytes_of};
ghost use Rattle.outside_io.specs.Log.{Wrote, CutTo, Synced, IsLeft, IsSound, begun, changed, seen_of};
ghost use Rattle.std.specs.Prelude.{◌≡◌, ◌+◌, ◌<◌, ◌≤◌, length, IfOk};

use crate::disk::Area;
use crate::memory_area::MemArea;
use crate::pending::mixed;
use amr_num::OutOfMemory;
use std::alloc::Global;
use std::marker::Model;

/// Both areas, with the same room.
#[derive(Drop)]
pub struct MemAreas {
    a: MemArea,
    b: MemArea,
}

impl Model for MemAreas {
    ghost use Rattle.std.specs.Prelude.{◌≡◌};
    ghost use Rattle.outside_io.specs.Memory.{AreasState};

    ghost Value = { AreasState };

    ghost view = { λ m. record { both = record { a = m.a.stands; b = m.b.stands }; room = m.a.room } };

    ghost invariant = { λ m. m.b.room ≡ m.a.room };
}

impl MemAreas {
    /// Areas with these bytes, nothing pending, and room for so many bytes and calls in each.
    pub fn new(alloc: Global, a: &[u8], b: &[u8], room: u64) -> Result<MemAreas, OutOfMemory>
        requires a { length a.now ≤ room }
        requires b { length b.now ≤ room }
        ensures { IfOk result (λ m. m ≡ record { both = begun (record { a = a.now; b = b.now }); room = room }) }
    {
        Ok(MemAreas {
            a: MemArea::new(alloc, a, room)?,
            b: MemArea::new(alloc, b, room)?,
        })
    }

    /// The bytes that a read gives of an area.
    pub fn seen(&self, area: Area) -> &[u8]
        ensures bytes { result.now ≡ bytes_of (seen_of self.now.both) area }
        ensures fits { length result.now ≤ self.now.room }
    {
        match area {
            Area::A => self.a.seen(),
            Area::B => self.b.seen(),
        }
    }

    /// How many bytes have room in each area.
    pub fn room(&self) -> u64
        ensures room { result ≡ self.now.room }
        ensures a { length (seen_of self.now.both).a ≤ result }
        ensures b { length (seen_of self.now.both).b ≤ result }
    {
        self.a.room().max(self.b.room())
    }

    /// What a read gives is one of the outcomes of a crash.
    pub fn is_sound(&self)
        ensures { IsSound self.now.both (seen_of self.now.both) }
    {
        let _ = self.a.seen();
        let _ = self.b.seen();
    }

    /// Writes a piece that has room.
    pub fn write(&mut self, area: Area, place: u64, piece: &[u8])
        requires fits { place ≤ length (bytes_of (seen_of self.old.both) area) }
        requires room { place + length piece.now ≤ self.old.room }
        requires few_a { length self.old.both.a.pending.spans < self.old.room }
        requires few_b { length self.old.both.b.pending.spans < self.old.room }
        ensures { self.new ≡ record { both = changed area (Wrote place piece.now) self.old.both; room = self.old.room } }
    {
        match area {
            Area::A => self.a.write(place, piece),
            Area::B => self.b.write(place, piece),
        }
    }

    /// Keeps the first bytes of an area.
    pub fn cut(&mut self, area: Area, most: u64)
        ensures { self.new ≡ record { both = changed area (CutTo most) self.old.both; room = self.old.room } }
    {
        match area {
            Area::A => self.a.cut(most),
            Area::B => self.b.cut(most),
        }
    }

    /// Nothing is pending in an area any more.
    pub fn sync(&mut self, area: Area)
        ensures { self.new ≡ record { both = changed area Synced self.old.both; room = self.old.room } }
    {
        match area {
            Area::A => self.a.sync(),
            Area::B => self.b.sync(),
        }
    }

    /// Makes of both areas what a crash may leave, as the seed chooses.
    pub fn crash(&mut self, seed: u64)
        ensures possible { IsLeft self.old.both (seen_of self.new.both) }
        ensures anew { self.new ≡ record { both = begun (seen_of self.new.both); room = self.old.room } }
    {
        self.a.crash(seed);
        self.b.crash(mixed(seed, 1));
    }
}
