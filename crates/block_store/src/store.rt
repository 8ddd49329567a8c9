//! Arrays by slots and numbers, of which one can be written beside others that are read.

ghost use Rattle.block_store.specs.Held.{AreExchanged, IsClearedBelow, all_numbers, numbers, pick, put};
ghost use Rattle.mesh_model.specs.Fields.Arrays.{block_in};
ghost use Rattle.std.specs.Prelude.{◌≡◌, ◌<◌, ◌≤◌, ◌++◌, ◌∷◌, [], OnErr, OnOk, length, map, replicate, set, slice_index, slice_index_or, pos, ℕ};

use amr_num::OutOfMemory;
use std::alloc::Global;
use std::marker::Model;
use std::mem::swap;

/// Where an array stands: the slot, and the array's number among those of the slot.
#[derive(Clone, Copy)]
struct Place {
    slot: usize,
    number: usize,
}

/// Arrays by slots. One of them may be in the hand, and at its place stands another; where nothing is in the hand its
/// place is beyond all slots.
#[derive(Drop)]
pub(crate) struct Store {
    blocks: Vec<Vec<Vec<i64>>>,
    hand: Vec<i64>,
    slot: usize,
    number: usize,
}

impl Model for Store {
    ghost use Rattle.std.specs.Prelude.{List, ℤ, ◌<◌, length};
    ghost use Rattle.block_store.specs.Held.{all_numbers, put};
    ghost use Rattle.mesh_model.specs.Fields.Arrays.{block_in};

    ghost Value = { List (List (List ℤ)) };

    ghost view = { λ s. put (all_numbers s.blocks.items) s.slot s.number s.hand.items };

    ghost invariant = { λ s. s.slot < length s.blocks.items → s.number < length (block_in (all_numbers s.blocks.items) s.slot) };
}

/// Exchanges an array with the hand.
fn exchange(arrays: &mut Vec<Vec<i64>>, number: usize, hand: &mut Vec<i64>)
    requires { number < length arrays.old.items }
    ensures arrays { numbers arrays.new.items ≡ set (numbers arrays.old.items) number hand.old.items }
    ensures hand { hand.new.items ≡ slice_index_or (numbers arrays.old.items) number [] }
{
    swap(&mut arrays[number], hand);
}

/// Exchanges the array of a slot with the hand.
fn exchange_in(blocks: &mut [Vec<Vec<i64>>], slot: usize, number: usize, hand: &mut Vec<i64>)
    requires slot { slot < length blocks.old }
    requires number { number < length (block_in (all_numbers blocks.old) slot) }
    ensures blocks { all_numbers blocks.new ≡ put (all_numbers blocks.old) slot number hand.old.items }
    ensures hand { hand.new.items ≡ pick (all_numbers blocks.old) slot number }
{
    exchange(&mut blocks[slot], number, hand);
}

/// Puts what is in the hand at its place.
fn put_down(blocks: &mut [Vec<Vec<i64>>], slot: usize, number: usize, hand: &mut Vec<i64>)
    requires { slot < length blocks.old → number < length (block_in (all_numbers blocks.old) slot) }
    ensures { all_numbers blocks.new ≡ put (all_numbers blocks.old) slot number hand.old.items }
{
    if slot < blocks.len() {
        exchange_in(blocks, slot, number, hand);
    }
}

/// Takes another array into the hand.
fn take_up(blocks: &mut [Vec<Vec<i64>>], hand: &mut Vec<i64>, old: Place, new: Place)
    requires old { old.slot < length blocks.old → old.number < length (block_in (all_numbers blocks.old) old.slot) }
    requires slot { new.slot < length blocks.old }
    requires number { new.number < length (block_in (all_numbers blocks.old) new.slot) }
    ensures { put (all_numbers blocks.new) new.slot new.number hand.new.items
        ≡ put (all_numbers blocks.old) old.slot old.number hand.old.items }
{
    put_down(blocks, old.slot, old.number, hand);
    exchange_in(blocks, new.slot, new.number, hand);
}

/// Exchanges two arrays of a slot: the first of them is in the hand then.
fn take_across(blocks: &mut [Vec<Vec<i64>>], hand: &mut Vec<i64>, old: Place, a: Place, b: usize)
    requires old { old.slot < length blocks.old → old.number < length (block_in (all_numbers blocks.old) old.slot) }
    requires slot { a.slot < length blocks.old }
    requires a { a.number < length (block_in (all_numbers blocks.old) a.slot) }
    requires b { b < length (block_in (all_numbers blocks.old) a.slot) }
    requires apart { a.number ≡ b → ⊥ }
    ensures { AreExchanged (put (all_numbers blocks.old) old.slot old.number hand.old.items)
        (put (all_numbers blocks.new) a.slot a.number hand.new.items) a.slot a.number b }
{
    take_up(blocks, hand, old, a);
    exchange_in(blocks, a.slot, b, hand);
}

/// An array.
fn read<'a>(blocks: &'a [Vec<Vec<i64>>], place: Place) -> &'a [i64]
    requires slot { place.slot < length blocks.now }
    requires number { place.number < length (block_in (all_numbers blocks.now) place.slot) }
    ensures { result.now ≡ pick (all_numbers blocks.now) place.slot place.number }
{
    blocks[place.slot][place.number].as_slice()
}

/// Four arrays that are read, and one that is written.
#[derive(Drop)]
pub struct Beside<'a> {
    /// The first array to read.
    pub a: &'a [i64],
    /// The second.
    pub b: &'a [i64],
    /// The third.
    pub c: &'a [i64],
    /// The fourth.
    pub d: &'a [i64],
    /// The array to write.
    pub out: &'a mut [i64],
}

impl Store {
    ghost use Rattle.block_store.specs.Lending.{LendsBeside, LendsPlace};
    ghost use Rattle.mesh_model.specs.Fields.Arrays.{with_block};
    ghost use Rattle.std.specs.Borrow.{sem};

    /// No slots.
    pub(crate) fn new(alloc: Global) -> Store
        ensures { result ≡ [] }
    {
        Store {
            blocks: Vec::new(alloc),
            hand: Vec::new(alloc),
            slot: usize::MAX,
            number: 0,
        }
    }

    /// Adds slots with their arrays, or takes none of them.
    pub(crate) fn append(&mut self, more: &mut Vec<Vec<Vec<i64>>>) -> Result<(), OutOfMemory>
        ensures added { OnOk result (self.new ≡ self.old ++ all_numbers more.old.items) }
        ensures refused { OnErr result (self.new ≡ self.old) }
    {
        put_down(
            self.blocks.as_mut_slice(),
            self.slot,
            self.number,
            &mut self.hand,
        );
        self.slot = usize::MAX;
        if self.blocks.append(more).is_err() {
            return Err(OutOfMemory);
        }
        Ok(())
    }

    /// An array.
    pub(crate) fn get(&self, slot: usize, number: usize) -> &[i64]
        requires slot { slot < length self.now }
        requires number { number < length (block_in self.now slot) }
        ensures { result.now ≡ pick self.now slot number }
    {
        if slot == self.slot && number == self.number {
            self.hand.as_slice()
        } else {
            read(self.blocks.as_slice(), Place { slot, number })
        }
    }

    /// An array to be written.
    pub(crate) fn lend(&mut self, slot: usize, number: usize) -> &mut [i64]
        requires slot { slot < length self.old }
        requires number { number < length (block_in self.old slot) }
        ensures* lends { sem 𝓛 (LendsPlace self.entry slot number result) }
        ensures value { result.now ≡ pick self.old slot number }
    {
        let old = Place {
            slot: self.slot,
            number: self.number,
        };
        take_up(
            self.blocks.as_mut_slice(),
            &mut self.hand,
            old,
            Place { slot, number },
        );
        self.slot = slot;
        self.number = number;
        self.hand.as_mut_slice()
    }

    /// Four arrays of a slot to read, and another of it to write.
    pub(crate) fn beside(&mut self, slot: usize, reads: [usize; 4], write: usize) -> Beside<'_>
        requires slot { slot < length self.old }
        requires reads { (k : ℕ) → k < 4 → slice_index reads k < length (block_in self.old slot) }
        requires write { write < length (block_in self.old slot) }
        requires apart { (k : ℕ) → k < 4 → slice_index reads k ≡ write → ⊥ }
        ensures* lends { sem 𝓛 (LendsBeside self.entry slot write result) }
        ensures a { result.a.now ≡ pick self.old slot (slice_index reads 0) }
        ensures b { result.b.now ≡ pick self.old slot (slice_index reads 1) }
        ensures c { result.c.now ≡ pick self.old slot (slice_index reads 2) }
        ensures d { result.d.now ≡ pick self.old slot (slice_index reads 3) }
        ensures out { result.out.now ≡ pick self.old slot write }
    {
        let old = Place {
            slot: self.slot,
            number: self.number,
        };
        take_up(
            self.blocks.as_mut_slice(),
            &mut self.hand,
            old,
            Place {
                slot,
                number: write,
            },
        );
        self.slot = slot;
        self.number = write;
        let [a, b, c, d] = reads;
        let arrays = self.blocks.as_slice();
        Beside {
            a: read(arrays, Place { slot, number: a }),
            b: read(arrays, Place { slot, number: b }),
            c: read(arrays, Place { slot, number: c }),
            d: read(arrays, Place { slot, number: d }),
            out: self.hand.as_mut_slice(),
        }
    }

    /// Exchanges two arrays of a slot.
    pub(crate) fn exchange(&mut self, slot: usize, a: usize, b: usize)
        requires slot { slot < length self.old }
        requires a { a < length (block_in self.old slot) }
        requires b { b < length (block_in self.old slot) }
        requires apart { a ≡ b → ⊥ }
        ensures { AreExchanged self.old self.new slot a b }
    {
        let old = Place {
            slot: self.slot,
            number: self.number,
        };
        take_across(
            self.blocks.as_mut_slice(),
            &mut self.hand,
            old,
            Place { slot, number: a },
            b,
        );
        self.slot = slot;
        self.number = a;
    }

    /// Sets the first arrays of a slot to zeros.
    pub(crate) fn clear(&mut self, slot: usize, count: usize)
        requires slot { slot < length self.old }
        requires count { count ≤ length (block_in self.old slot) }
        ensures { IsClearedBelow count self.old self.new slot }
    {
        for number in 0..count {
            self.lend(slot, number).fill(0);
        }
    }
}
