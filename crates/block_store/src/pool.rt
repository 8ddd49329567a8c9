//! The pool of arrays.

ghost use Rattle.std.specs.Prelude.{◌≡◌, ◌<◌, ◌≤◌, ℕ, count_by, false, not, true, length, slice_index_or};

use crate::layout::{Layout, array_number};
use crate::making::{push_free, zero_blocks};
use crate::store::{Beside, Store};
use amr_num::OutOfMemory;
use mesh_model::Var;
use std::alloc::Global;
use std::marker::Model;

/// The arrays of blocks of `N` cells along each axis with `G` guard cells on each side, by slots. A slot that is taken
/// has an array for each variable of the layout and all work arrays.
#[derive(Drop)]
pub struct Pool<const N: usize, const G: usize> {
    alloc: Global,
    layout: Layout,
    /// The arrays of a slot that is free are zeros.
    store: Store,
    taken: Vec<bool>,
    spare: u32,
    /// No slot before it is free.
    first: usize,
}

impl<const N: usize, const G: usize> Model for Pool<N, G> {
    ghost use Rattle.block_store.specs.Pools.{IsPool};
    ghost use Rattle.mesh_model.specs.Fields.Arrays.{Arrays};

    ghost Value = { Arrays };

    ghost view = { λ p. record { counts = p.layout; held = p.taken.items; blocks = p.store } };

    ghost invariant = { λ p. IsPool N G (record { counts = p.layout; held = p.taken.items; blocks = p.store }) p.spare p.first };
}

/// The first slot that is free.
fn first_free(taken: &[bool], first: usize) -> usize
    requires some { 0 < count_by not taken.now }
    requires first { (slot : ℕ) → slot < first → slice_index_or taken.now slot false ≡ true }
    ensures free { slice_index_or taken.now result false ≡ false }
    ensures inside { result < length taken.now }
    ensures first { (slot : ℕ) → slot < result → slice_index_or taken.now slot false ≡ true }
{
    for slot in first..taken.len() {
        if !taken[slot] {
            return slot;
        }
    }
    unreachable!()
}

impl<const N: usize, const G: usize> Pool<N, G> {
    ghost use Rattle.block_store.specs.PoolLends.{CanBeside, IsBeside, LendsArray, LendsOut};
    ghost use Rattle.block_store.specs.Pools.{IsExchanged, IsGivenBack, IsTaken, KeepsArrays, no_arrays, spare_of};
    ghost use Rattle.mesh_model.specs.Fields.Arrays.{HasArray, IsHeld, array_in, var_length};
    ghost use Rattle.mesh_model.specs.Fields.ArrayPlaces.{IsSize};
    ghost use Rattle.std.specs.Borrow.{sem};
    ghost use Rattle.std.specs.Prelude.{IfOk, OnErr, OnOk};

    /// A pool without slots.
    pub fn new(alloc: Global, layout: Layout) -> Result<Pool<N, G>, OutOfMemory>
        requires { IsSize N G }
        ensures { IfOk result (λ pool. pool ≡ no_arrays layout) }
    {
        Ok(Pool {
            alloc,
            layout,
            store: Store::new(alloc),
            taken: Vec::new(alloc),
            spare: 0,
            first: 0,
        })
    }

    /// Makes sure that at least `more` slots are free.
    pub fn reserve(&mut self, more: u32) -> Result<(), OutOfMemory>
        ensures spare { OnOk result (more ≤ spare_of self.new) }
        ensures keeps { KeepsArrays self.old self.new }
        ensures refused { OnErr result (self.new ≡ self.old) }
    {
        if more <= self.spare {
            return Ok(());
        }
        let missing = more - self.spare;
        if self.taken.len() > (u32::MAX - missing) as usize {
            return Err(OutOfMemory);
        }
        let mut fresh = zero_blocks(self.alloc, N, G, self.layout, missing)?;
        if self.taken.reserve(missing as usize).is_err() {
            return Err(OutOfMemory);
        }
        self.store.append(&mut fresh)?;
        push_free(&mut self.taken, missing);
        self.spare = more;
        Ok(())
    }

    /// How many slots are free.
    pub fn spare(&self) -> u32
        ensures { result ≡ spare_of self.now }
    {
        self.spare
    }

    /// Takes a free slot for a node. Its arrays are zeros.
    pub fn take(&mut self, _node: u32) -> u32
        requires { 0 < spare_of self.old }
        ensures { IsTaken N G self.old self.new result }
    {
        let slot = first_free(self.taken.as_slice(), self.first);
        self.taken[slot] = true;
        self.spare -= 1;
        self.first = slot + 1;
        slot as u32
    }

    /// Gives a slot back.
    pub fn give_back(&mut self, slot: u32)
        requires { IsHeld self.old slot }
        ensures { IsGivenBack self.old self.new slot }
    {
        let slot = slot as usize;
        self.store.clear(slot, self.layout.arrays());
        self.taken[slot] = false;
        self.spare += 1;
        self.first = self.first.min(slot);
    }

    /// The array of a variable in a slot.
    pub fn values(&self, var: Var, slot: u32) -> &[i64]
        requires { HasArray self.now var slot }
        ensures value { result.now ≡ array_in self.now var slot }
        ensures whole { length result.now ≡ var_length N G var }
        ensures size { IsSize N G }
    {
        self.store.get(slot as usize, array_number(var))
    }

    /// The array of a variable in a slot, to be written.
    pub fn values_mut(&mut self, var: Var, slot: u32) -> &mut [i64]
        requires { HasArray self.old var slot }
        ensures* lends { sem 𝓛 (LendsArray N.row G.row self.entry var slot result) }
        ensures value { result.now ≡ array_in self.old var slot }
        ensures whole { length result.now ≡ var_length N G var }
    {
        self.store.lend(slot as usize, array_number(var))
    }

    /// Arrays of a slot to read, and another of it to write. The arrays that are read may be one and the same.
    pub fn beside(&mut self, slot: u32, reads: [Var; 4], write: Var) -> Beside<'_>
        requires { CanBeside self.old slot reads write }
        ensures* lends { sem 𝓛 (LendsOut N.row G.row self.entry write slot result) }
        ensures reads { IsBeside N G self.old slot reads write result }
    {
        let [a, b, c, d] = reads;
        let numbers = [
            array_number(a),
            array_number(b),
            array_number(c),
            array_number(d),
        ];
        self.store
            .beside(slot as usize, numbers, array_number(write))
    }
    /// Exchanges the arrays of two variables in a slot, without copying them.
    pub fn exchange(&mut self, slot: u32, a: Var, b: Var)
        requires a { HasArray self.old a slot }
        requires b { HasArray self.old b slot }
        requires lengths { var_length N G a ≡ var_length N G b }
        requires apart { a ≡ b → ⊥ }
        ensures { IsExchanged self.old self.new slot a b }
    {
        self.store
            .exchange(slot as usize, array_number(a), array_number(b));
    }
}
