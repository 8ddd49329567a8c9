//! A rank.

ghost use Rattle.std.specs.Prelude.{◌≡◌, ◌<◌, length};

use crate::taking::take_slots;
use amr_num::OutOfMemory;
use block_store::{Beside, Extents, Layout, Pool, number_of};
use mesh_model::Var;
use std::alloc::Global;
use std::marker::Model;

/// A rank: the arrays of the nodes that it holds, in blocks of `N` cells along each axis with `G` guard cells on each side.
#[derive(Drop)]
pub struct Rank<const N: usize, const G: usize> {
    id: u32,
    pool: Pool<N, G>,
    /// The slot of each node.
    slots: Vec<u32>,
}

impl<const N: usize, const G: usize> Model for Rank<N, G> {
    ghost use Rattle.mesh_model.specs.Fields.Ranks.{RankState};
    ghost use Rattle.rank_world.specs.Slots.{AreSlots, by_node};

    ghost Value = { RankState };

    ghost view = { λ r. record { id = r.id; own = record { values = by_node r.pool r.slots.items } } };

    ghost invariant = { λ r. AreSlots r.pool r.slots.items };
}

impl<const N: usize, const G: usize> Rank<N, G> {
    ghost use Rattle.block_store.specs.PoolLends.{CanBeside, IsBeside};
    ghost use Rattle.mesh_model.specs.Fields.Arrays.{HasArray, array_in, var_length};
    ghost use Rattle.mesh_model.specs.Fields.ArrayPlaces.{AreIndices, IsSize, extents_of};
    ghost use Rattle.mesh_model.specs.Fields.ArrayPlaces as places;
    ghost use Rattle.rank_world.specs.Exchanging.{IsRankExchanged};
    ghost use Rattle.rank_world.specs.RankLends.{LendsOut, LendsValues};
    ghost use Rattle.rank_world.specs.Starting.{IsNewRank};
    ghost use Rattle.std.specs.Borrow.{sem};
    ghost use Rattle.std.specs.Prelude.{IfOk};

    /// A rank that holds so many nodes, the numbers of whose arrays are 0.
    pub(crate) fn new(
        alloc: Global,
        id: u32,
        layout: Layout,
        nodes: u32,
    ) -> Result<Rank<N, G>, OutOfMemory>
        requires { IsSize N G }
        ensures { IfOk result (λ rank. IsNewRank N G id layout nodes rank) }
    {
        let mut pool = Pool::new(alloc, layout)?;
        pool.reserve(nodes)?;
        let slots = take_slots(alloc, &mut pool, nodes)?;
        Ok(Rank { id, pool, slots })
    }

    /// Its number.
    pub fn id(&self) -> u32
        ensures { result ≡ self.now.id }
    {
        self.id
    }

    /// The array of a variable of a node that it holds.
    pub fn values(&self, var: Var, node: u32) -> &[i64]
        requires { HasArray self.now.own.values var node }
        ensures value { result.now ≡ array_in self.now.own.values var node }
        ensures whole { length result.now ≡ var_length N G var }
        ensures size { IsSize N G }
    {
        self.pool.values(var, self.slots[node as usize])
    }

    /// The array of a variable of a node, to be written.
    pub fn values_mut(&mut self, var: Var, node: u32) -> &mut [i64]
        requires { HasArray self.old.own.values var node }
        ensures* lends { sem 𝓛 (LendsValues N.row G.row self.entry var node result) }
        ensures value { result.now ≡ array_in self.old.own.values var node }
        ensures whole { length result.now ≡ var_length N G var }
    {
        let slot = self.slots[node as usize];
        self.pool.values_mut(var, slot)
    }

    /// Arrays of a node to read, and another of it to write. The arrays that are read may be one and the same.
    pub fn beside(&mut self, node: u32, reads: [Var; 4], write: Var) -> Beside<'_>
        requires { CanBeside self.old.own.values node reads write }
        ensures* lends { sem 𝓛 (LendsOut N.row G.row self.entry write node result) }
        ensures reads { IsBeside N G self.old.own.values node reads write result }
    {
        let slot = self.slots[node as usize];
        self.pool.beside(slot, reads, write)
    }

    /// Exchanges the arrays of two variables of a node, without copying them.
    pub fn exchange(&mut self, node: u32, a: Var, b: Var)
        requires a { HasArray self.old.own.values a node }
        requires b { HasArray self.old.own.values b node }
        requires lengths { var_length N G a ≡ var_length N G b }
        requires apart { a ≡ b → ⊥ }
        ensures { IsRankExchanged self.old self.new node a b }
    {
        let slot = self.slots[node as usize];
        self.pool.exchange(slot, a, b);
    }

    /// The number of a variable of a node at block indices, which are below 0 in the guard cells before its first cell.
    pub fn value(&self, var: Var, node: u32, i: i64, j: i64, k: i64) -> i64
        requires there { HasArray self.now.own.values var node }
        requires indices { AreIndices G (extents_of N G var) i j k }
        ensures { result ≡ places.number_of G (extents_of N G var) (array_in self.now.own.values var node) i j k }
    {
        let values = self.values(var, node);
        number_of(G, Extents::of(N, G, var), values, i, j, k)
    }
}
