//! The world.

ghost use Rattle.std.specs.Prelude.{◌≡◌, ◌<◌, length};

use crate::known::Known;
use crate::rank::Rank;
use amr_num::OutOfMemory;
use block_store::{Beside, Layout};
use block_tree::Tree;
use mesh_model::{BlockValues, Shape, Var};
use std::alloc::Global;
use std::marker::Model;

/// A mesh's tree with the numbers of its nodes, in blocks of `N` cells along each axis with `G` guard cells on each side.
#[derive(Drop)]
pub struct World<const N: usize, const G: usize> {
    known: Known,
    ranks: Vec<Rank<N, G>>,
}

impl<const N: usize, const G: usize> Model for World<N, G> {
    ghost use Rattle.mesh_model.specs.Fields.Ranks.{WorldState};
    ghost use Rattle.rank_world.specs.Knowing.{told};
    ghost use Rattle.std.specs.Prelude.{◌≡◌, length};

    ghost Value = { WorldState };

    ghost view = { λ w. record { told = told w.known; ranks = w.ranks.items } };

    ghost invariant = { λ w. length w.ranks.items ≡ 1 };
}

impl<const N: usize, const G: usize> World<N, G> {
    ghost use Rattle.block_store.specs.PoolLends.{CanBeside, IsBeside};
    ghost use Rattle.block_tree.specs.GridOf.{grid_of};
    ghost use Rattle.mesh_model.specs.Fields.Arrays.{HasArray, array_in, var_length};
    ghost use Rattle.mesh_model.specs.Geometry.Limits.{IsShape};
    ghost use Rattle.mesh_model.specs.Fields.ArrayPlaces as places;
    ghost use Rattle.mesh_model.specs.Fields.ArrayPlaces.{AreIndices, IsSize, extents_of};
    ghost use Rattle.mesh_model.specs.Fields.Ranks.{IsSized, rank_at};
    ghost use Rattle.mesh_model.specs.Tree.Start.{start_grid};
    ghost use Rattle.rank_world.specs.Exchanging.{IsWorldExchanged};
    ghost use Rattle.rank_world.specs.Starting.{IsNewWorld};
    ghost use Rattle.rank_world.specs.WorldLends.{LendsOut, LendsValues};
    ghost use Rattle.std.specs.Borrow.{sem};
    ghost use Rattle.std.specs.Prelude.{IfOk};

    /// The world of the root blocks, all of whose numbers are 0.
    pub fn new(alloc: Global, shape: Shape, layout: Layout) -> Result<World<N, G>, OutOfMemory>
        requires shape { IsShape shape }
        requires sizes { IsSized N G shape }
        ensures { IfOk result (λ world. IsNewWorld N G (start_grid shape) layout world) }
    {
        let tree = Tree::roots(alloc, shape)?;
        World::on_tree(alloc, tree, layout)
    }

    /// The world of a tree, all of whose numbers are 0.
    pub fn on_tree(alloc: Global, tree: Tree, layout: Layout) -> Result<World<N, G>, OutOfMemory>
        requires { IsSized N G (grid_of tree).shape }
        ensures { IfOk result (λ world. IsNewWorld N G (grid_of tree) layout world) }
    {
        let _shape = tree.shape();
        let rank = Rank::new(alloc, 0, layout, tree.len())?;
        let mut ranks = Vec::new(alloc);
        if ranks.push(rank).is_err() {
            return Err(OutOfMemory);
        }
        let known = Known { tree, layout };
        Ok(World { known, ranks })
    }

    /// The tree.
    pub fn tree(&self) -> &Tree
        ensures { grid_of result.now ≡ self.now.told.grid }
    {
        &self.known.tree
    }

    /// How many variables there are.
    pub fn layout(&self) -> Layout
        ensures { result ≡ self.now.told.counts }
    {
        self.known.layout
    }

    /// The number of a variable of a node at block indices, which are below 0 in the guard cells before its first cell.
    pub fn value(&self, var: Var, node: u32, i: i64, j: i64, k: i64) -> i64
        requires there { HasArray (rank_at self.now 0).own.values var node }
        requires indices { AreIndices G (extents_of N G var) i j k }
        ensures { result ≡ places.number_of G (extents_of N G var) (array_in (rank_at self.now 0).own.values var node) i j k }
    {
        self.ranks[0].value(var, node, i, j, k)
    }

    /// The array of a variable of a node.
    pub fn values(&self, var: Var, node: u32) -> &[i64]
        requires { HasArray (rank_at self.now 0).own.values var node }
        ensures value { result.now ≡ array_in (rank_at self.now 0).own.values var node }
        ensures whole { length result.now ≡ var_length N G var }
        ensures size { IsSize N G }
    {
        self.ranks[0].values(var, node)
    }

    /// The array of a variable of a node, to be written.
    pub fn values_mut(&mut self, var: Var, node: u32) -> &mut [i64]
        requires { HasArray (rank_at self.old 0).own.values var node }
        ensures* lends { sem 𝓛 (LendsValues N.row G.row self.entry var node result) }
        ensures value { result.now ≡ array_in (rank_at self.old 0).own.values var node }
        ensures whole { length result.now ≡ var_length N G var }
    {
        self.ranks[0].values_mut(var, node)
    }

    /// Arrays of a node to read, and another of it to write. The arrays that are read may be one and the same.
    pub fn beside(&mut self, node: u32, reads: [Var; 4], write: Var) -> Beside<'_>
        requires { CanBeside (rank_at self.old 0).own.values node reads write }
        ensures* lends { sem 𝓛 (LendsOut N.row G.row self.entry write node result) }
        ensures reads { IsBeside N G (rank_at self.old 0).own.values node reads write result }
    {
        self.ranks[0].beside(node, reads, write)
    }

    /// Exchanges the arrays of two variables of a node, without copying them.
    pub fn exchange(&mut self, node: u32, a: Var, b: Var)
        requires a { HasArray (rank_at self.old 0).own.values a node }
        requires b { HasArray (rank_at self.old 0).own.values b node }
        requires lengths { var_length N G a ≡ var_length N G b }
        requires apart { a ≡ b → ⊥ }
        ensures { IsWorldExchanged self.old self.new node a b }
    {
        self.ranks[0].exchange(node, a, b);
    }
}

impl<const N: usize, const G: usize> BlockValues for World<N, G> {
    ghost is_there = { λ w var node i j k. HasArray (rank_at w 0).own.values var node × AreIndices G (extents_of N G var) i j k };

    ghost number = { λ w var node i j k. places.number_of G (extents_of N G var) (array_in (rank_at w 0).own.values var node) i j k };

    fn value(&self, var: Var, node: u32, i: i64, j: i64, k: i64) -> i64 {
        World::value(self, var, node, i, j, k)
    }
}

ghost use Rattle.mesh_model.specs.Fields.Arrays.{HasArray, array_in};
ghost use Rattle.mesh_model.specs.Fields.ArrayPlaces as places;
ghost use Rattle.mesh_model.specs.Fields.ArrayPlaces.{AreIndices, extents_of};
ghost use Rattle.mesh_model.specs.Fields.Ranks.{rank_at};
