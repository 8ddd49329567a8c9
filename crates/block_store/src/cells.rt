//! Views of arrays by block indices.

use crate::places::{Extents, number_of};
use std::marker::Model;

/// An array of cells, read by block indices: from 0 to `N - 1` on the cells, from `-G` on in the guard cells before them,
/// and to `N + G - 1` in those after them.
#[derive(Drop)]
pub struct Cells<'a, const N: usize, const G: usize> {
    values: &'a [i64],
}

impl<'a, const N: usize, const G: usize> Model for Cells<'a, N, G> {
    ghost use Rattle.std.specs.Prelude.{List, ℤ};
    ghost use Rattle.block_store.specs.Views.{IsArrayOfCells};

    ghost Value = { List ℤ };

    ghost view = { λ c. c.values.now };

    ghost invariant = { λ c. IsArrayOfCells N G c.values.now };
}

impl<'a, const N: usize, const G: usize> Cells<'a, N, G> {
    ghost use Rattle.mesh_model.specs.Fields.ArrayPlaces.{AreIndices, IsSize, cell_extents, number_of as number_there, size_of};
    ghost use Rattle.std.specs.Prelude.{◌≡◌, length};

    /// The view of an array.
    pub fn new(values: &'a [i64]) -> Self
        requires size { IsSize N G }
        requires whole { length values.now ≡ size_of (cell_extents N G) }
        ensures { result ≡ values.now }
    {
        Cells { values }
    }

    /// The array.
    #[inline]
    pub fn values(&self) -> &'a [i64]
        ensures value { result.now ≡ self.now }
        ensures size { IsSize N G }
        ensures whole { length result.now ≡ size_of (cell_extents N G) }
    {
        self.values
    }

    /// The number at block indices.
    pub fn get(&self, i: i64, j: i64, k: i64) -> i64
        requires { AreIndices G (cell_extents N G) i j k }
        ensures { result ≡ number_there G (cell_extents N G) self.now i j k }
    {
        let values = self.values;
        number_of(G, Extents::of_cells(N, G), values, i, j, k)
    }
}
