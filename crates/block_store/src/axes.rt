//! Views of arrays of faces and of edges by block indices.

use crate::places::{Extents, number_of};
use amr_num::Axis;
use mesh_model::Var;
use std::marker::Model;

/// An array of the faces normal to an axis, read by block indices: along the axis from position 0 to `N`, across it from 0
/// to `N - 1`, and `G` further on each side in the guards.
#[derive(Drop)]
pub struct Faces<'a, const N: usize, const G: usize> {
    axis: Axis,
    values: &'a [i64],
}

impl<'a, const N: usize, const G: usize> Model for Faces<'a, N, G> {
    ghost use Rattle.block_store.specs.Views.{IsArrayOn, OnAxis};
    ghost use Rattle.mesh_model.specs.declared.fields.values.Var.TheVariants.{Face};

    ghost Value = { OnAxis };

    ghost view = { λ f. record { axis = f.axis; numbers = f.values.now } };

    ghost invariant = { λ f. IsArrayOn N G (Face f.axis) f.values.now };
}

impl<'a, const N: usize, const G: usize> Faces<'a, N, G> {
    ghost use Rattle.mesh_model.specs.Fields.ArrayPlaces.{AreIndices, IsSize, face_extents, number_of as number_there, size_of};
    ghost use Rattle.std.specs.Prelude.{◌≡◌, length};

    /// The view of an array.
    pub fn new(axis: Axis, values: &'a [i64]) -> Self
        requires size { IsSize N G }
        requires whole { length values.now ≡ size_of (face_extents N G axis) }
        ensures { result ≡ record { axis = axis; numbers = values.now } }
    {
        Faces { axis, values }
    }

    /// The number at block indices.
    pub fn get(&self, i: i64, j: i64, k: i64) -> i64
        requires { AreIndices G (face_extents N G self.now.axis) i j k }
        ensures { result ≡ number_there G (face_extents N G self.now.axis) self.now.numbers i j k }
    {
        let axis = self.axis;
        let values = self.values;
        number_of(G, Extents::of(N, G, Var::Face(axis)), values, i, j, k)
    }
}

/// An array of the edges along an axis, read by block indices: across the axis from position 0 to `N`, along it from 0 to
/// `N - 1`, and `G` further on each side in the guards.
#[derive(Drop)]
pub struct Edges<'a, const N: usize, const G: usize> {
    axis: Axis,
    values: &'a [i64],
}

impl<'a, const N: usize, const G: usize> Model for Edges<'a, N, G> {
    ghost use Rattle.block_store.specs.Views.{IsArrayOn, OnAxis};
    ghost use Rattle.mesh_model.specs.declared.fields.values.Var.TheVariants.{Edge};

    ghost Value = { OnAxis };

    ghost view = { λ e. record { axis = e.axis; numbers = e.values.now } };

    ghost invariant = { λ e. IsArrayOn N G (Edge e.axis) e.values.now };
}

impl<'a, const N: usize, const G: usize> Edges<'a, N, G> {
    ghost use Rattle.mesh_model.specs.Fields.ArrayPlaces.{AreIndices, IsSize, edge_extents, number_of as number_there, size_of};
    ghost use Rattle.std.specs.Prelude.{◌≡◌, length};

    /// The view of an array.
    pub fn new(axis: Axis, values: &'a [i64]) -> Self
        requires size { IsSize N G }
        requires whole { length values.now ≡ size_of (edge_extents N G axis) }
        ensures { result ≡ record { axis = axis; numbers = values.now } }
    {
        Edges { axis, values }
    }

    /// The number at block indices.
    pub fn get(&self, i: i64, j: i64, k: i64) -> i64
        requires { AreIndices G (edge_extents N G self.now.axis) i j k }
        ensures { result ≡ number_there G (edge_extents N G self.now.axis) self.now.numbers i j k }
    {
        let axis = self.axis;
        let values = self.values;
        number_of(G, Extents::of(N, G, Var::Edge(axis)), values, i, j, k)
    }
}
