//! The numbers of leaves as bytes, in parts of rows over x.

ghost use Rattle.std.specs.Prelude.{◌≡◌, ◌*◌, ◌+◌, ◌-◌, ◌<◌, ◌≤◌, length, true};
ghost use Rattle.block_tree.specs.GridOf.{grid_of};
ghost use Rattle.block_tree.specs.Interior.{HasInterior, array_on};
ghost use Rattle.block_tree.specs.Numbered.{IsNode, block_at};
ghost use Rattle.check_format.specs.Numbered.{IsPut};
ghost use Rattle.check_format.specs.Own.{IsOwn, place};
ghost use Rattle.check_format.specs.Written as written;
ghost use Rattle.mesh_model.specs.Tree.Kinds.{is_leaf_block};
ghost use Rattle.amr_num.specs.declared.Axis.TheVariants as axes;

use crate::own::Own;
use amr_num::Axis;
use block_tree::{Tree, array_on, places_along};
use byteorder::{ByteOrder, LittleEndian};
use mesh_model::{BlockValues, Group};

/// A row over x of a leaf's array.
#[derive(Clone, Copy)]
pub struct Row {
    /// The group of the array.
    pub group: Group,
    /// The axis of the array.
    pub axis: Axis,
    /// The leaf.
    pub node: u32,
    /// The place of the row on z.
    pub k: u32,
    /// The place of the row on y.
    pub j: u32,
}

impl Row {
    /// Whether the number at the place `i` on x is written under the leaf.
    pub fn is_own(&self, tree: &Tree, own: &Own, i: u32) -> bool
        requires own { let g = grid_of tree.now in IsOwn g (block_at g self.now.node) own.now }
        ensures { let g = grid_of tree.now in
            result ≡ written.is_own_place self.now.group g (block_at g self.now.node) self.now.axis (place i self.now.j self.now.k) }
    {
        let n = tree.shape().n;
        match self.group {
            Group::Cell(_) => true,
            Group::Face => own.has_face(n, self.axis, i, self.j, self.k),
            Group::Edge => own.has_edge(n, self.axis, i, self.j, self.k),
        }
    }

    /// Puts the number at a place at the front of a buffer, where it is written under the leaf, and answers how many
    /// bytes it has.
    fn put_place<V: BlockValues>(
        &self,
        tree: &Tree,
        values: &V,
        own: &Own,
        i: u32,
        buf: &mut [u8],
    ) -> usize
        requires own { let g = grid_of tree.now in IsOwn g (block_at g self.now.node) own.now }
        requires node { IsNode (grid_of tree.now) self.now.node }
        requires leaf { let g = grid_of tree.now in is_leaf_block g (block_at g self.now.node) ≡ true }
        requires there { HasInterior (V.is_there values.now) (grid_of tree.now) self.now.group }
        requires x { i < written.many (grid_of tree.now) self.now.group self.now.axis axes.X }
        requires y { self.now.j < written.many (grid_of tree.now) self.now.group self.now.axis axes.Y }
        requires z { self.now.k < written.many (grid_of tree.now) self.now.group self.now.axis axes.Z }
        requires room { 8 ≤ length buf.old }
        ensures put { IsPut (written.place_bytes (grid_of tree.now) (V.number values.now) self.now.group self.now.node self.now.axis self.now.k self.now.j i)
            result buf.old buf.new }
        ensures few { result ≤ 8 }
    {
        if !self.is_own(tree, own, i) {
            return 0;
        }
        let var = array_on(self.group, self.axis);
        let number = values.value(var, self.node, i as i64, self.j as i64, self.k as i64);
        LittleEndian::write_i64(buf, number);
        8
    }

    /// Puts the numbers of a part of the row, of five places, at the front of a buffer, and answers how many bytes they
    /// have.
    fn put_part<V: BlockValues>(
        &self,
        tree: &Tree,
        values: &V,
        own: &Own,
        part: u32,
        buf: &mut [u8],
    ) -> usize
        requires own { let g = grid_of tree.now in IsOwn g (block_at g self.now.node) own.now }
        requires node { IsNode (grid_of tree.now) self.now.node }
        requires leaf { let g = grid_of tree.now in is_leaf_block g (block_at g self.now.node) ≡ true }
        requires there { HasInterior (V.is_there values.now) (grid_of tree.now) self.now.group }
        requires y { self.now.j < written.many (grid_of tree.now) self.now.group self.now.axis axes.Y }
        requires z { self.now.k < written.many (grid_of tree.now) self.now.group self.now.axis axes.Z }
        requires part { part < 2 }
        requires room { 40 ≤ length buf.old }
        ensures put { IsPut (written.row_part (grid_of tree.now) (V.number values.now) self.now.group self.now.node self.now.axis self.now.k self.now.j part)
            result buf.old buf.new }
        ensures few { result ≤ 40 }
    {
        let many = places_along(tree.shape().n, array_on(self.group, self.axis), Axis::X);
        let first = 5 * part;
        if first >= many {
            return 0;
        }
        let mut size = 0;
        for i in first..many.min(first + 5) {
            size += self.put_place(tree, values, own, i, &mut buf[size..]);
        }
        size
    }

    /// Puts a piece of the row at the front of a buffer: a part of it, where there is such a row in the array.
    pub fn put_piece<V: BlockValues>(
        &self,
        tree: &Tree,
        values: &V,
        own: &Own,
        part: u32,
        buf: &mut [u8],
    ) -> usize
        requires own { let g = grid_of tree.now in IsOwn g (block_at g self.now.node) own.now }
        requires node { IsNode (grid_of tree.now) self.now.node }
        requires leaf { let g = grid_of tree.now in is_leaf_block g (block_at g self.now.node) ≡ true }
        requires there { HasInterior (V.is_there values.now) (grid_of tree.now) self.now.group }
        requires part { part < 2 }
        requires room { 40 ≤ length buf.old }
        ensures put { IsPut (written.row_piece (grid_of tree.now) (V.number values.now) self.now.group self.now.node self.now.axis self.now.k self.now.j part)
            result buf.old buf.new }
        ensures few { result ≤ 40 }
    {
        let n = tree.shape().n;
        let var = array_on(self.group, self.axis);
        if self.j >= places_along(n, var, Axis::Y) || self.k >= places_along(n, var, Axis::Z) {
            return 0;
        }
        self.put_part(tree, values, own, part, buf)
    }
}
