//! What stands in an image before the numbers: the fields, the names and the nodes.

ghost use Rattle.std.specs.Prelude.{◌≡◌, ◌+◌, ◌<◌, ◌≤◌, ◌++◌, ◌∷◌, [], drop, length, map};
ghost use Rattle.block_tree.specs.GridOf.{grid_of};
ghost use Rattle.block_tree.specs.Marked.{IsMarksOf, derefine_of, refine_of};
ghost use Rattle.block_tree.specs.Numbered.{IsNode, block_at};
ghost use Rattle.byteorder.specs.Endian.{little_bytes};
ghost use Rattle.check_format.specs.Numbered.{IsPut};
ghost use Rattle.check_format.specs.Written as written;
ghost use Rattle.mesh_model.specs.Geometry.Limits.{IsShape};
ghost use Rattle.mesh_model.specs.Images.Image as image;
ghost use Rattle.mesh_model.specs.Tree.Kinds.{is_split_block};

use crate::names::nth_name;
use amr_num::SideKind;
use block_tree::{Marks, Tree};
use byteorder::{ByteOrder, LittleEndian};
use mesh_model::Shape;
use mesh_model::language::names::Names;

/// The byte of a side's kind.
fn side_code(kind: SideKind) -> u8
    ensures { result ≡ image.side_code kind }
{
    match kind {
        SideKind::Periodic => 0,
        SideKind::Outflow => 1,
        SideKind::Closed => 2,
    }
}

/// Puts bytes at the front of a buffer, and answers how many they are.
fn put_bytes(bytes: &[u8], buf: &mut [u8]) -> usize
    requires { length bytes.now ≤ length buf.old }
    ensures { IsPut bytes.now result buf.old buf.new }
{
    let size = bytes.len();
    buf[..size].copy_from_slice(bytes);
    size
}

/// Puts the kinds of sides at the front of a buffer.
fn put_sides(sides: &[SideKind], buf: &mut [u8]) -> usize
    requires { length sides.now ≤ length buf.old }
    ensures { IsPut (map image.side_code sides.now) result buf.old buf.new }
{
    let mut size = 0;
    for side in sides {
        size += put_bytes(&[side_code(*side)], &mut buf[size..]);
    }
    size
}

/// Puts the magic, the turn and a shape's numbers at the front of a buffer.
fn put_shape(turn: u8, shape: &Shape, buf: &mut [u8]) -> usize
    requires shape { IsShape shape.now }
    requires room { 16 ≤ length buf.old }
    ensures { IsPut (written.shape_bytes turn shape.now) result buf.old buf.new }
{
    let numbers = [
        turn,
        shape.n as u8,
        shape.g as u8,
        shape.rx as u8,
        shape.ry as u8,
        shape.rz as u8,
        shape.min as u8,
        shape.max as u8,
    ];
    let size = put_bytes(b"AMRCHK01", buf);
    size + put_bytes(&numbers, &mut buf[size..])
}

/// Puts the numbers of cell, face and edge variables at the front of a buffer.
fn put_counts(names: &Names, buf: &mut [u8]) -> usize
    requires room { 3 ≤ length buf.old }
    ensures { IsPut (written.count_bytes names.now) result buf.old buf.new }
{
    let counts = [
        names.cells() as u8,
        names.face().is_some() as u8,
        names.edge().is_some() as u8,
    ];
    put_bytes(&counts, buf)
}

/// Puts the kinds of sides and the numbers of variables at the front of a buffer.
fn put_rest(sides: &[SideKind], names: &Names, buf: &mut [u8]) -> usize
    requires six { length sides.now ≡ 6 }
    requires room { 9 ≤ length buf.old }
    ensures { IsPut (map image.side_code sides.now ++ written.count_bytes names.now) result buf.old buf.new }
{
    let size = put_sides(sides, buf);
    size + put_counts(names, &mut buf[size..])
}

/// Puts what stands before the names at the front of a buffer: 25 bytes.
pub fn put_fields(turn: u8, shape: &Shape, names: &Names, buf: &mut [u8]) -> usize
    requires shape { IsShape shape.now }
    requires room { 25 ≤ length buf.old }
    ensures put { IsPut (written.field_bytes turn shape.now names.now) result buf.old buf.new }
    ensures size { result ≡ 25 }
{
    let size = put_shape(turn, shape, buf);
    size + put_rest(&shape.sides, names, &mut buf[size..])
}

/// Puts the name at a place of all names at the front of a buffer, after its length.
pub fn put_name(names: &Names, place: u32, buf: &mut [u8]) -> usize
    requires place { place < length (written.all_names names.now) }
    requires room { 17 ≤ length buf.old }
    ensures put { IsPut (written.name_piece names.now place) result buf.old buf.new }
    ensures few { result ≤ 17 }
{
    let name = nth_name(names, place);
    buf[0] = name.len() as u8;
    1 + put_bytes(name.as_bytes(), &mut buf[1..])
}

/// Puts the number of nodes at the front of a buffer.
pub fn put_count(tree: &Tree, buf: &mut [u8]) -> usize
    requires room { 4 ≤ length buf.old }
    ensures { IsPut (written.count_piece (grid_of tree.now)) result buf.old buf.new }
{
    LittleEndian::write_u32(buf, tree.len());
    4
}

/// The byte of a node: 4 for a parent; for a leaf 1 where it is marked to be refined and 2 where it is marked to be
/// merged, and both added where it has both marks.
fn node_code(tree: &Tree, marks: &Marks, node: u32) -> u8
    requires node { IsNode (grid_of tree.now) node }
    requires marks { IsMarksOf (grid_of tree.now) marks.now }
    ensures { let g = grid_of tree.now in let b = block_at g node in
        result ≡ image.code_of (is_split_block g b) (refine_of g marks.now b) (derefine_of g marks.now b) }
{
    if !tree.is_leaf(node) {
        return 4;
    }
    let refine = if marks.refine(node) { 1 } else { 0 };
    let derefine = if marks.derefine(node) { 2 } else { 0 };
    refine + derefine
}

/// Puts the byte of a node at the front of a buffer.
pub fn put_node(tree: &Tree, marks: &Marks, node: u32, buf: &mut [u8]) -> usize
    requires node { IsNode (grid_of tree.now) node }
    requires marks { IsMarksOf (grid_of tree.now) marks.now }
    requires room { 1 ≤ length buf.old }
    ensures { let g = grid_of tree.now in
        IsPut (written.node_byte g (refine_of g marks.now) (derefine_of g marks.now) node) result buf.old buf.new }
{
    buf[0] = node_code(tree, marks, node);
    1
}
