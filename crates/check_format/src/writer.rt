//! The image of a mesh, some bytes at a time.

ghost use Rattle.std.specs.Prelude.{◌≡◌, ◌*◌, ◌+◌, ◌-◌, ◌++◌, ◌<◌, ◌≤◌, ◌↔◌, ℕ, ℤ, [], IfSome, false, flat_map, is_some, length, pos, slice_index_or, take, true, List};
ghost use Rattle.std.specs.List.{range_with_len};
ghost use Rattle.block_tree.specs.GridOf.{grid_of};
ghost use Rattle.block_tree.specs.Marked.{IsMarksOf, derefine_of, refine_of};
ghost use Rattle.check_format.specs.Numbered.{IsPut};
ghost use Rattle.check_format.specs.Written as written;
ghost use Rattle.check_format.specs.Writing.{HasNumbers, IsOfGrid, IsWriter, StandsFor, handed, left};
ghost use Rattle.mesh_model.specs.Fields.Plain.{Mesh};
ghost use Rattle.mesh_model.specs.Fields.Valid.{ValidMesh};
ghost use Rattle.mesh_model.specs.Geometry.Limits.{IsShape};
ghost use Rattle.mesh_model.specs.Images.Image as images;
ghost use Rattle.mesh_model.specs.Tree.Kinds.{Grid};
ghost use Rattle.check_format.specs.Written.{Numbers};
ghost use Rattle.mesh_model.specs.declared.fields.values.Group.TheVariants as groups;

use crate::head::{put_count, put_fields, put_name, put_node};
use crate::leaves::{LastLeaf, group_count, put_group};
use crate::names::name_count;
use block_tree::{Marks, Tree};
use byteorder::{ByteOrder, LittleEndian};
use mesh_model::language::names::Names;
use mesh_model::{BlockValues, Group, Shape};
use sha2::{Digest, Sha256};

/// How many pieces stand before the numbers: the fields, each name, the number of nodes, and each node.
fn head_count(tree: &Tree, names: &Names) -> u32
    ensures value { result ≡ (written.head_pieces 0 (grid_of tree.now) names.now (λ b. false) (λ b. false)).count }
    ensures few { result ≤ 8200 }
{
    1 + name_count(names) + 1 + tree.len()
}

/// How many pieces a cell variable has: what has flowed out, and its contents.
fn variable_count(tree: &Tree) -> u32
    ensures value { result ≡ written.variable_count (grid_of tree.now) }
    ensures few { result ≤ 1 + 8192 * 486 }
{
    1 + group_count(tree, Group::Cell(0))
}

/// How many pieces the cell variables have.
fn cell_count(tree: &Tree, names: &Names) -> u32
    ensures value { (outs : List ℤ) (number : Numbers) → result ≡ (written.cell_pieces (grid_of tree.now) names.now outs number).count }
    ensures few { result ≤ 4 * (1 + 8192 * 486) }
{
    names.cells() * variable_count(tree)
}

/// How many pieces the face variable has, where it is declared.
fn face_count(tree: &Tree, names: &Names) -> u32
    ensures value { (number : Numbers) → result ≡ (written.if_declared names.now.face (written.group_pieces (grid_of tree.now) number groups.Face)).count }
    ensures few { result ≤ 8192 * 486 }
{
    if names.face().is_some() {
        group_count(tree, Group::Face)
    } else {
        0
    }
}

/// How many pieces the edge variable has, where it is declared.
fn edge_count(tree: &Tree, names: &Names) -> u32
    ensures value { (number : Numbers) → result ≡ (written.if_declared names.now.edge (written.group_pieces (grid_of tree.now) number groups.Edge)).count }
    ensures few { result ≤ 8192 * 486 }
{
    if names.edge().is_some() {
        group_count(tree, Group::Edge)
    } else {
        0
    }
}

/// How many pieces there are.
fn piece_count(tree: &Tree, names: &Names) -> u32
    ensures value { (turn : ℕ) (marks : Marks) (outs : List ℤ) (number : Numbers)
        → result ≡ (written.image_pieces (handed turn tree.now marks names.now outs number)).count }
{
    let faces_and_edges = face_count(tree, names) + edge_count(tree, names);
    head_count(tree, names) + (cell_count(tree, names) + faces_and_edges)
}

/// Puts a piece before the numbers at the front of a buffer, and answers how many bytes it has.
fn put_head(
    turn: u8,
    tree: &Tree,
    marks: &Marks,
    names: &Names,
    number: u32,
    buf: &mut [u8],
) -> usize
    requires marks { IsMarksOf (grid_of tree.now) marks.now }
    requires number { let g = grid_of tree.now in number < (written.head_pieces turn g names.now (refine_of g marks.now) (derefine_of g marks.now)).count }
    requires room { 64 ≤ length buf.old }
    ensures put { let g = grid_of tree.now in
        IsPut ((written.head_pieces turn g names.now (refine_of g marks.now) (derefine_of g marks.now)).piece number) result buf.old buf.new }
    ensures few { result ≤ 64 }
{
    let count = name_count(names);
    if number < 1 {
        put_fields(turn, &tree.shape(), names, buf)
    } else if number - 1 < count {
        put_name(names, number - 1, buf)
    } else if number - 1 - count < 1 {
        put_count(tree, buf)
    } else {
        put_node(tree, marks, number - 1 - count - 1, buf)
    }
}

/// Puts what has flowed out of a variable at the front of a buffer.
fn put_out(outs: &[i128], var: u32, buf: &mut [u8]) -> usize
    requires var { var < length outs.now }
    requires room { 64 ≤ length buf.old }
    ensures put { IsPut (images.out_bytes (slice_index_or outs.now var (pos 0))) result buf.old buf.new }
    ensures few { result ≤ 64 }
{
    LittleEndian::write_i128(buf, outs[var as usize]);
    16
}

/// Puts a piece of the cell variables at the front of a buffer, and answers how many bytes it has.
fn put_cells<V: BlockValues>(
    tree: &Tree,
    names: &Names,
    outs: &[i128],
    values: &V,
    last: &mut Option<LastLeaf>,
    number: u32,
    buf: &mut [u8],
) -> usize
    requires last { IsOfGrid (grid_of tree.now) last.old }
    requires there { HasNumbers (V.is_there values.now) (grid_of tree.now) names.now }
    requires outs { length outs.now ≡ length names.now.cells }
    requires number { number < (written.cell_pieces (grid_of tree.now) names.now outs.now (V.number values.now)).count }
    requires room { 64 ≤ length buf.old }
    ensures put { IsPut ((written.cell_pieces (grid_of tree.now) names.now outs.now (V.number values.now)).piece number) result buf.old buf.new }
    ensures few { result ≤ 64 }
    ensures last { IsOfGrid (grid_of tree.now) last.new }
{
    let many = variable_count(tree);
    let var = number / many;
    let place = number % many;
    if place < 1 {
        return put_out(outs, var, buf);
    }
    put_group(tree, values, last, Group::Cell(var), place - 1, buf)
}

/// Puts a piece of the numbers at the front of a buffer, and answers how many bytes it has.
fn put_numbers<V: BlockValues>(
    tree: &Tree,
    names: &Names,
    outs: &[i128],
    values: &V,
    last: &mut Option<LastLeaf>,
    number: u32,
    buf: &mut [u8],
) -> usize
    requires last { IsOfGrid (grid_of tree.now) last.old }
    requires there { HasNumbers (V.is_there values.now) (grid_of tree.now) names.now }
    requires outs { length outs.now ≡ length names.now.cells }
    requires number { number < (written.number_pieces (grid_of tree.now) names.now outs.now (V.number values.now)).count }
    requires room { 64 ≤ length buf.old }
    ensures put { IsPut ((written.number_pieces (grid_of tree.now) names.now outs.now (V.number values.now)).piece number) result buf.old buf.new }
    ensures few { result ≤ 64 }
    ensures last { IsOfGrid (grid_of tree.now) last.new }
{
    let cells = cell_count(tree, names);
    if number < cells {
        return put_cells(tree, names, outs, values, last, number, buf);
    }
    let number = number - cells;
    let faces = face_count(tree, names);
    if number < faces {
        put_group(tree, values, last, Group::Face, number, buf)
    } else {
        put_group(tree, values, last, Group::Edge, number - faces, buf)
    }
}

/// Puts a digest at the front of a buffer.
fn put_digest(digest: &[u8; 32], buf: &mut [u8])
    requires { 64 ≤ length buf.old }
    ensures { take 32 buf.new ≡ digest.now }
{
    buf[..32].copy_from_slice(digest);
}

/// The most bytes that a call gives.
const MOST_BYTES: usize = 65536;

/// How far the writing of the image of a mesh came.
#[derive(Drop)]
pub struct ImageWriter {
    shape: Shape,
    turn: u8,
    /// The number of the next piece.
    next: u32,
    /// Whether the digest was given.
    ended: bool,
    last: Option<LastLeaf>,
    hasher: Sha256,
}

impl ImageWriter {
    /// A writer of the image, with a turn of 0 to 2, of a mesh of this shape, of which nothing is written.
    pub fn new(shape: Shape, turn: u8) -> ImageWriter
        requires shape { IsShape shape }
        requires turn { turn ≤ 2 }
        ensures shape { result.shape ≡ shape }
        ensures turn { result.turn ≡ turn }
        ensures writer { (m : Mesh) → IsWriter m result }
        ensures left { (m : Mesh) → ValidMesh m → left m result ≡ images.image m turn }
        ensures last { (g : Grid) → IsOfGrid g result.last }
    {
        ImageWriter {
            shape,
            turn,
            next: 0,
            ended: false,
            last: None,
            hasher: Sha256::new(),
        }
    }

    /// Puts the piece with a number at the front of a buffer, and answers how many bytes it has.
    fn put_piece<V: BlockValues>(
        &mut self,
        tree: &Tree,
        marks: &Marks,
        names: &Names,
        outs: &[i128],
        values: &V,
        number: u32,
        buf: &mut [u8],
    ) -> usize
        requires last { IsOfGrid (grid_of tree.now) self.old.last }
        requires marks { IsMarksOf (grid_of tree.now) marks.now }
        requires there { HasNumbers (V.is_there values.now) (grid_of tree.now) names.now }
        requires outs { length outs.now ≡ length names.now.cells }
        requires number { number < (written.image_pieces (handed self.old.turn tree.now marks.now names.now outs.now (V.number values.now))).count }
        requires room { 64 ≤ length buf.old }
        ensures put { IsPut ((written.image_pieces (handed self.old.turn tree.now marks.now names.now outs.now (V.number values.now))).piece number) result buf.old buf.new }
        ensures few { result ≤ 64 }
        ensures last { IsOfGrid (grid_of tree.now) self.new.last }
        ensures all { self.new ≡ record self.old { last = self.new.last } }
    {
        let head = head_count(tree, names);
        if number < head {
            return put_head(self.turn, tree, marks, names, number, buf);
        }
        put_numbers(
            tree,
            names,
            outs,
            values,
            &mut self.last,
            number - head,
            buf,
        )
    }

    /// Puts pieces at the front of a buffer, one after the other, as many as there is room for, and answers how many
    /// bytes they have.
    fn fill<V: BlockValues>(
        &mut self,
        tree: &Tree,
        marks: &Marks,
        names: &Names,
        outs: &[i128],
        values: &V,
        buf: &mut [u8],
    ) -> usize
        requires last { IsOfGrid (grid_of tree.now) self.old.last }
        requires marks { IsMarksOf (grid_of tree.now) marks.now }
        requires there { HasNumbers (V.is_there values.now) (grid_of tree.now) names.now }
        requires outs { length outs.now ≡ length names.now.cells }
        requires room { 64 ≤ length buf.old }
        ensures bytes { take result buf.new ≡ flat_map (written.image_pieces (handed self.old.turn tree.now marks.now names.now outs.now (V.number values.now))).piece
            (range_with_len self.old.next (self.new.next - self.old.next)) }
        ensures size { result ≤ length buf.new }
        ensures few { result ≤ 65536 }
        ensures on { self.old.next ≤ self.new.next }
        ensures within { self.old.next ≤ (written.image_pieces (handed self.old.turn tree.now marks.now names.now outs.now (V.number values.now))).count → self.new.next ≤ (written.image_pieces (handed self.old.turn tree.now marks.now names.now outs.now (V.number values.now))).count }
        ensures end { result ≡ 0 → (written.image_pieces (handed self.old.turn tree.now marks.now names.now outs.now (V.number values.now))).count ≤ self.new.next }
        ensures last { IsOfGrid (grid_of tree.now) self.new.last }
        ensures all { self.new ≡ record self.old { next = self.new.next; last = self.new.last } }
    {
        let room = buf.len().min(MOST_BYTES) - 64;
        let mut size = 0;
        for number in self.next..piece_count(tree, names) {
            if size > room {
                return size;
            }
            size += self.put_piece(tree, marks, names, outs, values, number, &mut buf[size..]);
            self.next = number + 1;
        }
        size
    }

    /// Writes the next bytes of the image to the front of `buf`, and answers how many they are: at most 65,536, and 0
    /// exactly at the image's end. `buf` has at least 64 bytes, and in each call the other arguments stand for the same
    /// valid mesh, of the writer's shape: its tree, its marks, the names of its variables, what has flowed out of each
    /// cell variable, and the numbers of its leaves. It takes no memory.
    pub fn next<V: BlockValues>(
        &mut self,
        tree: &Tree,
        marks: &Marks,
        names: &Names,
        outs: &[i128],
        values: &V,
        buf: &mut [u8],
    ) -> u32
        requires shape { self.old.shape ≡ (grid_of tree.now).shape }
        requires last { IsOfGrid (grid_of tree.now) self.old.last }
        requires marks { IsMarksOf (grid_of tree.now) marks.now }
        requires there { HasNumbers (V.is_there values.now) (grid_of tree.now) names.now }
        requires outs { length outs.now ≡ length names.now.cells }
        requires room { 64 ≤ length buf.old }
        ensures size { result ≤ length buf.new }
        ensures bytes { (m : Mesh) → StandsFor m (handed self.old.turn tree.now marks.now names.now outs.now (V.number values.now)) → IsWriter m self.old
            → left m self.old ≡ take result buf.new ++ left m self.new }
        ensures end { (m : Mesh) → StandsFor m (handed self.old.turn tree.now marks.now names.now outs.now (V.number values.now)) → IsWriter m self.old
            → (result ≡ 0) ↔ (left m self.old ≡ []) }
        ensures writer { (m : Mesh) → StandsFor m (handed self.old.turn tree.now marks.now names.now outs.now (V.number values.now)) → IsWriter m self.old
            → IsWriter m self.new }
        ensures last { IsOfGrid (grid_of tree.now) self.new.last }
        ensures shape { self.new.shape ≡ self.old.shape }
        ensures turn { self.new.turn ≡ self.old.turn }
    {
        if self.ended {
            return 0;
        }
        let size = self.fill(tree, marks, names, outs, values, buf);
        if size > 0 {
            self.hasher.update(&buf[..size]);
            return size as u32;
        }
        self.ended = true;
        let digest = self.hasher.finalize_reset();
        put_digest(&digest, buf);
        32
    }
}
