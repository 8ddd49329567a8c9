//! Whole images.

ghost use Rattle.std.specs.Prelude.{◌≡◌, ◌^◌, ◌||◌, IfErr, IfOk, Ok, if◌then◌else◌, length, nat_lt, not};
ghost use Rattle.block_tree.specs.GridOf.{grid_of};
ghost use Rattle.check_format.specs.Counts as counts;
ghost use Rattle.check_format.specs.ReadImages.{AreCounts, IsBodyStop, IsImageStop, IsRead, IsWhole, stored_in};
ghost use Rattle.mesh_model.specs.Images.Reading as plain;

use crate::reading::counts::number_count;
use crate::reading::header::header_at;
use crate::reading::lists::{Counts, Values, Variables};
use crate::reading::nodes::{Nodes, nodes_at};
use crate::reading::numbers::values_at;
use amr_num::OutOfMemory;
use block_tree::{Marks, Tree};
use mesh_model::language::names::Names;
use mesh_model::language::script::Declared;
use mesh_model::{BadImage, Group, Part};
use sha2::{Digest, Sha256};
use std::alloc::Global;

/// What stands in an image. Lists are in the order of the image.
#[derive(Drop)]
pub struct Image {
    /// The turn, 0 to 2.
    pub turn: u8,
    /// The shape of the mesh and the names of its variables.
    pub declared: Declared,
    /// The tree, of that shape.
    pub tree: Tree,
    /// The marks on its leaves.
    pub marks: Marks,
    /// What has flowed out of each cell variable.
    pub outs: Vec<i128>,
    /// The contents of each cell variable: leaves in Morton order, in each x fastest, then y, then z.
    pub cells: Vec<Vec<i64>>,
    /// The numbers of the leaf faces, each once. None where no face variable is declared.
    pub faces: Vec<i64>,
    /// The numbers of the leaf edges, each once. None where no edge variable is declared.
    pub edges: Vec<i64>,
}

/// Why bytes give no image.
#[derive(Clone, Copy, Debug, PartialEq, Eq)]
pub enum ImageStop {
    /// They are none.
    Bad(BadImage),
    /// Memory was refused.
    OutOfMemory,
}

/// Why the bytes before a digest give no image.
enum BodyStop {
    /// This part of them is the first one that fails.
    Bad(Part),
    /// Memory was refused.
    OutOfMemory,
}

/// The last 32 bytes, or zeros where there are fewer.
fn digest_kept(bytes: &[u8]) -> [u8; 32]
    ensures { result ≡ plain.digest_kept bytes.now }
{
    let mut kept = [0; 32];
    if bytes.len() >= 32 {
        let (_, back) = bytes.split_at(bytes.len() - 32);
        kept.copy_from_slice(back);
    }
    kept
}

/// The digest of the bytes before those, or of all where there are fewer.
fn digest_found(bytes: &[u8]) -> [u8; 32]
    ensures { result ≡ plain.digest_found bytes.now }
{
    if bytes.len() < 32 {
        return Sha256::digest(bytes);
    }
    let (front, _) = bytes.split_at(bytes.len() - 32);
    Sha256::digest(front)
}

/// How many numbers a variable of the group has: none where it is not declared.
fn declared_count(tree: &Tree, group: Group, is_declared: bool) -> usize
    ensures { result ≡ (if is_declared then counts.number_count group (grid_of tree.now) else 0) }
{
    if is_declared {
        number_count(tree, group) as usize
    } else {
        0
    }
}

/// How many numbers the variables of a tree have.
fn counts_of(names: &Names, tree: &Tree) -> Counts
    ensures { AreCounts names.now (grid_of tree.now) result }
{
    Counts {
        variables: names.cells() as usize,
        cells: number_count(tree, Group::Cell(0)) as usize,
        faces: declared_count(tree, Group::Face, names.face().is_some()),
        edges: declared_count(tree, Group::Edge, names.edge().is_some()),
    }
}

/// What stands before the digest.
fn body_of(alloc: Global, bytes: &[u8]) -> Result<Image, BodyStop>
    ensures image { IfOk result (λ im. plain.read_body bytes.now ≡ Ok (stored_in im)) }
    ensures whole { IfOk result IsWhole }
    ensures stop { IfErr result (IsBodyStop bytes.now) }
{
    let (header, rest) = match header_at(alloc, bytes) {
        Ok(Some(read)) => read,
        Ok(None) => return Err(BodyStop::Bad(Part::Header)),
        Err(OutOfMemory) => return Err(BodyStop::OutOfMemory),
    };
    let (nodes, rest) = match nodes_at(alloc, header.declared.shape, rest) {
        Ok(Some(read)) => read,
        Ok(None) => return Err(BodyStop::Bad(Part::Tree)),
        Err(OutOfMemory) => return Err(BodyStop::OutOfMemory),
    };
    let counts = counts_of(&header.declared.names, &nodes.tree);
    let (values, rest) = match values_at(alloc, counts, rest) {
        Ok(Some(read)) => read,
        Ok(None) => return Err(BodyStop::Bad(Part::Values)),
        Err(OutOfMemory) => return Err(BodyStop::OutOfMemory),
    };
    if !rest.is_empty() {
        return Err(BodyStop::Bad(Part::Ending));
    }
    let Values {
        variables: Variables { outs, cells },
        faces,
        edges,
    } = values;
    let Nodes { tree, marks } = nodes;
    Ok(Image {
        turn: header.turn,
        declared: header.declared,
        tree,
        marks,
        outs,
        cells,
        faces,
        edges,
    })
}

/// Whether there are as many bytes as an image may have: 62 to 2^29.
fn has_size(bytes: &[u8]) -> bool
    ensures { result ≡ not (nat_lt (length bytes.now) 62 || nat_lt (2 ^ 29) (length bytes.now)) }
{
    bytes.len() >= 62 && bytes.len() <= 1 << 29
}

/// The image that bytes are. `Bad` comes exactly where they are the image of no mesh within the limits, with the first
/// part that fails and both digests. Any bytes may be given, and memory is taken in proportion to them at most.
pub fn read_image(alloc: Global, bytes: &[u8]) -> Result<Image, ImageStop>
    ensures image { IfOk result (λ im. plain.read bytes.now ≡ Ok (stored_in im)) }
    ensures whole { IfOk result IsWhole }
    ensures read { IfOk result IsRead }
    ensures stop { IfErr result (IsImageStop bytes.now) }
{
    let kept = digest_kept(bytes);
    let found = digest_found(bytes);
    if !has_size(bytes) {
        let part = Part::Length;
        return Err(ImageStop::Bad(BadImage { part, kept, found }));
    }
    if kept != found {
        let part = Part::Digest;
        return Err(ImageStop::Bad(BadImage { part, kept, found }));
    }
    match body_of(alloc, &bytes[..bytes.len() - 32]) {
        Ok(image) => Ok(image),
        Err(BodyStop::Bad(part)) => Err(ImageStop::Bad(BadImage { part, kept, found })),
        Err(BodyStop::OutOfMemory) => Err(ImageStop::OutOfMemory),
    }
}
