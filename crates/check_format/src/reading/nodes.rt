//! The nodes of an image, and their marks.

ghost use Rattle.std.specs.Prelude.{◌≡◌, ◌<◌, ◌≤◌, IfOk, IfSome, length, map, nat_le, true};
ghost use Rattle.std.specs.List.{list_all};
ghost use Rattle.std.specs.Option.{option_map};
ghost use Rattle.block_tree.specs.GridOf.{grid_of};
ghost use Rattle.block_tree.specs.Marked.{IsMarksOf, room};
ghost use Rattle.check_format.specs.Nodes as plain;
ghost use Rattle.check_format.specs.Nodes.{IsOf, codes, codes_of};
ghost use Rattle.mesh_model.specs.Geometry.Limits as limits;
ghost use Rattle.mesh_model.specs.Geometry.Limits.{IsShape};
ghost use Rattle.mesh_model.specs.Images.Fits as fits;
ghost use Rattle.mesh_model.specs.Images.Image as image;
ghost use Rattle.mesh_model.specs.Images.Reading as reading;
ghost use Rattle.mesh_model.specs.Tree.Forest.{flags_of};
ghost use Rattle.mesh_model.specs.Tree.Order.{nodes};

use crate::reading::fields::{bytes_at, count_at};
use amr_num::OutOfMemory;
use block_tree::{KindsStop, Marks, Tree};
use mesh_model::Shape;
use std::alloc::Global;

/// The nodes of an image.
#[derive(Drop)]
pub struct Nodes {
    pub tree: Tree,
    pub marks: Marks,
}

/// The most nodes that a tree of this shape has.
fn most_nodes(shape: &Shape) -> u32
    ensures { result ≡ limits.most_nodes shape.now }
{
    if shape.g == 4 { 4096 } else { 8192 }
}

/// The codes of the nodes, one of each at least and no more than the limit, and the bytes after them.
fn codes_at<'a>(shape: &Shape, bytes: &'a [u8]) -> Option<(&'a [u8], &'a [u8])>
    ensures read { option_map (λ x. (x.0.now, x.1.now)) result ≡ (codes shape.now).read bytes.now }
    ensures some { IfSome result (λ x. 0 < length x.0.now) }
    ensures few { IfSome result (λ x. length x.0.now ≤ limits.most_nodes shape.now) }
{
    let (count, bytes) = count_at(bytes)?;
    if count == 0 || count > most_nodes(shape) {
        return None;
    }
    bytes_at(count as usize, bytes)
}

fn are_codes(codes: &[u8]) -> bool
    ensures { result ≡ list_all (λ c. nat_le c 4) codes.now }
{
    codes.iter().all(|code| *code <= 4)
}

/// Which nodes are parents.
fn parents(alloc: Global, codes: &[u8]) -> Result<Vec<bool>, OutOfMemory>
    ensures { IfOk result (λ above. above.items ≡ map image.is_parent codes.now) }
{
    match codes.iter().map(|code| *code == 4).collect(alloc) {
        Ok(above) => Ok(above),
        Err(_) => Err(OutOfMemory),
    }
}

fn has_refine(code: u8) -> bool
    ensures { result ≡ image.has_refine code }
{
    code == 1 || code == 3
}

fn has_derefine(code: u8) -> bool
    ensures { result ≡ image.has_derefine code }
{
    code == 2 || code == 3
}

/// Whether the marks of a code may stand on a block of this level.
fn may_stand(shape: &Shape, level: u32, code: u8) -> bool
    ensures { result ≡ plain.may_stand shape.now level code }
{
    (!has_refine(code) || level < shape.max) && (!has_derefine(code) || shape.min < level)
}

/// Whether marks stand below the finest level, and those to merge above the coarsest.
fn marks_stand(tree: &Tree, codes: &[u8]) -> bool
    requires { length codes.now ≡ length (nodes (grid_of tree.now).leaves) }
    ensures { result ≡ fits.marks_stand (grid_of tree.now).shape (nodes (grid_of tree.now).leaves) codes.now }
{
    let shape = tree.shape();
    for node in 0..tree.len() {
        if !may_stand(&shape, tree.at(node).level, codes[node as usize]) {
            return false;
        }
    }
    true
}

/// The marks of the nodes.
fn marks_of(alloc: Global, tree: &Tree, codes: &[u8]) -> Result<Marks, OutOfMemory>
    requires parents { flags_of (grid_of tree.now) ≡ map image.is_parent codes.now }
    requires small { list_all (λ c. nat_le c 4) codes.now ≡ true }
    requires stand { fits.marks_stand (grid_of tree.now).shape (nodes (grid_of tree.now).leaves) codes.now ≡ true }
    ensures codes { IfOk result (λ marks. codes_of (grid_of tree.now) marks ≡ codes.now) }
    ensures room { IfOk result (λ marks. room marks ≡ limits.most_nodes (grid_of tree.now).shape) }
    ensures marks { IfOk result (IsMarksOf (grid_of tree.now)) }
{
    let mut marks = Marks::empty(alloc, tree)?;
    for node in 0..tree.len() {
        let code = codes[node as usize];
        marks.put(tree, node, has_refine(code), has_derefine(code));
    }
    Ok(marks)
}

/// The nodes, and the bytes after them.
pub fn nodes_at(
    alloc: Global,
    shape: Shape,
    bytes: &[u8],
) -> Result<Option<(Nodes, &[u8])>, OutOfMemory>
    requires { IsShape shape }
    ensures read { IfOk result (λ r. option_map (λ x. (codes_of (grid_of x.0.tree) x.0.marks, x.1.now)) r ≡ (reading.tree shape).read bytes.now) }
    ensures nodes { IfOk result (λ r. IfSome r (λ x. IsOf shape x.0)) }
    ensures grid { IfOk result (λ r. IfSome r (λ x. image.grid_by shape (codes_of (grid_of x.0.tree) x.0.marks) ≡ grid_of x.0.tree)) }
{
    let Some((codes, rest)) = codes_at(&shape, bytes) else {
        return Ok(None);
    };
    if !are_codes(codes) {
        return Ok(None);
    }
    let above = parents(alloc, codes)?;
    let tree = match Tree::from_kinds(alloc, shape, &above) {
        Ok(tree) => tree,
        Err(KindsStop::NotTree) => return Ok(None),
        Err(KindsStop::OutOfMemory) => return Err(OutOfMemory),
    };
    if !marks_stand(&tree, codes) {
        return Ok(None);
    }
    let marks = marks_of(alloc, &tree, codes)?;
    Ok(Some((Nodes { tree, marks }, rest)))
}
