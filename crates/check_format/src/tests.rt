//! Own faces and edges that are counted by hand.

ghost use Rattle.block_tree.specs.GridOf.{grid_of};
ghost use Rattle.mesh_model.specs.Geometry.Limits.{IsShape};
ghost use Rattle.mesh_model.specs.Tree.Start.{start_grid};
ghost use Rattle.std.specs.Prelude.{◌≡◌, ◌≤◌, ◌<◌, IfSome};

use crate::Own;
use amr_num::{Axis, SideKind};
use block_tree::Tree;
use mesh_model::Shape;
use std::alloc::Global;

/// So many roots side by side on x, with sides of one kind on x and of one kind on the other axes.
pub fn shape_of(roots: u32, on_x: SideKind, across: SideKind) -> Shape
    requires { (0 < roots) × (roots ≤ 8) }
    ensures shape { IsShape result }
    ensures max { result.max ≡ 1 }
{
    Shape {
        rx: roots,
        ry: 1,
        rz: 1,
        n: 4,
        g: 1,
        min: 0,
        max: 1,
        sides: [on_x, on_x, across, across, across, across],
    }
}

/// The tree of these roots, with the first of two refined.
pub fn tree_of(alloc: Global, shape: Shape, refined: bool) -> Option<Tree>
    requires shape { IsShape shape }
    requires max { shape.max ≡ 1 }
{
    let roots = match Tree::roots(alloc, shape) {
        Ok(roots) => roots,
        Err(_) => return None,
    };
    if !refined {
        return Some(roots);
    }
    if roots.len() != 2 {
        return None;
    }
    roots.regrown(alloc, &[true, false], &[false, false]).ok()
}

/// Whether a leaf has the face or, with `edges`, the edge there.
fn has(own: &Own, edges: bool, axis: Axis, i: u32, j: u32, k: u32) -> bool {
    if edges {
        own.has_edge(4, axis, i, j, k)
    } else {
        own.has_face(4, axis, i, j, k)
    }
}

/// How many places of an axis there are along another one.
fn many(edges: bool, axis: Axis, along: Axis) -> u32
    ensures { result ≤ 5 }
{
    if (axis == along) == edges { 4 } else { 5 }
}

/// How many of the faces of a leaf normal to an axis, or of its edges along it, stand under it.
fn on_axis(own: &Own, edges: bool, axis: Axis) -> u32 {
    let mut count: u32 = 0;
    for k in 0..many(edges, axis, Axis::Z) {
        for j in 0..many(edges, axis, Axis::Y) {
            for i in 0..many(edges, axis, Axis::X) {
                if has(own, edges, axis, i, j, k) {
                    count = count.saturating_add(1);
                }
            }
        }
    }
    count
}

/// How many faces, or edges, stand in an image of a tree.
fn in_all(tree: &Tree, edges: bool) -> u32 {
    let mut count: u32 = 0;
    for node in 0..tree.len() {
        if tree.is_leaf(node) {
            let own = Own::of(tree, node);
            for axis in [Axis::X, Axis::Y, Axis::Z] {
                count = count.saturating_add(on_axis(&own, edges, axis));
            }
        }
    }
    count
}

/// The kinds of the sides on x and on the other axes, how many roots there are, whether the first is refined, and how many
/// faces and edges there are: a root of 4 cells along each axis has 5 * 16 faces normal to each axis.
const MESHES: [(SideKind, SideKind, u32, bool, u32, u32); 8] = [
    (SideKind::Closed, SideKind::Closed, 1, false, 240, 300),
    (SideKind::Outflow, SideKind::Closed, 1, false, 240, 300),
    (SideKind::Periodic, SideKind::Closed, 1, false, 224, 260),
    (SideKind::Periodic, SideKind::Periodic, 1, false, 192, 192),
    (SideKind::Closed, SideKind::Closed, 2, false, 464, 560),
    (SideKind::Periodic, SideKind::Periodic, 2, false, 384, 384),
    (SideKind::Closed, SideKind::Closed, 2, true, 1952, 2204),
    (SideKind::Periodic, SideKind::Closed, 2, true, 1936, 2164),
];

#[test]
fn own_faces_and_edges_are_counted(rt: HostRuntime) {
    for (on_x, across, roots, refined, faces, edges) in MESHES {
        if 0 < roots && roots <= 8 {
            let tree = tree_of(rt.alloc(), shape_of(roots, on_x, across), refined);
            assert_eq!(rt; tree.as_ref().map(|tree| in_all(tree, false)), Some(faces));
            assert_eq!(rt; tree.as_ref().map(|tree| in_all(tree, true)), Some(edges));
        }
    }
}
