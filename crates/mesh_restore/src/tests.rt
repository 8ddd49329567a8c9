//! Images of a small refined mesh, whose worlds are compared with another program's.
//!
//! Two roots lie side by side on x, and the first one is refined: its children are the nodes 1 to 8, in the order of octants,
//! and the second root is node 9. Blocks have 4 cells along each axis and 1 guard cell on each side. The numbers of each
//! list are 1, 2, 3 and so on. Of each array the sum of its interior numbers is compared: the first one once, the second one
//! twice and so on, x fastest, then y, then z.

ghost use Rattle.block_tree.specs.GridOf.{grid_of};
ghost use Rattle.mesh_model.specs.Fields.Ranks.{IsFit, IsSized};
ghost use Rattle.mesh_model.specs.Geometry.Limits.{IsShape};
ghost use Rattle.mesh_restore.specs.Filling.{AreWithin};
ghost use Rattle.std.specs.Prelude.{◌≡◌, ◌^◌, ◌<◌, IfOk, IfSome, length};

use crate::world_of;
use amr_num::{Axis, SideKind};
use block_store::Layout;
use block_tree::Tree;
use mesh_model::{Shape, Var};
use rank_world::World;
use std::alloc::{AllocError, Global};
use std::test::Fail;

/// Two roots side by side on x, with all sides of one kind, and levels 0 and 1.
fn two_roots(kind: SideKind) -> Shape
    ensures shape { IsShape result }
    ensures sizes { (result.n ≡ 4) × (result.g ≡ 1) }
    ensures max { result.max ≡ 1 }
{
    Shape {
        rx: 2,
        ry: 1,
        rz: 1,
        n: 4,
        g: 1,
        min: 0,
        max: 1,
        sides: [kind; 6],
    }
}

/// The tree of those with the first refined: a parent, its eight children, and a leaf.
fn refined(alloc: Global, kind: SideKind) -> Option<Tree>
    ensures { IfSome result (λ tree. IsSized 4 1 (grid_of tree).shape) }
{
    let above = [
        true, false, false, false, false, false, false, false, false, false,
    ];
    match Tree::from_kinds(alloc, two_roots(kind), &above) {
        Ok(tree) => Some(tree),
        Err(_) => None,
    }
}

/// The numbers from `first` on that come before `after`.
fn counted(alloc: Global, first: u16, after: u16) -> Result<Vec<i64>, AllocError>
    ensures { IfOk result (λ list. AreWithin (2 ^ 40) list.items) }
{
    let mut list = Vec::new(alloc);
    for number in first..after {
        list.push(i64::from(number))?;
    }
    Ok(list)
}

/// The weighed sum of the interior numbers of an array with so many places along each axis, without guards.
fn weighed(values: &[i64], x: usize, y: usize, z: usize) -> i64 {
    let mut sum = 0i64;
    let mut weight = 0i64;
    for k in 0..z {
        for j in 0..y {
            for i in 0..x {
                let line = j
                    .wrapping_add(1)
                    .wrapping_add(y.wrapping_add(2).wrapping_mul(k.wrapping_add(1)));
                let place = i
                    .wrapping_add(1)
                    .wrapping_add(x.wrapping_add(2).wrapping_mul(line));
                weight = weight.wrapping_add(1);
                let number = values.get(place).copied().unwrap_or(0);
                sum = sum.wrapping_add(weight.wrapping_mul(number));
            }
        }
    }
    sum
}

/// Those of a leaf's faces normal to x, y and z.
fn face_sums(world: &World<4, 1>, node: u32) -> Option<[i64; 3]>
    requires fit { IsFit 4 1 world.now }
    requires declared { world.now.told.counts.faces ≡ 1 }
{
    if node >= world.tree().len() {
        return None;
    }
    let x = weighed(world.values(Var::Face(Axis::X), node), 5, 4, 4);
    let y = weighed(world.values(Var::Face(Axis::Y), node), 4, 5, 4);
    let z = weighed(world.values(Var::Face(Axis::Z), node), 4, 4, 5);
    Some([x, y, z])
}

/// Those of its edges along x, y and z.
fn edge_sums(world: &World<4, 1>, node: u32) -> Option<[i64; 3]>
    requires fit { IsFit 4 1 world.now }
    requires declared { world.now.told.counts.edges ≡ 1 }
{
    if node >= world.tree().len() {
        return None;
    }
    let x = weighed(world.values(Var::Edge(Axis::X), node), 4, 5, 5);
    let y = weighed(world.values(Var::Edge(Axis::Y), node), 5, 4, 5);
    let z = weighed(world.values(Var::Edge(Axis::Z), node), 5, 5, 4);
    Some([x, y, z])
}

/// Those of the contents of a cell variable.
fn cell_sum(world: &World<4, 1>, variable: u32, node: u32) -> Option<i64>
    requires fit { IsFit 4 1 world.now }
    requires declared { world.now.told.counts.cells ≡ 2 }
{
    if node >= world.tree().len() || variable >= 2 {
        return None;
    }
    Some(weighed(world.values(Var::Cell(variable), node), 4, 4, 4))
}

/// The world of an image with two cell variables, whose leaf faces and leaf edges have the numbers from 1 on that come before these.
fn restored(alloc: Global, kind: SideKind, faces: u16, edges: u16) -> Option<World<4, 1>>
    ensures fit { IfSome result (λ world. IsFit 4 1 world) }
    ensures cells { IfSome result (λ world. world.told.counts.cells ≡ 2) }
    ensures faces { IfSome result (λ world. world.told.counts.faces ≡ 1) }
    ensures edges { IfSome result (λ world. world.told.counts.edges ≡ 1) }
{
    let tree = refined(alloc, kind)?;
    let layout = Layout {
        cells: 2,
        faces: 1,
        edges: 1,
    };
    let first = counted(alloc, 1, 577).ok()?;
    let second = counted(alloc, 1001, 1577).ok()?;
    let faces = counted(alloc, 1, faces).ok()?;
    let edges = counted(alloc, 1, edges).ok()?;
    let cells = [first, second];
    world_of(alloc, tree, layout, &cells, &faces, &edges).ok()
}
/// The sums of the faces of the nodes 1 to 9, on periodic sides.
const PERIODIC_FACES: [[i64; 3]; 9] = [
    [173880, 433080, 692280],
    [777000, 1158840, 1418040],
    [1677240, 1290296, 2091960],
    [2196392, 1953848, 2714040],
    [2973240, 3232440, 2275256],
    [3492392, 3854520, 2938808],
    [4269240, 3965240, 3550520],
    [4704424, 4525112, 4110392],
    [8435680, 5473544, 5646520],
];

/// The sums of their edges.
const PERIODIC_EDGES: [[i64; 3]; 9] = [
    [338350, 843350, 1348350],
    [1853350, 2015090, 2438490],
    [1950230, 3469350, 2836600],
    [3222830, 4314690, 3744972],
    [3082790, 3466590, 5832750],
    [4355390, 4472762, 6629130],
    [4463598, 5680510, 6908920],
    [5522886, 6399450, 7562700],
    [8550590, 8421042, 9928446],
];

/// The sums of the faces, on sides with outflow.
const OPEN_FACES: [[i64; 3]; 9] = [
    [173880, 433080, 692280],
    [777000, 1158840, 1418040],
    [1677240, 1669880, 2143800],
    [2238376, 2352120, 2817720],
    [3076920, 3336120, 3432504],
    [3638056, 4010040, 4108600],
    [4476600, 4485880, 4784696],
    [4995752, 5116280, 5408952],
    [7571312, 5979960, 6239160],
];

/// The sums of the edges there.
const OPEN_EDGES: [[i64; 3]; 9] = [
    [338350, 843350, 1348350],
    [1853350, 2015090, 2438490],
    [2640750, 3570350, 3588650],
    [3987750, 4578890, 4549766],
    [5311310, 5719510, 6418550],
    [6632710, 6747890, 7361810],
    [7322510, 8098030, 8353570],
    [8491910, 8978826, 9181502],
    [10155550, 11154220, 11728660],
];

#[test]
fn numbers_on_periodic_sides_stand_in_all_leaves(rt: HostRuntime) -> Result<(), Fail> {
    let world = restored(rt.alloc(), SideKind::Periodic, 1777, 1825).ok_or("no world")?;
    for node in 1..10 {
        let place = node as usize - 1;
        assert_eq!(rt; face_sums(&world, node), Some(PERIODIC_FACES[place]));
        assert_eq!(rt; edge_sums(&world, node), Some(PERIODIC_EDGES[place]));
    }
    Ok(())
}

#[test]
fn numbers_on_open_sides_stand_in_all_leaves(rt: HostRuntime) -> Result<(), Fail> {
    let world = restored(rt.alloc(), SideKind::Outflow, 1953, 2205).ok_or("no world")?;
    for node in 1..10 {
        let place = node as usize - 1;
        assert_eq!(rt; face_sums(&world, node), Some(OPEN_FACES[place]));
        assert_eq!(rt; edge_sums(&world, node), Some(OPEN_EDGES[place]));
    }
    Ok(())
}

#[test]
fn contents_stand_in_leaves(rt: HostRuntime) -> Result<(), Fail> {
    let world = restored(rt.alloc(), SideKind::Periodic, 1777, 1825).ok_or("no world")?;
    assert_eq!(rt; cell_sum(&world, 0, 1), Some(89440));
    assert_eq!(rt; cell_sum(&world, 0, 9), Some(1154400));
    assert_eq!(rt; cell_sum(&world, 1, 2), Some(2302560));
    Ok(())
}
