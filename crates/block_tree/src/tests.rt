//! Trees that are worked by hand.

ghost use Rattle.block_tree.specs.GridOf.{grid_of};
ghost use Rattle.block_tree.specs.Numbered.{IsNode, block_at, flag_in};
ghost use Rattle.mesh_model.specs.Geometry.Limits.{IsShape};
ghost use Rattle.mesh_model.specs.Tree.Order.{nodes};
ghost use Rattle.mesh_model.specs.Tree.Kinds.{is_leaf_block};
ghost use Rattle.std.specs.Prelude.{◌≡◌, ℕ, IfOk, length, replicate, true};

use super::*;
use amr_num::{BlockAt, CellAt, OutOfMemory, SideKind};
use mesh_model::Shape;
use std::alloc::Global;

/// So many flags, all up or all down.
fn flags(alloc: Global, up: bool, count: usize) -> Result<Vec<bool>, OutOfMemory>
    ensures { IfOk result (λ flags. flags.items ≡ replicate count up) }
{
    match vec![in alloc; up; count] {
        Ok(flags) => Ok(flags),
        Err(_) => Err(OutOfMemory),
    }
}

/// Flags of a tree's nodes, up at its first `count` leaves.
fn first_leaves(alloc: Global, tree: &Tree, count: u32) -> Result<Vec<bool>, OutOfMemory>
    ensures size { IfOk result (λ flags. length flags.items ≡ length (nodes (grid_of tree.now).leaves)) }
    ensures leaves { IfOk result (λ flags. (node : ℕ) → IsNode (grid_of tree.now) node → flag_in flags.items node ≡ true
        → is_leaf_block (grid_of tree.now) (block_at (grid_of tree.now) node) ≡ true) }
{
    let mut flags = Vec::new(alloc);
    let mut left = count;
    for node in 0..tree.len() {
        let up = tree.is_leaf(node) && left > 0;
        if up {
            left -= 1;
        }
        if flags.push(up).is_err() {
            return Err(OutOfMemory);
        }
    }
    Ok(flags)
}

#[test]
fn too_many_nodes_are_counted(rt: HostRuntime) {
    let alloc = rt.alloc();
    let shape = Shape {
        rx: 8,
        ry: 8,
        rz: 8,
        n: 8,
        g: 2,
        min: 0,
        max: 10,
        sides: [SideKind::Periodic; 6],
    };
    let roots = Tree::roots(alloc, shape).expect(&rt, "memory");
    assert_eq!(rt; roots.len(), 512);
    let up = flags(alloc, true, 512).expect(&rt, "memory");
    let down = flags(alloc, false, 512).expect(&rt, "memory");
    let fine = roots.regrown(alloc, &up, &down).expect(&rt, "memory");
    assert_eq!(rt; fine.len(), 4608);
    assert_eq!(rt; fine.leaf_count(), 4096);
    let down = flags(alloc, false, 4608).expect(&rt, "memory");
    let few = first_leaves(alloc, &fine, 448).expect(&rt, "memory");
    let tree = fine.regrown(alloc, &few, &down).expect(&rt, "memory");
    assert_eq!(rt; tree.len(), 8192);
    let more = first_leaves(alloc, &fine, 449).expect(&rt, "memory");
    assert_eq!(rt;
        fine.regrown(alloc, &more, &down).err(),
        Some(GrowStop::Blocks(8200))
    );
}

/// The cell at x of the first row of a level.
fn in_first_row(level: u32, x: u32) -> CellAt {
    CellAt {
        level,
        x,
        y: 0,
        z: 0,
    }
}

/// Nodes of two roots of which the first is refined: number, level, x, y, z, parent and kind.
const ROWS: [(u32, u32, u32, u32, u32, Option<u32>, NodeKind); 5] = [
    (0, 0, 0, 0, 0, None, NodeKind::AboveLeaf),
    (1, 1, 0, 0, 0, Some(0), NodeKind::Leaf),
    (2, 1, 1, 0, 0, Some(0), NodeKind::Leaf),
    (8, 1, 1, 1, 1, Some(0), NodeKind::Leaf),
    (9, 0, 1, 0, 0, None, NodeKind::Leaf),
];

/// The level and x of a cell, and the leaf of that tree in which it lies.
const CELLS: [(u32, u32, Option<u32>); 8] = [
    (0, 0, None),
    (0, 4, Some(9)),
    (0, 8, None),
    (1, 3, Some(1)),
    (1, 4, Some(2)),
    (1, 8, Some(9)),
    (2, 9, Some(2)),
    (40, 0, Some(1)),
];

#[test]
fn nodes_are_found(rt: HostRuntime) {
    let alloc = rt.alloc();
    let shape = Shape {
        rx: 2,
        ry: 1,
        rz: 1,
        n: 4,
        g: 1,
        min: 0,
        max: 1,
        sides: [SideKind::Outflow; 6],
    };
    let roots = Tree::roots(alloc, shape).expect(&rt, "memory");
    assert_eq!(rt; roots.shape(), shape);
    assert_eq!(rt; roots.len(), 2);
    let tree = roots
        .regrown(alloc, &[true, false], &[false, false])
        .expect(&rt, "memory");
    assert_eq!(rt; tree.len(), 10);
    assert_eq!(rt; tree.leaf_count(), 9);
    assert!(rt; !tree.is_leaf(0));
    let up = [
        true, false, false, false, false, false, false, false, false, false,
    ];
    let merged = tree.regrown(alloc, &[false; 10], &up).expect(&rt, "memory");
    assert_eq!(rt; (merged.len(), merged.leaf_count()), (2, 2));
    for (node, level, x, y, z, parent, kind) in ROWS {
        let b = BlockAt { level, x, y, z };
        if node < tree.len() {
            assert_eq!(rt; tree.at(node), b);
            assert_eq!(rt; tree.parent(node), parent);
            assert_eq!(rt; tree.kind(node), kind);
        }
        assert_eq!(rt; tree.node_at(b), Some(node));
        assert_eq!(rt; tree.leaf_at(b).is_some(), kind == NodeKind::Leaf);
    }
    assert_eq!(rt; tree.child(0, 3), Some(4));
    assert_eq!(rt; tree.child(9, 3), None);
    for (level, x, leaf) in CELLS {
        assert_eq!(rt; tree.covering(in_first_row(level, x)), leaf);
    }
}

#[test]
fn marks_stand(rt: HostRuntime) {
    let alloc = rt.alloc();
    let shape = Shape {
        rx: 2,
        ry: 1,
        rz: 1,
        n: 4,
        g: 4,
        min: 0,
        max: 1,
        sides: [SideKind::Outflow; 6],
    };
    let tree = Tree::roots(alloc, shape).expect(&rt, "memory");
    let mut marks = Marks::empty(alloc, &tree).expect(&rt, "memory");
    assert_eq!(rt; tree.len(), 2);
    assert!(rt; tree.is_leaf(1));
    marks.put(&tree, 1, true, false);
    assert!(rt; marks.refine(1));
    assert!(rt; !marks.refine(0));
    assert!(rt; !marks.derefine(1));
    marks.reset(&tree);
    assert!(rt; !marks.refine(1));
}

/// How many nodes and leaves the tree with such flags has, which stand in runs of so many up or down.
fn nodes_of_runs(alloc: Global, shape: Shape, runs: &[(bool, u32)]) -> Result<(u32, u32), KindsStop>
    requires { IsShape shape }
{
    let mut above = Vec::new(alloc);
    for (up, count) in runs {
        for _ in 0..*count {
            if above.push(*up).is_err() {
                return Err(KindsStop::OutOfMemory);
            }
        }
    }
    let tree = Tree::from_kinds(alloc, shape, &above)?;
    Ok((tree.len(), tree.leaf_count()))
}

/// Runs of flags, and the numbers of nodes and of leaves of their tree.
type FlagRow = ([(bool, u32); 3], Result<(u32, u32), KindsStop>);

/// One root that may not be split.
const FLAT_ROWS: [FlagRow; 5] = [
    ([(false, 1), (false, 0), (false, 0)], Ok((1, 1))),
    (
        [(false, 0), (false, 0), (false, 0)],
        Err(KindsStop::NotTree),
    ),
    (
        [(false, 2), (false, 0), (false, 0)],
        Err(KindsStop::NotTree),
    ),
    ([(true, 1), (false, 8), (false, 0)], Err(KindsStop::NotTree)),
    (
        [(false, 9000), (false, 0), (false, 0)],
        Err(KindsStop::NotTree),
    ),
];

/// One root that may be split: flags that fit, wanting, left over and at the finest level.
const SPLIT_ROWS: [FlagRow; 5] = [
    ([(true, 1), (false, 8), (true, 0)], Ok((9, 8))),
    ([(true, 1), (false, 7), (true, 0)], Err(KindsStop::NotTree)),
    ([(true, 1), (false, 9), (true, 0)], Err(KindsStop::NotTree)),
    ([(true, 1), (false, 8), (true, 1)], Err(KindsStop::NotTree)),
    ([(true, 2), (false, 15), (true, 0)], Err(KindsStop::NotTree)),
];

#[test]
fn flags_of_one_root_are_read(rt: HostRuntime) {
    let alloc = rt.alloc();
    let flat = Shape {
        rx: 1,
        ry: 1,
        rz: 1,
        n: 4,
        g: 1,
        min: 0,
        max: 0,
        sides: [SideKind::Outflow; 6],
    };
    for (runs, nodes) in FLAT_ROWS {
        assert_eq!(rt; nodes_of_runs(alloc, flat, &runs), nodes);
    }
    let one = Shape { max: 1, ..flat };
    for (runs, nodes) in SPLIT_ROWS {
        assert_eq!(rt; nodes_of_runs(alloc, one, &runs), nodes);
    }
    let two = Shape { max: 2, ..flat };
    assert_eq!(rt;
        nodes_of_runs(alloc, two, &[(true, 2), (false, 15)]),
        Ok((17, 15))
    );
}

#[test]
fn flags_keep_the_level_rule(rt: HostRuntime) {
    let alloc = rt.alloc();
    let row = Shape {
        rx: 2,
        ry: 1,
        rz: 1,
        n: 4,
        g: 1,
        min: 0,
        max: 2,
        sides: [SideKind::Outflow; 6],
    };
    let ring = Shape {
        sides: [SideKind::Periodic; 6],
        ..row
    };
    let cube = Shape {
        ry: 2,
        rz: 2,
        ..row
    };
    let none = Err(KindsStop::NotTree);
    // Of two roots in a row the first is refined, and its child away from the second one, or beside it.
    let away = [(true, 2), (false, 16)];
    let beside = [(true, 1), (false, 1), (true, 1), (false, 15)];
    assert_eq!(rt; nodes_of_runs(alloc, row, &away), Ok((18, 16)));
    assert_eq!(rt; nodes_of_runs(alloc, row, &beside), none);
    assert_eq!(rt; nodes_of_runs(alloc, ring, &away), none);
    // Of eight roots all but the last are refined, and the child of the first that touches that in a corner.
    let fine = (true, 1);
    let leaves = (false, 8);
    let all = [
        fine,
        (false, 7),
        fine,
        leaves,
        fine,
        leaves,
        fine,
        leaves,
        fine,
        leaves,
        fine,
        leaves,
        fine,
        leaves,
        fine,
        leaves,
        fine,
        leaves,
    ];
    assert_eq!(rt; nodes_of_runs(alloc, cube, &all), Ok((80, 71)));
    let mut corner = all;
    corner[16] = (false, 1);
    corner[17] = (false, 0);
    assert_eq!(rt; nodes_of_runs(alloc, cube, &corner), none);
}

/// Flags of 512 roots, of which the first `count` are split.
fn first_split(alloc: Global, count: u32) -> Result<Vec<bool>, OutOfMemory> {
    let mut above = Vec::new(alloc);
    for root in 0..512 {
        let split = root < count;
        let children = if split { 8 } else { 0 };
        if above.push(split).is_err() {
            return Err(OutOfMemory);
        }
        for _ in 0..children {
            if above.push(false).is_err() {
                return Err(OutOfMemory);
            }
        }
    }
    Ok(above)
}

#[test]
fn flags_of_too_many_nodes_are_no_tree(rt: HostRuntime) {
    let alloc = rt.alloc();
    let shape = Shape {
        rx: 8,
        ry: 8,
        rz: 8,
        n: 8,
        g: 4,
        min: 0,
        max: 1,
        sides: [SideKind::Periodic; 6],
    };
    let more = Shape { g: 2, ..shape };
    let few = first_split(alloc, 448).expect(&rt, "memory");
    let tree = Tree::from_kinds(alloc, shape, &few).expect(&rt, "tree");
    assert_eq!(rt; (tree.len(), tree.leaf_count()), (4096, 3648));
    let many = first_split(alloc, 449).expect(&rt, "memory");
    assert_eq!(rt;
        Tree::from_kinds(alloc, shape, &many).err(),
        Some(KindsStop::NotTree)
    );
    let tree = Tree::from_kinds(alloc, more, &many).expect(&rt, "tree");
    assert_eq!(rt; (tree.len(), tree.leaf_count()), (4104, 3655));
}
