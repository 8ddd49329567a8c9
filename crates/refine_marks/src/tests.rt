ghost use Rattle.std.specs.Prelude.{◌<◌, ◌≤◌};
ghost use Rattle.mesh_model.specs.Geometry.Limits.{IsShape};

use crate::{LevelStop, SetMarks, close};
use amr_num::{BlockAt, SideKind};
use block_tree::{Marks, Tree};
use mesh_model::Shape;
use std::alloc::Global;
use std::test::Fail;

/// A domain with so many roots, levels 0 to `max` and periodic sides.
fn shape(rx: u32, ry: u32, rz: u32, max: u32) -> Shape
    requires x { (0 < rx) × (rx ≤ 8) }
    requires y { (0 < ry) × (ry ≤ 8) }
    requires z { (0 < rz) × (rz ≤ 8) }
    requires max { max ≤ 10 }
    ensures { IsShape result }
{
    Shape {
        rx,
        ry,
        rz,
        n: 4,
        g: 1,
        min: 0,
        max,
        sides: [SideKind::Periodic; 6],
    }
}

/// The tree after the closure of marks: to refine leaves, and to merge those from a node on.
fn regrown(alloc: Global, tree: &Tree, refine: &[BlockAt], merge_from: u32) -> Option<Tree> {
    let mut marks = Marks::empty(alloc, tree).ok()?;
    for block in refine {
        let node = tree.leaf_at(*block)?;
        marks.set_refine(tree, node).ok()?;
    }
    for node in merge_from..tree.len() {
        if tree.is_leaf(node) {
            let _ = marks.set_derefine(tree, node);
        }
    }
    let plan = close(alloc, tree, &marks).ok()?;
    tree.regrown(alloc, &plan.refine, &plan.merge).ok()
}

fn block(level: u32, x: u32, y: u32, z: u32) -> BlockAt {
    BlockAt { level, x, y, z }
}

#[test]
fn a_refined_leaf_pulls_in_coarser_ones(rt: HostRuntime) -> Result<(), Fail> {
    let mut tree = Tree::roots(rt.alloc(), shape(4, 4, 4, 2))?;
    for (refined, nodes, leaves) in [(block(0, 0, 0, 0), 72, 71), (block(1, 0, 0, 0), 136, 127)] {
        let before = tree.len();
        tree = regrown(rt.alloc(), &tree, &[refined], before).ok_or("no tree")?;
        assert_eq!(rt; (tree.len(), tree.leaf_count()), (nodes, leaves));
    }
    for node in 0..tree.len() {
        let at = tree.at(node);
        let is_corner = at.x % 3 == 0 && at.y % 3 == 0 && at.z % 3 == 0;
        assert_eq!(rt;
            at.level == 0 && !tree.is_leaf(node),
            at.level == 0 && is_corner
        );
    }
    Ok(())
}

#[test]
fn a_refined_leaf_holds_its_neighbours(rt: HostRuntime) -> Result<(), Fail> {
    let mut tree = Tree::roots(rt.alloc(), shape(4, 1, 1, 2))?;
    for (refined, merges, nodes, leaves) in [
        (&[block(0, 0, 0, 0), block(0, 1, 0, 0)][..], false, 20, 18),
        (&[block(1, 1, 0, 0)], true, 28, 25),
        (&[], true, 12, 11),
    ] {
        let from = if merges { 0 } else { tree.len() };
        tree = regrown(rt.alloc(), &tree, refined, from).ok_or("no tree")?;
        assert_eq!(rt; (tree.len(), tree.leaf_count()), (nodes, leaves));
    }
    Ok(())
}

#[test]
fn children_merge_together(rt: HostRuntime) -> Result<(), Fail> {
    let roots = Tree::roots(rt.alloc(), shape(1, 1, 1, 2))?;
    let tree = regrown(rt.alloc(), &roots, &[block(0, 0, 0, 0)], 1).ok_or("no tree")?;
    for (merge_from, nodes) in [(2, 9), (1, 1)] {
        let merged = regrown(rt.alloc(), &tree, &[], merge_from).ok_or("no tree")?;
        assert_eq!(rt; merged.len(), nodes);
    }
    Ok(())
}

#[test]
fn marks_stop_at_the_limits(rt: HostRuntime) -> Result<(), Fail> {
    let stop = Err(LevelStop { level: 0, limit: 0 });
    for (max, refined) in [(0, stop), (2, Ok(()))] {
        let roots = Tree::roots(rt.alloc(), shape(1, 1, 1, max))?;
        let mut marks = Marks::empty(rt.alloc(), &roots)?;
        let node = roots.leaf_at(block(0, 0, 0, 0)).ok_or("no leaf")?;
        assert_eq!(rt; marks.set_refine(&roots, node), refined);
        assert_eq!(rt; marks.set_derefine(&roots, node), stop);
    }
    Ok(())
}
