ghost use Rattle.amr_num.specs.declared.Axis.TheVariants.{X, Y, Z};
ghost use Rattle.mesh_model.specs.Geometry.Limits.{IsShape};
ghost use Rattle.std.specs.Prelude.{◌≡◌, ◌<◌, ◌≤◌, ℤ};

use crate::{
    Line, print_guards, print_mesh, print_netflux, print_size, print_total, print_tree, print_var,
};
use amr_num::{Axis, SideKind};
use block_tree::Tree;
use mesh_model::{BlockValues, Group, Shape, Var};
use outside_io::Failed;
use outside_io::memory_sink::MemSink;
use std::alloc::{AllocError, Global};
use std::test::Fail;

/// Each number is the block index along an axis.
#[derive(Clone, Copy)]
struct Along(Axis);

impl BlockValues for Along {
    ghost is_there = { λ s var node i j k. Unit {0} };

    ghost number = { λ s var node i j k. elim s.0 as (λ axis. ℤ) [ X ↦ i | Y ↦ j | Z ↦ k ] };

    fn value(&self, _var: Var, _node: u32, i: i64, j: i64, k: i64) -> i64 {
        match self.0 {
            Axis::X => i,
            Axis::Y => j,
            Axis::Z => k,
        }
    }
}

/// So many roots along x, where the domain has outflow, and levels 0 and 1.
fn row_of(roots: u32) -> Shape
    requires some { 0 < roots }
    requires few { roots ≤ 8 }
    ensures limits { IsShape result }
    ensures levels { result.max ≡ 1 }
{
    Shape {
        rx: roots,
        ry: 1,
        rz: 1,
        n: 4,
        g: 1,
        min: 0,
        max: 1,
        sides: [
            SideKind::Outflow,
            SideKind::Outflow,
            SideKind::Periodic,
            SideKind::Periodic,
            SideKind::Periodic,
            SideKind::Periodic,
        ],
    }
}

#[test]
fn makes_a_line(rt: HostRuntime) -> Result<(), Fail> {
    let mut line = Line::begin("a");
    line.push_text(":");
    line.push_number(-3_i64);
    line.push_word("b");
    line.end();
    assert_eq!(rt; line.as_bytes(), b"a: -3 b\n".as_slice());
    Ok(())
}

#[test]
fn prints_a_tree_of_which_a_root_is_refined(rt: HostRuntime) -> Result<(), Fail> {
    let roots = Tree::roots(rt.alloc(), row_of(2))?;
    let none = vec![in rt.alloc(); false; roots.len() as usize]?;
    let mut first = vec![in rt.alloc(); false; roots.len() as usize]?;
    if !first.is_empty() {
        first[0] = true;
    }
    let tree = roots.regrown(rt.alloc(), &first, &none)?;
    let mut sink = MemSink::new(rt.alloc(), 1024, 512, Vec::new(rt.alloc()))?;
    assert_eq!(rt; print_size(&mut sink, &tree), Ok(()));
    assert_eq!(rt; print_tree(&mut sink, &tree), Ok(()));
    assert_eq!(rt;
        sink.taken(),
        b"mesh nodes 10 leaves 9
node 0 level 0 at 0 0 0 type 2 parent -1 faces -20 9 0 0 0 0
node 1 level 1 at 0 0 0 type 1 parent 0 faces -20 2 3 3 5 5
node 2 level 1 at 1 0 0 type 1 parent 0 faces 1 -1 4 4 6 6
node 3 level 1 at 0 1 0 type 1 parent 0 faces -20 4 1 1 7 7
node 4 level 1 at 1 1 0 type 1 parent 0 faces 3 -1 2 2 8 8
node 5 level 1 at 0 0 1 type 1 parent 0 faces -20 6 7 7 1 1
node 6 level 1 at 1 0 1 type 1 parent 0 faces 5 -1 8 8 2 2
node 7 level 1 at 0 1 1 type 1 parent 0 faces -20 8 5 5 3 3
node 8 level 1 at 1 1 1 type 1 parent 0 faces 7 -1 6 6 4 4
node 9 level 0 at 1 0 0 type 1 parent -1 faces 0 -20 9 9 9 9
"
            .as_slice()
    );
    let mut sink = MemSink::new(rt.alloc(), 1024, 512, Vec::new(rt.alloc()))?;
    assert_eq!(rt; print_mesh(&mut sink, &tree), Ok(()));
    assert_eq!(rt;
        sink.taken(),
        b"mesh nodes 10 leaves 9
leaf 1 0 0 0
leaf 1 1 0 0
leaf 1 0 1 0
leaf 1 1 1 0
leaf 1 0 0 1
leaf 1 1 0 1
leaf 1 0 1 1
leaf 1 1 1 1
leaf 0 1 0 0
"
            .as_slice()
    );
    Ok(())
}

#[test]
fn fails_where_the_sink_fails(rt: HostRuntime) -> Result<(), Fail> {
    let tree = Tree::roots(rt.alloc(), row_of(2))?;
    let mut sink = MemSink::new(rt.alloc(), 1024, 512, [3].to_vec(rt.alloc())?)?;
    assert_eq!(rt; print_mesh(&mut sink, &tree), Err(Failed));
    assert_eq!(rt; sink.faults(), 1);
    assert_eq!(rt; print_total(&mut sink, "u", -5, 1 << 100), Ok(()));
    assert_eq!(rt; print_netflux(&mut sink, "b", 17), Ok(()));
    assert_eq!(rt; print_size(&mut sink, &tree), Ok(()));
    assert_eq!(rt;
        sink.taken(),
        b"mesh nodes 2 leaves 2
leaf 0 0 0 0
total u -5 out 1267650600228229401496703205376
netflux b cells 17
mesh nodes 2 leaves 2
"
            .as_slice()
    );
    Ok(())
}

/// Lines, each of them so many times.
fn repeated(alloc: Global, lines: &[(&str, u32)]) -> Result<Vec<u8>, AllocError> {
    let mut text = Vec::new(alloc);
    for (line, times) in lines {
        for _ in 0..*times {
            text.extend_from_slice(line.as_bytes())?;
        }
    }
    Ok(text)
}

#[test]
fn prints_variables(rt: HostRuntime) -> Result<(), Fail> {
    let tree = Tree::roots(rt.alloc(), row_of(1))?;
    let cases: [(Group, Axis, &[(&str, u32)]); 3] = [
        (
            Group::Cell(0),
            Axis::X,
            &[("cell w block 0 0 0 0\n", 1), ("0 1 2 3\n", 16)],
        ),
        (
            Group::Face,
            Axis::Y,
            &[
                ("face w x block 0 0 0 0\n", 1),
                ("0 0 0 0 0\n1 1 1 1 1\n2 2 2 2 2\n3 3 3 3 3\n", 4),
                ("face w y block 0 0 0 0\n", 1),
                ("0 0 0 0\n1 1 1 1\n2 2 2 2\n3 3 3 3\n4 4 4 4\n", 4),
                ("face w z block 0 0 0 0\n", 1),
                ("0 0 0 0\n1 1 1 1\n2 2 2 2\n3 3 3 3\n", 5),
            ],
        ),
        (
            Group::Edge,
            Axis::Z,
            &[
                ("edge w x block 0 0 0 0\n", 1),
                ("0 0 0 0\n", 5),
                ("1 1 1 1\n", 5),
                ("2 2 2 2\n", 5),
                ("3 3 3 3\n", 5),
                ("4 4 4 4\n", 5),
                ("edge w y block 0 0 0 0\n", 1),
                ("0 0 0 0 0\n", 4),
                ("1 1 1 1 1\n", 4),
                ("2 2 2 2 2\n", 4),
                ("3 3 3 3 3\n", 4),
                ("4 4 4 4 4\n", 4),
                ("edge w z block 0 0 0 0\n", 1),
                ("0 0 0 0 0\n", 5),
                ("1 1 1 1 1\n", 5),
                ("2 2 2 2 2\n", 5),
                ("3 3 3 3 3\n", 5),
            ],
        ),
    ];
    for (group, axis, lines) in cases {
        let mut sink = MemSink::new(rt.alloc(), 4096, 512, Vec::new(rt.alloc()))?;
        assert_eq!(rt;
            print_var(&mut sink, &tree, "w", group, &Along(axis)),
            Ok(())
        );
        assert_eq!(rt; sink.taken(), repeated(rt.alloc(), lines)?.as_slice());
    }
    Ok(())
}

#[test]
fn prints_guards(rt: HostRuntime) -> Result<(), Fail> {
    let tree = Tree::roots(rt.alloc(), row_of(1))?;
    let cases: [(Group, &[(&str, u32)]); 3] = [
        (
            Group::Cell(0),
            &[("guards w block 0 0 0 0\n", 1), ("-1 0 1 2 3 4\n", 36)],
        ),
        (
            Group::Face,
            &[
                ("guards w x block 0 0 0 0\n", 1),
                ("-1 0 1 2 3 4 5\n", 36),
                ("guards w y block 0 0 0 0\n", 1),
                ("-1 0 1 2 3 4\n", 42),
                ("guards w z block 0 0 0 0\n", 1),
                ("-1 0 1 2 3 4\n", 42),
            ],
        ),
        (
            Group::Edge,
            &[
                ("guards w x block 0 0 0 0\n", 1),
                ("-1 0 1 2 3 4\n", 49),
                ("guards w y block 0 0 0 0\n", 1),
                ("-1 0 1 2 3 4 5\n", 42),
                ("guards w z block 0 0 0 0\n", 1),
                ("-1 0 1 2 3 4 5\n", 42),
            ],
        ),
    ];
    for (group, lines) in cases {
        if tree.len() == 0 || !tree.is_leaf(0) {
            continue;
        }
        let mut sink = MemSink::new(rt.alloc(), 4096, 512, Vec::new(rt.alloc()))?;
        assert_eq!(rt;
            print_guards(&mut sink, &tree, "w", group, &Along(Axis::X), 0),
            Ok(())
        );
        assert_eq!(rt; sink.taken(), repeated(rt.alloc(), lines)?.as_slice());
    }
    Ok(())
}
