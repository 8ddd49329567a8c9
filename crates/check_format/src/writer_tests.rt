//! Two images whose bytes are known.

ghost use Rattle.block_tree.specs.Interior.{HasInterior};
ghost use Rattle.mesh_model.specs.Geometry.Limits.{IsShape};
ghost use Rattle.std.specs.Prelude.{◌≡◌, ◌⊎◌, ◌≤◌, pos};

use crate::ImageWriter;
use amr_num::SideKind;
use block_tree::{Marks, Tree};
use mesh_model::language::names::Names;
use mesh_model::{BlockValues, Shape, Var};
use std::test::Fail;

/// Each number is 1.
#[derive(Clone, Copy)]
struct Ones;

impl BlockValues for Ones {
    ghost is_there = { λ s var node i j k. Unit {0} };

    ghost number = { λ s var node i j k. pos 1 };

    fn value(&self, _var: Var, _node: u32, _i: i64, _j: i64, _k: i64) -> i64 {
        1
    }
}

/// One root, periodic on all axes.
pub fn one_root(n: u32, g: u32, max: u32) -> Shape
    requires cells { (n ≡ 4) ⊎ (n ≡ 8) }
    requires guards { (g ≡ 1) ⊎ (g ≡ 2) }
    requires max { max ≤ 10 }
    ensures { IsShape result }
{
    Shape {
        rx: 1,
        ry: 1,
        rz: 1,
        n,
        g,
        min: 0,
        max,
        sides: [SideKind::Periodic; 6],
    }
}

/// The first bytes of a buffer that has so many.
pub fn front(buf: &[u8], size: usize) -> &[u8] {
    buf.get(..size).unwrap_or(&[])
}

/// The image, but for its digest, of one root of eight cells on each axis with two guard cells, at levels 0 to 3, that has
/// no variable, with turn 0.
pub const BARE_BODY: [u8; 30] = [
    0x41, 0x4d, 0x52, 0x43, 0x48, 0x4b, 0x30, 0x31, 0, 8, 2, 1, 1, 1, 0, 3, 0, 0, 0, 0, 0, 0, 0, 0,
    0, 1, 0, 0, 0, 0,
];

/// Its digest.
pub const BARE_DIGEST: [u8; 32] = [
    0x43, 0xfc, 0x5c, 0xb1, 0xd0, 0x50, 0x11, 0x50, 0x95, 0x0a, 0xea, 0x9d, 0xe3, 0xda, 0xf9, 0xc0,
    0xc0, 0xc4, 0x52, 0xb3, 0x60, 0x61, 0x72, 0xd1, 0x49, 0x7a, 0x5c, 0xfd, 0xe6, 0x71, 0xc5, 0xfd,
];

#[test]
fn a_mesh_without_variables_has_62_bytes(rt: HostRuntime) -> Result<(), Fail> {
    let shape = one_root(8, 2, 3);
    let tree = Tree::roots(rt.alloc(), shape)?;
    let marks = Marks::empty(rt.alloc(), &tree)?;
    let names = Names::new(rt.alloc());
    let mut writer = ImageWriter::new(shape, 0);
    let mut buf = [0u8; 128];
    assert_eq!(rt;
        writer.next(&tree, &marks, &names, &[], &Ones, &mut buf),
        30
    );
    assert_eq!(rt; front(&buf, 30), BARE_BODY.as_slice());
    assert_eq!(rt;
        writer.next(&tree, &marks, &names, &[], &Ones, &mut buf),
        32
    );
    assert_eq!(rt; front(&buf, 32), BARE_DIGEST.as_slice());
    assert_eq!(rt; writer.next(&tree, &marks, &names, &[], &Ones, &mut buf), 0);
    Ok(())
}

/// The start of the image of one root of four cells on each axis with one guard cell, at level 0, whose one cell
/// variable `u` is 1 in each cell, with turn 0: what stands before the 64 contents.
pub const FULL_HEAD: [u8; 48] = [
    0x41, 0x4d, 0x52, 0x43, 0x48, 0x4b, 0x30, 0x31, 0, 4, 1, 1, 1, 1, 0, 0, 0, 0, 0, 0, 0, 0, 1, 0,
    0, 1, 0x75, 1, 0, 0, 0, 0, 0, 0, 0, 0, 0, 0, 0, 0, 0, 0, 0, 0, 0, 0, 0, 0,
];

/// The digest of this image.
pub const FULL_DIGEST: [u8; 32] = [
    0x16, 0xac, 0xf3, 0x29, 0x90, 0x31, 0x8d, 0xf9, 0x8a, 0x07, 0x5f, 0x77, 0xda, 0x7c, 0xfd, 0xdd,
    0xea, 0xb5, 0x09, 0x53, 0x1f, 0xe9, 0x86, 0x0a, 0x1d, 0x66, 0x48, 0x85, 0xaa, 0x20, 0xb3, 0xae,
];

#[test]
fn a_mesh_with_a_variable_has_592_bytes(rt: HostRuntime) -> Result<(), Fail> {
    let shape = one_root(4, 1, 0);
    let tree = Tree::roots(rt.alloc(), shape)?;
    let marks = Marks::empty(rt.alloc(), &tree)?;
    let mut names = Names::new(rt.alloc());
    names.add_cell(rt.alloc(), "u")?;
    let mut writer = ImageWriter::new(shape, 0);
    let mut buf = [0u8; 1024];
    assert_eq!(rt;
        writer.next(&tree, &marks, &names, &[0], &Ones, &mut buf),
        560
    );
    assert_eq!(rt; front(&buf, 48), FULL_HEAD.as_slice());
    assert_eq!(rt; buf[48..56], *[1, 0, 0, 0, 0, 0, 0, 0].as_slice());
    assert_eq!(rt;
        writer.next(&tree, &marks, &names, &[0], &Ones, &mut buf),
        32
    );
    assert_eq!(rt; front(&buf, 32), FULL_DIGEST.as_slice());
    assert_eq!(rt;
        writer.next(&tree, &marks, &names, &[0], &Ones, &mut buf),
        0
    );
    Ok(())
}
