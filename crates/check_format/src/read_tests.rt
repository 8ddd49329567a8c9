//! Images that are read, and bytes that are none.

ghost use Rattle.block_tree.specs.GridOf.{grid_of};
ghost use Rattle.block_tree.specs.Marked.{IsMarksOf};
ghost use Rattle.check_format.specs.ReadImages.{IsWhole};
ghost use Rattle.std.specs.Prelude.{◌≡◌, IfOk, length};

use crate::tests::{shape_of, tree_of};
use crate::writer_tests::{BARE_BODY, BARE_DIGEST, FULL_DIGEST, FULL_HEAD, front, one_root};
use crate::{Image, ImageStop, ImageWriter, read_image};
use amr_num::SideKind;
use block_tree::{Marks, Tree};
use mesh_model::language::names::Names;
use mesh_model::{BadImage, BlockValues, Part, Var};
use sha2::{Digest, Sha256};
use std::alloc::Global;
use std::test::Fail;

/// The bytes, with others behind them.
fn joined(alloc: Global, bytes: &[u8], others: &[u8]) -> Result<Vec<u8>, Fail> {
    let mut all = bytes.to_vec(alloc)?;
    all.extend_from_slice(others)?;
    Ok(all)
}

/// What stands before the digest in the image of one root with a variable that is 1 in each of its 64 cells.
fn full_body(alloc: Global) -> Result<Vec<u8>, Fail> {
    let mut body = FULL_HEAD.to_vec(alloc)?;
    for _ in 0..64 {
        body.extend_from_slice(&[1, 0, 0, 0, 0, 0, 0, 0])?;
    }
    Ok(body)
}

/// The marks to refine and to merge of a node, where there is such a node.
fn marks_at(image: &Image, node: u32) -> Option<(bool, bool)>
    requires { IsWhole image.now }
{
    if node >= image.tree.len() {
        return None;
    }
    Some((image.marks.refine(node), image.marks.derefine(node)))
}

#[test]
fn an_image_without_variables_is_read(rt: HostRuntime) -> Result<(), Fail> {
    let bytes = joined(rt.alloc(), &BARE_BODY, &BARE_DIGEST)?;
    let image = read_image(rt.alloc(), &bytes)?;
    let names = &image.declared.names;
    assert_eq!(rt; image.turn, 0);
    assert_eq!(rt; image.declared.shape, one_root(8, 2, 3));
    assert_eq!(rt;
        (names.cells(), names.face(), names.edge()),
        (0, None, None)
    );
    assert_eq!(rt; (image.tree.len(), image.tree.leaf_count()), (1, 1));
    assert_eq!(rt; marks_at(&image, 0), Some((false, false)));
    assert_eq!(rt; (image.outs.len(), image.cells.len()), (0, 0));
    assert_eq!(rt; (image.faces.len(), image.edges.len()), (0, 0));
    Ok(())
}

#[test]
fn an_image_with_a_variable_is_read(rt: HostRuntime) -> Result<(), Fail> {
    let bytes = joined(rt.alloc(), &full_body(rt.alloc())?, &FULL_DIGEST)?;
    let image = read_image(rt.alloc(), &bytes)?;
    let names = &image.declared.names;
    assert_eq!(rt; image.turn, 0);
    assert_eq!(rt; image.declared.shape, one_root(4, 1, 0));
    assert_eq!(rt;
        (names.cells(), names.face(), names.edge()),
        (1, None, None)
    );
    assert_eq!(rt; names.cell(0), "u");
    assert_eq!(rt; image.tree.len(), 1);
    assert_eq!(rt; image.outs.as_slice(), [0].as_slice());
    assert_eq!(rt; image.cells.len(), 1);
    assert_eq!(rt; image.cells[0].as_slice(), [1; 64].as_slice());
    assert_eq!(rt; (image.faces.len(), image.edges.len()), (0, 0));
    Ok(())
}

/// The SHA-256 of the first 29 bytes of the image without variables.
const SHORT_DIGEST: [u8; 32] = [
    0x69, 0xc4, 0x0b, 0x03, 0xdd, 0x6c, 0xf1, 0xfd, 0x4d, 0xd6, 0xca, 0xb9, 0xcb, 0xa4, 0xc5, 0x18,
    0xfd, 0x11, 0x5a, 0x71, 0x3a, 0xe8, 0xef, 0x5b, 0xdc, 0x54, 0x85, 0xf6, 0x81, 0xbe, 0x5e, 0x30,
];

/// The SHA-256 of no bytes.
const NO_DIGEST: [u8; 32] = [
    0xe3, 0xb0, 0xc4, 0x42, 0x98, 0xfc, 0x1c, 0x14, 0x9a, 0xfb, 0xf4, 0xc8, 0x99, 0x6f, 0xb9, 0x24,
    0x27, 0xae, 0x41, 0xe4, 0x64, 0x9b, 0x93, 0x4c, 0xa4, 0x95, 0x99, 0x1b, 0x78, 0x52, 0xb8, 0x55,
];

#[test]
fn few_bytes_and_a_wrong_digest_are_told(rt: HostRuntime) -> Result<(), Fail> {
    let part = Part::Length;
    let (kept, found) = ([0; 32], NO_DIGEST);
    assert_eq!(rt;
        read_image(rt.alloc(), &[]).err(),
        Some(ImageStop::Bad(BadImage { part, kept, found }))
    );
    let mut bytes = joined(rt.alloc(), &BARE_BODY, &BARE_DIGEST)?;
    let mut kept = [0; 32];
    let found = SHORT_DIGEST;
    kept[1..].copy_from_slice(&BARE_DIGEST[..31]);
    assert_eq!(rt;
        read_image(rt.alloc(), front(&bytes, 61)).err(),
        Some(ImageStop::Bad(BadImage { part, kept, found }))
    );
    let part = Part::Digest;
    let (mut kept, found) = (BARE_DIGEST, BARE_DIGEST);
    kept[31] = 0xfc;
    bytes.pop();
    bytes.push(0xfc)?;
    assert_eq!(rt;
        read_image(rt.alloc(), &bytes).err(),
        Some(ImageStop::Bad(BadImage { part, kept, found }))
    );
    Ok(())
}

/// What is told of bytes with their digest behind them of which a part fails.
fn bad(part: Part, body: &[u8]) -> ImageStop {
    let digest = Sha256::digest(body);
    ImageStop::Bad(BadImage {
        part,
        kept: digest,
        found: digest,
    })
}

/// Why bytes with their digest behind them are no image, where they are none.
fn stop_of(alloc: Global, body: &[u8]) -> Result<Option<ImageStop>, Fail> {
    let bytes = joined(alloc, body, &Sha256::digest(body))?;
    Ok(read_image(alloc, &bytes).err())
}

/// Bytes that stand in an image in the place of those from one place up to another, and the first part that fails then,
/// where one does.
struct Edit {
    what: &'static str,
    from: usize,
    to: usize,
    put: &'static [u8],
    fails: Option<Part>,
}

/// Edits of the image with a variable: its 25 bytes up to the names, the name `u` in 2, the number of nodes in 4, a leaf,
/// 16 zeros, and 64 contents in 8 each.
const EDITS: [Edit; 31] = [
    Edit {
        what: "another magic",
        from: 7,
        to: 8,
        put: b"2",
        fails: Some(Part::Header),
    },
    Edit {
        what: "the turn 3",
        from: 8,
        to: 9,
        put: &[3],
        fails: Some(Part::Header),
    },
    Edit {
        what: "five cells along each axis",
        from: 9,
        to: 10,
        put: &[5],
        fails: Some(Part::Header),
    },
    Edit {
        what: "three guard cells",
        from: 10,
        to: 11,
        put: &[3],
        fails: Some(Part::Header),
    },
    Edit {
        what: "nine roots on x",
        from: 11,
        to: 12,
        put: &[9],
        fails: Some(Part::Header),
    },
    Edit {
        what: "a coarsest level above the finest",
        from: 14,
        to: 15,
        put: &[1],
        fails: Some(Part::Header),
    },
    Edit {
        what: "sides of a kind 3",
        from: 16,
        to: 18,
        put: &[3, 3],
        fails: Some(Part::Header),
    },
    Edit {
        what: "one periodic side of an axis",
        from: 16,
        to: 17,
        put: &[1],
        fails: Some(Part::Header),
    },
    Edit {
        what: "five cell variables",
        from: 22,
        to: 27,
        put: b"\x05\0\0\x01a\x01b\x01c\x01d\x01e",
        fails: Some(Part::Header),
    },
    Edit {
        what: "a name that is reserved",
        from: 25,
        to: 27,
        put: b"\x04mesh",
        fails: Some(Part::Header),
    },
    Edit {
        what: "a name that stands twice",
        from: 22,
        to: 27,
        put: b"\x02\0\0\x01u\x01u",
        fails: Some(Part::Header),
    },
    Edit {
        what: "an edge variable with the name of a cell variable",
        from: 22,
        to: 27,
        put: b"\x01\0\x01\x01u\x01u",
        fails: Some(Part::Header),
    },
    Edit {
        what: "an end within a name",
        from: 25,
        to: 560,
        put: b"\x10uuuuu",
        fails: Some(Part::Header),
    },
    Edit {
        what: "no node",
        from: 27,
        to: 32,
        put: &[0, 0, 0, 0],
        fails: Some(Part::Tree),
    },
    Edit {
        what: "a node of a kind 5",
        from: 31,
        to: 32,
        put: &[5],
        fails: Some(Part::Tree),
    },
    Edit {
        what: "a parent without children",
        from: 15,
        to: 32,
        put: b"\x03\0\0\0\0\0\0\x01\0\0\x01u\x01\0\0\0\x04",
        fails: Some(Part::Tree),
    },
    Edit {
        what: "a parent at the finest level",
        from: 27,
        to: 32,
        put: b"\x09\0\0\0\x04\0\0\0\0\0\0\0\0",
        fails: Some(Part::Tree),
    },
    Edit {
        what: "a node after the last one",
        from: 27,
        to: 32,
        put: &[2, 0, 0, 0, 0, 0],
        fails: Some(Part::Tree),
    },
    Edit {
        what: "leaves that touch two levels apart",
        from: 11,
        to: 32,
        put: b"\x02\x01\x01\0\x02\x01\x01\x01\x01\x01\x01\x01\0\0\x01u\x12\0\0\0\x04\0\x04\0\0\0\0\0\0\0\0\0\0\0\0\0\0\0",
        fails: Some(Part::Tree),
    },
    Edit {
        what: "a mark to refine at the finest level",
        from: 31,
        to: 32,
        put: &[1],
        fails: Some(Part::Tree),
    },
    Edit {
        what: "a mark to merge at the coarsest level",
        from: 31,
        to: 32,
        put: &[2],
        fails: Some(Part::Tree),
    },
    Edit {
        what: "an end within the nodes",
        from: 27,
        to: 560,
        put: &[255, 31, 0, 0, 0],
        fails: Some(Part::Tree),
    },
    Edit {
        what: "more than 2^100 that flowed out",
        from: 32,
        to: 48,
        put: &[1, 0, 0, 0, 0, 0, 0, 0, 0, 0, 0, 0, 16, 0, 0, 0],
        fails: Some(Part::Values),
    },
    Edit {
        what: "a content of 2^40 + 1",
        from: 48,
        to: 56,
        put: &[1, 0, 0, 0, 0, 1, 0, 0],
        fails: Some(Part::Values),
    },
    Edit {
        what: "a content of -2^40 - 1",
        from: 552,
        to: 560,
        put: &[255, 255, 255, 255, 255, 254, 255, 255],
        fails: Some(Part::Values),
    },
    Edit {
        what: "an end within the contents",
        from: 559,
        to: 560,
        put: &[],
        fails: Some(Part::Values),
    },
    Edit {
        what: "a byte after the contents",
        from: 560,
        to: 560,
        put: &[0],
        fails: Some(Part::Ending),
    },
    Edit {
        what: "the turn 2",
        from: 8,
        to: 9,
        put: &[2],
        fails: None,
    },
    Edit {
        what: "2^100 that flowed out",
        from: 32,
        to: 48,
        put: &[0, 0, 0, 0, 0, 0, 0, 0, 0, 0, 0, 0, 16, 0, 0, 0],
        fails: None,
    },
    Edit {
        what: "a content of 2^40",
        from: 48,
        to: 56,
        put: &[0, 0, 0, 0, 0, 1, 0, 0],
        fails: None,
    },
    Edit {
        what: "a content of -2^40",
        from: 552,
        to: 560,
        put: &[0, 0, 0, 0, 0, 255, 255, 255],
        fails: None,
    },
];

#[test]
fn the_first_part_that_fails_is_told(rt: HostRuntime) -> Result<(), Fail> {
    let body = full_body(rt.alloc())?;
    for edit in &EDITS {
        let start = joined(rt.alloc(), front(&body, edit.from), edit.put)?;
        let body = joined(rt.alloc(), &start, body.get(edit.to..).unwrap_or(&[]))?;
        assert_eq!(rt;
            stop_of(rt.alloc(), &body)?,
            edit.fails.map(|part| bad(part, &body)),
            "{}",
            edit.what
        );
    }
    Ok(())
}

/// The image, but for its digest, of one root without variables of which all blocks up to level 3 are parents, and so
/// many of level 4 besides, with turn 0: 4681 nodes, and 8 for each of those parents.
fn deep_body(alloc: Global, parents: u32) -> Result<Vec<u8>, Fail> {
    let count = parents.saturating_mul(8).saturating_add(4681);
    let mut body = b"AMRCHK01\0\x04\x01\x01\x01\x01\0\x05\0\0\0\0\0\0\0\0\0".to_vec(alloc)?;
    body.extend_from_slice(&count.to_le_bytes())?;
    for block in 0..4096 {
        for blocks in [4096, 512, 64, 8] {
            if u32::checked_rem(block, blocks) == Some(0) {
                body.push(4)?;
            }
        }
        let codes: [u8; 9] = [4, 0, 0, 0, 0, 0, 0, 0, 0];
        body.extend_from_slice(if block < parents {
            &codes
        } else {
            &codes[1..2]
        })?;
    }
    Ok(body)
}

#[test]
fn a_tree_of_too_many_nodes_is_told(rt: HostRuntime) -> Result<(), Fail> {
    let body = deep_body(rt.alloc(), 438)?;
    assert_eq!(rt; stop_of(rt.alloc(), &body)?, None, "8185 nodes");
    let body = deep_body(rt.alloc(), 439)?;
    assert_eq!(rt;
        stop_of(rt.alloc(), &body)?,
        Some(bad(Part::Tree, &body)),
        "8193 nodes"
    );
    Ok(())
}

/// Each number is the place on x at which it stands.
#[derive(Clone, Copy)]
struct Places;

impl BlockValues for Places {
    ghost is_there = { λ s var node i j k. Unit {0} };

    ghost number = { λ s var node i j k. i };

    fn value(&self, _var: Var, _node: u32, i: i64, _j: i64, _k: i64) -> i64 {
        i
    }
}

/// Sets both marks of a node where they may stand.
fn mark(tree: &Tree, marks: &mut Marks, node: u32)
    requires { IsMarksOf (grid_of tree.now) marks.old }
    ensures { IsMarksOf (grid_of tree.now) marks.new }
{
    if node < tree.len() && tree.is_leaf(node) {
        let level = tree.at(node).level;
        let shape = tree.shape();
        marks.put(tree, node, level < shape.max, shape.min < level);
    }
}

/// The names of two cell variables, a face variable and an edge variable.
fn four_names(alloc: Global) -> Result<Names, Fail>
    ensures { IfOk result (λ names. length names.cells ≡ 2) }
{
    let mut names = Names::new(alloc);
    names.add_cell(alloc, "u")?;
    names.add_cell(alloc, "v")?;
    names.set_face(alloc, "f")?;
    names.set_edge(alloc, "e")?;
    Ok(names)
}

/// The digest, by another program, of the image of two roots on x, which is periodic, with the first one refined, of
/// four cells along each axis, with two cell variables, a face and an edge variable, each number the place on x at which
/// it stands, with turn 2: the fourth node is marked to be merged, and the last one to be refined.
const WHOLE_DIGEST: [u8; 32] = [
    0x30, 0x67, 0x5f, 0x1f, 0xba, 0xe6, 0x38, 0xaa, 0x30, 0xdd, 0xd5, 0x4e, 0x97, 0x24, 0x14, 0x73,
    0x84, 0xb5, 0x5f, 0x4d, 0x31, 0x30, 0x01, 0x30, 0x55, 0x36, 0x96, 0x6c, 0x38, 0x63, 0x49, 0xa3,
];

/// That image as it is written.
fn whole_image(alloc: Global, tree: &Tree) -> Result<Vec<u8>, Fail> {
    let mut marks = Marks::empty(alloc, tree)?;
    mark(tree, &mut marks, 3);
    mark(tree, &mut marks, 9);
    let names = four_names(alloc)?;
    let mut writer = ImageWriter::new(tree.shape(), 2);
    let outs = [1 << 100, -3];
    let mut buf = vec![in alloc; 0; 65536]?;
    let size = writer.next(tree, &marks, &names, &outs, &Places, &mut buf);
    let mut end = [0; 64];
    let last = writer.next(tree, &marks, &names, &outs, &Places, &mut end);
    joined(
        alloc,
        front(&buf, size as usize),
        front(&end, last as usize),
    )
}

#[test]
fn what_was_written_is_read(rt: HostRuntime) -> Result<(), Fail> {
    let shape = shape_of(2, SideKind::Periodic, SideKind::Closed);
    let tree = tree_of(rt.alloc(), shape, true).ok_or("no tree")?;
    let bytes = whole_image(rt.alloc(), &tree)?;
    assert_eq!(rt; bytes.len(), 42127);
    assert_eq!(rt; bytes.get(42095..), Some(WHOLE_DIGEST.as_slice()));
    let image = read_image(rt.alloc(), &bytes)?;
    let names = &image.declared.names;
    assert_eq!(rt; image.turn, 2);
    assert_eq!(rt; image.declared.shape, shape);
    assert_eq!(rt;
        (names.cells(), names.face(), names.edge()),
        (2, Some("f"), Some("e"))
    );
    assert_eq!(rt; (image.tree.len(), image.tree.leaf_count()), (10, 9));
    for node in 0..10 {
        assert_eq!(rt; marks_at(&image, node), Some((node == 9, node == 3)));
    }
    assert_eq!(rt; image.outs.as_slice(), [1 << 100, -3].as_slice());
    for contents in &image.cells {
        assert_eq!(rt; contents.len(), 576);
        for place in 0..576 {
            assert_eq!(rt; contents[place], (place % 4) as i64);
        }
    }
    assert_eq!(rt; (image.faces.len(), image.edges.len()), (1936, 2164));
    Ok(())
}
