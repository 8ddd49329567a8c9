ghost use Rattle.std.specs.Prelude.{◌<◌};

use crate::program::amr;
use crate::status::Status;
use outside_io::memory_disk::MemDisk;
use outside_io::memory_sink::MemSink;
use outside_io::memory_source::MemSource;
use std::alloc::Global;
use std::test::Fail;

const SCRIPT: &[u8] =
    b"domain 1 1 1\ncells 4 1\ncellvar u\nfill u all 2\nfill u box 0 1 0 0 3 1 1 -5\nprint u\ntotal u\nend\n";

/// What the script prints, in 18 lines.
const PRINTED: &[u8] =
    b"cell u block 0 0 0 0\n2 -5 -5 2\n2 2 2 2\n2 2 2 2\n2 2 2 2\n2 2 2 2\n2 2 2 2\n2 2 2 2\n2 2 2 2\n2 2 2 2\n2 2 2 2\n2 2 2 2\n2 2 2 2\n2 2 2 2\n2 2 2 2\n2 2 2 2\n2 2 2 2\ntotal u 114 out 0\n";

/// How the outside behaves: the bytes of a read and of a write, and the number of the call that fails, from 1.
#[derive(Clone, Copy)]
struct Outside {
    read_step: u32,
    failing_read: u64,
    write_step: u32,
    failing_write: u64,
    ghost steps: { (0 < read_step) × (0 < write_step) },
}

/// Nothing fails, and calls move all that they are handed.
const QUIET: Outside = Outside {
    read_step: 1 << 20,
    failing_read: 0,
    write_step: 4096,
    failing_write: 0,
};

/// Runs a script on the objects in memory.
fn run(
    alloc: Global,
    words: &[String],
    script: &[u8],
    outside: Outside,
) -> Result<(Status, MemSink), Fail> {
    let failing_read = Vec::from_slice(alloc, &[outside.failing_read])?;
    let failing_write = Vec::from_slice(alloc, &[outside.failing_write])?;
    let script = Vec::from_slice(alloc, script)?;
    let mut source = MemSource::new(script, outside.read_step, failing_read);
    let mut sink = MemSink::new(alloc, 4096, outside.write_step, failing_write)?;
    let mut disk = MemDisk::new(
        alloc,
        Vec::new(alloc),
        Vec::new(alloc),
        0,
        Vec::new(alloc),
        None,
    )?;
    let status = amr(alloc, words, &mut source, &mut sink, &mut disk);
    Ok((status, sink))
}

/// How many lines the bytes end.
fn lines_in(bytes: &[u8]) -> usize {
    bytes.iter().filter(|b| **b == b'\n').count()
}

#[test]
fn prints_the_same_in_any_pieces(rt: HostRuntime) -> Result<(), Fail> {
    let a_byte_each = Outside {
        read_step: 1,
        failing_read: 0,
        write_step: 1,
        failing_write: 0,
    };
    for outside in [QUIET, a_byte_each] {
        let (status, sink) = run(rt.alloc(), &[], SCRIPT, outside)?;
        assert_eq!(rt; status, Status::Done);
        assert_eq!(rt; sink.taken(), PRINTED);
    }
    Ok(())
}

#[test]
fn each_read_may_fail(rt: HostRuntime) -> Result<(), Fail> {
    for failing_read in 1..8 {
        let outside = Outside {
            read_step: 16,
            failing_read,
            write_step: 4096,
            failing_write: 0,
        };
        let (status, sink) = run(rt.alloc(), &[], SCRIPT, outside)?;
        assert_eq!(rt; status, Status::ReadFault, "read {failing_read}");
        assert_eq!(rt; sink.taken(), b"error: read failed\n".as_slice());
    }
    Ok(())
}

#[test]
fn each_write_may_fail(rt: HostRuntime) -> Result<(), Fail> {
    for failing_write in 1..19 {
        let outside = Outside {
            read_step: 4096,
            failing_read: 0,
            write_step: 4096,
            failing_write,
        };
        let (status, sink) = run(rt.alloc(), &[], SCRIPT, outside)?;
        assert_eq!(rt; status, Status::WriteFault, "write {failing_write}");
        assert!(rt; PRINTED.starts_with(sink.taken()));
        assert_eq!(rt; lines_in(sink.taken()) as u64, failing_write - 1);
    }
    Ok(())
}

#[test]
fn a_script_has_at_most_two_to_the_twentieth_bytes(rt: HostRuntime) -> Result<(), Fail> {
    let refused = b"error: script line 0: too long\n".as_slice();
    let table = [
        (17, Status::Done, b"".as_slice()),
        (1 << 20, Status::Done, b"".as_slice()),
        ((1 << 20) + 1, Status::Script, refused),
    ];
    for (bytes, answer, printed) in table {
        let mut script = Vec::from_slice(rt.alloc(), b"domain 1 1 1\nend\n")?;
        script.resize(bytes, b'\n')?;
        let (status, sink) = run(rt.alloc(), &[], &script, QUIET)?;
        assert_eq!(rt; status, answer, "{bytes} bytes");
        assert_eq!(rt; sink.taken(), printed);
    }
    Ok(())
}

#[test]
fn words_are_refused(rt: HostRuntime) -> Result<(), Fail> {
    let words = vec![in rt.alloc(); String::from_str(rt.alloc(), "--ranks")?]?;
    let (status, sink) = run(rt.alloc(), &words, SCRIPT, QUIET)?;
    assert_eq!(rt; status, Status::Words);
    assert!(rt; sink.taken().starts_with(b"error: words; usage: amr "));
    Ok(())
}

/// Scripts that are not run, and what is said of them.
const REFUSED: [(&[u8], &[u8]); 4] = [
    (b"", b"error: script line 1: end missing\n"),
    (
        b"domain 1 1 1\nfill all 2\nend\n",
        b"error: script line 2: wrong number of words\n",
    ),
    (
        b"domain 1 2 1\nfacevar f\nprint ranks\nend\n",
        b"error: not built\n",
    ),
    (
        b"domain 1 1 1\ncellvar u\nprint trace\nend\n",
        b"error: not built\n",
    ),
];

#[test]
fn says_why_a_script_is_not_run(rt: HostRuntime) -> Result<(), Fail> {
    for (script, line) in REFUSED {
        let (status, sink) = run(rt.alloc(), &[], script, QUIET)?;
        assert_eq!(rt; status, Status::Script);
        assert_eq!(rt; sink.taken(), line);
    }
    Ok(())
}

/// Two by two roots, of which each has another number.
const FOUR_ROOTS: &[u8] =
    b"domain 2 2 1\ncells 4 1\ncellvar u\nfill u box 0 4 0 0 8 4 4 1\nfill u box 0 0 4 0 4 8 4 2\nfill u box 0 4 4 0 8 8 4 3\nprint u\ntotal u\nend\n";

#[test]
fn blocks_go_in_morton_order(rt: HostRuntime) -> Result<(), Fail> {
    let (status, sink) = run(rt.alloc(), &[], FOUR_ROOTS, QUIET)?;
    assert_eq!(rt; status, Status::Done);
    // A block has a head line of 21 bytes and 16 rows of 8 bytes.
    let table = [
        (0, b"cell u block 0 0 0 0\n0 0 0 0\n".as_slice()),
        (149, b"cell u block 0 1 0 0\n1 1 1 1\n".as_slice()),
        (298, b"cell u block 0 0 1 0\n2 2 2 2\n".as_slice()),
        (447, b"cell u block 0 1 1 0\n3 3 3 3\n".as_slice()),
        (596, b"total u 384 out 0\n".as_slice()),
    ];
    for (place, text) in table {
        let rest = sink.taken().get(place..).unwrap_or(&[]);
        assert!(rt; rest.starts_with(text), "at byte {place}");
    }
    Ok(())
}

/// Scripts that move a variable, each with how it ends and what it prints.
const MOVED: [(&[u8], Status, &[u8]); 4] = [
    // Half of each cell goes on to the next, rounded down, and round the periodic row.
    (
        b"domain 1 1 1\ncells 4 1\nlevels 0 0\ncellvar u\nfill u box 0 3 0 0 4 1 1 5\nfill u box 0 0 0 0 1 1 1 1\nadvect u 524288 0 0\nprint u\ntotal u\nend\n",
        Status::Done,
        b"cell u block 0 0 0 0\n3 0 0 3\n0 0 0 0\n0 0 0 0\n0 0 0 0\n0 0 0 0\n0 0 0 0\n0 0 0 0\n0 0 0 0\n0 0 0 0\n0 0 0 0\n0 0 0 0\n0 0 0 0\n0 0 0 0\n0 0 0 0\n0 0 0 0\n0 0 0 0\ntotal u 6 out 0\n",
    ),
    // A whole cell a step may go; more ends the run, after what was printed.
    (
        b"domain 1 1 1\ncells 4 1\nlevels 0 0\ncellvar u\nfill u box 0 3 0 0 4 1 1 5\nadvect u 1048576 0 0\nprint u\nadvect u 1048576 1 0\nend\n",
        Status::Stopped,
        b"cell u block 0 0 0 0\n5 0 0 0\n0 0 0 0\n0 0 0 0\n0 0 0 0\n0 0 0 0\n0 0 0 0\n0 0 0 0\n0 0 0 0\n0 0 0 0\n0 0 0 0\n0 0 0 0\n0 0 0 0\n0 0 0 0\n0 0 0 0\n0 0 0 0\n0 0 0 0\nerror: line 8: courant 1048576 1 0\n",
    ),
    (THROUGH_A_SIDE, Status::Done, OUT_AND_IN),
    // What comes to a closed side stays there, up to the greatest number of a cell.
    (
        b"domain 1 1 1\ncells 4 1\nbounds closed closed periodic periodic periodic periodic\nlevels 0 0\ncellvar u\nfill u box 0 3 0 0 4 1 1 1099511627776\nfill u box 0 2 0 0 3 1 1 1\nadvect u 1048576 0 0\nend\n",
        Status::Stopped,
        b"error: line 8: range u cell 0 3 0 0 1099511627777\n",
    ),
];

/// A variable goes out through an outflow side, and comes in there.
const THROUGH_A_SIDE: &[u8] =
    b"domain 1 1 1\ncells 4 1\nbounds closed outflow periodic periodic periodic periodic\nlevels 0 0\ncellvar u\nfill u box 0 2 0 0 3 1 1 7\nadvect u 1048576 0 0\ntotal u\nadvect u 1048576 0 0\ntotal u\nfill u box 0 0 0 0 1 1 1 4\nadvect u -1048576 0 0\ntotal u\nfill u box 0 3 0 0 4 1 1 2\nadvect u -1048576 0 0\ntotal u\nend\n";

/// What that script prints.
const OUT_AND_IN: &[u8] = b"total u 7 out 0\ntotal u 0 out 7\ntotal u 4 out 7\ntotal u 8 out 5\n";

#[test]
fn moves_variables(rt: HostRuntime) -> Result<(), Fail> {
    for (script, answer, printed) in MOVED {
        let (status, sink) = run(rt.alloc(), &[], script, QUIET)?;
        assert_eq!(rt; status, answer);
        assert_eq!(rt; sink.taken(), printed);
    }
    Ok(())
}

#[test]
fn a_fault_ends_a_run_that_moves(rt: HostRuntime) -> Result<(), Fail> {
    let second_read = Outside {
        read_step: 8,
        failing_read: 2,
        write_step: 4096,
        failing_write: 0,
    };
    let third_write = Outside {
        read_step: 4096,
        failing_read: 0,
        write_step: 4096,
        failing_write: 3,
    };
    let table = [
        (
            second_read,
            Status::ReadFault,
            b"error: read failed\n".as_slice(),
        ),
        (
            third_write,
            Status::WriteFault,
            b"total u 7 out 0\ntotal u 0 out 7\n",
        ),
    ];
    for (outside, answer, printed) in table {
        let (status, sink) = run(rt.alloc(), &[], THROUGH_A_SIDE, outside)?;
        assert_eq!(rt; status, answer);
        assert_eq!(rt; sink.taken(), printed);
    }
    Ok(())
}

/// Scripts that refine and merge, each with how it ends and what it prints.
const GROWN: [(&[u8], Status, &[u8]); 5] = [
    // Roots across a corner of the domain, through periodic sides, are refined besides.
    (
        b"domain 4 4 4\ncells 4 1\nlevels 0 2\nmark refine 0 0 0 0\nregrid\nprint size\nmark refine 1 0 0 0\nregrid\nprint size\nend\n",
        Status::Done,
        b"mesh nodes 72 leaves 71\nmesh nodes 136 leaves 127\n",
    ),
    // A mark at the limit of levels.
    (
        b"domain 1 1 1\ncells 4 1\nlevels 0 0\ncellvar u\nmark refine 0 0 0 0\nend\n",
        Status::Level,
        b"error: line 5: level 0 limit 0\n",
    ),
    // A mark on what is no leaf.
    (
        b"domain 1 1 1\ncells 4 1\nlevels 0 0\ncellvar u\nmark refine 1 0 0 0\nend\n",
        Status::Stopped,
        b"error: line 5: place block 1 0 0 0\n",
    ),
    (BESIDE_A_FINER_ROOT, Status::Done, TEN_NODES),
    (
        MERGED,
        Status::Done,
        b"mesh nodes 9 leaves 8\nmesh nodes 9 leaves 8\nmesh nodes 1 leaves 1\n",
    ),
];

/// A root that is refined. Seven marks to merge its children do nothing, and eight merge them.
const MERGED: &[u8] = b"domain 1 1 1\nlevels 0 1\nmark refine 0 0 0 0\nregrid\nprint size\n\
mark derefine 1 0 0 0\nmark derefine 1 1 0 0\nmark derefine 1 0 1 0\nmark derefine 1 1 1 0\n\
mark derefine 1 0 0 1\nmark derefine 1 1 0 1\nmark derefine 1 0 1 1\nregrid\nprint size\n\
mark derefine 1 0 0 0\nmark derefine 1 1 0 0\nmark derefine 1 0 1 0\nmark derefine 1 1 1 0\n\
mark derefine 1 0 0 1\nmark derefine 1 1 0 1\nmark derefine 1 0 1 1\nmark derefine 1 1 1 1\nregrid\nprint size\nend\n";

/// Two roots, of which the first is refined, between outflow sides.
const BESIDE_A_FINER_ROOT: &[u8] =
    b"domain 2 1 1\ncells 4 1\nbounds outflow outflow periodic periodic periodic periodic\nlevels 0 1\nmark refine 0 0 0 0\nregrid\nprint tree\nend\n";

/// Its tree.
const TEN_NODES: &[u8] = b"node 0 level 0 at 0 0 0 type 2 parent -1 faces -20 9 0 0 0 0\n\
node 1 level 1 at 0 0 0 type 1 parent 0 faces -20 2 3 3 5 5\n\
node 2 level 1 at 1 0 0 type 1 parent 0 faces 1 -1 4 4 6 6\n\
node 3 level 1 at 0 1 0 type 1 parent 0 faces -20 4 1 1 7 7\n\
node 4 level 1 at 1 1 0 type 1 parent 0 faces 3 -1 2 2 8 8\n\
node 5 level 1 at 0 0 1 type 1 parent 0 faces -20 6 7 7 1 1\n\
node 6 level 1 at 1 0 1 type 1 parent 0 faces 5 -1 8 8 2 2\n\
node 7 level 1 at 0 1 1 type 1 parent 0 faces -20 8 5 5 3 3\n\
node 8 level 1 at 1 1 1 type 1 parent 0 faces 7 -1 6 6 4 4\n\
node 9 level 0 at 1 0 0 type 1 parent -1 faces 0 -20 9 9 9 9\n";

#[test]
fn refines_and_merges(rt: HostRuntime) -> Result<(), Fail> {
    for (script, answer, printed) in GROWN {
        let (status, sink) = run(rt.alloc(), &[], script, QUIET)?;
        assert_eq!(rt; status, answer);
        assert_eq!(rt; sink.taken(), printed);
    }
    Ok(())
}

/// Scripts whose numbers go with the mesh, each with how it ends and what it prints.
const CARRIED: [(&[u8], Status, &[u8]); 4] = [
    (FOLLOWED, Status::Done, MERGED_BEHIND),
    // Eight numbers that are each within the range have a sum that is not.
    (
        b"domain 1 1 1\ncells 4 1\nlevels 0 1\ncellvar u\nmark refine 0 0 0 0\nregrid\n\
fill u box 1 2 0 0 4 1 1 1099511627775\nmark derefine where u below 1099511627776\nregrid\nend\n",
        Status::Stopped,
        b"error: line 9: range u cell 0 1 0 0 2199023255550\n",
    ),
    (GUARDED, Status::Done, GUARDS),
    // Guards are those of a leaf.
    (
        b"domain 1 1 1\ncells 4 1\nlevels 0 0\ncellvar u\nprint guards u 1 0 0 0\nend\n",
        Status::Stopped,
        b"error: line 5: place block 1 0 0 0\n",
    ),
];

/// A row of roots is refined at its start, and all that holds nothing is merged, as far as the level rule allows.
const FOLLOWED: &[u8] =
    b"domain 4 1 1\ncells 4 1\nlevels 0 2\ncellvar u\nmark refine 0 0 0 0\nmark refine 0 1 0 0\nregrid\n\
mark refine 1 1 0 0\nmark derefine where u below 1\nregrid\nprint size\n\
mark derefine where u below 1\nregrid\nprint mesh\nend\n";

/// What it prints: blocks beside finer ones that go stay once more.
const MERGED_BEHIND: &[u8] =
    b"mesh nodes 28 leaves 25\nmesh nodes 12 leaves 11\nleaf 1 0 0 0\nleaf 1 1 0 0\nleaf 1 0 1 0\n\
leaf 1 1 1 0\nleaf 1 0 0 1\nleaf 1 1 0 1\nleaf 1 0 1 1\nleaf 1 1 1 1\nleaf 0 1 0 0\nleaf 0 2 0 0\n\
leaf 0 3 0 0\n";

/// Finer blocks beside a coarser one, between outflow sides.
const GUARDED: &[u8] =
    b"domain 2 1 1\ncells 4 1\nbounds outflow outflow outflow outflow outflow outflow\nlevels 0 1\n\
cellvar u\nfill u box 0 4 0 0 5 1 1 19\nmark refine 0 0 0 0\nregrid\nfill u box 1 3 0 0 4 1 1 7\n\
fill u box 1 4 0 0 5 1 1 5\nprint guards u 1 1 0 0\nend\n";

/// The cells of one of them with its guards: of a finer one beside it, of the coarser one in eighths, and clamped ones.
const GUARDS: &[u8] =
    b"guards u block 1 1 0 0\n7 5 0 0 0 3\n7 5 0 0 0 3\n0 0 0 0 0 3\n0 0 0 0 0 0\n0 0 0 0 0 0\n\
0 0 0 0 0 0\n7 5 0 0 0 3\n7 5 0 0 0 3\n0 0 0 0 0 3\n0 0 0 0 0 0\n0 0 0 0 0 0\n0 0 0 0 0 0\n\
0 0 0 0 0 2\n0 0 0 0 0 2\n0 0 0 0 0 2\n0 0 0 0 0 0\n0 0 0 0 0 0\n0 0 0 0 0 0\n0 0 0 0 0 0\n\
0 0 0 0 0 0\n0 0 0 0 0 0\n0 0 0 0 0 0\n0 0 0 0 0 0\n0 0 0 0 0 0\n0 0 0 0 0 0\n0 0 0 0 0 0\n\
0 0 0 0 0 0\n0 0 0 0 0 0\n0 0 0 0 0 0\n0 0 0 0 0 0\n0 0 0 0 0 0\n0 0 0 0 0 0\n0 0 0 0 0 0\n\
0 0 0 0 0 0\n0 0 0 0 0 0\n0 0 0 0 0 0\n";

#[test]
fn contents_go_with_the_mesh(rt: HostRuntime) -> Result<(), Fail> {
    for (script, answer, printed) in CARRIED {
        let (status, sink) = run(rt.alloc(), &[], script, QUIET)?;
        assert_eq!(rt; status, answer);
        assert_eq!(rt; sink.taken(), printed);
    }
    Ok(())
}

/// Scripts with a face variable, how they end, and what they print.
const FACED: [(&[u8], Status, &[u8]); 5] = [
    // A uniform flux has no net flux, nor has what the inner rule makes of it; one face that is set has, in the two cells
    // beside it. A face with finer faces in it is no leaf face.
    (
        b"domain 1 1 1\ncells 4 1\nlevels 0 1\nfacevar b\nuniform 3 0 -2\nnetflux\nmark refine 0 0 0 0\n\
regrid\nnetflux\nfaceset x 1 1 0 0 5\nnetflux\nfaceset x 0 1 0 0 5\nend\n",
        Status::Stopped,
        b"netflux b cells 0\nnetflux b cells 0\nnetflux b cells 2\nerror: line 12: place face x 0 1 0 0\n",
    ),
    // A face of level 0 has four times the area of a finest face.
    (
        b"domain 1 1 1\ncells 4 1\nlevels 0 1\nfacevar b\nuniform 1099511627776 0 0\nend\n",
        Status::Stopped,
        b"error: line 5: range b face x 0 0 0 0 4398046511104\n",
    ),
    // The face of a finer leaf at a jump of level is part of the coarse face beside it.
    (
        b"domain 2 1 1\ncells 4 1\nlevels 0 1\nfacevar b\nuniform 4 8 -4\nmark refine 0 0 0 0\nregrid\n\
netflux\nfaceset x 1 8 2 3 9\nnetflux\nfaceset x 0 4 1 1 9\nend\n",
        Status::Stopped,
        b"netflux b cells 0\nnetflux b cells 2\nerror: line 11: place face x 0 4 1 1\n",
    ),
    (
        MERGED_FACES,
        Status::Done,
        b"netflux b cells 2\nnetflux b cells 2\nmesh nodes 1 leaves 1\n",
    ),
    // Three of the four numbers are at the limit, and their sum is that of the face where the domain begins again.
    (
        SUMMED_FACES,
        Status::Stopped,
        b"error: line 19: range b face x 0 0 0 0 3298534883329\n",
    ),
];

/// One of four finer faces is set, and eight leaves are merged.
const MERGED_FACES: &[u8] =
    b"domain 1 1 1\ncells 4 1\nlevels 0 1\nfacevar b\nuniform 4 0 0\nmark refine 0 0 0 0\nregrid\n\
faceset x 1 2 0 0 9\nnetflux\nmark derefine 1 0 0 0\nmark derefine 1 1 0 0\nmark derefine 1 0 1 0\n\
mark derefine 1 1 1 0\nmark derefine 1 0 0 1\nmark derefine 1 1 0 1\nmark derefine 1 0 1 1\n\
mark derefine 1 1 1 1\nregrid\nnetflux\nprint size\nend\n";

/// Eight leaves are merged with a sum that is out of range.
const SUMMED_FACES: &[u8] =
    b"domain 1 1 1\ncells 4 1\nlevels 0 1\nfacevar b\nmark refine 0 0 0 0\nregrid\n\
faceset x 1 0 0 0 1099511627776\nfaceset x 1 0 1 0 1099511627776\nfaceset x 1 0 0 1 1099511627776\n\
faceset x 1 0 1 1 1\nmark derefine 1 0 0 0\nmark derefine 1 1 0 0\nmark derefine 1 0 1 0\n\
mark derefine 1 1 1 0\nmark derefine 1 0 0 1\nmark derefine 1 1 0 1\nmark derefine 1 0 1 1\n\
mark derefine 1 1 1 1\nregrid\nend\n";

#[test]
fn faces_go_with_the_mesh(rt: HostRuntime) -> Result<(), Fail> {
    for (script, answer, printed) in FACED {
        let (status, sink) = run(rt.alloc(), &[], script, QUIET)?;
        assert_eq!(rt; status, answer);
        assert_eq!(rt; sink.taken(), printed);
    }
    Ok(())
}

/// Scripts with an edge variable, how they end, and what they print.
const EDGED: [(&[u8], Status, &[u8]); 6] = [
    (
        b"domain 1 1 1\ncells 4 1\nlevels 0 0\nfacevar b\nedgevar e\nedgeset z 0 1 1 0 10\ncurl\nprint b\nnetflux\nend\n",
        Status::Done,
        CURLED,
    ),
    // What a curl makes has no net flux, and keeps none where the mesh is refined.
    (
        b"domain 2 1 1\ncells 4 2\nlevels 0 1\ncellvar u\nfacevar b\nedgevar e\nedgeset z 0 2 2 1 90000\n\
edgeset x 0 3 1 2 70000\ncurl\nnetflux\nmark refine 0 0 0 0\nregrid\nnetflux\nend\n",
        Status::Done,
        b"netflux b cells 0\nnetflux b cells 0\n",
    ),
    // The first face out of range has its canonical name.
    (
        b"domain 2 1 1\ncells 4 1\nlevels 0 1\nfacevar b\nedgevar e\nmark refine 0 1 0 0\nregrid\n\
edgeset y 1 0 2 1 1099511627776\nedgeset y 1 0 2 2 -1099511627776\ncurl\nend\n",
        Status::Stopped,
        b"error: line 10: range b face x 1 0 2 1 2199023255552\n",
    ),
    // At a jump of level the finer edges alone are leaf edges, and the coarse edge is the sum of its halves: a curl has no
    // net flux then.
    (
        b"domain 2 1 1\ncells 4 1\nlevels 0 1\nfacevar b\nedgevar e\nmark refine 0 0 0 0\nregrid\n\
edgeset y 1 8 3 0 7\nedgeset z 1 8 4 5 -9\nedgeset x 0 5 1 1 4\ncurl\nnetflux\nedgeset y 0 4 1 0 7\nend\n",
        Status::Stopped,
        b"netflux b cells 0\nerror: line 13: place edge y 0 4 1 0\n",
    ),
    // An edge at the far end of a periodic axis is named by position 0, and one with finer leaves round it is none.
    (
        b"domain 1 1 1\ncells 4 1\nedgevar e\nedgeset z 0 4 0 0 1\nend\n",
        Status::Stopped,
        b"error: line 4: place edge z 0 4 0 0\n",
    ),
    (
        b"domain 1 1 1\ncells 4 1\nlevels 0 1\nedgevar e\nedgeset z 0 1 1 0 5\nmark refine 0 0 0 0\nregrid\n\
edgeset z 0 1 1 0 5\nend\n",
        Status::Stopped,
        b"error: line 8: place edge z 0 1 1 0\n",
    ),
];

/// Scripts with steps of the face variable, how they end, and what they print.
const INDUCTED: [(&[u8], Status, &[u8]); 4] = [
    // What a curl made round one edge moves half a cell along x.
    (
        b"domain 1 1 1\ncells 4 1\nlevels 0 0\nfacevar b\nedgevar e\nedgeset z 0 1 1 0 10\ncurl\ninduct 524288 0 0\nprint b\nnetflux\nend\n",
        Status::Done,
        HALF_A_CELL_ON,
    ),
    // No leaf cell gets a net flux, over jumps of level and regrids, until a single face is set.
    (
        b"domain 2 1 1\ncells 4 2\nlevels 0 1\ncellvar u\nfacevar b\nedgevar e\nedgeset z 0 2 2 1 90000\n\
edgeset x 0 3 1 2 70000\ncurl\nnetflux\nmark refine 0 0 0 0\nregrid\nnetflux\n\
induct 1000 2000 -500\ninduct 1000 2000 -500\ninduct 1000 2000 -500\ninduct 1000 2000 -500\ninduct 1000 2000 -500\n\
netflux\nmark derefine where u below 1\nregrid\nnetflux\nfaceset x 0 1 1 1 1000000\nnetflux\nend\n",
        Status::Done,
        b"netflux b cells 0\nnetflux b cells 0\nnetflux b cells 0\nnetflux b cells 0\nnetflux b cells 2\n",
    ),
    // Speeds that together go more than one finest cell are refused before any number is looked at.
    (
        b"domain 1 1 1\ncells 4 1\nlevels 0 1\nfacevar b\ninduct 524288 0 0\ninduct 524288 0 -1\nend\n",
        Status::Stopped,
        b"error: line 6: courant 524288 0 -1\n",
    ),
    // With the speed on y alone each edge along z has the face normal to x one cell below it: the face normal to y at (1, 1, 0)
    // gets the 1 of the face normal to x at (2, 0, 0), and would have one more than the greatest number.
    (
        b"domain 1 1 1\ncells 4 1\nlevels 0 0\nfacevar b\nfaceset y 0 1 1 0 1099511627776\nfaceset x 0 2 0 0 1\ninduct 0 1048576 0\nend\n",
        Status::Stopped,
        b"error: line 7: range b face y 0 1 1 0 1099511627777\n",
    ),
];

/// The face variable after half of a field round one edge has moved one cell along x.
const HALF_A_CELL_ON: &[u8] =
    b"face b x block 0 0 0 0\n0 5 5 0 0\n0 -5 -5 0 0\n0 0 0 0 0\n0 0 0 0 0\n0 0 0 0 0\n0 0 0 0 0\n0 0 0 0 0\n\
0 0 0 0 0\n0 0 0 0 0\n0 0 0 0 0\n0 0 0 0 0\n0 0 0 0 0\n0 0 0 0 0\n0 0 0 0 0\n0 0 0 0 0\n0 0 0 0 0\n\
face b y block 0 0 0 0\n0 0 0 0\n-5 0 5 0\n0 0 0 0\n0 0 0 0\n0 0 0 0\n0 0 0 0\n0 0 0 0\n0 0 0 0\n\
0 0 0 0\n0 0 0 0\n0 0 0 0\n0 0 0 0\n0 0 0 0\n0 0 0 0\n0 0 0 0\n0 0 0 0\n0 0 0 0\n0 0 0 0\n0 0 0 0\n\
0 0 0 0\nface b z block 0 0 0 0\n0 0 0 0\n0 0 0 0\n0 0 0 0\n0 0 0 0\n0 0 0 0\n0 0 0 0\n0 0 0 0\n\
0 0 0 0\n0 0 0 0\n0 0 0 0\n0 0 0 0\n0 0 0 0\n0 0 0 0\n0 0 0 0\n0 0 0 0\n0 0 0 0\n0 0 0 0\n0 0 0 0\n\
0 0 0 0\n0 0 0 0\nnetflux b cells 0\n";

#[test]
fn fields_on_faces_are_carried(rt: HostRuntime) -> Result<(), Fail> {
    for (script, answer, printed) in INDUCTED {
        let (status, sink) = run(rt.alloc(), &[], script, QUIET)?;
        assert_eq!(rt; status, answer);
        assert_eq!(rt; sink.taken(), printed);
    }
    Ok(())
}

/// The face variable after a curl round one edge along z.
const CURLED: &[u8] =
    b"face b x block 0 0 0 0\n0 10 0 0 0\n0 -10 0 0 0\n0 0 0 0 0\n0 0 0 0 0\n0 0 0 0 0\n0 0 0 0 0\n0 0 0 0 0\n\
0 0 0 0 0\n0 0 0 0 0\n0 0 0 0 0\n0 0 0 0 0\n0 0 0 0 0\n0 0 0 0 0\n0 0 0 0 0\n0 0 0 0 0\n0 0 0 0 0\n\
face b y block 0 0 0 0\n0 0 0 0\n-10 10 0 0\n0 0 0 0\n0 0 0 0\n0 0 0 0\n0 0 0 0\n0 0 0 0\n0 0 0 0\n\
0 0 0 0\n0 0 0 0\n0 0 0 0\n0 0 0 0\n0 0 0 0\n0 0 0 0\n0 0 0 0\n0 0 0 0\n0 0 0 0\n0 0 0 0\n0 0 0 0\n\
0 0 0 0\nface b z block 0 0 0 0\n0 0 0 0\n0 0 0 0\n0 0 0 0\n0 0 0 0\n0 0 0 0\n0 0 0 0\n0 0 0 0\n\
0 0 0 0\n0 0 0 0\n0 0 0 0\n0 0 0 0\n0 0 0 0\n0 0 0 0\n0 0 0 0\n0 0 0 0\n0 0 0 0\n0 0 0 0\n0 0 0 0\n\
0 0 0 0\n0 0 0 0\nnetflux b cells 0\n";

#[test]
fn edges_go_with_the_mesh(rt: HostRuntime) -> Result<(), Fail> {
    for (script, answer, printed) in EDGED {
        let (status, sink) = run(rt.alloc(), &[], script, QUIET)?;
        assert_eq!(rt; status, answer);
        assert_eq!(rt; sink.taken(), printed);
    }
    Ok(())
}

/// Scripts that print the guards of a block which is its own neighbour on all sides, and how what they print begins.
const WRAPPED: [(&[u8], &[u8]); 2] = [
    // The face at position 1 stands at position 5 again, where the domain begins anew, and in the guards on y and z.
    (
        b"domain 1 1 1\ncells 4 1\nlevels 0 0\nfacevar b\nfaceset x 0 1 0 0 5\nprint guards b 0 0 0 0\nend\n",
        b"guards b x block 0 0 0 0\n0 0 0 0 0 0 0\n0 0 0 0 0 0 0\n0 0 0 0 0 0 0\n0 0 0 0 0 0 0\n\
0 0 0 0 0 0 0\n0 0 0 0 0 0 0\n0 0 0 0 0 0 0\n0 0 5 0 0 0 5\n0 0 0 0 0 0 0\n0 0 0 0 0 0 0\n0 0 0 0 0 0 0\n\
0 0 5 0 0 0 5\n0 0 0 0 0 0 0\n",
    ),
    // Across an edge numbers stand at positions: what stands at position 1 on y stands at position 5 again.
    (
        b"domain 1 1 1\ncells 4 1\nlevels 0 0\nedgevar e\nedgeset x 0 1 1 0 7\nprint guards e 0 0 0 0\nend\n",
        b"guards e x block 0 0 0 0\n0 0 0 0 0 0\n0 0 0 0 0 0\n0 0 0 0 0 0\n0 0 0 0 0 0\n0 0 0 0 0 0\n\
0 0 0 0 0 0\n0 0 0 0 0 0\n0 0 0 0 0 0\n0 0 0 0 0 0\n0 0 7 0 0 0\n0 0 0 0 0 0\n0 0 0 0 0 0\n0 0 0 0 0 0\n\
0 0 7 0 0 0\n0 0 0 0 0 0\n",
    ),
];

#[test]
fn guards_of_faces_and_edges_go_round(rt: HostRuntime) -> Result<(), Fail> {
    for (script, begins) in WRAPPED {
        let (status, sink) = run(rt.alloc(), &[], script, QUIET)?;
        assert_eq!(rt; status, Status::Done);
        assert!(rt; sink.taken().starts_with(begins));
    }
    Ok(())
}

/// What stands below the sizes of a block: two roots, of which the first is refined, and a step over the jump of level.
const STEPPED: &[u8] =
    b"levels 0 1\ncellvar u\nfill u box 0 0 0 0 4 4 4 8\nmark refine 0 0 0 0\nregrid\n\
advect u 100000 -200000 50000\nprint size\ntotal u\nend\n";

/// The heads of scripts with blocks of each size.
const SIZES: [&[u8]; 6] = [
    b"domain 2 1 1\ncells 4 1\n",
    b"domain 2 1 1\ncells 4 2\n",
    b"domain 2 1 1\ncells 4 4\n",
    b"domain 2 1 1\ncells 8 1\n",
    b"domain 2 1 1\ncells 8 2\n",
    b"domain 2 1 1\ncells 8 4\n",
];

#[test]
fn blocks_of_all_sizes_are_run(rt: HostRuntime) -> Result<(), Fail> {
    for head in SIZES {
        let mut script = Vec::from_slice(rt.alloc(), head)?;
        script.extend_from_slice(STEPPED)?;
        let (status, sink) = run(rt.alloc(), &[], &script, QUIET)?;
        assert_eq!(rt; status, Status::Done);
        assert_eq!(rt;
            sink.taken(),
            b"mesh nodes 10 leaves 9\ntotal u 512 out 0\n".as_slice()
        );
    }
    Ok(())
}
