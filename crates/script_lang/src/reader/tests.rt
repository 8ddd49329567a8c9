// Scripts that are accepted, and the fault of each that is not.
use super::*;
use amr_num::BlockAt;
use mesh_model::Group;
use std::process::Abort;
use std::test::Fail;

const ACCEPTED: &[u8] =
    b"# a box\ndomain 2 1 3\n\ncells 4 1\r\nbounds outflow closed periodic periodic closed closed\nlevels 1 2\ncellvar u\n\tcellvar v_2  \nfacevar b\nedgevar e\nfill u box 1 0 1 2 16 8 24 -7\nmark refine where v_2 above 0\nadvect u 1048576 0 -5\nprint guards b 1 2 1 0\nedgeset z 0 2 3 1 1099511627776\nend\n#";

#[test]
fn accepted(rt: HostRuntime) -> Result<(), Fail> {
    let script = read_script(rt.alloc(), None, ACCEPTED)?;
    let shape = script.declared.shape;
    assert_eq!(rt; (shape.rx, shape.ry, shape.rz), (2, 1, 3));
    assert_eq!(rt; (shape.n, shape.g, shape.min, shape.max), (4, 1, 1, 2));
    assert_eq!(rt; shape.sides[1], SideKind::Closed);
    assert_eq!(rt; script.declared.names.face(), Some("b"));
    assert_eq!(rt; script.lines.len(), 5);
    let fill = Command::FillBox {
        var: 0,
        level: 1,
        low: [0, 1, 2],
        high: [16, 8, 24],
        value: -7,
    };
    assert_eq!(rt;
        script.lines[0],
        Line {
            number: 11,
            command: fill
        }
    );
    let mark = Command::RefineWhere { var: 1, above: 0 };
    assert_eq!(rt;
        script.lines[1],
        Line {
            number: 12,
            command: mark
        }
    );
    let advect = Command::Advect {
        var: 0,
        speeds: [1 << 20, 0, -5],
    };
    assert_eq!(rt;
        script.lines[2],
        Line {
            number: 13,
            command: advect
        }
    );
    let at = BlockAt {
        level: 1,
        x: 2,
        y: 1,
        z: 0,
    };
    let guards = Command::PrintGuards {
        group: Group::Face,
        at,
    };
    assert_eq!(rt;
        script.lines[3],
        Line {
            number: 14,
            command: guards
        }
    );
    Ok(())
}

fn refuses(rt: &impl Abort, alloc: Global, text: &[u8], line: u32, reason: Reason) {
    match read(alloc, None, text) {
        Ok(_) => panic!(rt; "accepted"),
        Err(stop) => assert_eq!(rt; stop, ScriptStop::Fault { line, reason }),
    }
}

#[test]
fn refused(rt: HostRuntime) {
    let table: [(&[u8], u32, Reason); 12] = [
        (b"", 1, Reason::EndMissing),
        (b"domain 1 1 1\n", 2, Reason::EndMissing),
        (b"end", 1, Reason::DomainMissing),
        (b"domain 1 1 1\nspam", 2, Reason::UnknownCommand),
        (b"domain 1 1 1\nend\n\nspam", 4, Reason::TextAfterEnd),
        (b"domain 1 1 1\nend now", 2, Reason::WordCount),
        (b"domain 1 1 1\ndomain 1 1", 2, Reason::Twice),
        (b"domain 1 1", 1, Reason::WordCount),
        (b"domain 9 x 1", 1, Reason::OutOfRange),
        (b"domain 007 1 1", 1, Reason::NotNumber),
        (b"domain 1 +1 1", 1, Reason::NotNumber),
        (b"domain 1 1 -0", 1, Reason::NotNumber),
    ];
    for (text, line, reason) in table {
        refuses(&rt, rt.alloc(), text, line, reason);
    }
}

#[test]
fn refused_words(rt: HostRuntime) {
    let table: [(&[u8], u32, Reason); 12] = [
        (b"domain 1 1 1\nlevels 3 2", 2, Reason::OutOfRange),
        (
            b"domain 1 1 1\nbounds periodic closed closed closed closed closed",
            2,
            Reason::Unpaired,
        ),
        (
            b"domain 1 1 1\ncellvar abcdefghijklmnopq",
            2,
            Reason::BadName,
        ),
        (b"domain 1 1 1\ncellvar u\nfacevar u", 3, Reason::NameTaken),
        (b"domain 1 1 1\nfacevar b\nfacevar c", 3, Reason::TooMany),
        (b"domain 1 1 1\nregrid\nlevels 0 1", 3, Reason::TooLate),
        (b"domain 1 1 1\nnetflux", 2, Reason::UnknownVariable),
        (
            b"domain 1 1 1\ncellvar u\nfill v any 1",
            3,
            Reason::UnknownVariable,
        ),
        (
            b"domain 1 1 1\ncellvar u\nmark refine where u below 1",
            3,
            Reason::UnknownWord,
        ),
        (
            b"domain 1 1 1\nmark refine here 0 0 0",
            2,
            Reason::NotNumber,
        ),
        (
            b"domain 1 1 1\ncellvar u\nfill u all 10995116277760000000000000",
            3,
            Reason::OutOfRange,
        ),
        (
            b"domain 1 1 1\ncellvar u\nfill u box 1 0 0 0 8 17 8 1",
            3,
            Reason::BadBox,
        ),
    ];
    for (text, line, reason) in table {
        refuses(&rt, rt.alloc(), text, line, reason);
    }
}

#[test]
fn given_declarations(rt: HostRuntime) -> Result<(), Fail> {
    let given = defaults(rt.alloc());
    let script = read_script(rt.alloc(), Some(&given), b"print size\nend")?;
    assert_eq!(rt; script.lines.len(), 1);
    assert_eq!(rt;
        script.lines[0],
        Line {
            number: 1,
            command: Command::PrintSize
        }
    );
    match read(rt.alloc(), Some(&given), b"domain 1 1 1\nend") {
        Ok(_) => panic!(&rt; "accepted"),
        Err(stop) => assert_eq!(rt;
            stop,
            ScriptStop::Fault {
                line: 1,
                reason: Reason::TooLate
            }
        ),
    }
    Ok(())
}
