// Samples against texts that were worked out apart from this code, and what the reader makes of them.
use super::*;
use crate::reader::read_script;
use crate::words::lines_of;
use std::process::Abort;
use std::test::Fail;

/// The sample of seed 0.
const OF_ZERO: &[u8] = b"domain 4 4 4
cells 8 2
bounds periodic periodic outflow outflow closed closed
levels 0 3
cellvar u
facevar b
edgevar e
fill u box 0 18 24 8 22 28 12 52790
edgeset z 0 17 17 5 14231
curl
mark refine where u above 800
regrid
advect u -20656 15504 -25050
induct -20656 15504 -25050
total u
netflux
print size
mark derefine where u below 1
regrid
mark refine where u above 100
regrid
advect u 13639 -28315 8934
induct 13639 -28315 8934
total u
netflux
print size
mark derefine where u below 1
regrid
mark refine where u above 12
regrid
advect u 6496 20257 3740
induct 6496 20257 3740
total u
netflux
print size
mark derefine where u below 1
regrid
end
";

fn is_of_zero(rt: &impl Abort, alloc: Global, seed: u32) -> Result<(), Fail> {
    let text = sample(alloc, seed)?;
    assert_eq!(rt; text.as_slice(), OF_ZERO);
    Ok(())
}

/// Seeds that differ by a multiple of 65537 have the same draws. The greatest seed is 65535 times that.
#[test]
fn seeds_of_one_remainder(rt: HostRuntime) -> Result<(), Fail> {
    is_of_zero(&rt, rt.alloc(), 0)?;
    is_of_zero(&rt, rt.alloc(), 65537)?;
    is_of_zero(&rt, rt.alloc(), u32::MAX)
}

/// The eighth line of seed 0, and the lines of seed 1 that differ from those of seed 0. Nothing stands
/// after the last line feed, which ends the 38th line.
#[test]
fn numbers(rt: HostRuntime) -> Result<(), Fail> {
    let zero = sample(rt.alloc(), 0)?;
    let zero_lines = lines_of(rt.alloc(), &zero)?;
    assert_eq!(rt; zero_lines.len(), 39);
    assert_eq!(rt;
        zero_lines[7],
        b"fill u box 0 18 24 8 22 28 12 52790".as_slice()
    );
    assert_eq!(rt; zero_lines[38], b"".as_slice());
    let one = sample(rt.alloc(), 1)?;
    let lines = lines_of(rt.alloc(), &one)?;
    assert_eq!(rt; lines.len(), 39);
    assert_eq!(rt; lines[7], b"fill u box 0 9 21 17 13 25 21 39044".as_slice());
    assert_eq!(rt; lines[8], b"edgeset z 0 11 11 5 27463".as_slice());
    assert_eq!(rt; lines[12], b"advect u -11311 -4528 -20099".as_slice());
    assert_eq!(rt; lines[13], b"induct -11311 -4528 -20099".as_slice());
    assert_eq!(rt; lines[21], b"advect u -8258 27836 -17668".as_slice());
    assert_eq!(rt; lines[22], b"induct -8258 27836 -17668".as_slice());
    assert_eq!(rt; lines[30], b"advect u -22544 4978 -28056".as_slice());
    assert_eq!(rt; lines[31], b"induct -22544 4978 -28056".as_slice());
    Ok(())
}

#[test]
fn is_read(rt: HostRuntime) -> Result<(), Fail> {
    let text = sample(rt.alloc(), 1)?;
    let script = read_script(rt.alloc(), None, &text)?;
    assert_eq!(rt; script.declared.names.face(), Some("b"));
    assert_eq!(rt; script.lines.len(), 30);
    Ok(())
}
