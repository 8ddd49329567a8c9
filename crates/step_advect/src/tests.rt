//! Fluxes and steps that are worked by hand.

ghost use Rattle.amr_num.specs.Numbers.{Within};
ghost use Rattle.mesh_model.specs.Fields.ArrayPlaces.{cell_extents, face_extents, number_at};
ghost use Rattle.std.specs.Prelude.{◌≡◌, ◌*◌, ◌<◌, ◌≤◌, ◌^◌, IfOk, length, unsigned_abs};
ghost use Rattle.amr_num.specs.declared.Axis.{Axis};
ghost use Rattle.step_advect.specs.Applied.{AreInRange, inner};
ghost use Rattle.step_advect.specs.Fluxed.{AreFacesWithin, AreSidesWithin};

use crate::laws::{block_fluxes_are_of_leaves, block_steps_are_advects};
use crate::{RangeAt, apply, face_fluxes, flux, settled};
use amr_num::{Axis, OutOfMemory};
use block_store::Cells;
use std::alloc::Global;

#[test]
fn fluxes_come_from_the_donor(rt: HostRuntime) {
    let half = 524288;
    for (low, high, forward, backward) in [
        (5i64, 1i64, 2i64, 0i64),
        (1, 5, 0, -2),
        (-5, 1, -3, 0),
        (1, -5, 0, 3),
        (7, 7, 3, -3),
    ] {
        assert_eq!(rt; flux(0, half, low, high, false), forward, "{low} {high}");
        assert_eq!(rt; flux(0, -half, low, high, false), backward, "{low} {high}");
        assert_eq!(rt; flux(0, half, low, high, true), 0, "{low} {high}");
        assert_eq!(rt; flux(0, 0, low, high, false), 0, "{low} {high}");
    }
    assert_eq!(rt; flux(1, half, 5, 1, false), 5);
    assert_eq!(rt; flux(2, 131072, 7, 0, false), 3);
    assert_eq!(rt; flux(10, -1024, 7, 9, false), -9);
}

#[test]
fn contents_settle_in_range(rt: HostRuntime) {
    for (content, net, want) in [
        (5i64, 2i128, Ok(3i64)),
        (5, -2, Ok(7)),
        (1099511627776, 0, Ok(1099511627776)),
        (1099511627776, -1, Err(1099511627777i128)),
        (-1099511627775, 1, Ok(-1099511627776)),
        (-1099511627775, 2, Err(-1099511627777)),
    ] {
        assert_eq!(rt; settled(content, net), want, "{content} {net}");
    }
}

/// An array of a block of 4 cells along each axis and 1 guard cell, with one number that is not 0.
fn numbers_with(
    alloc: Global,
    many: usize,
    place: usize,
    value: i64,
) -> Result<Vec<i64>, OutOfMemory>
    requires value { Within (2 ^ 40) value }
    requires inside { place < many }
    ensures size { IfOk result (λ numbers. length numbers.items ≡ many) }
    ensures sides { IfOk result (λ numbers. (a : Axis) → AreSidesWithin (2 ^ 56) 4 1 a (number_at (cell_extents 4 1) numbers.items)) }
    ensures in_range { IfOk result (λ numbers. AreInRange 4 (inner 1 (number_at (cell_extents 4 1) numbers.items))) }
    ensures faces { IfOk result (λ numbers. (a : Axis) → AreFacesWithin (2 ^ 58) 4 1 a (number_at (face_extents 4 1 a) numbers.items)) }
{
    let Ok(mut numbers) = vec![in alloc; 0; many] else {
        return Err(OutOfMemory);
    };
    numbers[place] = value;
    Ok(numbers)
}

/// A block with one content that is not 0, and a face of it whose flux is asked for, by their places in the arrays.
#[derive(Clone, Copy)]
struct FluxCase {
    cell: usize,
    content: i64,
    axis: Axis,
    level: u32,
    speed: i64,
    closed_low: bool,
    closed_high: bool,
    face: usize,
}

/// What the face has after the block got its fluxes, where each place had 7 before.
fn flux_there(alloc: Global, case: FluxCase) -> Result<i64, OutOfMemory>
    requires content { Within (2 ^ 40) case.content }
    requires cell { case.cell < 216 }
    requires level { case.level ≤ 10 }
    requires speed { unsigned_abs case.speed * 2 ^ case.level ≤ 2 ^ 20 }
    requires face { case.face < 252 }
{
    let cells = numbers_with(alloc, 216, case.cell, case.content)?;
    let mut out = [7i64; 252];
    face_fluxes(
        &Cells::<4, 1>::new(&cells),
        case.axis,
        case.level,
        case.speed,
        case.closed_low,
        case.closed_high,
        &mut out,
    );
    Ok(out[case.face])
}

/// The cell (1, 1, 1) is at the place (2, 2, 2), which is 2 + 6 * (2 + 6 * 2), and its faces on x are at the places 2 and 3
/// of lines of 7. On y its high face is at the place (2, 3, 2) of lines of 6 and planes of 42, and on z at (2, 2, 3) of
/// planes of 36. The place 0 is none of the block's faces.
#[test]
fn blocks_have_their_fluxes(rt: HostRuntime) {
    let alloc = rt.alloc();
    let case = FluxCase {
        cell: 86,
        content: 5,
        axis: Axis::X,
        level: 0,
        speed: 524288,
        closed_low: true,
        closed_high: true,
        face: 101,
    };
    for (axis, speed, content, face, want) in [
        (Axis::X, 524288i64, 5i64, 100usize, 0i64),
        (Axis::X, 524288, 5, 101, 2),
        (Axis::X, -524288, 5, 100, -2),
        (Axis::X, -524288, 5, 101, 0),
        (Axis::X, 524288, -5, 101, -3),
        (Axis::X, 524288, 5, 0, 7),
        (Axis::Y, 524288, 5, 104, 2),
        (Axis::Z, 524288, 5, 122, 2),
    ] {
        let there = FluxCase {
            axis,
            speed,
            content,
            face,
            ..case
        };
        assert_eq!(rt;
            flux_there(alloc, there),
            Ok(want),
            "{face} {speed} {content}"
        );
    }
    assert_eq!(rt; flux_there(alloc, FluxCase { level: 1, ..case }), Ok(5));
    block_fluxes_are_of_leaves();
}

#[test]
fn closed_sides_have_none(rt: HostRuntime) {
    let alloc = rt.alloc();
    // The guard cell before (0, 1, 1) is at the place (0, 2, 2), and the block's low face there at (1, 2, 2).
    let low = FluxCase {
        cell: 84,
        content: 5,
        axis: Axis::X,
        level: 0,
        speed: 524288,
        closed_low: true,
        closed_high: false,
        face: 99,
    };
    // The last cell (3, 1, 1) is at the place (4, 2, 2), and the block's high face there at (5, 2, 2).
    let high = FluxCase {
        cell: 88,
        face: 103,
        ..low
    };
    assert_eq!(rt; flux_there(alloc, low), Ok(0));
    assert_eq!(rt; flux_there(alloc, high), Ok(2));
    let other = FluxCase {
        closed_low: false,
        closed_high: true,
        ..low
    };
    assert_eq!(rt; flux_there(alloc, other), Ok(2));
    assert_eq!(rt;
        flux_there(
            alloc,
            FluxCase {
                cell: 88,
                face: 103,
                ..other
            }
        ),
        Ok(0)
    );
}

/// A block with one content that is not 0, and one face on x with a flux, by their places in the arrays.
#[derive(Clone, Copy)]
struct StepCase {
    cell: usize,
    content: i64,
    face: usize,
    flux: i64,
    outer: [bool; 6],
    asked: usize,
}

/// What the step of the block answers, and what the place that is asked for has then, where each place had 7 before.
fn step_there(alloc: Global, case: StepCase) -> Result<(Result<i128, RangeAt>, i64), OutOfMemory>
    requires content { Within (2 ^ 40) case.content }
    requires cell { case.cell < 216 }
    requires flux { Within (2 ^ 40) case.flux }
    requires face { case.face < 252 }
    requires asked { case.asked < 216 }
{
    let cells = numbers_with(alloc, 216, case.cell, case.content)?;
    let fluxes = numbers_with(alloc, 252, case.face, case.flux)?;
    let none = numbers_with(alloc, 252, 0, 0)?;
    let mut out = [7i64; 216];
    let flown = apply::<4, 1>(&cells, &fluxes, &none, &none, case.outer, &mut out);
    Ok((flown, out[case.asked]))
}

#[test]
fn cells_lose_their_net_outflow(rt: HostRuntime) {
    let alloc = rt.alloc();
    // The cell (1, 1, 1), whose face on the high side of x is 101, and that on the low side 100.
    let high = StepCase {
        cell: 86,
        content: 5,
        face: 101,
        flux: 2,
        outer: [true; 6],
        asked: 86,
    };
    assert_eq!(rt; step_there(alloc, high), Ok((Ok(0), 3)));
    assert_eq!(rt;
        step_there(alloc, StepCase { asked: 87, ..high }),
        Ok((Ok(0), 2))
    );
    assert_eq!(rt;
        step_there(alloc, StepCase { asked: 0, ..high }),
        Ok((Ok(0), 7))
    );
    // The faces of the cells (0, 1, 1) and (3, 1, 1) on the sides of the block.
    let low_side = StepCase {
        face: 99,
        asked: 85,
        ..high
    };
    let high_side = StepCase {
        face: 103,
        asked: 88,
        ..high
    };
    let x_low = [true, false, false, false, false, false];
    assert_eq!(rt; step_there(alloc, low_side), Ok((Ok(-2), 2)));
    assert_eq!(rt;
        step_there(
            alloc,
            StepCase {
                outer: x_low,
                ..low_side
            }
        ),
        Ok((Ok(-2), 2))
    );
    assert_eq!(rt; step_there(alloc, high_side), Ok((Ok(2), -2)));
    assert_eq!(rt;
        step_there(
            alloc,
            StepCase {
                outer: x_low,
                ..high_side
            }
        ),
        Ok((Ok(0), -2))
    );
    block_steps_are_advects();
}

#[test]
fn contents_out_of_range_are_refused(rt: HostRuntime) {
    let alloc = rt.alloc();
    let most = 1099511627776;
    let kept = StepCase {
        cell: 86,
        content: most,
        face: 100,
        flux: 0,
        outer: [false; 6],
        asked: 86,
    };
    let refused = RangeAt {
        axis: Axis::X,
        i: 1,
        j: 1,
        k: 1,
        value: 1099511627777,
    };
    assert_eq!(rt; step_there(alloc, kept), Ok((Ok(0), most)));
    match step_there(alloc, StepCase { flux: 1, ..kept }) {
        Ok((flown, _)) => assert_eq!(rt; flown, Err(refused)),
        Err(OutOfMemory) => assert!(rt; false),
    }
}
