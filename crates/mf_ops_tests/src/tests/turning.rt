//! Contours with the turning check on, and off.

use super::{
    CLOCKWISE, Corners, PIXEL, RECTANGLE, assert_refused, assert_runs, assert_total, contour, fill,
    picture_after, run, unchecked_contour, wind,
};
use mf_geom::CycleFault;
use mf_ops::OpFault;
use mf_rows::{Picture, Run};
use std::process::Abort;

/// Two squares that meet in a point, one walked counterclockwise and the other clockwise: the turning number is 0.
pub(super) const EIGHT: Corners = &[(0, 0), (1, 0), (1, 2), (2, 2), (2, 1), (0, 1)];

/// The pixel (0, 0) with a spike to the right, two pixels long. The path turns straight back at vertex 1.
pub(super) const SPIKE: Corners = &[(0, 0), (3, 0), (1, 0), (1, 1), (0, 1)];

/// A segment there and back.
const THERE_AND_BACK: Corners = &[(0, 0), (1, 0)];

/// The refusal of an operation for this fault of its cycle.
fn refusal(fault: CycleFault) -> OpFault {
    OpFault::Cycle(fault)
}

/// Asserts that with the check off this contour fills exactly these runs, with this total.
fn assert_unchecked<R: Abort + AllocGlobal>(
    rt: &R,
    corners: Corners,
    number: i32,
    runs: &[Run],
    total: i64,
) {
    let blank = Picture::blank(rt.alloc());
    let filled = picture_after(rt, &blank, &unchecked_contour(rt, corners, 1, number));
    assert_runs(rt, &filled, runs);
    assert_total(rt, &filled, total);
}

#[test]
fn unchecked_contours_wind_as_they_are(rt: HostRuntime) {
    assert_unchecked(&rt, EIGHT, 1, &[run(1, 1, 1, -1), run(0, 0, 1, 1)], 0);
    assert_unchecked(&rt, SPIKE, 1, &[run(0, 0, 1, 1)], 1);
    assert_unchecked(&rt, THERE_AND_BACK, 3, &[], 0);
}

#[test]
fn unchecked_contours_are_not_negated(rt: HostRuntime) {
    let below = [run(1, 0, 3, -1), run(0, 0, 3, -1)];
    assert_unchecked(&rt, CLOCKWISE, 1, &below, -6);
    let twice = [run(1, 0, 3, 2), run(0, 0, 3, 2)];
    assert_unchecked(&rt, CLOCKWISE, -2, &twice, 12);
    assert_unchecked(&rt, RECTANGLE, 2, &twice, 12);
}

/// Asserts that with the check on this contour is refused with this fault, whatever it would make of the weights: on a picture
/// with room for them, and on one in which a pixel has the greatest weight.
fn assert_checked<R: Abort + AllocGlobal>(
    rt: &R,
    corners: Corners,
    times: usize,
    fault: CycleFault,
) {
    let op = contour(rt, corners, times, 3);
    assert_refused(rt, &fill(rt, &[(RECTANGLE, 2)]), &op, refusal(fault));
    assert_refused(rt, &full(rt), &op, refusal(fault));
}

/// A picture whose pixel (0, 0) has the greatest weight.
fn full<R: Abort + AllocGlobal>(rt: &R) -> Picture {
    let nearly = wind(rt, &[(PIXEL, 1024, 3); 10]);
    picture_after(
        rt,
        &picture_after(rt, &nearly, &contour(rt, PIXEL, 682, 3)),
        &contour(rt, PIXEL, 1, 1),
    )
}

#[test]
fn checked_contours_turn_lawfully(rt: HostRuntime) {
    assert_checked(&rt, SPIKE, 1, CycleFault::Backtracks(1));
    assert_checked(&rt, THERE_AND_BACK, 1, CycleFault::Backtracks(0));
    assert_checked(&rt, EIGHT, 1, CycleFault::TurningZero);
    // The path turns straight back, and its other turns do not add up to a whole turn: turning back is reported first.
    let both: Corners = &[
        (0, 0),
        (2, 0),
        (1, 0),
        (1, 1),
        (3, 1),
        (3, 2),
        (1, 2),
        (1, 3),
        (0, 3),
    ];
    assert_checked(&rt, both, 1, CycleFault::Backtracks(1));
}

#[test]
fn unchecked_contours_have_the_limit_of_weights(rt: HostRuntime) {
    let full = full(&rt);
    for corners in [EIGHT, SPIKE] {
        assert_refused(
            &rt,
            &full,
            &unchecked_contour(&rt, corners, 1, 1),
            OpFault::WeightTooLarge,
        );
    }
    let same = picture_after(&rt, &full, &unchecked_contour(&rt, THERE_AND_BACK, 1, 3));
    assert_total(&rt, &same, 32767);
}
