//! Contours.

use super::{
    CLOCKWISE, Corners, FIELD, PIXEL, RECTANGLE, assert_bounds, assert_equal, assert_refused,
    assert_runs, assert_some_runs, assert_total, assert_weights, contour, fill, picture_after, run,
    weight, wind,
};
use crate::tests::assertions::{assert_holds, assert_same};
use mf_ops::{OpFault, Weight};
use mf_rows::{Picture, RowBuilder, Run};
use std::process::Abort;

/// Asserts that these contours, each with its weight, fill exactly these runs.
fn assert_filled<R: Abort + AllocGlobal>(rt: &R, contours: &[(Corners, i32)], runs: &[Run]) {
    assert_runs(rt, &fill(rt, contours), runs);
}

/// Asserts that these numbers are weights of contours, and keep their values.
fn assert_are_weights(rt: &impl Abort, numbers: &[i32]) {
    for number in numbers {
        assert_same(rt, weight(rt, *number).get(), *number, "weight");
    }
}

/// Asserts that these numbers are refused as weights of contours.
fn assert_are_no_weights(rt: &impl Abort, numbers: &[i32]) {
    for number in numbers {
        assert_holds(rt, Weight::new(*number).is_err(), ("refused", *number));
    }
}

#[test]
fn weights_of_contours(rt: HostRuntime) {
    assert_are_weights(&rt, &[-3, -2, -1, 1, 2, 3]);
    assert_are_no_weights(&rt, &[0, 4, -4, 5, i32::MIN, i32::MAX]);
}

/// A builder with these runs. Each run must fit after the ones before it.
fn builder_of<R: Abort + AllocGlobal>(rt: &R, runs: &[Run]) -> RowBuilder {
    let mut builder = RowBuilder::new(rt.alloc());
    for run in runs {
        assert_holds(rt, builder.fits(run), ("fits", *run));
        if builder.fits(run) {
            builder
                .push_run(*run)
                .expect(rt, "there is room for the run");
        }
    }
    builder
}

/// The picture with these runs. Each run must fit after the ones before it.
pub(super) fn picture_of<R: Abort + AllocGlobal>(rt: &R, runs: &[Run]) -> Picture {
    let built = builder_of(rt, runs).finish();
    built.expect(rt, "there is room for the picture")
}

/// Asserts that these runs, pushed one after another, make the picture that filling these contours makes, and that this run does not
/// fit after them.
fn assert_builds<R: Abort + AllocGlobal>(
    rt: &R,
    runs: &[Run],
    late: &Run,
    contours: &[(Corners, i32)],
) {
    let builder = builder_of(rt, runs);
    assert_holds(rt, !builder.fits(late), ("does not fit", *late));
    let built = builder.finish().expect(rt, "there is room for the picture");
    let filled = fill(rt, contours);
    assert_equal(rt, &built, &filled, "the runs make the contours");
    assert_equal(rt, &filled, &built, "the contours make the runs");
}

/// After a run of row 0, no run of row 1 fits.
#[test]
fn pushed_runs_make_a_rectangle(rt: HostRuntime) {
    let runs = [run(1, 0, 3, 1), run(0, 0, 3, 1)];
    assert_builds(&rt, &runs, &run(1, 5, 1, 1), &[(RECTANGLE, 1)]);
}

/// Asserts that both pictures have the same weights in and around the rectangle.
fn assert_same_weights(rt: &impl Abort, filled: &Picture, built: &Picture) {
    for y in -1..3 {
        for x in -1..4 {
            assert_weights(rt, filled, &[(x, y, built.weight(x, y))]);
        }
    }
}

/// Asserts that filling the path through these corners gives these runs, with six pixels of weight 1.
fn assert_fills<R: Abort + AllocGlobal>(rt: &R, corners: Corners, runs: &[Run]) {
    let filled = fill(rt, &[(corners, 1)]);
    assert_runs(rt, &filled, runs);
    assert_total(rt, &filled, 6);
    assert_same_weights(rt, &filled, &picture_of(rt, runs));
}

#[test]
fn fills_a_rectangle(rt: HostRuntime) {
    let runs = [run(1, 0, 3, 1), run(0, 0, 3, 1)];
    assert_fills(&rt, RECTANGLE, &runs);
    assert_fills(&rt, CLOCKWISE, &runs);
}

/// Asserts that these contours, each walked a number of times and filled with its weight, make a picture with this total and with
/// these weights of pixels.
fn assert_wound<R: Abort + AllocGlobal>(
    rt: &R,
    contours: &[(Corners, usize, i32)],
    total: i64,
    pixels: &[(i32, i32, i32)],
) {
    let picture = wind(rt, contours);
    assert_total(rt, &picture, total);
    assert_weights(rt, &picture, pixels);
}

#[test]
fn winding_numbers_weigh(rt: HostRuntime) {
    assert_wound(&rt, &[(PIXEL, 1024, 1)], 1024, &[(0, 0, 1024)]);
    let contours = [(PIXEL, 1024, 1), (CLOCKWISE, 1, -2)];
    let pixels = [(0, 0, 1022), (2, 1, -2), (3, 1, 0)];
    assert_wound(&rt, &contours, 1012, &pixels);
}

/// Adds `times` turns around the pixel (0, 0), filled with the weight `number`, and asserts that the pixel then has this weight.
fn with_turns<R: Abort + AllocGlobal>(
    rt: &R,
    picture: &Picture,
    times: usize,
    number: i32,
    weight: i32,
) -> Picture {
    let sum = picture_after(rt, picture, &contour(rt, PIXEL, times, number));
    assert_weights(rt, &sum, &[(0, 0, weight)]);
    sum
}

/// Asserts that `times` turns around the pixel, filled with the weight `number`, would make its weight too large.
fn assert_too_many<R: Abort + AllocGlobal>(rt: &R, picture: &Picture, times: usize, number: i32) {
    let op = contour(rt, PIXEL, times, number);
    assert_refused(rt, picture, &op, OpFault::WeightTooLarge);
}

/// Asserts that turns around the pixel with weight `three`, and a last one with weight `one`, make these weights. The last is the
/// greatest weight that a pixel may have, or the least.
fn assert_limit<R: Abort + AllocGlobal>(
    rt: &R,
    three: i32,
    one: i32,
    [tenfold, nearly, greatest]: [i32; 3],
) {
    let picture = wind(rt, &[(PIXEL, 1024, three); 9]);
    let full = with_turns(rt, &picture, 1024, three, tenfold);
    // 33792 in absolute value
    assert_too_many(rt, &full, 1024, three);
    let more = with_turns(rt, &full, 682, three, nearly);
    let last = with_turns(rt, &more, 1, one, greatest);
    // 32768 in absolute value
    assert_too_many(rt, &last, 1, one);
}

#[test]
fn weights_have_a_limit(rt: HostRuntime) {
    assert_limit(&rt, 3, 1, [30720, 32766, 32767]);
    assert_limit(&rt, -3, -1, [-30720, -32766, -32767]);
}

/// Pixels and their weights, after the whole field is filled.
const FIELD_PIXELS: [(i32, i32, i32); 8] = [
    // The corners of the field.
    (-4095, -4095, 1),
    (4094, -4095, 1),
    (-4095, 4094, 1),
    (4094, 4094, 1),
    // Outside.
    (-4096, 0, 0),
    (4095, 0, 0),
    (0, -4096, 0),
    (0, 4095, 0),
];

#[test]
fn fills_the_whole_field(rt: HostRuntime) {
    let full = fill(&rt, &[(FIELD, 1)]);
    // 8190 rows of 8190 pixels
    assert_total(&rt, &full, 67_076_100);
    let runs = [
        (0, Some(run(4094, -4095, 8190, 1))),
        (8189, Some(run(-4095, -4095, 8190, 1))),
        (8190, None),
    ];
    assert_some_runs(&rt, &full, &runs);
    assert_weights(&rt, &full, &FIELD_PIXELS);
}

#[test]
fn fills_the_corners_of_the_field(rt: HostRuntime) {
    let lower_left: Corners = &[
        (-4095, -4095),
        (-4094, -4095),
        (-4094, -4094),
        (-4095, -4094),
    ];
    let lower_right: Corners = &[(4094, -4095), (4095, -4095), (4095, -4094), (4094, -4094)];
    let upper_left: Corners = &[(-4095, 4094), (-4094, 4094), (-4094, 4095), (-4095, 4095)];
    let upper_right: Corners = &[(4094, 4094), (4095, 4094), (4095, 4095), (4094, 4095)];
    let contours = [
        (lower_left, 1),
        (lower_right, -1),
        (upper_left, 2),
        (upper_right, 3),
    ];
    let runs = [
        run(4094, -4095, 1, 2),
        run(4094, 4094, 1, 3),
        run(-4095, -4095, 1, 1),
        run(-4095, 4094, 1, -1),
    ];
    assert_filled(&rt, &contours, &runs);
}

#[test]
fn contours_touch(rt: HostRuntime) {
    // The second contour starts in the column where the first one ends. With the same weight they make one run, and with another
    // weight two.
    let row: Corners = &[(0, 0), (3, 0), (3, 1), (0, 1)];
    let beside: Corners = &[(3, 0), (5, 0), (5, 1), (3, 1)];
    assert_filled(&rt, &[(row, 1), (beside, 1)], &[run(0, 0, 5, 1)]);
    let two = [run(0, 0, 3, 1), run(0, 3, 2, 2)];
    assert_filled(&rt, &[(row, 1), (beside, 2)], &two);
}

#[test]
fn contours_overlap(rt: HostRuntime) {
    // Two squares of 2 by 2 pixels with one pixel in common.
    let low: Corners = &[(0, 0), (2, 0), (2, 2), (0, 2)];
    let high: Corners = &[(1, 1), (3, 1), (3, 3), (1, 3)];
    let runs = [
        run(2, 1, 2, 2),
        run(1, 0, 1, 1),
        run(1, 1, 1, 3),
        run(1, 2, 1, 2),
        run(0, 0, 2, 1),
    ];
    assert_filled(&rt, &[(low, 1), (high, 2)], &runs);
}

/// Asserts that these contours cancel.
fn assert_cancel<R: Abort + AllocGlobal>(rt: &R, contours: &[(Corners, i32)]) {
    let nothing = fill(rt, contours);
    assert_runs(rt, &nothing, &[]);
    assert_total(rt, &nothing, 0);
    assert_bounds(rt, &nothing, None);
}

#[test]
fn contours_cancel(rt: HostRuntime) {
    assert_cancel(&rt, &[(FIELD, 1), (FIELD, -1)]);
    assert_cancel(&rt, &[(RECTANGLE, 3), (CLOCKWISE, -1), (RECTANGLE, -2)]);
}

#[test]
fn contours_leave_the_rest(rt: HostRuntime) {
    // What is left is the lower row, and both ends of the upper one.
    let middle: Corners = &[(1, 1), (2, 1), (2, 2), (1, 2)];
    let rest = [run(1, 0, 1, 1), run(1, 2, 1, 1), run(0, 0, 3, 1)];
    assert_filled(&rt, &[(RECTANGLE, 1), (middle, -1)], &rest);
}

#[test]
fn a_cycle_winds_both_ways(rt: HostRuntime) {
    // An eight that goes around its lower square twice counterclockwise, and around its upper square once clockwise.
    let eight: Corners = &[
        (0, 0),
        (2, 0),
        (2, 2),
        (0, 2),
        (0, 0),
        (2, 0),
        (2, 4),
        (4, 4),
        (4, 2),
        (0, 2),
    ];
    let runs = [
        run(3, 2, 2, -1),
        run(2, 2, 2, -1),
        run(1, 0, 2, 2),
        run(0, 0, 2, 2),
    ];
    assert_filled(&rt, &[(eight, 1)], &runs);
}
