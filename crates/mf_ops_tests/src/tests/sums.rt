//! Pictures that are added to pictures, and subtracted from them.

use super::{
    Corners, PIXEL, RECTANGLE, assert_blank, assert_equal, assert_refused, assert_runs,
    assert_total, copy_of, fill, picture_after, run,
};
use mf_ops::{Op, OpFault, Sign};
use mf_rows::{Picture, Run};
use std::process::Abort;

/// The picture after a copy of another is added to it or subtracted from it.
fn add<R: Abort + AllocGlobal>(rt: &R, picture: &Picture, other: &Picture, sign: Sign) -> Picture {
    picture_after(rt, picture, &Op::Also(copy_of(rt, other), sign))
}

/// Asserts that another picture cannot be added to a picture, or subtracted from it, because a weight would be too large.
fn assert_too_large<R: Abort + AllocGlobal>(
    rt: &R,
    picture: &Picture,
    other: &Picture,
    sign: Sign,
) {
    let op = Op::Also(copy_of(rt, other), sign);
    assert_refused(rt, picture, &op, OpFault::WeightTooLarge);
}

/// The contour's picture, added to itself `times` times.
fn double<R: Abort + AllocGlobal>(rt: &R, contour: (Corners, i32), times: u32) -> Picture {
    let mut picture = fill(rt, &[contour]);
    for _ in 0..times {
        picture = add(rt, &picture, &picture, Sign::Plus);
    }
    picture
}

/// Asserts that a pixel of this weight, added to itself 13 times, has this total, and cannot be added to itself again.
fn assert_doubled<R: Abort + AllocGlobal>(rt: &R, weight: i32, total: i64) {
    let picture = double(rt, (PIXEL, weight), 13);
    // 3 times 2 to the 13th
    assert_total(rt, &picture, total);
    assert_too_large(rt, &picture, &picture, Sign::Plus);
    let negated = add(rt, &Picture::blank(rt.alloc()), &picture, Sign::Minus);
    assert_total(rt, &negated, total.wrapping_neg());
    assert_too_large(rt, &picture, &negated, Sign::Minus);
}

#[test]
fn adds_a_picture_to_itself(rt: HostRuntime) {
    let twice = double(&rt, (RECTANGLE, 1), 1);
    assert_runs(&rt, &twice, &[run(1, 0, 3, 2), run(0, 0, 3, 2)]);
    assert_total(&rt, &twice, 12);
}

#[test]
fn subtracts_a_picture_from_itself(rt: HostRuntime) {
    let twice = double(&rt, (RECTANGLE, 1), 1);
    assert_blank(&rt, &add(&rt, &twice, &twice, Sign::Minus));
}

#[test]
fn weights_are_doubled_up_to_the_limit(rt: HostRuntime) {
    assert_doubled(&rt, 3, 24576);
    assert_doubled(&rt, -3, -24576);
}

/// The rectangle, and a pixel in the highest row.
fn rectangle_and_high<R: Abort + AllocGlobal>(rt: &R) -> Picture {
    let high: Corners = &[(0, 4094), (1, 4094), (1, 4095), (0, 4095)];
    fill(rt, &[(RECTANGLE, 1), (high, 3)])
}

/// A square that overlaps the rectangle, and a pixel in the lowest row.
fn square_and_deep<R: Abort + AllocGlobal>(rt: &R) -> Picture {
    let deep: Corners = &[(0, -4095), (1, -4095), (1, -4094), (0, -4094)];
    let square: Corners = &[(2, 1), (4, 1), (4, 3), (2, 3)];
    fill(rt, &[(square, 2), (deep, 1)])
}

/// Asserts that the sum, or the difference, of these two pictures has these runs.
fn assert_sum<R: Abort + AllocGlobal>(rt: &R, sign: Sign, runs: &[Run]) {
    let sum = add(rt, &rectangle_and_high(rt), &square_and_deep(rt), sign);
    assert_runs(rt, &sum, runs);
}

#[test]
fn adds_what_overlaps_and_what_does_not(rt: HostRuntime) {
    let sum = [
        run(4094, 0, 1, 3),
        run(2, 2, 2, 2),
        run(1, 0, 2, 1),
        run(1, 2, 1, 3),
        run(1, 3, 1, 2),
        run(0, 0, 3, 1),
        run(-4095, 0, 1, 1),
    ];
    assert_sum(&rt, Sign::Plus, &sum);
    let difference = [
        run(4094, 0, 1, 3),
        run(2, 2, 2, -2),
        run(1, 0, 2, 1),
        run(1, 2, 1, -1),
        run(1, 3, 1, -2),
        run(0, 0, 3, 1),
        run(-4095, 0, 1, -1),
    ];
    assert_sum(&rt, Sign::Minus, &difference);
}

#[test]
fn blank_changes_nothing(rt: HostRuntime) {
    let left = rectangle_and_high(&rt);
    let blank = Picture::blank(rt.alloc());
    let sum = add(&rt, &blank, &left, Sign::Plus);
    assert_equal(&rt, &sum, &left, "blank on the left");
    let difference = add(&rt, &left, &blank, Sign::Minus);
    assert_equal(&rt, &difference, &left, "blank on the right");
}
