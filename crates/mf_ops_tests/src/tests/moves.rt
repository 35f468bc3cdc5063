//! Shifts, scales and turns.

use super::{
    Corners, PIXEL, RECTANGLE, assert_bounds, assert_equal, assert_refused, assert_runs,
    assert_total, assert_weights, fill, picture_after, run, scale, turn, wind,
};
use crate::tests::assertions::{assert_holds, assert_same};
use mf_ops::{BadScale, BadTurn, Op, OpFault, Quarter, Scale};
use mf_rows::{Box4, Picture, Run};
use std::process::Abort;

/// The picture of the pixel (x, y) with weight 1.
fn pixel<R: Abort + AllocGlobal>(rt: &R, (x, y): (i32, i32)) -> Picture {
    shift_of(rt, &fill(rt, &[(PIXEL, 1)]), x, y)
}

/// A picture after a turn by this angle.
fn turn_of<R: Abort + AllocGlobal>(rt: &R, picture: &Picture, angle: i32) -> Picture {
    picture_after(rt, picture, &turn(rt, angle))
}

/// A picture after a shift.
fn shift_of<R: Abort + AllocGlobal>(rt: &R, picture: &Picture, right: i32, up: i32) -> Picture {
    picture_after(rt, picture, &Op::Shift(right, up))
}

/// Asserts that an operation on this pixel makes a picture with these runs.
fn assert_moves<R: Abort + AllocGlobal>(rt: &R, place: (i32, i32), op: Op, runs: &[Run]) {
    assert_runs(rt, &picture_after(rt, &pixel(rt, place), &op), runs);
}

/// Asserts that an operation is refused because it takes this pixel out of the field.
fn assert_leaves<R: Abort + AllocGlobal>(rt: &R, place: (i32, i32), op: Op) {
    assert_refused(rt, &pixel(rt, place), &op, OpFault::OutOfField);
}

#[test]
fn shifts_the_first_pixel(rt: HostRuntime) {
    assert_moves(&rt, (0, 0), Op::Shift(2, -1), &[run(-1, 2, 1, 1)]);
    assert_moves(&rt, (0, 0), Op::Shift(0, 0), &[run(0, 0, 1, 1)]);
}

#[test]
fn scales_the_first_pixel(rt: HostRuntime) {
    assert_moves(&rt, (0, 0), scale(&rt, -1, 1), &[run(0, -1, 1, 1)]);
    assert_moves(&rt, (0, 0), scale(&rt, -2, 1), &[run(0, -2, 2, 1)]);
    assert_moves(&rt, (0, 0), scale(&rt, 1, -1), &[run(-1, 0, 1, 1)]);
    assert_moves(&rt, (0, 0), scale(&rt, 4095, 1), &[run(0, 0, 4095, 1)]);
    assert_moves(&rt, (0, 0), scale(&rt, -4095, 1), &[run(0, -4095, 4095, 1)]);
    let square = [run(1, 0, 2, 1), run(0, 0, 2, 1)];
    assert_moves(&rt, (0, 0), scale(&rt, 2, 2), &square);
}

#[test]
fn turns_the_first_pixel(rt: HostRuntime) {
    assert_moves(&rt, (0, 0), turn(&rt, 90), &[run(0, -1, 1, 1)]);
    assert_moves(&rt, (0, 0), turn(&rt, 180), &[run(-1, -1, 1, 1)]);
    assert_moves(&rt, (0, 0), turn(&rt, 270), &[run(-1, 0, 1, 1)]);
}

#[test]
fn scales_a_pixel_to_a_row(rt: HostRuntime) {
    let wide = picture_after(&rt, &pixel(&rt, (0, 0)), &scale(&rt, -4095, 1));
    let bounds = Box4 {
        min_x: -4095,
        max_x: -1,
        min_y: 0,
        max_y: 0,
    };
    assert_total(&rt, &wide, 4095);
    assert_bounds(&rt, &wide, Some(bounds));
}

#[test]
fn pixels_leave_at_the_right_and_the_left(rt: HostRuntime) {
    assert_leaves(&rt, (4094, 0), Op::Shift(1, 0));
    assert_moves(&rt, (4094, 0), scale(&rt, -1, 1), &[run(0, -4095, 1, 1)]);
    assert_leaves(&rt, (-4095, 0), Op::Shift(-1, 0));
    assert_leaves(&rt, (-4095, 0), scale(&rt, 2, 1));
    assert_leaves(&rt, (1, 0), scale(&rt, 4095, 1));
}

#[test]
fn pixels_leave_at_the_top_and_the_bottom(rt: HostRuntime) {
    assert_leaves(&rt, (0, 4094), Op::Shift(0, 1));
    assert_leaves(&rt, (0, 4094), scale(&rt, 1, -2));
    assert_leaves(&rt, (0, -4095), Op::Shift(0, -1));
}

#[test]
fn a_corner_goes_to_others(rt: HostRuntime) {
    let corner = (4094, -4095);
    assert_moves(&rt, corner, turn(&rt, 90), &[run(4094, 4094, 1, 1)]);
    let across = Op::Shift(-8189, 8189);
    assert_moves(&rt, corner, across, &[run(4094, -4095, 1, 1)]);
}

/// Asserts that an operation leaves the blank picture blank.
fn assert_blank_stays<R: Abort + AllocGlobal>(rt: &R, op: Op) {
    let blank = Picture::blank(rt.alloc());
    let still = picture_after(rt, &blank, &op);
    assert_equal(rt, &still, &blank, "the blank picture");
}

/// Asserts that these shifts take the pixel (0, 0) out of the field, and leave the blank picture blank.
fn assert_far<R: Abort + AllocGlobal>(rt: &R, shifts: &[(i32, i32)]) {
    for (right, up) in shifts {
        assert_leaves(rt, (0, 0), Op::Shift(*right, *up));
        assert_blank_stays(rt, Op::Shift(*right, *up));
    }
}

#[test]
fn far_shifts_do_not_wrap(rt: HostRuntime) {
    let shifts = [
        (i32::MAX, i32::MIN),
        (i32::MIN, i32::MAX),
        (i32::MAX, 0),
        (0, i32::MIN),
        (4095, 0),
        (0, -4096),
    ];
    assert_far(&rt, &shifts);
}

#[test]
fn blank_stays_blank(rt: HostRuntime) {
    assert_blank_stays(&rt, scale(&rt, 4095, -4095));
    assert_blank_stays(&rt, turn(&rt, 90));
    assert_blank_stays(&rt, turn(&rt, 180));
    assert_blank_stays(&rt, turn(&rt, 270));
}

/// Asserts that none of these pairs are the factors of a scale.
fn assert_bad_factors(rt: &impl Abort, factors: &[(i32, i32)]) {
    for (x, y) in factors {
        assert_same(rt, Scale::new(*x, *y), Err(BadScale), ("factors", *x, *y));
    }
}

/// Asserts that all of these pairs are the factors of a scale.
fn assert_factors(rt: &impl Abort, factors: &[(i32, i32)]) {
    for (x, y) in factors {
        assert_holds(rt, Scale::new(*x, *y).is_ok(), ("factors", *x, *y));
    }
}

/// Asserts that none of these angles are turns.
fn assert_bad_angles(rt: &impl Abort, angles: &[i32]) {
    for angle in angles {
        assert_same(rt, Quarter::new(*angle), Err(BadTurn), ("degrees", *angle));
    }
}

/// Asserts that all of these angles are turns.
fn assert_angles(rt: &impl Abort, angles: &[i32]) {
    for angle in angles {
        assert_holds(rt, Quarter::new(*angle).is_ok(), ("degrees", *angle));
    }
}

#[test]
fn refuses_other_factors_and_angles(rt: HostRuntime) {
    let factors = [
        (0, 0),
        (0, 1),
        (1, 0),
        (4096, 1),
        (1, -4096),
        (i32::MIN, i32::MAX),
    ];
    assert_bad_factors(&rt, &factors);
    assert_factors(&rt, &[(1, 1), (-1, -1), (4095, -4095)]);
    let angles = [0, 45, 89, 91, 360, -90, -180, i32::MIN, i32::MAX];
    assert_bad_angles(&rt, &angles);
    assert_angles(&rt, &[90, 180, 270]);
}

/// An L: a column of three pixels, and one more pixel to the right of its foot.
fn letter_l<R: Abort + AllocGlobal>(rt: &R) -> Picture {
    let shape: Corners = &[(0, 0), (2, 0), (2, 1), (1, 1), (1, 3), (0, 3)];
    fill(rt, &[(shape, 2)])
}

/// Asserts that the L, turned by an angle, has these runs, and is the L again when it is turned back.
fn assert_turned<R: Abort + AllocGlobal>(rt: &R, angle: i32, runs: &[Run]) {
    let standing = letter_l(rt);
    let there = turn_of(rt, &standing, angle);
    assert_runs(rt, &there, runs);
    assert_total(rt, &there, 8);
    let back = turn_of(rt, &there, 360i32.wrapping_sub(angle));
    assert_equal(rt, &back, &standing, "turned back");
}

#[test]
fn an_l_is_turned_all_the_way(rt: HostRuntime) {
    assert_turned(&rt, 90, &[run(1, -1, 1, 2), run(0, -3, 3, 2)]);
    let twice = [run(-1, -2, 2, 2), run(-2, -1, 1, 2), run(-3, -1, 1, 2)];
    assert_turned(&rt, 180, &twice);
    assert_turned(&rt, 270, &[run(-1, 0, 3, 2), run(-2, 0, 1, 2)]);
}

/// The first column, or row, of those that a factor makes of this one.
fn first_place(place: i32, factor: i32) -> i32 {
    let (start, end) = (
        place.wrapping_mul(factor),
        place.wrapping_add(1).wrapping_mul(factor),
    );
    start.min(end)
}

/// Asserts that a scaled picture has the weight of each pixel at the first of the pixels that it becomes.
fn assert_stretched(rt: &impl Abort, picture: &Picture, scaled: &Picture, (x, y): (i32, i32)) {
    for row in -2..5 {
        for column in -2..5 {
            let weight = picture.weight(column, row);
            let place = (first_place(column, x), first_place(row, y), weight);
            assert_weights(rt, scaled, &[place]);
        }
    }
}

/// Asserts that scaling a picture by these factors multiplies its total by the absolute value of their product.
fn assert_scaled<R: Abort + AllocGlobal>(rt: &R, picture: &Picture, factors: (i32, i32)) {
    let scaled = picture_after(rt, picture, &scale(rt, factors.0, factors.1));
    let size = i64::from(factors.0.wrapping_mul(factors.1).wrapping_abs());
    assert_total(rt, &scaled, picture.total().wrapping_mul(size));
    assert_stretched(rt, picture, &scaled, factors);
}

#[test]
fn scales_multiply_the_total(rt: HostRuntime) {
    let middle: Corners = &[(1, 1), (2, 1), (2, 3), (1, 3)];
    let picture = fill(&rt, &[(RECTANGLE, 1), (middle, -3)]);
    assert_scaled(&rt, &picture, (2, 3));
    assert_scaled(&rt, &picture, (-2, 3));
    assert_scaled(&rt, &picture, (2, -3));
    assert_scaled(&rt, &picture, (-1, -1));
    assert_scaled(&rt, &picture, (1, 5));
}

/// Asserts that a shift moves the weight of the pixel (0, 0) as far as it says, and that shifting back restores the picture.
fn assert_shifted<R: Abort + AllocGlobal>(rt: &R, picture: &Picture, right: i32, up: i32) {
    let there = shift_of(rt, picture, right, up);
    assert_weights(rt, &there, &[(right, up, picture.weight(0, 0))]);
    let back = shift_of(rt, &there, right.wrapping_neg(), up.wrapping_neg());
    assert_equal(rt, &back, picture, "shifted back");
}

#[test]
fn moved_pictures_move_back(rt: HostRuntime) {
    let picture = wind(&rt, &[(RECTANGLE, 1, 2), (PIXEL, 3, -1)]);
    assert_shifted(&rt, &picture, 1, 1);
    assert_shifted(&rt, &picture, -64, 128);
    assert_shifted(&rt, &picture, 4000, -4095);
    assert_shifted(&rt, &picture, -4095, 4000);
}
