//! Contours that are filled, and pictures that are added, while allocations are refused.

use super::plan::Plan;
use super::{APART, assert_applies, assert_makes};
use crate::tests::{CLOCKWISE, Corners, RECTANGLE};
use mf_ops::{Check, Sign};
use mf_rows::Run;

/// The rows after the rectangle is filled with weight 2.
const FILLED: &[Run] = &[
    run_of!(90, -3, 2, 5),
    run_of!(1, 0, 2, 3),
    run_of!(1, 2, 1, 5),
    run_of!(0, -1, 1, -4),
    run_of!(0, 0, 2, -2),
    run_of!(0, 2, 1, 2),
    run_of!(-70, 0, 1, -2),
];

/// The rows after the rectangle is filled with weight -2.
const HOLLOWED: &[Run] = &[
    run_of!(90, -3, 2, 5),
    run_of!(1, 0, 2, -1),
    run_of!(1, 2, 1, 1),
    run_of!(0, -1, 1, -4),
    run_of!(0, 0, 2, -6),
    run_of!(0, 2, 1, -2),
    run_of!(-70, 0, 1, -2),
];

#[test]
fn a_contour_is_filled(rt: HostRuntime) {
    assert_makes(&rt, Plan::Contour(RECTANGLE, 2, Check::On), FILLED);
}

#[test]
fn a_clockwise_contour_is_filled(rt: HostRuntime) {
    assert_makes(&rt, Plan::Contour(CLOCKWISE, 2, Check::On), FILLED);
}

#[test]
fn an_unchecked_contour_is_filled(rt: HostRuntime) {
    assert_makes(&rt, Plan::Contour(RECTANGLE, 2, Check::Off), FILLED);
}

#[test]
fn an_unchecked_clockwise_contour_is_filled(rt: HostRuntime) {
    assert_makes(&rt, Plan::Contour(CLOCKWISE, 2, Check::Off), HOLLOWED);
}

#[test]
fn a_contour_is_filled_into_the_picture_itself(rt: HostRuntime) {
    assert_applies(&rt, Plan::Contour(CLOCKWISE, 2, Check::On), FILLED);
}

/// A staircase of two steps, whose list of corners grows twice.
const STAIRS: Corners = &[(0, 0), (4, 0), (4, 1), (3, 1), (3, 2), (0, 2)];

#[test]
fn stairs_are_filled(rt: HostRuntime) {
    const WITH_STAIRS: &[Run] = &[
        run_of!(90, -3, 2, 5),
        run_of!(1, 2, 1, 2),
        run_of!(0, -1, 1, -4),
        run_of!(0, 0, 2, -5),
        run_of!(0, 2, 2, -1),
        run_of!(-70, 0, 1, -2),
    ];
    assert_makes(&rt, Plan::Contour(STAIRS, -1, Check::On), WITH_STAIRS);
}

/// A picture that is added to the rows. Its rows lie above them, between them, where one row cancels, and below them.
const OTHER: &[Run] = &[
    run_of!(200, 0, 1, 1),
    run_of!(1, 1, 2, -3),
    run_of!(0, -1, 3, 4),
    run_of!(-71, 0, 1, 4),
    run_of!(-300, 7, 2, 9),
];

const SUM: &[Run] = &[
    run_of!(200, 0, 1, 1),
    run_of!(90, -3, 2, 5),
    run_of!(1, 0, 1, 1),
    run_of!(1, 1, 1, -2),
    run_of!(-70, 0, 1, -2),
    run_of!(-71, 0, 1, 4),
    run_of!(-300, 7, 2, 9),
];

const DIFFERENCE: &[Run] = &[
    run_of!(200, 0, 1, -1),
    run_of!(90, -3, 2, 5),
    run_of!(1, 0, 1, 1),
    run_of!(1, 1, 1, 4),
    run_of!(1, 2, 1, 6),
    run_of!(0, -1, 3, -8),
    run_of!(-70, 0, 1, -2),
    run_of!(-71, 0, 1, -4),
    run_of!(-300, 7, 2, -9),
];

#[test]
fn a_picture_is_added(rt: HostRuntime) {
    assert_makes(&rt, Plan::Also(OTHER, Sign::Plus), SUM);
}

#[test]
fn a_picture_is_subtracted(rt: HostRuntime) {
    assert_makes(&rt, Plan::Also(OTHER, Sign::Minus), DIFFERENCE);
}

#[test]
fn a_picture_is_added_to_the_picture_itself(rt: HostRuntime) {
    assert_applies(&rt, Plan::Also(OTHER, Sign::Plus), SUM);
}

#[test]
fn a_picture_is_subtracted_from_the_picture_itself(rt: HostRuntime) {
    assert_applies(&rt, Plan::Also(OTHER, Sign::Minus), DIFFERENCE);
}

/// The rows with their weights doubled.
const DOUBLED: &[Run] = &[
    run_of!(90, -3, 2, 10),
    run_of!(1, 0, 2, 2),
    run_of!(1, 2, 1, 6),
    run_of!(0, -1, 3, -8),
    run_of!(-70, 0, 1, -4),
];

#[test]
fn a_copy_is_added(rt: HostRuntime) {
    assert_makes(&rt, Plan::AlsoItself(APART, Sign::Plus), DOUBLED);
}

#[test]
fn a_copy_is_subtracted(rt: HostRuntime) {
    assert_makes(&rt, Plan::AlsoItself(APART, Sign::Minus), &[]);
}

#[test]
fn a_copy_is_added_to_the_picture_itself(rt: HostRuntime) {
    assert_applies(&rt, Plan::AlsoItself(APART, Sign::Plus), DOUBLED);
}
