//! Sums and differences of pictures, and rectangles that are added to them, in which allocations fail.

use super::APART;
use crate::tests::assertions::{assert_holds, assert_same};
use crate::tests::rectangles::{Rectangle, corners_of};
use crate::tests::{assert_runs, picture_of};
use mf_rows::{AddFault, Run};
use mf_testing::{grow_again, refuse_growths};
use std::process::Abort;

/// A picture that is added to the rows: above them, between them, where it cancels one row, and below them.
const ADDED: &[Run] = &[
    run_of!(200, 0, 1, 1),
    run_of!(1, 1, 2, -3),
    run_of!(0, -1, 3, 32767),
    run_of!(-71, 0, 1, 4),
    run_of!(-300, 7, 2, 9),
];

const SUM: &[Run] = &[
    run_of!(200, 0, 1, 1),
    run_of!(90, -3, 2, 5),
    run_of!(1, 0, 1, 1),
    run_of!(1, 1, 1, -2),
    run_of!(-70, 0, 1, -2),
    run_of!(-71, 0, 1, 4),
    run_of!(-300, 7, 2, 9),
];

/// A picture whose sum with the rows has a weight that is too large, in the lower of two rows.
const TOO_MUCH: &[Run] = &[run_of!(1, 0, 1, 1), run_of!(0, 1, 1, -1)];

/// Asserts that a sum is refused only with `OutOfMemory`.
fn assert_out_of_memory<T>(rt: &impl Abort, answer: &Result<T, AddFault>) {
    if let Err(fault) = answer {
        assert_same(rt, *fault, AddFault::OutOfMemory, "the refusal");
    }
}

#[test]
fn a_picture_is_added(rt: HostRuntime) {
    let (mut picture, other) = (picture_of(&rt, APART), picture_of(&rt, ADDED));
    refuse_growths(rt.alloc());
    let added = picture.add(rt.alloc(), &other);
    grow_again(rt.alloc());
    assert_out_of_memory(&rt, &added);
    if added.is_err() {
        assert_runs(&rt, &picture, APART);
        let added = picture.add(rt.alloc(), &other);
        assert_holds(&rt, added.is_ok(), "there is room for the sum");
    }
    assert_runs(&rt, &picture, SUM);
    assert_runs(&rt, &other, ADDED);
}

/// `OutOfMemory` may come instead of `WeightTooLarge`.
#[test]
fn a_picture_with_too_much_is_not_added(rt: HostRuntime) {
    let (mut picture, other) = (picture_of(&rt, APART), picture_of(&rt, TOO_MUCH));
    refuse_growths(rt.alloc());
    let added = picture.add(rt.alloc(), &other);
    grow_again(rt.alloc());
    if added != Err(AddFault::OutOfMemory) {
        assert_same(&rt, added, Err(AddFault::WeightTooLarge), "the refusal");
    }
    assert_runs(&rt, &picture, APART);
    let added = picture.add(rt.alloc(), &other);
    assert_same(&rt, added, Err(AddFault::WeightTooLarge), "again");
    assert_runs(&rt, &picture, APART);
    assert_runs(&rt, &other, TOO_MUCH);
}

/// The negated picture that is added, which is subtracted.
const SUBTRACTED: &[Run] = &[
    run_of!(200, 0, 1, -1),
    run_of!(1, 1, 2, 3),
    run_of!(0, -1, 3, -32767),
    run_of!(-71, 0, 1, -4),
    run_of!(-300, 7, 2, -9),
];

#[test]
fn a_picture_is_subtracted(rt: HostRuntime) {
    let (mut picture, other) = (picture_of(&rt, APART), picture_of(&rt, SUBTRACTED));
    refuse_growths(rt.alloc());
    let subtracted = picture.subtract(rt.alloc(), &other);
    grow_again(rt.alloc());
    assert_out_of_memory(&rt, &subtracted);
    if subtracted.is_err() {
        assert_runs(&rt, &picture, APART);
        let subtracted = picture.subtract(rt.alloc(), &other);
        assert_holds(&rt, subtracted.is_ok(), "there is room for the difference");
    }
    assert_runs(&rt, &picture, SUM);
    assert_runs(&rt, &other, SUBTRACTED);
}

/// A rectangle that covers rows 0 and 1 and one row above them, and reaches a column to the left of row 1.
const RECTANGLE: Rectangle = Rectangle {
    left: -1,
    bottom: 0,
    right: 2,
    top: 3,
    weight: 2,
};

/// The rows with the rectangle.
const WITH_RECTANGLE: &[Run] = &[
    run_of!(90, -3, 2, 5),
    run_of!(2, -1, 3, 2),
    run_of!(1, -1, 1, 2),
    run_of!(1, 0, 3, 3),
    run_of!(0, -1, 3, -32765),
    run_of!(-70, 0, 1, -2),
];

#[test]
fn corners_are_added(rt: HostRuntime) {
    let mut picture = picture_of(&rt, APART);
    let corners = corners_of(&rt, rt.alloc(), &[RECTANGLE]).expect(&rt, "there is room");
    refuse_growths(rt.alloc());
    let added = picture.add_corners(rt.alloc(), corners);
    grow_again(rt.alloc());
    assert_out_of_memory(&rt, &added);
    if added.is_err() {
        assert_runs(&rt, &picture, APART);
        let corners = corners_of(&rt, rt.alloc(), &[RECTANGLE]).expect(&rt, "there is room");
        let added = picture.add_corners(rt.alloc(), corners);
        assert_holds(&rt, added.is_ok(), "there is room for the sum");
    }
    assert_runs(&rt, &picture, WITH_RECTANGLE);
}
