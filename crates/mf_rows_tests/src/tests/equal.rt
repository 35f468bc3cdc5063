//! Which pictures are equal.

use super::{assert_equality, block, copy_of, make_run, picture_of};
use mf_rows::{Picture, Run};
use std::process::Abort;

/// Asserts that the pictures of these runs are equal, or that they are not, whichever of them is asked.
fn assert_runs_equal<R: Abort + AllocGlobal>(
    rt: &R,
    case: usize,
    left: &[Run],
    right: &[Run],
    equal: bool,
) {
    let one = picture_of(rt, left);
    let other = picture_of(rt, right);
    assert_equality(rt, &one, &other, equal, ("pictures of runs", case));
}

/// Asserts that the picture of these runs differs from the picture of each of these others.
fn assert_all_differ<R: Abort + AllocGlobal>(rt: &R, runs: &[Run], others: &[[Run; 2]]) {
    for (case, other) in others.iter().enumerate() {
        assert_runs_equal(rt, case, runs, other, false);
    }
}

/// Asserts that the picture of no run differs from that of each of these runs.
fn assert_none_is_blank<R: Abort + AllocGlobal>(rt: &R, runs: &[Run]) {
    for (case, run) in runs.iter().enumerate() {
        assert_runs_equal(rt, case, &[], &[*run], false);
    }
}

/// Asserts that the picture of these runs differs from the pictures of their prefixes.
fn assert_prefixes_differ<R: Abort + AllocGlobal>(rt: &R, runs: &[Run]) {
    for len in 0..runs.len() {
        assert_runs_equal(rt, len, runs, &runs[..len], false);
    }
    assert_runs_equal(rt, runs.len(), runs, runs, true);
}

/// The copy of a picture; the picture itself is gone then.
fn copy_alone<R: Abort + AllocGlobal>(rt: &R, picture: Picture) -> Picture {
    let copy = copy_of(rt, &picture);
    assert_equality(rt, &picture, &picture, true, "the picture and itself");
    assert_equality(rt, &picture, &copy, true, "the picture and its copy");
    copy
}

#[test]
fn a_picture_and_its_copy_are_equal(rt: HostRuntime) {
    let copy = copy_alone(&rt, picture_of(&rt, &block()));
    let again = picture_of(&rt, &block());
    assert_equality(&rt, &copy, &again, true, "the copy alone");
    assert_runs_equal(&rt, 0, &block(), &block(), true);
}

#[test]
fn runs_in_pieces_make_equal_pictures(rt: HostRuntime) {
    let whole = [make_run(3, 0, 5, 7), make_run(-70, 0, 2, -7)];
    let pieces = [
        make_run(3, 0, 2, 7),
        make_run(3, 2, 3, 7),
        make_run(-70, 0, 1, -7),
        make_run(-70, 1, 1, -7),
    ];
    let apart = [
        make_run(3, 0, 2, 7),
        make_run(3, 3, 3, 7),
        make_run(-70, 0, 2, -7),
    ];
    assert_runs_equal(&rt, 0, &whole, &pieces, true);
    assert_runs_equal(&rt, 1, &whole, &apart, false);
}

#[test]
fn pictures_with_any_difference_are_not_equal(rt: HostRuntime) {
    let others = [
        // one pixel more or less
        [make_run(1, 0, 4, 1), make_run(0, 0, 3, 1)],
        [make_run(1, 0, 3, 1), make_run(0, 0, 2, 1)],
        [make_run(1, 1, 2, 1), make_run(0, 0, 3, 1)],
        // other weights
        [make_run(1, 0, 3, 2), make_run(0, 0, 3, 1)],
        [make_run(1, 0, 3, 1), make_run(0, 0, 3, -1)],
        // other columns
        [make_run(1, 1, 3, 1), make_run(0, 0, 3, 1)],
        [make_run(1, 0, 3, 1), make_run(0, -1, 3, 1)],
        // other rows
        [make_run(2, 0, 3, 1), make_run(0, 0, 3, 1)],
        [make_run(1, 0, 3, 1), make_run(-1, 0, 3, 1)],
        [make_run(2, 0, 3, 1), make_run(1, 0, 3, 1)],
        // the same total, also in the same box
        [make_run(1, 0, 1, 3), make_run(0, 0, 3, 1)],
        [make_run(1, 0, 2, 1), make_run(0, 0, 2, 2)],
    ];
    assert_all_differ(&rt, &block(), &others);
}

#[test]
fn a_picture_and_its_first_runs_are_not_equal(rt: HostRuntime) {
    let runs = [
        make_run(4094, -4095, 1, 1),
        make_run(4094, 4094, 1, 1),
        make_run(0, 0, 1, 1),
        make_run(-4095, 4094, 1, 1),
    ];
    assert_prefixes_differ(&rt, &runs);
}

/// Asserts that a picture is equal to the blank one.
fn assert_blank<R: Abort + AllocGlobal>(rt: &R, picture: &Picture, case: &str) {
    assert_equality(rt, &Picture::blank(rt.alloc()), picture, true, case);
}

#[test]
fn blank_pictures_are_equal(rt: HostRuntime) {
    let blank = Picture::blank(rt.alloc());
    assert_equality(&rt, &blank, &blank, true, "the blank picture and itself");
    assert_blank(&rt, &blank, "two blank pictures");
    assert_blank(&rt, &copy_of(&rt, &blank), "the blank picture and its copy");
    assert_blank(
        &rt,
        &picture_of(&rt, &[]),
        "the blank picture and that of no run",
    );
}

#[test]
fn blank_pictures_equal_only_each_other(rt: HostRuntime) {
    let runs = [
        make_run(0, 0, 1, 1),
        make_run(4094, -4095, 1, -1),
        make_run(-4095, 4094, 1, 32767),
    ];
    assert_none_is_blank(&rt, &runs);
    // a total of 0
    let opposite = [make_run(0, 0, 1, 1), make_run(0, 1, 1, -1)];
    assert_runs_equal(&rt, 3, &[], &opposite, false);
}
