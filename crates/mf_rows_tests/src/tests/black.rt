//! The least box of the pixels of positive weight.

use super::{assert_bounds, make_run, picture_of};
use crate::tests::assertions::assert_same;
use mf_rows::{Box4, Picture, Run};
use std::process::Abort;

/// Asserts that the picture of these runs has this least box of pixels of positive weight.
fn assert_black<R: Abort + AllocGlobal>(rt: &R, runs: &[Run], bounds: Option<Box4>) {
    let picture = picture_of(rt, runs);
    assert_same(rt, picture.black_bounds(), bounds, "black bounds");
}

#[test]
fn black_box_leaves_negative_pixels_out(rt: HostRuntime) {
    let runs = [
        make_run(1, -5, 2, -1),
        make_run(1, 0, 3, 2),
        make_run(1, 4, 1, -3),
        make_run(0, -2, 1, 7),
        make_run(-2, 7, 1, -1),
    ];
    let black = Box4 {
        min_x: -2,
        max_x: 2,
        min_y: 0,
        max_y: 1,
    };
    assert_black(&rt, &runs, Some(black));
    let all = Box4 {
        min_x: -5,
        max_x: 7,
        min_y: -2,
        max_y: 1,
    };
    assert_bounds(&rt, &picture_of(&rt, &runs), Some(all));
}

#[test]
fn black_box_is_one_pixel_between_negative_ones(rt: HostRuntime) {
    let runs = [
        make_run(3, -1, 1, -1),
        make_run(3, 0, 1, 1),
        make_run(3, 1, 1, -1),
    ];
    let black = Box4 {
        min_x: 0,
        max_x: 0,
        min_y: 3,
        max_y: 3,
    };
    assert_black(&rt, &runs, Some(black));
}

#[test]
fn no_black_pixel_has_no_box(rt: HostRuntime) {
    assert_black(&rt, &[make_run(0, 0, 4, -1)], None);
    let blank = Picture::blank(rt.alloc());
    assert_same(
        &rt,
        blank.black_bounds(),
        None,
        "black bounds of the blank picture",
    );
}
