//! Pictures built from runs.

use super::{
    assert_bounds, assert_runs, assert_some_runs, assert_total, assert_weights, block, builder_of,
    make_run, picture_of,
};
use crate::tests::assertions::assert_same;
use mf_rows::{Box4, Picture, RowBuilder, Run};
use std::process::Abort;

/// Asserts the weights of a picture in these rows, from the top down, which begin at the pixel (x, y).
fn assert_rows(rt: &impl Abort, picture: &Picture, (x, y): (i32, i32), rows: &[[i32; 5]]) {
    let mut row_y = y;
    for row in rows {
        let mut column_x = x;
        for weight in row {
            assert_weights(rt, picture, &[(column_x, row_y, *weight)]);
            column_x = column_x.wrapping_add(1);
        }
        row_y = row_y.wrapping_sub(1);
    }
}

/// Asserts that the picture of these runs has this least box and this total.
fn assert_box<R: Abort + AllocGlobal>(rt: &R, runs: &[Run], bounds: Box4, total: i64) {
    let picture = picture_of(rt, runs);
    assert_bounds(rt, &picture, Some(bounds));
    assert_total(rt, &picture, total);
}

/// Asserts that each of these runs fits a builder, or that none does.
pub(super) fn assert_fits(rt: &impl Abort, builder: &RowBuilder, runs: &[Run], fits: bool) {
    for run in runs {
        assert_same(rt, builder.fits(run), fits, ("fits", *run));
    }
}

/// Asserts that pixels in these columns and rows, which are outside the field, have weight 0.
fn assert_nothing_outside(rt: &impl Abort, picture: &Picture, far: &[i32]) {
    for place in far {
        let outside = [(*place, 0, 0), (0, *place, 0), (*place, *place, 0)];
        assert_weights(rt, picture, &outside);
    }
}

#[test]
fn has_the_weight_of_each_pixel(rt: HostRuntime) {
    let picture = picture_of(&rt, &block());
    let rows = [
        [0, 0, 0, 0, 0],
        [0, 1, 1, 1, 0],
        [0, 1, 1, 1, 0],
        [0, 0, 0, 0, 0],
    ];
    assert_rows(&rt, &picture, (-1, 2), &rows);
    assert_total(&rt, &picture, 6);
}

#[test]
fn gives_its_runs(rt: HostRuntime) {
    assert_runs(&rt, &picture_of(&rt, &block()), &block());
}

#[test]
fn has_a_least_box(rt: HostRuntime) {
    let bounds = Box4 {
        min_x: 0,
        max_x: 2,
        min_y: 0,
        max_y: 1,
    };
    assert_box(&rt, &block(), bounds, 6);
    let runs = [make_run(7, -2, 1, 5), make_run(-3, 4, 2, -5)];
    let bounds = Box4 {
        min_x: -2,
        max_x: 5,
        min_y: -3,
        max_y: 7,
    };
    assert_box(&rt, &runs, bounds, -5);
}

#[test]
fn refuses_runs_that_come_too_early(rt: HostRuntime) {
    let builder = builder_of(&rt, &block());
    let early = [
        make_run(1, 5, 1, 1),
        make_run(0, 0, 3, 1),
        make_run(0, 2, 1, 1),
        make_run(0, 2, 5, 1),
        make_run(0, -1, 1, 1),
    ];
    assert_fits(&rt, &builder, &early, false);
    let late = [
        make_run(0, 3, 1, 1),
        make_run(0, 4, 2, -1),
        make_run(-1, 0, 3, 1),
        make_run(-4095, -4095, 8190, 1),
    ];
    assert_fits(&rt, &builder, &late, true);
}

#[test]
fn refuses_unlawful_runs(rt: HostRuntime) {
    let runs = [
        make_run(0, 0, 0, 1),
        make_run(0, 0, 1, 0),
        make_run(0, 0, 1, 32768),
        make_run(0, 0, 1, -32768),
        make_run(0, -4096, 1, 1),
        make_run(0, 4095, 1, 1),
        make_run(0, 4094, 2, 1),
        make_run(4095, 0, 1, 1),
        make_run(-4096, 0, 1, 1),
        make_run(i32::MIN, i32::MIN, u32::MAX, i32::MIN),
        make_run(i32::MAX, i32::MAX, u32::MAX, i32::MAX),
        make_run(0, i32::MAX, u32::MAX, 1),
    ];
    assert_fits(&rt, &RowBuilder::new(rt.alloc()), &runs, false);
}

#[test]
fn joins_touching_runs_of_one_weight(rt: HostRuntime) {
    let picture = picture_of(&rt, &[make_run(0, 0, 2, 7), make_run(0, 2, 3, 7)]);
    assert_runs(&rt, &picture, &[make_run(0, 0, 5, 7)]);
}

#[test]
fn keeps_touching_runs_of_two_weights_apart(rt: HostRuntime) {
    let runs = [make_run(0, 0, 2, 7), make_run(0, 2, 3, -7)];
    assert_runs(&rt, &picture_of(&rt, &runs), &runs);
}

#[test]
fn blank_has_nothing(rt: HostRuntime) {
    let blank = Picture::blank(rt.alloc());
    assert_weights(&rt, &blank, &[(0, 0, 0)]);
    assert_total(&rt, &blank, 0);
    assert_some_runs(&rt, &blank, &[(0, None)]);
    assert_bounds(&rt, &blank, None);
}

#[test]
fn reaches_the_corners_of_the_field(rt: HostRuntime) {
    let runs = [
        make_run(4094, -4095, 1, 32767),
        make_run(4094, 4094, 1, -32767),
        make_run(-4095, -4095, 1, 2),
        make_run(-4095, 4094, 1, 3),
    ];
    let picture = picture_of(&rt, &runs);
    let pixels = [
        (-4095, 4094, 32767),
        (4094, 4094, -32767),
        (-4095, -4095, 2),
        (4094, -4095, 3),
        (4095, 4094, 0),
        (-4096, 4094, 0),
        (-4095, 4095, 0),
        (4094, -4096, 0),
    ];
    assert_weights(&rt, &picture, &pixels);
    assert_total(&rt, &picture, 5);
}

#[test]
fn has_weight_0_far_outside_the_field(rt: HostRuntime) {
    let picture = picture_of(&rt, &block());
    let far = [i32::MIN, -4096, 4095, 8190, i32::MAX];
    assert_nothing_outside(&rt, &picture, &far);
}
