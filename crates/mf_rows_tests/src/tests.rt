//! Tests with values worked out by hand, and tests that compare the pictures of pushed runs with a slow form of them.

mod assertions;
mod black;
mod black_rows;
mod chance;
mod derived;
mod equal;
mod generated;
mod growths;
mod moves;
mod parts;
mod rectangles;
mod runs;
mod slow;

use assertions::{assert_holds, assert_same};
use mf_base::OutOfMemory;
use mf_rows::{Box4, Picture, RowBuilder, Run};
use std::fmt::Debug;
use std::process::Abort;

fn make_run(y: i32, x: i32, len: u32, weight: i32) -> Run {
    Run { y, x, len, weight }
}

/// A builder with these runs, each of which must fit.
fn builder_of<R: Abort + AllocGlobal>(rt: &R, runs: &[Run]) -> RowBuilder {
    let mut builder = RowBuilder::new(rt.alloc());
    push_all(rt, &mut builder, runs);
    builder
}

/// Pushes these runs, each of which must fit.
fn push_all(rt: &impl Abort, builder: &mut RowBuilder, runs: &[Run]) {
    for run in runs {
        assert_holds(rt, builder.fits(run), ("fits", *run));
        if builder.fits(run) {
            builder
                .push_run(*run)
                .expect(rt, "there is room for the run");
        }
    }
}

/// The picture that was made; there must have been room for it.
fn expect_picture(rt: &impl Abort, picture: Result<Picture, OutOfMemory>) -> Picture {
    picture.expect(rt, "there is room for the picture")
}

/// The picture of these runs, each of which must fit.
fn picture_of<R: Abort + AllocGlobal>(rt: &R, runs: &[Run]) -> Picture {
    expect_picture(rt, builder_of(rt, runs).finish())
}

/// A copy of a picture.
fn copy_of<R: Abort + AllocGlobal>(rt: &R, picture: &Picture) -> Picture {
    expect_picture(rt, picture.copy(rt.alloc()))
}

/// Two rows of three pixels, one below the other.
fn block() -> [Run; 2] {
    [make_run(1, 0, 3, 1), make_run(0, 0, 3, 1)]
}

/// Asserts that these pixels of a picture have these weights.
fn assert_weights(rt: &impl Abort, picture: &Picture, pixels: &[(i32, i32, i32)]) {
    for (x, y, weight) in pixels {
        assert_same(rt, picture.weight(*x, *y), *weight, ("weight at", *x, *y));
    }
}

/// Asserts that the weights of a picture have this sum.
fn assert_total(rt: &impl Abort, picture: &Picture, total: i64) {
    assert_same(rt, picture.total(), total, "total");
}

/// Asserts that a picture has this least box.
fn assert_bounds(rt: &impl Abort, picture: &Picture, bounds: Option<Box4>) {
    assert_same(rt, picture.bounds(), bounds, "bounds");
}

/// Asserts that a picture has these runs at these indices, counted from 0.
fn assert_some_runs(rt: &impl Abort, picture: &Picture, runs: &[(usize, Option<Run>)]) {
    for (k, run) in runs {
        assert_same(rt, picture.run(*k), *run, ("run", *k));
    }
}

/// Asserts that a picture has exactly these runs.
fn assert_runs<R: Abort + AllocGlobal>(rt: &R, picture: &Picture, runs: &[Run]) {
    assert_runs_in(rt, 0, picture, runs);
}

/// Asserts that a picture has exactly these runs, in this case of a test.
fn assert_runs_in<R: Abort + AllocGlobal>(rt: &R, case: usize, picture: &Picture, runs: &[Run]) {
    for (k, run) in runs.iter().enumerate() {
        assert_same(rt, picture.run(k), Some(*run), ("run", k, "in case", case));
    }
    assert_same(
        rt,
        picture.run(runs.len()),
        None,
        ("last run in case", case),
    );
    assert_all_runs(rt, case, picture, runs);
}

/// Asserts that the walk over a picture gives exactly these runs, in this case of a test.
fn assert_all_runs<R: Abort + AllocGlobal>(rt: &R, case: usize, picture: &Picture, runs: &[Run]) {
    let all: Vec<Run> = picture
        .runs()
        .collect(rt.alloc())
        .expect(rt, "there is room for the runs");
    assert_same(rt, all.as_slice(), runs, ("runs in case", case));
}

/// Asserts that two pictures are equal, or that they are not, whichever of them is asked.
fn assert_equality<C: Copy + Debug + Drop>(
    rt: &impl Abort,
    one: &Picture,
    other: &Picture,
    equal: bool,
    case: C,
) {
    assert_same(rt, one.equal(other), equal, case);
    assert_same(rt, other.equal(one), equal, case);
}
