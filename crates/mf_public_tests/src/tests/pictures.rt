//! The calls of `mf_rows`.
use crate::tests::assertions::{assert_holds, assert_same};
use mf_rows::{Box4, OutOfMemory, Picture, RowBuilder, Run};
use std::alloc::Global;
use std::process::Abort;

/// The runs of a rectangle of 3 by 2 pixels.
const RUNS: [Run; 2] = [
    Run {
        y: 1,
        x: 0,
        len: 3,
        weight: 1,
    },
    Run {
        y: 0,
        x: 0,
        len: 3,
        weight: 1,
    },
];

/// Adds a run, which fits.
fn push(rt: &impl Abort, builder: &mut RowBuilder, run: Run) {
    let fits: bool = builder.fits(&run);
    assert!(rt; fits, "{run:?}");
    let pushed: Result<(), OutOfMemory> = builder.push_run(run);
    pushed.expect(rt, "there is room for the run");
}

/// The rectangle.
pub(crate) fn rectangle(rt: &impl Abort, alloc: Global) -> Picture {
    let mut builder: RowBuilder = RowBuilder::new(alloc);
    for run in RUNS {
        push(rt, &mut builder, run);
    }
    let made: Result<Picture, OutOfMemory> = builder.finish();
    made.expect(rt, "there is room for the picture")
}

/// Asserts that a picture is the rectangle, pixel by pixel and run by run.
fn assert_rectangle(rt: &impl Abort, picture: &Picture) {
    let weights: (i32, i32) = (picture.weight(2, 1), picture.weight(3, 1));
    let total: i64 = picture.total();
    assert_same(rt, (weights, total), ((1, 0), 6), "weights");
    let runs: (Option<Run>, Option<Run>) = (picture.run(1), picture.run(2));
    assert_same(rt, runs, (Some(RUNS[1]), None), "runs");
    let bounds: Option<Box4> = picture.bounds();
    let expected = Box4 {
        min_x: 0,
        max_x: 2,
        min_y: 0,
        max_y: 1,
    };
    assert_same(rt, bounds, Some(expected), "the least box");
}

/// Asserts that two pictures are equal, or that they are not.
fn assert_equal(rt: &impl Abort, first: &Picture, second: &Picture, expected: bool) {
    let equal: bool = first.equal(second);
    assert_same(rt, equal, expected, "equal");
}

#[test]
fn builds_and_copies_a_picture(rt: HostRuntime) {
    let picture = rectangle(&rt, rt.alloc());
    let copy: Result<Picture, OutOfMemory> = picture.copy(rt.alloc());
    let copy = copy.expect(&rt, "there is room for the copy");
    assert_rectangle(&rt, &copy);
    assert_equal(&rt, &picture, &copy, true);
    let blank: Picture = Picture::blank(rt.alloc());
    assert_equal(&rt, &picture, &blank, false);
    assert_holds(
        &rt,
        blank.bounds().is_none(),
        "the box of the blank picture",
    );
}
