//! Tests of operations, on pictures whose weights are known.

mod assertions;
mod contours;
mod copies;
mod culls;
mod growths;
mod moves;
mod sums;
mod turning;

use assertions::{assert_holds, assert_same};
use mf_geom::{Cycle, Point};
use mf_ops::{Check, Cull, Op, OpFault, Quarter, Scale, Weight, after, apply};
use mf_rows::{Box4, Picture, Run};
use std::process::Abort;

/// The corners of a path.
type Corners = &'static [(i32, i32)];

/// The pixel (0, 0), counterclockwise.
const PIXEL: Corners = &[(0, 0), (1, 0), (1, 1), (0, 1)];

/// A rectangle of 3 by 2 pixels, counterclockwise.
const RECTANGLE: Corners = &[(0, 0), (3, 0), (3, 2), (0, 2)];

/// The same rectangle, clockwise.
const CLOCKWISE: Corners = &[(0, 0), (0, 2), (3, 2), (3, 0)];

/// The whole field, counterclockwise.
const FIELD: Corners = &[(-4095, -4095), (4095, -4095), (4095, 4095), (-4095, 4095)];

/// The path through these corners, walked `times` times.
fn walk<R: Abort + AllocGlobal>(rt: &R, corners: Corners, times: usize) -> Vec<Point> {
    let mut points = Vec::new(rt.alloc());
    for _ in 0..times {
        for (x, y) in corners {
            points
                .push(Point { x: *x, y: *y })
                .expect(rt, "there is room for the point");
        }
    }
    points
}

/// The cycle of the path through these corners, walked `times` times.
fn cycle<R: Abort + AllocGlobal>(rt: &R, corners: Corners, times: usize) -> Cycle {
    match Cycle::new(walk(rt, corners, times)) {
        Ok(cycle) => cycle,
        Err((fault, _)) => panic!(rt; "no cycle: {fault}"),
    }
}

/// The contour of the path through these corners, walked `times` times, with the weight `number`, under the turning check.
fn contour<R: Abort + AllocGlobal>(rt: &R, corners: Corners, times: usize, number: i32) -> Op {
    Op::Contour(cycle(rt, corners, times), weight(rt, number), Check::On)
}

/// The same contour with the turning check off.
fn unchecked_contour<R: Abort + AllocGlobal>(
    rt: &R,
    corners: Corners,
    times: usize,
    number: i32,
) -> Op {
    Op::Contour(cycle(rt, corners, times), weight(rt, number), Check::Off)
}

/// The weight with this number.
fn weight(rt: &impl Abort, number: i32) -> Weight {
    Weight::new(number).expect(rt, "the number is a weight")
}

/// The cull that keeps the weights `low..=high` and gives them the weight `number`.
fn keeping(rt: &impl Abort, low: i32, high: i32, number: i32) -> Op {
    Op::Cull(Cull::keeping(low, high, weight(rt, number)).expect(rt, "0 is not kept"))
}

/// The cull that drops the weights `low..=high` and gives all others the weight `number`.
fn dropping(rt: &impl Abort, low: i32, high: i32, number: i32) -> Op {
    Op::Cull(Cull::dropping(low, high, weight(rt, number)).expect(rt, "0 is dropped"))
}

/// The scale by these factors.
fn scale(rt: &impl Abort, x: i32, y: i32) -> Op {
    Op::Scale(Scale::new(x, y).expect(rt, "the factors are lawful"))
}

/// The turn by this angle.
fn turn(rt: &impl Abort, angle: i32) -> Op {
    Op::Quarter(Quarter::new(angle).expect(rt, "the angle is lawful"))
}

/// A copy of a picture.
fn copy_of<R: Abort + AllocGlobal>(rt: &R, picture: &Picture) -> Picture {
    picture
        .copy(rt.alloc())
        .expect(rt, "there is room for the copy")
}

/// The picture after an operation, which must be accepted.
fn picture_after<R: Abort + AllocGlobal>(rt: &R, picture: &Picture, op: &Op) -> Picture {
    after(rt.alloc(), picture, op).expect(rt, "the operation is accepted")
}

/// Asserts that an operation is refused with this fault, also in place, where the picture stays as it was.
fn assert_refused<R: Abort + AllocGlobal>(rt: &R, picture: &Picture, op: &Op, fault: OpFault) {
    let refused = after(rt.alloc(), picture, op).err();
    let mut same = copy_of(rt, picture);
    let refused_here = apply(rt.alloc(), &mut same, op).err();
    assert_same(rt, (refused, refused_here), (Some(fault), Some(fault)), op);
    assert_equal(rt, &same, picture, "the picture itself is unchanged");
}

/// Asserts that two pictures are equal.
fn assert_equal(rt: &impl Abort, found: &Picture, expected: &Picture, case: &str) {
    assert_holds(rt, found.equal(expected), case);
}

/// Asserts that a picture is blank and has no box.
fn assert_blank<R: Abort + AllocGlobal>(rt: &R, picture: &Picture) {
    assert_equal(rt, picture, &Picture::blank(rt.alloc()), "it is blank");
    assert_bounds(rt, picture, None);
}

/// The picture after these contours, each walked a number of times and with its weight, are filled in one after another.
fn wind<R: Abort + AllocGlobal>(rt: &R, contours: &[(Corners, usize, i32)]) -> Picture {
    let mut picture = Picture::blank(rt.alloc());
    for (corners, times, number) in contours {
        picture = picture_after(rt, &picture, &contour(rt, corners, *times, *number));
    }
    picture
}

/// The picture after these contours, each with its weight, are filled in one after another.
fn fill<R: Abort + AllocGlobal>(rt: &R, contours: &[(Corners, i32)]) -> Picture {
    let mut picture = Picture::blank(rt.alloc());
    for (corners, number) in contours {
        picture = picture_after(rt, &picture, &contour(rt, corners, 1, *number));
    }
    picture
}

/// A run of pixels.
fn run(y: i32, x: i32, len: u32, weight: i32) -> Run {
    Run { y, x, len, weight }
}

/// Asserts that a picture has these runs at these places, which are counted from 0.
fn assert_some_runs(rt: &impl Abort, picture: &Picture, runs: &[(usize, Option<Run>)]) {
    for (k, run) in runs {
        assert_same(rt, picture.run(*k), *run, ("run", *k));
    }
}

/// Asserts that a picture has exactly these runs.
fn assert_runs(rt: &impl Abort, picture: &Picture, runs: &[Run]) {
    for (k, run) in runs.iter().enumerate() {
        assert_some_runs(rt, picture, &[(k, Some(*run))]);
    }
    assert_some_runs(rt, picture, &[(runs.len(), None)]);
}

/// Asserts that these pixels of a picture, given as column, row and weight, have these weights.
fn assert_weights(rt: &impl Abort, picture: &Picture, pixels: &[(i32, i32, i32)]) {
    for (x, y, weight) in pixels {
        assert_same(rt, picture.weight(*x, *y), *weight, ("weight at", *x, *y));
    }
}

/// Asserts that the weights of a picture have this sum.
fn assert_total(rt: &impl Abort, picture: &Picture, total: i64) {
    assert_same(rt, picture.total(), total, "total");
}

/// Asserts that a picture has this least box.
fn assert_bounds(rt: &impl Abort, picture: &Picture, bounds: Option<Box4>) {
    assert_same(rt, picture.bounds(), bounds, "bounds");
}
