//! The calls of `mf_geom`.
use crate::tests::assertions::assert_same;
use mf_geom::{Cycle, CycleFault, OutOfMemory, Point};
use std::alloc::Global;
use std::process::Abort;

/// The corners of a rectangle of 3 by 2 pixels, counterclockwise.
pub(crate) const RECTANGLE: &[Point] = &[
    Point { x: 0, y: 0 },
    Point { x: 3, y: 0 },
    Point { x: 3, y: 2 },
    Point { x: 0, y: 2 },
];

/// The cycle through these points, or why there is none.
fn make(
    rt: &impl Abort,
    alloc: Global,
    points: &[Point],
) -> Result<Cycle, (CycleFault, Vec<Point>)> {
    let points: Vec<Point> = Vec::from_slice(alloc, points).expect(
        rt,
        "there is room for the points",
    );
    let made: Result<Cycle, (CycleFault, Vec<Point>)> = Cycle::new(points);
    made
}

/// The rectangle.
pub(crate) fn rectangle(rt: &impl Abort, alloc: Global) -> Cycle {
    make(rt, alloc, RECTANGLE).expect(rt, "the corners are a cycle")
}

/// Asserts that a cycle is the rectangle.
fn assert_rectangle(rt: &impl Abort, cycle: &Cycle) {
    let points: &[Point] = cycle.points();
    let turning: Result<i32, CycleFault> = cycle.turning();
    let area: i64 = cycle.area();
    assert_same(
        rt,
        (points, turning, area),
        (RECTANGLE, Ok(1), 6),
        "the rectangle",
    );
}

/// The name of a fault, and the place that it reports.
fn parts_of(fault: CycleFault) -> (&'static str, Option<u32>) {
    match fault {
        CycleFault::TooFewPoints => ("TooFewPoints", None),
        CycleFault::TooManyPoints => ("TooManyPoints", None),
        CycleFault::PointOutOfRange(place) => ("PointOutOfRange", Some(place)),
        CycleFault::NotRectilinear(place) => ("NotRectilinear", Some(place)),
        CycleFault::Backtracks(place) => ("Backtracks", Some(place)),
        CycleFault::TurningZero => ("TurningZero", None),
    }
}

#[test]
fn makes_and_copies_a_cycle(rt: HostRuntime) {
    let cycle = rectangle(&rt, rt.alloc());
    assert_rectangle(&rt, &cycle);
    let copy: Result<Cycle, OutOfMemory> = cycle.copy(rt.alloc());
    assert_rectangle(&rt, &copy.expect(&rt, "there is room for the copy"));
}

#[test]
fn gives_a_list_back(rt: HostRuntime) {
    let point: &[Point] = &[Point { x: 0, y: 0 }];
    let Err((fault, points)) = make(&rt, rt.alloc(), point) else {
        panic!(rt; "one point is a cycle")
    };
    assert_same(&rt, parts_of(fault), ("TooFewPoints", None), "one point");
    assert_same(&rt, points.as_slice(), point, "one point");
}
