//! Contours.

use super::read;
use crate::tests::assertions::assert_same;
use mf_geom::Point;
use mf_text::{Command, Name};
use std::alloc::Global;
use std::process::Abort;

const RECTANGLE: &[Point] = &[
    Point { x: 0, y: 0 },
    Point { x: 3, y: 0 },
    Point { x: 3, y: 2 },
    Point { x: 0, y: 2 },
];

/// A rectangle across the field, from its left end to its right end.
const WIDE: &[Point] = &[
    Point { x: -4095, y: 7 },
    Point { x: -4095, y: -8 },
    Point { x: 4095, y: -8 },
    Point { x: 4095, y: 7 },
];

/// A path with as many right turns as left turns.
const STEPS: &[Point] = &[
    Point { x: 0, y: 0 },
    Point { x: 1, y: 0 },
    Point { x: 1, y: 2 },
    Point { x: 2, y: 2 },
    Point { x: 2, y: 1 },
    Point { x: 0, y: 1 },
];

/// A path that turns straight back at its second point.
const BACK: &[Point] = &[
    Point { x: 0, y: 0 },
    Point { x: 3, y: 0 },
    Point { x: 1, y: 0 },
    Point { x: 1, y: 1 },
    Point { x: 0, y: 1 },
];

/// A path of two points, which turns straight back at both.
const SEGMENT: &[Point] = &[Point { x: 0, y: 0 }, Point { x: 1, y: 0 }];

/// Asserts that the line is a contour with this name and weight through these points.
fn assert_contour(
    rt: &impl Abort,
    alloc: Global,
    line: &str,
    expected: (Name, i32),
    points: &[Point],
) {
    assert_is_contour(rt, &read(rt, alloc, line), line, expected, points);
}

/// Asserts that the command of the line is a contour with this name and weight through these points.
pub(super) fn assert_is_contour(
    rt: &impl Abort,
    command: &Command,
    line: &str,
    expected: (Name, i32),
    points: &[Point],
) {
    match command {
        Command::Contour(name, cycle, weight) => {
            assert_same(rt, (*name, weight.get()), expected, line);
            assert_same(rt, cycle.points(), points, line);
        }
        _ => panic!(rt; "{line} is no contour"),
    }
}

#[test]
fn contours(rt: HostRuntime) {
    let alloc = rt.alloc();
    assert_contour(
        &rt,
        alloc,
        "addto currentpicture contour (0,0)--(3,0)--(3,2)--(0,2)--cycle withweight -2",
        (Name::Current, -2),
        RECTANGLE,
    );
    assert_contour(
        &rt,
        alloc,
        "addto b contour (-4095,7)--(-4095,-8)--(4095,-8)--(4095,7)--cycle",
        (Name::Register(1), 1),
        WIDE,
    );
}

/// A contour is read whether its cycle passes the turning check or not.
#[test]
fn contours_are_read_unchecked(rt: HostRuntime) {
    let alloc = rt.alloc();
    assert_contour(
        &rt,
        alloc,
        "addto a contour (0,0)--(1,0)--(1,2)--(2,2)--(2,1)--(0,1)--cycle",
        (Name::Register(0), 1),
        STEPS,
    );
    assert_contour(
        &rt,
        alloc,
        "addto currentpicture contour (0,0)--(3,0)--(1,0)--(1,1)--(0,1)--cycle withweight -3",
        (Name::Current, -3),
        BACK,
    );
    assert_contour(
        &rt,
        alloc,
        "addto z contour (0,0)--(1,0)--cycle;",
        (Name::Register(25), 1),
        SEGMENT,
    );
}
