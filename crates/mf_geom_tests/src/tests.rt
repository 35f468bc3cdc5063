//! Lists of points whose answers are known.

mod assertions;
mod cycles;
mod growths;
mod refusals;

use mf_geom::{Cycle, Point};
use std::process::Abort;

/// The points of a path, as pairs of coordinates.
type Corners = &'static [(i32, i32)];

/// A square of one pixel.
const PIXEL: Corners = &[(0, 0), (1, 0), (1, 1), (0, 1)];

/// A rectangle of 3 by 2 pixels, counterclockwise; below it the same rectangle, clockwise.
const RECTANGLE: Corners = &[(0, 0), (3, 0), (3, 2), (0, 2)];

const CLOCKWISE: Corners = &[(0, 0), (0, 2), (3, 2), (3, 0)];

/// A figure of eight: two squares that meet, one walked counterclockwise and the other clockwise.
const EIGHT: Corners = &[(0, 0), (1, 0), (1, 2), (2, 2), (2, 1), (0, 1)];

/// The largest square whose corners are in range, which encloses the field.
const FIELD: Corners = &[(-4095, -4095), (4095, -4095), (4095, 4095), (-4095, 4095)];

/// The points of the path, walked `times` times.
fn walk<R: Abort + AllocGlobal>(rt: &R, corners: Corners, times: usize) -> Vec<Point> {
    let mut points = Vec::new(rt.alloc());
    for _ in 0..times {
        for (x, y) in corners {
            points
                .push(Point { x: *x, y: *y })
                .expect(rt, "there is room for the point");
        }
    }
    points
}

/// The cycle through the points of the path, walked `times` times.
fn cycle_of<R: Abort + AllocGlobal>(rt: &R, corners: Corners, times: usize) -> Cycle {
    match Cycle::new(walk(rt, corners, times)) {
        Ok(cycle) => cycle,
        Err((fault, back)) => panic!(rt; "{back:?} is refused: {fault:?}"),
    }
}
