//! Cycles with their turning numbers and areas.

use super::{CLOCKWISE, Corners, EIGHT, FIELD, PIXEL, RECTANGLE, cycle_of, walk};
use crate::tests::assertions::assert_same;
use mf_geom::{Cycle, CycleFault, Point};
use std::process::Abort;

/// All that a cycle says of itself: its points, its turning number or the fault instead of it, and its area.
fn answers_of(cycle: &Cycle) -> (&[Point], Result<i32, CycleFault>, i64) {
    (cycle.points(), cycle.turning(), cycle.area())
}

/// Asserts that the path, walked `times` times, makes a cycle that keeps its points and has this turning number and
/// area.
fn assert_cycle<R: Abort + AllocGlobal>(
    rt: &R,
    corners: Corners,
    times: usize,
    turning: i32,
    area: i64,
) {
    let cycle = cycle_of(rt, corners, times);
    let points = walk(rt, corners, times);
    assert_same(
        rt,
        answers_of(&cycle),
        (&points, Ok(turning), area),
        corners,
    );
}

/// Asserts that each of these paths makes a cycle that keeps its points, has this area, and first turns straight back
/// at this vertex.
fn assert_backtracks<R: Abort + AllocGlobal>(rt: &R, lists: &[(Corners, u32, i64)]) {
    for (corners, place, area) in lists {
        let cycle = cycle_of(rt, corners, 1);
        let points = walk(rt, corners, 1);
        let turning = Err(CycleFault::Backtracks(*place));
        assert_same(rt, answers_of(&cycle), (&points, turning, *area), *corners);
    }
}

/// Asserts that the cycle through these points has exactly these segments.
fn assert_segments<R: Abort + AllocGlobal>(
    rt: &R,
    corners: Corners,
    segments: &[((i32, i32), (i32, i32))],
) {
    let cycle = cycle_of(rt, corners, 1);
    assert_same(
        rt,
        cycle.points().len(),
        segments.len(),
        "number of segments",
    );
    for (place, ends) in segments.iter().enumerate() {
        if place < cycle.points().len() {
            let (from, to) = cycle.segment_ends(place);
            assert_same(
                rt,
                ((from.x, from.y), (to.x, to.y)),
                *ends,
                ("segment", place),
            );
        }
    }
}

/// Asserts that a copy of the cycle through the points of the path, walked `times` times, says the same of itself as
/// the cycle.
fn assert_copied<R: Abort + AllocGlobal>(rt: &R, corners: Corners, times: usize) {
    let cycle = cycle_of(rt, corners, times);
    let copy = cycle
        .copy(rt.alloc())
        .expect(rt, "there is room for the copy");
    assert_same(rt, answers_of(&copy), answers_of(&cycle), corners);
}

#[test]
fn accepts_cycles(rt: HostRuntime) {
    assert_cycle(&rt, RECTANGLE, 1, 1, 6);
    assert_cycle(&rt, CLOCKWISE, 1, -1, -6);
    assert_cycle(&rt, &[(-5, -3), (-2, -3), (-2, -1), (-5, -1)], 1, 1, 6);
    let l: Corners = &[(0, 0), (2, 0), (2, 1), (1, 1), (1, 2), (0, 2)];
    assert_cycle(&rt, l, 1, 1, 3);
    // A vertex at which the path goes straight on: within the list, at its start and at its end.
    assert_cycle(&rt, &[(0, 0), (1, 0), (3, 0), (3, 2), (0, 2)], 1, 1, 6);
    assert_cycle(&rt, &[(1, 0), (3, 0), (3, 2), (0, 2), (0, 0)], 1, 1, 6);
    assert_cycle(&rt, &[(3, 0), (3, 2), (0, 2), (0, 0), (1, 0)], 1, 1, 6);
    assert_cycle(&rt, FIELD, 1, 1, 67_076_100);
}

#[test]
fn accepts_cycles_walked_more_than_once(rt: HostRuntime) {
    assert_cycle(&rt, &[(0, 0), (2, 0), (2, 2), (0, 2)], 2, 2, 8);
    assert_cycle(&rt, &[(0, 0), (0, 2), (2, 2), (2, 0)], 3, -3, -12);
    assert_cycle(&rt, PIXEL, 1024, 1024, 1024);
    assert_cycle(&rt, FIELD, 1024, 1024, 68_685_926_400);
}

#[test]
fn accepts_a_figure_of_eight(rt: HostRuntime) {
    assert_cycle(&rt, EIGHT, 1, 0, 0);
}

#[test]
fn accepts_reversals(rt: HostRuntime) {
    let lists: [(Corners, u32, i64); 6] = [
        // There and back, with no other turn.
        (&[(0, 0), (1, 0)], 0, 0),
        (&[(0, 0), (3, 0), (1, 0), (1, 1), (0, 1)], 1, 1),
        (&[(0, 0), (1, 0), (1, 3), (1, 1), (0, 1)], 2, 1),
        (&[(0, 0), (3, 0), (1, 0), (2, 0), (2, 1), (0, 1)], 1, 2),
        // At the first vertex only, and at the last one only.
        (&[(3, 0), (1, 0), (1, 1), (0, 1), (0, 0)], 0, 1),
        (&[(1, 0), (1, 1), (0, 1), (0, 0), (3, 0)], 4, 1),
    ];
    assert_backtracks(&rt, &lists);
}

#[test]
fn gives_its_segments(rt: HostRuntime) {
    // The last segment leads back to the first point.
    assert_segments(
        &rt,
        RECTANGLE,
        &[
            ((0, 0), (3, 0)),
            ((3, 0), (3, 2)),
            ((3, 2), (0, 2)),
            ((0, 2), (0, 0)),
        ],
    );
}

#[test]
fn copies_cycles(rt: HostRuntime) {
    assert_copied(&rt, RECTANGLE, 1);
    assert_copied(&rt, &[(0, 0), (0, 2), (2, 2), (2, 0)], 3);
    assert_copied(&rt, PIXEL, 1024);
    assert_copied(&rt, FIELD, 1);
    assert_copied(&rt, EIGHT, 1);
    assert_copied(&rt, &[(0, 0), (1, 0)], 1);
}
