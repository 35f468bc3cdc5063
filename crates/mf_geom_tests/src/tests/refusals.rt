//! Lists of points that are refused, each with its first fault.

use super::{Corners, walk};
use crate::tests::assertions::assert_same;
use mf_geom::{Cycle, CycleFault};
use std::process::Abort;

/// Asserts that the points of the path, walked `times` times, are refused with this fault and given back unchanged.
fn assert_refused<R: Abort + AllocGlobal>(
    rt: &R,
    corners: Corners,
    times: usize,
    fault: CycleFault,
) {
    let points = walk(rt, corners, times);
    match Cycle::new(walk(rt, corners, times)) {
        Ok(cycle) => panic!(rt; "{cycle:?} is accepted"),
        Err((found, back)) => {
            assert_same(rt, (found, back.as_slice()), (fault, &points), corners);
        }
    }
}

/// Asserts that each of these paths has a point out of range, the first of them at this index.
fn assert_out_of_range<R: Abort + AllocGlobal>(rt: &R, lists: &[(Corners, u32)]) {
    for (corners, place) in lists {
        assert_refused(rt, corners, 1, CycleFault::PointOutOfRange(*place));
    }
}

/// Asserts that each of these paths has a segment that is not rectilinear, the first of them at this index.
fn assert_not_rectilinear<R: Abort + AllocGlobal>(rt: &R, lists: &[(Corners, u32)]) {
    for (corners, place) in lists {
        assert_refused(rt, corners, 1, CycleFault::NotRectilinear(*place));
    }
}

#[test]
fn refuses_too_few_or_too_many_points(rt: HostRuntime) {
    assert_refused(&rt, &[], 1, CycleFault::TooFewPoints);
    assert_refused(&rt, &[(0, 0)], 1, CycleFault::TooFewPoints);
    assert_refused(&rt, &[(0, 0)], 4097, CycleFault::TooManyPoints);
    // The number of points is checked before their coordinates.
    assert_refused(&rt, &[(4096, 0)], 1, CycleFault::TooFewPoints);
    assert_refused(&rt, &[(4096, 0)], 4097, CycleFault::TooManyPoints);
}

#[test]
fn refuses_points_out_of_range(rt: HostRuntime) {
    let lists: [(Corners, u32); 7] = [
        (&[(0, 0), (4096, 0), (4096, 1), (0, 1)], 1),
        (&[(0, 0), (0, 1), (-4096, 1), (-4096, 0)], 2),
        (&[(0, 0), (1, 0), (1, 1), (0, 4096)], 3),
        (&[(0, -4096), (1, -4096), (1, 0), (0, 0)], 0),
        (&[(0, 0), (i32::MIN, 0), (0, 1)], 1),
        (&[(0, 0), (1, 0), (1, i32::MAX)], 2),
        // The coordinates are checked before the segments.
        (&[(0, 0), (1, 1), (4096, 1), (0, 1)], 2),
    ];
    assert_out_of_range(&rt, &lists);
}

#[test]
fn refuses_segments_that_are_not_rectilinear(rt: HostRuntime) {
    let lists: [(Corners, u32); 6] = [
        (&[(0, 0), (1, 1), (0, 1)], 0),
        (&[(0, 0), (2, 0), (2, 1)], 2),
        (&[(0, 0), (1, 0), (2, 1), (3, 2), (0, 2)], 1),
        // A point is repeated, or the first point comes again at the end.
        (&[(0, 0), (3, 0), (3, 0), (3, 2), (0, 2)], 1),
        (&[(0, 0), (3, 0), (3, 2), (0, 2), (0, 0)], 4),
        // A reversal is no fault of the list, so the segment after it is reported.
        (&[(0, 0), (3, 0), (1, 0), (1, 1), (0, 2)], 3),
    ];
    assert_not_rectilinear(&rt, &lists);
}
