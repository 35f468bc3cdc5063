//! Lines of the grammar whose values are refused.

use super::assert_refused;
use mf_geom::CycleFault;
use mf_text::TextFault;
use std::alloc::Global;
use std::process::Abort;

/// Lines whose values are refused.
const REFUSED: &[(&str, TextFault)] = &[
    (
        "addto a contour (0,0)--(1,1)--(0,1)--cycle",
        TextFault::Cycle(CycleFault::NotRectilinear(0)),
    ),
    (
        "addto a contour (0,0)--cycle",
        TextFault::Cycle(CycleFault::TooFewPoints),
    ),
    (
        "addto a contour (0,0)--(4096,0)--(4096,1)--(0,1)--cycle",
        TextFault::Cycle(CycleFault::PointOutOfRange(1)),
    ),
    (
        "addto a contour (0,0)--(1,0)--(1,1)--(0,1)--cycle withweight 4",
        TextFault::BadWeight,
    ),
    // Refusals of the points come before that of the weight.
    (
        "addto a contour (0,0)--cycle withweight 4",
        TextFault::Cycle(CycleFault::TooFewPoints),
    ),
    (
        "addto a contour (0,0)--(4096,0)--(4096,1)--(0,1)--cycle withweight 4",
        TextFault::Cycle(CycleFault::PointOutOfRange(1)),
    ),
    (
        "addto a contour (0,0)--(1,1)--(0,1)--cycle withweight 4",
        TextFault::Cycle(CycleFault::NotRectilinear(0)),
    ),
    // The turning check comes when the contour is filled, so the refusal of the weight comes first.
    (
        "addto a contour (0,0)--(1,0)--cycle withweight 4",
        TextFault::BadWeight,
    ),
    (
        "addto a contour (0,0)--(3,0)--(1,0)--(1,1)--(0,1)--cycle withweight 4",
        TextFault::BadWeight,
    ),
    (
        "addto a contour (0,0)--(1,0)--(1,2)--(2,2)--(2,1)--(0,1)--cycle withweight 0",
        TextFault::BadWeight,
    ),
    ("cull a keeping (0,3)", TextFault::BadCull),
    ("cull a dropping (1,3)", TextFault::BadCull),
    ("cull a keeping (3,2)", TextFault::BadCull),
    ("cull a keeping (0,3) withweight 4", TextFault::BadWeight),
    ("a := a scaled 0", TextFault::BadScale),
    ("a := a xscaled 4096", TextFault::BadScale),
    ("a := a yscaled -999999999", TextFault::BadScale),
    ("a := a rotated 45", TextFault::BadTurn),
    ("a := a rotated -90", TextFault::BadTurn),
    ("a := a rotated 360", TextFault::BadTurn),
];

/// Asserts that each of these lines is refused with its fault.
fn assert_all_refused(rt: &impl Abort, alloc: Global, lines: &[(&str, TextFault)]) {
    for (line, fault) in lines {
        assert_refused(rt, alloc, line, *fault);
    }
}

#[test]
fn values_are_refused(rt: HostRuntime) {
    assert_all_refused(&rt, rt.alloc(), REFUSED);
}
