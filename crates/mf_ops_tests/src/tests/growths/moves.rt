//! Shifts, scales and turns, while allocations are refused.

use super::plan::Plan;
use super::{assert_applies, assert_makes, assert_makes_from};
use mf_rows::Run;
use std::process::Abort;

/// The rows shifted by two columns to the right and one row down.
const SHIFTED: &[Run] = &[
    run_of!(89, -1, 2, 5),
    run_of!(0, 2, 2, 1),
    run_of!(0, 4, 1, 3),
    run_of!(-1, 1, 3, -4),
    run_of!(-71, 2, 1, -2),
];

#[test]
fn a_picture_is_shifted(rt: HostRuntime) {
    assert_makes(&rt, Plan::Shift(2, -1), SHIFTED);
}

#[test]
fn a_picture_itself_is_shifted(rt: HostRuntime) {
    assert_applies(&rt, Plan::Shift(2, -1), SHIFTED);
}

/// Rows that keep their columns are shared with the old picture.
#[test]
fn a_picture_is_shifted_upwards(rt: HostRuntime) {
    const RAISED: &[Run] = &[
        run_of!(93, -3, 2, 5),
        run_of!(4, 0, 2, 1),
        run_of!(4, 2, 1, 3),
        run_of!(3, -1, 3, -4),
        run_of!(-67, 0, 1, -2),
    ];
    assert_makes(&rt, Plan::Shift(0, 3), RAISED);
}

#[test]
fn a_picture_is_stretched(rt: HostRuntime) {
    const STRETCHED: &[Run] = &[
        run_of!(181, -9, 6, 5),
        run_of!(180, -9, 6, 5),
        run_of!(3, 0, 6, 1),
        run_of!(3, 6, 3, 3),
        run_of!(2, 0, 6, 1),
        run_of!(2, 6, 3, 3),
        run_of!(1, -3, 9, -4),
        run_of!(0, -3, 9, -4),
        run_of!(-139, 0, 3, -2),
        run_of!(-140, 0, 3, -2),
    ];
    assert_makes(&rt, Plan::Scale(3, 2), STRETCHED);
}

#[test]
fn columns_are_reflected(rt: HostRuntime) {
    const REFLECTED: &[Run] = &[
        run_of!(90, 2, 4, 5),
        run_of!(1, -6, 2, 3),
        run_of!(1, -4, 4, 1),
        run_of!(0, -4, 6, -4),
        run_of!(-70, -2, 2, -2),
    ];
    assert_makes(&rt, Plan::Scale(-2, 1), REFLECTED);
}

#[test]
fn rows_are_reflected(rt: HostRuntime) {
    const REFLECTED: &[Run] = &[
        run_of!(69, 0, 1, -2),
        run_of!(-1, -1, 3, -4),
        run_of!(-2, 0, 2, 1),
        run_of!(-2, 2, 1, 3),
        run_of!(-91, -3, 2, 5),
    ];
    assert_makes(&rt, Plan::Scale(1, -1), REFLECTED);
}

#[test]
fn columns_and_rows_are_reflected(rt: HostRuntime) {
    const REFLECTED: &[Run] = &[
        run_of!(139, -1, 1, -2),
        run_of!(138, -1, 1, -2),
        run_of!(-1, -2, 3, -4),
        run_of!(-2, -2, 3, -4),
        run_of!(-3, -3, 1, 3),
        run_of!(-3, -2, 2, 1),
        run_of!(-4, -3, 1, 3),
        run_of!(-4, -2, 2, 1),
        run_of!(-181, 1, 2, 5),
        run_of!(-182, 1, 2, 5),
    ];
    assert_makes(&rt, Plan::Scale(-1, -2), REFLECTED);
}

/// The rows turned by 90 degrees.
const TURNED: &[Run] = &[
    run_of!(2, -2, 1, 3),
    run_of!(1, -2, 1, 1),
    run_of!(1, -1, 1, -4),
    run_of!(0, -2, 1, 1),
    run_of!(0, -1, 1, -4),
    run_of!(0, 69, 1, -2),
    run_of!(-1, -1, 1, -4),
    run_of!(-2, -91, 1, 5),
    run_of!(-3, -91, 1, 5),
];

#[test]
fn a_picture_is_turned_once(rt: HostRuntime) {
    assert_makes(&rt, Plan::Turn(90), TURNED);
}

#[test]
fn a_picture_itself_is_turned_once(rt: HostRuntime) {
    assert_applies(&rt, Plan::Turn(90), TURNED);
}

#[test]
fn a_picture_is_turned_twice(rt: HostRuntime) {
    const TWICE: &[Run] = &[
        run_of!(69, -1, 1, -2),
        run_of!(-1, -2, 3, -4),
        run_of!(-2, -3, 1, 3),
        run_of!(-2, -2, 2, 1),
        run_of!(-91, 1, 2, 5),
    ];
    assert_makes(&rt, Plan::Turn(180), TWICE);
}

#[test]
fn a_picture_is_turned_thrice(rt: HostRuntime) {
    const THRICE: &[Run] = &[
        run_of!(2, 90, 1, 5),
        run_of!(1, 90, 1, 5),
        run_of!(0, 0, 1, -4),
        run_of!(-1, -70, 1, -2),
        run_of!(-1, 0, 1, -4),
        run_of!(-1, 1, 1, 1),
        run_of!(-2, 0, 1, -4),
        run_of!(-2, 1, 1, 1),
        run_of!(-3, 1, 1, 3),
    ];
    assert_makes(&rt, Plan::Turn(270), THRICE);
}

/// Transforms of the pixel (0, 0), and the runs that they make.
const OF_A_PIXEL: &[(Plan, &[Run])] = &[
    (Plan::Scale(-1, 1), &[run_of!(0, -1, 1, 1)]),
    (Plan::Scale(-2, 1), &[run_of!(0, -2, 2, 1)]),
    (Plan::Scale(1, -1), &[run_of!(-1, 0, 1, 1)]),
    (
        Plan::Scale(2, 2),
        &[run_of!(1, 0, 2, 1), run_of!(0, 0, 2, 1)],
    ),
    (Plan::Turn(90), &[run_of!(0, -1, 1, 1)]),
    (Plan::Turn(180), &[run_of!(-1, -1, 1, 1)]),
    (Plan::Turn(270), &[run_of!(-1, 0, 1, 1)]),
    (Plan::Shift(2, -1), &[run_of!(-1, 2, 1, 1)]),
];

/// Asserts that these transforms of the pixel make these runs.
fn assert_all_move_a_pixel<R: Abort + AllocGlobal>(rt: &R, transforms: &[(Plan, &[Run])]) {
    for (plan, runs) in transforms {
        assert_makes_from(rt, &[run_of!(0, 0, 1, 1)], *plan, runs);
    }
}

#[test]
fn a_pixel_is_moved(rt: HostRuntime) {
    assert_all_move_a_pixel(&rt, OF_A_PIXEL);
}
