//! Culls, while allocations are refused.

use super::plan::Plan;
use super::{assert_applies, assert_makes};
use mf_rows::Run;

/// The rows after weights from 1 to 3 are kept, with weight -2.
const KEPT: &[Run] = &[run_of!(1, 0, 3, -2)];

/// The rows after weights from -2 to 3 are dropped: all others become 3.
const NOT_DROPPED: &[Run] = &[run_of!(90, -3, 2, 3), run_of!(0, -1, 3, 3)];

#[test]
fn weights_are_kept(rt: HostRuntime) {
    assert_makes(&rt, Plan::Keeping(1, 3, -2), KEPT);
}

#[test]
fn weights_are_dropped(rt: HostRuntime) {
    assert_makes(&rt, Plan::Dropping(-2, 3, 3), NOT_DROPPED);
}

#[test]
fn weights_of_the_picture_itself_are_dropped(rt: HostRuntime) {
    assert_applies(&rt, Plan::Dropping(-2, 3, 3), NOT_DROPPED);
}
