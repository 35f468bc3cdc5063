//! Copies of operations, while allocations are refused.

use super::APART;
use super::plan::Plan;
use crate::tests::assertions::assert_same;
use crate::tests::{RECTANGLE, assert_runs, picture_after};
use mf_base::OutOfMemory;
use mf_ops::{Check, Op, Sign};
use mf_rows::{Picture, Run};
use mf_testing::{grow_again, refuse_growths};
use std::process::Abort;

/// Copies an operation while allocations are refused, or with ample memory where that is refused. Asserts that the operation stays
/// as it was, and that its copy is equal.
fn copy_in_the_end<R: Abort + AllocGlobal>(rt: &R, plan: Plan) -> Op {
    let op = plan.op(rt, &Picture::blank(rt.alloc()));
    refuse_growths(rt.alloc());
    let copy = op.copy(rt.alloc());
    grow_again(rt.alloc());
    plan.assert_is(rt, &op);
    let copy = match copy {
        Ok(copy) => copy,
        Err(fault) => {
            assert_same(rt, fault, OutOfMemory, plan);
            op.copy(rt.alloc()).expect(rt, "there is room for the copy")
        }
    };
    plan.assert_is(rt, &copy);
    plan.assert_is(rt, &op);
    copy
}

/// Asserts that the copy of an operation makes a picture with these runs out of the blank one.
fn assert_copied<R: Abort + AllocGlobal>(rt: &R, plan: Plan, runs: &[Run]) {
    let copy = copy_in_the_end(rt, plan);
    let blank = Picture::blank(rt.alloc());
    assert_runs(rt, &picture_after(rt, &blank, &copy), runs);
}

#[test]
fn a_contour_is_copied(rt: HostRuntime) {
    let runs = [run_of!(1, 0, 3, -3), run_of!(0, 0, 3, -3)];
    assert_copied(&rt, Plan::Contour(RECTANGLE, -3, Check::On), &runs);
}

#[test]
fn an_unchecked_contour_is_copied(rt: HostRuntime) {
    let runs = [run_of!(1, 0, 3, 2), run_of!(0, 0, 3, 2)];
    assert_copied(&rt, Plan::Contour(RECTANGLE, 2, Check::Off), &runs);
}

#[test]
fn an_added_picture_is_copied(rt: HostRuntime) {
    assert_copied(&rt, Plan::Also(APART, Sign::Plus), APART);
}

#[test]
fn a_subtracted_picture_is_copied(rt: HostRuntime) {
    const OPPOSITE: &[Run] = &[
        run_of!(90, -3, 2, -5),
        run_of!(1, 0, 2, -1),
        run_of!(1, 2, 1, -3),
        run_of!(0, -1, 3, 4),
        run_of!(-70, 0, 1, 2),
    ];
    assert_copied(&rt, Plan::Also(APART, Sign::Minus), OPPOSITE);
}
