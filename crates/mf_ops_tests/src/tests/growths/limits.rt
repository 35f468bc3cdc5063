//! Operations that are refused for another reason than memory, and the only operation that is never refused.

use super::plan::Plan;
use super::{APART, after_while_refused, apply_while_refused};
use crate::tests::assertions::assert_same;
use crate::tests::contours::picture_of;
use crate::tests::turning::{EIGHT, SPIKE};
use crate::tests::{RECTANGLE, assert_refused, assert_runs};
use mf_geom::CycleFault;
use mf_ops::{Check, Op, OpFault, Sign, after};
use mf_rows::{Picture, Run};
use mf_testing::{grow_again, refuse_all_growths};
use std::process::Abort;

/// Two rows. The lower one has weights close to the greatest and to the least one.
const HEAVY: &[Run] = &[
    run_of!(1, 0, 2, 1),
    run_of!(0, 0, 1, 32766),
    run_of!(0, 2, 1, -32766),
];

/// A picture which, when added, makes a weight of the lower row greater than the greatest.
const LEFT: &[Run] = &[run_of!(1, 1, 1, 5), run_of!(0, 0, 1, 2)];

/// Asserts that the fault is `WeightTooLarge`, or `OutOfMemory`, which may come instead of it.
fn assert_too_large(rt: &impl Abort, fault: Option<OpFault>, plan: Plan) {
    if fault != Some(OpFault::OutOfMemory) {
        assert_same(rt, fault, Some(OpFault::WeightTooLarge), plan);
    }
}

/// Asserts that an operation that would make a weight of the heavy rows too large is refused.
fn assert_stops<R: Abort + AllocGlobal>(rt: &R, plan: Plan) {
    let picture = picture_of(rt, HEAVY);
    let op = plan.op(rt, &picture);
    let answer = after_while_refused(rt, &picture, &op);
    assert_too_large(rt, answer.err(), plan);
    assert_runs(rt, &picture, HEAVY);
    plan.assert_is(rt, &op);
    assert_refused(rt, &picture, &op, OpFault::WeightTooLarge);
    assert_runs(rt, &picture, HEAVY);
}

/// The same, where the operation is performed on the heavy rows in place.
fn assert_stops_itself<R: Abort + AllocGlobal>(rt: &R, plan: Plan) {
    let mut picture = picture_of(rt, HEAVY);
    let op = plan.op(rt, &picture);
    let answer = apply_while_refused(rt, &mut picture, &op);
    assert_too_large(rt, answer.err(), plan);
    assert_runs(rt, &picture, HEAVY);
    plan.assert_is(rt, &op);
    assert_refused(rt, &picture, &op, OpFault::WeightTooLarge);
}

#[test]
fn a_contour_stops_at_the_greatest_weight(rt: HostRuntime) {
    assert_stops(&rt, Plan::Contour(RECTANGLE, 2, Check::On));
}

#[test]
fn a_contour_stops_at_the_least_weight(rt: HostRuntime) {
    assert_stops_itself(&rt, Plan::Contour(RECTANGLE, -2, Check::Off));
}

#[test]
fn a_sum_stops_at_the_greatest_weight(rt: HostRuntime) {
    assert_stops(&rt, Plan::Also(LEFT, Sign::Plus));
}

#[test]
fn a_sum_with_the_picture_itself_stops_at_the_greatest_weight(rt: HostRuntime) {
    assert_stops_itself(&rt, Plan::AlsoItself(HEAVY, Sign::Plus));
}

/// A picture which, when subtracted, makes a weight of the lower row less than the least.
const RIGHT: &[Run] = &[run_of!(1, 1, 1, 5), run_of!(0, 2, 1, 2)];

#[test]
fn a_difference_stops_at_the_least_weight(rt: HostRuntime) {
    assert_stops(&rt, Plan::Also(RIGHT, Sign::Minus));
}

/// What `after` returns where every allocation is refused.
fn after_without_memory<R: Abort + AllocGlobal>(
    rt: &R,
    picture: &Picture,
    op: &Op,
) -> Result<Picture, OpFault> {
    refuse_all_growths(rt.alloc());
    let answer = after(rt.alloc(), picture, op);
    grow_again(rt.alloc());
    answer
}

/// Asserts that an operation on the rows is refused with this fault, also where every allocation is refused.
fn assert_refused_first<R: Abort + AllocGlobal>(rt: &R, plan: Plan, fault: OpFault) {
    let picture = picture_of(rt, APART);
    let op = plan.op(rt, &picture);
    let answer = after_without_memory(rt, &picture, &op);
    assert_same(rt, answer.err(), Some(fault), plan);
    assert_runs(rt, &picture, APART);
    plan.assert_is(rt, &op);
    assert_refused(rt, &picture, &op, fault);
}

#[test]
fn backtracks_comes_before_out_of_memory(rt: HostRuntime) {
    let fault = OpFault::Cycle(CycleFault::Backtracks(1));
    assert_refused_first(&rt, Plan::Contour(SPIKE, 3, Check::On), fault);
}

#[test]
fn turning_zero_comes_before_out_of_memory(rt: HostRuntime) {
    let fault = OpFault::Cycle(CycleFault::TurningZero);
    assert_refused_first(&rt, Plan::Contour(EIGHT, 3, Check::On), fault);
}

#[test]
fn a_shift_out_of_the_field_comes_before_out_of_memory(rt: HostRuntime) {
    assert_refused_first(&rt, Plan::Shift(4093, 0), OpFault::OutOfField);
}

#[test]
fn a_scale_out_of_the_field_comes_before_out_of_memory(rt: HostRuntime) {
    assert_refused_first(&rt, Plan::Scale(-1, -46), OpFault::OutOfField);
}

#[test]
fn a_clear_allocates_nothing(rt: HostRuntime) {
    let picture = picture_of(&rt, APART);
    let cleared = after_without_memory(&rt, &picture, &Op::Clear);
    assert_runs(&rt, &cleared.expect(&rt, "a clear is never refused"), &[]);
    assert_runs(&rt, &picture, APART);
}
