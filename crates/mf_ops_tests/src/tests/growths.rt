//! Calls whose allocations are refused, one after another. Each test asserts that a refused call leaves the operation and the
//! picture as they were, and that the same call with ample memory then gives its value.

/// A run of pixels as a constant: tables that a test makes itself cost the prover seconds.
macro_rules! run_of {
    ($y:expr, $x:expr, $len:expr, $weight:expr) => {
        Run {
            y: $y,
            x: $x,
            len: $len,
            weight: $weight,
        }
    };
}

mod additions;
mod copies;
mod culls;
mod limits;
mod moves;
mod plan;

use super::{assert_runs, picture_after};
use crate::tests::assertions::assert_same;
use crate::tests::contours::picture_of;
use mf_ops::{Op, OpFault, after, apply};
use mf_rows::{Picture, Run};
use mf_testing::{grow_again, refuse_growths};
use plan::Plan;
use std::process::Abort;

/// Rows of which two lie next to each other. One of these has two weights side by side.
const APART: &[Run] = &[
    run_of!(90, -3, 2, 5),
    run_of!(1, 0, 2, 1),
    run_of!(1, 2, 1, 3),
    run_of!(0, -1, 3, -4),
    run_of!(-70, 0, 1, -2),
];

/// What `after` returns while allocations are refused.
fn after_while_refused<R: Abort + AllocGlobal>(
    rt: &R,
    picture: &Picture,
    op: &Op,
) -> Result<Picture, OpFault> {
    refuse_growths(rt.alloc());
    let answer = after(rt.alloc(), picture, op);
    grow_again(rt.alloc());
    answer
}

/// What `apply` returns while allocations are refused.
fn apply_while_refused<R: Abort + AllocGlobal>(
    rt: &R,
    picture: &mut Picture,
    op: &Op,
) -> Result<(), OpFault> {
    refuse_growths(rt.alloc());
    let answer = apply(rt.alloc(), picture, op);
    grow_again(rt.alloc());
    answer
}

/// Asserts that an operation is refused because an allocation failed.
fn assert_out_of_memory(rt: &impl Abort, fault: OpFault, plan: Plan) {
    assert_same(rt, fault, OpFault::OutOfMemory, plan);
}

/// Asserts that an operation makes a picture with these runs out of the rows.
fn assert_makes<R: Abort + AllocGlobal>(rt: &R, plan: Plan, runs: &[Run]) {
    assert_makes_from(rt, APART, plan, runs);
}

/// Asserts that an operation makes a picture with these runs out of one with the runs `old`.
fn assert_makes_from<R: Abort + AllocGlobal>(rt: &R, old: &[Run], plan: Plan, runs: &[Run]) {
    let picture = picture_of(rt, old);
    let op = plan.op(rt, &picture);
    let answer = after_while_refused(rt, &picture, &op);
    assert_runs(rt, &picture, old);
    plan.assert_is(rt, &op);
    let new = match answer {
        Ok(new) => new,
        Err(fault) => {
            assert_out_of_memory(rt, fault, plan);
            picture_after(rt, &picture, &op)
        }
    };
    assert_runs(rt, &new, runs);
    assert_runs(rt, &picture, old);
    plan.assert_is(rt, &op);
}

/// Asserts that an operation performed on the rows in place turns them into these runs.
fn assert_applies<R: Abort + AllocGlobal>(rt: &R, plan: Plan, runs: &[Run]) {
    let mut picture = picture_of(rt, APART);
    let op = plan.op(rt, &picture);
    let answer = apply_while_refused(rt, &mut picture, &op);
    plan.assert_is(rt, &op);
    if let Err(fault) = answer {
        assert_out_of_memory(rt, fault, plan);
        assert_runs(rt, &picture, APART);
        let again = apply(rt.alloc(), &mut picture, &op);
        assert_same(rt, again, Ok(()), plan);
    }
    assert_runs(rt, &picture, runs);
    plan.assert_is(rt, &op);
}
