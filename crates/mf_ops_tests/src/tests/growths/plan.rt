//! Operations as constants.

use crate::tests::assertions::assert_same;
use crate::tests::contours::picture_of;
use crate::tests::{
    Corners, assert_runs, copy_of, cycle, dropping, keeping, scale, turn, walk, weight,
};
use mf_ops::{Check, Op, Sign};
use mf_rows::{Picture, Run};
use std::process::Abort;

/// An operation, given by its parts: corners, runs and numbers.
#[derive(Clone, Copy, Debug)]
pub(super) enum Plan {
    Contour(Corners, i32, Check),
    Also(&'static [Run], Sign),
    /// A copy of the changed picture itself, which has these runs, is added or subtracted.
    AlsoItself(&'static [Run], Sign),
    Keeping(i32, i32, i32),
    Dropping(i32, i32, i32),
    Shift(i32, i32),
    Scale(i32, i32),
    /// A turn by this angle.
    Turn(i32),
    Clear,
}

impl Plan {
    /// The operation of this plan, for a change of this picture.
    pub(super) fn op<R: Abort + AllocGlobal>(self, rt: &R, picture: &Picture) -> Op {
        match self {
            Plan::Contour(corners, number, check) => {
                Op::Contour(cycle(rt, corners, 1), weight(rt, number), check)
            }
            Plan::Also(runs, sign) => Op::Also(picture_of(rt, runs), sign),
            Plan::AlsoItself(_, sign) => Op::Also(copy_of(rt, picture), sign),
            Plan::Keeping(low, high, number) => keeping(rt, low, high, number),
            Plan::Dropping(low, high, number) => dropping(rt, low, high, number),
            Plan::Shift(right, up) => Op::Shift(right, up),
            Plan::Scale(x, y) => scale(rt, x, y),
            Plan::Turn(angle) => turn(rt, angle),
            Plan::Clear => Op::Clear,
        }
    }

    /// Asserts that an operation has exactly these parts.
    pub(super) fn assert_is<R: Abort + AllocGlobal>(self, rt: &R, op: &Op) {
        match self {
            Plan::Contour(corners, number, check) => {
                assert_contour(rt, op, corners, number, check);
            }
            Plan::Also(runs, sign) | Plan::AlsoItself(runs, sign) => {
                assert_also(rt, op, runs, sign);
            }
            Plan::Keeping(_, _, _)
            | Plan::Dropping(_, _, _)
            | Plan::Shift(_, _)
            | Plan::Scale(_, _)
            | Plan::Turn(_)
            | Plan::Clear => {
                assert_same_numbers(rt, op, &self.op(rt, &Picture::blank(rt.alloc())));
            }
        }
    }
}

/// Asserts that an operation is the contour through these corners, with this weight and this check.
fn assert_contour<R: Abort + AllocGlobal>(
    rt: &R,
    op: &Op,
    corners: Corners,
    number: i32,
    check: Check,
) {
    let Op::Contour(cycle, weight, own) = op else {
        panic!(rt; "no contour: {op:?}");
    };
    let points = walk(rt, corners, 1);
    assert_same(rt, cycle.points(), points.as_slice(), "the points");
    assert_same(rt, (weight.get(), *own), (number, check), corners);
}

/// Asserts that an operation adds or subtracts the picture with these runs.
fn assert_also(rt: &impl Abort, op: &Op, runs: &[Run], sign: Sign) {
    let Op::Also(picture, own) = op else {
        panic!(rt; "no picture is added: {op:?}");
    };
    assert_runs(rt, picture, runs);
    assert_same(rt, *own, sign, runs);
}

/// Asserts that two operations that hold neither a cycle nor a picture are the same.
fn assert_same_numbers(rt: &impl Abort, op: &Op, expected: &Op) {
    match (op, expected) {
        (Op::Cull(cull), Op::Cull(other)) => assert_same(rt, *cull, *other, "the cull"),
        (Op::Shift(right, up), Op::Shift(more, higher)) => {
            assert_same(rt, (*right, *up), (*more, *higher), "the shift");
        }
        (Op::Scale(scale), Op::Scale(other)) => assert_same(rt, *scale, *other, "the scale"),
        (Op::Quarter(turn), Op::Quarter(other)) => assert_same(rt, *turn, *other, "the turn"),
        (Op::Clear, Op::Clear) => (),
        _ => panic!(rt; "{op:?} in place of {expected:?}"),
    }
}
