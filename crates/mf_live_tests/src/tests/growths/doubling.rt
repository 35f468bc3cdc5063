//! A picture of two operations, of which the second doubles the rectangle. The allocations of each call are refused.

use super::ending::assert_closed;
use super::opening::open_in_want;
use super::operations::{apply_while_refused, is_same};
use super::publishing::assert_all_is_published;
use crate::tests::assertions::{assert_holds, assert_same};
use crate::tests::writing::assert_full;
use crate::tests::{
    Pixels, RECT, RECT_RUNS, apply, assert_no_place, assert_shows_blank, assert_working, contour,
    copy_working, picture, take_viewer,
};
use mf_base::OutOfMemory;
use mf_live::{Fault, Writer};
use mf_ops::{Op, OpFault, Sign};
use mf_rows::Picture;
use mf_testing::{grow_again, refuse_growths};
use std::alloc::Global;
use std::process::Abort;

/// The rectangle, filled with weight 2.
const DOUBLED: &[Pixels] = &[(1, 0, 3, 2), (0, 0, 3, 2)];

/// Applies an operation while allocations are refused, and applies it again where that failed: it has come back as `same`. Until
/// it is accepted this many operations are pending, and the working picture has this total weight.
fn apply_in_want(
    rt: &impl Abort,
    alloc: Global,
    writer: &mut Writer,
    op: Op,
    same: &Op,
    (pending, total): (u32, i64),
) {
    if let Err((back, fault)) = apply_while_refused(alloc, writer, op) {
        let refusal = Fault::Refused(OpFault::OutOfMemory);
        assert_same(rt, fault, refusal, "the operation");
        assert_holds(rt, is_same(&back, same), "the operation comes back");
        assert_working(rt, writer, pending, total);
        apply(rt, alloc, writer, back);
    }
}

/// Copies the working picture while allocations are refused, and copies it again where that failed. Both have these runs.
fn copy_in_want(rt: &impl Abort, alloc: Global, writer: &Writer, runs: &[Pixels]) -> Picture {
    refuse_growths(alloc);
    let found = writer.working().copy(alloc);
    grow_again(alloc);
    let copy = match found {
        Ok(copy) => copy,
        Err(fault) => {
            assert_same(rt, fault, OutOfMemory, "the copy");
            copy_working(rt, alloc, writer)
        }
    };
    let expected = picture(rt, alloc, runs);
    assert_holds(rt, writer.working().equal(&expected), "the working picture");
    assert_holds(rt, copy.equal(&expected), "its copy");
    copy
}

/// Fills the rectangle and doubles it.
fn double_in_want(rt: &impl Abort, alloc: Global, writer: &mut Writer) {
    let same = contour(rt, alloc, RECT, 1);
    let filled = contour(rt, alloc, RECT, 1);
    apply_in_want(rt, alloc, writer, filled, &same, (0, 0));
    assert_working(rt, writer, 1, 6);
    let same = Op::Also(picture(rt, alloc, RECT_RUNS), Sign::Plus);
    let doubled = Op::Also(copy_in_want(rt, alloc, writer, RECT_RUNS), Sign::Plus);
    apply_in_want(rt, alloc, writer, doubled, &same, (1, 6));
    assert_working(rt, writer, 2, 12);
}

/// A viewer is handed out without an allocation, and the limit of operations is checked before anything is allocated.
#[test]
fn a_rectangle_is_doubled(rt: HostRuntime) {
    let alloc = rt.alloc();
    let (mut writer, mut desk) = open_in_want(&rt, alloc, 1, 2);
    refuse_growths(alloc);
    let viewer = take_viewer(&rt, &mut desk);
    assert_no_place(&rt, &mut desk);
    grow_again(alloc);
    double_in_want(&rt, alloc, &mut writer);
    refuse_growths(alloc);
    assert_full(&rt, alloc, &mut writer);
    grow_again(alloc);
    assert_working(&rt, &writer, 2, 12);
    let viewer = assert_shows_blank(&rt, alloc, viewer, 0);
    let viewer = assert_all_is_published(&rt, alloc, &mut writer, viewer, (0, &[]), (2, DOUBLED));
    assert_closed(&rt, alloc, writer, viewer, (0, 2), (2, DOUBLED), DOUBLED);
}
