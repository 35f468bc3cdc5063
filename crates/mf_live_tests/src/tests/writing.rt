//! What a writer does, and what is refused.

use super::{
    UNIT, apply, assert_blank, assert_no_place, assert_tells, assert_working, close, contour,
    copy_working, fill, open, publish, take_viewer, unchecked_contour,
};
use crate::tests::assertions::{assert_holds, assert_same};
use mf_geom::CycleFault;
use mf_live::{Fault, Writer};
use mf_ops::{Op, OpFault, Sign};
use std::alloc::Global;
use std::process::Abort;

/// Adds the working picture to itself, which is accepted.
fn double(rt: &impl Abort, alloc: Global, writer: &mut Writer) {
    let copy = copy_working(rt, alloc, writer);
    apply(rt, alloc, writer, Op::Also(copy, Sign::Plus));
}

/// Asserts that no more operations are accepted: a clear is handed back.
pub(crate) fn assert_full(rt: &impl Abort, alloc: Global, writer: &mut Writer) {
    let refused = writer.apply(alloc, Op::Clear);
    let too_many = matches!(&refused, Err((Op::Clear, Fault::TooManyOperations)));
    assert_holds(rt, too_many, "no more operations are accepted");
}

#[test]
fn accepts_operations_up_to_the_limit(rt: HostRuntime) {
    let alloc = rt.alloc();
    let (mut writer, mut desk) = open(&rt, alloc, 1, 2);
    fill(&rt, alloc, &mut writer);
    double(&rt, alloc, &mut writer);
    assert_working(&rt, &writer, 2, 12);

    assert_full(&rt, alloc, &mut writer);
    assert_working(&rt, &writer, 2, 12);

    publish(&rt, &mut writer);
    assert_working(&rt, &writer, 0, 12);
    assert_tells(&rt, &writer.tell(), 2);
    publish(&rt, &mut writer);
    assert_working(&rt, &writer, 0, 12);
    assert_tells(&rt, &writer.tell(), 2);

    let _viewer = take_viewer(&rt, &mut desk);
    assert_no_place(&rt, &mut desk);

    let mut ended = close(&rt, writer);
    assert_tells(&rt, &ended.notice(), 2);
    ended.discard(&rt);
}

#[test]
fn accepts_no_operation(rt: HostRuntime) {
    let alloc = rt.alloc();
    let (mut writer, _desk) = open(&rt, alloc, 1, 0);
    assert_full(&rt, alloc, &mut writer);
    assert_working(&rt, &writer, 0, 0);
    assert_blank(&rt, alloc, writer.working(), "nothing is accepted");
    let mut ended = close(&rt, writer);
    assert_tells(&rt, &ended.notice(), 0);
    ended.discard(&rt);
}

#[test]
fn publishes_nothing_three_times(rt: HostRuntime) {
    let (mut writer, _desk) = open(&rt, rt.alloc(), 1, 10);
    for _ in 0..3 {
        publish(&rt, &mut writer);
        assert_tells(&rt, &writer.tell(), 0);
    }
    writer.discard(&rt);
}

/// Asserts that a shift to the right by this many pixels would leave the field, and is handed back.
fn assert_leaves_the_field(rt: &impl Abort, alloc: Global, writer: &mut Writer, dx: i32) {
    match writer.apply(alloc, Op::Shift(dx, 0)) {
        Err((Op::Shift(back_dx, back_dy), Fault::Refused(OpFault::OutOfField))) => {
            assert_same(rt, (back_dx, back_dy), (dx, 0), "what is handed back");
        }
        _ => panic!(rt; "the shift leaves the field"),
    }
}

#[test]
fn hands_back_what_leaves_the_field(rt: HostRuntime) {
    let alloc = rt.alloc();
    let (mut writer, _desk) = open(&rt, alloc, 1, 10);
    fill(&rt, alloc, &mut writer);
    assert_leaves_the_field(&rt, alloc, &mut writer, 4093);
    assert_working(&rt, &writer, 1, 6);
    apply(&rt, alloc, &mut writer, Op::Shift(4092, 0));
    assert_working(&rt, &writer, 2, 6);
    writer.discard(&rt);
}

/// Asserts that the working picture, of this total weight, is too heavy to be added to itself: the copy is handed back.
fn assert_weighs_too_much(rt: &impl Abort, alloc: Global, writer: &mut Writer, total: i64) {
    let copy = copy_working(rt, alloc, writer);
    match writer.apply(alloc, Op::Also(copy, Sign::Plus)) {
        Err((Op::Also(copy, Sign::Plus), Fault::Refused(OpFault::WeightTooLarge))) => {
            assert_same(rt, copy.total(), total, "what is handed back");
        }
        _ => panic!(rt; "the weight is too large"),
    }
}

#[test]
fn hands_back_what_weighs_too_much(rt: HostRuntime) {
    let alloc = rt.alloc();
    let (mut writer, _desk) = open(&rt, alloc, 1, 100);
    apply(&rt, alloc, &mut writer, contour(&rt, alloc, UNIT, 1));
    for _ in 0..14 {
        double(&rt, alloc, &mut writer);
    }
    assert_working(&rt, &writer, 15, 16384);
    assert_weighs_too_much(&rt, alloc, &mut writer, 16384);
    assert_working(&rt, &writer, 15, 16384);
    writer.discard(&rt);
}

/// An edge there and back, which winds around nothing.
const THERE_AND_BACK: &[(i32, i32)] = &[(0, 0), (1, 0)];

/// Asserts that a contour of two points is refused with this fault, and handed back.
fn assert_refuses_a_contour(rt: &impl Abort, alloc: Global, writer: &mut Writer, fault: Fault) {
    let refused = writer.apply(alloc, contour(rt, alloc, THERE_AND_BACK, 1));
    let found = match &refused {
        Err((Op::Contour(cycle, _, _), found)) if cycle.points().len() == 2 => Some(*found),
        _ => None,
    };
    assert_same(rt, found, Some(fault), "why the contour is handed back");
}

#[test]
fn counts_contours_that_change_no_pixel(rt: HostRuntime) {
    let alloc = rt.alloc();
    let (mut writer, _desk) = open(&rt, alloc, 1, 2);
    let turns_back = Fault::Refused(OpFault::Cycle(CycleFault::Backtracks(0)));
    assert_refuses_a_contour(&rt, alloc, &mut writer, turns_back);
    assert_working(&rt, &writer, 0, 0);
    for pending in 1..3 {
        apply(
            &rt,
            alloc,
            &mut writer,
            unchecked_contour(&rt, alloc, THERE_AND_BACK, 1),
        );
        assert_working(&rt, &writer, pending, 0);
        assert_blank(&rt, alloc, writer.working(), "no pixel is changed");
    }
    // The limit of operations comes before the turning check.
    assert_refuses_a_contour(&rt, alloc, &mut writer, Fault::TooManyOperations);
    publish(&rt, &mut writer);
    assert_tells(&rt, &writer.tell(), 2);
    writer.discard(&rt);
}
