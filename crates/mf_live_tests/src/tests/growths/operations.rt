//! Operations that are applied.

use super::{MOVED, assert_waiting, open_and_move};
use crate::tests::assertions::{assert_holds, assert_same};
use crate::tests::{Pixels, RECT_RUNS, apply, assert_sees, contour, picture, publish};
use mf_live::{Fault, Writer};
use mf_ops::{Cull, Op, OpFault, Quarter, Scale, Sign, Weight};
use mf_testing::{grow_again, refuse_growths};
use std::alloc::Global;
use std::process::Abort;
use std::sync::Wait;

/// Applies an operation while allocations are refused.
pub(super) fn apply_while_refused(
    alloc: Global,
    writer: &mut Writer,
    op: Op,
) -> Result<(), (Op, Fault)> {
    refuse_growths(alloc);
    let applied = writer.apply(alloc, op);
    grow_again(alloc);
    applied
}

/// Whether two operations are the same in each part.
pub(super) fn is_same(one: &Op, other: &Op) -> bool {
    match (one, other) {
        (Op::Contour(one, weight, check), Op::Contour(other, other_weight, other_check)) => {
            one.points() == other.points() && *weight == *other_weight && *check == *other_check
        }
        (Op::Also(one, sign), Op::Also(other, other_sign)) => {
            one.runs().eq(other.runs()) && *sign == *other_sign
        }
        (Op::Cull(one), Op::Cull(other)) => *one == *other,
        (Op::Shift(right, up), Op::Shift(other_right, other_up)) => {
            *right == *other_right && *up == *other_up
        }
        (Op::Scale(one), Op::Scale(other)) => *one == *other,
        (Op::Quarter(one), Op::Quarter(other)) => *one == *other,
        _ => false,
    }
}

/// Asserts that this operation was handed back because an allocation failed, and that the moved rectangle is as it was.
fn assert_handed_back(rt: &impl Abort, writer: &Writer, back: &Op, same: &Op, fault: Fault) {
    let refusal = Fault::Refused(OpFault::OutOfMemory);
    assert_same(rt, fault, refusal, "the operation");
    assert_holds(rt, is_same(back, same), "the operation comes back");
    assert_waiting(rt, writer, (1, 2), MOVED);
}

/// Applies an operation to the moved rectangle while allocations are refused, and applies it again where that failed: it has come
/// back as `same`, and viewers see nothing of it. Finally the picture has exactly these runs, and viewers see them once they are
/// published.
fn assert_accepted<R: Abort + Wait>(rt: &R, alloc: Global, op: Op, same: &Op, runs: &[Pixels]) {
    let (mut writer, viewer) = open_and_move(rt, alloc);
    let applied = apply_while_refused(alloc, &mut writer, op);
    let viewer = assert_sees(rt, viewer, 1, RECT_RUNS);
    if let Err((back, fault)) = applied {
        assert_handed_back(rt, &writer, &back, same, fault);
        apply(rt, alloc, &mut writer, back);
    }
    assert_waiting(rt, &writer, (2, 3), runs);
    let viewer = assert_sees(rt, viewer, 1, RECT_RUNS);
    publish(rt, &mut writer);
    assert_sees(rt, viewer, 3, runs);
    writer.discard(rt);
}

/// A rectangle of two columns and four rows. Its lower two rows are rows of the moved rectangle.
const TALL: &[(i32, i32)] = &[(3, 13), (5, 13), (5, 17), (3, 17)];

const FILLED: &[Pixels] = &[
    (16, 3, 2, 2),
    (15, 3, 2, 2),
    (14, 1, 2, 1),
    (14, 3, 1, 3),
    (14, 4, 1, 2),
    (13, 1, 2, 1),
    (13, 3, 1, 3),
    (13, 4, 1, 2),
];

#[test]
fn a_contour_is_accepted(rt: HostRuntime) {
    let alloc = rt.alloc();
    let same = contour(&rt, alloc, TALL, 2);
    let op = contour(&rt, alloc, TALL, 2);
    assert_accepted(&rt, alloc, op, &same, FILLED);
}

/// A picture whose second row has a pixel of the moved rectangle.
const OTHER: &[Pixels] = &[(20, 0, 2, 5), (13, 2, 1, 1)];

const SUBTRACTED: &[Pixels] = &[(20, 0, 2, -5), (14, 1, 3, 1), (13, 1, 1, 1), (13, 3, 1, 1)];

/// The operation that adds or subtracts a picture.
fn also(rt: &impl Abort, alloc: Global, runs: &[Pixels], sign: Sign) -> Op {
    Op::Also(picture(rt, alloc, runs), sign)
}

#[test]
fn a_picture_is_subtracted(rt: HostRuntime) {
    let alloc = rt.alloc();
    let same = also(&rt, alloc, OTHER, Sign::Minus);
    let op = also(&rt, alloc, OTHER, Sign::Minus);
    assert_accepted(&rt, alloc, op, &same, SUBTRACTED);
}

const ADDED: &[Pixels] = &[
    (20, 0, 2, 5),
    (14, 1, 3, 1),
    (13, 1, 1, 1),
    (13, 2, 1, 2),
    (13, 3, 1, 1),
];

#[test]
fn a_picture_is_added(rt: HostRuntime) {
    let alloc = rt.alloc();
    let same = also(&rt, alloc, OTHER, Sign::Plus);
    let op = also(&rt, alloc, OTHER, Sign::Plus);
    assert_accepted(&rt, alloc, op, &same, ADDED);
}

/// The cull that gives weight 3 to the pixels of weight 1.
fn cull(rt: &impl Abort) -> Op {
    let weight = Weight::new(3).expect(rt, "the weight is lawful");
    Op::Cull(Cull::keeping(1, 1, weight).expect(rt, "the cull is lawful"))
}

const CULLED: &[Pixels] = &[(14, 1, 3, 3), (13, 1, 3, 3)];

#[test]
fn a_cull_is_accepted(rt: HostRuntime) {
    assert_accepted(&rt, rt.alloc(), cull(&rt), &cull(&rt), CULLED);
}

const SHIFTED: &[Pixels] = &[(13, 3, 3, 1), (12, 3, 3, 1)];

#[test]
fn a_shift_is_accepted(rt: HostRuntime) {
    let (op, same) = (Op::Shift(2, -1), Op::Shift(2, -1));
    assert_accepted(&rt, rt.alloc(), op, &same, SHIFTED);
}

/// The scale that doubles the columns and reflects the rows.
fn scale(rt: &impl Abort) -> Op {
    Op::Scale(Scale::new(2, -1).expect(rt, "the factors are lawful"))
}

const SCALED: &[Pixels] = &[(-14, 2, 6, 1), (-15, 2, 6, 1)];

#[test]
fn a_scale_is_accepted(rt: HostRuntime) {
    assert_accepted(&rt, rt.alloc(), scale(&rt), &scale(&rt), SCALED);
}

const TURNED: &[Pixels] = &[(3, -15, 2, 1), (2, -15, 2, 1), (1, -15, 2, 1)];

#[test]
fn a_quarter_turn_is_accepted(rt: HostRuntime) {
    let quarter = Quarter::new(90).expect(&rt, "the angle is lawful");
    let (op, same) = (Op::Quarter(quarter), Op::Quarter(quarter));
    assert_accepted(&rt, rt.alloc(), op, &same, TURNED);
}

/// A picture that is too heavy for a pixel in the last row of the moved rectangle.
const HEAVY: &[Pixels] = &[(20, 0, 2, 5), (14, 1, 1, 1), (13, 2, 1, 32767)];

/// The operation that comes back as `same` when it is refused, and its fault. The moved rectangle is as it was.
fn refused_operation(
    rt: &impl Abort,
    writer: &Writer,
    applied: Result<(), (Op, Fault)>,
    same: &Op,
) -> (Op, Fault) {
    match applied {
        Ok(()) => panic!(rt; "the weight is too large"),
        Err((back, fault)) => {
            assert_holds(rt, is_same(&back, same), "the operation comes back");
            assert_waiting(rt, writer, (1, 2), MOVED);
            (back, fault)
        }
    }
}

/// `OutOfMemory` may come instead of `WeightTooLarge`, and never the other way round.
#[test]
fn a_sum_that_weighs_too_much_is_refused(rt: HostRuntime) {
    let alloc = rt.alloc();
    let too_large = Fault::Refused(OpFault::WeightTooLarge);
    let same = also(&rt, alloc, HEAVY, Sign::Plus);
    let op = also(&rt, alloc, HEAVY, Sign::Plus);
    let (mut writer, viewer) = open_and_move(&rt, alloc);
    let applied = apply_while_refused(alloc, &mut writer, op);
    let (back, fault) = refused_operation(&rt, &writer, applied, &same);
    if fault != Fault::Refused(OpFault::OutOfMemory) {
        assert_same(&rt, fault, too_large, "the sum");
    }
    let applied = writer.apply(alloc, back);
    let (_, fault) = refused_operation(&rt, &writer, applied, &same);
    assert_same(&rt, fault, too_large, "the sum again");
    assert_sees(&rt, viewer, 1, RECT_RUNS);
    writer.discard(&rt);
}
