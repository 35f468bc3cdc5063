//! The calls of `mf_ops`.
use super::{cycles, pictures};
use crate::tests::assertions::assert_same;
use mf_geom::CycleFault;
use mf_ops::{
    BadCull, BadScale, BadTurn, BadWeight, Check, Cull, Op, OpFault, OutOfMemory, Quarter, Scale,
    Sign, Weight, after,
};
use mf_rows::Picture;
use std::alloc::Global;
use std::process::Abort;

/// The weight of a contour or a cull.
pub(crate) fn weight(rt: &impl Abort, number: i32) -> Weight {
    let made: Result<Weight, BadWeight> = Weight::new(number);
    let weight = made.expect(rt, "a contour may have this weight");
    let found: i32 = weight.get();
    assert_same(rt, found, number, "the weight");
    weight
}

/// The rectangle as a contour, under this turning check.
pub(crate) fn contour(rt: &impl Abort, alloc: Global, check: Check) -> Op {
    Op::Contour(cycles::rectangle(rt, alloc), weight(rt, 1), check)
}

/// The rectangle as a picture that is added with this sign.
fn also(rt: &impl Abort, alloc: Global, sign: Sign) -> Op {
    let picture: Picture = pictures::rectangle(rt, alloc);
    Op::Also(picture, sign)
}

fn keeping(rt: &impl Abort, low: i32, high: i32, number: i32) -> Op {
    let made: Result<Cull, BadCull> = Cull::keeping(low, high, weight(rt, number));
    Op::Cull(made.expect(rt, "the range may be kept"))
}

fn dropping(rt: &impl Abort, low: i32, high: i32, number: i32) -> Op {
    let made: Result<Cull, BadCull> = Cull::dropping(low, high, weight(rt, number));
    Op::Cull(made.expect(rt, "the range may be dropped"))
}

fn scale(rt: &impl Abort, x: i32, y: i32) -> Op {
    let made: Result<Scale, BadScale> = Scale::new(x, y);
    Op::Scale(made.expect(rt, "the factors are lawful"))
}

fn quarter(rt: &impl Abort, degrees: i32) -> Op {
    let made: Result<Quarter, BadTurn> = Quarter::new(degrees);
    Op::Quarter(made.expect(rt, "the angle is lawful"))
}

fn shift(dx: i32, dy: i32) -> Op {
    Op::Shift(dx, dy)
}

/// The name of an operation.
fn name_of(op: &Op) -> &'static str {
    match op {
        Op::Contour(_, _, Check::Off) => "unchecked contour",
        Op::Contour(_, _, Check::On) => "contour",
        Op::Also(_, Sign::Plus) => "also",
        Op::Also(_, Sign::Minus) => "also -",
        Op::Cull(_) => "cull",
        Op::Shift(_, _) => "shift",
        Op::Scale(_) => "scale",
        Op::Quarter(_) => "quarter",
        Op::Clear => "clear",
    }
}

/// The name of a fault.
fn name_of_fault(fault: OpFault) -> &'static str {
    match fault {
        OpFault::Cycle(cycle) => {
            let _: CycleFault = cycle;
            "Cycle"
        }
        OpFault::OutOfField => "OutOfField",
        OpFault::WeightTooLarge => "WeightTooLarge",
        OpFault::OutOfMemory => "OutOfMemory",
    }
}

/// Asserts that an operation, and a copy of it, make of the rectangle a picture of this total weight.
fn assert_makes(rt: &impl Abort, alloc: Global, op: &Op, total: i64) {
    let copy: Result<Op, OutOfMemory> = op.copy(alloc);
    let copy = copy.expect(rt, "there is room for the copy");
    let picture: Picture = pictures::rectangle(rt, alloc);
    let made: Result<Picture, OpFault> = after(alloc, &picture, op);
    let found = made.map(|made| made.total());
    assert_same(rt, found, Ok(total), name_of(op));
    let made: Result<Picture, OpFault> = after(alloc, &picture, &copy);
    let found = made.map(|made| made.total());
    assert_same(rt, found, Ok(total), name_of(&copy));
}

#[test]
fn performs_each_operation(rt: HostRuntime) {
    let alloc = rt.alloc();
    assert_makes(&rt, alloc, &contour(&rt, alloc, Check::On), 12);
    assert_makes(&rt, alloc, &contour(&rt, alloc, Check::Off), 12);
    assert_makes(&rt, alloc, &also(&rt, alloc, Sign::Plus), 12);
    assert_makes(&rt, alloc, &also(&rt, alloc, Sign::Minus), 0);
    assert_makes(&rt, alloc, &keeping(&rt, 1, 3, 2), 12);
    assert_makes(&rt, alloc, &dropping(&rt, -1, 0, 3), 18);
    assert_makes(&rt, alloc, &shift(2, -1), 6);
    assert_makes(&rt, alloc, &scale(&rt, -2, 3), 36);
    assert_makes(&rt, alloc, &quarter(&rt, 270), 6);
    assert_makes(&rt, alloc, &Op::Clear, 0);
}

#[test]
fn refuses_an_operation(rt: HostRuntime) {
    let picture = pictures::rectangle(&rt, rt.alloc());
    let refused = after(rt.alloc(), &picture, &shift(4095, 0));
    let fault: Option<OpFault> = refused.err();
    assert_same(
        &rt,
        fault.map(name_of_fault),
        Some("OutOfField"),
        "far to the right",
    );
}
