//! Culls.

use super::{
    CLOCKWISE, Corners, PIXEL, assert_blank, assert_runs, dropping, fill, keeping, picture_after,
    run, weight,
};
use crate::tests::assertions::assert_same;
use mf_ops::{BadCull, Cull, Op};
use mf_rows::{Picture, Run};
use std::process::Abort;

/// Asserts that the cull that keeps the weights `low..=high`, with the weight `number`, makes a picture with these runs.
fn assert_kept<R: Abort + AllocGlobal>(
    rt: &R,
    picture: &Picture,
    (low, high): (i32, i32),
    number: i32,
    runs: &[Run],
) {
    let culled = picture_after(rt, picture, &keeping(rt, low, high, number));
    assert_runs(rt, &culled, runs);
}

/// Asserts that the cull that drops the weights `low..=high`, with the weight `number`, makes a picture with these runs.
fn assert_dropped<R: Abort + AllocGlobal>(
    rt: &R,
    picture: &Picture,
    (low, high): (i32, i32),
    number: i32,
    runs: &[Run],
) {
    let culled = picture_after(rt, picture, &dropping(rt, low, high, number));
    assert_runs(rt, &culled, runs);
}

/// Three bars that overlap, so that weights 1, 2 and 3 are side by side.
fn bars<R: Abort + AllocGlobal>(rt: &R) -> Picture {
    let long: Corners = &[(0, 0), (3, 0), (3, 1), (0, 1)];
    let middle: Corners = &[(1, 0), (3, 0), (3, 1), (1, 1)];
    let short: Corners = &[(2, 0), (3, 0), (3, 1), (2, 1)];
    fill(rt, &[(long, 1), (middle, 1), (short, 1)])
}

#[test]
fn keeps_some_of_three_bars(rt: HostRuntime) {
    let bars = bars(&rt);
    let runs = [run(0, 0, 1, 1), run(0, 1, 1, 2), run(0, 2, 1, 3)];
    assert_runs(&rt, &bars, &runs);
    assert_kept(&rt, &bars, (2, 3), 2, &[run(0, 1, 2, 2)]);
    assert_kept(&rt, &bars, (1, 1), 1, &[run(0, 0, 1, 1)]);
    assert_kept(&rt, &bars, (4, 32767), 1, &[]);
    assert_kept(&rt, &bars, (-3, -1), 1, &[]);
}

#[test]
fn drops_some_of_three_bars(rt: HostRuntime) {
    let bars = bars(&rt);
    assert_dropped(&rt, &bars, (0, 1), -3, &[run(0, 1, 2, -3)]);
    assert_dropped(&rt, &bars, (-2, 2), 1, &[run(0, 2, 1, 1)]);
    assert_dropped(&rt, &bars, (0, 0), 1, &[run(0, 0, 3, 1)]);
    assert_dropped(&rt, &bars, (0, 3), 1, &[]);
}

#[test]
fn drops_weights_down_to_minus_one(rt: HostRuntime) {
    let pixel = fill(&rt, &[(PIXEL, -2)]);
    assert_dropped(&rt, &pixel, (-1, 1), 1, &[run(0, 0, 1, 1)]);
    assert_kept(&rt, &pixel, (-2, -2), -1, &[run(0, 0, 1, -1)]);
    assert_kept(&rt, &pixel, (i32::MIN, -1), 3, &[run(0, 0, 1, 3)]);
    assert_dropped(&rt, &pixel, (i32::MIN, i32::MAX), 3, &[]);
}

#[test]
fn rows_of_one_contour_are_culled_alike(rt: HostRuntime) {
    let across: Corners = &[(-2, 4029), (2, 4029), (2, 4032), (-2, 4032)];
    let low: Corners = &[(0, 4030), (2, 4030), (2, 4031), (0, 4031)];
    let picture = fill(&rt, &[(across, 2), (low, 1), (CLOCKWISE, -1)]);
    let twos = [
        run(4031, -2, 4, 1),
        run(4030, -2, 2, 1),
        run(4029, -2, 4, 1),
    ];
    assert_kept(&rt, &picture, (2, 2), 1, &twos);
    let others = [run(4030, 0, 2, 3), run(1, 0, 3, 3), run(0, 0, 3, 3)];
    assert_dropped(&rt, &picture, (0, 2), 3, &others);
    let negative = [run(1, 0, 3, -2), run(0, 0, 3, -2)];
    assert_kept(&rt, &picture, (-32767, -1), -2, &negative);
}

/// Asserts that the range `low..=high` may be kept where it is not empty and does not contain 0, and dropped where it contains 0.
fn assert_lawful(rt: &impl Abort, low: i32, high: i32) {
    let has_zero = (low..=high).contains(&0);
    let kept = Cull::keeping(low, high, weight(rt, 1));
    let lawful = low <= high && !has_zero;
    assert_same(rt, kept.is_ok(), lawful, ("keeping", low, high));
    let dropped = Cull::dropping(low, high, weight(rt, 1));
    assert_same(rt, dropped.is_ok(), has_zero, ("dropping", low, high));
}

/// Asserts that none of these ranges may be kept.
fn assert_not_kept(rt: &impl Abort, ranges: &[(i32, i32)]) {
    for (low, high) in ranges {
        let cull = Cull::keeping(*low, *high, weight(rt, 1));
        assert_same(rt, cull, Err(BadCull), ("keeping", *low, *high));
    }
}

/// Asserts that none of these ranges may be dropped.
fn assert_not_dropped(rt: &impl Abort, ranges: &[(i32, i32)]) {
    for (low, high) in ranges {
        let cull = Cull::dropping(*low, *high, weight(rt, 1));
        assert_same(rt, cull, Err(BadCull), ("dropping", *low, *high));
    }
}

#[test]
fn refuses_the_other_ranges(rt: HostRuntime) {
    for low in -3..=3 {
        for high in -3..=3 {
            assert_lawful(&rt, low, high);
        }
    }
    let kept = [(0, 3), (3, 2), (i32::MIN, i32::MAX), (i32::MAX, i32::MIN)];
    assert_not_kept(&rt, &kept);
    let dropped = [(1, 3), (-3, -1), (i32::MAX, i32::MIN)];
    assert_not_dropped(&rt, &dropped);
}

#[test]
fn clears_a_picture(rt: HostRuntime) {
    assert_blank(&rt, &picture_after(&rt, &bars(&rt), &Op::Clear));
}
