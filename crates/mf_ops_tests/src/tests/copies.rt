//! Copies of operations, and operations performed on a picture in place.

use super::contours::picture_of;
use super::{
    CLOCKWISE, RECTANGLE, assert_equal, assert_total, contour, copy_of, dropping, fill, keeping,
    picture_after, run, scale, turn, unchecked_contour,
};
use mf_ops::{Op, Sign, apply};
use mf_rows::{Picture, Run};
use std::process::Abort;

/// The rectangle, with weight 2.
fn rectangle<R: Abort + AllocGlobal>(rt: &R) -> Picture {
    fill(rt, &[(RECTANGLE, 2)])
}

/// A copy of the picture, after an operation is performed on it in place.
fn after_in_place<R: Abort + AllocGlobal>(rt: &R, picture: &Picture, op: &Op) -> Picture {
    let mut changed = copy_of(rt, picture);
    apply(rt.alloc(), &mut changed, op).expect(rt, "the operation is performed");
    changed
}

/// Asserts that the copy of an operation makes the same picture as the operation, and so does performing it in place.
fn assert_again<R: Abort + AllocGlobal>(rt: &R, picture: &Picture, op: &Op, new: &Picture) {
    let copy = op.copy(rt.alloc()).expect(rt, "there is room for the copy");
    assert_equal(rt, &picture_after(rt, picture, &copy), new, "the copy");
    assert_equal(
        rt,
        &after_in_place(rt, picture, op),
        new,
        "the picture itself",
    );
}

/// Asserts that an operation on the rectangle makes a picture with this total, that its copy makes the same picture, and so does
/// performing it in place.
fn assert_effect<R: Abort + AllocGlobal>(rt: &R, op: Op, total: i64) {
    let rectangle = rectangle(rt);
    let new = picture_after(rt, &rectangle, &op);
    assert_total(rt, &new, total);
    assert_again(rt, &rectangle, &op, &new);
}

#[test]
fn additions_have_their_effect(rt: HostRuntime) {
    assert_effect(&rt, contour(&rt, RECTANGLE, 1, -1), 6);
    // Clockwise: negated where it is checked, and not negated where it is not.
    assert_effect(&rt, contour(&rt, CLOCKWISE, 1, 1), 18);
    assert_effect(&rt, unchecked_contour(&rt, CLOCKWISE, 1, 1), 6);
    assert_effect(&rt, Op::Also(rectangle(&rt), Sign::Plus), 24);
    assert_effect(&rt, Op::Also(rectangle(&rt), Sign::Minus), 0);
}

#[test]
fn culls_have_their_effect(rt: HostRuntime) {
    assert_effect(&rt, keeping(&rt, 2, 2, 3), 18);
    assert_effect(&rt, dropping(&rt, 0, 2, 3), 0);
    assert_effect(&rt, Op::Clear, 0);
}

#[test]
fn moves_have_their_effect(rt: HostRuntime) {
    assert_effect(&rt, Op::Shift(1, -2), 12);
    assert_effect(&rt, scale(&rt, -2, 3), 72);
    assert_effect(&rt, turn(&rt, 90), 12);
}

/// How many pixels rows have that are added to a picture. Each has fewer than half as many strips and edges as the one before, so each is
/// a part.
const ROWS: [u32; 7] = [190, 94, 46, 22, 10, 4, 1];

/// A row of pixels, in every second column.
fn row<R: Abort + AllocGlobal>(rt: &R, pixels: u32) -> Picture {
    let mut runs = Vec::new(rt.alloc());
    let mut x = 0i32;
    for _ in 0..pixels {
        runs.push(run(0, x, 1, 1))
            .expect(rt, "there is room for the run");
        x = x.wrapping_add(2);
    }
    picture_of(rt, &runs)
}

/// A picture of so many parts.
fn parts<R: Abort + AllocGlobal>(rt: &R, count: usize) -> Picture {
    let mut picture = Picture::blank(rt.alloc());
    for pixels in ROWS.iter().take(count) {
        let added = picture.add(rt.alloc(), &row(rt, *pixels));
        added.expect(rt, "no weight is too large");
    }
    picture
}

/// The same picture as one part.
fn one_part<R: Abort + AllocGlobal>(rt: &R, picture: &Picture) -> Picture {
    let runs: Vec<Run> = picture
        .runs()
        .collect(rt.alloc())
        .expect(rt, "there is room for the runs");
    picture_of(rt, &runs)
}

/// Asserts that an operation makes of one part, of two and of seven what it makes of the same picture as one part.
fn assert_on_parts<R: Abort + AllocGlobal>(rt: &R, op: Op) {
    for count in [1, 2, 7] {
        let picture = parts(rt, count);
        let same = one_part(rt, &picture);
        assert_equal(rt, &picture, &same, "the parts");
        assert_again(rt, &picture, &op, &picture_after(rt, &same, &op));
        assert_equal(rt, &picture, &same, "the parts after that");
    }
}

#[test]
fn additions_to_parts_have_their_effect(rt: HostRuntime) {
    assert_on_parts(&rt, contour(&rt, RECTANGLE, 1, -1));
    for sign in [Sign::Plus, Sign::Minus] {
        assert_on_parts(&rt, Op::Also(rectangle(&rt), sign));
        assert_on_parts(&rt, Op::Also(parts(&rt, 7), sign));
    }
}

#[test]
fn culls_of_parts_have_their_effect(rt: HostRuntime) {
    assert_on_parts(&rt, keeping(&rt, 2, 6, 3));
    assert_on_parts(&rt, dropping(&rt, -1, 1, 2));
    assert_on_parts(&rt, Op::Clear);
}

#[test]
fn moves_of_parts_have_their_effect(rt: HostRuntime) {
    assert_on_parts(&rt, Op::Shift(5, -7));
    assert_on_parts(&rt, scale(&rt, -2, 3));
    for angle in [90, 180, 270] {
        assert_on_parts(&rt, turn(&rt, angle));
    }
}
