//! A picture of several parts, which are not joined, since each is less than half as large as the one before.

use super::rectangles::{Rectangle, add_all, make_rectangle};
use super::{
    assert_bounds, assert_equality, assert_some_runs, assert_total, assert_weights, copy_of,
    make_run,
};
use mf_base::OutOfMemory;
use mf_rows::{Box4, Picture};
use std::alloc::Global;
use std::process::Abort;

/// Teeth that are a pixel wide, in every second column from column 0 on, and two rows high, from row `bottom` on.
fn comb(
    alloc: Global,
    teeth: i32,
    bottom: i32,
    weight: i32,
) -> Result<Vec<Rectangle>, OutOfMemory> {
    let mut rectangles = Vec::new(alloc);
    for tooth in 0..teeth {
        let left = tooth.wrapping_mul(2);
        rectangles.push(make_rectangle(
            left,
            bottom,
            left.wrapping_add(1),
            bottom.wrapping_add(2),
            weight,
        ))?;
    }
    Ok(rectangles)
}

/// Adds a comb to a picture, at once.
fn add_comb<R: Abort + AllocGlobal>(
    rt: &R,
    picture: &mut Picture,
    teeth: i32,
    bottom: i32,
    weight: i32,
) {
    let rectangles = comb(rt.alloc(), teeth, bottom, weight).expect(rt, "there is room");
    add_all(rt, picture, &rectangles);
}

/// Two combs, the second of which begins a row higher, and a square above them.
fn draw<R: Abort + AllocGlobal>(rt: &R) -> Picture {
    let mut picture = Picture::blank(rt.alloc());
    add_comb(rt, &mut picture, 40, 0, 1);
    add_comb(rt, &mut picture, 10, 1, 2);
    add_all(rt, &mut picture, &[make_rectangle(0, 2, 2, 4, -3)]);
    picture
}

/// Asserts that a picture is that one.
fn assert_drawn(rt: &impl Abort, picture: &Picture) {
    let pixels = [
        (0, 3, -3),
        (1, 3, -3),
        (0, 2, -1),
        (1, 2, -3),
        (2, 2, 2),
        (0, 1, 3),
        (1, 1, 0),
        (18, 1, 3),
        (20, 1, 1),
        (78, 0, 1),
        (79, 0, 0),
    ];
    assert_weights(rt, picture, &pixels);
    assert_total(rt, picture, 40 * 2 + 10 * 2 * 2 - 3 * 4);
    let bounds = Box4 {
        min_x: 0,
        max_x: 78,
        min_y: 0,
        max_y: 3,
    };
    assert_bounds(rt, picture, Some(bounds));
    let runs = [
        (0, Some(make_run(3, 0, 2, -3))),
        (11, Some(make_run(2, 18, 1, 2))),
        (91, Some(make_run(0, 78, 1, 1))),
        (92, None),
    ];
    assert_some_runs(rt, picture, &runs);
}

#[test]
fn parts_are_added_up(rt: HostRuntime) {
    let picture = draw(&rt);
    assert_drawn(&rt, &picture);
    let mut settled = copy_of(&rt, &picture);
    settled.settle(rt.alloc());
    assert_drawn(&rt, &settled);
    assert_equality(&rt, &picture, &settled, true, "settled");
}
