//! A picture of 32 parts, the most that there may be. The parts are equally large, so they stay apart only because each one is added with
//! no memory to join it with the one before. A test that runs by itself has ample memory, and its picture one part.

use crate::tests::assertions::assert_same;
use crate::tests::rectangles::{Rectangle, add_all, corners_of, make_rectangle};
use crate::tests::{assert_total, assert_weights};
use mf_rows::{AddFault, Picture};
use mf_testing::{allow_growths, grow_again, refuse_growths};
use std::process::Abort;

/// The most parts that a picture has.
const PARTS: i32 = 32;

/// No pixel is added with more allocations.
const GROWTHS: usize = 60;

/// The pixel with this number, which is two columns to the right of the one before.
fn pixel(number: i32) -> Rectangle {
    let left = number.wrapping_mul(2);
    make_rectangle(left, 0, left.wrapping_add(1), 1, 1)
}

/// Adds a pixel as a part of its own: so many allocations are allowed that it is just added, and none for joining it.
fn add_apart<R: Abort + AllocGlobal>(rt: &R, picture: &mut Picture, number: i32) {
    for allowed in 0..GROWTHS {
        let corners = corners_of(rt, rt.alloc(), &[pixel(number)]).expect(rt, "there is room");
        allow_growths(rt.alloc(), allowed);
        let added = picture.add_corners(rt.alloc(), corners);
        grow_again(rt.alloc());
        if added.is_ok() {
            return;
        }
    }
    panic!(rt; "the pixel {number} is not added")
}

/// With ample memory, the last two of 32 parts are joined to make room for one more.
#[test]
fn a_part_is_added_to_32(rt: HostRuntime) {
    let mut picture = Picture::blank(rt.alloc());
    for number in 0..PARTS {
        add_apart(&rt, &mut picture, number);
    }
    let corners = corners_of(&rt, rt.alloc(), &[pixel(PARTS)]).expect(&rt, "there is room");
    refuse_growths(rt.alloc());
    let added = picture.add_corners(rt.alloc(), corners);
    grow_again(rt.alloc());
    if let Err(fault) = added {
        assert_same(&rt, fault, AddFault::OutOfMemory, "the refusal");
        assert_total(&rt, &picture, 32);
        add_all(&rt, &mut picture, &[pixel(PARTS)]);
    }
    assert_total(&rt, &picture, 33);
    assert_weights(
        &rt,
        &picture,
        &[(0, 0, 1), (1, 0, 0), (62, 0, 1), (64, 0, 1)],
    );
}
