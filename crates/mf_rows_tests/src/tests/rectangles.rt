//! Rectangles, and their corners.
ghost use Rattle.std.specs.Prelude.{IfOk, OnOk, ◌≡◌};
ghost use Rattle.mf_geom.specs.Coordinates.{IsCoordinate};
ghost use Rattle.mf_rows.specs.Corners.{AreCorners};

use mf_base::OutOfMemory;
use mf_rows::{Corner, Picture};
use std::alloc::Global;
use std::process::Abort;

/// A rectangle of pixels of one weight: columns `left` up to but not including `right`, rows `bottom` up to but not
/// including `top`.
#[derive(Clone, Copy, Debug)]
pub(crate) struct Rectangle {
    pub(super) left: i32,
    pub(super) bottom: i32,
    pub(super) right: i32,
    pub(super) top: i32,
    pub(super) weight: i32,
}

pub(crate) fn make_rectangle(
    left: i32,
    bottom: i32,
    right: i32,
    top: i32,
    weight: i32,
) -> Rectangle {
    Rectangle {
        left,
        bottom,
        right,
        top,
        weight,
    }
}

/// All pixels of the field.
pub(super) fn field(weight: i32) -> Rectangle {
    make_rectangle(-4095, -4095, 4095, 4095, weight)
}

/// The corners of rectangles.
pub(crate) fn corners_of(
    rt: &impl Abort,
    alloc: Global,
    rectangles: &[Rectangle],
) -> Result<Vec<Corner>, OutOfMemory>
    ensures { IfOk result (λ corners. AreCorners corners.items) }
{
    let mut corners = Vec::new(alloc);
    for rectangle in rectangles {
        push_corners(rt, &mut corners, rectangle)?;
    }
    Ok(corners)
}

/// Adds the corners of a rectangle to a list.
fn push_corners(
    rt: &impl Abort,
    corners: &mut Vec<Corner>,
    rectangle: &Rectangle,
) -> Result<(), OutOfMemory>
    requires { AreCorners corners.old.items }
    ensures { OnOk result (AreCorners corners.new.items) }
{
    let Rectangle {
        left,
        bottom,
        right,
        top,
        weight,
    } = *rectangle;
    assert!(rt; corners.len() <= 8188);
    assert_in_reach(rt, left);
    assert_in_reach(rt, bottom);
    assert_in_reach(rt, right);
    assert_in_reach(rt, top);
    assert!(rt; -3 <= weight);
    assert!(rt; weight <= 3);
    corners.extend_from_slice(&[
        make_corner(left, top, weight),
        make_corner(left, bottom, -weight),
        make_corner(right, top, -weight),
        make_corner(right, bottom, weight),
    ])?;
    Ok(())
}

fn make_corner(x: i32, y: i32, weight: i32) -> Corner
    ensures { result ≡ record { x = x; y = y; weight = weight } }
{
    Corner { x, y, weight }
}

/// Asserts that a corner may have this coordinate.
fn assert_in_reach(rt: &impl Abort, coordinate: i32)
    ensures { IsCoordinate coordinate }
{
    assert!(rt; -4095 <= coordinate);
    assert!(rt; coordinate <= 4095);
}

/// Adds rectangles to a picture, all at once.
pub(super) fn add_all<R: Abort + AllocGlobal>(
    rt: &R,
    picture: &mut Picture,
    rectangles: &[Rectangle],
) {
    let corners = corners_of(rt, rt.alloc(), rectangles).expect(rt, "there is room for corners");
    let added = picture.add_corners(rt.alloc(), corners);
    added.expect(rt, "the rectangles are added")
}

/// The picture of rectangles that are added all at once.
pub(super) fn at_once<R: Abort + AllocGlobal>(rt: &R, rectangles: &[Rectangle]) -> Picture {
    let mut picture = Picture::blank(rt.alloc());
    add_all(rt, &mut picture, rectangles);
    picture
}
