//! Reflected and turned pictures, with values worked out by hand.

use super::derived::Derived;
use super::{assert_equality, assert_runs, expect_picture, make_run, picture_of};
use mf_base::OutOfMemory;
use mf_rows::Run;
use std::alloc::Global;
use std::process::Abort;

/// Weights of the four corners of the field: at the top on the left, at the top on the right, at the bottom on the left, and at the bottom
/// on the right.
#[derive(Clone, Copy)]
struct AtCorners(i32, i32, i32, i32);

impl AtCorners {
    /// The runs of the picture with these weights.
    fn runs(self, alloc: Global) -> Result<Vec<Run>, OutOfMemory> {
        let mut runs = Vec::new(alloc);
        for (y, x, weight) in [
            (4094, -4095, self.0),
            (4094, 4094, self.1),
            (-4095, -4095, self.2),
            (-4095, 4094, self.3),
        ] {
            if weight != 0 {
                runs.push(make_run(y, x, 1, weight))?;
            }
        }
        Ok(runs)
    }
}

/// Asserts what this makes of a picture with weights at the corners.
fn assert_corners_moved<R: Abort + AllocGlobal>(
    rt: &R,
    how: Derived,
    corners: AtCorners,
    moved: AtCorners,
) {
    let runs = corners.runs(rt.alloc()).expect(rt, "there is room");
    let new = how.of(rt.alloc(), &picture_of(rt, &runs));
    let runs = moved.runs(rt.alloc()).expect(rt, "there is room");
    assert_runs(rt, &expect_picture(rt, new), &runs);
}

#[test]
fn pixels_at_the_corners_are_moved(rt: HostRuntime) {
    for corners in [AtCorners(1, 2, 3, 5), AtCorners(0, 2, 3, 0)] {
        let AtCorners(one, two, three, five) = corners;
        let mirrored = AtCorners(two, one, five, three);
        assert_corners_moved(&rt, Derived::ColumnsMirrored, corners, mirrored);
        let mirrored = AtCorners(three, five, one, two);
        assert_corners_moved(&rt, Derived::RowsMirrored, corners, mirrored);
        let turned = AtCorners(two, five, one, three);
        assert_corners_moved(&rt, Derived::Turned, corners, turned);
    }
}

#[test]
fn an_l_is_turned(rt: HostRuntime) {
    // An L: a column of three pixels, and one more pixel to the right of its foot.
    let standing = [
        make_run(2, 0, 1, 1),
        make_run(1, 0, 1, 1),
        make_run(0, 0, 2, 1),
    ];
    let lying = [make_run(1, -1, 1, 1), make_run(0, -3, 3, 1)];
    let turned = picture_of(&rt, &standing).turn(rt.alloc());
    assert_equality(
        &rt,
        &expect_picture(&rt, turned),
        &picture_of(&rt, &lying),
        true,
        "the L lies on its back",
    );
}
