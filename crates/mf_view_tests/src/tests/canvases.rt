//! Canvases.

use crate::tests::assertions::assert_same;
use mf_view_frame::{Canvas, TooSmall};
use std::process::Abort;

/// Columns and rows, each with the number of lines of a colored frame, or none where they are too few.
const SIZES: &[(u32, u32, Option<u32>)] = &[
    (50, 6, Some(5)),
    (49, 6, None),
    (50, 5, None),
    (0, 0, None),
    (80, 24, Some(23)),
    (4000, 4000, Some(999)),
];

/// Asserts what becomes of each of these sizes.
fn assert_sizes(rt: &impl Abort, sizes: &[(u32, u32, Option<u32>)]) {
    for (columns, rows, lines) in sizes {
        match Canvas::new(*columns, *rows) {
            Ok(canvas) => assert_same(rt, Some(canvas.lines()), *lines, (*columns, *rows)),
            Err(TooSmall) => assert_same(rt, None, *lines, (*columns, *rows)),
        }
    }
}

#[test]
fn canvases_have_room_for_a_frame(rt: HostRuntime) {
    assert_sizes(&rt, SIZES);
}
