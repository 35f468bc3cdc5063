//! Frames, worked out by hand from the definition: a line of text shows rows 2k + 1 and 2k, and the axes are the left border of
//! column 0 and the lower border of line 0.

mod growths;

use super::{LETTER, Runs, picture_of};
use crate::tests::assertions::assert_same;
use mf_view_frame::{Canvas, Style, draw};
use std::alloc::Global;
use std::process::Abort;

/// The letter: its bar, and two lines with the stem. Column 0 has the axis of y, and line 0 that of x.
pub(super) const PLAIN_LETTER: &str =
    "████████\n▏  ██   \n▏▁▁██▁▁▁\nrevision 7  totalweight 28\ncolumns 0..7  rows 0..5  scale 1\n";

/// The least canvas: 50 columns, and three lines of a picture.
pub(super) fn least_canvas(rt: &impl Abort) -> Canvas {
    Canvas::new(50, 6).expect(rt, "the canvas is large enough")
}

/// Asserts that the picture of these runs has this frame on the least canvas.
fn assert_frame(
    rt: &impl Abort,
    alloc: Global,
    runs: &[(i32, i32, u32, i32)],
    style: Style,
    want: &str,
) {
    let picture = picture_of(rt, alloc, runs);
    let text = draw(alloc, &picture, 7, least_canvas(rt), style).expect(
        rt,
        "there is room for the frame",
    );
    assert_same(rt, text.as_slice(), want.as_bytes(), ("the frame", want));
}

#[test]
fn a_letter_is_drawn_without_colors(rt: HostRuntime) {
    assert_frame(&rt, rt.alloc(), LETTER, Style::Plain, PLAIN_LETTER);
}

/// The blank picture has no lines of tiles, and in colors three empty ones.
#[test]
fn the_blank_picture_is_drawn(rt: HostRuntime) {
    let alloc = rt.alloc();
    let plain = "revision 7  totalweight 0\nblank  scale 1\n";
    assert_frame(&rt, alloc, &[], Style::Plain, plain);
    let colored = "\x1B[K\n\x1B[K\n\x1B[K\n\x1B[Krevision 7  totalweight 0\n\x1B[Kblank  scale 1\n";
    assert_frame(&rt, alloc, &[], Style::Colored, colored);
}

/// Weights left of the axis of y and below that of x. Line 0 shows row 0 alone: columns -2 to 1 have weights 1, 0, 3, 0, so only
/// its lower halves are dark. Line -1 shows rows -1 and -2: row -1 has -2 in column -1, and row -2 has 2 in column 1.
const SIGNS: Runs = &[(0, -2, 1, 1), (0, 0, 1, 3), (-1, -1, 1, -2), (-2, 1, 1, 2)];

const PLAIN_SIGNS: &str =
    "▄▁▄▁\n ░▏▄\nrevision 7  totalweight 4\ncolumns -2..1  rows -2..0  scale 1\n";

/// The colors of a tile are those of its upper and its lower half: 255 blank, 208 negative, 238, 25 and 16 for 1, 2 and more.
const COLORED_SIGNS: &str = "\x1B[K\n\
    \x1B[K\x1B[38;5;255;48;5;238m▀\x1B[38;5;250;48;5;255m▁\x1B[38;5;255;48;5;16m▀\x1B[38;5;250;48;5;255m▁\x1B[0m\n\
    \x1B[K\x1B[38;5;255;48;5;255m▀\x1B[38;5;208;48;5;255m▀\x1B[38;5;250;48;5;255m▏\x1B[38;5;255;48;5;25m▀\x1B[0m\n\
    \x1B[Krevision 7  totalweight 4\n\
    \x1B[Kcolumns -2..1  rows -2..0  scale 1\n";

#[test]
fn signs_and_axes_are_drawn(rt: HostRuntime) {
    let alloc = rt.alloc();
    assert_frame(&rt, alloc, SIGNS, Style::Plain, PLAIN_SIGNS);
    assert_frame(&rt, alloc, SIGNS, Style::Colored, COLORED_SIGNS);
}

/// A hundred and one columns fit on 50 at scale 3: columns 0 to 100 are cells 0 to 33. Row 0 is in the row 0 of cells, the lower
/// half.
const LONG: Runs = &[(0, 0, 101, 1)];

const PLAIN_LONG: &str =
    "▄▄▄▄▄▄▄▄▄▄▄▄▄▄▄▄▄▄▄▄▄▄▄▄▄▄▄▄▄▄▄▄▄▄\nrevision 7  totalweight 101\ncolumns 0..100  rows 0..0  scale 3\n";

#[test]
fn a_wide_picture_is_scaled_down(rt: HostRuntime) {
    assert_frame(&rt, rt.alloc(), LONG, Style::Plain, PLAIN_LONG);
}
