//! Tests of images, frames and words, and of scripts that are performed while their picture is drawn.

mod assertions;
mod canvases;
mod fonts;
mod frames;
mod growths;
mod images;
mod messages;
mod paces;
mod single_frames;
mod streams;
mod words;

use mf_rows::{Picture, RowBuilder, Run};
use std::alloc::Global;
use std::process::Abort;

/// Runs of a picture: row, first column, length and weight.
pub(crate) type Runs = &'static [(i32, i32, u32, i32)];

/// A letter T of two strokes: a bar of columns 0..=7 and rows 4..=5, and a stem of columns 3..=4 and rows 0..=5. Where they cross the
/// weight is 2.
pub(crate) const LETTER: Runs = &[
    (5, 0, 3, 1),
    (5, 3, 2, 2),
    (5, 5, 3, 1),
    (4, 0, 3, 1),
    (4, 3, 2, 2),
    (4, 5, 3, 1),
    (3, 3, 2, 1),
    (2, 3, 2, 1),
    (1, 3, 2, 1),
    (0, 3, 2, 1),
];

/// The picture of these runs.
pub(crate) fn picture_of(rt: &impl Abort, alloc: Global, runs: &[(i32, i32, u32, i32)]) -> Picture {
    let mut builder = RowBuilder::new(alloc);
    for (y, x, len, weight) in runs {
        let run = Run {
            y: *y,
            x: *x,
            len: *len,
            weight: *weight,
        };
        assert!(rt; builder.fits(&run), "{run:?}");
        builder
            .push_run(run)
            .expect(rt, "there is room for the run");
    }
    builder.finish().expect(rt, "there is room for the picture")
}
