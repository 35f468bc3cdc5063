//! Run texts and grid texts.

mod growths;

use crate::tests::assertions::assert_same;
use mf_geom::{Check, Cycle, Point};
use mf_ops::{Op, Scale, Weight, after};
use mf_rows::{Picture, RowBuilder, Run};
use mf_text_show::{GridFault, proof_grid, show_runs};
use std::alloc::{AllocError, Global};
use std::process::Abort;

const RECTANGLE: &[Point] = &[
    Point { x: 0, y: 0 },
    Point { x: 3, y: 0 },
    Point { x: 3, y: 2 },
    Point { x: 0, y: 2 },
];

/// The pixel (0, 0).
const UNIT: &[Point] = &[
    Point { x: 0, y: 0 },
    Point { x: 1, y: 0 },
    Point { x: 1, y: 1 },
    Point { x: 0, y: 1 },
];

/// The contour through these corners, with weight 1.
fn contour(rt: &impl Abort, alloc: Global, corners: &[Point]) -> Op {
    let points = Vec::from_slice(alloc, corners).expect(rt, "there is room for the path");
    match (Cycle::new(points), Weight::new(1)) {
        (Ok(cycle), Ok(weight)) => Op::Contour(cycle, weight, Check::On),
        _ => panic!(rt; "no contour of weight 1"),
    }
}

/// The picture after the contour through these corners is filled with weight 1.
fn fill(rt: &impl Abort, alloc: Global, corners: &[Point]) -> Picture {
    let contour = contour(rt, alloc, corners);
    after(alloc, &Picture::blank(alloc), &contour).expect(rt, "the contour is filled")
}

/// The pixel (0, 0) stretched to this number of columns and rows.
fn rectangle_of(rt: &impl Abort, alloc: Global, columns: i32, rows: i32) -> Picture {
    let unit = fill(rt, alloc, UNIT);
    let scale = Scale::new(columns, rows).expect(rt, "the factors are lawful");
    after(alloc, &unit, &Op::Scale(scale)).expect(rt, "no pixel leaves the field")
}

/// Adds a run, which must fit after the ones before it.
fn push(rt: &impl Abort, builder: &mut RowBuilder, run: Run) {
    assert!(rt; builder.fits(&run), "{run:?}");
    builder
        .push_run(run)
        .expect(rt, "there is room for the run");
}

/// The picture of these runs, given as row, first column, length and weight.
pub(super) fn picture_of(rt: &impl Abort, alloc: Global, runs: &[(i32, i32, u32, i32)]) -> Picture {
    let mut builder = RowBuilder::new(alloc);
    for (y, x, len, weight) in runs {
        let run = Run {
            y: *y,
            x: *x,
            len: *len,
            weight: *weight,
        };
        push(rt, &mut builder, run);
    }
    builder.finish().expect(rt, "there is room for the picture")
}

fn assert_runs(rt: &impl Abort, alloc: Global, picture: &Picture, want: &str) {
    let text = show_runs(alloc, picture).expect(rt, "there is room for the text");
    assert_same(rt, text.as_slice(), want.as_bytes(), ("the runs", want));
}

fn assert_grid(rt: &impl Abort, alloc: Global, picture: &Picture, want: &str) {
    let text = proof_grid(alloc, picture).expect(rt, "the grid is not too large");
    assert_same(rt, text.as_slice(), want.as_bytes(), ("the grid", want));
}

fn assert_too_large(rt: &impl Abort, alloc: Global, picture: &Picture) {
    let fault = proof_grid(alloc, picture).err();
    assert_same(rt, fault, Some(GridFault::ProofTooLarge), picture);
}

/// Asserts that a picture has this run text and this grid text.
fn assert_texts(rt: &impl Abort, alloc: Global, picture: &Picture, runs: &str, grid: &str) {
    assert_runs(rt, alloc, picture, runs);
    assert_grid(rt, alloc, picture, grid);
}

/// Asserts that the picture of these runs has this run text and this grid text.
fn assert_run_texts(
    rt: &impl Abort,
    alloc: Global,
    runs: &[(i32, i32, u32, i32)],
    text: &str,
    grid: &str,
) {
    assert_texts(rt, alloc, &picture_of(rt, alloc, runs), text, grid);
}

/// Asserts that the picture of these runs has this run text, and is too large for a grid.
fn assert_no_grid(rt: &impl Abort, alloc: Global, runs: &[(i32, i32, u32, i32)], text: &str) {
    let picture = picture_of(rt, alloc, runs);
    assert_runs(rt, alloc, &picture, text);
    assert_too_large(rt, alloc, &picture);
}

#[test]
fn texts_of_a_rectangle(rt: HostRuntime) {
    let alloc = rt.alloc();
    let rectangle = fill(&rt, alloc, RECTANGLE);
    assert_texts(&rt, alloc, &rectangle, "1 0 2 1\n0 0 2 1\n", "111\n111\n");
}

#[test]
fn texts_of_bars(rt: HostRuntime) {
    assert_run_texts(
        &rt,
        rt.alloc(),
        &[(0, 0, 1, 1), (0, 1, 1, 2), (0, 2, 1, 3)],
        "0 0 0 1\n0 1 1 2\n0 2 2 3\n",
        "123\n",
    );
}

#[test]
fn texts_of_the_blank_picture(rt: HostRuntime) {
    let alloc = rt.alloc();
    assert_texts(&rt, alloc, &Picture::blank(alloc), "blank\n", "blank\n");
}

/// Weights, each with the grid text of one pixel of that weight.
const WEIGHTS: &[(i32, &str)] = &[
    (1, "1\n"),
    (9, "9\n"),
    (10, "+\n"),
    (12, "+\n"),
    (32767, "+\n"),
    (-1, "a\n"),
    (-2, "b\n"),
    (-9, "i\n"),
    (-10, "-\n"),
    (-12, "-\n"),
    (-32767, "-\n"),
];

/// Asserts that a pixel of each of these weights has its grid text.
fn assert_pixels(rt: &impl Abort, alloc: Global, weights: &[(i32, &str)]) {
    for (weight, want) in weights {
        let pixel = picture_of(rt, alloc, &[(0, 0, 1, *weight)]);
        assert_grid(rt, alloc, &pixel, want);
    }
}

/// A row in which the weight of each pixel is its column, from -11 to 11.
fn rising(rt: &impl Abort, alloc: Global) -> Picture {
    let mut builder = RowBuilder::new(alloc);
    for weight in -11..12 {
        // A run has a nonzero weight, so column 0 is left out.
        if weight != 0 {
            let run = Run {
                y: -7,
                x: weight,
                len: 1,
                weight,
            };
            push(rt, &mut builder, run);
        }
    }
    builder.finish().expect(rt, "there is room for the picture")
}

#[test]
fn weights_have_characters(rt: HostRuntime) {
    let alloc = rt.alloc();
    assert_pixels(&rt, alloc, WEIGHTS);
    assert_grid(&rt, alloc, &rising(&rt, alloc), "--ihgfedcba.123456789++\n");
}

#[test]
fn grids_have_holes(rt: HostRuntime) {
    let alloc = rt.alloc();
    assert_run_texts(
        &rt,
        alloc,
        &[(1, 0, 1, 1), (0, 0, 3, 1)],
        "1 0 0 1\n0 0 2 1\n",
        "1..\n111\n",
    );
    assert_run_texts(
        &rt,
        alloc,
        &[(2, -1, 1, 1), (2, 3, 1, -1), (0, 1, 2, 3)],
        "2 -1 -1 1\n2 3 3 -1\n0 1 2 3\n",
        "1...a\n.....\n..33.\n",
    );
}

#[test]
fn texts_at_the_ends_of_the_field(rt: HostRuntime) {
    let alloc = rt.alloc();
    let bottom: &[(i32, i32, u32, i32)] = &[(-4095, -4095, 8190, -32767)];
    assert_no_grid(&rt, alloc, bottom, "-4095 -4095 4094 -32767\n");
    let top: &[(i32, i32, u32, i32)] = &[(4094, 4093, 2, 5)];
    assert_run_texts(&rt, alloc, top, "4094 4093 4094 5\n", "55\n");
    let corners: &[(i32, i32, u32, i32)] = &[(4094, 4094, 1, 1), (-4095, -4095, 1, 1)];
    let text = "4094 4094 4094 1\n-4095 -4095 -4095 1\n";
    assert_no_grid(&rt, alloc, corners, text);
}

/// The grid text of a rectangle of pixels of weight 1.
fn ones(alloc: Global, columns: i32, rows: i32) -> Result<Vec<u8>, AllocError> {
    let mut grid = Vec::new(alloc);
    for _ in 0..rows {
        for _ in 0..columns {
            grid.push(b'1')?;
        }
        grid.push(b'\n')?;
    }
    Ok(grid)
}

/// Asserts that a rectangle with this number of columns and rows has its grid text.
fn assert_full(rt: &impl Abort, alloc: Global, columns: i32, rows: i32) {
    let want = ones(alloc, columns, rows).expect(rt, "there is room for the grid");
    let text = proof_grid(alloc, &rectangle_of(rt, alloc, columns, rows)).expect(
        rt,
        "the grid is not too large",
    );
    assert_same(
        rt,
        text.as_slice(),
        want.as_slice(),
        (columns, "by", rows, "pixels"),
    );
}

/// Asserts that a rectangle with this number of columns and rows is too large for a grid.
fn assert_overfull(rt: &impl Abort, alloc: Global, columns: i32, rows: i32) {
    assert_too_large(rt, alloc, &rectangle_of(rt, alloc, columns, rows));
}

#[test]
fn grids_have_128_columns_and_rows_at_most(rt: HostRuntime) {
    let alloc = rt.alloc();
    assert_overfull(&rt, alloc, 129, 1);
    assert_overfull(&rt, alloc, 1, 129);
    assert_overfull(&rt, alloc, 129, 129);
    assert_overfull(&rt, alloc, 4095, 1);
    assert_full(&rt, alloc, 128, 1);
    assert_full(&rt, alloc, 1, 128);
    assert_full(&rt, alloc, 128, 128);
}
