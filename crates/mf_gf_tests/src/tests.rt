//! Tests of GF files: bytes worked out by hand from the format, refusals, and writers that fail.

mod again;
mod assertions;
mod characters;
mod files;
mod growths;
mod refusals;
mod writers;

use assertions::assert_same;
use mf_gf::{FontWords, GfBytes, GfFile};
use mf_rows::{Picture, RowBuilder, Run};
use std::alloc::Global;
use std::fmt::Debug;
use std::process::Abort;

/// The numbers of a font are all 0.
const NO_WORDS: FontWords = FontWords {
    ds: 0,
    cs: 0,
    hppp: 0,
    vppp: 0,
};

/// The greatest number of bytes in the files of these tests.
const MAX_BYTES: u32 = 16_777_216;

/// A rectangle of 3 by 2 pixels. Its character has 11 bytes, and a file of it alone, without a comment, has 72.
const RECT: &[(i32, i32, u32)] = &[(1, 0, 3), (0, 0, 3)];

/// Thirty pixels of row 9, from column -7 on. Their box is not in that of the rectangle.
const FAR: &[(i32, i32, u32)] = &[(9, -7, 30)];

/// The pixel at the origin.
const UNIT: &[(i32, i32, u32)] = &[(0, 0, 1)];

/// Adds a run, which must fit after the ones before it.
fn push(rt: &impl Abort, builder: &mut RowBuilder, run: Run) {
    assert!(rt; builder.fits(&run), "{run:?}");
    builder
        .push_run(run)
        .expect(rt, "there is room for the run");
}

/// The picture of these runs, given as row, first column, length and weight.
pub(crate) fn picture_of_runs(
    rt: &impl Abort,
    alloc: Global,
    runs: &[(i32, i32, u32, i32)],
) -> Picture {
    let mut builder = RowBuilder::new(alloc);
    for (y, x, len, weight) in runs {
        let run = Run {
            y: *y,
            x: *x,
            len: *len,
            weight: *weight,
        };
        push(rt, &mut builder, run);
    }
    builder.finish().expect(rt, "there is room for the picture")
}

/// The picture of these stretches, given as row, first column and length, all with the same weight.
pub(crate) fn picture(
    rt: &impl Abort,
    alloc: Global,
    stretches: &[(i32, i32, u32)],
    weight: i32,
) -> Picture {
    let mut runs = Vec::new(alloc);
    for (y, x, len) in stretches {
        runs.push((*y, *x, *len, weight))
            .expect(rt, "there is room for the runs");
    }
    picture_of_runs(rt, alloc, &runs)
}

/// A file without a comment.
pub(crate) fn gf_file(rt: &impl Abort, alloc: Global) -> GfFile {
    short_file(rt, alloc, MAX_BYTES)
}

/// A file without a comment, of at most `max_bytes` bytes.
pub(crate) fn short_file(rt: &impl Abort, alloc: Global, max_bytes: u32) -> GfFile {
    GfFile::new(alloc, b"", max_bytes).expect(rt, "the preamble fits")
}

/// Ships a character, which must be accepted.
pub(crate) fn ship(
    rt: &impl Abort,
    file: &mut GfFile,
    code: u8,
    escapement: (i32, i32),
    picture: &Picture,
) {
    let (dx, width) = escapement;
    let shipped = file.ship(code, dx, width, picture);
    assert_same(rt, shipped, Ok(()), ("code", code));
}

/// A file without a comment, of at most `max_bytes` bytes, to which the rectangle was shipped with code 65.
pub(crate) fn with_rectangle(rt: &impl Abort, alloc: Global, max_bytes: u32) -> GfFile {
    let mut file = short_file(rt, alloc, max_bytes);
    ship_rectangle(rt, alloc, &mut file);
    file
}

/// Ships the rectangle with code 65.
pub(crate) fn ship_rectangle(rt: &impl Abort, alloc: Global, file: &mut GfFile) {
    ship(rt, file, 65, (327_680, 0), &picture(rt, alloc, RECT, 1));
}

/// Asserts that this number of characters was shipped.
pub(crate) fn assert_count(rt: &impl Abort, file: &GfFile, count: u32) {
    assert_same(rt, file.count(), count, "characters");
}

/// The bytes of a file, which must be accepted when it is finished.
pub(crate) fn finish(rt: &impl Abort, file: GfFile) -> GfBytes {
    finish_with(rt, file, NO_WORDS)
}

/// The bytes of a file, which must be accepted when it is finished with these numbers of the font.
pub(crate) fn finish_with(rt: &impl Abort, file: GfFile, words: FontWords) -> GfBytes {
    match file.finish(words) {
        Ok(bytes) => bytes,
        Err((_, fault)) => panic!(rt; "the file is refused: {fault:?}"),
    }
}

/// `length` of the bytes, from `first` on.
pub(crate) fn part<'a>(rt: &impl Abort, bytes: &'a [u8], first: usize, length: usize) -> &'a [u8] {
    match bytes.get(first..first.saturating_add(length)) {
        Some(part) => part,
        None => panic!(rt; "no {length} bytes from byte {first} on"),
    }
}

/// Asserts that a file has these bytes, from `first` on.
pub(crate) fn assert_part<C: Debug + Drop>(
    rt: &impl Abort,
    file: &GfBytes,
    first: usize,
    expected: &[u8],
    case: C,
) {
    let found = part(rt, file.bytes(), first, expected.len());
    assert_same(rt, found, expected, case);
}

/// Asserts that a file has this number of bytes.
pub(crate) fn assert_length(rt: &impl Abort, file: &GfBytes, length: usize) {
    assert_same(rt, file.bytes().len(), length, "bytes of the file");
}
