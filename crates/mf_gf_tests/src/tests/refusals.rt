//! Files and characters that are refused, and what is left after that.

use super::{
    NO_WORDS, RECT, assert_count, assert_length, finish, part, picture, ship, ship_rectangle,
    short_file, with_rectangle,
};
use crate::tests::assertions::assert_same;
use mf_gf::{GfFault, GfFile};
use mf_rows::Picture;
use std::alloc::Global;
use std::process::Abort;

/// The lengths of comments, the greatest lengths of their files, and their refusals.
const COMMENTS: &[(usize, u32, Option<GfFault>)] = &[
    (0, 2, Some(GfFault::FileTooLong)),
    (0, 3, None),
    (4, 6, Some(GfFault::FileTooLong)),
    (4, 7, None),
    (255, 10_000, None),
    (255, 257, Some(GfFault::FileTooLong)),
    (256, 10_000, Some(GfFault::CommentTooLong)),
    // The length of the file is checked first.
    (256, 258, Some(GfFault::FileTooLong)),
];

fn assert_comments(rt: &impl Abort, alloc: Global, cases: &[(usize, u32, Option<GfFault>)]) {
    let long = vec![in alloc; b'x'; 256].expect(rt, "there is room for a comment");
    for (length, max_bytes, refusal) in cases {
        let comment = part(rt, &long, 0, *length);
        let found = GfFile::new(alloc, comment, *max_bytes).err();
        let case = ("a comment of", *length, "bytes in", *max_bytes);
        assert_same(rt, found, *refusal, case);
    }
}

#[test]
fn comments(rt: HostRuntime) {
    assert_comments(&rt, rt.alloc(), COMMENTS);
}

/// Asserts that shipping a character is refused with this fault.
fn assert_refused(
    rt: &impl Abort,
    file: &mut GfFile,
    code: u8,
    escapement: (i32, i32),
    picture: &Picture,
    fault: GfFault,
) {
    let (dx, width) = escapement;
    let shipped = file.ship(code, dx, width, picture);
    assert_same(rt, shipped, Err(fault), ("code", code));
}

/// Asserts that two files can be finished and then have the same bytes.
fn assert_same_files(rt: &impl Abort, file: GfFile, other: GfFile) {
    let (file, other) = (finish(rt, file), finish(rt, other));
    assert_same(rt, file.bytes(), other.bytes(), "the file");
}

/// A second character with a code takes 30 bytes where the first one took 11, and is refused only for its length.
#[test]
fn code_that_was_shipped(rt: HostRuntime) {
    let alloc = rt.alloc();
    let rect = picture(&rt, alloc, RECT, 1);
    let mut file = with_rectangle(&rt, alloc, 43);
    assert_refused(&rt, &mut file, 65, (0, 0), &rect, GfFault::FileTooLong);
    ship(&rt, &mut file, 66, (0, 0), &rect);
    assert_count(&rt, &file, 2);
    let mut file = with_rectangle(&rt, alloc, 44);
    ship(&rt, &mut file, 65, (0, 0), &rect);
    assert_count(&rt, &file, 2);
}

/// Asserts that finishing the file is refused with this fault, and returns the file.
pub(crate) fn assert_end_refused(rt: &impl Abort, file: GfFile, fault: GfFault) -> GfFile {
    match file.finish(NO_WORDS) {
        Ok(_) => panic!(rt; "the file is finished"),
        Err((file, found)) => {
            assert_same(rt, found, fault, "the end");
            file
        }
    }
}

#[test]
fn no_characters(rt: HostRuntime) {
    let alloc = rt.alloc();
    let file = short_file(&rt, alloc, 72);
    let mut file = assert_end_refused(&rt, file, GfFault::NoCharacters);
    ship(&rt, &mut file, 65, (0, 0), &picture(&rt, alloc, RECT, 1));
    assert_length(&rt, &finish(&rt, file), 72);
}

/// `NoCharacters` comes before `FileTooLong`.
#[test]
fn no_characters_before_length(rt: HostRuntime) {
    let alloc = rt.alloc();
    let rect = picture(&rt, alloc, RECT, 1);
    let file = short_file(&rt, alloc, 3);
    let mut file = assert_end_refused(&rt, file, GfFault::NoCharacters);
    assert_count(&rt, &file, 0);
    assert_refused(&rt, &mut file, 65, (0, 0), &rect, GfFault::FileTooLong);
}

/// Rows of a character that take three bytes each, so that all 30 do not fit after the first 14 of 72 bytes.
pub(crate) fn long_rows(rt: &impl Abort, alloc: Global) -> Picture {
    let mut rows = Vec::new(alloc);
    for y in (0..30).rev() {
        rows.push((y, -7, 70))
            .expect(rt, "there is room for the rows");
    }
    picture(rt, alloc, &rows, 1)
}

/// A character that is too long for the file leaves nothing in it.
#[test]
fn too_long_character(rt: HostRuntime) {
    let alloc = rt.alloc();
    let long = long_rows(&rt, alloc);
    let mut file = with_rectangle(&rt, alloc, 72);
    assert_refused(&rt, &mut file, 66, (1, 2), &long, GfFault::FileTooLong);
    assert_count(&rt, &file, 1);
    assert_same_files(&rt, file, with_rectangle(&rt, alloc, 72));
}

/// A second character with a code that is too long leaves nothing in the file: the p of the next one is the place of the first,
/// and the locator leads to that next one.
#[test]
fn too_long_second_character(rt: HostRuntime) {
    let alloc = rt.alloc();
    let long = long_rows(&rt, alloc);
    let mut file = with_rectangle(&rt, alloc, 104);
    assert_refused(&rt, &mut file, 65, (1, 2), &long, GfFault::FileTooLong);
    assert_count(&rt, &file, 1);
    ship_rectangle(&rt, alloc, &mut file);
    let mut other = with_rectangle(&rt, alloc, 104);
    ship_rectangle(&rt, alloc, &mut other);
    assert_count(&rt, &file, 2);
    assert_same_files(&rt, file, other);
}

#[test]
fn lengths(rt: HostRuntime) {
    let alloc = rt.alloc();
    let rect = picture(&rt, alloc, RECT, 1);
    let mut file = short_file(&rt, alloc, 13);
    assert_refused(
        &rt,
        &mut file,
        65,
        (327_680, 0),
        &rect,
        GfFault::FileTooLong,
    );
    assert_count(&rt, &file, 0);

    with_rectangle(&rt, alloc, 14);

    let file = with_rectangle(&rt, alloc, 71);
    let file = assert_end_refused(&rt, file, GfFault::FileTooLong);
    assert_count(&rt, &file, 1);

    let file = with_rectangle(&rt, alloc, 72);
    assert_length(&rt, &finish(&rt, file), 72);
}

/// A limit beyond the greatest number of the format is accepted.
#[test]
fn limit_beyond_the_greatest_number(rt: HostRuntime) {
    let alloc = rt.alloc();
    let mut file = short_file(&rt, alloc, u32::MAX);
    ship(&rt, &mut file, 65, (0, 0), &picture(&rt, alloc, RECT, 1));
    assert_length(&rt, &finish(&rt, file), 72);
}
