//! The bytes of complete files.

use super::{
    MAX_BYTES, NO_WORDS, RECT, UNIT, assert_count, assert_length, assert_part, finish, finish_with,
    gf_file, picture, ship, with_rectangle,
};
use crate::tests::assertions::assert_same;
use mf_gf::{FontWords, GfBytes, GfFault, GfFile};
use mf_rows::Picture;
use std::alloc::Global;
use std::process::Abort;

// Functions return the tables of bytes, so that the prover checks the tests without them.

/// Asserts that the bytes of a file are these parts, one after another.
pub(crate) fn assert_bytes(rt: &impl Abort, alloc: Global, file: &GfBytes, parts: &[&[u8]]) {
    let expected = parts
        .concat(alloc)
        .expect(rt, "there is room for the bytes");
    assert_same(rt, file.bytes(), expected.as_slice(), "the file");
}

/// The bytes of a file with one character, the rectangle.
const ONE: &[&[u8]] = &[
    b"\xf7\x83\x00",
    b"\x44\x41\x03\x03\x01\x01",
    b"\x00\x03\x4a\x03\x45",
    b"\xf8\x00\x00\x00\x0e",
    b"\x00\x00\x00\x00\x00\x00\x00\x00\x00\x00\x00\x00\x00\x00\x00\x00",
    b"\x00\x00\x00\x00\x00\x00\x00\x03\x00\x00\x00\x00\x00\x00\x00\x01",
    b"\xf6\x41\x05\x00\x00\x00\x00\x00\x00\x00\x03",
    b"\xf9\x00\x00\x00\x0e\x83\xdf\xdf\xdf\xdf",
];

pub(crate) fn one() -> &'static [&'static [u8]] {
    ONE
}

#[test]
fn one_character(rt: HostRuntime) {
    let alloc = rt.alloc();
    let file = with_rectangle(&rt, alloc, MAX_BYTES);
    assert_count(&rt, &file, 1);
    assert_bytes(&rt, alloc, &finish(&rt, file), one());
}

/// A font with a comment and one character.
fn font(alloc: Global, picture: &Picture) -> Result<GfBytes, GfFault> {
    let mut file = GfFile::new(alloc, b"a comment", MAX_BYTES)?;
    file.ship(65, 327_680, 0, picture)?;
    file.finish(NO_WORDS).map_err(|(_, fault)| fault)
}

#[test]
fn example(rt: HostRuntime) {
    let alloc = rt.alloc();
    let font = font(alloc, &picture(&rt, alloc, RECT, 1)).expect(&rt, "the file fits");
    // The comment has nine bytes, so the padding has seven, where that of the file of 72 bytes has four.
    assert_length(&rt, &font, 84);
    assert_part(&rt, &font, 0, b"\xf7\x83\x09a comment\x44", "the comment");
    let end = b"\x83\xdf\xdf\xdf\xdf\xdf\xdf\xdf";
    assert_part(&rt, &font, 76, end, "the padding");
}

/// Rows with gaps, and columns that are negative.
const GAPS: &[(i32, i32, u32)] = &[(5, -300, 70), (4, -100, 1), (1, -300, 1)];

/// The bytes of a file with the rows `GAPS`, whose escapement is not a whole number of pixels.
const LONG: &[&[u8]] = &[
    b"\xf7\x83\x00",
    b"\x43\x00\x00\x00\x42\xff\xff\xff\xff",
    b"\xff\xff\xfe\xd4\xff\xff\xff\x9d\x00\x00\x00\x01\x00\x00\x00\x05",
    b"\x00\x40\x46",
    b"\x46\x40\xc8\x01",
    b"\x47\x02\x00\x01",
    b"\x45",
    b"\xf8\x00\x00\x00\x28",
    b"\x00\x00\x00\x00\x00\x00\x00\x00\x00\x00\x00\x00\x00\x00\x00\x00",
    b"\xff\xff\xfe\xd4\xff\xff\xff\x9d\x00\x00\x00\x01\x00\x00\x00\x05",
    b"\xf5\x42\x00\x01\x86\xa0\x00\x00\x00\x00\x00\x10\x00\x00\x00\x00\x00\x03",
    b"\xf9\x00\x00\x00\x28\x83\xdf\xdf\xdf\xdf\xdf\xdf\xdf",
];

fn long() -> &'static [&'static [u8]] {
    LONG
}

#[test]
fn long_fields(rt: HostRuntime) {
    let alloc = rt.alloc();
    let mut file = gf_file(&rt, alloc);
    let gaps = picture(&rt, alloc, GAPS, 1);
    ship(&rt, &mut file, 66, (100_000, 1_048_576), &gaps);
    assert_bytes(&rt, alloc, &finish(&rt, file), long());
}

/// A part of a file: the place of its first byte, its bytes, and what they are.
pub(crate) type Part = (usize, &'static [u8], &'static str);

/// Asserts that a file has these parts.
pub(crate) fn assert_parts(rt: &impl Abort, file: &GfBytes, parts: &[Part]) {
    for (first, bytes, case) in parts {
        assert_part(rt, file, *first, bytes, *case);
    }
}

/// Parts of a file of two characters.
const TWO: &[Part] = &[
    (3, b"\x44\x42", "66"),
    (12, b"\x44\x41", "65"),
    (21, b"\xf8", "the postamble"),
    (
        58,
        b"\xf6\x41\x00\x00\x00\x00\x00\x00\x00\x00\x0c",
        "the locator of 65",
    ),
    (
        69,
        b"\xf6\x42\x00\x00\x00\x00\x00\x00\x00\x00\x03",
        "the locator of 66",
    ),
    (
        80,
        b"\xf9\x00\x00\x00\x15\x83\xdf\xdf\xdf\xdf\xdf\xdf",
        "the end",
    ),
];

fn two() -> &'static [Part] {
    TWO
}

/// Locators are in the order of their codes, whatever the order of shipping.
#[test]
fn two_characters(rt: HostRuntime) {
    let alloc = rt.alloc();
    let mut file = gf_file(&rt, alloc);
    let unit = picture(&rt, alloc, UNIT, 1);
    ship(&rt, &mut file, 66, (0, 0), &unit);
    ship(&rt, &mut file, 65, (0, 0), &unit);
    assert_count(&rt, &file, 2);
    let file = finish(&rt, file);
    assert_length(&rt, &file, 92);
    assert_parts(&rt, &file, two());
}

/// Parts of a file of columns 7 and 8 of row 5, and of a character without black pixels. The box of the postamble is around both, and
/// the numbers of the second box are all 0.
const BESIDE_BLANK: &[Part] = &[
    (3, b"\x44\x01\x02\x09\x00\x05\x00\x02\x45", "the pixels"),
    (12, b"\x44\x02\x00\x00\x00\x00\x45", "no pixels"),
    (19, b"\xf8\x00\x00\x00\x13", "the postamble"),
    (
        40,
        b"\x00\x00\x00\x00\x00\x00\x00\x09\x00\x00\x00\x00\x00\x00\x00\x05",
        "the box",
    ),
];

fn beside_blank() -> &'static [Part] {
    BESIDE_BLANK
}

#[test]
fn box_of_a_blank_character(rt: HostRuntime) {
    let alloc = rt.alloc();
    let mut file = gf_file(&rt, alloc);
    ship(
        &rt,
        &mut file,
        1,
        (0, 0),
        &picture(&rt, alloc, &[(5, 7, 2)], 1),
    );
    ship(&rt, &mut file, 2, (0, 0), &picture(&rt, alloc, &[], 1));
    assert_parts(&rt, &finish(&rt, file), beside_blank());
}

/// Numbers of a font. No two have the same bytes, and all but `ds` are at the ends of their ranges.
pub(crate) const WORDS: FontWords = FontWords {
    ds: -2,
    cs: u32::MAX,
    hppp: i32::MIN,
    vppp: i32::MAX,
};

/// The bytes of a file with a comment, the numbers `WORDS`, characters at corners of the field, and one character without black
/// pixels, whose box the box of the postamble encloses, too.
const CORNERS: &[&[u8]] = &[
    b"\xf7\x83\x09a comment",
    b"\x43\x00\x00\x00\x01\xff\xff\xff\xff",
    b"\xff\xff\xf0\x01\xff\xff\xf0\x02\x00\x00\x0f\xfe\x00\x00\x0f\xfe\x00\x01\x45",
    b"\x44\x02\x00\x00\x00\x00\x45",
    b"\x43\x00\x00\x00\x00\xff\xff\xff\xff",
    b"\x00\x00\x0f\xfe\x00\x00\x0f\xff\xff\xff\xf0\x01\xff\xff\xf0\x01\x00\x01\x45",
    b"\xf8\x00\x00\x00\x4b",
    b"\xff\xff\xff\xfe\xff\xff\xff\xff\x80\x00\x00\x00\x7f\xff\xff\xff",
    b"\xff\xff\xf0\x01\x00\x00\x0f\xff\xff\xff\xf0\x01\x00\x00\x0f\xfe",
    b"\xf6\x00\x00\x00\x00\x00\x00\x00\x00\x00\x2f",
    b"\xf6\x01\x00\x00\x00\x00\x00\x00\x00\x00\x0c",
    b"\xf6\x02\x00\x00\x00\x00\x00\x00\x00\x00\x28",
    b"\xf9\x00\x00\x00\x4b\x83\xdf\xdf\xdf\xdf\xdf",
];

pub(crate) fn corners() -> &'static [&'static [u8]] {
    CORNERS
}

/// Ships a character with one pixel, at this row and column.
fn ship_pixel(rt: &impl Abort, alloc: Global, file: &mut GfFile, code: u8, y: i32, x: i32) {
    ship(rt, file, code, (0, 0), &picture(rt, alloc, &[(y, x, 1)], 1));
}

/// The file of `CORNERS`, before it is finished.
pub(crate) fn corners_file(rt: &impl Abort, alloc: Global) -> GfFile {
    let mut file = GfFile::new(alloc, b"a comment", MAX_BYTES).expect(rt, "the comment fits");
    ship_pixel(rt, alloc, &mut file, 1, 4094, -4095);
    ship(rt, &mut file, 2, (0, 0), &picture(rt, alloc, &[], 1));
    ship_pixel(rt, alloc, &mut file, 0, -4095, 4094);
    file
}

#[test]
fn comment_and_words(rt: HostRuntime) {
    let alloc = rt.alloc();
    let file = corners_file(&rt, alloc);
    assert_bytes(&rt, alloc, &finish_with(&rt, file, WORDS), corners());
}

/// Asserts that the locator of a character with this escapement, the only one of its file, begins with these bytes.
fn assert_locator(rt: &impl Abort, alloc: Global, dx: i32, locator: &[u8]) {
    let mut file = gf_file(rt, alloc);
    ship(rt, &mut file, 1, (dx, -5), &picture(rt, alloc, UNIT, 1));
    let parts: &[&[u8]] = &[locator, b"\xff\xff\xff\xfb\x00\x00\x00\x03\xf9"];
    let bytes = parts
        .concat(alloc)
        .expect(rt, "there is room for the bytes");
    assert_part(rt, &finish(rt, file), 49, &bytes, ("dx", dx));
}

/// Escapements of a whole number of pixels up to 255 have a short locator.
#[test]
fn escapements(rt: HostRuntime) {
    let alloc = rt.alloc();
    assert_locator(&rt, alloc, 0, b"\xf6\x01\x00");
    assert_locator(&rt, alloc, 255 * 65_536, b"\xf6\x01\xff");
    assert_locator(
        &rt,
        alloc,
        256 * 65_536,
        b"\xf5\x01\x01\x00\x00\x00\x00\x00\x00\x00",
    );
    assert_locator(
        &rt,
        alloc,
        65_535,
        b"\xf5\x01\x00\x00\xff\xff\x00\x00\x00\x00",
    );
    assert_locator(
        &rt,
        alloc,
        -65_536,
        b"\xf5\x01\xff\xff\x00\x00\x00\x00\x00\x00",
    );
    assert_locator(
        &rt,
        alloc,
        i32::MIN,
        b"\xf5\x01\x80\x00\x00\x00\x00\x00\x00\x00",
    );
}

/// The picture in which the whole field is black.
fn field(rt: &impl Abort, alloc: Global) -> Picture {
    let mut rows = Vec::new(alloc);
    for y in (-4095..4095).rev() {
        rows.push((y, -4095, 8190))
            .expect(rt, "there is room for the rows");
    }
    picture(rt, alloc, &rows, 1)
}

#[test]
fn whole_field(rt: HostRuntime) {
    let alloc = rt.alloc();
    let mut file = gf_file(&rt, alloc);
    ship(&rt, &mut file, 97, (0, 0), &field(&rt, alloc));
    let file = finish(&rt, file);
    // Each of the 8,190 rows takes one byte to begin it and three to paint it. boc takes 25 bytes, and eoc one.
    assert_length(&rt, &file, 32_848);
    assert_part(&rt, &file, 32_789, b"\xf8", "the postamble");
    let rows = b"\x00\x41\x1f\xfe\x4a\x41\x1f\xfe";
    assert_part(&rt, &file, 28, rows, "two rows");
}
