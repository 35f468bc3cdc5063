//! Codes that are shipped more than once.

use super::files::{Part, assert_bytes, assert_parts};
use super::{
    FAR, MAX_BYTES, RECT, UNIT, assert_count, assert_length, finish, gf_file, picture, ship,
    ship_rectangle, with_rectangle,
};
use mf_gf::GfFile;
use std::alloc::Global;
use std::process::Abort;

/// The bytes of a file with a rectangle that is shipped twice with the same code. The second character has boc, and its p is the
/// place of the first one.
const TWICE: &[&[u8]] = &[
    b"\xf7\x83\x00",
    b"\x44\x41\x03\x03\x01\x01\x00\x03\x4a\x03\x45",
    b"\x43\x00\x00\x00\x41\x00\x00\x00\x03\x00\x00\x00\x00\x00\x00\x00\x03",
    b"\x00\x00\x00\x00\x00\x00\x00\x01\x00\x03\x4a\x03\x45",
    b"\xf8\x00\x00\x00\x2c",
    b"\x00\x00\x00\x00\x00\x00\x00\x00\x00\x00\x00\x00\x00\x00\x00\x00",
    b"\x00\x00\x00\x00\x00\x00\x00\x03\x00\x00\x00\x00\x00\x00\x00\x01",
    b"\xf6\x41\x05\x00\x00\x00\x00\x00\x00\x00\x0e",
    b"\xf9\x00\x00\x00\x2c\x83\xdf\xdf\xdf\xdf\xdf\xdf",
];

pub(crate) fn twice() -> &'static [&'static [u8]] {
    TWICE
}

#[test]
fn code_again(rt: HostRuntime) {
    let alloc = rt.alloc();
    let mut file = with_rectangle(&rt, alloc, MAX_BYTES);
    ship_rectangle(&rt, alloc, &mut file);
    assert_count(&rt, &file, 2);
    assert_bytes(&rt, alloc, &finish(&rt, file), twice());
}

/// The place of the third character, whose p is the place of the second one.
const THIRD: &[Part] = &[
    (14, b"\x43\x00\x00\x00\x41\x00\x00\x00\x03", "the second"),
    (44, b"\x43\x00\x00\x00\x41\x00\x00\x00\x0e", "the third"),
    (74, b"\xf8", "the postamble"),
    (
        111,
        b"\xf6\x41\x05\x00\x00\x00\x00\x00\x00\x00\x2c\xf9",
        "the locator",
    ),
];

fn third() -> &'static [Part] {
    THIRD
}

#[test]
fn code_a_third_time(rt: HostRuntime) {
    let alloc = rt.alloc();
    let mut file = with_rectangle(&rt, alloc, MAX_BYTES);
    ship_rectangle(&rt, alloc, &mut file);
    ship_rectangle(&rt, alloc, &mut file);
    assert_count(&rt, &file, 3);
    assert_parts(&rt, &finish(&rt, file), third());
}

/// The only locator of two characters has the numbers of the second one.
const LAST_NUMBERS: &[Part] = &[(
    81,
    b"\xf6\x41\x00\x00\x00\x00\x01\x00\x00\x00\x0e\xf9",
    "the locator",
)];

fn last_numbers() -> &'static [Part] {
    LAST_NUMBERS
}

#[test]
fn numbers_of_the_last(rt: HostRuntime) {
    let alloc = rt.alloc();
    let mut file = with_rectangle(&rt, alloc, MAX_BYTES);
    let rect = picture(&rt, alloc, RECT, 1);
    ship(&rt, &mut file, 65, (0, 1), &rect);
    assert_parts(&rt, &finish(&rt, file), last_numbers());
}

/// The box of the postamble is around both characters with a code: columns -7 to 23, and rows 0 to 9.
const PARTS_OF_BOTH: &[Part] = &[
    (12, b"\x43\x00\x00\x00\x41\x00\x00\x00\x03", "the second"),
    (40, b"\xf8\x00\x00\x00\x28", "the postamble"),
    (
        61,
        b"\xff\xff\xff\xf9\x00\x00\x00\x17\x00\x00\x00\x00\x00\x00\x00\x09",
        "the box",
    ),
];

fn parts_of_both() -> &'static [Part] {
    PARTS_OF_BOTH
}

#[test]
fn box_of_both(rt: HostRuntime) {
    let alloc = rt.alloc();
    let mut file = gf_file(&rt, alloc);
    ship(&rt, &mut file, 65, (0, 0), &picture(&rt, alloc, FAR, 1));
    ship(&rt, &mut file, 65, (0, 0), &picture(&rt, alloc, UNIT, 1));
    assert_parts(&rt, &finish(&rt, file), parts_of_both());
}

/// Ships `count` characters without black pixels, all with the same code.
fn ship_blanks(rt: &impl Abort, alloc: Global, file: &mut GfFile, code: u8, count: u32) {
    let blank = picture(rt, alloc, &[], 1);
    for _ in 0..count {
        ship(rt, file, code, (0, 0), &blank);
    }
}

/// Ships a character without black pixels for each code, from 255 down to 0.
fn ship_all_codes(rt: &impl Abort, alloc: Global, file: &mut GfFile) {
    let blank = picture(rt, alloc, &[], 1);
    for below in 0..=255 {
        ship(rt, file, 255 - below, (0, 0), &blank);
    }
}

/// The first blank character has 7 bytes, and each of the others has 26. So the third is at 36, the last of 5,000 at 129,958, and
/// the postamble at 129,984; the file has 130,044 bytes.
const MANY: &[Part] = &[
    (3, b"\x44\x07\x00\x00\x00\x00\x45", "the first"),
    (10, b"\x43\x00\x00\x00\x07\x00\x00\x00\x03", "the second"),
    (36, b"\x43\x00\x00\x00\x07\x00\x00\x00\x0a", "the third"),
    (129_958, b"\x43\x00\x00\x00\x07\x00\x01\xfb\x8c", "the last"),
    (129_984, b"\xf8\x00\x01\xfb\xc0", "the postamble"),
    (
        130_021,
        b"\xf6\x07\x00\x00\x00\x00\x00\x00\x01\xfb\xa6",
        "the locator",
    ),
    (
        130_032,
        b"\xf9\x00\x01\xfb\xc0\x83\xdf\xdf\xdf\xdf\xdf\xdf",
        "the end",
    ),
];

fn many() -> &'static [Part] {
    MANY
}

/// Asserts that a file has this number of characters, this length and these parts.
fn assert_file(rt: &impl Abort, file: GfFile, count: u32, length: usize, parts: &[Part]) {
    assert_count(rt, &file, count);
    let bytes = finish(rt, file);
    assert_length(rt, &bytes, length);
    assert_parts(rt, &bytes, parts);
}

#[test]
fn one_code_many_times(rt: HostRuntime) {
    let alloc = rt.alloc();
    let mut file = gf_file(&rt, alloc);
    ship_blanks(&rt, alloc, &mut file, 7, 5000);
    assert_file(&rt, file, 5000, 130_044, many());
}

/// Each code is first at 3 + 7 (255 - code), and then again at 1795 + 26 (255 - code).
const ALL: &[Part] = &[
    (3, b"\x44\xff", "the first of 255"),
    (1788, b"\x44\x00", "the first of 0"),
    (
        1795,
        b"\x43\x00\x00\x00\xff\x00\x00\x00\x03",
        "the second of 255",
    ),
    (
        8425,
        b"\x43\x00\x00\x00\x00\x00\x00\x06\xfc",
        "the second of 0",
    ),
    (8451, b"\xf8\x00\x00\x21\x03", "the postamble"),
    (
        8488,
        b"\xf6\x00\x00\x00\x00\x00\x00\x00\x00\x20\xe9\xf6\x01",
        "the locator of 0",
    ),
    (
        11_293,
        b"\xf6\xff\x00\x00\x00\x00\x00\x00\x00\x07\x03\xf9",
        "the locator of 255",
    ),
];

fn all() -> &'static [Part] {
    ALL
}

#[test]
fn all_codes_twice(rt: HostRuntime) {
    let alloc = rt.alloc();
    let mut file = gf_file(&rt, alloc);
    ship_all_codes(&rt, alloc, &mut file);
    ship_all_codes(&rt, alloc, &mut file);
    assert_file(&rt, file, 512, 11_316, all());
}
