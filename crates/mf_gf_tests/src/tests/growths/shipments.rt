//! Characters that are shipped while allocations are refused.

use crate::tests::again::twice;
use crate::tests::assertions::assert_same;
use crate::tests::files::{assert_bytes, one};
use crate::tests::refusals::{assert_end_refused, long_rows};
use crate::tests::{
    FAR, MAX_BYTES, RECT, assert_count, finish, gf_file, picture, ship, ship_rectangle,
    with_rectangle,
};
use mf_gf::{GfFault, GfFile};
use mf_rows::Picture;
use mf_testing::{grow_again, refuse_growths};
use std::alloc::Global;
use std::process::Abort;

/// A character: its code, and its escapement with its width.
#[derive(Clone, Copy)]
struct Character {
    code: u8,
    escapement: (i32, i32),
}

/// The rectangle of the tables of bytes.
const RECTANGLE: Character = Character {
    code: 65,
    escapement: (327_680, 0),
};

/// What shipping a character returns while allocations are refused.
fn ship_while_refused(
    alloc: Global,
    file: &mut GfFile,
    character: Character,
    picture: &Picture,
) -> Result<(), GfFault> {
    let (dx, width) = character.escapement;
    refuse_growths(alloc);
    let shipped = file.ship(character.code, dx, width, picture);
    grow_again(alloc);
    shipped
}

/// Ships a character while allocations are refused, to a file that has room for it. Returns whether it was shipped, and asserts
/// that the file has the same number of characters as before where it was not.
fn is_shipped_while_refused(
    rt: &impl Abort,
    alloc: Global,
    file: &mut GfFile,
    character: Character,
    picture: &Picture,
) -> bool {
    let before = file.count();
    let shipped = ship_while_refused(alloc, file, character, picture);
    if shipped.is_err() {
        assert_same(rt, shipped, Err(GfFault::OutOfMemory), "the character");
        assert_count(rt, file, before);
    }
    shipped.is_ok()
}

/// Ships a character while allocations are refused, and where that is refused, ships it again with ample memory.
fn ship_in_the_end(
    rt: &impl Abort,
    alloc: Global,
    file: &mut GfFile,
    character: Character,
    picture: &Picture,
) {
    if !is_shipped_while_refused(rt, alloc, file, character, picture) {
        ship(rt, file, character.code, character.escapement, picture);
    }
}

#[test]
fn a_first_character_is_shipped(rt: HostRuntime) {
    let alloc = rt.alloc();
    let rect = picture(&rt, alloc, RECT, 1);
    let mut file = gf_file(&rt, alloc);
    ship_in_the_end(&rt, alloc, &mut file, RECTANGLE, &rect);
    assert_count(&rt, &file, 1);
    assert_bytes(&rt, alloc, &finish(&rt, file), one());
}

/// The pixels `FAR` as a character, with another code than the rectangle and with the same code.
const OTHER: Character = Character {
    code: 66,
    escapement: (0, 0),
};

const SAME: Character = Character {
    code: 65,
    escapement: (131_072, 1),
};

/// A first character that is refused leaves neither its box, nor a place for its code, nor a character.
#[test]
fn a_first_character_is_left_out(rt: HostRuntime) {
    let alloc = rt.alloc();
    let far = picture(&rt, alloc, FAR, 1);
    let mut file = gf_file(&rt, alloc);
    if !is_shipped_while_refused(&rt, alloc, &mut file, SAME, &far) {
        file = assert_end_refused(&rt, file, GfFault::NoCharacters);
        ship_rectangle(&rt, alloc, &mut file);
        assert_bytes(&rt, alloc, &finish(&rt, file), one());
    } else {
        assert_count(&rt, &file, 1);
    }
}

/// The bytes of a file of the rectangle and the pixels `FAR`, with different codes.
const BOTH: &[&[u8]] = &[
    b"\xf7\x83\x00",
    b"\x44\x41\x03\x03\x01\x01\x00\x03\x4a\x03\x45",
    b"\x44\x42\x1e\x17\x00\x09\x00\x1e\x45",
    b"\xf8\x00\x00\x00\x17",
    b"\x00\x00\x00\x00\x00\x00\x00\x00\x00\x00\x00\x00\x00\x00\x00\x00",
    b"\xff\xff\xff\xf9\x00\x00\x00\x17\x00\x00\x00\x00\x00\x00\x00\x09",
    b"\xf6\x41\x05\x00\x00\x00\x00\x00\x00\x00\x03",
    b"\xf6\x42\x00\x00\x00\x00\x00\x00\x00\x00\x0e",
    b"\xf9\x00\x00\x00\x17\x83\xdf\xdf\xdf\xdf",
];

fn both() -> &'static [&'static [u8]] {
    BOTH
}

/// The bytes of a file of the rectangle and the pixels `FAR`, with the same code. The second character has boc, and its p is the
/// place of the first one.
const ONE_CODE: &[&[u8]] = &[
    b"\xf7\x83\x00",
    b"\x44\x41\x03\x03\x01\x01\x00\x03\x4a\x03\x45",
    b"\x43\x00\x00\x00\x41\x00\x00\x00\x03\xff\xff\xff\xf9\x00\x00\x00\x17",
    b"\x00\x00\x00\x09\x00\x00\x00\x09\x00\x1e\x45",
    b"\xf8\x00\x00\x00\x2a",
    b"\x00\x00\x00\x00\x00\x00\x00\x00\x00\x00\x00\x00\x00\x00\x00\x00",
    b"\xff\xff\xff\xf9\x00\x00\x00\x17\x00\x00\x00\x00\x00\x00\x00\x09",
    b"\xf6\x41\x02\x00\x00\x00\x01\x00\x00\x00\x0e",
    b"\xf9\x00\x00\x00\x2a\x83\xdf\xdf\xdf\xdf",
];

fn one_code() -> &'static [&'static [u8]] {
    ONE_CODE
}

/// Ships the pixels `FAR` after the rectangle while allocations are refused, and again with ample memory where that is refused.
/// Asserts that the finished file has these bytes.
fn assert_shipped_after_the_rectangle(
    rt: &impl Abort,
    alloc: Global,
    character: Character,
    bytes: &[&[u8]],
) {
    let far = picture(rt, alloc, FAR, 1);
    let mut file = with_rectangle(rt, alloc, MAX_BYTES);
    ship_in_the_end(rt, alloc, &mut file, character, &far);
    assert_count(rt, &file, 2);
    assert_bytes(rt, alloc, &finish(rt, file), bytes);
}

/// Ships the pixels `FAR` after the rectangle while allocations are refused. Asserts that the finished file has the bytes of the
/// rectangle alone where that is refused, and else these bytes.
fn assert_left_out_after_the_rectangle(
    rt: &impl Abort,
    alloc: Global,
    character: Character,
    bytes: &'static [&'static [u8]],
) {
    let far = picture(rt, alloc, FAR, 1);
    let mut file = with_rectangle(rt, alloc, MAX_BYTES);
    let shipped = is_shipped_while_refused(rt, alloc, &mut file, character, &far);
    let expected = if shipped { bytes } else { one() };
    assert_bytes(rt, alloc, &finish(rt, file), expected);
}

#[test]
fn a_second_character_is_shipped(rt: HostRuntime) {
    assert_shipped_after_the_rectangle(&rt, rt.alloc(), OTHER, both());
}

#[test]
fn a_second_character_is_left_out(rt: HostRuntime) {
    assert_left_out_after_the_rectangle(&rt, rt.alloc(), OTHER, both());
}

#[test]
fn a_code_is_shipped_again(rt: HostRuntime) {
    assert_shipped_after_the_rectangle(&rt, rt.alloc(), SAME, one_code());
}

#[test]
fn a_code_that_comes_again_is_left_out(rt: HostRuntime) {
    assert_left_out_after_the_rectangle(&rt, rt.alloc(), SAME, one_code());
}

/// The same character again, which gives the table of another test.
#[test]
fn a_character_is_shipped_twice(rt: HostRuntime) {
    let alloc = rt.alloc();
    let rect = picture(&rt, alloc, RECT, 1);
    let mut file = with_rectangle(&rt, alloc, MAX_BYTES);
    ship_in_the_end(&rt, alloc, &mut file, RECTANGLE, &rect);
    assert_count(&rt, &file, 2);
    assert_bytes(&rt, alloc, &finish(&rt, file), twice());
}

/// `OutOfMemory` never comes instead of `FileTooLong`: bytes for which an allocation fails are still counted.
#[test]
fn a_character_that_is_too_long_is_refused_for_that(rt: HostRuntime) {
    let alloc = rt.alloc();
    let long = long_rows(&rt, alloc);
    let mut file = with_rectangle(&rt, alloc, 72);
    let shipped = ship_while_refused(alloc, &mut file, SAME, &long);
    assert_same(&rt, shipped, Err(GfFault::FileTooLong), "the character");
    assert_count(&rt, &file, 1);
    assert_bytes(&rt, alloc, &finish(&rt, file), one());
}
