//! Files that are begun while allocations are refused.

use crate::tests::assertions::assert_same;
use crate::tests::files::{Part, assert_parts};
use crate::tests::{MAX_BYTES, assert_count, assert_length, assert_part, finish, ship_rectangle};
use mf_gf::{GfFault, GfFile};
use mf_testing::{grow_again, refuse_growths};
use std::alloc::Global;
use std::process::Abort;

/// A comment of 255 bytes, all of them different.
fn longest_comment(rt: &impl Abort, alloc: Global) -> Vec<u8> {
    let mut comment = Vec::new(alloc);
    for byte in 0..255 {
        comment
            .push(byte)
            .expect(rt, "there is room for the comment");
    }
    comment
}

/// The new file, or where it was refused, one that is made with ample memory.
fn begin_in_the_end(
    rt: &impl Abort,
    alloc: Global,
    comment: &[u8],
    file: Result<GfFile, GfFault>,
) -> GfFile {
    match file {
        Ok(file) => file,
        Err(fault) => {
            assert_same(rt, fault, GfFault::OutOfMemory, "a new file");
            GfFile::new(alloc, comment, MAX_BYTES).expect(rt, "the comment fits")
        }
    }
}

/// The parts of a file that come after the longest comment: a rectangle, whose place is 258, and the end. The file has 323 bytes
/// before the padding, which has five.
const AFTER_THE_COMMENT: &[Part] = &[
    (
        258,
        b"\x44\x41\x03\x03\x01\x01\x00\x03\x4a\x03\x45",
        "the rectangle",
    ),
    (269, b"\xf8\x00\x00\x01\x0d", "the postamble"),
    (274, &[0; 16], "the numbers of the font"),
    (
        290,
        b"\x00\x00\x00\x00\x00\x00\x00\x03\x00\x00\x00\x00\x00\x00\x00\x01",
        "the box",
    ),
    (
        306,
        b"\xf6\x41\x05\x00\x00\x00\x00\x00\x00\x01\x02",
        "the locator",
    ),
    (
        317,
        b"\xf9\x00\x00\x01\x0d\x83\xdf\xdf\xdf\xdf\xdf",
        "the end",
    ),
];

fn after_the_comment() -> &'static [Part] {
    AFTER_THE_COMMENT
}

#[test]
fn a_file_with_the_longest_comment_is_begun(rt: HostRuntime) {
    let alloc = rt.alloc();
    let comment = longest_comment(&rt, alloc);
    refuse_growths(alloc);
    let file = GfFile::new(alloc, &comment, MAX_BYTES);
    grow_again(alloc);
    let mut file = begin_in_the_end(&rt, alloc, &comment, file);
    assert_count(&rt, &file, 0);
    ship_rectangle(&rt, alloc, &mut file);
    let file = finish(&rt, file);
    assert_length(&rt, &file, 328);
    assert_part(&rt, &file, 0, b"\xf7\x83\xff", "the preamble");
    assert_part(&rt, &file, 3, &comment, "the comment");
    assert_parts(&rt, &file, after_the_comment());
}
