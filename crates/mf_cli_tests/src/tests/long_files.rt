//! A font file that would be too long, although each of its characters is accepted. The test takes a second or two when it is
//! built as the program is. As `rt try` builds it, it is not done after six minutes.

use super::font_files::{KEPT, assert_file, path_of, put, remove};
use super::{End, STREAM_FAULT, assert_ends};
use mf_testing::Pieces;
use std::alloc::{AllocError, Global};
use std::test::Fail;

/// How far the comb is shifted so that its copy continues it, which is the number of pixels of both together, and the line that
/// ships them.
const DOUBLINGS: [(u32, &str); 11] = [
    (2, ""),
    (4, ""),
    (8, ""),
    (16, ""),
    (32, "shipout a code 1 dx 0 width 0\n"),
    (64, ""),
    (128, "shipout a code 2 dx 0 width 0\n"),
    (256, "shipout a code 3 dx 0 width 0\n"),
    (512, "shipout a code 4 dx 0 width 0\n"),
    (1024, "shipout a code 5 dx 0 width 0\n"),
    (2048, "a := a yscaled 4095\nshipout a code 6 dx 0 width 0\n"),
];

/// What the script prints.
const TEXT: &[u8] = b"[1]\n[2]\n[3]\n[4]\n[5]\n[6]\n";

/// A script that ships combs: rows of single pixels with single gaps between them.
///
/// A row of p pixels takes 2p bytes: one that starts it, p that paint a pixel, and p - 1 that skip a gap. Besides their rows,
/// the combs of at most 128 pixels, whose boxes end at column 255 or before, take 6 + 1 bytes, and the longer ones 25 + 1. So the
/// characters take 71, 263, 538, 1,050, 2,074 and 26 + 4095 * 4096 = 16,773,146 bytes. With the three bytes of the preamble
/// these are 16,777,145 bytes, 71 fewer than the file may have. post takes 37 more, the six locators 66 and the ending
/// 6 + 6, so the file would have 16,777,260 bytes: 44 too many.
fn script_of_combs(alloc: Global) -> Result<String, AllocError> {
    let line = "addto a contour (0,0)--(1,0)--(1,1)--(0,1)--cycle\n";
    let mut script = String::from_str(alloc, line)?;
    for (pixels, shipping) in DOUBLINGS {
        let doubling = format!(in alloc;
            "b := nullpicture\naddto b also a\nb := b shifted ({pixels},0)\naddto a also b\n"
        )?;
        script.push_str(doubling.as_str())?;
        script.push_str(shipping)?;
    }
    Ok(script)
}

/// The fault comes after everything that is printed, even if no font file was asked for, and a file that was there stays.
#[test]
fn reports_a_file_that_is_too_long(rt: HostRuntime) -> Result<(), Fail> {
    let script = script_of_combs(rt.alloc())?;
    let path = path_of(&rt, "long")?;
    put(&rt, path.as_str(), KEPT);
    let end: End<'_> = (STREAM_FAULT, TEXT, b"mfpic: FileTooLong\n");
    assert_ends(&rt, &["mfpic"], Pieces::whole(script.as_bytes()), end);
    let asked = ["mfpic", "--gf", path.as_str()];
    assert_ends(&rt, &asked, Pieces::whole(script.as_bytes()), end);
    assert_file(&rt, path.as_str(), KEPT);
    remove(&rt, path.as_str());
    Ok(())
}
