//! The font file that `--gf` asks for.

use super::{DONE, End, LINE, STREAM_FAULT, TEXT, assert_ends};
use crate::tests::assertions::{assert_holds, assert_same};
use mf_testing::Pieces;
use std::path::PathBuf;
use std::process::Abort;
use std::rt::Files;
use std::sync::Wait;
use std::test::Fail;
use std::thread::Threads;
use std::{env, fs, process};

/// A script that ships one pixel, its transcript, and its font file.
const PIXEL: &[u8] =
    b"addto a contour (0,0)--(1,0)--(1,1)--(0,1)--cycle\nshipout a code 65 dx 0 width 0\n";

const PIXEL_TEXT: &[u8] = b"[65]\n";

const PIXEL_FILE: &[u8] = b"\xf7\x83\x00\
    \x44\x41\x01\x01\x00\x00\x00\x01\x45\
    \xf8\x00\x00\x00\x0c\
    \x00\x00\x00\x00\x00\x00\x00\x00\x00\x00\x00\x00\x00\x00\x00\x00\
    \x00\x00\x00\x00\x00\x00\x00\x01\x00\x00\x00\x00\x00\x00\x00\x00\
    \xf6\x41\x00\x00\x00\x00\x00\x00\x00\x00\x03\
    \xf9\x00\x00\x00\x0c\x83\xdf\xdf\xdf\xdf\xdf\xdf";

/// The content of a file that a script does not touch.
pub(crate) const KEPT: &[u8] = b"what was there";

/// The path of a file for this test alone.
pub(crate) fn path_of(rt: &HostRuntime, name: &str) -> Result<PathBuf, Fail> {
    let alloc = rt.alloc();
    let own = format!(in alloc; "mfpic_{}_{name}.gf", process::id(rt.process()))?;
    Ok(env::temp_dir(rt)?.join(alloc, own.as_str())?)
}

/// Writes a file with these bytes, or replaces what was there.
pub(crate) fn put<R: Abort + Files>(rt: &R, path: &str, bytes: &[u8]) {
    fs::write(rt, path, bytes).expect(rt, "the file is written");
}

/// Removes a file.
pub(crate) fn remove<R: Abort + Files>(rt: &R, path: &str) {
    fs::remove_file(rt, path).expect(rt, "the file is removed");
}

/// Asserts that the file has these bytes.
pub(crate) fn assert_file<R: Abort + Files + AllocGlobal>(rt: &R, path: &str, bytes: &[u8]) {
    let found = fs::read(rt, path).expect(rt, "the file is read");
    assert_same(rt, found.as_slice(), bytes, "the file");
}

/// Asserts that there is no file.
fn assert_no_file<R: Abort + Files + AllocGlobal>(rt: &R, path: &str) {
    assert_holds(rt, fs::read(rt, path).is_err(), "no file");
}

/// A file that was there is replaced, even if it was longer.
#[test]
fn writes_the_font_file(rt: HostRuntime) -> Result<(), Fail> {
    let path = path_of(&rt, "pixel")?;
    for _ in 0..2 {
        let end: End<'_> = (DONE, PIXEL_TEXT, b"");
        let words = ["mfpic", "--gf", path.as_str()];
        assert_ends(&rt, &words, Pieces::whole(PIXEL), end);
        assert_file(&rt, path.as_str(), PIXEL_FILE);
        put(&rt, path.as_str(), &[b'x'; 200]);
    }
    remove(&rt, path.as_str());
    Ok(())
}

/// The file has what was shipped, also beside viewers.
#[test]
fn writes_the_font_file_beside_viewers(rt: HostRuntime) -> Result<(), Fail> {
    let path = path_of(&rt, "viewed")?;
    let words = ["mfpic", "--viewers", "1", "--gf", path.as_str()];
    let written = b"[65]\nviewer 0 revision 0 totalweight 0\n";
    let end: End<'_> = (DONE, written, b"");
    assert_ends(&rt, &words, Pieces::whole(PIXEL), end);
    assert_file(&rt, path.as_str(), PIXEL_FILE);
    remove(&rt, path.as_str());
    Ok(())
}

/// A script that ships no character, or ends with a fault, does not touch the file.
#[test]
fn leaves_the_font_file(rt: HostRuntime) -> Result<(), Fail> {
    let path = path_of(&rt, "kept")?;
    assert_leaves(&rt, path.as_str());
    assert_no_file(&rt, path.as_str());
    put(&rt, path.as_str(), KEPT);
    assert_leaves(&rt, path.as_str());
    assert_file(&rt, path.as_str(), KEPT);
    remove(&rt, path.as_str());
    Ok(())
}

/// Asserts that scripts without a font file end with a message, after their transcripts and the line of a viewer.
fn assert_leaves<R: Abort + Wait + Threads + Files + AllocGlobal>(rt: &R, path: &str) {
    let nothing: &[u8] = b"mfpic: NoCharacters\n";
    let broken: &[u8] = b"mfpic: ReadFault\n";
    let viewed: &[u8] = b"viewer 0 revision 0 totalweight 0\n";
    let alone = ["mfpic", "--gf", path];
    let beside = ["mfpic", "--gf", path, "--viewers", "1"];
    let end: End<'_> = (STREAM_FAULT, b"", nothing);
    assert_ends(rt, &alone, Pieces::whole(b""), end);
    let end = (STREAM_FAULT, TEXT, nothing);
    assert_ends(rt, &alone, Pieces::whole(LINE), end);
    let end = (STREAM_FAULT, PIXEL_TEXT, broken);
    assert_ends(rt, &alone, Pieces::failing(PIXEL), end);
    let end = (STREAM_FAULT, viewed, nothing);
    assert_ends(rt, &beside, Pieces::whole(b""), end);
}

/// A file that cannot be created, and one that takes no byte. The transcript is written before the fault.
#[test]
fn reports_a_fault_of_the_font_file(rt: HostRuntime) -> Result<(), Fail> {
    let folder = path_of(&rt, "none")?;
    let below = folder.join(rt.alloc(), "pixel.gf")?;
    for path in [below.as_str(), "", "/dev/full"] {
        let end: End<'_> = (STREAM_FAULT, PIXEL_TEXT, b"mfpic: WriteFault\n");
        assert_ends(&rt, &["mfpic", "--gf", path], Pieces::whole(PIXEL), end);
    }
    Ok(())
}
