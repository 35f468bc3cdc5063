//! Runs of the program while allocations are refused, including those that start threads. Its streams do not allocate.

use crate::tests::assertions::{assert_holds, assert_same};
use crate::tests::font_files::{KEPT, assert_file, path_of, put, remove};
use crate::tests::{BAD_WORDS, DONE, End, RESOURCE_FAULT, USAGE, assert_ends};
use mf_cli::program;
use mf_testing::{
    Pieces, RECT_FILE, Remembers, Sink, count_of_texts, grow_again, refuse_growths, words_of,
};
use std::process::Abort;
use std::rt::Files;
use std::sync::Wait;
use std::test::Fail;
use std::thread::Threads;

/// A script whose lines allocate for pictures, texts and a character. The last line also allocates for its bytes, because it has
/// no line feed.
const SCRIPT: &[u8] = b"addto currentpicture contour (0,0)--(3,0)--(3,2)--(0,2)--cycle\n\
                        addto a also currentpicture\n\
                        a := a shifted (0,5)\n\
                        show a\n\
                        proof currentpicture\n\
                        shipout currentpicture code 65 dx 327680 width 0\n\
                        publish\n\
                        cull currentpicture keeping (1,1) withweight 2\n\
                        show totalweight currentpicture";

/// The texts of the lines that print something, and the lines of two viewers.
const TEXTS: &[&str] = &[
    "6 0 2 1\n5 0 2 1\n",
    "111\n111\n",
    "[65]\n",
    "published 1\n",
    "totalweight 12\n",
    "viewer 0 revision 2 totalweight 12\n",
    "viewer 1 revision 2 totalweight 12\n",
];

/// What the script writes without viewers, and beside two viewers.
const ALONE: &str = "6 0 2 1\n5 0 2 1\n111\n111\n[65]\npublished 1\ntotalweight 12\n";

const BESIDE_TWO: &str = "6 0 2 1\n5 0 2 1\n111\n111\n[65]\npublished 1\ntotalweight 12\n\
                          viewer 0 revision 2 totalweight 12\n\
                          viewer 1 revision 2 totalweight 12\n";

/// What a run left: its exit status, the number of its reads, what it wrote, and its message.
#[derive(Drop)]
struct Left {
    status: u8,
    reads: u32,
    writer: Sink,
    errors: Sink,
}

impl Left {
    /// The exit status, what was written, and the message.
    fn end(&self) -> End<'_> {
        (self.status, self.writer.bytes(), self.errors.bytes())
    }
}

/// What the script leaves with these words. Allocations are refused once the list of words is made.
fn run_while_refused<R: Abort + Wait + Threads + Files + AllocGlobal>(
    rt: &R,
    texts: &[&str],
) -> Left {
    let alloc = rt.alloc();
    let words = words_of(alloc, texts).expect(rt, "there is room for the words");
    let mut reader = Remembers::new(Pieces::whole(SCRIPT));
    let mut writer = Sink::with_capacity(alloc, 1_000).expect(rt, "there is room for the texts");
    let mut errors = Sink::with_capacity(alloc, 1_000).expect(rt, "there is room for a message");
    refuse_growths(alloc);
    let status = program(rt, alloc, words, &mut reader, &mut writer, &mut errors);
    grow_again(alloc);
    Left {
        status,
        reads: reader.reads(),
        writer,
        errors,
    }
}

/// Asserts that the run ended with `OutOfMemory`, and that it wrote the complete texts of the first lines.
fn assert_out_of_memory(rt: &impl Abort, left: &Left) {
    let written = left.writer.bytes();
    let end: End<'_> = (RESOURCE_FAULT, written, b"mfpic: OutOfMemory\n");
    assert_same(rt, left.end(), end, "an allocation failed");
    assert_holds(rt, count_of_texts(TEXTS, written).is_some(), "whole texts");
}

/// Asserts that a viewer had no place or no thread, and that nothing was read or written.
fn assert_has_no_place(rt: &impl Abort, left: &Left) {
    let end: End<'_> = (RESOURCE_FAULT, b"", b"mfpic: NoPlace\n");
    assert_same(rt, left.end(), end, "a viewer had no place");
    assert_same(rt, left.reads, 0, "reads");
}

/// Without viewers, the run is done with all texts, or ends with `OutOfMemory`.
#[test]
fn a_script_is_performed(rt: HostRuntime) {
    let words = ["mfpic"];
    let left = run_while_refused(&rt, &words);
    let end: End<'_> = (DONE, ALONE.as_bytes(), b"");
    if left.status == DONE {
        assert_same(&rt, left.end(), end, "the run is done");
    } else {
        assert_out_of_memory(&rt, &left);
    }
    assert_ends(&rt, &words, Pieces::whole(SCRIPT), end);
}

/// Beside two viewers, the run is done with all texts, or ends with `OutOfMemory` or `NoPlace`. No look is refused, since a look
/// does not allocate.
#[test]
fn a_script_is_performed_beside_viewers(rt: HostRuntime) {
    let words = ["mfpic", "--viewers", "2"];
    let left = run_while_refused(&rt, &words);
    let end: End<'_> = (DONE, BESIDE_TWO.as_bytes(), b"");
    if left.status == DONE {
        assert_same(&rt, left.end(), end, "the run is done");
    } else if left.errors.bytes() == b"mfpic: NoPlace\n".as_slice() {
        assert_has_no_place(&rt, &left);
    } else {
        assert_out_of_memory(&rt, &left);
    }
    assert_ends(&rt, &words, Pieces::whole(SCRIPT), end);
}

/// A font file is replaced if the run is done, and stays as it was if the run ends with `OutOfMemory`.
#[test]
fn a_font_file_is_written(rt: HostRuntime) -> Result<(), Fail> {
    let path = path_of(&rt, "failed")?;
    let words = ["mfpic", "--gf", path.as_str()];
    put(&rt, path.as_str(), KEPT);
    let left = run_while_refused(&rt, &words);
    let end: End<'_> = (DONE, ALONE.as_bytes(), b"");
    if left.status == DONE {
        assert_same(&rt, left.end(), end, "the run is done");
        assert_file(&rt, path.as_str(), RECT_FILE);
    } else {
        assert_out_of_memory(&rt, &left);
        assert_file(&rt, path.as_str(), KEPT);
    }
    assert_ends(&rt, &words, Pieces::whole(SCRIPT), end);
    assert_file(&rt, path.as_str(), RECT_FILE);
    remove(&rt, path.as_str());
    Ok(())
}

/// Words that are refused, or that cannot be read because an allocation fails: nothing is read or written.
#[test]
fn words_are_refused(rt: HostRuntime) {
    let words = ["mfpic", "--viewers", "17"];
    let left = run_while_refused(&rt, &words);
    let end: End<'_> = (BAD_WORDS, b"", USAGE);
    if left.status == BAD_WORDS {
        assert_same(&rt, left.end(), end, "the words are refused");
    } else {
        let failed: End<'_> = (RESOURCE_FAULT, b"", b"mfpic: OutOfMemory\n");
        assert_same(&rt, left.end(), failed, "an allocation failed");
    }
    assert_same(&rt, left.reads, 0, "reads");
    assert_ends(&rt, &words, Pieces::whole(SCRIPT), end);
}
