//! Streams that fail: the exit status, the message, what was written before, and that nothing is read or written after it. Each
//! script has shipped a character, and a font file that was there stays as it was.

use super::font_files::{KEPT, assert_file, path_of, put, remove};
use super::{BAD_WORDS, DONE, End, STREAM_FAULT, USAGE, assert_ends, assert_ends_in, status_of};
use crate::tests::assertions::assert_same;
use mf_testing::{FailsOnce, FlushFails, LineFeeds, Pieces, RECT_FILE, Remembers, Sink};
use std::io::Read;
use std::process::Abort;
use std::rt::Files;
use std::sync::Wait;
use std::test::Fail;
use std::thread::Threads;

/// A script that ships a character, and prints lines before and after that.
const SCRIPT: &[u8] = b"addto currentpicture contour (0,0)--(3,0)--(3,2)--(0,2)--cycle\n\
                        show totalweight currentpicture\n\
                        show currentpicture\n\
                        shipout currentpicture code 65 dx 327680 width 0\n\
                        publish\n";

/// The same script without its last line feed.
const UNENDED: &[u8] = b"addto currentpicture contour (0,0)--(3,0)--(3,2)--(0,2)--cycle\n\
                         show totalweight currentpicture\n\
                         show currentpicture\n\
                         shipout currentpicture code 65 dx 327680 width 0\n\
                         publish";

/// What both scripts print: before the last line, with the last line, and with the lines of two viewers.
const ENDED: &[u8] = b"totalweight 6\n1 0 2 1\n0 0 2 1\n[65]\n";

const TEXTS: &[u8] = b"totalweight 6\n1 0 2 1\n0 0 2 1\n[65]\npublished 1\n";

const BESIDE_TWO: &[u8] = b"totalweight 6\n1 0 2 1\n0 0 2 1\n[65]\npublished 1\n\
                            viewer 0 revision 1 totalweight 6\n\
                            viewer 1 revision 1 totalweight 6\n";

const WRITE_FAULT: &[u8] = b"mfpic: WriteFault\n";

const READ_FAULT: &[u8] = b"mfpic: ReadFault\n";

/// The words that ask for `viewers` viewers and this font file.
fn words_for<'a>(viewers: &'a str, path: &'a str) -> [&'a str; 5] {
    ["mfpic", "--viewers", viewers, "--gf", path]
}

/// Asserts that a run ends where a writer fails once after `room` bytes, though it would take all others after that: these bytes
/// were written, and the writer is not called again.
fn assert_fails_once<R: Abort + Wait + Threads + Files + AllocGlobal>(
    rt: &R,
    words: &[&str],
    texts: &[u8],
    room: usize,
) {
    let alloc = rt.alloc();
    let mut writer = FailsOnce::new(alloc, room);
    let mut errors = Sink::new(alloc);
    let mut reader = Pieces::whole(SCRIPT);
    let status = status_of(rt, words, &mut reader, &mut writer, &mut errors);
    let end: End<'_> = (status, writer.bytes(), errors.bytes());
    let front = texts.get(..room).unwrap_or(b"");
    assert_same(rt, end, (STREAM_FAULT, front, WRITE_FAULT), room);
    assert_same(rt, writer.calls_after(), 0, ("calls after", room));
}

/// Asserts this for a writer that fails instead of each byte of these texts, and that the font file stays. The same script with a
/// writer that takes all bytes replaces the file.
fn assert_fails_anywhere<R: Abort + Wait + Threads + Files + AllocGlobal>(
    rt: &R,
    viewers: &str,
    path: &str,
    texts: &[u8],
) {
    let words = words_for(viewers, path);
    put(rt, path, KEPT);
    for room in 0..texts.len() {
        assert_fails_once(rt, &words, texts, room);
    }
    assert_file(rt, path, KEPT);
    assert_ends(rt, &words, Pieces::whole(SCRIPT), (DONE, texts, b""));
    assert_file(rt, path, RECT_FILE);
    remove(rt, path);
}

/// A writer that fails before a text, or within one.
#[test]
fn nothing_is_written_after_a_fault_of_the_writer(rt: HostRuntime) -> Result<(), Fail> {
    let path = path_of(&rt, "writer")?;
    assert_fails_anywhere(&rt, "0", path.as_str(), TEXTS);
    Ok(())
}

/// A writer that fails before a text or the line of a viewer, or within one.
#[test]
fn nothing_is_written_after_a_fault_beside_viewers(rt: HostRuntime) -> Result<(), Fail> {
    let path = path_of(&rt, "viewed_writer")?;
    assert_fails_anywhere(&rt, "2", path.as_str(), BESIDE_TWO);
    Ok(())
}

/// The number of viewers, a script, the number of flushes before the one that fails, what was written by then, and the number of
/// reads. There is a flush before each read, after the text of a last line that has no line feed, and after the lines of viewers.
const FLUSHES: &[(&str, &[u8], u32, &[u8], u32)] = &[
    ("0", SCRIPT, 0, b"", 0),
    ("0", SCRIPT, 1, TEXTS, 1),
    ("0", UNENDED, 1, ENDED, 1),
    ("0", UNENDED, 2, TEXTS, 2),
    ("2", SCRIPT, 0, b"", 0),
    ("2", SCRIPT, 1, TEXTS, 1),
    ("2", SCRIPT, 2, BESIDE_TWO, 2),
    ("2", UNENDED, 2, TEXTS, 2),
    ("2", UNENDED, 3, BESIDE_TWO, 2),
];

/// Asserts that a run whose writer takes all bytes and fails in one flush reads and writes nothing after that.
fn assert_flush_fails<R: Abort + Wait + Threads + Files + AllocGlobal>(
    rt: &R,
    words: &[&str],
    script: &[u8],
    good: u32,
    texts: &[u8],
    reads: u32,
) {
    let alloc = rt.alloc();
    let mut writer = FlushFails::once(alloc, good);
    let mut errors = Sink::new(alloc);
    let mut reader = Remembers::new(Pieces::whole(script));
    let status = status_of(rt, words, &mut reader, &mut writer, &mut errors);
    let end: End<'_> = (status, writer.bytes(), errors.bytes());
    assert_same(rt, end, (STREAM_FAULT, texts, WRITE_FAULT), (script, good));
    let later = (reader.reads(), writer.calls_after());
    assert_same(rt, later, (reads, 0), (script, good));
}

#[test]
fn faults_of_flushes_are_reported(rt: HostRuntime) -> Result<(), Fail> {
    let path = path_of(&rt, "flush")?;
    put(&rt, path.as_str(), KEPT);
    for (viewers, script, good, texts, reads) in FLUSHES {
        let words = words_for(*viewers, path.as_str());
        assert_flush_fails(&rt, &words, *script, *good, *texts, *reads);
    }
    assert_file(&rt, path.as_str(), KEPT);
    remove(&rt, path.as_str());
    Ok(())
}

/// A writer that takes one byte in each write gets all texts.
#[test]
fn texts_are_written_in_pieces(rt: HostRuntime) {
    let writer = Sink::bytewise(rt.alloc());
    let words = ["mfpic", "--viewers", "2"];
    let end: End<'_> = (DONE, BESIDE_TWO, b"");
    assert_ends_in(&rt, &words, &mut Pieces::whole(SCRIPT), writer, end);
}

/// A reader fails within the last line. The lines before it have been performed, no viewer has a line, and the font file stays.
#[test]
fn a_piece_of_a_line_is_not_performed(rt: HostRuntime) -> Result<(), Fail> {
    let path = path_of(&rt, "reader")?;
    put(&rt, path.as_str(), KEPT);
    for viewers in ["0", "2"] {
        let words = words_for(viewers, path.as_str());
        let end: End<'_> = (STREAM_FAULT, ENDED, READ_FAULT);
        assert_ends(&rt, &words, Pieces::failing(UNENDED), end);
    }
    assert_file(&rt, path.as_str(), KEPT);
    remove(&rt, path.as_str());
    Ok(())
}

/// Asserts that a script of `reads` reads, the first of which gives the lines of `SCRIPT`, ends in this way and leaves this font
/// file.
fn assert_script_of_reads<R: Abort + Wait + Threads + Files + AllocGlobal>(
    rt: &R,
    path: &str,
    reads: u32,
    end: End<'_>,
    file: &[u8],
) {
    let alloc = rt.alloc();
    let left = reads.saturating_sub(2);
    let mut reader = Pieces::whole(SCRIPT).chain(LineFeeds { left });
    let mut writer = Sink::new(alloc);
    let mut errors = Sink::new(alloc);
    let words = ["mfpic", "--gf", path];
    let status = status_of(rt, &words, &mut reader, &mut writer, &mut errors);
    assert_same(rt, (status, writer.bytes(), errors.bytes()), end, reads);
    assert_file(rt, path, file);
}

/// A script may take 1,048,576 reads, including the one that reports its end. With one more the font file stays.
#[test]
fn a_script_of_too_many_reads_writes_no_font_file(rt: HostRuntime) -> Result<(), Fail> {
    let path = path_of(&rt, "reads")?;
    put(&rt, path.as_str(), KEPT);
    let end: End<'_> = (STREAM_FAULT, TEXTS, READ_FAULT);
    assert_script_of_reads(&rt, path.as_str(), 1_048_577, end, KEPT);
    let end = (DONE, TEXTS, b"".as_slice());
    assert_script_of_reads(&rt, path.as_str(), 1_048_576, end, RECT_FILE);
    remove(&rt, path.as_str());
    Ok(())
}

/// Asserts that an error stream that fails once, instead of each byte of this message in turn, has taken the bytes before that
/// and is not called again.
fn assert_breaks_message<R: Abort + Wait + Threads + Files + AllocGlobal>(
    rt: &R,
    words: &[&str],
    mut reader: Pieces<'_>,
    status: u8,
    message: &[u8],
) {
    let alloc = rt.alloc();
    for room in 0..message.len() {
        let mut writer = Sink::new(alloc);
        let mut errors = FailsOnce::new(alloc, room);
        let found = status_of(rt, words, &mut reader, &mut writer, &mut errors);
        let front = message.get(..room).unwrap_or(b"");
        let end = (found, errors.bytes(), errors.calls_after());
        assert_same(rt, end, (status, front, 0), room);
    }
}

/// An error stream that fails once within a message, and would take the rest, is not called again, and the exit status stays.
#[test]
fn messages_break_off(rt: HostRuntime) {
    let read: &[u8] = READ_FAULT;
    assert_breaks_message(&rt, &["mfpic", "x"], Pieces::whole(b""), BAD_WORDS, USAGE);
    assert_breaks_message(&rt, &["mfpic"], Pieces::failing(b""), STREAM_FAULT, read);
}

/// An error stream that takes one byte in each write gets the complete message.
#[test]
fn messages_are_written_in_pieces(rt: HostRuntime) {
    let alloc = rt.alloc();
    let mut errors = Sink::bytewise(alloc);
    let mut writer = Sink::new(alloc);
    let mut reader = Pieces::failing(b"");
    let status = status_of(&rt, &["mfpic"], &mut reader, &mut writer, &mut errors);
    assert_same(
        &rt,
        (status, errors.bytes()),
        (STREAM_FAULT, READ_FAULT),
        "in pieces",
    );
}
