//! Writers that fail while there are viewers, and font files that are too long.

use super::{AMPLE, End, PUBLISHED, PUBLISHED_TEXT, perform_beside};
use crate::tests::assertions::{assert_holds, assert_same};
use mf_desk::{Progress, RunFault, Settings};
use mf_live::NoLook;
use mf_testing::{FailsOnce, FlushFails, Pieces, RECT, Remembers, Sink};
use std::io::{BufWriter, Write};
use std::ops::Range;
use std::process::Abort;
use std::sync::Wait;
use std::thread::Threads;

/// Asserts that publishing the rectangle beside two viewers, into this writer, ends with this fault, or with none.
fn assert_publishes<R: Abort + Wait + Threads + AllocGlobal, W: Write>(
    rt: &R,
    writer: &mut W,
    fault: Option<RunFault>,
    case: usize,
) {
    let mut reader = Pieces::whole(PUBLISHED.as_bytes());
    let result = perform_beside(rt, &mut reader, writer, &AMPLE, 2, 3);
    assert_same(rt, result.err(), fault, case);
}

/// Asserts that the bytes that were taken are the first `count` bytes of the transcript and the lines of the viewers.
fn assert_front(rt: &impl Abort, taken: &[u8], count: usize) {
    assert_same(rt, taken.len(), count, "bytes");
    assert_holds(rt, PUBLISHED_TEXT.as_bytes().starts_with(taken), count);
}

/// Asserts that a run ends where a write fails once after `room` bytes, though it would take the rest if it were tried again, and
/// where a write takes no byte after them.
fn assert_write_fault<R: Abort + Wait + Threads + AllocGlobal>(rt: &R, room: usize) {
    let fault = Some(RunFault::WriteFault(room as u128));
    let mut writer = FailsOnce::new(rt.alloc(), room);
    assert_publishes(rt, &mut writer, fault, room);
    assert_front(rt, writer.bytes(), room);
    assert_same(rt, writer.calls_after(), 0, room);
    let mut writer = Sink::full_after(rt.alloc(), room);
    assert_publishes(rt, &mut writer, fault, room);
    assert_front(rt, writer.bytes(), room);
}

/// Asserts this for each of these numbers of bytes.
fn assert_write_faults<R: Abort + Wait + Threads + AllocGlobal>(rt: &R, rooms: Range<usize>) {
    for room in rooms {
        assert_write_fault(rt, room);
    }
}

/// The text of the line has 12 bytes.
#[test]
fn write_fails_once_in_the_text_of_a_line(rt: HostRuntime) {
    assert_write_faults(&rt, 0..12);
}

/// Each line of a viewer has 34 bytes.
#[test]
fn write_fails_once_in_the_line_of_viewer_0(rt: HostRuntime) {
    assert_write_faults(&rt, 12..46);
}

#[test]
fn write_fails_once_in_the_line_of_viewer_1(rt: HostRuntime) {
    assert_write_faults(&rt, 46..80);
}

#[test]
fn writer_has_just_enough_room(rt: HostRuntime) {
    let mut writer = Sink::failing(rt.alloc(), 80);
    assert_publishes(&rt, &mut writer, None, 80);
    assert_front(&rt, writer.bytes(), 80);
}

/// Asserts that a run ends where a flush fails once after `good` others, when the writer has taken `count` bytes, after `reads`
/// reads.
fn assert_flush_fault<R: Abort + Wait + Threads + AllocGlobal>(
    rt: &R,
    script: &str,
    good: u32,
    count: usize,
    reads: u32,
) {
    let mut reader = Remembers::new(Pieces::whole(script.as_bytes()));
    let mut writer = FlushFails::once(rt.alloc(), good);
    let result = perform_beside(rt, &mut reader, &mut writer, &AMPLE, 2, 3);
    let fault = RunFault::WriteFault(count as u128);
    assert_same(rt, result.err(), Some(fault), good);
    assert_front(rt, writer.bytes(), count);
    assert_same(rt, (writer.calls_after(), reader.reads()), (0, reads), good);
}

#[test]
fn flush_fails_once_before_the_first_read(rt: HostRuntime) {
    assert_flush_fault(&rt, PUBLISHED, 0, 0, 0);
}

#[test]
fn flush_fails_once_before_the_second_read(rt: HostRuntime) {
    assert_flush_fault(&rt, PUBLISHED, 1, 12, 1);
}

/// The last line has no line feed, so its text comes after the second read, which reports the end.
#[test]
fn flush_fails_once_after_the_text_of_an_unended_line(rt: HostRuntime) {
    assert_flush_fault(&rt, PUBLISHED.trim_end(), 2, 12, 2);
}

#[test]
fn flush_fails_once_after_the_lines_of_the_viewers(rt: HostRuntime) {
    assert_flush_fault(&rt, PUBLISHED, 2, 80, 2);
}

/// Asserts that a run into a buffered writer over a sink with room for `room` bytes ends with a fault that counts `count` bytes.
fn assert_buffered<R: Abort + Wait + Threads + AllocGlobal>(rt: &R, room: usize, count: u128) {
    let alloc = rt.alloc();
    let mut writer = BufWriter::new(alloc, Sink::failing(alloc, room)).expect(
        rt,
        "there is room for a buffer",
    );
    assert_publishes(rt, &mut writer, Some(RunFault::WriteFault(count)), room);
    assert_front(rt, writer.get_ref().bytes(), room);
}

/// The buffer is flushed before the second read, which reports the end.
#[test]
fn buffered_text_finds_no_room(rt: HostRuntime) {
    assert_buffered(&rt, 5, 12);
}

/// The buffer is also flushed after the lines of the viewers.
#[test]
fn buffered_lines_find_no_room(rt: HostRuntime) {
    assert_buffered(&rt, 12, 80);
    assert_buffered(&rt, 20, 80);
    assert_buffered(&rt, 79, 80);
}

#[test]
fn everything_buffered_is_handed_on(rt: HostRuntime) {
    let alloc = rt.alloc();
    let mut writer = BufWriter::new(alloc, Sink::failing(alloc, 80)).expect(
        &rt,
        "there is room for a buffer",
    );
    assert_publishes(&rt, &mut writer, None, 80);
    assert_front(&rt, writer.get_ref().bytes(), 80);
}

/// Asserts that a script that ships the rectangle beside two viewers ends in this way where the font file may have `max_bytes`
/// bytes.
fn assert_ships_within<R: Abort + Wait + Threads + AllocGlobal>(
    rt: &R,
    max_bytes: u32,
    fault: Option<RunFault>,
    text: &str,
) {
    let settings = Settings { max_bytes, ..AMPLE };
    let mut reader = Pieces::whole(RECT.as_bytes());
    let mut writer = Sink::new(rt.alloc());
    let result = perform_beside(rt, &mut reader, &mut writer, &settings, 2, 3);
    let end: End<'_> = (fault, text.as_bytes());
    assert_same(rt, (result.err(), writer.bytes()), end, max_bytes);
}

/// What is printed when the rectangle is shipped.
const SHIPPED_TEXT: &str = "[65]\n\
                            viewer 0 revision 1 totalweight 6\n\
                            viewer 1 revision 1 totalweight 6\n";

/// What is printed when that is refused.
const REFUSED_TEXT: &str = "refused FileTooLong\n\
                            viewer 0 revision 1 totalweight 6\n\
                            viewer 1 revision 1 totalweight 6\n";

#[test]
fn character_has_no_room_in_the_font_file(rt: HostRuntime) {
    assert_ships_within(&rt, 3, None, REFUSED_TEXT);
}

/// Where only the end of the file has no room, all lines are printed.
#[test]
fn end_has_no_room_in_the_font_file(rt: HostRuntime) {
    assert_ships_within(&rt, 71, Some(RunFault::FileTooLong), SHIPPED_TEXT);
}

#[test]
fn font_file_has_just_enough_room(rt: HostRuntime) {
    assert_ships_within(&rt, 72, None, SHIPPED_TEXT);
}

/// Asserts that a run that ships the rectangle answers `NoLook`, where a look was refused in a thread, before it meets a fault of
/// this writer, and that its font file would have been too long.
fn assert_answers_no_look<R: Abort + Wait + AllocGlobal, W: Write>(rt: &R, writer: &mut W) {
    let alloc = rt.alloc();
    let settings = Settings {
        max_bytes: 71,
        ..AMPLE
    };
    let mut reader = Pieces::whole(RECT.as_bytes());
    let (mut progress, _) = Progress::new(rt, alloc, &settings, 1).expect(
        rt,
        "there is room for a run",
    );
    progress
        .read_all(rt, alloc, &mut reader, &mut Sink::new(alloc), &mut ())
        .expect(rt, "the script is read to its end");
    let mut ended = progress.finish(rt).expect(rt, "there is room for the end");
    let shown = ended.show(alloc, writer, Err(NoLook));
    assert_same(rt, shown.err(), Some(RunFault::NoLook), "the lines");
    let outcome = ended.conclude(rt, &settings, Vec::new(alloc));
    let fault = Some(RunFault::FileTooLong);
    assert_same(rt, outcome.err(), fault, "the font file");
}

/// The writers fail in their first write, and in their first flush.
#[test]
fn a_look_refused_in_a_thread_comes_before_the_lines(rt: HostRuntime) {
    let mut writer = FailsOnce::new(rt.alloc(), 0);
    assert_answers_no_look(&rt, &mut writer);
    assert_same(&rt, writer.bytes(), b"", "a write");
    let mut writer = FlushFails::once(rt.alloc(), 0);
    assert_answers_no_look(&rt, &mut writer);
    assert_same(&rt, writer.bytes(), b"", "a flush");
}

/// Nothing is read or written where the limit is too small for any file.
#[test]
fn no_font_file_is_short_enough(rt: HostRuntime) {
    let settings = Settings {
        max_bytes: 2,
        ..AMPLE
    };
    let mut reader = Remembers::new(Pieces::whole(RECT.as_bytes()));
    let mut writer = Sink::new(rt.alloc());
    let result = perform_beside(&rt, &mut reader, &mut writer, &settings, 2, 3);
    let end: End<'_> = (Some(RunFault::FileTooLong), b"");
    assert_same(&rt, (result.err(), writer.bytes()), end, "2 bytes");
    assert_same(&rt, reader.reads(), 0, "reads");
}
