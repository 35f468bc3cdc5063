//! A read or a write that was interrupted is tried again. A read that reports the end, and one or a write that fails in another way, is
//! not, whatever a second try would do.

use super::{AMPLE, assert_ends};
use crate::tests::assertions::assert_same;
use mf_desk::{RunFault, run};
use mf_testing::{FailsOnce, Failure, FlushFails, Pieces, Sink};
use std::io::{self, ErrorKind, Read, Write};
use std::process::Abort;
use std::sync::Wait;

/// A line, and what it prints.
const LINE: &str = "show totalweight currentpicture\n";

const TEXT: &str = "totalweight 0\n";

/// A reader that gives the bytes of `before`, then fails once with an error of this kind, or else reports the end, and would give those
/// of `later` after that.
#[derive(Drop)]
struct Breaks<'a> {
    before: Pieces<'a>,
    later: Pieces<'a>,
    kind: Option<ErrorKind>,
    is_over: bool,
}

impl Read for Breaks<'_> {
    fn read(&mut self, buf: &mut [u8]) -> io::Result<usize> {
        if self.is_over {
            return self.later.read(buf);
        }
        let count = self.before.read(buf)?;
        if count > 0 {
            return Ok(count);
        }
        self.is_over = true;
        match self.kind {
            Some(kind) => Err(io::Error::from(kind)),
            None => Ok(0),
        }
    }
}

/// A reader that breaks off between these two texts.
fn break_between<'a>(before: &'a str, later: &'a str, kind: Option<ErrorKind>) -> Breaks<'a> {
    Breaks {
        before: Pieces::whole(before.as_bytes()),
        later: Pieces::whole(later.as_bytes()),
        kind,
        is_over: false,
    }
}

/// Asserts that a run whose reader is interrupted between these two texts goes on, and prints this text.
fn assert_goes_on<R: Abort + Wait + AllocGlobal>(rt: &R, before: &str, later: &str, text: &str) {
    let mut reader = break_between(before, later, Some(ErrorKind::Interrupted));
    assert_ends(rt, &mut reader, &AMPLE, (None, text.as_bytes()), before);
}

#[test]
fn interrupted_read_is_tried_again(rt: HostRuntime) {
    assert_goes_on(&rt, "", LINE, TEXT);
    assert_goes_on(&rt, "show totalweight", " currentpicture\n", TEXT);
    assert_goes_on(&rt, LINE, LINE, "totalweight 0\ntotalweight 0\n");
    assert_goes_on(&rt, LINE, "", TEXT);
}

/// A reader that is always interrupted.
#[derive(Drop)]
struct Interrupted;

impl Read for Interrupted {
    fn read(&mut self, _buf: &mut [u8]) -> io::Result<usize> {
        Err(io::Error::from(ErrorKind::Interrupted))
    }
}

/// Each interrupted read counts against the limit of reads.
#[test]
fn reads_that_are_always_interrupted_end(rt: HostRuntime) {
    let end = (Some(RunFault::ReadFault), b"".as_slice());
    assert_ends(&rt, &mut Interrupted, &AMPLE, end, "no byte");
}

/// Asserts that a run whose reader fails once between these two texts ends there, and prints this text.
fn assert_breaks<R: Abort + Wait + AllocGlobal>(rt: &R, before: &str, later: &str, text: &str) {
    let mut reader = break_between(before, later, Some(ErrorKind::Other));
    let end = (Some(RunFault::ReadFault), text.as_bytes());
    assert_ends(rt, &mut reader, &AMPLE, end, before);
}

#[test]
fn failed_read_is_a_fault(rt: HostRuntime) {
    assert_breaks(&rt, "", LINE, "");
    assert_breaks(&rt, "show totalweight", " currentpicture\n", "");
    assert_breaks(&rt, LINE, LINE, TEXT);
}

/// A rectangle is filled, and the line after it would print its total weight.
#[test]
fn nothing_is_written_where_the_second_read_fails(rt: HostRuntime) {
    let rectangle = "addto currentpicture contour (0,0)--(3,0)--(3,2)--(0,2)--cycle\n";
    assert_breaks(&rt, rectangle, LINE, "");
}

/// Asserts that a run whose reader reports the end after this text, and would give a line after that, ends there without a fault,
/// and prints this text.
fn assert_stops_at_the_end<R: Abort + Wait + AllocGlobal>(rt: &R, before: &str, text: &str) {
    let mut reader = break_between(before, LINE, None);
    assert_ends(rt, &mut reader, &AMPLE, (None, text.as_bytes()), before);
}

/// A terminal may give more after it has reported an end.
#[test]
fn nothing_is_read_after_the_end(rt: HostRuntime) {
    assert_stops_at_the_end(&rt, "", "");
    assert_stops_at_the_end(&rt, "show totalweight currentpicture", TEXT);
    assert_stops_at_the_end(&rt, LINE, TEXT);
}

/// Asserts that a run into a writer that is interrupted after so many bytes writes all of its text.
fn assert_writes_all<R: Abort + Wait + AllocGlobal>(rt: &R, room: usize) {
    let alloc = rt.alloc();
    let failure = Failure::Error(ErrorKind::Interrupted);
    let mut writer = FailsOnce::over(Sink::new(alloc), room, failure);
    let mut reader = Pieces::whole(LINE.as_bytes());
    let result = run(rt, alloc, &mut reader, &mut writer, &AMPLE);
    assert_same(
        rt,
        (result.err(), writer.bytes()),
        (None, TEXT.as_bytes()),
        room,
    );
}

#[test]
fn interrupted_write_is_tried_again(rt: HostRuntime) {
    for room in [0, 1, 5, 13] {
        assert_writes_all(&rt, room);
    }
}

#[test]
fn failed_write_is_a_fault(rt: HostRuntime) {
    let alloc = rt.alloc();
    let mut writer = FailsOnce::new(alloc, 0);
    assert_write_fault(&rt, &mut writer);
    assert_same(
        &rt,
        (writer.bytes(), writer.calls_after()),
        (b"".as_slice(), 0),
        "a write",
    );
}

#[test]
fn interrupted_flush_is_a_fault(rt: HostRuntime) {
    let mut writer = FlushFails::once_with(rt.alloc(), 0, ErrorKind::Interrupted);
    assert_write_fault(&rt, &mut writer);
    assert_same(
        &rt,
        (writer.bytes(), writer.calls_after()),
        (b"".as_slice(), 0),
        "a flush",
    );
}

/// Asserts that a run into this writer ends with `WriteFault` before any byte.
fn assert_write_fault<R: Abort + Wait + AllocGlobal, W: Write>(rt: &R, writer: &mut W) {
    let mut reader = Pieces::whole(LINE.as_bytes());
    let result = run(rt, rt.alloc(), &mut reader, writer, &AMPLE);
    assert_same(rt, result.err(), Some(RunFault::WriteFault(0)), "a writer");
}
