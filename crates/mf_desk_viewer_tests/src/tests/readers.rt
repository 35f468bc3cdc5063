//! Readers that fail while there are viewers, and how much is read.

use super::{AMPLE, BOTH_SEE_NOTHING, BOTH_SEE_SIX, End, FILLED, PUBLISHED, perform_beside};
use crate::tests::assertions::{assert_holds, assert_same};
use mf_desk::RunFault;
use mf_testing::{LineFeeds, Pieces, Remembers, Sink};
use std::io::Read;
use std::process::Abort;
use std::sync::Wait;
use std::thread::Threads;

/// Asserts that the reader's script ends in this way beside two viewers, after `reads` reads.
fn assert_reads<R: Abort + Wait + Threads + AllocGlobal, I: Read + Drop>(
    rt: &R,
    reader: I,
    reads: u32,
    end: End<'_>,
) {
    let mut reader = Remembers::new(reader);
    let mut writer = Sink::new(rt.alloc());
    let result = perform_beside(rt, &mut reader, &mut writer, &AMPLE, 2, 3);
    assert_same(rt, (result.err(), writer.bytes()), end, reads);
    assert_same(rt, reader.reads(), reads, "reads");
    assert_holds(rt, reader.greatest() <= 65_536, reader.greatest());
}

/// Asserts that a reader that gives this script at once and then fails is not asked again, and that the lines that end with line
/// feeds print this text. No viewer has a line.
fn assert_read_fault<R: Abort + Wait + Threads + AllocGlobal>(rt: &R, script: &str, text: &str) {
    let reads = if script.is_empty() { 1 } else { 2 };
    let end = (Some(RunFault::ReadFault), text.as_bytes());
    assert_reads(rt, Pieces::failing(script.as_bytes()), reads, end);
}

#[test]
fn first_read_fails(rt: HostRuntime) {
    assert_read_fault(&rt, "", "");
}

#[test]
fn reader_fails_within_the_first_line(rt: HostRuntime) {
    assert_read_fault(&rt, "show totalweight a", "");
}

#[test]
fn reader_fails_within_the_second_line(rt: HostRuntime) {
    assert_read_fault(&rt, "show totalweight a\nshow a", "totalweight 0\n");
}

#[test]
fn reader_fails_after_an_unpublished_line(rt: HostRuntime) {
    assert_read_fault(&rt, FILLED, "");
}

#[test]
fn reader_fails_after_a_publish(rt: HostRuntime) {
    assert_read_fault(&rt, PUBLISHED, "published 1\n");
}

/// The last read that is allowed reports the end.
#[test]
fn end_comes_with_read_1_048_576(rt: HostRuntime) {
    let reader = LineFeeds { left: 1_048_575 };
    assert_reads(&rt, reader, 1_048_576, (None, BOTH_SEE_NOTHING.as_bytes()));
}

#[test]
fn end_does_not_come_with_read_1_048_576(rt: HostRuntime) {
    let reader = LineFeeds { left: 1_048_576 };
    assert_reads(&rt, reader, 1_048_576, (Some(RunFault::ReadFault), b""));
}

/// A rectangle after 200,000 bytes of comments, which take more than three reads of 65,536 bytes.
#[test]
fn no_read_asks_for_more_than_65_536_bytes(rt: HostRuntime) {
    let alloc = rt.alloc();
    let comment = "%23456789\n"
        .repeat(alloc, 20_000)
        .expect(&rt, "there is room for comments");
    let script = format!(in alloc; "{comment}{FILLED}").expect(&rt, "there is room for a script");
    let reader = Pieces::whole(script.as_bytes());
    assert_reads(&rt, reader, 5, (None, BOTH_SEE_SIX.as_bytes()));
}
