//! Writers that fail once, in a write or in a flush. The run ends there, and does not call the writer again.

use super::AMPLE;
use super::faults::{TWICE, TWICE_UNENDED, TWO_SIXES};
use crate::tests::assertions::assert_same;
use mf_desk::{RunFault, run};
use mf_testing::{FailsOnce, FlushFails, Pieces};
use std::process::Abort;
use std::sync::Wait;

/// Asserts that the writer took the first `count` bytes that the script prints, and that it was not called after its failure.
fn assert_writer_took(rt: &impl Abort, count: usize, taken: &[u8], calls_after: u32) {
    assert_same(rt, Some(taken), TWO_SIXES.get(..count), count);
    assert_same(rt, calls_after, 0, ("calls after", count));
}

/// Asserts that running the script into a writer that fails once after `room` bytes ends with this fault, or with none, and that
/// the writer takes `count` bytes.
fn assert_fails_once<R: Abort + Wait + AllocGlobal>(
    rt: &R,
    room: usize,
    fault: Option<RunFault>,
    count: usize,
) {
    let alloc = rt.alloc();
    let mut writer = FailsOnce::new(alloc, room);
    let result = run(rt, alloc, &mut Pieces::whole(TWICE), &mut writer, &AMPLE);
    assert_same(rt, result.err(), fault, room);
    assert_writer_took(rt, count, writer.bytes(), writer.calls_after());
}

/// A write that fails, before a text or in the middle of one, is the last.
#[test]
fn nothing_is_written_after_a_failure(rt: HostRuntime) {
    for room in 0..TWO_SIXES.len() {
        let fault = RunFault::WriteFault(room as u128);
        assert_fails_once(&rt, room, Some(fault), room);
    }
}

/// Nothing is written after the last text, so an error that would come there does no harm.
#[test]
fn nothing_is_written_after_the_last_text(rt: HostRuntime) {
    let count = TWO_SIXES.len();
    assert_fails_once(&rt, count, None, count);
}

/// Asserts that a run from this reader into this writer ends where a flush fails, after `count` bytes were written.
fn assert_flush_fails<R: Abort + Wait + AllocGlobal>(
    rt: &R,
    mut reader: Pieces<'_>,
    mut writer: FlushFails,
    count: usize,
) {
    let result = run(rt, rt.alloc(), &mut reader, &mut writer, &AMPLE);
    let fault = RunFault::WriteFault(count as u128);
    assert_same(rt, result.err(), Some(fault), "a flush");
    assert_writer_took(rt, count, writer.bytes(), writer.calls_after());
}

/// Asserts this where one flush fails after `good` others, and where all flushes after these fail.
fn assert_flushes<R: Abort + Wait + AllocGlobal>(rt: &R, script: &[u8], good: u32, count: usize) {
    let alloc = rt.alloc();
    let (once, for_ever) = (
        FlushFails::once(alloc, good),
        FlushFails::for_ever(alloc, good),
    );
    assert_flush_fails(rt, Pieces::whole(script), once, count);
    assert_flush_fails(rt, Pieces::whole(script), for_ever, count);
}

/// The writer is flushed before the read that gives the script, before the one that reports its end, and after the text of a last
/// line that has no line feed.
#[test]
fn failed_flush_is_a_fault(rt: HostRuntime) {
    assert_flushes(&rt, TWICE, 0, 0);
    assert_flushes(&rt, TWICE, 1, 28);
    assert_flushes(&rt, TWICE_UNENDED, 0, 0);
    assert_flushes(&rt, TWICE_UNENDED, 1, 14);
    assert_flushes(&rt, TWICE_UNENDED, 2, 28);
}

/// The number of bytes that are written once `read` bytes were read: the first line prints nothing, and the others 14 bytes each.
fn bytes_after(read: usize) -> usize {
    let mut ended: usize = 0;
    for byte in TWICE.iter().take(read) {
        if *byte == b'\n' {
            ended = ended.saturating_add(1);
        }
    }
    ended.saturating_sub(1).saturating_mul(14)
}

/// The writer is flushed before each read, so by then it has the texts of all lines that have ended.
#[test]
fn each_read_comes_after_a_flush(rt: HostRuntime) {
    for read in 0..=TWICE.len() {
        let writer = FlushFails::once(rt.alloc(), read as u32);
        let reader = Pieces::bytewise(TWICE);
        assert_flush_fails(&rt, reader, writer, bytes_after(read));
    }
}
