//! Files that are written to writers.

use super::{MAX_BYTES, finish, gf_file, part, picture, ship, with_rectangle};
use crate::tests::assertions::assert_same;
use mf_gf::{GfBytes, WriteFault};
use mf_testing::{FailsOnce, Failure, Sink};
use std::alloc::Global;
use std::io::ErrorKind;
use std::process::Abort;

/// Asserts that writing the file into memory gives its bytes.
fn assert_written_to_memory(rt: &impl Abort, alloc: Global, file: &GfBytes) {
    let mut memory = Vec::new(alloc);
    assert_same(rt, file.write_to(&mut memory), Ok(()), "memory");
    assert_same(rt, memory.as_slice(), file.bytes(), "memory");
}

/// Asserts that this writer takes exactly `room` bytes of the file.
fn assert_cut(rt: &impl Abort, file: &GfBytes, writer: Sink, room: usize) {
    let mut writer = writer;
    let fault = WriteFault(room as u128);
    assert_same(
        rt,
        file.write_to(&mut writer),
        Err(fault),
        ("room for", room),
    );
    assert_same(
        rt,
        writer.bytes(),
        part(rt, file.bytes(), 0, room),
        ("room for", room),
    );
}

/// Asserts that writers which take at most `at_once` bytes in one write, and then fail with an error or take no byte, take
/// exactly what they have room for.
fn assert_cuts(rt: &impl Abort, alloc: Global, file: &GfBytes, at_once: usize) {
    for room in [0, 10, 71] {
        assert_cut(
            rt,
            file,
            Sink::failing(alloc, room).in_pieces(at_once),
            room,
        );
    }
    for room in [0, 10] {
        assert_cut(
            rt,
            file,
            Sink::full_after(alloc, room).in_pieces(at_once),
            room,
        );
    }
}

/// The file of the rectangle, 72 bytes.
fn rectangle_bytes(rt: &impl Abort, alloc: Global) -> GfBytes {
    finish(rt, with_rectangle(rt, alloc, MAX_BYTES))
}

#[test]
fn files_are_written(rt: HostRuntime) {
    let alloc = rt.alloc();
    let file = rectangle_bytes(&rt, alloc);
    assert_written_to_memory(&rt, alloc, &file);
    assert_cuts(&rt, alloc, &file, 1);
    assert_cuts(&rt, alloc, &file, 7);
    assert_cuts(&rt, alloc, &file, 1000);
}

/// Asserts that a writer which takes at most `at_once` bytes in one write, and has room for the file, takes all of it.
fn assert_whole(rt: &impl Abort, alloc: Global, file: &GfBytes, at_once: usize) {
    let mut writer = Sink::failing(alloc, file.bytes().len()).in_pieces(at_once);
    assert_same(rt, file.write_to(&mut writer), Ok(()), ("at once", at_once));
    assert_same(rt, writer.bytes(), file.bytes(), ("at once", at_once));
}

#[test]
fn files_are_written_in_parts(rt: HostRuntime) {
    let alloc = rt.alloc();
    let mut file = gf_file(&rt, alloc);
    ship(
        &rt,
        &mut file,
        65,
        (327_680, 0),
        &picture(&rt, alloc, &[(1, 0, 3)], 1),
    );
    let file = finish(&rt, file);
    assert_whole(&rt, alloc, &file, 1);
    assert_whole(&rt, alloc, &file, 7);
}

/// Asserts that a writer that fails after `before` writes, each of at most `size` bytes, has taken the bytes of these writes and
/// is not asked again.
fn assert_asked_no_more(
    rt: &impl Abort,
    alloc: Global,
    file: &GfBytes,
    (before, size): (usize, usize),
    failure: Failure,
) {
    let sent = before.saturating_mul(size);
    let sink = Sink::new(alloc).in_pieces(size);
    let mut writer = FailsOnce::over(sink, sent, failure);
    let written = file.write_to(&mut writer);
    let fault = WriteFault(sent as u128);
    assert_same(rt, written, Err(fault), (failure, "after", sent));
    assert_same(rt, writer.bytes(), part(rt, file.bytes(), 0, sent), failure);
    assert_same(rt, writer.calls_after(), 0, "calls after the failure");
}

#[test]
fn an_error_is_not_tried_again(rt: HostRuntime) {
    let alloc = rt.alloc();
    let file = rectangle_bytes(&rt, alloc);
    let failure = Failure::Error(ErrorKind::Other);
    assert_asked_no_more(&rt, alloc, &file, (0, 72), failure);
}

/// Asserts that all of the file is written where a write of this size after so many bytes is interrupted once.
fn assert_tried_again(rt: &impl Abort, alloc: Global, file: &GfBytes, at: (usize, usize)) {
    let (sent, size) = at;
    let sink = Sink::new(alloc).in_pieces(size);
    let mut writer = FailsOnce::over(sink, sent, Failure::Error(ErrorKind::Interrupted));
    assert_same(rt, file.write_to(&mut writer), Ok(()), at);
    assert_same(rt, writer.bytes(), file.bytes(), at);
}

/// The standard library tries such a write again, too.
#[test]
fn a_write_that_was_interrupted_is_tried_again(rt: HostRuntime) {
    let alloc = rt.alloc();
    let file = rectangle_bytes(&rt, alloc);
    assert_tried_again(&rt, alloc, &file, (0, 72));
    assert_tried_again(&rt, alloc, &file, (1, 71));
    assert_tried_again(&rt, alloc, &file, (71, 1));
}

#[test]
fn a_write_that_took_no_byte_is_not_tried_again(rt: HostRuntime) {
    let alloc = rt.alloc();
    let file = rectangle_bytes(&rt, alloc);
    assert_asked_no_more(&rt, alloc, &file, (0, 72), Failure::NoByte);
}

#[test]
fn an_error_after_parts_is_not_tried_again(rt: HostRuntime) {
    let alloc = rt.alloc();
    let file = rectangle_bytes(&rt, alloc);
    let failure = Failure::Error(ErrorKind::Other);
    assert_asked_no_more(&rt, alloc, &file, (1, 14), failure);
    assert_asked_no_more(&rt, alloc, &file, (3, 7), failure);
    assert_asked_no_more(&rt, alloc, &file, (71, 1), failure);
}

#[test]
fn a_write_of_no_byte_after_parts_is_not_tried_again(rt: HostRuntime) {
    let alloc = rt.alloc();
    let file = rectangle_bytes(&rt, alloc);
    assert_asked_no_more(&rt, alloc, &file, (1, 14), Failure::NoByte);
    assert_asked_no_more(&rt, alloc, &file, (3, 7), Failure::NoByte);
    assert_asked_no_more(&rt, alloc, &file, (71, 1), Failure::NoByte);
}
