//! Streams that fail: the name of the fault, and what was written by then. A read or a write that is interrupted is tried again.
use super::assertions::assert_same;
use super::paces::{Held, SETTINGS};
use mf_desk::RunFault;
use mf_testing::{FailsOnce, Failure, FlushFails, Pieces, Sink};
use mf_view::{ProgramFault, Showing, perform};
use mf_view_frame::{Canvas, Style};
use std::alloc::Global;
use std::io::{ErrorKind, Read, Write};
use std::process::Abort;
use std::rt::Files;
use std::sync::Wait;
use std::thread::Threads;

/// A frame of 41 bytes is drawn before this script is read, and another one after it has ended.
const SCRIPT: &[u8] = b"show totalweight a\n\
                        publish\n\
                        addto currentpicture contour (0,0)--(1,0)--(1,1)--(0,1)--cycle\n\
                        show totalweight currentpicture\n";

const TOLD: &[u8] = b"totalweight 0\npublished 0\ntotalweight 1\n";

/// Performs a script, and returns its fault.
fn fault_of<S: Abort + Wait + Threads + Files + Sync, R: Read + Drop, W: Write + Send, T: Write>(
    rt: &S,
    alloc: Global,
    mut reader: R,
    screen: &mut W,
    transcript: &mut T,
) -> Option<ProgramFault> {
    let canvas = Canvas::new(80, 24).expect(rt, "the terminal is large enough");
    let showing = Showing {
        canvas,
        style: Style::Plain,
        folder: None,
    };
    perform(
        rt,
        alloc,
        &mut reader,
        screen,
        transcript,
        &Held::new(),
        showing,
        &SETTINGS,
    )
    .err()
}

/// Asserts the fault, or that there is none, of a script that this reader gives, on a screen with so much room. All lines are told.
fn assert_ends<S: Abort + Wait + Threads + Files + Sync, R: Read + Drop>(
    rt: &S,
    alloc: Global,
    reader: R,
    room: usize,
    fault: Option<ProgramFault>,
) {
    let (mut screen, mut transcript) = (Sink::failing(alloc, room), Vec::new(alloc));
    let found = fault_of(rt, alloc, reader, &mut screen, &mut transcript);
    assert_same(rt, found, fault, "fault");
    assert_same(rt, transcript.as_slice(), TOLD, "told");
}

/// The fault of a run that a writer breaks off after it took so many bytes.
fn write_fault(count: u128) -> Option<ProgramFault> {
    Some(ProgramFault::Run(RunFault::WriteFault(count)))
}

/// The screen has room for all frames, or fails in the first one: a fault of the drawing does not come before one of the script.
#[test]
fn reading_fails(rt: HostRuntime) {
    let fault = ProgramFault::Run(RunFault::ReadFault);
    for room in [1000, 10] {
        let reader = Pieces::failing(SCRIPT);
        assert_ends(&rt, rt.alloc(), reader, room, Some(fault));
    }
}

/// The first read is interrupted, or one within a line, or the one that would report the end.
#[test]
fn an_interrupted_read_is_tried_again(rt: HostRuntime) {
    for count in [0, 22, SCRIPT.len()] {
        let (before, later) = SCRIPT.split_at(count);
        let before = Pieces::failing_once_with(before, ErrorKind::Interrupted);
        let reader = before.chain(Pieces::whole(later));
        assert_ends(&rt, rt.alloc(), reader, 1000, None);
    }
}

/// The screen fails in the first frame, or in the last, which comes after 41 bytes.
#[test]
fn the_screen_fails(rt: HostRuntime) {
    for (room, count) in [(10, 10), (50, 9)] {
        let reader = Pieces::whole(SCRIPT);
        assert_ends(&rt, rt.alloc(), reader, room, write_fault(count));
    }
}

/// Asserts that the script, which comes in two reads, the first of two lines, breaks off with this screen and this transcript, one of
/// which has taken so many bytes.
fn assert_breaks_off<S: Abort + Wait + Threads + Files + Sync, W: Write + Send, T: Write>(
    rt: &S,
    alloc: Global,
    screen: &mut W,
    transcript: &mut T,
    count: u128,
) {
    let (first, rest) = SCRIPT.split_at(27);
    let reader = Pieces::whole(first).chain(Pieces::whole(rest));
    let found = fault_of(rt, alloc, reader, screen, transcript);
    assert_same(rt, found, write_fault(count), "fault");
}

/// This writer is interrupted after so many bytes.
fn interrupted(alloc: Global, room: usize) -> FailsOnce {
    let failure = Failure::Error(ErrorKind::Interrupted);
    FailsOnce::over(Sink::new(alloc), room, failure)
}

/// The screen is interrupted in the first frame, and the transcript in the text of the second line.
#[test]
fn an_interrupted_write_is_tried_again(rt: HostRuntime) {
    let alloc = rt.alloc();
    let (mut screen, mut transcript) = (interrupted(alloc, 10), interrupted(alloc, 20));
    let found = fault_of(
        &rt,
        alloc,
        Pieces::whole(SCRIPT),
        &mut screen,
        &mut transcript,
    );
    assert_same(&rt, found, None, "fault");
    assert_same(&rt, transcript.bytes(), TOLD, "told");
}

/// The screen fails once in the first frame, and would then take more.
#[test]
fn no_frame_comes_after_one_that_was_cut(rt: HostRuntime) {
    let alloc = rt.alloc();
    let (mut screen, mut transcript) = (FailsOnce::new(alloc, 10), Vec::new(alloc));
    assert_breaks_off(&rt, alloc, &mut screen, &mut transcript, 10);
    assert_same(&rt, screen.calls_after(), 0, "calls after the fault");
    assert_same(&rt, transcript.as_slice(), TOLD, "told");
}

/// A flush fails after the first frame, of 41 bytes, or after the last, of 63.
#[test]
fn no_frame_comes_after_a_flush_that_failed(rt: HostRuntime) {
    let alloc = rt.alloc();
    for (good, count) in [(0, 41), (1, 63)] {
        let (mut screen, mut transcript) = (FlushFails::once(alloc, good), Vec::new(alloc));
        assert_breaks_off(&rt, alloc, &mut screen, &mut transcript, count);
        assert_same(&rt, screen.calls_after(), 0, good);
        assert_same(&rt, transcript.as_slice(), TOLD, good);
    }
}

/// The transcript fails once in the text of the second line, and would then take more.
#[test]
fn no_line_comes_after_one_whose_text_was_cut(rt: HostRuntime) {
    let alloc = rt.alloc();
    let (mut screen, mut transcript) = (Sink::new(alloc), FailsOnce::new(alloc, 20));
    assert_breaks_off(&rt, alloc, &mut screen, &mut transcript, 20);
    let told: &[u8] = b"totalweight 0\npublis";
    let found = (transcript.bytes(), transcript.calls_after());
    assert_same(&rt, found, (told, 0), "told");
}

/// The flush before the second read fails.
#[test]
fn no_line_comes_after_a_flush_that_failed(rt: HostRuntime) {
    let alloc = rt.alloc();
    let (mut screen, mut transcript) = (Sink::new(alloc), FlushFails::once(alloc, 1));
    assert_breaks_off(&rt, alloc, &mut screen, &mut transcript, 26);
    let told: &[u8] = b"totalweight 0\npublished 0\n";
    let found = (transcript.bytes(), transcript.calls_after());
    assert_same(&rt, found, (told, 0), "told");
}
