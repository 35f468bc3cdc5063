//! Messages: the text and the status of each fault, which of two faults is told, and a stream of messages that fails.
use super::assertions::assert_same;
use mf_cli_options::{BAD_WORDS, DONE, RESOURCE_FAULT, STREAM_FAULT, refuse_words};
use mf_desk::RunFault;
use mf_testing::{FailsOnce, Pieces, Remembers, Sink, words_of};
use mf_view::ProgramFault;
use mf_view::program::{TOO_SMALL, program, report};
use std::alloc::Global;
use std::io::Write;
use std::process::Abort;
use std::rt::Files;
use std::sync::Wait;
use std::thread::Threads;
use std::time::Clock;

const USAGE: &[u8] = b"usage: mfview [OPTION..] < SCRIPT (mfview --help lists the options)\n";

/// Each fault of a run, and with it its message and its status.
const RUN_FAULTS: [(RunFault, &str, u8); 6] = [
    (
        RunFault::OutOfMemory,
        "mfview: OutOfMemory\n",
        RESOURCE_FAULT,
    ),
    (RunFault::NoPlace, "mfview: NoPlace\n", RESOURCE_FAULT),
    (RunFault::NoLook, "mfview: NoLook\n", RESOURCE_FAULT),
    (RunFault::FileTooLong, "mfview: FileTooLong\n", STREAM_FAULT),
    (RunFault::ReadFault, "mfview: ReadFault\n", STREAM_FAULT),
    (
        RunFault::WriteFault(7),
        "mfview: WriteFault\n",
        STREAM_FAULT,
    ),
];

/// The same of the other faults.
const FAULTS: [(ProgramFault, &str, u8); 4] = [
    (ProgramFault::TooSmall, "mfview: TooSmall\n", TOO_SMALL),
    (
        ProgramFault::ImageTooLarge(70),
        "mfview: ImageTooLarge 70\n",
        STREAM_FAULT,
    ),
    (
        ProgramFault::PlateFault(1_000_000),
        "mfview: PlateFault 1000000\n",
        STREAM_FAULT,
    ),
    (
        ProgramFault::NoCharacters,
        "mfview: NoCharacters\n",
        STREAM_FAULT,
    ),
];

#[test]
fn faults_are_reported(rt: HostRuntime) {
    for (fault, message, status) in RUN_FAULTS {
        assert_reported(&rt, rt.alloc(), fault.into(), message, status);
    }
    for (fault, message, status) in FAULTS {
        assert_reported(&rt, rt.alloc(), fault, message, status);
    }
}

fn assert_reported(rt: &impl Abort, alloc: Global, fault: ProgramFault, message: &str, status: u8) {
    let mut errors = Vec::new(alloc);
    assert_same(rt, report(&mut errors, fault), status, message);
    assert_same(rt, errors.as_slice(), message.as_bytes(), message);
}

/// Asserts that a stream of messages that fails once, instead of each byte of this message in turn, has taken the bytes before that
/// and is not called again, and that the status stays. One that takes a byte in each write gets all of the message.
fn assert_breaks_off(
    rt: &impl Abort,
    alloc: Global,
    fault: ProgramFault,
    message: &str,
    status: u8,
) {
    for room in 0..message.len() {
        let mut errors = FailsOnce::new(alloc, room);
        let found = report(&mut errors, fault);
        let front = message.as_bytes().get(..room).unwrap_or(b"");
        assert_same(rt, (found, errors.bytes()), (status, front), message);
        assert_same(rt, errors.calls_after(), 0, "calls after the fault");
    }
    let mut errors = Sink::bytewise(alloc);
    assert_same(rt, report(&mut errors, fault), status, message);
    assert_same(rt, errors.bytes(), message.as_bytes(), "in pieces");
}

#[test]
fn messages_break_off(rt: HostRuntime) {
    for (fault, message, status) in RUN_FAULTS {
        assert_breaks_off(&rt, rt.alloc(), fault.into(), message, status);
    }
    for (fault, message, status) in FAULTS {
        assert_breaks_off(&rt, rt.alloc(), fault, message, status);
    }
}

#[test]
fn the_usage_breaks_off(rt: HostRuntime) {
    for room in 0..USAGE.len() {
        let mut errors = FailsOnce::new(rt.alloc(), room);
        let found = refuse_words(&mut errors, mf_view_words::USAGE);
        let front = USAGE.get(..room).unwrap_or(b"");
        let end = (found, errors.bytes(), errors.calls_after());
        assert_same(&rt, end, (BAD_WORDS, front, 0), room);
    }
}

/// A script of three lines that print, and what they print.
const SCRIPT: &[u8] = b"show totalweight a\npublish\nshow totalweight b\n";

const TOLD: &[u8] = b"totalweight 0\npublished 0\ntotalweight 0\n";

/// Runs the program with these words, and returns its exit status.
fn status_of<S: Abort + Wait + Threads + Files + Clock + Sync, W: Write + Send, E: Write>(
    rt: &S,
    alloc: Global,
    texts: &[&str],
    mut reader: Pieces<'_>,
    screen: &mut W,
    errors: &mut E,
) -> u8 {
    let words = words_of(alloc, texts).expect(rt, "there is room for the words");
    program(rt, alloc, words, &mut reader, screen, errors)
}

/// Reading fails after the last line, and the screen has failed in the first frame. All lines are performed, and the fault of the
/// script is the one that is told.
#[test]
fn the_fault_of_the_script_is_told_before_that_of_the_screen(rt: HostRuntime) {
    let alloc = rt.alloc();
    let (mut screen, mut errors) = (Sink::failing(alloc, 10), Sink::new(alloc));
    let status = status_of(
        &rt,
        alloc,
        &["mfview", "--frames"],
        Pieces::failing(SCRIPT),
        &mut screen,
        &mut errors,
    );
    let told: &[u8] = b"totalweight 0\npublished 0\ntotalweight 0\nmfview: ReadFault\n";
    assert_same(&rt, (status, errors.bytes()), (STREAM_FAULT, told), "told");
    assert_same(&rt, screen.bytes(), b"revision 0".as_slice(), "drawn");
}

/// A room for bytes of the transcript, and what is told where the stream of messages fails once after that.
const CUT: [(usize, &[u8]); 4] = [
    (0, b"mfview: WriteFault\n"),
    (5, b"totalmfview: WriteFault\n"),
    (14, b"totalweight 0\nmfview: WriteFault\n"),
    (
        39,
        b"totalweight 0\npublished 0\ntotalweight 0mfview: WriteFault\n",
    ),
];

/// No line is performed after one whose text was cut, and the message follows what was taken.
#[test]
fn a_transcript_that_is_cut_is_told(rt: HostRuntime) {
    let alloc = rt.alloc();
    for (room, told) in CUT {
        let (mut screen, mut errors) = (Sink::new(alloc), FailsOnce::new(alloc, room));
        let status = status_of(
            &rt,
            alloc,
            &["mfview"],
            Pieces::whole(SCRIPT),
            &mut screen,
            &mut errors,
        );
        assert_same(&rt, (status, errors.bytes()), (STREAM_FAULT, told), room);
    }
}

/// Asserts that the program, with these words and a script of which reading fails, exits with this status where its stream of messages
/// has so much room, and that the stream takes the bytes `told`.
fn assert_keeps<S: Abort + Wait + Threads + Files + Clock + Sync>(
    rt: &S,
    alloc: Global,
    texts: &[&str],
    room: usize,
    status: u8,
    told: &[u8],
) {
    let (mut screen, mut errors) = (Sink::new(alloc), Sink::failing(alloc, room));
    let reader = Pieces::failing(SCRIPT);
    let found = status_of(rt, alloc, texts, reader, &mut screen, &mut errors);
    assert_same(rt, (found, errors.bytes()), (status, told), texts);
}

/// A message that cannot be written does not change the exit status.
#[test]
fn keeps_the_status(rt: HostRuntime) {
    let alloc = rt.alloc();
    assert_keeps(&rt, alloc, &["mfview", "x"], 3, BAD_WORDS, b"usa");
    let small = ["mfview", "--columns", "49"];
    assert_keeps(&rt, alloc, &small, 0, TOO_SMALL, b"");
    assert_keeps(&rt, alloc, &["mfview"], 40, STREAM_FAULT, TOLD);
}

/// Words with which no script is performed, and the status.
const WITHOUT_A_SCRIPT: [(&[&str], u8); 3] = [
    (&["mfview", "--help"], DONE),
    (&["mfview", "--version"], DONE),
    (&["mfview", "--columns", "49"], TOO_SMALL),
];

/// Nothing is read where no script is performed.
#[test]
fn nothing_is_read_without_a_script(rt: HostRuntime) {
    let alloc = rt.alloc();
    for (texts, status) in WITHOUT_A_SCRIPT {
        let (mut screen, mut errors) = (Sink::new(alloc), Sink::new(alloc));
        let mut reader = Remembers::new(Pieces::whole(SCRIPT));
        let words = words_of(alloc, texts).expect(&rt, "there is room for the words");
        let found = program(&rt, alloc, words, &mut reader, &mut screen, &mut errors);
        assert_same(&rt, (found, reader.reads()), (status, 0), texts);
    }
}
