//! Tests of the program: worked scripts, each exit status, and the message that goes with it.

mod assertions;
mod font_files;
mod growths;
mod long_files;
mod streams;
mod words;

use assertions::assert_same;
use mf_cli::{ProgramFault, program, report};
use mf_desk::RunFault;
use mf_testing::{Pieces, Script, Sink, words_of, worked_scripts};
use std::io::{Read, Write};
use std::process::Abort;
use std::rt::Files;
use std::sync::Wait;
use std::test::Fail;
use std::thread::Threads;

/// The exit statuses: of a run that is done, of words that are refused, of faults of streams and files, and where memory, a place
/// or a look is missing.
const DONE: u8 = 0;

const BAD_WORDS: u8 = 2;

const STREAM_FAULT: u8 = 3;

const RESOURCE_FAULT: u8 = 4;

/// A line, and what it prints.
const LINE: &[u8] = b"show totalweight currentpicture\n";

const TEXT: &[u8] = b"totalweight 0\n";

/// The message that says how the program is used.
const USAGE: &[u8] = b"usage: mfpic [--viewers 0..16] [--gf FILE]\n";

/// How the program ends: its exit status, what it has written to standard output, and its message.
type End<'a> = (u8, &'a [u8], &'a [u8]);

/// Runs the program with these words, and returns its exit status.
fn status_of<R: Abort + Wait + Threads + Files + AllocGlobal, I: Read, W: Write, E: Write>(
    rt: &R,
    words: &[&str],
    reader: &mut I,
    writer: &mut W,
    errors: &mut E,
) -> u8 {
    let alloc = rt.alloc();
    let words = words_of(alloc, words).expect(rt, "there is room for the words");
    program(rt, alloc, words, reader, writer, errors)
}

/// Asserts that the program, with these words and this writer, ends in this way.
fn assert_ends_in<R: Abort + Wait + Threads + Files + AllocGlobal>(
    rt: &R,
    words: &[&str],
    reader: &mut Pieces<'_>,
    mut writer: Sink,
    end: End<'_>,
) {
    let mut errors = Sink::new(rt.alloc());
    let status = status_of(rt, words, reader, &mut writer, &mut errors);
    let found = (status, writer.bytes(), errors.bytes());
    assert_same(rt, found, end, words);
}

/// Asserts that the program, with these words, ends in this way.
fn assert_ends<R: Abort + Wait + Threads + Files + AllocGlobal>(
    rt: &R,
    words: &[&str],
    mut reader: Pieces<'_>,
    end: End<'_>,
) {
    assert_ends_in(rt, words, &mut reader, Sink::new(rt.alloc()), end);
}

/// Performs the script beside `viewers` viewers, asserts that there is no fault, and returns what is written.
fn output_beside<R: Abort + Wait + Threads + Files + AllocGlobal>(
    rt: &R,
    viewers: &str,
    script: &str,
) -> Sink {
    let alloc = rt.alloc();
    let mut writer = Sink::new(alloc);
    let mut errors = Sink::new(alloc);
    let words = ["mfpic", "--viewers", viewers];
    let mut reader = Pieces::whole(script.as_bytes());
    let status = status_of(rt, &words, &mut reader, &mut writer, &mut errors);
    let end = (status, errors.bytes());
    assert_same(rt, end, (DONE, b"".as_slice()), (viewers, script));
    writer
}

/// Asserts that the script prints its transcript when there are no viewers.
fn assert_performs<R: Abort + Wait + Threads + Files + AllocGlobal>(rt: &R, script: &Script) {
    let alloc = rt.alloc();
    let mut writer = Sink::new(alloc);
    let mut errors = Sink::new(alloc);
    let mut reader = Pieces::whole(script.0.as_bytes());
    let status = status_of(rt, &["mfpic"], &mut reader, &mut writer, &mut errors);
    let found = (status, writer.bytes(), errors.bytes());
    let end: End<'_> = (DONE, script.1.as_bytes(), b"");
    assert_same(rt, found, end, *script);
}

#[test]
fn performs_scripts(rt: HostRuntime) {
    for script in worked_scripts().iter().copied().flatten() {
        assert_performs(&rt, script);
    }
}

/// Asserts that the script, performed beside `viewers` viewers, writes this text.
fn assert_writes<R: Abort + Wait + Threads + Files + AllocGlobal>(
    rt: &R,
    viewers: &str,
    script: &str,
    text: &str,
) {
    let written = output_beside(rt, viewers, script);
    assert_same(rt, written.bytes(), text.as_bytes(), (viewers, script));
}

const PUBLISHED: &str = "addto currentpicture contour (0,0)--(3,0)--(3,2)--(0,2)--cycle\npublish\n";

const UNPUBLISHED: &str = "addto currentpicture contour (0,0)--(3,0)--(3,2)--(0,2)--cycle\n";

/// A number of viewers, a script, and what is written.
const BESIDE_VIEWERS: &[(&str, &str, &str)] = &[
    (
        "2",
        PUBLISHED,
        "published 1\n\
         viewer 0 revision 1 totalweight 6\n\
         viewer 1 revision 1 totalweight 6\n",
    ),
    (
        "2",
        UNPUBLISHED,
        "viewer 0 revision 1 totalweight 6\n\
         viewer 1 revision 1 totalweight 6\n",
    ),
    (
        "2",
        "",
        "viewer 0 revision 0 totalweight 0\n\
         viewer 1 revision 0 totalweight 0\n",
    ),
    ("0", PUBLISHED, "published 1\n"),
    ("0", UNPUBLISHED, ""),
];

/// Viewers see the last picture, published or not.
#[test]
fn writes_the_lines_of_viewers(rt: HostRuntime) {
    for (viewers, script, text) in BESIDE_VIEWERS {
        assert_writes(&rt, *viewers, *script, *text);
    }
}

/// Asserts that 16 viewers of a script see at its end what belongs to it, whenever they looked before that.
fn assert_viewers_see<R: Abort + Wait + Threads + Files + AllocGlobal>(
    rt: &R,
    script: &Script,
) -> Result<(), Fail> {
    let alloc = rt.alloc();
    let (script, transcript, (revision, total)) = *script;
    let mut expected = String::from_str(alloc, transcript)?;
    for viewer in 0..16 {
        let line = format!(in alloc; "viewer {viewer} revision {revision} totalweight {total}\n")?;
        expected.push_str(line.as_str())?;
    }
    for _ in 0..2 {
        assert_writes(rt, "16", script, expected.as_str());
    }
    Ok(())
}

#[test]
fn performs_scripts_beside_viewers(rt: HostRuntime) -> Result<(), Fail> {
    for script in worked_scripts().iter().copied().flatten() {
        assert_viewers_see(&rt, script)?;
    }
    Ok(())
}

/// Asserts that the words are refused before anything of the script is read.
fn assert_refused_unread<R: Abort + Wait + Threads + Files + AllocGlobal>(rt: &R, words: &[&str]) {
    let alloc = rt.alloc();
    let mut reader = Pieces::whole(LINE);
    let end: End<'_> = (BAD_WORDS, b"", USAGE);
    assert_ends_in(rt, words, &mut reader, Sink::new(alloc), end);
    let mut unread = Vec::new(alloc);
    reader
        .read_to_end(&mut unread)
        .expect(rt, "all of the script is left");
    assert_same(rt, unread.as_slice(), LINE, words);
}

#[test]
fn refuses_words(rt: HostRuntime) {
    assert_refused_unread(&rt, &["mfpic", "script"]);
    assert_refused_unread(&rt, &["mfpic", "--gf"]);
    assert_refused_unread(&rt, &["mfpic", "--help"]);
    assert_refused_unread(&rt, &["mfpic", "--gf", "a", "--gf", "b"]);
    assert_refused_unread(&rt, &["mfpic", "--viewers", "17"]);
}

#[test]
fn reports_a_read_fault(rt: HostRuntime) {
    let end: End<'_> = (STREAM_FAULT, TEXT, b"mfpic: ReadFault\n");
    assert_ends(&rt, &["mfpic"], Pieces::failing(LINE), end);
}

#[test]
fn reports_a_write_fault(rt: HostRuntime) {
    let alloc = rt.alloc();
    let message: &[u8] = b"mfpic: WriteFault\n";
    for (writer, taken) in [
        (Sink::full(alloc), b"".as_slice()),
        (Sink::failing(alloc, 5), b"total".as_slice()),
    ] {
        let end = (STREAM_FAULT, taken, message);
        assert_ends_in(&rt, &["mfpic"], &mut Pieces::whole(LINE), writer, end);
    }
}

/// Asserts that a fault of a run has this exit status and this message.
fn assert_reports<R: Abort + AllocGlobal>(rt: &R, fault: RunFault, status: u8, message: &[u8]) {
    let mut errors = Sink::new(rt.alloc());
    let reported = report(&mut errors, ProgramFault::Run(fault));
    assert_same(rt, (reported, errors.bytes()), (status, message), fault);
}

#[test]
fn reports_other_faults(rt: HostRuntime) {
    assert_reports(
        &rt,
        RunFault::OutOfMemory,
        RESOURCE_FAULT,
        b"mfpic: OutOfMemory\n",
    );
    assert_reports(&rt, RunFault::NoPlace, RESOURCE_FAULT, b"mfpic: NoPlace\n");
    assert_reports(&rt, RunFault::NoLook, RESOURCE_FAULT, b"mfpic: NoLook\n");
    assert_reports(
        &rt,
        RunFault::FileTooLong,
        STREAM_FAULT,
        b"mfpic: FileTooLong\n",
    );
}

/// Asserts that the program, with these words, exits with this status when its messages go to this sink, and that the sink takes
/// the bytes `told`.
fn assert_keeps<R: Abort + Wait + Threads + Files + AllocGlobal>(
    rt: &R,
    words: &[&str],
    mut reader: Pieces<'_>,
    mut errors: Sink,
    status: u8,
    told: &[u8],
) {
    let mut writer = Sink::new(rt.alloc());
    let found = status_of(rt, words, &mut reader, &mut writer, &mut errors);
    assert_same(rt, (found, errors.bytes()), (status, told), words);
}

/// A message that cannot be written does not change the exit status.
#[test]
fn keeps_the_status(rt: HostRuntime) {
    let alloc = rt.alloc();
    assert_keeps(
        &rt,
        &["mfpic", "script"],
        Pieces::whole(LINE),
        Sink::failing(alloc, 3),
        BAD_WORDS,
        b"usa",
    );
    assert_keeps(
        &rt,
        &["mfpic"],
        Pieces::failing(b""),
        Sink::full(alloc),
        STREAM_FAULT,
        b"",
    );
    let fault = ProgramFault::Run(RunFault::OutOfMemory);
    let status = report(&mut Sink::failing(alloc, 0), fault);
    assert_same(&rt, status, RESOURCE_FAULT, "messages are not taken");
}
