//! Calls of sessions that are made again after an allocation failed. A test that runs by itself has ample memory;
//! `tests/refused_allocations.py` refuses each allocation of these tests in turn.

use super::AMPLE;
use crate::tests::assertions::{assert_holds, assert_same};
use mf_base::OutOfMemory;
use mf_desk::{EndFault, Session};
use mf_gf::{GfBytes, GfFault, GfFile};
use mf_live::{Closing, Ended};
use mf_testing::{RECT, RECT_FILE, Script, worked_scripts};
use std::alloc::Global;
use std::process::Abort;
use std::sync::Wait;

/// How often a call is made. Twice is enough, since at most one allocation of a test is refused.
const TRIES: u32 = 2;

/// Opens a session.
fn open_in_tries<R: Abort + Wait>(rt: &R, alloc: Global) -> Session {
    for _ in 0..TRIES {
        match Session::new(rt, alloc, 1, AMPLE.max_ops, AMPLE.max_bytes) {
            Ok((session, _)) => return session,
            Err(fault) => assert_same(rt, fault, GfFault::OutOfMemory, "a session"),
        }
    }
    panic!(rt; "no session is opened")
}

/// Performs a line, and returns what it prints.
fn perform_in_tries<R: Abort + Wait>(
    rt: &R,
    alloc: Global,
    session: &mut Session,
    line: &str,
) -> Vec<u8> {
    for _ in 0..TRIES {
        match session.command(rt, alloc, line.as_bytes()) {
            Ok(text) => return text,
            Err(fault) => assert_same(rt, fault, OutOfMemory, line),
        }
    }
    panic!(rt; "the line is not performed")
}

/// Ends the script of a session.
fn finish_in_tries<R: Abort + Wait>(rt: &R, session: Session) -> (Ended, GfFile) {
    let mut session = session;
    for _ in 0..TRIES {
        match session.finish(rt) {
            Ok(ended) => return ended,
            Err(EndFault::Kept(back)) => session = back,
            Err(EndFault::Halfway(closing, file)) => return (
                publish_end_in_tries(rt, closing),
                file,
            ),
        }
    }
    session.discard(rt);
    panic!(rt; "the script is not ended")
}

/// Publishes the end of a picture.
fn publish_end_in_tries<R: Abort + Wait>(rt: &R, closing: Closing) -> Ended {
    let mut closing = closing;
    for _ in 0..TRIES {
        match closing.publish(rt) {
            Ok(ended) => return ended,
            Err(back) => closing = back,
        }
    }
    closing.discard(rt);
    panic!(rt; "the end is not published")
}

/// Finishes a font file.
fn file_bytes_in_tries(rt: &impl Abort, file: GfFile) -> GfBytes {
    let mut file = file;
    for _ in 0..TRIES {
        match file.finish(AMPLE.font) {
            Ok(bytes) => return bytes,
            Err((back, GfFault::OutOfMemory)) => file = back,
            Err(_) => panic!(rt; "the font file is refused"),
        }
    }
    panic!(rt; "the font file is not finished")
}

/// Asserts that the lines of a script print its transcript.
fn assert_performs_in_tries<R: Abort + Wait>(rt: &R, alloc: Global, script: &Script) {
    let (script, transcript, _) = *script;
    let mut session = open_in_tries(rt, alloc);
    let mut rest = transcript.as_bytes();
    for line in script.lines() {
        let text = perform_in_tries(rt, alloc, &mut session, line);
        let more = rest.strip_prefix(text.as_slice());
        assert_holds(rt, more.is_some(), (script, line));
        rest = more.unwrap_or(b"");
    }
    session.discard(rt);
    assert_holds(rt, rest.is_empty(), script);
}

/// Asserts that a script ends with this font file, and that the notice of its end has this revision.
fn assert_ships_in_tries<R: Abort + Wait>(
    rt: &R,
    alloc: Global,
    script: &str,
    revision: u32,
    bytes: &[u8],
) {
    let mut session = open_in_tries(rt, alloc);
    for line in script.lines() {
        perform_in_tries(rt, alloc, &mut session, line);
    }
    let (mut ended, file) = finish_in_tries(rt, session);
    assert_same(rt, ended.notice().revision(), revision, script);
    ended.discard(rt);
    assert_same(rt, file_bytes_in_tries(rt, file).bytes(), bytes, script);
}

#[test]
fn perform_lines(rt: HostRuntime) {
    for script in worked_scripts().iter().copied().flatten() {
        assert_performs_in_tries(&rt, rt.alloc(), script);
    }
}

/// What is shipped is in the font file that `finish` returns, and the notice tells of everything that was accepted.
#[test]
fn end_a_script(rt: HostRuntime) {
    assert_ships_in_tries(&rt, rt.alloc(), RECT, 1, RECT_FILE);
}
