//! How sessions start and end, and lines that allocate nothing.

use super::{
    AMPLE, SCRIPT, STATE, State, assert_ended_in, assert_goes_on_from, assert_state, only_viewer,
    session_after,
};
use crate::tests::assertions::assert_same;
use crate::tests::sessions::{finish, perform};
use mf_base::OutOfMemory;
use mf_desk::{EndFault, Session};
use mf_gf::{GfFault, GfFile};
use mf_live::{Desk, Ended, Viewer};
use mf_testing::{grow_again, refuse_growths};
use std::alloc::Global;
use std::process::Abort;
use std::sync::Wait;

/// The limits of a session that does not reach them.
const LIMITS: (u32, u32) = (AMPLE.max_ops, AMPLE.max_bytes);

/// The state of a session in which nothing has happened.
const BLANK: State = State {
    current: "blank\n",
    a: "blank\n",
    b: "blank\n",
    shown: (0, 0),
    accepted: (0, 0),
    file: Err(GfFault::NoCharacters),
};

/// Opens a session with one place while allocations are refused.
fn open_while_refused<R: Wait>(rt: &R, alloc: Global) -> Result<(Session, Desk), GfFault> {
    refuse_growths(alloc);
    let made = Session::new(rt, alloc, 1, LIMITS.0, LIMITS.1);
    grow_again(alloc);
    made
}

/// A session that is opened in this way, or with ample memory where that was refused.
fn open_in_the_end<R: Abort + Wait>(rt: &R, alloc: Global) -> (Session, Desk) {
    match open_while_refused(rt, alloc) {
        Ok(made) => made,
        Err(fault) => {
            assert_same(rt, fault, GfFault::OutOfMemory, "a session");
            let made = Session::new(rt, alloc, 1, LIMITS.0, LIMITS.1);
            made.expect(rt, "there is room for a session")
        }
    }
}

/// Asserts that nothing has happened in a session, and that it then performs the script.
fn assert_starts<R: Abort + Wait>(rt: &R, alloc: Global, (session, desk): (Session, Desk)) {
    let (mut session, mut desk) = (session, desk);
    let viewer = only_viewer(rt, &mut desk);
    let viewer = assert_state(rt, alloc, (&mut session, viewer), &BLANK);
    for line in SCRIPT.lines() {
        perform(rt, alloc, &mut session, line);
    }
    let viewer = assert_state(rt, alloc, (&mut session, viewer), &STATE);
    assert_goes_on_from(rt, alloc, (session, viewer), &STATE);
}

#[test]
fn session_starts(rt: HostRuntime) {
    let made = open_in_the_end(&rt, rt.alloc());
    assert_starts(&rt, rt.alloc(), made);
}

/// Ends a script while allocations are refused. Hands the session back where that fails.
fn finish_while_refused<R: Abort + Wait>(
    rt: &R,
    alloc: Global,
    session: Session,
) -> Result<(Ended, GfFile), Session> {
    refuse_growths(alloc);
    let answer = session.finish(rt);
    grow_again(alloc);
    match answer {
        Ok(made) => Ok(made),
        Err(EndFault::Kept(session)) => Err(session),
        Err(EndFault::Halfway(closing, _)) => {
            closing.discard(rt);
            panic!(rt; "no call answers that the end is not published")
        }
    }
}

/// Asserts that a session that is handed back is in the same state as before, and returns it.
fn assert_as_before<R: Abort + Wait>(
    rt: &R,
    alloc: Global,
    (session, viewer): (Session, Viewer),
    state: &State,
) -> (Session, Viewer) {
    let mut session = session;
    let viewer = assert_state(rt, alloc, (&mut session, viewer), state);
    (session, viewer)
}

/// Asserts that a session ends after the script and these lines. Where that is refused, nothing has changed, and it ends with
/// ample memory.
fn assert_finishes<R: Abort + Wait>(rt: &R, alloc: Global, before: &str, state: &State) {
    let (session, viewer) = session_after(rt, alloc, LIMITS, before);
    match finish_while_refused(rt, alloc, session) {
        Ok(made) => assert_ended_in(rt, made, viewer, state),
        Err(session) => {
            let (session, viewer) = assert_as_before(rt, alloc, (session, viewer), state);
            assert_ended_in(rt, finish(rt, session), viewer, state);
        }
    }
}

/// One operation is pending.
#[test]
fn script_ends(rt: HostRuntime) {
    assert_finishes(&rt, rt.alloc(), "", &STATE);
}

/// Everything but the end is published.
const PUBLISHED: State = State {
    shown: (2, 10),
    ..STATE
};

#[test]
fn published_script_ends(rt: HostRuntime) {
    assert_finishes(&rt, rt.alloc(), "publish", &PUBLISHED);
}

/// Asserts that a session whose end is refused goes on: it publishes, and ends later.
fn assert_goes_on<R: Abort + Wait>(rt: &R, alloc: Global) {
    let (session, viewer) = session_after(rt, alloc, LIMITS, "");
    match finish_while_refused(rt, alloc, session) {
        Ok(made) => assert_ended_in(rt, made, viewer, &STATE),
        Err(session) => {
            let back = assert_as_before(rt, alloc, (session, viewer), &STATE);
            assert_goes_on_from(rt, alloc, back, &STATE);
        }
    }
}

#[test]
fn session_goes_on_after_a_refused_end(rt: HostRuntime) {
    assert_goes_on(&rt, rt.alloc());
}

/// Lines that allocate nothing: lines with no command, lines that set the turning check, and clears that are accepted.
const NOT_ALLOCATING: &[&str] = &[
    "",
    "; % note",
    "turningcheck := 0",
    "a := nullpicture",
    "currentpicture := nullpicture",
    "turningcheck := 1",
];

/// The state after these lines.
const CLEARED: State = State {
    current: "blank\n",
    a: "blank\n",
    accepted: (3, 0),
    ..STATE
};

/// Performs these lines, and returns how many of them succeed and print nothing.
fn count_without_text<R: Wait>(
    rt: &R,
    alloc: Global,
    session: &mut Session,
    lines: &[&str],
) -> usize {
    let mut count: usize = 0;
    for line in lines {
        if let Ok(text) = session.command(rt, alloc, line.as_bytes())
            && text.is_empty()
        {
            count = count.saturating_add(1);
        }
    }
    count
}

/// Asserts that these lines succeed where allocations are refused. A line before them allocates, so that there is an allocation
/// to refuse.
fn assert_allocate_nothing<R: Abort + Wait>(rt: &R, alloc: Global) {
    let (mut session, viewer) = session_after(rt, alloc, LIMITS, "");
    refuse_growths(alloc);
    let shown = session.command(rt, alloc, b"show a");
    let count = count_without_text(rt, alloc, &mut session, NOT_ALLOCATING);
    grow_again(alloc);
    assert_same(rt, count, NOT_ALLOCATING.len(), "lines that take no memory");
    match shown {
        Ok(text) => assert_same(rt, text.as_slice(), STATE.a.as_bytes(), "show a"),
        Err(fault) => assert_same(rt, fault, OutOfMemory, "show a"),
    }
    let viewer = assert_state(rt, alloc, (&mut session, viewer), &CLEARED);
    assert_goes_on_from(rt, alloc, (session, viewer), &CLEARED);
}

#[test]
fn lines_that_allocate_nothing_are_performed(rt: HostRuntime) {
    assert_allocate_nothing(&rt, rt.alloc());
}
