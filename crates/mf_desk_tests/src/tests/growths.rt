//! Sessions and runs while allocations are refused. A call that fails changes nothing that can be seen, and the same call with
//! ample memory does what it would have done at first.
ghost use Rattle.mf_text.specs.Registers.{IsName};

mod changes;
mod ends;
mod prints;
mod refusals;
mod runs;

use super::AMPLE;
use super::session_ends::assert_shows;
use super::sessions::{finish, perform};
use crate::tests::assertions::{assert_holds, assert_same};
use mf_base::OutOfMemory;
use mf_desk::Session;
use mf_gf::{GfFault, GfFile};
use mf_live::{Desk, Ended, Viewer};
use mf_rows::Picture;
use mf_testing::{grow_again, refuse_growths};
use mf_text::Name;
use std::alloc::Global;
use std::process::Abort;
use std::sync::Wait;

/// Everything that can be seen of a session.
#[derive(Clone, Copy)]
struct State {
    /// The run texts of `currentpicture`, `a` and `b`; the other registers are blank.
    current: &'static str,
    a: &'static str,
    b: &'static str,
    /// The number of operations that its viewer is shown, and the total weight of their picture.
    shown: (u32, i64),
    /// The same once everything that was accepted is published.
    accepted: (u32, i64),
    /// The font file, once finished, or why there is none.
    file: Result<&'static [u8], GfFault>,
}

/// A script with two accepted operations, one of which is published. Register `a` has one row, which is shipped.
const SCRIPT: &str = "addto currentpicture contour (0,0)--(3,0)--(3,2)--(0,2)--cycle\n\
                      publish\n\
                      addto a contour (1,0)--(3,0)--(3,1)--(1,1)--cycle withweight 2\n\
                      addto currentpicture also a\n\
                      shipout a code 7 dx 0 width 0\n";

/// What is seen after that script.
const STATE: State = State {
    current: "1 0 2 1\n0 0 0 1\n0 1 2 3\n",
    a: "0 1 2 2\n",
    b: "blank\n",
    shown: (1, 6),
    accepted: (2, 10),
    file: Ok(
        b"\xf7\x83\x00\
          \x44\x07\x02\x03\x00\x00\
          \x00\x02\x45\
          \xf8\x00\x00\x00\x0c\
          \x00\x00\x00\x00\x00\x00\x00\x00\x00\x00\x00\x00\x00\x00\x00\x00\
          \x00\x00\x00\x01\x00\x00\x00\x03\x00\x00\x00\x00\x00\x00\x00\x00\
          \xf6\x07\x00\x00\x00\x00\x00\x00\x00\x00\x03\
          \xf9\x00\x00\x00\x0c\x83\xdf\xdf\xdf\xdf\xdf\xdf",
    ),
};

/// A line that is performed while allocations are refused.
struct Trial {
    /// The limits of its session, and the lines that the session performs after `SCRIPT` and before this one.
    max_ops: u32,
    max_bytes: u32,
    before: &'static str,
    line: &'static str,
    text: &'static str,
    old: State,
    new: State,
}

/// A line with no command, which changes nothing.
const TRIAL: Trial = Trial {
    max_ops: AMPLE.max_ops,
    max_bytes: AMPLE.max_bytes,
    before: "",
    line: "",
    text: "",
    old: STATE,
    new: STATE,
};

/// A session that has performed the script and then these lines, and its viewer.
fn session_after<R: Abort + Wait>(
    rt: &R,
    alloc: Global,
    (max_ops, max_bytes): (u32, u32),
    before: &str,
) -> (Session, Viewer) {
    let made = Session::new(rt, alloc, 1, max_ops, max_bytes);
    let (mut session, mut desk) = made.expect(rt, "there is room for a session");
    for line in SCRIPT.lines() {
        perform(rt, alloc, &mut session, line);
    }
    for line in before.lines() {
        perform(rt, alloc, &mut session, line);
    }
    (session, only_viewer(rt, &mut desk))
}

/// The only viewer of a desk with one place.
fn only_viewer(rt: &impl Abort, desk: &mut Desk) -> Viewer {
    let viewer = desk.viewer().expect(rt, "a place is left");
    assert_holds(rt, desk.viewer().is_err(), "one place");
    viewer
}

/// The run text of a picture, made from its runs.
fn run_text(rt: &impl Abort, alloc: Global, picture: &Picture) -> Vec<u8> {
    let mut text = Vec::new(alloc);
    for run in picture.runs() {
        let last = i64::from(run.x)
            .saturating_add(i64::from(run.len))
            .saturating_sub(1);
        let line = format!(in alloc; "{} {} {} {}\n", run.y, run.x, last, run.weight);
        let line = line.expect(rt, "there is room for a run");
        text.extend_from_slice(line.as_bytes())
            .expect(rt, "there is room for the text");
    }
    if text.is_empty() {
        text.extend_from_slice(b"blank\n")
            .expect(rt, "there is room for the text");
    }
    text
}

/// Asserts that a picture of the session has this run text, both made from its runs and printed by the line that shows it.
fn assert_picture<R: Abort + Wait>(
    rt: &R,
    alloc: Global,
    session: &mut Session,
    name: Name,
    line: &str,
    text: &str,
)
    requires { IsName name }
{
    let runs = run_text(rt, alloc, session.picture(&name));
    assert_same(rt, runs.as_slice(), text.as_bytes(), (line, "runs"));
    let shown = perform(rt, alloc, session, line);
    assert_same(rt, shown.as_slice(), text.as_bytes(), line);
}

/// Asserts that the registers after `b` are blank.
fn assert_others_blank(rt: &impl Abort, session: &Session) {
    for letter in 2..26 {
        let first = session.picture(&Name::Register(letter)).run(0);
        assert_same(rt, first, None, ("register", letter));
    }
}

/// Asserts that the session and its viewer show this state. Returns the viewer.
fn assert_state<R: Abort + Wait>(
    rt: &R,
    alloc: Global,
    (session, viewer): (&mut Session, Viewer),
    state: &State,
) -> Viewer {
    let viewer = assert_shows(rt, viewer, state.shown.0, state.shown.1);
    let (current, a, b) = (Name::Current, Name::Register(0), Name::Register(1));
    assert_picture(
        rt,
        alloc,
        session,
        current,
        "show currentpicture",
        state.current,
    );
    assert_picture(rt, alloc, session, a, "show a", state.a);
    assert_picture(rt, alloc, session, b, "show b", state.b);
    assert_others_blank(rt, session);
    viewer
}

/// Asserts that finishing the file gives these bytes, or is refused with this fault.
fn assert_file(rt: &impl Abort, file: GfFile, finished: Result<&[u8], GfFault>) {
    match file.finish(AMPLE.font) {
        Ok(gf) => assert_same(rt, Ok(gf.bytes()), finished, "the font file"),
        Err((_, fault)) => assert_same(rt, Err(fault), finished, "the font file"),
    }
}

/// Asserts that a script has ended in this state: its notice tells of everything that was accepted, the viewer is shown it, and
/// the font file is that of the state.
fn assert_ended_in<R: Abort + Wait>(
    rt: &R,
    (ended, file): (Ended, GfFile),
    viewer: Viewer,
    state: &State,
) {
    let (operations, total) = state.accepted;
    let mut ended = ended;
    assert_same(rt, ended.notice().revision(), operations, "the notice");
    let viewer = assert_shows(rt, viewer, operations, total);
    drop(viewer);
    ended.discard(rt);
    assert_file(rt, file, state.file);
}

/// Asserts that the turning check of the session is on, that its next publish tells of everything that was accepted and shows it,
/// and that the session ends in this state.
fn assert_goes_on_from<R: Abort + Wait>(
    rt: &R,
    alloc: Global,
    (session, viewer): (Session, Viewer),
    state: &State,
) {
    let mut session = session;
    let (operations, total) = state.accepted;
    let checked = perform(
        rt,
        alloc,
        &mut session,
        "addto b contour (0,0)--(1,0)--cycle",
    );
    assert_same(rt, checked.as_slice(), b"refused Backtracks 0\n", "check");
    let published = perform(rt, alloc, &mut session, "publish");
    let told = format!(in alloc; "published {operations}\n").expect(rt, "there is room for a text");
    assert_same(rt, published.as_slice(), told.as_bytes(), "publish");
    let viewer = assert_shows(rt, viewer, operations, total);
    assert_ended_in(rt, finish(rt, session), viewer, state);
}

/// Performs a line while allocations are refused.
fn command_while_refused<R: Wait>(
    rt: &R,
    alloc: Global,
    session: &mut Session,
    line: &str,
) -> Result<Vec<u8>, OutOfMemory> {
    refuse_growths(alloc);
    let answer = session.command(rt, alloc, line.as_bytes());
    grow_again(alloc);
    answer
}

/// Asserts that the line prints its text and makes its change. Where an allocation fails, nothing has changed, and the line does
/// both when it is performed again.
fn assert_performs_while_refused<R: Abort + Wait + AllocGlobal>(rt: &R, trial: &Trial) {
    let (alloc, line) = (rt.alloc(), trial.line);
    let limits = (trial.max_ops, trial.max_bytes);
    let (mut session, mut viewer) = session_after(rt, alloc, limits, trial.before);
    let answer = command_while_refused(rt, alloc, &mut session, line);
    let text = match answer {
        Ok(text) => text,
        Err(fault) => {
            assert_same(rt, fault, OutOfMemory, line);
            viewer = assert_state(rt, alloc, (&mut session, viewer), &trial.old);
            perform(rt, alloc, &mut session, line)
        }
    };
    assert_same(rt, text.as_slice(), trial.text.as_bytes(), line);
    let viewer = assert_state(rt, alloc, (&mut session, viewer), &trial.new);
    assert_goes_on_from(rt, alloc, (session, viewer), &trial.new);
}
