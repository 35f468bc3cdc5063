//! Sessions, called directly.
ghost use Rattle.std.specs.Prelude.{◌≡◌};
ghost use Rattle.mf_desk.specs.Sessions.{StandsFor, identity};
ghost use Rattle.mf_desk.specs.States.{State, start};
ghost use Rattle.mf_live.specs.Desks.{desk_identity};
ghost use Rattle.mf_live.specs.Writers.{ended_identity};
ghost use Rattle.mf_text.specs.Registers.{IsName};

use super::AMPLE;
use super::session_ends::assert_shows;
use crate::tests::assertions::assert_same;
use mf_base::OutOfMemory;
use mf_desk::Session;
use mf_gf::GfFile;
use mf_live::{Desk, Ended};
use mf_testing::{Script, worked_scripts};
use mf_text::{Name, TextFault, read_command};
use std::alloc::Global;
use std::process::Abort;
use std::sync::Wait;

/// Opens a session that accepts at most `max_ops` operations on `currentpicture`, with a desk of one place.
pub(crate) fn open<R: Abort + Wait>(rt: &R, alloc: Global, max_ops: u32) -> (Session, Desk)
    ensures start { StandsFor result.0 start }
    ensures identity { desk_identity result.1 ≡ identity result.0 }
{
    Session::new(rt, alloc, 1, max_ops, AMPLE.max_bytes).expect(rt, "there is room for a session")
}

/// Performs a line, and returns what it prints.
pub(crate) fn perform<R: Abort + Wait>(
    rt: &R,
    alloc: Global,
    session: &mut Session,
    line: &str,
) -> Vec<u8>
    ensures stands { (s : State) → StandsFor session.old s → (t : State) × StandsFor session.new t }
    ensures identity { identity session.new ≡ identity session.old }
{
    session
        .command(rt, alloc, line.as_bytes())
        .expect(rt, "there is room for the line")
}

/// Ends the script of a session.
pub(crate) fn finish<R: Abort + Wait>(rt: &R, session: Session) -> (Ended, GfFile)
    ensures { (s : State) → StandsFor session s → ended_identity result.0 ≡ identity session }
{
    match session.finish(rt) {
        Ok(ended) => ended,
        Err(fault) => {
            fault.discard(rt);
            panic!(rt; "no room to end the script")
        }
    }
}

/// Asserts that the lines of a script print its transcript, that `currentpicture` has its total weight after them, and that the
/// notice of its end tells of the operations that were accepted.
fn assert_performs_in_session<R: Abort + Wait>(rt: &R, alloc: Global, script: &Script) {
    let (script, transcript, (operations, total)) = *script;
    let (mut session, _) = open(rt, alloc, AMPLE.max_ops);
    let mut printed = Vec::new(alloc);
    for line in script.lines() {
        let text = perform(rt, alloc, &mut session, line);
        printed
            .extend_from_slice(&text)
            .expect(rt, "there is room for the text");
    }
    assert_total(rt, &session, Name::Current, total);
    let (mut ended, _) = finish(rt, session);
    let revision = ended.notice().revision();
    ended.discard(rt);
    let found = (printed.as_slice(), revision);
    assert_same(rt, found, (transcript.as_bytes(), operations), script);
}

#[test]
fn perform_scripts(rt: HostRuntime) {
    for script in worked_scripts().iter().copied().flatten() {
        assert_performs_in_session(&rt, rt.alloc(), script);
    }
}

/// The whole field is filled, reflected and culled.
const FIELD: &Script = &(
    "addto a contour (-4095,-4095)--(4095,-4095)--(4095,4095)--(-4095,4095)--cycle\n\
     show totalweight a\n\
     a := a xscaled -1\n\
     show totalweight a\n\
     cull a keeping (1,1) withweight 3\n\
     show totalweight a\n",
    "totalweight 67076100\n\
     totalweight 67076100\n\
     totalweight 201228300\n",
    (0, 0),
);

#[test]
fn change_the_whole_field(rt: HostRuntime) {
    assert_performs_in_session(&rt, rt.alloc(), FIELD);
}

/// Asserts that the line prints this text.
fn assert_line_prints<R: Abort + Wait + AllocGlobal>(
    rt: &R,
    session: &mut Session,
    line: &str,
    text: &str,
) {
    let printed = perform(rt, rt.alloc(), session, line);
    assert_same(rt, printed.as_slice(), text.as_bytes(), line);
}

/// Asserts that the picture with this name has this total weight.
fn assert_total(rt: &impl Abort, session: &Session, name: Name, total: i64)
    requires { IsName name }
{
    assert_same(rt, session.picture(&name).total(), total, name);
}

/// Asserts that these lines print their texts.
fn assert_lines_print<R: Abort + Wait + AllocGlobal>(
    rt: &R,
    session: &mut Session,
    lines: &[(&str, &str)],
) {
    for (line, text) in lines {
        assert_line_prints(rt, session, line, text);
    }
}

const LENDING: &[(&str, &str)] = &[
    (
        "addto currentpicture contour (0,0)--(3,0)--(3,2)--(0,2)--cycle",
        "",
    ),
    ("addto z also currentpicture", ""),
    ("z := z shifted (0,4094)", "refused OutOfField\n"),
    ("addto z also z", ""),
    ("currentpicture := currentpicture yscaled 3", ""),
    (
        "currentpicture := nullpicture",
        "refused TooManyOperations\n",
    ),
    ("publish", "published 2\n"),
];

#[test]
fn lend_pictures(rt: HostRuntime) {
    let (mut session, _) = open(&rt, rt.alloc(), 2);
    assert_lines_print(&rt, &mut session, LENDING);
    assert_total(&rt, &session, Name::Current, 18);
    assert_total(&rt, &session, Name::Register(0), 0);
    assert_total(&rt, &session, Name::Register(24), 0);
    assert_total(&rt, &session, Name::Register(25), 12);
    session.discard(&rt);
}

const FILLING: &[(&str, &str)] = &[
    (
        "addto currentpicture contour (0,0)--(3,0)--(3,2)--(0,2)--cycle",
        "",
    ),
    ("publish", "published 1\n"),
    (
        "addto currentpicture contour (0,0)--(3,0)--(3,2)--(0,2)--cycle",
        "",
    ),
];

/// The desk of a session hands out viewers of its `currentpicture`.
#[test]
fn have_viewers(rt: HostRuntime) {
    let (mut session, mut desk) = open(&rt, rt.alloc(), AMPLE.max_ops);
    let viewer = desk.viewer().expect(&rt, "a place is left");
    assert_lines_print(&rt, &mut session, FILLING);
    assert_shows(&rt, viewer, 1, 6);
    assert_total(&rt, &session, Name::Current, 12);
    session.discard(&rt);
}

/// Asserts that a session prints this text for a line that its caller has read.
#[tactic(auto, using(mf_text::proofs::Registers::names_given))]
fn assert_answer_is<R: Abort + Wait + AllocGlobal>(
    rt: &R,
    session: &mut Session,
    line: &str,
    text: &str,
) {
    let alloc = rt.alloc();
    let read = read_command(alloc, line.as_bytes());
    let printed = session
        .answer_to(rt, alloc, read)
        .expect(rt, "there is room for the answer");
    assert_same(rt, printed.as_slice(), text.as_bytes(), line);
}

/// Lines with no command, lines that are refused when they are read or when they are performed, and lines that are performed.
const READ_LINES: &[(&str, &str)] = &[
    ("", ""),
    ("% a comment", ""),
    (
        "addto currentpicture contour (0,0)--(3,0)--(3,2)--(0,2)--cycle",
        "",
    ),
    (
        "addto currentpicture contour (0,0)--(1,1)--(0,1)--cycle",
        "refused NotRectilinear 0\n",
    ),
    ("show currentpicture totalweight", "refused Syntax 21\n"),
    (
        "currentpicture := currentpicture shifted (4095,0)",
        "refused OutOfField\n",
    ),
    ("publish", "published 1\n"),
    ("show totalweight currentpicture", "totalweight 6\n"),
];

/// A session answers to lines that its caller has read.
#[test]
fn answer_to_lines_that_were_read(rt: HostRuntime) {
    let (mut session, _) = open(&rt, rt.alloc(), AMPLE.max_ops);
    for (line, text) in READ_LINES {
        assert_answer_is(&rt, &mut session, line, text);
    }
    assert_total(&rt, &session, Name::Current, 6);
    session.discard(&rt);
}

/// Where there was no memory to read a line, a session answers that there is none, and stays as it was.
#[test]
fn answer_to_a_line_without_memory(rt: HostRuntime) {
    let alloc = rt.alloc();
    let (mut session, _) = open(&rt, alloc, AMPLE.max_ops);
    assert_lines_print(&rt, &mut session, FILLING);
    let answer = session.answer_to(&rt, alloc, Err(TextFault::OutOfMemory));
    assert_same(&rt, answer.err(), Some(OutOfMemory), "no memory");
    assert_total(&rt, &session, Name::Current, 12);
    session.discard(&rt);
}
