//! The calls of `mf_desk` on sessions, and contracts in words that it passes on.
ghost use Rattle.std.specs.Prelude.{◌≡◌, IfOk, OnErr};
ghost use Rattle.mf_desk.specs.Answers.{Answers};
ghost use Rattle.mf_desk.specs.Sessions.{HasAnswered, StandsFor, identity, limits};
ghost use Rattle.mf_desk.specs.States.{State, start};
ghost use Rattle.mf_live.specs.Desks.{desk_identity};

use crate::tests::assertions::assert_same;
use mf_desk::{EndFault, OutOfMemory, Session};
use mf_gf::{GfFault, GfFile};
use mf_live::{Closing, Desk, Ended};
use mf_rows::Picture;
use mf_text::Name;
use std::alloc::Global;
use std::process::Abort;
use std::sync::Wait;

/// A session in which nothing has happened, and its desk.
fn open<R: Abort + Wait>(rt: &R, alloc: Global) -> (Session, Desk)
    ensures start { StandsFor result.0 start }
    ensures identity { desk_identity result.1 ≡ identity result.0 }
{
    let (places, max_ops, max_bytes): (u32, u32, u32) = (0, 10, 1_000);
    let opened: Result<(Session, Desk), GfFault> = Session::new(
        rt, alloc, places, max_ops, max_bytes,
    );
    opened.expect(rt, "there is room for a session")
}

/// Performs a line.
fn perform<R: Wait>(
    rt: &R,
    alloc: Global,
    session: &mut Session,
    line: &str,
) -> Result<Vec<u8>, OutOfMemory>
    ensures answer { IfOk result (λ text. (s : State) → StandsFor session.old s
        → HasAnswered session.new text.items (Answers (limits session.old) s line.now)) }
    ensures unchanged { OnErr result
        ((s : State) → StandsFor session.old s → StandsFor session.new s) }
{
    let line: &[u8] = line.as_bytes();
    let printed: Result<Vec<u8>, OutOfMemory> = session.command(rt, alloc, line);
    printed
}

/// Asserts that a line prints this text.
fn assert_prints<R: Abort + Wait>(
    rt: &R,
    alloc: Global,
    session: &mut Session,
    line: &str,
    text: &str,
) {
    let printed = perform(rt, alloc, session, line).expect(rt, "there is room for the text");
    assert_same(rt, printed.as_slice(), text.as_bytes(), line);
}

/// Asserts that `currentpicture` has this total weight.
fn assert_total(rt: &impl Abort, session: &Session, total: i64) {
    let picture: &Picture = session.picture(&Name::Current);
    assert_same(rt, picture.total(), total, "currentpicture");
}

/// Ends the script of a session, and publishes again where that was not done.
fn finish<R: Abort + Wait>(rt: &R, session: Session) -> (Ended, GfFile) {
    let finished: Result<(Ended, GfFile), EndFault> = session.finish(rt);
    match finished {
        Ok(ended) => ended,
        Err(EndFault::Kept(session)) => {
            session.discard(rt);
            panic!(rt; "no room to end the script")
        }
        Err(EndFault::Halfway(closing, file)) => (publish_end(rt, closing), file),
    }
}

/// Publishes the end of a session's picture.
fn publish_end<R: Abort + Wait>(rt: &R, closing: Closing) -> Ended {
    match closing.publish(rt) {
        Ok(ended) => ended,
        Err(closing) => {
            closing.discard(rt);
            panic!(rt; "no room to publish the end")
        }
    }
}

#[test]
fn performs_lines(rt: HostRuntime) {
    let alloc = rt.alloc();
    let (mut session, _) = open(&rt, alloc);
    let line = "addto currentpicture contour (0,0)--(3,0)--(3,2)--(0,2)--cycle";
    assert_prints(&rt, alloc, &mut session, line, "");
    assert_prints(
        &rt,
        alloc,
        &mut session,
        "show totalweight currentpicture",
        "totalweight 6\n",
    );
    assert_total(&rt, &session, 6);
    let (mut ended, file) = finish(&rt, session);
    assert_same(
        &rt,
        (ended.notice().revision(), file.count()),
        (1, 0),
        "the end",
    );
    ended.discard(&rt);
}
