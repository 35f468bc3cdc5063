//! Runs of scripts. Where an allocation fails, the texts of the first lines have been written, and nothing else.

use super::AMPLE;
use crate::tests::assertions::{assert_holds, assert_same};
use mf_desk::{Outcome, RunFault, run};
use mf_testing::{Pieces, RECT_FILE, Sink, count_of_texts, grow_again, refuse_growths};
use std::alloc::Global;
use std::process::Abort;
use std::sync::Wait;

/// A script, and the texts of its lines that print something.
struct Case {
    script: &'static [u8],
    texts: &'static [&'static str],
}

/// More bytes than any of these scripts has or prints.
const ROOM: usize = 1000;

/// Lines of various forms, which ship one character.
const COMMANDS: &Case = &Case {
    script: b"addto currentpicture contour (0,0)--(3,0)--(3,2)--(0,2)--cycle\n\
              show totalweight currentpicture\n\
              addto a also currentpicture\r\n\
              a := a rotated 90\n\
              cull a keeping (1,1) withweight -2;\n\
              show a\n\
              proof a\n\
              publish\n\
              addto a contour (0,0)--cycle\n\
              show totalweight a!\n\
              shipout currentpicture code 65 dx 327680 width 0\n\
              \n\
              currentpicture := nullpicture\n\
              publish % note",
    texts: &[
        "totalweight 6\n",
        "2 -2 -1 -2\n1 -2 -1 -2\n0 -2 -1 -2\n",
        "bb\nbb\nbb\n",
        "published 1\n",
        "refused TooFewPoints\n",
        "refused Syntax 19\n",
        "[65]\n",
        "published 2\n",
    ],
};

/// A rectangle and its total weight.
const RECTANGLE: &Case = &Case {
    script: b"addto currentpicture contour (0,0)--(3,0)--(3,2)--(0,2)--cycle\n\
              show totalweight currentpicture\n",
    texts: &["totalweight 6\n"],
};

/// Lines that ship nothing. The last one prints, and has no line feed.
const SHOWS: &Case = &Case {
    script: b"show a\n\
              addto a contour (0,0)--(1,0)--(1,1)--(0,1)--cycle\n\
              show a",
    texts: &["blank\n", "0 0 0 1\n"],
};

/// Runs a script while allocations are refused, into a sink that does not allocate.
fn run_while_refused<R: Wait>(
    rt: &R,
    alloc: Global,
    mut reader: Pieces<'_>,
    sink: &mut Sink,
) -> Result<Outcome, RunFault> {
    refuse_growths(alloc);
    let answer = run(rt, alloc, &mut reader, sink, &AMPLE);
    grow_again(alloc);
    answer
}

/// Asserts that a run has written all texts of a case, has made this font file or none, and had no viewers.
fn assert_outcome(
    rt: &impl Abort,
    outcome: &Outcome,
    case: &Case,
    bytes: &[u8],
    gf: Option<&[u8]>,
) {
    let count = count_of_texts(case.texts, bytes);
    assert_same(rt, count, Some(case.texts.len()), "all texts");
    let file = outcome.gf.as_ref().map(|gf| gf.bytes());
    assert_same(rt, file, gf, "the font file");
    assert_holds(rt, outcome.seen.is_empty(), "nobody looks on");
}

/// A sink with room for all texts.
fn sink(rt: &impl Abort, alloc: Global) -> Sink {
    Sink::with_capacity(alloc, ROOM).expect(rt, "there is room for the sink")
}

/// A reader that gives one byte of the script in each read, or all bytes in one.
fn reader(case: &Case, is_bytewise: bool) -> Pieces<'static> {
    if is_bytewise {
        Pieces::bytewise(case.script)
    } else {
        Pieces::whole(case.script)
    }
}

/// Asserts that a script runs to its end. Where an allocation fails, the texts of the first lines have been written, each complete,
/// and with ample memory the script runs to its end.
fn assert_runs_to_its_end<R: Abort + Wait + AllocGlobal>(
    rt: &R,
    case: &Case,
    is_bytewise: bool,
    gf: Option<&[u8]>,
) {
    let alloc = rt.alloc();
    let mut written = sink(rt, alloc);
    match run_while_refused(rt, alloc, reader(case, is_bytewise), &mut written) {
        Ok(outcome) => return assert_outcome(rt, &outcome, case, written.bytes(), gf),
        Err(fault) => assert_same(rt, fault, RunFault::OutOfMemory, "a run"),
    }
    let count = count_of_texts(case.texts, written.bytes());
    assert_holds(rt, count.is_some(), "whole texts");
    let mut again = sink(rt, alloc);
    let outcome = run(
        rt,
        alloc,
        &mut reader(case, is_bytewise),
        &mut again,
        &AMPLE,
    );
    let outcome = outcome.expect(rt, "memory is ample");
    assert_outcome(rt, &outcome, case, again.bytes(), gf);
}

#[test]
fn script_is_read_at_once(rt: HostRuntime) {
    assert_runs_to_its_end(&rt, COMMANDS, false, Some(RECT_FILE));
}

/// The pieces of a line are kept until it has been read to its end.
#[test]
fn script_is_read_byte_by_byte(rt: HostRuntime) {
    assert_runs_to_its_end(&rt, COMMANDS, true, Some(RECT_FILE));
}

#[test]
fn script_ships_nothing(rt: HostRuntime) {
    assert_runs_to_its_end(&rt, SHOWS, false, None);
}

#[test]
fn rectangle_is_filled(rt: HostRuntime) {
    assert_runs_to_its_end(&rt, RECTANGLE, false, None);
    assert_runs_to_its_end(&rt, RECTANGLE, true, None);
}
