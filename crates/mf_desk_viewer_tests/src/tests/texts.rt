//! The text of each line goes to the writer before the next line is performed.
//!
//! A look is held from before the first read until a text has gone out. The next line is the second publish beside that look, so
//! it waits for the look to be left. If the text were kept back until that line is performed, or until the next read, the look
//! and the publish would wait for each other until the gate gives up.

use super::flags::{ReadsAfter, WaitsForText};
use super::outcomes::{outcome_telling, share};
use crate::tests::assertions::assert_holds;
use mf_testing::Pieces;
use std::alloc::{AllocError, Global};
use std::process::Abort;
use std::sync::Wait;
use std::thread::Threads;

/// A script that fills a rectangle of 3 by 2 pixels, publishes it and gives it weight 2, then has this line, and publishes again.
fn script_with(alloc: Global, line: &str) -> Result<String, AllocError> {
    format!(in alloc;
        "addto currentpicture contour (0,0)--(3,0)--(3,2)--(0,2)--cycle\n\
         publish\n\
         cull currentpicture keeping (1,1) withweight 2\n\
         {line}\n\
         publish\n"
    )
}

/// The transcript of this script, where the line prints this text.
fn transcript_with(alloc: Global, text: &str) -> Result<String, AllocError> {
    format!(in alloc; "published 1\n{text}published 2\nviewer 0 revision 2 totalweight 12\n")
}

/// Asserts that the line prints this text, and that the text goes out before the next publish. All lines come in one read.
fn assert_goes_out<R: Abort + Wait + Threads + AllocGlobal>(rt: &R, line: &str, text: &str) {
    let alloc = rt.alloc();
    let script = script_with(alloc, line).expect(rt, "there is room for a script");
    let transcript = transcript_with(alloc, text).expect(rt, "there is room for a transcript");
    let gate = share(rt, WaitsForText::new());
    let mut reader = ReadsAfter {
        flag: &gate.held,
        pieces: Pieces::whole(script.as_bytes()),
    };
    let told = (&gate.printed, text.as_bytes());
    outcome_telling(rt, &gate, &mut reader, 1, 1, told, transcript.as_bytes());
    assert_holds(rt, gate.seen.is_set(), "the text went out");
}

#[test]
fn total_goes_out_before_the_next_line(rt: HostRuntime) {
    assert_goes_out(&rt, "show totalweight currentpicture", "totalweight 12\n");
}

#[test]
fn run_text_goes_out_before_the_next_line(rt: HostRuntime) {
    assert_goes_out(&rt, "show currentpicture", "1 0 2 2\n0 0 2 2\n");
}

#[test]
fn grid_text_goes_out_before_the_next_line(rt: HostRuntime) {
    assert_goes_out(&rt, "proof currentpicture", "222\n222\n");
}

#[test]
fn code_goes_out_before_the_next_line(rt: HostRuntime) {
    let line = "shipout currentpicture code 65 dx 0 width 0";
    assert_goes_out(&rt, line, "[65]\n");
}

#[test]
fn refusal_goes_out_before_the_next_line(rt: HostRuntime) {
    assert_goes_out(&rt, "show totalweight a!", "refused Syntax 19\n");
}
