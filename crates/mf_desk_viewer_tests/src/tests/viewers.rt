//! Viewers beside a script: what they see, and their lines after its transcript.
ghost use Rattle.std.specs.Prelude.{◌≤◌};

use super::lines::{blank_lines, line};
use super::{
    AMPLE, BLANK, BOTH_SEE_NOTHING, BOTH_SEE_SIX, FILLED, PUBLISHED, PUBLISHED_TEXT, SIX,
    perform_beside,
};
use crate::tests::assertions::{assert_holds, assert_same};
use mf_desk::{Glance, Outcome};
use mf_testing::{Pieces, RECT, RECT_FILE, Script, Sink, worked_scripts};
use std::alloc::AllocError;
use std::process::Abort;
use std::sync::Wait;
use std::thread::Threads;

/// Performs the script beside `viewers` viewers, who look `looks` times each, and asserts that it prints this text.
fn outcome_beside<R: Abort + Wait + Threads + AllocGlobal>(
    rt: &R,
    viewers: u32,
    looks: u32,
    script: &str,
    text: &str,
) -> Outcome
    requires { viewers ≤ 64 }
{
    let mut writer = Sink::new(rt.alloc());
    let mut reader = Pieces::whole(script.as_bytes());
    let result = perform_beside(rt, &mut reader, &mut writer, &AMPLE, viewers, looks);
    assert_same(rt, writer.bytes(), text.as_bytes(), script);
    result.expect(rt, "the script is performed to its end")
}

/// Asserts that there are `viewers` viewers, and that each has this record.
fn assert_all_saw(rt: &impl Abort, outcome: &Outcome, viewers: usize, expected: &[Glance]) {
    assert_same(rt, outcome.seen.len(), viewers, "viewers");
    for seen in &outcome.seen {
        assert_same(rt, seen.as_slice(), expected, "a record");
    }
}

/// Asserts that nothing was shipped.
fn assert_no_font_file(rt: &impl Abort, outcome: &Outcome) {
    assert_holds(rt, outcome.gf.is_none(), "nothing was shipped");
}

/// Asserts that two viewers who do not look beside the script see the rectangle at its end, and that nothing was shipped.
fn assert_both_see_six<R: Abort + Wait + Threads + AllocGlobal>(rt: &R, script: &str, text: &str) {
    let outcome = outcome_beside(rt, 2, 0, script, text);
    assert_no_font_file(rt, &outcome);
    assert_all_saw(rt, &outcome, 2, &[SIX]);
}

#[test]
fn see_what_was_published_when_they_look_only_at_the_end(rt: HostRuntime) {
    assert_both_see_six(&rt, PUBLISHED, PUBLISHED_TEXT);
}

#[test]
fn see_what_was_not_published_when_they_look_only_at_the_end(rt: HostRuntime) {
    assert_both_see_six(&rt, FILLED, BOTH_SEE_SIX);
}

/// Asserts that two viewers looked once beside the script, at the blank picture or at the rectangle, and once after its end, at
/// the rectangle.
fn assert_saw_whole_pictures(rt: &impl Abort, outcome: &Outcome) {
    assert_same(rt, outcome.seen.len(), 2, "viewers");
    for seen in &outcome.seen {
        let seen = seen.as_slice();
        let is_whole = seen == [BLANK, SIX].as_slice() || seen == [SIX, SIX].as_slice();
        assert_holds(rt, is_whole, seen);
    }
}

#[test]
fn see_what_was_published_or_nothing(rt: HostRuntime) {
    let outcome = outcome_beside(&rt, 2, 1, PUBLISHED, PUBLISHED_TEXT);
    assert_saw_whole_pictures(&rt, &outcome);
}

#[test]
fn see_what_was_not_published_or_nothing(rt: HostRuntime) {
    let outcome = outcome_beside(&rt, 2, 1, FILLED, BOTH_SEE_SIX);
    assert_saw_whole_pictures(&rt, &outcome);
}

#[test]
fn see_nothing_of_an_empty_script(rt: HostRuntime) {
    let outcome = outcome_beside(&rt, 2, 3, "", BOTH_SEE_NOTHING);
    assert_all_saw(&rt, &outcome, 2, &[BLANK, BLANK, BLANK, BLANK]);
}

#[test]
fn may_be_64(rt: HostRuntime) {
    let text = blank_lines(rt.alloc(), 64).expect(&rt, "there is room for the lines");
    let outcome = outcome_beside(&rt, 64, 1, "", &text);
    assert_all_saw(&rt, &outcome, 64, &[BLANK, BLANK]);
}

#[test]
fn may_be_none(rt: HostRuntime) {
    let outcome = outcome_beside(&rt, 0, 5, PUBLISHED, "published 1\n");
    assert_no_font_file(&rt, &outcome);
    assert_all_saw(&rt, &outcome, 0, &[]);
}

/// Asserts that the script prints this text beside two viewers, and makes this font file.
fn assert_ships<R: Abort + Wait + Threads + AllocGlobal>(
    rt: &R,
    script: &str,
    text: &str,
    file: &[u8],
) {
    let outcome = outcome_beside(rt, 2, 1, script, text);
    let gf = outcome.gf.expect(rt, "a character was shipped");
    assert_same(rt, gf.bytes(), file, script);
}

/// What is printed when the rectangle is shipped.
const RECT_TEXT: &str = "[65]\n\
                         viewer 0 revision 1 totalweight 6\n\
                         viewer 1 revision 1 totalweight 6\n";

#[test]
fn leave_the_font_file_as_it_is(rt: HostRuntime) {
    assert_ships(&rt, RECT, RECT_TEXT, RECT_FILE);
}

/// Asserts that a record of 20,000 looks and the last one shows only complete publishes, of two operations each, never goes back,
/// and ends with the 300th publish.
fn assert_saw_whole_publishes(rt: &impl Abort, seen: &[Glance]) {
    assert_same(rt, seen.len(), 20_001, "looks");
    let mut last = 0;
    for Glance { revision, total } in seen {
        let is_whole = *revision % 2 == 0 && *total == *revision as i64;
        assert_holds(rt, is_whole && last <= *revision, (*revision, *total, last));
        last = *revision;
    }
    assert_same(rt, last, 600, "the last revision");
}

/// Asserts that each look of four viewers shows all of a publish or nothing of it, and that no look goes back.
fn assert_whole_publishes<R: Abort + Wait + Threads + AllocGlobal>(rt: &R, script: &str) {
    let mut reader = Pieces::bytewise(script.as_bytes());
    let mut writer = Sink::new(rt.alloc());
    let outcome = perform_beside(rt, &mut reader, &mut writer, &AMPLE, 4, 20_000).expect(
        rt,
        "the script is performed to its end",
    );
    assert_same(rt, outcome.seen.len(), 4, "viewers");
    for seen in &outcome.seen {
        assert_saw_whole_publishes(rt, seen);
    }
}

/// Fills a pixel twice, and publishes both.
const TWICE: &str = "addto currentpicture contour (0,0)--(1,0)--(1,1)--(0,1)--cycle\n\
                     addto currentpicture contour (0,0)--(1,0)--(1,1)--(0,1)--cycle\n\
                     publish\n";

#[test]
fn see_whole_publishes(rt: HostRuntime) {
    let script = TWICE
        .repeat(rt.alloc(), 300)
        .expect(&rt, "there is room for the script");
    assert_whole_publishes(&rt, &script);
}

/// What a record of five looks and the last one shows last. Asserts that its revisions never decrease.
fn last_of(rt: &impl Abort, seen: &[Glance], script: &str) -> Glance {
    assert_same(rt, seen.len(), 6, script);
    let mut last = BLANK;
    for glance in seen {
        assert_holds(rt, last.revision <= glance.revision, script);
        last = *glance;
    }
    last
}

/// Asserts that three viewers of a script see last what belongs to the script, and that the line of each says it.
fn assert_see_last<R: Abort + Wait + Threads + AllocGlobal>(
    rt: &R,
    script: &Script,
) -> Result<(), AllocError> {
    let alloc = rt.alloc();
    let (script, transcript, (revision, total)) = *script;
    let last = Glance { revision, total };
    let mut writer = Sink::new(alloc);
    let mut reader = Pieces::whole(script.as_bytes());
    let outcome = perform_beside(rt, &mut reader, &mut writer, &AMPLE, 3, 5).expect(
        rt,
        "the script is performed to its end",
    );
    assert_same(rt, outcome.seen.len(), 3, script);
    let mut text = String::from_str(alloc, transcript)?;
    for (number, seen) in outcome.seen.iter().enumerate() {
        assert_same(rt, last_of(rt, seen, script), last, script);
        text.push_str(&line(alloc, number, &last)?)?;
    }
    assert_same(rt, writer.bytes(), text.as_bytes(), script);
    Ok(())
}

/// The line of each viewer says what it has seen last, which is the same for all.
#[test]
fn print_what_they_see_last(rt: HostRuntime) {
    for script in worked_scripts().iter().copied().flatten() {
        assert_see_last(&rt, script).expect(&rt, "there is room for the lines");
    }
}
