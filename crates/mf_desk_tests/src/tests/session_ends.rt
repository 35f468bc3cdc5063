//! The ends of sessions: their notices, font files and last pictures.
ghost use Rattle.std.specs.Prelude.{◌≡◌};
ghost use Rattle.mf_live.specs.Viewers as viewers;

use super::AMPLE;
use super::sessions::{finish, open, perform};
use crate::tests::assertions::assert_same;
use mf_gf::{GfFault, GfFile};
use mf_live::{Ended, Viewer};
use mf_testing::{RECT, RECT_FILE};
use std::alloc::Global;
use std::process::Abort;
use std::sync::Wait;

/// Ends a session that has performed these lines.
fn end_after<R: Abort + Wait>(rt: &R, alloc: Global, script: &str) -> (Ended, GfFile) {
    let (mut session, _) = open(rt, alloc, AMPLE.max_ops);
    for line in script.lines() {
        perform(rt, alloc, &mut session, line);
    }
    finish(rt, session)
}

/// Asserts that a look shows `revision` operations, and a picture with this total weight.
pub(super) fn assert_shows<R: Abort>(rt: &R, viewer: Viewer, revision: u32, total: i64) -> Viewer
    ensures { viewers.identity result ≡ viewers.identity viewer }
{
    match viewer.look() {
        Ok(look) => {
            let shown = (look.revision(), look.picture().total());
            assert_same(rt, shown, (revision, total), "a look");
            look.leave()
        }
        Err(_) => panic!(rt; "the look is not answered"),
    }
}

/// Asserts that the notice of the end tells of `revision` operations.
fn assert_tells<R: Abort + Wait>(rt: &R, alloc: Global, script: &str, revision: u32) {
    let (mut ended, _) = end_after(rt, alloc, script);
    assert_same(rt, ended.notice().revision(), revision, script);
    ended.discard(rt);
}

/// Scripts, and the number of operations that each has.
const OPERATIONS: &[(&str, u32)] = &[
    ("", 0),
    ("publish\nshow currentpicture\n", 0),
    (
        "addto currentpicture contour (0,0)--(3,0)--(3,2)--(0,2)--cycle\n",
        1,
    ),
    (
        "addto currentpicture contour (0,0)--(3,0)--(3,2)--(0,2)--cycle\n\
         publish\n",
        1,
    ),
    // Operations on registers, refused operations and shippings are not counted.
    (
        "addto a contour (0,0)--(3,0)--(3,2)--(0,2)--cycle\n\
         addto currentpicture also a\n\
         publish\n\
         currentpicture := currentpicture shifted (4096,0)\n\
         currentpicture := currentpicture shifted (7,7)\n\
         shipout currentpicture code 65 dx 0 width 0\n\
         currentpicture := nullpicture\n",
        3,
    ),
];

fn assert_all_tell<R: Abort + Wait>(rt: &R, alloc: Global, cases: &[(&str, u32)]) {
    for (script, revision) in cases {
        assert_tells(rt, alloc, script, *revision);
    }
}

/// The notice of the end tells of every operation that was accepted, published or not.
#[test]
fn tell_of_all_operations(rt: HostRuntime) {
    assert_all_tell(&rt, rt.alloc(), OPERATIONS);
}

/// Asserts that the end hands out a font file with `count` characters, and that finishing it gives these bytes or is refused with
/// this fault.
fn assert_hands_out<R: Abort + Wait>(
    rt: &R,
    alloc: Global,
    script: &str,
    count: u32,
    end: Result<&[u8], GfFault>,
) {
    let (ended, file) = end_after(rt, alloc, script);
    ended.discard(rt);
    assert_same(rt, file.count(), count, script);
    match file.finish(AMPLE.font) {
        Ok(gf) => assert_same(rt, Ok(gf.bytes()), end, script),
        Err((_, fault)) => assert_same(rt, Err(fault), end, script),
    }
}

/// Asserts that the end hands out a font file with no character.
fn assert_hands_out_nothing<R: Abort + Wait>(rt: &R, alloc: Global, script: &str) {
    assert_hands_out(rt, alloc, script, 0, Err(GfFault::NoCharacters));
}

/// What is shipped is in the font file that the end hands out.
#[test]
fn hand_out_the_font_file(rt: HostRuntime) {
    let alloc = rt.alloc();
    assert_hands_out(&rt, alloc, RECT, 1, Ok(RECT_FILE));
    assert_hands_out_nothing(&rt, alloc, "");
    assert_hands_out_nothing(&rt, alloc, "show a\n");
    assert_hands_out_nothing(&rt, alloc, "shipout a code 256 dx 0 width 0\n");
}

/// Asserts that a viewer that has looked at the blank picture, and learns the notice of the end after these lines, sees
/// `revision` operations and a picture with this total weight. At most `max_ops` operations are accepted.
fn assert_ends_with<R: Abort + Wait + AllocGlobal>(
    rt: &R,
    max_ops: u32,
    lines: (&str, &str),
    revision: u32,
    total: i64,
) {
    let alloc = rt.alloc();
    let (mut session, mut desk) = open(rt, alloc, max_ops);
    let viewer = desk.viewer().expect(rt, "a place is left");
    let mut viewer = assert_shows(rt, viewer, 0, 0);
    perform(rt, alloc, &mut session, lines.0);
    perform(rt, alloc, &mut session, lines.1);
    let (mut ended, _) = finish(rt, session);
    viewer.learn(ended.notice());
    assert_shows(rt, viewer, revision, total);
    assert_same(rt, ended.notice().revision(), revision, lines);
    ended.discard(rt);
}

const FILL: &str = "addto currentpicture contour (0,0)--(3,0)--(3,2)--(0,2)--cycle";

/// Two lines, and what a viewer sees after them: the number of operations, and the total weight of the picture.
type Ending = ((&'static str, &'static str), u32, i64);

const ENDINGS: &[Ending] = &[
    (("show a", "publish"), 0, 0),
    ((FILL, ""), 1, 6),
    ((FILL, "publish"), 1, 6),
    (("publish", FILL), 1, 6),
    ((FILL, "addto currentpicture also currentpicture"), 2, 12),
    ((FILL, "currentpicture := nullpicture"), 2, 0),
];

fn assert_all_end_with<R: Abort + Wait + AllocGlobal>(rt: &R, cases: &[Ending]) {
    for (lines, revision, total) in cases {
        assert_ends_with(rt, AMPLE.max_ops, *lines, *revision, *total);
    }
}

#[test]
fn show_the_end_to_their_viewers(rt: HostRuntime) {
    assert_all_end_with(&rt, ENDINGS);
}

/// Where no operation is accepted, the notice tells of none, and the viewer is shown none.
#[test]
fn show_no_operation_where_none_is_accepted(rt: HostRuntime) {
    assert_ends_with(&rt, 0, (FILL, "publish"), 0, 0);
    assert_ends_with(&rt, 0, ("currentpicture := nullpicture", FILL), 0, 0);
}
