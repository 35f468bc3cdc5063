//! Scripts that run beside viewers while allocations are refused, including those that start threads.
ghost use Rattle.std.specs.Prelude.{◌≤◌};

use super::{AMPLE, BLANK, PUBLISHED, SIX};
use crate::tests::assertions::{assert_holds, assert_same};
use mf_desk::{Glance, OpenGate, Outcome, RunFault, perform};
use mf_testing::{
    Pieces, RECT, RECT_FILE, Remembers, Sink, count_of_texts, grow_again, refuse_growths,
};
use std::process::Abort;
use std::sync::{Arc, Wait};
use std::thread::Threads;

/// A script, and what it does beside viewers.
#[derive(Drop)]
struct Case {
    script: &'static str,
    /// The texts of the lines that print something, and then the line of each viewer.
    texts: &'static [&'static str],
    /// What viewers see of each revision, from the blank picture to the end.
    seen: &'static [Glance],
    /// Its font file, if it ships something.
    file: Option<&'static [u8]>,
}

/// Two contours that are published, and a cull that is not. The last line has no line feed.
const DRAWN: &str = "addto currentpicture contour (0,0)--(3,0)--(3,2)--(0,2)--cycle\n\
                     publish\n\
                     show totalweight currentpicture\n\
                     addto currentpicture contour (5,5)--(6,5)--(6,6)--(5,6)--cycle\n\
                     show currentpicture\n\
                     publish\n\
                     cull currentpicture keeping (1,1) withweight 2\n\
                     proof a";

/// What viewers see of it: 6 pixels, then 7, and then 7 of weight 2.
const DRAWN_SEEN: &[Glance] = &[
    BLANK,
    SIX,
    Glance {
        revision: 2,
        total: 7,
    },
    Glance {
        revision: 3,
        total: 14,
    },
];

const DRAWN_BESIDE_FOUR: &Case = &Case {
    script: DRAWN,
    texts: &[
        "published 1\n",
        "totalweight 6\n",
        "5 5 5 1\n1 0 2 1\n0 0 2 1\n",
        "published 2\n",
        "blank\n",
        "viewer 0 revision 3 totalweight 14\n",
        "viewer 1 revision 3 totalweight 14\n",
        "viewer 2 revision 3 totalweight 14\n",
        "viewer 3 revision 3 totalweight 14\n",
    ],
    seen: DRAWN_SEEN,
    file: None,
};

const DRAWN_WITHOUT_VIEWERS: &Case = &Case {
    script: DRAWN,
    texts: &[
        "published 1\n",
        "totalweight 6\n",
        "5 5 5 1\n1 0 2 1\n0 0 2 1\n",
        "published 2\n",
        "blank\n",
    ],
    seen: DRAWN_SEEN,
    file: None,
};

const SHIPPED_BESIDE_FOUR: &Case = &Case {
    script: RECT,
    texts: &[
        "[65]\n",
        "viewer 0 revision 1 totalweight 6\n",
        "viewer 1 revision 1 totalweight 6\n",
        "viewer 2 revision 1 totalweight 6\n",
        "viewer 3 revision 1 totalweight 6\n",
    ],
    seen: &[BLANK, SIX],
    file: Some(RECT_FILE),
};

const PUBLISHED_BESIDE_TWO: &Case = &Case {
    script: PUBLISHED,
    texts: &[
        "published 1\n",
        "viewer 0 revision 1 totalweight 6\n",
        "viewer 1 revision 1 totalweight 6\n",
    ],
    seen: &[BLANK, SIX],
    file: None,
};

const EMPTY_BESIDE_FOUR: &Case = &Case {
    script: "",
    texts: &[
        "viewer 0 revision 0 totalweight 0\n",
        "viewer 1 revision 0 totalweight 0\n",
        "viewer 2 revision 0 totalweight 0\n",
        "viewer 3 revision 0 totalweight 0\n",
    ],
    seen: &[BLANK],
    file: None,
};

const EMPTY_BESIDE_TWO: &Case = &Case {
    script: "",
    texts: &[
        "viewer 0 revision 0 totalweight 0\n",
        "viewer 1 revision 0 totalweight 0\n",
    ],
    seen: &[BLANK],
    file: None,
};

/// Asserts that a viewer has looked `looks` times and once more at the end, that each look shows what there is to be seen of its
/// revision, that none goes back, and that the last one shows the end.
fn assert_record(rt: &impl Abort, record: &[Glance], looks: u32, seen: &[Glance]) {
    let mut revision = 0;
    for glance in record {
        assert_holds(rt, revision <= glance.revision, "no look goes back");
        revision = glance.revision;
        assert_same(rt, seen.get(revision as usize), Some(glance), "a look");
    }
    let length = (looks as usize).saturating_add(1);
    let last = (record.len(), record.last());
    assert_same(rt, last, (length, seen.last()), "looks, and the last one");
}

/// Asserts that `viewers` viewers have looked as often as they should, and that the font file is that of the case.
fn assert_outcome(rt: &impl Abort, outcome: &Outcome, (viewers, looks): (u32, u32), case: &Case) {
    assert_same(rt, outcome.seen.len(), viewers as usize, "viewers");
    for record in &outcome.seen {
        assert_record(rt, record, looks, case.seen);
    }
    let file = outcome.gf.as_ref().map(|gf| gf.bytes());
    assert_same(rt, file, case.file, "the font file");
}

/// What a script leaves that was performed while allocations were refused.
#[derive(Drop)]
struct Left<'a> {
    result: Result<Outcome, RunFault>,
    reads: u32,
    taken: &'a [u8],
}

/// Asserts one of three answers: the outcome with all texts; `OutOfMemory` after the complete texts of the first lines and
/// viewers; or `NoPlace`, where a viewer had no place or no thread and nothing was read or written. No look is refused, since a
/// look does not allocate.
fn assert_answer(rt: &impl Abort, left: &Left<'_>, (viewers, looks): (u32, u32), case: &Case) {
    let count = count_of_texts(case.texts, left.taken);
    match &left.result {
        Ok(outcome) => {
            assert_outcome(rt, outcome, (viewers, looks), case);
            assert_same(rt, count, Some(case.texts.len()), "all texts");
        }
        Err(RunFault::NoPlace) => {
            assert_holds(rt, viewers > 0, "a viewer had no place");
            assert_same(rt, (left.reads, count), (0, Some(0)), "reads and texts");
        }
        Err(fault) => {
            assert_same(rt, *fault, RunFault::OutOfMemory, "the fault");
            assert_holds(rt, count.is_some(), "whole texts");
        }
    }
}

/// A reader of the script. Its first read ends within the first line.
fn reader_of(case: &Case) -> Remembers<Pieces<'static>> {
    Remembers::new(Pieces::split(case.script.as_bytes(), 20))
}

/// Performs the script beside `viewers` viewers, who look `looks` times each, while allocations are refused. Asserts that the
/// threads have ended whatever the answer is, and that with ample memory the script is performed to its end.
fn assert_performs<R: Abort + Wait + Threads + AllocGlobal>(
    rt: &R,
    viewers: u32,
    looks: u32,
    case: &Case,
)
    requires { viewers ≤ 64 }
{
    let alloc = rt.alloc();
    let gate = Arc::new(alloc, OpenGate).expect(rt, "there is room for a gate");
    let mut reader = reader_of(case);
    let mut writer = Sink::with_capacity(alloc, 1_000).expect(rt, "there is room for the texts");
    refuse_growths(alloc);
    let result = perform(
        rt,
        alloc,
        &mut reader,
        &mut writer,
        &AMPLE,
        viewers,
        looks,
        &gate,
    );
    grow_again(alloc);
    let left = Left {
        result,
        reads: reader.reads(),
        taken: writer.bytes(),
    };
    assert_answer(rt, &left, (viewers, looks), case);
    assert_same(rt, Arc::strong_count(&gate), 1, "owners of the gate");
    assert_performs_again(rt, viewers, looks, case, &gate);
}

/// Asserts that with ample memory the script is performed to its end beside `viewers` viewers at this gate.
fn assert_performs_again<R: Abort + Wait + Threads + AllocGlobal>(
    rt: &R,
    viewers: u32,
    looks: u32,
    case: &Case,
    gate: &Arc<OpenGate>,
)
    requires { viewers ≤ 64 }
{
    let alloc = rt.alloc();
    let mut reader = reader_of(case);
    let mut writer = Sink::new(alloc);
    let result = perform(
        rt,
        alloc,
        &mut reader,
        &mut writer,
        &AMPLE,
        viewers,
        looks,
        gate,
    );
    let outcome = result.expect(rt, "memory is ample");
    assert_outcome(rt, &outcome, (viewers, looks), case);
    let count = count_of_texts(case.texts, writer.bytes());
    assert_same(rt, count, Some(case.texts.len()), "all texts");
    assert_same(rt, Arc::strong_count(gate), 1, "owners of the gate");
}

#[test]
fn pictures_are_drawn_beside_four_viewers(rt: HostRuntime) {
    assert_performs(&rt, 4, 2, DRAWN_BESIDE_FOUR);
}

#[test]
fn pictures_are_drawn_without_viewers(rt: HostRuntime) {
    assert_performs(&rt, 0, 2, DRAWN_WITHOUT_VIEWERS);
}

#[test]
fn a_character_is_shipped_beside_four_viewers(rt: HostRuntime) {
    assert_performs(&rt, 4, 2, SHIPPED_BESIDE_FOUR);
}

#[test]
fn a_picture_is_published_beside_two_viewers(rt: HostRuntime) {
    assert_performs(&rt, 2, 1, PUBLISHED_BESIDE_TWO);
}

#[test]
fn nothing_is_drawn_beside_two_viewers(rt: HostRuntime) {
    assert_performs(&rt, 2, 2, EMPTY_BESIDE_TWO);
}

#[test]
fn nothing_is_drawn_beside_four_viewers(rt: HostRuntime) {
    assert_performs(&rt, 4, 2, EMPTY_BESIDE_FOUR);
}
