//! Viewers that wait while they hold a look.

use super::flags::{Count, Flag, ReadsAfter, TURNS, WaitsForText};
use super::outcomes::{assert_saw, outcome_of, outcome_telling, share};
use super::{BLANK, PUBLISHED, PUBLISHED_TEXT, SIX};
use crate::tests::assertions::{assert_holds, assert_same};
use mf_desk::{Gate, Glance};
use mf_testing::Pieces;
use std::process::Abort;

/// A rectangle of 3 by 2 pixels. Its total weight is printed before it is published.
const SHOWN: &[u8] = b"addto currentpicture contour (0,0)--(3,0)--(3,2)--(0,2)--cycle\n\
                       show totalweight currentpicture\n\
                       publish\n";

/// A rectangle of 3 by 2 pixels that is published, given weight 2, and published again.
const PUBLISHED_TWICE: &[u8] = b"addto currentpicture contour (0,0)--(3,0)--(3,2)--(0,2)--cycle\n\
                                 publish\n\
                                 cull currentpicture keeping (1,1) withweight 2\n\
                                 publish\n";

/// A gate that sets a flag when viewer 0 holds a look.
#[derive(Drop)]
struct SetsFlag {
    held: Flag,
}

impl Gate for SetsFlag {
    fn hold(&self, viewer: u32, _look: u32) {
        if viewer == 0 {
            self.held.set();
        }
    }
}

#[test]
fn looks_before_the_first_read(rt: HostRuntime) {
    let gate = share(&rt, SetsFlag { held: Flag::new() });
    let mut reader = ReadsAfter {
        flag: &gate.held,
        pieces: Pieces::whole(PUBLISHED.as_bytes()),
    };
    let text = PUBLISHED_TEXT.as_bytes();
    let outcome = outcome_of(&rt, &gate, &mut reader, 2, 1, text);
    assert_saw(&rt, &outcome, 0, &[BLANK, SIX]);
}

/// A gate at which each look waits a while for the script to print something.
#[derive(Drop)]
struct WaitsAWhile {
    printed: Flag,
}

impl Gate for WaitsAWhile {
    fn hold(&self, _viewer: u32, _look: u32) {
        self.printed.is_set_within(10_000);
    }
}

/// Asserts that a viewer has looked 100,000 times beside the script and once after its end, and that the last look beside it and
/// the one after it show the rectangle.
fn assert_saw_six(rt: &impl Abort, seen: &[Glance]) {
    let last = (seen.get(99_999).copied(), seen.last().copied());
    assert_same(rt, last, (Some(SIX), Some(SIX)), "last looks");
    assert_same(rt, seen.len(), 100_001, "looks");
}

/// The last look beside the script shows what was published before it, and a publish succeeds even while looks follow each other
/// without a pause.
#[test]
fn looks_show_what_was_published(rt: HostRuntime) {
    let waits = WaitsAWhile {
        printed: Flag::new(),
    };
    let gate = share(&rt, waits);
    let outcome = outcome_telling(
        &rt,
        &gate,
        &mut Pieces::whole(PUBLISHED.as_bytes()),
        2,
        100_000,
        (&gate.printed, b"published 1\n"),
        PUBLISHED_TEXT.as_bytes(),
    );
    assert_same(&rt, outcome.seen.len(), 2, "viewers");
    for seen in &outcome.seen {
        assert_saw_six(&rt, seen);
    }
}

/// Only a publish waits for a look. The lines before it are performed while a look is held.
#[test]
fn lines_are_performed_while_a_look_is_held(rt: HostRuntime) {
    let gate = share(&rt, WaitsForText::new());
    let mut reader = ReadsAfter {
        flag: &gate.held,
        pieces: Pieces::whole(SHOWN),
    };
    let outcome = outcome_telling(
        &rt,
        &gate,
        &mut reader,
        1,
        1,
        (&gate.printed, b"totalweight 6\n"),
        b"totalweight 6\npublished 1\nviewer 0 revision 1 totalweight 6\n",
    );
    assert_holds(&rt, gate.seen.is_set(), "the text came");
    assert_saw(&rt, &outcome, 0, &[BLANK, SIX]);
}

/// A gate that holds a look for a while, and at most until the script has published twice.
#[derive(Drop)]
struct HoldsOn {
    held: Flag,
    published: Flag,
    /// Set if the second publish succeeded while the look was held.
    seen: Flag,
}

impl Gate for HoldsOn {
    fn hold(&self, _viewer: u32, _look: u32) {
        self.held.set();
        if self.published.is_set_within(200_000) {
            self.seen.set();
        }
    }
}

/// Of two publishes beside a look that is held, the second waits until the look is left.
#[test]
fn second_publish_waits_for_a_held_look(rt: HostRuntime) {
    let holds = HoldsOn {
        held: Flag::new(),
        published: Flag::new(),
        seen: Flag::new(),
    };
    let gate = share(&rt, holds);
    let mut reader = ReadsAfter {
        flag: &gate.held,
        pieces: Pieces::whole(PUBLISHED_TWICE),
    };
    outcome_telling(
        &rt,
        &gate,
        &mut reader,
        1,
        1,
        (&gate.published, b"published 2\n"),
        b"published 1\npublished 2\nviewer 0 revision 2 totalweight 12\n",
    );
    let waited = gate.published.is_set() && !gate.seen.is_set();
    assert_holds(&rt, waited, "the second publish waited");
}

/// What the script that publishes the rectangle prints beside four viewers.
const FOUR_SEE_SIX: &[u8] = b"published 1\n\
                              viewer 0 revision 1 totalweight 6\n\
                              viewer 1 revision 1 totalweight 6\n\
                              viewer 2 revision 1 totalweight 6\n\
                              viewer 3 revision 1 totalweight 6\n";

/// A gate at which viewer k holds its look k until the script has printed something. The script is read once all four viewers
/// hold theirs.
#[derive(Drop)]
struct TakesTurns {
    looked: Count,
    held: Flag,
    printed: Flag,
    /// Set if a look gave up waiting.
    missed: Flag,
}

impl Gate for TakesTurns {
    fn hold(&self, viewer: u32, look: u32) {
        if viewer != look {
            return;
        }
        if self.looked.add_one() == 3 {
            self.held.set();
        }
        if !self.printed.is_set_within(TURNS) {
            self.missed.set();
        }
    }
}

/// Viewer k has looked k + 1 times before the publish, so no two records are the same.
#[test]
fn records_are_in_the_order_of_the_viewers(rt: HostRuntime) {
    let turns = TakesTurns {
        looked: Count::new(),
        held: Flag::new(),
        printed: Flag::new(),
        missed: Flag::new(),
    };
    let gate = share(&rt, turns);
    let mut reader = ReadsAfter {
        flag: &gate.held,
        pieces: Pieces::whole(PUBLISHED.as_bytes()),
    };
    let told: (&Flag, &[u8]) = (&gate.printed, b"published 1\n");
    let outcome = outcome_telling(&rt, &gate, &mut reader, 4, 4, told, FOUR_SEE_SIX);
    assert_holds(&rt, !gate.missed.is_set(), "all looks were held");
    assert_same(&rt, outcome.seen.len(), 4, "viewers");
    assert_saw(&rt, &outcome, 0, &[BLANK, SIX, SIX, SIX, SIX]);
    assert_saw(&rt, &outcome, 1, &[BLANK, BLANK, SIX, SIX, SIX]);
    assert_saw(&rt, &outcome, 2, &[BLANK, BLANK, BLANK, SIX, SIX]);
    assert_saw(&rt, &outcome, 3, &[BLANK, BLANK, BLANK, BLANK, SIX]);
}
