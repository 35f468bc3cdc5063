//! Looks after the end of a script, and after a fault that has ended its picture.

use super::flags::{Count, Flag, ReadsAfter, TURNS, TellsOfEnd};
use super::outcomes::{assert_saw, outcome_of, share};
use super::{AMPLE, BLANK, FILLED, SIX};
use crate::tests::assertions::{assert_holds, assert_same};
use mf_desk::{Gate, RunFault, perform};
use mf_testing::{Pieces, Sink};
use std::sync::Arc;
use std::thread::yield_now;

/// Waits a while, and lets other threads run.
fn linger(turns: u32) {
    for _ in 0..turns {
        yield_now();
    }
}

/// A gate that holds the first look from before the first read until a while after the end of the script.
#[derive(Drop)]
struct OutlastsTheScript {
    held: Flag,
    ended: Flag,
    /// Set if the script ended while the look was held.
    seen: Flag,
}

impl Gate for OutlastsTheScript {
    fn hold(&self, _viewer: u32, look: u32) {
        if look > 0 {
            return;
        }
        self.held.set();
        if self.ended.is_set_within(TURNS) {
            self.seen.set();
            linger(500_000);
        }
    }
}

/// The threads go on looking when the script has ended, and its picture is closed while they do. The second look shows what the
/// script had not published.
#[test]
fn looks_after_the_end_show_the_last_picture(rt: HostRuntime) {
    let outlasts = OutlastsTheScript {
        held: Flag::new(),
        ended: Flag::new(),
        seen: Flag::new(),
    };
    let gate = share(&rt, outlasts);
    let mut reader = TellsOfEnd {
        flag: &gate.ended,
        reader: ReadsAfter {
            flag: &gate.held,
            pieces: Pieces::whole(FILLED.as_bytes()),
        },
    };
    let text = b"viewer 0 revision 1 totalweight 6\n";
    let outcome = outcome_of(&rt, &gate, &mut reader, 1, 2, text);
    assert_holds(&rt, gate.seen.is_set(), "the script ended first");
    assert_saw(&rt, &outcome, 0, &[BLANK, SIX, SIX]);
}

/// A gate that counts looks. The first one lasts until the script has met a fault, and each one after that a while.
#[derive(Drop)]
struct OutlastsAFault {
    looks: Count,
    held: Flag,
    failed: Flag,
}

impl Gate for OutlastsAFault {
    fn hold(&self, _viewer: u32, _look: u32) {
        self.looks.add_one();
        self.held.set();
        if self.failed.is_set_within(TURNS) {
            linger(1_000);
        }
    }
}

/// More looks than a viewer can make before the picture has ended.
const MANY: u32 = 10_000;

/// A fault of the script ends its picture before the threads are joined, so a look is refused and its thread ends. `perform`
/// returns the fault of the script.
#[test]
fn threads_end_after_a_fault(rt: HostRuntime) {
    let outlasts = OutlastsAFault {
        looks: Count::new(),
        held: Flag::new(),
        failed: Flag::new(),
    };
    let gate = share(&rt, outlasts);
    let mut reader = TellsOfEnd {
        flag: &gate.failed,
        reader: ReadsAfter {
            flag: &gate.held,
            pieces: Pieces::failing(b""),
        },
    };
    let mut writer = Sink::new(rt.alloc());
    let result = perform(
        &rt,
        rt.alloc(),
        &mut reader,
        &mut writer,
        &AMPLE,
        1,
        MANY,
        &gate,
    );
    assert_same(&rt, result.err(), Some(RunFault::ReadFault), "the fault");
    assert_same(&rt, writer.bytes(), b"", "what is written");
    assert_same(&rt, Arc::strong_count(&gate), 1, "owners of the gate");
    assert_holds(&rt, gate.looks.get() < MANY as u64, "a look is refused");
}
