//! Viewers that wait for each other while they hold their looks.
ghost use Rattle.std.specs.Prelude.{◌≤◌};

use super::flags::{Count, Flag, TURNS};
use super::lines::blank_lines;
use super::outcomes::{assert_saw, outcome_of, share};
use super::{BLANK, BOTH_SEE_NOTHING};
use crate::tests::assertions::{assert_holds, assert_same};
use mf_desk::Gate;
use mf_testing::Pieces;
use std::process::Abort;
use std::sync::Wait;
use std::thread::Threads;

/// The flags of one of two viewers.
#[derive(Drop)]
struct Flags {
    held: Flag,
    /// Set if it has seen that the other holds its look, too.
    met: Flag,
}

impl Flags {
    fn new() -> Flags {
        Flags {
            held: Flag::new(),
            met: Flag::new(),
        }
    }

    /// Says that this viewer holds its look, and waits until the other does.
    fn meet(&self, other: &Flags) {
        self.held.set();
        if other.held.is_set_within(TURNS) {
            self.met.set();
        }
    }
}

/// A gate at which each of two viewers waits until the other holds its look, too.
#[derive(Drop)]
struct Pair {
    first: Flags,
    second: Flags,
}

impl Gate for Pair {
    fn hold(&self, viewer: u32, _look: u32) {
        if viewer == 0 {
            self.first.meet(&self.second);
        } else {
            self.second.meet(&self.first);
        }
    }
}

#[test]
fn two_viewers_wait_for_each_other(rt: HostRuntime) {
    let pair = Pair {
        first: Flags::new(),
        second: Flags::new(),
    };
    let gate = share(&rt, pair);
    let mut reader = Pieces::whole(b"");
    let outcome = outcome_of(&rt, &gate, &mut reader, 2, 1, BOTH_SEE_NOTHING.as_bytes());
    let met = (gate.first.met.is_set(), gate.second.met.is_set());
    assert_same(&rt, met, (true, true), "flags that are seen");
    assert_saw(&rt, &outcome, 0, &[BLANK, BLANK]);
    assert_saw(&rt, &outcome, 1, &[BLANK, BLANK]);
}

/// A gate at which each viewer waits, in each look, until all others hold theirs.
#[derive(Drop)]
struct Meeting {
    viewers: u64,
    held: Count,
    /// Set if a viewer has not met all others.
    missed: Flag,
}

impl Gate for Meeting {
    fn hold(&self, _viewer: u32, look: u32) {
        self.held.add_one();
        let due = self.viewers.saturating_mul((look as u64).saturating_add(1));
        if !self.held.comes_to(due) {
            self.missed.set();
        }
    }
}

/// Asserts that `viewers` viewers all meet in their first look, and again in their second.
fn assert_meet<R: Abort + Wait + Threads + AllocGlobal>(rt: &R, viewers: u32)
    requires { viewers ≤ 64 }
{
    let meeting = Meeting {
        viewers: viewers as u64,
        held: Count::new(),
        missed: Flag::new(),
    };
    let gate = share(rt, meeting);
    let text = blank_lines(rt.alloc(), viewers as usize).expect(rt, "there is room for the lines");
    let mut reader = Pieces::whole(b"");
    outcome_of(rt, &gate, &mut reader, viewers, 2, text.as_bytes());
    let looks = (viewers as u64).saturating_mul(2);
    assert_same(rt, gate.held.get(), looks, "looks");
    assert_holds(rt, !gate.missed.is_set(), "they meet");
}

#[test]
fn five_viewers_hold_looks_at_once(rt: HostRuntime) {
    assert_meet(&rt, 5);
}

#[test]
fn viewers_hold_64_looks_at_once(rt: HostRuntime) {
    assert_meet(&rt, 64);
}
