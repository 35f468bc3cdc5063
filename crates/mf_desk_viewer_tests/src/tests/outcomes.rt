//! Scripts that are performed beside viewers at gates, and what the viewers have seen.
ghost use Rattle.std.specs.Prelude.{◌≤◌};

use super::AMPLE;
use super::flags::{Flag, Tells};
use crate::tests::assertions::assert_same;
use mf_desk::{Gate, Glance, Outcome, perform};
use mf_testing::Sink;
use std::io::Read;
use std::process::Abort;
use std::sync::{Arc, Wait};
use std::thread::Threads;

/// A gate that threads can share.
pub(super) fn share<R: Abort + AllocGlobal, G: Gate + Drop>(rt: &R, gate: G) -> Arc<G> {
    Arc::new(rt.alloc(), gate).expect(rt, "there is room for a gate")
}

/// Performs the reader's script to its end beside `viewers` viewers, who look `looks` times each. Asserts that it prints this
/// transcript, and that no thread holds the gate any more when it returns.
pub(super) fn outcome_of<R: Abort + Wait + Threads + AllocGlobal, I: Read, G: Gate + 'static>(
    rt: &R,
    gate: &Arc<G>,
    reader: &mut I,
    viewers: u32,
    looks: u32,
    transcript: &[u8],
) -> Outcome
    requires { viewers ≤ 64 }
{
    let alloc = rt.alloc();
    let mut writer = Sink::new(alloc);
    let result = perform(rt, alloc, reader, &mut writer, &AMPLE, viewers, looks, gate);
    assert_same(rt, writer.bytes(), transcript, "the transcript");
    assert_same(rt, Arc::strong_count(gate), 1, "owners of the gate");
    result.expect(rt, "the script is performed to its end")
}

/// Like `outcome_of`, but also sets the flag `told.0` when the text `told.1` is printed.
pub(super) fn outcome_telling<R: Abort + Wait + Threads + AllocGlobal, I: Read, G: Gate + 'static>(
    rt: &R,
    gate: &Arc<G>,
    reader: &mut I,
    viewers: u32,
    looks: u32,
    told: (&Flag, &[u8]),
    transcript: &[u8],
) -> Outcome
    requires { viewers ≤ 64 }
{
    let alloc = rt.alloc();
    let (flag, text) = told;
    let mut writer = Tells {
        flag,
        text,
        sink: Sink::new(alloc),
    };
    let result = perform(rt, alloc, reader, &mut writer, &AMPLE, viewers, looks, gate);
    assert_same(rt, writer.sink.bytes(), transcript, "the transcript");
    assert_same(rt, Arc::strong_count(gate), 1, "owners of the gate");
    result.expect(rt, "the script is performed to its end")
}

/// Asserts that the viewer with this number has this record.
pub(super) fn assert_saw(rt: &impl Abort, outcome: &Outcome, viewer: usize, seen: &[Glance]) {
    let found = outcome.seen.get(viewer).map(|seen| seen.as_slice());
    assert_same(rt, found, Some(seen), viewer);
}
