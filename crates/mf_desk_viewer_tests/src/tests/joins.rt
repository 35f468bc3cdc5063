//! The threads of viewers have ended when `perform` returns, also when it returns a fault.

use super::AMPLE;
use super::flags::{Flag, ReadsAfter};
use crate::tests::assertions::{assert_holds, assert_same};
use mf_desk::{Gate, OpenGate, RunFault, perform};
use mf_testing::{FlushFails, Pieces, Sink};
use std::io::Write;
use std::process::Abort;
use std::sync::{Arc, Wait};
use std::thread::{Threads, yield_now};

/// A gate that holds a look for a while, and sets flags at its start and at its end.
#[derive(Drop)]
struct LeavesLate {
    held: Flag,
    left: Flag,
}

impl Gate for LeavesLate {
    fn hold(&self, _viewer: u32, _look: u32) {
        self.held.set();
        for _ in 0..10_000 {
            yield_now();
        }
        self.left.set();
    }
}

/// Asserts that a fault that comes while a look is held is returned only when the look has been left and its thread, which shares
/// the gate, has ended. The writer has taken this text.
fn assert_ends_late<R: Abort + Wait + Threads + AllocGlobal>(
    rt: &R,
    pieces: Pieces<'_>,
    mut writer: Sink,
    fault: RunFault,
    text: &[u8],
) {
    let alloc = rt.alloc();
    let gate = LeavesLate {
        held: Flag::new(),
        left: Flag::new(),
    };
    let gate = Arc::new(alloc, gate).expect(rt, "there is room for a gate");
    let mut reader = ReadsAfter {
        flag: &gate.held,
        pieces,
    };
    let result = perform(rt, alloc, &mut reader, &mut writer, &AMPLE, 1, 1, &gate);
    assert_same(
        rt,
        (result.err(), writer.bytes()),
        (Some(fault), text),
        fault,
    );
    assert_holds(rt, gate.left.is_set(), "the look was left");
    assert_same(rt, Arc::strong_count(&gate), 1, "the threads have ended");
}

/// A line, and what it prints.
const LINE: &[u8] = b"show totalweight a\n";

const TEXT: &[u8] = b"totalweight 0\n";

#[test]
fn read_fault_waits_for_a_held_look(rt: HostRuntime) {
    let pieces = Pieces::failing(LINE);
    let writer = Sink::new(rt.alloc());
    assert_ends_late(&rt, pieces, writer, RunFault::ReadFault, TEXT);
}

#[test]
fn write_fault_waits_for_a_held_look(rt: HostRuntime) {
    let pieces = Pieces::whole(LINE);
    let writer = Sink::failing(rt.alloc(), 5);
    assert_ends_late(&rt, pieces, writer, RunFault::WriteFault(5), b"total");
}

/// Asserts that threads that have hardly started when the fault comes are joined, too: none holds the gate any more.
fn assert_joins_all<R: Abort + Wait + Threads + AllocGlobal, W: Write>(
    rt: &R,
    writer: &mut W,
    fault: RunFault,
) {
    let alloc = rt.alloc();
    let gate = Arc::new(alloc, OpenGate).expect(rt, "there is room for a gate");
    let mut reader = Pieces::failing(b"");
    let result = perform(rt, alloc, &mut reader, writer, &AMPLE, 64, 1, &gate);
    assert_same(rt, result.err(), Some(fault), "nothing is read");
    assert_same(rt, Arc::strong_count(&gate), 1, "the threads have ended");
}

#[test]
fn faults_wait_for_all_threads(rt: HostRuntime) {
    for _ in 0..10 {
        assert_joins_all(&rt, &mut Sink::new(rt.alloc()), RunFault::ReadFault);
    }
}

#[test]
fn write_faults_wait_for_all_threads(rt: HostRuntime) {
    for _ in 0..10 {
        let mut writer = FlushFails::once(rt.alloc(), 0);
        assert_joins_all(&rt, &mut writer, RunFault::WriteFault(0));
    }
}
