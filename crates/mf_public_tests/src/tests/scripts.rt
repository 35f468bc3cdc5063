//! The calls of `mf_desk` on scripts, and a contract in its words.
ghost use Rattle.std.specs.Io.KnownBytes.{IsAtEnd};
ghost use Rattle.std.specs.Prelude.{ℕ, IfOk, OnOk};
ghost use Rattle.mf_desk.specs.Performances.{Performs, task};
ghost use Rattle.mf_desk.specs.Streams.{streams_of};

use super::fonts::NO_WORDS;
use crate::tests::assertions::assert_same;
use mf_desk::{
    Effect, EndedRun, Gate, Glance, Observer, OpenGate, Outcome, PerformedLine, Progress, RunFault,
    Session, Settings, Stopped, perform, run,
};
use mf_gf::GfBytes;
use std::alloc::Global;
use std::io::{Read, Write};
use std::process::Abort;
use std::sync::{Arc, Wait};
use std::thread::Threads;

const SETTINGS: Settings = Settings {
    max_ops: 10,
    max_bytes: 1_000,
    font: NO_WORDS,
};

/// A rectangle, which is shipped and published.
const SCRIPT: &str = "addto currentpicture contour (0,0)--(3,0)--(3,2)--(0,2)--cycle\n\
    shipout currentpicture code 65 dx 327680 width 0\n\
    publish\n";

/// The name of a fault, and the number of bytes that it reports.
fn parts_of(fault: RunFault) -> (&'static str, Option<u128>) {
    match fault {
        RunFault::OutOfMemory => ("OutOfMemory", None),
        RunFault::NoPlace => ("NoPlace", None),
        RunFault::FileTooLong => ("FileTooLong", None),
        RunFault::ReadFault => ("ReadFault", None),
        RunFault::WriteFault(count) => ("WriteFault", Some(count)),
        RunFault::NoLook => ("NoLook", None),
    }
}

/// Runs a script.
fn run_script<S: Wait, R: Read, W: Write>(
    rt: &S,
    alloc: Global,
    reader: &mut R,
    writer: &mut W,
) -> Result<Outcome, RunFault>
    ensures transcript { IfOk result (λ outcome. (looks : ℕ)
        → Performs (task SETTINGS 0 looks)
        (streams_of R.remaining reader.old reader.new W.contents writer.old writer.new) outcome) }
    ensures end { OnOk result (IsAtEnd (R.remaining reader.new)) }
{
    let settings: &Settings = &SETTINGS;
    let ended: Result<Outcome, RunFault> = run(rt, alloc, reader, writer, settings);
    ended
}

/// The outcome of a run that has no fault.
fn outcome_of(rt: &impl Abort, ended: Result<Outcome, RunFault>) -> Outcome {
    match ended {
        Ok(outcome) => outcome,
        Err(fault) => panic!(rt; "{:?}", parts_of(fault)),
    }
}

/// Asserts that the font file of an outcome has the bytes of the rectangle alone.
fn assert_font(rt: &impl Abort, gf: Option<GfBytes>) {
    let length = gf.map(|file| file.bytes().len());
    assert_same(rt, length, Some(72), "the font file");
}

#[test]
fn runs_a_script(rt: HostRuntime) {
    let alloc = rt.alloc();
    let mut reader: &[u8] = SCRIPT.as_bytes();
    let mut writer: Vec<u8> = Vec::new(alloc);
    let ended = run_script(&rt, alloc, &mut reader, &mut writer);
    let Outcome { gf, seen } = outcome_of(&rt, ended);
    assert_font(&rt, gf);
    let seen: Vec<Vec<Glance>> = seen;
    assert_same(&rt, seen.len(), 0, "the records");
    assert_same(
        &rt,
        writer.as_slice(),
        b"[65]\npublished 1\n".as_slice(),
        "the transcript",
    );
}

/// A gate that holds nobody.
#[derive(Drop)]
struct Passage;

impl Gate for Passage {
    fn hold(&self, viewer: u32, look: u32) {
        OpenGate.hold(viewer, look);
    }
}

/// Performs the script beside a viewer that looks once at this gate, and returns the record of that viewer.
fn record_at<R: Abort + Wait + Threads, G: Gate + 'static>(
    rt: &R,
    alloc: Global,
    gate: G,
) -> Option<Glance> {
    let gate: Arc<G> = Arc::new(alloc, gate).expect(rt, "there is room for the gate");
    let (viewers, looks): (u32, u32) = (1, 1);
    let mut reader: &[u8] = SCRIPT.as_bytes();
    let mut writer: Vec<u8> = Vec::new(alloc);
    let ended: Result<Outcome, RunFault> = perform(
        rt,
        alloc,
        &mut reader,
        &mut writer,
        &SETTINGS,
        viewers,
        looks,
        &gate,
    );
    let Outcome { gf, seen } = outcome_of(rt, ended);
    assert_font(rt, gf);
    seen.first().and_then(|record| record.last().copied())
}

#[test]
fn performs_a_script_beside_a_viewer(rt: HostRuntime) {
    let last = Glance {
        revision: 1,
        total: 6,
    };
    assert_same(
        &rt,
        record_at(&rt, rt.alloc(), OpenGate),
        Some(last),
        "an open gate",
    );
    assert_same(
        &rt,
        record_at(&rt, rt.alloc(), Passage),
        Some(last),
        "another gate",
    );
}

/// Notes three digits for each line, its number, what it has done and the revision after it, and ends the run after the line with
/// the number `last`.
#[derive(Drop)]
struct Notes {
    digits: u64,
    last: u64,
}

impl Observer for Notes {
    type Fault = u64;

    fn note_line(&mut self, line: PerformedLine, session: &Session) -> Result<(), u64> {
        let PerformedLine { number, effect } = line;
        let digit = match effect {
            Effect::Published => 1,
            Effect::Shipped(_) => 2,
            Effect::Refused => 3,
            Effect::Other => 4,
        };
        let revision: u32 = session.revision();
        for part in [number, digit, u64::from(revision)] {
            self.digits = self.digits.wrapping_mul(10).wrapping_add(part);
        }
        if number == self.last {
            Err(number)
        } else {
            Ok(())
        }
    }
}

/// Lines that publish, draw, ship, are refused, do nothing, and print.
const OBSERVED: &[u8] = b"publish\n\
    addto currentpicture contour (0,0)--(3,0)--(3,2)--(0,2)--cycle\n\
    shipout a code 0 dx 0 width 0\nshow\n\nshow totalweight a";

/// What an observer has noted that ends the run after a line, with which number it has, if it has, and the transcript.
fn observe<S: Abort + Wait>(rt: &S, alloc: Global, last: u64) -> (u64, Option<u64>, Vec<u8>) {
    let (mut reader, mut writer): (&[u8], Vec<u8>) = (OBSERVED, Vec::new(alloc));
    let mut notes = Notes { digits: 0, last };
    let (mut progress, _) = Progress::new(rt, alloc, &SETTINGS, 0).expect(
        rt,
        "there is room for a run",
    );
    let stopped: Result<(), Stopped<u64>> = progress.read_all(
        rt,
        alloc,
        &mut reader,
        &mut writer,
        &mut notes,
    );
    match stopped {
        Ok(()) => {
            let ended: EndedRun = progress.finish(rt).expect(rt, "there is room for the end");
            let outcome = ended.conclude(rt, &SETTINGS, Vec::new(alloc));
            assert_same(rt, outcome.is_ok(), true, "the outcome");
            (notes.digits, None, writer)
        }
        Err(Stopped::Observer(number)) => {
            progress.discard(rt);
            (notes.digits, Some(number), writer)
        }
        Err(Stopped::Run(fault)) => {
            progress.discard(rt);
            panic!(rt; "{:?}", parts_of(fault))
        }
    }
}

/// The second line is an operation, so the revision is 1 after it. The fourth is refused, the fifth is empty.
#[test]
fn an_observer_is_told_of_each_line(rt: HostRuntime) {
    let alloc = rt.alloc();
    let (digits, number, whole) = observe(&rt, alloc, 0);
    let noted = (110_241_321_431_541_641, None);
    assert_same(&rt, (digits, number), noted, "all lines");
    let (digits, number, front) = observe(&rt, alloc, 4);
    let noted = (110_241_321_431, Some(4));
    assert_same(&rt, (digits, number), noted, "the first four");
    let rest = whole.strip_prefix(front.as_slice());
    assert_same(
        &rt,
        rest,
        Some(b"totalweight 0\n".as_slice()),
        "the last text",
    );
}
