//! A pace that holds each publish until its frame was drawn, so that what is drawn does not depend on the threads, and what a pace is
//! told of publishes and frames.
use super::assertions::assert_same;
use mf_desk::Settings;
use mf_gf::FontWords;
use mf_view::{Pace, PlateFolder, ProgramFault, Showing, perform};
use mf_view_frame::{Canvas, Style};
use std::alloc::Global;
use std::process::Abort;
use std::rt::Files;
use std::sync::Wait;
use std::sync::atomic::{AtomicU64, Ordering};
use std::thread::Threads;

/// The settings of scripts: the limits of the programs, and a font without numbers.
pub(crate) const SETTINGS: Settings = Settings {
    max_ops: 1_000_000,
    max_bytes: 16_777_216,
    font: FontWords {
        ds: 0,
        cs: 0,
        hppp: 0,
        vppp: 0,
    },
};

/// How often a publish looks whether its frame was drawn before it goes on.
const TURNS: u64 = 2_000_000_000;

/// The revision that was drawn last, and what was noted: a 1, and then a digit for each publish or frame, the last digit of its
/// revision.
#[derive(Drop)]
pub(crate) struct Held {
    drawn: AtomicU64,
    publishes: AtomicU64,
    frames: AtomicU64,
}

impl Held {
    pub(crate) fn new() -> Held {
        Held {
            drawn: AtomicU64::new(0),
            publishes: AtomicU64::new(1),
            frames: AtomicU64::new(1),
        }
    }
}

/// Adds the last digit of a revision.
fn note(digits: &AtomicU64, revision: u32) {
    let before = digits.load(Ordering::SeqCst).wrapping_mul(10);
    digits.store(
        before.wrapping_add(u64::from(revision % 10)),
        Ordering::SeqCst,
    );
}

impl Pace for Held {
    fn note_publish(&self, revision: u32) {
        note(&self.publishes, revision);
        for _ in 0..TURNS {
            if self.drawn.load(Ordering::SeqCst) >= u64::from(revision) {
                return;
            }
        }
    }

    fn note_frame(&self, revision: u32) {
        note(&self.frames, revision);
        self.drawn.store(u64::from(revision), Ordering::SeqCst);
    }

    fn wait_before_look(&self) {}
}

/// Revision 1 is published twice, revision 2 once, and revision 3 not before the end.
const SCRIPT: &[u8] = b"addto currentpicture contour (0,0)--(1,0)--(1,1)--(0,1)--cycle\n\
                        publish\n\
                        publish\n\
                        addto currentpicture contour (0,0)--(2,0)--(2,1)--(0,1)--cycle\n\
                        publish\n\
                        addto currentpicture contour (0,0)--(3,0)--(3,1)--(0,1)--cycle\n";

/// Performs this script at a pace, and returns its fault.
fn fault_of<S: Abort + Wait + Threads + Files + Sync>(
    rt: &S,
    alloc: Global,
    pace: &Held,
    folder: Option<PlateFolder>,
) -> Option<ProgramFault> {
    let (mut script, mut screen, mut transcript) = (SCRIPT, Vec::new(alloc), Vec::new(alloc));
    let canvas = Canvas::new(50, 24).expect(rt, "the terminal is large enough");
    let showing = Showing {
        canvas,
        style: Style::Plain,
        folder,
    };
    perform(
        rt,
        alloc,
        &mut script,
        &mut screen,
        &mut transcript,
        pace,
        showing,
        &SETTINGS,
    )
    .err()
}

/// Each publish is noted once, with its revision, and so is each frame but the one that is drawn after the end.
#[test]
fn publishes_and_frames_are_noted(rt: HostRuntime) {
    let pace = Held::new();
    let fault = fault_of(&rt, rt.alloc(), &pace, None);
    assert_same(&rt, fault, None, "fault");
    let noted = pace.publishes.load(Ordering::SeqCst);
    assert_same(&rt, noted, 1_112, "publishes");
    assert_same(&rt, pace.frames.load(Ordering::SeqCst), 1_012, "frames");
}

/// A publish is noted after its plate: here there is no folder for plates.
#[test]
fn a_publish_without_its_plate_is_not_noted(rt: HostRuntime) {
    let (alloc, pace) = (rt.alloc(), Held::new());
    let path = String::from_str(alloc, "no/folder").expect(&rt, "there is room for a name");
    let folder = PlateFolder { path, pgm: false };
    let fault = fault_of(&rt, alloc, &pace, Some(folder));
    assert_same(&rt, fault, Some(ProgramFault::PlateFault(1)), "fault");
    let noted = pace.publishes.load(Ordering::SeqCst);
    assert_same(&rt, noted, 1, "publishes");
}
