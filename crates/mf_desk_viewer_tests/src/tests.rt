//! Tests of scripts that run beside viewers, each in a thread of its own.
ghost use Rattle.std.specs.Prelude.{◌≤◌};

mod assertions;
mod ends;
mod flags;
mod gates;
mod growths;
mod joins;
mod lines;
mod meetings;
mod numbers;
mod outcomes;
mod readers;
mod texts;
mod viewers;
mod writers;

use assertions::assert_same;
use mf_desk::{Glance, OpenGate, Outcome, RunFault, Settings, perform};
use mf_gf::FontWords;
use std::io::{Read, Write};
use std::process::Abort;
use std::sync::{Arc, Wait};
use std::thread::Threads;

/// Settings that allow more operations on `currentpicture`, and more bytes of a font file, than any of these scripts has.
const AMPLE: Settings = Settings {
    max_ops: 1_000_000,
    max_bytes: 1_000_000,
    font: FontWords {
        ds: 0,
        cs: 0,
        hppp: 0,
        vppp: 0,
    },
};

/// A rectangle of 3 by 2 pixels.
const FILLED: &str = "addto currentpicture contour (0,0)--(3,0)--(3,2)--(0,2)--cycle\n";

/// What this prints beside two viewers.
const BOTH_SEE_SIX: &str = "viewer 0 revision 1 totalweight 6\n\
                            viewer 1 revision 1 totalweight 6\n";

/// A rectangle of 3 by 2 pixels, published.
const PUBLISHED: &str = "addto currentpicture contour (0,0)--(3,0)--(3,2)--(0,2)--cycle\n\
                         publish\n";

/// What this prints beside two viewers.
const PUBLISHED_TEXT: &str = "published 1\n\
                              viewer 0 revision 1 totalweight 6\n\
                              viewer 1 revision 1 totalweight 6\n";

/// What two viewers print where nothing is drawn.
const BOTH_SEE_NOTHING: &str = "viewer 0 revision 0 totalweight 0\n\
                                viewer 1 revision 0 totalweight 0\n";

/// What a viewer sees before the rectangle is published, and after that.
const BLANK: Glance = Glance {
    revision: 0,
    total: 0,
};

const SIX: Glance = Glance {
    revision: 1,
    total: 6,
};

/// How a run ends: its fault, or `None`, and what it has printed.
type End<'a> = (Option<RunFault>, &'a [u8]);

/// Performs the reader's script beside `viewers` viewers, who look `looks` times each. Asserts that no thread holds the gate any
/// more when it returns.
fn perform_beside<R: Abort + Wait + Threads + AllocGlobal, I: Read, W: Write>(
    rt: &R,
    reader: &mut I,
    writer: &mut W,
    settings: &Settings,
    viewers: u32,
    looks: u32,
) -> Result<Outcome, RunFault>
    requires { viewers ≤ 64 }
{
    let alloc = rt.alloc();
    let gate = Arc::new(alloc, OpenGate).expect(rt, "there is room for a gate");
    let result = perform(rt, alloc, reader, writer, settings, viewers, looks, &gate);
    assert_same(rt, Arc::strong_count(&gate), 1, "owners of the gate");
    result
}
