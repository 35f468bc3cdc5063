//! Tests of sessions, and of scripts from the bytes that are read to the bytes that are written.

mod again;
mod assertions;
mod cuts;
mod faults;
mod fonts;
mod growths;
mod lengths;
mod limits;
mod lines;
mod readers;
mod second_tries;
mod session_ends;
mod sessions;
mod transcripts;
mod writers;

use assertions::assert_same;
use mf_desk::{RunFault, Settings, run};
use mf_gf::FontWords;
use mf_testing::{Pieces, Sink};
use std::fmt::Debug;
use std::io::Read;
use std::process::Abort;
use std::sync::Wait;

/// Settings that allow more operations on `currentpicture`, and more bytes of a font file, than any of these scripts has.
const AMPLE: Settings = Settings {
    max_ops: 1_000_000,
    max_bytes: 1_000_000,
    font: FontWords {
        ds: 0,
        cs: 0,
        hppp: 0,
        vppp: 0,
    },
};

/// How a run ends: its fault, or `None`, and what it has printed.
type End<'a> = (Option<RunFault>, &'a [u8]);

/// Asserts that the reader's script, run with these settings, ends in this way.
fn assert_ends<R: Abort + Wait + AllocGlobal, I: Read, C: Debug + Drop>(
    rt: &R,
    reader: &mut I,
    settings: &Settings,
    end: End<'_>,
    case: C,
) {
    let alloc = rt.alloc();
    let mut writer = Sink::new(alloc);
    let result = run(rt, alloc, reader, &mut writer, settings);
    assert_same(rt, (result.err(), writer.bytes()), end, case);
}

/// Asserts that the reader's script runs to its end and prints this transcript.
fn assert_prints<R: Abort + Wait + AllocGlobal>(
    rt: &R,
    mut reader: Pieces<'_>,
    transcript: &[u8],
    case: &str,
) {
    assert_ends(rt, &mut reader, &AMPLE, (None, transcript), case);
}
