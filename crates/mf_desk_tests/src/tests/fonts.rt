//! The font files that scripts make. Those of the scripts in `tests/scripts` are in that folder.

use super::{AMPLE, End, assert_ends};
use crate::tests::assertions::{assert_holds, assert_same};
use mf_desk::{Outcome, RunFault, Settings, run};
use mf_gf::FontWords;
use mf_testing::{Pieces, RECT, Sink};
use std::process::Abort;
use std::sync::Wait;

/// Runs the script to its end, and asserts that it prints this transcript.
fn outcome_of<R: Abort + Wait + AllocGlobal>(
    rt: &R,
    settings: &Settings,
    script: &str,
    transcript: &str,
) -> Outcome {
    let alloc = rt.alloc();
    let mut writer = Sink::new(alloc);
    let mut reader = Pieces::whole(script.as_bytes());
    let outcome = run(rt, alloc, &mut reader, &mut writer, settings);
    assert_same(rt, writer.bytes(), transcript.as_bytes(), script);
    outcome.expect(rt, "the script is run to its end")
}

/// A script, what it prints, and its font file: the length, and the bytes at some places.
struct Shipment {
    script: &'static str,
    text: &'static str,
    length: usize,
    parts: &'static [(usize, &'static [u8])],
}

/// Asserts that a file has these bytes at these places.
fn assert_parts(rt: &impl Abort, bytes: &[u8], parts: &[(usize, &[u8])]) {
    for (place, part) in parts {
        let rest = bytes.get(*place..).expect(rt, "the place is in the file");
        assert_holds(rt, rest.starts_with(part), ("bytes at", *place));
    }
}

/// Asserts that the script runs to its end, prints its text and makes its font file.
fn assert_ships<R: Abort + Wait + AllocGlobal>(rt: &R, settings: &Settings, shipment: &Shipment) {
    let outcome = outcome_of(rt, settings, shipment.script, shipment.text);
    let gf = outcome.gf.expect(rt, "a character was shipped");
    assert_same(rt, gf.bytes().len(), shipment.length, shipment.script);
    assert_parts(rt, gf.bytes(), shipment.parts);
}

/// Asserts that the script prints this transcript, and ships nothing.
fn assert_ships_nothing<R: Abort + Wait + AllocGlobal>(rt: &R, script: &str, transcript: &str) {
    let outcome = outcome_of(rt, &AMPLE, script, transcript);
    assert_holds(rt, outcome.gf.is_none(), script);
}

/// The whole field is reflected, culled and shipped. Each of its 8,190 rows takes one byte that starts it and three that paint
/// it, so the postamble comes after 32,789 bytes.
const WHOLE_FIELD: &Shipment = &Shipment {
    script: "addto a contour (-4095,-4095)--(4095,-4095)--(4095,4095)--(-4095,4095)--cycle\n\
             show totalweight a\n\
             a := a xscaled -1\n\
             show totalweight a\n\
             cull a keeping (1,1) withweight 3\n\
             show totalweight a\n\
             shipout a code 97 dx 0 width 0\n",
    text: "totalweight 67076100\ntotalweight 67076100\ntotalweight 201228300\n[97]\n",
    length: 32_848,
    parts: &[(32_789, b"\xf8\x00\x00\x80\x15")],
};

#[test]
fn ship_the_whole_field(rt: HostRuntime) {
    assert_ships(&rt, &AMPLE, WHOLE_FIELD);
}

/// The whole field is shipped as it is. The first row is painted from its left end, and every other row after the byte that
/// starts it.
const WHOLE_FIELD_AS_IT_IS: &Shipment = &Shipment {
    script: "addto a contour (-4095,-4095)--(4095,-4095)--(4095,4095)--(-4095,4095)--cycle\n\
             shipout a code 1 dx 0 width 0\n",
    text: "[1]\n",
    length: 32_848,
    parts: &[
        (
            0,
            b"\xf7\x83\x00\
              \x43\x00\x00\x00\x01\xff\xff\xff\xff\
              \xff\xff\xf0\x01\x00\x00\x0f\xff\xff\xff\xf0\x01\x00\x00\x0f\xfe\
              \x00\x41\x1f\xfe\
              \x4a\x41\x1f\xfe\x4a",
        ),
        (32_788, b"\x45"),
        (32_789, b"\xf8\x00\x00\x80\x15"),
        (
            32_826,
            b"\xf6\x01\x00\x00\x00\x00\x00\x00\x00\x00\x03\
              \xf9\x00\x00\x80\x15\x83\xdf\xdf\xdf\xdf\xdf",
        ),
    ],
};

#[test]
fn ship_the_whole_field_as_it_is(rt: HostRuntime) {
    assert_ships(&rt, &AMPLE, WHOLE_FIELD_AS_IT_IS);
}

/// Font words, which are in the postamble.
const WITH_FONT_WORDS: &Settings = &Settings {
    font: FontWords {
        ds: 1,
        cs: 4_294_967_295,
        hppp: -2,
        vppp: 65_536,
    },
    ..AMPLE
};

const RECT_WITH_FONT_WORDS: &Shipment = &Shipment {
    script: RECT,
    text: "[65]\n",
    length: 72,
    parts: &[(
        19,
        b"\x00\x00\x00\x01\xff\xff\xff\xff\xff\xff\xff\xfe\x00\x01\x00\x00",
    )],
};

#[test]
fn ship_with_font_words(rt: HostRuntime) {
    assert_ships(&rt, WITH_FONT_WORDS, RECT_WITH_FONT_WORDS);
}

#[test]
fn ship_nothing(rt: HostRuntime) {
    assert_ships_nothing(&rt, "", "");
    assert_ships_nothing(&rt, "show a\n", "blank\n");
    assert_ships_nothing(
        &rt,
        "shipout a code 256 dx 0 width 0\n",
        "refused Syntax 16\n",
    );
}

/// How a script that ships the rectangle ends, by the greatest number of bytes that the font file may have.
const LIMITS: &[(u32, End<'_>)] = &[
    (0, (Some(RunFault::FileTooLong), b"")),
    (2, (Some(RunFault::FileTooLong), b"")),
    (3, (None, b"refused FileTooLong\n")),
    (13, (None, b"refused FileTooLong\n")),
    (71, (Some(RunFault::FileTooLong), b"[65]\n")),
    (72, (None, b"[65]\n")),
];

fn assert_limits<R: Abort + Wait + AllocGlobal>(rt: &R, cases: &[(u32, End<'_>)]) {
    for (max_bytes, end) in cases {
        let settings = Settings {
            max_bytes: *max_bytes,
            ..AMPLE
        };
        let mut reader = Pieces::whole(RECT.as_bytes());
        assert_ends(rt, &mut reader, &settings, *end, *max_bytes);
    }
}

/// A character with no room in the file is refused, and the script goes on. An end with no room is a fault after the complete
/// transcript, and a limit of less than three bytes is a fault before it.
#[test]
fn ship_within_limits(rt: HostRuntime) {
    assert_limits(&rt, LIMITS);
}
