//! Tests of command lines: each option, its bounds, and what is refused.

mod growths;

use crate::tests::assertions::{assert_holds, assert_same};
use mf_cli_options::WordsFault;
use mf_testing::command_line;
use mf_view_words::{HELP, Request, Words, read_words};
use std::alloc::Global;
use std::process::Abort;

/// What the words after the program's name ask for.
fn read(alloc: Global, texts: &[&str]) -> Result<Request, WordsFault> {
    read_words(alloc, command_line(alloc, "mfview", texts)?)
}

/// The values that words ask for, apart from the files: the columns, the rows, the pause, the design size and the resolution, and
/// whether there are frames and PGM images.
type Values = ([u32; 5], [bool; 2]);

/// The files that words ask for: the transcript, the plates and the font.
type Files<'a> = (Option<&'a str>, Option<&'a str>, Option<&'a str>);

/// The values that words ask for: numbers and flags, and the files.
pub(super) type Asked<'a> = (Values, Files<'a>);

/// What words ask for that name no option.
const DEFAULTS: Asked<'static> = (([80, 24, 0, 0, 0], [false, false]), (None, None, None));

/// All options, and what they ask for.
pub(super) const ALL_WORDS: &[&str] = &[
    "--columns",
    "1000",
    "--rows=1",
    "--pause",
    "60000",
    "--frames",
    "--transcript",
    "größe π.txt",
    "--plates=a folder",
    "--pgm",
    "--gf",
    "out.gf",
    "--design-size",
    "2047",
    "--resolution=100000",
];

pub(super) const ALL: Asked<'static> = (
    ([1000, 1, 60_000, 2047, 100_000], [true, true]),
    (Some("größe π.txt"), Some("a folder"), Some("out.gf")),
);

/// The values in the form of the tables.
fn values_of<'a>(words: &'a Words) -> Asked<'a> {
    let numbers = [
        words.columns,
        words.rows,
        words.pause,
        words.design_size,
        words.resolution,
    ];
    let files = (
        words.transcript.as_ref().map(|file| file.as_str()),
        words.plates.as_ref().map(|file| file.as_str()),
        words.gf.as_ref().map(|file| file.as_str()),
    );
    ((numbers, [words.frames, words.pgm]), files)
}

/// Asserts that a request asks for a drawing with these values.
pub(super) fn assert_asks(rt: &impl Abort, request: &Request, asked: &Asked<'_>, case: &[&str]) {
    match request {
        Request::Show(words) => assert_same(rt, values_of(words), *asked, case),
        _ => assert_holds(rt, false, case),
    }
}

/// Asserts that the words after the program's name ask for a drawing with these values.
pub(super) fn assert_shows<R: Abort + AllocGlobal>(rt: &R, texts: &[&str], asked: &Asked<'_>) {
    let request = read(rt.alloc(), texts).expect(rt, "the words are a command line");
    assert_asks(rt, &request, asked, texts);
}

/// Asserts that the words after the program's name are refused.
pub(super) fn assert_refused<R: Abort + AllocGlobal>(rt: &R, texts: &[&str]) {
    let fault = read(rt.alloc(), texts).err();
    assert_same(rt, fault, Some(WordsFault::BadWords), texts);
}

// The tables are constants, so that the prover checks the tests without them.

const SHOWN: &[(&[&str], Asked<'static>)] = &[
    (&[], DEFAULTS),
    (&["--"], DEFAULTS),
    (ALL_WORDS, ALL),
    (
        &["--columns=+01"],
        (([1, 24, 0, 0, 0], [false, false]), (None, None, None)),
    ),
    (
        &["--rows", "1000", "--columns", "7"],
        (([7, 1000, 0, 0, 0], [false, false]), (None, None, None)),
    ),
    (
        &["--pause=-0", "--frames"],
        (([80, 24, 0, 0, 0], [true, false]), (None, None, None)),
    ),
    (
        &["--gf=--plates"],
        (
            ([80, 24, 0, 0, 0], [false, false]),
            (None, None, Some("--plates")),
        ),
    ),
    (
        &["--pgm", "--plates", ""],
        (([80, 24, 0, 0, 0], [false, true]), (None, Some(""), None)),
    ),
];

#[test]
fn reads_each_option(rt: HostRuntime) {
    for (words, asked) in SHOWN {
        assert_shows(&rt, words, asked);
    }
}

const REFUSED: &[&[&str]] = &[
    &["--columns", "0"],
    &["--columns", "1001"],
    &["--rows", "0"],
    &["--rows", "1001"],
    &["--rows", "4294967320"],
    &["--pause", "60001"],
    &["--pause", "-1"],
    &["--pause=-1"],
    &["--design-size", "2048"],
    &["--design-size", "10.5"],
    &["--resolution", "100001"],
    &["--columns", ""],
    &["--columns"],
    &["--columns", "80", "--columns", "80"],
    &["--pgm"],
    &["--pgm", "--gf", "plates"],
    &["--pgm", "--help"],
    &["--plates", "--pgm"],
    &["--frames", "--frames"],
    &["--frames=true"],
    &["--help", "--help"],
    &["--help", "--view"],
    &["--asks-help"],
    &["-h"],
    &["-V"],
    &["--viewers", "2"],
    &["script.mfp"],
    &["--", "--help"],
];

#[test]
fn refuses_other_words(rt: HostRuntime) {
    for words in REFUSED {
        assert_refused(&rt, words);
    }
}

/// Asserts that the words after the program's name ask for the help text, or, where `help` is not set, for the version text.
fn assert_tells<R: Abort + AllocGlobal>(rt: &R, texts: &[&str], help: bool) {
    let request = read(rt.alloc(), texts).expect(rt, "the words are a command line");
    let told = match request {
        Request::Help => help,
        Request::Version => !help,
        Request::Show(_) => false,
    };
    assert_holds(rt, told, texts);
}

/// Help comes before the version, and both before a drawing.
#[test]
fn asks_for_texts(rt: HostRuntime) {
    assert_tells(&rt, &["--help"], true);
    assert_tells(&rt, &["--version"], false);
    assert_tells(&rt, &["--version", "--help"], true);
    assert_tells(&rt, &["--gf", "a", "--version"], false);
}

const OPTIONS: &[&str] = &[
    "--columns N ",
    "--rows N ",
    "--pause MS ",
    "--frames ",
    "--transcript FILE ",
    "--plates FOLDER ",
    "--pgm ",
    "--gf FILE ",
    "--design-size PT ",
    "--resolution DPI ",
    "--help ",
    "--version ",
];

#[test]
fn helps_with_each_option(rt: HostRuntime) {
    for option in OPTIONS {
        assert_holds(&rt, HELP.contains(*option), *option);
    }
}
