//! Tests of command lines: each form that is accepted, and each that is refused.
use crate::tests::assertions::assert_same;
use mf_cli::{Words, WordsFault, read_words};
use mf_testing::{command_line, words_of};
use std::alloc::Global;
use std::process::Abort;
use std::test::Fail;

/// What the words after the program's name ask for.
fn read(alloc: Global, texts: &[&str]) -> Result<Words, WordsFault> {
    read_words(alloc, command_line(alloc, "mfpic", texts)?)
}

/// Asserts that the words ask for `viewers` viewers and this FILE.
pub(super) fn assert_words(
    rt: &impl Abort,
    words: &Words,
    viewers: u32,
    file: Option<&str>,
    case: &[&str],
) {
    let found = (words.viewers, words.gf.as_ref().map(|file| file.as_str()));
    assert_same(rt, found, (viewers, file), case);
}

/// Asserts that the words after the program's name ask for `viewers` viewers and this FILE.
pub(super) fn assert_reads<R: Abort + AllocGlobal>(
    rt: &R,
    texts: &[&str],
    viewers: u32,
    file: Option<&str>,
) {
    let words = read(rt.alloc(), texts).expect(rt, "the words are a command line");
    assert_words(rt, &words, viewers, file, texts);
}

/// Asserts that the words after the program's name are refused.
pub(super) fn assert_refused<R: Abort + AllocGlobal>(rt: &R, texts: &[&str]) {
    let fault = read(rt.alloc(), texts).err();
    assert_same(rt, fault, Some(WordsFault::BadWords), texts);
}

/// Asserts that all these words, the first of which is the program's name, ask for nothing.
fn assert_asks_for_nothing<R: Abort + AllocGlobal>(rt: &R, texts: &[&str]) {
    let alloc = rt.alloc();
    let words = words_of(alloc, texts).expect(rt, "there is room for the words");
    let asked = read_words(alloc, words).expect(rt, "the words are a command line");
    assert_words(rt, &asked, 0, None, texts);
}

#[test]
fn needs_no_words(rt: HostRuntime) {
    assert_reads(&rt, &[], 0, None);
    assert_reads(&rt, &["--"], 0, None);
    assert_asks_for_nothing(&rt, &[]);
}

// The tables are constants, so that the prover checks the tests without them.

const NUMBERS: &[(&str, u32)] = &[
    ("0", 0),
    ("1", 1),
    ("16", 16),
    ("+3", 3),
    ("03", 3),
    ("+016", 16),
    ("000000000000000000000000000007", 7),
];

const NUMBERS_IN_ONE_WORD: &[(&str, u32)] = &[
    ("--viewers=16", 16),
    ("--viewers=+3", 3),
    ("--viewers=-0", 0),
];

/// N is a number from 0 to 16, in any spelling that is accepted for a 64-bit number.
#[test]
fn reads_the_number(rt: HostRuntime) {
    for (number, viewers) in NUMBERS {
        assert_reads(&rt, &["--viewers", *number], *viewers, None);
    }
    for (word, viewers) in NUMBERS_IN_ONE_WORD {
        assert_reads(&rt, &[*word], *viewers, None);
    }
}

const NO_NUMBERS: &[&str] = &[
    "17",
    "-1",
    "=3",
    "x",
    "",
    " 3",
    "3 ",
    "3.0",
    "0x3",
    "+",
    "++3",
    "+-3",
    "٣",
    "4294967295",
    "4294967296",
    "18446744073709551616",
    "--",
    "--gf",
    "--viewers",
];

#[test]
fn refuses_other_numbers_of_viewers(rt: HostRuntime) -> Result<(), Fail> {
    for number in NO_NUMBERS {
        assert_refused(&rt, &["--viewers", *number]);
        let word = ["--viewers=", *number].concat(rt.alloc())?;
        assert_refused(&rt, &[word.as_str()]);
    }
    Ok(())
}

const BOTH: &[&[&str]] = &[
    &["--viewers", "2", "--gf", "a"],
    &["--gf", "a", "--viewers", "2"],
    &["--gf", "a", "--viewers=2", "--"],
    &["--viewers", "+2", "--gf=a", "--"],
];

#[test]
fn reads_both_in_either_order(rt: HostRuntime) {
    for words in BOTH {
        assert_reads(&rt, words, 2, Some("a"));
    }
}

const FILES: &[&str] = &[
    "out.gf",
    "",
    "-",
    " a file ",
    "größe π.gf",
    "a=b",
    "../x/y.gf",
    "help",
];

const FILES_IN_ONE_WORD: &[(&str, &str)] = &[
    ("--gf=out.gf", "out.gf"),
    ("--gf=", ""),
    ("--gf=-", "-"),
    ("--gf=--gf", "--gf"),
    ("--gf=-g", "-g"),
    ("--gf==x", "=x"),
    ("--gf=a=b", "a=b"),
    ("--gf=größe π.gf", "größe π.gf"),
];

/// FILE is any text. A word that begins with `-` is a FILE only if it is `-` itself, or if it comes after `=`.
#[test]
fn takes_the_file_as_it_is(rt: HostRuntime) {
    for file in FILES {
        assert_reads(&rt, &["--gf", *file], 0, Some(*file));
    }
    for (word, file) in FILES_IN_ONE_WORD {
        assert_reads(&rt, &[*word], 0, Some(*file));
        assert_reads(&rt, &[*word, "--"], 0, Some(*file));
    }
}

const ONE_WORD: &[&str] = &[
    "--gf",
    "x",
    "",
    " ",
    "-",
    "-g",
    "-gx",
    "--g",
    "--gfx",
    "--GF",
    "gf",
    "help",
    "version",
    "--help",
    "-h",
    "-?",
    "--version",
    "-V",
    "--viewers",
    "--=x",
    "---",
    "--gf ",
    "größe",
];

#[test]
fn refuses_one_word(rt: HostRuntime) {
    for word in ONE_WORD {
        assert_refused(&rt, &[*word]);
    }
}

const TWO_WORDS: &[(&str, &str)] = &[
    ("--gf", "--gf"),
    ("--gf", "--viewers"),
    ("--gf", "--help"),
    ("--gf", "-h"),
    ("--gf", "--"),
    ("--gf", "-x"),
    ("--gf", "-1"),
    ("--gf", "--x"),
    ("--gf=a", "b"),
    ("--gf=a", "--gf=b"),
    ("--gf=a", "--gf"),
    ("--", "x"),
    ("--", "--gf=a"),
    ("--", "--"),
    ("-g", "x"),
    ("x", "--gf=a"),
    ("--view", "3"),
    ("--viewer", "3"),
    ("-v", "3"),
    ("--viewers", "-0"),
    ("--viewers=2", "--viewers=2"),
    ("--viewers=2", "--viewers"),
    ("--viewers=2", "3"),
];

#[test]
fn refuses_two_words(rt: HostRuntime) {
    for (first, second) in TWO_WORDS {
        assert_refused(&rt, &[*first, *second]);
    }
}

const MORE_WORDS: &[&[&str]] = &[
    &["--gf", "a", "b"],
    &["--gf", "a", "--gf"],
    &["--gf", "--", "a"],
    &["--", "--gf", "a"],
    &["x", "--gf", "a"],
    &["--gf", "--viewers", "3"],
    &["--gf", "--viewers=3", "a"],
    &["--viewers", "--gf", "a"],
    &["--viewers", "3", "4"],
    &["--viewers", "3", "--viewers"],
    &["--viewers", "3", "--viewers=3"],
    &["--gf", "a", "--gf", "a"],
    &["--viewers", "2", "--viewers", "2"],
    &["--viewers", "17", "--gf", "a"],
    &["--gf", "a", "--viewers", "17"],
    &["--gf", "a", "b", "--viewers=2"],
];

#[test]
fn refuses_more_words(rt: HostRuntime) {
    for words in MORE_WORDS {
        assert_refused(&rt, words);
    }
}

const NAMES: &[&str] = &["", "--gf", "--gf=a", "--help", "-", "a/b/mfpic"];

/// The first word is the program's name, whatever it is.
#[test]
fn ignores_the_first_word(rt: HostRuntime) {
    for name in NAMES {
        assert_asks_for_nothing(&rt, &[*name]);
    }
}
