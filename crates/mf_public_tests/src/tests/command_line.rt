//! The calls of `mf_cli`, and a contract in words that it passes on.
ghost use Rattle.std.specs.Prelude.{◌≡◌, ◌≤◌, IfOk, IsErrOf, OnOk};
ghost use Rattle.mf_cli.specs.CommandLine.{IsCommandLine, greatest_viewers, viewers_in};
ghost use Rattle.mf_cli.specs.Values.{texts_of};

use crate::tests::assertions::assert_same;
use mf_cli::{Words, WordsFault, program, read_words};
use mf_testing::words_of;
use std::alloc::Global;
use std::process::Abort;
use std::rt::Files;
use std::sync::Wait;
use std::thread::Threads;

/// Words of a command line.
const WORDS: &[&str] = &["mfpic", "--viewers", "2", "--gf", "out.gf"];

/// What words ask for.
fn read(alloc: Global, words: Vec<String>) -> Result<Words, WordsFault>
    ensures accepted { OnOk result (IsCommandLine (texts_of words)) }
    ensures refused { IsErrOf result WordsFault.BadWords → ¬ IsCommandLine (texts_of words) }
    ensures viewers { IfOk result (λ asked. asked.viewers ≡ viewers_in (texts_of words)) }
    ensures few { IfOk result (λ asked. asked.viewers ≤ greatest_viewers) }
{
    let asked: Result<Words, WordsFault> = read_words(alloc, words);
    asked
}

/// The name of a fault.
fn name_of(fault: WordsFault) -> &'static str {
    match fault {
        WordsFault::BadWords => "BadWords",
        WordsFault::OutOfMemory => "OutOfMemory",
    }
}

#[test]
fn reads_words(rt: HostRuntime) {
    let words: Vec<String> = words_of(rt.alloc(), WORDS).expect(&rt, "there is room for the words");
    match read(rt.alloc(), words) {
        Ok(Words { viewers, gf }) => {
            let (viewers, gf): (u32, Option<String>) = (viewers, gf);
            let found = (viewers, gf.as_ref().map(|file| file.as_str()));
            assert_same(&rt, found, (2, Some("out.gf")), "the words");
        }
        Err(fault) => panic!(rt; "{}", name_of(fault)),
    }
}

/// Asserts that the program, with these words, exits with this status and writes these texts.
fn assert_ends<R: Abort + Wait + Threads + Files + AllocGlobal>(
    rt: &R,
    words: &[&str],
    status: u8,
    text: &str,
    message: &str,
) {
    let alloc = rt.alloc();
    let words: Vec<String> = words_of(alloc, words).expect(rt, "there is room for the words");
    let mut reader: &[u8] = b"show totalweight currentpicture\n";
    let mut writer: Vec<u8> = Vec::new(alloc);
    let mut errors: Vec<u8> = Vec::new(alloc);
    let ended: u8 = program(rt, alloc, words, &mut reader, &mut writer, &mut errors);
    let found = (ended, writer.as_slice(), errors.as_slice());
    assert_same(
        rt,
        found,
        (status, text.as_bytes(), message.as_bytes()),
        "the program",
    );
}

#[test]
fn runs_the_program(rt: HostRuntime) {
    assert_ends(&rt, &["mfpic"], 0, "totalweight 0\n", "");
    assert_ends(
        &rt,
        &["mfpic", "script"],
        2,
        "",
        "usage: mfpic [--viewers 0..16] [--gf FILE]\n",
    );
}
