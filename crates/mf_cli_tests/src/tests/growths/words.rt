//! Words that are read while allocations are refused.

use crate::tests::assertions::{assert_holds, assert_same};
use crate::tests::words::{assert_reads, assert_refused, assert_words};
use mf_cli::{Words, WordsFault, read_words};
use mf_testing::{command_line, grow_again, refuse_growths};
use std::process::Abort;

/// What the words after the program's name ask for. Allocations are refused once the list of words is made.
fn read_while_refused<R: Abort + AllocGlobal>(rt: &R, texts: &[&str]) -> Result<Words, WordsFault> {
    let alloc = rt.alloc();
    let words = command_line(alloc, "mfpic", texts).expect(rt, "there is room for the words");
    refuse_growths(alloc);
    let asked = read_words(alloc, words);
    grow_again(alloc);
    asked
}

/// Asserts that the words ask for `viewers` viewers and this FILE, or an allocation fails, and that with ample memory they ask
/// for these.
fn assert_reads_while_refused<R: Abort + AllocGlobal>(
    rt: &R,
    texts: &[&str],
    viewers: u32,
    file: Option<&str>,
) {
    match read_while_refused(rt, texts) {
        Ok(words) => assert_words(rt, &words, viewers, file, texts),
        Err(fault) => assert_same(rt, fault, WordsFault::OutOfMemory, texts),
    }
    assert_reads(rt, texts, viewers, file);
}

/// Asserts that the words are refused, or an allocation fails, and that with ample memory they are refused.
fn assert_words_refused<R: Abort + AllocGlobal>(rt: &R, texts: &[&str]) {
    let fault = read_while_refused(rt, texts).err();
    let bad = fault == Some(WordsFault::BadWords);
    let out_of_memory = fault == Some(WordsFault::OutOfMemory);
    assert_holds(rt, bad || out_of_memory, texts);
    assert_refused(rt, texts);
}

#[test]
fn no_words_are_read(rt: HostRuntime) {
    assert_reads_while_refused(&rt, &[], 0, None);
}

#[test]
fn the_number_of_viewers_is_read(rt: HostRuntime) {
    assert_reads_while_refused(&rt, &["--viewers", "16"], 16, None);
}

#[test]
fn words_for_both_are_read(rt: HostRuntime) {
    let words = ["--viewers", "16", "--gf", "größe π.gf"];
    assert_reads_while_refused(&rt, &words, 16, Some("größe π.gf"));
}

#[test]
fn words_with_their_values_are_read(rt: HostRuntime) {
    let words = ["--gf=größe π.gf", "--viewers=+016", "--"];
    assert_reads_while_refused(&rt, &words, 16, Some("größe π.gf"));
}

#[test]
fn too_many_viewers_are_refused(rt: HostRuntime) {
    assert_words_refused(&rt, &["--gf", "a", "--viewers", "17"]);
}

#[test]
fn an_unknown_option_is_refused(rt: HostRuntime) {
    assert_words_refused(
        &rt,
        &["--viewers=1", "--view", "a long word that nobody asked for"],
    );
}

#[test]
fn an_option_without_its_value_is_refused(rt: HostRuntime) {
    assert_words_refused(&rt, &["--viewers=1", "--gf"]);
}
