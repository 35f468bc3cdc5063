//! Words that are read while allocations are refused.

use super::{ALL, ALL_WORDS, Asked, assert_asks, assert_refused, assert_shows};
use crate::tests::assertions::assert_same;
use mf_cli_options::WordsFault;
use mf_testing::{command_line, grow_again, refuse_growths};
use mf_view_words::{Request, read_words};
use std::process::Abort;

/// What the words after the program's name ask for. Allocations are refused once the list of words is made.
fn read_while_refused<R: Abort + AllocGlobal>(
    rt: &R,
    texts: &[&str],
) -> Result<Request, WordsFault> {
    let alloc = rt.alloc();
    let words = command_line(alloc, "mfview", texts).expect(rt, "there is room for the words");
    refuse_growths(alloc);
    let asked = read_words(alloc, words);
    grow_again(alloc);
    asked
}

/// Asserts that the words ask for these values, or an allocation fails, and that with ample memory they ask for these.
fn assert_shows_while_refused<R: Abort + AllocGlobal>(rt: &R, texts: &[&str], asked: &Asked<'_>) {
    match read_while_refused(rt, texts) {
        Ok(request) => assert_asks(rt, &request, asked, texts),
        Err(fault) => assert_same(rt, fault, WordsFault::OutOfMemory, texts),
    }
    assert_shows(rt, texts, asked);
}

#[test]
fn all_options_are_read(rt: HostRuntime) {
    assert_shows_while_refused(&rt, ALL_WORDS, &ALL);
}

/// Asserts that the words are refused, or an allocation fails, and that with ample memory they are refused.
fn assert_refused_while_refused<R: Abort + AllocGlobal>(rt: &R, texts: &[&str]) {
    let fault = read_while_refused(rt, texts).err();
    if fault != Some(WordsFault::OutOfMemory) {
        assert_same(rt, fault, Some(WordsFault::BadWords), texts);
    }
    assert_refused(rt, texts);
}

#[test]
fn pgm_without_plates_is_refused(rt: HostRuntime) {
    assert_refused_while_refused(&rt, &["--gf", "a", "--pgm"]);
}
