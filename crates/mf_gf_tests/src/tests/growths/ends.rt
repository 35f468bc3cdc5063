//! Files that are finished while allocations are refused.

use crate::tests::again::twice;
use crate::tests::assertions::assert_same;
use crate::tests::files::{WORDS, assert_bytes, corners, corners_file, one};
use crate::tests::refusals::assert_end_refused;
use crate::tests::{
    MAX_BYTES, NO_WORDS, assert_count, finish, finish_with, gf_file, ship_rectangle, with_rectangle,
};
use mf_gf::{FontWords, GfBytes, GfFault, GfFile};
use mf_testing::{grow_again, refuse_all_growths, refuse_growths};
use std::alloc::Global;
use std::process::Abort;

/// What finishing a file returns while allocations are refused.
fn finish_while_refused(
    alloc: Global,
    file: GfFile,
    words: FontWords,
) -> Result<GfBytes, (GfFile, GfFault)> {
    refuse_growths(alloc);
    let finished = file.finish(words);
    grow_again(alloc);
    finished
}

/// The finished file. Where it was refused because an allocation failed, the file must have the same number of characters as
/// before, and is finished again.
fn finish_in_the_end(
    rt: &impl Abort,
    found: Result<GfBytes, (GfFile, GfFault)>,
    count: u32,
    words: FontWords,
) -> GfBytes {
    match found {
        Ok(bytes) => bytes,
        Err((file, fault)) => {
            assert_same(rt, fault, GfFault::OutOfMemory, "the end");
            assert_count(rt, &file, count);
            finish_with(rt, file, words)
        }
    }
}

#[test]
fn a_file_is_finished(rt: HostRuntime) {
    let alloc = rt.alloc();
    let file = corners_file(&rt, alloc);
    let found = finish_while_refused(alloc, file, WORDS);
    let bytes = finish_in_the_end(&rt, found, 3, WORDS);
    assert_bytes(&rt, alloc, &bytes, corners());
}

/// A file whose end is refused takes another character, as if nobody had tried to finish it.
#[test]
fn a_file_goes_on_after_a_refused_end(rt: HostRuntime) {
    let alloc = rt.alloc();
    let file = with_rectangle(&rt, alloc, MAX_BYTES);
    match finish_while_refused(alloc, file, NO_WORDS) {
        Ok(bytes) => assert_bytes(&rt, alloc, &bytes, one()),
        Err((mut file, fault)) => {
            assert_same(&rt, fault, GfFault::OutOfMemory, "the end");
            ship_rectangle(&rt, alloc, &mut file);
            assert_bytes(&rt, alloc, &finish(&rt, file), twice());
        }
    }
}

/// `OutOfMemory` never comes instead of `FileTooLong` at the end of a file, either.
#[test]
fn an_end_that_is_too_long_is_refused_for_that(rt: HostRuntime) {
    let alloc = rt.alloc();
    let file = with_rectangle(&rt, alloc, 71);
    match finish_while_refused(alloc, file, NO_WORDS) {
        Ok(_) => panic!(rt; "the file is finished"),
        Err((file, fault)) => {
            assert_same(&rt, fault, GfFault::FileTooLong, "the end");
            assert_count(&rt, &file, 1);
            assert_end_refused(&rt, file, GfFault::FileTooLong);
        }
    }
}

/// `OutOfMemory` never comes instead of `None`, either.
#[test]
fn a_file_without_characters_is_none(rt: HostRuntime) {
    let alloc = rt.alloc();
    let file = gf_file(&rt, alloc);
    refuse_all_growths(alloc);
    let found = file.finish_if_any(NO_WORDS);
    grow_again(alloc);
    let found = found.map(|bytes| bytes.is_none());
    assert_same(&rt, found, Ok(true), "no file");
}

/// A refused end does not hand the file back, so the file is made again.
#[test]
fn a_file_with_a_character_is_finished(rt: HostRuntime) {
    let alloc = rt.alloc();
    let file = with_rectangle(&rt, alloc, MAX_BYTES);
    refuse_growths(alloc);
    let found = file.finish_if_any(NO_WORDS);
    grow_again(alloc);
    let found = match found {
        Ok(bytes) => bytes,
        Err(fault) => {
            assert_same(&rt, fault, GfFault::OutOfMemory, "the end");
            with_rectangle(&rt, alloc, MAX_BYTES)
                .finish_if_any(NO_WORDS)
                .expect(&rt, "there is room for the file")
        }
    };
    let bytes = found.expect(&rt, "a character was shipped");
    assert_bytes(&rt, alloc, &bytes, one());
}
