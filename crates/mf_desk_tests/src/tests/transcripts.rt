//! The worked scripts and their transcripts, however the script is cut into reads and however its lines end.

use super::assert_prints;
use mf_testing::{Pieces, Script, worked_scripts};
use std::process::Abort;
use std::sync::Wait;

/// Asserts that this form of the script prints its transcript.
fn assert_performs<R: Abort + Wait + AllocGlobal>(rt: &R, reader: Pieces<'_>, script: &Script) {
    assert_prints(rt, reader, script.1.as_bytes(), script.0);
}

#[test]
fn byte_by_byte(rt: HostRuntime) {
    for script in worked_scripts().iter().copied().flatten() {
        assert_performs(&rt, Pieces::bytewise(script.0.as_bytes()), script);
    }
}

/// Asserts that the script prints its transcript in two reads. The last case is one read of all bytes.
fn assert_performs_split<R: Abort + Wait + AllocGlobal>(rt: &R, script: &Script) {
    let bytes = script.0.as_bytes();
    let length = bytes.len();
    for first in [1, length / 3 + 1, length / 2 + 1, length] {
        assert_performs(rt, Pieces::split(bytes, first), script);
    }
}

#[test]
fn in_two_pieces(rt: HostRuntime) {
    for script in worked_scripts().iter().copied().flatten() {
        assert_performs_split(&rt, script);
    }
}

/// Asserts that the script without its last line feed prints its transcript.
fn assert_performs_unended<R: Abort + Wait + AllocGlobal>(rt: &R, script: &Script) {
    let unended = script.0.strip_suffix('\n').expect(rt, "the last line ends");
    assert_performs(rt, Pieces::whole(unended.as_bytes()), script);
}

#[test]
fn without_the_last_line_feed(rt: HostRuntime) {
    for script in worked_scripts().iter().copied().flatten() {
        assert_performs_unended(&rt, script);
    }
}

/// Asserts that the script prints its transcript when its lines end with carriage returns and line feeds.
fn assert_performs_returned<R: Abort + Wait + AllocGlobal>(rt: &R, script: &Script) {
    let returned = script
        .0
        .replace(rt.alloc(), '\n', "\r\n")
        .expect(rt, "there is room for the script");
    assert_performs(rt, Pieces::bytewise(returned.as_bytes()), script);
}

#[test]
fn with_carriage_returns(rt: HostRuntime) {
    for script in worked_scripts().iter().copied().flatten() {
        assert_performs_returned(&rt, script);
    }
}
