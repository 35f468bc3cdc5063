//! How many bytes each read asks for, and how many reads there are.

use super::lengths::{LINE_TOO_LONG, long_line};
use super::{AMPLE, End, assert_ends};
use crate::tests::assertions::{assert_holds, assert_same};
use mf_desk::RunFault;
use mf_testing::{LineFeeds, Pieces, Remembers};
use std::io::Read;
use std::process::Abort;
use std::sync::Wait;

/// Asserts that the reader's script ends in this way, and that each of its reads asked for at least one byte and at most 65,536.
fn assert_asks<R: Abort + Wait + AllocGlobal, I: Read>(
    rt: &R,
    reader: &mut Remembers<I>,
    end: End<'_>,
    case: &str,
) {
    assert_ends(rt, reader, &AMPLE, end, case);
    let (least, greatest) = (reader.least(), reader.greatest());
    assert_holds(rt, least >= 1, (case, "at least", least));
    assert_holds(rt, greatest <= 65_536, (case, "at most", greatest));
}

/// Asserts that a script prints this text, and that its reads ask for allowed numbers of bytes, whether a read gives them all or
/// only one.
fn assert_asks_for<R: Abort + Wait + AllocGlobal>(rt: &R, script: &[u8], text: &[u8], case: &str) {
    let end = (None, text);
    let mut whole = Remembers::new(Pieces::whole(script));
    assert_asks(rt, &mut whole, end, case);
    let mut bytewise = Remembers::new(Pieces::bytewise(script));
    assert_asks(rt, &mut bytewise, end, case);
    assert_same(
        rt,
        bytewise.reads() as usize,
        script.len().saturating_add(1),
        case,
    );
}

/// Short scripts, and what they print.
const SHORT: &[(&str, &str)] = &[
    ("", ""),
    ("\n", ""),
    ("show a", "blank\n"),
    ("show a\nshow a\n", "blank\nblank\n"),
];

#[test]
fn short_scripts(rt: HostRuntime) {
    for (script, text) in SHORT {
        assert_asks_for(&rt, script.as_bytes(), text.as_bytes(), script);
    }
}

/// Lines: the number of their spaces, and what they print. The last one is read in several reads.
const LONG: &[(usize, &[u8])] = &[
    (65_534, b""),
    (65_535, b""),
    (65_536, b""),
    (65_537, LINE_TOO_LONG),
    (65_538, LINE_TOO_LONG),
    (65_539, LINE_TOO_LONG),
    (131_072, LINE_TOO_LONG),
    (200_000, LINE_TOO_LONG),
];

/// Asserts that a line of `count` spaces, ended by these bytes, prints this text, and that its reads ask for allowed numbers of
/// bytes.
fn assert_asks_for_spaces<R: Abort + Wait + AllocGlobal>(
    rt: &R,
    count: usize,
    end: &[u8],
    text: &[u8],
) {
    let script = long_line(rt.alloc(), count, end).expect(rt, "there is room for the line");
    assert_asks_for(rt, &script, text, "a line of spaces");
}

#[test]
fn long_lines(rt: HostRuntime) {
    for (count, text) in LONG {
        assert_asks_for_spaces(&rt, *count, b"\n", text);
        assert_asks_for_spaces(&rt, *count, b"", text);
    }
}

/// A line that is repeated so often that the script takes several reads.
#[test]
fn long_scripts(rt: HostRuntime) {
    let script = b"show totalweight nullpicture;\n".repeat(rt.alloc(), 5_000);
    let text = b"totalweight 0\n".repeat(rt.alloc(), 5_000);
    let script = script.expect(&rt, "there is room for the script");
    let text = text.expect(&rt, "there is room for its text");
    assert_asks_for(&rt, &script, &text, "a long script");
}

/// After 1,048,576 reads there are no more, whatever the reader would give.
#[test]
fn there_are_at_most_1_048_576_reads(rt: HostRuntime) {
    let mut reader = Remembers::new(LineFeeds { left: u32::MAX });
    let end = (Some(RunFault::ReadFault), b"".as_slice());
    assert_asks(&rt, &mut reader, end, "line feeds");
    assert_same(&rt, reader.reads(), 1_048_576, "reads");
}
