//! How lines end, wherever the script is cut into reads, and which bytes lines may have.

use super::assert_prints;
use mf_testing::Pieces;
use std::process::Abort;
use std::sync::Wait;

/// Three lines, the second of which is empty: they end with line feeds, then the last one has none, then they end with carriage
/// returns and line feeds. After these, a script of one empty line, and an empty script.
const SCRIPTS: &[(&[u8], &[u8])] = &[
    (
        b"addto currentpicture contour (0,0)--(3,0)--(3,2)--(0,2)--cycle\n\
          \n\
          show totalweight currentpicture\n",
        b"totalweight 6\n",
    ),
    (
        b"addto currentpicture contour (0,0)--(3,0)--(3,2)--(0,2)--cycle\n\
          \n\
          show totalweight currentpicture",
        b"totalweight 6\n",
    ),
    (
        b"addto currentpicture contour (0,0)--(3,0)--(3,2)--(0,2)--cycle\r\n\
          \r\n\
          show totalweight currentpicture\r\n",
        b"totalweight 6\n",
    ),
    (b"\n", b""),
    (b"", b""),
];

const NOT_ASCII: &[u8] = b"refused NotAscii\n";

/// Asserts that the script prints this transcript in reads of one byte, in one read, and in two reads, wherever it is split.
fn assert_prints_however_cut<R: Abort + Wait + AllocGlobal>(
    rt: &R,
    script: &[u8],
    transcript: &[u8],
) {
    assert_prints(rt, Pieces::bytewise(script), transcript, "byte by byte");
    for first in 1..=script.len() {
        assert_prints(
            rt,
            Pieces::split(script, first),
            transcript,
            "in two pieces",
        );
    }
}

/// Asserts that each of these scripts prints its text, however it is cut into reads.
fn assert_all_print<R: Abort + Wait + AllocGlobal>(rt: &R, scripts: &[(&[u8], &[u8])]) {
    for (script, text) in scripts {
        assert_prints_however_cut(rt, script, text);
    }
}

#[test]
fn end_at_line_feeds(rt: HostRuntime) {
    assert_all_print(&rt, SCRIPTS);
}

/// Carriage returns that belong to a line: at the end of the script, before another carriage return, and in the middle of a line.
const RETURNS: &[(&[u8], &[u8])] = &[
    (b"show a\r", NOT_ASCII),
    (b"\r", NOT_ASCII),
    (b"show a\r\r\n", NOT_ASCII),
    (b"show\ra\n", NOT_ASCII),
];

#[test]
fn other_carriage_returns_are_refused(rt: HostRuntime) {
    assert_all_print(&rt, RETURNS);
}

/// Asserts that a comment with this byte prints nothing if the byte is allowed in a line, and is refused if it is not.
fn assert_comment<R: Abort + Wait + AllocGlobal>(rt: &R, byte: u8) {
    let is_text = matches!(byte, b'\t' | b'\n' | b' '..=b'~');
    let text = if is_text { b"" } else { NOT_ASCII };
    let script = [b'%', byte, b' ', b'\n'];
    assert_prints(rt, Pieces::whole(&script), text, "in a comment");
}

#[test]
fn other_bytes_are_refused(rt: HostRuntime) {
    assert_prints_however_cut(&rt, b"% \xe9\n", NOT_ASCII);
    for byte in 0..=255 {
        assert_comment(&rt, byte);
    }
}
