//! Long lines and long contours.

use super::assert_prints;
use mf_testing::Pieces;
use std::alloc::{AllocError, Global};
use std::process::Abort;
use std::sync::Wait;

pub(super) const LINE_TOO_LONG: &[u8] = b"refused LineTooLong\n";

/// The script of these parts, one after another.
fn script_of(alloc: Global, parts: &[&[u8]]) -> Result<Vec<u8>, AllocError> {
    let mut all = Vec::new(alloc);
    for part in parts {
        all.extend_from_slice(part)?;
    }
    Ok(all)
}

/// A line of `count` spaces, and the bytes that end it.
pub(super) fn long_line(alloc: Global, count: usize, end: &[u8]) -> Result<Vec<u8>, AllocError> {
    let mut line = vec![in alloc; b' '; count]?;
    line.extend_from_slice(end)?;
    Ok(line)
}

/// Lines: the number of their spaces, the bytes that end them, and what they print.
const LONG_LINES: &[(usize, &[u8], &[u8])] = &[
    (65_536, b"", b""),
    (65_536, b"\n", b""),
    (65_536, b"\r\n", b""),
    (65_536, b"\r", LINE_TOO_LONG),
    (65_536, b"\r\r\n", LINE_TOO_LONG),
    (65_537, b"", LINE_TOO_LONG),
    (65_537, b"\n", LINE_TOO_LONG),
    (65_537, b"\r\n", LINE_TOO_LONG),
    (65_537, b"\r", LINE_TOO_LONG),
    (200_000, b"\n", LINE_TOO_LONG),
    // The length is checked before the bytes.
    (65_535, b"\xe9\n", b"refused NotAscii\n"),
    (65_536, b"\xe9\n", LINE_TOO_LONG),
];

fn assert_long_lines<R: Abort + Wait + AllocGlobal>(rt: &R, cases: &[(usize, &[u8], &[u8])]) {
    for (count, end, text) in cases {
        let script = long_line(rt.alloc(), *count, end).expect(rt, "there is room for the line");
        assert_prints(rt, Pieces::whole(&script), text, "a line of spaces");
    }
}

#[test]
fn long_lines(rt: HostRuntime) {
    assert_long_lines(&rt, LONG_LINES);
}

/// A line whose contour goes around the pixel (0, 0) `times` times, with this weight.
fn many_times(alloc: Global, times: usize, weight: &[u8]) -> Result<Vec<u8>, AllocError> {
    let mut line = b"addto a contour ".to_vec(alloc)?;
    for _ in 0..times {
        line.extend_from_slice(b"(0,0)--(1,0)--(1,1)--(0,1)--")?;
    }
    line.extend_from_slice(b"cycle withweight ")?;
    line.extend_from_slice(weight)?;
    line.push(b'\n')?;
    Ok(line)
}

/// A script that performs a line `times` times and then shows the picture.
fn script_with_show(alloc: Global, line: &[u8], times: usize) -> Result<Vec<u8>, AllocError> {
    script_of(alloc, &[&line.repeat(alloc, times)?, b"show a\n"])
}

/// Asserts that a contour that goes around the pixel (0, 0) `times` times, and then `show a`, print this text.
fn assert_fills<R: Abort + Wait + AllocGlobal>(rt: &R, times: usize, text: &[u8]) {
    let line = many_times(rt.alloc(), times, b"1").expect(rt, "there is room for the line");
    let script = script_with_show(rt.alloc(), &line, 1).expect(rt, "there is room for the script");
    assert_prints(rt, Pieces::whole(&script), text, "a long contour");
}

#[test]
fn long_contours(rt: HostRuntime) {
    assert_fills(&rt, 1024, b"0 0 0 1024\n");
    assert_fills(&rt, 1025, b"refused TooManyPoints\nblank\n");
}

/// A script that fills a pixel with a long contour ten times and shows it, and then fills it once more, which is refused.
fn heavy_contours(alloc: Global) -> Result<Vec<u8>, AllocError> {
    let heavy = many_times(alloc, 1024, b"-3")?;
    let (ten, one) = (
        script_with_show(alloc, &heavy, 10)?,
        script_with_show(alloc, &heavy, 1)?,
    );
    script_of(alloc, &[&ten, &one])
}

#[test]
fn weights_of_long_contours_add_up(rt: HostRuntime) {
    let script = heavy_contours(rt.alloc()).expect(&rt, "there is room for the script");
    let text = b"0 0 0 -30720\nrefused WeightTooLarge\n0 0 0 -30720\n";
    assert_prints(&rt, Pieces::whole(&script), text, "weights add up");
}
