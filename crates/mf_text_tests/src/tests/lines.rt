//! The bytes and the lengths of lines.

use super::{assert_bytes_refused, assert_refused, read};
use crate::tests::assertions::assert_holds;
use mf_geom::CycleFault;
use mf_text::{Command, TextFault, read_command};
use std::alloc::{AllocError, Global};
use std::process::Abort;

/// Asserts that these lines have no command.
fn assert_blank(rt: &impl Abort, alloc: Global, lines: &[&str]) {
    for line in lines {
        let command = read(rt, alloc, line);
        assert_holds(rt, matches!(&command, Command::Nothing), *line);
    }
}

#[test]
fn lines_without_a_command(rt: HostRuntime) {
    assert_blank(&rt, rt.alloc(), &["", ";", "  % note", "\t ; % ;", "%"]);
}

/// The bytes `begin`, then `count` times `piece`, and then `end`.
pub(super) fn repeat(
    alloc: Global,
    begin: &[u8],
    piece: &[u8],
    count: usize,
    end: &[u8],
) -> Result<Vec<u8>, AllocError> {
    let mut line = Vec::from_slice(alloc, begin)?;
    for _ in 0..count {
        line.extend_from_slice(piece)?;
    }
    line.extend_from_slice(end)?;
    Ok(line)
}

/// As many spaces as a line may have bytes, and then these bytes.
fn spaces(rt: &impl Abort, alloc: Global, end: &[u8]) -> Vec<u8> {
    repeat(alloc, b"", b" ", 65_536, end).expect(rt, "there is room for the line")
}

/// Asserts that a line of the greatest length, all spaces, has no command.
fn assert_longest(rt: &impl Abort, alloc: Global) {
    let longest = read_command(alloc, &spaces(rt, alloc, b""));
    assert_holds(
        rt,
        matches!(&longest, Ok(Command::Nothing)),
        "65,536 spaces",
    );
}

/// Asserts that the line is too long with these bytes after the spaces.
fn assert_too_long(rt: &impl Abort, alloc: Global, end: &[u8]) {
    assert_bytes_refused(
        rt,
        alloc,
        &spaces(rt, alloc, end),
        TextFault::LineTooLong,
        ("65,537 bytes, of which the last is", end),
    );
}

#[test]
fn lengths(rt: HostRuntime) {
    let alloc = rt.alloc();
    assert_longest(&rt, alloc);
    assert_too_long(&rt, alloc, b" ");
    assert_too_long(&rt, alloc, b"\xe9");
}

/// Lines with a byte that is neither a tab nor a printable ASCII character.
const OTHERS: &[&[u8]] = &[
    b"% \xe9",
    b"show a\r",
    b"show a\r\r",
    b"\x00",
    b"\x7f",
    b"show \x1f",
    b"\r",
];

fn assert_not_ascii(rt: &impl Abort, alloc: Global, lines: &[&[u8]]) {
    for line in lines {
        assert_bytes_refused(rt, alloc, line, TextFault::NotAscii, *line);
    }
}

#[test]
fn other_bytes(rt: HostRuntime) {
    let alloc = rt.alloc();
    assert_not_ascii(&rt, alloc, OTHERS);
    assert_refused(&rt, alloc, "show ~", TextFault::Syntax(6));
}

/// Asserts that a contour of `points` points, with this end, is refused with this fault.
fn assert_points_refused(
    rt: &impl Abort,
    alloc: Global,
    points: usize,
    end: &str,
    fault: TextFault,
) {
    let line = repeat(
        alloc,
        b"addto a contour ",
        b"(0,0)--",
        points,
        end.as_bytes(),
    )
    .expect(rt, "there is room for the line");
    assert_bytes_refused(rt, alloc, &line, fault, (points, "points and", end));
}

#[test]
fn many_points(rt: HostRuntime) {
    let alloc = rt.alloc();
    let too_many = TextFault::Cycle(CycleFault::TooManyPoints);
    assert_points_refused(&rt, alloc, 9_359, "cycle", too_many);
    // A fault of the grammar at the end comes before those of the points.
    assert_points_refused(&rt, alloc, 9_359, "cycle!", TextFault::Syntax(65_535));
    // The faults of the points come before that of the weight.
    assert_points_refused(&rt, alloc, 4_097, "cycle withweight 4", too_many);
    let repeats = TextFault::Cycle(CycleFault::NotRectilinear(0));
    assert_points_refused(&rt, alloc, 4_096, "cycle withweight 4", repeats);
}
