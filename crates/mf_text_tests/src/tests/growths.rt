//! Lines that are read while allocations are refused, one after another. Only a contour in the grammar may be refused with
//! `OutOfMemory`, and with ample memory it has its command or its own refusal.

use super::contours::assert_is_contour;
use super::lines::repeat;
use super::{assert_bytes_refused, read};
use crate::tests::assertions::assert_same;
use mf_geom::{CycleFault, Point};
use mf_testing::{grow_again, refuse_all_growths, refuse_growths};
use mf_text::{Command, Name, TextFault, read_command};
use std::alloc::Global;
use std::process::Abort;

/// A point of a path, written so that it can be in a constant.
macro_rules! point_of {
    ($x:expr, $y:expr) => {
        Point { x: $x, y: $y }
    };
}

/// A comb. Its list of points allocates four times.
const COMB: &[Point] = &[
    point_of!(0, 0),
    point_of!(13, 0),
    point_of!(13, 9),
    point_of!(12, 9),
    point_of!(12, 1),
    point_of!(10, 1),
    point_of!(10, 9),
    point_of!(8, 9),
    point_of!(8, 1),
    point_of!(6, 1),
    point_of!(6, 9),
    point_of!(4, 9),
    point_of!(4, 1),
    point_of!(2, 1),
    point_of!(2, 9),
    point_of!(1, 9),
    point_of!(1, 1),
    point_of!(0, 1),
];

/// An L. Its list of points allocates twice.
const CORNER: &[Point] = &[
    point_of!(0, 0),
    point_of!(3, 0),
    point_of!(3, 1),
    point_of!(1, 1),
    point_of!(1, 2),
    point_of!(0, 2),
];

/// A rectangle. Its list of points allocates once.
const RECTANGLE: &[Point] = &[
    point_of!(0, 0),
    point_of!(3, 0),
    point_of!(3, 2),
    point_of!(0, 2),
];

/// Reads a line while allocations are refused.
fn read_while_refused(alloc: Global, line: &[u8]) -> Result<Command, TextFault> {
    refuse_growths(alloc);
    let answer = read_command(alloc, line);
    grow_again(alloc);
    answer
}

/// Asserts that the line is the contour with this name and weight through these points, or that an allocation failed; with ample
/// memory it is that contour.
fn assert_read(
    rt: &impl Abort,
    alloc: Global,
    line: &str,
    expected: (Name, i32),
    points: &[Point],
) {
    let command = match read_while_refused(alloc, line.as_bytes()) {
        Ok(command) => command,
        Err(fault) => {
            assert_same(rt, fault, TextFault::OutOfMemory, line);
            read(rt, alloc, line)
        }
    };
    assert_is_contour(rt, &command, line, expected, points);
}

#[test]
fn a_rectangle_is_read(rt: HostRuntime) {
    let line = "addto currentpicture contour (0,0)--(3,0)--(3,2)--(0,2)--cycle";
    assert_read(&rt, rt.alloc(), line, (Name::Current, 1), RECTANGLE);
}

#[test]
fn a_contour_of_many_points_is_read(rt: HostRuntime) {
    let line = "addto c contour (0,0)--(13,0)--(13,9)--(12,9)--(12,1)--(10,1)--(10,9)--(8,9)--(8,1)\
        --(6,1)--(6,9)--(4,9)--(4,1)--(2,1)--(2,9)--(1,9)--(1,1)--(0,1)--cycle";
    assert_read(&rt, rt.alloc(), line, (Name::Register(2), 1), COMB);
}

#[test]
fn a_contour_with_a_weight_is_read(rt: HostRuntime) {
    let line = "addto currentpicture contour (0,0)--(3,0)--(3,1)--(1,1)--(1,2)--(0,2)--cycle \
        withweight -3; % L";
    assert_read(&rt, rt.alloc(), line, (Name::Current, -3), CORNER);
}

/// Asserts that a line that is not in the grammar is refused with `Syntax` and this column, and never with `OutOfMemory`, though
/// reading the points of its path allocates.
fn assert_column(rt: &impl Abort, alloc: Global, line: &[u8], column: u32) {
    let fault = TextFault::Syntax(column);
    let found = read_while_refused(alloc, line).err();
    assert_same(rt, found, Some(fault), ("without memory", column));
    assert_bytes_refused(rt, alloc, line, fault, ("with memory", column));
}

#[test]
fn a_path_without_an_end_is_refused_for_its_form(rt: HostRuntime) {
    let line = b"addto a contour (0,0)--(4,0)--(4,3)--(0,3)--(0,2)--(5,2)--(5,0)";
    assert_column(&rt, rt.alloc(), line, 64);
}

#[test]
fn a_weight_without_a_number_is_refused_for_its_form(rt: HostRuntime) {
    let line = b"addto a contour (0,0)--(4,0)--(4,3)--(0,3)--(0,2)--cycle withweight";
    assert_column(&rt, rt.alloc(), line, 68);
}

/// The points and the weight would be refused, too.
#[test]
fn a_second_number_is_refused_for_its_form(rt: HostRuntime) {
    let line = b"addto a contour (0,0)--(4096,0)--(4096,1)--(0,1)--(7,7)--cycle withweight 4 4";
    assert_column(&rt, rt.alloc(), line, 77);
}

/// The line of a contour of 4,097 points, one more than a cycle may have, with this end.
fn too_many_points(rt: &impl Abort, alloc: Global, end: &[u8]) -> Vec<u8> {
    repeat(alloc, b"addto a contour ", b"(0,0)--", 4097, end).expect(
        rt,
        "there is room for the line",
    )
}

#[test]
fn too_many_points_without_an_end_are_refused_for_their_form(rt: HostRuntime) {
    let line = too_many_points(&rt, rt.alloc(), b"cycle!");
    assert_column(&rt, rt.alloc(), &line, 28_701);
}

/// Asserts that a contour in the grammar is refused with this fault of its values, or with `OutOfMemory`; with ample memory it is
/// refused with this fault.
fn assert_fault(rt: &impl Abort, alloc: Global, line: &[u8], fault: TextFault) {
    let found = read_while_refused(alloc, line).err();
    if found != Some(TextFault::OutOfMemory) {
        assert_same(rt, found, Some(fault), ("without memory", fault));
    }
    assert_bytes_refused(rt, alloc, line, fault, ("with memory", fault));
}

/// Asserts the same for a fault of the points.
fn assert_no_cycle(rt: &impl Abort, alloc: Global, line: &[u8], fault: CycleFault) {
    assert_fault(rt, alloc, line, TextFault::Cycle(fault));
}

#[test]
fn too_few_points_are_refused(rt: HostRuntime) {
    let line = b"addto a contour (0,0)--cycle";
    assert_no_cycle(&rt, rt.alloc(), line, CycleFault::TooFewPoints);
}

#[test]
fn too_many_points_are_refused(rt: HostRuntime) {
    let line = too_many_points(&rt, rt.alloc(), b"cycle");
    assert_no_cycle(&rt, rt.alloc(), &line, CycleFault::TooManyPoints);
}

#[test]
fn a_point_out_of_range_is_refused(rt: HostRuntime) {
    let line = b"addto a contour (0,0)--(1,0)--(1,1)--(0,1)--(0,4096)--(7,4096)--cycle";
    assert_no_cycle(&rt, rt.alloc(), line, CycleFault::PointOutOfRange(4));
}

#[test]
fn a_slanted_segment_is_refused(rt: HostRuntime) {
    let line = b"addto a contour (0,0)--(1,0)--(1,1)--(0,1)--(0,2)--(3,3)--cycle withweight 4";
    assert_no_cycle(&rt, rt.alloc(), line, CycleFault::NotRectilinear(4));
}

#[test]
fn a_weight_is_refused(rt: HostRuntime) {
    let line = b"addto a contour (0,0)--(3,0)--(3,1)--(1,1)--(1,2)--(0,2)--cycle withweight 4";
    assert_fault(&rt, rt.alloc(), line, TextFault::BadWeight);
}

/// Reads a line while all allocations are refused.
fn read_without_memory(alloc: Global, line: &[u8]) -> Result<Command, TextFault> {
    refuse_all_growths(alloc);
    let answer = read_command(alloc, line);
    grow_again(alloc);
    answer
}

/// Lines that are refused without allocating: because of their bytes, or because they are not contours.
const REFUSED: &[(&[u8], TextFault)] = &[
    (
        b"addto a contour (0,0)--(1,0)--cycle % \xe9",
        TextFault::NotAscii,
    ),
    (b"addto a also", TextFault::Syntax(13)),
    (b"cull a keeping (0,3)", TextFault::BadCull),
    (b"cull a dropping (0,3) withweight 4", TextFault::BadWeight),
    (b"a := a scaled 0", TextFault::BadScale),
    (b"a := a rotated 45", TextFault::BadTurn),
];

/// Asserts that each of these lines is refused with its fault while all allocations are refused.
fn assert_refused_first(rt: &impl Abort, alloc: Global, lines: &[(&[u8], TextFault)]) {
    for (line, fault) in lines {
        let found = read_without_memory(alloc, line).err();
        assert_same(rt, found, Some(*fault), *fault);
    }
}

#[test]
fn refusals_of_other_lines_come_before_out_of_memory(rt: HostRuntime) {
    assert_refused_first(&rt, rt.alloc(), REFUSED);
}

/// Reading a command that is not a contour allocates nothing.
#[test]
fn reading_a_shift_allocates_nothing(rt: HostRuntime) {
    let answer = read_without_memory(rt.alloc(), b"b := b shifted (3,-4)");
    let parts = match answer {
        Ok(Command::Shift(name, right, up)) => Some((name, right, up)),
        _ => None,
    };
    assert_same(&rt, parts, Some((Name::Register(1), 3, -4)), "the shift");
}
