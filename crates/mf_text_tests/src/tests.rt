//! Tests of the command language, and of the texts of pictures.

mod assertions;
mod contours;
mod growths;
mod lines;
mod pictures;
mod refusals;
mod syntax;
mod values;

use assertions::assert_same;
use mf_ops::{Cull, Weight};
use mf_text::{Command, TextFault, read_command};
use std::alloc::Global;
use std::fmt::Debug;
use std::process::Abort;

/// Asserts that the line is refused with this fault.
pub(crate) fn assert_refused(rt: &impl Abort, alloc: Global, line: &str, fault: TextFault) {
    assert_bytes_refused(rt, alloc, line.as_bytes(), fault, line);
}

/// Asserts that the bytes of a line are refused with this fault.
pub(crate) fn assert_bytes_refused<C: Debug + Drop>(
    rt: &impl Abort,
    alloc: Global,
    line: &[u8],
    fault: TextFault,
    case: C,
) {
    assert_same(rt, read_command(alloc, line).err(), Some(fault), case);
}

/// The command of a line.
pub(crate) fn read(rt: &impl Abort, alloc: Global, line: &str) -> Command {
    match read_command(alloc, line.as_bytes()) {
        Ok(command) => command,
        Err(fault) => panic!(rt; "{line} is refused: {fault:?}"),
    }
}

/// The cull that keeps the weights `least..=greatest` and gives them the weight `weight`.
pub(crate) fn keeping(rt: &impl Abort, least: i32, greatest: i32, weight: i32) -> Cull {
    let weight = Weight::new(weight).expect(rt, "the weight is lawful");
    Cull::keeping(least, greatest, weight).expect(rt, "the range may be kept")
}

/// The cull that drops the weights `least..=greatest` and gives all others the weight `weight`.
pub(crate) fn dropping(rt: &impl Abort, least: i32, greatest: i32, weight: i32) -> Cull {
    let weight = Weight::new(weight).expect(rt, "the weight is lawful");
    Cull::dropping(least, greatest, weight).expect(rt, "the range may be dropped")
}
