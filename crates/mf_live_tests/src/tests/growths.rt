//! Calls whose allocations are refused, one after another. A call that failed leaves the picture, and what viewers see of it, as
//! they were; the same call with ample memory does what it should.
ghost use Rattle.std.specs.Prelude.{◌≡◌};
ghost use Rattle.mf_live.specs.Viewers as viewers;
ghost use Rattle.mf_live.specs.Writers as writers;

mod doubling;
mod ending;
mod opening;
mod operations;
mod publishing;
mod sheets;

use super::{
    Pixels, RECT_RUNS, apply, assert_runs, assert_sees, assert_tells, open, publish_rectangle,
    take_viewer,
};
use crate::tests::assertions::assert_same;
use mf_live::{Viewer, Writer};
use mf_ops::Op;
use std::alloc::Global;
use std::process::Abort;
use std::sync::Wait;

/// The rectangle, moved by one column and 13 rows.
const MOVED: &[Pixels] = &[(14, 1, 3, 1), (13, 1, 3, 1)];

/// A picture whose rectangle is published and seen, and whose move by one column and 13 rows is accepted but pending.
fn open_and_move<R: Abort + Wait>(rt: &R, alloc: Global) -> (Writer, Viewer)
    ensures { viewers.identity result.1 ≡ writers.identity result.0 }
{
    let (mut writer, mut desk) = open(rt, alloc, 1, 10);
    let viewer = take_viewer(rt, &mut desk);
    publish_rectangle(rt, alloc, &mut writer);
    apply(rt, alloc, &mut writer, Op::Shift(1, 13));
    assert_waiting(rt, &writer, (1, 2), MOVED);
    (writer, assert_sees(rt, viewer, 1, RECT_RUNS))
}

/// Asserts that this many operations are pending, of this many that were accepted, and that the working picture has exactly these
/// runs.
fn assert_waiting(rt: &impl Abort, writer: &Writer, counts: (u32, u32), runs: &[Pixels]) {
    let found = (writer.pending(), writer.revision());
    assert_same(rt, found, counts, "operations that wait, and all");
    assert_runs(rt, writer.working(), runs, "the working picture");
}

/// Asserts that this many operations are published, and that a look shows a picture of exactly these runs.
fn assert_published(
    rt: &impl Abort,
    writer: &mut Writer,
    viewer: Viewer,
    revision: u32,
    runs: &[Pixels],
) -> Viewer {
    assert_tells(rt, &writer.tell(), revision);
    assert_sees(rt, viewer, revision, runs)
}
