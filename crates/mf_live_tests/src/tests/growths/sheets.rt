//! Sheets that are taken.

use super::{MOVED, open_and_move};
use crate::tests::assertions::assert_same;
use crate::tests::sheets::take;
use crate::tests::{
    Pixels, RECT_RUNS, apply, assert_runs, assert_sees, assert_shows_blank, close, open, publish,
    publish_rectangle, take_viewer,
};
use mf_live::{Sheet, SheetFault, Viewer};
use mf_ops::Op;
use mf_testing::{grow_again, refuse_growths};
use std::alloc::Global;
use std::process::Abort;

/// Asserts that a sheet has this revision and exactly these runs.
fn assert_sheet_runs(rt: &impl Abort, sheet: &Sheet, revision: u32, runs: &[Pixels]) {
    assert_same(rt, sheet.revision(), revision, "the revision of a sheet");
    assert_runs(rt, sheet.picture(), runs, "the runs of a sheet");
}

/// Takes a sheet while allocations are refused, and takes it again, after a look, where that failed. The look and each sheet have
/// this revision and exactly these runs.
fn assert_taken(
    rt: &impl Abort,
    alloc: Global,
    viewer: Viewer,
    revision: u32,
    runs: &[Pixels],
) -> Viewer {
    let mut viewer = viewer;
    refuse_growths(alloc);
    let found = viewer.sheet(alloc);
    grow_again(alloc);
    match found {
        Ok(sheet) => assert_sheet_runs(rt, &sheet, revision, runs),
        Err(fault) => {
            assert_same(rt, fault, SheetFault::OutOfMemory, "the sheet");
            viewer = assert_sees(rt, viewer, revision, runs);
            assert_sheet_runs(rt, &take(rt, alloc, &mut viewer), revision, runs);
        }
    }
    assert_sees(rt, viewer, revision, runs)
}

/// The first sheet shows the rectangle, and the second, after a clear, a blank picture.
#[test]
fn sheets_are_taken_before_and_after_a_clear(rt: HostRuntime) {
    let alloc = rt.alloc();
    let (mut writer, mut desk) = open(&rt, alloc, 1, 10);
    publish_rectangle(&rt, alloc, &mut writer);
    let viewer = assert_taken(&rt, alloc, take_viewer(&rt, &mut desk), 1, RECT_RUNS);
    apply(&rt, alloc, &mut writer, Op::Clear);
    publish(&rt, &mut writer);
    let viewer = assert_taken(&rt, alloc, viewer, 2, &[]);
    assert_shows_blank(&rt, alloc, viewer, 2);
    writer.discard(&rt);
}

/// A sheet that was taken before stays as it is, whether the later one is refused or not.
#[test]
fn a_later_sheet_is_taken(rt: HostRuntime) {
    let alloc = rt.alloc();
    let (mut writer, mut viewer) = open_and_move(&rt, alloc);
    let first = take(&rt, alloc, &mut viewer);
    publish(&rt, &mut writer);
    assert_taken(&rt, alloc, viewer, 2, MOVED);
    assert_sheet_runs(&rt, &first, 1, RECT_RUNS);
    writer.discard(&rt);
}

/// The end publishes the move. Where its sheet is refused, the viewer sees the end all the same.
#[test]
fn the_last_sheet_is_taken(rt: HostRuntime) {
    let alloc = rt.alloc();
    let (writer, mut viewer) = open_and_move(&rt, alloc);
    let mut ended = close(&rt, writer);
    let notice = ended.notice();
    refuse_growths(alloc);
    let found = viewer.last_sheet(alloc, notice);
    grow_again(alloc);
    let sheet = match found {
        Ok(sheet) => sheet,
        Err(fault) => {
            assert_same(&rt, fault, SheetFault::OutOfMemory, "the last sheet");
            viewer = assert_sees(&rt, viewer, 2, MOVED);
            viewer
                .last_sheet(alloc, ended.notice())
                .expect(&rt, "there is room for a sheet")
        }
    };
    assert_sheet_runs(&rt, &sheet, 2, MOVED);
    assert_sees(&rt, viewer, 2, MOVED);
    ended.discard(&rt);
}
