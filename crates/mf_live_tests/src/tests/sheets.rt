//! Sheets, which stay as they are.
ghost use Rattle.std.specs.Prelude.{◌≡◌};
ghost use Rattle.mf_live.specs.Viewers.{identity};

use super::looking::assert_publish_is_shown;
use super::{
    Pixels, RECT_RUNS, apply, assert_blank, assert_runs, assert_shows_blank, close, fill, open,
    publish, push, run_of, take_viewer,
};
use crate::tests::assertions::assert_same;
use mf_live::{Sheet, Viewer};
use mf_ops::{Op, Sign};
use mf_rows::{Picture, RowBuilder};
use std::alloc::Global;
use std::process::Abort;

/// Takes a sheet.
pub(crate) fn take(rt: &impl Abort, alloc: Global, viewer: &mut Viewer) -> Sheet
    ensures { identity viewer.new ≡ identity viewer.old }
{
    viewer.sheet(alloc).expect(rt, "there is room for a sheet")
}

/// Asserts that a sheet has this many operations, and a picture of this total weight.
fn assert_sheet(rt: &impl Abort, sheet: &Sheet, revision: u32, total: i64) {
    let found = (sheet.revision(), sheet.picture().total());
    assert_same(rt, found, (revision, total), "the sheet");
}

/// A sheet shows what is published, whether the viewer has learnt of it or not, and it stays when something else is published.
#[test]
fn sheets_stay(rt: HostRuntime) {
    let alloc = rt.alloc();
    let (mut writer, mut desk) = open(&rt, alloc, 1, 10);
    let viewer = take_viewer(&rt, &mut desk);
    let mut viewer = assert_publish_is_shown(&rt, alloc, &mut writer, viewer);
    let first = take(&rt, alloc, &mut viewer);
    assert_sheet(&rt, &first, 1, 6);
    apply(&rt, alloc, &mut writer, Op::Clear);
    publish(&rt, &mut writer);
    let second = take(&rt, alloc, &mut viewer);
    assert_sheet(&rt, &second, 2, 0);
    assert_blank(&rt, alloc, second.picture(), "the second sheet is blank");
    viewer.learn(writer.tell());
    assert_shows_blank(&rt, alloc, viewer, 2);
    assert_sheet(&rt, &first, 1, 6);
    writer.discard(&rt);
}

/// The last sheet shows the end to a viewer that has not looked before, and it stays when all is discarded.
#[test]
fn the_last_sheet_shows_the_end(rt: HostRuntime) {
    let alloc = rt.alloc();
    let (mut writer, mut desk) = open(&rt, alloc, 1, 10);
    let mut viewer = take_viewer(&rt, &mut desk);
    fill(&rt, alloc, &mut writer);
    let mut ended = close(&rt, writer);
    let sheet = viewer
        .last_sheet(alloc, ended.notice())
        .expect(&rt, "there is room for a sheet");
    ended.discard(&rt);
    assert_sheet(&rt, &sheet, 1, 6);
    assert_runs(&rt, sheet.picture(), RECT_RUNS, "the last picture");
}

/// Adds a row of 1000 isolated pixels, at the even columns. Their weight is the number of the row plus 1.
fn push_row(rt: &impl Abort, builder: &mut RowBuilder, y: i32) {
    for across in 0..1000i32 {
        let pixel = (y, across.saturating_mul(2), 1, y.saturating_add(1));
        push(rt, builder, run_of(pixel));
    }
}

/// A picture of a million runs: 1000 such rows.
fn million(rt: &impl Abort, alloc: Global) -> Picture {
    let mut builder = RowBuilder::new(alloc);
    for y in (0..1000).rev() {
        push_row(rt, &mut builder, y);
    }
    builder.finish().expect(rt, "there is room for the picture")
}

/// Some runs of that picture with their numbers: the first and the second, the last of a row and the first of the next, one
/// halfway, and the last.
const SOME: &[(usize, Pixels)] = &[
    (0, (999, 0, 1, 1000)),
    (1, (999, 2, 1, 1000)),
    (999, (999, 1998, 1, 1000)),
    (1000, (998, 0, 1, 999)),
    (500_500, (499, 1000, 1, 500)),
    (999_999, (0, 1998, 1, 1)),
];

/// Asserts that a picture has these runs, and no run after the first million.
fn assert_million(rt: &impl Abort, picture: &Picture, some: &[(usize, Pixels)]) {
    for (k, run) in some {
        assert_same(rt, picture.run(*k), Some(run_of(*run)), ("run", *k));
    }
    assert_same(rt, picture.run(1_000_000), None, "after the last run");
}

/// The weights of the rows add up to 500,500, and each row has 1000 pixels.
#[test]
fn sheets_have_a_million_runs(rt: HostRuntime) {
    let alloc = rt.alloc();
    let (mut writer, mut desk) = open(&rt, alloc, 1, 10);
    let mut viewer = take_viewer(&rt, &mut desk);
    let million = Op::Also(million(&rt, alloc), Sign::Plus);
    apply(&rt, alloc, &mut writer, million);
    publish(&rt, &mut writer);
    let sheet = take(&rt, alloc, &mut viewer);
    apply(&rt, alloc, &mut writer, Op::Clear);
    publish(&rt, &mut writer);
    assert_sheet(&rt, &sheet, 1, 500_500_000);
    assert_million(&rt, sheet.picture(), SOME);
    writer.discard(&rt);
}
