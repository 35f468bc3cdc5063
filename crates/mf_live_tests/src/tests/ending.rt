//! Pictures that are closed or discarded.

use super::{
    RECT_RUNS, assert_sees, assert_shows, assert_shows_blank, assert_tells, close, fill, open,
    publish_rectangle, take_viewer,
};
use crate::tests::assertions::assert_holds;
use mf_live::{SheetFault, Viewer};
use std::alloc::Global;
use std::process::Abort;

/// Only the end publishes the rectangle.
#[test]
fn shows_the_end_to_a_later_viewer(rt: HostRuntime) {
    let alloc = rt.alloc();
    let (mut writer, mut desk) = open(&rt, alloc, 1, 10);
    fill(&rt, alloc, &mut writer);
    let mut ended = close(&rt, writer);
    let mut viewer = take_viewer(&rt, &mut desk);
    let notice = ended.notice();
    assert_tells(&rt, &notice, 1);
    viewer.learn(notice);
    let viewer = assert_sees(&rt, viewer, 1, RECT_RUNS);
    assert_shows(&rt, viewer, 1, 6);
    ended.discard(&rt);
}

/// Closing a picture of which nothing was accepted allocates nothing.
#[test]
fn shows_the_end_of_a_picture_that_nothing_changed(rt: HostRuntime) {
    let alloc = rt.alloc();
    let (writer, mut desk) = open(&rt, alloc, 1, 10);
    let mut viewer = take_viewer(&rt, &mut desk);
    let mut ended = close(&rt, writer);
    let notice = ended.notice();
    assert_tells(&rt, &notice, 0);
    viewer.learn(notice);
    assert_shows_blank(&rt, alloc, viewer, 0);
    ended.discard(&rt);
}

/// The end publishes no more operations where all are published.
#[test]
fn shows_the_end_of_a_picture_that_is_published(rt: HostRuntime) {
    let alloc = rt.alloc();
    let (mut writer, mut desk) = open(&rt, alloc, 1, 10);
    let mut viewer = take_viewer(&rt, &mut desk);
    publish_rectangle(&rt, alloc, &mut writer);
    let mut ended = close(&rt, writer);
    let notice = ended.notice();
    assert_tells(&rt, &notice, 1);
    viewer.learn(notice);
    assert_sees(&rt, viewer, 1, RECT_RUNS);
    ended.discard(&rt);
}

/// Asserts that a look is refused, and a sheet too.
fn assert_refused(rt: &impl Abort, alloc: Global, viewer: Viewer) {
    match viewer.look() {
        Ok(_) => panic!(rt; "a look is answered"),
        Err((mut viewer, _)) => {
            let sheet = viewer.sheet(alloc);
            let refused = matches!(&sheet, Err(SheetFault::NoLook));
            assert_holds(rt, refused, "no sheet is given");
        }
    }
}

/// What was accepted but not published is never seen. A look may be refused after a discard, and this one is, since the viewer
/// has looked at nothing before.
#[test]
fn looks_are_refused_after_a_discard(rt: HostRuntime) {
    let alloc = rt.alloc();
    let (mut writer, mut desk) = open(&rt, alloc, 1, 10);
    let viewer = take_viewer(&rt, &mut desk);
    fill(&rt, alloc, &mut writer);
    writer.discard(&rt);
    assert_refused(&rt, alloc, viewer);
}

#[test]
fn looks_are_refused_once_all_is_discarded(rt: HostRuntime) {
    let alloc = rt.alloc();
    let (writer, mut desk) = open(&rt, alloc, 1, 10);
    let viewer = take_viewer(&rt, &mut desk);
    close(&rt, writer).discard(&rt);
    assert_refused(&rt, alloc, viewer);
}
