//! What is published.

use super::{MOVED, assert_published, assert_waiting, open_and_move};
use crate::tests::assertions::assert_same;
use crate::tests::{
    Pixels, RECT_RUNS, apply, assert_shows_blank, fill, open, publish, take_viewer,
};
use mf_base::OutOfMemory;
use mf_live::{Viewer, Writer};
use mf_ops::Op;
use mf_testing::{grow_again, refuse_growths};
use std::alloc::Global;
use std::process::Abort;
use std::sync::Wait;

/// Publishes while allocations are refused, and publishes again where that failed. This many operations are accepted, and the
/// working picture has the runs `last`. Until it is published this many are, of which viewers see these runs.
pub(super) fn assert_all_is_published<R: Abort + Wait>(
    rt: &R,
    alloc: Global,
    writer: &mut Writer,
    viewer: Viewer,
    (published, runs): (u32, &[Pixels]),
    (accepted, last): (u32, &[Pixels]),
) -> Viewer {
    let pending = accepted.saturating_sub(published);
    let mut viewer = viewer;
    assert_waiting(rt, writer, (pending, accepted), last);
    refuse_growths(alloc);
    let found = writer.publish(rt);
    grow_again(alloc);
    if found.is_err() {
        assert_same(rt, found, Err(OutOfMemory), "the publish");
        assert_waiting(rt, writer, (pending, accepted), last);
        viewer = assert_published(rt, writer, viewer, published, runs);
        publish(rt, writer);
    }
    assert_waiting(rt, writer, (0, accepted), last);
    assert_published(rt, writer, viewer, accepted, last)
}

#[test]
fn an_operation_is_published(rt: HostRuntime) {
    let alloc = rt.alloc();
    let (mut writer, viewer) = open_and_move(&rt, alloc);
    let before: (u32, &[Pixels]) = (1, RECT_RUNS);
    assert_all_is_published(&rt, alloc, &mut writer, viewer, before, (2, MOVED));
    writer.discard(&rt);
}

/// Viewers see none of several operations, and then all of them.
#[test]
fn several_operations_are_published_at_once(rt: HostRuntime) {
    let alloc = rt.alloc();
    let (mut writer, mut desk) = open(&rt, alloc, 1, 10);
    let viewer = assert_shows_blank(&rt, alloc, take_viewer(&rt, &mut desk), 0);
    fill(&rt, alloc, &mut writer);
    apply(&rt, alloc, &mut writer, Op::Shift(0, 13));
    apply(&rt, alloc, &mut writer, Op::Shift(1, 0));
    assert_all_is_published(&rt, alloc, &mut writer, viewer, (0, &[]), (3, MOVED));
    writer.discard(&rt);
}
