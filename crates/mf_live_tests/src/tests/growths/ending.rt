//! Pictures that are closed. Closing a picture of which nothing was accepted allocates nothing.

use super::{assert_published, assert_waiting};
use crate::tests::{
    Pixels, RECT_RUNS, assert_sees, assert_shows_blank, assert_tells, close, fill, open,
    publish_rectangle, take_viewer,
};
use mf_live::{CloseFault, Closing, Ended, Viewer, Writer};
use mf_testing::{grow_again, refuse_growths};
use std::alloc::Global;
use std::process::Abort;
use std::sync::Wait;

/// Publishes the end once more, with ample memory.
fn publish_again<R: Abort + Wait>(rt: &R, closing: Closing) -> Ended {
    match closing.publish(rt) {
        Ok(ended) => ended,
        Err(closing) => {
            closing.discard(rt);
            panic!(rt; "no room to publish the end")
        }
    }
}

/// Closes a picture while allocations are refused, and closes it again where that failed. This many of its operations are pending
/// and accepted, and its working picture has the runs `last`. Until it is closed this many are published, of which viewers see
/// these runs; the end has all operations.
pub(super) fn assert_closed<R: Abort + Wait>(
    rt: &R,
    alloc: Global,
    writer: Writer,
    viewer: Viewer,
    (pending, accepted): (u32, u32),
    (published, runs): (u32, &[Pixels]),
    last: &[Pixels],
) {
    let mut viewer = viewer;
    refuse_growths(alloc);
    let closed = writer.close(rt);
    grow_again(alloc);
    let mut ended = match closed {
        Ok(ended) => ended,
        Err(CloseFault::Kept(mut writer)) => {
            assert_waiting(rt, &writer, (pending, accepted), last);
            viewer = assert_published(rt, &mut writer, viewer, published, runs);
            close(rt, writer)
        }
        Err(CloseFault::Halfway(closing)) => {
            viewer = assert_sees(rt, viewer, published, runs);
            publish_again(rt, closing)
        }
    };
    assert_tells(rt, &ended.notice(), accepted);
    assert_sees(rt, viewer, accepted, last);
    ended.discard(rt);
}

#[test]
fn closes_a_picture_whose_rectangle_is_pending(rt: HostRuntime) {
    let alloc = rt.alloc();
    let (mut writer, mut desk) = open(&rt, alloc, 1, 10);
    let viewer = assert_shows_blank(&rt, alloc, take_viewer(&rt, &mut desk), 0);
    fill(&rt, alloc, &mut writer);
    assert_closed(&rt, alloc, writer, viewer, (1, 1), (0, &[]), RECT_RUNS);
}

#[test]
fn closes_a_picture_whose_rectangle_is_published(rt: HostRuntime) {
    let alloc = rt.alloc();
    let (mut writer, mut desk) = open(&rt, alloc, 1, 10);
    let viewer = assert_shows_blank(&rt, alloc, take_viewer(&rt, &mut desk), 0);
    publish_rectangle(&rt, alloc, &mut writer);
    assert_closed(
        &rt,
        alloc,
        writer,
        viewer,
        (0, 1),
        (1, RECT_RUNS),
        RECT_RUNS,
    );
}
