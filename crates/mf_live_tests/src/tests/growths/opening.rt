//! Pictures that are opened.
ghost use Rattle.std.specs.Prelude.{◌≤◌};

use super::assert_waiting;
use crate::tests::assertions::assert_same;
use crate::tests::{
    RECT_RUNS, assert_no_place, assert_sees, assert_shows_blank, assert_tells, open,
    publish_rectangle, take_viewer,
};
use mf_base::OutOfMemory;
use mf_live::{Desk, Writer, open_picture};
use mf_testing::{grow_again, refuse_growths};
use std::alloc::Global;
use std::process::Abort;
use std::sync::Wait;

/// Opens a picture while allocations are refused, and opens one again where that failed. Nothing is accepted and published yet.
pub(super) fn open_in_want<R: Abort + Wait>(
    rt: &R,
    alloc: Global,
    places: u32,
    max_ops: u32,
) -> (Writer, Desk)
    requires { places ≤ 64 }
{
    refuse_growths(alloc);
    let found = open_picture(rt, alloc, places, max_ops);
    grow_again(alloc);
    let (mut writer, desk) = match found {
        Ok(opened) => opened,
        Err(fault) => {
            assert_same(rt, fault, OutOfMemory, "a new picture");
            open(rt, alloc, places, max_ops)
        }
    };
    assert_waiting(rt, &writer, (0, 0), &[]);
    assert_tells(rt, &writer.tell(), 0);
    (writer, desk)
}

/// Asserts that the desk hands out three viewers, who see what is published, and no fourth.
fn assert_three_places<R: Abort + Wait>(
    rt: &R,
    alloc: Global,
    writer: &mut Writer,
    desk: &mut Desk,
) {
    let (first, second, third) = (
        take_viewer(rt, desk),
        take_viewer(rt, desk),
        take_viewer(rt, desk),
    );
    assert_no_place(rt, desk);
    let first = assert_shows_blank(rt, alloc, first, 0);
    publish_rectangle(rt, alloc, writer);
    assert_sees(rt, first, 1, RECT_RUNS);
    assert_sees(rt, second, 1, RECT_RUNS);
    assert_sees(rt, third, 1, RECT_RUNS);
}

#[test]
fn opens_a_picture_with_three_places(rt: HostRuntime) {
    let alloc = rt.alloc();
    let (mut writer, mut desk) = open_in_want(&rt, alloc, 3, 10);
    assert_three_places(&rt, alloc, &mut writer, &mut desk);
    writer.discard(&rt);
}
