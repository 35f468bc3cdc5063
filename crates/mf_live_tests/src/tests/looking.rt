//! What looks show, and what notices say.

ghost use Rattle.std.specs.Prelude.{◌≡◌, ◌≤◌};
ghost use Rattle.mf_live.specs.Viewers as viewers;
ghost use Rattle.mf_live.specs.Writers as writers;

use super::{
    Pixels, RECT, RECT_RUNS, apply, assert_no_place, assert_sees, assert_shows, assert_shows_blank,
    assert_tells, assert_working, close, contour, fill, open, publish, publish_rectangle,
    take_viewer,
};
use crate::tests::assertions::assert_same;
use mf_live::laws::{look_is_published, told_is_published, told_is_published_at_the_end};
use mf_live::{Desk, Viewer, Writer, open_picture};
use mf_ops::Op;
use std::alloc::Global;
use std::process::Abort;
use std::sync::Wait;
use std::test::Fail;

/// Two operations that are published at once are shown at once.
#[test]
fn both_operations_are_shown_at_once(rt: HostRuntime) -> Result<(), Fail> {
    let alloc = rt.alloc();
    let op = contour(&rt, alloc, RECT, 1);
    let (mut writer, mut desk) = open_picture(&rt, alloc, 2, 1_000_000)?;
    let viewer = desk.viewer().expect(&rt, "a place is left");

    writer.apply(alloc, op).expect(&rt, "the field has room");
    writer
        .apply(alloc, Op::Shift(3, 0))
        .expect(&rt, "no pixel leaves the field");
    writer.publish(&rt).expect(&rt, "there is memory");

    let Ok(look) = viewer.look() else {
        panic!(rt; "the writer is there");
    };
    let total = look.picture().total();
    let _viewer = look.leave();

    assert_same(&rt, total, 6, "the shifted rectangle");
    writer.discard(&rt);
    Ok(())
}

/// Fills the rectangle in a blank picture, and publishes it. Asserts that a viewer of that picture sees nothing of it until then,
/// and all of it from then on, before it has learnt of the publish and after that.
pub(crate) fn assert_publish_is_shown<R: Abort + Wait>(
    rt: &R,
    alloc: Global,
    writer: &mut Writer,
    viewer: Viewer,
) -> Viewer
    requires { viewers.identity viewer ≡ writers.identity writer.old }
    ensures viewer { viewers.identity result ≡ viewers.identity viewer }
    ensures writer { writers.identity writer.new ≡ writers.identity writer.old }
{
    let viewer = assert_shows_blank(rt, alloc, viewer, 0);
    fill(rt, alloc, writer);
    let viewer = assert_shows_blank(rt, alloc, viewer, 0);
    publish(rt, writer);
    let mut viewer = assert_shows(rt, viewer, 1, 6);
    viewer.learn(writer.tell());
    let viewer = assert_shows(rt, viewer, 1, 6);
    assert_shows(rt, viewer, 1, 6)
}

#[test]
fn shows_what_is_published(rt: HostRuntime) {
    let alloc = rt.alloc();
    let (mut writer, mut desk) = open(&rt, alloc, 1, 10);
    let viewer = take_viewer(&rt, &mut desk);
    assert_publish_is_shown(&rt, alloc, &mut writer, viewer);
    writer.discard(&rt);
}

/// A viewer learns from notices of another viewer's look and sheet. The laws that say who has published what these show change
/// nothing.
#[test]
fn viewers_pass_on_what_they_see(rt: HostRuntime) {
    let alloc = rt.alloc();
    let (mut writer, mut desk) = open(&rt, alloc, 2, 10);
    let first = take_viewer(&rt, &mut desk);
    let mut second = take_viewer(&rt, &mut desk);
    publish_rectangle(&rt, alloc, &mut writer);
    let Ok(look) = first.look() else {
        panic!(rt; "the writer is there");
    };
    look_is_published(&look, &mut writer);
    let seen = look.notice();
    let mut first = look.leave();
    assert_tells(&rt, &seen, 1);
    second.learn(seen);
    let mut second = assert_shows(&rt, second, 1, 6);

    apply(&rt, alloc, &mut writer, Op::Clear);
    publish(&rt, &mut writer);
    let Ok(sheet) = first.sheet(alloc) else {
        panic!(rt; "there is room for a sheet");
    };
    let kept = sheet.notice();
    assert_tells(&rt, &kept, 2);
    told_is_published(&kept, &mut writer);
    assert_working(&rt, &writer, 0, 0);
    let mut ended = close(&rt, writer);
    told_is_published_at_the_end(&kept, &mut ended);
    second.learn(kept);
    assert_shows_blank(&rt, alloc, second, 2);
    ended.discard(&rt);
}

/// Of two pictures, each shows its own viewers what its own writer publishes.
#[test]
fn each_desk_has_its_own_picture(rt: HostRuntime) {
    let alloc = rt.alloc();
    let (mut first, mut first_desk) = open(&rt, alloc, 1, 10);
    let (second, mut second_desk) = open(&rt, alloc, 1, 10);
    let here = take_viewer(&rt, &mut first_desk);
    let there = take_viewer(&rt, &mut second_desk);
    publish_rectangle(&rt, alloc, &mut first);
    assert_shows(&rt, here, 1, 6);
    assert_shows_blank(&rt, alloc, there, 0);
    first.discard(&rt);
    second.discard(&rt);
}

/// A picture that nobody can look at is changed, published and closed all the same.
#[test]
fn a_picture_may_have_no_viewers(rt: HostRuntime) {
    let alloc = rt.alloc();
    let (mut writer, mut desk) = open(&rt, alloc, 0, 10);
    assert_no_place(&rt, &mut desk);
    publish_rectangle(&rt, alloc, &mut writer);
    assert_working(&rt, &writer, 0, 6);
    assert_tells(&rt, &writer.tell(), 1);
    assert_no_place(&rt, &mut desk);
    let mut ended = close(&rt, writer);
    assert_tells(&rt, &ended.notice(), 1);
    assert_no_place(&rt, &mut desk);
    ended.discard(&rt);
}

#[test]
fn does_not_reuse_the_place_of_a_dropped_viewer(rt: HostRuntime) {
    let (writer, mut desk) = open(&rt, rt.alloc(), 2, 10);
    drop(take_viewer(&rt, &mut desk));
    drop(take_viewer(&rt, &mut desk));
    assert_no_place(&rt, &mut desk);
    writer.discard(&rt);
}

/// The viewers of a desk that has exactly this many places.
fn all_viewers(rt: &impl Abort, alloc: Global, desk: &mut Desk, places: u32) -> Vec<Viewer> {
    let mut viewers = Vec::new(alloc);
    for _ in 0..places {
        viewers
            .push(take_viewer(rt, desk))
            .expect(rt, "there is room for a viewer");
    }
    assert_no_place(rt, desk);
    viewers
}

/// Asserts that all viewers see this many operations, and a picture of exactly these runs.
fn assert_all_see(
    rt: &impl Abort,
    alloc: Global,
    viewers: Vec<Viewer>,
    revision: u32,
    runs: &[Pixels],
) -> Vec<Viewer> {
    let mut after = Vec::new(alloc);
    for viewer in viewers {
        after
            .push(assert_sees(rt, viewer, revision, runs))
            .expect(rt, "there is room for a viewer");
    }
    after
}

/// Asserts that a picture with this many places has as many viewers, and that they all see the same before and after a publish.
fn assert_places<R: Abort + Wait>(rt: &R, alloc: Global, places: u32)
    requires { places ≤ 64 }
{
    let (mut writer, mut desk) = open(rt, alloc, places, 10);
    let viewers = all_viewers(rt, alloc, &mut desk, places);
    let viewers = assert_all_see(rt, alloc, viewers, 0, &[]);
    publish_rectangle(rt, alloc, &mut writer);
    let viewers = assert_all_see(rt, alloc, viewers, 1, RECT_RUNS);
    assert_same(rt, viewers.len(), places as usize, "viewers");
    writer.discard(rt);
}

#[test]
fn has_1_to_15_places(rt: HostRuntime) {
    for places in 1..16 {
        assert_places(&rt, rt.alloc(), places);
    }
}

#[test]
fn has_64_places(rt: HostRuntime) {
    assert_places(&rt, rt.alloc(), 64);
}

/// The later notice counts, even where it is learnt first.
#[test]
fn learns_the_second_notice_before_the_first(rt: HostRuntime) {
    let alloc = rt.alloc();
    let (mut writer, mut desk) = open(&rt, alloc, 1, 10);
    let mut viewer = take_viewer(&rt, &mut desk);
    publish_rectangle(&rt, alloc, &mut writer);
    let first = writer.tell();
    apply(&rt, alloc, &mut writer, Op::Shift(2, 1));
    publish(&rt, &mut writer);
    let second = writer.tell();
    assert_tells(&rt, &second, 2);
    viewer.learn(second);
    assert_tells(&rt, &first, 1);
    viewer.learn(first);
    let viewer = assert_sees(&rt, viewer, 2, &[(2, 2, 3, 1), (1, 2, 3, 1)]);
    assert_sees(&rt, viewer, 2, &[(2, 2, 3, 1), (1, 2, 3, 1)]);
    writer.discard(&rt);
}

#[test]
fn publishes_after_a_viewer_was_dropped(rt: HostRuntime) {
    let alloc = rt.alloc();
    let (mut writer, mut desk) = open(&rt, alloc, 1, 10);
    let viewer = take_viewer(&rt, &mut desk);
    publish_rectangle(&rt, alloc, &mut writer);
    drop(viewer);
    publish_rectangle(&rt, alloc, &mut writer);
    assert_tells(&rt, &writer.tell(), 2);
    assert_working(&rt, &writer, 0, 12);
    writer.discard(&rt);
}

/// How often the rectangle is moved to the right and back.
const MOVES: u32 = 49_999;

/// Moves the picture to the right and back, and publishes both moves at once, again and again.
fn publish_moves<R: Abort + Wait>(rt: &R, alloc: Global, writer: &mut Writer) {
    for _ in 0..MOVES {
        apply(rt, alloc, writer, Op::Shift(1, 0));
        apply(rt, alloc, writer, Op::Shift(-1, 0));
        publish(rt, writer);
    }
}

#[test]
fn shows_100_000_operations(rt: HostRuntime) {
    let alloc = rt.alloc();
    let (mut writer, mut desk) = open(&rt, alloc, 1, 100_000);
    let viewer = take_viewer(&rt, &mut desk);
    publish_rectangle(&rt, alloc, &mut writer);
    publish_moves(&rt, alloc, &mut writer);
    let viewer = assert_sees(&rt, viewer, 99_999, RECT_RUNS);
    apply(&rt, alloc, &mut writer, Op::Shift(0, 4));
    publish(&rt, &mut writer);
    assert_tells(&rt, &writer.tell(), 100_000);
    assert_sees(&rt, viewer, 100_000, &[(5, 0, 3, 1), (4, 0, 3, 1)]);
    writer.discard(&rt);
}
