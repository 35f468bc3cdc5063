//! Tests of states that no caller can bring a picture into, so they need private fields. All others are in `mf_live_tests`.
ghost use Rattle.std.specs.Prelude.{◌≡◌};
ghost use Rattle.mf_live.specs.Viewers as viewers;
ghost use Rattle.mf_live.specs.Writers as writers;

mod growths;

use crate::closing::{Closing, Ended};
use crate::desk::open_picture;
use crate::laws::told_is_published_halfway;
use crate::viewer::Viewer;
use crate::writer::Writer;
use mf_geom::{Check, Cycle, Point};
use mf_ops::{Op, Weight};
use std::alloc::Global;
use std::process::Abort;
use std::sync::Wait;

/// A rectangle of 3 by 2 pixels, counterclockwise.
const RECT: &[Point] = &[
    Point { x: 0, y: 0 },
    Point { x: 3, y: 0 },
    Point { x: 3, y: 2 },
    Point { x: 0, y: 2 },
];

/// The writer of a picture, and its one viewer.
fn open<R: Abort + Wait>(rt: &R, alloc: Global) -> (Writer, Viewer)
    ensures { viewers.identity result.1 ≡ writers.identity result.0 }
{
    let (writer, mut desk) = open_picture(rt, alloc, 1, 10).expect(rt, "there is room");
    let viewer = desk.viewer().expect(rt, "a place is left");
    (writer, viewer)
}

/// Fills the rectangle.
fn fill(rt: &impl Abort, alloc: Global, writer: &mut Writer)
    ensures { writers.identity writer.new ≡ writers.identity writer.old }
{
    let points = Vec::from_slice(alloc, RECT).expect(rt, "there is room for the path");
    let cycle = Cycle::new(points).expect(rt, "the path is a cycle");
    let weight = Weight::new(1).expect(rt, "the weight is lawful");
    writer
        .apply(alloc, Op::Contour(cycle, weight, Check::On))
        .expect(rt, "the operation is accepted");
}

/// Asserts that a look shows this many operations, and a picture of this total weight.
fn assert_shows(rt: &impl Abort, viewer: Viewer, revision: u32, total: i64) -> Viewer
    ensures { viewers.identity result ≡ viewers.identity viewer }
{
    match viewer.look() {
        Ok(look) => {
            let shown = (look.revision(), look.picture().total());
            assert_eq!(rt; shown, (revision, total), "what is shown");
            look.leave()
        }
        Err(_) => panic!(rt; "the look is not answered"),
    }
}

/// A picture whose end mark is set but not published yet. No function returns one: `close` allocates before it sets the mark.
#[tactic(auto, using(crate::proofs::Ending::end_closes))]
fn half_close(writer: Writer) -> Closing
    ensures { writers.closing_identity result ≡ writers.identity writer }
{
    let Writer {
        mut holder,
        max_ops: _,
    } = writer;
    holder.end();
    Closing { holder }
}

/// Publishes the end.
fn publish_end<R: Abort + Wait>(rt: &R, closing: Closing) -> Ended
    ensures { writers.ended_identity result ≡ writers.closing_identity closing }
{
    match closing.publish(rt) {
        Ok(ended) => ended,
        Err(closing) => {
            closing.discard(rt);
            panic!(rt; "no room to publish the end")
        }
    }
}

/// Asserts that a notice of the end has this revision.
fn assert_tells(rt: &impl Abort, ended: &mut Ended, revision: u32)
    ensures { writers.ended_identity ended.new ≡ writers.ended_identity ended.old }
{
    assert_eq!(rt; ended.notice().revision(), revision, "what is told");
}

/// Lets the viewer learn a notice of the end, which has this revision.
fn learn_end(rt: &impl Abort, ended: &mut Ended, viewer: Viewer, revision: u32) -> Viewer
    requires { viewers.identity viewer ≡ writers.ended_identity ended.old }
{
    assert_tells(rt, ended, revision);
    let mut viewer = viewer;
    viewer.learn(ended.notice());
    viewer
}

#[test]
fn publishes_the_end_later(rt: HostRuntime) {
    let alloc = rt.alloc();
    let (mut writer, viewer) = open(&rt, alloc);
    fill(&rt, alloc, &mut writer);
    let told = writer.tell();
    let mut closing = half_close(writer);
    told_is_published_halfway(&told, &mut closing);
    let viewer = assert_shows(&rt, viewer, 0, 0);
    let mut ended = publish_end(&rt, closing);
    let viewer = learn_end(&rt, &mut ended, viewer, 1);
    assert_shows(&rt, viewer, 1, 6);
    ended.discard(&rt);
}
