//! Tests of live pictures, most of them with two small contours.
ghost use Rattle.std.specs.Prelude.{◌≡◌, ◌≤◌};
ghost use Rattle.mf_live.specs.Desks.{desk_identity};
ghost use Rattle.mf_live.specs.Viewers as viewers;
ghost use Rattle.mf_live.specs.Writers as writers;

mod assertions;
mod ending;
mod growths;
mod looking;
mod sheets;
mod threads;
mod writing;

use assertions::{assert_holds, assert_same};
use mf_geom::{Cycle, Point};
use mf_live::{CloseFault, Desk, Ended, NoPlace, Notice, Viewer, Writer, open_picture};
use mf_ops::{Check, Op, Weight};
use mf_rows::{Picture, RowBuilder, Run};
use std::alloc::{AllocError, Global};
use std::process::Abort;
use std::sync::Wait;

/// A rectangle of 3 by 2 pixels, counterclockwise.
pub(crate) const RECT: &[(i32, i32)] = &[(0, 0), (3, 0), (3, 2), (0, 2)];

/// The pixel (0, 0), counterclockwise.
pub(crate) const UNIT: &[(i32, i32)] = &[(0, 0), (1, 0), (1, 1), (0, 1)];

/// A run of pixels: row, first column, length and weight.
pub(crate) type Pixels = (i32, i32, u32, i32);

/// The rectangle, filled with weight 1.
pub(crate) const RECT_RUNS: &[Pixels] = &[(1, 0, 3, 1), (0, 0, 3, 1)];

/// The points of a path.
fn points(alloc: Global, corners: &[(i32, i32)]) -> Result<Vec<Point>, AllocError> {
    let mut points = Vec::new(alloc);
    for (x, y) in corners {
        points.push(Point { x: *x, y: *y })?;
    }
    Ok(points)
}

/// The contour through these corners, of this weight, under the turning check.
pub(crate) fn contour(rt: &impl Abort, alloc: Global, corners: &[(i32, i32)], weight: i32) -> Op {
    let points = points(alloc, corners).expect(rt, "there is room for the path");
    contour_through(rt, points, weight, Check::On)
}

/// The same with the turning check off.
pub(crate) fn unchecked_contour(
    rt: &impl Abort,
    alloc: Global,
    corners: &[(i32, i32)],
    weight: i32,
) -> Op {
    let points = points(alloc, corners).expect(rt, "there is room for the path");
    contour_through(rt, points, weight, Check::Off)
}

/// The contour through these points, with this weight and this setting of the turning check.
fn contour_through(rt: &impl Abort, points: Vec<Point>, weight: i32, check: Check) -> Op {
    match (Cycle::new(points), Weight::new(weight)) {
        (Ok(cycle), Ok(weight)) => Op::Contour(cycle, weight, check),
        _ => panic!(rt; "no contour of weight {weight}"),
    }
}

/// Adds a run, which must fit after the others.
pub(crate) fn push(rt: &impl Abort, builder: &mut RowBuilder, run: Run) {
    assert!(rt; builder.fits(&run), "{run:?}");
    builder
        .push_run(run)
        .expect(rt, "there is room for the run");
}

/// These pixels as a run.
pub(crate) fn run_of((y, x, len, weight): Pixels) -> Run {
    Run { y, x, len, weight }
}

/// The picture with these runs.
pub(crate) fn picture(rt: &impl Abort, alloc: Global, runs: &[Pixels]) -> Picture {
    let mut builder = RowBuilder::new(alloc);
    for run in runs {
        push(rt, &mut builder, run_of(*run));
    }
    builder.finish().expect(rt, "there is room for the picture")
}

/// The writer of a picture of at most `max_ops` operations, and a desk of at most `places` viewers.
pub(crate) fn open<R: Abort + Wait>(
    rt: &R,
    alloc: Global,
    places: u32,
    max_ops: u32,
) -> (Writer, Desk)
    requires { places ≤ 64 }
    ensures { desk_identity result.1 ≡ writers.identity result.0 }
{
    open_picture(rt, alloc, places, max_ops).expect(rt, "there is room for a picture")
}

/// Takes a viewer from a desk that has one left.
pub(crate) fn take_viewer(rt: &impl Abort, desk: &mut Desk) -> Viewer
    ensures viewer { viewers.identity result ≡ desk_identity desk.old }
    ensures desk { desk_identity desk.new ≡ desk_identity desk.old }
{
    desk.viewer().expect(rt, "a place is left")
}

/// Asserts that no viewer is left.
pub(crate) fn assert_no_place(rt: &impl Abort, desk: &mut Desk)
    ensures { desk_identity desk.new ≡ desk_identity desk.old }
{
    assert_same(rt, desk.viewer().err(), Some(NoPlace), "a viewer");
}

/// A copy of the working picture.
pub(crate) fn copy_working(rt: &impl Abort, alloc: Global, writer: &Writer) -> Picture {
    writer
        .working()
        .copy(alloc)
        .expect(rt, "there is room for a copy")
}

/// Applies an operation, which is accepted.
pub(crate) fn apply(rt: &impl Abort, alloc: Global, writer: &mut Writer, op: Op)
    ensures { writers.identity writer.new ≡ writers.identity writer.old }
{
    writer
        .apply(alloc, op)
        .expect(rt, "the operation is accepted");
}

/// Publishes.
pub(crate) fn publish<R: Abort + Wait>(rt: &R, writer: &mut Writer)
    ensures { writers.identity writer.new ≡ writers.identity writer.old }
{
    writer.publish(rt).expect(rt, "there is room to publish");
}

/// Fills the rectangle.
pub(crate) fn fill(rt: &impl Abort, alloc: Global, writer: &mut Writer)
    ensures { writers.identity writer.new ≡ writers.identity writer.old }
{
    apply(rt, alloc, writer, contour(rt, alloc, RECT, 1));
}

/// Fills the rectangle, and publishes that.
pub(crate) fn publish_rectangle<R: Abort + Wait>(rt: &R, alloc: Global, writer: &mut Writer)
    ensures { writers.identity writer.new ≡ writers.identity writer.old }
{
    fill(rt, alloc, writer);
    publish(rt, writer);
}

/// Closes the picture.
pub(crate) fn close<R: Abort + Wait>(rt: &R, writer: Writer) -> Ended
    ensures { writers.ended_identity result ≡ writers.identity writer }
{
    match writer.close(rt) {
        Ok(ended) => ended,
        Err(CloseFault::Kept(writer)) => {
            writer.discard(rt);
            panic!(rt; "no room to close the picture")
        }
        Err(CloseFault::Halfway(closing)) => {
            closing.discard(rt);
            panic!(rt; "no room to publish the end")
        }
    }
}

/// Asserts that the working picture has this total weight, and that this many of its operations are pending.
pub(crate) fn assert_working(rt: &impl Abort, writer: &Writer, pending: u32, total: i64) {
    let found = (writer.pending(), writer.working().total());
    assert_same(
        rt,
        found,
        (pending, total),
        "operations that wait, and the total",
    );
}

/// Asserts that a picture is blank.
pub(crate) fn assert_blank(rt: &impl Abort, alloc: Global, picture: &Picture, case: &'static str) {
    assert_holds(rt, picture.equal(&Picture::blank(alloc)), case);
}

/// Asserts that a picture has exactly these runs.
pub(crate) fn assert_runs(rt: &impl Abort, picture: &Picture, runs: &[Pixels], case: &'static str) {
    let mut found = picture.runs();
    for run in runs {
        assert_same(rt, found.next(), Some(run_of(*run)), case);
    }
    assert_same(rt, found.next(), None, case);
}

/// Asserts that a look shows this many operations, and a picture of exactly these runs.
pub(crate) fn assert_sees(rt: &impl Abort, viewer: Viewer, revision: u32, runs: &[Pixels]) -> Viewer
    ensures { viewers.identity result ≡ viewers.identity viewer }
{
    match viewer.look() {
        Ok(look) => {
            assert_same(rt, look.revision(), revision, "the revision of a look");
            assert_runs(rt, look.picture(), runs, "the runs of a look");
            look.leave()
        }
        Err(_) => panic!(rt; "the look is not answered"),
    }
}

/// Asserts that a look shows this many operations, and a blank picture.
pub(crate) fn assert_shows_blank(
    rt: &impl Abort,
    alloc: Global,
    viewer: Viewer,
    revision: u32,
) -> Viewer
    ensures { viewers.identity result ≡ viewers.identity viewer }
{
    match viewer.look() {
        Ok(look) => {
            assert_same(rt, look.revision(), revision, "the revision of a look");
            assert_blank(rt, alloc, look.picture(), "a look is blank");
            look.leave()
        }
        Err(_) => panic!(rt; "the look is not answered"),
    }
}

/// Asserts that a look shows this many operations, and a picture of this total weight.
pub(crate) fn assert_shows(rt: &impl Abort, viewer: Viewer, revision: u32, total: i64) -> Viewer
    ensures { viewers.identity result ≡ viewers.identity viewer }
{
    match viewer.look() {
        Ok(look) => {
            let shown = (look.revision(), look.picture().total());
            assert_same(rt, shown, (revision, total), "what a look shows");
            look.leave()
        }
        Err(_) => panic!(rt; "the look is not answered"),
    }
}

/// Asserts that a notice has this revision.
pub(crate) fn assert_tells(rt: &impl Abort, notice: &Notice, revision: u32) {
    assert_same(rt, notice.revision(), revision, "what is told");
}
