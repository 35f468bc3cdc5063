//! The calls of `mf_live`.
ghost use Rattle.std.specs.Prelude.{◌≡◌};
ghost use Rattle.mf_live.specs.Desks.{desk_identity};
ghost use Rattle.mf_live.specs.Viewers as viewers;
ghost use Rattle.mf_live.specs.Writers as writers;

use super::operations::contour;
use crate::tests::assertions::assert_same;
use mf_live::{
    CloseFault, Closing, Desk, Ended, Fault, Look, NoLook, NoPlace, Notice, OutOfMemory, Sheet,
    SheetFault, Viewer, Writer, open_picture,
};
use mf_ops::{Check, Op, OpFault};
use mf_rows::Picture;
use std::alloc::Global;
use std::process::Abort;
use std::sync::Wait;

/// A picture that accepts at most two operations, and a desk of at most one viewer.
fn open<R: Abort + Wait>(rt: &R, alloc: Global) -> (Writer, Desk)
    ensures { desk_identity result.1 ≡ writers.identity result.0 }
{
    let (places, max_ops): (u32, u32) = (1, 2);
    let opened: Result<(Writer, Desk), OutOfMemory> = open_picture(rt, alloc, places, max_ops);
    opened.expect(rt, "there is room for a picture")
}

/// The only viewer of a desk.
fn take_viewer(rt: &impl Abort, desk: &mut Desk) -> Viewer
    ensures { viewers.identity result ≡ desk_identity desk.old }
{
    let given: Result<Viewer, NoPlace> = desk.viewer();
    let viewer = given.expect(rt, "a place is left");
    assert_same(rt, desk.viewer().err(), Some(NoPlace), "the second viewer");
    viewer
}

/// The name of a fault, and the fault of the operation.
fn parts_of(fault: Fault) -> (&'static str, Option<OpFault>) {
    match fault {
        Fault::TooManyOperations => ("TooManyOperations", None),
        Fault::Refused(fault) => ("Refused", Some(fault)),
    }
}

/// Applies an operation, and answers why it was refused.
fn apply(alloc: Global, writer: &mut Writer, op: Op) -> Option<(&'static str, Option<OpFault>)>
    ensures { writers.identity writer.new ≡ writers.identity writer.old }
{
    let applied: Result<(), (Op, Fault)> = writer.apply(alloc, op);
    match applied {
        Ok(()) => None,
        Err((_, fault)) => Some(parts_of(fault)),
    }
}

/// Asserts that this many operations wait for a publish, and that the working picture has this total weight.
fn assert_working(rt: &impl Abort, writer: &Writer, pending: u32, total: i64) {
    let picture: &Picture = writer.working();
    let found: (u32, i64) = (writer.pending(), picture.total());
    assert_same(rt, found, (pending, total), "the working picture");
}

/// Publishes, and returns the notice of that.
fn publish<R: Abort + Wait>(rt: &R, writer: &mut Writer) -> Notice
    ensures same { writers.identity writer.new ≡ writers.identity writer.old }
    ensures notice { viewers.notice_identity result ≡ writers.identity writer.old }
{
    let published: Result<(), OutOfMemory> = writer.publish(rt);
    published.expect(rt, "there is room to publish");
    let notice: Notice = writer.tell();
    notice
}

/// Closes a picture, and publishes again where that was not done.
fn close<R: Abort + Wait>(rt: &R, writer: Writer) -> Ended
    ensures { writers.ended_identity result ≡ writers.identity writer }
{
    let closed: Result<Ended, CloseFault> = writer.close(rt);
    match closed {
        Ok(ended) => ended,
        Err(CloseFault::Kept(writer)) => {
            writer.discard(rt);
            panic!(rt; "no room to close the picture")
        }
        Err(CloseFault::Halfway(closing)) => publish_end(rt, closing),
    }
}

/// Publishes the end of a picture.
fn publish_end<R: Abort + Wait>(rt: &R, closing: Closing) -> Ended
    ensures { writers.ended_identity result ≡ writers.closing_identity closing }
{
    let published: Result<Ended, Closing> = closing.publish(rt);
    match published {
        Ok(ended) => ended,
        Err(closing) => {
            closing.discard(rt);
            panic!(rt; "no room to publish the end")
        }
    }
}

/// Asserts that a look shows this many operations, and a picture of this total weight.
fn assert_shows(rt: &impl Abort, viewer: Viewer, revision: u32, total: i64) -> Viewer
    ensures { viewers.identity result ≡ viewers.identity viewer }
{
    let answered: Result<Look, (Viewer, NoLook)> = viewer.look();
    match answered {
        Ok(look) => {
            let picture: &Picture = look.picture();
            let shown: (u32, i64) = (look.revision(), picture.total());
            assert_same(rt, shown, (revision, total), "a look");
            let viewer: Viewer = look.leave();
            viewer
        }
        Err((_, NoLook)) => panic!(rt; "the look is not answered"),
    }
}

/// Asserts that a sheet shows this many operations, and a picture of this total weight.
fn assert_sheet(rt: &impl Abort, alloc: Global, viewer: &mut Viewer, revision: u32, total: i64) {
    let taken: Result<Sheet, SheetFault> = viewer.sheet(alloc);
    match taken {
        Ok(sheet) => {
            let picture: &Picture = sheet.picture();
            let shown: (u32, i64) = (sheet.revision(), picture.total());
            assert_same(rt, shown, (revision, total), "a sheet");
        }
        Err(SheetFault::NoLook) => panic!(rt; "the look is not answered"),
        Err(SheetFault::OutOfMemory) => panic!(rt; "there is no room for a sheet"),
    }
}

/// Asserts that a notice has this revision, and has a viewer learn it.
fn learn(rt: &impl Abort, viewer: &mut Viewer, notice: Notice, revision: u32)
    requires { viewers.notice_identity notice ≡ viewers.identity viewer.old }
    ensures { viewers.identity viewer.new ≡ viewers.identity viewer.old }
{
    let told: u32 = notice.revision();
    assert_same(rt, told, revision, "a notice");
    let _: () = viewer.learn(notice);
}

#[test]
fn lives_and_ends(rt: HostRuntime) {
    let alloc = rt.alloc();
    let (mut writer, mut desk) = open(&rt, alloc);
    let viewer = take_viewer(&rt, &mut desk);
    let refused = apply(alloc, &mut writer, contour(&rt, alloc, Check::On));
    assert_same(&rt, refused, None, "a contour");
    assert_working(&rt, &writer, 1, 6);
    let mut viewer = assert_shows(&rt, viewer, 0, 0);
    learn(&rt, &mut viewer, publish(&rt, &mut writer), 1);
    let mut viewer = assert_shows(&rt, viewer, 1, 6);
    let mut ended = close(&rt, writer);
    let notice: Notice = ended.notice();
    learn(&rt, &mut viewer, notice, 1);
    assert_sheet(&rt, alloc, &mut viewer, 1, 6);
    ended.discard(&rt);
}

#[test]
fn refuses_an_operation(rt: HostRuntime) {
    let alloc = rt.alloc();
    let (mut writer, _) = open(&rt, alloc);
    let refused = apply(alloc, &mut writer, contour(&rt, alloc, Check::On));
    assert_same(&rt, refused, None, "a contour");
    let refused = apply(alloc, &mut writer, Op::Shift(4095, 0));
    let outside = Some(("Refused", Some(OpFault::OutOfField)));
    assert_same(&rt, refused, outside, "far to the right");
    assert_same(&rt, apply(alloc, &mut writer, Op::Clear), None, "a clear");
    let many = Some(("TooManyOperations", None));
    assert_same(
        &rt,
        apply(alloc, &mut writer, Op::Clear),
        many,
        "the third operation",
    );
    writer.discard(&rt);
}
