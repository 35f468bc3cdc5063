//! Looks in threads beside a writer.

use super::{UNIT, assert_shows, contour, open, take_viewer};
use crate::tests::assertions::{assert_holds, assert_same};
use mf_live::{Viewer, Writer};
use std::alloc::Global;
use std::process::Abort;
use std::sync::Wait;
use std::thread::{Threads, join};

/// How often the writer publishes.
const PUBLISHES: u32 = 1000;

/// How often each viewer looks.
const LOOKS: u32 = 20_000;

/// Adds 1 to a pixel and publishes that, again and again, so that the total of revision r is r. Answers whether nothing was
/// refused.
fn write<R: Abort + Wait>(rt: &R, alloc: Global, writer: &mut Writer) -> bool {
    let mut fine = true;
    for _ in 0..PUBLISHES {
        let accepted = writer.apply(alloc, contour(rt, alloc, UNIT, 1)).is_ok();
        fine = fine && accepted && writer.publish(rt).is_ok();
    }
    fine
}

/// The viewer after its looks, and how many looks went wrong: they went back, had a total other than that of their revision, or
/// were not answered.
fn look(viewer: Viewer) -> (Viewer, u32) {
    let (mut viewer, mut last, mut wrong) = (viewer, 0, 0u32);
    for _ in 0..LOOKS {
        match viewer.look() {
            Ok(look) => {
                let (revision, total) = (look.revision(), look.picture().total());
                wrong = wrong.wrapping_add((revision < last || total != revision as i64) as u32);
                last = revision;
                viewer = look.leave();
            }
            Err((same, _)) => {
                wrong = wrong.wrapping_add(1);
                viewer = same;
            }
        }
    }
    (viewer, wrong)
}

/// Runs the writer beside two viewers. Answers whether the writer was refused nothing, and the viewers with the number of their
/// looks that went wrong.
fn race<R: Abort + Threads + Wait + Sync>(
    rt: &R,
    alloc: Global,
    writer: &mut Writer,
    one: Viewer,
    other: Viewer,
) -> (bool, ((Viewer, u32), (Viewer, u32))) {
    join(
        rt,
        move || write(rt, alloc, writer),
        move || join(rt, move || look(one), move || look(other)),
    )
}

#[test]
fn looks_beside_a_writer_never_go_back(rt: HostRuntime) {
    let alloc = rt.alloc();
    let (mut writer, mut desk) = open(&rt, alloc, 2, PUBLISHES);
    let one = take_viewer(&rt, &mut desk);
    let other = take_viewer(&rt, &mut desk);
    let (fine, watched) = race(&rt, alloc, &mut writer, one, other);
    assert_holds(&rt, fine, "the writer is refused nothing");
    let ((one, wrong), (other, wrong_too)) = watched;
    assert_same(&rt, (wrong, wrong_too), (0, 0), "looks that were wrong");
    assert_shows(&rt, one, PUBLISHES, 1000);
    assert_shows(&rt, other, PUBLISHES, 1000);
    writer.discard(&rt);
}
