//! The frames of a script whose publishes are held until they are drawn: each published revision, rising, and the last one.
use super::assertions::assert_same;
use super::paces::{Held, SETTINGS};
use mf_view::{Showing, perform};
use mf_view_frame::{Canvas, Style};
use std::alloc::Global;
use std::process::Abort;
use std::rt::Files;
use std::sync::Wait;
use std::thread::Threads;

/// The letter T in three publishes, and an operation that is not published before the end.
const SCRIPT: &[u8] = b"addto currentpicture contour (0,4)--(8,4)--(8,6)--(0,6)--cycle\n\
                        publish\n\
                        addto currentpicture contour (3,0)--(5,0)--(5,6)--(3,6)--cycle\n\
                        publish\n\
                        show totalweight currentpicture\n\
                        cull currentpicture keeping (1,2)\n\
                        publish\n\
                        currentpicture := currentpicture shifted (-1,0)\n";

const TOLD: &str = "published 1\npublished 2\ntotalweight 28\npublished 3\n";

const PLAIN: &str = "revision 0  totalweight 0\n\
                     blank  scale 1\n\
                     ████████\n\
                     revision 1  totalweight 16\n\
                     columns 0..7  rows 4..5  scale 1\n\
                     ████████\n\
                     ▏  ██   \n\
                     ▏▁▁██▁▁▁\n\
                     revision 2  totalweight 28\n\
                     columns 0..7  rows 0..5  scale 1\n\
                     ████████\n\
                     ▏  ██   \n\
                     ▏▁▁██▁▁▁\n\
                     revision 3  totalweight 24\n\
                     columns 0..7  rows 0..5  scale 1\n\
                     ████████\n \
                     ▏ ██   \n\
                     ▁▏▁██▁▁▁\n\
                     revision 4  totalweight 24\n\
                     columns -1..6  rows 0..5  scale 1\n";

/// In color the frames of a script of one pixel, in six rows, each drawn over the one before.
const PIXEL: &[u8] = b"addto currentpicture contour (1,1)--(2,1)--(2,2)--(1,2)--cycle\n";

const COLORED: &str = "\x1b[K\n\x1b[K\n\x1b[K\n\
                       \x1b[Krevision 0  totalweight 0\n\
                       \x1b[Kblank  scale 1\n\
                       \x1b[5A\x1b[K\n\x1b[K\n\
                       \x1b[K\x1b[38;5;238;48;5;255m▀\x1b[0m\n\
                       \x1b[Krevision 1  totalweight 1\n\
                       \x1b[Kcolumns 1..1  rows 1..1  scale 1\n";

/// Asserts what a script draws and prints where each publish is held until it is drawn.
fn assert_draws<S: Abort + Wait + Threads + Files + Sync>(
    rt: &S,
    alloc: Global,
    script: &[u8],
    rows: u32,
    style: Style,
    drawn: &str,
    told: &str,
) {
    let (mut reader, mut screen, mut transcript) = (script, Vec::new(alloc), Vec::new(alloc));
    let canvas = Canvas::new(50, rows).expect(rt, "the terminal is large enough");
    let showing = Showing {
        canvas,
        style,
        folder: None,
    };
    let performed = perform(
        rt,
        alloc,
        &mut reader,
        &mut screen,
        &mut transcript,
        &Held::new(),
        showing,
        &SETTINGS,
    );
    assert_same(rt, performed.is_ok(), true, "performed");
    assert_same(rt, screen.as_slice(), drawn.as_bytes(), "drawn");
    assert_same(rt, transcript.as_slice(), told.as_bytes(), "told");
}

#[test]
fn each_published_revision_is_drawn(rt: HostRuntime) {
    assert_draws(&rt, rt.alloc(), SCRIPT, 24, Style::Plain, PLAIN, TOLD);
}

#[test]
fn frames_in_color_are_drawn_over_each_other(rt: HostRuntime) {
    assert_draws(&rt, rt.alloc(), PIXEL, 6, Style::Colored, COLORED, "");
}
