//! A script that is performed and drawn while allocations are refused: whatever is refused, what was told and drawn is whole.
use super::assertions::assert_same;
use super::paces::SETTINGS;
use mf_desk::RunFault;
use mf_testing::{Pieces, Sink, grow_again, refuse_growths};
use mf_view::{Pace, PlateFolder, ProgramFault, Showing, perform};
use mf_view_frame::{Canvas, Style};
use std::alloc::Global;
use std::process::Abort;
use std::rt::Files;
use std::sync::Wait;
use std::thread::Threads;

/// Three lines that print.
const SCRIPT: &[u8] = b"addto currentpicture contour (1,1)--(3,1)--(3,2)--(1,2)--cycle\n\
                        show totalweight a\n\
                        show totalweight currentpicture\n\
                        show a\n";

const TOLD: &str = "totalweight 0\ntotalweight 2\nblank\n";

/// The number of bytes that the first lines of the script print, for each number of lines.
const ENDS: [usize; 4] = [0, 14, 28, 34];

const DRAWN: &str = "revision 0  totalweight 0\n\
                     blank  scale 1\n\
                     ▀▀\n\
                     revision 1  totalweight 2\n\
                     columns 1..2  rows 1..1  scale 1\n";

/// A pace that waits for nothing.
struct Hasty;

impl Pace for Hasty {
    fn note_publish(&self, _revision: u32) {}

    fn note_frame(&self, _revision: u32) {}

    fn wait_before_look(&self) {}
}

/// Performs the script while allocations are refused, with plates for a folder that is not there where one is asked for.
fn assert_whole<S: Abort + Wait + Threads + Files + Sync>(
    rt: &S,
    alloc: Global,
    folder: Option<PlateFolder>,
    fault: Option<ProgramFault>,
) {
    let showing = Showing {
        canvas: Canvas::new(50, 24).expect(rt, "the terminal is large enough"),
        style: Style::Plain,
        folder,
    };
    let mut screen = Sink::with_capacity(alloc, 1000).expect(rt, "there is room for frames");
    let mut transcript = Sink::with_capacity(alloc, 1000).expect(rt, "there is room for texts");
    refuse_growths(alloc);
    let performed = perform(
        rt,
        alloc,
        &mut Pieces::whole(SCRIPT),
        &mut screen,
        &mut transcript,
        &Hasty,
        showing,
        &SETTINGS,
    );
    grow_again(alloc);
    let (drawn, told) = (screen.bytes(), transcript.bytes());
    let found = performed.err();
    if found == fault {
        assert_same(rt, told, TOLD.as_bytes(), "all is told");
    } else {
        let refusal = ProgramFault::Run(RunFault::OutOfMemory);
        assert_same(rt, found, Some(refusal), "the refusal");
    }
    assert_same(
        rt,
        DRAWN.as_bytes().starts_with(drawn),
        true,
        "whole frames",
    );
    assert_same(
        rt,
        TOLD.as_bytes().starts_with(told),
        true,
        "the texts of the first lines",
    );
    assert_same(rt, ENDS.contains(&told.len()), true, "whole texts");
}

#[test]
fn a_script_is_drawn(rt: HostRuntime) {
    assert_whole(&rt, rt.alloc(), None, None);
}

#[test]
fn a_script_has_plates(rt: HostRuntime) {
    let alloc = rt.alloc();
    let path = String::from_str(alloc, "no/folder").expect(&rt, "there is room for a name");
    let folder = PlateFolder { path, pgm: true };
    assert_whole(&rt, alloc, Some(folder), Some(ProgramFault::PlateFault(1)));
}
