//! Easels: viewers that draw what they look at.
ghost use Rattle.std.specs.Prelude.{◌≡◌, ℕ, List, Option, Some, true, IfOk, OnOk};
ghost use Rattle.std.specs.Io.KnownBytes.{Appends};
ghost use Rattle.mf_base.specs.Messages.{receipt, receipt_of};
ghost use Rattle.mf_live.specs.Entries.{is_closed, revision_at};
ghost use Rattle.mf_live.specs.Sheets.{sheet_list};
ghost use Rattle.mf_live.specs.Viewers as viewers;
ghost use Rattle.mf_view.specs.Drawings.{Continues, DrawsMore, HasDrawn, ShowsLast};
ghost use Rattle.mf_view.specs.Easels.{HasSameManner, cursor_to_last_frame, drawing, identity, looked_at_list};
ghost use Rattle.mf_view.specs.Easels.{manner, manner_of, revision_of};

use crate::pace::Pace;
use itoa::Buffer;
use mf_base::{OutOfMemory, write_counted};
use mf_desk::RunFault;
use mf_live::{Notice, Sheet, Viewer};
use mf_view_frame::{Canvas, Style, draw};
use std::alloc::Global;
use std::io::Write;
use std::sync::Wait;
use std::sync::atomic::{AtomicBool, Ordering};

/// A viewer that draws what it looks at: a frame for each revision that it sees and has not drawn before. In the style `Colored` each
/// frame after the first is drawn over the one before it.
#[derive(Drop)]
pub(crate) struct Easel {
    viewer: Viewer,
    canvas: Canvas,
    style: Style,
    /// The revision of the frame that was drawn last.
    drawn: Option<u32>,
}

impl Easel {
    /// An easel for this viewer, which has drawn nothing.
    #[tactic(auto, using(crate::proofs::Drawn::HasDrawn_nothing))]
    pub(crate) fn new(viewer: Viewer, canvas: Canvas, style: Style) -> Easel
        ensures identity { identity result ≡ viewers.identity viewer }
        ensures manner { manner_of result ≡ manner style canvas }
        ensures blank { (held : Option (List ℕ)) → HasDrawn result (receipt held held) }
    {
        Easel {
            viewer,
            canvas,
            style,
            drawn: None,
        }
    }

    /// Looks and draws, and rests between two looks, until the script has ended. Refused as `look` is.
    pub(crate) fn draw_on<S: Wait, W: Write, P: Pace>(
        &mut self,
        rt: &S,
        alloc: Global,
        screen: &mut W,
        pace: &P,
        ended: &AtomicBool,
    ) -> Result<(), RunFault>
        ensures identity { identity self.new ≡ identity self.old }
        ensures manner { HasSameManner self.old self.new }
        ensures drawn { OnOk result
            (DrawsMore self.old self.new (receipt_of W.contents screen.old screen.new)) }
    {
        for _ in rt.forever() {
            self.look(alloc, screen, pace)?;
            if ended.load(Ordering::SeqCst) {
                return Ok(());
            }
            pace.wait_before_look();
        }
        unreachable!()
    }

    /// Looks once, and draws what is new. The look is kept as a sheet, so that it has ended before anything is drawn; no clause says
    /// so. Refused with `NoLook` where the look is not answered, with `OutOfMemory` where an allocation fails, and with `WriteFault`
    /// where the screen fails; it counts the bytes of the frame that the screen took.
    pub(crate) fn look<W: Write, P: Pace>(
        &mut self,
        alloc: Global,
        screen: &mut W,
        pace: &P,
    ) -> Result<(), RunFault>
        ensures identity { identity self.new ≡ identity self.old }
        ensures manner { HasSameManner self.old self.new }
        ensures drawn { OnOk result
            (DrawsMore self.old self.new (receipt_of W.contents screen.old screen.new)) }
    {
        let sheet = self.viewer.sheet(alloc)?;
        if let Some(revision) = self.show(alloc, screen, &sheet)? {
            pace.note_frame(revision);
        }
        Ok(())
    }

    /// Learns of the end, and draws the last picture if it was not drawn yet. Refused as `look` is.
    pub(crate) fn look_last<W: Write>(
        &mut self,
        alloc: Global,
        screen: &mut W,
        notice: Notice,
    ) -> Result<(), RunFault>
        requires identity { viewers.notice_identity notice ≡ identity self.old }
        requires closed { is_closed (viewers.told_list notice) ≡ true }
        ensures shown { OnOk result (Continues (receipt_of W.contents screen.old screen.new)
            (HasDrawn self.old) (ShowsLast (manner_of self.old) (viewers.told_list notice))) }
    {
        let sheet = self.viewer.last_sheet(alloc, notice)?;
        self.show(alloc, screen, &sheet)?;
        Ok(())
    }

    /// Draws a sheet of the last look, unless its revision is the one drawn last. Returns the revision that was drawn.
    #[tactic(auto, using(crate::proofs::Drawn::HasDrawn_more))]
    fn show<W: Write>(
        &mut self,
        alloc: Global,
        screen: &mut W,
        sheet: &Sheet,
    ) -> Result<Option<u32>, RunFault>
        requires { sheet_list sheet.now ≡ looked_at_list self.old }
        ensures viewer { self.new.viewer ≡ self.old.viewer }
        ensures manner { HasSameManner self.old self.new }
        ensures last { OnOk result
            (revision_of self.new ≡ Some (revision_at (looked_at_list self.new))) }
        ensures drawn { OnOk result
            (DrawsMore self.old self.new (receipt_of W.contents screen.old screen.new)) }
    {
        let revision = sheet.revision();
        if self.drawn == Some(revision) {
            return Ok(None);
        }
        let text = self.next_text(alloc, sheet)?;
        send(screen, &text)?;
        self.drawn = Some(revision);
        Ok(Some(revision))
    }

    /// The text that draws a sheet: over the frame before, if there is one.
    fn next_text(&self, alloc: Global, sheet: &Sheet) -> Result<Vec<u8>, OutOfMemory>
        ensures { IfOk result (λ text.
            text.items
            ≡ drawing (manner_of self.now) (revision_of self.now) (sheet_list sheet.now)) }
    {
        let mut text = self.cursor_to_last_frame(alloc)?;
        let frame = draw(
            alloc,
            sheet.picture(),
            sheet.revision(),
            self.canvas,
            self.style,
        )?;
        text.extend_from_slice(&frame)?;
        Ok(text)
    }

    /// What moves the cursor up to the first line of the frame before.
    fn cursor_to_last_frame(&self, alloc: Global) -> Result<Vec<u8>, OutOfMemory>
        ensures { IfOk result (λ text.
            text.items
            ≡ cursor_to_last_frame self.now.style self.now.canvas (revision_of self.now)) }
    {
        let mut text = Vec::new(alloc);
        if let (Style::Colored, Some(_)) = (self.style, self.drawn) {
            let mut buffer = Buffer::new();
            text.extend_from_slice(b"\x1b[")?;
            text.extend_from_slice(buffer.format(self.canvas.lines()).as_bytes())?;
            text.extend_from_slice(b"A")?;
        }
        Ok(text)
    }
}

/// Writes all of a text, and flushes.
pub(crate) fn send<W: Write>(screen: &mut W, text: &[u8]) -> Result<(), RunFault>
    ensures { OnOk result (Appends (W.contents screen.old) (W.contents screen.new) text.now) }
{
    write_counted(screen, text).map_err(|count| RunFault::WriteFault(count as u128))?;
    screen
        .flush()
        .map_err(|_| RunFault::WriteFault(text.len() as u128))
}
