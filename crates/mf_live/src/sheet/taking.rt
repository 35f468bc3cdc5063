//! Taking sheets.
ghost use Rattle.std.specs.Prelude.{◌≡◌, true, IfErr, IfOk, MatchResult, OnOk};
ghost use Rattle.mf_live.specs.Entries.{is_closed, picture_at, revision_at};
ghost use Rattle.mf_live.specs.Sheets.{HasLookedAt, IsLastNotTaken, IsTaken, IsNotTaken, sheet_identity, sheet_list};
ghost use Rattle.mf_live.specs.Viewers.{Extends, identity, notice_identity, told_list};

use super::{Sheet, SheetFault};
use crate::notice::Notice;
use crate::viewer::Viewer;
use core::mem::replace_with;
use mf_rows::Picture;
use std::alloc::Global;

impl Sheet {
    /// The picture that the look showed.
    pub fn picture(&self) -> &Picture
        ensures { result.now ≡ picture_at (sheet_list self.now) }
    {
        &self.picture
    }

    /// Its revision: the number of its operations.
    pub fn revision(&self) -> u32
        ensures { result ≡ revision_at (sheet_list self.now) }
    {
        self.notice.revision
    }

    /// A notice of what it shows, which another viewer may learn.
    pub fn notice(&self) -> Notice
        ensures identity { notice_identity result ≡ sheet_identity self.now }
        ensures told { told_list result ≡ sheet_list self.now }
    {
        self.notice.copy()
    }
}

/// Looks, and copies what the look shows into a sheet. The look has ended when this returns.
fn take_sheet(viewer: Viewer, alloc: Global) -> (Viewer, Result<Sheet, SheetFault>)
    ensures identity { identity result.0 ≡ identity viewer }
    ensures taken { MatchResult result.1
        (λ sheet. IsTaken viewer result.0 sheet)
        (λ fault. IsNotTaken viewer result.0 fault) }
{
    let look = match viewer.look() {
        Ok(look) => look,
        Err((viewer, _)) => return (viewer, Err(SheetFault::NoLook)),
    };
    let copy = look.picture().copy(alloc);
    let notice = look.notice();
    let viewer = look.leave();
    match copy {
        Ok(picture) => (viewer, Ok(Sheet { picture, notice })),
        Err(_) => (viewer, Err(SheetFault::OutOfMemory)),
    }
}

impl Viewer {
    /// Looks, and keeps what is shown as a sheet. Refused with `NoLook` where the look is not answered: the viewer has then seen
    /// what it had seen before. Refused with `OutOfMemory` where an allocation fails: the viewer has looked all the same.
    pub fn sheet(&mut self, alloc: Global) -> Result<Sheet, SheetFault>
        ensures identity { identity self.new ≡ identity self.old }
        ensures taken { MatchResult result
            (λ sheet. IsTaken self.old self.new sheet)
            (λ fault. IsNotTaken self.old self.new fault) }
    {
        replace_with(self, alloc, |viewer, alloc| take_sheet(viewer, alloc))
    }

    /// Learns of the end, and takes the sheet of the last picture. Everything that the viewer had seen is a whole prefix of the
    /// complete list. After `NoLook` the viewer has not looked, but has learnt of the end. After `OutOfMemory` it has looked at the
    /// complete list. Requires a notice of the viewer's own picture, with the end mark.
    pub fn last_sheet(&mut self, alloc: Global, notice: Notice) -> Result<Sheet, SheetFault>
        requires identity { notice_identity notice ≡ identity self.old }
        requires closed { is_closed (told_list notice) ≡ true }
        ensures identity { identity self.new ≡ identity self.old }
        ensures sheet { IfOk result (λ sheet.
            (sheet_identity sheet ≡ identity self.old) × (sheet_list sheet ≡ told_list notice)) }
        ensures extends { OnOk result (Extends self.old (told_list notice)) }
        ensures looked { OnOk result (HasLookedAt (told_list notice) self.new) }
        ensures not_taken { IfErr result (IsLastNotTaken self.old (told_list notice) self.new) }
    {
        self.learn(notice);
        self.sheet(alloc)
    }
}
