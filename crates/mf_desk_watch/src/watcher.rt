//! Viewers that keep a record of their looks.
ghost use Rattle.std.specs.Prelude.{◌≡◌, ◌+◌, ◌<◌, ◌∷◌, ◌++◌, [], ℕ, true, IfErr, IfOk, OnErr, OnOk};
ghost use Rattle.logbook.specs.Pages.{Book};
ghost use Rattle.mf_live.specs.Entries.{is_closed};
ghost use Rattle.mf_live.specs.Sheets.{HasLookedAt, IsLastNotTaken};
ghost use Rattle.mf_live.specs.Viewers as viewers;
ghost use Rattle.mf_desk_watch.specs.Watchers.{HasRoomFor, HasSeen, IsRecord, IsWatcher, glance_at, identity, record_of, seat, viewer_of};

use crate::gate::Gate;
use crate::glance::Glance;
use mf_base::OutOfMemory;
use mf_live::{NoLook, Notice, SheetFault, Viewer};
use std::alloc::Global;

/// A viewer, and the record of its looks.
#[derive(Drop)]
pub struct Watcher {
    /// The viewer that looks.
    pub(crate) viewer: Viewer,
    /// Its record: a glance for each look, in order.
    pub(crate) seen: Vec<Glance>,
}

impl Watcher {
    /// A viewer with an empty record, which has room for this many looks.
    pub(crate) fn new(alloc: Global, viewer: Viewer, looks: usize) -> Result<Watcher, OutOfMemory>
        ensures { IfOk result (IsWatcher (viewers.identity viewer) 0 looks) }
    {
        Ok(Watcher {
            viewer,
            seen: Vec::with_capacity(alloc, looks)?,
        })
    }

    /// The viewer with the record of `looks` looks, of which the gate learns while they are held. Refused with `NoLook` where a look
    /// is refused. No clause says that it looks anew for each glance, or that it calls the gate; tests show both.
    pub(crate) fn watch<G: Gate>(self, number: u32, looks: u32, gate: &G) -> Result<Watcher, NoLook>
        requires { IsWatcher (identity self) 0 (looks + 1) self }
        ensures watcher { IfOk result (IsWatcher (identity self) looks 1) }
        ensures seat { IfOk result (λ after. seat after ≡ seat self) }
        ensures refused { IfErr result (λ _. 0 < looks) }
    {
        let mut watcher = self;
        for look in 0..looks {
            watcher = watcher.look(number, look, gate)?;
        }
        Ok(watcher)
    }

    /// Looks once, as look `look` of viewer `number`. Refused with `NoLook` where the look is refused.
    fn look<G: Gate>(self, number: u32, look: u32, gate: &G) -> Result<Watcher, NoLook>
        requires { HasRoomFor 1 self }
        ensures watcher { IfOk result (λ after. (picture : Book) (looks more : ℕ)
            → IsWatcher picture looks (more + 1) self → IsWatcher picture (looks + 1) more after) }
        ensures seat { IfOk result (λ after. seat after ≡ seat self) }
        ensures shown { IfOk result (λ after.
            (record_of after).items
            ≡ (record_of self).items ++ glance_at (viewers.looked_at_list (viewer_of after)) ∷ []) }
    {
        let Watcher { viewer, mut seen } = self;
        let held = match viewer.look() {
            Ok(held) => held,
            Err((_, fault)) => return Err(fault),
        };
        let glance = Glance::of(held.revision(), held.picture());
        let Ok(()) = seen.push(glance) else {
            unreachable!()
        };
        gate.hold(number, look);
        Ok(Watcher {
            viewer: held.leave(),
            seen,
        })
    }

    /// Learns of the end, and looks once more by taking a sheet. Requires room for one more glance, and a notice of this picture
    /// with the end mark. Refused with `NoLook` where the look is not answered, and with `OutOfMemory` where an allocation fails
    /// after it; the record then stays as it was.
    pub fn look_last(&mut self, alloc: Global, notice: Notice) -> Result<Glance, SheetFault>
        requires room { HasRoomFor 1 self.old }
        requires identity { viewers.notice_identity notice ≡ identity self.old }
        requires closed { is_closed (viewers.told_list notice) ≡ true }
        ensures identity { identity self.new ≡ identity self.old }
        ensures glance { IfOk result (λ glance. glance ≡ glance_at (viewers.told_list notice)) }
        ensures seen { OnOk result
            ((looks : ℕ) → IsRecord looks self.old
            → HasSeen (viewers.told_list notice) looks (record_of self.new).items) }
        ensures recorded { OnOk result
            ((record_of self.new).items
            ≡ (record_of self.old).items ++ glance_at (viewers.told_list notice) ∷ []) }
        ensures unchanged { OnErr result (record_of self.new ≡ record_of self.old) }
        ensures looked { OnOk result (HasLookedAt (viewers.told_list notice) (viewer_of self.new)) }
        ensures missed { IfErr result
            (IsLastNotTaken (viewer_of self.old) (viewers.told_list notice) (viewer_of self.new)) }
    {
        let sheet = self.viewer.last_sheet(alloc, notice)?;
        let glance = Glance::of(sheet.revision(), sheet.picture());
        let Ok(()) = self.seen.push(glance) else {
            unreachable!()
        };
        Ok(glance)
    }

    /// Ends the viewer, and hands out its record.
    pub fn into_record(self) -> Vec<Glance>
        ensures { result ≡ record_of self }
    {
        let Watcher { viewer: _, seen } = self;
        seen
    }
}
