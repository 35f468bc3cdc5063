//! Viewers that look on, each in a thread of its own.
ghost use Rattle.std.specs.Prelude.{◌≡◌, ◌⊎◌, ◌+◌, ◌≤◌, ◌<◌, [], ℕ, All, IfErr, IfOk, OnErr, OnOk, length, map, vec_capacity};
ghost use Rattle.logbook.specs.Pages.{Book};
ghost use Rattle.mf_live.specs.Desks.{desk_identity, most_places, remaining_viewers};
ghost use Rattle.mf_desk_watch.specs.Watchers.{IsWatcher, identity, seat};

use crate::fault::StartFault;
use crate::gate::Gate;
use crate::watcher::Watcher;
use mf_live::{Desk, NoLook, NoPlace};
use std::alloc::Global;
use std::snapshot::Snapshot;
use std::sync::Arc;
use std::thread::{Promise, PromisedHandle, Threads, spawn_with};

/// What the thread of a viewer promises: the record of this many looks.
#[derive(Drop)]
pub(crate) struct OwedLooks {
    /// The viewer as it was when the thread started.
    pub(crate) watcher: Snapshot<Watcher>,
    /// How many looks the record has.
    pub(crate) looks: u32,
}

impl Promise<Result<Watcher, NoLook>> for OwedLooks {
    ghost use Rattle.std.specs.Prelude.{◌≡◌, ◌<◌, MatchResult};
    ghost use Rattle.mf_desk_watch.specs.Watchers.{IsWatcher, identity, seat};

    ghost kept_by = { λ owed answer. MatchResult answer
        (λ watcher. IsWatcher (identity owed.watcher.value) owed.looks 1 watcher × (seat watcher ≡ seat owed.watcher.value)) (λ _. 0 < owed.looks) };
}

/// Viewers that look on in threads, and room for what the threads give back. The room is allocated before the first thread
/// starts, so that joining the threads cannot run out of memory.
#[derive(Drop)]
pub struct Watching {
    /// The threads, in the order of their viewers' numbers.
    pub(crate) threads: Vec<PromisedHandle<Result<Watcher, NoLook>, OwedLooks>>,
    /// Room for what the threads give back.
    pub(crate) room: Vec<Watcher>,
    ghost empty: { room.items ≡ [] },
    ghost enough: { length threads.items ≤ vec_capacity room },
}

/// `viewers` viewers with empty records, each with room for `looks` looks and one more. Refused with `NoPlace` where the desk has
/// fewer viewers left, and with `OutOfMemory` where an allocation fails.
fn watchers(alloc: Global, desk: Desk, viewers: u32, looks: u32) -> Result<Vec<Watcher>, StartFault>
    ensures ready { IfOk result (λ watchers.
        All (IsWatcher (desk_identity desk) 0 (looks + 1)) watchers.items) }
    ensures count { IfOk result (λ watchers. length watchers.items ≡ viewers) }
    ensures fault { IfErr result (λ fault.
        ((fault ≡ StartFault.NoPlace) × (remaining_viewers desk < viewers))
        ⊎ (fault ≡ StartFault.OutOfMemory)) }
    ensures some { IfErr result (λ _. 0 < viewers) }
{
    let mut desk = desk;
    let mut watchers = Vec::with_capacity(alloc, viewers as usize)?;
    for _ in 0..viewers {
        let viewer = desk.viewer()?;
        watchers.push(Watcher::new(alloc, viewer, looks as usize + 1)?)?;
    }
    Ok(watchers)
}

impl Watching {
    ghost use Rattle.mf_desk_watch.specs.Watching.{AreStarted, started_seats, viewer_count};

    /// Starts a thread for each of `viewers` viewers of a desk. Each thread promises the record of `looks` looks. Requires at most
    /// 64 viewers. Refused with `NoPlace` where there is no place or no thread for a viewer, or the gate cannot be shared with it,
    /// and with `OutOfMemory` where an allocation fails; never where there are no viewers. No clause says that threads that were
    /// started by then are joined; tests show it.
    // All memory for the records is allocated before the first thread starts, so only the start of a thread can fail after that.
    pub fn start<S: Threads, G: Gate + 'static>(
        rt: &S,
        alloc: Global,
        desk: Desk,
        viewers: u32,
        looks: u32,
        gate: &Arc<G>,
    ) -> Result<Watching, StartFault>
        requires few { viewers ≤ most_places }
        ensures started { IfOk result (AreStarted (desk_identity desk) looks) }
        ensures count { IfOk result (λ watching. viewer_count watching ≡ viewers) }
        ensures fault { IfErr result (λ fault.
            (fault ≡ StartFault.NoPlace) ⊎ (fault ≡ StartFault.OutOfMemory)) }
        ensures some { IfErr result (λ _. 0 < viewers) }
    {
        let watchers = watchers(alloc, desk, viewers, looks)?;
        let mut watching = Watching {
            threads: Vec::with_capacity(alloc, viewers as usize)?,
            room: Vec::with_capacity(alloc, viewers as usize)?,
        };
        for watcher in watchers {
            if let Err(fault) = watching.start_one(rt, watcher, looks, gate) {
                let _ = watching.join(rt);
                return Err(fault.into());
            }
        }
        Ok(watching)
    }

    /// Starts a thread for a viewer. Refused with `NoPlace` where there is no thread for it, or the gate cannot be shared with
    /// it; the threads that were started before are kept, since they have to be joined.
    fn start_one<S: Threads, G: Gate + 'static>(
        &mut self,
        rt: &S,
        watcher: Watcher,
        looks: u32,
        gate: &Arc<G>,
    ) -> Result<(), NoPlace>
        requires ready { IsWatcher (identity watcher) 0 (looks + 1) watcher }
        requires started { AreStarted (identity watcher) looks self.old }
        requires few { viewer_count self.old < most_places }
        requires room { length self.old.threads.items < vec_capacity self.old.threads }
        requires joined { length self.old.threads.items < vec_capacity self.old.room }
        ensures started { AreStarted (identity watcher) looks self.new }
        ensures count { OnOk result (viewer_count self.new ≡ viewer_count self.old + 1) }
        ensures kept { OnErr result (self.new.threads ≡ self.old.threads) }
        ensures room { vec_capacity self.old.threads ≤ vec_capacity self.new.threads }
        ensures joined { vec_capacity self.new.room ≡ vec_capacity self.old.room }
    {
        let number = self.threads.len() as u32;
        let Ok(gate) = Arc::try_clone(gate) else {
            return Err(NoPlace);
        };
        let owed = OwedLooks {
            watcher: Snapshot::of(&watcher),
            looks,
        };
        let started = spawn_with(
            rt,
            owed,
            move ||
                requires { IsWatcher (identity watcher) 0 (looks + 1) watcher }
            { watcher.watch(number, looks, &*gate) },
        );
        match started {
            Ok(thread) => {
                let Ok(()) = self.threads.push(thread) else {
                    unreachable!()
                };
                Ok(())
            }
            Err(_) => Err(NoPlace),
        }
    }

    /// Joins the threads, and so waits for their gates. Refused with `NoLook` where a look was refused in one of them. No clause
    /// says that all of them are joined even then; tests show it.
    pub fn join<S: Threads>(self, rt: &S) -> Result<Vec<Watcher>, NoLook>
        ensures watchers { IfOk result (λ watchers.
            (picture : Book) (looks : ℕ) → AreStarted picture looks self
            → All (IsWatcher picture looks 1) watchers.items) }
        ensures seats { IfOk result (λ watchers. map seat watchers.items ≡ started_seats self) }
        ensures count { IfOk result (λ watchers. length watchers.items ≡ viewer_count self) }
        ensures refused { IfErr result (λ _. 0 < viewer_count self) }
        ensures looked { IfErr result (λ _.
            (picture : Book) (looks : ℕ) → AreStarted picture looks self → 0 < looks) }
    {
        let Watching { threads, mut room } = self;
        let mut missed = false;
        for thread in threads {
            match thread.join(rt) {
                Ok(watcher) => {
                    let Ok(()) = room.push(watcher) else {
                        unreachable!()
                    };
                }
                Err(NoLook) => missed = true,
            }
        }
        if missed {
            return Err(NoLook);
        }
        Ok(room)
    }
}
