//! Opening a picture, and accepting operations and the end mark.
ghost use Rattle.std.specs.Prelude.{◌≡◌, ◌<◌, ◌^◌, [], false, None, Some, Err, IfOk, IfErr, IsOk, OnOk, MatchResult};
ghost use Rattle.left_right.specs.Sides.{view};
ghost use Rattle.mf_geom.specs.declared.cycle.CycleFault.{CycleFault};
ghost use Rattle.mf_ops.specs.Step.{IsRefusal, op_fault};
ghost use Rattle.mf_ops.specs.declared.op.Op.TheVariants.{Clear};
ghost use Rattle.mf_live.specs.Books.{greatest_limit};
ghost use Rattle.mf_live.specs.Entries.{picture_at, revision_at, accepted_list_with, is_closed, Operation, End};
ghost use Rattle.mf_live.specs.Holders.{identity, accepted_list, knowledge, published_list};
ghost use Rattle.mf_live.specs.Rule.{view_knowing, knowledge_of};

use super::Holder;
use super::publishing::show;
use crate::event::Act;
use crate::history::{History, Knowledge};
use crate::notice::Notice;
use crate::rule::Swap;
use crate::version::Version;
use mf_base::OutOfMemory;
use mf_ops::{Op, OpFault, apply};
use mf_rows::Picture;
use std::alloc::Global;
use std::sync::Wait;

/// The blank version of a history in which nothing has happened.
#[tactic(auto, using(crate::proofs::Blank::blank_picture, crate::proofs::Blank::blank_revision))]
fn blank_version(alloc: Global, knowledge: &Knowledge) -> Version
    requires { knowledge.now.seen.log ≡ [] }
    ensures { knowledge_of result ≡ knowledge.now }
{
    Version {
        picture: Picture::blank(alloc),
        notice: Notice {
            knowledge: knowledge.copy(),
            entries: 0,
            revision: 0,
        },
    }
}

impl Holder {
    /// Opens a blank picture for up to `readers` readers.
    pub(crate) fn open<R: Wait>(
        rt: &R,
        alloc: Global,
        readers: usize,
    ) -> Result<Holder, OutOfMemory>
        requires { (0 < readers) × (readers < 2 ^ 32) }
        ensures start { IfOk result (λ h. (accepted_list h ≡ []) × (published_list h ≡ [])) }
        ensures identified { IfOk result (λ h.
            view h.swap.desk.place ≡ view_knowing (knowledge h)) }
        ensures empty { IfOk result (λ h. (knowledge h).seen.log ≡ []) }
    {
        let Some(history) = History::open() else {
            return Err(OutOfMemory);
        };
        let (first, second) = (
            blank_version(alloc, &history.known),
            blank_version(alloc, &history.known),
        );
        let mut swap = Swap::new(alloc, first, second, readers)?;
        // Only a publish can put into the writer's view which picture this is, so the blank picture is shown once more.
        show(rt, &mut swap, blank_version(alloc, &history.known));
        Ok(Holder {
            alloc,
            swap,
            history,
            working: Picture::blank(alloc),
            revision: 0,
            entries: 0,
        })
    }

    /// Accepts an operation, which changes the working picture. A refusal changes nothing.
    pub(crate) fn accept(&mut self, alloc: Global, op: &Op) -> Result<(), OpFault>
        requires open { is_closed (accepted_list self.old) ≡ false }
        requires few { revision_at (accepted_list self.old) < greatest_limit }
        ensures identity { identity self.new ≡ identity self.old }
        ensures accepted { MatchResult result
            (λ _.
            accepted_list self.new
            ≡ accepted_list_with (accepted_list self.old) (published_list self.old)
            (Operation op.now))
            (λ _. accepted_list self.new ≡ accepted_list self.old) }
        ensures published { published_list self.new ≡ published_list self.old }
        ensures allowed { OnOk result
            (op_fault (picture_at (accepted_list self.old)) op.now ≡ None) }
        ensures refused { IfErr result (IsRefusal (picture_at (accepted_list self.old)) op.now) }
        ensures turning { (fault : CycleFault)
            → op_fault (picture_at (accepted_list self.old)) op.now ≡ Some (OpFault.Cycle fault)
            → result ≡ Err (OpFault.Cycle fault) }
        ensures out_of_field { op_fault (picture_at (accepted_list self.old)) op.now
            ≡ Some OpFault.OutOfField
            → result ≡ Err OpFault.OutOfField }
        ensures clears { op.now ≡ Clear → IsOk result }
    {
        apply(alloc, &mut self.working, op)?;
        self.history.write(Act::Accept(op));
        self.entries += 1;
        self.revision += 1;
        Ok(())
    }

    /// Sets the end mark.
    pub(crate) fn end(&mut self)
        requires open { is_closed (accepted_list self.old) ≡ false }
        ensures identity { identity self.new ≡ identity self.old }
        ensures accepted { accepted_list self.new
            ≡ accepted_list_with (accepted_list self.old) (published_list self.old) End }
        ensures published { published_list self.new ≡ published_list self.old }
        ensures working { self.new.working ≡ self.old.working }
    {
        self.history.write(Act::Close);
        self.entries += 1;
    }

    /// Ends the picture. It may wait for looks that are held.
    pub(crate) fn discard<R: Wait>(self, rt: &R) {
        let Holder {
            alloc: _,
            swap,
            history: _,
            working: _,
            revision: _,
            entries: _,
        } = self;
        swap.take(rt);
    }
}
