//! What a writer does.
ghost use Rattle.std.specs.Prelude.{◌≡◌, ◌-◌, None, Some, Err, IfErr, IsOk, OnOk, MatchResult, ◌↔◌};
ghost use Rattle.mf_geom.specs.declared.cycle.CycleFault.{CycleFault};
ghost use Rattle.mf_ops.specs.Step.{IsRefusal, op_fault};
ghost use Rattle.mf_ops.specs.declared.op.Op.TheVariants.{Clear};
ghost use Rattle.mf_live.specs.Entries.{accepted_list_with, revision_at, Operation};
ghost use Rattle.mf_live.specs.Viewers.{notice_identity, told_list};
ghost use Rattle.mf_live.specs.Writers.{identity, accepted_list, published_list, max_ops, working_picture, IsBelowLimit, IsSameWriter};

use super::Writer;
use crate::fault::Fault;
use crate::notice::Notice;
use mf_base::OutOfMemory;
use mf_ops::{Op, OpFault};
use mf_rows::Picture;
use std::alloc::Global;
use std::sync::Wait;

impl Writer {
    /// Accepts an operation: the working picture becomes the one after it, and what is published stays as it is. Refused with
    /// `TooManyOperations` exactly where as many operations were accepted as may be. Otherwise it is refused as `mf_ops::after`
    /// refuses it on the working picture: with `Backtracks` or `TurningZero`, for a contour under the turning check, with
    /// `OutOfField`, with `WeightTooLarge`, or with `OutOfMemory`, which may hide `WeightTooLarge` but no other refusal. A
    /// clear is refused with `TooManyOperations` alone. A refusal changes nothing and hands the operation back.
    pub fn apply(&mut self, alloc: Global, op: Op) -> Result<(), (Op, Fault)>
        ensures identity { identity self.new ≡ identity self.old }
        ensures published { published_list self.new ≡ published_list self.old }
        ensures max_ops { max_ops self.new ≡ max_ops self.old }
        ensures accepted { MatchResult result
            (λ _.
            accepted_list self.new
            ≡ accepted_list_with (accepted_list self.old) (published_list self.old)
            (Operation op))
            (λ _. accepted_list self.new ≡ accepted_list self.old) }
        ensures allowed { OnOk result
            (IsBelowLimit self.old × (op_fault (working_picture self.old) op ≡ None)) }
        ensures handed_back { IfErr result (λ refused. refused.0 ≡ op) }
        ensures too_many { (revision_at (accepted_list self.old) ≡ max_ops self.old)
            ↔ (result ≡ Err (op, Fault.TooManyOperations)) }
        ensures clears { op ≡ Clear → IsBelowLimit self.old → IsOk result }
        ensures turning { (fault : CycleFault) → IsBelowLimit self.old
            → op_fault (working_picture self.old) op ≡ Some (OpFault.Cycle fault)
            → result ≡ Err (op, Fault.Refused (OpFault.Cycle fault)) }
        ensures out_of_field { IsBelowLimit self.old
            → op_fault (working_picture self.old) op ≡ Some OpFault.OutOfField
            → result ≡ Err (op, Fault.Refused OpFault.OutOfField) }
        ensures refused { IfErr result (λ refused.
            (fault : OpFault) → refused.1 ≡ Fault.Refused fault
            → IsRefusal (working_picture self.old) op fault) }
    {
        if self.holder.revision == self.max_ops {
            return Err((op, Fault::TooManyOperations));
        }
        match self.holder.accept(alloc, &op) {
            Ok(()) => Ok(()),
            Err(fault) => Err((op, Fault::Refused(fault))),
        }
    }

    /// The working picture: that of all accepted operations, published or not.
    pub fn working(&self) -> &Picture
        ensures { result.now ≡ working_picture self.now }
    {
        &self.holder.working
    }

    /// Joins the parts of the working picture, as far as there is memory for that. The picture stays as it is, and is faster to read.
    pub fn settle(&mut self, alloc: Global)
        ensures { IsSameWriter self.old self.new }
    {
        self.holder.working.settle(alloc);
    }

    /// Its revision: how many operations were accepted.
    pub fn revision(&self) -> u32
        ensures { result ≡ revision_at (accepted_list self.now) }
    {
        self.holder.revision
    }

    /// How many accepted operations are not published yet.
    pub fn pending(&self) -> u32
        ensures { result
            ≡ revision_at (accepted_list self.now) - revision_at (published_list self.now) }
    {
        self.holder.revision - self.holder.swap.published().notice.revision
    }

    /// Publishes all accepted operations at once; where all are published already, nothing changes, and it is never refused. It may
    /// wait for looks that are held. Refused with `OutOfMemory` where an allocation fails: nothing is published then, and the
    /// call can be made again.
    pub fn publish<R: Wait>(&mut self, rt: &R) -> Result<(), OutOfMemory>
        ensures identity { identity self.new ≡ identity self.old }
        ensures accepted { accepted_list self.new ≡ accepted_list self.old }
        ensures published { MatchResult result
            (λ _. published_list self.new ≡ accepted_list self.old)
            (λ _. published_list self.new ≡ published_list self.old) }
        ensures nothing { published_list self.old ≡ accepted_list self.old → IsOk result }
        ensures max_ops { max_ops self.new ≡ max_ops self.old }
    {
        self.holder.publish(rt)
    }

    /// A notice of what is published.
    pub fn tell(&mut self) -> Notice
        ensures same { IsSameWriter self.old self.new }
        ensures identity { notice_identity result ≡ identity self.old }
        ensures told { told_list result ≡ published_list self.old }
    {
        self.holder.swap.published().notice.copy()
    }

    /// Ends the picture without an end mark. It may wait for looks that are held, and looks may be refused from then on. Nothing is
    /// left that a clause could be about.
    pub fn discard<R: Wait>(self, rt: &R) {
        let Writer { holder, max_ops: _ } = self;
        holder.discard(rt);
    }
}
