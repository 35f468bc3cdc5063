//! Adding parts to a pile, and joining them.
ghost use Rattle.std.specs.Prelude.{◌≡◌, ◌≢◌, ◌<◌, ◌≤◌, ◌+◌, [], IfOk, IfErr, OnOk, OnErr, IsTrue, length, map};
ghost use Rattle.std.specs.Arc.{arc_value};
ghost use Rattle.mf_rows_strips.specs.Parts.{strips_in, weight_in_part};
ghost use Rattle.mf_rows_strips.specs.Piles.{most_parts};
ghost use Rattle.mf_rows_strips.specs.PileWeights.{weight_in_pile, weight_with_part};
ghost use Rattle.mf_rows_strips.specs.Strips.{HaveStripWeights, IsUnlawfulSomewhere};

use super::{MAX_PARTS, Pile};
use crate::fault::AddFault;
use crate::part::Part;
use crate::sum::sum_of_parts;
use crate::writer::PartWriter;
use mf_base::OutOfMemory;
use mf_rows_edges::MAX_WEIGHT;
use std::alloc::Global;
use std::sync::Arc;

#[tactic(auto, using(crate::proofs::PilesLemmas::of_piles))]
impl Pile {
    /// No parts. Allocates nothing.
    pub fn blank(alloc: Global) -> Pile
        ensures { result.parts.items ≡ [] }
    {
        Pile {
            parts: Vec::new(alloc),
            reach: 0,
        }
    }

    /// A pile of one part.
    pub fn of(alloc: Global, part: Arc<Part>) -> Result<Pile, OutOfMemory>
        ensures { IfOk result (λ pile. weight_in_pile pile ≡ weight_in_part (arc_value part)) }
    {
        let reach = part.reach();
        let mut parts = Vec::new(alloc);
        parts.push(part)?;
        Ok(Pile { parts, reach })
    }

    /// A pile of the same parts, which are shared.
    pub fn copy(&self, alloc: Global) -> Result<Pile, OutOfMemory>
        ensures { IfOk result (λ pile. weight_in_pile pile ≡ weight_in_pile self.now) }
    {
        Ok(Pile {
            parts: share(alloc, &self.parts)?,
            reach: self.reach,
        })
    }

    /// All parts as one.
    pub fn joined(&self, alloc: Global) -> Result<Arc<Part>, OutOfMemory>
        ensures { IfOk result (λ part.
            HaveStripWeights (weight_in_pile self.now) (strips_in (arc_value part))) }
    {
        let mut pile = self.copy(alloc)?;
        pile.join_all(alloc)?;
        match pile.parts.pop() {
            Some(part) => Ok(part),
            None => Ok(Arc::new(alloc, PartWriter::with_room(alloc, 0, 0)?.finish(0))?),
        }
    }

    /// Joins all parts, as far as there is memory for that. The weights stay as they are.
    pub fn settle(&mut self, alloc: Global)
        ensures { weight_in_pile self.new ≡ weight_in_pile self.old }
    {
        // Where an allocation fails, parts stay apart.
        let _ = self.join_all(alloc);
    }

    /// Adds a part. Refused with `WeightTooLarge` where a weight would exceed 32767 in absolute value, and with `OutOfMemory` where an
    /// allocation fails; the weights are then as they were.
    pub fn add(&mut self, alloc: Global, part: Arc<Part>) -> Result<(), AddFault>
        ensures weights { OnOk result
            (weight_in_pile self.new ≡ weight_with_part self.old (arc_value part)) }
        ensures unchanged { OnErr result (weight_in_pile self.new ≡ weight_in_pile self.old) }
        ensures too_large { IfErr result (λ fault.
            fault ≢ AddFault.OutOfMemory
            → IsUnlawfulSomewhere (weight_with_part self.old (arc_value part))) }
    {
        let reach = self.reach + part.reach();
        if reach > MAX_WEIGHT {
            return self.add_measured(alloc, &part);
        }
        self.make_room(alloc)?;
        self.parts.push(part)?;
        self.reach = reach;
        self.join_small(alloc);
        Ok(())
    }

    /// Adds a part where both reaches together are beyond the limit: all weights are looked at.
    fn add_measured(&mut self, alloc: Global, part: &Part) -> Result<(), AddFault>
        ensures weights { OnOk result
            (weight_in_pile self.new ≡ weight_with_part self.old part.now) }
        ensures unchanged { OnErr result (weight_in_pile self.new ≡ weight_in_pile self.old) }
        ensures too_large { IfErr result (λ fault.
            fault ≢ AddFault.OutOfMemory
            → IsUnlawfulSomewhere (weight_with_part self.old part.now)) }
    {
        let all = self.joined(alloc)?;
        let sum = sum_of_parts(alloc, &all, part)?;
        *self = Pile::of(alloc, Arc::new(alloc, sum)?)?;
        Ok(())
    }

    /// Makes room for one more part: where the pile is full, joins the last two parts. The weights stay as they are.
    fn make_room(&mut self, alloc: Global) -> Result<(), OutOfMemory>
        ensures weights { weight_in_pile self.new ≡ weight_in_pile self.old }
        ensures room { OnOk result (length self.new.parts.items < most_parts) }
        ensures reach { self.new.reach ≡ self.old.reach }
    {
        if self.parts.len() == MAX_PARTS {
            return self.join_last(alloc);
        }
        Ok(())
    }

    /// Joins the last parts while the one before the last is at most twice as large, as far as there is memory for that.
    fn join_small(&mut self, alloc: Global)
        ensures { weight_in_pile self.new ≡ weight_in_pile self.old }
    {
        while self.is_last_large() {
            if self.join_last(alloc).is_err() {
                return;
            }
        }
    }

    /// Whether the part before the last is at most twice as large as the last one.
    fn is_last_large(&self) -> bool
        ensures { IsTrue result → 2 ≤ length self.now.parts.items }
    {
        match &self.parts[..] {
            [.., before, last] => before.size() / 2 <= last.size(),
            _ => false,
        }
    }

    /// Joins all parts. Refused with `OutOfMemory` where an allocation fails; some parts may then have been joined. The weights stay as
    /// they are.
    fn join_all(&mut self, alloc: Global) -> Result<(), OutOfMemory>
        ensures weights { weight_in_pile self.new ≡ weight_in_pile self.old }
        ensures one { OnOk result (length self.new.parts.items ≤ 1) }
    {
        while self.parts.len() > 1 {
            self.join_last(alloc)?;
        }
        Ok(())
    }

    /// Puts the sum of the last two parts in their place. Refused with `OutOfMemory` where an allocation fails; the parts then stay.
    fn join_last(&mut self, alloc: Global) -> Result<(), OutOfMemory>
        requires { 2 ≤ length self.old.parts.items }
        ensures weights { weight_in_pile self.new ≡ weight_in_pile self.old }
        ensures fewer { OnOk result
            (length self.new.parts.items + 1 ≡ length self.old.parts.items) }
        ensures reach { self.new.reach ≡ self.old.reach }
    {
        let before = self.parts.len() - 2;
        let Ok(sum) = sum_of_parts(alloc, &self.parts[before], &self.parts[before + 1]) else {
            return Err(OutOfMemory);
        };
        let sum = Arc::new(alloc, sum)?;
        self.parts.pop();
        self.parts[before] = sum;
        Ok(())
    }
}

/// The same parts, which are shared.
fn share(alloc: Global, parts: &[Arc<Part>]) -> Result<Vec<Arc<Part>>, OutOfMemory>
    ensures { IfOk result (λ shared. map arc_value shared.items ≡ map arc_value parts.now) }
{
    let mut shared = Vec::new(alloc);
    shared.reserve(parts.len())?;
    for part in parts {
        shared.push(Arc::try_clone(part)?)?;
    }
    Ok(shared)
}
