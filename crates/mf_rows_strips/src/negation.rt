//! Parts with negated weights.
ghost use Rattle.std.specs.Prelude.{◌≡◌, IfOk, map};
ghost use Rattle.mf_rows_strips.specs.Changes.{negated_edge, negated_weight_in};
ghost use Rattle.mf_rows_strips.specs.Parts.{strips_in};
ghost use Rattle.mf_rows_strips.specs.Strips.{HaveStripWeights};

use crate::part::Part;
use mf_base::OutOfMemory;
use mf_rows_edges::Edge;
use std::alloc::Global;

/// The part with negated weights. Refused with `OutOfMemory` where an allocation fails.
#[tactic(auto, using(crate::proofs::Negations::lists_negated))]
pub fn negated(alloc: Global, part: &Part) -> Result<Part, OutOfMemory>
    ensures weights { IfOk result (λ new.
        HaveStripWeights (negated_weight_in (strips_in part.now)) (strips_in new)) }
    ensures reach { IfOk result (λ new. new.reach ≡ part.now.reach) }
{
    let mut heads = Vec::new(alloc);
    heads.extend_from_slice(&part.heads)?;
    Ok(Part::of(heads, negated_edges(alloc, &part.edges)?, part.reach()))
}

/// The edges with negated weights. Numbers wrap, since a list may have edges that no strip has, of any weight.
pub(crate) fn negated_edges(alloc: Global, edges: &[Edge]) -> Result<Vec<Edge>, OutOfMemory>
    ensures { IfOk result (λ negated. negated.items ≡ map negated_edge edges.now) }
{
    let negated = edges.iter().map(|edge| Edge {
        x: edge.x,
        weight: edge.weight.wrapping_neg(),
    });
    Ok(negated.collect(alloc)?)
}
