//! Parts whose weights are mapped.
ghost use Rattle.std.specs.Prelude.{IfOk};
ghost use Rattle.mf_rows_edges.specs.WeightMaps.{IsWeightMap};
ghost use Rattle.mf_rows_strips.specs.Changes.{IsReachOfMap, mapped_weights};
ghost use Rattle.mf_rows_strips.specs.Parts.{strips_in, weight_in_part};
ghost use Rattle.mf_rows_strips.specs.Strips.{HaveStripWeights};

use crate::part::Part;
use crate::writer::PartWriter;
use mf_base::OutOfMemory;
use mf_rows_edges::{MAX_WEIGHT, WeightMap};
use std::alloc::Global;

/// The part after each weight is mapped. Refused with `OutOfMemory` where an allocation fails. Requires a map under which 0 stays 0 and
/// weights in -32767..=32767 become such weights.
#[tactic(auto, using(crate::proofs::MappedStrips::mapped_all))]
pub fn mapped(alloc: Global, part: &Part, map: &WeightMap) -> Result<Part, OutOfMemory>
    requires { IsWeightMap map.now }
    ensures { IfOk result (λ new.
        HaveStripWeights (mapped_weights map.now (weight_in_part part.now)) (strips_in new)) }
{
    let reach = reach_of_map(map);
    let mut new = PartWriter::with_room(alloc, part.heads.len(), part.edges.len())?;
    let mut rest = part.strips();
    while let Some((strip, others)) = rest.split_first() {
        new.push_mapped(strip.top, strip.edges, map)?;
        rest = others;
    }
    Ok(new.finish(reach))
}

/// A number in 0..=32767 that no weight exceeds in absolute value after a map.
fn reach_of_map(map: &WeightMap) -> i32
    ensures { IsReachOfMap map.now result }
{
    let inside = map.inside.saturating_abs();
    let outside = map.outside.saturating_abs();
    inside.max(outside).min(MAX_WEIGHT)
}
