//! Maps of weights, which take each weight by itself.
ghost use Rattle.std.specs.Prelude.{◌≡◌, OnOk, OnErr};
ghost use Rattle.mf_rows_edges.specs.Edges.{AreEdges};
ghost use Rattle.mf_rows_edges.specs.Sums.{HasMoreEdges};
ghost use Rattle.mf_rows_edges.specs.WeightMaps.{mapped_weight, HasMappedEdges, IsWeightMap};

use crate::edge::{Edge, push_unless_zero};
use mf_base::OutOfMemory;

/// What each weight of a picture becomes, wherever its pixel is: weights in `low..=high` become `inside`, and all others `outside`
/// (`cull`: The METAFONTbook, chapter 13). `low` and `high` are any numbers. Mapping a picture requires that 0 becomes 0, and that
/// weights in -32767..=32767 become such weights, as they do where `inside` and `outside` are such weights.
#[derive(Clone, Copy, Debug, PartialEq, Eq)]
pub struct WeightMap {
    pub low: i32,
    pub high: i32,
    pub inside: i32,
    pub outside: i32,
}

impl WeightMap {
    /// The weight that a weight becomes.
    #[tactic(auto, unfolding(crate::specs::WeightMaps::mapped_weight))]
    pub(crate) fn apply(&self, weight: i32) -> i32
        ensures { result ≡ mapped_weight self.now weight }
    {
        if self.low <= weight && weight <= self.high {
            self.inside
        } else {
            self.outside
        }
    }
}

/// Appends to a list of edges those of a row after each of its weights is mapped. Refused with `OutOfMemory` where an allocation
/// fails; the list then has what it had, and perhaps some edges after that. Requires the edges of a row, as `weight_at_column` does, and
/// a map under which 0 stays 0 and weights in -32767..=32767 become such weights.
pub fn push_mapped_edges(
    mapped: &mut Vec<Edge>,
    row: &[Edge],
    map: &WeightMap,
) -> Result<(), OutOfMemory>
    requires row { AreEdges row.now }
    requires map { IsWeightMap map.now }
    ensures pushed { OnOk result
        (HasMappedEdges map.now row.now mapped.old.items mapped.new.items) }
    ensures kept { OnErr result (HasMoreEdges mapped.old.items mapped.new.items) }
{
    let (mut weight, mut image) = (0, 0);
    for edge in row {
        weight += edge.weight;
        let next = map.apply(weight);
        push_unless_zero(
            mapped,
            Edge {
                x: edge.x,
                weight: next - image,
            },
        )?;
        image = next;
    }
    Ok(())
}
