//! The sum of two parts.
ghost use Rattle.std.specs.Prelude.{◌≢◌, ◌≤ℤ◌, IfErr, IfNone, IfOk, IfSome};
ghost use Rattle.mf_rows_edges.specs.Edges.{weight_in};
ghost use Rattle.mf_rows_edges.specs.LawfulWeights.{greatest_weight};
ghost use Rattle.mf_rows_edges.specs.Merging.{AreChanges};
ghost use Rattle.mf_rows_edges.specs.Reaches.{StaysInReach};
ghost use Rattle.mf_rows_edges.specs.Sums.{IsUnlawfulColumn};
ghost use Rattle.mf_rows_strips.specs.Parts.{strips_in};
ghost use Rattle.mf_rows_strips.specs.Strips.{HaveStripWeights, IsUnlawfulSomewhere};
ghost use Rattle.mf_rows_strips.specs.Sums.{sum_in_strips, IsWithin};

use crate::fault::AddFault;
use crate::part::Part;
use crate::side::{Side, pass_height};
use crate::writer::PartWriter;
use mf_rows_edges::{Edge, MAX_WEIGHT, reach_of};
use std::alloc::Global;

/// The part in which each pixel has the sum of its weights in both. Refused with `WeightTooLarge` where a weight would exceed 32767 in
/// absolute value, and with `OutOfMemory` where an allocation fails. How small its reach is, no clause says: the weights are measured
/// where the reaches of both together are beyond the limit.
#[tactic(auto, using(crate::proofs::SumsLemmas::sum_all))]
pub fn sum_of_parts(alloc: Global, left: &Part, right: &Part) -> Result<Part, AddFault>
    ensures weights { IfOk result (λ part.
        HaveStripWeights (sum_in_strips (strips_in left.now) (strips_in right.now))
        (strips_in part)) }
    ensures too_large { IfErr result (λ fault. fault ≢ AddFault.OutOfMemory
        → IsUnlawfulSomewhere (sum_in_strips (strips_in left.now) (strips_in right.now))) }
{
    let most = left.reach() + right.reach();
    let heads = left.heads.len().saturating_add(right.heads.len());
    let edges = left.edges.len().saturating_add(right.edges.len());
    let mut sum = PartWriter::with_room(alloc, heads, edges)?;
    let (mut left, mut right) = (Side::of(left.strips()), Side::of(right.strips()));
    let mut reach = 0;
    while let Some(top) = pass_height(&mut left, &mut right) {
        sum.push_sum(top, left.row, right.row)?;
        let Some(next) = reach_with(reach, most, sum.last_row()) else {
            return Err(AddFault::WeightTooLarge);
        };
        reach = next;
    }
    Ok(sum.finish(reach))
}

/// A reach of strips that stay in `reach`, and of a row none of whose weights exceeds `most` in absolute value: the greater one of `reach`
/// and of `most`, or of the row's least reach where `most` is beyond the limit. `None` where a weight of the row is not lawful.
fn reach_with(reach: i32, most: i32, row: &[Edge]) -> Option<i32>
    requires reach { reach ≤ℤ greatest_weight }
    requires within { IsWithin most row.now }
    requires changes { AreChanges row.now }
    ensures wider { IfSome result (λ next. reach ≤ℤ next) }
    ensures row { IfSome result (λ next. StaysInReach next row.now) }
    ensures none { IfNone result (IsUnlawfulColumn (weight_in row.now)) }
{
    if most <= MAX_WEIGHT {
        return Some(reach.max(most));
    }
    let least = reach_of(row);
    if least > MAX_WEIGHT {
        return None;
    }
    Some(reach.max(least))
}
