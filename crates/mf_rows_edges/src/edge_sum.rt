//! The sum of two rows of edges.
ghost use Rattle.std.specs.Prelude.{◌≡◌, ◌≤◌, ◌<ℤ◌, ◌++◌, OnOk, OnErr, All, drop, length, take};
ghost use Rattle.mf_geom.specs.Coordinates.{least_coordinate};
ghost use Rattle.mf_rows_edges.specs.Edges.{AreEdges, AreEdgesFrom};
ghost use Rattle.mf_rows_edges.specs.Merging.{AreChanges, AreEdgesLeft, BeginFrom, IsSplitAt};
ghost use Rattle.mf_rows_edges.specs.Sums.{HasEdgeSum, HasMoreEdges};

use crate::edge::{Edge, push_unless_zero};
use mf_base::OutOfMemory;

/// A row of at most this many edges is added to another by binary search, and one of more edges is merged with it: then there is mostly
/// one edge of the other between two of its edges, or none. A contour changes a row at few places, so it costs about a copy of the row.
const FEW_EDGES: usize = 8;

/// Appends the edges of the sum of a row and of what is added to it to a list of edges. The edges of the row up to the next change are
/// copied at once. Whether the weights between the edges of the sum are lawful, the caller knows, or finds out afterwards. Refused
/// with `OutOfMemory` where an allocation fails; the list then has what it had, and perhaps some edges after that. Requires the edges
/// of a row on the left, as `weight_at_column` does, and changes of a row on the right: edges as `reach_of` requires them, with
/// differences of two lawful weights between them.
pub fn push_sum_of_edges(
    sum: &mut Vec<Edge>,
    left: &[Edge],
    right: &[Edge],
) -> Result<(), OutOfMemory>
    requires left { AreEdges left.now }
    requires right { AreChanges right.now }
    ensures pushed { OnOk result (HasEdgeSum sum.old.items left.now right.now sum.new.items) }
    ensures kept { OnErr result (HasMoreEdges sum.old.items sum.new.items) }
{
    sum.reserve(left.len() + right.len())?;
    let are_few = right.len() <= FEW_EDGES;
    let (mut left, mut right) = (left, right);
    while let Some((change, changes)) = right.split_first() {
        let (kept, others) = left.split_at(count_left_of(left, change.x, are_few));
        push_edges(sum, kept)?;
        let (edge, rest) = split_at(others, change.x);
        push_unless_zero(
            sum,
            Edge {
                x: change.x,
                weight: edge + change.weight,
            },
        )?;
        (left, right) = (rest, changes);
    }
    sum.extend_from_slice(left)?;
    Ok(())
}

/// Appends edges to a list of edges. Refused with `OutOfMemory` where an allocation fails; the list is then unchanged. Where two
/// rows have many edges there is mostly one between two changes, or none, and a push costs less than a copy of a slice.
#[inline(always)]
fn push_edges(edges: &mut Vec<Edge>, others: &[Edge]) -> Result<(), OutOfMemory>
    ensures pushed { OnOk result (edges.new.items ≡ edges.old.items ++ others.now) }
    ensures unchanged { OnErr result (edges.new.items ≡ edges.old.items) }
{
    match others {
        [] => Ok(()),
        [edge] => Ok(edges.push(*edge)?),
        _ => Ok(edges.extend_from_slice(others)?),
    }
}

/// The number of edges to the left of column x, which are the first ones. They are found by binary search where the columns asked for are
/// few, and counted otherwise. Of two changes that stand together, the second mostly has none to its left.
fn count_left_of(edges: &[Edge], x: i32, are_few: bool) -> usize
    requires { AreEdgesFrom least_coordinate edges.now }
    ensures within { result ≤ length edges.now }
    ensures left { All (λ edge. edge.x <ℤ x) (take result edges.now) }
    ensures others { BeginFrom x (drop result edges.now) }
{
    match edges.first() {
        Some(first) if first.x < x => {
            if are_few {
                edges.partition_point(|edge| edge.x < x)
            } else {
                pass_left_of(edges, x)
            }
        }
        _ => 0,
    }
}

/// The number of edges to the left of column x, which are counted one by one.
fn pass_left_of(edges: &[Edge], x: i32) -> usize
    requires { AreEdgesFrom least_coordinate edges.now }
    ensures within { result ≤ length edges.now }
    ensures left { All (λ edge. edge.x <ℤ x) (take result edges.now) }
    ensures others { BeginFrom x (drop result edges.now) }
{
    let mut count = 0;
    for edge in edges {
        if x <= edge.x {
            break;
        }
        count += 1;
    }
    count
}

/// Splits off the edge at column x, where no edge is further left: its weight, or 0 where there is none, and the edges
/// to the right of the column.
fn split_at(edges: &[Edge], x: i32) -> (i32, &[Edge])
    requires { AreEdgesLeft x edges.now }
    ensures { IsSplitAt edges.now x result.0 result.1.now }
{
    match edges.split_first() {
        Some((edge, rest)) if edge.x == x => (edge.weight, rest),
        _ => (0, edges),
    }
}
