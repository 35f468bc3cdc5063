//! The edges of a row, and the weights between them.
ghost use Rattle.std.specs.Prelude.{◌≡◌, ◌≢◌, ◌<◌, ◌≤◌, ◌++◌, IsOk, OnOk, OnErr, pos};
ghost use Rattle.std.specs.Vec.{vec_len, vec_capacity};
ghost use Rattle.mf_rows_edges.specs.Edges.{AreEdges, weight_in};
ghost use Rattle.mf_rows_edges.specs.Merging.{unless_zero, AreChanges};
ghost use Rattle.mf_rows_edges.specs.Reaches.{IsLeastReach};

use mf_base::OutOfMemory;

/// An edge of a row: the weights of the row's pixels at and to the right of its column are greater by its weight
/// (mf.web, "edge structures").
#[derive(Clone, Copy, Debug, PartialEq, Eq)]
pub struct Edge {
    /// The column, in pixels; in -4095..=4095 in a row, where 4095 is one past the last column of the field.
    pub x: i32,
    /// By how much the weights change; not 0 in a row.
    pub weight: i32,
}

/// The weight at column x, in pixels, of a row with these edges: the sum of the weights of the edges at or to the left
/// of it. Requires the edges of a row: sorted by column, at most one a column, in -4095..=4095, none of weight 0, with
/// weights in -32767..=32767 between them, and with a sum of 0.
pub fn weight_at_column(edges: &[Edge], x: i32) -> i32
    requires { AreEdges edges.now }
    ensures { result ≡ weight_in edges.now x }
{
    let mut weight = 0;
    for edge in edges {
        if x < edge.x {
            return weight;
        }
        weight += edge.weight;
    }
    weight
}

/// The least reach of edges: the greatest absolute value of the weights between them, 0 where there are no edges. Requires edges as
/// `weight_at_column` does, but the weights between them may be sums of two lawful weights, in -65534..=65534. So they are the edges
/// of a row exactly where their reach is at most 32767.
pub fn reach_of(edges: &[Edge]) -> i32
    requires { AreChanges edges.now }
    ensures { IsLeastReach result edges.now }
{
    let mut weight = 0i32;
    let mut reach = 0;
    for edge in edges {
        weight += edge.weight;
        reach = reach.max(weight.abs());
    }
    reach
}

/// Appends an edge to a list of edges, unless its weight is 0. Refused with `OutOfMemory`, only where the weight is not
/// 0 and there is no room left; the list is then unchanged. Its capacity never shrinks.
pub fn push_unless_zero(edges: &mut Vec<Edge>, edge: Edge) -> Result<(), OutOfMemory>
    ensures pushed { OnOk result (edges.new.items ≡ edges.old.items ++ unless_zero edge) }
    ensures unchanged { OnErr result (edges.new.items ≡ edges.old.items) }
    ensures succeeds { vec_len edges.old < vec_capacity edges.old → IsOk result }
    ensures nonzero { OnErr result (edge.weight ≢ pos 0) }
    ensures capacity { vec_capacity edges.old ≤ vec_capacity edges.new }
{
    if edge.weight != 0 {
        edges.push(edge)?;
    }
    Ok(())
}
