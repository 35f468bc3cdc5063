//! Entering rows, and passing their edges.
ghost use Rattle.std.specs.Prelude.{◌≡◌, ℤ, pos, ◌≤ℤ◌, ◌<ℤ◌, IfSome, length};
ghost use Rattle.mf_geom.specs.Coordinates.{greatest_coordinate, least_coordinate};
ghost use Rattle.mf_geom.specs.Field.{IsColumnOrRow};
ghost use Rattle.mf_rows_edges.specs.Edges.{AreEdgesFrom, weight_in};
ghost use Rattle.mf_rows_edges.specs.Merging.{IsDifference};
ghost use Rattle.mf_rows_strips.specs.PileWeights.{weight_in_pile};
ghost use Rattle.mf_rows_strips.specs.PartEdges.{AreEnds, IsNextEdge, IsPassedTo, first_column_of, weight_in_all};
ghost use Rattle.mf_rows_strips.specs.RowEdges.{AreSameRows, weight_left, weights_of};

use super::RowEdges;
use crate::part_edges::PartEdges;
use crate::pile::{MAX_PARTS, Pile};
use mf_rows_edges::{Edge, FIELD_END, FIELD_START};

impl<'a> RowEdges<'a> {
    /// No edges of a pile.
    pub fn of(pile: &'a Pile) -> RowEdges<'a>
        ensures { weights_of result ≡ weight_in_pile pile.now }
    {
        RowEdges {
            pile,
            edges: [PartEdges::of(&[]); MAX_PARTS],
        }
    }

    /// Goes to the left end of row y. Returns the lowest one of the rows down from it that are known to be equal to it.
    pub fn enter(&mut self, y: i32) -> i32
        requires { IsColumnOrRow y }
        ensures row { (x : ℤ) → weight_left self.new x ≡ weights_of self.old x y }
        ensures rows { AreSameRows (weights_of self.old) result y }
        ensures same { weights_of self.new ≡ weights_of self.old }
    {
        let mut bottom = FIELD_START;
        let parts = &self.pile.parts[..];
        let edges = &mut self.edges[..];
        for i in 0..parts.len() {
            let rows = parts[i].equal_rows(y);
            edges[i] = PartEdges::of(rows.edges);
            bottom = bottom.max(rows.bottom);
        }
        bottom
    }

    /// Passes the next edge. Returns one of weight 0 at the end of the field where there is none. Requires that the weights that are left
    /// are differences of sums of lawful weights.
    #[inline(always)]
    pub fn pass(&mut self) -> Edge
        requires { (x : ℤ) → IsDifference (weight_left self.old x) }
        ensures passed { IsNextEdge (weight_left self.old) (weight_left self.new) result }
        ensures same { weights_of self.new ≡ weights_of self.old }
    {
        pass_edge(&mut self.edges[..self.pile.parts.len()])
    }

    /// The edges that are left, where there is one part; else `None`.
    pub fn of_one_part(&self) -> Option<&'a [Edge]>
        ensures weights { IfSome result (λ edges.
            (x : ℤ) → weight_left self.now x ≡ weight_in edges.now x) }
        ensures sorted { IfSome result (λ edges. AreEdgesFrom least_coordinate edges.now) }
    {
        Some(self.only()?.left())
    }

    /// The first and the last edge that are left, where there is one part and edges are left; else `None`. Requires that they have a sum
    /// of 0.
    pub fn ends(&self) -> Option<(Edge, Edge)>
        requires { weight_left self.now greatest_coordinate ≡ pos 0 }
        ensures { IfSome result (λ ends. AreEnds (weight_left self.now) ends.0 ends.1) }
    {
        self.only()?.ends()
    }

    /// The edges of the only part, `None` where there is not exactly one.
    fn only(&self) -> Option<&PartEdges<'a>>
        ensures { IfSome result (λ part.
            (x : ℤ) → weight_left self.now x ≡ weight_in part.now.edges.now x) }
    {
        if self.pile.parts.len() != 1 {
            return None;
        }
        let edges = &self.edges[..];
        Some(&edges[0])
    }
}

/// Passes the next edge. Mostly there is one part, and it takes few steps.
#[inline(always)]
fn pass_edge(edges: &mut [PartEdges<'_>]) -> Edge
    requires { (x : ℤ) → IsDifference (weight_in_all edges.old x) }
    ensures passed { IsNextEdge (weight_in_all edges.old) (weight_in_all edges.new) result }
    ensures each { length edges.new ≡ length edges.old }
{
    if edges.len() == 1 {
        return edges[0].pass();
    }
    pass_together(edges)
}

/// Passes the first column in which the edges of all parts have a sum that is not 0. Kept apart, so that passing the edge of a single part
/// stays short.
#[inline(never)]
fn pass_together(edges: &mut [PartEdges<'_>]) -> Edge
    requires { (x : ℤ) → IsDifference (weight_in_all edges.old x) }
    ensures passed { IsNextEdge (weight_in_all edges.old) (weight_in_all edges.new) result }
    ensures each { length edges.new ≡ length edges.old }
{
    loop {
        let x = first_column(edges);
        let weight = pass_column(edges, x);
        if weight != 0 || x == FIELD_END {
            return Edge { x, weight };
        }
    }
}

/// The column of the first edge, the end of the field where there is none.
fn first_column(edges: &[PartEdges<'_>]) -> i32
    ensures { result ≡ first_column_of edges.now }
{
    let mut first = FIELD_END;
    for own in edges {
        first = first.min(own.column());
    }
    first
}

/// Passes the edges at column x, to the left of which there are none. Returns the sum of their weights. Sums of some of them may wrap,
/// but that of all does not.
fn pass_column(edges: &mut [PartEdges<'_>], x: i32) -> i32
    requires first { x ≤ℤ first_column_of edges.old }
    requires difference { IsDifference (weight_in_all edges.old x) }
    ensures weight { result ≡ weight_in_all edges.old x }
    ensures passed { IsPassedTo x (weight_in_all edges.old) (weight_in_all edges.new) }
    ensures further { x <ℤ greatest_coordinate → x <ℤ first_column_of edges.new }
    ensures each { length edges.new ≡ length edges.old }
{
    let mut weight = 0i32;
    for i in 0..edges.len() {
        weight = weight.wrapping_add(edges[i].pass_column(x));
    }
    weight
}
