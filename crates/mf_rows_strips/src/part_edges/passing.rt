//! Passing the edges of a part.
ghost use Rattle.std.specs.Prelude.{◌≡◌, ◌≤ℤ◌, ◌<ℤ◌, IfSome, pos};
ghost use Rattle.mf_geom.specs.Coordinates.{greatest_coordinate, least_coordinate};
ghost use Rattle.mf_rows_edges.specs.Edges.{AreEdgesFrom, weight_in};
ghost use Rattle.mf_rows_strips.specs.PartEdges.{AreEnds, IsNextEdge, IsPassedTo, column_of};

use super::PartEdges;
use mf_rows_edges::{Edge, FIELD_END};

impl<'a> PartEdges<'a> {
    /// These edges.
    pub(crate) fn of(edges: &'a [Edge]) -> PartEdges<'a>
        requires { AreEdgesFrom least_coordinate edges.now }
        ensures { result.edges.now ≡ edges.now }
    {
        PartEdges { edges }
    }

    /// The edges that are left.
    pub(crate) fn left(&self) -> &'a [Edge]
        ensures edges { result.now ≡ self.now.edges.now }
        ensures sorted { AreEdgesFrom least_coordinate result.now }
    {
        self.edges
    }

    /// Passes the first edge. Returns one of weight 0 at the end of the field where there is none.
    #[inline(always)]
    pub(crate) fn pass(&mut self) -> Edge
        ensures passed { IsNextEdge
            (weight_in self.old.edges.now) (weight_in self.new.edges.now) result }
        ensures column { result.x ≡ column_of self.old.edges.now }
        ensures further { result.x <ℤ greatest_coordinate
            → result.x <ℤ column_of self.new.edges.now }
    {
        match self.edges.split_first() {
            Some((edge, others)) => {
                self.edges = others;
                *edge
            }
            None => Edge {
                x: FIELD_END,
                weight: 0,
            },
        }
    }

    /// The first and the last edge, `None` where there are none. Requires that the edges have a sum of 0.
    pub(crate) fn ends(&self) -> Option<(Edge, Edge)>
        requires { weight_in self.now.edges.now greatest_coordinate ≡ pos 0 }
        ensures { IfSome result (λ ends. AreEnds (weight_in self.now.edges.now) ends.0 ends.1) }
    {
        Some((*self.edges.first()?, *self.edges.last()?))
    }

    /// The column of the first edge, the end of the field where there is none.
    pub(crate) fn column(&self) -> i32
        ensures { result ≡ column_of self.now.edges.now }
    {
        match self.edges.first() {
            Some(edge) => edge.x,
            None => FIELD_END,
        }
    }

    /// Passes the first edge if it is at column x, to the left of which there is none. Returns its weight, 0 where no edge was passed.
    pub(crate) fn pass_column(&mut self, x: i32) -> i32
        requires { x ≤ℤ column_of self.old.edges.now }
        ensures weight { result ≡ weight_in self.old.edges.now x }
        ensures passed { IsPassedTo x (weight_in self.old.edges.now)
            (weight_in self.new.edges.now) }
        ensures further { x <ℤ greatest_coordinate → x <ℤ column_of self.new.edges.now }
    {
        if self.column() != x {
            return 0;
        }
        self.pass().weight
    }
}
