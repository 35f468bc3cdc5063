//! The edges of a row of a part that are still to come.
ghost use Rattle.mf_geom.specs.Coordinates.{least_coordinate};
ghost use Rattle.mf_rows_edges.specs.Edges.{AreEdgesFrom};
ghost use Rattle.mf_rows_strips.specs.Strips.{AreEdgesFrom-prop};

use mf_rows_edges::Edge;

mod passing;

/// The edges of a row of a part that are still to come.
#[derive(Clone, Copy, Debug)]
pub(crate) struct PartEdges<'a> {
    edges: &'a [Edge],
    ghost sorted: { AreEdgesFrom least_coordinate edges.now } by { AreEdgesFrom-prop least_coordinate edges.now },
}
