//! The sum of the weights of a row, by its edges.
ghost use Rattle.std.specs.Prelude.{◌≡◌};
ghost use Rattle.mf_geom.specs.Coordinates.{greatest_coordinate};
ghost use Rattle.mf_rows.specs.Totals.{edges_total};
ghost use Rattle.mf_rows_edges.specs.Edges.{AreEdges};

use mf_rows_edges::{Edge, FIELD_START};

/// The sum of the weights of a row with these edges. Requires the edges of a row.
pub(crate) fn sum_of_row(edges: &[Edge]) -> i32
    requires { AreEdges edges.now }
    ensures { result ≡ edges_total edges.now greatest_coordinate }
{
    let (mut total, mut weight, mut x) = (0i32, 0i32, FIELD_START - 1);
    for edge in edges {
        total += weight * (edge.x - x);
        weight += edge.weight;
        x = edge.x;
    }
    total
}
