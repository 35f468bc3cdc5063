//! Finding rows by binary search.
ghost use Rattle.std.specs.Prelude.{◌≡◌, ℤ};
ghost use Rattle.mf_geom.specs.Field.{IsColumnOrRow};
ghost use Rattle.mf_rows_edges.specs.Edges.{AreEdges, weight_in};
ghost use Rattle.mf_rows_strips.specs.Parts.{weight_in_part};
ghost use Rattle.mf_rows_strips.specs.RowEdges.{AreSameRows};

use super::EqualRows;
use crate::part::Part;
use mf_rows_edges::{FIELD_START, weight_at_column};

impl Part {
    /// Row y, and the rows below it that are equal to it up to the next strip.
    pub(crate) fn equal_rows(&self, y: i32) -> EqualRows<'_>
        ensures edges { AreEdges result.edges.now }
        ensures row { (x : ℤ) → weight_in result.edges.now x ≡ weight_in_part self.now x y }
        ensures rows { IsColumnOrRow y → AreSameRows (weight_in_part self.now) result.bottom y }
    {
        let strips = self.strips();
        let above = strips.heads.partition_point(|head| y < i32::from(head.top));
        let (above, below) = strips.split_at(above);
        EqualRows {
            bottom: below.top().unwrap_or(FIELD_START),
            edges: above.last_row(),
        }
    }

    /// The weight of the pixel (x, y), 0 outside the field.
    pub fn weight(&self, x: i32, y: i32) -> i32
        ensures { result ≡ weight_in_part self.now x y }
    {
        weight_at_column(self.equal_rows(y).edges, x)
    }
}
