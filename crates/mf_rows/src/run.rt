//! Runs of pixels.
ghost use Rattle.std.specs.Prelude.{◌≡◌, ◌≢◌, ◌↔◌, IsTrue, pos, ◌+ℤ◌, ◌≤ℤ◌};
ghost use Rattle.mf_geom.specs.Coordinates.{least_coordinate, greatest_coordinate, last_in_field};
ghost use Rattle.mf_rows_edges.specs.LawfulWeights.{IsLawfulWeight};
ghost use Rattle.mf_rows.specs.Dots.{place};
ghost use Rattle.mf_rows.specs.Order.{IsRun};

use mf_rows_edges::{FIELD_END, FIELD_START, is_lawful_weight};

/// How many columns the field has.
const FIELD_SIZE: i32 = FIELD_END - FIELD_START;

/// The place of the first pixel of the field, at the left end of its top row.
pub(crate) const START_OF_FIELD: i32 = FIELD_START - FIELD_SIZE * (FIELD_END - 1);

/// A run: `len` pixels of row `y`, from column `x` to the right, all of one weight. A run that a picture gives is
/// maximal: neither neighbour in its row has its weight. In a picture a run lies in the field, so `x` and `y` are in
/// -4095..=4094, `len` is in 1..=8190, and `weight` is in -32767..=32767 and not 0.
#[derive(Clone, Copy, Debug, PartialEq, Eq)]
pub struct Run {
    pub y: i32,
    pub x: i32,
    pub len: u32,
    pub weight: i32,
}

impl Run {
    /// Whether the run has at least one pixel, lies in the field, and has a lawful weight that is not 0.
    pub(crate) fn is_lawful(&self) -> bool
        ensures { IsTrue result ↔ IsRun self.now }
    {
        self.len > 0 && self.lies_in_columns() && self.lies_in_rows() && self.has_lawful_weight()
    }

    /// The place of its first pixel in reading order.
    #[tactic(auto, using(std::proofs::lemmas::Int::ints), unfolding(crate::specs::Dots::place))]
    pub(crate) fn place(&self) -> i32
        requires { IsRun self.now }
        ensures { result ≡ place self.now.x self.now.y }
    {
        self.x - FIELD_SIZE * self.y
    }

    /// Whether all its columns lie in the field.
    fn lies_in_columns(&self) -> bool
        ensures { IsTrue result
            ↔ ((least_coordinate ≤ℤ self.now.x)
            × ((self.now.x +ℤ pos self.now.len) ≤ℤ greatest_coordinate)) }
    {
        FIELD_START <= self.x && i64::from(self.x) + i64::from(self.len) <= i64::from(FIELD_END)
    }

    /// Whether its row lies in the field.
    fn lies_in_rows(&self) -> bool
        ensures { IsTrue result
            ↔ ((least_coordinate ≤ℤ self.now.y) × (self.now.y ≤ℤ last_in_field)) }
    {
        FIELD_START <= self.y && self.y < FIELD_END
    }

    /// Whether its weight is lawful and not 0.
    fn has_lawful_weight(&self) -> bool
        ensures { IsTrue result ↔ (IsLawfulWeight self.now.weight × (self.now.weight ≢ pos 0)) }
    {
        self.weight != 0 && is_lawful_weight(self.weight)
    }
}
