//! Boxes of pixels.
ghost use Rattle.std.specs.Prelude.{◌≡◌, ◌≤ℤ◌, ◌↔◌, IsTrue};
ghost use Rattle.mf_geom.specs.Coordinates.{last_in_field, least_coordinate};
ghost use Rattle.mf_rows.specs.Bounds.{is_among, with_box};
ghost use Rattle.mf_rows.specs.Boxes.{IsBoxOfField, IsLargerThan, extent};

/// A box of pixels, ends included: columns `min_x` to `max_x`, rows `min_y` to `max_y`. The box of a picture lies in
/// the field: all four are in -4095..=4094 (mf.web keeps such bounds in the header of an edge structure).
#[derive(Clone, Copy, Debug, PartialEq, Eq)]
pub struct Box4 {
    pub min_x: i32,
    pub max_x: i32,
    pub min_y: i32,
    pub max_y: i32,
}

/// Which pixels of a picture a box is round.
#[derive(Clone, Copy, Debug)]
pub(crate) enum Pixels {
    /// Those of nonzero weight.
    Nonzero,
    /// Those of positive weight, which are black in a character.
    Black,
}

impl Pixels {
    /// Whether a pixel of this weight is one of them.
    pub(crate) fn has(self, weight: i32) -> bool
        ensures { result ≡ is_among self weight }
    {
        match self {
            Pixels::Nonzero => weight != 0,
            Pixels::Black => weight > 0,
        }
    }
}

impl Box4 {
    /// The least box round this one and another, if there is one.
    pub(crate) fn with(self, other: Option<Box4>) -> Box4
        ensures { result ≡ with_box other self }
    {
        match other {
            Some(other) => Box4 {
                min_x: other.min_x.min(self.min_x),
                max_x: other.max_x.max(self.max_x),
                min_y: other.min_y.min(self.min_y),
                max_y: other.max_y.max(self.max_y),
            },
            None => self,
        }
    }

    /// Whether it has more columns than `most`, or more rows. Requires a box that is not empty, with columns and rows in -4095..=4094.
    pub fn is_larger_than(&self, most: u32) -> bool
        requires { IsBoxOfField self.now }
        ensures { IsTrue result ↔ IsLargerThan most self.now }
    {
        extent(self.min_x, self.max_x) > most || extent(self.min_y, self.max_y) > most
    }
}

/// The number of columns, or rows, from the first to the last, both inclusive: 1 to 8190. Requires that they are in the field, in
/// -4095..=4094, and that the first is not greater than the last.
pub fn extent(first: i32, last: i32) -> u32
    requires least { least_coordinate ≤ℤ first }
    requires greatest { last ≤ℤ last_in_field }
    requires order { first ≤ℤ last }
    ensures { result ≡ extent first last }
{
    (last - first) as u32 + 1
}
