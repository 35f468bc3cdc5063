//! The limits of pictures, in pixels and weights.
ghost use Rattle.std.specs.Prelude.{◌↔◌, IsTrue};
ghost use Rattle.mf_rows_edges.specs.LawfulWeights.{IsLawfulWeight};

use mf_geom::MAX_COORDINATE;

/// The first column and the lowest row of the field, in pixels.
pub const FIELD_START: i32 = -MAX_COORDINATE;

/// One past the last column and the highest row of the field, in pixels.
pub const FIELD_END: i32 = MAX_COORDINATE;

/// The greatest absolute value of a pixel's weight. This limit is the project's own: METAFONT has none.
pub const MAX_WEIGHT: i32 = 32767;

/// Whether a pixel may have this weight: whether it is in -32767..=32767.
pub fn is_lawful_weight(weight: i32) -> bool
    ensures { IsTrue result ↔ IsLawfulWeight weight }
{
    -MAX_WEIGHT <= weight && weight <= MAX_WEIGHT
}
