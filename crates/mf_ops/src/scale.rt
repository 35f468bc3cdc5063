//! Scales by two integer factors.
ghost use Rattle.std.specs.Prelude.{◌≡◌, ◌↔◌, IsOk, IfOk, IsTrue};
ghost use Rattle.mf_ops.specs.Moves.{AreFactors, IsFactor};

use mf_geom::MAX_COORDINATE;
use std::error::Error;
use std::fmt;
use std::marker::Model;

/// The greatest absolute value of a factor. A greater one would take every pixel out of the field.
const MAX_FACTOR: i32 = MAX_COORDINATE;

/// A factor that is 0, or not in -4095..=4095.
#[derive(Clone, Copy, Debug, PartialEq, Eq)]
pub struct BadScale;

impl fmt::Display for BadScale {
    ghost use Rattle.std.specs.Prelude.{Some};
    ghost use Rattle.mf_ops.specs.Names.{bad_scale_text};

    ghost output = { λ _. Some bad_scale_text };

    fn fmt<W: fmt::Write>(&self, f: &mut fmt::Formatter<W>) -> fmt::Result {
        f.write_str("BadScale")
    }
}

impl Error for BadScale {}

/// The factors of a scale: METAFONT's `xscaled`, `yscaled` and `scaled` (The METAFONTbook, chapter 15) for nonzero integers in
/// -4095..=4095. A negative factor also reflects.
#[derive(Clone, Copy, Debug, PartialEq, Eq)]
pub struct Scale {
    x: i32,
    y: i32,
}

impl Model for Scale {
    ghost use Rattle.mf_ops.specs.Moves.{Factors, AreFactors};

    ghost Value = { Factors };

    ghost view = { λ s. record { x = s.x; y = s.y } };

    ghost invariant = { λ s. AreFactors (record { x = s.x; y = s.y }) };

    ghost inverse = { λ f. record { x = f.x; y = f.y } };
}

impl Scale {
    /// The scale by these factors, `x` of columns and `y` of rows. Refused with `BadScale` where one of them is 0 or not in
    /// -4095..=4095.
    pub fn new(x: i32, y: i32) -> Result<Scale, BadScale>
        ensures accepted { IsOk result ↔ AreFactors (record { x = x; y = y }) }
        ensures value { IfOk result (λ scale. scale ≡ record { x = x; y = y }) }
    {
        if !is_factor(x) || !is_factor(y) {
            return Err(BadScale);
        }
        Ok(Scale { x, y })
    }

    /// The factor of columns.
    pub(crate) fn x(&self) -> i32
        ensures value { result ≡ self.now.x }
        ensures factor { IsFactor result }
    {
        self.x
    }

    /// The factor of rows.
    pub(crate) fn y(&self) -> i32
        ensures value { result ≡ self.now.y }
        ensures factor { IsFactor result }
    {
        self.y
    }
}

/// Whether a number may be a factor.
fn is_factor(factor: i32) -> bool
    ensures { IsTrue result ↔ IsFactor factor }
{
    factor != 0 && -MAX_FACTOR <= factor && factor <= MAX_FACTOR
}
