//! The weights with which a contour may be filled.
ghost use Rattle.std.specs.Prelude.{◌≡◌, ◌↔◌, IsOk, IfOk};

use std::error::Error;
use std::fmt;
use std::marker::Model;

/// A weight other than -3, -2, -1, 1, 2 and 3.
#[derive(Clone, Copy, Debug, PartialEq, Eq)]
pub struct BadWeight;

impl fmt::Display for BadWeight {
    ghost use Rattle.std.specs.Prelude.{Some};
    ghost use Rattle.mf_ops.specs.Names.{bad_weight_text};

    ghost output = { λ _. Some bad_weight_text };

    fn fmt<W: fmt::Write>(&self, f: &mut fmt::Formatter<W>) -> fmt::Result {
        f.write_str("BadWeight")
    }
}

impl Error for BadWeight {}

/// The weight of a contour: -3, -2, -1, 1, 2 or 3 (The METAFONTbook, chapter 13, `withweight`).
#[derive(Clone, Copy, Debug, PartialEq, Eq)]
pub struct Weight {
    weight: i32,
}

impl Model for Weight {
    ghost use Rattle.std.specs.Prelude.{ℤ};
    ghost use Rattle.mf_ops.specs.ContourWeight.{IsContourWeight};

    ghost Value = { ℤ };

    ghost view = { λ w. w.weight };

    ghost invariant = { λ w. IsContourWeight w.weight };

    ghost inverse = { λ z. record { weight = z } };
}

impl Weight {
    ghost use Rattle.mf_ops.specs.ContourWeight.{IsContourWeight};

    /// The weight with this number. Any number but -3, -2, -1, 1, 2 and 3 is refused with `BadWeight`.
    pub fn new(weight: i32) -> Result<Weight, BadWeight>
        ensures accepted { IsOk result ↔ IsContourWeight weight }
        ensures value { IfOk result (λ made. made ≡ weight) }
    {
        if weight == 0 || !(-3..=3).contains(&weight) {
            return Err(BadWeight);
        }
        Ok(Weight { weight })
    }

    /// The weight as a number: -3, -2, -1, 1, 2 or 3.
    pub fn get(&self) -> i32
        ensures value { result ≡ self.now }
        ensures lawful { IsContourWeight self.now }
    {
        self.weight
    }
}
