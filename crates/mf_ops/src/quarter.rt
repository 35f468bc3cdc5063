//! Turns by multiples of 90 degrees.
ghost use Rattle.std.specs.Prelude.{◌≡◌, ◌↔◌, ◌⊎◌, IsOk, IfOk, pos};
ghost use Rattle.mf_ops.specs.Moves.{degrees};

use std::error::Error;
use std::fmt;
use std::marker::Model;

/// An angle other than 90, 180 and 270 degrees.
#[derive(Clone, Copy, Debug, PartialEq, Eq)]
pub struct BadTurn;

impl fmt::Display for BadTurn {
    ghost use Rattle.std.specs.Prelude.{Some};
    ghost use Rattle.mf_ops.specs.Names.{bad_turn_text};

    ghost output = { λ _. Some bad_turn_text };

    fn fmt<W: fmt::Write>(&self, f: &mut fmt::Formatter<W>) -> fmt::Result {
        f.write_str("BadTurn")
    }
}

impl Error for BadTurn {}

/// A turn by 90, 180 or 270 degrees counterclockwise about the point (0, 0): METAFONT's `rotated` (The METAFONTbook, chapter 15)
/// for these angles.
#[derive(Clone, Copy, Debug, PartialEq, Eq)]
pub struct Quarter {
    turns: TurnCount,
}

/// How many times a picture is turned by 90 degrees.
#[derive(Clone, Copy, Debug, PartialEq, Eq)]
pub enum TurnCount {
    /// By 90 degrees.
    Once,
    /// By 180 degrees.
    Twice,
    /// By 270 degrees.
    Thrice,
}

impl Model for Quarter {
    ghost use Rattle.mf_ops.specs.declared.quarter.TurnCount.{TurnCount};

    ghost Value = { TurnCount };

    ghost view = { λ quarter. quarter.turns };

    ghost inverse = { λ turns. record { turns = turns } };
}

impl Quarter {
    /// The turn by an angle of 90, 180 or 270 degrees. Any other angle is refused with `BadTurn`.
    pub fn new(angle: i32) -> Result<Quarter, BadTurn>
        ensures accepted { IsOk result
            ↔ ((angle ≡ pos 90) ⊎ (angle ≡ pos 180) ⊎ (angle ≡ pos 270)) }
        ensures value { IfOk result (λ quarter. degrees quarter ≡ angle) }
    {
        let turns = match angle {
            90 => TurnCount::Once,
            180 => TurnCount::Twice,
            270 => TurnCount::Thrice,
            _ => return Err(BadTurn),
        };
        Ok(Quarter { turns })
    }

    /// How many times a picture is turned by 90 degrees.
    pub(crate) fn turns(&self) -> TurnCount
        ensures { result ≡ self.now }
    {
        self.turns
    }
}
