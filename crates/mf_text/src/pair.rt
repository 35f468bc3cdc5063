//! Pairs, as a line writes them.
ghost use Rattle.std.specs.Prelude.{◌≡◌};
ghost use Rattle.mf_text.specs.Ints.{pair_value};

use crate::int::Int;
use mf_geom::Point;

/// Two ints in parentheses: `(`, the first, `,`, the second, and `)`.
#[derive(Clone, Copy)]
pub struct Pair {
    pub(crate) across: Int,
    pub(crate) up: Int,
}

impl Pair {
    /// The point that it names, or the range from its first int to its second.
    pub fn value(self) -> Point
        ensures { result ≡ pair_value self }
    {
        Point {
            x: self.across.value(),
            y: self.up.value(),
        }
    }
}
