//! Why lines are refused.
use mf_base::OutOfMemory;
use mf_geom::CycleFault;
use mf_ops::{BadCull, BadScale, BadTurn, BadWeight};
use std::error::Error;
use std::fmt;

/// Why a line gives no command. `LineTooLong`, `NotAscii` and `Syntax` come first, in this order, and then the refusals of the
/// values: of a contour `Cycle` before `BadWeight`, of a cull `BadWeight` before `BadCull`.
#[derive(Clone, Copy, Debug, PartialEq, Eq)]
pub enum TextFault {
    /// The points of the contour are not a cycle: `TooFewPoints`, `TooManyPoints`, `PointOutOfRange` or `NotRectilinear`.
    Cycle(CycleFault),
    /// The weight is not -3, -2, -1, 1, 2 or 3.
    BadWeight,
    /// The range goes from a greater to a lesser weight, a kept range has 0 in it, or a dropped one does not.
    BadCull,
    /// The factor is 0 or exceeds 4095 in absolute value.
    BadScale,
    /// The angle is not 90, 180 or 270 degrees.
    BadTurn,
    /// An allocation failed. This comes only for a contour, instead of `Cycle` (other than `TooManyPoints`), of `BadWeight` or of the
    /// command.
    OutOfMemory,
    /// The line has more than 65,536 bytes.
    LineTooLong,
    /// Some byte of the line, comments included, is neither a tab nor printable ASCII.
    NotAscii,
    /// The line is not in the grammar. The number is a column, in bytes from 1: that of the first token such that no line of
    /// the grammar begins with the tokens up to and including it, or one past the last token where the line ends too early. A
    /// number out of range after `code -` is reported at the `-`.
    Syntax(u32),
}

impl fmt::Display for TextFault {
    ghost use Rattle.std.specs.Prelude.{Some};
    ghost use Rattle.mf_text.specs.Names.{text_fault_text};

    ghost output = { λ fault. Some (text_fault_text fault) };

    fn fmt<W: fmt::Write>(&self, f: &mut fmt::Formatter<W>) -> fmt::Result {
        match self {
            TextFault::Cycle(fault) => write!(f, "{fault}"),
            TextFault::BadWeight => write!(f, "{BadWeight}"),
            TextFault::BadCull => write!(f, "{BadCull}"),
            TextFault::BadScale => write!(f, "{BadScale}"),
            TextFault::BadTurn => write!(f, "{BadTurn}"),
            TextFault::OutOfMemory => write!(f, "{OutOfMemory}"),
            TextFault::LineTooLong => write!(f, "LineTooLong"),
            TextFault::NotAscii => write!(f, "NotAscii"),
            TextFault::Syntax(column) => write!(f, "Syntax {column}"),
        }
    }
}

impl Error for TextFault {}

/// Where a line goes wrong: the column, in bytes from 1, that `Syntax` reports.
#[derive(Clone, Copy)]
pub(crate) struct SyntaxFault {
    pub(crate) column: u32,
}

impl From<SyntaxFault> for TextFault {
    ghost use Rattle.std.specs.Prelude.{◌≡◌};
    ghost use Rattle.mf_text.specs.declared.fault.TextFault.TheVariants.{Syntax};

    ghost from_gives = { λ fault text. text ≡ Syntax fault.column };

    fn from(fault: SyntaxFault) -> TextFault {
        TextFault::Syntax(fault.column)
    }
}

impl From<OutOfMemory> for TextFault {
    ghost use Rattle.std.specs.Prelude.{◌≡◌};
    ghost use Rattle.mf_text.specs.declared.fault.TextFault.TheVariants.{OutOfMemory};

    ghost from_gives = { λ _ fault. fault ≡ OutOfMemory };

    fn from(_fault: OutOfMemory) -> TextFault {
        TextFault::OutOfMemory
    }
}
