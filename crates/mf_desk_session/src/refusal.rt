//! Refusals, as the transcript prints them.
ghost use Rattle.std.specs.Prelude.{◌≡◌, IfOk};
ghost use Rattle.mf_desk_session.specs.Refusals.{refusal_line};

use mf_base::OutOfMemory;
use mf_gf::GfFault;
use mf_live::Fault;
use mf_text::TextFault;
use mf_text_show::GridFault;
use std::alloc::Global;
use std::fmt;

/// Why a command is refused.
#[derive(Clone, Copy)]
pub enum Refusal {
    /// The line gives no command: `LineTooLong`, `NotAscii`, `Syntax`, `TooFewPoints`, `TooManyPoints`, `PointOutOfRange`,
    /// `NotRectilinear`, `BadWeight`, `BadCull`, `BadScale` or `BadTurn`.
    Line(TextFault),
    /// The operation is refused: `TooManyOperations`, `Backtracks`, `TurningZero`, `OutOfField` or `WeightTooLarge`.
    Operation(Fault),
    /// The preamble and the characters would have more bytes than the font file may have.
    FileTooLong,
    /// The box of the grid text would be more than 128 pixels wide or high.
    ProofTooLarge,
}

impl fmt::Display for Refusal {
    ghost use Rattle.std.specs.Prelude.{Some};
    ghost use Rattle.mf_desk_session.specs.Refusals.{refusal_text};

    ghost output = { λ refusal. Some (refusal_text refusal) };

    fn fmt<W: fmt::Write>(&self, f: &mut fmt::Formatter<W>) -> fmt::Result {
        match self {
            Refusal::Line(fault) => write!(f, "{fault}"),
            Refusal::Operation(fault) => write!(f, "{fault}"),
            Refusal::FileTooLong => write!(f, "{}", GfFault::FileTooLong),
            Refusal::ProofTooLarge => write!(f, "{}", GridFault::ProofTooLarge),
        }
    }
}

/// The line that reports a refusal.
pub fn refusal_line(alloc: Global, refusal: Refusal) -> Result<Vec<u8>, OutOfMemory>
    ensures { IfOk result (λ text. text.items ≡ refusal_line refusal) }
{
    Ok(format!(in alloc; "refused {refusal}\n")?.into_bytes())
}
