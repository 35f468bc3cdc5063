//! Why characters and files are refused, and how writing fails.
ghost use Rattle.std.specs.Prelude.{◌≡◌};
ghost use Rattle.mf_gf.specs.declared.fault.GfFault.TheVariants.{OutOfMemory as NoMemory};

use mf_base::OutOfMemory;
use std::error::Error;
use std::fmt;

/// Why a character or a file is refused.
#[derive(Clone, Copy, Debug, PartialEq, Eq)]
pub enum GfFault {
    /// The file would have more bytes than it may have.
    FileTooLong,
    /// No character was shipped.
    NoCharacters,
    /// The comment has more than 255 bytes.
    CommentTooLong,
    /// An allocation failed. This never comes instead of another refusal, nor instead of the `None` of `finish_if_any`.
    OutOfMemory,
}

impl fmt::Display for GfFault {
    ghost use Rattle.std.specs.Prelude.{Some};
    ghost use Rattle.mf_gf.specs.Names.{gf_fault_text};

    ghost output = { λ fault. Some (gf_fault_text fault) };

    fn fmt<W: fmt::Write>(&self, f: &mut fmt::Formatter<W>) -> fmt::Result {
        match self {
            GfFault::FileTooLong => write!(f, "FileTooLong"),
            GfFault::NoCharacters => write!(f, "NoCharacters"),
            GfFault::CommentTooLong => write!(f, "CommentTooLong"),
            GfFault::OutOfMemory => write!(f, "{OutOfMemory}"),
        }
    }
}

impl Error for GfFault {}

/// A writer failed with an error, or took no byte. The number says how many bytes were written before that.
#[derive(Clone, Copy, Debug, PartialEq, Eq)]
pub struct WriteFault(pub u128);

impl fmt::Display for WriteFault {
    ghost use Rattle.std.specs.Prelude.{Some};
    ghost use Rattle.mf_gf.specs.Names.{write_fault_text};

    ghost output = { λ _. Some write_fault_text };

    fn fmt<W: fmt::Write>(&self, f: &mut fmt::Formatter<W>) -> fmt::Result {
        f.write_str("WriteFault")
    }
}

impl Error for WriteFault {}

impl From<OutOfMemory> for GfFault {
    ghost from_gives = { λ _ fault. fault ≡ NoMemory };

    fn from(_fault: OutOfMemory) -> GfFault {
        GfFault::OutOfMemory
    }
}
