//! Why a picture has no grid text.
use mf_base::OutOfMemory;
use std::error::Error;
use std::fmt;

/// The refusals of a grid text.
#[derive(Clone, Copy, Debug, PartialEq, Eq)]
pub enum GridFault {
    /// The least box is wider or higher than 128 pixels.
    ProofTooLarge,
    /// An allocation failed. This never comes instead of `ProofTooLarge`.
    OutOfMemory,
}

impl fmt::Display for GridFault {
    ghost use Rattle.std.specs.Prelude.{Some};
    ghost use Rattle.mf_text_show.specs.Names.{grid_fault_text};

    ghost output = { λ fault. Some (grid_fault_text fault) };

    fn fmt<W: fmt::Write>(&self, f: &mut fmt::Formatter<W>) -> fmt::Result {
        match self {
            GridFault::ProofTooLarge => write!(f, "ProofTooLarge"),
            GridFault::OutOfMemory => write!(f, "{OutOfMemory}"),
        }
    }
}

impl Error for GridFault {}

impl From<OutOfMemory> for GridFault {
    ghost use Rattle.std.specs.Prelude.{◌≡◌};
    ghost use Rattle.mf_text_show.specs.declared.fault.GridFault.TheVariants.{OutOfMemory};

    ghost from_gives = { λ _ fault. fault ≡ OutOfMemory };

    fn from(_fault: OutOfMemory) -> GridFault {
        GridFault::OutOfMemory
    }
}
