//! Why weights cannot be added.
ghost use Rattle.std.specs.Prelude.{◌≡◌};
ghost use Rattle.mf_rows_strips.specs.declared.fault.AddFault.TheVariants.{OutOfMemory};

use mf_base::OutOfMemory;
use std::alloc::{AllocError, AllocFailed};
use std::error::Error;
use std::fmt;

/// Why weights are not added to a row or a picture.
#[derive(Clone, Copy, Debug, PartialEq, Eq)]
pub enum AddFault {
    /// A weight would exceed 32767 in absolute value.
    WeightTooLarge,
    /// An allocation failed. This may come instead of `WeightTooLarge`.
    OutOfMemory,
}

impl fmt::Display for AddFault {
    ghost use Rattle.std.specs.Prelude.{Some};
    ghost use Rattle.mf_rows_strips.specs.Names.{add_fault_text};

    ghost output = { λ fault. Some (add_fault_text fault) };

    fn fmt<W: fmt::Write>(&self, f: &mut fmt::Formatter<W>) -> fmt::Result {
        match self {
            AddFault::WeightTooLarge => write!(f, "WeightTooLarge"),
            AddFault::OutOfMemory => write!(f, "{OutOfMemory}"),
        }
    }
}

impl Error for AddFault {}

impl From<OutOfMemory> for AddFault {
    ghost from_gives = { λ _ fault. fault ≡ OutOfMemory };

    fn from(_fault: OutOfMemory) -> AddFault {
        AddFault::OutOfMemory
    }
}

impl From<AllocError> for AddFault {
    ghost from_gives = { λ _ fault. fault ≡ OutOfMemory };

    fn from(_fault: AllocError) -> AddFault {
        AddFault::OutOfMemory
    }
}

impl<T: Drop> From<AllocFailed<T>> for AddFault {
    ghost from_gives = { λ _ fault. fault ≡ OutOfMemory };

    fn from(_fault: AllocFailed<T>) -> AddFault {
        AddFault::OutOfMemory
    }
}
