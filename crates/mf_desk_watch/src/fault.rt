//! Why viewers cannot be started.
ghost use Rattle.std.specs.Prelude.{◌≡◌};
ghost use Rattle.mf_desk_watch.specs.declared.fault.StartFault.TheVariants.{OutOfMemory as NoMemory, NoPlace as NoPlaceLeft};

use mf_base::OutOfMemory;
use mf_live::NoPlace;
use std::alloc::{AllocError, AllocFailed};

/// Why viewers cannot be started.
#[derive(Clone, Copy, Debug, PartialEq, Eq)]
pub enum StartFault {
    /// An allocation failed.
    OutOfMemory,
    /// There was no place or no thread for a viewer, or the gate could not be shared with it.
    NoPlace,
}

impl From<OutOfMemory> for StartFault {
    ghost from_gives = { λ _ fault. fault ≡ NoMemory };

    fn from(_fault: OutOfMemory) -> StartFault {
        StartFault::OutOfMemory
    }
}

impl From<AllocError> for StartFault {
    ghost from_gives = { λ _ fault. fault ≡ NoMemory };

    fn from(_fault: AllocError) -> StartFault {
        StartFault::OutOfMemory
    }
}

impl<T: Drop> From<AllocFailed<T>> for StartFault {
    ghost from_gives = { λ _ fault. fault ≡ NoMemory };

    fn from(_fault: AllocFailed<T>) -> StartFault {
        StartFault::OutOfMemory
    }
}

impl From<NoPlace> for StartFault {
    ghost from_gives = { λ _ fault. fault ≡ NoPlaceLeft };

    fn from(_fault: NoPlace) -> StartFault {
        StartFault::NoPlace
    }
}
