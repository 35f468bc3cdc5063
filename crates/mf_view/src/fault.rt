//! Why the program ends with a fault.
ghost use Rattle.std.specs.Prelude.{◌≡◌};
ghost use Rattle.mf_desk.specs.declared.fault.RunFault.TheVariants.{OutOfMemory as NoMemory};
ghost use Rattle.mf_view.specs.declared.fault.ProgramFault.TheVariants.{Run as RunEnded, TooSmall as NoRoom};

use mf_desk::{RunFault, Stopped};
use mf_view_frame::TooSmall;
use std::alloc::AllocError;

/// Why the program ends with a fault, other than that its words are refused. What was written before it stays.
#[derive(Clone, Copy, Debug, PartialEq, Eq)]
pub enum ProgramFault {
    /// The run of the script or its drawing failed, memory for the words or a plate was missing, or the help text, the version or the
    /// font file could not be written.
    Run(RunFault),
    /// The terminal has fewer than 50 columns or fewer than 6 rows.
    TooSmall,
    /// The picture of this revision, or a character that was shipped then, is too large for an image.
    ImageTooLarge(u32),
    /// An image of this revision, or of a character that was shipped then, or the page could not be created or written.
    PlateFault(u32),
    /// A font file was asked for, but no character was shipped.
    NoCharacters,
}

impl From<RunFault> for ProgramFault {
    ghost from_gives = { λ cause fault. fault ≡ RunEnded cause };

    fn from(cause: RunFault) -> ProgramFault {
        ProgramFault::Run(cause)
    }
}

impl From<AllocError> for ProgramFault {
    ghost from_gives = { λ _ fault. fault ≡ RunEnded NoMemory };

    fn from(_fault: AllocError) -> ProgramFault {
        ProgramFault::Run(RunFault::OutOfMemory)
    }
}

impl From<TooSmall> for ProgramFault {
    ghost from_gives = { λ _ fault. fault ≡ NoRoom };

    fn from(_fault: TooSmall) -> ProgramFault {
        ProgramFault::TooSmall
    }
}

impl From<Stopped<ProgramFault>> for ProgramFault {
    ghost use Rattle.mf_view.specs.Performances.{fault_of_stop};

    ghost from_gives = { λ stopped fault. fault ≡ fault_of_stop stopped };

    fn from(stopped: Stopped<ProgramFault>) -> ProgramFault {
        match stopped {
            Stopped::Run(cause) => ProgramFault::Run(cause),
            Stopped::Observer(fault) => fault,
        }
    }
}
