//! Why the words of a command line are refused.
ghost use Rattle.std.specs.Prelude.{◌≡◌};
ghost use Rattle.clap.specs.Words.{kind_of};
ghost use Rattle.mf_cli_options.specs.Faults.{words_fault};
ghost use Rattle.mf_cli_options.specs.declared.fault.WordsFault.TheVariants.{OutOfMemory as NoMemory};

use clap::error::ErrorKind;
use std::alloc::AllocError;

/// Why the words of the command line are refused.
#[derive(Clone, Copy, Debug, PartialEq, Eq)]
pub enum WordsFault {
    /// The words are not a command line of the program.
    BadWords,
    /// An allocation failed. This may come instead of `BadWords`.
    OutOfMemory,
}

impl From<AllocError> for WordsFault {
    ghost from_gives = { λ _ fault. fault ≡ NoMemory };

    fn from(_fault: AllocError) -> WordsFault {
        WordsFault::OutOfMemory
    }
}

impl From<clap::Error> for WordsFault {
    ghost from_gives = { λ error fault. fault ≡ words_fault (kind_of error) };

    fn from(error: clap::Error) -> WordsFault {
        match error.kind() {
            ErrorKind::OutOfMemory => WordsFault::OutOfMemory,
            _ => WordsFault::BadWords,
        }
    }
}
