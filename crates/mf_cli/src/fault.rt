//! Why the program ends with a fault.
ghost use Rattle.std.specs.Prelude.{◌≡◌};
ghost use Rattle.mf_cli.specs.declared.fault.ProgramFault.TheVariants.{Run as RunEnded};

use mf_desk::RunFault;

/// Why the program ends with a fault, other than that its command line is refused.
#[derive(Clone, Copy, Debug, PartialEq, Eq)]
pub enum ProgramFault {
    /// The run of the script failed, or memory for it or for the command line was missing, or the font file could not be written. The
    /// number of a `WriteFault` of the font file is less than that of its bytes.
    Run(RunFault),
    /// A font file was asked for, but no character was shipped.
    NoCharacters,
}

impl From<RunFault> for ProgramFault {
    ghost from_gives = { λ cause fault. fault ≡ RunEnded cause };

    fn from(cause: RunFault) -> ProgramFault {
        ProgramFault::Run(cause)
    }
}
