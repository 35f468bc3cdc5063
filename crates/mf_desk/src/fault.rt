//! The faults that end a run.
ghost use Rattle.std.specs.Prelude.{◌≡◌};
ghost use Rattle.mf_desk.specs.Names.{is_of_stream, run_fault_text};
ghost use Rattle.mf_desk.specs.declared.fault.RunFault.TheVariants.{OutOfMemory as NoMemory, NoPlace as NoPlaceLeft, NoLook as NothingSeen};

use mf_base::OutOfMemory;
use mf_desk_watch::StartFault;
use mf_live::SheetFault;
use std::alloc::{AllocError, AllocFailed};
use std::error::Error;
use std::fmt;

/// Why a run did not end well. Its message is its name.
#[derive(Clone, Copy, Debug, PartialEq, Eq)]
pub enum RunFault {
    /// An allocation failed. The writer has got the texts of the first lines and, if it has got the complete transcript, the
    /// lines of none or of all viewers. No text and no line is cut.
    OutOfMemory,
    /// There was no place or no thread for a viewer, or the gate could not be shared with it. Nothing was read or written.
    NoPlace,
    /// The font file of the shipped characters would have more bytes than it may have: the writer has got the complete transcript
    /// and the line of each viewer. Or the limit is below the 3 bytes of the shortest preamble: nothing was read or written.
    FileTooLong,
    /// The reader answered with an error, or 1,048,576 reads did not reach the end of the script. A read that was interrupted is one of
    /// these and is tried again. The writer has got exactly the texts of the lines that a line feed ended.
    ReadFault,
    /// The writer answered with an error, also where it was flushed, or took no byte. A write that was interrupted is tried again. The
    /// number counts the bytes that the writer took in this run. These bytes are a prefix of the transcript and the lines of the
    /// viewers, maybe all of them.
    WriteFault(u128),
    /// A look was refused. The writer has got the complete transcript, and no line of a viewer.
    NoLook,
}

impl RunFault {
    /// The name of the fault.
    pub fn name(self) -> &'static str
        ensures { result.now ≡ run_fault_text self }
    {
        match self {
            RunFault::OutOfMemory => "OutOfMemory",
            RunFault::NoPlace => "NoPlace",
            RunFault::FileTooLong => "FileTooLong",
            RunFault::ReadFault => "ReadFault",
            RunFault::WriteFault(_) => "WriteFault",
            RunFault::NoLook => "NoLook",
        }
    }

    /// Whether a stream or a file failed, where otherwise memory, a place or a look was missing.
    pub fn is_of_stream(self) -> bool
        ensures { result ≡ is_of_stream self }
    {
        match self {
            RunFault::FileTooLong | RunFault::ReadFault | RunFault::WriteFault(_) => true,
            RunFault::OutOfMemory | RunFault::NoPlace | RunFault::NoLook => false,
        }
    }
}

impl fmt::Display for RunFault {
    ghost use Rattle.std.specs.Prelude.{Some};

    ghost output = { λ fault. Some (run_fault_text fault) };

    fn fmt<W: fmt::Write>(&self, f: &mut fmt::Formatter<W>) -> fmt::Result {
        f.write_str(self.name())
    }
}

impl Error for RunFault {}

impl From<OutOfMemory> for RunFault {
    ghost from_gives = { λ _ fault. fault ≡ NoMemory };

    fn from(_fault: OutOfMemory) -> RunFault {
        RunFault::OutOfMemory
    }
}

impl From<AllocError> for RunFault {
    ghost from_gives = { λ _ fault. fault ≡ NoMemory };

    fn from(_fault: AllocError) -> RunFault {
        RunFault::OutOfMemory
    }
}

impl<T: Drop> From<AllocFailed<T>> for RunFault {
    ghost from_gives = { λ _ fault. fault ≡ NoMemory };

    fn from(_fault: AllocFailed<T>) -> RunFault {
        RunFault::OutOfMemory
    }
}

impl From<StartFault> for RunFault {
    ghost use Rattle.mf_desk_watch.specs.declared.fault.StartFault.TheVariants as starts;

    ghost from_gives = { λ start fault. (start ≡ starts.OutOfMemory → fault ≡ NoMemory) × (start ≡ starts.NoPlace → fault ≡ NoPlaceLeft) };

    fn from(fault: StartFault) -> RunFault {
        match fault {
            StartFault::OutOfMemory => RunFault::OutOfMemory,
            StartFault::NoPlace => RunFault::NoPlace,
        }
    }
}

impl From<SheetFault> for RunFault {
    ghost use Rattle.mf_live.specs.declared.sheet.SheetFault.TheVariants as sheets;

    ghost from_gives = { λ sheet fault. (sheet ≡ sheets.OutOfMemory → fault ≡ NoMemory) × (sheet ≡ sheets.NoLook → fault ≡ NothingSeen) };

    fn from(fault: SheetFault) -> RunFault {
        match fault {
            SheetFault::NoLook => RunFault::NoLook,
            SheetFault::OutOfMemory => RunFault::OutOfMemory,
        }
    }
}
