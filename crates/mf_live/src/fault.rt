//! Why operations are not accepted.
use mf_ops::OpFault;
use std::error::Error;
use std::fmt;

/// Why an operation is not accepted.
#[derive(Clone, Copy, Debug, PartialEq, Eq)]
pub enum Fault {
    /// The picture has already accepted as many operations as it may have.
    TooManyOperations,
    /// The operation is refused on the working picture: with `Backtracks`, `TurningZero`, `OutOfField`, `WeightTooLarge` or
    /// `OutOfMemory`.
    Refused(OpFault),
}

impl fmt::Display for Fault {
    ghost use Rattle.std.specs.Prelude.{Some};
    ghost use Rattle.mf_live.specs.Names.{writer_fault_text};

    ghost output = { λ fault. Some (writer_fault_text fault) };

    fn fmt<W: fmt::Write>(&self, f: &mut fmt::Formatter<W>) -> fmt::Result {
        match self {
            Fault::TooManyOperations => write!(f, "TooManyOperations"),
            Fault::Refused(fault) => write!(f, "{fault}"),
        }
    }
}

impl Error for Fault {}
