//! Running out of memory.

use std::alloc::{AllocError, AllocFailed};
use std::error::Error;
use std::fmt;

/// An allocation failed. A public call that has changed something by then, or that gives something back, says so in its
/// documentation.
#[derive(Clone, Copy, Debug, PartialEq, Eq)]
pub struct OutOfMemory;

impl fmt::Display for OutOfMemory {
    ghost use Rattle.std.specs.Prelude.{Some};
    ghost use Rattle.mf_base.specs.Names.{memory_text};

    ghost output = { λ _. Some memory_text };

    fn fmt<W: fmt::Write>(&self, f: &mut fmt::Formatter<W>) -> fmt::Result {
        f.write_str("OutOfMemory")
    }
}

impl Error for OutOfMemory {}

impl From<AllocError> for OutOfMemory {
    fn from(_fault: AllocError) -> OutOfMemory {
        OutOfMemory
    }
}

impl<T: Drop> From<AllocFailed<T>> for OutOfMemory {
    fn from(_fault: AllocFailed<T>) -> OutOfMemory {
        OutOfMemory
    }
}
