//! Sheets: snapshots of what looks have shown.
ghost use Rattle.std.specs.Prelude.{◌≡◌};
ghost use Rattle.mf_live.specs.Entries.{picture_at};
ghost use Rattle.mf_live.specs.Viewers.{told_list};

use crate::notice::Notice;
use mf_base::OutOfMemory;
use mf_rows::Picture;
use std::error::Error;
use std::fmt;

mod taking;

/// A snapshot of what a look has shown. It stays as it is, whatever is published later. It may share rows with the live picture.
#[derive(Drop)]
pub struct Sheet {
    pub(crate) picture: Picture,
    pub(crate) notice: Notice,
    ghost pictured: { picture ≡ picture_at (told_list notice) },
}

/// Why there is no sheet.
#[derive(Clone, Copy, Debug, PartialEq, Eq)]
pub enum SheetFault {
    /// The look was not answered.
    NoLook,
    /// An allocation failed. The viewer has looked all the same.
    OutOfMemory,
}

impl fmt::Display for SheetFault {
    ghost use Rattle.std.specs.Prelude.{Some};
    ghost use Rattle.mf_live.specs.Names.{sheet_fault_text};

    ghost output = { λ fault. Some (sheet_fault_text fault) };

    fn fmt<W: fmt::Write>(&self, f: &mut fmt::Formatter<W>) -> fmt::Result {
        match self {
            SheetFault::NoLook => write!(f, "NoLook"),
            SheetFault::OutOfMemory => write!(f, "{OutOfMemory}"),
        }
    }
}

impl Error for SheetFault {}
