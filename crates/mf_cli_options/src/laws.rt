//! A law of the programs. It is the contract of a function that does nothing, because the toolchain proves a statement only where
//! the contract of a function names it.
ghost use Rattle.std.specs.Prelude.{◌≡◌};

use crate::statuses::{BAD_WORDS, DONE, RESOURCE_FAULT, STREAM_FAULT};

/// The exit statuses are these numbers.
pub fn statuses_are_these()
    ensures done { DONE ≡ 0 }
    ensures bad_words { BAD_WORDS ≡ 2 }
    ensures stream_fault { STREAM_FAULT ≡ 3 }
    ensures resource_fault { RESOURCE_FAULT ≡ 4 }
{}
