//! The locators of a file.
ghost use Rattle.std.specs.Prelude.{◌≡◌, length};
ghost use Rattle.mf_gf.specs.Numbers.{code_count};

use crate::locator::Locator;

mod entries;

/// The number of codes.
const CODES: usize = 256;

/// The locator of the last character with each code, for the end of a file. A file keeps these and not its characters, so
/// spelling them costs the same however many characters were shipped.
#[derive(Drop)]
pub(crate) struct Locators {
    /// The locator of each code, at the code as index; `None` where no character with it was shipped.
    by_code: Vec<Option<Locator>>,
    ghost all: { length by_code.items ≡ code_count },
}
