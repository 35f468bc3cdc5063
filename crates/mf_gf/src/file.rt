//! Files that are being made.
ghost use Rattle.std.specs.Prelude.{◌≤◌, length};
ghost use Rattle.mf_gf.specs.Numbers.{greatest_word};

use crate::boxes::CharacterBox;
use crate::locators::Locators;
use std::alloc::Global;

mod shipping;
mod tail;

/// The identification byte, which says that a file is a GF file (gftype.web).
const GF_ID: u8 = 131;

/// The numbers of a font, which are in the postamble: its design size `ds` in 1/1048576 point, its check sum `cs`, and the pixels
/// per point, horizontally `hppp` and vertically `vppp`, in 1/65536 (gftype.web). They are written as they are.
#[derive(Clone, Copy, Debug, PartialEq, Eq)]
pub struct FontWords {
    pub ds: i32,
    pub cs: u32,
    pub hppp: i32,
    pub vppp: i32,
}

/// A GF file that is being made: its preamble, the characters that were shipped, and what its end will say about them.
#[derive(Drop)]
pub struct GfFile {
    pub(crate) alloc: Global,
    /// The preamble and the characters.
    pub(crate) bytes: Vec<u8>,
    /// The locator of the last character of each code.
    pub(crate) locators: Locators,
    /// The number of characters that were shipped. Each has bytes, so there are no more of them than bytes.
    pub(crate) count: u32,
    /// The least box around the boxes of all characters; `None` where there is none yet.
    pub(crate) bounds: Option<CharacterBox>,
    /// The greatest number of bytes in the finished file.
    pub(crate) max_bytes: u32,
    ghost small: { max_bytes ≤ greatest_word },
    ghost within: { length bytes.items ≤ max_bytes },
    ghost few: { count ≤ length bytes.items },
}
