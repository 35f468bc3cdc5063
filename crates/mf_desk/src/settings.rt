//! The settings of a run.
use mf_gf::FontWords;

/// The limits of a run, and the numbers of its font.
#[derive(Clone, Copy, Debug, PartialEq, Eq)]
pub struct Settings {
    /// The greatest number of operations that `currentpicture` accepts.
    pub max_ops: u32,
    /// The greatest number of bytes of the font file; more than 2,147,483,647 count as that. With fewer than 3 nothing is run,
    /// since the preamble alone has three bytes.
    pub max_bytes: u32,
    /// The numbers of the font, which the end of its file has.
    pub font: FontWords,
}
