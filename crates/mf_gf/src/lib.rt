//! GF files, METAFONT's generic fonts: characters of black pixels, by code (The METAFONTbook, Appendix G). `GfFile::new` begins a
//! file, `ship` adds a character, and `finish` gives the bytes of the complete file.
#![tactic(auto)]

mod boxes;
mod character;
mod fault;
mod file;
mod finished;
pub mod laws;
mod locator;
mod locators;
mod rows;
mod spelling;
mod strokes;

pub use fault::{GfFault, WriteFault};
pub use file::{FontWords, GfFile};
pub use finished::GfBytes;
