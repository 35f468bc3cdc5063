//! The words of the command line of the program that draws.
#![tactic(auto)]

mod options;
mod texts;
mod words;

pub use texts::{HELP, USAGE, VERSION};
pub use words::{Request, Words, read_words};
