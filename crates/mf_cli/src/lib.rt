//! The program `mfpic` apart from its `main`: its run, its statuses and its messages, and the words of its command line.
#![tactic(auto)]

mod fault;
mod run;
mod words;

pub use fault::ProgramFault;
pub use mf_cli_options::WordsFault;
pub use run::{program, report};
pub use words::{USAGE, Words, read_words};
