//! Command lines of options `--NAME N`, `--NAME FILE` and `--NAME`, which clap reads, and the exit statuses of both programs.
#![tactic(auto)]

mod command;
mod fault;
pub mod laws;
mod statuses;
mod values;
mod words;

pub use command::{find_matches, new_command, with_file, with_flag, with_number};
pub use fault::WordsFault;
pub use statuses::{BAD_WORDS, DONE, RESOURCE_FAULT, STREAM_FAULT, refuse_words, report_fault};
pub use values::{file, flag, number};
pub use words::words_of;
