//! What the tests of several crates share: scripts with their transcripts, readers and writers that work in pieces and fail, lists
//! of texts, and the places where allocations are refused.
#![tactic(auto)]

mod growths;
mod readers;
mod scripts;
mod texts;
mod writers;

pub use growths::{allow_growths, grow_again, refuse_all_growths, refuse_growths};
pub use readers::{LineFeeds, Pieces, Remembers};
pub use scripts::{RECT, RECT_FILE, Script, worked_scripts};
pub use texts::{command_line, count_of_texts, words_of};
pub use writers::{FailsOnce, Failure, FlushFails, Sink};
