//! What every layer needs: failed allocations, and writing.
#![tactic(auto)]

mod memory;
mod output;

pub use memory::OutOfMemory;
pub use output::{write_counted, write_text};
