//! The texts of pictures: run texts and grid texts.
#![tactic(auto)]

mod fault;
mod grid;
pub mod laws;
mod number;
mod run_text;

pub use fault::GridFault;
pub use grid::proof_grid;
pub use number::push_number;
pub use run_text::show_runs;
