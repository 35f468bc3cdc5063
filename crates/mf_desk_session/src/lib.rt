//! Sessions of picture commands. A session performs lines on the live picture and its registers, answers with what they print,
//! and keeps the font file of the characters that they ship.
#![tactic(auto)]

pub mod laws;
mod limits;
mod refusal;
mod registers;
mod session;
mod variables;

pub use limits::{MAX_BYTES, MAX_OPS};
pub use session::{EndFault, Session};
