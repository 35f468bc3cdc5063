//! The program `mfview` apart from its `main`: a script is performed while its picture is drawn, with the words of its command
//! line, its statuses and its messages.
#![tactic(auto)]

mod easel;
mod fault;
mod font;
mod observer;
mod pace;
mod page;
mod page_text;
mod performance;
mod plate;
pub mod program;

pub use fault::ProgramFault;
pub use font::font_words;
pub use pace::Pace;
pub use performance::{Showing, perform};
pub use plate::PlateFolder;
