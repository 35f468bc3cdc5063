//! The live picture: one writer changes it while viewers, in any threads, look at it. A viewer waits for nobody, never sees half
//! a publish, and never goes back in time.
#![tactic(auto)]

mod book;
mod closing;
mod desk;
mod event;
mod fault;
mod history;
mod holder;
pub mod laws;
mod look;
mod notice;
mod rule;
mod sheet;
#[cfg(test)]
mod tests;
mod version;
mod view;
mod viewer;
mod writer;

pub use closing::{CloseFault, Closing, Ended};
pub use desk::{Desk, NoPlace, open_picture};
pub use fault::Fault;
pub use look::{Look, NoLook};
pub use mf_base::OutOfMemory;
pub use notice::Notice;
pub use sheet::{Sheet, SheetFault};
pub use viewer::Viewer;
pub use writer::Writer;
