//! Viewers of a live picture, each in a thread of its own, which keep a record of what they see.
#![tactic(auto)]

mod fault;
mod gate;
mod glance;
mod watcher;
mod watching;

pub use fault::StartFault;
pub use gate::{Gate, OpenGate};
pub use glance::Glance;
pub use watcher::Watcher;
pub use watching::Watching;
