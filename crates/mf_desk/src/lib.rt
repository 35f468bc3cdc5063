//! Runs of scripts: a script is read line by line, a session performs the lines, and viewers look on in threads.
#![tactic(auto)]

mod ended_run;
mod fault;
mod line_buffer;
mod observer;
mod outcome;
mod output;
mod performance;
mod performer;
mod progress;
mod script;
mod settings;

pub use ended_run::EndedRun;
pub use fault::RunFault;
pub use mf_base::OutOfMemory;
pub use mf_desk_session::{EndFault, Session};
pub use mf_desk_watch::{Gate, Glance, OpenGate};
pub use observer::{Effect, Observer, PerformedLine, Shipment, Stopped};
pub use outcome::Outcome;
pub use output::write_font;
pub use performance::perform;
pub use progress::Progress;
pub use script::run;
pub use settings::Settings;
