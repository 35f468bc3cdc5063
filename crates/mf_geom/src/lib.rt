//! Cycles, METAFONT's closed paths, here rectilinear ones only, with their turning number and their area.
#![tactic(auto)]

mod check;
mod cycle;
pub mod laws;
mod path;
mod point;
mod segment;

pub use check::Check;
pub use cycle::{Cycle, CycleFault};
pub use mf_base::OutOfMemory;
pub use path::MAX_POINTS;
pub use point::{MAX_COORDINATE, Point};
