//! Operations that change pictures: filling contours, adding and subtracting pictures, culling, clearing, shifting, scaling and
//! turning. `apply` performs an operation on a picture, and `after` returns the picture after it.
//!
//! The columns and rows of pixels are -4095..=4094, and their weights are in -32767..=32767. An operation that would leave these
//! ranges is refused, and then nothing changes.
#![tactic(auto)]

mod add;
mod cull;
mod fill;
pub mod laws;
mod op;
mod quarter;
mod scale;
mod transform;
mod weight;

pub use cull::{BadCull, Cull};
pub use mf_base::OutOfMemory;
pub use mf_geom::Check;
pub use mf_rows::Sign;
pub use op::{Op, OpFault, after, apply};
pub use quarter::{BadTurn, Quarter};
pub use scale::{BadScale, Scale};
pub use weight::{BadWeight, Weight};
