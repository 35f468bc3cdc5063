//! A picture drawn as a frame of characters.
#![tactic(auto)]

mod canvas;
mod cells;
mod frame;
pub mod laws;
mod shade;
mod tile;
mod window;

pub use canvas::{Canvas, TooSmall};
pub use frame::draw;
pub use tile::Style;
