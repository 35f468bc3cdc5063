//! The command language of pictures: which commands the lines of a script give. And the texts of pictures, which `mf_text_show` makes.
#![tactic(auto)]

mod code;
mod command;
mod fault;
mod int;
pub mod laws;
mod lines;
mod pair;
mod path;
mod phrases;
mod text;
mod token;
mod tokens;
mod value;

pub use command::{Command, Name, Source};
pub use fault::TextFault;
pub use lines::read_command;
pub use mf_base::OutOfMemory;
pub use mf_geom::Check;
pub use mf_text_show::{GridFault, proof_grid, show_runs};
