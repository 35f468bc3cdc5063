//! Images of pictures, as files have them: SVG and PGM.
#![tactic(auto)]

mod bounds;
mod fault;
pub mod laws;
mod pgm_image;
mod svg_image;

pub use fault::ImageFault;
pub use pgm_image::pgm;
pub use svg_image::svg;
