//! METAFONT pictures: an integer weight for each pixel, 0 for all but finitely many.
#![tactic(auto)]

mod black_rows;
mod bounds;
mod builder;
pub mod laws;
mod picture;
mod row_sum;
mod run;
mod runs;
mod sign;
mod walk;

pub use black_rows::BlackRows;
pub use bounds::{Box4, extent};
pub use builder::RowBuilder;
pub use mf_base::OutOfMemory;
pub use mf_rows_strips::{AddFault, Corner};
pub use picture::Picture;
pub use run::Run;
pub use runs::Runs;
pub use sign::Sign;
