//! Lists of strips, and piles of them. A strip is one or more equal rows of edges.
#![tactic(auto)]

mod corner;
mod equal_rows;
mod fault;
mod mapping;
mod moves;
mod negation;
mod part;
mod part_edges;
mod pile;
mod row_edges;
mod side;
mod strips;
mod sum;
mod turn;
mod writer;

pub use corner::{Corner, part_of_corners};
pub use fault::AddFault;
pub use mapping::mapped;
pub use moves::{mirrored_columns, mirrored_rows, stretched};
pub use negation::negated;
pub use part::Part;
pub use pile::{MAX_PARTS, Pile};
pub use row_edges::RowEdges;
pub use strips::{Strip, Strips};
pub use sum::sum_of_parts;
pub use turn::turned;
