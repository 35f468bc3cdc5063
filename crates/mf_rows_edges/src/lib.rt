//! The edges of a row of a METAFONT picture: the columns at which its weights change.
#![tactic(auto)]

mod edge;
mod edge_sum;
mod field;
mod stretch;
mod weight_map;

pub use edge::{Edge, push_unless_zero, reach_of, weight_at_column};
pub use edge_sum::push_sum_of_edges;
pub use field::{FIELD_END, FIELD_START, MAX_WEIGHT, is_lawful_weight};
pub use stretch::Stretch;
pub use weight_map::{WeightMap, push_mapped_edges};
