//! Equal rows of a list of strips.
use mf_rows_edges::Edge;

mod finding;

/// Equal rows of a list of strips, the lowest of which is row `bottom`.
#[derive(Clone, Copy, Debug)]
pub(crate) struct EqualRows<'a> {
    pub(crate) bottom: i32,
    pub(crate) edges: &'a [Edge],
}
