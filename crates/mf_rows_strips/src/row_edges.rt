//! The edges of a row of a pile, from left to right.
use crate::part_edges::PartEdges;
use crate::pile::{MAX_PARTS, Pile};

mod passing;

/// The edges of a row of a pile that are still to come. Parts may have edges in the same column: these are one edge, or none where their
/// sum is 0.
#[derive(Debug, Drop)]
pub struct RowEdges<'a> {
    pile: &'a Pile,
    /// Those of each part, and others that are not used.
    edges: [PartEdges<'a>; MAX_PARTS],
}
