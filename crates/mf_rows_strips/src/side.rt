//! One of two lists of strips that are added up.
use crate::strips::Strips;
use mf_rows_edges::Edge;

mod passing;

pub(crate) use passing::pass_height;

/// The strips of a list that are still to be passed, and the row above them.
#[derive(Clone, Copy, Debug)]
pub(crate) struct Side<'a> {
    pub(crate) row: &'a [Edge],
    pub(crate) strips: Strips<'a>,
}
