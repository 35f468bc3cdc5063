//! Strips, which lists of strips lend.
ghost use Rattle.mf_rows_strips.specs.Heads.{AreHeads, AreHeads-prop};

use mf_rows_edges::Edge;

mod reading;

pub(crate) use reading::strip_of_head;

/// What a list keeps of a strip: the height below which its rows begin, in pixels, and which edges of the list are its own: `count` of
/// them, from index `start` on.
#[derive(Clone, Copy, Debug)]
pub(crate) struct Head {
    pub(crate) top: i16,
    pub(crate) count: u16,
    pub(crate) start: u32,
}

/// One or more equal rows: those below the height `top`, in pixels, down to the next strip's.
#[derive(Clone, Copy, Debug)]
pub struct Strip<'a> {
    pub top: i32,
    pub edges: &'a [Edge],
}

/// Strips from the top down.
#[derive(Clone, Copy, Debug)]
pub struct Strips<'a> {
    pub(crate) heads: &'a [Head],
    pub(crate) edges: &'a [Edge],
    ghost placed: { AreHeads edges.now heads.now } by { AreHeads-prop edges.now heads.now },
}
