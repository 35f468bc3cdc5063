//! Lists of strips, which are never written once they are made.
ghost use Rattle.mf_rows_strips.specs.Heads.{AreHeads, AreHeads-prop, strips_at};
ghost use Rattle.mf_rows_strips.specs.Strips.{AreStrips, AreStrips-prop};

use crate::strips::Head;
use mf_rows_edges::Edge;

mod reading;

/// A list of strips. The rows above the first one and those of the last one are blank.
#[derive(Debug, Drop)]
pub struct Part {
    pub(crate) heads: Vec<Head>,
    pub(crate) edges: Vec<Edge>,
    /// No weight exceeds it in absolute value. It is in 0..=32767.
    reach: i32,
    ghost placed: { AreHeads edges.items heads.items } by { AreHeads-prop edges.items heads.items },
    ghost lawful: { AreStrips reach (strips_at edges.items heads.items) } by { AreStrips-prop reach (strips_at edges.items heads.items) },
}
