//! What is read off a part.
ghost use Rattle.std.specs.Prelude.{◌≡◌};
ghost use Rattle.mf_rows_strips.specs.Heads.{AreHeads, strips_at};
ghost use Rattle.mf_rows_strips.specs.Parts.{strips_in, strips_of};
ghost use Rattle.mf_rows_strips.specs.Strips.{AreStrips};

use super::Part;
use crate::strips::{Head, Strips};
use mf_rows_edges::Edge;

impl Part {
    /// The part of these strips.
    pub(crate) fn of(heads: Vec<Head>, edges: Vec<Edge>, reach: i32) -> Part
        requires placed { AreHeads edges.items heads.items }
        requires lawful { AreStrips reach (strips_at edges.items heads.items) }
        ensures strips { strips_in result ≡ strips_at edges.items heads.items }
        ensures reach { result.reach ≡ reach }
    {
        Part {
            heads,
            edges,
            reach,
        }
    }

    /// Its strips, from the top down.
    pub fn strips(&self) -> Strips<'_>
        ensures { strips_of result ≡ strips_in self.now }
    {
        Strips {
            heads: &self.heads,
            edges: &self.edges,
        }
    }

    /// A number in 0..=32767, which no weight exceeds in absolute value.
    pub fn reach(&self) -> i32
        ensures { result ≡ self.now.reach }
    {
        self.reach
    }

    /// How many strips and edges it has.
    pub fn size(&self) -> usize {
        self.heads.len().saturating_add(self.edges.len())
    }
}
