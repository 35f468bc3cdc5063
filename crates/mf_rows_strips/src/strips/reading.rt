//! The strips of a list one after another, and the row at a height.
ghost use Rattle.std.specs.Prelude.{◌≡◌, ◌≤◌, [], ◌∷◌, IfNone, IfSome, drop, length, take};
ghost use Rattle.mf_rows_strips.specs.Heads.{IsHead, strip_at};
ghost use Rattle.mf_rows_strips.specs.Parts.{edge_strip, first_top, strips_of};
ghost use Rattle.mf_rows_strips.specs.Strips.{last_row};

use super::{Head, Strip, Strips};
use mf_rows_edges::Edge;

impl<'a> Strips<'a> {
    /// No strips.
    pub fn none() -> Strips<'a>
        ensures { strips_of result ≡ [] }
    {
        Strips {
            heads: &[],
            edges: &[],
        }
    }

    /// The height of the first strip, `None` where there is no strip.
    pub fn top(self) -> Option<i32>
        ensures { result ≡ first_top (strips_of self.entry) }
    {
        match self.heads.first() {
            Some(head) => Some(i32::from(head.top)),
            None => None,
        }
    }

    /// The first strip, and those below it.
    pub fn split_first(self) -> Option<(Strip<'a>, Strips<'a>)>
        ensures some { IfSome result (λ split.
            strips_of self.entry ≡ edge_strip split.0 ∷ strips_of split.1) }
        ensures none { IfNone result (strips_of self.entry ≡ []) }
    {
        let (head, heads) = self.heads.split_first()?;
        let strip = strip_of_head(self.edges, head);
        let others = Strips {
            heads,
            edges: self.edges,
        };
        Some((strip, others))
    }

    /// The first strips, as many as are asked for, and those below them.
    pub(crate) fn split_at(self, count: usize) -> (Strips<'a>, Strips<'a>)
        requires { count ≤ length self.heads.now }
        ensures above { strips_of result.0 ≡ take count (strips_of self.entry) }
        ensures below { strips_of result.1 ≡ drop count (strips_of self.entry) }
    {
        let (above, below) = self.heads.split_at(count);
        let edges = self.edges;
        let above = Strips {
            heads: above,
            edges,
        };
        let below = Strips {
            heads: below,
            edges,
        };
        (above, below)
    }

    /// The edges of the last strip, none where there is no strip.
    pub(crate) fn last_row(self) -> &'a [Edge]
        ensures { result.now ≡ last_row (strips_of self.entry) }
    {
        match self.heads.last() {
            Some(head) => strip_of_head(self.edges, head).edges,
            None => &[],
        }
    }
}

/// The strip of a head among these edges.
pub(crate) fn strip_of_head<'a>(edges: &'a [Edge], head: &Head) -> Strip<'a>
    requires { IsHead edges.now head.now }
    ensures { edge_strip result ≡ strip_at edges.now head.now }
{
    let start = head.start as usize;
    Strip {
        top: i32::from(head.top),
        edges: &edges[start..start + usize::from(head.count)],
    }
}
