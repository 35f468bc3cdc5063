//! Passing strips from the top down.
ghost use Rattle.std.specs.Prelude.{◌≡◌, [], IfNone, IfSome};
ghost use Rattle.mf_rows_strips.specs.Parts.{strips_of, HasPassed, HavePassed};
ghost use Rattle.mf_rows_strips.specs.Sums.{IsFrom};

use super::Side;
use crate::strips::Strips;

impl<'a> Side<'a> {
    /// A list none of whose strips was passed.
    pub(crate) fn of(strips: Strips<'a>) -> Side<'a>
        ensures row { result.row.now ≡ [] }
        ensures strips { strips_of result.strips ≡ strips_of strips.entry }
    {
        Side { row: &[], strips }
    }

    /// Passes the strip that begins at this height, where there is one. Requires that none begins above it.
    fn pass(&mut self, top: i32)
        requires { IsFrom (strips_of self.old.strips) top }
        ensures { HasPassed top self.old self.new }
    {
        let Some((strip, strips)) = self.strips.split_first() else {
            return;
        };
        if strip.top == top {
            self.row = strip.edges;
            self.strips = strips;
        }
    }
}

/// Passes the strips of two lists that begin at the next height, and answers that; `None` where no strip is left.
pub(crate) fn pass_height(left: &mut Side<'_>, right: &mut Side<'_>) -> Option<i32>
    ensures some { IfSome result (λ top. HavePassed top left.old left.new right.old right.new) }
    ensures none { IfNone result
        ((strips_of left.old.strips ≡ []) × (strips_of right.old.strips ≡ [])) }
{
    let top = left.strips.top().max(right.strips.top())?;
    left.pass(top);
    right.pass(top);
    Some(top)
}
