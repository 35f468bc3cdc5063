//! The maximal runs of a picture, one after another.
ghost use Rattle.mf_rows.specs.Weights.{picture_of};
ghost use Rattle.mf_rows_strips.specs.PileWeights.{weight_in_pile};

use crate::run::Run;
use crate::walk::Walk;
use mf_rows_strips::Pile;
use std::marker::Model;

/// An iterator over the maximal runs of a picture: rows from the top down, columns from left to right. To callers it is
/// the list of the runs that are still to come. It walks the edges once, and allocates nothing.
#[derive(Drop)]
pub struct Runs<'a> {
    walk: Walk<'a>,
}

impl<'a> Model for Runs<'a> {
    ghost use Rattle.std.specs.Prelude.{List};
    ghost use Rattle.mf_rows.specs.declared.run.Run.{Run};

    ghost Value = { List Run };

    ghost use Rattle.mf_rows.specs.Remaining.{remaining_runs};

    ghost view = { λ runs. remaining_runs runs.walk };
}

impl<'a> Runs<'a> {
    ghost use Rattle.std.specs.Prelude.{◌≡◌};
    ghost use Rattle.mf_rows.specs.Runs.{runs_of};

    /// The runs of the picture of a pile.
    pub(crate) fn of(pile: &'a Pile) -> Runs<'a>
        ensures { result ≡ runs_of (picture_of (weight_in_pile pile.now)) }
    {
        Runs {
            walk: Walk::of(pile),
        }
    }
}

impl Iterator for Runs<'_> {
    type Item = Run;

    ghost use Rattle.std.specs.Iterator.{YieldsFirst, item_count};

    ghost next_gives = { YieldsFirst (λ runs. runs) };

    ghost remaining = { item_count (λ runs. runs) };

    #[inline(always)]
    fn next(&mut self) -> Option<Run> {
        self.walk.next()
    }
}
