//! The rows of the black pixels of a picture, one after another.
use crate::run::Run;
use crate::walk::Walk;
use mf_rows_strips::Pile;

/// A reader of the black pixels of a picture, those of positive weight: it is in one row at a time, from the top row of the field down, and
/// gives the runs of black pixels of that row from left to right, each with weight 1. Rows that are known to be equal can be passed in one
/// step. It allocates nothing.
#[derive(Drop)]
pub struct BlackRows<'a> {
    walk: Walk<'a>,
}

#[tactic(auto, using(crate::proofs::BlackRuns::of_black_rows), unfolding(crate::specs::BlackRows::black_in, crate::specs::BlackRows::row_in, crate::specs::BlackRows::runs_in))]
impl<'a> BlackRows<'a> {
    ghost use Rattle.std.specs.Prelude.{◌≡◌, ◌<ℤ◌, ◌-ℤ◌, [], pos, IfSome, IfNone, IsTrue, IsFalse};
    ghost use Rattle.mf_geom.specs.Coordinates.{last_in_field, least_coordinate};
    ghost use Rattle.mf_rows.specs.BlackRows.{black_in, black_weights, row_in, row_runs, runs_in};
    ghost use Rattle.mf_rows.specs.Order.{IsRun};
    ghost use Rattle.mf_rows.specs.Runs.{with_next};
    ghost use Rattle.mf_rows_strips.specs.PileWeights.{weight_in_pile};
    ghost use Rattle.mf_rows_strips.specs.RowEdges.{AreSameRows};

    /// A reader in the top row of the field.
    pub(crate) fn of(pile: &'a Pile) -> BlackRows<'a>
        ensures black { black_in result ≡ black_weights (weight_in_pile pile.now) }
        ensures row { row_in result ≡ last_in_field }
        ensures runs { runs_in result ≡ row_runs (black_in result) last_in_field least_coordinate }
    {
        BlackRows {
            walk: Walk::of(pile),
        }
    }

    /// The next run of black pixels of the row, with weight 1; `None` after the last.
    #[inline(always)]
    pub fn next_run(&mut self) -> Option<Run>
        ensures next { runs_in self.old ≡ with_next result (runs_in self.new) }
        ensures over { IfNone result (runs_in self.new ≡ []) }
        ensures run { IfSome result IsRun }
        ensures row { row_in self.new ≡ row_in self.old }
        ensures black { black_in self.new ≡ black_in self.old }
    {
        self.walk.next_black()
    }

    /// Passes the rows below that are known to be equal to the row, and returns how many. The reader is then in the lowest of them. Requires
    /// that the row has no more runs.
    pub fn pass_equal_rows(&mut self) -> u32
        requires { runs_in self.old ≡ [] }
        ensures count { row_in self.new ≡ row_in self.old -ℤ pos result }
        ensures rows { AreSameRows (black_in self.old) (row_in self.new) (row_in self.old) }
        ensures over { runs_in self.new ≡ [] }
        ensures black { black_in self.new ≡ black_in self.old }
    {
        self.walk.pass_equal_rows()
    }

    /// Goes to the next row down, and returns whether there is one in the field.
    pub fn next_row(&mut self) -> bool
        ensures row { IsTrue result → row_in self.new ≡ row_in self.old -ℤ pos 1 }
        ensures within { IsTrue result → least_coordinate <ℤ row_in self.old }
        ensures runs { IsTrue result
            → runs_in self.new ≡ row_runs (black_in self.new) (row_in self.new) least_coordinate }
        ensures last { IsFalse result → row_in self.old ≡ least_coordinate }
        ensures black { black_in self.new ≡ black_in self.old }
    {
        self.walk.next_row()
    }
}
