//! The weights of the pixels of a picture, in reading order.
ghost use Rattle.std.specs.Prelude.{◌≡◌, ◌↔◌, IsTrue, IfSome, pos, ◌≤ℤ◌, ◌+ℤ◌};
ghost use Rattle.mf_geom.specs.Coordinates.{least_coordinate, last_in_field};
ghost use Rattle.mf_rows.specs.Dots.{IsPicture, place, weight_at};
ghost use Rattle.mf_rows.specs.Order.{AreRuns, IsRun};
ghost use Rattle.mf_rows.specs.Runs.{dots_of, runs_of};
ghost use Rattle.mf_text_show.specs.RunsAhead.{runs_ahead, dots_ahead, AreSameFrom, IsNotBefore};

use mf_rows::{Picture, Run, Runs};

/// A walk over the weights of a picture, which passes each of its runs once. `run` is the first run that may have the next
/// pixel; it is already taken from `runs`.
#[derive(Drop)]
pub(crate) struct Weights<'a> {
    run: Option<Run>,
    runs: Runs<'a>,
}

impl<'a> Weights<'a> {
    /// Starts a walk over the weights of a picture.
    pub(crate) fn over(picture: &'a Picture) -> Weights<'a>
        ensures runs { runs_ahead result ≡ runs_of picture.now }
        ensures lawful { IsPicture picture.now }
    {
        let mut runs = picture.runs();
        let run = runs.next();
        Weights { run, runs }
    }

    /// Returns the weight of a pixel. Pixels must be asked for in reading order: the runs that end before this pixel are passed
    /// and forgotten.
    #[tactic(auto, using(crate::proofs::PassedPixels::taken_is_lawful))]
    pub(crate) fn weight(&mut self, x: i32, y: i32) -> i32
        requires order { AreRuns (runs_ahead self.old) }
        requires left { least_coordinate ≤ℤ x }
        requires right { x ≤ℤ last_in_field }
        ensures order { AreRuns (runs_ahead self.new) }
        ensures weight { result ≡ weight_at (dots_ahead self.old) x y }
        ensures later { AreSameFrom (place x y) (dots_ahead self.old) (dots_ahead self.new) }
    {
        self.pass(x, y);
        match self.run {
            Some(run) => weight_of_run(&run, x, y),
            None => 0,
        }
    }

    /// Passes the runs that end before a pixel.
    #[tactic(auto, using(crate::proofs::PassedPixels::none_passed, crate::proofs::PassedPixels::taken_is_lawful, crate::proofs::PassedPixels::fewer_ahead))]
    fn pass(&mut self, x: i32, y: i32)
        requires order { AreRuns (runs_ahead self.old) }
        requires left { least_coordinate ≤ℤ x }
        requires right { x ≤ℤ last_in_field }
        ensures order { AreRuns (runs_ahead self.new) }
        ensures not_before { IfSome self.new.run (IsNotBefore x y) }
        ensures later { AreSameFrom (place x y) (dots_ahead self.old) (dots_ahead self.new) }
    {
        while let Some(run) = self.run {
            if !is_before(&run, x, y) {
                return;
            }
            self.run = self.runs.next();
        }
    }
}

/// Whether a run ends before a pixel, in reading order.
fn is_before(run: &Run, x: i32, y: i32) -> bool
    requires run { IsRun run.now }
    requires left { least_coordinate ≤ℤ x }
    requires right { x ≤ℤ last_in_field }
    ensures { IsTrue result ↔ (place (run.now.x +ℤ pos run.now.len) run.now.y ≤ℤ place x y) }
{
    if run.y == y {
        return run.x + run.len as i32 <= x;
    }
    run.y > y
}

/// The weight that a run gives to a pixel that it does not end before.
fn weight_of_run(run: &Run, x: i32, y: i32) -> i32
    requires run { IsRun run.now }
    requires not_before { IsNotBefore x y run.now }
    ensures { result ≡ weight_at (dots_of run.now) x y }
{
    if run.y == y && run.x <= x {
        return run.weight;
    }
    0
}
