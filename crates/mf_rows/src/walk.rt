//! The walk over the pixels of a picture, which meets its runs one after another.
ghost use Rattle.std.specs.Prelude.{◌≡◌, ◌≢◌, [], ◌∷◌, ℤ, IfNone, IfSome, IsTrue, IsFalse, pos, ◌+ℤ◌, ◌-ℤ◌, ◌≤ℤ◌, ◌<ℤ◌};
ghost use Rattle.mf_geom.specs.Coordinates.{least_coordinate, greatest_coordinate};
ghost use Rattle.mf_geom.specs.Field.{IsColumnOrRow};
ghost use Rattle.mf_rows.specs.Reading.{AreBlankBelow, IsReading, IsReading-prop};
ghost use Rattle.mf_rows_strips.specs.RowEdges.{AreSameRows, weight_left, weights_of};

use crate::bounds::{Box4, Pixels};
use crate::row_sum::sum_of_row;
use crate::run::Run;
use mf_rows_edges::{FIELD_END, FIELD_START};
use mf_rows_strips::{Pile, RowEdges};

/// A walk over the pixels of a picture, which gives its maximal runs: rows from the top down, columns from left to right. It passes each
/// edge once, and equal blank rows together.
#[derive(Drop)]
pub struct Walk<'a> {
    /// The edges of row `y` to the right of column `x`.
    edges: RowEdges<'a>,
    /// The column of the edge that was passed last, the one to the left of the field where none was.
    x: i32,
    y: i32,
    /// The weight from column `x` on, up to the next edge.
    weight: i32,
    /// The lowest of the rows down from row `y` that are known to be equal to it.
    bottom: i32,
    ghost reading: { IsReading (weights_of edges) (weight_left edges) x y weight bottom } by { IsReading-prop (weights_of edges) (weight_left edges) x y weight bottom },
}

impl<'a> Walk<'a> {
    ghost use Rattle.mf_rows.specs.BlackRows.{black_weights, row_runs};
    ghost use Rattle.mf_rows.specs.Bounds.{AreBounds, AreColumns, among, from_row};
    ghost use Rattle.mf_rows.specs.Remaining.{remaining_runs, HasPassed, HasPassedRow, IsAtStart};
    ghost use Rattle.mf_rows.specs.Dots.{total_of};
    ghost use Rattle.mf_rows.specs.Order.{IsRun};
    ghost use Rattle.mf_rows.specs.Runs.{with_next};
    ghost use Rattle.mf_rows.specs.Totals.{row_total};
    ghost use Rattle.mf_rows.specs.Weights.{picture_of};
    ghost use Rattle.mf_rows_strips.specs.PileWeights.{weight_in_pile};

    /// The walk over the picture of a pile.
    pub(crate) fn of(pile: &'a Pile) -> Walk<'a>
        ensures { IsAtStart (weight_in_pile pile.now) result }
    {
        let mut edges = RowEdges::of(pile);
        let y = FIELD_END - 1;
        let bottom = edges.enter(y);
        Walk {
            edges,
            x: FIELD_START - 1,
            y,
            weight: 0,
            bottom,
        }
    }

    /// The least box of these pixels, `None` where there are none. Requires a walk that is at its start. It goes through equal
    /// rows that lie together only once.
    pub(crate) fn bounds(&mut self, pixels: Pixels) -> Option<Box4>
        requires { IsAtStart (weights_of self.old.edges) self.old }
        ensures { AreBounds (among pixels (weights_of self.old.edges)) result }
    {
        let mut bounds = None;
        loop {
            bounds = self.widen(bounds, pixels);
            if self.bottom <= FIELD_START {
                return bounds;
            }
            self.enter_row(self.bottom - 1);
        }
    }

    /// The least box round that of these pixels in the rows above, and those of the row and of the rows that are equal to it.
    fn widen(&mut self, bounds: Option<Box4>, pixels: Pixels) -> Option<Box4>
        requires column { self.old.x <ℤ least_coordinate }
        requires bounds { AreBounds
            (from_row (self.old.y +ℤ pos 1) (among pixels (weights_of self.old.edges))) bounds }
        ensures bounds { AreBounds
            (from_row self.old.bottom (among pixels (weights_of self.old.edges))) result }
        ensures passed { HasPassedRow self.old self.new }
    {
        let (first, last) = self.columns(pixels);
        if first >= FIELD_END {
            return bounds;
        }
        let own = Box4 {
            min_x: first,
            max_x: last,
            min_y: self.bottom,
            max_y: self.y,
        };
        Some(own.with(bounds))
    }

    /// The first and the last column of the row that have these pixels, told by its first and its last edge. `None` where these do not
    /// tell: where the picture has not exactly one part, the row is blank, or its first or last nonzero pixel is not one of these.
    /// Requires that no pixel of the row was passed yet.
    fn columns_at_ends(&self, pixels: Pixels) -> Option<(i32, i32)>
        requires { self.now.x <ℤ least_coordinate }
        ensures { IfSome result (λ columns.
            AreColumns (among pixels (weights_of self.now.edges)) self.now.y
            greatest_coordinate columns.0 columns.1) }
    {
        let (first, last) = self.edges.ends()?;
        if pixels.has(first.weight) && pixels.has(-last.weight) {
            return Some((first.x, last.x - 1));
        }
        None
    }

    /// The first and the last column of the row that have these pixels; the first is the end of the field where there are none. Requires
    /// that no pixel of the row was passed yet.
    fn columns(&mut self, pixels: Pixels) -> (i32, i32)
        requires { self.old.x <ℤ least_coordinate }
        ensures columns { AreColumns (among pixels (weights_of self.old.edges)) self.old.y
            greatest_coordinate result.0 result.1 }
        ensures passed { HasPassedRow self.old self.new }
    {
        if let Some(columns) = self.columns_at_ends(pixels) {
            return columns;
        }
        let (mut first, mut last) = (FIELD_END, FIELD_END);
        while self.x < FIELD_END {
            let (x, weight) = (self.x, self.weight);
            self.pass_equal();
            if pixels.has(weight) {
                first = first.min(x);
                last = self.x - 1;
            }
        }
        (first, last)
    }

    /// The sum of all weights. Requires a walk that is at its start. It goes through equal rows that lie together only once.
    pub(crate) fn total(&mut self) -> i64
        requires { IsAtStart (weights_of self.old.edges) self.old }
        ensures { result ≡ total_of (picture_of (weights_of self.old.edges)) }
    {
        let mut total = 0i64;
        loop {
            let height = self.y + 1 - self.bottom;
            total += i64::from(self.row_total()) * i64::from(height);
            if self.bottom <= FIELD_START {
                return total;
            }
            self.enter_row(self.bottom - 1);
        }
    }

    /// The sum of the weights of the row. Requires that none of its pixels was passed yet.
    fn row_total(&mut self) -> i32
        requires { self.old.x <ℤ least_coordinate }
        ensures total { result
            ≡ row_total (weights_of self.old.edges) self.old.y greatest_coordinate }
        ensures passed { HasPassedRow self.old self.new }
    {
        if let Some(edges) = self.edges.of_one_part() {
            return sum_of_row(edges);
        }
        let mut total = 0;
        while self.x < FIELD_END {
            let (x, weight) = (self.x, self.weight);
            self.pass_equal();
            total += weight * (self.x - x);
        }
        total
    }

    /// Moves on to the next run, past pixels of weight 0. Returns whether there is one.
    fn find_run(&mut self) -> bool
        ensures runs { remaining_runs self.new ≡ remaining_runs self.old }
        ensures found { IsTrue result → self.new.weight ≢ pos 0 }
        ensures over { IsFalse result → remaining_runs self.new ≡ [] }
    {
        while self.weight == 0 {
            let start = self.x;
            self.pass_equal();
            if self.x < FIELD_END {
                return true;
            }
            let bottom = self.blank_down_to(start);
            if bottom == FIELD_START {
                return false;
            }
            self.enter_row(bottom - 1);
        }
        true
    }

    /// Takes the run that begins at the next pixel.
    #[inline(always)]
    fn take_run(&mut self) -> Run
        requires { self.old.weight ≢ pos 0 }
        ensures { remaining_runs self.old ≡ result ∷ remaining_runs self.new }
    {
        let (x, weight) = (self.x, self.weight);
        self.pass_equal();
        Run {
            y: self.y,
            x,
            len: self.x.abs_diff(x),
            weight,
        }
    }

    /// The next run of black pixels of the row, with weight 1; `None` after the last.
    #[inline(always)]
    pub(crate) fn next_black(&mut self) -> Option<Run>
        ensures next { row_runs (black_weights (weights_of self.old.edges)) self.old.y self.old.x
            ≡ with_next result
            (row_runs (black_weights (weights_of self.old.edges)) self.old.y self.new.x) }
        ensures over { IfNone result
            (row_runs (black_weights (weights_of self.old.edges)) self.old.y self.new.x ≡ []) }
        ensures run { IfSome result IsRun }
        ensures passed { HasPassedRow self.old self.new }
    {
        while self.weight <= 0 {
            if self.x >= FIELD_END {
                return None;
            }
            self.pass_equal();
        }
        Some(self.take_black())
    }

    /// Takes the run of black pixels that begins at the next pixel.
    #[inline(always)]
    fn take_black(&mut self) -> Run
        requires { pos 0 <ℤ self.old.weight }
        ensures next { row_runs (black_weights (weights_of self.old.edges)) self.old.y self.old.x
            ≡ result ∷ row_runs (black_weights (weights_of self.old.edges)) self.old.y self.new.x }
        ensures run { IsRun result }
        ensures passed { HasPassedRow self.old self.new }
    {
        let x = self.x;
        while self.weight > 0 {
            self.pass_equal();
        }
        Run {
            y: self.y,
            x,
            len: self.x.abs_diff(x),
            weight: 1,
        }
    }

    /// Passes the rows below that are known to be equal to the row, and returns how many: the walk is then in the lowest of them, at the
    /// same column.
    pub(crate) fn pass_equal_rows(&mut self) -> u32
        ensures weights { weights_of self.new.edges ≡ weights_of self.old.edges }
        ensures column { self.new.x ≡ self.old.x }
        ensures count { self.new.y ≡ self.old.y -ℤ pos result }
        ensures rows { AreSameRows
            (black_weights (weights_of self.old.edges)) self.new.y self.old.y }
    {
        let rows = self.y.abs_diff(self.bottom);
        self.y = self.bottom;
        rows
    }

    /// Goes to the left end of the next row down, and returns whether there is one in the field.
    pub(crate) fn next_row(&mut self) -> bool
        ensures weights { weights_of self.new.edges ≡ weights_of self.old.edges }
        ensures row { IsTrue result → self.new.y ≡ self.old.y -ℤ pos 1 }
        ensures within { IsTrue result → least_coordinate <ℤ self.old.y }
        ensures column { IsTrue result → self.new.x <ℤ least_coordinate }
        ensures last { IsFalse result → self.old.y ≡ least_coordinate }
    {
        if self.y == FIELD_START {
            return false;
        }
        self.enter_row(self.y - 1);
        true
    }

    /// Passes the pixels up to the next edge, or to the end of the row.
    #[inline(always)]
    fn pass_equal(&mut self)
        ensures passed { HasPassed self.old self.new }
        ensures further { self.old.x <ℤ greatest_coordinate → self.old.x <ℤ self.new.x }
        ensures next { self.new.x <ℤ greatest_coordinate → self.new.weight ≢ self.old.weight }
    {
        let edge = self.edges.pass();
        self.x = edge.x;
        self.weight += edge.weight;
    }

    /// The lowest row that is known to be blank below the row, which is blank from column `start` on; the row itself where none is.
    fn blank_down_to(&self, start: i32) -> i32
        requires { (z : ℤ) → start ≤ℤ z → z <ℤ greatest_coordinate
            → weights_of self.now.edges z self.now.y ≡ pos 0 }
        ensures { AreBlankBelow (weights_of self.now.edges) result self.now.y }
    {
        if start < FIELD_START {
            self.bottom
        } else {
            self.y
        }
    }

    /// Goes to the left end of a row.
    fn enter_row(&mut self, y: i32)
        requires { IsColumnOrRow y }
        ensures weights { weights_of self.new.edges ≡ weights_of self.old.edges }
        ensures column { self.new.x <ℤ least_coordinate }
        ensures row { self.new.y ≡ y }
    {
        self.bottom = self.edges.enter(y);
        self.x = FIELD_START - 1;
        self.y = y;
        self.weight = 0;
    }
}

impl Iterator for Walk<'_> {
    type Item = Run;

    ghost use Rattle.std.specs.Iterator.{YieldsFirst, item_count};
    ghost use Rattle.mf_rows.specs.Remaining.{remaining_runs};

    ghost next_gives = { YieldsFirst remaining_runs };

    ghost remaining = { item_count remaining_runs };

    #[inline(always)]
    fn next(&mut self) -> Option<Run> {
        if !self.find_run() {
            return None;
        }
        Some(self.take_run())
    }
}
