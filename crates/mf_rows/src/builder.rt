//! Pictures built from runs.
ghost use Rattle.std.specs.Prelude.{◌≡◌, [], ◌++◌, ◌↔◌, IsTrue, IfOk, OnOk, OnErr};
ghost use Rattle.mf_rows.specs.Corners.{corners_of};
ghost use Rattle.mf_rows.specs.Order.{IsRun, Fits};
ghost use Rattle.mf_rows.specs.Runs.{dots_of};

use crate::picture::Picture;
use crate::run::{Run, START_OF_FIELD};
use mf_base::OutOfMemory;
use mf_rows_strips::{Corner, part_of_corners};
use std::alloc::Global;
use std::marker::Model;

/// Builds a picture from its runs: rows from the top down, columns from left to right. GF files have them in this order
/// (The METAFONTbook, Appendix G).
#[derive(Debug, Drop)]
pub struct RowBuilder {
    alloc: Global,
    /// Those of the pushed runs.
    corners: Vec<Corner>,
    /// The place after the last pushed run in reading order.
    end: i32,
}

impl Model for RowBuilder {
    ghost use Rattle.std.specs.Prelude.{List};
    ghost use Rattle.mf_rows.specs.Dots.{Dot};

    ghost Value = { List Dot };

    ghost use Rattle.mf_rows.specs.Corners.{AreBuilt, picture_of_corners};

    ghost view = { λ b. picture_of_corners b.corners.items };

    ghost invariant = { λ b. AreBuilt b.corners.items b.end };
}

#[tactic(auto, using(crate::proofs::RunCorners::of_builders), unfolding(crate::specs::Dots::place, crate::specs::Dots::start_of_field))]
impl RowBuilder {
    ghost use Rattle.mf_rows.specs.Dots.{IsPicture};

    /// A builder with no run. Allocates nothing.
    pub fn new(alloc: Global) -> RowBuilder
        ensures { result ≡ [] }
    {
        RowBuilder {
            alloc,
            corners: Vec::new(alloc),
            end: START_OF_FIELD,
        }
    }

    /// Whether the run may be pushed: it has at least one pixel, lies in the field, has a weight in -32767..=32767 that
    /// is not 0, and comes entirely after the last pushed run.
    pub fn fits(&self, run: &Run) -> bool
        ensures answer { IsTrue result ↔ Fits self.now run.now }
        ensures lawful { IsPicture self.now }
    {
        run.is_lawful() && self.end <= run.place()
    }

    /// Adds a run. Requires that it fits (`fits`). Refused with `OutOfMemory` where an allocation fails; the builder is
    /// then as it was.
    pub fn push_run(&mut self, run: Run) -> Result<(), OutOfMemory>
        requires { Fits self.old run }
        ensures ok { OnOk result (self.new ≡ self.old ++ dots_of run) }
        ensures unchanged { OnErr result (self.new ≡ self.old) }
    {
        self.corners.extend_from_slice(&corners_of(&run))?;
        self.end = run.place() + run.len as i32;
        Ok(())
    }

    /// The picture of exactly the pushed runs. Refused with `OutOfMemory` where an allocation fails; the builder is
    /// then gone.
    pub fn finish(self) -> Result<Picture, OutOfMemory>
        ensures value { IfOk result (λ picture. picture ≡ self) }
        ensures lawful { IfOk result IsPicture }
    {
        Picture::of_part(self.alloc, part_of_corners(self.alloc, self.corners)?)
    }
}

/// The corners of a run. They add its weight to its row and all rows below, and take it away from the rows below again.
fn corners_of(run: &Run) -> [Corner; 4]
    requires { IsRun run.now }
    ensures { result ≡ corners_of run.now }
{
    let (start, end) = (run.x, run.x + run.len as i32);
    let (top, bottom) = (run.y + 1, run.y);
    [
        Corner {
            x: start,
            y: top,
            weight: run.weight,
        },
        Corner {
            x: end,
            y: top,
            weight: -run.weight,
        },
        Corner {
            x: start,
            y: bottom,
            weight: -run.weight,
        },
        Corner {
            x: end,
            y: bottom,
            weight: run.weight,
        },
    ]
}
