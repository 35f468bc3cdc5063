//! Paths of contours.
ghost use Rattle.std.specs.Prelude.{◌≡◌, ◌≤◌, ◌++◌, ◌∷◌, [], IfOk, IsErr, IsTrue, List};
ghost use Rattle.mf_geom.specs.declared.point.Point as points;
ghost use Rattle.mf_geom.specs.Lawful.{most_points};
ghost use Rattle.mf_text.specs.Reads.{HasPoints};

use mf_base::OutOfMemory;
use mf_geom::{MAX_POINTS, Point};
use std::alloc::Global;

/// The points of a path, kept while the line is read: at most one more than a cycle may have, and none after an allocation has
/// failed. Whether the line is in the grammar does not depend on them.
#[derive(Drop)]
pub struct Path {
    points: Vec<Point>,
    /// How many points the path has, counted up to one more than a cycle may have.
    pub(crate) corners: usize,
    /// Whether an allocation has failed for one of them.
    is_out_of_memory: bool,
}

impl Path {
    /// A path without points.
    pub fn new(alloc: Global) -> Path
        ensures { HasPoints result [] }
    {
        Path {
            points: Vec::new(alloc),
            corners: 0,
            is_out_of_memory: false,
        }
    }

    /// Adds a point after the others.
    pub fn push(&mut self, point: Point)
        ensures { (before : List points.Point) → HasPoints self.old before
            → HasPoints self.new (before ++ point ∷ []) }
    {
        if self.corners > MAX_POINTS {
            return;
        }
        self.corners += 1;
        if !self.is_out_of_memory {
            self.is_out_of_memory = self.points.push(point).is_err();
        }
    }

    /// The points: all of them, unless there are more than a cycle may have. Refused with `OutOfMemory` where an allocation
    /// failed for one of them.
    pub fn points(self) -> Result<Vec<Point>, OutOfMemory>
        ensures points { (all : List points.Point) → HasPoints self all → self.corners ≤ most_points
            → IfOk result (λ points. points.items ≡ all) }
        ensures refused { IsErr result → IsTrue self.is_out_of_memory }
    {
        if self.is_out_of_memory {
            return Err(OutOfMemory);
        }
        Ok(self.points)
    }
}
