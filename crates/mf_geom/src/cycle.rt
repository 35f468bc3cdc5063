//! Cycles: closed rectilinear paths.
ghost use Rattle.std.specs.Prelude.{◌≡◌, ◌↔◌, ◌<◌, length, Some, IsOk, IfOk, IfErr};

use crate::point::Point;
use crate::{path, segment};
use mf_base::OutOfMemory;
use std::alloc::Global;
use std::error::Error;
use std::fmt;
use std::marker::Model;

/// Why a list of points is not a cycle, or why a cycle fails the turning check. The number is the place, counted from
/// 0, of the first point, segment or vertex at fault; segment i leads from point i to the next one, and the last segment
/// leads back to point 0.
#[derive(Clone, Copy, Debug, PartialEq, Eq)]
pub enum CycleFault {
    /// The list has fewer than 2 points.
    TooFewPoints,
    /// The list has more than 4096 points.
    TooManyPoints,
    /// This point has a coordinate outside -4095..=4095 pixels.
    PointOutOfRange(u32),
    /// The ends of this segment do not differ in exactly one coordinate.
    NotRectilinear(u32),
    /// From the turning check: the path turns straight back at this vertex.
    Backtracks(u32),
    /// From the turning check: there are as many right turns as left turns.
    TurningZero,
}

impl fmt::Display for CycleFault {
    ghost use Rattle.std.specs.Prelude.{Some};
    ghost use Rattle.mf_geom.specs.Names.{fault_text};

    ghost output = { λ fault. Some (fault_text fault) };

    fn fmt<W: fmt::Write>(&self, f: &mut fmt::Formatter<W>) -> fmt::Result {
        match self {
            CycleFault::TooFewPoints => write!(f, "TooFewPoints"),
            CycleFault::TooManyPoints => write!(f, "TooManyPoints"),
            CycleFault::PointOutOfRange(place) => write!(f, "PointOutOfRange {place}"),
            CycleFault::NotRectilinear(place) => write!(f, "NotRectilinear {place}"),
            CycleFault::Backtracks(place) => write!(f, "Backtracks {place}"),
            CycleFault::TurningZero => write!(f, "TurningZero"),
        }
    }
}

impl Error for CycleFault {}

/// A closed path along the edges of pixels, which can be filled as a contour (The METAFONTbook, chapter 13): 2 to 4096
/// points with coordinates in -4095..=4095 pixels (mf.web, "edge structures"), each of which differs from the next one
/// in exactly one coordinate. After the last point comes the first. METAFONT itself fills other paths, too.
#[derive(Debug, Drop)]
pub struct Cycle {
    points: Vec<Point>,
}

impl Model for Cycle {
    ghost use Rattle.std.specs.Prelude.{List};
    ghost use Rattle.mf_geom.specs.declared.point.Point.{Point};

    ghost Value = { List Point };

    ghost use Rattle.mf_geom.specs.Lawful.{IsRectilinearCycle};

    ghost view = { λ c. c.points.items };

    ghost invariant = { λ c. IsRectilinearCycle c.points.items };
}

impl Cycle {
    ghost use Rattle.mf_geom.specs.Faults.{form_fault, turning_fault};
    ghost use Rattle.mf_geom.specs.Lawful.{IsRectilinearCycle, NeverReverses};
    ghost use Rattle.mf_geom.specs.Path.{segment_at};
    ghost use Rattle.mf_geom.specs.Turning.{turning};
    ghost use Rattle.mf_geom.specs.Area.{area};

    /// The cycle through these points, in this order. It keeps the list and allocates nothing. Refused with
    /// `TooFewPoints`, `TooManyPoints`, `PointOutOfRange` or `NotRectilinear`: with the first of them that applies,
    /// since all points are checked for one before any is checked for the next. A refusal gives the list back.
    #[tactic(auto, using(crate::proofs::FirstFaults::is_cycle, crate::proofs::FirstFaults::no_form_fault))]
    pub fn new(points: Vec<Point>) -> Result<Cycle, (CycleFault, Vec<Point>)>
        ensures accepted { IsOk result ↔ IsRectilinearCycle points.items }
        ensures kept { IfOk result (λ cycle. cycle ≡ points.items) }
        ensures refused { IfErr result (λ back. form_fault points.items ≡ Some back.0) }
        ensures unchanged { IfErr result (λ back. back.1 ≡ points) }
    {
        match path::form_fault(&points) {
            None => Ok(Cycle { points }),
            Some(fault) => Err((fault, points)),
        }
    }

    /// A cycle through the same points. Refused with `OutOfMemory` where an allocation fails.
    pub fn copy(&self, alloc: Global) -> Result<Cycle, OutOfMemory>
        ensures value { IfOk result (λ copy. copy ≡ self.now) }
        ensures lawful { IsRectilinearCycle self.now }
    {
        let mut points = Vec::new(alloc);
        points.extend_from_slice(&self.points)?;
        Ok(Cycle { points })
    }

    /// The points, in the order in which `new` was given them.
    pub fn points(&self) -> &[Point]
        ensures points { result.now ≡ self.now }
        ensures lawful { IsRectilinearCycle self.now }
    {
        &self.points
    }

    /// The ends of the segment that leaves vertex `place`: from, then to. The last segment leads back to the first point.
    /// `mf_ops` makes the corners of a contour from them. Requires `place` to be below the number of points.
    pub fn segment_ends(&self, place: usize) -> (Point, Point)
        requires within { place < length self.now }
        ensures from { result.0 ≡ (segment_at self.now place).from }
        ensures to { result.1 ≡ (segment_at self.now place).to }
        ensures lawful { IsRectilinearCycle self.now }
    {
        segment::ends(&self.points, place)
    }

    /// The turning number, in -1024..=1024: left turns less right turns, divided by 4 (mf.web, "turning number"). It is
    /// positive for a cycle that turns counterclockwise. Refused with `Backtracks` and the first vertex at which the path
    /// turns straight back, since such a cycle has no turning number; never refused with `TurningZero`: a turning number of
    /// 0 is an answer. Allocates nothing.
    #[tactic(auto, using(crate::proofs::FirstFaults::never_reverses, crate::proofs::FirstFaults::no_reversal))]
    pub fn turning(&self) -> Result<i32, CycleFault>
        ensures value { IfOk result (λ number. number ≡ turning self.now) }
        ensures onward { IsOk result ↔ NeverReverses self.now }
        ensures refused { IfErr result (λ fault. turning_fault self.now ≡ Some fault) }
        ensures lawful { IsRectilinearCycle self.now }
    {
        match path::first_reversal(&self.points) {
            None => Ok(path::turning(&self.points)),
            Some(vertex) => Err(CycleFault::Backtracks(vertex)),
        }
    }

    /// The signed area in pixels, by the shoelace formula: each pixel counts as often as the cycle winds round it
    /// counterclockwise. It is at most 68,685,926,400 in absolute value, 1024 times the field.
    pub fn area(&self) -> i64
        ensures value { result ≡ area self.now }
        ensures lawful { IsRectilinearCycle self.now }
    {
        path::area(&self.points)
    }
}
