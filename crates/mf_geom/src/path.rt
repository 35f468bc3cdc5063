//! Closed paths as slices of their points: why one is not a cycle, where it turns straight back, its turning number and
//! its area.
ghost use Rattle.std.specs.Prelude.{◌≡◌, ◌↔◌, ℕ, ◌<◌, ◌≤◌, true, false, IfNone, IfSome, IsTrue};
ghost use Rattle.mf_geom.specs.declared.path.TheConstants.{MAX_POINTS};
ghost use Rattle.mf_geom.specs.Area.{area};
ghost use Rattle.mf_geom.specs.Faults.{first_not_rectilinear, first_out_of_range, first_reversal, form_fault};
ghost use Rattle.mf_geom.specs.Lawful.{HasLawfulLength, StaysInRange};
ghost use Rattle.mf_geom.specs.Path.{IsInRange};
ghost use Rattle.mf_geom.specs.Turning.{turning};

use crate::cycle::CycleFault;
use crate::point::{MAX_COORDINATE, Point};
use crate::segment::{is_rectilinear, is_reversal, shoelace, turn};

/// The least number of points of a cycle (`CycleFault::TooFewPoints`).
const MIN_POINTS: usize = 2;

/// The greatest number of points of a cycle (`CycleFault::TooManyPoints`).
pub const MAX_POINTS: usize = 4096;

/// Why a closed path is not a cycle; `None` where it is one.
#[tactic(auto, unfolding(crate::specs::Faults::form_fault))]
pub fn form_fault(points: &[Point]) -> Option<CycleFault>
    ensures { result ≡ form_fault points.now }
{
    if points.len() < MIN_POINTS {
        return Some(CycleFault::TooFewPoints);
    }
    if points.len() > MAX_POINTS {
        return Some(CycleFault::TooManyPoints);
    }
    if let Some(place) = first_out_of_range(points) {
        return Some(CycleFault::PointOutOfRange(place));
    }
    match first_not_rectilinear(points) {
        Some(place) => Some(CycleFault::NotRectilinear(place)),
        None => None,
    }
}

/// The turning number of a closed path.
pub fn turning(points: &[Point]) -> i32
    requires { StaysInRange points.now }
    ensures { result ≡ turning points.now }
{
    let mut turns = 0;
    for vertex in 0..points.len() {
        turns += turn(points, vertex);
    }
    turns / 4
}

/// The signed area of a closed path.
pub fn area(points: &[Point]) -> i64
    requires { StaysInRange points.now }
    ensures { result ≡ area points.now }
{
    let mut doubled = 0;
    for segment in 0..points.len() {
        doubled += i64::from(shoelace(points, segment));
    }
    doubled / 2
}

/// The place of the first point out of range.
fn first_out_of_range(points: &[Point]) -> Option<u32>
    requires { HasLawfulLength points.now }
    ensures value { result ≡ first_out_of_range points.now }
    ensures in_range { IfNone result (StaysInRange points.now) }
{
    first_place(points.len(), |place| !is_in_range(points[place]))
}

/// The place of the first segment that is not rectilinear.
fn first_not_rectilinear(points: &[Point]) -> Option<u32>
    requires { StaysInRange points.now }
    ensures { result ≡ first_not_rectilinear points.now }
{
    first_place(points.len(), |segment| !is_rectilinear(points, segment))
}

/// The first vertex at which the path turns straight back.
pub fn first_reversal(points: &[Point]) -> Option<u32>
    requires { StaysInRange points.now }
    ensures { result ≡ first_reversal points.now }
{
    first_place(points.len(), |vertex| is_reversal(points, vertex))
}

/// The first place below `count` for which `at_fault` returns true.
fn first_place<F: Fn(usize) -> bool>(count: usize, at_fault: F) -> Option<u32>
    requires few { count ≤ MAX_POINTS }
    requires callable { (k : ℕ) → k < count → F.pre at_fault k }
    ensures none { IfNone result ((k : ℕ) → k < count → F.post at_fault k false) }
    ensures some { IfSome result (λ i.
        (i < count) × F.post at_fault i true × ((k : ℕ) → k < i → F.post at_fault k false)) }
{
    for place in 0..count {
        if at_fault(place) {
            return Some(place as u32);
        }
    }
    None
}

/// Whether both coordinates of a point are in range.
fn is_in_range(point: Point) -> bool
    ensures { IsTrue result ↔ IsInRange point }
{
    let range = -MAX_COORDINATE..=MAX_COORDINATE;
    range.contains(&point.x) && range.contains(&point.y)
}
