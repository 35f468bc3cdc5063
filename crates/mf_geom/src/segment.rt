//! The segments and vertices of a closed path, each given by its place in the path's slice of points: segment i leaves
//! vertex i.
ghost use Rattle.std.specs.Prelude.{◌≡◌, ◌↔◌, ◌<◌, pos, negsuc, neg_ℤ, ◌*ℤ◌, ◌≤ℤ◌, length, IsTrue};
ghost use Rattle.mf_geom.specs.Area.{shoelace_at};
ghost use Rattle.mf_geom.specs.Coordinates.{greatest_length};
ghost use Rattle.mf_geom.specs.Lawful.{StaysInRange};
ghost use Rattle.mf_geom.specs.Path.{next_place, previous_place, segment_at, segment_into, across, up, IsInRange, IsRectilinear, IsReversal};
ghost use Rattle.mf_geom.specs.Turning.{turn_at};

use crate::point::Point;

/// How far a segment leads to the right and up, in pixels.
#[derive(Clone, Copy)]
struct Step {
    across: i32,
    up: i32,
    ghost leftmost: { neg_ℤ greatest_length ≤ℤ across },
    ghost rightmost: { across ≤ℤ greatest_length },
    ghost lowest: { neg_ℤ greatest_length ≤ℤ up },
    ghost highest: { up ≤ℤ greatest_length },
}

/// Whether a segment is rectilinear.
#[tactic(auto, using(std::proofs::lemmas::Int::ints, std::proofs::lemmas::Bool::Decides::nat_tests), unfolding(crate::specs::Path::IsRectilinear))]
pub fn is_rectilinear(points: &[Point], segment: usize) -> bool
    requires range { StaysInRange points.now }
    requires within { segment < length points.now }
    ensures { IsTrue result ↔ IsRectilinear (segment_at points.now segment) }
{
    let step = step_along(points, segment);
    (step.across == 0) != (step.up == 0)
}

/// Whether the path turns straight back at a vertex.
pub fn is_reversal(points: &[Point], vertex: usize) -> bool
    requires range { StaysInRange points.now }
    requires within { vertex < length points.now }
    ensures { IsTrue result
        ↔ IsReversal (segment_into points.now vertex) (segment_at points.now vertex) }
{
    let arriving = step_along(points, previous_place(points, vertex));
    let leaving = step_along(points, vertex);
    product(arriving.across, leaving.across) + product(arriving.up, leaving.up) < 0
}

/// The turn at a vertex: 1 to the left, -1 to the right, 0 straight on or straight back.
pub fn turn(points: &[Point], vertex: usize) -> i32
    requires range { StaysInRange points.now }
    requires within { vertex < length points.now }
    ensures value { result ≡ turn_at points.now vertex }
    ensures least { negsuc 0 ≤ℤ result }
    ensures greatest { result ≤ℤ pos 1 }
{
    let arriving = step_along(points, previous_place(points, vertex));
    let leaving = step_along(points, vertex);
    (product(arriving.across, leaving.up) - product(arriving.up, leaving.across)).signum()
}

/// What a segment contributes to the shoelace sum.
#[tactic(auto, using(std::proofs::lemmas::Int::ints))]
pub fn shoelace(points: &[Point], segment: usize) -> i32
    requires range { StaysInRange points.now }
    requires within { segment < length points.now }
    ensures value { result ≡ shoelace_at points.now segment }
    ensures least { negsuc 134152199 ≤ℤ result }
    ensures greatest { result ≤ℤ pos 134152200 }
{
    let (from, to) = ends(points, segment);
    product(from.x, to.y) - product(to.x, from.y)
}

/// How far the segment that leaves this vertex leads.
#[tactic(auto, using(std::proofs::lemmas::Int::ints))]
fn step_along(points: &[Point], segment: usize) -> Step
    requires range { StaysInRange points.now }
    requires within { segment < length points.now }
    ensures across { result.across ≡ across (segment_at points.now segment) }
    ensures up { result.up ≡ up (segment_at points.now segment) }
{
    let (from, to) = ends(points, segment);
    Step {
        across: to.x - from.x,
        up: to.y - from.y,
    }
}

/// The ends of the segment that leaves this vertex.
#[tactic(auto, unfolding(crate::specs::Path::point_at, crate::specs::Path::segment_at))]
pub fn ends(points: &[Point], segment: usize) -> (Point, Point)
    requires range { StaysInRange points.now }
    requires within { segment < length points.now }
    ensures from { result.0 ≡ (segment_at points.now segment).from }
    ensures to { result.1 ≡ (segment_at points.now segment).to }
    ensures from_in_range { IsInRange result.0 }
    ensures to_in_range { IsInRange result.1 }
{
    (points[segment], points[next_place(points, segment)])
}

/// The place after this one: after the last point comes the first.
#[tactic(auto, unfolding(crate::specs::Path::next_place))]
fn next_place(points: &[Point], place: usize) -> usize
    requires { place < length points.now }
    ensures value { result ≡ next_place points.now place }
    ensures within { result < length points.now }
{
    if place + 1 == points.len() {
        0
    } else {
        place + 1
    }
}

/// The place before this one: before the first point comes the last.
#[tactic(auto, unfolding(crate::specs::Path::previous_place))]
fn previous_place(points: &[Point], place: usize) -> usize
    requires { place < length points.now }
    ensures value { result ≡ previous_place points.now place }
    ensures within { result < length points.now }
{
    if place == 0 {
        points.len() - 1
    } else {
        place - 1
    }
}

/// The product of two coordinates, or of the lengths of two segments. It fits 32 bits, since neither factor exceeds 8190
/// in absolute value; the bounds of the product, and of the shoelace sum, follow from that and stand as plain numbers.
fn product(a: i32, b: i32) -> i32
    requires a_least { neg_ℤ greatest_length ≤ℤ a }
    requires a_greatest { a ≤ℤ greatest_length }
    requires b_least { neg_ℤ greatest_length ≤ℤ b }
    requires b_greatest { b ≤ℤ greatest_length }
    ensures value { result ≡ a *ℤ b }
    ensures least { negsuc 67076099 ≤ℤ result }
    ensures greatest { result ≤ℤ pos 67076100 }
{
    a * b
}
