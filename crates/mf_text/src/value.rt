//! Commands, made from the values of lines, and the refusals of these values.
ghost use Rattle.std.specs.Prelude.{◌≡◌, ◌≢◌, IfOk, IfErr};
ghost use Rattle.mf_ops.specs.ContourWeight.{IsContourWeight};
ghost use Rattle.mf_text.specs.Grammar as grammar;
ghost use Rattle.mf_text.specs.Grammar.{path_value, weight_value};
ghost use Rattle.mf_text.specs.Meaning.{AWeight, IsAnswerOf, IsUnlawful, Means, Refuses, check_of, scale_meaning};
ghost use Rattle.mf_text.specs.Reads.{HasPoints};

use crate::command::{Command, Name};
use crate::fault::TextFault;
use crate::int::Int;
use crate::pair::Pair;
use crate::path::Path;
use mf_geom::{Check, Cycle, CycleFault, MAX_POINTS, Point};
use mf_ops::{Cull, Quarter, Scale, Weight};

/// The command of a contour. Refused, in this order, with `TooManyPoints`, with `OutOfMemory` where an allocation failed for a
/// point, with another fault of the points, or with `BadWeight`.
#[tactic(auto, using(std::proofs::lemmas::Int::ints, crate::proofs::Reading::many_points))]
pub fn contour_command(name: Name, path: Path, weight: Option<Int>) -> Result<Command, TextFault>
    ensures { (tree : grammar.Path) → HasPoints path (path_value tree)
        → IsAnswerOf (grammar.AddContour name tree weight) result }
{
    if path.corners > MAX_POINTS {
        return Err(TextFault::Cycle(CycleFault::TooManyPoints));
    }
    contour_through(name, path.points()?, weight)
}

/// The command of a contour through these points. Refused with their fault, or else with `BadWeight`.
fn contour_through(
    name: Name,
    points: Vec<Point>,
    weight: Option<Int>,
) -> Result<Command, TextFault>
    ensures answer { (tree : grammar.Path) → points.items ≡ path_value tree
        → IsAnswerOf (grammar.AddContour name tree weight) result }
    ensures fault { IfErr result (λ fault. fault ≢ TextFault.OutOfMemory) }
{
    let cycle = match Cycle::new(points) {
        Ok(cycle) => cycle,
        Err((fault, _)) => return Err(TextFault::Cycle(fault)),
    };
    Ok(Command::Contour(name, cycle, lawful_weight(weight)?))
}

/// The weight of a contour or a cull, which is 1 where the line gives none. Refused with `BadWeight`.
fn lawful_weight(weight: Option<Int>) -> Result<Weight, TextFault>
    ensures given { IfOk result (λ found.
        (found ≡ weight_value weight) × IsContourWeight (weight_value weight)) }
    ensures refused { IfErr result (IsUnlawful (AWeight (weight_value weight))) }
{
    let weight = match weight {
        Some(weight) => weight.value(),
        None => 1,
    };
    match Weight::new(weight) {
        Ok(weight) => Ok(weight),
        Err(_) => Err(TextFault::BadWeight),
    }
}

/// The command of a cull that keeps a range. Refused with `BadWeight`, or else with `BadCull`.
pub fn keep_command(name: Name, range: Pair, weight: Option<Int>) -> Result<Command, TextFault>
    ensures { IsAnswerOf (grammar.CullKeeping name range weight) result }
{
    let kept = lawful_weight(weight)?;
    let range = range.value();
    match Cull::keeping(range.x, range.y, kept) {
        Ok(cull) => Ok(Command::Cull(name, cull)),
        Err(_) => Err(TextFault::BadCull),
    }
}

/// The command of a cull that drops a range. Refused with `BadWeight`, or else with `BadCull`.
pub fn drop_command(name: Name, range: Pair, weight: Option<Int>) -> Result<Command, TextFault>
    ensures { IsAnswerOf (grammar.CullDropping name range weight) result }
{
    let others = lawful_weight(weight)?;
    let range = range.value();
    match Cull::dropping(range.x, range.y, others) {
        Ok(cull) => Ok(Command::Cull(name, cull)),
        Err(_) => Err(TextFault::BadCull),
    }
}

/// The command of a scale by these factors of columns and rows. Refused with `BadScale`.
pub fn scale_command(name: Name, x: i32, y: i32) -> Result<Command, TextFault>
    ensures given { IfOk result (Means (scale_meaning name (record { x = x; y = y }))) }
    ensures refused { IfErr result (Refuses (scale_meaning name (record { x = x; y = y }))) }
{
    match Scale::new(x, y) {
        Ok(scale) => Ok(Command::Scale(name, scale)),
        Err(_) => Err(TextFault::BadScale),
    }
}

/// The command of a turn by this angle, in degrees counterclockwise. Refused with `BadTurn`.
pub fn turn_command(name: Name, angle: Int) -> Result<Command, TextFault>
    ensures { IsAnswerOf (grammar.Move name (grammar.Rotated angle)) result }
{
    match Quarter::new(angle.value()) {
        Ok(quarter) => Ok(Command::Quarter(name, quarter)),
        Err(_) => Err(TextFault::BadTurn),
    }
}

/// The turning check that a number sets: on exactly where the number is positive.
pub fn check(number: i32) -> Check
    ensures { result ≡ check_of number }
{
    if number > 0 { Check::On } else { Check::Off }
}
