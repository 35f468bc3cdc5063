//! Filling a contour: the sides of its cycle become corners, and these are added to the picture.
ghost use Rattle.std.specs.Prelude.{◌≡◌, None, Some, IfOk, IfErr, OnOk, OnErr, ℤ, ◌*ℤ◌, List};
ghost use Rattle.std.specs.Int.{int_signum};
ghost use Rattle.mf_geom.specs.Path.{IsInRange, IsRectilinear};
ghost use Rattle.mf_geom.specs.Turning.{turning};
ghost use Rattle.mf_geom.specs.Winding.{winding};
ghost use Rattle.mf_geom.specs.Faults.{turning_fault};
ghost use Rattle.mf_geom.specs.declared.check.Check.TheVariants.{Off};
ghost use Rattle.mf_rows.specs.Corners.{IsCornerWeight, AreCorners, added_by_all};
ghost use Rattle.mf_rows.specs.Dots.{Dot};
ghost use Rattle.mf_ops.specs.Sides.{HasSide, FillsWith};
ghost use Rattle.mf_ops.specs.Step.{IsRefusal, next_picture, op_fault};
ghost use Rattle.mf_ops.specs.declared.op.Op.TheVariants.{Contour};

use crate::op::OpFault;
use crate::weight::Weight;
use mf_base::OutOfMemory;
use mf_geom::{Check, Cycle, CycleFault, Point};
use mf_rows::{Corner, Picture};
use std::alloc::Global;

/// The weight with which a cycle is filled: the given one where the turning check is off, else the one that the check makes of
/// it. How the cycle turns is decided here, before anything is allocated, so that `OutOfMemory` never comes instead of a refusal
/// of the check.
pub fn filling_weight(cycle: &Cycle, weight: Weight, check: Check) -> Result<i32, OpFault>
    ensures fills { IfOk result (FillsWith (Contour cycle.now weight check) cycle.now) }
    ensures lawful { IfOk result IsCornerWeight }
    ensures refused { IfErr result (λ fault.
        (ds : List Dot) → op_fault ds (Contour cycle.now weight check) ≡ Some fault) }
{
    match check {
        Check::Off => Ok(weight.get()),
        Check::On => match turned_weight(cycle, weight) {
            Ok(turned) => Ok(turned),
            Err(fault) => Err(OpFault::Cycle(fault)),
        },
    }
}

/// The weight, negated where the cycle turns clockwise. Refused where the cycle turns straight back, or has turning number 0.
fn turned_weight(cycle: &Cycle, weight: Weight) -> Result<i32, CycleFault>
    ensures value { IfOk result (λ turned. turned ≡ weight *ℤ int_signum (turning cycle.now)) }
    ensures lawful { IfOk result IsCornerWeight }
    ensures passes { OnOk result (turning_fault cycle.now ≡ None) }
    ensures refused { IfErr result (λ fault. turning_fault cycle.now ≡ Some fault) }
{
    match cycle.turning() {
        Err(fault) => Err(fault),
        Ok(turning) if turning == 0 => Err(CycleFault::TurningZero),
        Ok(turning) => Ok(with_sign_of(turning, weight)),
    }
}

/// The weight, negated where the turning number is negative, and 0 where it is 0.
fn with_sign_of(turning: i32, weight: Weight) -> i32
    ensures value { result ≡ weight *ℤ int_signum turning }
    ensures lawful { IsCornerWeight result }
{
    weight.get() * turning.signum()
}

/// Adds the weight times the winding number of the cycle to each pixel of a picture, as by a contour with the turning check off.
/// A refusal leaves the picture as it was.
pub fn fill(alloc: Global, picture: &mut Picture, cycle: &Cycle, weight: i32) -> Result<(), OpFault>
    requires { IsCornerWeight weight }
    ensures step { OnOk result
        (picture.new ≡ next_picture picture.old (Contour cycle.now weight Off)) }
    ensures unchanged { OnErr result (picture.new ≡ picture.old) }
    ensures accepted { OnOk result (op_fault picture.old (Contour cycle.now weight Off) ≡ None) }
    ensures refused { IfErr result (IsRefusal picture.old (Contour cycle.now weight Off)) }
{
    let corners = corners_of(alloc, cycle, weight)?;
    Ok(picture.add_corners(alloc, corners)?)
}

/// The corners that add the weight times the winding number of the cycle to each pixel: those of the sides that lead up,
/// from the last one back, then those of the sides that lead down, from the first one on. So the heights fall as long as the cycle
/// rises or falls, and to sort the corners by height is to merge a few long runs.
fn corners_of(alloc: Global, cycle: &Cycle, weight: i32) -> Result<Vec<Corner>, OutOfMemory>
    requires { IsCornerWeight weight }
    ensures lawful { IfOk result (λ corners. AreCorners corners.items) }
    ensures added { IfOk result (λ corners.
        (x y : ℤ) → added_by_all corners.items x y ≡ weight *ℤ winding cycle.now x y) }
{
    let count = cycle.points().len();
    let mut rising = Vec::with_capacity(alloc, count)?;
    let mut falling = Vec::with_capacity(alloc, count)?;
    for place in 0..count {
        let (from, to) = cycle.segment_ends(place);
        if from.y < to.y {
            push_side(&mut rising, from, to, weight)?;
        } else {
            push_side(&mut falling, from, to, weight)?;
        }
    }
    rising.reverse();
    rising.extend_from_slice(&falling)?;
    Ok(rising)
}

/// Appends the corners of a segment of the path: two where it is vertical, and none where it is horizontal.
fn push_side(
    corners: &mut Vec<Corner>,
    from: Point,
    to: Point,
    weight: i32,
) -> Result<(), OutOfMemory>
    requires segment { IsRectilinear (record { from = from; to = to }) }
    requires from { IsInRange from }
    requires to { IsInRange to }
    requires weight { IsCornerWeight weight }
    ensures { OnOk result
        (HasSide weight (record { from = from; to = to }) corners.old.items corners.new.items) }
{
    if from.x == to.x {
        corners.push(Corner {
            x: from.x,
            y: from.y,
            weight,
        })?;
        corners.push(Corner {
            x: to.x,
            y: to.y,
            weight: -weight,
        })?;
    }
    Ok(())
}
