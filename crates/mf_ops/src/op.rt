//! Operations on pictures, and what they do to a picture.
ghost use Rattle.std.specs.Prelude.{◌≡◌, [], None, Some, Err, IsOk, IfOk, IfErr, OnOk, OnErr};
ghost use Rattle.mf_geom.specs.declared.cycle.CycleFault.{CycleFault};
ghost use Rattle.mf_rows.specs.declared.sign.Sign.{Sign};
ghost use Rattle.mf_ops.specs.Operations.{HoldsNoList};
ghost use Rattle.mf_ops.specs.Step.{IsRefusal, next_picture, op_fault};
ghost use Rattle.mf_ops.specs.declared.cull.CullRule.{CullRule};
ghost use Rattle.mf_ops.specs.declared.op.Op.TheVariants as ops;

use crate::add::add;
use crate::cull::Cull;
use crate::fill::{fill, filling_weight};
use crate::quarter::Quarter;
use crate::scale::Scale;
use crate::transform::{scale, shift, turn};
use crate::weight::Weight;
use mf_base::OutOfMemory;
use mf_geom::{Check, Cycle, CycleFault};
use mf_rows::{AddFault, Picture, Sign};
use std::alloc::Global;
use std::error::Error;
use std::fmt;

/// An operation that changes a picture.
#[derive(Debug, Drop)]
pub enum Op {
    /// `addto p contour c withweight w` under a turning check: adds to each pixel the weight times the winding number of the
    /// cycle around that pixel. Under `On` the weight is negated where the cycle turns clockwise (The METAFONTbook, chapter 13).
    Contour(Cycle, Weight, Check),
    /// `addto p also q` and `addto p also -q`: adds to each pixel its weight in another picture, or subtracts that weight. The
    /// other picture may be a copy of the one that is changed (The METAFONTbook, chapter 13).
    Also(Picture, Sign),
    /// `cull p keeping (a, b) withweight w` and `cull p dropping (a, b) withweight w`: gives each pixel either the weight of the
    /// cull or 0, depending on whether its own weight lies in the range (The METAFONTbook, chapter 13).
    Cull(Cull),
    /// `p := p shifted (dx, dy)`: moves each pixel by `dx` columns to the right and `dy` rows upwards. Both may be any `i32`
    /// (The METAFONTbook, chapter 15).
    Shift(i32, i32),
    /// `p := p xscaled sx`, `yscaled sy`, `scaled s`: stretches each pixel by whole factors. A negative factor also reflects: the
    /// factor -1 takes column x to column -x - 1 (The METAFONTbook, chapter 15).
    Scale(Scale),
    /// `p := p rotated d` for turns by 90, 180 or 270 degrees counterclockwise about the point (0, 0): 90 degrees takes the pixel (x, y) to the
    /// pixel (-y - 1, x) (The METAFONTbook, chapter 15).
    Quarter(Quarter),
    /// `p := nullpicture`: every weight becomes 0 (The METAFONTbook, chapter 13).
    Clear,
}

/// Why an operation is refused.
#[derive(Clone, Copy, Debug, PartialEq, Eq)]
pub enum OpFault {
    /// The turning check is on, and the cycle of a contour turns straight back (`Backtracks`) or has turning number 0
    /// (`TurningZero`).
    Cycle(CycleFault),
    /// A pixel of nonzero weight would leave the field, columns and rows -4095..=4094.
    OutOfField,
    /// A weight would exceed 32767 in absolute value.
    WeightTooLarge,
    /// An allocation failed. This may come instead of `WeightTooLarge`, but never instead of `Cycle` or `OutOfField`.
    OutOfMemory,
}

impl fmt::Display for OpFault {
    ghost use Rattle.std.specs.Prelude.{Some};
    ghost use Rattle.mf_ops.specs.Names.{op_fault_text};

    ghost output = { λ fault. Some (op_fault_text fault) };

    fn fmt<W: fmt::Write>(&self, f: &mut fmt::Formatter<W>) -> fmt::Result {
        match self {
            OpFault::Cycle(fault) => write!(f, "{fault}"),
            OpFault::OutOfField => write!(f, "OutOfField"),
            OpFault::WeightTooLarge => write!(f, "{}", AddFault::WeightTooLarge),
            OpFault::OutOfMemory => write!(f, "{OutOfMemory}"),
        }
    }
}

impl Error for OpFault {}

impl From<OutOfMemory> for OpFault {
    ghost use Rattle.std.specs.Prelude.{◌≡◌};
    ghost use Rattle.mf_ops.specs.declared.op.OpFault.TheVariants.{OutOfMemory};

    ghost from_gives = { λ _ fault. fault ≡ OutOfMemory };

    fn from(_fault: OutOfMemory) -> OpFault {
        OpFault::OutOfMemory
    }
}

impl From<AddFault> for OpFault {
    ghost use Rattle.std.specs.Prelude.{◌≡◌};
    ghost use Rattle.mf_ops.specs.Faults.{sum_fault};

    ghost from_gives = { λ add fault. fault ≡ sum_fault add };

    fn from(fault: AddFault) -> OpFault {
        match fault {
            AddFault::WeightTooLarge => OpFault::WeightTooLarge,
            AddFault::OutOfMemory => OpFault::OutOfMemory,
        }
    }
}

impl Op {
    /// Returns a copy of the operation. Refused with `OutOfMemory` where an allocation fails. Only a contour, and adding or
    /// subtracting a picture that is not blank, can be refused.
    pub fn copy(&self, alloc: Global) -> Result<Op, OutOfMemory>
        ensures value { IfOk result (λ copy. copy ≡ self.now) }
        ensures copied { HoldsNoList self.now → IsOk result }
    {
        match self {
            Op::Contour(cycle, weight, check) => {
                Ok(Op::Contour(cycle.copy(alloc)?, *weight, *check))
            }
            Op::Also(picture, sign) => Ok(Op::Also(picture.copy(alloc)?, *sign)),
            Op::Cull(cull) => Ok(Op::Cull(*cull)),
            Op::Shift(right, up) => Ok(Op::Shift(*right, *up)),
            Op::Scale(scale) => Ok(Op::Scale(*scale)),
            Op::Quarter(quarter) => Ok(Op::Quarter(*quarter)),
            Op::Clear => Ok(Op::Clear),
        }
    }
}

/// Returns the picture after an operation; the given one is unchanged. The refusals, in this order:
///
/// - `Backtracks`, of a contour under the turning check, with the first vertex at which its cycle turns straight back;
/// - `TurningZero`, of a contour under the turning check, where the turning number of its cycle is 0;
/// - `OutOfField`, exactly where a pixel of nonzero weight would leave the field;
/// - `WeightTooLarge`, where the weight of some pixel would exceed 32767 in absolute value, and nowhere else;
/// - `OutOfMemory`, where an allocation fails. It may come instead of `WeightTooLarge`, but of none of the others.
///
/// A clear is never refused, nor is a cull of a blank picture, nor adding a blank picture to a blank one or subtracting it.
#[tactic(auto, using(crate::proofs::Faults::may_leave, crate::proofs::Faults::not_turning))]
pub fn after(alloc: Global, picture: &Picture, op: &Op) -> Result<Picture, OpFault>
    ensures step { IfOk result (λ new. new ≡ next_picture picture.now op.now) }
    ensures accepted { OnOk result (op_fault picture.now op.now ≡ None) }
    ensures refused { IfErr result (IsRefusal picture.now op.now) }
    ensures turning { (fault : CycleFault)
        → op_fault picture.now op.now ≡ Some (OpFault.Cycle fault)
        → result ≡ Err (OpFault.Cycle fault) }
    ensures out_of_field { op_fault picture.now op.now ≡ Some OpFault.OutOfField
        → result ≡ Err OpFault.OutOfField }
    ensures clears { op.now ≡ ops.Clear → IsOk result }
    ensures blank { (sign : Sign) → picture.now ≡ [] → op.now ≡ ops.Also [] sign → IsOk result }
    ensures culls_blank { (cull : CullRule) → picture.now ≡ [] → op.now ≡ ops.Cull cull
        → IsOk result }
{
    match op {
        // The turning check comes before the copy, and so this is not `apply` on a copy: a failed copy must not hide its refusal.
        Op::Contour(cycle, weight, check) => {
            let filling = filling_weight(cycle, *weight, *check)?;
            let mut filled = picture.copy(alloc)?;
            fill(alloc, &mut filled, cycle, filling)?;
            Ok(filled)
        }
        Op::Also(other, sign) => {
            let mut sum = picture.copy(alloc)?;
            add(alloc, &mut sum, other, *sign)?;
            Ok(sum)
        }
        Op::Cull(cull) => after_cull(alloc, picture, *cull),
        Op::Shift(right, up) => shift(alloc, picture, *right, *up),
        Op::Scale(factors) => scale(alloc, picture, *factors),
        Op::Quarter(quarter) => turn(alloc, picture, *quarter),
        Op::Clear => Ok(after_clear(alloc, picture)),
    }
}

/// Performs an operation on a picture. Contours and other pictures are added to it in place. The refusals are those of `after`,
/// and leave the picture as it was. Adding or subtracting a blank picture is never refused.
#[tactic(auto, using(crate::proofs::Faults::may_leave, crate::proofs::Faults::not_turning))]
pub fn apply(alloc: Global, picture: &mut Picture, op: &Op) -> Result<(), OpFault>
    ensures step { OnOk result (picture.new ≡ next_picture picture.old op.now) }
    ensures unchanged { OnErr result (picture.new ≡ picture.old) }
    ensures accepted { OnOk result (op_fault picture.old op.now ≡ None) }
    ensures refused { IfErr result (IsRefusal picture.old op.now) }
    ensures turning { (fault : CycleFault)
        → op_fault picture.old op.now ≡ Some (OpFault.Cycle fault)
        → result ≡ Err (OpFault.Cycle fault) }
    ensures out_of_field { op_fault picture.old op.now ≡ Some OpFault.OutOfField
        → result ≡ Err OpFault.OutOfField }
    ensures clears { op.now ≡ ops.Clear → IsOk result }
    ensures blank { (sign : Sign) → op.now ≡ ops.Also [] sign → IsOk result }
    ensures culls_blank { (cull : CullRule) → picture.old ≡ [] → op.now ≡ ops.Cull cull
        → IsOk result }
{
    match op {
        Op::Contour(cycle, weight, check) => {
            let weight = filling_weight(cycle, *weight, *check)?;
            fill(alloc, picture, cycle, weight)
        }
        Op::Also(other, sign) => add(alloc, picture, other, *sign),
        Op::Cull(_) | Op::Shift(_, _) | Op::Scale(_) | Op::Quarter(_) => {
            picture.settle(alloc);
            *picture = after(alloc, picture, op)?;
            Ok(())
        }
        Op::Clear => {
            *picture = after_clear(alloc, picture);
            Ok(())
        }
    }
}

/// The picture after a cull.
fn after_cull(alloc: Global, picture: &Picture, cull: Cull) -> Result<Picture, OpFault>
    ensures step { IfOk result (λ new. new ≡ next_picture picture.now (ops.Cull cull)) }
    ensures accepted { OnOk result (op_fault picture.now (ops.Cull cull) ≡ None) }
    ensures refused { IfErr result (λ fault. fault ≡ OpFault.OutOfMemory) }
    ensures blank { picture.now ≡ [] → IsOk result }
{
    Ok(picture.map_weights(alloc, &cull.weight_map())?)
}

/// The picture after a clear: the blank one.
fn after_clear(alloc: Global, picture: &Picture) -> Picture
    ensures step { result ≡ next_picture picture.now ops.Clear }
    ensures accepted { op_fault picture.now ops.Clear ≡ None }
{
    Picture::blank(alloc)
}
