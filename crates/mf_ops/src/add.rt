//! Adds one picture to another, or subtracts it.
ghost use Rattle.std.specs.Prelude.{◌≡◌, [], None, IsOk, IfErr, OnOk, OnErr};
ghost use Rattle.mf_ops.specs.Step.{IsRefusal, next_picture, op_fault};
ghost use Rattle.mf_ops.specs.declared.op.Op.TheVariants.{Also};

use crate::op::OpFault;
use mf_rows::{Picture, Sign};
use std::alloc::Global;

/// Adds another picture to a picture, or subtracts it. A refusal leaves the picture as it was; adding or subtracting a blank
/// picture is never refused.
#[inline(always)]
pub fn add(alloc: Global, picture: &mut Picture, other: &Picture, sign: Sign) -> Result<(), OpFault>
    ensures step { OnOk result (picture.new ≡ next_picture picture.old (Also other.now sign)) }
    ensures unchanged { OnErr result (picture.new ≡ picture.old) }
    ensures accepted { OnOk result (op_fault picture.old (Also other.now sign) ≡ None) }
    ensures refused { IfErr result (IsRefusal picture.old (Also other.now sign)) }
    ensures blank { other.now ≡ [] → IsOk result }
{
    match sign {
        Sign::Plus => Ok(picture.add(alloc, other)?),
        Sign::Minus => Ok(picture.subtract(alloc, other)?),
    }
}
