//! The registers `a` to `z`, each of which keeps a picture.
ghost use Rattle.std.specs.Prelude.{◌≡◌, ◌<◌, [], None, Some, Err, IfOk, IfErr, IsOk, OnOk, OnErr, replicate, slice_index_or, slice_set};
ghost use Rattle.mf_geom.specs.declared.cycle.CycleFault.{CycleFault};
ghost use Rattle.mf_ops.specs.Step.{IsRefusal, next_picture, op_fault};
ghost use Rattle.mf_ops.specs.declared.op.Op.TheVariants as ops;

use mf_base::OutOfMemory;
use mf_ops::{Op, OpFault, apply};
use mf_rows::Picture;
use std::alloc::Global;
use std::marker::Model;

/// How many registers there are: one for each letter.
const COUNT: usize = 26;

/// The pictures of the registers.
#[derive(Drop)]
pub struct Registers {
    pictures: Vec<Picture>,
}

impl Model for Registers {
    ghost use Rattle.std.specs.Prelude.{◌≡◌, List, length};
    ghost use Rattle.mf_rows.specs.Dots.{Dot};
    ghost use Rattle.mf_desk_session.specs.declared.registers.TheConstants.{COUNT};

    ghost Value = { List (List Dot) };

    ghost view = { λ r. r.pictures.items };

    ghost invariant = { λ r. length r.pictures.items ≡ COUNT };
}

impl Registers {
    /// Registers with blank pictures.
    pub fn blank(alloc: Global) -> Result<Registers, OutOfMemory>
        ensures { IfOk result (λ registers. registers ≡ replicate COUNT []) }
    {
        let mut pictures = Vec::with_capacity(alloc, COUNT)?;
        for _ in 0..COUNT {
            pictures.push(Picture::blank(alloc))?;
        }
        Ok(Registers { pictures })
    }

    /// The picture of a register, by its number: from 0 for `a` to 25 for `z`.
    pub fn picture(&self, number: u8) -> &Picture
        requires { number < COUNT }
        ensures { result.now ≡ slice_index_or self.now number [] }
    {
        &self.pictures[number as usize]
    }

    /// Joins the parts of the picture of a register, as far as there is memory for that. The picture stays as it is.
    pub fn settle(&mut self, alloc: Global, number: u8)
        requires { number < COUNT }
        ensures { self.new ≡ self.old }
    {
        self.pictures[number as usize].settle(alloc);
    }

    /// Performs an operation on the picture of a register. It is refused as `mf_ops::apply` refuses it, and then nothing changes.
    pub fn apply(&mut self, alloc: Global, number: u8, op: &Op) -> Result<(), OpFault>
        requires { number < COUNT }
        ensures step { OnOk result
            (self.new
            ≡ slice_set self.old number
            (next_picture (slice_index_or self.old number []) op.now)) }
        ensures unchanged { OnErr result (self.new ≡ self.old) }
        ensures accepted { OnOk result
            (op_fault (slice_index_or self.old number []) op.now ≡ None) }
        ensures refused { IfErr result (IsRefusal (slice_index_or self.old number []) op.now) }
        ensures turning { (fault : CycleFault)
            → op_fault (slice_index_or self.old number []) op.now ≡ Some (OpFault.Cycle fault)
            → result ≡ Err (OpFault.Cycle fault) }
        ensures out_of_field { op_fault (slice_index_or self.old number []) op.now
            ≡ Some OpFault.OutOfField → result ≡ Err OpFault.OutOfField }
        ensures clears { op.now ≡ ops.Clear → IsOk result }
    {
        apply(alloc, &mut self.pictures[number as usize], op)
    }
}
