//! The picture variables of a script.
ghost use Rattle.std.specs.Prelude.{◌≡◌, ◌≢◌, [], IfOk};
ghost use Rattle.mf_live.specs.declared.fault.Fault.TheVariants as faults;
ghost use Rattle.mf_desk_session.specs.Refusals.{refusal_line};

use crate::refusal::{Refusal, refusal_line};
use crate::registers::Registers;
use mf_base::OutOfMemory;
use mf_live::{Desk, Fault, Writer, open_picture};
use mf_ops::{Op, OpFault};
use mf_rows::{Picture, Sign};
use mf_text::{Name, Source};
use std::alloc::Global;
use std::sync::Wait;

/// The live picture `currentpicture`, held by its writer, and the pictures of the registers. It is not `Drop`, since ending the
/// writer may mean waiting for looks: take the writer with `into_writer`, and end that.
pub struct Variables {
    pub(crate) writer: Writer,
    pub(crate) registers: Registers,
    /// `nullpicture`
    pub(crate) null: Picture,
    ghost blank: { null ≡ [] },
}

impl Variables {
    ghost use Rattle.std.specs.Prelude.{◌≡◌, ◌<◌, ◌≤◌, IfOk, IsOk, OnErr};
    ghost use Rattle.mf_live.specs.Desks.{desk_identity, most_places, remaining_viewers};
    ghost use Rattle.mf_live.specs.Entries.{revision_at};
    ghost use Rattle.mf_ops.specs.declared.op.Op.TheVariants as ops;
    ghost use Rattle.mf_text.specs.Registers.{IsName, IsSource, register_count};
    ghost use Rattle.mf_text.specs.declared.command.Name.TheVariants as names;
    ghost use Rattle.mf_desk_session.specs.Changes.{IsClearable, op_on};
    ghost use Rattle.mf_desk_session.specs.Pictures.{blank_pictures, picture, source_picture};
    ghost use Rattle.mf_desk_session.specs.Variables.{OperatesOn, PublishesAll, identity, max_ops, pictures};

    /// Blank pictures, and the desk for viewers of `currentpicture`, with at most `places` of them. `currentpicture` accepts at
    /// most `max_ops` operations.
    pub fn blank<R: Wait>(
        rt: &R,
        alloc: Global,
        places: u32,
        max_ops: u32,
    ) -> Result<(Variables, Desk), OutOfMemory>
        requires { places ≤ most_places }
        ensures blank { IfOk result (λ made. pictures made.0 ≡ blank_pictures) }
        ensures max_ops { IfOk result (λ made.
            Rattle.mf_desk_session.specs.Variables.max_ops made.0 ≡ max_ops) }
        ensures identity { IfOk result (λ made. desk_identity made.1 ≡ identity made.0) }
        ensures places { IfOk result (λ made. remaining_viewers made.1 ≤ places) }
    {
        let registers = Registers::blank(alloc)?;
        let (writer, desk) = open_picture(rt, alloc, places, max_ops)?;
        let variables = Variables {
            writer,
            registers,
            null: Picture::blank(alloc),
        };
        Ok((variables, desk))
    }

    /// The picture with this name.
    pub fn picture(&self, name: &Name) -> &Picture
        requires { IsName name.now }
        ensures { result.now ≡ picture (pictures self.now) name.now }
    {
        match name {
            Name::Current => self.writer.working(),
            Name::Register(number) => self.registers.picture(*number),
        }
    }

    /// The revision of `currentpicture`: how many operations it has accepted.
    pub fn revision(&self) -> u32
        ensures { result ≡ revision_at (pictures self.now).accepted }
    {
        self.writer.revision()
    }

    /// The picture that a command reads.
    pub fn source(&self, source: &Source) -> &Picture
        requires { IsSource source.now }
        ensures { result.now ≡ source_picture (pictures self.now) source.now }
    {
        match source {
            Source::Null => &self.null,
            Source::Named(name) => self.picture(name),
        }
    }

    /// Joins the parts of the picture that a command reads, as far as there is memory for that. All pictures stay as they are.
    pub fn settle(&mut self, alloc: Global, source: &Source)
        requires { IsSource source.now }
        ensures pictures { pictures self.new ≡ pictures self.old }
        ensures max_ops { max_ops self.new ≡ max_ops self.old }
        ensures identity { identity self.new ≡ identity self.old }
    {
        match source {
            Source::Null => {}
            Source::Named(Name::Current) => self.writer.settle(alloc),
            Source::Named(Name::Register(number)) => self.registers.settle(alloc, *number),
        }
    }

    /// Adds or subtracts a picture. It may be the one that is changed, and then has its value before the command.
    pub fn add(
        &mut self,
        alloc: Global,
        name: Name,
        source: Source,
        sign: Sign,
    ) -> Result<Vec<u8>, OutOfMemory>
        requires name { IsName name }
        requires source { IsSource source }
        ensures answer { IfOk result (λ text.
            OperatesOn self.old
            (op_on name (ops.Also (source_picture (pictures self.old) source) sign)) text.items
            self.new) }
        ensures unchanged { OnErr result (pictures self.new ≡ pictures self.old) }
        ensures max_ops { max_ops self.new ≡ max_ops self.old }
        ensures identity { identity self.new ≡ identity self.old }
    {
        let operand = self.operand(alloc, source)?;
        self.operate(alloc, name, Op::Also(operand, sign))
    }

    /// A picture equal to the one that a command reads. For `nullpicture` nothing is copied.
    fn operand(&self, alloc: Global, source: Source) -> Result<Picture, OutOfMemory>
        requires { IsSource source }
        ensures { IfOk result (λ operand. operand ≡ source_picture (pictures self.now) source) }
    {
        match source {
            Source::Null => Ok(Picture::blank(alloc)),
            Source::Named(name) => self.picture(&name).copy(alloc),
        }
    }

    /// Changes a picture by an operation, and answers with what that prints.
    pub fn operate(&mut self, alloc: Global, name: Name, op: Op) -> Result<Vec<u8>, OutOfMemory>
        requires { IsName name }
        ensures answer { IfOk result (λ text.
            OperatesOn self.old (op_on name op) text.items self.new) }
        ensures unchanged { OnErr result (pictures self.new ≡ pictures self.old) }
        ensures clears { op ≡ ops.Clear → IsClearable (max_ops self.old) (pictures self.old) name
            → IsOk result }
        ensures max_ops { max_ops self.new ≡ max_ops self.old }
        ensures identity { identity self.new ≡ identity self.old }
    {
        match name {
            Name::Current => self.operate_on_current(alloc, op),
            Name::Register(number) => self.operate_on_register(alloc, number, op),
        }
    }

    /// Changes `currentpicture`.
    fn operate_on_current(&mut self, alloc: Global, op: Op) -> Result<Vec<u8>, OutOfMemory>
        ensures answer { IfOk result (λ text.
            OperatesOn self.old (op_on names.Current op) text.items self.new) }
        ensures unchanged { OnErr result (pictures self.new ≡ pictures self.old) }
        ensures clears { op ≡ ops.Clear
            → IsClearable (max_ops self.old) (pictures self.old) names.Current → IsOk result }
        ensures max_ops { max_ops self.new ≡ max_ops self.old }
        ensures identity { identity self.new ≡ identity self.old }
    {
        match self.writer.apply(alloc, op) {
            Ok(()) => Ok(Vec::new(alloc)),
            Err((_, fault)) => operation_refusal(alloc, fault),
        }
    }

    /// Changes a register.
    fn operate_on_register(
        &mut self,
        alloc: Global,
        number: u8,
        op: Op,
    ) -> Result<Vec<u8>, OutOfMemory>
        requires { number < register_count }
        ensures answer { IfOk result (λ text.
            OperatesOn self.old (op_on (names.Register number) op) text.items self.new) }
        ensures unchanged { OnErr result (pictures self.new ≡ pictures self.old) }
        ensures clears { op ≡ ops.Clear → IsOk result }
        ensures max_ops { max_ops self.new ≡ max_ops self.old }
        ensures identity { identity self.new ≡ identity self.old }
    {
        match self.registers.apply(alloc, number, &op) {
            Ok(()) => Ok(Vec::new(alloc)),
            Err(fault) => operation_refusal(alloc, Fault::Refused(fault)),
        }
    }

    /// Publishes what `currentpicture` has become. The text is made first, since nothing may fail after the publish.
    pub fn publish<R: Wait>(&mut self, rt: &R, alloc: Global) -> Result<Vec<u8>, OutOfMemory>
        ensures answer { IfOk result (λ text. PublishesAll self.old text.items self.new) }
        ensures unchanged { OnErr result (pictures self.new ≡ pictures self.old) }
        ensures max_ops { max_ops self.new ≡ max_ops self.old }
        ensures identity { identity self.new ≡ identity self.old }
    {
        let revision = self.writer.revision();
        let text = format!(in alloc; "published {revision}\n")?.into_bytes();
        self.writer.publish(rt)?;
        Ok(text)
    }

    /// The writer of `currentpicture`, unchanged.
    pub fn into_writer(self) -> Writer
        ensures { result ≡ self.writer }
    {
        let Variables {
            writer,
            registers: _,
            null: _,
        } = self;
        writer
    }
}

/// What a refused operation prints. `OutOfMemory` is never printed.
fn operation_refusal(alloc: Global, fault: Fault) -> Result<Vec<u8>, OutOfMemory>
    ensures text { IfOk result (λ text. text.items ≡ refusal_line (Refusal.Operation fault)) }
    ensures memory { IfOk result (λ _. fault ≢ faults.Refused OpFault.OutOfMemory) }
{
    if let Fault::Refused(OpFault::OutOfMemory) = fault {
        return Err(OutOfMemory);
    }
    refusal_line(alloc, Refusal::Operation(fault))
}
