//! How a session performs commands.
ghost use Rattle.std.specs.Prelude.{◌≡◌, [], IfOk, IsOk, OnErr};
ghost use Rattle.mf_geom.specs.declared.check.Check.{Check};
ghost use Rattle.mf_text.specs.Registers.{HasNames, IsSource};
ghost use Rattle.mf_desk_session.specs.Answers.{AnswersTo, ProofAnswers, total_line};
ghost use Rattle.mf_desk_session.specs.Changes.{IsClearable};
ghost use Rattle.mf_desk_session.specs.Sessions.{HasAnswered, StandsFor, identity, limits};
ghost use Rattle.mf_desk_session.specs.States.{State};
ghost use Rattle.mf_text.specs.declared.command.Command.TheVariants as commands;
ghost use Rattle.mf_text.specs.declared.command.Name.{Name};

use super::Session;
use crate::refusal::{Refusal, refusal_line};
use itoa::Buffer;
use mf_base::OutOfMemory;
use mf_geom::Check;
use mf_gf::GfFault;
use mf_ops::Op;
use mf_rows::Picture;
use mf_text::{Command, Source};
use mf_text_show::{GridFault, proof_grid, show_runs};
use std::alloc::Global;
use std::sync::Wait;

/// The greatest number of bytes of a line that `show totalweight` prints: the word, a space, a number of 64 bits, a line feed.
const TOTAL_LINE: usize = 33;

impl Session {
    /// Performs a command, and answers with what it prints. All operations share one call of `operate`: the memory for the arguments of
    /// each call in this body is zeroed on entry, whatever the command, so a call in each arm would make every line slower.
    pub(crate) fn perform<R: Wait>(
        &mut self,
        rt: &R,
        alloc: Global,
        command: Command,
    ) -> Result<Vec<u8>, OutOfMemory>
        requires { HasNames command }
        ensures answer { IfOk result (λ text.
            (s : State) → StandsFor self.old s
            → HasAnswered self.new text.items (AnswersTo (limits self.old) s command)) }
        ensures nothing { command ≡ commands.Nothing → IsOk result }
        ensures turning { (check : Check) → command ≡ commands.Turning check → IsOk result }
        ensures clears { (s : State) (name : Name) → StandsFor self.old s
            → command ≡ commands.Clear name → IsClearable (limits self.old).max_ops s.pictures name
            → IsOk result }
        ensures unchanged { OnErr result
            ((s : State) → StandsFor self.old s → StandsFor self.new s) }
        ensures limits { limits self.new ≡ limits self.old }
        ensures identity { identity self.new ≡ identity self.old }
    {
        let (name, op) = match command {
            Command::Nothing => return Ok(Vec::new(alloc)),
            Command::Turning(check) => return Ok(self.set_check(alloc, check)),
            Command::Also(name, source, sign) => {
                return self.variables.add(alloc, name, source, sign);
            }
            Command::Total(source) => return total(alloc, self.variables.source(&source)),
            Command::Show(source) => return show_runs(alloc, self.variables.source(&source)),
            Command::Proof(source) => return proof(alloc, self.variables.source(&source)),
            Command::Ship(source, code, dx, width) => {
                return self.ship(alloc, source, code, dx, width);
            }
            Command::Publish => return self.variables.publish(rt, alloc),
            Command::Contour(name, cycle, weight) => (name, Op::Contour(cycle, weight, self.check)),
            Command::Cull(name, cull) => (name, Op::Cull(cull)),
            Command::Clear(name) => (name, Op::Clear),
            Command::Shift(name, right, up) => (name, Op::Shift(right, up)),
            Command::Scale(name, factors) => (name, Op::Scale(factors)),
            Command::Quarter(name, quarter) => (name, Op::Quarter(quarter)),
        };
        self.variables.operate(alloc, name, op)
    }

    /// Joins the parts of the picture that a command reads through, as far as there is memory for that: the next such command costs less.
    pub(crate) fn settle(&mut self, alloc: Global, command: &Command)
        requires { HasNames command.now }
        ensures same { (s : State) → StandsFor self.old s → StandsFor self.new s }
        ensures limits { limits self.new ≡ limits self.old }
        ensures identity { identity self.new ≡ identity self.old }
    {
        match command {
            Command::Total(source) => self.variables.settle(alloc, source),
            Command::Show(source) => self.variables.settle(alloc, source),
            Command::Proof(source) => self.variables.settle(alloc, source),
            Command::Ship(source, _, _, _) => self.variables.settle(alloc, source),
            _ => {}
        }
    }

    /// Sets the turning check. It prints nothing.
    fn set_check(&mut self, alloc: Global, check: Check) -> Vec<u8>
        ensures text { result.items ≡ [] }
        ensures check { self.new.check ≡ check }
        ensures variables { self.new.variables ≡ self.old.variables }
        ensures file { self.new.file ≡ self.old.file }
    {
        self.check = check;
        Vec::new(alloc)
    }

    /// Ships a character. Its text is made first, since nothing may fail after the shipping.
    fn ship(
        &mut self,
        alloc: Global,
        source: Source,
        code: u8,
        dx: i32,
        width: i32,
    ) -> Result<Vec<u8>, OutOfMemory>
        requires { IsSource source }
        ensures answer { IfOk result (λ text.
            (s : State) → StandsFor self.old s
            → HasAnswered self.new text.items
            (AnswersTo (limits self.old) s (commands.Ship source code dx width))) }
        ensures unchanged { OnErr result
            ((s : State) → StandsFor self.old s → StandsFor self.new s) }
        ensures limits { limits self.new ≡ limits self.old }
        ensures identity { identity self.new ≡ identity self.old }
    {
        let text = format!(in alloc; "[{code}]\n")?.into_bytes();
        let picture = self.variables.source(&source);
        match self.file.ship(code, dx, width, picture) {
            Ok(()) => Ok(text),
            Err(GfFault::FileTooLong) => refusal_line(alloc, Refusal::FileTooLong),
            Err(GfFault::NoCharacters | GfFault::CommentTooLong | GfFault::OutOfMemory) => Err(
                OutOfMemory,
            ),
        }
    }
}

/// What `show totalweight` prints. It is a line of many scripts, so room for the longest is made at once.
fn total(alloc: Global, picture: &Picture) -> Result<Vec<u8>, OutOfMemory>
    ensures { IfOk result (λ text. text.items ≡ total_line picture.now) }
{
    let mut text = Vec::with_capacity(alloc, TOTAL_LINE)?;
    text.extend_from_slice(b"totalweight ")?;
    text.extend_from_slice(Buffer::new().format(picture.total()).as_bytes())?;
    text.push(b'\n')?;
    Ok(text)
}

/// What `proof` prints: the grid text, or the refusal of one that would be too large.
fn proof(alloc: Global, picture: &Picture) -> Result<Vec<u8>, OutOfMemory>
    ensures { IfOk result (λ text. ProofAnswers picture.now text.items) }
{
    match proof_grid(alloc, picture) {
        Ok(text) => Ok(text),
        Err(GridFault::ProofTooLarge) => refusal_line(alloc, Refusal::ProofTooLarge),
        Err(GridFault::OutOfMemory) => Err(OutOfMemory),
    }
}
