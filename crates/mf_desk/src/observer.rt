//! Observers of a run.
ghost use Rattle.std.specs.List.{starts_with};
ghost use Rattle.std.specs.Prelude.{◌≡◌, ◌↔◌, IfOk, Ok, codes, nat_eq, if◌then◌else◌};
ghost use Rattle.mf_desk.specs.declared.observer.Effect.TheVariants.{Published, Refused, Shipped};
ghost use Rattle.mf_desk.specs.declared.observer.Shipment.{Shipment};
ghost use Rattle.mf_desk.specs.declared.observer.Stopped.TheVariants.{Run as ByRun};
ghost use Rattle.mf_text.specs.Registers.{HasNames, IsSource};
ghost use Rattle.mf_text.specs.declared.command.Command.TheVariants as commands;

use crate::fault::RunFault;
use mf_desk_session::Session;
use mf_text::{Command, Source, TextFault};
use std::convert::Infallible;

/// Someone who is told of each line of a run, after it was performed and its text was written. The next line is performed when the
/// observer has answered.
pub trait Observer {
    /// Why the observer ends the run.
    type Fault;

    /// Takes note of a line, with the session as it is after it. A fault ends the run, and no other line is performed. A register
    /// whose picture was shipped has a number of at most 25.
    fn note_line(&mut self, line: PerformedLine, session: &Session) -> Result<(), Self::Fault>
        requires { (shipment : Shipment) → line.effect ≡ Shipped shipment
            → IsSource shipment.source };
}

/// Nobody takes note of anything.
impl Observer for () {
    type Fault = Infallible;

    fn note_line(&mut self, _line: PerformedLine, _session: &Session) -> Result<(), Infallible> {
        Ok(())
    }
}

/// A line that was performed, as an observer is told of it.
#[derive(Clone, Copy, Debug)]
pub struct PerformedLine {
    /// Its number in the script, from 1 on. It counts from 0 again after 2^64 - 1.
    pub number: u64,
    /// What it has done.
    pub effect: Effect,
}

/// What a line has done, as far as observers ask.
#[derive(Clone, Copy, Debug, PartialEq, Eq)]
pub enum Effect {
    /// It has published `currentpicture`.
    Published,
    /// It has shipped this character.
    Shipped(Shipment),
    /// It was refused, and has changed nothing.
    Refused,
    /// It has done something else, or nothing.
    Other,
}

/// A character that was shipped. Its picture is what its source was before the line, and still is after it.
#[derive(Clone, Copy, Debug, PartialEq, Eq)]
pub struct Shipment {
    pub source: Source,
    pub code: u8,
    /// In 1/65536 pixel.
    pub dx: i32,
    /// In 1/1048576 of the design size.
    pub width: i32,
}

/// Why a run has stopped before its end.
#[derive(Clone, Copy, Debug)]
pub enum Stopped<F> {
    /// The run itself has failed.
    Run(RunFault),
    /// The observer has ended it, after the text of a line.
    Observer(F),
}

impl<F> From<RunFault> for Stopped<F> {
    ghost from_gives = { λ fault stopped. stopped ≡ ByRun fault };

    fn from(fault: RunFault) -> Stopped<F> {
        Stopped::Run(fault)
    }
}

impl Stopped<Infallible> {
    /// The fault of a run that nobody ends.
    pub fn into_fault(self) -> RunFault
        ensures { self ≡ ByRun result }
    {
        match self {
            Stopped::Run(fault) => fault,
            Stopped::Observer(never) => match never {},
        }
    }
}

/// What a line does, unless it is refused.
pub(crate) fn effect_of(read: &Result<Command, TextFault>) -> Effect
    requires { IfOk read.now HasNames }
    ensures published { (result ≡ Published) ↔ (read.now ≡ Ok commands.Publish) }
    ensures shipped { (s : Shipment) → (result ≡ Shipped s)
        ↔ (read.now ≡ Ok (commands.Ship s.source s.code s.dx s.width)) }
    ensures source { (shipment : Shipment) → result ≡ Shipped shipment
        → IsSource shipment.source }
{
    match read {
        Ok(Command::Publish) => Effect::Published,
        Ok(Command::Ship(source, code, dx, width)) => Effect::Shipped(Shipment {
            source: *source,
            code: *code,
            dx: *dx,
            width: *width,
        }),
        _ => Effect::Other,
    }
}

impl Effect {
    /// What a line has done that has printed this: where it was refused, it prints `refused` and why.
    pub(crate) fn unless_refused(self, text: &[u8]) -> Effect
        ensures told { result
            ≡ (if starts_with nat_eq text.now (codes "refused ") then Refused else self) }
    {
        if text.starts_with(b"refused ") {
            Effect::Refused
        } else {
            self
        }
    }
}
