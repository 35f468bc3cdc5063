//! Performing lines one after another, and writing what each prints before the next is performed.
ghost use Rattle.std.specs.Prelude.{◌≡◌, ◌+◌, ◌≤◌, IfErr, IfOk, OnOk};
ghost use Rattle.mf_desk.specs.Faults.{BreaksOff, StopsAfter};
ghost use Rattle.mf_desk.specs.Performer.{IsLineText, IsWritten, longest_text, most_counted_bytes};
ghost use Rattle.mf_desk.specs.Streams.{Gets};
ghost use Rattle.mf_desk.specs.declared.observer.Effect.TheVariants.{Shipped};
ghost use Rattle.mf_desk.specs.declared.observer.Shipment.{Shipment};
ghost use Rattle.mf_desk_session.specs.Sessions.{identity, limits};
ghost use Rattle.mf_text.specs.Registers.{IsSource};

use crate::fault::RunFault;
use crate::observer::{Effect, Observer, PerformedLine, Stopped, effect_of};
use mf_base::write_counted;
use mf_desk_session::Session;
use mf_text::read_command;
use std::alloc::Global;
use std::io::Write;
use std::sync::Wait;

/// A session, and what was done with it.
pub struct Performer {
    pub session: Session,
    /// Number of bytes that were written since the run began. It has 128 bits, since a text alone may have nearly 2^64 bytes.
    pub written: u128,
    /// Number of lines that were performed, modulo 2^64.
    pub lines: u64,
}

impl Performer {
    /// Performs a line, writes its text, and tells the observer. Refused with `OutOfMemory`, with `WriteFault`, which counts all
    /// bytes that were written in the run, and with the fault of the observer, after the text.
    pub fn perform<S: Wait, W: Write, O: Observer>(
        &mut self,
        rt: &S,
        alloc: Global,
        writer: &mut W,
        line: &[u8],
        observer: &mut O,
    ) -> Result<(), Stopped<O::Fault>>
        requires { self.old.written + longest_text ≤ most_counted_bytes }
        ensures written { OnOk result
            (Gets (W.contents writer.old) (W.contents writer.new)
            (IsWritten self.old line.now self.new)) }
        ensures at_most { OnOk result (self.new.written ≤ self.old.written + longest_text) }
        ensures limits { limits self.new.session ≡ limits self.old.session }
        ensures identity { identity self.new.session ≡ identity self.old.session }
        ensures fault { IfErr result (λ stopped.
            Gets (W.contents writer.old) (W.contents writer.new)
            (StopsAfter (IsLineText self.old line.now) self.old.written stopped)) }
    {
        let effect = self.answer(rt, alloc, writer, line)?;
        self.lines = self.lines.wrapping_add(1);
        let number = self.lines;
        match observer.note_line(PerformedLine { number, effect }, &self.session) {
            Ok(()) => Ok(()),
            Err(fault) => Err(Stopped::Observer(fault)),
        }
    }

    /// Performs a line and writes its text. Returns what the line has done. An empty line prints nothing and changes nothing, so
    /// nothing is done for it.
    fn answer<S: Wait, W: Write>(
        &mut self,
        rt: &S,
        alloc: Global,
        writer: &mut W,
        line: &[u8],
    ) -> Result<Effect, RunFault>
        requires { self.old.written + longest_text ≤ most_counted_bytes }
        ensures written { OnOk result
            (Gets (W.contents writer.old) (W.contents writer.new)
            (IsWritten self.old line.now self.new)) }
        ensures source { IfOk result (λ effect.
            (shipment : Shipment) → effect ≡ Shipped shipment → IsSource shipment.source) }
        ensures at_most { OnOk result (self.new.written ≤ self.old.written + longest_text) }
        ensures limits { limits self.new.session ≡ limits self.old.session }
        ensures identity { identity self.new.session ≡ identity self.old.session }
        ensures fault { IfErr result (λ fault.
            Gets (W.contents writer.old) (W.contents writer.new)
            (BreaksOff (IsLineText self.old line.now) self.old.written fault)) }
    {
        if line.is_empty() {
            return Ok(Effect::Other);
        }
        let read = read_command(alloc, line);
        let asked = effect_of(&read);
        let text = self.session.answer_to(rt, alloc, read)?;
        match write_counted(writer, text.as_slice()) {
            Ok(()) => {
                self.written += text.len() as u128;
                Ok(asked.unless_refused(text.as_slice()))
            }
            Err(count) => Err(RunFault::WriteFault(self.written + count as u128)),
        }
    }
}
