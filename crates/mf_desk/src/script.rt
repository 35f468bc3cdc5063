//! A run without viewers: reads a script to its end, writes its transcript, and makes the font file of what it ships.
ghost use Rattle.std.specs.Io.KnownBytes.{IsAtEnd};
ghost use Rattle.std.specs.Prelude.{◌≡◌, ◌<◌, ℕ, Err, IfErr, IfOk, OnOk};
ghost use Rattle.mf_desk.specs.Performances.{Performs, TellsOfRun, task};
ghost use Rattle.mf_desk.specs.Streams.{Passes, streams_of};
ghost use Rattle.mf_desk_session.specs.States.{least_bytes};

use crate::fault::RunFault;
use crate::outcome::Outcome;
use crate::progress::Progress;
use crate::settings::Settings;
use std::alloc::Global;
use std::io::{Read, Write};
use std::sync::Wait;

/// Reads a script to its end, line by line, and writes the transcript: the text of each line goes to the writer before the next
/// line is performed, and the writer is flushed before each read and after the last text. The outcome is the font file of the
/// characters that the script has shipped, and no record. Refused with `OutOfMemory`, `FileTooLong`, `ReadFault` or `WriteFault`;
/// [`RunFault`] says what each means, and what was written by then. Of the script it keeps the bytes of one read, and at most
/// 65,538 bytes of the line that no line feed has ended yet: enough to know that a line is too long. There is no look to wait for.
#[tactic(auto, using(std::proofs::lemmas::Result::err_from_is_err_and))]
pub fn run<S: Wait, R: Read, W: Write>(
    rt: &S,
    alloc: Global,
    reader: &mut R,
    writer: &mut W,
    settings: &Settings,
) -> Result<Outcome, RunFault>
    ensures transcript { IfOk result (λ outcome. (looks : ℕ)
        → Performs (task settings.now 0 looks)
        (streams_of R.remaining reader.old reader.new W.contents writer.old writer.new) outcome) }
    ensures end { OnOk result (IsAtEnd (R.remaining reader.new)) }
    ensures fault { IfErr result (λ fault.
        Passes (streams_of R.remaining reader.old reader.new W.contents writer.old writer.new)
        (TellsOfRun settings.now 0 fault)) }
    ensures too_small { settings.now.max_bytes < least_bytes
        → result ≡ Err RunFault.FileTooLong }
    ensures untouched { settings.now.max_bytes < least_bytes
        → (reader.new ≡ reader.old) × (writer.new ≡ writer.old) }
{
    let (progress, _) = Progress::new(rt, alloc, settings, 0)?;
    let ended = progress.complete(rt, alloc, reader, writer)?;
    let seen = Vec::new(alloc);
    ended.conclude(rt, settings, seen)
}
