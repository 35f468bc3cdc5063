//! The program that `main` calls: from its words and streams to its exit status.
ghost use Rattle.std.specs.Io.KnownBytes.{IsAtEnd};
ghost use Rattle.std.specs.Prelude.{◌≡◌, ◌≤◌, ◌⊎◌, IfErr, IfOk, OnOk, option_map, string_bytes};
ghost use Rattle.mf_base.specs.Messages.{GetsFront};
ghost use Rattle.mf_cli_options.specs.Values.{texts_of};
ghost use Rattle.mf_cli.specs.CommandLine.{IsCommandLine, gf_in, greatest_viewers, viewers_in};
ghost use Rattle.mf_cli.specs.Faults.{ReportsFault, TellsOfProgram};
ghost use Rattle.mf_cli.specs.Messages.{IsFaultStatus, message_of, status_of, usage};
ghost use Rattle.mf_cli.specs.Output.{EndsWell, looks, settings};
ghost use Rattle.mf_desk.specs.Performances.{Performs, TellsOfRun, task};
ghost use Rattle.mf_desk.specs.Streams.{Passes, streams_of};

use crate::fault::ProgramFault;
use crate::words::{USAGE, Words, read_words};
use mf_cli_options::{
    BAD_WORDS, DONE, RESOURCE_FAULT, STREAM_FAULT, WordsFault, refuse_words, report_fault,
};
use mf_desk::{OpenGate, Outcome, RunFault, Settings, write_font};
use mf_desk_session::{MAX_BYTES, MAX_OPS};
use mf_gf::FontWords;
use std::alloc::Global;
use std::io::{Read, Write};
use std::rt::Files;
use std::sync::{Arc, Wait};
use std::thread::Threads;

/// The limits of a script, and the numbers of its font.
const SETTINGS: Settings = Settings {
    max_ops: MAX_OPS,
    max_bytes: MAX_BYTES,
    font: FontWords {
        ds: 0,
        cs: 0,
        hppp: 0,
        vppp: 0,
    },
};

/// How often each viewer looks in its thread. When these looks happen is chance, so none of them is printed.
const LOOKS: u32 = 16;

/// Runs the script that `reader` gives, beside as many viewers as the words ask for. It writes the transcript and then the line
/// of each viewer to `writer`, then the font file where the words ask for one, and one message to `errors` where something went
/// wrong: all of it, or a prefix of it where `errors` fails, which changes no status. Returns the exit status. `words` are those
/// of the command line, and the first is the program's name.
pub fn program<S: Wait + Threads + Files, R: Read, W: Write, E: Write>(
    rt: &S,
    alloc: Global,
    words: Vec<String>,
    reader: &mut R,
    writer: &mut W,
    errors: &mut E,
) -> u8
    ensures statuses { (result ≡ DONE) ⊎ (result ≡ BAD_WORDS) ⊎ (result ≡ STREAM_FAULT)
        ⊎ (result ≡ RESOURCE_FAULT) }
    ensures bad_words { result ≡ BAD_WORDS → IsCommandLine (texts_of words) → ⊥ }
    ensures refused { (IsCommandLine (texts_of words) → ⊥)
        → (result ≡ BAD_WORDS) ⊎ (result ≡ RESOURCE_FAULT) }
    ensures unread { (IsCommandLine (texts_of words) → ⊥) → reader.new ≡ reader.old }
    ensures unwritten { (IsCommandLine (texts_of words) → ⊥) → writer.new ≡ writer.old }
    ensures out_of_memory { (IsCommandLine (texts_of words) → ⊥) → result ≡ RESOURCE_FAULT
        → GetsFront (E.contents errors.old) (E.contents errors.new)
        (message_of (ProgramFault.Run RunFault.OutOfMemory)) }
    ensures quiet { result ≡ DONE → errors.new ≡ errors.old }
    ensures usage { result ≡ BAD_WORDS
        → GetsFront (E.contents errors.old) (E.contents errors.new) usage }
    ensures done { result ≡ DONE → EndsWell (viewers_in (texts_of words)) (gf_in (texts_of words))
        (streams_of R.remaining reader.old reader.new W.contents writer.old writer.new) }
    ensures fault { IsFaultStatus result
        → ReportsFault (texts_of words) result
        (GetsFront (E.contents errors.old) (E.contents errors.new))
        (streams_of R.remaining reader.old reader.new W.contents writer.old writer.new) }
{
    let asked = match read_words(alloc, words) {
        Ok(asked) => asked,
        Err(WordsFault::BadWords) => return refuse_words(errors, USAGE),
        Err(WordsFault::OutOfMemory) => return report(errors, RunFault::OutOfMemory.into()),
    };
    match perform(rt, alloc, reader, writer, &asked) {
        Ok(()) => DONE,
        Err(fault) => report(errors, fault),
    }
}

/// Runs the script as the words ask for it, and then writes the font file where they ask for one. Where the run ends with a fault,
/// it flushes the writer.
fn perform<S: Wait + Threads + Files, R: Read, W: Write>(
    rt: &S,
    alloc: Global,
    reader: &mut R,
    writer: &mut W,
    asked: &Words,
) -> Result<(), ProgramFault>
    requires { asked.now.viewers ≤ greatest_viewers }
    ensures done { OnOk result (EndsWell asked.now.viewers (option_map string_bytes asked.now.gf)
        (streams_of R.remaining reader.old reader.new W.contents writer.old writer.new)) }
    ensures fault { IfErr result (λ fault.
        TellsOfProgram asked.now.viewers (option_map string_bytes asked.now.gf) fault
        (streams_of R.remaining reader.old reader.new W.contents writer.old writer.new)) }
{
    let gf = match run_script(rt, alloc, reader, writer, asked.viewers) {
        Ok(outcome) => outcome.gf,
        // Nothing more goes out after a fault of the writer, whose number counts what did.
        Err(RunFault::WriteFault(count)) => return Err(RunFault::WriteFault(count).into()),
        Err(fault) => {
            // The fault is reported, and not that this fails.
            let _ = writer.flush();
            return Err(fault.into());
        }
    };
    let Some(path) = &asked.gf else {
        return Ok(());
    };
    match gf {
        Some(file) => Ok(write_font(rt, path, &file)?),
        None => Err(ProgramFault::NoCharacters),
    }
}

/// Runs the script beside this many viewers. Without viewers it starts no thread and waits for nobody.
fn run_script<S: Wait + Threads, R: Read, W: Write>(
    rt: &S,
    alloc: Global,
    reader: &mut R,
    writer: &mut W,
    viewers: u32,
) -> Result<Outcome, RunFault>
    requires { viewers ≤ greatest_viewers }
    ensures performance { IfOk result
        (Performs (task settings viewers looks)
        (streams_of R.remaining reader.old reader.new W.contents writer.old writer.new)) }
    ensures fault { IfErr result (λ fault.
        Passes (streams_of R.remaining reader.old reader.new W.contents writer.old writer.new)
        (TellsOfRun settings viewers fault)) }
    ensures end { OnOk result (IsAtEnd (R.remaining reader.new)) }
{
    if viewers == 0 {
        return mf_desk::run(rt, alloc, reader, writer, &SETTINGS);
    }
    let gate = Arc::new(alloc, OpenGate)?;
    mf_desk::perform(rt, alloc, reader, writer, &SETTINGS, viewers, LOOKS, &gate)
}

/// Reports a fault: writes its message, or a prefix of it where `errors` fails, and returns the status.
pub fn report<E: Write>(errors: &mut E, fault: ProgramFault) -> u8
    ensures status { result ≡ status_of fault }
    ensures message { GetsFront (E.contents errors.old) (E.contents errors.new) (message_of fault) }
{
    match fault {
        ProgramFault::Run(cause) => {
            report_fault(errors, "mfpic", cause.name(), None);
            if cause.is_of_stream() {
                STREAM_FAULT
            } else {
                RESOURCE_FAULT
            }
        }
        ProgramFault::NoCharacters => {
            report_fault(errors, "mfpic", "NoCharacters", None);
            STREAM_FAULT
        }
    }
}
