//! The program that `main` calls: from its words and streams to its exit status.
ghost use Rattle.std.specs.Io.KnownBytes.{Appends};
ghost use Rattle.std.specs.Prelude.{◌≡◌, ◌⊎◌, IfErr, IfOk, OnOk, option_map, string_bytes};
ghost use Rattle.mf_base.specs.Messages.{GetsFront, receipt_of};
ghost use Rattle.mf_desk.specs.Performances.{run_limits};
ghost use Rattle.mf_desk.specs.Streams.{streams_of};
ghost use Rattle.mf_cli_options.specs.Values.{texts_of};
ghost use Rattle.mf_view.specs.Endings.{EndsPerformance, EndsShow, Fulfils, IsWatched, ReportsFault, ShowsTo, style_in, transcript_in};
ghost use Rattle.mf_view.specs.Messages.{message_of, status_of, usage};
ghost use Rattle.mf_view.specs.Performances.{manner_in};
ghost use Rattle.mf_view.specs.declared.fault.ProgramFault.{ProgramFault};
ghost use Rattle.mf_view_words.specs.Requests.{IsCommandLine, IsWordsInRange};

use crate::easel::send;
use crate::fault::ProgramFault;
use crate::font::font_words;
use crate::pace::{Pace, Timed};
use crate::performance::{Showing, perform};
use crate::plate::PlateFolder;
use mf_cli_options::{
    BAD_WORDS, DONE, RESOURCE_FAULT, STREAM_FAULT, WordsFault, refuse_words, report_fault,
};
use mf_desk::{Outcome, RunFault, Settings, write_font};
use mf_desk_session::{MAX_BYTES, MAX_OPS};
use mf_view_frame::{Canvas, Style};
use mf_view_words::{HELP, Request, USAGE, VERSION, Words, read_words};
use std::alloc::Global;
use std::fs;
use std::io::{BufWriter, Read, Write};
use std::rt::Files;
use std::sync::Wait;
use std::thread::Threads;
use std::time::Clock;

/// Exit status where the terminal is too small.
pub const TOO_SMALL: u8 = 5;

/// How many bytes of the transcript may wait for its file where the script never rests.
const TRANSCRIPT_SIZE: usize = 65_536;

/// Performs the script that `reader` gives as the words ask for it, and draws its picture on `screen`. The transcript goes to
/// `errors`, unless the words name a file for it. Then it writes the font file where the words ask for one. Where something went
/// wrong, a message goes to `errors` last. Returns the exit status. `words` are those of the command line, and the first is
/// the program's name. A fault of `errors` while a message is written changes no status.
#[tactic(auto, using(crate::proofs::Reports::text_reports_its_fault))]
pub fn program<S: Wait + Threads + Files + Clock + Sync, R: Read, W: Write + Send, E: Write>(
    rt: &S,
    alloc: Global,
    words: Vec<String>,
    reader: &mut R,
    screen: &mut W,
    errors: &mut E,
) -> u8
    ensures statuses { (result ≡ DONE) ⊎ (result ≡ BAD_WORDS) ⊎ (result ≡ STREAM_FAULT)
        ⊎ (result ≡ RESOURCE_FAULT) ⊎ (result ≡ TOO_SMALL) }
    ensures bad_words { result ≡ BAD_WORDS → IsCommandLine (texts_of words) → ⊥ }
    ensures refused { (IsCommandLine (texts_of words) → ⊥)
        → ((result ≡ BAD_WORDS) ⊎ (result ≡ RESOURCE_FAULT)) × (reader.new ≡ reader.old)
        × (screen.new ≡ screen.old) }
    ensures usage { result ≡ BAD_WORDS
        → GetsFront (E.contents errors.old) (E.contents errors.new) usage }
    ensures done { result ≡ DONE
        → Fulfils (texts_of words) (receipt_of W.contents screen.old screen.new)
        (streams_of R.remaining reader.old reader.new E.contents errors.old errors.new) }
    ensures fault { (result ≡ STREAM_FAULT) ⊎ (result ≡ RESOURCE_FAULT) ⊎ (result ≡ TOO_SMALL)
        → ReportsFault (texts_of words) result
        (streams_of R.remaining reader.old reader.new E.contents errors.old errors.new) }
{
    let request = match read_words(alloc, words) {
        Ok(request) => request,
        Err(WordsFault::BadWords) => return refuse_words(errors, USAGE),
        Err(WordsFault::OutOfMemory) => return report(errors, RunFault::OutOfMemory.into()),
    };
    match request {
        Request::Show(words) => match watch(rt, alloc, reader, screen, errors, words) {
            Ok(()) => DONE,
            Err(fault) => report(errors, fault),
        },
        Request::Help => print_text(screen, errors, HELP),
        Request::Version => print_text(screen, errors, VERSION),
    }
}

/// Performs and draws the script as the words ask for it, and writes the font file where they ask for one.
fn watch<S: Wait + Threads + Files + Clock + Sync, R: Read, W: Write + Send, E: Write>(
    rt: &S,
    alloc: Global,
    reader: &mut R,
    screen: &mut W,
    errors: &mut E,
    words: Words,
) -> Result<(), ProgramFault>
    requires { IsWordsInRange words }
    ensures done { OnOk result (IsWatched words (receipt_of W.contents screen.old screen.new)
        (streams_of R.remaining reader.old reader.new E.contents errors.old errors.new)) }
    ensures fault { IfErr result (EndsShow (transcript_in words)
        (streams_of R.remaining reader.old reader.new E.contents errors.old errors.new)) }
{
    let Words {
        columns,
        rows,
        pause,
        frames,
        transcript,
        plates,
        pgm,
        gf,
        design_size,
        resolution,
    } = words;
    let showing = Showing {
        canvas: Canvas::new(columns, rows)?,
        style: style(frames),
        folder: plates.map(|path| PlateFolder { path, pgm }),
    };
    let settings = Settings {
        max_ops: MAX_OPS,
        max_bytes: MAX_BYTES,
        font: font_words(design_size, resolution),
    };
    let pace = Timed { clock: rt, pause };
    let size = if pause == 0 { TRANSCRIPT_SIZE } else { 0 };
    let Outcome { gf: made, .. } = perform_with_transcript(
        rt, alloc, reader, screen, errors, &pace, showing, &settings, transcript, size,
    )?;
    let Some(path) = gf else {
        return Ok(());
    };
    match made {
        Some(file) => Ok(write_font(rt, path.as_str(), &file)?),
        None => Err(ProgramFault::NoCharacters),
    }
}

/// The style of the frames, which follow one another where `frames` is set.
fn style(frames: bool) -> Style
    ensures { result ≡ style_in frames }
{
    if frames { Style::Plain } else { Style::Colored }
}

/// Performs and draws the script, with the transcript in a file where a path is given, and else in the stream of messages. At most
/// `size` bytes wait for the file, and none while more of the script is read.
fn perform_with_transcript<
    S: Wait + Threads + Files + Sync,
    R: Read,
    W: Write + Send,
    E: Write,
    P: Pace + Sync,
>(
    rt: &S,
    alloc: Global,
    reader: &mut R,
    screen: &mut W,
    errors: &mut E,
    pace: &P,
    showing: Showing,
    settings: &Settings,
    transcript: Option<String>,
    size: usize,
) -> Result<Outcome, ProgramFault>
    ensures done { IfOk result
        (ShowsTo transcript settings.now (manner_in showing)
        (receipt_of W.contents screen.old screen.new)
        (streams_of R.remaining reader.old reader.new E.contents errors.old errors.new)) }
    ensures fault { IfErr result
        (EndsPerformance (option_map string_bytes transcript) (run_limits settings.now)
        (streams_of R.remaining reader.old reader.new E.contents errors.old errors.new)) }
{
    let Some(path) = transcript else {
        return perform(rt, alloc, reader, screen, errors, pace, showing, settings);
    };
    let Ok(file) = fs::create(rt, path.as_str()) else {
        return Err(RunFault::WriteFault(0).into());
    };
    let Ok(mut told) = BufWriter::with_capacity(alloc, size, file) else {
        return Err(RunFault::OutOfMemory.into());
    };
    let performed = perform(
        rt, alloc, reader, screen, &mut told, pace, showing, settings,
    );
    if let Err(ProgramFault::Run(RunFault::WriteFault(_))) = &performed {
        // Nothing more goes out after a fault of the writer, and dropping the buffer would try again.
        let _unwritten = told.into_parts();
    }
    performed
}

/// Writes the help or the version to the screen, or reports why it cannot. Returns the exit status.
fn print_text<W: Write, E: Write>(screen: &mut W, errors: &mut E, text: &str) -> u8
    ensures done { result ≡ DONE
        → (errors.new ≡ errors.old)
        × Appends (W.contents screen.old) (W.contents screen.new) text.now }
    ensures fault { (result ≡ DONE)
        ⊎ ((fault : ProgramFault) × (result ≡ status_of fault)
        × GetsFront (E.contents errors.old) (E.contents errors.new) (message_of fault)) }
{
    match send(screen, text.as_bytes()) {
        Ok(()) => DONE,
        Err(fault) => report(errors, fault.into()),
    }
}

/// Reports a fault by its name, and its revision if it has one, or a prefix of that where `errors` fails, and returns the status.
pub fn report<E: Write>(errors: &mut E, fault: ProgramFault) -> u8
    ensures status { result ≡ status_of fault }
    ensures message { GetsFront (E.contents errors.old) (E.contents errors.new) (message_of fault) }
{
    write_message(errors, fault);
    match fault {
        ProgramFault::Run(cause) => if cause.is_of_stream() {
            STREAM_FAULT
        } else {
            RESOURCE_FAULT
        },
        ProgramFault::TooSmall => TOO_SMALL,
        ProgramFault::ImageTooLarge(_) | ProgramFault::PlateFault(_) => STREAM_FAULT,
        ProgramFault::NoCharacters => STREAM_FAULT,
    }
}

/// Writes the message of a fault, or a prefix of it where `errors` fails.
fn write_message<E: Write>(errors: &mut E, fault: ProgramFault)
    ensures { GetsFront (E.contents errors.old) (E.contents errors.new) (message_of fault) }
{
    match fault {
        ProgramFault::Run(cause) => report_fault(errors, "mfview", cause.name(), None),
        ProgramFault::TooSmall => report_fault(errors, "mfview", "TooSmall", None),
        ProgramFault::ImageTooLarge(revision) => report_fault(
            errors,
            "mfview",
            "ImageTooLarge",
            Some(revision),
        ),
        ProgramFault::PlateFault(revision) => report_fault(
            errors,
            "mfview",
            "PlateFault",
            Some(revision),
        ),
        ProgramFault::NoCharacters => report_fault(errors, "mfview", "NoCharacters", None),
    }
}
