//! The words of the command line, and what they ask for.
ghost use Rattle.std.specs.Prelude.{◌≡◌, IfOk, IsErrOf, OnOk, false, true};
ghost use Rattle.clap.specs.Words.{found_of, rows_of};
ghost use Rattle.mf_cli_options.specs.Values.{AreValuesOf, texts_of};
ghost use Rattle.mf_view_words.specs.CommandLine.{rules};
ghost use Rattle.mf_view_words.specs.Requests.{AreWords, IsCommandLine, IsRequestInRange, IsRequest, IsRequestIn, IsWordsInRange, lacks_plates};

use crate::options::command;
use clap::ArgMatches;
use mf_cli_options::{WordsFault, file, find_matches, flag, number};
use std::alloc::{AllocError, Global};

/// How the words ask for a script to be performed and drawn.
#[derive(Debug, Drop)]
pub struct Words {
    /// The columns of characters to draw in, in 1..=1000; 80 where the words do not say.
    pub columns: u32,
    /// The rows of characters to draw in, in 1..=1000; 24 where the words do not say.
    pub rows: u32,
    /// The pause after each publish in milliseconds, in 0..=60000; 0 where the words do not say.
    pub pause: u32,
    /// Whether one frame is written after another, without control codes.
    pub frames: bool,
    /// The file of the transcript, exactly as the word gives it.
    pub transcript: Option<String>,
    /// The folder of the plates, exactly as the word gives it.
    pub plates: Option<String>,
    /// Whether each plate is also written as a PGM image. Only where there is a folder of plates.
    pub pgm: bool,
    /// The font file, exactly as the word gives it.
    pub gf: Option<String>,
    /// The design size of the font in whole points, in 0..=2047; 0 where the words do not say.
    pub design_size: u32,
    /// The resolution of the font in dots per inch, in 0..=100000; 0 where the words do not say.
    pub resolution: u32,
}

/// What the words of the command line ask for.
#[derive(Debug, Drop)]
pub enum Request {
    /// To perform the script and draw it.
    Show(Words),
    /// To write the help text.
    Help,
    /// To write the version text.
    Version,
}

/// Reads the words of the command line. The first word is the program's name, whatever it is. `--help` comes before `--version`,
/// and both before everything else. Refused with `BadWords` only where the rest has a word that is not an option, an option twice
/// or without its value, a number out of its range, or `--pgm` without `--plates`; and with `OutOfMemory` where an allocation fails.
#[tactic(auto, using(crate::proofs::CommandLines::mfview_is_plain))]
pub fn read_words(alloc: Global, words: Vec<String>) -> Result<Request, WordsFault>
    ensures accepted { OnOk result (IsCommandLine (texts_of words)) }
    ensures refused { IsErrOf result WordsFault.BadWords → ¬ IsCommandLine (texts_of words) }
    ensures value { IfOk result (IsRequest (texts_of words)) }
    ensures range { IfOk result IsRequestInRange }
{
    let matches = find_matches(command(alloc)?, words.as_slice())?;
    request_in(alloc, &matches)
}

/// The request that these values make. Refused with `BadWords` only where `--pgm` stands without `--plates`.
fn request_in(alloc: Global, matches: &ArgMatches<'_>) -> Result<Request, WordsFault>
    requires { AreValuesOf rules (rows_of (found_of matches.now)) }
    ensures accepted { OnOk result (lacks_plates (rows_of (found_of matches.now)) ≡ false) }
    ensures refused { IsErrOf result WordsFault.BadWords
        → lacks_plates (rows_of (found_of matches.now)) ≡ true }
    ensures value { IfOk result (IsRequestIn (rows_of (found_of matches.now))) }
    ensures range { IfOk result IsRequestInRange }
{
    let asked = words_in(alloc, matches)?;
    if asked.pgm && asked.plates.is_none() {
        return Err(WordsFault::BadWords);
    }
    if flag(matches, "asks-help") {
        return Ok(Request::Help);
    }
    if flag(matches, "asks-version") {
        return Ok(Request::Version);
    }
    Ok(Request::Show(asked))
}

/// The values that the words give, or the defaults.
fn words_in(alloc: Global, matches: &ArgMatches<'_>) -> Result<Words, AllocError>
    requires { AreValuesOf rules (rows_of (found_of matches.now)) }
    ensures values { IfOk result (AreWords (rows_of (found_of matches.now))) }
    ensures range { IfOk result IsWordsInRange }
{
    Ok(Words {
        columns: number(matches, "columns", 80),
        rows: number(matches, "rows", 24),
        pause: number(matches, "pause", 0),
        frames: flag(matches, "frames"),
        transcript: file(alloc, matches, "transcript")?,
        plates: file(alloc, matches, "plates")?,
        pgm: flag(matches, "pgm"),
        gf: file(alloc, matches, "gf")?,
        design_size: number(matches, "design-size", 0),
        resolution: number(matches, "resolution", 0),
    })
}
