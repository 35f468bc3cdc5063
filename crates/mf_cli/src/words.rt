//! The words of the command line, and what they ask for, as clap reads them.
ghost use Rattle.std.specs.Prelude.{◌≡◌, ◌≤◌, IfOk, IsErrOf, OnOk, option_map, string_bytes};
ghost use Rattle.clap.specs.Words.{app_of};
ghost use Rattle.mf_cli_options.specs.Values.{texts_of};
ghost use Rattle.mf_cli.specs.CommandLine.{IsCommandLine, gf_in, greatest_viewers, mfpic, viewers_in};

use clap::Command;
use mf_cli_options::{WordsFault, file, find_matches, new_command, number, with_file, with_number};
use std::alloc::{AllocError, Global};

/// The usage text: the forms of the command line.
pub const USAGE: &str = "usage: mfpic [--viewers 0..16] [--gf FILE]\n";

/// What the words of the command line ask for.
#[derive(Debug, Drop)]
pub struct Words {
    /// The N of `--viewers N`, in 0..=16; 0 where the words have none.
    pub viewers: u32,
    /// The FILE of `--gf FILE`, exactly as the word gives it.
    pub gf: Option<String>,
}

/// Reads the words of the command line. The first word is the program's name, whatever it is. Refused with `BadWords` only where
/// the rest is not `[--viewers 0..16] [--gf FILE]`, in either order, and with `OutOfMemory` where an allocation fails.
#[tactic(auto, using(crate::proofs::CommandLines::mfpic_is_plain))]
pub fn read_words(alloc: Global, words: Vec<String>) -> Result<Words, WordsFault>
    ensures accepted { OnOk result (IsCommandLine (texts_of words)) }
    ensures refused { IsErrOf result WordsFault.BadWords → ¬ IsCommandLine (texts_of words) }
    ensures viewers { IfOk result (λ asked. asked.viewers ≡ viewers_in (texts_of words)) }
    ensures few { IfOk result (λ asked. asked.viewers ≤ greatest_viewers) }
    ensures gf { IfOk result (λ asked. option_map string_bytes asked.gf ≡ gf_in (texts_of words)) }
{
    let matches = find_matches(command(alloc)?, words.as_slice())?;
    Ok(Words {
        viewers: number(&matches, "viewers", 0),
        gf: file(alloc, &matches, "gf")?,
    })
}

/// The command line of the program: `[--viewers 0..16] [--gf FILE]`, without flags for help or a version.
#[tactic(auto, unfolding(crate::specs::CommandLine::mfpic))]
fn command<'a>(alloc: Global) -> Result<Command<'a>, AllocError>
    ensures { IfOk result (λ made. app_of made ≡ mfpic) }
{
    let command = Ok(new_command(alloc, "mfpic"));
    let command = with_number(alloc, command, "viewers", 0, 16);
    with_file(alloc, command, "gf")
}
