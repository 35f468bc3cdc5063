//! The options of the command line, as clap takes them.
ghost use Rattle.std.specs.Prelude.{◌≡◌, IfOk};
ghost use Rattle.clap.specs.Words.{app_of};
ghost use Rattle.mf_view_words.specs.CommandLine.{mfview};

use clap::Command;
use mf_cli_options::{new_command, with_file, with_flag, with_number};
use std::alloc::{AllocError, Global};

/// The command line of the program. Its flags for help and the version are plain flags, since the help is a text of this crate.
pub(crate) fn command<'a>(alloc: Global) -> Result<Command<'a>, AllocError>
    ensures { IfOk result (λ made. app_of made ≡ mfview) }
{
    let command = Ok(new_command(alloc, "mfview"));
    let command = with_number(alloc, command, "columns", 1, 1000);
    let command = with_number(alloc, command, "rows", 1, 1000);
    let command = with_number(alloc, command, "pause", 0, 60000);
    let command = with_number(alloc, command, "design-size", 0, 2047);
    let command = with_number(alloc, command, "resolution", 0, 100_000);
    let command = with_file(alloc, command, "transcript");
    let command = with_file(alloc, command, "plates");
    let command = with_file(alloc, command, "gf");
    let command = with_flag(alloc, command, "frames", "frames");
    let command = with_flag(alloc, command, "pgm", "pgm");
    let command = with_flag(alloc, command, "asks-help", "help");
    with_flag(alloc, command, "asks-version", "version")
}
