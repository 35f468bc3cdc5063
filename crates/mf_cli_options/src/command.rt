//! A command line, made of its options, and what clap finds in its words.
ghost use Rattle.std.specs.Prelude.{◌≡◌, [], IfOk, IsErrOf, OnOk, map, string_bytes, true};
ghost use Rattle.clap.specs.Words.{App, app_of, fault_of, found_of, is_simple_and_free, matches_of, new_app, rows_of, with_rule};
ghost use Rattle.mf_cli_options.specs.Options.{file_rule, flag_rule, number_rule, without_flags};
ghost use Rattle.mf_cli_options.specs.Values.{AreValuesOf};

use crate::fault::WordsFault;
use clap::builder::ValueParser;
use clap::{Arg, ArgAction, ArgMatches, Command};
use std::alloc::{AllocError, Global};

/// The command of the program with this name, without an option and without clap's own flags for help and a version.
pub fn new_command<'a>(alloc: Global, name: &'a str) -> Command<'a>
    ensures { app_of result ≡ without_flags (new_app name.entry.now) }
{
    Command::new(alloc, name)
        .disable_help_flag(true)
        .disable_version_flag(true)
}

/// The command with the option `--NAME N`, which takes the numbers `low..=high`. Refused where an allocation fails, or failed before: so
/// options are added one after another, and a refusal is looked at once.
pub fn with_number<'a>(
    alloc: Global,
    command: Result<Command<'a>, AllocError>,
    name: &'a str,
    low: u32,
    high: u32,
) -> Result<Command<'a>, AllocError>
    ensures { (app : App) → IfOk command.entry (λ before. app_of before ≡ app)
        → IfOk result (λ made. app_of made ≡ with_rule app (number_rule name.entry.now low high)) }
{
    let parser = ValueParser::signed(i64::from(low), i64::from(high));
    command?.arg(Arg::new(alloc, name).long(name).value_parser(parser))
}

/// The command with the option `--NAME FILE`. Refused as `with_number` is.
pub fn with_file<'a>(
    alloc: Global,
    command: Result<Command<'a>, AllocError>,
    name: &'a str,
) -> Result<Command<'a>, AllocError>
    ensures { (app : App) → IfOk command.entry (λ before. app_of before ≡ app)
        → IfOk result (λ made. app_of made ≡ with_rule app (file_rule name.entry.now)) }
{
    command?.arg(Arg::new(alloc, name).long(name))
}

/// The command with the flag `--NAME`, which is read back by `id`. (clap keeps the ids `help` and `version` for flags of its own.)
/// Refused as `with_number` is.
pub fn with_flag<'a>(
    alloc: Global,
    command: Result<Command<'a>, AllocError>,
    id: &'a str,
    name: &'a str,
) -> Result<Command<'a>, AllocError>
    ensures { (app : App) → IfOk command.entry (λ before. app_of before ≡ app)
        → IfOk result (λ made.
        app_of made ≡ with_rule app (flag_rule id.entry.now name.entry.now)) }
{
    command?.arg(
        Arg::new(alloc, id)
            .long(name)
            .action(ArgAction::SetTrue)
            .value_parser(ValueParser::Bool),
    )
}

/// What clap finds in the words, of which the first is the program's name. Each number is in the range of its option, and each flag
/// is on or off. Words in which clap finds a fault are refused with `BadWords` or `OutOfMemory`, and only these with `BadWords`. With
/// `OutOfMemory` any words may be refused, where an allocation fails. Requires a command of plain options.
#[tactic(auto, using(crate::proofs::ValuesRead::are_values, crate::proofs::Faults::has_fault, clap::proofs::WalkLemmas::both))]
pub fn find_matches<'a>(
    command: Command<'a>,
    words: &'a [String],
) -> Result<ArgMatches<'a>, WordsFault>
    requires plain { is_simple_and_free (app_of command) ≡ true }
    ensures accepted { OnOk result
        (fault_of (app_of command.entry) (map string_bytes words.entry.now) ≡ []) }
    ensures refused { IsErrOf result WordsFault.BadWords
        → ¬ (fault_of (app_of command.entry) (map string_bytes words.entry.now) ≡ []) }
    ensures found { IfOk result (λ made.
        rows_of (found_of made)
        ≡ matches_of (app_of command.entry) (map string_bytes words.entry.now)) }
    ensures values { IfOk result (λ made.
        AreValuesOf (app_of command.entry).top.rules (rows_of (found_of made))) }
{
    Ok(command.try_get_matches_from(words)?)
}
