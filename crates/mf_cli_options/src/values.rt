//! The values that the words of a command line give to its options.
ghost use Rattle.std.specs.Prelude.{◌≡◌, IfOk, IfSome, option_map, string_bytes};
ghost use Rattle.clap.specs.Words.{found_of, one_of, rows_of};
ghost use Rattle.mf_cli_options.specs.Values.{IsFlagText, IsNumber, file_in, has_flag, number_in};

use clap::ArgMatches;
use std::alloc::{AllocError, Global};

/// The number of an option, or the default where the words do not have the option. Requires the value of the option, if there is
/// one, to be a number below 2^32.
pub fn number(matches: &ArgMatches<'_>, id: &str, default: u32) -> u32
    requires readable { IfSome (one_of id.now (rows_of (found_of matches.now))) IsNumber }
    ensures { result ≡ number_in (rows_of (found_of matches.now)) id.now default }
{
    matches.get_one::<u32>(id).unwrap_or(default)
}

/// Whether the words have a flag. Requires what clap keeps of it, if it keeps anything, to be `true` or `false`.
pub fn flag(matches: &ArgMatches<'_>, id: &str) -> bool
    requires readable { IfSome (one_of id.now (rows_of (found_of matches.now))) IsFlagText }
    ensures { result ≡ has_flag (rows_of (found_of matches.now)) id.now }
{
    matches.get_flag(id)
}

/// The file of an option, exactly as the word gives it, if the words have the option. Refused where an allocation fails.
pub fn file(alloc: Global, matches: &ArgMatches<'_>, id: &str) -> Result<Option<String>, AllocError>
    ensures { IfOk result (λ made.
        option_map string_bytes made ≡ file_in (rows_of (found_of matches.now)) id.now) }
{
    match matches.get_str(id) {
        Some(file) => Ok(Some(String::from_str(alloc, file)?)),
        None => Ok(None),
    }
}
