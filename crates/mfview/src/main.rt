//! The program `mfview`: performs a script of picture commands, and draws the picture while the script changes it.
#![tactic(auto)]

use mf_cli_options::{refuse_words, words_of};
use mf_desk::RunFault;
use mf_view::program::{program, report};
use mf_view_words::USAGE;
use std::io::ErrorKind;
use std::process::ExitCode;

fn main(rt: HostRuntime) -> ExitCode {
    let mut errors = rt.stderr();
    let status = match words_of(&rt) {
        Ok(words) => program(
            &rt,
            rt.alloc(),
            words,
            &mut rt.stdin(),
            &mut rt.stdout(),
            &mut errors,
        ),
        Err(fault) if fault.kind() == ErrorKind::OutOfMemory => report(
            &mut errors,
            RunFault::OutOfMemory.into(),
        ),
        Err(_) => refuse_words(&mut errors, USAGE),
    };
    ExitCode::from(status)
}
