//! The program `mfpic`: reads a script of picture commands, and writes its transcript and the font file of what it ships.
#![tactic(auto)]

use mf_cli::{ProgramFault, USAGE, program, report};
use mf_cli_options::{refuse_words, words_of};
use mf_desk::RunFault;
use std::io::{self, BufWriter, ErrorKind};
use std::process::ExitCode;
use std::rt::Stdout;

/// Size of the buffer for standard output, in bytes.
const OUTPUT_SIZE: usize = 65_536;

fn main(rt: HostRuntime) -> ExitCode {
    let mut errors = rt.stderr();
    let status = match words_and_output(&rt) {
        Ok((words, mut output)) => {
            let (input, alloc) = (&mut rt.stdin(), rt.alloc());
            let status = program(&rt, alloc, words, input, &mut output, &mut errors);
            // What is still in the buffer could not be written, and dropping the buffer would try again.
            let _unwritten = output.into_parts();
            status
        }
        Err(fault) if fault.kind() == ErrorKind::OutOfMemory => report(
            &mut errors,
            ProgramFault::Run(RunFault::OutOfMemory),
        ),
        Err(_) => refuse_words(&mut errors, USAGE),
    };
    ExitCode::from(status)
}

/// The words of the command line, and standard output with a buffer, so that the texts of many lines are written at once.
fn words_and_output(rt: &HostRuntime) -> io::Result<(Vec<String>, BufWriter<Stdout>)> {
    let words = words_of(rt)?;
    let output = BufWriter::with_capacity(rt.alloc(), OUTPUT_SIZE, rt.stdout())?;
    Ok((words, output))
}
