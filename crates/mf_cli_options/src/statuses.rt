//! The exit statuses that both programs have, and how both refuse words and report faults.
ghost use Rattle.std.specs.Prelude.{◌≡◌, flat_map};
ghost use Rattle.mf_base.specs.Messages.{GetsFront};
ghost use Rattle.mf_cli_options.specs.Messages.{fault_message};

use itoa::Buffer;
use mf_base::write_text;
use std::io::Write;

/// Exit status after a run that wrote or showed all that was asked for. Where a script was asked for, it was read to its end.
pub const DONE: u8 = 0;

/// Exit status where the words are not those of a command line.
pub const BAD_WORDS: u8 = 2;

/// Exit status where a stream or a file failed, or cannot be made, or the script took too many reads.
pub const STREAM_FAULT: u8 = 3;

/// Exit status where memory, a viewer's place or thread, or a look was missing.
pub const RESOURCE_FAULT: u8 = 4;

/// Refuses the words of the command line (its arguments): writes how to use the program to `errors`, or a prefix of that where `errors`
/// fails, and returns the exit status `BAD_WORDS`.
pub fn refuse_words<E: Write>(errors: &mut E, usage: &str) -> u8
    ensures status { result ≡ BAD_WORDS }
    ensures message { GetsFront (E.contents errors.old) (E.contents errors.new) usage.now }
{
    write_text(errors, usage);
    BAD_WORDS
}

/// Reports a fault: writes the names of the program and of the fault, and the number of the fault if it has one, or a prefix of that
/// where `errors` fails. It allocates nothing, so that a lack of memory can be reported, too.
pub fn report_fault<E: Write>(errors: &mut E, program: &str, name: &str, number: Option<u32>)
    ensures { GetsFront (E.contents errors.old) (E.contents errors.new)
        (fault_message program.now name.now number) }
{
    let mut buffer = Buffer::new();
    match number {
        None => write_texts(errors, &[program, ": ", name, "\n"]),
        Some(number) => write_texts(
            errors,
            &[program, ": ", name, " ", buffer.format(number), "\n"],
        ),
    }
}

/// Writes the texts one after another, or a prefix of all where `errors` fails: nothing follows a text that was cut.
fn write_texts<E: Write>(errors: &mut E, texts: &[&str])
    ensures { GetsFront (E.contents errors.old) (E.contents errors.new)
        (flat_map (λ text. text.now) texts.now) }
{
    for text in texts {
        if !write_text(errors, text) {
            return;
        }
    }
}
