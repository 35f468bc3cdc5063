//! The words with which a program was started.

use std::rt::Env;
use std::{env, io};

/// The words of the command line, of which the first is the program's name. A word that is not UTF-8 is a fault.
pub fn words_of<R: Env + AllocGlobal>(rt: &R) -> io::Result<Vec<String>> {
    let mut words = Vec::new(rt.alloc());
    for word in env::args(rt)? {
        words.push(word)?;
    }
    Ok(words)
}
