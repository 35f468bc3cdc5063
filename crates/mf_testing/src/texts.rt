//! Lists of texts: words of a command line, and the texts that the lines of a script print.
use std::alloc::{AllocError, Global};

/// The words of a command line.
pub fn words_of(alloc: Global, texts: &[&str]) -> Result<Vec<String>, AllocError> {
    let mut words = Vec::new(alloc);
    for text in texts {
        words.push(String::from_str(alloc, text)?)?;
    }
    Ok(words)
}

/// The words of a command line: the name of a program, and these words after it.
pub fn command_line(alloc: Global, name: &str, texts: &[&str]) -> Result<Vec<String>, AllocError> {
    let mut words = words_of(alloc, &[name])?;
    for text in texts {
        words.push(String::from_str(alloc, text)?)?;
    }
    Ok(words)
}

/// How many of the first texts the bytes consist of, or `None` if they are not a number of complete texts.
pub fn count_of_texts(texts: &[&str], bytes: &[u8]) -> Option<usize> {
    let mut rest = bytes;
    let mut count = 0usize;
    for text in texts {
        if rest.is_empty() {
            return Some(count);
        }
        rest = rest.strip_prefix(text.as_bytes())?;
        count = count.saturating_add(1);
    }
    if rest.is_empty() { Some(count) } else { None }
}
