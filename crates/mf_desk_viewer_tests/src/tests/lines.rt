//! The lines that viewers print.

use super::BLANK;
use mf_desk::Glance;
use std::alloc::{AllocError, Global};

/// The line of the viewer with this number, whose last look showed `last`.
pub(super) fn line(alloc: Global, number: usize, last: &Glance) -> Result<String, AllocError> {
    let Glance { revision, total } = last;
    format!(in alloc; "viewer {number} revision {revision} totalweight {total}\n")
}

/// The lines of `viewers` viewers who have seen a blank picture.
pub(super) fn blank_lines(alloc: Global, viewers: usize) -> Result<String, AllocError> {
    let mut text = String::new(alloc);
    for number in 0..viewers {
        text.push_str(&line(alloc, number, &BLANK)?)?;
    }
    Ok(text)
}
