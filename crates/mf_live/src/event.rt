//! What the writer of a picture does, and the lines of the book that say so.
use mf_ops::Op;

/// What a writer does. No value of this type is ever made: the history of a picture exists only in the proofs.
#[derive(Drop)]
pub enum WriterEvent {
    /// It accepts an operation.
    Accept(Op),
    /// It sets the end mark.
    Close,
    /// It publishes everything that it has accepted.
    Publish,
}

/// A line of a picture's book: what the writer did, and the key of the pen that writes the next line. No value of this type is
/// ever made.
#[derive(Drop)]
pub struct Line {
    pub event: WriterEvent,
    pub next: u64,
}

/// What a writer does, at the call that does it.
#[derive(Clone, Copy)]
pub enum Act<'a> {
    Accept(&'a Op),
    Close,
    Publish,
}
