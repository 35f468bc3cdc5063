//! What a seat at the live picture knows. The writer has a seat, and so has each viewer.
use crate::history::Knowledge;

/// What a seat knows. No value of this type is ever made: it exists only in the proofs.
pub struct View {
    /// Whether it knows which picture it is.
    pub identified: bool,
    /// What it saw at its last step.
    pub knowledge: Knowledge,
}
