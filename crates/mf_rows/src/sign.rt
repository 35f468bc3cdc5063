//! The sign with which a picture is added to another.

/// Whether a picture is added or subtracted: METAFONT's `also p` and `also -p`.
#[derive(Clone, Copy, Debug, PartialEq, Eq)]
pub enum Sign {
    /// It is added.
    Plus,
    /// It is subtracted.
    Minus,
}
