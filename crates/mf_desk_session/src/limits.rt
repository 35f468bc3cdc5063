//! The limits that the programs set to their scripts.

/// The greatest number of operations that `currentpicture` accepts in a script of the programs.
pub const MAX_OPS: u32 = 1_000_000;

/// The greatest number of bytes of the font file of a script of the programs.
pub const MAX_BYTES: u32 = 16_777_216;
