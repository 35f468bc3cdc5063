//! The bytes of the line that no line feed has ended yet.
ghost use Rattle.std.specs.Prelude.{◌≡◌, ◌==◌, ◌++◌, [], OnErr, OnOk, length, take};
ghost use Rattle.std.specs.Str.Lines.{strip_carriage_return};

use std::alloc::{AllocError, Global};
use std::marker::Model;

/// The greatest number of bytes of a line that are kept. A lawful line has at most 65,536, and a carriage return may follow it;
/// one more byte is kept, so that a line that is cut is still too long.
pub const MAX_KEPT: usize = 65_538;

/// The unended line of a script. Of its bytes only the first [`MAX_KEPT`] are kept.
#[derive(Drop)]
pub struct LineBuffer {
    kept: Vec<u8>,
}

impl Model for LineBuffer {
    ghost use Rattle.std.specs.Prelude.{◌≤◌, List, ℕ, length};
    ghost use Rattle.mf_desk.specs.declared.line_buffer.TheConstants.{MAX_KEPT};

    ghost Value = { List ℕ };

    ghost view = { λ line. line.kept.items };

    ghost invariant = { λ line. length line.kept.items ≤ MAX_KEPT };
}

impl LineBuffer {
    /// An empty line.
    pub fn new(alloc: Global) -> LineBuffer
        ensures { result ≡ [] }
    {
        LineBuffer {
            kept: Vec::new(alloc),
        }
    }

    /// Whether the line is empty.
    pub fn is_empty(&self) -> bool
        ensures { result ≡ (length self.now == 0) }
    {
        self.kept.is_empty()
    }

    /// Adds bytes at the end, as far as they are kept. Where an allocation fails, nothing changes.
    pub fn extend(&mut self, bytes: &[u8]) -> Result<(), AllocError>
        ensures added { OnOk result (self.new ≡ take MAX_KEPT (self.old ++ bytes.now)) }
        ensures unchanged { OnErr result (self.new ≡ self.old) }
    {
        let room = MAX_KEPT - self.kept.len();
        let count = room.min(bytes.len());
        self.kept.extend_from_slice(&bytes[..count])
    }

    /// Empties the line.
    pub fn clear(&mut self)
        ensures { self.new ≡ [] }
    {
        self.kept.clear();
    }

    /// The bytes of the line where the script ends after it. A carriage return at their end is part of the line.
    pub fn at_end(&self) -> &[u8]
        ensures { result.now ≡ self.now }
    {
        &self.kept
    }

    /// The bytes of the line where a line feed follows it. A carriage return at their end is not part of the line.
    pub fn at_line_feed(&self) -> &[u8]
        ensures { result.now ≡ strip_carriage_return self.now }
    {
        before_line_feed(self.kept.as_slice())
    }
}

/// The bytes of a line that a line feed follows, without the carriage return at their end, if there is one: it is not part of the
/// line.
pub fn before_line_feed(bytes: &[u8]) -> &[u8]
    ensures { result.now ≡ strip_carriage_return bytes.now }
{
    match bytes {
        [line @ .., b'\r'] => line,
        line => line,
    }
}
