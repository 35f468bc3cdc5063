//! Which bytes the lines of a script may have.
ghost use Rattle.std.specs.Prelude.{◌≡◌, ◌+◌, ◌≤◌, length};
ghost use Rattle.std.specs.List.{list_all};
ghost use Rattle.mf_text.specs.Lines.{is_text_byte};

/// Whether each byte of the line is text, in comments, too. Most lines are short: one of 8 to 32 bytes is looked at in two groups
/// of bytes.
pub fn is_text(line: &[u8]) -> bool
    ensures { result ≡ list_all is_text_byte line.now }
{
    let length = line.len();
    if 16 <= length && length <= 32 {
        return are_ends_text(line, 16);
    }
    if 8 <= length && length < 16 {
        return are_ends_text(line, 8);
    }
    are_text(line)
}

/// Whether each byte of the line is text. It looks at this many bytes at each end of the line, where they may overlap. The number is
/// a constant in the code, so that all bytes of an end are looked at together.
#[inline(always)]
fn are_ends_text(line: &[u8], size: usize) -> bool
    requires within { size ≤ length line.now }
    requires whole { length line.now ≤ size + size }
    ensures { result ≡ list_all is_text_byte line.now }
{
    let front = are_text(&line[..size]);
    let back = are_text(&line[line.len() - size..]);
    front & back
}

/// Whether each of these bytes is text. It looks at all bytes: a loop that stops at the first other byte is no faster on lines that
/// are text, and it cannot look at several bytes at once.
#[inline(always)]
fn are_text(bytes: &[u8]) -> bool
    ensures { result ≡ list_all is_text_byte bytes.now }
{
    let mut text = true;
    for byte in bytes {
        text &= is_text_byte(*byte);
    }
    text
}

/// Whether a byte is text: a tab or printable ASCII.
fn is_text_byte(byte: u8) -> bool
    ensures { result ≡ is_text_byte byte }
{
    matches!(byte, b'\t' | b' '..=b'~')
}
