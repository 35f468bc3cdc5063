//! Writing that counts how many bytes a writer took before it failed, and writing of texts that may be lost. The clauses say which
//! bytes were written where a contract can know the bytes of the writer, as it can of a list of bytes in memory.
ghost use Rattle.std.specs.Io.{WritesAtMost};
ghost use Rattle.std.specs.Io.KnownBytes.{Appends, WriteAppends};
ghost use Rattle.std.specs.Prelude.{◌≡◌, ◌<◌, IfErr, OnOk, length, take, true, false};
ghost use Rattle.mf_base.specs.Messages.{GetsFront, GetsPart};

use std::io::{self, ErrorKind, Write};

/// Writes all these bytes, in as many writes as the writer needs. A write that was interrupted is tried again. Where the writer fails
/// with another error or takes no byte, the error is the number of bytes that were written: the first ones, and fewer than all of
/// them.
pub fn write_counted<W: Write>(writer: &mut W, bytes: &[u8]) -> Result<(), usize>
    ensures all { OnOk result (Appends (W.contents writer.old) (W.contents writer.new) bytes.now) }
    ensures front { IfErr result (λ count.
        Appends (W.contents writer.old) (W.contents writer.new) (take count bytes.now)) }
    ensures within { IfErr result (λ count. count < length bytes.now) }
{
    let mut sent = 0;
    while sent < bytes.len() {
        match write_once(writer, &bytes[sent..]) {
            Ok(0) | Err(_) => return Err(sent),
            Ok(count) => sent += count,
        }
    }
    Ok(())
}

/// One write, which is tried again as long as it is interrupted.
fn write_once<W: Write>(writer: &mut W, bytes: &[u8]) -> io::Result<usize>
    ensures bound { WritesAtMost result bytes.now }
    ensures bytes { WriteAppends (W.contents writer.old) (W.contents writer.new) result bytes.now }
{
    'tries: for _ in 0..u64::MAX {
        match writer.write(bytes) {
            Ok(count) => return Ok(count),
            Err(fault) if fault.kind() == ErrorKind::Interrupted => {}
            Err(fault) => return Err(fault),
        }
    }
    Err(ErrorKind::Interrupted.into())
}

/// Writes a text, such as a message or a piece of one, as far as the writer takes it. Returns whether it took all; where it did not, it
/// took the first bytes of the text, fewer than all of them, and perhaps none.
pub fn write_text<W: Write>(writer: &mut W, text: &str) -> bool
    ensures all { result ≡ true → Appends (W.contents writer.old) (W.contents writer.new) text.now }
    ensures part { result ≡ false
        → GetsPart (W.contents writer.old) (W.contents writer.new) text.now }
    ensures front { GetsFront (W.contents writer.old) (W.contents writer.new) text.now }
{
    write_counted(writer, text.as_bytes()).is_ok()
}
