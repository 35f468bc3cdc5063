//! Flushing the writer before a run waits or ends, and writing the font file after it.
ghost use Rattle.std.specs.Io.KnownBytes.{Keeps};
ghost use Rattle.std.specs.Prelude.{◌≡◌, ◌⊎◌, ◌<◌, ℕ, IfErr, length};

use crate::fault::RunFault;
use mf_gf::GfBytes;
use std::io::Write;
use std::rt::Files;

/// Flushes a writer that may keep bytes back. Refused with `WriteFault`, which counts all bytes that were written in the run.
pub fn flush<W: Write>(writer: &mut W, written: u128) -> Result<(), RunFault>
    ensures kept { Keeps (W.contents writer.old) (W.contents writer.new) }
    ensures fault { IfErr result (λ fault. fault ≡ RunFault.WriteFault written) }
{
    match writer.flush() {
        Ok(()) => Ok(()),
        Err(_) => Err(RunFault::WriteFault(written)),
    }
}

/// Writes a font file, and replaces what was there. Refused with `WriteFault` where it cannot be created, written to its end, or stored.
/// The number of the fault is 0, or less than the number of bytes of the file.
pub fn write_font<S: Files>(rt: &S, path: &str, file: &GfBytes) -> Result<(), RunFault>
    ensures { IfErr result (λ fault.
        (count : ℕ) × (fault ≡ RunFault.WriteFault count)
        × ((count ≡ 0) ⊎ (count < length file.now))) }
{
    match file.write_file(rt, path) {
        Ok(()) => Ok(()),
        Err(fault) => Err(RunFault::WriteFault(fault.0)),
    }
}
