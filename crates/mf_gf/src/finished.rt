//! Finished files.
ghost use Rattle.std.specs.Io.KnownBytes.{Appends};
ghost use Rattle.std.specs.Prelude.{◌≡◌, ◌<◌, ◌⊎◌, ℕ, IfErr, OnErr, OnOk, length, take};

use crate::fault::WriteFault;
use mf_base::write_counted;
use std::fs::{self, OpenFile};
use std::io::{ErrorKind, Write};
use std::marker::Model;
use std::rt::Files;

/// The bytes of a finished GF file.
#[derive(Drop)]
pub struct GfBytes {
    bytes: Vec<u8>,
}

impl Model for GfBytes {
    ghost use Rattle.std.specs.Prelude.{List, ℕ};

    ghost Value = { List ℕ };

    ghost view = { λ file. file.bytes.items };
}

impl GfBytes {
    /// The finished file with these bytes.
    pub(crate) fn new(bytes: Vec<u8>) -> GfBytes
        ensures { result ≡ bytes.items }
    {
        GfBytes { bytes }
    }

    /// All bytes of the file.
    pub fn bytes(&self) -> &[u8]
        ensures { result.now ≡ self.now }
    {
        &self.bytes
    }

    /// Writes all bytes of the file, in as many writes as the writer needs. Refused with `WriteFault` where the writer fails with
    /// an error or takes no byte. Its number says how many bytes were written before: fewer than the file has. The clauses say
    /// which bytes these are where a contract can know the bytes of the writer.
    pub fn write_to<W: Write>(&self, writer: &mut W) -> Result<(), WriteFault>
        ensures all { OnOk result
            (Appends (W.contents writer.old) (W.contents writer.new) self.now) }
        ensures front { IfErr result (λ fault.
            Appends (W.contents writer.old) (W.contents writer.new) (take fault.0 self.now)) }
        ensures within { IfErr result (λ fault. fault.0 < length self.now) }
    {
        write_counted(writer, &self.bytes).map_err(|count| WriteFault(count as u128))
    }

    /// Writes the file at this path, replaces what was there, and waits until its bytes are stored: some systems tell only then that
    /// they cannot be, as where a quota is used up. Refused with `WriteFault`. Its number counts the bytes that were written, fewer
    /// than the file has, and is 0 where the file cannot be created, or not be stored.
    pub fn write_file<S: Files>(&self, rt: &S, path: &str) -> Result<(), WriteFault>
        ensures few { IfErr result (λ fault. (fault.0 ≡ 0) ⊎ (fault.0 < length self.now)) }
    {
        match fs::create(rt, path) {
            Ok(mut out) => self.store_in(&mut out),
            Err(_) => Err(WriteFault(0)),
        }
    }

    /// Writes all bytes into a file, and waits until they are stored. A pipe or a device, which stores nothing, need not.
    fn store_in<F: OpenFile + Write>(&self, out: &mut F) -> Result<(), WriteFault>
        ensures all { OnOk result (Appends (F.contents out.old) (F.contents out.new) self.now) }
        ensures front { OnErr result
            ((count : ℕ)
            × Appends (F.contents out.old) (F.contents out.new) (take count self.now)) }
        ensures few { IfErr result (λ fault. (fault.0 ≡ 0) ⊎ (fault.0 < length self.now)) }
    {
        self.write_to(out)?;
        match out.sync_data() {
            Err(fault) if fault.kind() != ErrorKind::InvalidInput => Err(WriteFault(0)),
            _ => Ok(()),
        }
    }
}
