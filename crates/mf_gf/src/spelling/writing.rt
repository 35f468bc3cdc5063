//! How bytes are written, or only counted.
ghost use Rattle.std.specs.Prelude.{◌≡◌, ◌↔◌, ◌⊎◌, ◌+◌, ◌<◌, ◌≤◌, ◌^◌, ◌++◌, ◌∷◌, Err, IfErr, IfOk, IsTrue, OnOk, List, ℕ, [], false, length, pos, ◌-◌, drop, take};
ghost use Rattle.byteorder.specs.Endian.{big_bytes};
ghost use Rattle.mf_gf.specs.Numbers.{word};
ghost use Rattle.mf_gf.specs.Spellings.{HasPart, Holds, IsPart};

use super::Spelling;
use crate::fault::GfFault;
use byteorder::{BigEndian, ByteOrder};
use mf_base::OutOfMemory;
use std::alloc::Global;

impl Spelling {
    /// An empty spelling, which keeps at most `room` bytes. Allocates nothing.
    pub(crate) fn new(alloc: Global, room: usize) -> Spelling
        requires { room ≤ 2 ^ 31 }
        ensures empty { Holds result [] }
        ensures room { result.room ≡ room }
    {
        Spelling {
            bytes: Vec::new(alloc),
            length: 0,
            room,
            is_out_of_memory: false,
        }
    }

    /// The number of bytes, where there is room for them.
    pub(crate) fn length(&self) -> usize
        ensures { result ≡ self.now.length }
    {
        self.length
    }

    /// Counts more bytes. Returns whether to keep them: there is room for them, and no allocation failed before.
    #[inline(always)]
    fn count(&mut self, more: usize) -> bool
        requires { more ≤ 2 ^ 31 }
        ensures counted { self.old.length + more ≤ self.old.room
            → self.new.length ≡ self.old.length + more }
        ensures beyond { self.old.room < self.old.length + more → self.new.room < self.new.length }
        ensures kept { self.new.bytes ≡ self.old.bytes }
        ensures room { self.new.room ≡ self.old.room }
        ensures memory { self.new.is_out_of_memory ≡ self.old.is_out_of_memory }
        ensures answer { IsTrue result
            ↔ ((self.new.length ≤ self.new.room) × (self.new.is_out_of_memory ≡ false)) }
    {
        let length = self.length + more;
        if length > self.room {
            self.length = self.room + 1;
            return false;
        }
        self.length = length;
        !self.is_out_of_memory
    }

    /// Appends bytes.
    pub(crate) fn put(&mut self, bytes: &[u8])
        requires { length bytes.now ≤ 2 ^ 31 }
        ensures held { (text : List ℕ) → Holds self.old text → Holds self.new (text ++ bytes.now) }
        ensures room { self.new.room ≡ self.old.room }
    {
        if self.count(bytes.len()) && self.bytes.extend_from_slice(bytes).is_err() {
            self.is_out_of_memory = true;
        }
    }

    /// Appends one byte.
    #[inline(always)]
    pub(crate) fn put_byte(&mut self, byte: u8)
        ensures held { (text : List ℕ) → Holds self.old text → Holds self.new (text ++ byte ∷ []) }
        ensures room { self.new.room ≡ self.old.room }
    {
        if self.count(1) && self.bytes.push(byte).is_err() {
            self.is_out_of_memory = true;
        }
    }

    /// Appends two bytes.
    #[inline(always)]
    pub(crate) fn put_pair(&mut self, first: u8, second: u8)
        ensures held { (text : List ℕ) → Holds self.old text
            → Holds self.new (text ++ first ∷ second ∷ []) }
        ensures room { self.new.room ≡ self.old.room }
    {
        if self.count(2) && self.bytes.extend_from_slice(&[first, second]).is_err() {
            self.is_out_of_memory = true;
        }
    }

    /// Appends the bytes from `start` up to `end` once more. Without room or memory for all bytes so far, they are only counted.
    pub(crate) fn repeat(&mut self, start: usize, end: usize)
        requires { IsPart self.old start end }
        ensures held { (before part after : List ℕ) → HasPart self.old start end before part after
            → HasPart self.new start end before part (after ++ part) }
        ensures room { self.new.room ≡ self.old.room }
    {
        if self.length > self.room {
            return;
        }
        if self.count(end - start) && append_copy(&mut self.bytes, start, end).is_err() {
            self.is_out_of_memory = true;
        }
    }

    /// Appends a number of two bytes, the higher byte first.
    pub(crate) fn put_halfword(&mut self, number: u16)
        ensures held { (text : List ℕ) → Holds self.old text
            → Holds self.new (text ++ big_bytes 2 number) }
        ensures room { self.new.room ≡ self.old.room }
    {
        let mut field = [0u8; 2];
        BigEndian::write_u16(&mut field, number);
        self.put(&field);
    }

    /// Appends a signed number of four bytes in two's complement, the highest byte first.
    pub(crate) fn put_word(&mut self, number: i32)
        ensures held { (text : List ℕ) → Holds self.old text
            → Holds self.new (text ++ word number) }
        ensures room { self.new.room ≡ self.old.room }
    {
        let mut field = [0u8; 4];
        BigEndian::write_i32(&mut field, number);
        self.put(&field);
    }

    /// Appends an unsigned number of four bytes, the highest byte first.
    pub(crate) fn put_unsigned(&mut self, number: u32)
        ensures held { (text : List ℕ) → Holds self.old text
            → Holds self.new (text ++ word (pos number)) }
        ensures room { self.new.room ≡ self.old.room }
    {
        let mut field = [0u8; 4];
        BigEndian::write_u32(&mut field, number);
        self.put(&field);
    }

    /// Returns all the bytes. Refused with `FileTooLong` exactly where there are more than the room allows, and with
    /// `OutOfMemory` where an allocation failed.
    pub(crate) fn finish(self) -> Result<Vec<u8>, GfFault>
        ensures bytes { IfOk result (λ bytes.
            (text : List ℕ) → Holds self text → bytes.items ≡ text) }
        ensures too_long { (text : List ℕ) → Holds self text
            → (self.room < length text) ↔ (result ≡ Err GfFault.FileTooLong) }
        ensures fault { IfErr result (λ fault.
            (fault ≡ GfFault.FileTooLong) ⊎ (fault ≡ GfFault.OutOfMemory)) }
    {
        if self.length > self.room {
            return Err(GfFault::FileTooLong);
        }
        if self.is_out_of_memory {
            return Err(GfFault::OutOfMemory);
        }
        Ok(self.bytes)
    }
}

/// Appends the bytes from `start` up to `end` to the others. `Vec::extend_from_within` takes a step for each byte.
fn append_copy(bytes: &mut Vec<u8>, start: usize, end: usize) -> Result<(), OutOfMemory>
    requires order { start ≤ end }
    requires within { end ≤ length bytes.old.items }
    requires few { length bytes.old.items ≤ 2 ^ 33 }
    ensures { OnOk result
        (bytes.new.items ≡ bytes.old.items ++ take (end - start) (drop start bytes.old.items)) }
{
    let length = bytes.len();
    bytes.resize(length + (end - start), 0)?;
    let (old, new) = bytes.split_at_mut(length);
    new.copy_from_slice(&old[start..end]);
    Ok(())
}
