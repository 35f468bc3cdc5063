//! The postamble, which ends a file: post with its numbers, the locators and the ending.
ghost use Rattle.std.specs.Prelude.{◌≡◌, ◌⊎◌, ◌≤◌, ◌↔◌, ◌+◌, ◌++◌, [], Err, IfErr, IfOk, List, None, Ok, ℕ, length};
ghost use Rattle.mf_gf.specs.Files.{Character, IsLongFile, ending, file_if_any, file_of, post_text};
ghost use Rattle.mf_gf.specs.Keeping.{HasNoRoomFor, IsRefusedAs, IsSameFile, Keeps, max_bytes_of, tail_after};
ghost use Rattle.mf_gf.specs.Spellings.{Holds};

use super::{FontWords, GF_ID, GfFile};
use crate::boxes::CharacterBox;
use crate::fault::GfFault;
use crate::finished::GfBytes;
use crate::spelling::Spelling;

/// post, the command that begins the postamble (gftype.web).
const POST: u8 = 248;

/// post_post, the command that ends the postamble (gftype.web).
const POST_POST: u8 = 249;

/// The byte that pads the end of a file (gftype.web).
const PADDING: u8 = 223;

/// The number of bytes in the ending before its padding: the opcode, the place of the postamble and the identification byte
/// (gftype.web).
const ENDING: usize = 6;

impl GfFile {
    /// Finishes the file. Its postamble has these numbers of the font. Refused with `NoCharacters` exactly where no character was
    /// shipped, else with `FileTooLong` exactly where the file would have more bytes than it may have, and with `OutOfMemory`
    /// where an allocation fails. A refusal hands the file back as it was.
    #[tactic(auto, using(crate::proofs::TailTexts::kept_file, crate::proofs::TailTexts::out_of_memory_only))]
    pub fn finish(self, words: FontWords) -> Result<GfBytes, (GfFile, GfFault)>
        ensures finished { IfOk result (λ bytes. (comment : List ℕ) (characters : List Character)
            → Keeps self comment characters → bytes ≡ file_of words comment characters) }
        ensures handed_back { IfErr result (λ refused. IsSameFile self refused.0) }
        ensures none { (comment : List ℕ) (characters : List Character)
            → Keeps self comment characters
            → (characters ≡ []) ↔ IsRefusedAs GfFault.NoCharacters result }
        ensures too_long { (comment : List ℕ) (characters : List Character)
            → Keeps self comment characters
            → IsLongFile (max_bytes_of self) words comment characters
            ↔ IsRefusedAs GfFault.FileTooLong result }
        ensures fault { IfErr result (λ refused.
            (refused.1 ≡ GfFault.NoCharacters) ⊎ (refused.1 ≡ GfFault.FileTooLong)
            ⊎ (refused.1 ≡ GfFault.OutOfMemory)) }
    {
        let Some(bounds) = self.bounds else {
            return Err((self, GfFault::NoCharacters));
        };
        match self.tail(&words, &bounds) {
            Ok(tail) => self.with_tail(&tail),
            Err(fault) => Err((self, fault)),
        }
    }

    /// Finishes the file as `finish` does, if a character was shipped; `None` exactly where none was. Refused with `FileTooLong`
    /// exactly where it would have more bytes than it may have, and with `OutOfMemory` where an allocation fails. A refusal does not
    /// hand the file back.
    pub fn finish_if_any(self, words: FontWords) -> Result<Option<GfBytes>, GfFault>
        ensures value { IfOk result (λ bytes. (comment : List ℕ) (characters : List Character)
            → Keeps self comment characters → bytes ≡ file_if_any words comment characters) }
        ensures none { (comment : List ℕ) (characters : List Character)
            → Keeps self comment characters → (characters ≡ []) ↔ (result ≡ Ok None) }
        ensures too_long { (comment : List ℕ) (characters : List Character)
            → Keeps self comment characters
            → IsLongFile (max_bytes_of self) words comment characters
            ↔ (result ≡ Err GfFault.FileTooLong) }
        ensures fault { IfErr result (λ fault.
            (fault ≡ GfFault.FileTooLong) ⊎ (fault ≡ GfFault.OutOfMemory)) }
    {
        match self.finish(words) {
            Ok(bytes) => Ok(Some(bytes)),
            Err((_, GfFault::NoCharacters)) => Ok(None),
            Err((_, fault)) => Err(fault),
        }
    }

    /// The bytes that come after the characters.
    fn tail(&self, words: &FontWords, bounds: &CharacterBox) -> Result<Vec<u8>, GfFault>
        ensures bytes { IfOk result (λ tail.
            tail.items ≡ tail_after self.now words.now bounds.now) }
        ensures too_long { HasNoRoomFor self.now (tail_after self.now words.now bounds.now)
            ↔ (result ≡ Err GfFault.FileTooLong) }
        ensures fault { IfErr result (λ fault.
            (fault ≡ GfFault.FileTooLong) ⊎ (fault ≡ GfFault.OutOfMemory)) }
    {
        let place = self.bytes.len() as u32;
        let mut out = Spelling::new(self.alloc, (self.max_bytes - place) as usize);
        put_post(&mut out, words, bounds, place);
        self.locators.spell(&mut out);
        out.put_end(place);
        out.finish()
    }

    /// The finished file: its characters and this tail.
    fn with_tail(mut self, tail: &[u8]) -> Result<GfBytes, (GfFile, GfFault)>
        requires within { length (self.bytes.items ++ tail.now) ≤ self.max_bytes }
        ensures finished { IfOk result (λ bytes. bytes ≡ self.bytes.items ++ tail.now) }
        ensures handed_back { IfErr result (λ refused.
            IsSameFile self refused.0 × (refused.1 ≡ GfFault.OutOfMemory)) }
    {
        match self.bytes.extend_from_slice(tail) {
            Ok(()) => Ok(GfBytes::new(self.bytes)),
            Err(_) => Err((self, GfFault::OutOfMemory)),
        }
    }
}

/// Appends post and its numbers. `place` is its place in the file.
fn put_post(out: &mut Spelling, words: &FontWords, bounds: &CharacterBox, place: u32)
    ensures held { (text : List ℕ) → Holds out.old text
        → Holds out.new (text ++ post_text words.now bounds.now place) }
    ensures room { out.new.room ≡ out.old.room }
{
    out.put_byte(POST);
    out.put_unsigned(place);
    out.put_word(words.ds);
    out.put_unsigned(words.cs);
    out.put_word(words.hppp);
    out.put_word(words.vppp);
    out.put_word(bounds.min_m);
    out.put_word(bounds.max_m);
    out.put_word(bounds.min_n);
    out.put_word(bounds.max_n);
}

impl Spelling {
    /// Appends the ending of a file. `place` is the place of post, and the spelling so far has the bytes from there on.
    fn put_end(&mut self, place: u32)
        ensures held { (text : List ℕ) → Holds self.old text
            → Holds self.new (text ++ ending place (place + length text)) }
        ensures room { self.new.room ≡ self.old.room }
    {
        let before = place as usize + self.length() + ENDING;
        self.put_byte(POST_POST);
        self.put_unsigned(place);
        self.put_byte(GF_ID);
        // At least four bytes, as the format requires, up to a multiple of 4: four where `before` is a multiple of 4, and seven,
        // six or five where it is one, two or three more than that.
        let padding = [PADDING; 7];
        self.put(&padding[..7 - (before + 3) % 4]);
    }
}
