//! How a file is made, up to its end.
ghost use Rattle.std.specs.Prelude.{◌≡◌, ◌⊎◌, ◌<◌, ◌≤◌, ◌↔◌, ◌++◌, ◌∷◌, [], Err, IfErr, IfOk, OnErr, OnOk, Some, List, ℕ, length, min};
ghost use Rattle.mf_gf.specs.Boxes.{box_of_pixels, widen};
ghost use Rattle.mf_gf.specs.Spelling as spelling;
ghost use Rattle.mf_gf.specs.Spelling.{pointer};
ghost use Rattle.mf_gf.specs.Files.{Character, preamble};
ghost use Rattle.mf_gf.specs.Keeping.{HasNoRoomFor, IsAppended, IsFullWith, IsSameFile, Keeps, character, max_bytes_of};
ghost use Rattle.mf_gf.specs.Numbers.{greatest_byte, greatest_word};
ghost use Rattle.mf_gf.specs.Pixels.{black};
ghost use Rattle.mf_rows.specs.Dots.{IsPicture};

use super::{GF_ID, GfFile};
use crate::boxes::CharacterBox;
use crate::character::spell;
use crate::fault::GfFault;
use crate::locator::Locator;
use crate::locators::Locators;
use crate::spelling::Spelling;
use mf_base::OutOfMemory;
use mf_rows::Picture;
use std::alloc::Global;

/// The greatest number of four bytes with a sign, and so of bytes in a file: each place is such a number.
const GREATEST_WORD: u32 = 2_147_483_647;

/// The greatest number of bytes in a comment: its length is written in one byte.
const MAX_COMMENT: usize = 255;

/// pre, the command that begins the preamble (gftype.web).
const PRE: u8 = 247;

/// The number of bytes in the preamble apart from the comment.
const PREAMBLE: usize = 3;

impl GfFile {
    /// A file with this comment and no characters, of at most `max_bytes` bytes. A greater `max_bytes` than 2,147,483,647 counts
    /// as that number. Refused with `FileTooLong` exactly where the preamble with the comment has more bytes than that, else with
    /// `CommentTooLong` exactly where the comment has more than 255 bytes, and with `OutOfMemory` where an allocation fails.
    #[tactic(auto, unfolding(crate::specs::Files::with_characters))]
    pub fn new(alloc: Global, comment: &[u8], max_bytes: u32) -> Result<GfFile, GfFault>
        ensures kept { IfOk result (λ file. Keeps file comment.now []) }
        ensures max_bytes { IfOk result (λ file. max_bytes_of file ≡ min max_bytes greatest_word) }
        ensures too_long { (min max_bytes greatest_word < length (preamble comment.now))
            ↔ (result ≡ Err GfFault.FileTooLong) }
        ensures comment_too_long { length (preamble comment.now) ≤ min max_bytes greatest_word
            → (greatest_byte < length comment.now) ↔ (result ≡ Err GfFault.CommentTooLong) }
        ensures fault { IfErr result (λ fault.
            (fault ≡ GfFault.FileTooLong) ⊎ (fault ≡ GfFault.CommentTooLong)
            ⊎ (fault ≡ GfFault.OutOfMemory)) }
    {
        let max_bytes = max_bytes.min(GREATEST_WORD);
        if comment.len().saturating_add(PREAMBLE) > max_bytes as usize {
            return Err(GfFault::FileTooLong);
        }
        if comment.len() > MAX_COMMENT {
            return Err(GfFault::CommentTooLong);
        }
        Ok(GfFile {
            alloc,
            bytes: preamble(alloc, comment)?,
            locators: Locators::new(alloc)?,
            count: 0,
            bounds: None,
            max_bytes,
        })
    }

    /// The number of characters that were shipped. A code that was shipped again counts again.
    pub fn count(&self) -> u32
        ensures { (comment : List ℕ) (characters : List Character)
            → Keeps self.now comment characters → result ≡ length characters }
    {
        self.count
    }

    /// Ships a character (METAFONT's `shipout`; mf.web: ship_out). Its black pixels are the pixels of positive weight in the
    /// picture. `dx` is its escapement in 1/65536 pixel, and `width` its width in 1/1048576 of the design size. Its vertical
    /// escapement is 0.
    ///
    /// The code may have been shipped before. Then p of the new character is the place of the last one with that code, and the
    /// locator of the code becomes that of the new character.
    ///
    /// Refused with `FileTooLong` exactly where the preamble and the characters would have more bytes than the file may have, and
    /// with `OutOfMemory` where an allocation fails. A refusal leaves the file as it was.
    #[tactic(auto, using(crate::proofs::Shipped::spell_some))]
    pub fn ship(&mut self, code: u8, dx: i32, width: i32, picture: &Picture) -> Result<(), GfFault>
        ensures shipped { OnOk result
            ((comment : List ℕ) (characters : List Character)
            → Keeps self.old comment characters
            → Keeps self.new comment (characters ++ character code dx width picture.now ∷ [])) }
        ensures unchanged { OnErr result (IsSameFile self.old self.new) }
        ensures max_bytes { max_bytes_of self.new ≡ max_bytes_of self.old }
        ensures too_long { (comment : List ℕ) (characters : List Character)
            → Keeps self.old comment characters
            → IsFullWith self.old comment characters (character code dx width picture.now)
            ↔ (result ≡ Err GfFault.FileTooLong) }
        ensures fault { IfErr result (λ fault.
            (fault ≡ GfFault.FileTooLong) ⊎ (fault ≡ GfFault.OutOfMemory)) }
    {
        let earlier = self.locators.last_place(code);
        let bounds = CharacterBox::of_black(picture);
        let spelled = self.spell(code, earlier, picture, &bounds)?;
        let locator = Locator {
            code,
            dx,
            width,
            place: self.bytes.len() as u32,
        };
        Ok(self.append(locator, bounds, &spelled)?)
    }

    /// The bytes of a character, if the file has room for them. `earlier` is the place of the last earlier character with this
    /// code, if there is one. They are spelled into a list of their own and then appended at once, so a refused character leaves
    /// the file as it was.
    fn spell(
        &self,
        code: u8,
        earlier: Option<u32>,
        picture: &Picture,
        bounds: &CharacterBox,
    ) -> Result<Vec<u8>, GfFault>
        requires bounds { bounds.now ≡ box_of_pixels (black picture.now) }
        requires lawful { IsPicture picture.now }
        ensures bytes { IfOk result (λ bytes.
            bytes.items ≡ spelling.spell code (pointer earlier) (black picture.now)) }
        ensures too_long { HasNoRoomFor self.now
            (spelling.spell code (pointer earlier) (black picture.now))
            ↔ (result ≡ Err GfFault.FileTooLong) }
        ensures fault { IfErr result (λ fault.
            (fault ≡ GfFault.FileTooLong) ⊎ (fault ≡ GfFault.OutOfMemory)) }
    {
        let room = self.max_bytes as usize - self.bytes.len();
        let mut out = Spelling::new(self.alloc, room);
        spell(&mut out, code, earlier, picture, bounds);
        out.finish()
    }

    /// Appends a character with these bytes. Where an allocation fails, nothing changes.
    fn append(
        &mut self,
        locator: Locator,
        bounds: CharacterBox,
        spelled: &[u8],
    ) -> Result<(), OutOfMemory>
        requires within { length (self.old.bytes.items ++ spelled.now) ≤ self.old.max_bytes }
        requires some { 1 ≤ length spelled.now }
        ensures appended { OnOk result (IsAppended self.old self.new locator spelled.now) }
        ensures bounds { OnOk result (self.new.bounds ≡ Some (widen self.old.bounds bounds)) }
        ensures unchanged { OnErr result (IsSameFile self.old self.new) }
        ensures max_bytes { max_bytes_of self.new ≡ max_bytes_of self.old }
    {
        self.bytes.extend_from_slice(spelled)?;
        self.locators.set(locator);
        self.count += 1;
        self.bounds = Some(CharacterBox::widen(self.bounds, bounds));
        Ok(())
    }
}

/// The preamble with this comment.
fn preamble(alloc: Global, comment: &[u8]) -> Result<Vec<u8>, OutOfMemory>
    requires { length comment.now ≤ greatest_byte }
    ensures { IfOk result (λ bytes. bytes.items ≡ preamble comment.now) }
{
    let mut bytes = Vec::from_slice(alloc, &[PRE, GF_ID, comment.len() as u8])?;
    bytes.extend_from_slice(comment)?;
    Ok(bytes)
}
