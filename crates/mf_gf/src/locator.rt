//! Where the characters of a file are.
ghost use Rattle.std.specs.Prelude.{◌≡◌, ◌++◌, List, ℕ};
ghost use Rattle.mf_gf.specs.Files.{locator_text, short_dx};
ghost use Rattle.mf_gf.specs.Spellings.{Holds};

use crate::spelling::Spelling;

/// char_loc, the command for the locator of a character (gftype.web).
const CHAR_LOC: u8 = 245;

/// char_loc0, the command for the locator of a character whose escapement is a whole number of pixels in 0..=255 (gftype.web).
const CHAR_LOC0: u8 = 246;

/// One pixel in the units of `dx`, which are 1/65536 pixel (mf.web).
const UNITY: i32 = 65_536;

/// The locator of a character: its code, its escapement in 1/65536 pixel, its width in 1/1048576 of the design size, and its
/// place, which is the number of bytes of the file before it.
#[derive(Clone, Copy, Debug, PartialEq, Eq)]
pub(crate) struct Locator {
    pub code: u8,
    pub dx: i32,
    pub width: i32,
    pub place: u32,
}

impl Locator {
    /// Spells the locator: as char_loc0 where the escapement is a whole number of pixels in 0..=255, else as char_loc.
    pub(crate) fn spell(&self, out: &mut Spelling)
        ensures held { (text : List ℕ) → Holds out.old text
            → Holds out.new (text ++ locator_text self.now) }
        ensures room { out.new.room ≡ out.old.room }
    {
        match self.whole_pixels() {
            Some(pixels) => out.put(&[CHAR_LOC0, self.code, pixels]),
            None => {
                out.put(&[CHAR_LOC, self.code]);
                out.put_word(self.dx);
                out.put_word(0);
            }
        }
        out.put_word(self.width);
        out.put_unsigned(self.place);
    }

    /// The escapement in pixels, if it is a whole number of pixels in 0..=255.
    fn whole_pixels(&self) -> Option<u8>
        ensures { result ≡ short_dx self.now.dx }
    {
        if self.dx < 0 || self.dx % UNITY != 0 || self.dx / UNITY > u8::MAX as i32 {
            return None;
        }
        Some((self.dx / UNITY) as u8)
    }
}
