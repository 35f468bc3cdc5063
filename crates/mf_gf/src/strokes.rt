//! The painting commands of a character.
ghost use Rattle.std.specs.Prelude.{◌≡◌, ◌<◌, ◌≤◌, ◌++◌, List, ℕ};
ghost use Rattle.mf_gf.specs.Format.{most_new_row};
ghost use Rattle.mf_gf.specs.Numbers.{greatest_byte, greatest_halfword};
ghost use Rattle.mf_gf.specs.Spelling.{new_row, paint, skip, with_parameter};
ghost use Rattle.mf_gf.specs.Spellings.{Holds};

use crate::spelling::Spelling;

/// paint1, which paints as many pixels as its one-byte parameter says (gftype.web).
const PAINT1: u8 = 64;

/// The greatest number of pixels that is its own opcode: paint_0 to paint_63 (gftype.web).
pub(crate) const MOST_PAINTED: u32 = 63;

/// skip0, which goes to the next row and skips no blank row (gftype.web).
const SKIP0: u8 = 70;

/// skip1, which skips as many blank rows as its one-byte parameter says (gftype.web).
const SKIP1: u8 = 71;

/// new_row_0, which goes to the next row, to the left end of the box. The opcodes up to new_row_164 follow it (gftype.web).
const NEW_ROW_0: u8 = 74;

impl Spelling {
    /// Appends a command that paints `length` pixels. Most stretches have at most 63, so only their command is inlined.
    #[inline(always)]
    #[tactic(auto, unfolding(crate::specs::Spelling::paint))]
    pub(crate) fn paint(&mut self, length: u32)
        requires { length ≤ greatest_halfword }
        ensures held { (text : List ℕ) → Holds self.old text
            → Holds self.new (text ++ paint length) }
        ensures room { self.new.room ≡ self.old.room }
    {
        if length <= MOST_PAINTED {
            self.put_byte(length as u8);
        } else {
            self.put_parameter(PAINT1, length);
        }
    }

    /// Appends a command that skips `rows` blank rows.
    #[tactic(auto, unfolding(crate::specs::Spelling::skip))]
    pub(crate) fn skip(&mut self, rows: u32)
        requires { rows ≤ greatest_halfword }
        ensures held { (text : List ℕ) → Holds self.old text → Holds self.new (text ++ skip rows) }
        ensures room { self.new.room ≡ self.old.room }
    {
        if rows == 0 {
            self.put_byte(SKIP0);
        } else {
            self.put_parameter(SKIP1, rows);
        }
    }

    /// Appends a command that goes to the next row, to this offset from the left end of the box.
    pub(crate) fn new_row(&mut self, offset: u32)
        requires { offset ≤ most_new_row }
        ensures held { (text : List ℕ) → Holds self.old text
            → Holds self.new (text ++ new_row offset) }
        ensures room { self.new.room ≡ self.old.room }
    {
        self.put_byte(NEW_ROW_0 + offset as u8);
    }

    /// Appends a command with its parameter: this opcode for a parameter of one byte, and the next one for two bytes.
    #[inline(never)]
    fn put_parameter(&mut self, opcode: u8, parameter: u32)
        requires opcode { opcode < greatest_byte }
        requires parameter { parameter ≤ greatest_halfword }
        ensures held { (text : List ℕ) → Holds self.old text
            → Holds self.new (text ++ with_parameter opcode parameter) }
        ensures room { self.new.room ≡ self.old.room }
    {
        if parameter <= u8::MAX as u32 {
            self.put(&[opcode, parameter as u8]);
        } else {
            self.put_byte(opcode + 1);
            self.put_halfword(parameter as u16);
        }
    }
}
