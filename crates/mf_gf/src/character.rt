//! The bytes of a character.
ghost use Rattle.std.specs.Prelude.{◌≡◌, ◌&&◌, ◌-ℤ◌, ◌++◌, List, ℕ, true};
ghost use Rattle.mf_geom.specs.Coordinates.{IsCoordinate};
ghost use Rattle.mf_gf.specs.Boxes.{IsBoxInRange, box_of_pixels};
ghost use Rattle.mf_gf.specs.Numbers.{word};
ghost use Rattle.mf_gf.specs.Pixels.{black};
ghost use Rattle.mf_gf.specs.Spelling.{begin, is_byte, is_short, long_begin, pointer, short_begin, spell};
ghost use Rattle.mf_gf.specs.Spellings.{Holds, IsSpelling};
ghost use Rattle.mf_rows.specs.Dots.{IsPicture};

use crate::boxes::CharacterBox;
use crate::rows::spell_rows;
use crate::spelling::Spelling;
use mf_rows::Picture;

/// boc, the command that begins a character (gftype.web).
const BOC: u8 = 67;

/// boc1, the command that begins a character whose numbers have one byte each (gftype.web).
const BOC1: u8 = 68;

/// eoc, the command that ends a character (gftype.web).
const EOC: u8 = 69;

/// Spells the character with this code and box whose black pixels are those of positive weight. `earlier` is the place of the
/// last earlier character with this code, if there is one.
pub(crate) fn spell(
    out: &mut Spelling,
    code: u8,
    earlier: Option<u32>,
    picture: &Picture,
    bounds: &CharacterBox,
)
    requires bounds { bounds.now ≡ box_of_pixels (black picture.now) }
    requires lawful { IsPicture picture.now }
    requires spelling { IsSpelling out.old }
    ensures held { (text : List ℕ) → Holds out.old text
        → Holds out.new (text ++ spell code (pointer earlier) (black picture.now)) }
    ensures room { out.new.room ≡ out.old.room }
{
    put_begin(out, code, earlier, bounds);
    spell_rows(out, picture, bounds.min_m);
    out.put_byte(EOC);
}

/// Begins a character: with boc1 where it is the first of its code and its box allows it, else with boc.
fn put_begin(out: &mut Spelling, code: u8, earlier: Option<u32>, bounds: &CharacterBox)
    requires { IsBoxInRange bounds.now }
    ensures held { (text : List ℕ) → Holds out.old text
        → Holds out.new (text ++ begin code (pointer earlier) bounds.now) }
    ensures room { out.new.room ≡ out.old.room }
{
    if earlier.is_none() && is_short(bounds) {
        put_short_begin(out, code, bounds);
    } else {
        put_long_begin(out, code, earlier, bounds);
    }
}

/// Begins a character with boc1, whose fields have one byte each.
fn put_short_begin(out: &mut Spelling, code: u8, bounds: &CharacterBox)
    requires range { IsBoxInRange bounds.now }
    requires short { is_short bounds.now ≡ true }
    ensures held { (text : List ℕ) → Holds out.old text
        → Holds out.new (text ++ short_begin code bounds.now) }
    ensures room { out.new.room ≡ out.old.room }
{
    out.put(&[
        BOC1,
        code,
        (bounds.max_m - bounds.min_m) as u8,
        bounds.max_m as u8,
        (bounds.max_n - bounds.min_n) as u8,
        bounds.max_n as u8,
    ]);
}

/// Begins a character with boc, whose fields have four bytes each.
fn put_long_begin(out: &mut Spelling, code: u8, earlier: Option<u32>, bounds: &CharacterBox)
    ensures held { (text : List ℕ) → Holds out.old text
        → Holds out.new (text ++ long_begin code (pointer earlier) bounds.now) }
    ensures room { out.new.room ≡ out.old.room }
{
    out.put_byte(BOC);
    out.put_unsigned(u32::from(code));
    put_pointer(out, earlier);
    out.put_word(bounds.min_m);
    out.put_word(bounds.max_m);
    out.put_word(bounds.min_n);
    out.put_word(bounds.max_n);
}

/// The field p of boc: the place of the last earlier character with the same code, or -1 (gftype.web).
fn put_pointer(out: &mut Spelling, earlier: Option<u32>)
    ensures held { (text : List ℕ) → Holds out.old text
        → Holds out.new (text ++ word (pointer earlier)) }
    ensures room { out.new.room ≡ out.old.room }
{
    match earlier {
        Some(place) => out.put_unsigned(place),
        None => out.put_word(-1),
    }
}

/// Whether a box fits into the one-byte fields of boc1.
#[tactic(auto, using(crate::proofs::ShortBoxes::and_else))]
fn is_short(bounds: &CharacterBox) -> bool
    requires { IsBoxInRange bounds.now }
    ensures { result ≡ is_short bounds.now }
{
    is_short_side(bounds.min_m, bounds.max_m) && is_short_side(bounds.min_n, bounds.max_n)
}

/// Whether the extent and the greater end of a side of a box each fit into one byte.
#[tactic(auto, using(crate::proofs::ShortBoxes::and_then, crate::proofs::ShortBoxes::and_else))]
fn is_short_side(least: i32, greatest: i32) -> bool
    requires least { IsCoordinate least }
    requires greatest { IsCoordinate greatest }
    ensures { result ≡ (is_byte (greatest -ℤ least) && is_byte greatest) }
{
    is_byte(greatest - least) && is_byte(greatest)
}

/// Whether a number fits into one byte.
fn is_byte(number: i32) -> bool
    ensures { result ≡ is_byte number }
{
    0 <= number && number <= u8::MAX as i32
}
