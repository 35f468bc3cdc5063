//! What is at the front of bytes: blanks, or a given token, letter or number. These functions take no `Tokens`: they do not count
//! columns.
ghost use Rattle.std.specs.Prelude.{ℕ, ◌≡◌, ◌+◌, ◌≤◌, IsTrue, drop, length, nat_eq, nat_lt, Some, None, if◌then◌else◌};
ghost use Rattle.std.specs.Char.{is_ascii_alphabetic};
ghost use Rattle.std.specs.List.{starts_with};
ghost use Rattle.mf_text.specs.Token as token;
ghost use Rattle.mf_text.specs.Token.{letter_in, value_in};
ghost use Rattle.mf_text.specs.Tokens.{Finds, FindsToken, IsClear, first_is, is_longer, tokens_from};

use crate::token::{Mark, Word};

/// The greatest number of digits of a number.
const MAX_DIGITS: usize = 9;

/// How many blanks are at the front. It takes no `Tokens`, so that the reader keeps its place in registers.
#[inline(never)]
#[tactic(auto, using(std::proofs::lemmas::List::drop_more, crate::proofs::LineTokens::tokens_of_blank))]
pub(super) fn blanks_at(text: &[u8]) -> usize
    ensures within { result ≤ length text.now }
    ensures same { (column : ℕ)
        → tokens_from (column + result) (drop result text.now) ≡ tokens_from column text.now }
    ensures clear { IsClear (drop result text.now) }
{
    for (place, byte) in text.iter().enumerate() {
        if !matches!(byte, b' ' | b'\t') {
            return place;
        }
    }
    text.len()
}

/// How many bytes this word takes, if it is the token at the front. It is not if another letter follows it, since a token is as
/// long as possible.
#[inline(always)]
#[tactic(auto, using(crate::proofs::Finds::no_word, crate::proofs::Finds::longer_word))]
pub(super) fn word_at(word: Word, text: &[u8]) -> Option<usize>
    ensures { FindsToken (token.Word word) text.now result }
{
    let written = word.text();
    if !begins_with(text, written) {
        return None;
    }
    if has_letter(&text[written.len()..]) {
        return None;
    }
    Some(written.len())
}

/// How many bytes this mark takes, if it is the token at the front.
#[inline(always)]
#[tactic(auto, using(crate::proofs::Finds::no_mark, crate::proofs::Finds::longer_mark))]
pub(super) fn mark_at(mark: Mark, text: &[u8]) -> Option<usize>
    ensures { FindsToken (token.Mark mark) text.now result }
{
    let written = mark.text();
    if !begins_with(text, written) {
        return None;
    }
    if is_longer(mark, text) {
        return None;
    }
    Some(written.len())
}

/// Whether a longer mark that begins with this one is at the front: `--` for `-`.
#[inline(always)]
fn is_longer(mark: Mark, text: &[u8]) -> bool
    ensures { result ≡ is_longer mark text.now }
{
    match mark {
        Mark::Minus => begins_with(text, Mark::Join.text()),
        _ => false,
    }
}

/// Whether the text begins with these bytes. One after another is compared, so that those of a given word or mark are constants
/// in the code, and the first byte that differs decides. With `starts_with` of std, which compares groups of bytes, a point of a
/// contour takes 140 instructions more to read, and a trivial line 14.
#[inline(always)]
fn begins_with(text: &[u8], written: &[u8]) -> bool
    ensures bound { IsTrue result → length written.now ≤ length text.now }
    ensures value { result ≡ starts_with nat_eq text.now written.now }
{
    if text.len() < written.len() {
        return false;
    }
    for (place, byte) in written.iter().enumerate() {
        if text[place] != *byte {
            return false;
        }
    }
    true
}

/// The number of the letter `a`..`z` at the front, 0 for `a`, and how many bytes it takes, if no other letter follows it.
#[inline(always)]
#[tactic(auto, using(crate::proofs::Finds::no_small_letter, crate::proofs::Finds::longer_letters))]
pub(super) fn letter_at(text: &[u8]) -> Option<(u8, usize)>
    ensures { Finds letter_in text.now result }
{
    let [letter @ b'a'..=b'z', after @ ..] = text else {
        return None;
    };
    if has_letter(after) {
        return None;
    }
    Some((*letter - b'a', 1))
}

/// Whether a letter is at the front.
#[inline(always)]
fn has_letter(text: &[u8]) -> bool
    ensures { result ≡ first_is is_ascii_alphabetic text.now }
{
    match text {
        [byte, ..] => byte.is_ascii_alphabetic(),
        [] => false,
    }
}

/// The value of the number at the front and how many bytes it takes, if it has at most nine digits. Digits are counted, not the
/// value, so leading zeros count, too.
#[inline(always)]
pub(super) fn number_at(text: &[u8]) -> Option<(u32, usize)>
    ensures { Finds value_in text.now result }
{
    let mut value = 0;
    for (digits, byte) in text.iter().enumerate() {
        if !byte.is_ascii_digit() {
            return number_of(value, digits);
        }
        if digits == MAX_DIGITS {
            return None;
        }
        value = 10 * value + u32::from(*byte - b'0');
    }
    number_of(value, text.len())
}

/// This value and how many digits it has, unless there are none.
fn number_of(value: u32, digits: usize) -> Option<(u32, usize)>
    ensures { result ≡ (if nat_lt 0 digits then Some (value, digits) else None) }
{
    (digits > 0).then_some((value, digits))
}
