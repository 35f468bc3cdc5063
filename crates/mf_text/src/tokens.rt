//! The tokens of a line, read where they are in its bytes. No token is made: the reader asks for the one that may come next. To pass
//! a token is to consume it.
ghost use Rattle.std.specs.Prelude.{◌≡◌, ◌+◌, ◌<◌, ◌^◌, length};
ghost use Rattle.mf_text.specs.Token as token;
ghost use Rattle.mf_text.specs.Token.{column_of, letter_in, value_in};
ghost use Rattle.mf_text.specs.Tokens.{tokens_from};

use crate::fault::SyntaxFault;
use crate::token::{Mark, Word};

mod front;

use front::{blanks_at, letter_at, mark_at, number_at, word_at};

/// The tokens of a line that are still to come. Columns count bytes from 1, and the line is shorter than 2^31 bytes, so that
/// they fit 32 bits.
#[derive(Clone, Copy)]
pub struct Tokens<'a> {
    /// The bytes that are not read yet.
    pub(crate) unread: &'a [u8],
    /// The column of the first of these bytes, from 1.
    pub(crate) column: u32,
    ghost short: { length unread.now + column < 2 ^ 32 },
    ghost counted: { 0 < column },
}

impl<'a> Tokens<'a> {
    ghost use Rattle.std.specs.Prelude.{ℕ, ◌≡◌, ◌≢◌, ◌+◌, ◌<◌, ◌≤◌, ◌^◌, drop, length, true, false, [], if◌then◌else◌};
    ghost use Rattle.mf_text.specs.Reads.{LeavesNoMore, TakesToken, TakesValue, ahead, remaining_tokens};
    ghost use Rattle.mf_text.specs.Rests.{Or, Rest, from};
    ghost use Rattle.mf_text.specs.Token.{column_of};
    ghost use Rattle.mf_text.specs.Tokens.{IsClear, tokens};

    /// All tokens of this line. Requires it to be shorter than 2^31 bytes.
    pub fn new(line: &'a [u8]) -> Tokens<'a>
        requires { length line.now < 2 ^ 31 }
        ensures tokens { remaining_tokens result ≡ tokens line.now }
        ensures column { result.column ≡ 1 }
    {
        Tokens {
            unread: line,
            column: 1,
        }
    }

    /// Passes the blanks at the front.
    #[inline(always)]
    #[tactic(auto, using(crate::proofs::LineTokens::tokens_at_blank))]
    fn skip_blanks(&mut self)
        ensures same { remaining_tokens self.new ≡ remaining_tokens self.old }
        ensures clear { IsClear self.new.unread.now }
    {
        while let [b' ' | b'\t', after @ ..] = self.unread {
            *self = Tokens {
                unread: after,
                column: self.column + 1,
            };
        }
    }

    /// Passes the blanks at the front, where mostly there are none, as before the tokens of a contour. They are counted by a function
    /// that is not inlined: if it were, the code after it would compute each position from the number of blanks passed.
    #[inline(always)]
    fn skip_rare_blanks(&mut self)
        ensures same { remaining_tokens self.new ≡ remaining_tokens self.old }
        ensures clear { IsClear self.new.unread.now }
    {
        if let [b' ' | b'\t', ..] = self.unread {
            *self = self.after(blanks_at(self.unread));
        }
    }

    /// What is left after this many bytes. Requires that many to be left.
    #[inline(always)]
    fn after(self, bytes: usize) -> Tokens<'a>
        requires { bytes ≤ length self.unread.now }
        ensures unread { result.unread.now ≡ drop bytes self.entry.unread.now }
        ensures column { result.column ≡ self.entry.column + bytes }
    {
        Tokens {
            unread: &self.unread[bytes..],
            column: self.column + bytes as u32,
        }
    }

    /// Passes this word, if it is the next token, and returns whether it was. The word is compared with the bytes, and no table
    /// is searched for the word that is there: only a few words may come at any place.
    #[tactic(auto, using(crate::proofs::FirstTokens::takes_this))]
    pub fn takes_word(&mut self, word: Word) -> bool
        ensures read { (this other : Rest)
            → from (Or (token.Word word) this other) (ahead self.old)
            ≡ from (if result then this else other) (ahead self.new) }
        ensures took { TakesToken (token.Word word) self.old self.new result }
    {
        let mut start = *self;
        start.skip_blanks();
        match word_at(word, start.unread) {
            Some(bytes) => {
                *self = start.after(bytes);
                true
            }
            None => false,
        }
    }

    /// Passes this mark, if it is the next token, and returns whether it was. The mark is compared with the bytes, too: most
    /// tokens of a contour are marks, and a search of their table would look at several entries for each.
    #[inline(always)]
    #[tactic(auto, using(crate::proofs::FirstTokens::takes_this, crate::proofs::FirstTokens::leaves_fewer))]
    pub fn takes_mark(&mut self, mark: Mark) -> bool
        ensures read { (this other : Rest)
            → from (Or (token.Mark mark) this other) (ahead self.old)
            ≡ from (if result then this else other) (ahead self.new) }
        ensures took { TakesToken (token.Mark mark) self.old self.new result }
        ensures within { LeavesNoMore self.new self.old }
        ensures fewer { result ≡ true
            → length (remaining_tokens self.new) < length (remaining_tokens self.old) }
    {
        let mut start = *self;
        start.skip_rare_blanks();
        match mark_at(mark, start.unread) {
            Some(bytes) => {
                *self = start.after(bytes);
                true
            }
            None => false,
        }
    }

    /// Passes a single letter `a`..`z`, if it is the next token, and returns its number, 0 for `a`.
    #[inline(always)]
    #[tactic(auto, using(crate::proofs::FirstTokens::takes_no_value, crate::proofs::FirstTokens::takes_value))]
    pub fn takes_letter(&mut self) -> Option<u8>
        ensures { TakesValue letter_in self.old self.new result }
    {
        let mut start = *self;
        start.skip_blanks();
        let (letter, bytes) = letter_at(start.unread)?;
        *self = start.after(bytes);
        Some(letter)
    }

    /// Passes a number of at most nine digits, if it is the next token, and returns its value.
    #[inline(always)]
    #[tactic(auto, using(crate::proofs::FirstTokens::takes_no_value, crate::proofs::FirstTokens::takes_value))]
    pub fn takes_number(&mut self) -> Option<u32>
        ensures { TakesValue value_in self.old self.new result }
    {
        let mut start = *self;
        start.skip_rare_blanks();
        let (value, bytes) = number_at(start.unread)?;
        *self = start.after(bytes);
        Some(value)
    }

    /// Whether no token is left.
    #[inline(always)]
    pub fn is_ended(&self) -> bool
        ensures ended { result ≡ true → remaining_tokens self.now ≡ [] }
        ensures more { result ≡ false → remaining_tokens self.now ≢ [] }
    {
        let mut start = *self;
        start.skip_blanks();
        start.is_at_end()
    }

    /// Whether the line ends here or a comment begins here. Requires that no blank is at the front.
    #[inline(always)]
    #[tactic(auto, using(crate::proofs::LineTokens::tokens_at_end, crate::proofs::LineTokens::tokens_at_comment, crate::proofs::LineTokens::tokens_at_token))]
    fn is_at_end(&self) -> bool
        requires { IsClear self.now.unread.now }
        ensures ended { result ≡ true → remaining_tokens self.now ≡ [] }
        ensures more { result ≡ false → remaining_tokens self.now ≢ [] }
        ensures column { result ≡ false → (past : ℕ)
            → column_of (remaining_tokens self.now) past ≡ self.now.column }
    {
        match self.unread {
            [] => true,
            [byte, ..] => *byte == b'%',
        }
    }

    /// The fault of a line that cannot go on with its next token: the column of that token, or one past the last token where
    /// none is left.
    #[inline(always)]
    pub fn fault(self) -> SyntaxFault
        ensures { result.column ≡ column_of (remaining_tokens self.entry) self.entry.column }
    {
        fault_at(self.unread, self.column)
    }
}

/// The fault of a line that cannot go on where these bytes are left, the first of which has this column. It takes no `Tokens`:
/// the reader would have to keep them in memory for a call, and not in the processor's registers.
#[cold]
#[inline(never)]
fn fault_at(text: &[u8], column: u32) -> SyntaxFault
    requires short { length text.now + column < 2 ^ 32 }
    requires counted { 0 < column }
    ensures { result.column ≡ column_of (tokens_from column text.now) column }
{
    let mut start = Tokens {
        unread: text,
        column,
    };
    start.skip_blanks();
    if start.is_at_end() {
        return SyntaxFault { column };
    }
    SyntaxFault {
        column: start.column,
    }
}
