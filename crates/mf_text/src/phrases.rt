//! Phrases of lines, each passed (consumed) by a function of its own. `takes_..` passes a token only where it comes next, and says whether
//! it did; `pass_..` passes the token that must come next; the others pass a phrase, and return its value if it has one. A fault is the
//! column, in bytes from 1, at which the line goes wrong.
ghost use Rattle.std.specs.Prelude.{◌≡◌, Ok, IfOk};
ghost use Rattle.mf_text.specs.Grammar.{Line, name_token};
ghost use Rattle.mf_text.specs.Reads.{Closes, LeavesNoMore, PassesPhrase, PassesPath, TakesValue, ahead, then_end, then_from, then_value};
ghost use Rattle.mf_text.specs.Rests as rests;
ghost use Rattle.mf_text.specs.Rests.{CodeNumber, Codes, Ends, Names, Numbers, OrTake, Rest, Take, from, value};
ghost use Rattle.mf_text.specs.Token as token;
ghost use Rattle.mf_text.specs.Token.{name_in};

use crate::code::Code;
use crate::command::{Name, Source};
use crate::fault::SyntaxFault;
use crate::int::Int;
use crate::pair::Pair;
use crate::path::Path;
use crate::token::{Mark, Word};
use crate::tokens::Tokens;
use std::alloc::Global;

impl Tokens<'_> {
    /// Passes this word, which must come next.
    #[tactic(auto, using(crate::proofs::Reading::from_one, crate::proofs::Reading::from_one_none))]
    pub fn pass_word(&mut self, word: Word) -> Result<(), SyntaxFault>
        ensures { (this : Rest)
            → from (rests.One (token.Word word) this) (ahead self.old)
            ≡ then_from (λ _. this) (ahead self.new) result }
    {
        if self.takes_word(word) {
            return Ok(());
        }
        Err(self.fault())
    }

    /// Passes this mark, which must come next.
    #[inline(always)]
    #[tactic(auto, using(crate::proofs::Reading::from_one, crate::proofs::Reading::from_one_none))]
    pub fn pass_mark(&mut self, mark: Mark) -> Result<(), SyntaxFault>
        ensures read { (this : Rest)
            → from (rests.One (token.Mark mark) this) (ahead self.old)
            ≡ then_from (λ _. this) (ahead self.new) result }
        ensures within { IfOk result (λ _. LeavesNoMore self.new self.old) }
    {
        if self.takes_mark(mark) {
            return Ok(());
        }
        Err(self.fault())
    }

    /// Passes a name, if it is the next token.
    #[tactic(auto, using(crate::proofs::Reading::takes_name))]
    #[inline(always)]
    pub fn takes_name(&mut self) -> Option<Name>
        ensures took { TakesValue name_in self.old self.new result }
        ensures read { (this : Name → Rest) → (other : Rest)
            → from (OrTake Names this other) (ahead self.old)
            ≡ then_value this other (ahead self.new) result }
    {
        if let Some(letter) = self.takes_letter() {
            return Some(Name::Register(letter));
        }
        if self.takes_word(Word::CurrentPicture) {
            return Some(Name::Current);
        }
        None
    }

    /// Passes a name, which must come next.
    #[tactic(auto, using(crate::proofs::Reading::from_take, crate::proofs::Reading::from_take_none))]
    #[inline(always)]
    pub fn name(&mut self) -> Result<Name, SyntaxFault>
        ensures { PassesPhrase (Take Names) self.old self.new result }
    {
        match self.takes_name() {
            Some(name) => Ok(name),
            None => Err(self.fault()),
        }
    }

    /// Passes this name, which must come next.
    #[tactic(auto, using(crate::proofs::Reading::takes_same_name))]
    pub fn pass_name(&mut self, name: Name) -> Result<(), SyntaxFault>
        ensures { (this : Rest)
            → from (rests.One (name_token name) this) (ahead self.old)
            ≡ then_from (λ _. this) (ahead self.new) result }
    {
        let mut after = *self;
        if after.takes_name() == Some(name) {
            *self = after;
            return Ok(());
        }
        Err(self.fault())
    }

    /// Passes a source: `nullpicture`, or a name.
    #[inline(always)]
    pub fn source(&mut self) -> Result<Source, SyntaxFault>
        ensures { PassesPhrase rests.source self.old self.new result }
    {
        if self.takes_word(Word::NullPicture) {
            return Ok(Source::Null);
        }
        Ok(Source::Named(self.name()?))
    }

    /// Passes the number of an int, if it is the next token. `negative` says whether `-` comes before it.
    #[inline(always)]
    fn takes_int(&mut self, negative: bool) -> Option<Int>
        ensures { TakesValue (value (Numbers negative)) self.old self.new result }
    {
        let mut after = *self;
        let int = Int::new(negative, after.takes_number()?)?;
        *self = after;
        Some(int)
    }

    /// Passes the number of an int, which must come next. `negative` says whether `-` comes before it.
    #[inline(always)]
    #[tactic(auto, using(crate::proofs::Reading::from_take, crate::proofs::Reading::from_take_none))]
    fn number(&mut self, negative: bool) -> Result<Int, SyntaxFault>
        ensures read { PassesPhrase (Take (Numbers negative)) self.old self.new result }
        ensures within { IfOk result (λ _. LeavesNoMore self.new self.old) }
    {
        match self.takes_int(negative) {
            Some(int) => Ok(int),
            None => Err(self.fault()),
        }
    }

    /// Passes an int: a number, or `-` and a number.
    #[inline(always)]
    pub fn int(&mut self) -> Result<Int, SyntaxFault>
        ensures read { PassesPhrase rests.int self.old self.new result }
        ensures within { IfOk result (λ _. LeavesNoMore self.new self.old) }
    {
        let negative = self.takes_mark(Mark::Minus);
        self.number(negative)
    }

    /// Passes the number of a code, if it is the next token and the int is in 0..=255. `negative` says whether `-` comes before
    /// it.
    fn takes_code(&mut self, negative: bool) -> Option<Code>
        ensures { TakesValue (value (Codes negative)) self.old self.new result }
    {
        let mut after = *self;
        let code = Code::new(after.takes_int(negative)?)?;
        *self = after;
        Some(code)
    }

    /// Passes the int of a code. An int out of range is reported at its first token.
    #[tactic(auto, using(crate::proofs::Reading::from_take, crate::proofs::Reading::from_take_none))]
    pub fn code(&mut self) -> Result<Code, SyntaxFault>
        ensures { PassesPhrase rests.character_code self.old self.new result }
    {
        if self.takes_mark(Mark::Minus) {
            return self.negative_code();
        }
        match self.takes_code(false) {
            Some(code) => Ok(code),
            None => Err(self.fault()),
        }
    }

    /// Passes the number of a code after its `-`. A number out of range is reported at the `-`, which is the last byte that was
    /// passed. This is a rule of its own: a line may go on with `-` after `code`, since `-0` is a code.
    #[tactic(auto, using(crate::proofs::Reading::from_code_number, crate::proofs::Reading::from_bad_code, crate::proofs::Reading::from_no_code))]
    fn negative_code(&mut self) -> Result<Code, SyntaxFault>
        ensures { PassesPhrase CodeNumber self.old self.new result }
    {
        if let Some(code) = self.takes_code(true) {
            return Ok(code);
        }
        let mut after = *self;
        match after.takes_number() {
            Some(_) => Err(SyntaxFault {
                column: self.column - 1,
            }),
            None => Err(self.fault()),
        }
    }

    /// Passes a pair: two ints in parentheses, with `,` between them.
    pub fn pair(&mut self) -> Result<Pair, SyntaxFault>
        ensures { PassesPhrase rests.pair self.old self.new result }
    {
        self.pass_mark(Mark::Open)?;
        self.rest_of_pair()
    }

    /// Passes the rest of a pair after its `(`.
    #[inline(always)]
    fn rest_of_pair(&mut self) -> Result<Pair, SyntaxFault>
        ensures read { PassesPhrase rests.rest_of_pair self.old self.new result }
        ensures within { IfOk result (λ _. LeavesNoMore self.new self.old) }
    {
        let across = self.int()?;
        self.pass_mark(Mark::Comma)?;
        let up = self.int()?;
        self.pass_mark(Mark::Close)?;
        Ok(Pair { across, up })
    }

    /// Passes the rest of a corner after its `(`: the rest of a pair, and `--`.
    #[inline(always)]
    fn rest_of_corner(&mut self) -> Result<Pair, SyntaxFault>
        ensures read { PassesPhrase rests.rest_of_corner self.old self.new result }
        ensures within { IfOk result (λ _. LeavesNoMore self.new self.old) }
    {
        let corner = self.rest_of_pair()?;
        self.pass_mark(Mark::Join)?;
        Ok(corner)
    }

    /// Passes a path, and keeps its points. Where there is no memory for one of them, it still passes the rest of the path, so
    /// that `OutOfMemory` never comes instead of `Syntax`. In a function of its own, `Tokens` stays in the processor's registers.
    #[inline(never)]
    pub fn path(&mut self, alloc: Global) -> Result<Path, SyntaxFault>
        ensures { PassesPath self.old self.new result }
    {
        let mut tokens = *self;
        tokens.pass_mark(Mark::Open)?;
        let mut path = Path::new(alloc);
        'corners: loop {
            path.push(tokens.rest_of_corner()?.value());
            if !tokens.takes_mark(Mark::Open) {
                break;
            }
        }
        *self = tokens;
        self.pass_word(Word::Cycle)?;
        Ok(path)
    }

    /// Passes a weight, `withweight` and an int, if `withweight` comes next.
    pub fn weight(&mut self) -> Result<Option<Int>, SyntaxFault>
        ensures { PassesPhrase rests.weight self.old self.new result }
    {
        if self.takes_word(Word::WithWeight) {
            return Ok(Some(self.int()?));
        }
        Ok(None)
    }

    /// Passes the end of a line after its command: `;`, if it is there, after which no token may be left.
    #[inline(always)]
    pub fn pass_line_end(&mut self) -> Result<(), SyntaxFault>
        ensures { Closes self.old result }
    {
        self.takes_mark(Mark::Semicolon);
        self.finish()
    }

    /// Checks that no token is left.
    #[tactic(auto, using(crate::proofs::Reading::from_ends, crate::proofs::Reading::from_ends_wrong))]
    pub fn finish(&mut self) -> Result<(), SyntaxFault>
        ensures { (line : Line) → from (Ends line) (ahead self.old) ≡ then_end line result }
    {
        if self.is_ended() {
            return Ok(());
        }
        Err(self.fault())
    }
}
