//! Laws of the command language. Each is the contract of a function that does nothing: the toolchain proves a statement only
//! where a function's contract names it.
ghost use Rattle.std.specs.Prelude.{◌≡◌, ◌≢◌, ◌⊎◌, ℕ, List};
ghost use Rattle.mf_text.specs.declared.command.Command.{Command};
ghost use Rattle.mf_text.specs.Token.{Ahead, PlacedToken, Token};
ghost use Rattle.mf_text.specs.Grammar.{Line, spell_line};
ghost use Rattle.mf_text.specs.Lines.{Gives, IsRefused};
ghost use Rattle.mf_text.specs.Registers.{HasNames};
ghost use Rattle.mf_text.specs.Syntax.{IsLine, IsLinePrefix, IsSyntaxFault};
ghost use Rattle.mf_text.specs.Tokens.{without_columns, tokens};
ghost use Rattle.mf_text.specs.TokenTexts.{AreTokens};

use crate::fault::TextFault;

/// The tokens of a line are its bytes, cut from the left: each is as long as possible, only blanks come between them, and after
/// the last one only blanks and perhaps a comment. Each has the column of its first byte, from 1, and the one after its last. No
/// other list of tokens is cut from a line in this way.
#[tactic(auto, using(crate::proofs::Cuts::are_tokens, crate::proofs::Cuts::one_cut))]
pub fn tokens_are_as_long_as_can_be()
    ensures cut { (line : List ℕ) → AreTokens 1 line (tokens line) }
    ensures one_cut { (line : List ℕ) (others : List PlacedToken) → AreTokens 1 line others
        → others ≡ tokens line }
{}

/// A list of tokens is at most one line of the grammar.
#[tactic(auto, using(crate::proofs::LineReading::same_line))]
pub fn one_line()
    ensures { (l m : Line) → spell_line l ≡ spell_line m → l ≡ m }
{}

/// A line gives exactly one command or, allocation failures aside, has exactly one refusal, and never both.
pub fn one_answer()
    ensures some { (bytes : List ℕ) → ((given : Command) × Gives bytes given)
        ⊎ ((fault : TextFault) × (fault ≢ TextFault.OutOfMemory) × IsRefused bytes fault) }
    ensures command { (bytes : List ℕ) (one other : Command) → Gives bytes one → Gives bytes other
        → one ≡ other }
    ensures refusal { (bytes : List ℕ) (one other : TextFault) → one ≢ TextFault.OutOfMemory
        → other ≢ TextFault.OutOfMemory → IsRefused bytes one → IsRefused bytes other
        → one ≡ other }
    ensures not_both { (bytes : List ℕ) (given : Command) (fault : TextFault)
        → fault ≢ TextFault.OutOfMemory → Gives bytes given → IsRefused bytes fault → ⊥ }
{}

/// Tokens that go wrong at a column are not a line of the grammar.
pub fn wrong_is_no_line()
    ensures { (ahead : Ahead) (column : ℕ) → IsSyntaxFault ahead column
        → IsLine (without_columns ahead.tokens) → ⊥ }
{}

/// Tokens are a prefix of some line of the grammar, or of none.
#[tactic(auto, using(crate::proofs::LineReading::line_prefix_or_not))]
pub fn line_prefix_or_not()
    ensures { (ts : List Token) → IsLinePrefix ts ⊎ (IsLinePrefix ts → ⊥) }
{}

/// The registers that the command of a line names are `a` to `z`.
pub fn registers_are_letters()
    ensures { (bytes : List ℕ) (given : Command) → Gives bytes given → HasNames given }
{}
