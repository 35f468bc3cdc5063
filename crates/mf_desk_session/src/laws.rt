//! Laws of scripts. Each is the contract of a function that does nothing, because the toolchain proves a statement only where a
//! function's contract names it.
ghost use Rattle.std.specs.Prelude.{◌≡◌, ◌++◌, ℕ, List};
ghost use Rattle.mf_desk_session.specs.Answers.{Answers};
ghost use Rattle.mf_desk_session.specs.States.{Answer, Limits, State};
ghost use Rattle.mf_desk_session.specs.Transcript.{IsTranscript, Perform, PerformInTurn};

/// A script may be cut between two lines: it prints what the first lines print and then, from the state after them, what the
/// others print.
pub fn line_by_line()
    ensures together { (limits : Limits) (s : State) (lines more : List (List ℕ)) (whole : Answer)
        → PerformInTurn limits s lines more whole → Perform limits s (lines ++ more) whole }
    ensures apart { (limits : Limits) (s : State) (lines more : List (List ℕ)) (whole : Answer)
        → Perform limits s (lines ++ more) whole → PerformInTurn limits s lines more whole }
{}

/// In a state, a line has exactly one answer: one text, and one state after it.
#[tactic(auto, using(crate::proofs::SomeAnswer::some_answer))]
pub fn one_answer()
    ensures some { (limits : Limits) (s : State) (line : List ℕ)
        → (a : Answer) × Answers limits s line a }
    ensures one { (limits : Limits) (s : State) (line : List ℕ) (a b : Answer)
        → Answers limits s line a → Answers limits s line b → a ≡ b }
{}

/// A script has exactly one transcript.
#[tactic(auto, using(crate::proofs::SomeAnswer::some_transcript))]
pub fn one_transcript()
    ensures some { (limits : Limits) (input : List ℕ)
        → (text : List ℕ) × IsTranscript limits input text }
    ensures one { (limits : Limits) (input text other : List ℕ) → IsTranscript limits input text
        → IsTranscript limits input other → text ≡ other }
{}
