//! Opening, writing and confirming histories.
ghost use Rattle.std.specs.Prelude.{◌≡◌, ◌++◌, [], ◌∷◌, IfSome};
ghost use mathlib.Core.List.{IsPrefix};
ghost use Rattle.logbook.specs.Pages.{may_write};
ghost use Rattle.mf_live.specs.Books.{greatest_limit, first_pen, word_of, IsPenOf};
ghost use Rattle.mf_live.specs.Events.{event_of, events_of, writer_event};
ghost use Rattle.mf_live.specs.World.{May, new_world, world_after};

use super::{History, Knowledge};
use crate::book::{Add, Asks, Confirm, Head, Make, Nothing, Writing};
use crate::event::Act;
use logbook::{Pen, Seen, Start, Word};
use std::marker::Brand;

impl Knowledge {
    /// A copy.
    pub(crate) fn copy(&self) -> Knowledge
        ensures { result ≡ self.now }
    {
        Knowledge {
            seen: self.seen.again(),
        }
    }
}

/// A new pen, and the number that was found in the word: where it is 0, the pen is the first.
fn make_pen(word: &Head, known: &Knowledge) -> (u64, Pen)
    requires word { word.now ≡ word_of known.now.seen.book }
    ensures pen { (result.1.book ≡ known.now.seen.book) × (result.1.nib.right ≡ may_write) }
    ensures first { result.0 ≡ 0 → result.1.nib.key ≡ first_pen }
{
    let mut at = known.copy();
    let mut offer = at.seen.plain::<Nothing, (), Asks>(&());
    let mut pen = at.seen.no_pen();
    let found = word.compare_exchange::<Make, Nothing>(0, 1, &mut at.seen, &mut offer, &mut pen);
    let _cell: Head = Word::tracked(0, &mut pen);
    (found, pen)
}

/// Writes a line after all lines. The pen is used up, and the line names the next one. Only the proof uses the last two parameters.
fn add_line<N: Writing>(
    word: &Head,
    known: &mut Knowledge,
    pen: &mut Pen,
    _act: Act<'_>,
    _next: &Pen,
)
    requires line { N.line ≡ record { event = writer_event _act; next = _next.now.nib.key } }
    requires word { word.now ≡ word_of known.old.seen.book }
    requires pen { IsPenOf known.old.seen.book known.old.seen.log pen.old.book pen.old.nib }
    requires may { May greatest_limit (world_after new_world (events_of known.old.seen.log))
        (event_of (writer_event _act)) }
    ensures book { known.new.seen.book ≡ known.old.seen.book }
    ensures log { known.new.seen.log
        ≡ known.old.seen.log
        ++ record { event = writer_event _act.entry; next = _next.now.nib.key } ∷ [] }
{
    let mut offer = known.seen.plain::<Nothing, (), Asks>(&());
    word.compare_exchange::<Add<N>, Nothing>(0, 1, &mut known.seen, &mut offer, pen);
}

impl History {
    /// A new history, in which nothing has happened. Nobody else has its word, so the first pen is the writer's; but no type says
    /// so, and there is no history where it is not.
    pub(crate) fn open() -> Option<History>
        ensures { IfSome result (λ history. history.known.seen.log ≡ []) }
    {
        let (seen, mut first, _second) = Seen::open(Start::alone(), 0, 0);
        let known = Knowledge { seen };
        let word = Word::tracked(0, &mut first);
        let (found, pen) = make_pen(&word, &known);
        if found != 0 {
            return None;
        }
        Some(History { word, pen, known })
    }

    /// Writes what the writer does, after all that it has done.
    pub(crate) fn write(&mut self, act: Act<'_>)
        requires { May greatest_limit (world_after new_world (events_of self.old.known.seen.log))
            (event_of (writer_event act)) }
        ensures book { self.new.known.seen.book ≡ self.old.known.seen.book }
        ensures events { events_of self.new.known.seen.log
            ≡ events_of self.old.known.seen.log ++ event_of (writer_event act.entry) ∷ [] }
        ensures prefix { IsPrefix self.old.known.seen.log self.new.known.seen.log }
    {
        let (_, next) = make_pen(&self.word, &self.known);
        add_line::<Brand>(&self.word, &mut self.known, &mut self.pen, act, &next);
        self.pen = next;
    }

    /// Whatever anybody knows of the history was written here: the pen is still here to write the next line, so there are no more
    /// lines than these. It changes nothing.
    pub(crate) fn confirm(&mut self, knowledge: &Knowledge)
        requires { knowledge.now.seen.book ≡ self.old.known.seen.book }
        ensures same { self.new.known ≡ self.old.known }
        ensures prefix { IsPrefix knowledge.now.seen.log self.new.known.seen.log }
    {
        let mut both = self.known.copy();
        both.seen.learn(&knowledge.seen);
        let mut offer = both.seen.plain::<Nothing, (), Asks>(&());
        self.word
            .compare_exchange::<Confirm, Nothing>(0, 1, &mut both.seen, &mut offer, &mut self.pen);
    }
}
