//! The book in which a picture's history is kept, and the steps of its writer.

use crate::event::Line;
use logbook::{Gain, Plain, Play, Rule, Word};
use std::marker::{Brand, PhantomData};

/// The rule of a book: its events could happen, in their order, and each pen that has written a line is used up.
pub struct BookRule;

impl Rule<Line, u64> for BookRule {
    ghost use Rattle.std.specs.Prelude.{[]};
    ghost use base.Fml.{ftrue};
    ghost use Rattle.mf_live.specs.Books.{IsLawfulBook};

    ghost holds = { λ cells lines. IsLawfulBook cells lines };

    ghost first = { [] };

    ghost hinted = { λ n lines. Unit {0} };

    ghost shows = { λ lines. [] };

    ghost keeps = { λ names lines. ftrue };

    ghost moves = { λ ask before after answer. Unit {0} };
}

/// A step gains nothing.
pub struct Nothing;

impl Gain<Line, u64> for Nothing {
    ghost use base.Fml.{ftrue};

    ghost after = { λ names about answer. ftrue };
}

/// What a step asks for: no line of its own.
pub struct Asks;

impl Plain<(), Line, u64> for Asks {
    ghost use Rattle.std.specs.Prelude.{None};
    ghost use Rattle.mf_live.specs.declared.event.WriterEvent.TheVariants.{Publish};

    ghost ask = { λ _. record { event = Publish; next = 0 } };

    ghost state = { λ _. None };
}

/// The line that a step writes, chosen at each call.
pub trait Writing {
    ghost use Rattle.mf_live.specs.declared.event.Line.{Line};

    ghost line: { Line };
}

/// Stands for the line that the proof of a call chooses (`ghosts-add_line`).
impl Writing for Brand {
    ghost use Rattle.mf_live.specs.declared.event.WriterEvent.TheVariants.{Publish};

    ghost line = { record { event = Publish; next = 0 } };
}

/// A step that makes a pen.
pub struct Make;

impl Play<Line, u64> for Make {
    ghost use Rattle.mf_live.specs.Books.{Makes};

    ghost then = { λ s v found w. Makes found w };
}

/// A step that writes a line.
pub struct Add<N> {
    line: PhantomData<N>,
}

impl<N: Writing> Play<Line, u64> for Add<N> {
    ghost use Rattle.mf_live.specs.Books.{Adds};

    ghost then = { λ s v found w. Adds N.line v w };
}

/// A step that changes nothing.
pub struct Confirm;

impl Play<Line, u64> for Confirm {
    ghost use Rattle.mf_live.specs.Books.{Confirms};

    ghost then = { λ s v found w. Confirms v w };
}

/// The first word of a book. It is 0 until the first pen is made, and 1 from then on.
pub type Head = Word<Line, u64, BookRule>;
