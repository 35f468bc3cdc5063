//! The history of a picture: what is known of it, and who writes it.
ghost use Rattle.std.specs.Prelude.{◌≡◌};
ghost use Rattle.mf_live.specs.Books.{greatest_limit, word_of, IsPenOf};
ghost use Rattle.mf_live.specs.Events.{events_of};
ghost use Rattle.mf_live.specs.Happening.{Happen-prop};
ghost use Rattle.mf_live.specs.World.{Happen, new_world};

use crate::book::{BookRule, Head};
use crate::event::Line;
use logbook::{Pen, Seen};

mod writing;

/// The first lines of a picture's book, as far as they are known.
#[derive(Drop)]
pub struct Knowledge {
    pub(crate) seen: Seen<Line, u64, BookRule>,
}

/// All of a picture's book, and the one pen that can write its next line. None of it but the word has bytes.
#[derive(Drop)]
pub struct History {
    pub(crate) word: Head,
    pub(crate) pen: Pen,
    pub(crate) known: Knowledge,
    ghost word_is: { word ≡ word_of known.seen.book },
    ghost pen_is: { IsPenOf known.seen.book known.seen.log pen.book pen.nib },
    ghost lawful: { Happen greatest_limit new_world (events_of known.seen.log) } by { Happen-prop greatest_limit new_world (events_of known.seen.log) },
}
