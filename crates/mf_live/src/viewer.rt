//! Viewers.
ghost use Rattle.std.specs.Prelude.{◌≡◌, true};
ghost use Rattle.left_right.specs.Sides.{view};
ghost use Rattle.mf_live.specs.Books.{BeginsWith};

use crate::history::Knowledge;
use crate::notice::Notice;
use crate::rule::SeatRule;
use crate::version::Version;
use crate::view::View;
use left_right::reader::Reader;

mod looking;

/// A place from which to look at a picture. It may go to any thread, and has one look at a time.
#[derive(Drop)]
pub struct Viewer {
    pub(crate) reader: Reader<Version, View, SeatRule>,
    /// The longest notice that it has learnt.
    pub(crate) known: Notice,
    /// What its last look that was answered knew.
    pub(crate) looked: Knowledge,
    ghost identified: { (view reader.place).identified ≡ true },
    // Only the book ties a viewer to its picture: `left_right` says of which table a new reader is, but not once it has looked.
    ghost book: { (view reader.place).knowledge.seen.book ≡ known.knowledge.seen.book },
    // A copy that it has entered but not shown, because it was older than a notice, knows more.
    ghost kept: { BeginsWith (view reader.place).knowledge.seen.log looked.seen.log },
}
