//! What the writer of a picture holds.
ghost use Rattle.std.specs.Prelude.{◌≡◌, length};
ghost use Rattle.mf_live.specs.Books.{BeginsWith};
ghost use Rattle.mf_live.specs.Entries.{picture_at, revision_at};
ghost use Rattle.mf_live.specs.Events.{events_of};
ghost use Rattle.mf_live.specs.Rule.{book_of, lines_of, version_list};
ghost use Rattle.mf_live.specs.World.{accepted_list_of, published_list_of};

use crate::history::History;
use crate::rule::Swap;
use mf_rows::Picture;
use std::alloc::Global;

mod accepting;
mod publishing;

/// The two copies that viewers look at, the picture's history, and the picture of all accepted operations. It is not `Drop`,
/// since ending the copies may mean waiting for looks.
pub struct Holder {
    pub(crate) alloc: Global,
    pub(crate) swap: Swap,
    pub(crate) history: History,
    /// The picture of all accepted operations.
    pub(crate) working: Picture,
    /// The number of accepted operations.
    pub(crate) revision: u32,
    /// The number of accepted operations, and of end marks.
    pub(crate) entries: u64,
    ghost book: { book_of swap.desk.shown.value ≡ history.known.seen.book },
    ghost shown: { BeginsWith history.known.seen.log (lines_of swap.desk.shown.value) },
    ghost shown_is: { version_list swap.desk.shown.value ≡ published_list_of (events_of history.known.seen.log) },
    ghost pictured: { working ≡ picture_at (accepted_list_of (events_of history.known.seen.log)) },
    ghost numbered: { revision ≡ revision_at (accepted_list_of (events_of history.known.seen.log)) },
    ghost counted: { entries ≡ length (accepted_list_of (events_of history.known.seen.log)) },
}
