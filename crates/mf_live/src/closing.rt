//! The end of a picture.
ghost use Rattle.std.specs.Prelude.{◌≡◌, true};
ghost use Rattle.mf_live.specs.Entries.{is_closed};
ghost use Rattle.mf_live.specs.Holders.{accepted_list, published_list};

use crate::holder::Holder;
use crate::writer::Writer;

mod ending;

/// A picture whose end mark is set but not published yet. It is not `Drop`, since ending it may mean waiting for looks: end it
/// with `publish` or `discard`.
pub struct Closing {
    pub(crate) holder: Holder,
    ghost closed: { is_closed (accepted_list holder) ≡ true },
}

/// A picture whose end mark is published: no call changes it any more. Viewers may look at it until `discard` frees it. It is not
/// `Drop`, since freeing it may mean waiting for looks.
pub struct Ended {
    pub(crate) holder: Holder,
    ghost closed: { is_closed (published_list holder) ≡ true },
}

/// What is handed back where an allocation fails while a picture is closed.
pub enum CloseFault {
    /// The writer, as it was.
    Kept(Writer),
    /// The end mark is set, and nothing was published. No function returns this: `Writer::close` allocates before it sets the mark.
    Halfway(Closing),
}
