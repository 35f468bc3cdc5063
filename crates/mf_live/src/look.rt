//! Looks.
ghost use Rattle.std.specs.Prelude.{◌≡◌, ◌≤◌, true};
ghost use Rattle.left_right.specs.Sides.{view};
ghost use Rattle.mf_live.specs.Rule.{knowledge_of};

use crate::notice::Notice;
use crate::rule::SeatRule;
use crate::version::Version;
use crate::view::View;
use left_right::reader::Reading;

mod showing;

/// A look is not answered: everything was discarded at the writer's side, or the copy that the look entered is older than a
/// notice that the viewer has learnt. The second does not happen, since a notice is made only once what it tells is shown.
/// No contract of the toolchain says this, nor that a look is answered before a discard; tests show it. A later look enters a
/// copy anew.
#[derive(Clone, Copy, Debug, PartialEq, Eq)]
pub struct NoLook;

/// A look of a viewer. What it shows stays as it is until the look ends: the writer waits for a held look before it changes that
/// copy. A look that is dropped ends, and its viewer with it.
pub struct Look {
    pub(crate) reading: Reading<Version, View, SeatRule>,
    pub(crate) known: Notice,
    ghost identified: { (view reading.place).identified ≡ true },
    ghost book: { (view reading.place).knowledge.seen.book ≡ known.knowledge.seen.book },
    ghost knowledge: { (view reading.place).knowledge ≡ knowledge_of reading.part.value },
    ghost enough: { known.entries ≤ reading.part.value.notice.entries },
}

impl Drop for Look {
    fn drop(self) {
        let Look { reading, known: _ } = self;
        reading.leave();
    }
}
