//! Versions of a picture.
ghost use Rattle.std.specs.Prelude.{◌≡◌};
ghost use Rattle.mf_live.specs.Entries.{picture_at};
ghost use Rattle.mf_live.specs.Events.{events_of};
ghost use Rattle.mf_live.specs.World.{published_list_of};

use crate::notice::Notice;
use left_right::Absorb;
use mf_rows::Picture;
use std::alloc::AllocError;

/// What was published at one moment, with its picture. Viewers look at one version, and the writer has the one before it.
#[derive(Drop)]
pub struct Version {
    pub(crate) picture: Picture,
    pub(crate) notice: Notice,
    ghost pictured: { picture ≡ picture_at (published_list_of (events_of notice.knowledge.seen.log)) },
}

/// A publish puts a complete version into a copy, so a copy has no operations to take over from the other: the queue of
/// `left_right` is not used.
impl Absorb<()> for Version {
    type State = ();

    ghost state = { λ version. tt };

    ghost applied = { λ nothing operation. nothing };

    ghost never_fails = { Unit {0} };

    fn absorb_first(&mut self, _operation: &(), _other: &Version) -> Result<(), AllocError> {
        Ok(())
    }
}
