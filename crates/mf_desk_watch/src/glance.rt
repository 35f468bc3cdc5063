//! What viewers see in a look.
ghost use Rattle.std.specs.Prelude.{◌≡◌};
ghost use Rattle.mf_rows.specs.Dots.{total_of};

use mf_rows::Picture;

/// What a viewer has seen in one look: an entry of its record.
#[derive(Clone, Copy, Debug, PartialEq, Eq)]
pub struct Glance {
    /// The revision of the picture: the number of operations that were published.
    pub revision: u32,
    /// The total weight of the picture, summed over all pixels.
    pub total: i64,
}

impl Glance {
    /// The glance that a look at a picture of this revision gives.
    pub(crate) fn of(revision: u32, picture: &Picture) -> Glance
        ensures { result ≡ record { revision = revision; total = total_of picture.now } }
    {
        Glance {
            revision,
            total: picture.total(),
        }
    }
}
