//! The desk, which hands out viewers.
ghost use Rattle.std.specs.Prelude.{All};
ghost use Rattle.mf_live.specs.Viewers.{IsFresh};
ghost use Rattle.mf_live.specs.FreshViewers.{are_fresh-prop};

use crate::notice::Notice;
use crate::viewer::Viewer;

mod handing_out;
mod opening;

pub use opening::open_picture;

/// No viewer is left at the desk.
#[derive(Clone, Copy, Debug, PartialEq, Eq)]
pub struct NoPlace;

/// The viewers of a picture that have not been handed out. They are all made when the picture is opened, so handing one out
/// allocates nothing and does not need the writer.
#[derive(Drop)]
pub struct Desk {
    pub(crate) viewers: Vec<Viewer>,
    /// A notice from when the picture was opened and nothing was published. It says which picture this is.
    pub(crate) known: Notice,
    ghost fresh: { All (IsFresh known.knowledge) viewers.items } by { are_fresh-prop known.knowledge viewers.items },
}
