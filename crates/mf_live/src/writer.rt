//! The writer of a picture.
ghost use Rattle.std.specs.Prelude.{◌≡◌, ◌≤◌, false};
ghost use Rattle.mf_live.specs.Entries.{is_closed};
ghost use Rattle.mf_live.specs.Holders.{accepted_list};

use crate::holder::Holder;

mod changing;

/// The writer of a picture: the only one with calls that change it. It is not `Drop`, since ending it may mean waiting for looks:
/// end it with `close` or `discard`.
pub struct Writer {
    pub(crate) holder: Holder,
    pub(crate) max_ops: u32,
    // `close` makes something else of the writer, so this one never has an end mark.
    ghost open: { is_closed (accepted_list holder) ≡ false },
    ghost few: { holder.revision ≤ max_ops },
}
