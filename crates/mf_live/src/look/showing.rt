//! What a look shows, and its end.
ghost use Rattle.std.specs.Prelude.{◌≡◌};
ghost use Rattle.mf_live.specs.Entries.{picture_at, revision_at};
ghost use Rattle.mf_live.specs.Viewers.{identity, looked_at_list, looked_at_events, learnt_list, seat, seen_list, look_events};
ghost use Rattle.mf_live.specs.Viewers.{look_learnt_list, look_identity, look_seat, notice_identity, shown_list, told_list};

use super::Look;
use crate::notice::Notice;
use crate::viewer::Viewer;
use mf_rows::Picture;

impl Look {
    /// The picture of all operations that were published by some moment.
    pub fn picture(&self) -> &Picture
        ensures { result.now ≡ picture_at (shown_list self.now) }
    {
        &self.reading.get().picture
    }

    /// Its revision: the number of those operations.
    pub fn revision(&self) -> u32
        ensures { result ≡ revision_at (shown_list self.now) }
    {
        self.reading.get().notice.revision
    }

    /// A notice of what it shows, which another viewer may learn.
    pub fn notice(&self) -> Notice
        ensures identity { notice_identity result ≡ look_identity self.now }
        ensures told { told_list result ≡ shown_list self.now }
    {
        self.reading.get().notice.copy()
    }

    /// Ends the look and gives its viewer back, which has then seen what the look showed.
    pub fn leave(self) -> Viewer
        ensures identity { identity result ≡ look_identity self }
        ensures seat { seat result ≡ look_seat self }
        ensures events { looked_at_events result ≡ look_events self }
        ensures looked { looked_at_list result ≡ shown_list self }
        ensures learnt { learnt_list result ≡ look_learnt_list self }
        ensures seen { seen_list result ≡ shown_list self }
    {
        let Look { reading, known } = self;
        let looked = reading.get().notice.knowledge.copy();
        Viewer {
            reader: reading.leave(),
            known,
            looked,
        }
    }
}
