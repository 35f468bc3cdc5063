//! Publishing.
ghost use mathlib.Core.List.{IsPrefix};
ghost use Rattle.std.specs.Prelude.{◌≡◌, IsOk, MatchResult};
ghost use Rattle.crossbeam_utils.specs.Register.{TurnsAt};
ghost use Rattle.left_right.specs.Sides.{view};
ghost use Rattle.mf_live.specs.Entries.{picture_at};
ghost use Rattle.mf_live.specs.Holders.{identity, accepted_list, published_list};
ghost use Rattle.mf_live.specs.Rule.{EachSeatKnows, IsShow, book_of, lines_of, view_knowing, knowledge_of};

use super::Holder;
use crate::event::Act;
use crate::notice::Notice;
use crate::rule::{Shows, Swap};
use crate::version::Version;
use core::mem::replace_with;
use mf_base::OutOfMemory;
use mf_rows::Picture;
use std::sync::Wait;

/// Shows viewers this version from now on. It waits for those that still look at the version before the last.
pub(crate) fn show<R: Wait>(rt: &R, swap: &mut Swap, version: Version)
    requires book { book_of version ≡ book_of swap.old.desk.shown.value }
    requires prefix { IsPrefix (lines_of swap.old.desk.shown.value) (lines_of version) }
    ensures shown { swap.new.desk.shown.value ≡ version }
    ensures view { view swap.new.desk.place ≡ view_knowing (knowledge_of version) }
{
    replace_with(
        &mut swap.desk,
        (rt, version),
        |desk, (rt, version)|
            requires { TurnsAt EachSeatKnows desk.place.id (view desk.place)
                desk.shown.value version IsShow }
            ensures shown { result.0.shown.value ≡ version }
            ensures view { view result.0.place ≡ view_knowing (knowledge_of version) }
        {
            let (open, mut spare) = desk.open(rt);
            *spare = version;
            (open.show_as::<Shows>(spare), ())
        },
    )
}

impl Holder {
    /// Publishes everything that was accepted, if anything waits. After `Err` nothing has changed: the picture is copied first,
    /// and nothing can fail after that.
    pub(crate) fn publish<R: Wait>(&mut self, rt: &R) -> Result<(), OutOfMemory>
        ensures identity { identity self.new ≡ identity self.old }
        ensures accepted { accepted_list self.new ≡ accepted_list self.old }
        ensures published { MatchResult result
            (λ _. published_list self.new ≡ accepted_list self.old)
            (λ _. published_list self.new ≡ published_list self.old) }
        ensures nothing { published_list self.old ≡ accepted_list self.old → IsOk result }
    {
        if self.entries == self.swap.published().notice.entries {
            return Ok(());
        }
        // An operation is worked out once, in `accept`: the copy shares its rows with the working picture.
        let picture = self.working.copy(self.alloc)?;
        self.publish_picture(rt, picture);
        Ok(())
    }

    /// Publishes everything that was accepted. `picture` is the picture of that.
    pub(crate) fn publish_picture<R: Wait>(&mut self, rt: &R, picture: Picture)
        requires picture { picture ≡ picture_at (accepted_list self.old) }
        ensures identity { identity self.new ≡ identity self.old }
        ensures accepted { accepted_list self.new ≡ accepted_list self.old }
        ensures published { published_list self.new ≡ accepted_list self.old }
    {
        // The book comes before the swap, which may wait for a held look: until then a look shows the list before, which is
        // published, too.
        self.history.write(Act::Publish);
        let notice = Notice {
            knowledge: self.history.known.copy(),
            entries: self.entries,
            revision: self.revision,
        };
        show(rt, &mut self.swap, Version { picture, notice });
    }
}
