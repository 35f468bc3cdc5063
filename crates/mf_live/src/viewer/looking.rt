//! What a viewer does.
ghost use Rattle.std.specs.Prelude.{◌≡◌, List, true, IfOk, MatchResult};
ghost use Rattle.mf_live.specs.Entries.{Entry, is_closed};
ghost use Rattle.mf_live.specs.Prefixes.{IsWholePrefix, longer};
ghost use Rattle.mf_live.specs.Viewers.{identity, learnt_list, looked_at_list, seat, seen_list, Extends, IsPublished, SeesTheSame};
ghost use Rattle.mf_live.specs.Viewers.{notice_identity, told_list, look_events, look_learnt_list, look_identity, look_seat, shown_list};

use super::Viewer;
use crate::look::{Look, NoLook};
use crate::notice::Notice;
use crate::rule::Looks;

impl Viewer {
    /// Looks at what was published by some moment. It waits for nobody and allocates nothing. Refused with [`NoLook`], which hands
    /// the viewer back: it has then seen what it had seen before. What the look shows was published, all of it and no more, by the
    /// events that it knows of its picture. Everything that the viewer had looked at or learnt of is a whole prefix of it. Where the
    /// viewer has seen the end mark, it is exactly what the viewer has seen.
    pub fn look(self) -> Result<Look, (Viewer, NoLook)>
        ensures identity { MatchResult result
            (λ look. look_identity look ≡ identity self)
            (λ refused. identity refused.0 ≡ identity self) }
        ensures seat { MatchResult result
            (λ look. look_seat look ≡ seat self)
            (λ refused. seat refused.0 ≡ seat self) }
        ensures extends { MatchResult result
            (λ look. Extends self (shown_list look))
            (λ refused. SeesTheSame self refused.0) }
        ensures learnt { IfOk result (λ look. look_learnt_list look ≡ learnt_list self) }
        ensures published { IfOk result (λ look. IsPublished (look_events look) (shown_list look)) }
        ensures last { is_closed (seen_list self) ≡ true
            → IfOk result (λ look. shown_list look ≡ seen_list self) }
    {
        let Viewer {
            reader,
            known,
            looked,
        } = self;
        let reading = match reader.enter_as::<Looks>() {
            Ok(reading) => reading,
            Err(reader) => {
                let viewer = Viewer {
                    reader,
                    known,
                    looked,
                };
                return Err((viewer, NoLook));
            }
        };
        let shown = &reading.get().notice;
        shown.meets(&known);
        if shown.entries < known.entries {
            let viewer = Viewer {
                reader: reading.leave(),
                known,
                looked,
            };
            return Err((viewer, NoLook));
        }
        Ok(Look { reading, known })
    }

    /// Learns a notice: the looks that follow include what it says is published. Requires a notice of this viewer's picture.
    pub fn learn(&mut self, notice: Notice)
        requires { notice_identity notice ≡ identity self.old }
        ensures identity { identity self.new ≡ identity self.old }
        ensures seat { seat self.new ≡ seat self.old }
        ensures looked { looked_at_list self.new ≡ looked_at_list self.old }
        ensures learnt { learnt_list self.new ≡ longer (learnt_list self.old) (told_list notice) }
        ensures keeps { (L : List Entry) → Extends self.new L
            → Extends self.old L × IsWholePrefix (told_list notice) L }
    {
        self.known.meets(&notice);
        if self.known.entries < notice.entries {
            self.known = notice;
        }
    }
}
