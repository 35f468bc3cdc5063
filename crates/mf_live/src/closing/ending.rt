//! Closing.
ghost use Rattle.std.specs.Prelude.{◌≡◌, true, IfOk, IfErr, MatchResult};
ghost use Rattle.mf_live.specs.Entries.{is_closed};
ghost use Rattle.mf_live.specs.Viewers.{notice_identity, told_list};
ghost use Rattle.mf_live.specs.Writers.{identity, complete_list, closing_identity, closing_accepted_list};
ghost use Rattle.mf_live.specs.Writers.{closing_published_list, ended_identity, ended_published_list, IsHandedBack, IsKept};

use super::{CloseFault, Closing, Ended};
use crate::notice::Notice;
use crate::writer::Writer;
use std::sync::Wait;

impl Writer {
    /// Sets the end mark, after which nothing is accepted, and publishes everything that was accepted. The end mark does not
    /// count in the revision, and can be set even where no more operations are accepted. It may wait for looks that are held.
    /// Where an allocation fails, the writer comes back as it was (`Kept`), because everything is allocated before the end mark
    /// is set.
    #[tactic(auto, using(crate::proofs::Ending::end_closes))]
    pub fn close<R: Wait>(self, rt: &R) -> Result<Ended, CloseFault>
        ensures identity { IfOk result (λ ended. ended_identity ended ≡ identity self) }
        ensures published { IfOk result (λ ended. ended_published_list ended ≡ complete_list self) }
        ensures handed_back { IfErr result (IsHandedBack self) }
        ensures kept { IfErr result IsKept }
    {
        let Writer {
            mut holder,
            max_ops,
        } = self;
        let picture = match holder.working.copy(holder.alloc) {
            Ok(picture) => picture,
            Err(_) => return Err(CloseFault::Kept(Writer { holder, max_ops })),
        };
        holder.end();
        holder.publish_picture(rt, picture);
        Ok(Ended { holder })
    }
}

impl Closing {
    /// Publishes the end mark and what was accepted before it. It may wait for looks that are held. Where an allocation fails,
    /// the picture comes back as it was, and the call can be made again.
    pub fn publish<R: Wait>(self, rt: &R) -> Result<Ended, Closing>
        ensures identity { MatchResult result
            (λ ended. ended_identity ended ≡ closing_identity self)
            (λ closing. closing_identity closing ≡ closing_identity self) }
        ensures published { MatchResult result
            (λ ended. ended_published_list ended ≡ closing_accepted_list self)
            (λ closing. closing_published_list closing ≡ closing_published_list self) }
        ensures accepted { IfErr result (λ closing.
            closing_accepted_list closing ≡ closing_accepted_list self) }
    {
        let Closing { mut holder } = self;
        match holder.publish(rt) {
            Ok(()) => Ok(Ended { holder }),
            Err(_) => Err(Closing { holder }),
        }
    }

    /// Ends the picture without publishing its end mark. It may wait for looks that are held, and looks may be refused from then
    /// on. Nothing is left that a clause could be about.
    pub fn discard<R: Wait>(self, rt: &R) {
        let Closing { holder } = self;
        holder.discard(rt);
    }
}

impl Ended {
    /// A notice of the complete list, with the end mark: a look of a viewer that has learnt it shows the last picture.
    pub fn notice(&mut self) -> Notice
        ensures same { (ended_identity self.new ≡ ended_identity self.old)
            × (ended_published_list self.new ≡ ended_published_list self.old) }
        ensures identity { notice_identity result ≡ ended_identity self.old }
        ensures told { told_list result ≡ ended_published_list self.old }
        ensures closed { is_closed (told_list result) ≡ true }
    {
        self.holder.swap.published().notice.copy()
    }

    /// Frees the picture. It may wait for looks that are held, and looks may be refused from then on. Nothing is left that a clause
    /// could be about.
    pub fn discard<R: Wait>(self, rt: &R) {
        let Ended { holder } = self;
        holder.discard(rt);
    }
}
