//! Laws of the live picture. Each is the contract of a function that does nothing, or only calls others, because the toolchain
//! proves a statement only where a function's contract names it.
ghost use Rattle.std.specs.Prelude.{◌≡◌, ◌⊎◌, ◌≤◌, true, false, List, IfErr, IfOk, MatchResult, OnOk};
ghost use Rattle.mf_live.specs.Entries.{Entry, revision_at, is_closed, IsUnrefused};
ghost use Rattle.mf_live.specs.Events.{Event};
ghost use Rattle.mf_live.specs.Prefixes.{IsWholePrefix, HasWholePublishes};
ghost use Rattle.mf_live.specs.Sheets.{HasLearnt};
ghost use Rattle.mf_live.specs.Viewers as viewers;
ghost use Rattle.mf_live.specs.Writers as writers;
ghost use Rattle.mf_live.specs.World.{EverySchedule, IsPending, published_list_of};

use crate::closing::{Closing, Ended};
use crate::look::{Look, NoLook};
use crate::notice::Notice;
use crate::viewer::Viewer;
use crate::writer::Writer;

/// Take any list of events of one writer and any number of viewers, in any order in which each of them can happen. Before and after
/// each event no accepted operation is refused, and there are at most `max_ops`; what is published is a whole prefix of what is
/// accepted, and the rest has the label of the next publish; what each viewer has seen and what each notice says are whole prefixes of
/// what is published; and nothing follows the end mark. Each look shows what is published, of which everything that its viewer had
/// looked at or learnt of is a whole prefix.
#[tactic(auto, using(crate::proofs::Worlds::every_schedule))]
pub fn every_schedule(max_ops: u32)
    ensures { EverySchedule max_ops }
{}

/// A whole prefix of what is published has, of each publish, nothing or all of it. So has what a look shows (`look_is_published`).
#[tactic(auto, using(crate::proofs::WholePublishes::whole_publishes))]
pub fn looks_show_whole_publishes()
    ensures { (shown : List Entry) (events : List Event)
        → IsWholePrefix shown (published_list_of events)
        → HasWholePublishes shown (published_list_of events) }
{}

/// Whatever a writer has done, what is accepted and published is as `every_schedule` says: no accepted operation is refused, and
/// there are at most `max_ops`; what is published is a whole prefix of what is accepted, and the rest has the label of the next
/// publish. And the end mark is not set, since setting it makes something else of the writer.
pub fn writer_is_lawful(writer: &Writer)
    ensures unrefused { IsUnrefused (writers.accepted_list writer.now) }
    ensures few { revision_at (writers.accepted_list writer.now) ≤ writers.max_ops writer.now }
    ensures whole { IsWholePrefix (writers.published_list writer.now)
        (writers.accepted_list writer.now) }
    ensures pending { IsPending (writers.published_list writer.now)
        (writers.accepted_list writer.now) }
    ensures running { is_closed (writers.accepted_list writer.now) ≡ false }
{}

/// What the writer's copies show is what is published. That viewers look at these copies, no clause says; tests show it.
pub fn published_is_visible(writer: &Writer)
    ensures { writers.visible_list writer.now ≡ writers.published_list writer.now }
{}

/// A notice tells a list that the events which it knows have published: all of these can happen in their order, and they have
/// accepted nothing more. So a viewer that learns of a notice learns of a published list.
#[tactic(auto, using(crate::proofs::Looking::is_published))]
pub fn notice_is_published(notice: &Notice)
    ensures { viewers.IsPublished (viewers.notice_events notice.now)
        (viewers.told_list notice.now) }
{}

/// Of two notices of one picture, the list of the one is a whole prefix of the list of the other, whatever became of its writer.
#[tactic(auto, using(std::proofs::lemmas::Bool::cases_lt))]
pub fn one_history(first: &Notice, second: &Notice)
    requires { viewers.notice_identity second.now ≡ viewers.notice_identity first.now }
    ensures { IsWholePrefix (viewers.told_list first.now) (viewers.told_list second.now)
        ⊎ IsWholePrefix (viewers.told_list second.now) (viewers.told_list first.now) }
{
    first.meets(second);
}

/// Nobody but its writer publishes a picture: what a look shows is a whole prefix of what the writer of its picture has published.
pub fn look_is_published(look: &Look, writer: &mut Writer)
    requires { viewers.look_identity look.now ≡ writers.identity writer.old }
    ensures same { writers.IsSameWriter writer.old writer.new }
    ensures published { IsWholePrefix (viewers.shown_list look.now)
        (writers.published_list writer.new) }
{
    told_is_published(&look.notice(), writer);
}

/// The same of what a notice tells. Looks and sheets have notices of what they show, so it is true of a look that has ended, too.
#[tactic(auto, using(crate::proofs::Looking::published_prefix))]
pub fn told_is_published(notice: &Notice, writer: &mut Writer)
    requires { viewers.notice_identity notice.now ≡ writers.identity writer.old }
    ensures same { writers.IsSameWriter writer.old writer.new }
    ensures published { IsWholePrefix (viewers.told_list notice.now)
        (writers.published_list writer.new) }
{
    writer.holder.history.confirm(&notice.knowledge);
}

/// The same while the end mark is set but not published.
#[tactic(auto, using(crate::proofs::Looking::published_prefix))]
pub fn told_is_published_halfway(notice: &Notice, closing: &mut Closing)
    requires { viewers.notice_identity notice.now ≡ writers.closing_identity closing.old }
    ensures same { writers.IsSameClosing closing.old closing.new }
    ensures published { IsWholePrefix (viewers.told_list notice.now)
        (writers.closing_published_list closing.new) }
{
    closing.holder.history.confirm(&notice.knowledge);
}

/// The same of a picture that was closed.
#[tactic(auto, using(crate::proofs::Looking::published_prefix))]
pub fn told_is_published_at_the_end(notice: &Notice, ended: &mut Ended)
    requires { viewers.notice_identity notice.now ≡ writers.ended_identity ended.old }
    ensures same { writers.IsSameEnded ended.old ended.new }
    ensures published { IsWholePrefix (viewers.told_list notice.now)
        (writers.ended_published_list ended.new) }
{
    ended.holder.history.confirm(&notice.knowledge);
}

/// A viewer that has learnt of the end sees the complete list. The events that its look knows have published it, and everything
/// that the viewer had seen is a whole prefix of it. After `NoLook` the viewer has not looked, but has learnt of the end. Requires a
/// notice of the viewer's own picture, with the end mark.
pub fn last_look(viewer: Viewer, notice: Notice) -> Result<Look, (Viewer, NoLook)>
    requires identity { viewers.notice_identity notice ≡ viewers.identity viewer }
    requires closed { is_closed (viewers.told_list notice) ≡ true }
    ensures identity { MatchResult result
        (λ look. viewers.look_identity look ≡ viewers.identity viewer)
        (λ refused. viewers.identity refused.0 ≡ viewers.identity viewer) }
    ensures shown { IfOk result (λ look. viewers.shown_list look ≡ viewers.told_list notice) }
    ensures published { IfOk result (λ look.
        viewers.IsPublished (viewers.look_events look) (viewers.told_list notice)) }
    ensures extends { OnOk result (viewers.Extends viewer (viewers.told_list notice)) }
    ensures learnt { IfErr result (λ refused.
        HasLearnt viewer (viewers.told_list notice) refused.0) }
{
    let mut viewer = viewer;
    viewer.learn(notice);
    viewer.look()
}
