//! Notices, from which viewers learn of a publish.
ghost use Rattle.std.specs.Prelude.{◌≡◌, length};
ghost use Rattle.mf_live.specs.Books.{greatest_limit};
ghost use Rattle.mf_live.specs.Entries.{revision_at};
ghost use Rattle.mf_live.specs.Events.{events_of};
ghost use Rattle.mf_live.specs.Happening.{Happen-prop};
ghost use Rattle.mf_live.specs.World.{Happen, new_world, accepted_list_of, published_list_of};

use crate::history::Knowledge;

mod telling;

/// A notice of what was published at one moment. Every later look of a viewer that has learnt it includes all of that.
#[derive(Drop)]
pub struct Notice {
    pub(crate) knowledge: Knowledge,
    /// The number of operations that were published, and of end marks.
    pub(crate) entries: u64,
    pub(crate) revision: u32,
    ghost lawful: { Happen greatest_limit new_world (events_of knowledge.seen.log) } by { Happen-prop greatest_limit new_world (events_of knowledge.seen.log) },
    // `tell` and `learn` of `left_right` hand on what is known, and no condition on it, so the type has the condition `whole`.
    ghost whole: { accepted_list_of (events_of knowledge.seen.log) ≡ published_list_of (events_of knowledge.seen.log) },
    ghost counted: { entries ≡ length (published_list_of (events_of knowledge.seen.log)) },
    ghost numbered: { revision ≡ revision_at (published_list_of (events_of knowledge.seen.log)) },
}
