//! Handing out viewers.
ghost use Rattle.std.specs.Prelude.{◌≡◌, ◌+◌, [], IfOk, MatchResult};
ghost use Rattle.mf_live.specs.Desks.{desk_identity, remaining_viewers};
ghost use Rattle.mf_live.specs.Viewers.{identity, looked_at_list, learnt_list};

use super::{Desk, NoPlace};
use crate::viewer::Viewer;

impl Desk {
    /// Hands out a viewer, which has seen nothing. Refused with `NoPlace` where all have been handed out: a dropped viewer does not come
    /// back.
    pub fn viewer(&mut self) -> Result<Viewer, NoPlace>
        ensures identity { desk_identity self.new ≡ desk_identity self.old }
        ensures remaining { MatchResult result
            (λ _. remaining_viewers self.new + 1 ≡ remaining_viewers self.old)
            (λ _. (remaining_viewers self.old ≡ 0) × (remaining_viewers self.new ≡ 0)) }
        ensures viewer_identity { IfOk result (λ viewer. identity viewer ≡ desk_identity self.old) }
        ensures newcomer { IfOk result (λ viewer.
            (looked_at_list viewer ≡ []) × (learnt_list viewer ≡ [])) }
    {
        match self.viewers.pop() {
            Some(viewer) => Ok(viewer),
            None => Err(NoPlace),
        }
    }
}
