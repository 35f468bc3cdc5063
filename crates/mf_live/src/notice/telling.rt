//! What a notice says.
ghost use Rattle.std.specs.Prelude.{◌≡◌, ◌≤◌};
ghost use Rattle.mf_live.specs.Entries.{revision_at};
ghost use Rattle.mf_live.specs.Prefixes.{IsWholePrefix};
ghost use Rattle.mf_live.specs.Viewers.{notice_identity, told_list};

use super::Notice;

impl Notice {
    /// The revision that it says is published: a number of operations, in which the end mark does not count.
    pub fn revision(&self) -> u32
        ensures { result ≡ revision_at (told_list self.now) }
    {
        self.revision
    }

    /// A copy.
    pub(crate) fn copy(&self) -> Notice
        ensures { result.knowledge ≡ self.now.knowledge }
    {
        Notice {
            knowledge: self.knowledge.copy(),
            entries: self.entries,
            revision: self.revision,
        }
    }

    /// Of two notices of one picture, the list of the one with fewer entries is a whole prefix of the other's.
    pub(crate) fn meets(&self, other: &Notice)
        requires { notice_identity other.now ≡ notice_identity self.now }
        ensures this { self.now.entries ≤ other.now.entries
            → IsWholePrefix (told_list self.now) (told_list other.now) }
        ensures that { other.now.entries ≤ self.now.entries
            → IsWholePrefix (told_list other.now) (told_list self.now) }
    {
        let mut both = self.knowledge.copy();
        both.seen.learn(&other.knowledge.seen);
    }
}
