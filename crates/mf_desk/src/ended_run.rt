//! A run whose script has ended: its viewers are shown the last picture, and its font file is finished.
ghost use Rattle.std.specs.Prelude.{◌≡◌, ◌≢◌, ◌⊎◌, ◌+◌, ◌<◌, ◌≤◌, [], ℕ, All, Err, IfErr, IfOk, OnOk, length, map, true};
ghost use Rattle.std.specs.Io.KnownBytes.{Appends, IsAtEnd};
ghost use Rattle.mf_live.specs.Desks.{most_places};
ghost use Rattle.mf_live.specs.Entries.{is_closed};
ghost use Rattle.mf_live.specs.Viewers.{notice_identity, told_list};
ghost use Rattle.mf_live.specs.Writers.{ended_identity, ended_published_list};
ghost use Rattle.mf_desk.specs.EndedRuns.{Concludes, EndsWith, HasSeenLast, IsSameEnd, ShowsLines, StopsShowing, glance, glances_of, whole_record};
ghost use Rattle.mf_desk.specs.Performances.{TellsOfRun, run_limits, viewer_line, viewer_lines};
ghost use Rattle.mf_desk.specs.Performer.{most_written_bytes};
ghost use Rattle.mf_desk.specs.Faults.{BreaksOff};
ghost use Rattle.mf_desk.specs.Streams.{Gets, Passes, Streams};
ghost use Rattle.mf_desk_watch.specs.Watchers.{HasRoomFor, IsRecord, identity};

use crate::fault::RunFault;
use crate::outcome::Outcome;
use crate::output::flush;
use crate::settings::Settings;
use mf_base::write_counted;
use mf_desk_watch::{Glance, Watcher};
use mf_gf::{GfFault, GfFile};
use mf_live::{Ended, NoLook, Notice};
use std::alloc::{AllocError, Global};
use std::io::Write;
use std::sync::Wait;

/// A run whose script has ended. It is not `Drop`, because its picture is not: end it with `conclude` or `discard`.
pub struct EndedRun {
    pub ended: Ended,
    pub file: GfFile,
    /// Number of bytes that were written since the run began.
    pub written: u128,
}

impl EndedRun {
    /// A notice of the last picture, with the end mark.
    pub fn notice(&mut self) -> Notice
        ensures same { IsSameEnd self.old self.new }
        ensures written { self.new.written ≡ self.old.written }
        ensures identity { notice_identity result ≡ ended_identity self.old.ended }
        ensures told { told_list result ≡ ended_published_list self.old.ended }
        ensures closed { is_closed (told_list result) ≡ true }
    {
        self.ended.notice()
    }

    /// Lets each viewer look once more, in the order of their numbers, then writes their lines, and flushes the writer. Returns
    /// the records of all looks. Refused with `OutOfMemory` where an allocation fails, with `WriteFault` where the writer fails, and
    /// with `NoLook` where a look is refused now or was refused in a thread.
    pub fn show<W: Write>(
        &mut self,
        alloc: Global,
        writer: &mut W,
        joined: Result<Vec<Watcher>, NoLook>,
    ) -> Result<Vec<Vec<Glance>>, RunFault>
        requires identities { IfOk joined (λ watchers.
            All (λ w. identity w ≡ ended_identity self.old.ended) watchers.items) }
        requires rooms { IfOk joined (λ watchers. All (HasRoomFor 1) watchers.items) }
        requires few { IfOk joined (λ watchers. length watchers.items ≤ most_places) }
        requires short { self.old.written ≤ most_written_bytes }
        ensures same { IsSameEnd self.old self.new }
        ensures records { IfOk result (λ seen.
            IfOk joined
            (λ watchers. glances_of seen.items ≡ map (whole_record self.old) watchers.items)) }
        ensures seen { IfOk result (λ seen.
            (looks : ℕ) → IfOk joined (λ watchers. All (IsRecord looks) watchers.items)
            → All (HasSeenLast self.old looks) seen.items) }
        ensures count { IfOk result (λ seen.
            (viewers : ℕ) → IfOk joined (λ watchers. length watchers.items ≡ viewers)
            → length seen.items ≡ viewers) }
        ensures over { IfOk result (λ seen.
            ShowsLines (length seen.items) self.old (W.contents writer.old) (W.contents writer.new)
            self.new) }
        ensures fault { IfErr result
            (StopsShowing joined self.old (W.contents writer.old) (W.contents writer.new)) }
        ensures placed { result ≢ Err RunFault.NoPlace }
    {
        let watchers = match joined {
            Ok(watchers) => watchers,
            Err(NoLook) => return Err(RunFault::NoLook),
        };
        let mut lines = Vec::new(alloc);
        let seen = self.look_last(alloc, watchers, &mut lines)?;
        self.write(writer, lines.as_slice())?;
        Ok(seen)
    }

    /// Lets each viewer look once more. Returns their records, and appends their lines.
    fn look_last(
        &mut self,
        alloc: Global,
        watchers: Vec<Watcher>,
        lines: &mut Vec<u8>,
    ) -> Result<Vec<Vec<Glance>>, RunFault>
        requires identities { All (λ w. identity w ≡ ended_identity self.old.ended) watchers.items }
        requires rooms { All (HasRoomFor 1) watchers.items }
        requires few { length watchers.items ≤ most_places }
        requires none { lines.old.items ≡ [] }
        ensures same { IsSameEnd self.old self.new }
        ensures written { self.new.written ≡ self.old.written }
        ensures lines { OnOk result
            (lines.new.items ≡ viewer_lines (length watchers.items) (glance self.old)) }
        ensures count { IfOk result (λ seen. length seen.items ≡ length watchers.items) }
        ensures records { IfOk result (λ seen.
            glances_of seen.items ≡ map (whole_record self.old) watchers.items) }
        ensures seen { IfOk result (λ seen.
            (looks : ℕ) → All (IsRecord looks) watchers.items
            → All (HasSeenLast self.old looks) seen.items) }
        ensures fault { IfErr result (λ fault.
            (fault ≡ RunFault.OutOfMemory)
            ⊎ ((fault ≡ RunFault.NoLook) × (0 < length watchers.items))) }
    {
        let mut seen = Vec::with_capacity(alloc, watchers.len())?;
        for watcher in watchers {
            let mut watcher = watcher;
            let glance = watcher.look_last(alloc, self.notice())?;
            let line = viewer_line(alloc, seen.len() as u32, glance)?;
            lines.extend_from_slice(&line)?;
            seen.push(watcher.into_record())?;
        }
        Ok(seen)
    }

    /// Writes the lines of the viewers, and flushes the writer.
    fn write<W: Write>(&mut self, writer: &mut W, lines: &[u8]) -> Result<(), RunFault>
        requires short { self.old.written ≤ most_written_bytes }
        ensures same { IsSameEnd self.old self.new }
        ensures written { OnOk result (self.new.written ≡ self.old.written + length lines.now) }
        ensures all { OnOk result
            (Appends (W.contents writer.old) (W.contents writer.new) lines.now) }
        ensures fault { IfErr result (λ fault.
            Gets (W.contents writer.old) (W.contents writer.new)
            (BreaksOff (λ text. text ≡ lines.now) self.old.written fault)) }
    {
        match write_counted(writer, lines) {
            Ok(()) => self.written += lines.len() as u128,
            Err(count) => return Err(RunFault::WriteFault(self.written + count as u128)),
        }
        flush(writer, self.written)
    }

    /// Ends the picture, and finishes the font file, if a character was shipped. Nobody looks any more, so it waits for nobody. Refused
    /// with `FileTooLong` where the file would have more bytes than it may have, and with `OutOfMemory` where an allocation fails.
    pub fn conclude<S: Wait>(
        self,
        rt: &S,
        settings: &Settings,
        seen: Vec<Vec<Glance>>,
    ) -> Result<Outcome, RunFault>
        ensures performance { IfOk result (Concludes settings.now self seen.items) }
        ensures fault { IfErr result (λ fault.
            (s : Streams) → IsAtEnd s.left
            → EndsWith (run_limits settings.now) (length seen.items) s self
            → Passes s (TellsOfRun settings.now (length seen.items) fault)) }
        ensures placed { result ≢ Err RunFault.NoPlace }
    {
        let EndedRun {
            ended,
            file,
            written: _,
        } = self;
        ended.discard(rt);
        match file.finish_if_any(settings.font) {
            Ok(gf) => Ok(Outcome { gf, seen }),
            Err(GfFault::FileTooLong) => Err(RunFault::FileTooLong),
            Err(_) => Err(RunFault::OutOfMemory),
        }
    }

    /// Ends the picture. It may wait for looks that are held.
    pub fn discard<S: Wait>(self, rt: &S) {
        let EndedRun {
            ended,
            file: _,
            written: _,
        } = self;
        ended.discard(rt);
    }
}

/// The line of the viewer with this number, whose last glance is this.
fn viewer_line(alloc: Global, number: u32, glance: Glance) -> Result<Vec<u8>, AllocError>
    ensures { IfOk result (λ line. line.items ≡ viewer_line number glance) }
{
    let Glance { revision, total } = glance;
    let line = format!(in alloc; "viewer {number} revision {revision} totalweight {total}\n")?;
    Ok(line.into_bytes())
}
