//! A run in progress: the lines that have been performed, and the bytes of the unended line.
ghost use Rattle.std.specs.Io.KnownBytes.{IsAtEnd};
ghost use Rattle.std.specs.Str.Lines.{lines};
ghost use Rattle.std.specs.Prelude.{◌≡◌, ◌≢◌, ◌⊎◌, ◌+◌, ◌*◌, ◌<◌, ◌≤◌, ◌↔◌, ◌++◌, ◌∷◌, All, Err, Option, List, ℕ, [], IfErr, IfOk, OnOk, length};
ghost use Rattle.mf_live.specs.Desks.{desk_identity, most_places, remaining_viewers};
ghost use Rattle.mf_live.specs.Writers.{ended_identity};
ghost use Rattle.mf_desk.specs.EndedRuns.{EndsWith};
ghost use Rattle.mf_desk.specs.Faults.{Breaks};
ghost use Rattle.mf_desk.specs.Performances.{run_limits};
ghost use Rattle.mf_desk.specs.Performer.{longest_text, most_counted_bytes, most_written_bytes};
ghost use Rattle.mf_desk.specs.Progress.{GoesOn, HasCounted, HasReadNothing, IsAfter, ReadsThrough, StopsAtEnd, StopsDuring, StopsIn};
ghost use Rattle.mf_desk.specs.Streams.{Passes, Streams, streams_of};
ghost use Rattle.mf_desk_session.specs.Sessions.{identity, limits};
ghost use Rattle.mf_desk_session.specs.States.{least_bytes};

use crate::ended_run::EndedRun;
use crate::fault::RunFault;
use crate::line_buffer::{LineBuffer, before_line_feed};
use crate::observer::{Observer, Stopped};
use crate::output::flush;
use crate::performer::Performer;
use crate::settings::Settings;
use memchr::memchr;
use mf_desk_session::Session;
use mf_gf::GfFault;
use mf_live::Desk;
use std::alloc::Global;
use std::io::{ErrorKind, Read, Write};
use std::sync::Wait;

/// Size of the buffer for reads, in bytes.
const CHUNK_SIZE: usize = 65_536;

/// The greatest number of reads of a run, including the one that reports the end. A read gives at most 2^16 bytes, each of
/// which may end a line, and a line prints fewer than 2^64 bytes. So a run writes at most 2^101 bytes, and can count them.
const MAX_READS: u32 = 1_048_576;

/// A run in progress.
pub struct Progress {
    pub performer: Performer,
    pub line: LineBuffer,
}

impl Progress {
    /// A run that has read nothing, and the desk with at most `viewers` viewers. Refused with `FileTooLong` exactly where
    /// `max_bytes` is below 3, and with `OutOfMemory` where an allocation fails.
    pub fn new<S: Wait>(
        rt: &S,
        alloc: Global,
        settings: &Settings,
        viewers: u32,
    ) -> Result<(Progress, Desk), RunFault>
        requires { viewers ≤ most_places }
        ensures start { IfOk result (λ made. HasReadNothing made.0) }
        ensures limits { IfOk result (λ made.
            limits made.0.performer.session ≡ run_limits settings.now) }
        ensures identity { IfOk result (λ made.
            desk_identity made.1 ≡ identity made.0.performer.session) }
        ensures places { IfOk result (λ made. remaining_viewers made.1 ≤ viewers) }
        ensures too_long { (settings.now.max_bytes < least_bytes)
            ↔ (result ≡ Err RunFault.FileTooLong) }
        ensures fault { IfErr result (λ fault.
            (fault ≡ RunFault.FileTooLong) ⊎ (fault ≡ RunFault.OutOfMemory)) }
    {
        match Session::new(rt, alloc, viewers, settings.max_ops, settings.max_bytes) {
            Ok((session, desk)) => {
                let performer = Performer {
                    session,
                    written: 0,
                    lines: 0,
                };
                let line = LineBuffer::new(alloc);
                Ok((Progress { performer, line }, desk))
            }
            Err(GfFault::FileTooLong) => Err(RunFault::FileTooLong),
            Err(_) => Err(RunFault::OutOfMemory),
        }
    }

    /// Reads a script to its end, performs its lines, writes their texts, and closes its picture; nobody else is told of a line.
    pub(crate) fn complete<S: Wait, R: Read, W: Write>(
        self,
        rt: &S,
        alloc: Global,
        reader: &mut R,
        writer: &mut W,
    ) -> Result<EndedRun, RunFault>
        requires { HasReadNothing self }
        ensures over { IfOk result (λ run. EndsWith (limits self.performer.session) 0
            (streams_of R.remaining reader.old reader.new W.contents writer.old writer.new) run) }
        ensures identity { IfOk result (λ run.
            ended_identity run.ended ≡ identity self.performer.session) }
        ensures short { IfOk result (λ run. run.written ≤ most_written_bytes) }
        ensures end { OnOk result (IsAtEnd (R.remaining reader.new)) }
        ensures fault { IfErr result (λ fault.
            Passes (streams_of R.remaining reader.old reader.new W.contents writer.old writer.new)
            (Breaks (limits self.performer.session) fault)) }
    {
        let mut progress = self;
        match progress.read_all(rt, alloc, reader, writer, &mut ()) {
            Ok(()) => progress.finish(rt),
            Err(stopped) => {
                progress.discard(rt);
                Err(stopped.into_fault())
            }
        }
    }

    /// Reads a script to its end, performs its lines, writes their texts, and tells the observer of each. The writer is flushed before
    /// each read: whoever gives the script may be waiting for these texts. A read that was interrupted counts, and is tried again.
    pub fn read_all<S: Wait, R: Read, W: Write, O: Observer>(
        &mut self,
        rt: &S,
        alloc: Global,
        reader: &mut R,
        writer: &mut W,
        observer: &mut O,
    ) -> Result<(), Stopped<O::Fault>>
        requires { HasReadNothing self.old }
        ensures through { OnOk result
            (ReadsThrough
            (streams_of R.remaining reader.old reader.new W.contents writer.old writer.new)
            self.new.performer) }
        ensures short { OnOk result (self.new.performer.written ≤ most_written_bytes) }
        ensures limits { limits self.new.performer.session ≡ limits self.old.performer.session }
        ensures identity { identity self.new.performer.session
            ≡ identity self.old.performer.session }
        ensures end { OnOk result (IsAtEnd (R.remaining reader.new)) }
        ensures fault { IfErr result
            (StopsIn self.old
            (streams_of R.remaining reader.old reader.new W.contents writer.old writer.new)) }
    {
        // Where this memory is missing, nothing was read or written.
        let Ok(mut memory) = vec![in alloc; 0u8; CHUNK_SIZE] else {
            return Err(RunFault::OutOfMemory.into());
        };
        let chunk = memory.as_mut_slice();
        'reads: for _ in 0..MAX_READS {
            flush(writer, self.performer.written)?;
            match reader.read(chunk) {
                Err(fault) => {
                    if fault.kind() == ErrorKind::Interrupted {
                        continue 'reads;
                    }
                    return Err(RunFault::ReadFault.into());
                }
                Ok(0) => return self.end_script(rt, alloc, writer, observer),
                Ok(count) => self.take(rt, alloc, writer, &chunk[..count], observer)?,
            }
        }
        Err(RunFault::ReadFault.into())
    }

    /// Takes the next bytes of the script: performs each line that a line feed ends, and writes its text before it performs the
    /// next.
    fn take<S: Wait, W: Write, O: Observer>(
        &mut self,
        rt: &S,
        alloc: Global,
        writer: &mut W,
        bytes: &[u8],
        observer: &mut O,
    ) -> Result<(), Stopped<O::Fault>>
        requires { self.old.performer.written + length bytes.now * longest_text
            ≤ most_counted_bytes }
        ensures after { OnOk result
            (GoesOn self.old bytes.now (W.contents writer.old) (W.contents writer.new) self.new) }
        ensures at_most { OnOk result
            (self.new.performer.written
            ≤ self.old.performer.written + length bytes.now * longest_text) }
        ensures limits { limits self.new.performer.session ≡ limits self.old.performer.session }
        ensures identity { identity self.new.performer.session
            ≡ identity self.old.performer.session }
        ensures fault { IfErr result
            (StopsDuring self.old bytes.now (W.contents writer.old) (W.contents writer.new)) }
    {
        let mut rest = bytes;
        'lines: while let Some(end) = memchr(b'\n', rest) {
            self.take_line(rt, alloc, writer, &rest[..end], observer)?;
            rest = &rest[end + 1..];
        }
        Ok(self.keep(rest)?)
    }

    /// Takes the bytes before a line feed, and the line feed: performs the line that it ends, and writes its text. A line of
    /// which no byte was kept is performed in place, without a copy.
    fn take_line<S: Wait, W: Write, O: Observer>(
        &mut self,
        rt: &S,
        alloc: Global,
        writer: &mut W,
        bytes: &[u8],
        observer: &mut O,
    ) -> Result<(), Stopped<O::Fault>>
        requires room { self.old.performer.written + longest_text ≤ most_counted_bytes }
        requires unbroken { All (λ byte. byte ≢ 10) bytes.now }
        ensures after { OnOk result
            (GoesOn self.old (bytes.now ++ 10 ∷ []) (W.contents writer.old) (W.contents writer.new)
            self.new) }
        ensures at_most { OnOk result
            (self.new.performer.written ≤ self.old.performer.written + longest_text) }
        ensures limits { limits self.new.performer.session ≡ limits self.old.performer.session }
        ensures identity { identity self.new.performer.session
            ≡ identity self.old.performer.session }
        ensures fault { IfErr result
            (StopsDuring self.old (bytes.now ++ 10 ∷ []) (W.contents writer.old)
            (W.contents writer.new)) }
    {
        if self.line.is_empty() {
            let line = before_line_feed(bytes);
            return self.performer.perform(rt, alloc, writer, line, observer);
        }
        self.keep(bytes)?;
        self.end_line(rt, alloc, writer, observer)
    }

    /// Ends the script: the bytes after its last line feed are a line, if there are any. The writer is flushed after its text.
    fn end_script<S: Wait, W: Write, O: Observer>(
        &mut self,
        rt: &S,
        alloc: Global,
        writer: &mut W,
        observer: &mut O,
    ) -> Result<(), Stopped<O::Fault>>
        requires { self.old.performer.written + longest_text ≤ most_counted_bytes }
        ensures done { OnOk result
            ((held : Option (List ℕ)) (read : List ℕ)
            → IsAfter held read self.old (W.contents writer.old)
            → HasCounted held (lines read) self.new.performer (W.contents writer.new)) }
        ensures at_most { OnOk result
            (self.new.performer.written ≤ self.old.performer.written + longest_text) }
        ensures limits { limits self.new.performer.session ≡ limits self.old.performer.session }
        ensures identity { identity self.new.performer.session
            ≡ identity self.old.performer.session }
        ensures fault { IfErr result
            (StopsAtEnd self.old (W.contents writer.old) (W.contents writer.new)) }
    {
        if self.line.is_empty() {
            return Ok(());
        }
        self.performer
            .perform(rt, alloc, writer, self.line.at_end(), observer)?;
        Ok(flush(writer, self.performer.written)?)
    }

    /// Performs the kept line, which a line feed ends, and writes its text.
    fn end_line<S: Wait, W: Write, O: Observer>(
        &mut self,
        rt: &S,
        alloc: Global,
        writer: &mut W,
        observer: &mut O,
    ) -> Result<(), Stopped<O::Fault>>
        requires { self.old.performer.written + longest_text ≤ most_counted_bytes }
        ensures after { OnOk result
            (GoesOn self.old (10 ∷ []) (W.contents writer.old) (W.contents writer.new) self.new) }
        ensures at_most { OnOk result
            (self.new.performer.written ≤ self.old.performer.written + longest_text) }
        ensures limits { limits self.new.performer.session ≡ limits self.old.performer.session }
        ensures identity { identity self.new.performer.session
            ≡ identity self.old.performer.session }
        ensures fault { IfErr result
            (StopsDuring self.old (10 ∷ []) (W.contents writer.old) (W.contents writer.new)) }
    {
        self.performer
            .perform(rt, alloc, writer, self.line.at_line_feed(), observer)?;
        self.line.clear();
        Ok(())
    }

    /// Keeps bytes that have no line feed. Refused with `OutOfMemory`.
    fn keep(&mut self, bytes: &[u8]) -> Result<(), RunFault>
        requires { All (λ byte. byte ≢ 10) bytes.now }
        ensures after { OnOk result
            ((holds : Option (List ℕ)) → GoesOn self.old bytes.now holds holds self.new) }
        ensures same { self.new.performer ≡ self.old.performer }
        ensures fault { IfErr result (λ fault. fault ≡ RunFault.OutOfMemory) }
    {
        self.line.extend(bytes)?;
        Ok(())
    }

    /// The session as the lines so far have left it.
    pub fn session(&self) -> &Session
        ensures { result.now ≡ self.now.performer.session }
    {
        &self.performer.session
    }

    /// Closes the picture of a script that was read to its end. Refused with `OutOfMemory` where an allocation fails.
    pub fn finish<S: Wait>(self, rt: &S) -> Result<EndedRun, RunFault>
        ensures over { IfOk result (λ run.
            (s : Streams) → ReadsThrough s self.performer
            → EndsWith (limits self.performer.session) 0 s run) }
        ensures identity { IfOk result (λ run. (s : Streams) → ReadsThrough s self.performer
            → ended_identity run.ended ≡ identity self.performer.session) }
        ensures written { IfOk result (λ run. run.written ≡ self.performer.written) }
        ensures fault { IfErr result (λ fault.
            (s : Streams) → IsAtEnd s.left → ReadsThrough s self.performer
            → Passes s (Breaks (limits self.performer.session) fault)) }
    {
        let Progress { performer, line: _ } = self;
        let Performer {
            session,
            written,
            lines: _,
        } = performer;
        match session.finish(rt) {
            Ok((ended, file)) => Ok(EndedRun {
                ended,
                file,
                written,
            }),
            Err(fault) => {
                fault.discard(rt);
                Err(RunFault::OutOfMemory)
            }
        }
    }

    /// Ends the run without closing its picture.
    pub fn discard<S: Wait>(self, rt: &S) {
        let Progress { performer, line: _ } = self;
        let Performer {
            session,
            written: _,
            lines: _,
        } = performer;
        session.discard(rt);
    }
}
