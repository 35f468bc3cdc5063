//! The performance of a script beside the viewer that draws its picture.
ghost use Rattle.std.specs.Prelude.{◌≡◌, ℕ, IfErr, IfOk, IsOk, List, OnOk, Option};
ghost use Rattle.std.specs.Io.KnownBytes.{IsAtEnd};
ghost use denote.Param.Send.{IsSync, IsSend};
ghost use Rattle.mf_base.specs.Messages.{receipt, receipt_of};
ghost use Rattle.mf_desk.specs.EndedRuns.{EndsWith};
ghost use Rattle.mf_desk.specs.Performances.{run_limits};
ghost use Rattle.mf_desk.specs.Progress.{HasReadNothing, ReadsThrough, StopsIn};
ghost use Rattle.mf_desk.specs.Streams.{Passes, Streams, streams_of};
ghost use Rattle.mf_live.specs.Writers.{ended_identity, ended_published_list};
ghost use Rattle.mf_desk_session.specs.Sessions as sessions;
ghost use Rattle.mf_desk_session.specs.States.{Limits};
ghost use Rattle.mf_view.specs.Drawings.{Continues, DrawsMore, HasDrawn, ShowsLast};
ghost use Rattle.mf_view.specs.Easels.{HasSameManner, identity, manner_of};
ghost use Rattle.mf_view.specs.Performances.{Shows, ShowsAtEnd, TellsOfShow, manner_in};

use crate::easel::Easel;
use crate::fault::ProgramFault;
use crate::observer::{PlateWriter, write_last};
use crate::pace::Pace;
use crate::page::Page;
use crate::plate::PlateFolder;
use mf_desk::{EndedRun, Outcome, Progress, RunFault, Settings, Stopped};
use mf_view_frame::{Canvas, Style};
use std::alloc::Global;
use std::io::{Read, Write};
use std::rt::Files;
use std::sync::Wait;
use std::sync::atomic::{AtomicBool, Ordering};
use std::thread::{Threads, join_mut};

/// How a performance is shown.
#[derive(Drop)]
pub struct Showing {
    /// How large the frames are.
    pub canvas: Canvas,
    /// How they are drawn.
    pub style: Style,
    /// Where the plates go, if there are any.
    pub folder: Option<PlateFolder>,
}

/// What the two sides of a performance have come to.
struct Sides {
    drawn: Result<(), RunFault>,
    performed: Result<(), Stopped<ProgramFault>>,
    /// The page of the plates.
    page: Page,
}

/// Performs the script that `reader` gives, line by line, while a viewer draws its picture on `screen` in a thread of its own.
/// Writes the transcript to `transcript`, and the plates, with a page of them, where `showing` asks for them. The blank picture is drawn before the
/// script is read, and the last picture after it has ended, unless that is the one drawn last. Returns the font file of the
/// shipped characters. A fault of the screen ends the drawing, and not the script.
///
/// Refused with the fault of the script or of its end, else of the drawing, else of the last look, else of the font file; with
/// `NoPlace` where there is no place for the viewer. After each fault the thread is joined, and what was written stays. No clause
/// says that plates are written, that the script goes on after a fault of the screen, or which fault comes before another: tests do.
#[tactic(auto, using(std::proofs::lemmas::Result::err_from_is_err_and))]
pub fn perform<
    S: Wait + Threads + Files + Sync,
    R: Read,
    W: Write + Send,
    T: Write,
    P: Pace + Sync,
>(
    rt: &S,
    alloc: Global,
    reader: &mut R,
    screen: &mut W,
    transcript: &mut T,
    pace: &P,
    showing: Showing,
    settings: &Settings,
) -> Result<Outcome, ProgramFault>
    ensures shown { IfOk result
        (Shows settings.now (manner_in showing) (receipt_of W.contents screen.old screen.new)
        (streams_of R.remaining reader.old reader.new T.contents transcript.old transcript.new)) }
    ensures fault { IfErr result (λ fault.
        Passes
        (streams_of R.remaining reader.old reader.new T.contents transcript.old transcript.new)
        (TellsOfShow (run_limits settings.now) fault)) }
{
    let (progress, mut desk) = Progress::new(rt, alloc, settings, 1)?;
    let Showing {
        canvas,
        style,
        folder,
    } = showing;
    match desk.viewer() {
        Ok(viewer) => {
            let easel = Easel::new(viewer, canvas, style);
            show(
                rt, alloc, progress, easel, folder, reader, screen, transcript, pace, settings,
            )
        }
        Err(_) => {
            progress.discard(rt);
            Err(RunFault::NoPlace.into())
        }
    }
}

/// Performs the script while an easel that has drawn nothing draws its picture. The blank picture is drawn before the thread starts, so
/// that the first frame is the same in every order of the threads.
fn show<S: Wait + Threads + Files + Sync, R: Read, W: Write + Send, T: Write, P: Pace + Sync>(
    rt: &S,
    alloc: Global,
    progress: Progress,
    easel: Easel,
    folder: Option<PlateFolder>,
    reader: &mut R,
    screen: &mut W,
    transcript: &mut T,
    pace: &P,
    settings: &Settings,
) -> Result<Outcome, ProgramFault>
    requires identity { identity easel ≡ sessions.identity progress.performer.session }
    requires limits { sessions.limits progress.performer.session ≡ run_limits settings.now }
    requires start { HasReadNothing progress }
    requires blank { (held : Option (List ℕ)) → HasDrawn easel (receipt held held) }
    ensures shown { IfOk result
        (Shows settings.now (manner_of easel) (receipt_of W.contents screen.old screen.new)
        (streams_of R.remaining reader.old reader.new T.contents transcript.old transcript.new)) }
    ensures fault { IfErr result (λ fault.
        Passes
        (streams_of R.remaining reader.old reader.new T.contents transcript.old transcript.new)
        (TellsOfShow (run_limits settings.now) fault)) }
{
    let mut progress = progress;
    let mut easel = easel;
    let first = easel.look(alloc, screen, pace);
    let Sides {
        drawn,
        performed,
        page,
    } = perform_beside(
        rt,
        alloc,
        &mut progress,
        &mut easel,
        &folder,
        first,
        reader,
        screen,
        transcript,
        pace,
    );
    match performed {
        Ok(()) => end(
            rt, alloc, progress, easel, &folder, page, screen, drawn, settings,
        ),
        Err(stopped) => {
            progress.discard(rt);
            Err(stopped.into())
        }
    }
}

/// Performs the script while the easel looks and draws in a thread of its own, unless its first frame has failed: a frame that was
/// cut is the last one.
fn perform_beside<
    S: Wait + Threads + Files + Sync,
    R: Read,
    W: Write + Send,
    T: Write,
    P: Pace + Sync,
>(
    rt: &S,
    alloc: Global,
    progress: &mut Progress,
    easel: &mut Easel,
    folder: &Option<PlateFolder>,
    first: Result<(), RunFault>,
    reader: &mut R,
    screen: &mut W,
    transcript: &mut T,
    pace: &P,
) -> Sides
    requires { HasReadNothing progress.old }
    ensures viewer { identity easel.new ≡ identity easel.old }
    ensures manner { HasSameManner easel.old easel.new }
    ensures drawn { OnOk result.drawn
        (IsOk first × DrawsMore easel.old easel.new (receipt_of W.contents screen.old screen.new)) }
    ensures identity { sessions.identity progress.new.performer.session
        ≡ sessions.identity progress.old.performer.session }
    ensures limits { sessions.limits progress.new.performer.session
        ≡ sessions.limits progress.old.performer.session }
    ensures end { OnOk result.performed (IsAtEnd (R.remaining reader.new)) }
    ensures through { OnOk result.performed
        (ReadsThrough
        (streams_of R.remaining reader.old reader.new T.contents transcript.old transcript.new)
        progress.new.performer) }
    ensures stopped { IfErr result.performed
        (StopsIn progress.old
        (streams_of R.remaining reader.old reader.new T.contents transcript.old transcript.new)) }
{
    let mut observer = PlateWriter {
        rt,
        alloc,
        folder,
        page: Page::new(alloc),
        pace,
    };
    let ended = AtomicBool::new(false);
    let (drawn, performed) = join_mut(
        rt,
        &mut || -> Result<(), RunFault>
            requires { IsSync S.row × IsSync P.row × IsSend W.row }
            ensures viewer { identity easel.exit.now ≡ identity easel.entry.now }
            ensures manner { HasSameManner easel.entry.now easel.exit.now }
            ensures drawn { OnOk result
                (IsOk first
                × DrawsMore easel.entry.now easel.exit.now
                (receipt_of W.contents screen.entry.now screen.exit.now)) }
        {
            first?;
            easel.draw_on(rt, alloc, screen, pace, &ended)
        },
        &mut || -> Result<(), Stopped<ProgramFault>>
            requires { HasReadNothing progress.now }
            ensures identity { sessions.identity progress.exit.now.performer.session
                ≡ sessions.identity progress.entry.now.performer.session }
            ensures limits { sessions.limits progress.exit.now.performer.session
                ≡ sessions.limits progress.entry.now.performer.session }
            ensures end { OnOk result (IsAtEnd (R.remaining reader.exit.now)) }
            ensures through { OnOk result
                (ReadsThrough
                (streams_of R.remaining reader.entry.now reader.exit.now T.contents
                transcript.entry.now transcript.exit.now) progress.exit.now.performer) }
            ensures stopped { IfErr result
                (StopsIn progress.entry.now
                (streams_of R.remaining reader.entry.now reader.exit.now T.contents
                transcript.entry.now transcript.exit.now)) }
        {
            let performed = progress.read_all(rt, alloc, reader, transcript, &mut observer);
            ended.store(true, Ordering::SeqCst);
            performed
        },
    );
    let PlateWriter { page, .. } = observer;
    Sides {
        drawn,
        performed,
        page,
    }
}

/// Ends a script that was read to its end: writes the plate of the last picture, unless it was written, and the page, closes the
/// picture, draws it, and makes the font file.
fn end<S: Wait + Files, W: Write>(
    rt: &S,
    alloc: Global,
    progress: Progress,
    easel: Easel,
    folder: &Option<PlateFolder>,
    page: Page,
    screen: &mut W,
    drawn: Result<(), RunFault>,
    settings: &Settings,
) -> Result<Outcome, ProgramFault>
    requires identity { identity easel ≡ sessions.identity progress.performer.session }
    requires limits { sessions.limits progress.performer.session ≡ run_limits settings.now }
    requires through { (s : Streams) × ReadsThrough s progress.performer }
    ensures shown { IfOk result
        (ShowsAtEnd settings.now easel progress.performer drawn
        (receipt_of W.contents screen.old screen.new)) }
    ensures fault { IfErr result (λ fault.
        (s : Streams) → IsAtEnd s.left → ReadsThrough s progress.performer
        → Passes s (TellsOfShow (run_limits settings.now) fault)) }
{
    if let Err(fault) = write_last(rt, alloc, folder, page, progress.session()) {
        progress.discard(rt);
        return Err(fault);
    }
    let mut run = progress.finish(rt)?;
    match show_last(alloc, easel, screen, &mut run, drawn) {
        Ok(()) => Ok(run.conclude(rt, settings, Vec::new(alloc))?),
        Err(fault) => {
            run.discard(rt);
            Err(fault.into())
        }
    }
}

/// Draws the last picture of a run that has ended, unless the drawing had failed before.
fn show_last<W: Write>(
    alloc: Global,
    easel: Easel,
    screen: &mut W,
    run: &mut EndedRun,
    drawn: Result<(), RunFault>,
) -> Result<(), RunFault>
    requires identity { identity easel ≡ ended_identity run.old.ended }
    ensures over { (limits : Limits) (s : Streams) → EndsWith limits 0 s run.old
        → EndsWith limits 0 s run.new }
    ensures shown { OnOk result (Continues (receipt_of W.contents screen.old screen.new)
        (λ before. OnOk drawn (HasDrawn easel before))
        (ShowsLast (manner_of easel) (ended_published_list run.new.ended))) }
{
    drawn?;
    let mut easel = easel;
    easel.look_last(alloc, screen, run.notice())
}
