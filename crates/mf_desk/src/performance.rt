//! A run beside viewers in threads.
ghost use Rattle.std.specs.Io.KnownBytes.{IsAtEnd};
ghost use Rattle.std.specs.Prelude.{◌≡◌, ◌<◌, ◌≤◌, Err, IfErr, IfOk, OnOk};
ghost use Rattle.mf_live.specs.Desks.{most_places};
ghost use Rattle.mf_desk.specs.Performances.{Performs, TellsOfRun, task};
ghost use Rattle.mf_desk.specs.Streams.{Passes, streams_of};
ghost use Rattle.mf_desk_session.specs.States.{least_bytes};

use crate::fault::RunFault;
use crate::outcome::Outcome;
use crate::progress::Progress;
use crate::settings::Settings;
use mf_desk_watch::{Gate, Watching};
use std::alloc::Global;
use std::io::{Read, Write};
use std::sync::{Arc, Wait};
use std::thread::Threads;

/// Runs a script as [`run`](crate::run) does, while viewers look on. Each has a thread of its own, which is started before the
/// first read, and in which the viewer looks `looks` times. While each look is held, `gate.hold` is called, which may wait. When the
/// script has ended and its picture is closed, the threads are joined. Then each viewer looks once more, at the last picture, and a line
/// `viewer k revision r totalweight t` is written for it, in order. The font file is finished after that. Requires at most 64
/// viewers. A publish may wait for looks that are held, and the end of the run waits for all of them.
///
/// Refused as `run` is; with `NoPlace` where there is no place or no thread for a viewer, or the gate cannot be shared, and then
/// nothing was read or written; and with `NoLook` where a look was refused. A fault of the script or of its end comes first, then
/// a look that was refused in a thread, then the faults of the last looks, the lines and the font file. After each fault the
/// threads are joined.
#[tactic(auto, using(std::proofs::lemmas::Result::err_from_is_err_and))]
pub fn perform<S: Wait + Threads, R: Read, W: Write, G: Gate + 'static>(
    rt: &S,
    alloc: Global,
    reader: &mut R,
    writer: &mut W,
    settings: &Settings,
    viewers: u32,
    looks: u32,
    gate: &Arc<G>,
) -> Result<Outcome, RunFault>
    requires { viewers ≤ most_places }
    ensures too_small { settings.now.max_bytes < least_bytes
        → result ≡ Err RunFault.FileTooLong }
    ensures untouched { settings.now.max_bytes < least_bytes
        → (reader.new ≡ reader.old) × (writer.new ≡ writer.old) }
    ensures no_place { result ≡ Err RunFault.NoPlace
        → (reader.new ≡ reader.old) × (writer.new ≡ writer.old) }
    ensures performance { IfOk result
        (Performs (task settings.now viewers looks)
        (streams_of R.remaining reader.old reader.new W.contents writer.old writer.new)) }
    ensures end { OnOk result (IsAtEnd (R.remaining reader.new)) }
    ensures fault { IfErr result (λ fault.
        Passes (streams_of R.remaining reader.old reader.new W.contents writer.old writer.new)
        (TellsOfRun settings.now viewers fault)) }
{
    let (progress, desk) = Progress::new(rt, alloc, settings, viewers)?;
    let watching = match Watching::start(rt, alloc, desk, viewers, looks, gate) {
        Ok(watching) => watching,
        Err(fault) => {
            progress.discard(rt);
            return Err(fault.into());
        }
    };
    let completed = progress.complete(rt, alloc, reader, writer);
    // A fault has ended the picture by now, so that looks are refused and the threads end early.
    let joined = watching.join(rt);
    let mut ended = completed?;
    match ended.show(alloc, writer, joined) {
        Ok(seen) => ended.conclude(rt, settings, seen),
        Err(fault) => {
            ended.discard(rt);
            Err(fault)
        }
    }
}
