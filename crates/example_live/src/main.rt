//! A viewer looks at a picture in a thread of its own while the writer draws and publishes it.
#![tactic(auto)]

ghost use Rattle.std.specs.Prelude.{◌≡◌};
ghost use Rattle.wonchhip.specs.Live.Viewers.{identity};
ghost use Rattle.wonchhip.specs.Live.Writers as writers;

use anyhow::{Result, bail};
use std::alloc::Global;
use std::sync::Wait;
use std::thread::join_mut;
use wonchhip::geom::{Cycle, Point};
use wonchhip::live::{CloseFault, Viewer, Writer, open_picture};
use wonchhip::ops::{Check, Op, Weight};

fn main(rt: HostRuntime) -> Result<()> {
    let alloc = rt.alloc();
    let (mut writer, mut desk) = open_picture(&rt, alloc, 1, 1_000)?;
    let Ok(mut viewer) = desk.viewer() else {
        writer.discard(&rt);
        bail!("NoPlace");
    };

    // Both at once. What the viewer sees depends on the threads, but it never sees half a row.
    let (watched, drawn) = join_mut(
        &rt,
        &mut || watch(alloc, &mut viewer),
        &mut || draw(&rt, alloc, &mut writer),
    );

    // The end. A viewer that has learnt of it sees everything that was accepted.
    let mut ended = match writer.close(&rt) {
        Ok(ended) => ended,
        Err(fault) => {
            match fault {
                CloseFault::Kept(writer) => writer.discard(&rt),
                CloseFault::Halfway(closing) => closing.discard(&rt),
            }
            bail!("OutOfMemory");
        }
    };
    viewer.learn(ended.notice());
    let last = match viewer.look() {
        Ok(look) => Some((look.revision(), look.picture().total())),
        Err(_) => None,
    };
    ended.discard(&rt);

    drawn?;
    println!(rt; "looks at half a row: {}", watched?)?;
    if let Some((revision, total)) = last {
        println!(rt; "last look: revision {revision}, totalweight {total}")?;
    }
    Ok(())
}

/// Draws three rows.
fn draw<R: Wait>(rt: &R, alloc: Global, writer: &mut Writer) -> Result<()>
    ensures { writers.identity writer.new ≡ writers.identity writer.old }
{
    draw_row(rt, alloc, writer)?;
    draw_row(rt, alloc, writer)?;
    draw_row(rt, alloc, writer)
}

/// Shifts the picture up by one row, draws three pixels in the row below, and publishes both operations at once.
fn draw_row<R: Wait>(rt: &R, alloc: Global, writer: &mut Writer) -> Result<()>
    ensures { writers.identity writer.new ≡ writers.identity writer.old }
{
    let row = Op::Contour(three_pixels(alloc)?, Weight::new(1)?, Check::On);
    writer
        .apply(alloc, Op::Shift(0, 1))
        .map_err(|(_, fault)| fault)?;
    writer.apply(alloc, row).map_err(|(_, fault)| fault)?;
    writer.publish(rt)?;
    Ok(())
}

/// The cycle round three pixels in a row.
fn three_pixels(alloc: Global) -> Result<Cycle> {
    let mut points = Vec::new(alloc);
    for (x, y) in [(0, 0), (3, 0), (3, 1), (0, 1)] {
        points.push(Point { x, y })?;
    }
    let cycle = Cycle::new(points).map_err(|(fault, _)| fault)?;
    Ok(cycle)
}

/// Looks 1000 times, and counts the looks that show the picture after a shift and before the row that goes with it.
fn watch(alloc: Global, viewer: &mut Viewer) -> Result<u32>
    ensures { identity viewer.new ≡ identity viewer.old }
{
    let mut halves = 0u32;
    for _ in 0..1000 {
        let sheet = viewer.sheet(alloc)?;
        halves = halves.saturating_add(sheet.revision() % 2);
    }
    Ok(halves)
}
