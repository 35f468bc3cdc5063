//! Three viewers look on from threads of their own while a picture is drawn, and hand out the records of what they saw.

use anyhow::{Result, bail};
use std::alloc::Global;
use std::sync::{Arc, Wait};
use std::thread::Threads;
use wonchhip::geom::{Cycle, Point};
use wonchhip::live::{Desk, Writer, open_picture};
use wonchhip::ops::{Check, Op, Weight};
use wonchhip::watch::{Glance, OpenGate, Watching};

/// How many viewers look on, and how often each looks.
const VIEWERS: u32 = 3;

const LOOKS: u32 = 1_000;

pub(crate) fn run<R: Wait + Threads + Print>(rt: &R, alloc: Global) -> Result<()> {
    let (mut writer, desk) = open_picture(rt, alloc, VIEWERS, 1_000)?;
    let played = play(rt, alloc, &mut writer, desk);
    // A writer must be ended on every path.
    writer.discard(rt);
    played
}

/// Starts the viewers, draws, joins their threads, and prints what became of their records.
fn play<R: Wait + Threads + Print>(
    rt: &R,
    alloc: Global,
    writer: &mut Writer,
    desk: Desk,
) -> Result<()> {
    let gate = Arc::new(alloc, OpenGate)?;
    let Ok(watching) = Watching::start(rt, alloc, desk, VIEWERS, LOOKS, &gate) else {
        bail!("no viewers");
    };
    let drawn = draw(rt, alloc, writer);
    // The threads are joined whatever became of the drawing.
    let Ok(watchers) = watching.join(rt) else {
        bail!("NoLook");
    };
    drawn?;
    for watcher in watchers {
        let record = watcher.into_record();
        let back = steps_back(&record);
        println!(rt; "{} looks, {back} of which went back", record.len())?;
    }
    Ok(())
}

/// How many glances of a record have a lower revision than the one before.
fn steps_back(record: &[Glance]) -> u32 {
    let mut count = 0u32;
    let mut before = 0;
    for glance in record {
        count = count.saturating_add((glance.revision < before) as u32);
        before = glance.revision;
    }
    count
}

/// Draws a row of eight pixels, and publishes each.
fn draw<R: Wait>(rt: &R, alloc: Global, writer: &mut Writer) -> Result<()> {
    for x in 0..8 {
        let pixel = Op::Contour(pixel(alloc, x)?, Weight::new(1)?, Check::On);
        writer.apply(alloc, pixel).map_err(|(_, fault)| fault)?;
        writer.publish(rt)?;
    }
    Ok(())
}

/// The cycle round the pixel of this column in row 0.
fn pixel(alloc: Global, x: i32) -> Result<Cycle> {
    let right = x.saturating_add(1);
    let mut points = Vec::new(alloc);
    for (x, y) in [(x, 0), (right, 0), (right, 1), (x, 1)] {
        points.push(Point { x, y })?;
    }
    let cycle = Cycle::new(points).map_err(|(fault, _)| fault)?;
    Ok(cycle)
}
