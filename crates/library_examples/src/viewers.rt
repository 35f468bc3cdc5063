//! A writer draws and publishes a staircase while four viewers look on, each in a thread of its own.

use anyhow::{Result, bail};
use std::alloc::Global;
use std::sync::Wait;
use std::thread::{Threads, join, map_vec};
use wonchhip::geom::{Cycle, Point};
use wonchhip::live::{Desk, Viewer, Writer, open_picture};
use wonchhip::ops::{Check, Op, Weight};

/// How many viewers look on, how often each looks, and how many steps the staircase has.
const VIEWERS: u32 = 4;

const LOOKS: u32 = 1_000;

const STEPS: i32 = 8;

/// What a viewer has seen, and the viewer.
#[derive(Drop)]
struct Record {
    viewer: Viewer,
    /// Looks that showed an earlier picture than the look before.
    back: u32,
    /// Looks that showed half a step: each step is two operations, which are published at once.
    halves: u32,
}

pub(crate) fn run<R: Wait + Threads + Print + Sync>(rt: &R, alloc: Global) -> Result<()> {
    let (mut writer, mut desk) = open_picture(rt, alloc, VIEWERS, 1_000)?;
    let played = play(rt, alloc, &mut writer, &mut desk);
    // A writer must be ended on every path.
    writer.discard(rt);
    played
}

/// Draws in one thread, looks in four, and prints what each viewer has seen. After that each looks once more.
fn play<R: Wait + Threads + Print + Sync>(
    rt: &R,
    alloc: Global,
    writer: &mut Writer,
    desk: &mut Desk,
) -> Result<()> {
    let mut viewers = Vec::new(alloc);
    for _ in 0..VIEWERS {
        let Ok(viewer) = desk.viewer() else {
            bail!("NoPlace");
        };
        viewers.push(viewer)?;
    }
    let (records, drawn) = join(
        rt,
        || map_vec(rt, viewers, &|viewer: Viewer| watch(viewer)),
        || draw(rt, alloc, writer),
    );
    drawn?;
    for record in records? {
        let Record {
            viewer,
            back,
            halves,
        } = record;
        println!(rt; "looks that went back: {back}, looks at half a step: {halves}")?;
        if let Ok(look) = viewer.look() {
            println!(rt;
                "then revision {}, totalweight {}",
                look.revision(),
                look.picture().total()
            )?;
        }
    }
    Ok(())
}

/// Looks often, and records what was seen.
fn watch(viewer: Viewer) -> Record {
    let mut record = Record {
        viewer,
        back: 0,
        halves: 0,
    };
    let mut before = 0;
    for _ in 0..LOOKS {
        let revision = match record.viewer.look() {
            Ok(look) => {
                let revision = look.revision();
                record.viewer = look.leave();
                revision
            }
            Err((viewer, _)) => {
                record.viewer = viewer;
                before
            }
        };
        record.back = record.back.saturating_add((revision < before) as u32);
        record.halves = record.halves.saturating_add(revision % 2);
        before = revision;
    }
    record
}

/// Draws the steps, each of two pixels that are published together.
fn draw<R: Wait>(rt: &R, alloc: Global, writer: &mut Writer) -> Result<()> {
    for step in 0..STEPS {
        for x in [step, step + 1] {
            let pixel = Op::Contour(pixel(alloc, x, step)?, Weight::new(1)?, Check::On);
            writer.apply(alloc, pixel).map_err(|(_, fault)| fault)?;
        }
        writer.publish(rt)?;
    }
    Ok(())
}

/// The cycle round a pixel.
fn pixel(alloc: Global, x: i32, y: i32) -> Result<Cycle> {
    let mut points = Vec::new(alloc);
    for (right, up) in [(0, 0), (1, 0), (1, 1), (0, 1)] {
        points.push(Point {
            x: x.saturating_add(right),
            y: y.saturating_add(up),
        })?;
    }
    let cycle = Cycle::new(points).map_err(|(fault, _)| fault)?;
    Ok(cycle)
}
