//! Draws the letter L from two rectangles, and shows two refusals.

use anyhow::Result;
use std::alloc::Global;
use wonchhip::geom::{Cycle, Point};
use wonchhip::ops::{Check, Cull, Op, Sign, Weight, after, apply};
use wonchhip::rows::Picture;

pub(crate) fn run<R: Print>(rt: &R, alloc: Global) -> Result<()> {
    let blank = Picture::blank(alloc);
    let one = Weight::new(1)?;

    // A stem of 2 by 6 pixels and a foot of 5 by 2 pixels, each filled into a picture of its own.
    let stem = rectangle(alloc, 2, 6)?;
    let mut letter = after(alloc, &blank, &Op::Contour(stem, one, Check::On))?;
    let foot = rectangle(alloc, 5, 2)?;
    let foot = after(alloc, &blank, &Op::Contour(foot, one, Check::On))?;

    // Their sum has weight 2 where they overlap. The cull makes that 1.
    apply(alloc, &mut letter, &Op::Also(foot, Sign::Plus))?;
    println!(rt; "before the cull: totalweight {}", letter.total())?;
    apply(alloc, &mut letter, &Op::Cull(Cull::keeping(1, 32767, one)?))?;
    println!(rt; "after the cull: totalweight {}", letter.total())?;
    for run in letter.runs() {
        println!(rt; "row {}: {} pixels from column {}", run.y, run.len, run.x)?;
    }

    // A refusal says why, and leaves the picture as it was.
    if let Err(fault) = apply(alloc, &mut letter, &Op::Shift(4095, 0)) {
        println!(rt; "refused {fault}, totalweight {}", letter.total())?;
    }
    let points = vec![in alloc; Point { x: 0, y: 0 }, Point { x: 3, y: 1 }]?;
    if let Err((fault, points)) = Cycle::new(points) {
        println!(rt; "refused {fault}, {} points came back", points.len())?;
    }
    Ok(())
}

/// The rectangle with this many columns and rows, counterclockwise from the origin.
fn rectangle(alloc: Global, columns: i32, rows: i32) -> Result<Cycle> {
    let corners = vec![in alloc;
        Point { x: 0, y: 0 },
        Point { x: columns, y: 0 },
        Point {
            x: columns,
            y: rows
        },
        Point { x: 0, y: rows },
    ]?;
    let cycle = Cycle::new(corners).map_err(|(fault, _)| fault)?;
    Ok(cycle)
}
