//! Draws the letter T in characters, and writes its images.

use anyhow::Result;
use std::alloc::Global;
use std::io::{self, Write};
use wonchhip::frame::{Canvas, Style, draw};
use wonchhip::geom::{Cycle, Point};
use wonchhip::image::{pgm, svg};
use wonchhip::ops::{Check, Op, Weight, after};
use wonchhip::rows::Picture;

/// The corners of the letter, counterclockwise.
const CORNERS: [(i32, i32); 8] = [
    (0, 4),
    (3, 4),
    (3, 0),
    (5, 0),
    (5, 4),
    (8, 4),
    (8, 6),
    (0, 6),
];

pub(crate) fn run<R: Print>(rt: &R, alloc: Global) -> Result<()> {
    let letter = letter(alloc)?;

    // The frame of a revision, as on a terminal of 80 columns and 24 rows, without control codes.
    let canvas = Canvas::new(80, 24)?;
    let frame = draw(alloc, &letter, 1, canvas, Style::Plain)?;
    io::writer(rt).write_all(&frame)?;

    // The images are bytes of files. An SVG image is a text.
    let svg = svg(alloc, &letter)?;
    io::writer(rt).write_all(&svg)?;
    let pgm = pgm(alloc, &letter)?;
    println!(rt; "a PGM image of {} bytes", pgm.len())?;
    Ok(())
}

/// The letter T, whose pixels have weight 1.
fn letter(alloc: Global) -> Result<Picture> {
    let mut corners = Vec::new(alloc);
    for (x, y) in CORNERS {
        corners.push(Point { x, y })?;
    }
    let cycle = Cycle::new(corners).map_err(|(fault, _)| fault)?;
    let contour = Op::Contour(cycle, Weight::new(1)?, Check::On);
    let letter = after(alloc, &Picture::blank(alloc), &contour)?;
    Ok(letter)
}
