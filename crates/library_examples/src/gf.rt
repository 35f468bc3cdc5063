//! Ships two letters as the characters of a GF file, and prints its length and its first bytes.

use anyhow::{Result, ensure};
use std::alloc::Global;
use wonchhip::gf::{FontWords, GfBytes, GfFile};
use wonchhip::rows::{Picture, RowBuilder, Run};

/// The greatest number of bytes in the file.
const MAX_BYTES: u32 = 16_777_216;

/// An escapement of one pixel.
const PIXEL: i32 = 65_536;

/// The numbers of the font, which the end of the file has: all of them 0.
const WORDS: FontWords = FontWords {
    ds: 0,
    cs: 0,
    hppp: 0,
    vppp: 0,
};

pub(crate) fn run<R: Print>(rt: &R, alloc: Global) -> Result<()> {
    let font = font(alloc)?;
    println!(rt; "{} bytes", font.bytes().len())?;
    for byte in font.bytes().iter().take(24) {
        print!(rt; "{byte:02x} ")?;
    }
    println!(rt; "..")?;

    // A refusal hands the file back, so you could ship more characters.
    let empty = GfFile::new(alloc, b"", MAX_BYTES)?;
    if let Err((file, fault)) = empty.finish(WORDS) {
        println!(rt; "refused {fault}, with {} characters", file.count())?;
    }
    Ok(())
}

/// A font of the letters I and L.
fn font(alloc: Global) -> Result<GfBytes> {
    let mut file = GfFile::new(alloc, b"IL", MAX_BYTES)?;
    file.ship(b'I', 3 * PIXEL, 0, &letter(alloc, 2)?)?;
    file.ship(b'L', 6 * PIXEL, 0, &letter(alloc, 5)?)?;
    let bytes = file.finish(WORDS).map_err(|(_, fault)| fault)?;
    Ok(bytes)
}

/// A stem of 2 by 6 pixels, whose lowest row has this many pixels. Runs are pushed from the top row down.
fn letter(alloc: Global, foot: u32) -> Result<Picture> {
    let mut builder = RowBuilder::new(alloc);
    for y in (0..6).rev() {
        let len = if y == 0 { foot } else { 2 };
        let run = Run {
            y,
            x: 0,
            len,
            weight: 1,
        };
        ensure!(builder.fits(&run), "{run:?} does not fit");
        builder.push_run(run)?;
    }
    let picture = builder.finish()?;
    Ok(picture)
}
