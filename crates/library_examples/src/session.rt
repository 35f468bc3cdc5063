//! Performs the lines of a script one by one, prints the answer to each, and ends the session.

use anyhow::{Result, bail};
use std::alloc::Global;
use std::io::{self, Write};
use std::sync::Wait;
use wonchhip::session::Session;

/// The lines. The fourth is refused, and the script goes on.
const LINES: [&str; 7] = [
    "addto currentpicture contour (0,0)--(3,0)--(3,2)--(0,2)--cycle",
    "addto currentpicture contour (0,0)--(3,0)--(3,2)--(0,2)--cycle withweight 2",
    "show totalweight currentpicture",
    "currentpicture := currentpicture shifted (4095,0)",
    "publish",
    "proof currentpicture",
    "shipout currentpicture code 65 dx 327680 width 0",
];

/// The greatest number of operations that the session accepts, and of bytes in its font file.
const MAX_OPS: u32 = 1_000_000;

const MAX_BYTES: u32 = 16_777_216;

pub(crate) fn run<R: Wait + Print>(rt: &R, alloc: Global) -> Result<()> {
    // No viewers: the desk, which hands out viewers of `currentpicture`, has no places.
    let (mut session, _) = Session::new(rt, alloc, 0, MAX_OPS, MAX_BYTES)?;

    // A session must be ended, even where a line could not be performed.
    let performed = perform_all(rt, alloc, &mut session, &mut io::writer(rt));
    if let Err(fault) = performed {
        session.discard(rt);
        return Err(fault);
    }
    match session.finish(rt) {
        Ok((mut ended, font)) => {
            let operations = ended.notice().revision();
            ended.discard(rt);
            println!(rt;
                "the end: {operations} operations, {} character",
                font.count()
            )?;
            Ok(())
        }
        Err(fault) => {
            fault.discard(rt);
            bail!("OutOfMemory")
        }
    }
}

/// Performs the lines, and writes the answer to each.
fn perform_all<R: Wait, W: Write>(
    rt: &R,
    alloc: Global,
    session: &mut Session,
    out: &mut W,
) -> Result<()> {
    for line in LINES {
        let text = session.command(rt, alloc, line.as_bytes())?;
        out.write_all(&text)?;
    }
    Ok(())
}
