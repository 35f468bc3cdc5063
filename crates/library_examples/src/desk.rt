//! Runs a script from memory beside two viewers in threads, and prints its transcript and its outcome.

use anyhow::Result;
use std::alloc::Global;
use std::io::{self, Write};
use std::sync::atomic::{AtomicU64, Ordering};
use std::sync::{Arc, Wait};
use std::thread::Threads;
use wonchhip::desk::{Gate, Outcome, Settings, perform};
use wonchhip::gf::FontWords;

/// A letter I, published when it is complete, and shipped as a character.
const SCRIPT: &str = "\
addto currentpicture contour (0,0)--(2,0)--(2,6)--(0,6)--cycle
addto currentpicture contour (-1,0)--(3,0)--(3,1)--(-1,1)--cycle
cull currentpicture keeping (1,2)
publish
shipout currentpicture code 73 dx 327680 width 0
show area currentpicture
";

/// The limits of the script, and the numbers of its font.
const SETTINGS: Settings = Settings {
    max_ops: 1_000_000,
    max_bytes: 16_777_216,
    font: FontWords {
        ds: 0,
        cs: 0,
        hppp: 0,
        vppp: 0,
    },
};

/// How many viewers look on, and how often each looks before its last look.
const VIEWERS: u32 = 2;

const LOOKS: u32 = 16;

/// A gate that counts the looks that viewers take in their threads.
#[derive(Drop)]
struct Counter {
    looks: AtomicU64,
}

impl Gate for Counter {
    fn hold(&self, _viewer: u32, _look: u32) {
        self.looks.fetch_add(1, Ordering::SeqCst);
    }
}

pub(crate) fn run<R: Wait + Threads + Print>(rt: &R, alloc: Global) -> Result<()> {
    let gate = Arc::new(
        alloc,
        Counter {
            looks: AtomicU64::new(0),
        },
    )?;
    let mut script = SCRIPT.as_bytes();
    let mut transcript = Vec::new(alloc);
    let Outcome { gf, seen } = perform(
        rt,
        alloc,
        &mut script,
        &mut transcript,
        &SETTINGS,
        VIEWERS,
        LOOKS,
        &gate,
    )?;

    io::writer(rt).write_all(&transcript)?;
    println!(rt; "{} looks in threads", gate.looks.load(Ordering::SeqCst))?;
    for record in &seen {
        println!(rt;
            "a record of {} looks, the last one {:?}",
            record.len(),
            record.last()
        )?;
    }
    if let Some(file) = gf {
        println!(rt; "a font file of {} bytes", file.bytes().len())?;
    }
    Ok(())
}
