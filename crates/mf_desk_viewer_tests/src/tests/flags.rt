//! Flags and counts that threads wait for, and gates, readers and writers that wait for flags and set them.

use mf_desk::Gate;
use mf_testing::{Pieces, Sink};
use std::io::{self, ErrorKind, Read, Write};
use std::sync::atomic::{AtomicBool, AtomicU64, Ordering};
use std::thread::yield_now;

/// How often a thread checks a flag before it gives up.
pub(crate) const TURNS: u32 = 50_000_000;

/// A flag that one thread sets and others wait for.
#[derive(Drop)]
pub(crate) struct Flag {
    is_set: AtomicBool,
}

impl Flag {
    pub(crate) fn new() -> Flag {
        Flag {
            is_set: AtomicBool::new(false),
        }
    }

    pub(crate) fn set(&self) {
        self.is_set.store(true, Ordering::SeqCst);
    }

    pub(crate) fn is_set(&self) -> bool {
        self.is_set.load(Ordering::SeqCst)
    }

    /// Whether it is set before it has been checked `turns` times.
    pub(crate) fn is_set_within(&self, turns: u32) -> bool {
        for _ in 0..turns {
            if self.is_set() {
                return true;
            }
            yield_now();
        }
        false
    }
}

/// A gate that holds a look until a text has gone out.
#[derive(Drop)]
pub(crate) struct WaitsForText {
    pub(crate) held: Flag,
    pub(crate) printed: Flag,
    /// Set if the text went out while the look was held.
    pub(crate) seen: Flag,
}

impl WaitsForText {
    pub(crate) fn new() -> WaitsForText {
        WaitsForText {
            held: Flag::new(),
            printed: Flag::new(),
            seen: Flag::new(),
        }
    }
}

impl Gate for WaitsForText {
    fn hold(&self, _viewer: u32, _look: u32) {
        self.held.set();
        if self.printed.is_set_within(TURNS) {
            self.seen.set();
        }
    }
}

/// A count that threads add to and wait for.
#[derive(Drop)]
pub(crate) struct Count {
    count: AtomicU64,
}

impl Count {
    pub(crate) fn new() -> Count {
        Count {
            count: AtomicU64::new(0),
        }
    }

    /// Adds one, and returns the count before that.
    pub(crate) fn add_one(&self) -> u64 {
        self.count.fetch_add(1, Ordering::SeqCst)
    }

    pub(crate) fn get(&self) -> u64 {
        self.count.load(Ordering::SeqCst)
    }

    /// Whether it reaches `count` before the thread gives up.
    pub(crate) fn comes_to(&self, count: u64) -> bool {
        for _ in 0..TURNS {
            if self.get() >= count {
                return true;
            }
            yield_now();
        }
        false
    }
}

/// A reader that waits until a flag is set before it gives anything.
#[derive(Drop)]
pub(crate) struct ReadsAfter<'f, 'a> {
    pub(crate) flag: &'f Flag,
    pub(crate) pieces: Pieces<'a>,
}

impl Read for ReadsAfter<'_, '_> {
    fn read(&mut self, buf: &mut [u8]) -> io::Result<usize> {
        if !self.flag.is_set_within(TURNS) {
            return Err(io::Error::from(ErrorKind::TimedOut));
        }
        self.pieces.read(buf)
    }
}

/// A reader that sets a flag when it reports the end or fails.
#[derive(Drop)]
pub(crate) struct TellsOfEnd<'a, I> {
    pub(crate) flag: &'a Flag,
    pub(crate) reader: I,
}

impl<I: Read> Read for TellsOfEnd<'_, I> {
    fn read(&mut self, buf: &mut [u8]) -> io::Result<usize> {
        let answer = self.reader.read(buf);
        if let Ok(0) | Err(_) = answer {
            self.flag.set();
        }
        answer
    }
}

/// A writer that sets a flag when it has taken this text at the start of a write.
#[derive(Drop)]
pub(crate) struct Tells<'a> {
    pub(crate) flag: &'a Flag,
    pub(crate) text: &'a [u8],
    pub(crate) sink: Sink,
}

impl Write for Tells<'_> {
    fn write(&mut self, buf: &[u8]) -> io::Result<usize> {
        let count = self.sink.write(buf)?;
        if buf[..count].starts_with(self.text) {
            self.flag.set();
        }
        Ok(count)
    }

    fn flush(&mut self) -> io::Result<()> {
        Ok(())
    }
}
