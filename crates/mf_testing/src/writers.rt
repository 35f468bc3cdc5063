//! Writers for tests: they take bytes in pieces, and fail.
use std::alloc::{AllocError, Global};
use std::io::{self, ErrorKind, Write};

/// A writer that keeps the bytes it took. Once it has no room left it fails with an error or takes no byte. Where an allocation
/// fails it takes nothing and fails with an error.
#[derive(Drop)]
pub struct Sink {
    bytes: Vec<u8>,
    /// The number of bytes that it still takes.
    room: usize,
    /// The greatest number of bytes that it takes in one write.
    size: usize,
    fails: bool,
}

impl Sink {
    /// Takes all bytes.
    pub fn new(alloc: Global) -> Sink {
        Sink::full_after(alloc, usize::MAX)
    }

    /// Takes all bytes, and the first `count` of them without allocating.
    pub fn with_capacity(alloc: Global, count: usize) -> Result<Sink, AllocError> {
        let mut sink = Sink::new(alloc);
        sink.bytes = Vec::with_capacity(alloc, count)?;
        Ok(sink)
    }

    /// Takes all bytes, one in each write.
    pub fn bytewise(alloc: Global) -> Sink {
        Sink::new(alloc).in_pieces(1)
    }

    /// Takes `room` bytes, and then fails with errors.
    pub fn failing(alloc: Global, room: usize) -> Sink {
        let mut sink = Sink::full_after(alloc, room);
        sink.fails = true;
        sink
    }

    /// Takes no byte, and does not fail with an error.
    pub fn full(alloc: Global) -> Sink {
        Sink::full_after(alloc, 0)
    }

    /// Takes `room` bytes, and then no more, and does not fail with an error.
    pub fn full_after(alloc: Global, room: usize) -> Sink {
        Sink {
            bytes: Vec::new(alloc),
            room,
            size: usize::MAX,
            fails: false,
        }
    }

    /// Takes at most `size` bytes in one write.
    pub fn in_pieces(mut self, size: usize) -> Sink {
        self.size = size;
        self
    }

    /// The bytes that it took.
    pub fn bytes(&self) -> &[u8] {
        self.bytes.as_slice()
    }
}

impl Write for Sink {
    fn write(&mut self, buf: &[u8]) -> io::Result<usize> {
        if self.fails && self.room == 0 {
            return Err(io::Error::from(ErrorKind::Other));
        }
        let count = self.size.min(self.room).min(buf.len());
        self.bytes.extend_from_slice(&buf[..count])?;
        self.room -= count;
        Ok(count)
    }

    fn flush(&mut self) -> io::Result<()> {
        Ok(())
    }
}

/// How a write fails.
#[derive(Clone, Copy, Debug)]
pub enum Failure {
    /// With an error of this kind.
    Error(ErrorKind),
    /// It takes no byte.
    NoByte,
}

/// A writer that fails in one write, and takes all bytes after that.
#[derive(Drop)]
pub struct FailsOnce {
    sink: Sink,
    /// The number of bytes that it takes before it fails.
    room: usize,
    failure: Failure,
    has_failed: bool,
    calls_after: u32,
}

impl FailsOnce {
    /// Takes `room` bytes, and then fails once with an error.
    pub fn new(alloc: Global, room: usize) -> FailsOnce {
        let failure = Failure::Error(ErrorKind::Other);
        FailsOnce::over(Sink::new(alloc), room, failure)
    }

    /// Takes `room` bytes as this sink does, and then fails once in this way.
    pub fn over(sink: Sink, room: usize, failure: Failure) -> FailsOnce {
        FailsOnce {
            sink,
            room,
            failure,
            has_failed: false,
            calls_after: 0,
        }
    }

    /// The bytes that it took, before and after its failure.
    pub fn bytes(&self) -> &[u8] {
        self.sink.bytes()
    }

    /// The number of writes and flushes after its failure.
    pub fn calls_after(&self) -> u32 {
        self.calls_after
    }
}

impl Write for FailsOnce {
    fn write(&mut self, buf: &[u8]) -> io::Result<usize> {
        if self.has_failed {
            self.calls_after = self.calls_after.saturating_add(1);
            return self.sink.write(buf);
        }
        if self.room == 0 {
            self.has_failed = true;
            return match self.failure {
                Failure::Error(kind) => Err(io::Error::from(kind)),
                Failure::NoByte => Ok(0),
            };
        }
        let count = self.room.min(buf.len());
        let taken = self.sink.write(&buf[..count])?;
        self.room = self.room.saturating_sub(taken);
        Ok(taken)
    }

    fn flush(&mut self) -> io::Result<()> {
        if self.has_failed {
            self.calls_after = self.calls_after.saturating_add(1);
        }
        Ok(())
    }
}

/// A writer that takes all bytes, and fails with errors when it is flushed.
#[derive(Drop)]
pub struct FlushFails {
    sink: Sink,
    /// The kind of its errors.
    kind: ErrorKind,
    /// The number of flushes that succeed before its first error.
    good: u32,
    /// The number of errors that are still to come.
    errors: u32,
    has_failed: bool,
    calls_after: u32,
}

impl FlushFails {
    /// Fails in one flush, after `good` others, with an error of this kind.
    pub fn once_with(alloc: Global, good: u32, kind: ErrorKind) -> FlushFails {
        FlushFails {
            sink: Sink::new(alloc),
            kind,
            good,
            errors: 1,
            has_failed: false,
            calls_after: 0,
        }
    }

    /// Fails in one flush, after `good` others.
    pub fn once(alloc: Global, good: u32) -> FlushFails {
        FlushFails::once_with(alloc, good, ErrorKind::Other)
    }

    /// Fails in each flush after the first `good` ones.
    pub fn for_ever(alloc: Global, good: u32) -> FlushFails {
        let mut writer = FlushFails::once(alloc, good);
        writer.errors = u32::MAX;
        writer
    }

    /// The bytes that it took, before and after its first error.
    pub fn bytes(&self) -> &[u8] {
        self.sink.bytes()
    }

    /// The number of writes and flushes after its first error.
    pub fn calls_after(&self) -> u32 {
        self.calls_after
    }

    /// Counts a call, if it comes after the first error.
    fn count_call(&mut self) {
        if self.has_failed {
            self.calls_after = self.calls_after.saturating_add(1);
        }
    }
}

impl Write for FlushFails {
    fn write(&mut self, buf: &[u8]) -> io::Result<usize> {
        self.count_call();
        self.sink.write(buf)
    }

    fn flush(&mut self) -> io::Result<()> {
        self.count_call();
        if self.good > 0 {
            self.good -= 1;
            return Ok(());
        }
        if self.errors == 0 {
            return Ok(());
        }
        self.errors -= 1;
        self.has_failed = true;
        Err(io::Error::from(self.kind))
    }
}
