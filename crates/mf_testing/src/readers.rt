//! Readers for tests: they give bytes in pieces, fail, and count their reads.
use std::io::{self, ErrorKind, Read};

/// A reader of these bytes. After them it fails with errors, if there are some, and then reports the end.
#[derive(Drop)]
pub struct Pieces<'a> {
    rest: &'a [u8],
    /// The greatest number of bytes in the next read.
    size: usize,
    /// The greatest number of bytes in each read after that.
    later_size: usize,
    /// The kind of its errors.
    kind: ErrorKind,
    /// The number of errors that are still to come.
    errors: u32,
}

impl<'a> Pieces<'a> {
    /// Gives as many bytes in each read as are asked for.
    pub fn whole(bytes: &'a [u8]) -> Pieces<'a> {
        Pieces::split(bytes, usize::MAX)
    }

    /// Gives one byte in each read.
    pub fn bytewise(bytes: &'a [u8]) -> Pieces<'a> {
        let mut pieces = Pieces::split(bytes, 1);
        pieces.later_size = 1;
        pieces
    }

    /// Gives at most `first` bytes in its first read. `first` is at least 1.
    pub fn split(bytes: &'a [u8], first: usize) -> Pieces<'a> {
        Pieces {
            rest: bytes,
            size: first,
            later_size: usize::MAX,
            kind: ErrorKind::Other,
            errors: 0,
        }
    }

    /// Fails with an error in each read after these bytes.
    pub fn failing(bytes: &'a [u8]) -> Pieces<'a> {
        let mut pieces = Pieces::whole(bytes);
        pieces.errors = u32::MAX;
        pieces
    }

    /// Fails in one read after these bytes, with an error of this kind.
    pub fn failing_once_with(bytes: &'a [u8], kind: ErrorKind) -> Pieces<'a> {
        let mut pieces = Pieces::whole(bytes);
        pieces.kind = kind;
        pieces.errors = 1;
        pieces
    }
}

impl Read for Pieces<'_> {
    fn read(&mut self, buf: &mut [u8]) -> io::Result<usize> {
        if self.errors > 0 && self.rest.is_empty() {
            self.errors -= 1;
            return Err(io::Error::from(self.kind));
        }
        let count = self.size.min(buf.len()).min(self.rest.len());
        let (piece, rest) = self.rest.split_at(count);
        buf[..count].copy_from_slice(piece);
        self.rest = rest;
        self.size = self.later_size;
        Ok(count)
    }
}

/// A reader that gives one line feed in each read, `left` times.
#[derive(Drop)]
pub struct LineFeeds {
    pub left: u32,
}

impl Read for LineFeeds {
    fn read(&mut self, buf: &mut [u8]) -> io::Result<usize> {
        if self.left == 0 || buf.is_empty() {
            return Ok(0);
        }
        self.left -= 1;
        buf[0] = b'\n';
        Ok(1)
    }
}

/// A reader that counts its reads and remembers how many bytes they asked for.
#[derive(Drop)]
pub struct Remembers<I> {
    reader: I,
    reads: u32,
    least: usize,
    greatest: usize,
}

impl<I: Read> Remembers<I> {
    /// Gives what this reader gives.
    pub fn new(reader: I) -> Remembers<I> {
        Remembers {
            reader,
            reads: 0,
            least: usize::MAX,
            greatest: 0,
        }
    }

    /// The number of reads, including those that failed.
    pub fn reads(&self) -> u32 {
        self.reads
    }

    /// The least number of bytes that a read asked for.
    pub fn least(&self) -> usize {
        self.least
    }

    /// The greatest number of bytes that a read asked for.
    pub fn greatest(&self) -> usize {
        self.greatest
    }
}

impl<I: Read> Read for Remembers<I> {
    fn read(&mut self, buf: &mut [u8]) -> io::Result<usize> {
        self.reads = self.reads.saturating_add(1);
        self.least = self.least.min(buf.len());
        self.greatest = self.greatest.max(buf.len());
        self.reader.read(buf)
    }
}
