//! Readers and writers that are slow, interrupted or fail.
ghost use Rattle.std.specs.Prelude.{◌≤◌, length, IfOk};

use std::alloc::Global;
use std::io;
use std::io::{BufRead, ErrorKind, Read, Write};

/// Gives at most this many bytes a read. If asked, it is interrupted before each read. It fails after this many reads.
#[derive(Drop)]
pub struct Drip<'a> {
    pub rest: &'a [u8],
    pub most: usize,
    pub is_interrupted: bool,
    was_interrupted: bool,
    pub reads: u32,
}

impl Drip<'_> {
    pub fn over(rest: &[u8], most: usize) -> Drip<'_> {
        Drip {
            rest,
            most,
            is_interrupted: false,
            was_interrupted: false,
            reads: u32::MAX,
        }
    }
}

impl Drip<'_> {
    /// Counts a read, and returns the most bytes that it may give.
    fn begin(&mut self) -> io::Result<usize>
        ensures { IfOk result (λ n. n ≤ length self.new.rest.now) }
    {
        if self.reads == 0 {
            return Err(io::Error::from(ErrorKind::BrokenPipe));
        }
        self.reads -= 1;
        if self.is_interrupted && !self.was_interrupted {
            self.was_interrupted = true;
            return Err(io::Error::from(ErrorKind::Interrupted));
        }
        self.was_interrupted = false;
        Ok(self.rest.len().min(self.most))
    }
}

impl Read for Drip<'_> {
    fn read(&mut self, buf: &mut [u8]) -> io::Result<usize> {
        let given = self.begin()?;
        let limit = given.min(buf.len());
        for count in 0..limit {
            match self.rest.split_first() {
                Some((first, rest)) => {
                    buf[count] = *first;
                    self.rest = rest;
                }
                None => return Ok(count),
            }
        }
        Ok(limit)
    }
}

impl BufRead for Drip<'_> {
    fn fill_buf(&mut self) -> io::Result<&[u8]> {
        let given = self.begin()?;
        Ok(&self.rest[..given])
    }

    fn consume(&mut self, amount: usize) {
        let count = amount.min(self.rest.len());
        self.rest = &self.rest[count..];
    }
}

/// Accepts at most this many bytes a write, and this many writes; counts the flushes.
#[derive(Drop)]
pub struct Narrow {
    pub bytes: Vec<u8>,
    pub most: usize,
    pub writes: u32,
    pub kind: ErrorKind,
    pub flushes: u32,
}

impl Write for Narrow {
    fn write(&mut self, buf: &[u8]) -> io::Result<usize> {
        if self.writes == 0 {
            return Err(io::Error::from(self.kind));
        }
        self.writes -= 1;
        let count = if buf.len() < self.most {
            buf.len()
        } else {
            self.most
        };
        self.bytes.extend_from_slice(&buf[..count])?;
        Ok(count)
    }

    fn flush(&mut self) -> io::Result<()> {
        if self.writes == 0 {
            return Err(io::Error::from(self.kind));
        }
        self.flushes = self.flushes.saturating_add(1);
        Ok(())
    }
}

/// A writer that has accepted nothing yet.
pub fn make_narrow(alloc: Global, most: usize, writes: u32, kind: ErrorKind) -> Narrow {
    Narrow {
        bytes: Vec::new(alloc),
        most,
        writes,
        kind,
        flushes: 0,
    }
}
