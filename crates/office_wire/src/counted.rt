//! A reader that counts its reads.
ghost use Rattle.std.specs.Prelude.{◌≡◌, ◌≢◌, ◌<◌, ◌≤◌, ◌+◌, ℕ, true, false, length, take, IfOk, IfErr, OnOk, OnErr};
ghost use Rattle.std.specs.IoError.{error_kind};
ghost use Rattle.std.specs.Io.{StopsAt};
ghost use Rattle.std.specs.Io.KnownBytes.{Keeps, Consumes, IsAtEnd};
ghost use Rattle.office_wire.specs.Counting.{TakesPart};

use memchr::memchr;
use std::alloc::AllocError;
use std::io::{BufRead, Error, ErrorKind};
use std::marker::Model;

/// The reason why an attempt to read gave nothing.
#[derive(Clone, Copy, Debug, PartialEq, Eq)]
pub enum TryFault {
    /// A signal interrupted the read, so it may be tried again.
    Interrupted,
    /// The reader failed.
    Failed,
    /// Memory for the bytes is missing, and none was read.
    NoMemory,
}

impl From<AllocError> for TryFault {
    ghost use Rattle.office_wire.specs.declared.counted.TryFault.TheVariants.{NoMemory};

    ghost from_gives = { λ _ e. e ≡ NoMemory };

    fn from(_error: AllocError) -> TryFault {
        TryFault::NoMemory
    }
}

/// The number of bytes through the first line feed, or of all bytes if there is none; at most `most`.
fn line_length(bytes: &[u8], most: usize) -> usize
    ensures within { result ≤ length bytes.now }
    ensures bound { result ≤ most }
    ensures some { 0 < length bytes.now → 0 < most → 0 < result }
    ensures line { StopsAt (take result bytes.now) 10 }
{
    let near = &bytes[..bytes.len().min(most)];
    match memchr(b'\n', near) {
        Some(at) => at + 1,
        None => near.len(),
    }
}

/// The fault that an error of the reader means: an interruption or a failure.
fn fault_of(error: Error) -> TryFault
    ensures interrupted { error_kind error ≡ ErrorKind.Interrupted → result ≡ TryFault.Interrupted }
    ensures failed { error_kind error ≢ ErrorKind.Interrupted → result ≡ TryFault.Failed }
    ensures no_memory { result ≢ TryFault.NoMemory }
{
    match error.kind() {
        ErrorKind::Interrupted => TryFault::Interrupted,
        _ => TryFault::Failed,
    }
}

/// Appends bytes from the reader's buffer, through the first line feed and at most `most`, and returns their number.
fn append_line<R: BufRead>(
    reader: &mut R,
    most: usize,
    line: &mut Vec<u8>,
) -> Result<usize, TryFault>
    ensures part { IfOk result (λ n. TakesPart (R.remaining reader.old) (R.remaining reader.new) line.old.items line.new.items most n) }
    ensures kept { OnErr result (Keeps (R.remaining reader.old) (R.remaining reader.new)) }
    ensures same { OnErr result (line.new.items ≡ line.old.items) }
{
    let shown = match reader.fill_buf() {
        Ok(shown) => shown,
        Err(error) => return Err(fault_of(error)),
    };
    let count = line_length(shown, most);
    line.extend_from_slice(&shown[..count])?;
    reader.consume(count);
    Ok(count)
}

/// A buffered reader, with the number of reads that may still be made, and whether one has failed. Only attempts to read lower this number, each by one.
#[derive(Drop)]
pub struct CountedReader<R: BufRead> {
    reader: R,
    left: u32,
    has_failed: bool,
}

impl<R: BufRead> Model for CountedReader<R> {
    ghost use Rattle.office_wire.specs.Counting.{ReaderView};

    ghost Value = { ReaderView };

    ghost view = { λ s. record { remaining = R.remaining s.reader; left = s.left; has_failed = s.has_failed } };
}

impl<R: BufRead> CountedReader<R> {
    /// A reader that allows 4,294,967,295 reads.
    pub fn new(reader: R) -> CountedReader<R>
        ensures remaining { result.remaining ≡ R.remaining reader }
        ensures left { result.left ≡ 4294967295 }
        ensures whole { result.has_failed ≡ false }
    {
        CountedReader::within(reader, u32::MAX)
    }

    /// A reader that allows this number of reads.
    pub fn within(reader: R, reads: u32) -> CountedReader<R>
        ensures remaining { result.remaining ≡ R.remaining reader }
        ensures left { result.left ≡ reads }
        ensures whole { result.has_failed ≡ false }
    {
        CountedReader {
            reader,
            left: reads,
            has_failed: false,
        }
    }

    /// The number of reads that may still be made.
    pub fn left(&self) -> u32
        ensures { result ≡ self.now.left }
    {
        self.left
    }

    /// Whether a read has failed. An interruption isn't a failure.
    pub fn has_failed(&self) -> bool
        ensures { result ≡ self.now.has_failed }
    {
        self.has_failed
    }

    /// The reader inside.
    pub fn into_inner(self) -> R
        ensures { R.remaining result ≡ self.remaining }
    {
        let CountedReader { reader, .. } = self;
        reader
    }

    /// Reads once into the beginning of the buffer, and returns the number of bytes.
    pub fn try_read(&mut self, buf: &mut [u8]) -> Result<usize, TryFault>
        requires { 0 < self.old.left }
        ensures one { self.new.left + 1 ≡ self.old.left }
        ensures bound { IfOk result (λ n. n ≤ length buf.new) }
        ensures given { IfOk result (λ n. Consumes self.old.remaining self.new.remaining (take n buf.new)) }
        ensures end { IfOk result (λ n. n ≡ 0 → 0 < length buf.new → IsAtEnd self.new.remaining) }
        ensures kept { OnErr result (Keeps self.old.remaining self.new.remaining) }
        ensures memory { IfErr result (λ e. e ≢ TryFault.NoMemory) }
        ensures whole { OnOk result (self.new.has_failed ≡ self.old.has_failed) }
        ensures failed { IfErr result (λ e. e ≡ TryFault.Failed → self.new.has_failed ≡ true) }
        ensures other { IfErr result (λ e. e ≢ TryFault.Failed → self.new.has_failed ≡ self.old.has_failed) }
    {
        self.left -= 1;
        match self.reader.read(buf) {
            Ok(count) => Ok(count),
            Err(error) => {
                let fault = fault_of(error);
                if fault == TryFault::Failed {
                    self.has_failed = true;
                }
                Err(fault)
            }
        }
    }

    /// Reads once, appends the bytes through the first line feed, at most `most`, and returns their number. The bytes after them are left for the next read.
    pub fn try_line(&mut self, most: usize, line: &mut Vec<u8>) -> Result<usize, TryFault>
        requires { 0 < self.old.left }
        ensures one { self.new.left + 1 ≡ self.old.left }
        ensures part { IfOk result (λ n. TakesPart self.old.remaining self.new.remaining line.old.items line.new.items most n) }
        ensures kept { OnErr result (Keeps self.old.remaining self.new.remaining) }
        ensures same { OnErr result (line.new.items ≡ line.old.items) }
        ensures whole { OnOk result (self.new.has_failed ≡ self.old.has_failed) }
        ensures failed { IfErr result (λ e. e ≡ TryFault.Failed → self.new.has_failed ≡ true) }
        ensures other { IfErr result (λ e. e ≢ TryFault.Failed → self.new.has_failed ≡ self.old.has_failed) }
    {
        self.left -= 1;
        match append_line(&mut self.reader, most, line) {
            Ok(count) => Ok(count),
            Err(fault) => {
                if fault == TryFault::Failed {
                    self.has_failed = true;
                }
                Err(fault)
            }
        }
    }
}
