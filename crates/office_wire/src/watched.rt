//! A writer that remembers a failure.
ghost use Rattle.std.specs.Prelude.{◌≡◌, ◌<◌, ◌≤◌, true, false, length, take, IfOk, OnOk, OnErr};
ghost use Rattle.std.specs.Io.KnownBytes.{Appends, Keeps};

use crate::sending::WriteFault;
use std::io::Write;
use std::marker::Model;

/// A writer, with two facts about it. `has_failed`: a write or a flush gave an error, even if it was only interrupted, or a write took no bytes. `is_flushed`:
/// all bytes that it took were flushed.
#[derive(Drop)]
pub struct WatchedWriter<W: Write> {
    writer: W,
    has_failed: bool,
    is_flushed: bool,
}

impl<W: Write> Model for WatchedWriter<W> {
    ghost use Rattle.office_wire.specs.Sending.{WriterView};

    ghost Value = { WriterView };

    ghost view = { λ s. record { contents = W.contents s.writer; has_failed = s.has_failed; is_flushed = s.is_flushed } };
}

impl<W: Write> WatchedWriter<W> {
    /// A writer that hasn't failed. Earlier bytes aren't known to be flushed.
    pub fn new(writer: W) -> WatchedWriter<W>
        ensures contents { result.contents ≡ W.contents writer }
        ensures whole { result.has_failed ≡ false }
        ensures unflushed { result.is_flushed ≡ false }
    {
        WatchedWriter {
            writer,
            has_failed: false,
            is_flushed: false,
        }
    }

    /// Whether a write or a flush has failed.
    pub fn has_failed(&self) -> bool
        ensures { result ≡ self.now.has_failed }
    {
        self.has_failed
    }

    /// Whether all bytes that the writer took were flushed.
    pub fn is_flushed(&self) -> bool
        ensures { result ≡ self.now.is_flushed }
    {
        self.is_flushed
    }

    /// The writer inside.
    pub fn into_inner(self) -> W
        ensures { W.contents result ≡ self.contents }
    {
        let WatchedWriter { writer, .. } = self;
        writer
    }

    /// Writes once, and returns the number of bytes that were taken, at least one.
    pub fn try_write(&mut self, bytes: &[u8]) -> Result<usize, WriteFault>
        requires { 0 < length bytes.now }
        ensures bound { IfOk result (λ n. n ≤ length bytes.now) }
        ensures some { IfOk result (λ n. 0 < n) }
        ensures taken { IfOk result (λ n. Appends self.old.contents self.new.contents (take n bytes.now)) }
        ensures kept { OnErr result (Keeps self.old.contents self.new.contents) }
        ensures cause { OnErr result (self.new.has_failed ≡ true) }
        ensures sound { OnOk result (self.new.has_failed ≡ self.old.has_failed) }
        ensures unflushed { OnOk result (self.new.is_flushed ≡ false) }
    {
        match self.writer.write(bytes) {
            Ok(0) => {}
            Ok(count) => {
                self.is_flushed = false;
                return Ok(count);
            }
            Err(_) => {}
        }
        self.has_failed = true;
        Err(WriteFault)
    }

    /// Passes on the bytes that the writer still buffers.
    pub fn flush(&mut self) -> Result<(), WriteFault>
        ensures kept { Keeps self.old.contents self.new.contents }
        ensures cause { OnErr result (self.new.has_failed ≡ true) }
        ensures sound { OnOk result (self.new.has_failed ≡ self.old.has_failed) }
        ensures flushed { OnOk result (self.new.is_flushed ≡ true) }
    {
        if self.writer.flush().is_ok() {
            self.is_flushed = true;
            return Ok(());
        }
        self.has_failed = true;
        Err(WriteFault)
    }
}
