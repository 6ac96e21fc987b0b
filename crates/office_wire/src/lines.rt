//! The lines of a head that is being read.
ghost use Rattle.std.specs.Prelude.{◌≡◌, ◌<◌, ◌≤◌, ◌⊎◌, ◌∷◌, ◌++◌, [], ℕ, List, length, take, IsTrue, IfOk, IfErr, IfSome, IsNone, IsErrOf, OnOk, OnErr, Ok, Some, false};
ghost use Rattle.std.specs.Io.KnownBytes.{Keeps};
ghost use Rattle.office_wire.specs.Counting.{HasStopped, TakesPart};
ghost use Rattle.office_wire.specs.Head.{first_line_ends, skip_empty};
ghost use Rattle.office_wire.specs.Reading.{ReadsOn, IsOver};
ghost use Rattle.httparse.specs.Grammar.{HasNoRequest, LineEnd, print_end};

use crate::counted::{CountedReader, TryFault};
use crate::fault::ReadFault;
use std::alloc::{AllocError, Global};
use std::io::BufRead;
use std::marker::Model;

/// The most bytes that a head may have, with the empty lines before it.
pub const MOST_BYTES: usize = 8192;

/// The bytes after the empty lines at the beginning.
pub fn after_empty_lines(bytes: &[u8]) -> &[u8]
    ensures { result.now ≡ skip_empty bytes.now }
{
    let mut at = 0;
    while at < bytes.len() {
        if bytes[at] == b'\n' {
            at += 1;
        } else if bytes[at] == b'\r' && at + 1 < bytes.len() && bytes[at + 1] == b'\n' {
            at += 2;
        } else {
            return &bytes[at..];
        }
    }
    &[]
}

/// Whether the first line that isn't empty ends within these bytes.
pub fn first_line_has_ended(bytes: &[u8]) -> bool
    ensures { result ≡ first_line_ends bytes.now }
{
    after_empty_lines(bytes).iter().any(|b| *b == b'\n')
}

/// Whether the bytes end with a line feed.
fn ends_in_line_feed(bytes: &[u8]) -> bool
    ensures { (front : List ℕ) → bytes.now ≡ front ++ 10 ∷ [] → IsTrue result }
{
    bytes.ends_with(b"\n")
}

/// Whether the bytes end with an empty line after another line.
fn ends_in_empty_line(bytes: &[u8]) -> bool
    ensures { (front : List ℕ) (end : LineEnd) → bytes.now ≡ front ++ 10 ∷ print_end end → IsTrue result }
{
    bytes.ends_with(b"\n\n") || bytes.ends_with(b"\n\r\n")
}

/// Appends bytes to the line, through the first line feed and at most `most`, and returns their number. If a signal interrupts a read, it reads again.
fn read_line_part<R: BufRead>(
    reader: &mut CountedReader<R>,
    most: usize,
    line: &mut Vec<u8>,
) -> Result<usize, ReadFault>
    ensures part { IfOk result (λ n. TakesPart reader.old.remaining reader.new.remaining line.old.items line.new.items most n) }
    ensures kept { OnErr result (Keeps reader.old.remaining reader.new.remaining) }
    ensures same { OnErr result (line.new.items ≡ line.old.items) }
    ensures cause { IsErrOf result ReadFault.Read → HasStopped reader.new }
    ensures fault { IfErr result (λ e. (e ≡ ReadFault.Unavailable) ⊎ (e ≡ ReadFault.Read)) }
    ensures whole { OnOk result (reader.new.has_failed ≡ reader.old.has_failed) }
    ensures counted { OnOk result (reader.new.left < reader.old.left) }
    ensures spent { reader.new.left ≤ reader.old.left }
{
    'tries: while reader.left() > 0 {
        match reader.try_line(most, line) {
            Ok(count) => return Ok(count),
            Err(TryFault::Interrupted) => {}
            Err(TryFault::Failed) => return Err(ReadFault::Read),
            Err(TryFault::NoMemory) => return Err(ReadFault::Unavailable),
        }
    }
    Err(ReadFault::Read)
}

/// The number of bytes that memory is taken for at first.
const USUAL_BYTES: usize = 512;

/// The bytes of a head so far.
#[derive(Drop)]
pub struct HeadLines {
    bytes: Vec<u8>,
    /// The number of bytes that are known to be empty lines at the beginning.
    blank: usize,
    /// Whether the first line that isn't empty has ended.
    started: bool,
}

impl Model for HeadLines {
    ghost use Rattle.std.specs.Prelude.{ℕ, ◌≡◌, ◌≤◌, List, [], length, take, false};
    ghost use Rattle.office_wire.specs.Head.{skip_empty};

    ghost Value = { List ℕ };

    ghost view = { λ s. s.bytes.items };

    ghost invariant = { λ s. (s.blank ≤ length s.bytes.items) × (s.started ≡ false → skip_empty (take s.blank s.bytes.items) ≡ []) };
}

impl HeadLines {
    /// No bytes, with memory for those of a usual head.
    pub fn new(alloc: Global) -> Result<HeadLines, AllocError>
        ensures { IfOk result (λ lines. lines ≡ []) }
    {
        Ok(HeadLines {
            bytes: Vec::with_capacity(alloc, USUAL_BYTES)?,
            blank: 0,
            started: false,
        })
    }

    /// The bytes so far.
    pub fn bytes(&self) -> &[u8]
        ensures { result.now ≡ self.now }
    {
        &self.bytes
    }

    /// The bytes so far, as a vector.
    pub fn into_bytes(self) -> Vec<u8>
        ensures { result.items ≡ self }
    {
        let HeadLines { bytes, .. } = self;
        bytes
    }

    /// Whether the bytes are worth parsing. They are at the end of the first line, so that a wrong one is refused at once. They are at each empty line after
    /// it, since a head ends nowhere else.
    fn judge(&mut self) -> bool
        ensures same { self.new ≡ self.old }
        ensures no_head { result ≡ false → (front : List ℕ) (last : ℕ) → self.old ≡ front ++ last ∷ [] → HasNoRequest front → HasNoRequest self.old }
    {
        if !ends_in_line_feed(&self.bytes) {
            return false;
        }
        if self.started {
            return ends_in_empty_line(&self.bytes);
        }
        if after_empty_lines(&self.bytes[self.blank..]).is_empty() {
            self.blank = self.bytes.len();
            return false;
        }
        self.started = true;
        true
    }

    /// Reads more bytes, through the next line feed and up to 8,192 in all, and returns whether the bytes are worth parsing; None at the end of the input.
    pub fn read_on<R: BufRead>(
        &mut self,
        reader: &mut CountedReader<R>,
    ) -> Result<Option<bool>, ReadFault>
        requires { length self.old < 8192 }
        ensures read { IfOk result (λ o. IfSome o (λ _. ReadsOn reader.old.remaining reader.new.remaining self.old self.new)) }
        ensures no_head { result ≡ Ok (Some false) → HasNoRequest self.old → HasNoRequest self.new }
        ensures over { IfOk result (λ o. IsNone o → IsOver reader.old.remaining reader.new.remaining) }
        ensures kept { OnErr result (Keeps reader.old.remaining reader.new.remaining) }
        ensures same { OnErr result (self.new ≡ self.old) }
        ensures cause { IsErrOf result ReadFault.Read → HasStopped reader.new }
        ensures fault { IfErr result (λ e. (e ≡ ReadFault.Unavailable) ⊎ (e ≡ ReadFault.Read)) }
        ensures whole { OnOk result (reader.new.has_failed ≡ reader.old.has_failed) }
        ensures counted { OnOk result (reader.new.left < reader.old.left) }
        ensures spent { reader.new.left ≤ reader.old.left }
    {
        let most = MOST_BYTES - self.bytes.len();
        let count = read_line_part(reader, most, &mut self.bytes)?;
        if count == 0 {
            return Ok(None);
        }
        Ok(Some(self.judge()))
    }
}
