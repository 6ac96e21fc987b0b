//! Reads that are tried again after an interruption.
ghost use Rattle.std.specs.Prelude.{◌≡◌, ◌<◌, ◌≤◌, length, take, IfOk, IfErr, OnOk, OnErr};
ghost use Rattle.std.specs.Io.KnownBytes.{Keeps, Consumes, IsAtEnd};
ghost use Rattle.office_wire.specs.Counting.{HasStopped};
ghost use Rattle.office_wire.specs.Reading.{GivesPart};

use crate::counted::{CountedReader, TryFault};
use crate::fault::ReadFault;
use std::io::BufRead;

/// Reads some bytes into the beginning of the buffer, and returns their number. If a signal interrupts a read, it reads again.
pub fn read_some<R: BufRead>(
    reader: &mut CountedReader<R>,
    buf: &mut [u8],
) -> Result<usize, ReadFault>
    ensures bound { IfOk result (λ n. n ≤ length buf.new) }
    ensures given { IfOk result (λ n. Consumes reader.old.remaining reader.new.remaining (take n buf.new)) }
    ensures end { IfOk result (λ n. n ≡ 0 → 0 < length buf.new → IsAtEnd reader.new.remaining) }
    ensures kept { OnErr result (Keeps reader.old.remaining reader.new.remaining) }
    ensures cause { OnErr result (HasStopped reader.new) }
    ensures fault { IfErr result (λ e. e ≡ ReadFault.Read) }
    ensures whole { OnOk result (reader.new.has_failed ≡ reader.old.has_failed) }
    ensures counted { OnOk result (reader.new.left < reader.old.left) }
    ensures spent { reader.new.left ≤ reader.old.left }
{
    'tries: while reader.left() > 0 {
        match reader.try_read(buf) {
            Ok(count) => return Ok(count),
            Err(TryFault::Interrupted) => {}
            Err(TryFault::Failed) => return Err(ReadFault::Read),
            Err(TryFault::NoMemory) => unreachable!(),
        }
    }
    Err(ReadFault::Read)
}

/// Fills the buffer from its beginning, and returns the number of bytes. It is smaller than the buffer's only if the input ends before.
pub fn fill<R: BufRead>(reader: &mut CountedReader<R>, buf: &mut [u8]) -> Result<usize, ReadFault>
    ensures bound { IfOk result (λ n. n ≤ length buf.new) }
    ensures given { IfOk result (λ n. Consumes reader.old.remaining reader.new.remaining (take n buf.new)) }
    ensures ended { IfOk result (λ n. n < length buf.new → IsAtEnd reader.new.remaining) }
    ensures cut { OnErr result (GivesPart reader.old.remaining reader.new.remaining (length buf.new)) }
    ensures cause { OnErr result (HasStopped reader.new) }
    ensures fault { IfErr result (λ e. e ≡ ReadFault.Read) }
    ensures whole { OnOk result (reader.new.has_failed ≡ reader.old.has_failed) }
    ensures spent { reader.new.left ≤ reader.old.left }
{
    let mut at = 0;
    'parts: while at < buf.len() {
        match read_some(reader, &mut buf[at..])? {
            0 => return Ok(at),
            count => at += count,
        }
    }
    Ok(at)
}
