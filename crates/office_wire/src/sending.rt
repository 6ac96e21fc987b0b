//! Writing bytes.
ghost use Rattle.std.specs.Prelude.{◌≡◌, true, OnOk, OnErr};
ghost use Rattle.std.specs.Io.KnownBytes.{Appends};
ghost use Rattle.office_wire.specs.Sending.{AppendsPart};

use crate::fault::RunFault;
use crate::watched::WatchedWriter;
use std::io::Write;

/// The writer failed, took no more bytes, or was interrupted.
#[derive(Clone, Copy, Debug, PartialEq, Eq)]
pub struct WriteFault;

impl From<WriteFault> for RunFault {
    ghost use Rattle.office_wire.specs.declared.fault.RunFault.TheVariants.{Write};

    ghost from_gives = { λ _ e. e ≡ Write };

    fn from(_fault: WriteFault) -> RunFault {
        RunFault::Write
    }
}

/// Writes all bytes, without flushing. If the writer fails, the first part of them was written.
pub fn send<W: Write>(writer: &mut WatchedWriter<W>, bytes: &[u8]) -> Result<(), WriteFault>
    ensures ok { OnOk result (Appends writer.old.contents writer.new.contents bytes.now) }
    ensures err { OnErr result (AppendsPart writer.old.contents writer.new.contents bytes.now) }
    ensures cause { OnErr result (writer.new.has_failed ≡ true) }
    ensures sound { OnOk result (writer.new.has_failed ≡ writer.old.has_failed) }
{
    let mut at = 0;
    'parts: while at < bytes.len() {
        at += writer.try_write(&bytes[at..])?;
    }
    Ok(())
}

/// Writes all bytes and flushes. If the writer fails, the first part of them or all were written.
pub fn send_flushed<W: Write>(writer: &mut WatchedWriter<W>, bytes: &[u8]) -> Result<(), WriteFault>
    ensures ok { OnOk result (Appends writer.old.contents writer.new.contents bytes.now) }
    ensures err { OnErr result (AppendsPart writer.old.contents writer.new.contents bytes.now) }
    ensures cause { OnErr result (writer.new.has_failed ≡ true) }
    ensures flushed { OnOk result (writer.new.is_flushed ≡ true) }
{
    send(writer, bytes)?;
    writer.flush()?;
    Ok(())
}
