//! Whether the log beside an office's file was used, and whether it can be read. The ported `sqlite` drops a log that it can't read, and finds an older
//! database or none. So this is asked before `sqlite` opens the files, while nothing is written.
ghost use Rattle.std.specs.Prelude.{◌≡◌, ◌⊎◌, ◌<◌, ◌≤◌, false, length, IsTrue, IfOk, IfErr};
ghost use Rattle.sqlite_disk.specs.Disk.{MoreFaults};
ghost use Rattle.sqlite_wal.specs.Format.{be32};
ghost use Rattle.sqlite_wal.specs.Reads.{AreClean, IsClean, OnlyReads};
ghost use Rattle.sqlite.specs.Files.{faults_of, image_of};
ghost use Rattle.office_store.specs.Logs.{HasCommit, LacksCommit, has_right_sum, has_shut_gate, is_unused, shut_gate};

use crate::found::OpenFault;
use sqlite::Files;
use sqlite_disk::Disk;
use sqlite_wal::{Error, checksum_of, probe_frames, probe_page_size};
use std::alloc::Global;
use std::io;

/// The length of a log's header and of the first page's header. A shorter log has no page.
const SHORTEST: usize = 56;

// Four bytes as a number, the highest first.
fn be32_at(head: &[u8; 41], at: usize) -> u32
    requires { at ≤ 37 }
    ensures { result ≡ be32 head.now at }
{
    head[at] as u32 * 0x100_0000
        + head[at + 1] as u32 * 0x1_0000
        + head[at + 2] as u32 * 0x100
        + head[at + 3] as u32
}

fn has_right_sum(head: &[u8; 41]) -> bool
    ensures { result ≡ has_right_sum head.now }
{
    let sum = checksum_of(head[3] == 0x83, (0, 0), &head[..24]);
    sum.0 == be32_at(head, 24) && sum.1 == be32_at(head, 28)
}

fn shut_gate(open_byte: u8) -> u8
    ensures { result ≡ shut_gate open_byte }
{
    if open_byte == 0 { 1 } else { 0 }
}

fn has_shut_gate(head: &[u8; 41]) -> bool
    ensures { result ≡ has_shut_gate head.now }
{
    head[0] == 0 || (has_right_sum(head) && head[40] == shut_gate(head[16]))
}

fn is_unused<D: Disk>(log: &mut D) -> io::Result<bool>
    requires { IsTrue (D.Disk.is_usable log.old) }
    ensures unused { IfOk result (λ b. IsClean D.Disk log.new → b ≡ is_unused (D.Disk.seen log.old)) }
    ensures failed { IsClean D.Disk log.new → IfErr result (λ _. MoreFaults (D.Disk.faults log.old) (D.Disk.faults log.new)) }
    ensures counts { D.Disk.faults log.old ≤ D.Disk.faults log.new }
    ensures same { OnlyReads D.Disk log.old log.new }
{
    if log.len()? < SHORTEST {
        return Ok(true);
    }
    let mut head = [0; 41];
    log.read_at(0, &mut head)?;
    Ok(has_shut_gate(&head))
}

fn log_fault(error: Error) -> OpenFault
    ensures memory { error ≡ Error.OutOfMemory → result ≡ OpenFault.NoMemory }
    ensures office { result ≡ OpenFault.NotAnOffice → ⊥ }
{
    match error {
        Error::OutOfMemory => OpenFault::NoMemory,
        _ => OpenFault::Store,
    }
}

fn has_commit<D: Disk>(alloc: Global, files: &mut Files<D>) -> Result<bool, OpenFault>
    requires log_usable { IsTrue (D.Disk.is_usable files.old.log) }
    requires db_usable { IsTrue (D.Disk.is_usable files.old.db) }
    ensures commit { IfOk result (λ b. AreClean D.Disk files.new.log files.new.db → IsTrue b → HasCommit (image_of D.Disk files.old)) }
    ensures lacks { IfOk result (λ b. AreClean D.Disk files.new.log files.new.db → b ≡ false → LacksCommit (image_of D.Disk files.old)) }
    ensures failed { AreClean D.Disk files.new.log files.new.db → IfErr result (λ e. e ≡ OpenFault.Store →
        MoreFaults (faults_of D.Disk files.old) (faults_of D.Disk files.new) ⊎ LacksCommit (image_of D.Disk files.old)) }
    ensures cause { IfErr result (λ e. e ≡ OpenFault.NotAnOffice → ⊥) }
    ensures log { OnlyReads D.Disk files.old.log files.new.log }
    ensures db { OnlyReads D.Disk files.old.db files.new.db }
{
    match files.db.len() {
        Ok(0) => return Ok(false),
        Ok(_) => {}
        Err(_) => return Err(OpenFault::Store),
    }
    let size = match probe_page_size(files) {
        Ok(Some(size)) => size,
        Ok(None) => return Ok(false),
        Err(_) => return Err(OpenFault::Store),
    };
    match probe_frames(alloc, &mut files.log, size) {
        Ok(numbers) => Ok(!numbers.is_empty()),
        Err(error) => Err(log_fault(error)),
    }
}

/// Whether the log is unused. A used log from which recovery takes nothing was damaged: that is a fault of the store. So is a used log beside an empty file.
pub(crate) fn check_log<D: Disk>(alloc: Global, files: &mut Files<D>) -> Result<bool, OpenFault>
    requires log_usable { IsTrue (D.Disk.is_usable files.old.log) }
    requires db_usable { IsTrue (D.Disk.is_usable files.old.db) }
    ensures unused { IfOk result (λ b. AreClean D.Disk files.new.log files.new.db → b ≡ is_unused (D.Disk.seen files.old.log)) }
    ensures commit { IfOk result (λ b. AreClean D.Disk files.new.log files.new.db → b ≡ false → HasCommit (image_of D.Disk files.old)) }
    ensures failed { AreClean D.Disk files.new.log files.new.db → IfErr result (λ e. e ≡ OpenFault.Store →
        MoreFaults (faults_of D.Disk files.old) (faults_of D.Disk files.new)
        ⊎ ((is_unused (D.Disk.seen files.old.log) ≡ false) × LacksCommit (image_of D.Disk files.old))) }
    ensures cause { IfErr result (λ e. e ≡ OpenFault.NotAnOffice → ⊥) }
    ensures log { OnlyReads D.Disk files.old.log files.new.log }
    ensures db { OnlyReads D.Disk files.old.db files.new.db }
{
    match is_unused(&mut files.log) {
        Ok(true) => return Ok(true),
        Ok(false) => {}
        Err(_) => return Err(OpenFault::Store),
    }
    match has_commit(alloc, files) {
        Ok(true) => Ok(false),
        Ok(false) => Err(OpenFault::Store),
        Err(fault) => Err(fault),
    }
}
