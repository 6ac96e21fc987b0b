//! Stops: a disk accepts some number of calls, and fails at every later one. Whatever that number is, the office that is opened again has the rows from before
//! the command, or all changes of the command. If the changes were reported as made, it has all of them.
use crate::changes::{changes_of, copied};
use crate::life::LIFE;
use crate::stores::{all_changed, made, rows_in};
use office_base::puts::Put;
use std::alloc::Global;
use tests_disks::disks::Disks;
use tests_disks::office::{OfficeOnDisks, Unopened};
use tests_transcripts::session::Wrong;

// A command's changes, and all rows of the office before and after it.
#[derive(Drop)]
struct Change<'a> {
    puts: &'a [Put],
    before: Vec<u8>,
    behind: Vec<u8>,
}

// How a command ended whose disks accept some number of calls.
#[derive(Drop)]
struct Ending {
    is_done: bool,
    is_closed: bool,
    disks: Disks,
}

// Opens an office, and makes a command's changes. If the office can't even be opened, its files are as the opening left them.
fn ended(alloc: Global, disks: Disks, puts: &[Put]) -> Result<Ending, Wrong> {
    let mut office = match OfficeOnDisks::open(alloc, disks) {
        Ok(office) => office,
        Err(Unopened::NotAnOffice(_)) => return Err(Wrong::NotAnOffice),
        Err(Unopened::Unusable(disks)) => {
            return Ok(Ending {
                is_done: false,
                is_closed: false,
                disks,
            });
        }
    };
    let is_done = office.apply(copied(alloc, puts)?);
    let (is_closed, disks) = office.put_down();
    Ok(Ending {
        is_done,
        is_closed,
        disks,
    })
}

// All rows of the office that a process leaves on these disks.
fn rows_left(alloc: Global, disks: &Disks) -> Result<Vec<u8>, Wrong> {
    rows_in(alloc, disks.left_by_the_process(alloc)?)
}

// All rows of the office in these files after these changes.
fn rows_behind(alloc: Global, disks: &Disks, puts: &[Put]) -> Result<Vec<u8>, Wrong> {
    let whole = ended(alloc, disks.left_by_the_process(alloc)?, puts)?;
    if !whole.is_closed {
        return Err(Wrong::Unopened);
    }
    rows_left(alloc, &whole.disks)
}

// These changes, with the rows of the office in these files before and after them.
fn change_of<'a>(alloc: Global, disks: &Disks, puts: &'a [Put]) -> Result<Change<'a>, Wrong> {
    let behind = rows_behind(alloc, disks, puts)?;
    let before = rows_left(alloc, disks)?;
    Ok(Change {
        puts,
        before,
        behind,
    })
}

// Files, and all rows of the office in them.
#[derive(Drop)]
struct Looked {
    disks: Disks,
    rows: Vec<u8>,
}

// The counts of stops that left the office before and after the command, and the files that were looked at last. Most stops leave the same bytes as the
// previous one, because most calls of a disk are reads. Such files aren't looked at again.
#[derive(Drop)]
struct Found {
    before: u64,
    behind: u64,
    last: Option<Looked>,
}

impl Found {
    fn new() -> Found {
        Found {
            before: 0,
            behind: 0,
            last: None,
        }
    }

    fn is_last(&self, disks: &Disks) -> bool {
        match &self.last {
            Some(looked) => looked.disks.has_bytes_of(disks),
            None => false,
        }
    }

    // Looks at these files, unless they were looked at last.
    fn look(&mut self, alloc: Global, disks: Disks) -> Result<(), Wrong> {
        if !self.is_last(&disks) {
            let rows = rows_left(alloc, &disks)?;
            self.last = Some(Looked { disks, rows });
        }
        Ok(())
    }

    // Counts the files that were looked at last. Returns whether they are right.
    fn count(&mut self, change: &Change<'_>, is_done: bool) -> bool {
        let Some(looked) = &self.last else {
            return false;
        };
        let rows = looked.rows.as_slice();
        let is_behind = rows == change.behind.as_slice();
        let is_before = rows == change.before.as_slice();
        if is_behind {
            self.behind = self.behind.saturating_add(1);
        } else {
            self.before = self.before.saturating_add(1);
        }
        is_behind || !is_done && is_before
    }
}

// Looks at the files that a process and a machine leave at this end. Returns whether they are right.
fn look_at(
    alloc: Global,
    found: &mut Found,
    change: &Change<'_>,
    ending: Ending,
) -> Result<bool, Wrong> {
    found.look(alloc, ending.disks.left_by_the_process(alloc)?)?;
    let is_right = found.count(change, ending.is_done);
    found.look(alloc, ending.disks.left_by_the_machine(alloc)?)?;
    Ok(found.count(change, ending.is_done) && is_right)
}

// The disk that stops.
#[derive(Clone, Copy)]
enum Stopping {
    Log,
    Database,
}

// Does the command with a disk that accepts this many calls. Returns whether nothing was stopped.
fn is_whole(
    alloc: Global,
    found: &mut Found,
    change: &Change<'_>,
    disks: Disks,
    calls: u64,
) -> Result<bool, Wrong> {
    let ending = ended(alloc, disks, change.puts)?;
    let is_whole = ending.is_closed;
    if look_at(alloc, found, change, ending)? {
        Ok(is_whole)
    } else {
        Err(Wrong::Stop(calls))
    }
}

// Makes the changes again and again, with a disk that accepts one more call each time, until nothing is stopped.
fn stops(
    alloc: Global,
    disks: &Disks,
    change: &Change<'_>,
    stopping: Stopping,
) -> Result<Found, Wrong> {
    let mut found = Found::new();
    for calls in 0..2000 {
        let fused = match stopping {
            Stopping::Log => disks.fused(alloc, calls, u64::MAX)?,
            Stopping::Database => disks.fused(alloc, u64::MAX, calls)?,
        };
        if is_whole(alloc, &mut found, change, fused, calls)? {
            return Ok(found);
        }
    }
    Err(Wrong::Stop(2000))
}

// Stops of the log's disk and of the database file's disk, in a command. Those of the log must leave the office before the command and the office after it.
// Those of the database file must leave the office after it.
fn stopped(alloc: Global, disks: &Disks, puts: &[Put]) -> Result<(), Wrong> {
    let change = change_of(alloc, disks, puts)?;
    let log = stops(alloc, disks, &change, Stopping::Log)?;
    let db = stops(alloc, disks, &change, Stopping::Database)?;
    if log.before == 0 || log.behind == 0 || db.behind == 0 {
        return Err(Wrong::Stop(0));
    }
    Ok(())
}

// Stops in the last of the first commands of a life, of which there are this many.
fn stopped_in_life(alloc: Global, count: usize) -> Result<(), Wrong> {
    let mut changes = changes_of(alloc, &[LIFE])?;
    if changes.len() != 10 {
        return Err(Wrong::Stop(0));
    }
    changes.truncate(count);
    let Some(last) = changes.pop() else {
        return Err(Wrong::Stop(0));
    };
    let disks = all_changed(alloc, made(alloc)?, &changes)?;
    stopped(alloc, &disks, &last)
}

// Whether stops in this command of a life leave the office before it or after it.
fn leaves_all_or_none(alloc: Global, command: usize) -> bool {
    stopped_in_life(alloc, command).is_ok()
}

#[test]
fn a_registration_is_stopped(rt: HostRuntime) {
    let alloc = rt.alloc();
    assert!(rt; leaves_all_or_none(alloc, 1) || leaves_all_or_none(alloc, 1));
}

#[test]
fn an_import_is_stopped(rt: HostRuntime) {
    let alloc = rt.alloc();
    assert!(rt; leaves_all_or_none(alloc, 2) || leaves_all_or_none(alloc, 2));
}

#[test]
fn a_publication_is_stopped(rt: HostRuntime) {
    let alloc = rt.alloc();
    assert!(rt; leaves_all_or_none(alloc, 3) || leaves_all_or_none(alloc, 3));
}

#[test]
fn a_presentation_is_stopped(rt: HostRuntime) {
    let alloc = rt.alloc();
    assert!(rt; leaves_all_or_none(alloc, 4) || leaves_all_or_none(alloc, 4));
}

#[test]
fn an_opening_is_stopped(rt: HostRuntime) {
    let alloc = rt.alloc();
    assert!(rt; leaves_all_or_none(alloc, 5) || leaves_all_or_none(alloc, 5));
}

#[test]
fn an_examination_is_stopped(rt: HostRuntime) {
    let alloc = rt.alloc();
    assert!(rt; leaves_all_or_none(alloc, 6) || leaves_all_or_none(alloc, 6));
}

#[test]
fn an_award_is_stopped(rt: HostRuntime) {
    let alloc = rt.alloc();
    assert!(rt; leaves_all_or_none(alloc, 7) || leaves_all_or_none(alloc, 7));
}

#[test]
fn a_signature_is_stopped(rt: HostRuntime) {
    let alloc = rt.alloc();
    assert!(rt; leaves_all_or_none(alloc, 8) || leaves_all_or_none(alloc, 8));
}

#[test]
fn a_payment_is_stopped(rt: HostRuntime) {
    let alloc = rt.alloc();
    assert!(rt; leaves_all_or_none(alloc, 9) || leaves_all_or_none(alloc, 9));
}

#[test]
fn an_end_is_stopped(rt: HostRuntime) {
    let alloc = rt.alloc();
    assert!(rt; leaves_all_or_none(alloc, 10) || leaves_all_or_none(alloc, 10));
}
