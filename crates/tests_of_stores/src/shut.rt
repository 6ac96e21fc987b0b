//! A store that is closed for good: the log's disk stops within a command, and the office reports that it answers nothing more.
use crate::changes::{changes_of, copied};
use crate::stores::{all_changed, opened};
use office_base::puts::Put;
use std::alloc::Global;
use tests_disks::disks::Disks;
use tests_disks::office::OfficeOnDisks;
use tests_transcripts::session::Wrong;
use tests_transcripts::setup::{MONEY, TENDERERS};

// The end of a command whose disk stops, and the office's report about its store afterwards.
#[derive(Clone, Copy)]
enum Ending {
    Unopened,
    Done,
    Refused,
    Shut,
}

// Whether an office whose store was closed for good stays so, and refuses the command that it didn't do.
fn stays_shut(alloc: Global, office: &mut OfficeOnDisks, puts: &[Put]) -> Result<bool, Wrong> {
    let is_done = office.apply(copied(alloc, puts)?);
    Ok(!is_done && office.is_shut() == Some(true))
}

// Makes the changes, and asks whether the store was closed for good.
fn end_of(alloc: Global, disks: Disks, puts: &[Put]) -> Result<Ending, Wrong> {
    let Ok(mut office) = opened(alloc, disks) else {
        return Ok(Ending::Unopened);
    };
    let is_done = office.apply(copied(alloc, puts)?);
    match (is_done, office.is_shut()) {
        (true, Some(false)) => Ok(Ending::Done),
        (false, Some(false)) => Ok(Ending::Refused),
        (false, Some(true)) => {
            if stays_shut(alloc, &mut office, puts)? {
                Ok(Ending::Shut)
            } else {
                Err(Wrong::Unopened)
            }
        }
        _ => Err(Wrong::Unopened),
    }
}

// Makes the changes again and again, with a log's disk that accepts one more call each time, until nothing is stopped. Returns how often the store was closed
// for good before that.
fn times_shut(alloc: Global, disks: &Disks, puts: &[Put]) -> Result<u64, Wrong> {
    let mut times = 0u64;
    for calls in 0..2000 {
        match end_of(alloc, disks.fused(alloc, calls, u64::MAX)?, puts)? {
            Ending::Done => return Ok(times),
            Ending::Shut => times = times.saturating_add(1),
            Ending::Unopened | Ending::Refused => {}
        }
    }
    Err(Wrong::Stop(2000))
}

// How often the store was closed for good in an import after the registration of the tenderers.
fn times_in_an_import(alloc: Global) -> Result<u64, Wrong> {
    let changes = changes_of(alloc, &[TENDERERS, MONEY])?;
    let Some((last, others)) = changes.split_last() else {
        return Err(Wrong::NotAnOffice);
    };
    let disks = all_changed(alloc, Disks::blank(alloc), others)?;
    times_shut(alloc, &disks, last)
}

#[test]
fn a_disk_that_stops_shuts_the_store(rt: HostRuntime) {
    // A test may refuse one allocation; then the second try has all of them.
    let first = times_in_an_import(rt.alloc());
    let second = times_in_an_import(rt.alloc());
    assert!(rt; matches!((first, second), (Ok(1..), _) | (_, Ok(1..))));
}
