//! Days of an office that end by a stop of the machine. Each command is done on a day of its own, and the files aren't closed. The next day continues from the
//! files that were left. The last day has the same rows as if all days had been closed. (tests/store/test_days.py stops the process.)
use crate::changes::{changes_of, copied};
use crate::life::LIFE;
use crate::stores::{all_changed, made, opened, rows_in};
use office_base::puts::Put;
use std::alloc::Global;
use tests_disks::disks::Disks;
use tests_transcripts::session::Wrong;

// The files after a day with this command, which ends by a stop.
fn stopped_day(alloc: Global, disks: Disks, puts: &[Put]) -> Result<Disks, Wrong> {
    let mut office = opened(alloc, disks)?;
    if !office.apply(copied(alloc, puts)?) {
        return Err(Wrong::Unopened);
    }
    Ok(office.stop().left_by_the_machine(alloc)?)
}

// All rows of an office after days with these changes.
fn rows_of_stopped_days(alloc: Global, changes: &[Vec<Put>]) -> Result<Vec<u8>, Wrong> {
    let mut disks = made(alloc)?;
    for puts in changes {
        disks = stopped_day(alloc, disks, puts)?;
    }
    rows_in(alloc, disks)
}

// Whether they are the rows after days that were closed.
fn goes_on(alloc: Global) -> Result<bool, Wrong> {
    let changes = changes_of(alloc, &[LIFE])?;
    let closed = rows_in(alloc, all_changed(alloc, made(alloc)?, &changes)?)?;
    Ok(rows_of_stopped_days(alloc, &changes)? == closed)
}

// Tries twice, because a test may refuse one allocation.
#[test]
fn a_machine_stops_each_day(rt: HostRuntime) {
    let alloc = rt.alloc();
    assert!(rt; goes_on(alloc).unwrap_or(false) || goes_on(alloc).unwrap_or(false));
}
