//! Files of version 1, with or without the table of late withdrawals. When they are opened, they become the same office in version 2, even after any stop.
use crate::earlier_file::{EARLIER_LOTS, EARLIER_ROWS, EARLIER_TABLES};
use crate::first_files::{FIRST_TABLES, RUNNING_LOTS, RUNNING_ROWS, TEN_LOTS, TEN_ROWS};
use crate::stores::{LATER, SECOND, answers_in, reopened};
use std::alloc::Global;
use tests_disks::database::Database;
use tests_disks::disks::Disks;
use tests_disks::office::{OfficeOnDisks, Unopened};
use tests_transcripts::session::Wrong;

// The clock and the notices of version 1 in the form of version 2: no performance securities are asked for.
static FIRST: [&str; 2] = [
    "SELECT 2, moment, receipts, awards FROM office ORDER BY version",
    "SELECT notice, title, published, deadline, validity, standstill, weight, state, opened, amendments, releases, 0 FROM notices ORDER BY notice",
];

// A file of an earlier program: the statements that make its tables and its rows, and whether it knew late withdrawals.
#[derive(Clone, Copy)]
struct Former {
    tables: &'static str,
    rows: &'static str,
    lots: &'static str,
    is_late: bool,
}

fn before_late_rules() -> Former {
    Former {
        tables: EARLIER_TABLES,
        rows: EARLIER_ROWS,
        lots: EARLIER_LOTS,
        is_late: false,
    }
}

fn running() -> Former {
    Former {
        tables: FIRST_TABLES,
        rows: RUNNING_ROWS,
        lots: RUNNING_LOTS,
        is_late: true,
    }
}

fn ten_notices() -> Former {
    Former {
        tables: FIRST_TABLES,
        rows: TEN_ROWS,
        lots: TEN_LOTS,
        is_late: true,
    }
}

// The later tables that the earlier program's file has: none, or that of late withdrawals.
fn later(is_late: bool) -> &'static [&'static str] {
    if is_late { &LATER[..1] } else { &LATER[..0] }
}

// The files of the earlier program.
fn left(alloc: Global, file: Former) -> Result<Disks, Wrong> {
    let mut database = Database::open(alloc, Disks::blank(alloc)).ok_or(Wrong::Unopened)?;
    if database.changes(file.tables) && database.changes(file.rows) && database.changes(file.lots) {
        database.close().ok_or(Wrong::Unopened)
    } else {
        Err(Wrong::Unopened)
    }
}

// All rows of the office after the files are opened: the rows that they have, and none in the other later tables.
fn rows_wanted(alloc: Global, disks: &Disks, is_late: bool) -> Result<Vec<u8>, Wrong> {
    let later = later(is_late);
    let files = disks.left_by_the_process(alloc)?;
    let mut rows = answers_in(alloc, files, FIRST.as_slice(), later)?;
    for _ in later.len()..LATER.len() {
        rows.extend_from_slice(b";")?;
    }
    Ok(rows)
}

// Whether the files have an office of version 2 with these rows.
fn is_complete(alloc: Global, disks: &Disks, rows: &[u8]) -> Result<bool, Wrong> {
    let files = disks.left_by_the_process(alloc)?;
    let answers = answers_in(alloc, files, SECOND.as_slice(), LATER.as_slice())?;
    Ok(answers.as_slice() == rows)
}

// Whether the office is the same after it was opened once, and twice.
fn is_migrated(alloc: Global, file: Former) -> Result<bool, Wrong> {
    let disks = left(alloc, file)?;
    let rows = rows_wanted(alloc, &disks, file.is_late)?;
    let once = reopened(alloc, disks)?;
    let is_once = is_complete(alloc, &once, &rows)?;
    let twice = reopened(alloc, once)?;
    Ok(is_once && is_complete(alloc, &twice, &rows)?)
}

// Tries twice, because a test may refuse one allocation.
#[test]
fn a_file_of_version_one_becomes_one_of_version_two(rt: HostRuntime) {
    let alloc = rt.alloc();
    let file = ten_notices();
    assert!(rt;
        matches!(is_migrated(alloc, file), Ok(true)) || matches!(is_migrated(alloc, file), Ok(true))
    );
}

// Files, whether they had version 1, and whether they are the whole office, in their version and then in version 2 after they were opened again.
#[derive(Drop)]
struct Looked {
    disks: Disks,
    is_first: bool,
    is_whole: bool,
}

// The counts of stops that left an office of version 1 and of those that left one of version 2, and the files that were looked at last. Version 1 may have the
// table of late withdrawals. Most stops leave the same bytes as the previous one.
#[derive(Drop)]
struct Found {
    is_late: bool,
    first: u64,
    second: u64,
    last: Option<Looked>,
}

// The version of the office in these files.
fn version(alloc: Global, disks: &Disks) -> Result<Option<i64>, Wrong> {
    let files = disks.left_by_the_process(alloc)?;
    let mut database = Database::open(alloc, files).ok_or(Wrong::Unopened)?;
    Ok(database.number("SELECT version FROM office"))
}

// Whether these files are the whole office with these rows, in their version, and in version 2 after they were opened again.
fn look_over(alloc: Global, disks: Disks, is_late: bool, rows: &[u8]) -> Result<Looked, Wrong> {
    let is_first = matches!(version(alloc, &disks)?, Some(1));
    let is_there = if is_first {
        rows_wanted(alloc, &disks, is_late)?.as_slice() == rows
    } else {
        is_complete(alloc, &disks, rows)?
    };
    let again = reopened(alloc, disks.left_by_the_process(alloc)?)?;
    let is_whole = is_there && is_complete(alloc, &again, rows)?;
    Ok(Looked {
        disks,
        is_first,
        is_whole,
    })
}

impl Found {
    fn new(is_late: bool) -> Found {
        Found {
            is_late,
            first: 0,
            second: 0,
            last: None,
        }
    }

    fn is_last(&self, disks: &Disks) -> bool {
        match &self.last {
            Some(looked) => looked.disks.has_bytes_of(disks),
            None => false,
        }
    }

    // Looks at these files, unless they were looked at last, and counts them. Returns whether they are the whole office.
    fn count(&mut self, alloc: Global, disks: Disks, rows: &[u8]) -> Result<bool, Wrong> {
        if !self.is_last(&disks) {
            self.last = Some(look_over(alloc, disks, self.is_late, rows)?);
        }
        let Some(looked) = &self.last else {
            return Ok(false);
        };
        let is_whole = looked.is_whole;
        if looked.is_first {
            self.first = self.first.saturating_add(1);
        } else {
            self.second = self.second.saturating_add(1);
        }
        Ok(is_whole)
    }
}

// Opens these files on disks that may stop. Returns whether nothing was stopped, and the files that are left.
fn put_down(alloc: Global, disks: Disks) -> Result<(bool, Disks), Wrong> {
    match OfficeOnDisks::open(alloc, disks) {
        Ok(office) => Ok(office.put_down()),
        Err(Unopened::Unusable(disks)) => Ok((false, disks)),
        Err(Unopened::NotAnOffice(_)) => Err(Wrong::NotAnOffice),
    }
}

// Opens these files, and looks at those that a process and a machine leave then. Returns whether nothing was stopped.
fn is_whole(
    alloc: Global,
    found: &mut Found,
    disks: Disks,
    rows: &[u8],
    calls: u64,
) -> Result<bool, Wrong> {
    let (is_whole, disks) = put_down(alloc, disks)?;
    let of_process = found.count(alloc, disks.left_by_the_process(alloc)?, rows)?;
    let of_machine = found.count(alloc, disks.left_by_the_machine(alloc)?, rows)?;
    if of_process && of_machine {
        Ok(is_whole)
    } else {
        Err(Wrong::Stop(calls))
    }
}

// Opens the files again and again, on disks of which one accepts one more call each time, until nothing is stopped.
fn stops(alloc: Global, disks: &Disks, is_late: bool, of_log: bool) -> Result<Found, Wrong> {
    let rows = rows_wanted(alloc, disks, is_late)?;
    let mut found = Found::new(is_late);
    for calls in 0..2000 {
        let fused = if of_log {
            disks.fused(alloc, calls, u64::MAX)?
        } else {
            disks.fused(alloc, u64::MAX, calls)?
        };
        if is_whole(alloc, &mut found, fused, &rows, calls)? {
            return Ok(found);
        }
    }
    Err(Wrong::Stop(2000))
}

// Stops of the log's disk must leave the office in version 1 and in version 2, and those of the database file in version 2.
fn is_stopped(alloc: Global, file: Former) -> Result<bool, Wrong> {
    let disks = left(alloc, file)?;
    let log = stops(alloc, &disks, file.is_late, true)?;
    let db = stops(alloc, &disks, file.is_late, false)?;
    Ok(log.first > 0 && log.second > 0 && db.second > 0)
}

#[test]
fn its_opening_is_stopped(rt: HostRuntime) {
    let alloc = rt.alloc();
    let file = before_late_rules();
    assert!(rt;
        matches!(is_stopped(alloc, file), Ok(true)) || matches!(is_stopped(alloc, file), Ok(true))
    );
}

#[test]
fn its_opening_with_late_rules_is_stopped(rt: HostRuntime) {
    let alloc = rt.alloc();
    let file = running();
    assert!(rt;
        matches!(is_stopped(alloc, file), Ok(true)) || matches!(is_stopped(alloc, file), Ok(true))
    );
}
