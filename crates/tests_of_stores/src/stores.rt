//! Offices on disks in memory, and the content of their files.
use crate::changes::copied;
use office_base::puts::Put;
use std::alloc::Global;
use tender_papers::ledger::ledger_text;
use tests_disks::database::Database;
use tests_disks::disks::Disks;
use tests_disks::office::{OfficeOnDisks, Unopened};
use tests_transcripts::session::Wrong;

/// The office in these files, or a new one.
pub(crate) fn opened(alloc: Global, disks: Disks) -> Result<OfficeOnDisks, Wrong> {
    match OfficeOnDisks::open(alloc, disks) {
        Ok(office) => Ok(office),
        Err(Unopened::NotAnOffice(_)) => Err(Wrong::NotAnOffice),
        Err(Unopened::Unusable(_)) => Err(Wrong::Unopened),
    }
}

/// The files of the office in these files, or of a new one, after it was opened and closed.
pub(crate) fn reopened(alloc: Global, disks: Disks) -> Result<Disks, Wrong> {
    opened(alloc, disks)?.close().ok_or(Wrong::Unopened)
}

/// A new office's files.
pub(crate) fn made(alloc: Global) -> Result<Disks, Wrong> {
    reopened(alloc, Disks::blank(alloc))
}

/// The files of this office after a command's changes.
pub(crate) fn changed(alloc: Global, disks: Disks, puts: &[Put]) -> Result<Disks, Wrong> {
    let mut office = opened(alloc, disks)?;
    if !office.apply(copied(alloc, puts)?) {
        return Err(Wrong::Unopened);
    }
    office.close().ok_or(Wrong::Unopened)
}

/// The files of an office after the changes of these commands. It is closed and opened between them.
pub(crate) fn all_changed(
    alloc: Global,
    mut disks: Disks,
    changes: &[Vec<Put>],
) -> Result<Disks, Wrong> {
    for puts in changes {
        disks = changed(alloc, disks, puts)?;
    }
    Ok(disks)
}

/// Its version and clock, and its notices, in the form of version 2.
pub(crate) static SECOND: [&str; 2] = [
    "SELECT * FROM office ORDER BY version",
    "SELECT * FROM notices_2 ORDER BY notice",
];

// The tables that are the same in every version, each in the order of its keys.
static OTHERS: [&str; 12] = [
    "SELECT * FROM lines ORDER BY line",
    "SELECT * FROM batches ORDER BY batch",
    "SELECT * FROM tenderers ORDER BY tenderer",
    "SELECT * FROM lots ORDER BY notice, lot",
    "SELECT * FROM envelopes ORDER BY receipt",
    "SELECT * FROM seals ORDER BY receipt",
    "SELECT * FROM securities ORDER BY security",
    "SELECT * FROM awards ORDER BY award",
    "SELECT * FROM contracts ORDER BY contract",
    "SELECT * FROM entries ORDER BY contract, entry",
    "SELECT * FROM releases ORDER BY notice, seq",
    "SELECT * FROM compiled ORDER BY notice",
];

/// The tables that version 1 may not have, and the one that version 2 keeps empty.
pub(crate) static LATER: [&str; 3] = [
    "SELECT * FROM late_rules ORDER BY notice",
    "SELECT * FROM performance ORDER BY contract",
    "SELECT * FROM notices ORDER BY notice",
];

// The text of an office's ledger.
fn ledger_of(alloc: Global, office: &mut OfficeOnDisks) -> Result<Vec<u8>, Wrong> {
    let rows = office.ledger().ok_or(Wrong::Unopened)?;
    Ok(ledger_text(alloc, &rows)?.into_vec())
}

// Appends all rows that answer these questions, with a semicolon before those of each.
fn append_answers(
    bytes: &mut Vec<u8>,
    database: &mut Database,
    questions: &[&str],
) -> Result<(), Wrong> {
    for question in questions {
        bytes.extend_from_slice(b";")?;
        database.append_all(bytes, question).ok_or(Wrong::Unopened)?;
    }
    Ok(())
}

// Appends all rows of these files: those of the first questions, those of the tables that are the same in every version, and those of the last questions.
fn append_rows(
    alloc: Global,
    bytes: &mut Vec<u8>,
    disks: Disks,
    first: &[&str],
    last: &[&str],
) -> Result<(), Wrong> {
    let mut database = Database::open(alloc, disks).ok_or(Wrong::Unopened)?;
    append_answers(bytes, &mut database, first)?;
    append_answers(bytes, &mut database, OTHERS.as_slice())?;
    append_answers(bytes, &mut database, last)
}

/// All rows of these files, whether or not they are an office's. The first and the last questions ask for rows that differ by version. The rows between them
/// are of the tables that are the same in every version.
pub(crate) fn answers_in(
    alloc: Global,
    disks: Disks,
    first: &[&str],
    last: &[&str],
) -> Result<Vec<u8>, Wrong> {
    let mut bytes = Vec::new(alloc);
    append_rows(alloc, &mut bytes, disks, first, last)?;
    Ok(bytes)
}

/// The text of the ledger, followed by all rows of the office.
pub(crate) fn rows_in(alloc: Global, disks: Disks) -> Result<Vec<u8>, Wrong> {
    let mut office = opened(alloc, disks)?;
    let mut bytes = ledger_of(alloc, &mut office)?;
    let disks = office.close().ok_or(Wrong::Unopened)?;
    append_rows(
        alloc,
        &mut bytes,
        disks,
        SECOND.as_slice(),
        LATER.as_slice(),
    )?;
    Ok(bytes)
}
