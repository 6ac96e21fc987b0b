//! Reads budget files.
ghost use Rattle.std.specs.Prelude.{◌≡◌, ◌+◌, ◌<◌, ◌^◌, length, IfOk};
ghost use Rattle.csv.specs.Records.{fields_of};
ghost use Rattle.tender_papers.specs.Files.{csv_records};
ghost use Rattle.tender_papers.specs.Inside.Reading.{IsReading, records_left};
ghost use Rattle.tender_papers.specs.Budget.{Gives, budget_of, is_budget_head, budget_kind_of, row_of, row_of_four, rows_from};

use crate::records::{four_fields, next_record, records_of, says, total_in};
use csv::{ByteRecord, Reader};
use office_commands::budget::{BudgetKind, BudgetRow, BudgetRows};
use office_values::id::Id;
use office_values::text::TextLine;
use std::alloc::{AllocError, AllocFailed, Global};
use thiserror::Error;

/// The reason why a budget file gives no rows.
#[derive(Debug, Drop, Error)]
pub enum BudgetFault {
    /// There was too little memory.
    #[error("no memory")]
    NoMemory,
    /// The number of the first faulty record. The head is record 1, and an empty file is faulty at 1.
    #[error("row {0}")]
    BadRow(u32),
}

impl From<AllocError> for BudgetFault {
    ghost use Rattle.tender_papers.specs.declared.budget.BudgetFault.TheVariants.{NoMemory};

    ghost from_gives = { λ _ e. e ≡ NoMemory };

    fn from(_error: AllocError) -> BudgetFault {
        BudgetFault::NoMemory
    }
}

impl<T: Drop> From<AllocFailed<T>> for BudgetFault {
    ghost use Rattle.tender_papers.specs.declared.budget.BudgetFault.TheVariants.{NoMemory};

    ghost from_gives = { λ _ e. e ≡ NoMemory };

    fn from(_error: AllocFailed<T>) -> BudgetFault {
        BudgetFault::NoMemory
    }
}

// The kind of row that a word names.
fn kind_in(word: &[u8]) -> Option<BudgetKind>
    ensures { result ≡ budget_kind_of word.now }
{
    if word == b"add".as_slice() {
        Some(BudgetKind::Add)
    } else if word == b"cut".as_slice() {
        Some(BudgetKind::Cut)
    } else {
        None
    }
}

// The row in four fields.
fn row_in_fields(
    alloc: Global,
    line: &[u8],
    kind: &[u8],
    amount: &[u8],
    title: &[u8],
) -> Result<Option<BudgetRow>, AllocError>
    ensures { IfOk result (λ found.
        found ≡ row_of_four (line.now, kind.now, amount.now, title.now)) }
{
    let Some(line) = Id::read(line) else {
        return Ok(None);
    };
    let Some(kind) = kind_in(kind) else {
        return Ok(None);
    };
    let Some(amount) = total_in(amount) else {
        return Ok(None);
    };
    if amount.units() == 0 {
        return Ok(None);
    }
    let Some(title) = TextLine::read(alloc, title)? else {
        return Ok(None);
    };
    Ok(Some(BudgetRow {
        line,
        kind,
        amount,
        title,
    }))
}

// The row in a record.
fn row_in(alloc: Global, row: &ByteRecord) -> Result<Option<BudgetRow>, AllocError>
    ensures { IfOk result (λ found. found ≡ row_of (fields_of row.now)) }
{
    match four_fields(row) {
        Some((line, kind, amount, title)) => row_in_fields(alloc, line, kind, amount, title),
        None => Ok(None),
    }
}

// Whether a record is the head.
fn is_budget_head(row: &ByteRecord) -> bool
    ensures { result ≡ is_budget_head (fields_of row.now) }
{
    says(row, b"line", b"kind", b"amount", b"title")
}

// The rows after the head. Each record is read into the same `row`.
fn read_rows(
    alloc: Global,
    reader: &mut Reader<&[u8]>,
    row: &mut ByteRecord,
) -> Result<BudgetRows, BudgetFault>
    requires reading { IsReading reader.old }
    requires few { length (records_left reader.old) + 1 < 2 ^ 32 }
    ensures { Gives result (rows_from 2 (records_left reader.old)) }
{
    let mut rows = Vec::new(alloc);
    let mut number = 1;
    'records: while next_record(reader, row)? {
        number += 1;
        match row_in(alloc, row)? {
            Some(row) => rows.push(row)?,
            None => return Err(BudgetFault::BadRow(number)),
        }
    }
    Ok(BudgetRows::from_vec(rows))
}

/// The rows of a budget file. The file is CSV (RFC 4180), separated by commas, with records that end in LF, CR LF or CR. One byte order mark at the beginning
/// is dropped. Record 1 is `line,kind,amount,title`. Every other record is a row: an identifier, `add` or `cut`, a number from 1 to 10^15, and a line of text.
/// `BadRow` names the first record that has another form. `NoMemory` means too little memory.
pub fn read_budget(alloc: Global, text: &[u8]) -> Result<BudgetRows, BudgetFault>
    requires { length text.now < 2 ^ 32 }
    ensures { Gives result (budget_of (csv_records text.now)) }
{
    let mut reader = records_of(alloc, text);
    let mut row = ByteRecord::new(alloc);
    if !next_record(&mut reader, &mut row)? || !is_budget_head(&row) {
        return Err(BudgetFault::BadRow(1));
    }
    read_rows(alloc, &mut reader, &mut row)
}
