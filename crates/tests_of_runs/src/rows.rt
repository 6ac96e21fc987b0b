//! All rows of an office as bytes, so that two offices are compared record by record. The bytes of a record are its row of SQL values, which no other record
//! has (`office_tables`).
use office_base::records::{
    AwardRow, BatchRow, CompiledRow, ContractRow, EntryRow, EnvelopeRow, LateRow, LineRow, LotRow,
    NoticeRow, PerformanceRow, ReleaseRow, SealRow, SecurityRow, TendererRow,
};
use office_base::shelf::Lookups;
use office_tables::items::items_text;
use office_tables::tables::awards::award_values;
use office_tables::tables::batches::batch_values;
use office_tables::tables::compiled::compiled_values;
use office_tables::tables::contracts::contract_values;
use office_tables::tables::entries::entry_values;
use office_tables::tables::envelopes::envelope_values;
use office_tables::tables::late_rules::late_values;
use office_tables::tables::lines::line_values;
use office_tables::tables::lots::lot_values;
use office_tables::tables::notices::notice_values;
use office_tables::tables::office::clock_values;
use office_tables::tables::performances::performance_values;
use office_tables::tables::releases::release_values;
use office_tables::tables::seals::seal_values;
use office_tables::tables::securities::security_values;
use office_tables::tables::tenderers::tenderer_values;
use office_values::given::{AskedNumber, asked};
use office_values::id::Id;
use office_values::refusal::Refusal;
use sqlite_value::value::ValueRef;
use std::alloc::{AllocError, Global};

// Rows as bytes. Each part follows a byte for its kind and its length, so other rows have other bytes.
#[derive(Drop)]
struct RowBytes {
    alloc: Global,
    bytes: Vec<u8>,
}

// A record that is written as its row.
trait AsRow {
    fn append(&self, rows: &mut RowBytes) -> Result<(), AllocError>;
}

impl RowBytes {
    fn put(&mut self, kind: u8, part: &[u8]) -> Result<(), AllocError> {
        self.bytes.push(kind)?;
        self.bytes.extend_from_slice(&part.len().to_be_bytes())?;
        self.bytes.extend_from_slice(part)
    }

    fn put_value(&mut self, value: ValueRef<'_>) -> Result<(), AllocError> {
        match value {
            ValueRef::Null => self.put(b'-', b""),
            ValueRef::Int(number) => self.put(b'i', &number.to_be_bytes()),
            ValueRef::Real(_) => self.put(b'r', b""),
            ValueRef::Text(text) => self.put(b't', text),
            ValueRef::Blob(blob) => self.put(b'b', blob),
        }
    }

    // A row of a table.
    fn put_row(&mut self, table: &[u8], values: &[ValueRef<'_>]) -> Result<(), AllocError> {
        self.put(b'\n', table)?;
        for value in values {
            self.put_value(*value)?;
        }
        Ok(())
    }

    fn put_all<R: AsRow + Drop>(&mut self, rows: Vec<R>) -> Result<(), AllocError> {
        for row in rows.as_slice() {
            row.append(self)?;
        }
        Ok(())
    }

    fn put_perhaps<R: AsRow + Drop>(&mut self, row: Option<R>) -> Result<(), AllocError> {
        match row {
            Some(row) => row.append(self),
            None => Ok(()),
        }
    }
}

impl AsRow for LineRow {
    fn append(&self, rows: &mut RowBytes) -> Result<(), AllocError> {
        rows.put_row(b"lines", &line_values(self))
    }
}

impl AsRow for BatchRow {
    fn append(&self, rows: &mut RowBytes) -> Result<(), AllocError> {
        rows.put_row(b"batches", &batch_values(self))
    }
}

impl AsRow for TendererRow {
    fn append(&self, rows: &mut RowBytes) -> Result<(), AllocError> {
        rows.put_row(b"tenderers", &tenderer_values(self))
    }
}

impl AsRow for NoticeRow {
    fn append(&self, rows: &mut RowBytes) -> Result<(), AllocError> {
        rows.put_row(b"notices", &notice_values(self))
    }
}

impl AsRow for LotRow {
    fn append(&self, rows: &mut RowBytes) -> Result<(), AllocError> {
        let items = items_text(rows.alloc, &self.items)?;
        rows.put_row(b"lots", &lot_values(self, items.as_slice()))
    }
}

impl AsRow for EnvelopeRow {
    fn append(&self, rows: &mut RowBytes) -> Result<(), AllocError> {
        rows.put_row(b"envelopes", &envelope_values(self))
    }
}

impl AsRow for SealRow {
    fn append(&self, rows: &mut RowBytes) -> Result<(), AllocError> {
        rows.put_row(b"seals", &seal_values(self))
    }
}

impl AsRow for SecurityRow {
    fn append(&self, rows: &mut RowBytes) -> Result<(), AllocError> {
        rows.put_row(b"securities", &security_values(self))
    }
}

impl AsRow for AwardRow {
    fn append(&self, rows: &mut RowBytes) -> Result<(), AllocError> {
        rows.put_row(b"awards", &award_values(self))
    }
}

impl AsRow for ContractRow {
    fn append(&self, rows: &mut RowBytes) -> Result<(), AllocError> {
        rows.put_row(b"contracts", &contract_values(self))
    }
}

impl AsRow for EntryRow {
    fn append(&self, rows: &mut RowBytes) -> Result<(), AllocError> {
        rows.put_row(b"entries", &entry_values(self))
    }
}

impl AsRow for ReleaseRow {
    fn append(&self, rows: &mut RowBytes) -> Result<(), AllocError> {
        rows.put_row(b"releases", &release_values(self))
    }
}

impl AsRow for CompiledRow {
    fn append(&self, rows: &mut RowBytes) -> Result<(), AllocError> {
        rows.put_row(b"compiled", &compiled_values(self))
    }
}

impl AsRow for LateRow {
    fn append(&self, rows: &mut RowBytes) -> Result<(), AllocError> {
        rows.put_row(b"late", &late_values(self))
    }
}

impl AsRow for PerformanceRow {
    fn append(&self, rows: &mut RowBytes) -> Result<(), AllocError> {
        rows.put_row(b"performances", &performance_values(self))
    }
}

// The budget file that the first line of a block imports.
fn batch_in(line: &str) -> Option<Id> {
    let (_, name) = line.split_once(" POST /budget/")?;
    Id::read(name.as_bytes())
}

fn put_batch_in<H: Lookups>(rows: &mut RowBytes, shelf: &mut H, line: &str) -> Result<(), Refusal> {
    if let Some(batch) = batch_in(line) {
        rows.put_perhaps(shelf.get_batch(&batch)?)?;
    }
    Ok(())
}

// The lines, the tenderers, the clock, and the budget files that these blocks import, which no list has.
fn put_office<H: Lookups>(rows: &mut RowBytes, shelf: &mut H, blocks: &str) -> Result<(), Refusal> {
    rows.put_all(shelf.list_lines()?)?;
    rows.put_all(shelf.list_tenderers_after(None, u32::MAX)?)?;
    rows.put_row(b"office", &clock_values(&shelf.get_clock()?))?;
    for line in blocks.lines() {
        put_batch_in(rows, shelf, line)?;
    }
    Ok(())
}

fn put_tenders<H: Lookups>(rows: &mut RowBytes, shelf: &mut H, notice: &Id) -> Result<(), Refusal> {
    rows.put_all(shelf.list_securities_of_notice(notice)?)?;
    let tenders = shelf.list_envelopes_of_notice(notice)?;
    for tender in tenders.as_slice() {
        rows.put_perhaps(shelf.get_seal(asked(tender.receipt))?)?;
    }
    rows.put_all(tenders)?;
    Ok(())
}

// The entries of a contract and its performance security.
fn put_of_contract<H: Lookups>(
    rows: &mut RowBytes,
    shelf: &mut H,
    contract: AskedNumber,
) -> Result<(), Refusal> {
    rows.put_all(shelf.list_entries_of_contract(contract)?)?;
    rows.put_perhaps(shelf.get_performance(contract)?)?;
    Ok(())
}

fn put_awards<H: Lookups>(rows: &mut RowBytes, shelf: &mut H, notice: &Id) -> Result<(), Refusal> {
    rows.put_all(shelf.list_awards_of_notice(notice)?)?;
    let contracts = shelf.list_contracts_of_notice(notice)?;
    for contract in contracts.as_slice() {
        put_of_contract(rows, shelf, asked(contract.contract))?;
    }
    rows.put_all(contracts)?;
    Ok(())
}

// The lots of a notice, its publications, and whether its tenders may be withdrawn late.
fn put_of_notice<H: Lookups>(
    rows: &mut RowBytes,
    shelf: &mut H,
    notice: &Id,
) -> Result<(), Refusal> {
    rows.put_all(shelf.list_lots_of_notice(notice)?)?;
    rows.put_all(shelf.list_releases_of_notice(notice)?)?;
    rows.put_perhaps(shelf.get_compiled(notice)?)?;
    rows.put_perhaps(shelf.get_late(notice)?)?;
    put_tenders(rows, shelf, notice)?;
    put_awards(rows, shelf, notice)
}

fn put_notices<H: Lookups>(rows: &mut RowBytes, shelf: &mut H) -> Result<(), Refusal> {
    let notices = shelf.list_notices_after(None, u32::MAX)?;
    for notice in notices.as_slice() {
        put_of_notice(rows, shelf, &notice.notice)?;
    }
    rows.put_all(notices)?;
    Ok(())
}

/// All rows of an office to which only these blocks were sent. Budget files are looked up by the names in the blocks, because no list has them. Rows of a
/// notice, a tender or a contract are found through it. So a row isn't seen if its notice, tender or contract is missing.
pub(crate) fn rows_of<H: Lookups>(
    alloc: Global,
    shelf: &mut H,
    blocks: &str,
) -> Result<Vec<u8>, Refusal> {
    let mut rows = RowBytes {
        alloc,
        bytes: Vec::new(alloc),
    };
    put_office(&mut rows, shelf, blocks)?;
    put_notices(&mut rows, shelf)?;
    Ok(rows.bytes)
}
