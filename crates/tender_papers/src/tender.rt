//! Reads tender files.
ghost use Rattle.std.specs.Prelude.{◌≡◌, ◌≤◌, ◌*◌, ◌^◌, IfOk, length};
ghost use Rattle.std.specs.List.{count_by, list_all};
ghost use Rattle.csv.specs.Records.{fields_of};
ghost use Rattle.tender_papers.specs.Files.{csv_records};
ghost use Rattle.tender_papers.specs.Tender.{are_for, paper_below_head, corrected_of, corrections_of, is_for, is_tender_head, is_unit, is_wrong, item_record_of, item_of_four, paper_of, reading_of, stated_of};
ghost use Rattle.tender_papers.specs.Inside.Reading.{IsReading, records_left};
ghost use Rattle.tender_papers.specs.Inside.TenderParts.{corrected_amount, tender_ended_by};

use crate::records::{four_fields, next_record, records_of, says, total_in};
use csv::{ByteRecord, Reader};
use office_base::counts::CorrectionCount;
use office_base::reading::Reading;
use office_commands::item::Item;
use office_values::money::{AMOUNT_LIMIT, Amount, Total};
use office_values::text::Bytes;
use std::alloc::{AllocError, Global};
use std::marker::Model;

// The greatest unit price.
const UNIT_LIMIT: u64 = 1_000_000_000;

/// An item in a tender file: its name, quantity and unit price, and the total that the tenderer states.
#[derive(Drop)]
pub struct ItemRecord {
    pub name: Bytes,
    pub quantity: Total,
    pub unit: Total,
    pub total: Total,
}

// The content of a file that has the form of a tender: its item records, and the sum that it states.
#[derive(Drop)]
struct Paper {
    rows: Vec<ItemRecord>,
    stated: Total,
}

impl Model for Paper {
    ghost use Rattle.tender_papers.specs.Tender.{Paper};

    ghost Value = { Paper };

    ghost view = { λ p. (p.rows.items, p.stated) };
}

impl ItemRecord {
    // The quantity times the unit price.
    fn price(&self) -> u128
        ensures value { result ≡ self.now.quantity * self.now.unit }
        ensures bound { result ≤ 10 ^ 30 }
    {
        self.quantity.units() as u128 * self.unit.units() as u128
    }
}

// The item record in four fields.
fn item_in_fields(
    alloc: Global,
    name: &[u8],
    quantity: &[u8],
    unit: &[u8],
    total: &[u8],
) -> Result<Option<ItemRecord>, AllocError>
    ensures { IfOk result (λ found. found ≡ item_of_four (name.now, quantity.now, unit.now, total.now)) }
{
    let (Some(quantity), Some(unit), Some(total)) = (
        total_in(quantity),
        total_in(unit),
        total_in(total),
    ) else {
        return Ok(None);
    };
    let name = Bytes::from_vec(Vec::from_slice(alloc, name)?);
    Ok(Some(ItemRecord {
        name,
        quantity,
        unit,
        total,
    }))
}

// The item record in a record.
fn item_in(alloc: Global, row: &ByteRecord) -> Result<Option<ItemRecord>, AllocError>
    ensures { IfOk result (λ found. found ≡ item_record_of (fields_of row.now)) }
{
    match four_fields(row) {
        Some((name, quantity, unit, total)) => item_in_fields(alloc, name, quantity, unit, total),
        None => Ok(None),
    }
}

// The sum that a closing record states.
fn stated_in(row: &ByteRecord) -> Option<Total>
    ensures { result ≡ stated_of (fields_of row.now) }
{
    let (word, quantity, unit, stated) = four_fields(row)?;
    if word == b"TOTAL".as_slice() && quantity.is_empty() && unit.is_empty() {
        total_in(stated)
    } else {
        None
    }
}

// Whether a record is the head.
fn is_tender_head(row: &ByteRecord) -> bool
    ensures { result ≡ is_tender_head (fields_of row.now) }
{
    says(row, b"item", b"quantity", b"unit", b"total")
}

// The tender that ends with the record `row`. None if `row` states no sum, or if another record follows.
fn read_end(
    reader: &mut Reader<&[u8]>,
    row: &mut ByteRecord,
    rows: Vec<ItemRecord>,
) -> Result<Option<Paper>, AllocError>
    requires { IsReading reader.old }
    ensures { IfOk result (λ paper. paper ≡ tender_ended_by rows.items (fields_of row.old) (records_left reader.old)) }
{
    let Some(stated) = stated_in(row) else {
        return Ok(None);
    };
    if next_record(reader, row)? {
        return Ok(None);
    }
    Ok(Some(Paper { rows, stated }))
}

// The content of the records after the head. Each record is read into the same `row`.
fn read_body(
    alloc: Global,
    reader: &mut Reader<&[u8]>,
    row: &mut ByteRecord,
) -> Result<Option<Paper>, AllocError>
    requires { IsReading reader.old }
    ensures { IfOk result (λ paper. paper ≡ paper_below_head (records_left reader.old)) }
{
    let mut rows = Vec::new(alloc);
    'records: while next_record(reader, row)? {
        match item_in(alloc, row)? {
            Some(item) => rows.push(item)?,
            None => return read_end(reader, row, rows),
        }
    }
    Ok(None)
}

// The content of a file, if it has the form of a tender.
fn read_paper(alloc: Global, bytes: &[u8]) -> Result<Option<Paper>, AllocError>
    ensures { IfOk result (λ paper. paper ≡ paper_of (csv_records bytes.now)) }
{
    let mut reader = records_of(alloc, bytes);
    let mut row = ByteRecord::new(alloc);
    if !next_record(&mut reader, &mut row)? || !is_tender_head(&row) {
        return Ok(None);
    }
    read_body(alloc, &mut reader, &mut row)
}

// Whether an item record names this item and its quantity.
fn is_for(row: &ItemRecord, item: &Item) -> bool
    ensures { result ≡ is_for row.now item.now }
{
    row.name.as_slice() == item.id.as_bytes() && row.quantity.units() == item.quantity.get()
}

// Whether the item records are for these items, one for each, in their order.
fn are_for(rows: &[ItemRecord], items: &[Item]) -> bool
    ensures { result ≡ are_for rows.now items.now }
{
    let mut rows_left = rows;
    let mut items_left = items;
    'rows: while let Some((row, more_rows)) = rows_left.split_first() {
        let Some((item, more_items)) = items_left.split_first() else {
            return false;
        };
        if !is_for(row, item) {
            return false;
        }
        rows_left = more_rows;
        items_left = more_items;
    }
    items_left.is_empty()
}

// Whether each unit price is within its bound.
fn are_units(rows: &[ItemRecord]) -> bool
    ensures { result ≡ list_all is_unit rows.now }
{
    rows.iter().all(|row| row.unit.units() <= UNIT_LIMIT)
}

// The corrected sum, if it is within the bound of an amount. The loop ends as soon as the sum is above the bound, so no sum overflows.
fn corrected_amount(rows: &[ItemRecord]) -> Option<Amount>
    ensures { result ≡ corrected_amount rows.now }
{
    let mut sum = 0;
    for row in rows {
        sum += row.price();
        if sum > AMOUNT_LIMIT as u128 {
            return None;
        }
    }
    Amount::read(sum as u64)
}

// The number of item records whose stated total is wrong.
fn wrong_totals(rows: &[ItemRecord]) -> u64
    ensures value { result ≡ count_by is_wrong rows.now }
    ensures bound { result ≤ length rows.now }
{
    let mut wrong = 0;
    for row in rows {
        if row.total.units() as u128 != row.price() {
            wrong += 1;
        }
    }
    wrong
}

// The number of figures that the correction changes.
fn count_corrections(rows: &[ItemRecord], stated: Total, corrected: Amount) -> CorrectionCount
    requires { corrected ≡ corrected_of rows.now }
    ensures { result ≡ corrections_of rows.now stated }
{
    let wrong = wrong_totals(rows);
    if stated.units() == corrected.units() {
        CorrectionCount::read(wrong).unwrap()
    } else {
        CorrectionCount::read(wrong + 1).unwrap()
    }
}

/// The reading of a tender file for a lot with these items. The file is CSV (RFC 4180), separated by commas, with records that end in LF, CR LF or CR. One byte
/// order mark at the beginning is dropped. It is `Unreadable` unless record 1 is `item,quantity,unit,total`, the last record is `TOTAL`, two empty fields and a
/// number, and every other record is a field and three numbers. It is `Nonconforming` if the item records aren't for the items, one for each, in their order
/// and with their quantities. So it is if a unit price is above 10^9, or the sum of quantities times unit prices above 10^12. Otherwise it is `Priced` at that
/// sum.
pub fn read_tender(alloc: Global, bytes: &[u8], items: &[Item]) -> Result<Reading, AllocError>
    ensures { IfOk result (λ reading. reading ≡ reading_of items.now (csv_records bytes.now)) }
{
    let Some(paper) = read_paper(alloc, bytes)? else {
        return Ok(Reading::Unreadable);
    };
    if !are_for(&paper.rows, items) || !are_units(&paper.rows) {
        return Ok(Reading::Nonconforming);
    }
    let Some(corrected) = corrected_amount(&paper.rows) else {
        return Ok(Reading::Nonconforming);
    };
    let corrections = count_corrections(&paper.rows, paper.stated, corrected);
    Ok(Reading::Priced {
        stated: paper.stated,
        corrected,
        corrections,
    })
}
