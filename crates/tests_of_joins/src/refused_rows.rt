//! Rows that no office writes. Each is read as a fault of the store.
use crate::values::{
    DIGEST, award_of, contract_of, entry_of, envelope_of, lot_of, notice_of, performance_of, row_of,
};
use office_base::records::{
    AwardRow, BatchRow, ClockRow, ContractRow, EntryRow, EnvelopeRow, LineRow, LotRow, NoticeRow,
    PerformanceRow, TendererRow,
};
use office_base::shelf::ShelfFault;
use office_tables::stored::Stored;
use office_tables::tables::notices::FormerNotice;
use office_tables::tables::office::FormerClock;
use sqlite_value::value::ValueRef;
use sqlite_value::value::ValueRef::{Blob, Int, Null, Text};
use std::alloc::Global;

fn is_refused<R: Stored + Drop>(alloc: Global, values: &[ValueRef<'_>]) -> bool {
    match row_of(alloc, values) {
        Some(row) => matches!(R::from_row(alloc, &row), Err(ShelfFault::Store)),
        None => false,
    }
}

// No identifier, a negative number, no number, too few values, and too many.
static LINES_REFUSED: [&[ValueRef<'static>]; 5] = [
    &[Text(b"10 00"), Text(b"Roads"), Int(1000), Int(395)],
    &[Text(b"1000"), Text(b"Roads"), Int(1000), Int(-1)],
    &[Text(b"1000"), Text(b"Roads"), Int(1000), Null],
    &[Text(b"1000"), Text(b"Roads"), Int(1000)],
    &[Text(b"1000"), Text(b"Roads"), Int(1000), Int(395), Null],
];

fn all_lines_are_refused(alloc: Global) -> bool {
    for line in &LINES_REFUSED {
        if !is_refused::<LineRow>(alloc, line) {
            return false;
        }
    }
    true
}

#[test]
fn refuses_words_and_numbers(rt: HostRuntime) {
    let alloc = rt.alloc();
    assert!(rt; all_lines_are_refused(alloc));
    let batch = [Text(b"B1"), Int(4_102_444_800), Int(500)];
    assert!(rt; is_refused::<BatchRow>(alloc, &batch));
    assert!(rt; is_refused::<ClockRow>(alloc, &[Int(1), Int(8), Int(3), Int(0)]));
    assert!(rt; is_refused::<FormerClock>(alloc, &[Int(2), Int(8), Int(3), Int(0)]));
    let short = DIGEST.split_at(31).0;
    let tenderer = [Text(b"T1"), Text(b"Acme"), Text(b"1 Road"), Blob(short)];
    assert!(rt; is_refused::<TendererRow>(alloc, &tenderer));
    let tenderer = [Text(b"T1"), Text(b"Acme"), Text(b"1 Road"), Text(DIGEST)];
    assert!(rt; is_refused::<TendererRow>(alloc, &tenderer));
    assert!(rt; is_refused::<NoticeRow>(alloc, &notice_of(b"Opened", Null, 70)));
    assert!(rt; is_refused::<NoticeRow>(alloc, &notice_of(b"opened", Null, -1)));
    assert!(rt; is_refused::<FormerNotice>(alloc, &notice_of(b"opened", Null, 0)));
    assert!(rt; is_refused::<PerformanceRow>(alloc, &performance_of(b"opened")));
    assert!(rt; is_refused::<AwardRow>(alloc, &award_of(b"sealed")));
    assert!(rt; is_refused::<ContractRow>(alloc, &contract_of(Null, Text(b"regularly"))));
    assert!(rt; is_refused::<EntryRow>(alloc, &entry_of(b"cut", Text(b""))));
}

// Readings and findings that a tender can't have.
static READINGS_REFUSED: [[ValueRef<'static>; 6]; 6] = [
    [Text(b"unreadable"), Int(1), Null, Null, Null, Null],
    [Text(b"priced"), Int(1), Int(1), Null, Null, Null],
    [Null, Null, Null, Int(0), Null, Null],
    [Text(b"Priced"), Int(1), Int(1), Int(0), Null, Null],
    [Null, Null, Null, Null, Int(2), Null],
    [Null, Null, Null, Null, Null, Int(101)],
];

fn all_readings_are_refused(alloc: Global) -> bool {
    for read_in in &READINGS_REFUSED {
        if !is_refused::<EnvelopeRow>(alloc, &envelope_of(b"opened", *read_in)) {
            return false;
        }
    }
    true
}

// Texts that the items of a lot can't have.
static ITEMS_REFUSED: [&[u8]; 7] = [
    b"",
    b"I1\t3\tPaving",
    b"I1\t03\tPaving\n",
    b"I1\t3\tPaving\r\n",
    b"I1\t3\n",
    b"I1\t0\tPaving\n",
    b"I1\t3\tPaving\nI1\t4\tKerbs\n",
];

fn all_items_are_refused(alloc: Global) -> bool {
    for items in &ITEMS_REFUSED {
        if !is_refused::<LotRow>(alloc, &lot_of(items, b"undecided")) {
            return false;
        }
    }
    true
}

#[test]
fn refuses_readings_and_items(rt: HostRuntime) {
    let alloc = rt.alloc();
    assert!(rt; all_readings_are_refused(alloc));
    assert!(rt; all_items_are_refused(alloc));
}
