//! Rows as an office writes them, read and written again.
use crate::values::{
    DIGEST, award_of, contract_of, entry_of, envelope_of, lot_of, notice_of, performance_of,
    row_of, security_of,
};
use office_base::records::{
    AwardRow, BatchRow, ClockRow, CompiledRow, ContractRow, EntryRow, EnvelopeRow, LineRow, LotRow,
    NoticeRow, PerformanceRow, ReleaseRow, SealRow, SecurityRow, TendererRow,
};
use office_tables::items::items_text;
use office_tables::stored::{Stored, all};
use office_tables::tables::awards::award_values;
use office_tables::tables::batches::batch_values;
use office_tables::tables::compiled::compiled_values;
use office_tables::tables::contracts::contract_values;
use office_tables::tables::entries::entry_values;
use office_tables::tables::envelopes::envelope_values;
use office_tables::tables::lines::line_values;
use office_tables::tables::lots::lot_values;
use office_tables::tables::notices::{FormerNotice, notice_values};
use office_tables::tables::office::{FormerClock, clock_values};
use office_tables::tables::performances::performance_values;
use office_tables::tables::releases::release_values;
use office_tables::tables::seals::seal_values;
use office_tables::tables::securities::security_values;
use office_tables::tables::tenderers::tenderer_values;
use sqlite::Row;
use sqlite_value::value::ValueRef;
use sqlite_value::value::ValueRef::{Blob, Int, Null, Text};
use std::alloc::Global;

const ITEMS: &str = "I1\t3\tPaving, 2 m\nI-2.a\t1000000\tK\u{fc}bel \"x\"\n";

fn read<R: Stored>(alloc: Global, values: &[ValueRef<'_>]) -> Option<R> {
    R::from_row(alloc, &row_of(alloc, values)?).ok()
}

fn is_same(left: ValueRef<'_>, right: ValueRef<'_>) -> bool {
    match (left, right) {
        (Null, Null) => true,
        (Int(left), Int(right)) => left == right,
        (Text(left), Text(right)) => left == right,
        (Blob(left), Blob(right)) => left == right,
        _ => false,
    }
}

fn are_same(left: &[ValueRef<'_>], right: &[ValueRef<'_>]) -> bool {
    left.len() == right.len()
        && left
            .iter()
            .zip(right.iter())
            .all(|(left, right)| is_same(*left, *right))
}

fn is_line_back(alloc: Global, values: &[ValueRef<'_>]) -> bool {
    match read::<LineRow>(alloc, values) {
        Some(row) => are_same(&line_values(&row), values),
        None => false,
    }
}

fn is_batch_back(alloc: Global, values: &[ValueRef<'_>]) -> bool {
    match read::<BatchRow>(alloc, values) {
        Some(row) => are_same(&batch_values(&row), values),
        None => false,
    }
}

fn is_clock_back(alloc: Global, values: &[ValueRef<'_>]) -> bool {
    match read::<ClockRow>(alloc, values) {
        Some(row) => are_same(&clock_values(&row), values),
        None => false,
    }
}

// Whether a clock of version 1 is read as one, and equals that of version 2 except for the version.
fn is_former_clock_back(alloc: Global, values: &[ValueRef<'_>], second: &[ValueRef<'_>]) -> bool {
    match read::<FormerClock>(alloc, values) {
        Some(former) => are_same(&clock_values(&former.row), second),
        None => false,
    }
}

fn is_tenderer_back(alloc: Global, values: &[ValueRef<'_>]) -> bool {
    match read::<TendererRow>(alloc, values) {
        Some(row) => are_same(&tenderer_values(&row), values),
        None => false,
    }
}

fn is_notice_back(alloc: Global, values: &[ValueRef<'_>]) -> bool {
    match read::<NoticeRow>(alloc, values) {
        Some(row) => are_same(&notice_values(&row), values),
        None => false,
    }
}

// Whether a notice without its last value is one of version 1, and equals this one if that value is 0.
fn is_former_notice_back(alloc: Global, values: &[ValueRef<'_>]) -> bool {
    let Some((_, former)) = values.split_last() else {
        return false;
    };
    match read::<FormerNotice>(alloc, former) {
        Some(former) => are_same(&notice_values(&former.row), values),
        None => false,
    }
}

fn is_performance_back(alloc: Global, values: &[ValueRef<'_>]) -> bool {
    match read::<PerformanceRow>(alloc, values) {
        Some(row) => are_same(&performance_values(&row), values),
        None => false,
    }
}

fn is_seal_back(alloc: Global, values: &[ValueRef<'_>]) -> bool {
    match read::<SealRow>(alloc, values) {
        Some(row) => are_same(&seal_values(&row), values),
        None => false,
    }
}

fn is_security_back(alloc: Global, values: &[ValueRef<'_>]) -> bool {
    match read::<SecurityRow>(alloc, values) {
        Some(row) => are_same(&security_values(&row), values),
        None => false,
    }
}

fn is_award_back(alloc: Global, values: &[ValueRef<'_>]) -> bool {
    match read::<AwardRow>(alloc, values) {
        Some(row) => are_same(&award_values(&row), values),
        None => false,
    }
}

fn is_contract_back(alloc: Global, values: &[ValueRef<'_>]) -> bool {
    match read::<ContractRow>(alloc, values) {
        Some(row) => are_same(&contract_values(&row), values),
        None => false,
    }
}

fn is_entry_back(alloc: Global, values: &[ValueRef<'_>]) -> bool {
    match read::<EntryRow>(alloc, values) {
        Some(row) => are_same(&entry_values(&row), values),
        None => false,
    }
}

fn is_release_back(alloc: Global, values: &[ValueRef<'_>]) -> bool {
    match read::<ReleaseRow>(alloc, values) {
        Some(row) => are_same(&release_values(&row), values),
        None => false,
    }
}

fn is_compiled_back(alloc: Global, values: &[ValueRef<'_>]) -> bool {
    match read::<CompiledRow>(alloc, values) {
        Some(row) => are_same(&compiled_values(&row), values),
        None => false,
    }
}

fn has_values(alloc: Global, lot: &LotRow, values: &[ValueRef<'_>]) -> bool {
    match items_text(alloc, &lot.items) {
        Ok(items) => are_same(&lot_values(lot, items.as_slice()), values),
        Err(_) => false,
    }
}

fn is_lot_back(alloc: Global, values: &[ValueRef<'_>]) -> bool {
    match read::<LotRow>(alloc, values) {
        Some(lot) => has_values(alloc, &lot, values),
        None => false,
    }
}

#[test]
fn budgets_come_back(rt: HostRuntime) {
    let alloc = rt.alloc();
    assert!(rt; is_line_back(alloc, &[Text(b"1000"), Text(b"Roads"), Int(1000), Int(395)]));
    assert!(rt; is_batch_back(alloc, &[Text(b"B-1"), Int(4_102_444_799), Int(500)]));
    let clock = [Int(2), Int(8), Int(3), Int(0)];
    assert!(rt; is_clock_back(alloc, &clock));
    assert!(rt; is_former_clock_back(alloc, &[Int(1), Int(8), Int(3), Int(0)], &clock));
}

// States of notices, each with the moment of its opening.
static NOTICES: [(&[u8], ValueRef<'static>); 3] = [
    (b"receiving", Null),
    (b"opened", Int(0)),
    (b"cancelled", Int(7)),
];

fn all_notices_come_back(alloc: Global) -> bool {
    for (state, opened) in &NOTICES {
        if !is_notice_back(alloc, &notice_of(state, *opened, 70))
            || !is_former_notice_back(alloc, &notice_of(state, *opened, 0))
        {
            return false;
        }
    }
    true
}

// States of lots.
static LOTS: [&[u8]; 5] = [
    b"undecided",
    b"awarded",
    b"contracted",
    b"unsuccessful",
    b"cancelled",
];

fn all_lots_come_back(alloc: Global) -> bool {
    for state in &LOTS {
        if !is_lot_back(alloc, &lot_of(ITEMS.as_bytes(), state)) {
            return false;
        }
    }
    true
}

#[test]
fn notices_come_back(rt: HostRuntime) {
    let alloc = rt.alloc();
    let tenderer = [Text(b"T1"), Text(b"Acme"), Text(b"1 Road"), Blob(DIGEST)];
    assert!(rt; is_tenderer_back(alloc, &tenderer));
    assert!(rt; all_notices_come_back(alloc));
    assert!(rt; all_lots_come_back(alloc));
}

// Whether the rows are one tender with these values.
fn are_envelope(alloc: Global, rows: &[Row], values: &[ValueRef<'_>]) -> bool {
    match all::<EnvelopeRow>(alloc, rows) {
        Ok(found) => match found.as_slice() {
            [envelope] => are_same(&envelope_values(envelope), values),
            _ => false,
        },
        Err(_) => false,
    }
}

fn is_envelope_back(alloc: Global, values: &[ValueRef<'_>]) -> bool {
    match row_of(alloc, values) {
        Some(row) => are_envelope(alloc, &[row], values),
        None => false,
    }
}

#[test]
fn envelopes_come_back(rt: HostRuntime) {
    let alloc = rt.alloc();
    let unread = [Null, Null, Null, Null, Null, Null];
    assert!(rt; is_envelope_back(alloc, &envelope_of(b"sealed", unread)));
    let unreadable = [Text(b"unreadable"), Null, Null, Null, Null, Null];
    assert!(rt; is_envelope_back(alloc, &envelope_of(b"withdrawn", unreadable)));
    let nonconforming = [Text(b"nonconforming"), Null, Null, Null, Int(0), Null];
    assert!(rt; is_envelope_back(alloc, &envelope_of(b"returned", nonconforming)));
    let priced = [Text(b"priced"), Int(620), Int(600), Int(0), Int(1), Int(40)];
    assert!(rt; is_envelope_back(alloc, &envelope_of(b"opened", priced)));
}

// States of securities.
static SECURITIES: [&[u8]; 3] = [b"held", b"returned", b"forfeited"];

fn all_securities_come_back(alloc: Global) -> bool {
    for state in &SECURITIES {
        if !is_security_back(alloc, &security_of(state)) {
            return false;
        }
    }
    true
}

#[test]
fn seals_and_securities_come_back(rt: HostRuntime) {
    let alloc = rt.alloc();
    assert!(rt; is_seal_back(alloc, &[Int(1), Blob(b"\x00price,600")]));
    assert!(rt; all_securities_come_back(alloc));
}

// States of awards.
static AWARDS: [&[u8]; 4] = [b"active", b"failed", b"cancelled", b"signed"];

fn all_awards_come_back(alloc: Global) -> bool {
    for state in &AWARDS {
        if !is_award_back(alloc, &award_of(state)) {
            return false;
        }
    }
    true
}

// The moments at which contracts ended, each with the way in which it ended.
static CONTRACTS: [(ValueRef<'static>, ValueRef<'static>); 3] = [
    (Null, Null),
    (Int(9), Text(b"regular")),
    (Int(9), Text(b"default")),
];

fn all_contracts_come_back(alloc: Global) -> bool {
    for (ended, how) in &CONTRACTS {
        if !is_contract_back(alloc, &contract_of(*ended, *how)) {
            return false;
        }
    }
    true
}

// Kinds of entries, each with a rationale.
static ENTRIES: [(&[u8], ValueRef<'static>); 3] = [
    (b"raise", Text(b"More sand")),
    (b"cut", Text(b"Less sand")),
    (b"payment", Null),
];

fn all_entries_come_back(alloc: Global) -> bool {
    for (kind, rationale) in &ENTRIES {
        if !is_entry_back(alloc, &entry_of(kind, *rationale)) {
            return false;
        }
    }
    true
}

fn all_performances_come_back(alloc: Global) -> bool {
    for state in &SECURITIES {
        if !is_performance_back(alloc, &performance_of(state)) {
            return false;
        }
    }
    true
}

#[test]
fn contracts_come_back(rt: HostRuntime) {
    let alloc = rt.alloc();
    assert!(rt; all_awards_come_back(alloc));
    assert!(rt; all_contracts_come_back(alloc));
    assert!(rt; all_entries_come_back(alloc));
    assert!(rt; all_performances_come_back(alloc));
}

#[test]
fn releases_come_back(rt: HostRuntime) {
    let alloc = rt.alloc();
    let release = [Text(b"N1"), Int(2), Int(5), Text(b"{\"date\":\"\"}")];
    assert!(rt; is_release_back(alloc, &release));
    assert!(rt; is_compiled_back(alloc, &[Text(b"N1"), Text(b"{}")]));
}
