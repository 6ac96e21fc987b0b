//! The rows of the ledger, one at a time. Each line, lot, contract and entry comes in the order of the keys; then the ledger to which they add up.
use office_ledger::joined::JoinedRow;
use office_store::shelf::SqlShelf;
use sqlite::Alter;
use std::alloc::Global;
use std::test::Fail;
use tests_sql_office::office::in_sql;
use tests_transcripts::session::{Wrong, played};
use tests_transcripts::setup::{MONEY, TENDERERS};

// Three lots on line 1000: A gets a contract of 100, B one of 50, and C reserves 30. Line 2000 has none.
static LOTS: &str = r#"
at 2026-01-05T09:00:00Z clerk POST /budget/B2
| line,kind,amount,title
| 2000,add,5,Parks
= any

at 2026-02-01T09:00:00Z clerk POST /notices/N1
> {"title":"Road repair","deadline":"2026-03-01T12:00:00Z","validity_days":90,"standstill_days":10,"criteria":"price","lots":[
> {"id":"A","title":"North","line":"1000","estimate":100,"security":0,"items":[{"id":"I1","title":"Paving","quantity":1}]},
> {"id":"B","title":"East","line":"1000","estimate":50,"security":0,"items":[{"id":"I1","title":"Paving","quantity":1}]},
> {"id":"C","title":"South","line":"1000","estimate":30,"security":0,"items":[{"id":"I1","title":"Paving","quantity":1}]}]}
= any

at 2026-02-02T10:00:00Z T1 POST /notices/N1/lots/A/tenders
| item,quantity,unit,total
| I1,1,100,100
| TOTAL,,,100
= any

at 2026-02-02T10:00:00Z T1 POST /notices/N1/lots/B/tenders
| item,quantity,unit,total
| I1,1,50,50
| TOTAL,,,50
= any

at 2026-03-01T12:00:00Z clerk POST /notices/N1/open
= any

at 2026-03-01T13:00:00Z clerk POST /tenders/1/examine
> {"responsive":true}
= any

at 2026-03-01T13:00:00Z clerk POST /tenders/2/examine
> {"responsive":true}
= any

at 2026-03-02T10:00:00Z clerk POST /notices/N1/lots/A/award
= any

at 2026-03-02T10:00:00Z clerk POST /notices/N1/lots/B/award
= any

at 2026-03-13T10:00:00Z clerk POST /awards/1/sign
= any

at 2026-03-13T10:00:00Z clerk POST /awards/2/sign
= any

at 2026-03-14T10:00:00Z clerk POST /contracts/1/pay
> {"id":"P2","amount":10}
= any

at 2026-03-14T10:00:00Z clerk POST /contracts/1/pay
> {"id":"P1","amount":10}
= any
"#;

static LEDGER: &str = r#"
at 2026-03-14T10:00:00Z public GET /ledger
= 200 text
| LEDGER
| line\tappropriation\tfree\treserved\tcontracted\tpaid
| 1000\t1000\t820\t30\t130\t20
| 2000\t5\t5\t0\t0\t0
"#;

// A row: its line, its lot with the reserved money, its contract with the signed amount, and its entry with its amount.
type Wanted = (
    &'static str,
    Option<(&'static str, u64)>,
    Option<(u64, u64)>,
    Option<(&'static str, u64)>,
);

const ROWS: [Wanted; 5] = [
    ("1000", Some(("A", 0)), Some((1, 100)), Some(("P1", 10))),
    ("1000", Some(("A", 0)), Some((1, 100)), Some(("P2", 10))),
    ("1000", Some(("B", 0)), Some((2, 50)), None),
    ("1000", Some(("C", 30)), None, None),
    ("2000", None, None, None),
];

// The lot of a row, with its reserved money.
fn lot_of(row: &JoinedRow) -> Option<(&str, u64)> {
    let lot = row.lot.as_ref()?;
    Some((lot.lot.as_str(), lot.reserved.units()))
}

// The contract of a row, with its signed amount.
fn contract_of(row: &JoinedRow) -> Option<(u64, u64)> {
    let contract = row.lot.as_ref()?.contract.as_ref()?;
    Some((contract.contract.get(), contract.signed.units()))
}

// The entry of a row, with its amount.
fn entry_of(row: &JoinedRow) -> Option<(&str, u64)> {
    let entry = row.lot.as_ref()?.contract.as_ref()?.entry.as_ref()?;
    Some((entry.entry.as_str(), entry.amount.get()))
}

fn is_row(row: &JoinedRow, wanted: &Wanted) -> bool {
    row.line.as_str() == wanted.0
        && lot_of(row) == wanted.1
        && contract_of(row) == wanted.2
        && entry_of(row) == wanted.3
}

// Whether these are the first rows of the ledger. The other rows are dropped.
fn are_first<S: Alter>(shelf: &mut SqlShelf<S>, wanted: &[Wanted]) -> bool {
    let Ok(mut rows) = shelf.ledger_rows() else {
        return false;
    };
    for wanted in wanted {
        match rows.next() {
            Ok(Some(row)) if is_row(&row, wanted) => {}
            _ => return false,
        }
    }
    true
}

// Whether these are all rows of the ledger. After the last one there is none, however often it is asked for.
fn are_all<S: Alter>(shelf: &mut SqlShelf<S>, wanted: &[Wanted]) -> bool {
    let Ok(mut rows) = shelf.ledger_rows() else {
        return false;
    };
    for wanted in wanted {
        match rows.next() {
            Ok(Some(row)) if is_row(&row, wanted) => {}
            _ => return false,
        }
    }
    matches!(rows.next(), Ok(None)) && matches!(rows.next(), Ok(None))
}

// Whether the office after LOTS has these rows, and still answers the ledger after two rows were taken and the others dropped.
fn has_rows(alloc: Global) -> Result<bool, Wrong> {
    let office = in_sql(alloc).ok_or(Wrong::Unopened)?;
    let mut office = played(alloc, office, 0, &[MONEY, TENDERERS, LOTS])?;
    if !are_all(&mut office.shelf, &ROWS) || !are_first(&mut office.shelf, &ROWS[..2]) {
        return Ok(false);
    }
    let mut office = played(alloc, office, 0, &[LEDGER])?;
    Ok(are_all(&mut office.shelf, &ROWS))
}

#[test]
fn rows_one_at_a_time(rt: HostRuntime) -> Result<(), Fail> {
    let alloc = rt.alloc();
    // Tries twice, because a test may refuse one allocation.
    let has = matches!(has_rows(alloc), Ok(true)) || matches!(has_rows(alloc), Ok(true));
    assert!(rt; has);
    Ok(())
}
