//! The ledger that is added up from joined rows.
use office_base::ledger::{ContractSums, LedgerRow, LineAmounts};
use office_base::records::EntryKind;
use office_base::shelf::ShelfFault;
use office_commands::amounts::EntryAmount;
use office_ledger::amount_list::AmountList;
use office_ledger::joined::{JoinedContract, JoinedEntry, JoinedLot, JoinedRow};
use office_ledger::ledger_sums::LedgerSums;
use office_values::given::GivenNumber;
use office_values::id::Id;
use office_values::money::{Amount, Total};
use std::alloc::Global;

fn entry(name: &str, kind: EntryKind, amount: u64) -> Option<JoinedEntry> {
    Some(JoinedEntry {
        entry: Id::read(name.as_bytes())?,
        kind,
        amount: EntryAmount::read(amount)?,
    })
}

fn contract(number: u64, signed: u64, entry: Option<JoinedEntry>) -> Option<JoinedContract> {
    Some(JoinedContract {
        contract: GivenNumber::read(number)?,
        signed: Total::read(signed)?,
        released: Total::ZERO,
        entry,
    })
}

fn lot(name: &str, reserved: u64, contract: Option<JoinedContract>) -> Option<JoinedLot> {
    Some(JoinedLot {
        notice: Id::read(b"N1")?,
        lot: Id::read(name.as_bytes())?,
        reserved: Amount::read(reserved)?,
        contract,
    })
}

fn row(line: &str, appropriation: u64, lot: Option<JoinedLot>) -> Option<JoinedRow> {
    Some(JoinedRow {
        line: Id::read(line.as_bytes())?,
        appropriation: Total::read(appropriation)?,
        free: Total::ZERO,
        lot,
    })
}

// The ledger of these rows. None if a row is missing.
fn added_up(
    alloc: Global,
    rows: &[Option<JoinedRow>],
) -> Option<Result<Vec<LedgerRow>, ShelfFault>> {
    let mut sums = LedgerSums::new(alloc);
    for row in rows {
        let Some(row) = row else {
            return None;
        };
        if let Err(fault) = sums.take(*row) {
            return Some(Err(fault));
        }
    }
    Some(sums.finish())
}

// A line of the ledger, with its appropriation and its reserved, contracted and paid money.
type Told = (&'static str, [u64; 4]);

fn is_told(row: &LedgerRow, told: &Told) -> bool {
    let pots = &row.pots;
    let (appropriation, reserved) = (pots.appropriation.units(), pots.reserved.units());
    let (contracted, paid) = (pots.contracted.units(), pots.paid.units());
    row.line.as_str() == told.0 && [appropriation, reserved, contracted, paid] == told.1
}

fn are_told(rows: &[LedgerRow], told: &[Told]) -> bool {
    if rows.len() != told.len() {
        return false;
    }
    for (row, told) in rows.iter().zip(told.iter()) {
        if !is_told(row, told) {
            return false;
        }
    }
    true
}

// Whether the ledger of these rows is this one.
fn is_ledger(alloc: Global, rows: &[Option<JoinedRow>], told: &[Told]) -> bool {
    match added_up(alloc, rows) {
        Some(Ok(ledger)) => are_told(ledger.as_slice(), told),
        _ => false,
    }
}

// The sums of the rows of two lines.
static LEDGER: [Told; 2] = [("1000", [1000, 30, 130, 20]), ("2000", [50, 0, 0, 0])];

#[test]
fn a_join_is_added_up(rt: HostRuntime) {
    let payment = EntryKind::Payment;
    let rows = [
        row(
            "1000",
            1000,
            lot("A", 0, contract(1, 100, entry("P1", payment, 10))),
        ),
        row(
            "1000",
            1000,
            lot("A", 0, contract(1, 100, entry("P2", payment, 10))),
        ),
        row("1000", 1000, lot("B", 0, contract(2, 50, None))),
        row("1000", 1000, lot("C", 30, None)),
        row("2000", 50, None),
    ];
    assert!(rt; is_ledger(rt.alloc(), &rows, &LEDGER));
}

#[test]
fn a_contract_is_overdrawn(rt: HostRuntime) {
    let rows = [
        row(
            "1000",
            1000,
            lot(
                "A",
                0,
                contract(1, 100, entry("P1", EntryKind::Payment, 101)),
            ),
        ),
        row("2000", 50, None),
    ];
    assert!(rt; matches!(added_up(rt.alloc(), &rows), Some(Err(ShelfFault::Store))));
}

// The outstanding amount of a contract that was cut by more than its signed value, and then raised.
static RAISED_AND_CUT: [Told; 1] = [("1000", [1000, 0, 30, 0])];

#[test]
fn raises_and_cuts_count(rt: HostRuntime) {
    let rows = [
        row(
            "1000",
            1000,
            lot("A", 0, contract(1, 100, entry("E1", EntryKind::Cut, 120))),
        ),
        row(
            "1000",
            1000,
            lot("A", 0, contract(1, 100, entry("E2", EntryKind::Raise, 50))),
        ),
    ];
    assert!(rt; is_ledger(rt.alloc(), &rows, &RAISED_AND_CUT));
}

// The reserved amounts of the lots in these rows, and the amounts of their contracts. None if a row is missing.
fn listed(alloc: Global, rows: &[Option<JoinedLot>]) -> Option<Result<LineAmounts, ShelfFault>> {
    let mut list = AmountList::new(alloc);
    for row in rows {
        let Some(row) = row else {
            return None;
        };
        if let Err(fault) = list.take(*row) {
            return Some(Err(fault));
        }
    }
    Some(list.finish())
}

fn is_sum(sums: &ContractSums, wanted: [u128; 3]) -> bool {
    [sums.gained, sums.lost, sums.paid] == wanted
}

// Whether three lots have reserved these amounts, and two contracts have those.
pub(crate) fn are_amounts(amounts: &LineAmounts) -> bool {
    let reserved = match amounts.reserved.as_slice() {
        [first, second, third] => [first.units(), second.units(), third.units()] == [7, 0, 30],
        _ => false,
    };
    match amounts.contracts.as_slice() {
        [first, second] => {
            reserved && is_sum(first, [100, 20, 20]) && is_sum(second, [50, 0, 0])
        }
        _ => false,
    }
}

fn are_listed(alloc: Global, rows: &[Option<JoinedLot>]) -> bool {
    match listed(alloc, rows) {
        Some(Ok(amounts)) => are_amounts(&amounts),
        _ => false,
    }
}

#[test]
fn amounts_are_listed(rt: HostRuntime) {
    let rows = [
        lot(
            "A",
            7,
            contract(1, 100, entry("P1", EntryKind::Payment, 10)),
        ),
        lot(
            "A",
            7,
            contract(1, 100, entry("P2", EntryKind::Payment, 10)),
        ),
        lot("B", 0, contract(2, 50, None)),
        lot("C", 30, None),
    ];
    assert!(rt; are_listed(rt.alloc(), &rows));
}
