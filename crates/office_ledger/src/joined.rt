//! Rows that join a budget line with a lot, a contract and an entry.
use office_base::records::EntryKind;
use office_commands::amounts::EntryAmount;
use office_values::given::GivenNumber;
use office_values::id::Id;
use office_values::money::{Amount, Total};

/// An entry of a contract.
#[derive(Clone, Copy)]
pub struct JoinedEntry {
    pub entry: Id,
    pub kind: EntryKind,
    pub amount: EntryAmount,
}

/// A contract with one of its entries, or alone if it has none.
#[derive(Clone, Copy)]
pub struct JoinedContract {
    pub contract: GivenNumber,
    pub signed: Total,
    pub released: Total,
    pub entry: Option<JoinedEntry>,
}

/// A lot with one of its contracts, or alone if it has none.
#[derive(Clone, Copy)]
pub struct JoinedLot {
    pub notice: Id,
    pub lot: Id,
    pub reserved: Amount,
    pub contract: Option<JoinedContract>,
}

/// A budget line with one of its lots, or alone if it has none.
#[derive(Clone, Copy)]
pub struct JoinedRow {
    pub line: Id,
    pub appropriation: Total,
    pub free: Total,
    pub lot: Option<JoinedLot>,
}
