//! The table of the entries of contracts: its SQL texts, its rows as values, and its look-ups.
ghost use Rattle.std.specs.Prelude.{◌≡◌};
ghost use Rattle.sqlite.specs.Values.{bound};
ghost use Rattle.office_base.specs.Tables.{entry_at, entries_of_contract};
ghost use Rattle.office_tables.specs.Steps.{TellsOnly};
ghost use Rattle.office_tables.specs.Tables.Entries.{entry_values, entry_read, EntryFits};

use crate::ask::{ask_all, ask_first};
use crate::columns::{bounded_at, has_columns, id_at, moment_at, perhaps_line_at};
use crate::stored::Stored;
use crate::values::{id_value, line_or_null, number_value, signed};
use crate::words::{entry_kind_at, entry_kind_text};
use office_base::records::EntryRow;
use office_base::shelf::ShelfFault;
use office_values::given::AskedNumber;
use office_values::id::Id;
use sqlite::{Alter, Connection, Row};
use sqlite_value::value::ValueRef;
use std::alloc::Global;

/// Creates the table.
pub(crate) const CREATE: &str =
    "CREATE TABLE entries (contract INTEGER NOT NULL CHECK (contract BETWEEN 1 AND 1000000000), entry TEXT NOT NULL CHECK (length(entry) BETWEEN 1 AND 32), kind TEXT NOT NULL CHECK (kind IN ('raise', 'cut', 'payment')), amount INTEGER NOT NULL CHECK (amount BETWEEN 1 AND 1000000000000), moment INTEGER NOT NULL CHECK (moment BETWEEN 0 AND 4102444799), rationale TEXT CHECK (length(rationale) BETWEEN 1 AND 200), PRIMARY KEY (contract, entry)) STRICT";

/// Inserts an entry of a contract, or replaces the row that has its key.
pub(crate) const PUT: &str =
    "INSERT INTO entries (contract, entry, kind, amount, moment, rationale) VALUES (?1, ?2, ?3, ?4, ?5, ?6) ON CONFLICT (contract, entry) DO UPDATE SET kind = ?3, amount = ?4, moment = ?5, rationale = ?6";

/// The values of an entry of a contract.
pub fn entry_values(row: &EntryRow) -> [ValueRef<'_>; 6]
    ensures row { bound result ≡ entry_values row.now }
    ensures fits { EntryFits row.now }
{
    [
        ValueRef::Int(signed(row.contract.get())),
        ValueRef::Text(row.entry.as_bytes()),
        ValueRef::Text(entry_kind_text(row.kind)),
        ValueRef::Int(signed(row.amount.get())),
        ValueRef::Int(signed(row.moment.second())),
        line_or_null(&row.rationale),
    ]
}

impl Stored for EntryRow {
    ghost read = { entry_read };

    ghost row_of = { entry_values };

    ghost fits = { EntryFits };

    fn from_row(alloc: Global, row: &Row) -> Result<EntryRow, ShelfFault> {
        has_columns(row, 6)?;
        Ok(EntryRow {
            contract: bounded_at(row, 0)?,
            entry: id_at(row, 1)?,
            kind: entry_kind_at(row, 2)?,
            amount: bounded_at(row, 3)?,
            moment: moment_at(row, 4)?,
            rationale: perhaps_line_at(alloc, row, 5)?,
        })
    }
}

/// The entry of this contract and this identifier.
pub fn get_entry<S: Alter>(
    alloc: Global,
    conn: &mut Connection<S>,
    contract: AskedNumber,
    entry: &Id,
) -> Result<Option<EntryRow>, ShelfFault>
    ensures { TellsOnly S.Store conn.old conn.new result (λ t row. row ≡ entry_at (contract, entry.now) t) }
{
    ask_first(
        alloc,
        conn,
        "SELECT contract, entry, kind, amount, moment, rationale FROM entries WHERE contract = ?1 AND entry = ?2",
        &[number_value(contract), id_value(entry)],
    )
}

/// The entries of a contract, in the order of their identifiers.
pub fn list_entries_of_contract<S: Alter>(
    alloc: Global,
    conn: &mut Connection<S>,
    contract: AskedNumber,
) -> Result<Vec<EntryRow>, ShelfFault>
    ensures { TellsOnly S.Store conn.old conn.new result (λ t rows. rows.items ≡ entries_of_contract contract t) }
{
    ask_all(
        alloc,
        conn,
        "SELECT contract, entry, kind, amount, moment, rationale FROM entries WHERE contract = ?1 ORDER BY contract, entry",
        &[number_value(contract)],
    )
}
