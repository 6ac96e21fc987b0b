//! The table of tenders' bytes: its SQL texts, its rows as values, and its look-ups.
ghost use Rattle.std.specs.Prelude.{◌≡◌};
ghost use Rattle.sqlite.specs.Values.{bound};
ghost use Rattle.office_base.specs.Tables.{seal_at};
ghost use Rattle.office_tables.specs.Steps.{TellsOnly};
ghost use Rattle.office_tables.specs.Tables.Seals.{seal_values, seal_read, SealFits};

use crate::ask::ask_first;
use crate::columns::{bounded_at, has_columns, sealed_at};
use crate::stored::Stored;
use crate::values::{number_value, signed};
use office_base::records::SealRow;
use office_base::shelf::ShelfFault;
use office_values::given::AskedNumber;
use sqlite::{Alter, Connection, Row};
use sqlite_value::value::ValueRef;
use std::alloc::Global;

/// Creates the table.
pub(crate) const CREATE: &str =
    "CREATE TABLE seals (receipt INTEGER NOT NULL PRIMARY KEY CHECK (receipt BETWEEN 1 AND 1000000000), bytes BLOB NOT NULL CHECK (length(bytes) BETWEEN 1 AND 32768)) STRICT";

/// Inserts the bytes of a tender, or replaces the row that has its key.
pub(crate) const PUT: &str =
    "INSERT INTO seals (receipt, bytes) VALUES (?1, ?2) ON CONFLICT (receipt) DO UPDATE SET bytes = ?2";

/// Deletes the bytes of a tender.
pub(crate) const DROP: &str = "DELETE FROM seals WHERE receipt = ?1";

/// A tender's receipt and its bytes, as values.
pub fn seal_values(row: &SealRow) -> [ValueRef<'_>; 2]
    ensures row { bound result ≡ seal_values row.now }
    ensures fits { SealFits row.now }
{
    [
        ValueRef::Int(signed(row.receipt.get())),
        ValueRef::Blob(row.bytes.as_slice()),
    ]
}

impl Stored for SealRow {
    ghost read = { seal_read };

    ghost row_of = { seal_values };

    ghost fits = { SealFits };

    fn from_row(alloc: Global, row: &Row) -> Result<SealRow, ShelfFault> {
        has_columns(row, 2)?;
        Ok(SealRow {
            receipt: bounded_at(row, 0)?,
            bytes: sealed_at(alloc, row, 1)?,
        })
    }
}

/// The bytes of the tender that has this receipt.
pub fn get_seal<S: Alter>(
    alloc: Global,
    conn: &mut Connection<S>,
    receipt: AskedNumber,
) -> Result<Option<SealRow>, ShelfFault>
    ensures { TellsOnly S.Store conn.old conn.new result (λ t row. row ≡ seal_at receipt t) }
{
    ask_first(
        alloc,
        conn,
        "SELECT receipt, bytes FROM seals WHERE receipt = ?1",
        &[number_value(receipt)],
    )
}
