//! The table of budget files: its SQL texts, its rows as values, and its look-ups.
ghost use Rattle.std.specs.Prelude.{◌≡◌};
ghost use Rattle.sqlite.specs.Values.{bound};
ghost use Rattle.office_base.specs.Tables.{batch_at};
ghost use Rattle.office_tables.specs.Steps.{TellsOnly};
ghost use Rattle.office_tables.specs.Tables.Batches.{batch_values, batch_read, BatchFits};

use crate::ask::ask_first;
use crate::columns::{bounded_at, has_columns, id_at, moment_at};
use crate::stored::Stored;
use crate::values::{id_value, signed};
use office_base::records::BatchRow;
use office_base::shelf::ShelfFault;
use office_values::id::Id;
use sqlite::{Alter, Connection, Row};
use sqlite_value::value::ValueRef;
use std::alloc::Global;

/// Creates the table.
pub(crate) const CREATE: &str =
    "CREATE TABLE batches (batch TEXT NOT NULL PRIMARY KEY CHECK (length(batch) BETWEEN 1 AND 32), moment INTEGER NOT NULL CHECK (moment BETWEEN 0 AND 4102444799), rows INTEGER NOT NULL CHECK (rows BETWEEN 0 AND 500)) STRICT";

/// Inserts a budget file, or replaces the row that has its key.
pub(crate) const PUT: &str =
    "INSERT INTO batches (batch, moment, rows) VALUES (?1, ?2, ?3) ON CONFLICT (batch) DO UPDATE SET moment = ?2, rows = ?3";

/// The values of a budget file.
pub fn batch_values(row: &BatchRow) -> [ValueRef<'_>; 3]
    ensures row { bound result ≡ batch_values row.now }
    ensures fits { BatchFits row.now }
{
    [
        ValueRef::Text(row.batch.as_bytes()),
        ValueRef::Int(signed(row.moment.second())),
        ValueRef::Int(signed(row.rows.get())),
    ]
}

impl Stored for BatchRow {
    ghost read = { batch_read };

    ghost row_of = { batch_values };

    ghost fits = { BatchFits };

    fn from_row(_alloc: Global, row: &Row) -> Result<BatchRow, ShelfFault> {
        has_columns(row, 3)?;
        Ok(BatchRow {
            batch: id_at(row, 0)?,
            moment: moment_at(row, 1)?,
            rows: bounded_at(row, 2)?,
        })
    }
}

/// The budget file of this identifier.
pub fn get_batch<S: Alter>(
    alloc: Global,
    conn: &mut Connection<S>,
    batch: &Id,
) -> Result<Option<BatchRow>, ShelfFault>
    ensures { TellsOnly S.Store conn.old conn.new result (λ t row. row ≡ batch_at batch.now t) }
{
    ask_first(
        alloc,
        conn,
        "SELECT batch, moment, rows FROM batches WHERE batch = ?1",
        &[id_value(batch)],
    )
}
