//! The table of notices whose tenders may be withdrawn late: its SQL texts, its rows as values, and its look-ups.
ghost use Rattle.std.specs.Prelude.{◌≡◌};
ghost use Rattle.sqlite.specs.Values.{bound};
ghost use Rattle.office_base.specs.Tables.{late_at};
ghost use Rattle.office_tables.specs.Steps.{TellsOnly};
ghost use Rattle.office_tables.specs.Tables.LateRules.{late_values, late_read, LateFits};

use crate::ask::ask_first;
use crate::columns::{has_columns, id_at};
use crate::stored::Stored;
use crate::values::id_value;
use office_base::records::LateRow;
use office_base::shelf::ShelfFault;
use office_values::id::Id;
use sqlite::{Alter, Connection, Row};
use sqlite_value::value::ValueRef;
use std::alloc::Global;

/// Creates the table.
pub(crate) const CREATE: &str =
    "CREATE TABLE late_rules (notice TEXT NOT NULL PRIMARY KEY CHECK (length(notice) BETWEEN 1 AND 32)) STRICT";

/// Inserts a notice whose tenders may be withdrawn late, or replaces the row that has its key.
pub(crate) const PUT: &str =
    "INSERT INTO late_rules (notice) VALUES (?1) ON CONFLICT (notice) DO UPDATE SET notice = ?1";

/// The values of the row that allows late withdrawals for a notice.
pub fn late_values(row: &LateRow) -> [ValueRef<'_>; 1]
    ensures row { bound result ≡ late_values row.now }
    ensures fits { LateFits row.now }
{
    [ValueRef::Text(row.notice.as_bytes())]
}

impl Stored for LateRow {
    ghost read = { late_read };

    ghost row_of = { late_values };

    ghost fits = { LateFits };

    fn from_row(_alloc: Global, row: &Row) -> Result<LateRow, ShelfFault> {
        has_columns(row, 1)?;
        Ok(LateRow {
            notice: id_at(row, 0)?,
        })
    }
}

/// The row that allows late withdrawals for this notice, if it does.
pub fn get_late<S: Alter>(
    alloc: Global,
    conn: &mut Connection<S>,
    notice: &Id,
) -> Result<Option<LateRow>, ShelfFault>
    ensures { TellsOnly S.Store conn.old conn.new result (λ t row. row ≡ late_at notice.now t) }
{
    ask_first(
        alloc,
        conn,
        "SELECT notice FROM late_rules WHERE notice = ?1",
        &[id_value(notice)],
    )
}
