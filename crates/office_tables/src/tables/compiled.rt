//! The table of merges of notices' releases: its SQL texts, its rows as values, and its look-ups.
ghost use Rattle.std.specs.Prelude.{◌≡◌};
ghost use Rattle.sqlite.specs.Values.{bound};
ghost use Rattle.office_base.specs.Tables.{compiled_at};
ghost use Rattle.office_tables.specs.Steps.{TellsOnly};
ghost use Rattle.office_tables.specs.Tables.Compiled.{compiled_values, compiled_read, CompiledFits};

use crate::ask::ask_first;
use crate::columns::{has_columns, id_at, json_at};
use crate::stored::Stored;
use crate::values::id_value;
use office_base::records::CompiledRow;
use office_base::shelf::ShelfFault;
use office_values::id::Id;
use sqlite::{Alter, Connection, Row};
use sqlite_value::value::ValueRef;
use std::alloc::Global;

/// Creates the table.
pub(crate) const CREATE: &str =
    "CREATE TABLE compiled (notice TEXT NOT NULL PRIMARY KEY CHECK (length(notice) BETWEEN 1 AND 32), text TEXT NOT NULL) STRICT";

/// Inserts the merge of a notice's releases, or replaces the row that has its key.
pub(crate) const PUT: &str =
    "INSERT INTO compiled (notice, text) VALUES (?1, ?2) ON CONFLICT (notice) DO UPDATE SET text = ?2";

/// The values of the merge of a notice's releases.
pub fn compiled_values(row: &CompiledRow) -> [ValueRef<'_>; 2]
    ensures row { bound result ≡ compiled_values row.now }
    ensures fits { CompiledFits row.now }
{
    [
        ValueRef::Text(row.notice.as_bytes()),
        ValueRef::Text(row.text.as_str().as_bytes()),
    ]
}

impl Stored for CompiledRow {
    ghost read = { compiled_read };

    ghost row_of = { compiled_values };

    ghost fits = { CompiledFits };

    fn from_row(alloc: Global, row: &Row) -> Result<CompiledRow, ShelfFault> {
        has_columns(row, 2)?;
        Ok(CompiledRow {
            notice: id_at(row, 0)?,
            text: json_at(alloc, row, 1)?,
        })
    }
}

/// The merge of this notice's releases, if one is stored.
pub fn get_compiled<S: Alter>(
    alloc: Global,
    conn: &mut Connection<S>,
    notice: &Id,
) -> Result<Option<CompiledRow>, ShelfFault>
    ensures { TellsOnly S.Store conn.old conn.new result (λ t row. row ≡ compiled_at notice.now t) }
{
    ask_first(
        alloc,
        conn,
        "SELECT notice, text FROM compiled WHERE notice = ?1",
        &[id_value(notice)],
    )
}
