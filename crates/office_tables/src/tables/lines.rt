//! The table of budget lines: its SQL texts, its rows as values, and its look-ups.
ghost use Rattle.std.specs.Prelude.{◌≡◌};
ghost use Rattle.sqlite.specs.Values.{bound};
ghost use Rattle.office_base.specs.Tables.{line_at};
ghost use Rattle.office_tables.specs.Steps.{TellsOnly};
ghost use Rattle.office_tables.specs.Tables.Lines.{line_values, line_read, LineFits};

use crate::ask::{ask_all, ask_first};
use crate::columns::{has_columns, id_at, line_at, total_at};
use crate::stored::Stored;
use crate::values::{id_value, signed};
use office_base::records::LineRow;
use office_base::shelf::ShelfFault;
use office_values::id::Id;
use sqlite::{Alter, Connection, Row};
use sqlite_value::value::ValueRef;
use std::alloc::Global;

/// Creates the table.
pub(crate) const CREATE: &str =
    "CREATE TABLE lines (line TEXT NOT NULL PRIMARY KEY CHECK (length(line) BETWEEN 1 AND 32), title TEXT NOT NULL CHECK (length(title) BETWEEN 1 AND 200), appropriation INTEGER NOT NULL CHECK (appropriation BETWEEN 0 AND 1000000000000000), free INTEGER NOT NULL CHECK (free BETWEEN 0 AND 1000000000000000)) STRICT";

/// Inserts a budget line, or replaces the row that has its key.
pub(crate) const PUT: &str =
    "INSERT INTO lines (line, title, appropriation, free) VALUES (?1, ?2, ?3, ?4) ON CONFLICT (line) DO UPDATE SET title = ?2, appropriation = ?3, free = ?4";

/// The values of a budget line.
pub fn line_values(row: &LineRow) -> [ValueRef<'_>; 4]
    ensures row { bound result ≡ line_values row.now }
    ensures fits { LineFits row.now }
{
    [
        ValueRef::Text(row.line.as_bytes()),
        ValueRef::Text(row.title.as_str().as_bytes()),
        ValueRef::Int(signed(row.appropriation.units())),
        ValueRef::Int(signed(row.free.units())),
    ]
}

impl Stored for LineRow {
    ghost read = { line_read };

    ghost row_of = { line_values };

    ghost fits = { LineFits };

    fn from_row(alloc: Global, row: &Row) -> Result<LineRow, ShelfFault> {
        has_columns(row, 4)?;
        Ok(LineRow {
            line: id_at(row, 0)?,
            title: line_at(alloc, row, 1)?,
            appropriation: total_at(row, 2)?,
            free: total_at(row, 3)?,
        })
    }
}

/// The budget line of this identifier.
pub fn get_line<S: Alter>(
    alloc: Global,
    conn: &mut Connection<S>,
    line: &Id,
) -> Result<Option<LineRow>, ShelfFault>
    ensures { TellsOnly S.Store conn.old conn.new result (λ t row. row ≡ line_at line.now t) }
{
    ask_first(
        alloc,
        conn,
        "SELECT line, title, appropriation, free FROM lines WHERE line = ?1",
        &[id_value(line)],
    )
}

/// All budget lines, in the order of their identifiers.
pub fn list_lines<S: Alter>(
    alloc: Global,
    conn: &mut Connection<S>,
) -> Result<Vec<LineRow>, ShelfFault>
    ensures { TellsOnly S.Store conn.old conn.new result (λ t rows. rows.items ≡ t.lines) }
{
    ask_all(
        alloc,
        conn,
        "SELECT line, title, appropriation, free FROM lines ORDER BY line",
        &[],
    )
}
