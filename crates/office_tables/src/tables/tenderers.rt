//! The table of tenderers: its SQL texts, its rows as values, and its look-ups.
ghost use Rattle.std.specs.Prelude.{◌≡◌};
ghost use Rattle.sqlite.specs.Values.{bound};
ghost use Rattle.office_base.specs.Tables.{tenderer_at};
ghost use Rattle.office_base.specs.Pages.{tenderers_after};
ghost use Rattle.office_tables.specs.Steps.{TellsOnly};
ghost use Rattle.office_tables.specs.Tables.Tenderers.{tenderer_values, tenderer_read, TendererFits};

use crate::ask::{ask_all, ask_first};
use crate::columns::{digest_at, has_columns, id_at, line_at};
use crate::stored::Stored;
use crate::values::{count_value, id_value};
use office_base::records::TendererRow;
use office_base::shelf::ShelfFault;
use office_values::id::Id;
use sqlite::{Alter, Connection, Row};
use sqlite_value::value::ValueRef;
use std::alloc::Global;

/// Creates the table.
pub(crate) const CREATE: &str =
    "CREATE TABLE tenderers (tenderer TEXT NOT NULL PRIMARY KEY CHECK (length(tenderer) BETWEEN 1 AND 32), name TEXT NOT NULL CHECK (length(name) BETWEEN 1 AND 200), address TEXT NOT NULL CHECK (length(address) BETWEEN 1 AND 200), key BLOB NOT NULL CHECK (length(key) = 32)) STRICT";

/// Inserts a tenderer, or replaces the row that has its key.
pub(crate) const PUT: &str =
    "INSERT INTO tenderers (tenderer, name, address, key) VALUES (?1, ?2, ?3, ?4) ON CONFLICT (tenderer) DO UPDATE SET name = ?2, address = ?3, key = ?4";

/// The values of a tenderer.
pub fn tenderer_values(row: &TendererRow) -> [ValueRef<'_>; 4]
    ensures row { bound result ≡ tenderer_values row.now }
    ensures fits { TendererFits row.now }
{
    [
        ValueRef::Text(row.tenderer.as_bytes()),
        ValueRef::Text(row.name.as_str().as_bytes()),
        ValueRef::Text(row.address.as_str().as_bytes()),
        ValueRef::Blob(&row.key),
    ]
}

impl Stored for TendererRow {
    ghost read = { tenderer_read };

    ghost row_of = { tenderer_values };

    ghost fits = { TendererFits };

    fn from_row(alloc: Global, row: &Row) -> Result<TendererRow, ShelfFault> {
        has_columns(row, 4)?;
        Ok(TendererRow {
            tenderer: id_at(row, 0)?,
            name: line_at(alloc, row, 1)?,
            address: line_at(alloc, row, 2)?,
            key: digest_at(row, 3)?,
        })
    }
}

/// The tenderer of this identifier.
pub fn get_tenderer<S: Alter>(
    alloc: Global,
    conn: &mut Connection<S>,
    tenderer: &Id,
) -> Result<Option<TendererRow>, ShelfFault>
    ensures { TellsOnly S.Store conn.old conn.new result (λ t row. row ≡ tenderer_at tenderer.now t) }
{
    ask_first(
        alloc,
        conn,
        "SELECT tenderer, name, address, key FROM tenderers WHERE tenderer = ?1",
        &[id_value(tenderer)],
    )
}

/// The first `most` tenderers after this one, or the first of all, in the order of their identifiers.
pub fn list_tenderers_after<S: Alter>(
    alloc: Global,
    conn: &mut Connection<S>,
    after: Option<Id>,
    most: u32,
) -> Result<Vec<TendererRow>, ShelfFault>
    ensures { TellsOnly S.Store conn.old conn.new result (λ t rows. rows.items ≡ tenderers_after after most t) }
{
    match after {
        Some(tenderer) => ask_all(
            alloc,
            conn,
            "SELECT tenderer, name, address, key FROM tenderers WHERE tenderer > ?1 ORDER BY tenderer LIMIT ?2",
            &[id_value(&tenderer), count_value(most)],
        ),
        None => ask_all(
            alloc,
            conn,
            "SELECT tenderer, name, address, key FROM tenderers ORDER BY tenderer LIMIT ?1",
            &[count_value(most)],
        ),
    }
}
