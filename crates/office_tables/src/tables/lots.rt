//! The table of lots: its SQL texts, its rows as values, its look-ups, and its put.
ghost use Rattle.std.specs.Prelude.{◌≡◌, [], ◌∷◌, IsTrue, OnOk, OnErr};
ghost use Rattle.sqlite.specs.Held.{state};
ghost use Rattle.sqlite.specs.State.{HasCleanDisk, Survives};
ghost use Rattle.sqlite.specs.Values.{bound};
ghost use Rattle.office_base.specs.Tables.{lot_at, lots_of_line, lots_of_notice};
ghost use Rattle.office_tables.specs.Steps.{TellsOnly, Puts, Refused};
ghost use Rattle.office_tables.specs.Failing.{ErrorHasCause};
ghost use Rattle.office_tables.specs.ItemTexts.{items_text};
ghost use Rattle.office_tables.specs.Tables.Lots.{lot_values, lot_read, LotFits, IsLot};

use crate::ask::{ask_all, ask_first};
use crate::columns::{amount_at, bounded_at, has_columns, id_at, line_at};
use crate::items::{items_at, items_text};
use crate::statement::put_row;
use crate::stored::Stored;
use crate::values::{id_value, signed};
use crate::words::{lot_state_at, lot_state_text};
use office_base::puts::Put;
use office_base::records::LotRow;
use office_base::shelf::ShelfFault;
use office_values::id::Id;
use sqlite::{Alter, Connection, Error, Row, Transaction};
use sqlite_value::value::ValueRef;
use std::alloc::Global;

/// Creates the table.
pub(crate) const CREATE: &str =
    "CREATE TABLE lots (notice TEXT NOT NULL CHECK (length(notice) BETWEEN 1 AND 32), lot TEXT NOT NULL CHECK (length(lot) BETWEEN 1 AND 32), title TEXT NOT NULL CHECK (length(title) BETWEEN 1 AND 200), line TEXT NOT NULL CHECK (length(line) BETWEEN 1 AND 32), estimate INTEGER NOT NULL CHECK (estimate BETWEEN 1 AND 1000000000000), security INTEGER NOT NULL CHECK (security BETWEEN 0 AND 1000000000000), items TEXT NOT NULL, state TEXT NOT NULL CHECK (state IN ('undecided', 'awarded', 'contracted', 'unsuccessful', 'cancelled')), reserved INTEGER NOT NULL CHECK (reserved BETWEEN 0 AND 1000000000000), PRIMARY KEY (notice, lot)) STRICT";

/// Creates the index for look-ups by budget line.
pub(crate) const CREATE_INDEX: &str = "CREATE INDEX lots_of_line ON lots (line)";

/// Inserts a lot, or replaces the row that has its key.
pub(crate) const PUT: &str =
    "INSERT INTO lots (notice, lot, title, line, estimate, security, items, state, reserved) VALUES (?1, ?2, ?3, ?4, ?5, ?6, ?7, ?8, ?9) ON CONFLICT (notice, lot) DO UPDATE SET title = ?3, line = ?4, estimate = ?5, security = ?6, items = ?7, state = ?8, reserved = ?9";

/// The values of a lot; the caller passes the text of its items.
pub fn lot_values<'a>(row: &'a LotRow, items: &'a [u8]) -> [ValueRef<'a>; 9]
    requires { items.now ≡ items_text row.now.items }
    ensures row { bound result ≡ lot_values row.now }
    ensures fits { LotFits row.now }
{
    [
        ValueRef::Text(row.notice.as_bytes()),
        ValueRef::Text(row.lot.as_bytes()),
        ValueRef::Text(row.title.as_str().as_bytes()),
        ValueRef::Text(row.line.as_bytes()),
        ValueRef::Int(signed(row.estimate.get())),
        ValueRef::Int(signed(row.security.units())),
        ValueRef::Text(items),
        ValueRef::Text(lot_state_text(row.state)),
        ValueRef::Int(signed(row.reserved.units())),
    ]
}

impl Stored for LotRow {
    ghost read = { lot_read };

    ghost row_of = { lot_values };

    ghost fits = { IsLot };

    fn from_row(alloc: Global, row: &Row) -> Result<LotRow, ShelfFault> {
        has_columns(row, 9)?;
        Ok(LotRow {
            notice: id_at(row, 0)?,
            lot: id_at(row, 1)?,
            title: line_at(alloc, row, 2)?,
            line: id_at(row, 3)?,
            estimate: bounded_at(row, 4)?,
            security: amount_at(row, 5)?,
            items: items_at(alloc, row, 6)?,
            state: lot_state_at(row, 7)?,
            reserved: amount_at(row, 8)?,
        })
    }
}

/// The lot of this notice and this identifier.
pub fn get_lot<S: Alter>(
    alloc: Global,
    conn: &mut Connection<S>,
    notice: &Id,
    lot: &Id,
) -> Result<Option<LotRow>, ShelfFault>
    ensures { TellsOnly S.Store conn.old conn.new result (λ t row. row ≡ lot_at (notice.now, lot.now) t) }
{
    ask_first(
        alloc,
        conn,
        "SELECT notice, lot, title, line, estimate, security, items, state, reserved FROM lots WHERE notice = ?1 AND lot = ?2",
        &[id_value(notice), id_value(lot)],
    )
}

/// The lots of a notice, in the order of their identifiers.
pub fn list_lots_of_notice<S: Alter>(
    alloc: Global,
    conn: &mut Connection<S>,
    notice: &Id,
) -> Result<Vec<LotRow>, ShelfFault>
    ensures { TellsOnly S.Store conn.old conn.new result (λ t rows. rows.items ≡ lots_of_notice notice.now t) }
{
    ask_all(
        alloc,
        conn,
        "SELECT notice, lot, title, line, estimate, security, items, state, reserved FROM lots WHERE notice = ?1 ORDER BY notice, lot",
        &[id_value(notice)],
    )
}

/// The lots of a budget line, in the order of their notices and identifiers.
pub fn list_lots_of_line<S: Alter>(
    alloc: Global,
    conn: &mut Connection<S>,
    line: &Id,
) -> Result<Vec<LotRow>, ShelfFault>
    ensures { TellsOnly S.Store conn.old conn.new result (λ t rows. rows.items ≡ lots_of_line line.now t) }
{
    ask_all(
        alloc,
        conn,
        "SELECT notice, lot, title, line, estimate, security, items, state, reserved FROM lots WHERE line = ?1 ORDER BY notice, lot",
        &[id_value(line)],
    )
}

// Inserts a lot, or replaces the one that has its key.
pub(crate) fn put_lot<S: Alter>(
    alloc: Global,
    tx: &mut Transaction<'_, S>,
    row: &LotRow,
) -> Result<(), Error>
    ensures same_reference { tx.new.conn.ghost_name ≡ tx.old.conn.ghost_name }
    ensures puts { HasCleanDisk (state S.Store tx.new.conn.now) → IsTrue (state S.Store tx.old.conn.now).in_transaction → OnOk result (Puts (state S.Store tx.old.conn.now) (state S.Store tx.new.conn.now) (Put.Lot row.now ∷ [])) }
    ensures refused { HasCleanDisk (state S.Store tx.new.conn.now) → IsTrue (state S.Store tx.old.conn.now).in_transaction → OnErr result (Refused (state S.Store tx.old.conn.now) (state S.Store tx.new.conn.now)) }
    ensures failed { ErrorHasCause (state S.Store tx.old.conn.now) (state S.Store tx.new.conn.now) (Put.Lot row.now ∷ []) result }
    ensures survives { Survives (state S.Store tx.old.conn.now) (state S.Store tx.new.conn.now) (λ _. ⊥) }
{
    let items = items_text(alloc, &row.items)?;
    put_row(tx, PUT, &lot_values(row, items.as_slice()))
}
