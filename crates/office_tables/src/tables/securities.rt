//! The table of tender securities: its SQL texts, its rows as values, and its look-ups.
ghost use Rattle.std.specs.Prelude.{◌≡◌};
ghost use Rattle.sqlite.specs.Values.{bound};
ghost use Rattle.office_base.specs.Tables.{security_at, securities_of_lot, securities_of_notice};
ghost use Rattle.office_tables.specs.Steps.{TellsOnly};
ghost use Rattle.office_tables.specs.Tables.Securities.{security_values, security_read, SecurityFits};

use crate::ask::{ask_all, ask_first};
use crate::columns::{bounded_at, has_columns, id_at};
use crate::stored::Stored;
use crate::values::{id_value, number_value, signed};
use crate::words::{security_state_at, security_state_text};
use office_base::records::SecurityRow;
use office_base::shelf::ShelfFault;
use office_values::given::AskedNumber;
use office_values::id::Id;
use sqlite::{Alter, Connection, Row};
use sqlite_value::value::ValueRef;
use std::alloc::Global;

/// Creates the table.
pub(crate) const CREATE: &str =
    "CREATE TABLE securities (security INTEGER NOT NULL PRIMARY KEY CHECK (security BETWEEN 1 AND 1000000000), tenderer TEXT NOT NULL CHECK (length(tenderer) BETWEEN 1 AND 32), notice TEXT NOT NULL CHECK (length(notice) BETWEEN 1 AND 32), lot TEXT NOT NULL CHECK (length(lot) BETWEEN 1 AND 32), reference TEXT NOT NULL CHECK (length(reference) BETWEEN 1 AND 32), amount INTEGER NOT NULL CHECK (amount BETWEEN 1 AND 1000000000000), state TEXT NOT NULL CHECK (state IN ('held', 'returned', 'forfeited'))) STRICT";

/// Creates the index for look-ups by notice.
pub(crate) const CREATE_INDEX: &str = "CREATE INDEX securities_of_notice ON securities (notice)";

/// Inserts a tender security, or replaces the row that has its key.
pub(crate) const PUT: &str =
    "INSERT INTO securities (security, tenderer, notice, lot, reference, amount, state) VALUES (?1, ?2, ?3, ?4, ?5, ?6, ?7) ON CONFLICT (security) DO UPDATE SET tenderer = ?2, notice = ?3, lot = ?4, reference = ?5, amount = ?6, state = ?7";

/// The values of a security.
pub fn security_values(row: &SecurityRow) -> [ValueRef<'_>; 7]
    ensures row { bound result ≡ security_values row.now }
    ensures fits { SecurityFits row.now }
{
    [
        ValueRef::Int(signed(row.security.get())),
        ValueRef::Text(row.tenderer.as_bytes()),
        ValueRef::Text(row.notice.as_bytes()),
        ValueRef::Text(row.lot.as_bytes()),
        ValueRef::Text(row.reference.as_bytes()),
        ValueRef::Int(signed(row.amount.get())),
        ValueRef::Text(security_state_text(row.state)),
    ]
}

impl Stored for SecurityRow {
    ghost read = { security_read };

    ghost row_of = { security_values };

    ghost fits = { SecurityFits };

    fn from_row(_alloc: Global, row: &Row) -> Result<SecurityRow, ShelfFault> {
        has_columns(row, 7)?;
        Ok(SecurityRow {
            security: bounded_at(row, 0)?,
            tenderer: id_at(row, 1)?,
            notice: id_at(row, 2)?,
            lot: id_at(row, 3)?,
            reference: id_at(row, 4)?,
            amount: bounded_at(row, 5)?,
            state: security_state_at(row, 6)?,
        })
    }
}

/// The security of this number.
pub fn get_security<S: Alter>(
    alloc: Global,
    conn: &mut Connection<S>,
    security: AskedNumber,
) -> Result<Option<SecurityRow>, ShelfFault>
    ensures { TellsOnly S.Store conn.old conn.new result (λ t row. row ≡ security_at security t) }
{
    ask_first(
        alloc,
        conn,
        "SELECT security, tenderer, notice, lot, reference, amount, state FROM securities WHERE security = ?1",
        &[number_value(security)],
    )
}

/// The securities of a notice, in the order of their numbers.
pub fn list_securities_of_notice<S: Alter>(
    alloc: Global,
    conn: &mut Connection<S>,
    notice: &Id,
) -> Result<Vec<SecurityRow>, ShelfFault>
    ensures { TellsOnly S.Store conn.old conn.new result (λ t rows. rows.items ≡ securities_of_notice notice.now t) }
{
    ask_all(
        alloc,
        conn,
        "SELECT security, tenderer, notice, lot, reference, amount, state FROM securities WHERE notice = ?1 ORDER BY security",
        &[id_value(notice)],
    )
}

/// The securities of a lot, in the order of their numbers.
pub fn list_securities_of_lot<S: Alter>(
    alloc: Global,
    conn: &mut Connection<S>,
    notice: &Id,
    lot: &Id,
) -> Result<Vec<SecurityRow>, ShelfFault>
    ensures { TellsOnly S.Store conn.old conn.new result (λ t rows. rows.items ≡ securities_of_lot notice.now lot.now t) }
{
    ask_all(
        alloc,
        conn,
        "SELECT security, tenderer, notice, lot, reference, amount, state FROM securities WHERE notice = ?1 AND lot = ?2 ORDER BY security",
        &[id_value(notice), id_value(lot)],
    )
}
