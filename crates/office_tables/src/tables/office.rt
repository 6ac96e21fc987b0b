//! The table of the clock, which has one row: its SQL texts, the row as values, and the look-up.
ghost use Rattle.std.specs.Prelude.{◌≡◌, ◌<◌, Some, IfOk};
ghost use Rattle.sqlite_value.specs.Order.{column};
ghost use Rattle.sqlite.specs.Values.{bound};
ghost use Rattle.office_tables.specs.Steps.{TellsOnly};
ghost use Rattle.office_tables.specs.Tables.Office.{this_version, clock_values, clock_read, ClockFits, clock_values_of};
ghost use Rattle.office_tables.specs.Values.{number_in_value};

use crate::ask::ask_first;
use crate::columns::{bounded_at, earlier_at, has_columns, moment_at, version_at};
use crate::stored::Stored;
use crate::values::signed;
use office_base::records::ClockRow;
use office_base::shelf::ShelfFault;
use sqlite::{Alter, Connection, Row};
use sqlite_value::value::ValueRef;
use std::alloc::Global;

/// The version of the tables that this program makes.
pub const VERSION: u64 = 2;

/// Creates the table.
pub(crate) const CREATE: &str =
    "CREATE TABLE office (version INTEGER NOT NULL PRIMARY KEY CHECK (version BETWEEN 1 AND 2147483647), moment INTEGER NOT NULL CHECK (moment BETWEEN 0 AND 4102444799), receipts INTEGER NOT NULL CHECK (receipts BETWEEN 0 AND 1000000000), awards INTEGER NOT NULL CHECK (awards BETWEEN 0 AND 1000000000)) STRICT";

/// Inserts the clock, or replaces the row that has this version.
pub(crate) const PUT: &str =
    "INSERT INTO office (version, moment, receipts, awards) VALUES (?1, ?2, ?3, ?4) ON CONFLICT (version) DO UPDATE SET moment = ?2, receipts = ?3, awards = ?4";

/// The values of the one row: the version of the tables, then the clock.
pub fn clock_values(row: &ClockRow) -> [ValueRef<'static>; 4]
    ensures row { bound result ≡ clock_values row.now }
    ensures fits { ClockFits row.now }
{
    [
        ValueRef::Int(signed(VERSION)),
        ValueRef::Int(signed(row.moment.second())),
        ValueRef::Int(signed(row.receipts.get())),
        ValueRef::Int(signed(row.awards.get())),
    ]
}

impl Stored for ClockRow {
    ghost read = { clock_read };

    ghost row_of = { clock_values };

    ghost fits = { ClockFits };

    fn from_row(_alloc: Global, row: &Row) -> Result<ClockRow, ShelfFault> {
        has_columns(row, 4)?;
        version_at(row, 0, VERSION)?;
        Ok(ClockRow {
            moment: moment_at(row, 1)?,
            receipts: bounded_at(row, 2)?,
            awards: bounded_at(row, 3)?,
        })
    }
}

/// The clock of an earlier program, with the version of its tables.
#[derive(Clone, Copy)]
pub struct FormerClock {
    pub version: u64,
    pub row: ClockRow,
}

impl Stored for FormerClock {
    ghost read = { λ r. record { version = number_in_value (column r 0); row = clock_read r } };

    ghost row_of = { λ x. clock_values_of x.version x.row };

    ghost fits = { λ x. (x.version < this_version) × ClockFits x.row };

    fn from_row(_alloc: Global, row: &Row) -> Result<FormerClock, ShelfFault> {
        has_columns(row, 4)?;
        Ok(FormerClock {
            version: earlier_at(row, 0, VERSION)?,
            row: ClockRow {
                moment: moment_at(row, 1)?,
                receipts: bounded_at(row, 2)?,
                awards: bounded_at(row, 3)?,
            },
        })
    }
}

// The clock of the one row. No row is a fault of the store.
fn clock_of(found: Option<ClockRow>) -> Result<ClockRow, ShelfFault>
    ensures { IfOk result (λ clock. found ≡ Some clock) }
{
    match found {
        Some(clock) => Ok(clock),
        None => Err(ShelfFault::Store),
    }
}

/// The clock of the office.
pub fn get_clock<S: Alter>(alloc: Global, conn: &mut Connection<S>) -> Result<ClockRow, ShelfFault>
    ensures { TellsOnly S.Store conn.old conn.new result (λ t clock. clock ≡ t.clock) }
{
    match ask_first(
        alloc,
        conn,
        "SELECT version, moment, receipts, awards FROM office",
        &[],
    ) {
        Ok(found) => clock_of(found),
        Err(fault) => Err(fault),
    }
}
