//! The table of awards: its SQL texts, its rows as values, and its look-ups.
ghost use Rattle.std.specs.Prelude.{◌≡◌};
ghost use Rattle.sqlite.specs.Values.{bound};
ghost use Rattle.office_base.specs.Tables.{award_at, awards_of_notice};
ghost use Rattle.office_tables.specs.Steps.{TellsOnly};
ghost use Rattle.office_tables.specs.Tables.Awards.{award_values, award_read, AwardFits};

use crate::ask::{ask_all, ask_first};
use crate::columns::{amount_at, bounded_at, has_columns, id_at, moment_at};
use crate::stored::Stored;
use crate::values::{id_value, number_value, signed};
use crate::words::{award_state_at, award_state_text};
use office_base::records::AwardRow;
use office_base::shelf::ShelfFault;
use office_values::given::AskedNumber;
use office_values::id::Id;
use sqlite::{Alter, Connection, Row};
use sqlite_value::value::ValueRef;
use std::alloc::Global;

/// Creates the table.
pub(crate) const CREATE: &str =
    "CREATE TABLE awards (award INTEGER NOT NULL PRIMARY KEY CHECK (award BETWEEN 1 AND 1000000000), notice TEXT NOT NULL CHECK (length(notice) BETWEEN 1 AND 32), lot TEXT NOT NULL CHECK (length(lot) BETWEEN 1 AND 32), receipt INTEGER NOT NULL CHECK (receipt BETWEEN 1 AND 1000000000), price INTEGER NOT NULL CHECK (price BETWEEN 0 AND 1000000000000), moment INTEGER NOT NULL CHECK (moment BETWEEN 0 AND 4102444799), state TEXT NOT NULL CHECK (state IN ('active', 'failed', 'cancelled', 'signed'))) STRICT";

/// Creates the index for look-ups by notice.
pub(crate) const CREATE_INDEX: &str = "CREATE INDEX awards_of_notice ON awards (notice)";

/// Inserts an award, or replaces the row that has its key.
pub(crate) const PUT: &str =
    "INSERT INTO awards (award, notice, lot, receipt, price, moment, state) VALUES (?1, ?2, ?3, ?4, ?5, ?6, ?7) ON CONFLICT (award) DO UPDATE SET notice = ?2, lot = ?3, receipt = ?4, price = ?5, moment = ?6, state = ?7";

/// The values of an award.
pub fn award_values(row: &AwardRow) -> [ValueRef<'_>; 7]
    ensures row { bound result ≡ award_values row.now }
    ensures fits { AwardFits row.now }
{
    [
        ValueRef::Int(signed(row.award.get())),
        ValueRef::Text(row.notice.as_bytes()),
        ValueRef::Text(row.lot.as_bytes()),
        ValueRef::Int(signed(row.receipt.get())),
        ValueRef::Int(signed(row.price.units())),
        ValueRef::Int(signed(row.moment.second())),
        ValueRef::Text(award_state_text(row.state)),
    ]
}

impl Stored for AwardRow {
    ghost read = { award_read };

    ghost row_of = { award_values };

    ghost fits = { AwardFits };

    fn from_row(_alloc: Global, row: &Row) -> Result<AwardRow, ShelfFault> {
        has_columns(row, 7)?;
        Ok(AwardRow {
            award: bounded_at(row, 0)?,
            notice: id_at(row, 1)?,
            lot: id_at(row, 2)?,
            receipt: bounded_at(row, 3)?,
            price: amount_at(row, 4)?,
            moment: moment_at(row, 5)?,
            state: award_state_at(row, 6)?,
        })
    }
}

/// The award of this number.
pub fn get_award<S: Alter>(
    alloc: Global,
    conn: &mut Connection<S>,
    award: AskedNumber,
) -> Result<Option<AwardRow>, ShelfFault>
    ensures { TellsOnly S.Store conn.old conn.new result (λ t row. row ≡ award_at award t) }
{
    ask_first(
        alloc,
        conn,
        "SELECT award, notice, lot, receipt, price, moment, state FROM awards WHERE award = ?1",
        &[number_value(award)],
    )
}

/// The awards of a notice, in the order of their numbers.
pub fn list_awards_of_notice<S: Alter>(
    alloc: Global,
    conn: &mut Connection<S>,
    notice: &Id,
) -> Result<Vec<AwardRow>, ShelfFault>
    ensures { TellsOnly S.Store conn.old conn.new result (λ t rows. rows.items ≡ awards_of_notice notice.now t) }
{
    ask_all(
        alloc,
        conn,
        "SELECT award, notice, lot, receipt, price, moment, state FROM awards WHERE notice = ?1 ORDER BY award",
        &[id_value(notice)],
    )
}
