//! The table of performance securities: its SQL texts, its rows as values, and its look-ups.
ghost use Rattle.std.specs.Prelude.{◌≡◌};
ghost use Rattle.sqlite.specs.Values.{bound};
ghost use Rattle.office_base.specs.Tables.{performance_at};
ghost use Rattle.office_tables.specs.Steps.{TellsOnly};
ghost use Rattle.office_tables.specs.Tables.Performances.{performance_values, performance_read, PerformanceFits};

use crate::ask::ask_first;
use crate::columns::{bounded_at, has_columns, id_at};
use crate::stored::Stored;
use crate::values::{number_value, signed};
use crate::words::{security_state_at, security_state_text};
use office_base::records::PerformanceRow;
use office_base::shelf::ShelfFault;
use office_values::given::AskedNumber;
use sqlite::{Alter, Connection, Row};
use sqlite_value::value::ValueRef;
use std::alloc::Global;

/// Creates the table.
pub(crate) const CREATE: &str =
    "CREATE TABLE performance (contract INTEGER NOT NULL PRIMARY KEY CHECK (contract BETWEEN 1 AND 1000000000), reference TEXT NOT NULL CHECK (length(reference) BETWEEN 1 AND 32), amount INTEGER NOT NULL CHECK (amount BETWEEN 1 AND 1000000000000), state TEXT NOT NULL CHECK (state IN ('held', 'returned', 'forfeited'))) STRICT";

/// Inserts a performance security, or replaces the row that has its key.
pub(crate) const PUT: &str =
    "INSERT INTO performance (contract, reference, amount, state) VALUES (?1, ?2, ?3, ?4) ON CONFLICT (contract) DO UPDATE SET reference = ?2, amount = ?3, state = ?4";

/// The values of a performance security.
pub fn performance_values(row: &PerformanceRow) -> [ValueRef<'_>; 4]
    ensures row { bound result ≡ performance_values row.now }
    ensures fits { PerformanceFits row.now }
{
    [
        ValueRef::Int(signed(row.contract.get())),
        ValueRef::Text(row.reference.as_bytes()),
        ValueRef::Int(signed(row.amount.get())),
        ValueRef::Text(security_state_text(row.state)),
    ]
}

impl Stored for PerformanceRow {
    ghost read = { performance_read };

    ghost row_of = { performance_values };

    ghost fits = { PerformanceFits };

    fn from_row(_alloc: Global, row: &Row) -> Result<PerformanceRow, ShelfFault> {
        has_columns(row, 4)?;
        Ok(PerformanceRow {
            contract: bounded_at(row, 0)?,
            reference: id_at(row, 1)?,
            amount: bounded_at(row, 2)?,
            state: security_state_at(row, 3)?,
        })
    }
}

/// The performance security of this contract.
pub fn get_performance<S: Alter>(
    alloc: Global,
    conn: &mut Connection<S>,
    contract: AskedNumber,
) -> Result<Option<PerformanceRow>, ShelfFault>
    ensures { TellsOnly S.Store conn.old conn.new result (λ t row. row ≡ performance_at contract t) }
{
    ask_first(
        alloc,
        conn,
        "SELECT contract, reference, amount, state FROM performance WHERE contract = ?1",
        &[number_value(contract)],
    )
}
