//! The sums of an office, each from one select of joined rows.
ghost use Rattle.std.specs.Prelude.{◌≡◌, [], IfOk};
ghost use Rattle.sqlite.specs.Held.{state};
ghost use Rattle.sqlite.specs.State.{HasCleanDisk, Survives};
ghost use Rattle.office_base.specs.Joined.{LinesFit, amounts_of_line, ledger_of};
ghost use Rattle.office_base.specs.Tables.{Tables, IsSorted};
ghost use Rattle.office_tables.specs.Steps.{Refused, ShowsTables};
ghost use Rattle.office_store.specs.LedgerRows.{HasTaken, KeepsOffice};

use crate::joined_rows::take_row;
use crate::ledger_rows::ready;
use office_base::ledger::{LedgerRow, LineAmounts};
use office_base::shelf::ShelfFault;
use office_ledger::adding::amounts_of_rows;
use office_ledger::ledger_sums::LedgerSums;
use office_ledger::select::{
    join_is_no_write, join_is_plain, list_joined, list_joined_of_line, lots_are_shown,
    stored_rows_show,
};
use office_tables::ask::ask;
use office_tables::faults::fault;
use office_values::id::Id;
use sqlite::{Alter, Connection, Rows};
use sqlite_value::value::ValueRef;
use std::alloc::Global;

// Adds up all remaining rows. A sum out of its range is a fault of the store.
fn add_up<S: Alter>(alloc: Global, rows: &mut Rows<'_, S>) -> Result<Vec<LedgerRow>, ShelfFault>
    ensures same_reference { rows.new.conn.ghost_name ≡ rows.old.conn.ghost_name }
    ensures got { HasCleanDisk (state S.Store rows.new.conn.now) → (t : Tables) → IsSorted t → HasTaken S.Store rows.old.conn.now t [] → IfOk result (λ ledger. (ledger.items ≡ ledger_of t) × LinesFit t) }
    ensures kept { KeepsOffice S.Store rows.old.conn.now rows.new.conn.now }
{
    let mut sums = LedgerSums::new(alloc);
    'rows: for _ in 0..u64::MAX {
        match take_row(rows)? {
            Some(row) => sums.take(row)?,
            None => return sums.finish(),
        }
    }
    Err(ShelfFault::Store)
}

/// The ledger, added up while its rows come, so that only one row is in memory. A sum out of its range is a fault of the store.
pub(crate) fn ledger<S: Alter>(
    alloc: Global,
    conn: &mut Connection<S>,
) -> Result<Vec<LedgerRow>, ShelfFault>
    ensures got { HasCleanDisk (state S.Store conn.new) → (t : Tables) → IsSorted t → ShowsTables (state S.Store conn.old) t → IfOk result (λ ledger. (ledger.items ≡ ledger_of t) × LinesFit t) }
    ensures kept { KeepsOffice S.Store conn.old conn.new }
{
    join_is_plain();
    join_is_no_write();
    stored_rows_show();
    ready(conn)?;
    match conn.query(list_joined(), &[]) {
        Ok(mut rows) => add_up(alloc, &mut rows),
        Err(error) => Err(fault(error)),
    }
}

/// The reserved amount of each lot of a line, and the sums of each contract of these lots.
pub(crate) fn amounts_of_line<S: Alter>(
    alloc: Global,
    conn: &mut Connection<S>,
    line: &Id,
) -> Result<LineAmounts, ShelfFault>
    ensures got { HasCleanDisk (state S.Store conn.new) → (t : Tables) → IsSorted t → ShowsTables (state S.Store conn.old) t → IfOk result (λ amounts. amounts ≡ amounts_of_line line.now t) }
    ensures kept { HasCleanDisk (state S.Store conn.new) → Refused (state S.Store conn.old) (state S.Store conn.new) }
    ensures survives { Survives (state S.Store conn.old) (state S.Store conn.new) (λ _. ⊥) }
{
    lots_are_shown::<S>();
    stored_rows_show();
    match ask(
        conn,
        list_joined_of_line(),
        &[ValueRef::Text(line.as_bytes())],
    ) {
        Ok(rows) => amounts_of_rows(alloc, rows.as_slice()),
        Err(error) => Err(fault(error)),
    }
}
