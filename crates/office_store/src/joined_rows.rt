//! Takes joined rows from a query, one at a time.
ghost use Rattle.std.specs.Prelude.{◌≡◌, List, IsNone, IfNone, IfOk};
ghost use Rattle.sqlite.specs.Given.{IsEnded};
ghost use Rattle.sqlite.specs.Held.{state};
ghost use Rattle.sqlite.specs.State.{HasCleanDisk};
ghost use Rattle.office_base.specs.Tables.{Tables};
ghost use Rattle.office_ledger.specs.declared.joined.JoinedRow.{JoinedRow as Joined};
ghost use Rattle.office_store.specs.LedgerRows.{HasTaken, TakesOn, KeepsOffice};

use office_base::shelf::ShelfFault;
use office_ledger::joined::JoinedRow;
use office_ledger::reading::{joined_row, joined_rows_come_back};
use office_ledger::select::{join_is_begun, join_is_shown};
use office_tables::faults::fault;
use sqlite::{Alter, Rows};

/// The next joined row, or `None` after the last.
pub(crate) fn take_row<S: Alter>(rows: &mut Rows<'_, S>) -> Result<Option<JoinedRow>, ShelfFault>
    ensures same_reference { rows.new.conn.ghost_name ≡ rows.old.conn.ghost_name }
    ensures kept { KeepsOffice S.Store rows.old.conn.now rows.new.conn.now }
    ensures rows { HasCleanDisk (state S.Store rows.new.conn.now) → (t : Tables) (taken : List Joined) → HasTaken S.Store rows.old.conn.now t taken → IfOk result (TakesOn S.Store rows.new.conn.now t taken) }
    ensures ends { IfOk result (λ row. IfNone row (IsEnded rows.new.conn.now)) }
    ensures ended { IsEnded rows.old.conn.now → IfOk result IsNone }
{
    join_is_begun::<S>();
    join_is_shown::<S>();
    joined_rows_come_back();
    if let Err(error) = rows.advance() {
        return Err(fault(error));
    }
    match rows.get() {
        Some(row) => match joined_row(row) {
            Ok(joined) => Ok(Some(joined)),
            Err(fault) => Err(fault),
        },
        None => Ok(None),
    }
}
