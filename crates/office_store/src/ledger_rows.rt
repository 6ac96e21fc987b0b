//! The joined rows of the ledger, one at a time.
ghost use Rattle.std.specs.Prelude.{◌≡◌, false, [], List, IsTrue, IsNone, IfNone, IfOk, OnOk, OnErr};
ghost use Rattle.sqlite.specs.Held.{state};
ghost use Rattle.sqlite.specs.State.{HasCleanDisk, IsUnchanged, Survives};
ghost use Rattle.office_base.specs.Shelves.{Keeps};
ghost use Rattle.office_base.specs.Tables.{Tables, IsSorted};
ghost use Rattle.office_tables.specs.Steps.{Refused, ShowsTables};
ghost use Rattle.office_ledger.specs.declared.joined.JoinedRow.{JoinedRow as Joined};
ghost use Rattle.office_store.specs.SqlMeaning.{sql_meaning};

use crate::joined_rows::take_row;
use crate::shelf::SqlShelf;
use office_base::shelf::ShelfFault;
use office_ledger::joined::JoinedRow;
use office_ledger::select::{join_is_no_write, join_is_plain, list_joined, stored_rows_show};
use office_tables::faults::fault;
use sqlite::{Alter, Connection, Rows};

/// The joined rows of the ledger, in the order of their keys. They may be dropped after any row.
#[derive(Drop)]
pub struct LedgerRows<'a, S: Alter> {
    rows: Rows<'a, S>,
    is_broken: bool,
}

// Fails if the store was shut or is in a transaction.
pub(crate) fn ready<S: Alter>(conn: &mut Connection<S>) -> Result<(), ShelfFault>
    ensures unchanged { HasCleanDisk (state S.Store conn.new) → OnOk result (IsUnchanged (state S.Store conn.old) (state S.Store conn.new)) }
    ensures settled { HasCleanDisk (state S.Store conn.new) → OnOk result ((state S.Store conn.new).now ≡ (state S.Store conn.new).committed) }
    ensures kept { HasCleanDisk (state S.Store conn.new) → Refused (state S.Store conn.old) (state S.Store conn.new) }
    ensures survives { Survives (state S.Store conn.old) (state S.Store conn.new) (λ _. ⊥) }
{
    if !conn.is_autocommit() {
        return Err(ShelfFault::Store);
    }
    if let Err(error) = conn.prepare(list_joined()) {
        return Err(fault(error));
    }
    Ok(())
}

impl<'a, S: Alter> LedgerRows<'a, S> {
    ghost use Rattle.office_store.specs.LedgerRows.{HasTaken, TakesOn, IsBroken, IsAtEnd, KeepsOffice};

    fn begin(conn: &'a mut Connection<S>) -> Result<LedgerRows<'a, S>, ShelfFault>
        ensures same_reference { IfOk result (λ it. it.rows.conn.ghost_name ≡ conn.entry.ghost_name) }
        ensures begun { IfOk result (λ it. HasCleanDisk (state S.Store it.rows.conn.now) → (t : Tables) → IsSorted t → ShowsTables (state S.Store conn.old) t → HasTaken S.Store it.rows.conn.now t []) }
        ensures kept { IfOk result (λ it. KeepsOffice S.Store conn.old it.rows.conn.now) }
        ensures unbroken { IfOk result (λ it. it.is_broken ≡ false) }
    {
        join_is_plain();
        join_is_no_write();
        stored_rows_show();
        ready(conn)?;
        match conn.query(list_joined(), &[]) {
            Ok(rows) => Ok(LedgerRows {
                rows,
                is_broken: false,
            }),
            Err(error) => Err(fault(error)),
        }
    }

    /// The next row, or `None` after the last. After a fault, each further call returns `Store`.
    pub fn next(&mut self) -> Result<Option<JoinedRow>, ShelfFault>
        ensures same_reference { self.new.rows.conn.ghost_name ≡ self.old.rows.conn.ghost_name }
        ensures kept { KeepsOffice S.Store self.old.rows.conn.now self.new.rows.conn.now }
        ensures rows { HasCleanDisk (state S.Store self.new.rows.conn.now) → (t : Tables) (taken : List Joined) → HasTaken S.Store self.old.rows.conn.now t taken → IfOk result (TakesOn S.Store self.new.rows.conn.now t taken) }
        ensures ends { IfOk result (λ row. IfNone row (IsAtEnd S.Store self.new)) }
        ensures ended { IsAtEnd S.Store self.old → IfOk result IsNone }
        ensures fault { OnErr result (IsBroken S.Store self.new) }
        ensures broken { IsBroken S.Store self.old → result ≡ Err ShelfFault.Store }
    {
        if self.is_broken {
            return Err(ShelfFault::Store);
        }
        match take_row(&mut self.rows) {
            Ok(row) => Ok(row),
            Err(fault) => {
                self.is_broken = true;
                Err(fault)
            }
        }
    }
}

impl<S: Alter> SqlShelf<S> {
    ghost use Rattle.office_store.specs.LedgerRows.{HasTaken, shelf_left};

    /// The joined rows of the ledger, one at a time. `faults` doesn't count the faults that they return.
    pub fn ledger_rows(&mut self) -> Result<LedgerRows<'_, S>, ShelfFault>
        ensures begun { IfOk result (λ it. HasCleanDisk (state S.Store it.rows.conn.now) → (t : Tables) → IsSorted t → ShowsTables (state S.Store self.old.0) t → HasTaken S.Store it.rows.conn.now t []) }
        ensures kept { IfOk result (λ it. Keeps (sql_meaning S.Store) self.old (shelf_left S.Store it self.old.1)) }
        ensures unbroken { IfOk result (λ it. it.is_broken ≡ false) }
    {
        LedgerRows::begin(&mut self.conn)
    }
}
