//! Queries over the last commit, inside a transaction of their own.
ghost use Rattle.std.specs.Prelude.{◌≡◌, ◌⊎◌, false, List, Option, IsTrue, IfOk, IfErr, IfSome, OnOk, map, slice_get, option_map};
ghost use Rattle.std.specs.List.{AllByRecursion};
ghost use Rattle.sqlite_value.specs.Order.{Row as Values};
ghost use Rattle.sqlite.specs.Held.{state};
ghost use Rattle.sqlite.specs.State.{HasCleanDisk, Survives, Shown, FailsToQuery, IsTooLate};
ghost use Rattle.sqlite.specs.Values.{bound};
ghost use Rattle.office_base.specs.Tables.{Tables};
ghost use Rattle.office_tables.specs.Unwritten.{IsUnwritten};
ghost use Rattle.office_tables.specs.Failing.{IsUnread};
ghost use Rattle.office_tables.specs.Steps.{IsAsked, IsRefusal, IsRefusedBy, Refused, FindsPart, TellsOnly};

use crate::faults::fault;
use crate::stored::{Stored, all, first};
use office_base::shelf::ShelfFault;
use sqlite::{Alter, Connection, Error, Row, Transaction};
use sqlite_value::value::ValueRef;
use std::alloc::Global;

// The rows of a query, inside a transaction that is open.
fn ask_inside<S: Alter>(
    tx: &mut Transaction<'_, S>,
    sql: &str,
    values: &[ValueRef<'_>],
) -> Result<Vec<Row>, Error>
    requires inside { IsTrue (state S.Store tx.old.conn.now).in_transaction }
    ensures same_reference { tx.new.conn.ghost_name ≡ tx.old.conn.ghost_name }
    ensures shown { HasCleanDisk (state S.Store tx.new.conn.now) → IfOk result (λ rows. Shown sql.now (bound values.now) (state S.Store tx.old.conn.now) (state S.Store tx.new.conn.now) rows.items) }
    ensures failed { HasCleanDisk (state S.Store tx.new.conn.now) → IfErr result (λ e. FailsToQuery sql.now (bound values.now) (state S.Store tx.old.conn.now) (state S.Store tx.new.conn.now) e ⊎ IsTooLate sql.now (bound values.now) (state S.Store tx.old.conn.now) (state S.Store tx.new.conn.now) e) }
    ensures opened { HasCleanDisk (state S.Store tx.new.conn.now) → OnOk result (IsTrue (state S.Store tx.old.conn.now).is_open) }
    ensures kept { HasCleanDisk (state S.Store tx.new.conn.now) → Refused (state S.Store tx.old.conn.now) (state S.Store tx.new.conn.now) }
    ensures survives { Survives (state S.Store tx.old.conn.now) (state S.Store tx.new.conn.now) (λ _. ⊥) }
{
    tx.query_all(sql, values)
}

/// The rows of a query over the last commit. It runs in a transaction that is rolled back, so that a stop can't leave anything new, whatever the text says.
pub fn ask<S: Alter>(
    conn: &mut Connection<S>,
    sql: &str,
    values: &[ValueRef<'_>],
) -> Result<Vec<Row>, Error>
    ensures asked { HasCleanDisk (state S.Store conn.new) → IfOk result (λ rows. IsAsked S.Store sql.now (bound values.now) conn.old rows.items) }
    ensures refused { HasCleanDisk (state S.Store conn.new) → IfErr result (IsRefusal S.Store sql.now (bound values.now) conn.old) }
    ensures failed { HasCleanDisk (state S.Store conn.new) → IfErr result (IsRefusedBy S.Store sql.now (bound values.now) conn.old conn.new) }
    ensures ended { conn.old.in_transaction ≡ false → conn.new.in_transaction ≡ false }
    ensures kept { HasCleanDisk (state S.Store conn.new) → Refused (state S.Store conn.old) (state S.Store conn.new) }
    ensures survives { Survives (state S.Store conn.old) (state S.Store conn.new) (λ _. ⊥) }
{
    if !conn.is_autocommit() {
        return Err(Error::InvalidQuery);
    }
    let mut tx = conn.transaction();
    let rows = ask_inside(&mut tx, sql, values);
    tx.rollback();
    rows
}

/// The record of an answer's first row, or `None` if there are no rows.
pub fn ask_first<S: Alter, R: Stored>(
    alloc: Global,
    conn: &mut Connection<S>,
    sql: &str,
    values: &[ValueRef<'_>],
) -> Result<Option<R>, ShelfFault>
    ensures asked { HasCleanDisk (state S.Store conn.new) → IfOk result (λ found. (rows : List Values) × IsAsked S.Store sql.now (bound values.now) conn.old rows × (found ≡ option_map R.read (slice_get rows 0))) }
    ensures told { (part : Tables → Option R) → FindsPart S.Store sql.now (bound values.now) (λ rows. option_map R.read (slice_get rows 0)) part → TellsOnly S.Store conn.old conn.new result (λ t found. found ≡ part t) }
    ensures exact { HasCleanDisk (state S.Store conn.new) → IfOk result (λ found. (rows : List Values) × IsAsked S.Store sql.now (bound values.now) conn.old rows × (option_map R.row_of found ≡ slice_get rows 0)) }
    ensures cause { HasCleanDisk (state S.Store conn.new) → IfErr result (IsUnread S.Store sql.now (bound values.now) conn.old (λ rows. IsUnwritten (option_map R.row_of) (λ found. IfSome found R.fits) (slice_get rows 0))) }
    ensures kept { HasCleanDisk (state S.Store conn.new) → Refused (state S.Store conn.old) (state S.Store conn.new) }
    ensures survives { Survives (state S.Store conn.old) (state S.Store conn.new) (λ _. ⊥) }
{
    match ask(conn, sql, values) {
        Ok(rows) => first(alloc, rows.as_slice()),
        Err(error) => Err(fault(error)),
    }
}

/// The records of all rows of an answer.
pub fn ask_all<S: Alter, R: Stored + Drop>(
    alloc: Global,
    conn: &mut Connection<S>,
    sql: &str,
    values: &[ValueRef<'_>],
) -> Result<Vec<R>, ShelfFault>
    ensures asked { HasCleanDisk (state S.Store conn.new) → IfOk result (λ found. (rows : List Values) × IsAsked S.Store sql.now (bound values.now) conn.old rows × (found.items ≡ map R.read rows)) }
    ensures told { (part : Tables → List R) → FindsPart S.Store sql.now (bound values.now) (map R.read) part → TellsOnly S.Store conn.old conn.new result (λ t found. found.items ≡ part t) }
    ensures exact { HasCleanDisk (state S.Store conn.new) → IfOk result (λ found. (rows : List Values) × IsAsked S.Store sql.now (bound values.now) conn.old rows × (map R.row_of found.items ≡ rows)) }
    ensures cause { HasCleanDisk (state S.Store conn.new) → IfErr result (IsUnread S.Store sql.now (bound values.now) conn.old (IsUnwritten (map R.row_of) (AllByRecursion R.fits))) }
    ensures kept { HasCleanDisk (state S.Store conn.new) → Refused (state S.Store conn.old) (state S.Store conn.new) }
    ensures survives { Survives (state S.Store conn.old) (state S.Store conn.new) (λ _. ⊥) }
{
    match ask(conn, sql, values) {
        Ok(rows) => all(alloc, rows.as_slice()),
        Err(error) => Err(fault(error)),
    }
}
