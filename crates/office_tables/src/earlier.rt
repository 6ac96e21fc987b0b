//! Offices of earlier editions: how to read their former notices and their clock, and the first half of their migration.
ghost use Rattle.std.specs.Prelude.{◌≡◌, ℕ, [], Some, Ok, Err, IfOk, IfErr, IsTrue, OnOk, OnErr, map, option_map};
ghost use Rattle.sqlite.specs.Held.{state};
ghost use Rattle.sqlite.specs.State.{HasCleanDisk, Survives, ExecutesInside};
ghost use Rattle.office_tables.specs.Tables.Office.{clock_values, upsert_office};
ghost use Rattle.office_tables.specs.Earlier.{TellsEdition, Begins, Renews, DropsFormer, had_former, former_part, drop_version};
ghost use Rattle.office_tables.specs.Statements.{OneFails, RunAll, beginning, drops, renewal};
ghost use Rattle.office_tables.specs.Steps.{Refused};
ghost use Rattle.office_tables.specs.declared.tables.office.FormerClock.{FormerClock};
ghost use Rattle.office_tables.specs.declared.tables.notices.FormerNotice.{FormerNotice};

use crate::ask::{ask_all, ask_first};
use crate::editions::{had_former, make_later};
use crate::statement::execute_one;
use crate::tables::notices::FormerNotice;
use crate::tables::office;
use crate::tables::office::FormerClock;
use office_base::records::ClockRow;
use office_base::shelf::ShelfFault;
use sqlite::{Alter, Connection, Error, Transaction};
use std::alloc::Global;

/// The notices that are stored in `notices`, in the order of their identifiers.
pub fn former_notices<S: Alter>(
    alloc: Global,
    conn: &mut Connection<S>,
) -> Result<Vec<FormerNotice>, ShelfFault>
    ensures got { TellsEdition S.Store conn.old conn.new result (λ edition t rows. map (λ (r : FormerNotice). r.row) rows.items ≡ former_part (had_former edition) t.notices) }
    ensures kept { HasCleanDisk (state S.Store conn.new) → Refused (state S.Store conn.old) (state S.Store conn.new) }
    ensures survives { Survives (state S.Store conn.old) (state S.Store conn.new) (λ _. ⊥) }
{
    ask_all(
        alloc,
        conn,
        "SELECT notice, title, published, deadline, validity, standstill, weight, state, opened, amendments, releases FROM notices ORDER BY notice",
        &[],
    )
}

// The clock of the one row of `office`. No row is a fault of the store.
fn clock_of(found: Option<FormerClock>) -> Result<ClockRow, ShelfFault>
    ensures { IfOk result (λ clock. option_map (λ (former : FormerClock). former.row) found ≡ Some clock) }
{
    match found {
        Some(former) => Ok(former.row),
        None => Err(ShelfFault::Store),
    }
}

/// The clock of an office of an earlier version.
pub fn former_clock<S: Alter>(
    alloc: Global,
    conn: &mut Connection<S>,
) -> Result<ClockRow, ShelfFault>
    ensures got { TellsEdition S.Store conn.old conn.new result (λ edition t clock. clock ≡ t.clock) }
    ensures kept { HasCleanDisk (state S.Store conn.new) → Refused (state S.Store conn.old) (state S.Store conn.new) }
    ensures survives { Survives (state S.Store conn.old) (state S.Store conn.new) (λ _. ⊥) }
{
    match ask_first(
        alloc,
        conn,
        "SELECT version, moment, receipts, awards FROM office",
        &[],
    ) {
        Ok(found) => clock_of(found),
        Err(fault) => Err(fault),
    }
}

// Deletes the notices that are stored in `notices`, if the edition has them there.
fn drop_notices<S: Alter>(tx: &mut Transaction<'_, S>, edition: u64) -> Result<(), Error>
    ensures same_reference { tx.new.conn.ghost_name ≡ tx.old.conn.ghost_name }
    ensures dropped { HasCleanDisk (state S.Store tx.new.conn.now) → IsTrue (state S.Store tx.old.conn.now).in_transaction → OnOk result (DropsFormer S.Store (had_former edition) tx.old.conn.now tx.new.conn.now) }
    ensures fails { HasCleanDisk (state S.Store tx.new.conn.now) → IsTrue (state S.Store tx.old.conn.now).in_transaction → IfErr result (OneFails S.Store (drops edition) tx.old.conn.now tx.new.conn.now) }
    ensures refused { HasCleanDisk (state S.Store tx.new.conn.now) → IsTrue (state S.Store tx.old.conn.now).in_transaction → OnErr result (Refused (state S.Store tx.old.conn.now) (state S.Store tx.new.conn.now)) }
    ensures survives { Survives (state S.Store tx.old.conn.now) (state S.Store tx.new.conn.now) (λ _. ⊥) }
{
    if had_former(edition) {
        execute_one(tx, "DELETE FROM notices", &[])
    } else {
        Ok(())
    }
}

// Deletes the version, and the clock with it.
fn drop_version<S: Alter>(tx: &mut Transaction<'_, S>) -> Result<(), Error>
    ensures same_reference { tx.new.conn.ghost_name ≡ tx.old.conn.ghost_name }
    ensures ran { HasCleanDisk (state S.Store tx.new.conn.now) → IsTrue (state S.Store tx.old.conn.now).in_transaction → OnOk result ((count : ℕ) × ExecutesInside 0 drop_version [] (state S.Store tx.old.conn.now) (state S.Store tx.new.conn.now) (Ok count)) }
    ensures fails { HasCleanDisk (state S.Store tx.new.conn.now) → IsTrue (state S.Store tx.old.conn.now).in_transaction → IfErr result (λ e. ExecutesInside 0 drop_version [] (state S.Store tx.old.conn.now) (state S.Store tx.new.conn.now) (Err e)) }
    ensures refused { HasCleanDisk (state S.Store tx.new.conn.now) → IsTrue (state S.Store tx.old.conn.now).in_transaction → OnErr result (Refused (state S.Store tx.old.conn.now) (state S.Store tx.new.conn.now)) }
    ensures survives { Survives (state S.Store tx.old.conn.now) (state S.Store tx.new.conn.now) (λ _. ⊥) }
{
    execute_one(tx, "DELETE FROM office", &[])
}

// Inserts this program's version, with this clock.
fn put_version<S: Alter>(tx: &mut Transaction<'_, S>, clock: &ClockRow) -> Result<(), Error>
    ensures same_reference { tx.new.conn.ghost_name ≡ tx.old.conn.ghost_name }
    ensures ran { HasCleanDisk (state S.Store tx.new.conn.now) → IsTrue (state S.Store tx.old.conn.now).in_transaction → OnOk result ((count : ℕ) × ExecutesInside 0 upsert_office (clock_values clock.now) (state S.Store tx.old.conn.now) (state S.Store tx.new.conn.now) (Ok count)) }
    ensures fails { HasCleanDisk (state S.Store tx.new.conn.now) → IsTrue (state S.Store tx.old.conn.now).in_transaction → IfErr result (λ e. ExecutesInside 0 upsert_office (clock_values clock.now) (state S.Store tx.old.conn.now) (state S.Store tx.new.conn.now) (Err e)) }
    ensures refused { HasCleanDisk (state S.Store tx.new.conn.now) → IsTrue (state S.Store tx.old.conn.now).in_transaction → OnErr result (Refused (state S.Store tx.old.conn.now) (state S.Store tx.new.conn.now)) }
    ensures survives { Survives (state S.Store tx.old.conn.now) (state S.Store tx.new.conn.now) (λ _. ⊥) }
{
    execute_one(tx, office::PUT, &office::clock_values(clock))
}

// Deletes the notices in `notices` and the version, and inserts this program's version with the clock.
fn renew<S: Alter>(tx: &mut Transaction<'_, S>, edition: u64, clock: &ClockRow) -> Result<(), Error>
    ensures same_reference { tx.new.conn.ghost_name ≡ tx.old.conn.ghost_name }
    ensures renewed { HasCleanDisk (state S.Store tx.new.conn.now) → IsTrue (state S.Store tx.old.conn.now).in_transaction → OnOk result (Renews S.Store edition clock.now tx.old.conn.now tx.new.conn.now) }
    ensures fails { HasCleanDisk (state S.Store tx.new.conn.now) → IsTrue (state S.Store tx.old.conn.now).in_transaction → IfErr result (OneFails S.Store (renewal edition clock.now) tx.old.conn.now tx.new.conn.now) }
    ensures refused { HasCleanDisk (state S.Store tx.new.conn.now) → IsTrue (state S.Store tx.old.conn.now).in_transaction → OnErr result (Refused (state S.Store tx.old.conn.now) (state S.Store tx.new.conn.now)) }
    ensures survives { Survives (state S.Store tx.old.conn.now) (state S.Store tx.new.conn.now) (λ _. ⊥) }
{
    drop_notices(tx, edition)?;
    drop_version(tx)?;
    put_version(tx, clock)
}

/// Turns an office of this edition into one of this program. It makes the missing tables, deletes the notices in `notices`, and renews the version with the
/// clock. The caller must then put those notices again. If it fails, nothing is committed.
pub fn begin_current<S: Alter>(
    tx: &mut Transaction<'_, S>,
    edition: u64,
    clock: &ClockRow,
) -> Result<(), Error>
    ensures same_reference { tx.new.conn.ghost_name ≡ tx.old.conn.ghost_name }
    ensures begins { HasCleanDisk (state S.Store tx.new.conn.now) → IsTrue (state S.Store tx.old.conn.now).in_transaction → OnOk result (Begins edition clock.now (state S.Store tx.old.conn.now) (state S.Store tx.new.conn.now)) }
    ensures ran { HasCleanDisk (state S.Store tx.new.conn.now) → IsTrue (state S.Store tx.old.conn.now).in_transaction → OnOk result (RunAll S.Store (beginning edition clock.now) tx.old.conn.now tx.new.conn.now) }
    ensures fails { HasCleanDisk (state S.Store tx.new.conn.now) → IsTrue (state S.Store tx.old.conn.now).in_transaction → IfErr result (OneFails S.Store (beginning edition clock.now) tx.old.conn.now tx.new.conn.now) }
    ensures refused { HasCleanDisk (state S.Store tx.new.conn.now) → IsTrue (state S.Store tx.old.conn.now).in_transaction → OnErr result (Refused (state S.Store tx.old.conn.now) (state S.Store tx.new.conn.now)) }
    ensures survives { Survives (state S.Store tx.old.conn.now) (state S.Store tx.new.conn.now) (λ _. ⊥) }
{
    make_later(tx, edition)?;
    renew(tx, edition, clock)
}
