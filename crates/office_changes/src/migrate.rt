//! Turns an office of an earlier edition into one of this program, in one transaction.
ghost use Rattle.std.specs.Prelude.{◌≡◌, IsTrue, IfErr, OnOk, OnErr, map};
ghost use Rattle.sqlite.specs.Held.{state};
ghost use Rattle.sqlite.specs.State.{HasCleanDisk, Survives};
ghost use Rattle.office_tables.specs.declared.tables.notices.FormerNotice.{FormerNotice};
ghost use Rattle.office_tables.specs.Statements.{OneFails, RunAll, migration, notice_put};
ghost use Rattle.office_tables.specs.Steps.{Puts, Refused};
ghost use Rattle.office_changes.specs.Migration.{Becomes, LeavesCurrent, Migrates, MigrationFails};

use office_base::puts::Put;
use office_base::records::ClockRow;
use office_tables::earlier::begin_current;
use office_tables::tables::begin;
use office_tables::tables::notices::{FormerNotice, put_notice};
use sqlite::{Alter, Connection, Error, Transaction};

// Puts the notices that were in `notices` into the table that this program uses.
fn put_notices<S: Alter>(tx: &mut Transaction<'_, S>, notices: &[FormerNotice]) -> Result<(), Error>
    ensures same_reference { tx.new.conn.ghost_name ≡ tx.old.conn.ghost_name }
    ensures puts { HasCleanDisk (state S.Store tx.new.conn.now) → IsTrue (state S.Store tx.old.conn.now).in_transaction → OnOk result (Puts (state S.Store tx.old.conn.now) (state S.Store tx.new.conn.now) (map (λ (r : FormerNotice). Put.Notice r.row) notices.now)) }
    ensures ran { HasCleanDisk (state S.Store tx.new.conn.now) → IsTrue (state S.Store tx.old.conn.now).in_transaction → OnOk result (RunAll S.Store (map notice_put (map (λ (r : FormerNotice). r.row) notices.now)) tx.old.conn.now tx.new.conn.now) }
    ensures fails { HasCleanDisk (state S.Store tx.new.conn.now) → IsTrue (state S.Store tx.old.conn.now).in_transaction → IfErr result (OneFails S.Store (map notice_put (map (λ (r : FormerNotice). r.row) notices.now)) tx.old.conn.now tx.new.conn.now) }
    ensures refused { HasCleanDisk (state S.Store tx.new.conn.now) → IsTrue (state S.Store tx.old.conn.now).in_transaction → OnErr result (Refused (state S.Store tx.old.conn.now) (state S.Store tx.new.conn.now)) }
    ensures survives { Survives (state S.Store tx.old.conn.now) (state S.Store tx.new.conn.now) (λ _. ⊥) }
{
    begin(tx)?;
    'notices: for notice in notices {
        put_notice(tx, &notice.row)?;
    }
    Ok(())
}

fn make_current<S: Alter>(
    tx: &mut Transaction<'_, S>,
    edition: u64,
    clock: &ClockRow,
    notices: &[FormerNotice],
) -> Result<(), Error>
    ensures same_reference { tx.new.conn.ghost_name ≡ tx.old.conn.ghost_name }
    ensures becomes { HasCleanDisk (state S.Store tx.new.conn.now) → IsTrue (state S.Store tx.old.conn.now).in_transaction → OnOk result (Becomes edition clock.now (map (λ (r : FormerNotice). r.row) notices.now) (state S.Store tx.old.conn.now) (state S.Store tx.new.conn.now)) }
    ensures ran { HasCleanDisk (state S.Store tx.new.conn.now) → IsTrue (state S.Store tx.old.conn.now).in_transaction → OnOk result (RunAll S.Store (migration edition clock.now (map (λ (r : FormerNotice). r.row) notices.now)) tx.old.conn.now tx.new.conn.now) }
    ensures fails { HasCleanDisk (state S.Store tx.new.conn.now) → IsTrue (state S.Store tx.old.conn.now).in_transaction → IfErr result (OneFails S.Store (migration edition clock.now (map (λ (r : FormerNotice). r.row) notices.now)) tx.old.conn.now tx.new.conn.now) }
    ensures refused { HasCleanDisk (state S.Store tx.new.conn.now) → IsTrue (state S.Store tx.old.conn.now).in_transaction → OnErr result (Refused (state S.Store tx.old.conn.now) (state S.Store tx.new.conn.now)) }
    ensures survives { Survives (state S.Store tx.old.conn.now) (state S.Store tx.new.conn.now) (λ _. ⊥) }
{
    begin_current(tx, edition, clock)?;
    put_notices(tx, notices)
}

/// Turns an office of this edition, with this clock and these notices in `notices`, into one of this program. It is one transaction: all of it, or nothing is
/// committed.
pub fn migrate<S: Alter>(
    conn: &mut Connection<S>,
    edition: u64,
    clock: &ClockRow,
    notices: &[FormerNotice],
) -> Result<(), Error>
    ensures migrates { HasCleanDisk (state S.Store conn.new) → OnOk result (Migrates edition clock.now (map (λ (r : FormerNotice). r.row) notices.now) (state S.Store conn.old) (state S.Store conn.new)) }
    ensures refused { HasCleanDisk (state S.Store conn.new) → OnErr result (Refused (state S.Store conn.old) (state S.Store conn.new)) }
    ensures survives { Survives (state S.Store conn.old) (state S.Store conn.new) (LeavesCurrent edition clock.now (map (λ (r : FormerNotice). r.row) notices.now) (state S.Store conn.old)) }
    ensures failed { HasCleanDisk (state S.Store conn.new) → IfErr result (MigrationFails S.Store edition clock.now (map (λ (r : FormerNotice). r.row) notices.now) conn.old conn.new) }
{
    if !conn.is_autocommit() {
        return Err(Error::InvalidQuery);
    }
    let mut tx = conn.transaction();
    make_current(&mut tx, edition, clock, notices)?;
    tx.commit()
}
