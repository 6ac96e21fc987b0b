//! Migrates offices of earlier editions when they are opened.
ghost use Rattle.std.specs.Prelude.{◌≡◌, ◌⊎◌, false, nat_lt, IsTrue, OnOk, OnErr, IfErr, map};
ghost use Rattle.sqlite.specs.Held.{state};
ghost use Rattle.sqlite.specs.State.{HasCleanDisk, Survives};
ghost use Rattle.office_tables.specs.declared.tables.notices.FormerNotice.{FormerNotice};
ghost use Rattle.office_tables.specs.Earlier.{TellsEdition, former_part, had_former};
ghost use Rattle.office_tables.specs.Failing.{DiskFails};
ghost use Rattle.office_tables.specs.Steps.{Refused};
ghost use Rattle.office_tables.specs.Tables.Office.{this_version};
ghost use Rattle.office_store.specs.Founding.{Migrated, LeavesMigrated, IsHindered, IsMadeCurrent, LeavesReadied};

use crate::forms::check_forms;
use crate::found::{OpenFault, opening, still_open};
use crate::others::leads_there;
use office_base::records::ClockRow;
use office_base::shelf::ShelfFault;
use office_changes::migrate::migrate;
use office_tables::earlier::{former_clock, former_notices};
use office_tables::faults::fault;
use office_tables::tables::notices::FormerNotice;
use office_tables::tables::office::VERSION;
use sqlite::{Alter, Connection};
use std::alloc::Global;

// The content that an office of an earlier edition keeps in other tables or rows.
#[derive(Drop)]
struct FormerContent {
    clock: ClockRow,
    notices: Vec<FormerNotice>,
}

// Reads the clock and the notices in `notices`, all into memory.
fn former<S: Alter>(alloc: Global, conn: &mut Connection<S>) -> Result<FormerContent, ShelfFault>
    ensures got { TellsEdition S.Store conn.old conn.new result (λ edition t stood. (stood.clock ≡ t.clock) × (map (λ (r : FormerNotice). r.row) stood.notices.items ≡ former_part (had_former edition) t.notices)) }
    ensures kept { HasCleanDisk (state S.Store conn.new) → Refused (state S.Store conn.old) (state S.Store conn.new) }
    ensures survives { Survives (state S.Store conn.old) (state S.Store conn.new) (λ _. ⊥) }
{
    let clock = former_clock(alloc, conn)?;
    let notices = former_notices(alloc, conn)?;
    Ok(FormerContent { clock, notices })
}

// Migrates an office of this edition, with its content, in one transaction. It fails and commits nothing if something else has the name of a missing table.
// It also fails if a foreign key or a view of another program leads to a changed table: rows would be lost with it, or the view would be empty.
fn migrated<S: Alter>(
    alloc: Global,
    conn: &mut Connection<S>,
    edition: u64,
) -> Result<(), ShelfFault>
    ensures migrated { HasCleanDisk (state S.Store conn.new) → OnOk result (Migrated edition (state S.Store conn.old) (state S.Store conn.new)) }
    ensures kept { HasCleanDisk (state S.Store conn.new) → OnErr result (Refused (state S.Store conn.old) (state S.Store conn.new)) }
    ensures survives { Survives (state S.Store conn.old) (state S.Store conn.new) (LeavesMigrated edition (state S.Store conn.old)) }
{
    if !conn.is_autocommit() {
        return Err(ShelfFault::Store);
    }
    if leads_there(edition, conn.schema()) {
        return Err(ShelfFault::Store);
    }
    let stood = former(alloc, conn)?;
    match migrate(conn, edition, &stood.clock, stood.notices.as_slice()) {
        Ok(()) => Ok(()),
        Err(error) => Err(fault(error)),
    }
}

/// Migrates an office of an earlier edition, and leaves one of this program as it is. If a table doesn't have its form, it does neither. After success the
/// store is open.
pub(crate) fn ready<S: Alter>(
    alloc: Global,
    conn: &mut Connection<S>,
    edition: u64,
) -> Result<(), OpenFault>
    ensures readied { HasCleanDisk (state S.Store conn.new) → OnOk result (IsMadeCurrent (nat_lt edition this_version) edition (state S.Store conn.old) (state S.Store conn.new)) }
    ensures is_open { HasCleanDisk (state S.Store conn.new) → OnOk result (IsTrue (state S.Store conn.new).is_open) }
    ensures cause { IfErr result (λ e. e ≡ OpenFault.NotAnOffice → ⊥) }
    ensures failed { HasCleanDisk (state S.Store conn.new) → IfErr result (λ e. e ≡ OpenFault.Store → IsTrue (state S.Store conn.old).is_open → conn.old.in_transaction ≡ false → DiskFails (state S.Store conn.old) (state S.Store conn.new) ⊎ IsHindered edition (state S.Store conn.old)) }
    ensures kept { HasCleanDisk (state S.Store conn.new) → OnErr result (Refused (state S.Store conn.old) (state S.Store conn.new)) }
    ensures survives { Survives (state S.Store conn.old) (state S.Store conn.new) (LeavesReadied edition (state S.Store conn.old)) }
{
    check_forms(alloc, conn, edition)?;
    if edition < VERSION {
        match migrated(alloc, conn, edition) {
            Ok(()) => Ok(()),
            Err(fault) => Err(opening(fault)),
        }
    } else {
        match still_open(conn) {
            Ok(()) => Ok(()),
            Err(fault) => Err(fault),
        }
    }
}
