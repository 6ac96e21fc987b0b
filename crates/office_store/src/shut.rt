//! Whether the store of an office was shut for good.
ghost use Rattle.std.specs.Prelude.{◌≡◌, ◌⊎◌, not, IfOk, IfErr, OnOk};
ghost use Rattle.sqlite_disk.specs.Disk.{MoreFaults};
ghost use Rattle.sqlite.specs.Held.{state};
ghost use Rattle.sqlite.specs.State.{HasCleanDisk, Survives};
ghost use Rattle.office_base.specs.Shelves.{Keeps, CountsFaults};
ghost use Rattle.office_tables.specs.Steps.{Refused};
ghost use Rattle.office_store.specs.Shutting.{IsTold, told_by};
ghost use Rattle.office_store.specs.SqlMeaning.{sql_meaning};

use crate::shelf::SqlShelf;
use office_base::shelf::{Lookups, ShelfFault};
use sqlite::{Alter, Connection, Error, ErrorCode};

// Whether the error of a statement shows that its store was shut.
fn tell(error: Error) -> Result<bool, ShelfFault>
    ensures { result ≡ told_by error }
{
    match error {
        Error::SqliteFailure(ErrorCode::Closed) => Ok(true),
        Error::SqliteFailure(ErrorCode::OutOfMemory) => Err(ShelfFault::NoMemory),
        Error::SqliteFailure(
            ErrorCode::SystemIoFailure | ErrorCode::DatabaseCorrupt | ErrorCode::DiskFull,
        ) => Err(ShelfFault::Store),
        _ => Ok(false),
    }
}

/// Whether the store was shut. It prepares a statement: an open store reads it, and a store that was shut says so.
pub(crate) fn ask<S: Alter>(conn: &mut Connection<S>) -> Result<bool, ShelfFault>
    ensures told { HasCleanDisk (state S.Store conn.new) → IsTold (state S.Store conn.old) (state S.Store conn.new) result }
    ensures kept { HasCleanDisk (state S.Store conn.new) → Refused (state S.Store conn.old) (state S.Store conn.new) }
    ensures survives { Survives (state S.Store conn.old) (state S.Store conn.new) (λ _. ⊥) }
{
    if let Err(error) = conn.prepare("SELECT version FROM office") {
        return tell(error);
    }
    Ok(false)
}

impl<S: Alter> SqlShelf<S> {
    /// Whether a fault of the disk shut the store for good. Then it returns only faults, until the office is opened again. The call changes nothing.
    /// `NoMemory` means that memory was too small to ask, `Store` that the disk failed meanwhile.
    pub fn is_shut(&mut self) -> Result<bool, ShelfFault>
        ensures told { HasCleanDisk (state S.Store self.new.0) → IfOk result (λ shut. shut ≡ not (state S.Store self.old.0).is_open) }
        ensures lasts { HasCleanDisk (state S.Store self.new.0) → OnOk result ((state S.Store self.new.0).is_open ≡ (state S.Store self.old.0).is_open) }
        ensures cause { HasCleanDisk (state S.Store self.new.0)
            → IfErr result (λ fault. (fault ≡ ShelfFault.NoMemory) ⊎ MoreFaults (state S.Store self.old.0).faults (state S.Store self.new.0).faults) }
        ensures keeps { Keeps (sql_meaning S.Store) self.old self.new }
        ensures counts { CountsFaults (sql_meaning S.Store) self.old self.new result }
    {
        match ask(&mut self.conn) {
            Ok(shut) => Ok(shut),
            Err(fault) => Err(self.count(fault)),
        }
    }
}
