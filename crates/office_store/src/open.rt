//! Opens and closes an office.
ghost use Rattle.std.specs.Prelude.{◌≡◌, IsTrue, IfOk, IfErr};
ghost use Rattle.sqlite_wal.specs.Reads.{AreClean};
ghost use Rattle.sqlite.specs.Closing.{IsCopied};
ghost use Rattle.sqlite.specs.Files.{file_state, image_of};
ghost use Rattle.sqlite.specs.Held.{state};
ghost use Rattle.sqlite.specs.State.{HasCleanDisk};
ghost use Rattle.sqlite.specs.Steps.{over_memory};
ghost use Rattle.sqlite_store.specs.FileStore.{view};
ghost use Rattle.sqlite_trees.specs.View.{IsClean};
ghost use Rattle.office_base.specs.Faults.{IsFaultOf};
ghost use Rattle.office_base.specs.Tables.{no_tables};
ghost use Rattle.office_tables.specs.Steps.{ShowsTables};
ghost use Rattle.office_store.specs.Reopening.{AreUsable, ClosingFails, EntersFound, IsHalfClosed, IsLeftOf, IsPutDown, IsUsableLeft, OpensAgain, OpensBlank, OpensHeld, OpensUsed, RefusesFiles};
ghost use Rattle.office_store.specs.SqlMeaning.{LeavesNoOther, LeavesOffices, LeavesShown};

use crate::found::{OpenFault, enter, open_fault};
use crate::logs::check_log;
use crate::opened::Opened;
use crate::shelf::SqlShelf;
use office_base::shelf::ShelfFault;
use office_tables::faults::fault;
use office_tables::laws::trees_tell_one_office;
use sqlite::{Connection, FileStore, Files, Leftover, MemStore, Options};
use sqlite_disk::Disk;
use std::alloc::Global;

// Closes a connection, and returns what is left: its files or its store.
fn let_go<D: Disk + Drop>(conn: Connection<FileStore<D>>) -> Leftover<D>
    ensures left { IsLeftOf conn result }
{
    match conn.close_files() {
        Ok(files) => Leftover::Files(files),
        Err((_, store)) => Leftover::Store(store),
    }
}

impl SqlShelf<MemStore> {
    /// An empty office in memory.
    pub fn create(alloc: Global) -> Result<SqlShelf<MemStore>, OpenFault>
        ensures is_open { IfOk result (λ shelf. IsTrue (state over_memory shelf.0).is_open) }
        ensures empty { IfOk result (λ shelf. ShowsTables (state over_memory shelf.0) no_tables) }
        ensures sound { IfOk result (λ shelf. LeavesOffices (state over_memory shelf.0)) }
        ensures count { IfOk result (λ shelf. shelf.1 ≡ 0) }
    {
        let Ok(mut conn) = Connection::open_in_memory(alloc) else {
            return Err(OpenFault::NoMemory);
        };
        match enter(alloc, &mut conn, true) {
            Ok(_) => Ok(SqlShelf {
                alloc,
                conn,
                faults: 0,
            }),
            Err(fault) => Err(fault),
        }
    }
}

impl<D: Disk + Drop> SqlShelf<FileStore<D>> {
    /// Opens the office in two files, or makes one there, and returns which of these it did.
    /// - It makes a new office if there is none and no name of its tables is taken. Other tables keep their rows.
    /// - It migrates an office of an earlier version, with its content. It refuses if a foreign key or a view of another program leads to a changed table.
    /// - It refuses an office if a table doesn't have its form.
    /// - It refuses a log that was used and can't be read, before anything is written. It makes no office beside a used log.
    /// - If the store shows an office, a stop leaves an office.
    /// - A refusal returns what is left of the files: they are closed, or it is their store if they can't be closed.
    pub fn open_files(
        alloc: Global,
        files: Files<D>,
        options: Options,
    ) -> Result<Opened<D>, (OpenFault, Leftover<D>)>
        requires log { IsTrue (D.Disk.is_usable files.log) }
        requires db { IsTrue (D.Disk.is_usable files.db) }
        ensures is_open { IfOk result (λ opened. HasCleanDisk (file_state opened.shelf.0) → IsTrue (file_state opened.shelf.0).is_open) }
        ensures sound { IfOk result (λ opened. HasCleanDisk (file_state opened.shelf.0) → LeavesShown (file_state opened.shelf.0)) }
        ensures alone { IfOk result (λ opened. HasCleanDisk (file_state opened.shelf.0) → LeavesNoOther (file_state opened.shelf.0)) }
        ensures held { IfOk result (λ opened. OpensHeld (image_of D.Disk files) opened.shelf.0) }
        ensures again { IfOk result (λ opened. OpensAgain files opened.shelf.0) }
        ensures blank { IfOk result (λ opened. OpensBlank (image_of D.Disk files) opened.shelf.0) }
        ensures enters { IfOk result (λ opened. HasCleanDisk (file_state opened.shelf.0) → EntersFound (image_of D.Disk files) opened.origin opened.shelf.0) }
        ensures used { IfOk result (λ opened. HasCleanDisk (file_state opened.shelf.0) → OpensUsed (image_of D.Disk files) opened.origin) }
        ensures count { IfOk result (λ opened. opened.shelf.1 ≡ 0) }
        ensures refused { IfErr result (λ refusal. RefusesFiles files refusal.0 refusal.1) }
        ensures usable { IfErr result (λ refusal. refusal.0 ≡ OpenFault.NotAnOffice → IsUsableLeft refusal.1) }
    {
        trees_tell_one_office();
        let mut files = files;
        let is_unused = match check_log(alloc, &mut files) {
            Ok(is_unused) => is_unused,
            Err(fault) => return Err((fault, Leftover::Files(files))),
        };
        let mut conn = match Connection::open_files(alloc, files, options) {
            Ok(conn) => conn,
            Err((error, left)) => return Err((open_fault(error), left)),
        };
        match enter(alloc, &mut conn, is_unused) {
            Ok(origin) => Ok(Opened {
                shelf: SqlShelf {
                    alloc,
                    conn,
                    faults: 0,
                },
                origin,
            }),
            Err(fault) => Err((fault, let_go(conn))),
        }
    }

    /// Gives back the store without closing the office, as a stop of the program does. Nothing is written. The files that a stop then leaves hold an office
    /// that it could leave before, so the next opening finds one.
    pub fn put_down(self) -> FileStore<D>
        ensures left { IsPutDown self.0 result }
    {
        self.into_connection().into_store()
    }

    /// Closes the office and returns its files. If that fails, it returns the store, which isn't closed, and in which the office stays. So it does if the
    /// disk accepts no call from some moment on, as at a stop.
    pub fn close_files(self) -> Result<Files<D>, (ShelfFault, FileStore<D>)>
        ensures copied { IfOk result (λ files. AreClean D.Disk files.log files.db → IsCopied self.0 files) }
        ensures usable { IfOk result (λ files. AreUsable D.Disk files) }
        ensures stopped { IfErr result (λ e. IsHalfClosed self.0 e.1) }
        ensures cause { IfErr result (λ e. IsClean (view e.1) → IsFaultOf (ClosingFails self.0 e.1) e.0) }
    {
        match self.into_connection().close_files() {
            Ok(files) => Ok(files),
            Err((error, store)) => Err((fault(error), store)),
        }
    }
}
