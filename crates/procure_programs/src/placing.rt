//! Puts an empty database at a path that nothing has yet. Its pages are smaller than those that the ported `sqlite` gives a new file.
//!
//! The calls that change a folder take a second name, but for the link, which fails if its path is taken. So no file that has the path is replaced, written or
//! removed, whatever it holds. The clause of `place_empty` says so of any folder. No contract can say that a computer's folder is such a one (`HostFolder`).

ghost use Rattle.std.specs.Prelude.{◌≡◌, ◌++◌, true, is_ok, IfErr, IfOk, option_map, string_bytes};
ghost use Rattle.procure_programs.specs.FaultsTold.{IsOfStore};
ghost use Rattle.procure_programs.specs.Placing.{FolderEvents, HasNothingBeside, LeavesOneName, Links, PlacesEmpty, PutsNew, WritesAndLinks};

use crate::blank::empty_database;
use crate::faults::of_unplaced_file;
use crate::second_name::SecondName;
use procure_config::fault::ProgramFault;
use std::alloc::{AllocError, Global};
use std::io::{self, ErrorKind};
use std::string::String;

/// The length of a log that has room for a page: its header has 32 bytes, and a page in it begins with 24.
const WITH_PAGE: u64 = 56;

/// A folder in which a new file is put. The calls that change it are events.
pub trait Folder {
    /// The lock of a folder, which is held until it is dropped.
    type Lock: Drop;

    ghost events: { FolderEvents Self };

    /// The real path of the file that a path names, or none if nothing has the path's name.
    fn find(&self, path: &str) -> io::Result<Option<String>>
        ensures { IfOk result (λ found. events.finds self.now path.now (option_map string_bytes found)) };

    /// The length of the file with this name, or 0 if nothing has it. Whatever isn't a file counts as long.
    fn length(&self, path: &str) -> io::Result<u64>
        ensures { IfOk result (λ n. events.measures self.now path.now n) };

    /// Whether the file with this real path has this second name too.
    fn has_second(&self, real: &str, second: &SecondName) -> io::Result<bool>;

    /// Waits until no other start has the folder of this path locked, and locks it.
    fn lock(&mut self, path: &str) -> io::Result<Self::Lock>
        ensures { events.locks self.old path.now (is_ok result) self.new };

    /// Writes and syncs a file with this second name. A stopped start may have left one, which it replaces.
    fn write(&mut self, second: &SecondName, bytes: &[u8]) -> io::Result<()>
        ensures { events.writes self.old second.now bytes.now (is_ok result) self.new };

    /// Links the file with this second name to a path. `AlreadyExists` if something has the path.
    fn link(&mut self, second: &SecondName, path: &str) -> io::Result<()>
        ensures { events.links self.old second.now path.now (is_ok result) self.new };

    /// Removes this second name, if something has it.
    fn remove(&mut self, second: &SecondName) -> io::Result<()>
        ensures { events.removes self.old second.now (is_ok result) self.new };

    /// Puts the names of a locked folder on the disk.
    fn sync(&self, lock: &Self::Lock) -> io::Result<()>;
}

/// Puts an empty database at the path if nothing has its name. The file is written and synced under its second name, and linked to the path. Then the second
/// name is removed. The store handles any file that exists, even an empty one. It also handles a path with a journal that isn't empty, or with a log that has no
/// page. A log with pages and no file is refused, because its file is missing.
pub fn place_empty<F: Folder>(alloc: Global, folder: &mut F, path: &str) -> Result<(), ProgramFault>
    ensures fault { IfErr result IsOfStore }
    ensures places { PlacesEmpty F.events path.now folder.old folder.new }
{
    if path == ":memory:" || path.starts_with("file:") {
        return Ok(());
    }
    match place_where_free(alloc, folder, path) {
        Ok(()) => Ok(()),
        Err(error) => Err(of_unplaced_file(error)),
    }
}

fn place_where_free<F: Folder>(alloc: Global, folder: &mut F, path: &str) -> io::Result<()>
    ensures { PlacesEmpty F.events path.now folder.old folder.new }
{
    match folder.find(path)? {
        Some(real) => leave_one_name(alloc, folder, real.as_str()),
        None => {
            if has_nothing_beside(alloc, folder, path)? {
                return put_new(alloc, folder, path);
            }
            Ok(())
        }
    }
}

// A stopped start may have left the file its second name, and the store rejects a file with two names. Another file that has this second name stays.
fn leave_one_name<F: Folder>(alloc: Global, folder: &mut F, real: &str) -> io::Result<()>
    ensures { LeavesOneName F.events real.now folder.old folder.new }
{
    let second = SecondName::of(alloc, real)?;
    if folder.has_second(real, &second)? {
        let _ = folder.remove(&second);
    }
    Ok(())
}

fn beside(alloc: Global, path: &str, ending: &str) -> Result<String, AllocError>
    ensures { IfOk result (λ name. string_bytes name ≡ path.now ++ ending.now) }
{
    let mut name = String::from_str(alloc, path)?;
    name.push_str(ending)?;
    Ok(name)
}

// Whether no log and no journal beside the path holds a byte. If the log has room for a page, the file that it belongs to is missing, and this fails.
fn has_nothing_beside<F: Folder>(alloc: Global, folder: &F, path: &str) -> io::Result<bool>
    ensures { IfOk result (λ is_free. is_free ≡ true → HasNothingBeside F.events folder.now path.now) }
{
    let log = beside(alloc, path, "-wal")?;
    let of_log = folder.length(log.as_str())?;
    if of_log >= WITH_PAGE {
        return Err(ErrorKind::Unsupported.into());
    }
    let journal = beside(alloc, path, "-journal")?;
    let of_journal = folder.length(journal.as_str())?;
    Ok(of_log == 0 && of_journal == 0)
}

// While one start writes and links its file, another start in the same folder waits. Otherwise it could link a file that isn't written yet.
fn put_new<F: Folder>(alloc: Global, folder: &mut F, path: &str) -> io::Result<()>
    ensures { PutsNew F.events path.now folder.old folder.new }
{
    let second = SecondName::of(alloc, path)?;
    let lock = folder.lock(path)?;
    let put = write_and_link(folder, &second, path);
    let removed = folder.remove(&second);
    put?;
    removed?;
    folder.sync(&lock)
}

// The file gets its path once it is written whole.
fn write_and_link<F: Folder>(folder: &mut F, second: &SecondName, path: &str) -> io::Result<()>
    ensures { WritesAndLinks F.events second.now path.now folder.old folder.new }
{
    folder.write(second, &empty_database())?;
    link_new(folder, second, path)
}

// If the name is taken by now, or the file system has no hard links, this puts nothing, and the store opens or makes the file.
fn link_new<F: Folder>(folder: &mut F, second: &SecondName, path: &str) -> io::Result<()>
    ensures { Links F.events second.now path.now folder.old folder.new }
{
    match folder.link(second, path) {
        Err(error) => match error.kind() {
            ErrorKind::AlreadyExists | ErrorKind::PermissionDenied | ErrorKind::Unsupported => Ok(
                (),
            ),
            _ => Err(error),
        },
        Ok(()) => Ok(()),
    }
}
