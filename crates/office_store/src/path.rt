//! Opens the office in a file of the host.
ghost use Rattle.std.specs.Prelude.{◌≡◌, true, false, None, IfErr, IfOk, IfSome, IsErr, IsOk, IsTrue, OnErr, OnOk};
ghost use Rattle.sqlite_wal.specs.Files.{image_at};
ghost use Rattle.sqlite_std_file.specs.File.{file_is_usable, IsFresh};
ghost use Rattle.sqlite.specs.Files.{file_state};
ghost use Rattle.sqlite.specs.State.{HasCleanDisk};
ghost use Rattle.office_store.specs.Reopening.{EntersFound, OpensBlank, OpensHeld, OpensUsed, RefusesImage};
ghost use Rattle.office_store.specs.SqlMeaning.{LeavesNoOther, LeavesShown};

use crate::found::OpenFault;
use crate::opened::Opened;
use crate::shelf::SqlShelf;
use sqlite::{FileFrom, FileStore, Files, Leftover, Options, Start};
use sqlite_std_file::OpenError;
use std::hash::{BuildHasher, RandomState};
use std::io::{self, ErrorKind};
use std::rt::HostRuntime;

/// How much of an office's file is kept in memory and in the log.
#[derive(Clone, Copy, Debug)]
pub struct Room {
    /// The number of pages that stay in memory. The memory is taken when the file is opened.
    pub pages: usize,
    /// The number of pages by which the log grows before they are copied into the file.
    pub frames: usize,
}

// The two files at a path; missing files are made. Names that the ported `sqlite` uses for another purpose fail.
fn files_at<S: Start>(
    rt: &HostRuntime,
    path: &str,
    start: S,
) -> Result<Files<FileFrom<S>>, OpenFault>
    ensures usable { IfOk result (λ files. IsTrue (file_is_usable S.Start files.log) × IsTrue (file_is_usable S.Start files.db)) }
    ensures fresh { IfOk result (λ files. IsFresh true files.log × IsFresh false files.db) }
    ensures cause { IfErr result (λ fault. fault ≡ OpenFault.NotAnOffice → ⊥) }
{
    if path == ":memory:" || path.starts_with("file:") {
        return Err(OpenFault::Store);
    }
    match sqlite_std_file::open(rt, path, start) {
        Ok(files) => Ok(files),
        Err(OpenError::OutOfMemory) => Err(OpenFault::NoMemory),
        Err(OpenError::Io(error)) if error.kind() == ErrorKind::OutOfMemory => {
            Err(OpenFault::NoMemory)
        }
        Err(_) => Err(OpenFault::Store),
    }
}

// The options of the store, with a seed for the salts of its log from this random state. `Store` exactly if the computer gave none.
fn options_for(random: io::Result<RandomState>, room: Room) -> Result<Options, OpenFault>
    ensures pages { IfOk result (λ options. options.cache_pages ≡ room.pages) }
    ensures frames { IfOk result (λ options. options.checkpoint_frames ≡ room.frames) }
    ensures fault { IfErr result (λ fault. fault ≡ OpenFault.Store) }
    ensures cause { OnErr result (IsErr random) }
    ensures right { OnOk result (IsOk random) }
{
    let Ok(state) = random else {
        return Err(OpenFault::Store);
    };
    let mut options = Options::new(state.hash_one(&0u8));
    options.cache_pages = room.pages;
    options.checkpoint_frames = room.frames;
    Ok(options)
}

impl<S: Start> SqlShelf<FileStore<FileFrom<S>>> {
    /// Opens the office in a file of the host, or makes or migrates one, like `open_files`. No clause can tie the path to a file: `S` has the bytes of the
    /// two files, and the clauses are proved for any bytes. `main` passes `Unknown`. After the files were opened, a refusal returns what is left of them.
    pub fn open_from(
        rt: &HostRuntime,
        path: &str,
        start: S,
        room: Room,
    ) -> Result<Opened<FileFrom<S>>, (OpenFault, Option<Leftover<FileFrom<S>>>)>
        ensures is_open { IfOk result (λ opened. HasCleanDisk (file_state opened.shelf.0) → IsTrue (file_state opened.shelf.0).is_open) }
        ensures sound { IfOk result (λ opened. HasCleanDisk (file_state opened.shelf.0) → LeavesShown (file_state opened.shelf.0)) }
        ensures alone { IfOk result (λ opened. HasCleanDisk (file_state opened.shelf.0) → LeavesNoOther (file_state opened.shelf.0)) }
        ensures count { IfOk result (λ opened. opened.shelf.1 ≡ 0) }
        ensures held { IfOk result (λ opened. OpensHeld (image_at S.Start) opened.shelf.0) }
        ensures blank { IfOk result (λ opened. OpensBlank (image_at S.Start) opened.shelf.0) }
        ensures enters { IfOk result (λ opened. HasCleanDisk (file_state opened.shelf.0) → EntersFound (image_at S.Start) opened.origin opened.shelf.0) }
        ensures used { IfOk result (λ opened. HasCleanDisk (file_state opened.shelf.0) → OpensUsed (image_at S.Start) opened.origin) }
        ensures refused { IfErr result (λ refusal. IfSome refusal.1 (λ left. RefusesImage (image_at S.Start) refusal.0 left)) }
        ensures unopened { IfErr result (λ refusal. refusal.1 ≡ None → refusal.0 ≡ OpenFault.NotAnOffice → ⊥) }
    {
        let files = match files_at(rt, path, start) {
            Ok(files) => files,
            Err(fault) => return Err((fault, None)),
        };
        let options = match options_for(RandomState::new(rt), room) {
            Ok(options) => options,
            Err(fault) => return Err((fault, None)),
        };
        match SqlShelf::open_files(rt.alloc(), files, options) {
            Ok(opened) => Ok(opened),
            Err((fault, left)) => Err((fault, Some(left))),
        }
    }
}
