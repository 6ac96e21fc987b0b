//! The files of a computer, as far as an office needs them. A function that is given these and no `HostRuntime` can open no network of its own.
ghost use Rattle.std.specs.Prelude.{◌≡◌, ◌≤◌, None, IfErr, IfOk, IfSome};
ghost use Rattle.sqlite_wal.specs.Files.{image_at};
ghost use Rattle.sqlite.specs.Files.{file_state};
ghost use Rattle.sqlite.specs.State.{HasCleanDisk};
ghost use Rattle.office_store.specs.Reopening.{EntersFound, OpensBlank, OpensHeld, OpensUsed, RefusesImage};
ghost use Rattle.office_store.specs.SqlMeaning.{LeavesNoOther, LeavesShown};

use crate::placing::Folder;
use crate::room::page_size_at;
use crate::second_name::SecondName;
use office_store::found::OpenFault;
use office_store::opened::{Opened, Origin};
use office_store::path::Room;
use office_store::shelf::SqlShelf;
use sqlite::{FileFrom, FileStore, Leftover, Start};
use std::alloc::Global;
use std::fs::{self, File, OpenOptions};
use std::io::{self, ErrorKind};
use std::os::unix::fs::{FileExt, MetadataExt, OpenOptionsExt};
use std::path::PathBuf;
use std::string::String;

/// The files of a computer, its memory, and its standard error for a word about them.
#[derive(Drop)]
pub struct HostFiles<'a> {
    rt: &'a HostRuntime,
}

impl<'a> HostFiles<'a> {
    /// The files of this computer.
    pub fn new(rt: &'a HostRuntime) -> HostFiles<'a> {
        HostFiles { rt }
    }

    /// The memory.
    pub fn alloc(&self) -> Global {
        self.rt.alloc()
    }

    /// The page size of the file at a path, or the usual one if it can't be read.
    pub fn page_size_at(&self, path: &str) -> usize
        ensures { 512 ≤ result }
    {
        page_size_at(self.rt, path)
    }

    /// Opens the office in a file, as `SqlShelf::open_from` does.
    pub fn open<S: Start>(
        &mut self,
        path: &str,
        start: S,
        room: Room,
    ) -> Result<Opened<FileFrom<S>>, (OpenFault, Option<Leftover<FileFrom<S>>>)>
        ensures sound { IfOk result (λ opened. HasCleanDisk (file_state opened.shelf.0) → LeavesShown (file_state opened.shelf.0)) }
        ensures alone { IfOk result (λ opened. HasCleanDisk (file_state opened.shelf.0) → LeavesNoOther (file_state opened.shelf.0)) }
        ensures held { IfOk result (λ opened. OpensHeld (image_at S.Start) opened.shelf.0) }
        ensures blank { IfOk result (λ opened. OpensBlank (image_at S.Start) opened.shelf.0) }
        ensures enters { IfOk result (λ opened. HasCleanDisk (file_state opened.shelf.0) → EntersFound (image_at S.Start) opened.origin opened.shelf.0) }
        ensures used { IfOk result (λ opened. HasCleanDisk (file_state opened.shelf.0) → OpensUsed (image_at S.Start) opened.origin) }
        ensures refused { IfErr result (λ refusal. IfSome refusal.1 (λ left. RefusesImage (image_at S.Start) refusal.0 left)) }
    {
        SqlShelf::open_from(self.rt, path, start, room)
    }

    /// Reports on the standard error if an office was made or migrated as the file was opened. If this can't be written, nothing is lost.
    pub fn tell_origin(&mut self, path: &str, origin: Origin) {
        let _ = match origin {
            Origin::Found => Ok(()),
            Origin::Migrated => eprintln!(self.rt;
                "procure: an office of version 1 in {path} was migrated to version 2"
            ),
            Origin::Made => eprintln!(self.rt; "procure: an empty office was made in {path}"),
        };
    }

    fn folder_of(&self, path: &str) -> io::Result<File> {
        let mut folder = PathBuf::from_str(self.rt.alloc(), path)?;
        folder.pop();
        folder.push(".")?;
        fs::open(self.rt, folder.as_str())
    }
}

impl<'a> Folder for HostFiles<'a> {
    type Lock = File;

    ghost events = { record {
      finds = λ _ _ _. Unit {0};
      measures = λ _ _ _. Unit {0};
      locks = λ _ _ _ _. Unit {0};
      writes = λ _ _ _ _ _. Unit {0};
      links = λ _ _ _ _ _. Unit {0};
      removes = λ _ _ _ _. Unit {0};
    } };

    fn find(&self, path: &str) -> io::Result<Option<String>> {
        match fs::canonicalize(self.rt, path) {
            Ok(real) => Ok(Some(real.into_string())),
            Err(error) if error.kind() == ErrorKind::NotFound => Ok(None),
            Err(error) => Err(error),
        }
    }

    fn length(&self, path: &str) -> io::Result<u64> {
        match fs::symlink_metadata(self.rt, path) {
            Ok(found) if found.is_file() => Ok(found.len()),
            Ok(_) => Ok(u64::MAX),
            Err(error) if error.kind() == ErrorKind::NotFound => Ok(0),
            Err(error) => Err(error),
        }
    }

    fn has_second(&self, real: &str, second: &SecondName) -> io::Result<bool> {
        let file = fs::metadata(self.rt, real)?;
        match fs::symlink_metadata(self.rt, second.as_str()) {
            Ok(other) => Ok(other.dev() == file.dev() && other.ino() == file.ino()),
            Err(_) => Ok(false),
        }
    }

    fn lock(&mut self, path: &str) -> io::Result<File> {
        let folder = self.folder_of(path)?;
        folder.lock()?;
        Ok(folder)
    }

    fn write(&mut self, second: &SecondName, bytes: &[u8]) -> io::Result<()> {
        self.remove(second)?;
        let new = OpenOptions::new()
            .write(true)
            .create_new(true)
            .mode(0o644)
            .open(self.rt, second.as_str())?;
        new.write_all_at(bytes, 0)?;
        new.sync_all()
    }

    fn link(&mut self, second: &SecondName, path: &str) -> io::Result<()> {
        fs::hard_link(self.rt, second.as_str(), path)
    }

    fn remove(&mut self, second: &SecondName) -> io::Result<()> {
        match fs::remove_file(self.rt, second.as_str()) {
            Err(error) if error.kind() == ErrorKind::NotFound => Ok(()),
            other => other,
        }
    }

    fn sync(&self, lock: &File) -> io::Result<()> {
        lock.sync_all()
    }
}
