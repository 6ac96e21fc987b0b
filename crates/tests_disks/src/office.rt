//! An office in two files on disks in memory: opened, changed and closed, or stopped.
use crate::disks::Disks;
use office_base::ledger::LedgerRow;
use office_base::puts::Put;
use office_base::shelf::{Lookups, Shelf};
use office_store::found::OpenFault;
use office_store::opened::Opened;
use office_store::shelf::SqlShelf;
use sqlite::{FileStore, Options};
use sqlite_disk::{Fuse, Memory};
use std::alloc::Global;

/// An open office in two files.
pub struct OfficeOnDisks {
    pub(crate) shelf: SqlShelf<FileStore<Fuse<Memory>>>,
}

impl Drop for OfficeOnDisks {
    fn drop(self) {
        let OfficeOnDisks { shelf: _shelf } = self;
    }
}

/// The reason why no office is opened.
#[derive(Drop)]
pub enum Unopened {
    /// The content of the files isn't an office. The files are returned.
    NotAnOffice(Disks),
    /// The files can't be used or read, or no office can be made of their content. The files are returned as they were left.
    Unusable(Disks),
}

impl OfficeOnDisks {
    /// The office in these files, or a new one.
    pub fn open(alloc: Global, disks: Disks) -> Result<OfficeOnDisks, Unopened> {
        let files = disks.into_files();
        if !files.may_be_used() {
            return Err(Unopened::Unusable(Disks { files }));
        }
        match SqlShelf::open_files(alloc, files, Options::new(7)) {
            Ok(Opened { shelf, origin: _ }) => Ok(OfficeOnDisks { shelf }),
            Err((OpenFault::NotAnOffice, left)) => Err(Unopened::NotAnOffice(Disks {
                files: left.into_files(),
            })),
            Err((OpenFault::NoMemory | OpenFault::Store, left)) => Err(Unopened::Unusable(Disks {
                files: left.into_files(),
            })),
        }
    }

    /// Makes the changes of a command. Returns whether they are made.
    pub fn apply(&mut self, puts: Vec<Put>) -> bool {
        self.shelf.apply(puts).is_ok()
    }

    /// The rows of its ledger, or None if it has none.
    pub fn ledger(&mut self) -> Option<Vec<LedgerRow>> {
        self.shelf.ledger().ok()
    }

    /// Whether its store was closed for good. None if there is no memory to ask.
    pub fn is_shut(&mut self) -> Option<bool> {
        match self.shelf.is_shut() {
            Ok(shut) => Some(shut),
            Err(_) => None,
        }
    }

    fn into_shelf(self) -> SqlShelf<FileStore<Fuse<Memory>>> {
        let OfficeOnDisks { shelf } = self;
        shelf
    }

    /// Its files after it is closed. None if it can't be closed.
    pub fn close(self) -> Option<Disks> {
        match self.into_shelf().close_files() {
            Ok(files) => Some(Disks { files }),
            Err((_, store)) => {
                drop(store.close());
                None
            }
        }
    }

    /// Its files as a stop leaves them: nothing is closed.
    pub fn stop(self) -> Disks {
        Disks {
            files: self.into_shelf().put_down().close(),
        }
    }

    /// Whether it could be closed, and its files in both cases.
    pub fn put_down(self) -> (bool, Disks) {
        match self.into_shelf().into_connection().close_files() {
            Ok(files) => (true, Disks { files }),
            Err((_, store)) => (
                false,
                Disks {
                    files: store.close(),
                },
            ),
        }
    }
}
