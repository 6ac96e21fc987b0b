//! The result of an opening.
use crate::shelf::SqlShelf;
use sqlite::FileStore;
use sqlite_disk::Disk;

/// How an opening got the office.
#[derive(Clone, Copy, Debug, PartialEq, Eq)]
pub enum Origin {
    /// The file had an office of this program. Nothing was written.
    Found,
    /// The file had an office of an earlier program, which was migrated.
    Migrated,
    /// The file had no office and none of the names of its tables, and its log wasn't used. So an empty office was made.
    Made,
}

/// An office in two files, and how the opening got it.
#[derive(Drop)]
pub struct Opened<D: Disk + Drop> {
    pub shelf: SqlShelf<FileStore<D>>,
    pub origin: Origin,
}
