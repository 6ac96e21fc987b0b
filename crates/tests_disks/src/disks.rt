//! The two files of an office, on disks in memory.
use sqlite::Files;
use sqlite_disk::{Crash, Disk, Fuse, Memory};
use std::alloc::{AllocError, Global};

/// The log and the database file, each on a disk that accepts this many calls and fails at every later one.
pub struct Disks {
    pub(crate) files: Files<Fuse<Memory>>,
}

impl Drop for Disks {
    fn drop(self) {
        let Disks { files: _files } = self;
    }
}

// The same bytes on a disk of its own, where no stop loses them.
fn copied(alloc: Global, bytes: &[u8]) -> Result<Memory, AllocError> {
    let mut disk = Memory::new(alloc);
    if disk.write_at(0, bytes).is_err() || disk.sync().is_err() {
        return Err(AllocError);
    }
    Ok(disk)
}

impl Disks {
    /// Two files without a byte, on disks that never stop.
    pub fn blank(alloc: Global) -> Disks {
        Disks {
            files: Files {
                log: Fuse::new(Memory::new(alloc), u64::MAX),
                db: Fuse::new(Memory::new(alloc), u64::MAX),
            },
        }
    }

    /// Copies of the content of these files, on disks that accept this many calls.
    pub fn fused(&self, alloc: Global, log_calls: u64, db_calls: u64) -> Result<Disks, AllocError> {
        let log = copied(alloc, self.files.log.inner().bytes())?;
        let db = copied(alloc, self.files.db.inner().bytes())?;
        Ok(Disks {
            files: Files {
                log: Fuse::new(log, log_calls),
                db: Fuse::new(db, db_calls),
            },
        })
    }

    /// The files that a process leaves when it ends: everything that it has written.
    pub fn left_by_the_process(&self, alloc: Global) -> Result<Disks, AllocError> {
        self.fused(alloc, u64::MAX, u64::MAX)
    }

    /// The files that a machine leaves when it ends: only bytes that were flushed, and none that were written later.
    pub fn left_by_the_machine(mut self, alloc: Global) -> Result<Disks, AllocError> {
        self.files.log.crash();
        self.files.db.crash();
        self.left_by_the_process(alloc)
    }

    /// Whether these files have the same bytes as those.
    pub fn has_bytes_of(&self, other: &Disks) -> bool {
        let (ours, theirs) = (&self.files, &other.files);
        ours.log.inner().bytes() == theirs.log.inner().bytes()
            && ours.db.inner().bytes() == theirs.db.inner().bytes()
    }

    // The files, for a store.
    pub(crate) fn into_files(self) -> Files<Fuse<Memory>> {
        let Disks { files } = self;
        files
    }
}
