//! The content of files, whether or not they are an office's: statements on them, a question, and all rows.
use crate::disks::Disks;
use sqlite::{Connection, FileStore, Options, Row};
use sqlite_disk::{Fuse, Memory};
use sqlite_value::value::ValueRef;
use std::alloc::{AllocError, Global};

/// An open database in files on disks.
pub struct Database {
    conn: Connection<FileStore<Fuse<Memory>>>,
}

impl Drop for Database {
    fn drop(self) {
        let Database { conn: _conn } = self;
    }
}

// Appends bytes that no other value of this column has, and the end of the value.
fn append_value(bytes: &mut Vec<u8>, value: ValueRef<'_>) -> Result<(), AllocError> {
    match value {
        ValueRef::Null => bytes.extend_from_slice(b"null")?,
        ValueRef::Int(number) => bytes.extend_from_slice(&number.to_be_bytes())?,
        ValueRef::Text(text) => bytes.extend_from_slice(text)?,
        ValueRef::Blob(blob) => bytes.extend_from_slice(blob)?,
        ValueRef::Real(_) => bytes.extend_from_slice(b"real")?,
    }
    bytes.extend_from_slice(b"\0")
}

// Appends all values of a row.
fn append_row(bytes: &mut Vec<u8>, row: &Row) -> Option<()> {
    for column in 0..row.column_count() {
        append_value(bytes, row.get_ref(column).ok()?).ok()?;
    }
    Some(())
}

impl Database {
    /// The database in these files. None if they can't be used or read.
    pub fn open(alloc: Global, disks: Disks) -> Option<Database> {
        let files = disks.into_files();
        if !files.may_be_used() {
            return None;
        }
        match Connection::open_files(alloc, files, Options::new(3)) {
            Ok(conn) => Some(Database { conn }),
            Err(_) => None,
        }
    }

    /// Runs these statements. Returns whether all were run.
    pub fn changes(&mut self, statements: &str) -> bool {
        self.conn.execute_batch(statements).is_ok()
    }

    /// The number that answers a question.
    pub fn number(&mut self, question: &str) -> Option<i64> {
        match self.conn.query_row(question, &[]) {
            Ok(row) => row.get(0).ok(),
            Err(_) => None,
        }
    }

    /// Appends all values in the answers to a question. None if it can't be asked.
    pub fn append_all(&mut self, bytes: &mut Vec<u8>, question: &str) -> Option<()> {
        for row in &self.conn.query_all(question, &[]).ok()? {
            append_row(bytes, row)?;
        }
        Some(())
    }

    /// Its files after it is closed. None if it can't be closed.
    pub fn close(self) -> Option<Disks> {
        let Database { conn } = self;
        match conn.close_files() {
            Ok(files) => Some(Disks { files }),
            Err(_) => None,
        }
    }
}
