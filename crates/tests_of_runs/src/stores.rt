//! The stores over which transcripts are played: an office in memory, one in SQL in memory, and one in a file. Those in SQL and in a file remember the sums of
//! budget lines, as the program does; the one in memory doesn't.
use crate::times::{play_piece, play_pieces};
use office_base::shelf::Shelf;
use office_memory::memory::MemoryShelf;
use office_store::opened::Opened;
use office_store::path::Room;
use office_store::shelf::SqlShelf;
use office_sums::shelf::RememberingShelf;
use sqlite::{Alter, Unknown};
use std::alloc::Global;
use std::fs;
use tests_sql_office::office::in_sql;
use tests_transcripts::session::{Session, Wrong};

/// A kind of store.
#[derive(Clone, Copy)]
pub(crate) enum Store {
    Memory,
    Sql,
    File,
}

/// All of them.
pub(crate) const STORES: [Store; 3] = [Store::Memory, Store::Sql, Store::File];

impl Store {
    pub(crate) fn name(self) -> &'static str {
        match self {
            Store::Memory => "in memory",
            Store::Sql => "in SQL",
            Store::File => "in a file",
        }
    }
}

/// The number of requests that were sent to an office, and its answers to the last pieces.
#[derive(Drop)]
pub(crate) struct Told {
    pub(crate) sent: u64,
    pub(crate) answers: Vec<u8>,
}

/// Pieces that are played in turn, then the pieces whose answers count.
#[derive(Clone, Copy)]
pub(crate) struct Life<'a> {
    pub(crate) before: &'a [&'a str],
    pub(crate) told: &'a [&'a str],
}

// Plays a life to the office of this store.
fn lived<H: Shelf + Drop>(alloc: Global, shelf: H, life: Life<'_>) -> Result<Told, Wrong> {
    let mut session = Session::new(alloc, shelf, 0)?;
    play_pieces(&mut session, life.before)?;
    session.told.clear();
    play_pieces(&mut session, life.told)?;
    Ok(Told {
        sent: session.sent,
        answers: session.told,
    })
}

// Plays one more piece to the office of this store.
fn continued<H: Shelf + Drop>(
    alloc: Global,
    shelf: H,
    told: Told,
    piece: &str,
) -> Result<Told, Wrong> {
    let mut session = Session::new(alloc, shelf, 0)?;
    session.sent = told.sent;
    session.told = told.answers;
    play_piece(&mut session, piece)?;
    Ok(Told {
        sent: session.sent,
        answers: session.told,
    })
}

// Plays one more piece to an office in SQL. It is generic in the store, not in the layer below it. So the prover doesn't compare the store's calls again for a
// file.
fn continued_in_sql<S: Alter + Drop>(
    alloc: Global,
    shelf: SqlShelf<S>,
    told: Told,
    piece: &str,
) -> Result<Told, Wrong> {
    continued(alloc, RememberingShelf::new(alloc, shelf), told, piece)
}

// Plays more pieces to the office in the file, which is opened again for each.
fn reopened(rt: &HostRuntime, path: &str, mut told: Told, pieces: &[&str]) -> Result<Told, Wrong> {
    for piece in pieces {
        match SqlShelf::open_from(rt, path, Unknown, ROOM) {
            Ok(Opened { shelf, origin: _ }) => {
                told = continued_in_sql(rt.alloc(), shelf, told, piece)?;
            }
            Err(_) => return Err(Wrong::Unopened),
        }
    }
    Ok(told)
}

// So little memory that the file is read and copied often.
const ROOM: Room = Room {
    pages: 64,
    frames: 100,
};

// The file of an office, and the log beside it, which has the newest changes.
const PATH: &str = "tests_of_runs.office";

const LOG: &str = "tests_of_runs.office-wal";

// Removes the office's files, if they exist. If one stays, it has an office that refuses the first requests.
fn remove(rt: &HostRuntime) {
    let _office = fs::remove_file(rt, PATH);
    let _log = fs::remove_file(rt, LOG);
}

// Plays a life to a new office in a file, which is opened again for each piece.
fn lived_in_file(rt: &HostRuntime, life: Life<'_>) -> Result<Told, Wrong> {
    let nothing = Told {
        sent: 0,
        answers: Vec::new(rt.alloc()),
    };
    let mut told = reopened(rt, PATH, nothing, life.before)?;
    told.answers.clear();
    reopened(rt, PATH, told, life.told)
}

/// Plays a life to an empty office in this kind of store. Returns the answers, or the first answer that isn't as written.
pub(crate) fn told_in(rt: &HostRuntime, store: Store, life: Life<'_>) -> Result<Told, Wrong> {
    let alloc = rt.alloc();
    match store {
        Store::Memory => lived(alloc, MemoryShelf::new(alloc), life),
        Store::Sql => match in_sql(alloc) {
            Some(office) => lived(alloc, RememberingShelf::new(alloc, office), life),
            None => Err(Wrong::Unopened),
        },
        Store::File => {
            remove(rt);
            let told = lived_in_file(rt, life);
            remove(rt);
            told
        }
    }
}
