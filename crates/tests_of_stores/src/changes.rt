//! The changes that commands make. Each command is planned and done in an office in memory, and its changes are kept.
use office_base::puts::Put;
use office_base::shelf::Shelf;
use office_commands::command::Caller;
use office_http::credentials::credentials_of;
use office_http::{Asked, command_of};
use office_memory::memory::MemoryShelf;
use office_plans::planned::Planned;
use office_wire::counted::CountedReader;
use office_wire::request::{Request, read_request};
use std::alloc::{AllocError, Global};
use tests_transcripts::blocks::{Block, read};
use tests_transcripts::session::{Session, Wrong};

// The caller of a request.
fn caller_of<H: Shelf + Drop>(session: &mut Session<H>, request: &Request) -> Option<Caller> {
    let Ok(credentials) = credentials_of(request) else {
        return None;
    };
    session.desk.caller(credentials.name, credentials.key).ok()
}

// The plan of the command in this block.
fn planned<H: Shelf + Drop>(session: &mut Session<H>, block: &Block) -> Option<Planned> {
    let mut reader = CountedReader::new(block.request.as_slice());
    let Ok(request) = read_request(session.alloc, &mut reader) else {
        return None;
    };
    let Ok(route) = session.routes.route_of(&request) else {
        return None;
    };
    let caller = caller_of(session, &request)?;
    let Ok(Asked::Does(command)) = command_of(session.alloc, &caller, &route, &request) else {
        return None;
    };
    match session.desk.plan(block.moment, &caller, command) {
        Ok(planned) => Some(planned),
        Err(_) => None,
    }
}

/// Copies of these changes.
pub(crate) fn copied(alloc: Global, puts: &[Put]) -> Result<Vec<Put>, AllocError> {
    let mut copies = Vec::new(alloc);
    for put in puts {
        copies.push(put.clone()?)?;
    }
    Ok(copies)
}

// Carries out a plan. Returns whether the reply is that of the response.
fn is_done<H: Shelf + Drop>(session: &mut Session<H>, planned: Planned, response: &[u8]) -> bool {
    match session.desk.commit(planned) {
        Ok(reply) => response.ends_with(&reply),
        Err(_) => false,
    }
}

// The changes of the command in this block, after it is done and answered as its block says.
fn done_of<H: Shelf + Drop>(session: &mut Session<H>, block: &Block) -> Result<Vec<Put>, Wrong> {
    let Some(planned) = planned(session, block) else {
        return Err(Wrong::Unopened);
    };
    let puts = copied(session.alloc, planned.puts())?;
    if is_done(session, planned, &block.response) {
        Ok(puts)
    } else {
        Err(Wrong::Unopened)
    }
}

fn done<H: Shelf + Drop>(session: &mut Session<H>, block: &str) -> Result<Vec<Put>, Wrong> {
    match read(session.alloc, block) {
        Ok(block) => done_of(session, &block),
        Err(fault) => Err(Wrong::Block(0, fault)),
    }
}

// Appends the changes of each command of a transcript.
fn append_done<H: Shelf + Drop>(
    session: &mut Session<H>,
    changes: &mut Vec<Vec<Put>>,
    transcript: &str,
) -> Result<(), Wrong> {
    for block in transcript.trim_matches("\n").split("\n\n") {
        let puts = done(session, block)?;
        if changes.push(puts).is_err() {
            return Err(Wrong::NoMemory);
        }
    }
    Ok(())
}

fn all_done<H: Shelf + Drop>(
    alloc: Global,
    shelf: H,
    transcripts: &[&str],
) -> Result<Vec<Vec<Put>>, Wrong> {
    let mut session = Session::new(alloc, shelf, 0)?;
    let mut changes = Vec::new(alloc);
    for transcript in transcripts {
        append_done(&mut session, &mut changes, transcript)?;
    }
    Ok(changes)
}

/// The changes of each command of these transcripts, which begin with an empty office.
pub(crate) fn changes_of(alloc: Global, transcripts: &[&str]) -> Result<Vec<Vec<Put>>, Wrong> {
    all_done(alloc, MemoryShelf::new(alloc), transcripts)
}
