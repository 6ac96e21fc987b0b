//! Tries a request while one of its allocations is refused, each time another one. The answer must be as written or `Unavailable`. After `Unavailable` the
//! office must hold the same rows as before, and answer the same request as written.
//!
//! A library that is loaded before the C library refuses (`tests/refused_rows`). It follows lines on the standard error. `refuse N` means that the Nth
//! allocation from then on is refused, or none if N is 0. `enough` means that no further one is refused.
use crate::rows::rows_of;
use office_base::shelf::{Lookups, Shelf};
use office_memory::memory::MemoryShelf;
use std::alloc::{AllocError, Global};
use std::io::Write;
use tests_sql_office::office::{SqlOffice, in_sql};
use tests_transcripts::blocks::{Block, read};
use tests_transcripts::session::{Session, Wrong, played};

/// The fault of a trial.
#[derive(Drop)]
pub(crate) enum Fault {
    /// An answer to the blocks before the request isn't as written, or the request can't be read.
    Played(Wrong),
    /// No office can be made, its rows can't be read, or the standard error can't be written.
    NoOffice,
    /// The request gets this answer instead.
    Answer(Vec<u8>),
    /// The answer was `Unavailable`, and a row changed.
    Changed,
    /// The answer was as written, but the rows differ from those without a refusal.
    Rows,
}

impl From<AllocError> for Fault {
    fn from(_: AllocError) -> Fault {
        Fault::NoOffice
    }
}

impl From<Wrong> for Fault {
    fn from(wrong: Wrong) -> Fault {
        Fault::Played(wrong)
    }
}

/// The numbers of the allocations that are refused: the first one, the step from one to the next, and how many.
#[derive(Clone, Copy)]
pub(crate) struct Numbers {
    pub(crate) first: u64,
    pub(crate) step: u64,
    pub(crate) count: u64,
}

/// How often the answer was as written, and how often it was `Unavailable`.
#[derive(Clone, Copy)]
pub(crate) struct Found {
    pub(crate) answered: u64,
    pub(crate) unavailable: u64,
}

/// Makes offices.
pub(crate) trait Maker {
    /// The type of their store.
    type Office: Shelf + Drop;

    /// An empty office. None if memory is too small.
    fn made(&self, alloc: Global) -> Option<Self::Office>;
}

/// Makes offices in memory.
#[derive(Drop)]
pub(crate) struct InMemory;

impl Maker for InMemory {
    type Office = MemoryShelf;

    fn made(&self, alloc: Global) -> Option<MemoryShelf> {
        Some(MemoryShelf::new(alloc))
    }
}

/// Makes offices in SQL in memory.
#[derive(Drop)]
pub(crate) struct InSql;

impl Maker for InSql {
    type Office = SqlOffice;

    fn made(&self, alloc: Global) -> Option<SqlOffice> {
        in_sql(alloc)
    }
}

// A request, with the blocks before it, all blocks, and the rows of the office before and after it.
#[derive(Drop)]
struct Asked<'a> {
    before: &'a str,
    all: &'a str,
    block: Block,
    rows: Vec<u8>,
    behind: Vec<u8>,
}

static UNAVAILABLE: &[u8] =
    b"HTTP/1.1 503 Service Unavailable\r\nContent-Type: application/json\r\nContent-Length: 35\r\nConnection: close\r\n\r\n{\"name\":\"Unavailable\",\"refusal\":32}";

// Writes a line for the library that refuses.
fn say(rt: &HostRuntime, line: &str) -> Result<(), Fault> {
    let mut output = rt.stderr();
    match output.write_all(line.as_bytes()) {
        Ok(()) => Ok(()),
        Err(_) => Err(Fault::NoOffice),
    }
}

fn rows_in<H: Lookups>(alloc: Global, shelf: &mut H, blocks: &str) -> Result<Vec<u8>, Fault> {
    match rows_of(alloc, shelf, blocks) {
        Ok(rows) => Ok(rows),
        Err(_) => Err(Fault::NoOffice),
    }
}

// An office to which these blocks were played.
fn office_behind<M: Maker>(alloc: Global, maker: &M, blocks: &str) -> Result<M::Office, Fault> {
    let Some(office) = maker.made(alloc) else {
        return Err(Fault::NoOffice);
    };
    if blocks.is_empty() {
        return Ok(office);
    }
    Ok(played(alloc, office, 0, &[blocks])?)
}

// The answer to the block while the library that refuses follows this line.
fn told_by<H: Shelf + Drop>(
    rt: &HostRuntime,
    session: &mut Session<H>,
    block: &Block,
    line: &str,
) -> Result<Vec<u8>, Fault> {
    say(rt, line)?;
    let answer = session.answer_to(block);
    say(rt, "enough\n")?;
    Ok(Vec::from_slice(rt.alloc(), answer.bytes())?)
}

// The answer to the block while the allocation of this number is refused (none if it is 0), and the store after it.
fn answered_without<H: Shelf + Drop>(
    rt: &HostRuntime,
    shelf: H,
    block: &Block,
    number: u64,
) -> Result<(H, Vec<u8>), Fault> {
    let line = format!(in rt.alloc(); "refuse {number}\n")?;
    let mut session = Session::new(rt.alloc(), shelf, 0)?;
    let told = told_by(rt, &mut session, block, line.as_str())?;
    Ok((session.into_shelf(), told))
}

// A fault if the request isn't answered as written, or leaves other rows than it must.
fn conclude<H: Lookups>(
    alloc: Global,
    shelf: &mut H,
    asked: &Asked<'_>,
    told: Vec<u8>,
) -> Result<(), Fault> {
    if told.as_slice() != asked.block.response.as_slice() {
        return Err(Fault::Answer(told));
    }
    let rows = rows_in(alloc, shelf, asked.all)?;
    if rows.as_slice() != asked.behind.as_slice() {
        return Err(Fault::Rows);
    }
    Ok(())
}

// A fault if the rows aren't those before the request.
fn compare<H: Lookups>(alloc: Global, shelf: &mut H, asked: &Asked<'_>) -> Result<(), Fault> {
    let rows = rows_in(alloc, shelf, asked.all)?;
    if rows.as_slice() != asked.rows.as_slice() {
        return Err(Fault::Changed);
    }
    Ok(())
}

// If nothing changed, sends the request again with enough memory.
fn ask_again<H: Shelf + Drop>(rt: &HostRuntime, shelf: H, asked: &Asked<'_>) -> Result<(), Fault> {
    let mut shelf = shelf;
    compare(rt.alloc(), &mut shelf, asked)?;
    let (mut shelf, told) = answered_without(rt, shelf, &asked.block, 0)?;
    conclude(rt.alloc(), &mut shelf, asked, told)
}

// Tries the request once. Returns whether the answer was `Unavailable`.
fn try_over<H: Shelf + Drop>(
    rt: &HostRuntime,
    shelf: H,
    asked: &Asked<'_>,
    number: u64,
) -> Result<bool, Fault> {
    let (mut shelf, told) = answered_without(rt, shelf, &asked.block, number)?;
    if told.as_slice() == UNAVAILABLE {
        ask_again(rt, shelf, asked)?;
        return Ok(true);
    }
    conclude(rt.alloc(), &mut shelf, asked, told)?;
    Ok(false)
}

// Tries the request once, over an office of its own.
fn try_one<M: Maker>(
    rt: &HostRuntime,
    maker: &M,
    asked: &Asked<'_>,
    number: u64,
) -> Result<bool, Fault> {
    let office = office_behind(rt.alloc(), maker, asked.before)?;
    try_over(rt, office, asked, number)
}

// The rows of an office after the blocks before the request.
fn rows_before<M: Maker>(
    alloc: Global,
    maker: &M,
    before: &str,
    all: &str,
) -> Result<Vec<u8>, Fault> {
    let mut office = office_behind(alloc, maker, before)?;
    rows_in(alloc, &mut office, all)
}

// The rows of an office after the request, if its answer is as written. As in each trial, its rows weren't read before, so that the request takes as much
// memory.
fn rows_behind<M: Maker>(
    rt: &HostRuntime,
    maker: &M,
    before: &str,
    all: &str,
    block: &Block,
) -> Result<Vec<u8>, Fault> {
    let office = office_behind(rt.alloc(), maker, before)?;
    let (mut office, told) = answered_without(rt, office, block, 0)?;
    if told.as_slice() != block.response.as_slice() {
        return Err(Fault::Answer(told));
    }
    rows_in(rt.alloc(), &mut office, all)
}

// The last of these blocks, and the rows of the office before and after it.
fn asked_last<'a, M: Maker>(
    rt: &HostRuntime,
    maker: &M,
    blocks: &'a str,
) -> Result<Asked<'a>, Fault> {
    let (before, last) = blocks.rsplit_once("\n\n").unwrap_or(("", blocks));
    let rows = rows_before(rt.alloc(), maker, before, blocks)?;
    let Ok(block) = read(rt.alloc(), last) else {
        return Err(Fault::NoOffice);
    };
    let behind = rows_behind(rt, maker, before, blocks, &block)?;
    Ok(Asked {
        before,
        all: blocks,
        block,
        rows,
        behind,
    })
}

// Tries a request with one allocation after another refused.
fn try_each<M: Maker>(
    rt: &HostRuntime,
    maker: &M,
    asked: &Asked<'_>,
    numbers: Numbers,
) -> Result<Found, (u64, Fault)> {
    let mut found = Found {
        answered: 0,
        unavailable: 0,
    };
    let mut number = numbers.first;
    for _ in 0..numbers.count {
        match try_one(rt, maker, asked, number) {
            Ok(true) => found.unavailable = found.unavailable.saturating_add(1),
            Ok(false) => found.answered = found.answered.saturating_add(1),
            Err(fault) => return Err((number, fault)),
        }
        number = number.saturating_add(numbers.step);
    }
    Ok(found)
}

/// Tries the last of these blocks after the others, with one allocation after another refused, each time over a new office. Returns the counts, or a fault with
/// the number of the refused allocation.
pub(crate) fn try_all<M: Maker>(
    rt: &HostRuntime,
    maker: &M,
    blocks: &str,
    numbers: Numbers,
) -> Result<Found, (u64, Fault)> {
    match asked_last(rt, maker, blocks) {
        Ok(asked) => try_each(rt, maker, &asked, numbers),
        Err(fault) => Err((0, fault)),
    }
}
