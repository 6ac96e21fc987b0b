//! Transcripts that are played to an office: each block's request is sent, and its answer compared byte for byte.
use crate::blocks::{Block, Fault, read};
use crate::office::settings;
use office_base::shelf::Shelf;
use office_desk::desk::Desk;
use office_http::Routes;
use office_http::answering::answer;
use office_wire::answer::Answer;
use std::alloc::{AllocError, Global};
use std::fmt::{self, Display, Formatter, Write};

/// The reason why an office doesn't answer as transcripts say.
#[derive(Drop)]
pub enum Wrong {
    /// The request with this number, from 1, isn't written as a block, or memory is too small for it.
    Block(u64, Fault),
    /// The request with this number, from 1, gets this answer instead.
    Answer(u64, String),
    /// Memory is too small.
    NoMemory,
    /// The store can't be opened or closed.
    Unopened,
    /// The content of the store isn't an office.
    NotAnOffice,
    /// A disk that accepts this many calls leaves neither the content before a command nor the content after it.
    Stop(u64),
}

impl From<AllocError> for Wrong {
    fn from(_: AllocError) -> Wrong {
        Wrong::NoMemory
    }
}

impl Display for Wrong {
    fn fmt<W: Write>(&self, f: &mut Formatter<W>) -> fmt::Result {
        match self {
            Wrong::Block(number, Fault::Unread) => write!(f, "request {number} can't be read"),
            Wrong::Block(number, Fault::NoMemory) => write!(f, "no memory for request {number}"),
            Wrong::Answer(number, told) => write!(f, "request {number} is answered by {told}"),
            Wrong::NoMemory => write!(f, "no memory"),
            Wrong::Unopened => write!(f, "a store that can't be opened"),
            Wrong::NotAnOffice => write!(f, "no office"),
            Wrong::Stop(calls) => write!(f, "a stop after {calls} calls leaves something else"),
        }
    }
}

/// A desk over this store, with the settings of all transcripts.
pub fn desk_over<H: Shelf + Drop>(alloc: Global, shelf: H) -> Result<Desk<H>, AllocError> {
    match settings(alloc) {
        Some(settings) => Ok(Desk::new(alloc, settings, shelf)),
        None => Err(AllocError),
    }
}

/// An office to which transcripts are played. Only functions over any store hold one, because there its drop is one step of their proofs.
#[derive(Drop)]
pub struct Session<H: Shelf + Drop> {
    /// The source of memory.
    pub alloc: Global,
    /// The routes of its requests.
    pub routes: Routes,
    /// The office.
    pub desk: Desk<H>,
    // The number of requests that may be answered with `Unavailable` and are then sent again.
    patience: u64,
    /// The number of requests that were played. A caller that continues with an office sets it.
    pub sent: u64,
    /// All answers of the office since this was last cleared.
    pub told: Vec<u8>,
}

impl<H: Shelf + Drop> Session<H> {
    /// An office with this store. This many answers may be `Unavailable`.
    pub fn new(alloc: Global, shelf: H, patience: u64) -> Result<Session<H>, Wrong> {
        let routes = Routes::new(alloc)?;
        let desk = desk_over(alloc, shelf)?;
        Ok(Session {
            alloc,
            routes,
            desk,
            patience,
            sent: 0,
            told: Vec::new(alloc),
        })
    }

    // Whether a block with this answer may be sent again.
    fn tries_again(&mut self, told: &[u8]) -> bool {
        if self.patience == 0 || !told.starts_with(b"HTTP/1.1 503 ") {
            return false;
        }
        self.patience = self.patience.saturating_sub(1);
        true
    }

    /// The office's answer to a block's request.
    pub fn answer_to(&mut self, block: &Block) -> Answer {
        answer(
            self.alloc,
            &self.routes,
            &mut self.desk,
            block.moment,
            &block.request,
        )
    }

    // Sends a block's request, and compares the answer with the expected one.
    fn send(&mut self, block: &Block) -> Result<(), Wrong> {
        let mut told = self.answer_to(block);
        if self.tries_again(told.bytes()) {
            told = self.answer_to(block);
        }
        let told = told.bytes();
        self.told.extend_from_slice(told)?;
        if block.response.is_empty() || told == block.response.as_slice() {
            return Ok(());
        }
        let told = String::from_utf8_lossy(self.alloc, told)?;
        Err(Wrong::Answer(self.sent, told))
    }

    /// Plays the blocks of a transcript, which empty lines separate, up to the first wrong answer.
    pub fn play(&mut self, transcript: &str) -> Result<(), Wrong> {
        for block in transcript.trim_matches("\n").split("\n\n") {
            self.sent = self.sent.saturating_add(1);
            match read(self.alloc, block) {
                Ok(block) => self.send(&block)?,
                Err(fault) => return Err(Wrong::Block(self.sent, fault)),
            }
        }
        Ok(())
    }

    /// Plays several transcripts in turn.
    pub fn play_all(&mut self, transcripts: &[&str]) -> Result<(), Wrong> {
        for transcript in transcripts {
            self.play(transcript)?;
        }
        Ok(())
    }

    /// The store of the office.
    pub fn into_shelf(self) -> H {
        self.desk.into_shelf()
    }
}

/// Plays the transcripts to the office of this store, up to the first wrong answer, and returns the store. This many answers may be `Unavailable`.
pub fn played<H: Shelf + Drop>(
    alloc: Global,
    shelf: H,
    patience: u64,
    transcripts: &[&str],
) -> Result<H, Wrong> {
    let mut session = Session::new(alloc, shelf, patience)?;
    session.play_all(transcripts)?;
    Ok(session.into_shelf())
}
