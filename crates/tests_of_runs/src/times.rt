//! Pieces that are played to an office. A block that begins with a number is sent this many times.
use office_base::shelf::Shelf;
use tests_transcripts::session::{Session, Wrong};

// The number of times that a block is sent, and the block without this number. None if it begins with no number.
fn counted(block: &str) -> Option<(u32, &str)> {
    let (count, block) = block.split_once(" ")?;
    match count.parse::<u32>() {
        Ok(count) => Some((count, block)),
        Err(_) => None,
    }
}

// Sends a block with this number in place of each `#`.
fn play_numbered<H: Shelf + Drop>(
    session: &mut Session<H>,
    number: u32,
    block: &str,
) -> Result<(), Wrong> {
    let number = format!(in session.alloc; "{number}")?;
    let block = block.replace(session.alloc, "#", number.as_str())?;
    session.play(block.as_str())
}

// Sends a block this many times, numbered from 1.
fn play_times<H: Shelf + Drop>(
    session: &mut Session<H>,
    count: u32,
    block: &str,
) -> Result<(), Wrong> {
    for number in 1..=count {
        play_numbered(session, number, block)?;
    }
    Ok(())
}

fn play_block<H: Shelf + Drop>(session: &mut Session<H>, block: &str) -> Result<(), Wrong> {
    match counted(block) {
        Some((count, block)) => play_times(session, count, block),
        None => session.play(block),
    }
}

/// Plays the blocks of a piece, which empty lines separate, up to the first wrong answer.
pub(crate) fn play_piece<H: Shelf + Drop>(
    session: &mut Session<H>,
    piece: &str,
) -> Result<(), Wrong> {
    for block in piece.split("\n\n") {
        play_block(session, block)?;
    }
    Ok(())
}

/// Plays several pieces in turn.
pub(crate) fn play_pieces<H: Shelf + Drop>(
    session: &mut Session<H>,
    pieces: &[&str],
) -> Result<(), Wrong> {
    for piece in pieces {
        play_piece(session, piece)?;
    }
    Ok(())
}
