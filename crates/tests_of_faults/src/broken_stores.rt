//! A store that fails once. The request at that moment is answered with `Unavailable`, nothing has changed, and the same request gets its usual answer when it
//! is sent again.
use crate::life::{
    AWARDED, AWARDED_AGAIN, AWARDED_AGAIN_LINE, AWARDED_LINE, CANCELLED, CANCELLED_LEDGER, ENDED,
    ENDED_LINE, PAID, PAID_LINE, RAISED, RAISED_LINE, SEEN, SIGNED, SIGNED_LINE,
};
use office_base::shelf::Lookups;
use office_sums::shelf::RememberingShelf;
use std::alloc::Global;
use tests_broken_shelf::shelf::BrokenShelf;
use tests_transcripts::published::PUBLISHED;
use tests_transcripts::session::played;
use tests_transcripts::setup::{MONEY, NOTICE, TENDERERS};

// The answer if the store fails.
static BREAKS: &str = r#"
at 2026-01-05T09:00:00Z clerk POST /budget/B1
| line,kind,amount,title
| 1000,add,1000,Roads
= 503 {"name":"Unavailable","refusal":32}
"#;

/// Whether a store remembers the sums of budget lines and the numbers of releases. It then also fails at look-ups that only serve to carry sums, which no request may
/// notice.
#[derive(Clone, Copy)]
pub(crate) enum Sums {
    Remembered,
    AddedUp,
}

// Plays the transcripts over this store, and returns it. None if an answer isn't as written.
fn survived(
    alloc: Global,
    shelf: BrokenShelf,
    sums: Sums,
    transcripts: &[&str],
) -> Option<BrokenShelf> {
    match sums {
        Sums::AddedUp => played(alloc, shelf, 1, transcripts).ok(),
        Sums::Remembered => {
            let shelf = RememberingShelf::new(alloc, shelf);
            match played(alloc, shelf, 1, transcripts) {
                Ok(shelf) => Some(shelf.into_shelf()),
                Err(_) => None,
            }
        }
    }
}

// Whether the store that fails after this many calls failed while the transcripts were played. None if an answer isn't as written.
fn is_broken(alloc: Global, left: u64, sums: Sums, transcripts: &[&str]) -> Option<bool> {
    match survived(alloc, BrokenShelf::new(alloc, left), sums, transcripts) {
        Some(mut shelf) => Some(shelf.faults() > 0),
        None => None,
    }
}

/// Whether the store that fails after this many calls failed, tried twice if the first try gives None, because a test may refuse one allocation.
pub(crate) fn breaks(alloc: Global, left: u64, sums: Sums, transcripts: &[&str]) -> Option<bool> {
    match is_broken(alloc, left, sums, transcripts) {
        Some(broke) => Some(broke),
        None => is_broken(alloc, left, sums, transcripts),
    }
}

// Plays the transcripts over a store that fails at its first call, then at its second, and so on, until it doesn't fail any more. That happens within 1000
// calls. The result is the number of calls; None if an answer isn't as written.
fn calls(alloc: Global, sums: Sums, transcripts: &[&str]) -> Option<u64> {
    for left in 0..1000 {
        match breaks(alloc, left, sums, transcripts) {
            Some(true) => {}
            Some(false) => return Some(left),
            None => return None,
        }
    }
    None
}

// Whether all answers are as written, wherever the store fails.
fn breaks_anywhere(alloc: Global, sums: Sums, transcripts: &[&str]) -> bool {
    calls(alloc, sums, transcripts).is_some()
}

#[test]
fn a_store_that_breaks_changes_nothing(rt: HostRuntime) {
    let alloc = rt.alloc();
    assert!(rt;
        breaks_anywhere(
            alloc,
            Sums::AddedUp,
            &[
                MONEY,
                TENDERERS,
                NOTICE,
                PUBLISHED,
                AWARDED,
                AWARDED_LINE,
                AWARDED_AGAIN,
                AWARDED_AGAIN_LINE,
                SIGNED,
                SIGNED_LINE,
                RAISED,
                RAISED_LINE,
                PAID,
                PAID_LINE,
                ENDED,
                ENDED_LINE,
                SEEN
            ]
        )
    );
    assert!(rt;
        breaks_anywhere(
            alloc,
            Sums::AddedUp,
            &[MONEY, TENDERERS, NOTICE, CANCELLED, CANCELLED_LEDGER]
        )
    );
}

#[test]
fn a_store_that_remembers_sums_breaks_unnoticed(rt: HostRuntime) {
    let alloc = rt.alloc();
    assert!(rt;
        breaks_anywhere(
            alloc,
            Sums::Remembered,
            &[
                MONEY,
                TENDERERS,
                NOTICE,
                PUBLISHED,
                AWARDED,
                AWARDED_LINE,
                AWARDED_AGAIN,
                AWARDED_AGAIN_LINE,
                SIGNED,
                SIGNED_LINE,
                RAISED,
                RAISED_LINE,
                PAID,
                PAID_LINE,
                ENDED,
                ENDED_LINE,
                SEEN
            ]
        )
    );
}

// Whether an import over a store that fails at its first call gets this answer, and then the usual one over the office that the store holds.
fn is_told_broken(alloc: Global) -> bool {
    match played(alloc, BrokenShelf::new(alloc, 0), 0, &[BREAKS]) {
        Ok(shelf) => played(alloc, shelf.into_memory(), 0, &[MONEY]).is_ok(),
        Err(_) => false,
    }
}

#[test]
fn a_break_is_told(rt: HostRuntime) {
    let alloc = rt.alloc();
    assert!(rt; is_told_broken(alloc) || is_told_broken(alloc));
}
