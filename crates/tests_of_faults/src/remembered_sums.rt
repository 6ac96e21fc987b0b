//! No command makes a store forget the sums of a budget line. The next query of the line reads the line's row alone, if the command changed lines, or nothing. One
//! that is repeated reads nothing. And how many calls commands make, compared with a store that remembers nothing.
use crate::broken_stores::{Sums, breaks};
use crate::life::{
    AWARDED, AWARDED_AGAIN, AWARDED_AGAIN_LINE, AWARDED_LINE, CANCELLED, CANCELLED_LINE, ENDED,
    ENDED_LINE, PAID, PAID_LINE, PUBLISHED_LINE, RAISED, RAISED_LINE, SIGNED, SIGNED_LINE,
    UNUSED_LINE,
};
use std::alloc::Global;
use tests_transcripts::published::AMENDED;
use tests_transcripts::setup::{MONEY, NOTICE, TENDERERS};

static MORE_MONEY: &str = r#"
at 2026-01-06T09:00:00Z clerk POST /budget/B2
| line,kind,amount,title
| 1000,add,5,Roads
= 200 {"batch":"B2","moment":"2026-01-06T09:00:00Z","rows":1}
"#;

// The number of calls to the store while the transcripts are played, at most 1023. None if an answer isn't as written. A store that fails after fewer calls
// fails, and one that fails after as many doesn't.
fn calls_made(alloc: Global, sums: Sums, transcripts: &[&str]) -> Option<u64> {
    let mut made = 0u64;
    let mut step = 512u64;
    for _ in 0..10 {
        let more = made.saturating_add(step);
        if breaks(alloc, more.saturating_sub(1), sums, transcripts)? {
            made = more;
        }
        step /= 2;
    }
    Some(made)
}

// The number of calls that a query makes after the first `at` transcripts. None if the next transcript, which repeats it, makes any.
fn asked_at(alloc: Global, life: &[&str], at: usize) -> Option<u64> {
    let before = calls_made(alloc, Sums::Remembered, life.get(..at)?)?;
    let asked = calls_made(alloc, Sums::Remembered, life.get(..at.saturating_add(1))?)?;
    let again = calls_made(alloc, Sums::Remembered, life.get(..at.saturating_add(2))?)?;
    if again == asked {
        asked.checked_sub(before)
    } else {
        None
    }
}

// The number of calls that the last of these transcripts makes to the store.
fn last_calls(alloc: Global, sums: Sums, transcripts: &[&str]) -> Option<u64> {
    let (_, before) = transcripts.split_last()?;
    let begun = calls_made(alloc, sums, before)?;
    calls_made(alloc, sums, transcripts)?.checked_sub(begun)
}

// Whether the last of these transcripts makes so many calls less and so many more to a store that remembers.
fn saves_calls(alloc: Global, transcripts: &[&str], less: u64, more: u64) -> Option<bool> {
    let remembered = last_calls(alloc, Sums::Remembered, transcripts)?;
    let plain = last_calls(alloc, Sums::AddedUp, transcripts)?;
    Some(remembered.saturating_add(less) == plain.saturating_add(more))
}

#[test]
fn no_command_forgets_sums(rt: HostRuntime) {
    let alloc = rt.alloc();
    let life = [
        MONEY,
        UNUSED_LINE,
        TENDERERS,
        NOTICE,
        PUBLISHED_LINE,
        PUBLISHED_LINE,
        AWARDED,
        AWARDED_LINE,
        AWARDED_LINE,
        AWARDED_AGAIN,
        AWARDED_AGAIN_LINE,
        AWARDED_AGAIN_LINE,
        SIGNED,
        SIGNED_LINE,
        SIGNED_LINE,
        RAISED,
        RAISED_LINE,
        RAISED_LINE,
        PAID,
        PAID_LINE,
        PAID_LINE,
        ENDED,
        ENDED_LINE,
        ENDED_LINE,
    ];
    // The first query after each command. A signing and a payment change no line.
    for (turn, calls) in [1, 1, 1, 0, 1, 0, 1].iter().enumerate() {
        assert!(rt; asked_at(alloc, &life, turn * 3 + 4) == Some(*calls));
    }
}

#[test]
fn a_cancellation_forgets_no_sums(rt: HostRuntime) {
    let life = [
        MONEY,
        UNUSED_LINE,
        TENDERERS,
        NOTICE,
        CANCELLED,
        CANCELLED_LINE,
        CANCELLED_LINE,
    ];
    assert!(rt; asked_at(rt.alloc(), &life, 5) == Some(1));
}

// It saves the numbers, and the notice's row for the second of the two queries that follow it.
#[test]
fn a_publication_asks_for_no_numbers(rt: HostRuntime) {
    assert!(rt; saves_calls(rt.alloc(), &[MONEY, NOTICE, AMENDED], 2, 0) == Some(true));
}

// The test whether the line adds up and the plan ask for its row.
#[test]
fn a_budget_file_reads_each_line_once(rt: HostRuntime) {
    assert!(rt; saves_calls(rt.alloc(), &[MONEY, MORE_MONEY], 1, 0) == Some(true));
}

// It saves the numbers, the sums of the line, its contract twice, its lot and its tenderer. The sums are carried by its contract, its lot and its entry, but not by
// all entries of the contract.
#[test]
fn a_payment_lists_the_entries_once(rt: HostRuntime) {
    let life = [
        MONEY,
        TENDERERS,
        NOTICE,
        AWARDED,
        AWARDED_AGAIN,
        SIGNED,
        RAISED,
        PAID,
    ];
    assert!(rt; saves_calls(rt.alloc(), &life, 6, 3) == Some(true));
}
