//! A release of a notice that is missing, for example because another program removed its row. No package is shown, and nothing in its place.
use crate::copies::{LeftOut, copy_but};
use crate::unreadable_texts::NOT_SHOWN;
use office_base::counts::Sequence;
use office_base::shelf::Shelf;
use office_memory::memory::MemoryShelf;
use office_values::id::Id;
use std::alloc::Global;
use tests_transcripts::session::{Wrong, played};
use tests_transcripts::setup::{MONEY, NOTICE, TENDERERS};

// Two amendments: releases 2 and 3.
static AMENDED_TWICE: &str = r#"
at 2026-02-10T09:00:00Z clerk POST /notices/N1/amend
> {"deadline":"2026-03-02T12:00:00Z","rationale":"More time"}
= 200 {"moment":"2026-02-10T09:00:00Z","notice":"N1","release":2}

at 2026-02-11T09:00:00Z clerk POST /notices/N1/amend
> {"deadline":"2026-03-03T12:00:00Z","rationale":"More time"}
= 200 {"moment":"2026-02-11T09:00:00Z","notice":"N1","release":3}
"#;

// Whether neither package of a notice is shown if this one of its releases wasn't copied into the other office.
fn isnt_shown<H: Shelf + Drop>(
    alloc: Global,
    one: H,
    other: H,
    number: u64,
) -> Result<bool, Wrong> {
    let (Some(line), Some(notice), Some(seq)) = (
        Id::read(b"1000"),
        Id::read(b"N1"),
        Sequence::read(number),
    ) else {
        return Err(Wrong::NoMemory);
    };
    let mut one = played(alloc, one, 0, &[MONEY, TENDERERS, NOTICE, AMENDED_TWICE])?;
    let mut other = played(alloc, other, 0, &[TENDERERS])?;
    let left_out = LeftOut::Release(seq);
    if copy_but(alloc, &mut one, &mut other, &line, &notice, left_out).is_err() {
        return Err(Wrong::NoMemory);
    }
    drop(played(alloc, other, 0, &[NOT_SHOWN])?);
    Ok(true)
}

fn isnt_shown_in_memory(alloc: Global, number: u64) -> Result<bool, Wrong> {
    isnt_shown(
        alloc,
        MemoryShelf::new(alloc),
        MemoryShelf::new(alloc),
        number,
    )
}

// Tries twice, because a test may refuse one allocation.
fn is_right(alloc: Global, number: u64) -> bool {
    matches!(isnt_shown_in_memory(alloc, number), Ok(true))
        || matches!(isnt_shown_in_memory(alloc, number), Ok(true))
}

// The first release, one in the middle, and the last.
#[test]
fn packages_are_not_cut_at_a_gap(rt: HostRuntime) {
    let alloc = rt.alloc();
    for number in 1..4 {
        assert!(rt; is_right(alloc, number));
    }
}
