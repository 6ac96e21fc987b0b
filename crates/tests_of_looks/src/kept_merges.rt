//! An office that stores no merge of a notice's releases. Its record is the same, and the next publication stores a merge. If a release isn't of its notice,
//! or isn't as the office writes it, nothing is published.
use crate::copies::{LeftOut, copy_but};
use crate::unreadable_texts::change_text;
use crate::wrong_merges::NOT_GONE_ON;
use office_base::shelf::Shelf;
use office_memory::memory::MemoryShelf;
use office_values::id::Id;
use std::alloc::Global;
use tests_transcripts::published::{AMENDED, PUBLISHED};
use tests_transcripts::session::played;
use tests_transcripts::setup::{MONEY, NOTICE, TENDERERS};

// Whether a merge is stored. None if this can't be found out.
fn keeps_merge<H: Shelf>(shelf: &mut H, notice: &Id) -> Option<bool> {
    match shelf.get_compiled(notice) {
        Ok(merge) => Some(merge.is_some()),
        Err(_) => None,
    }
}

fn all_of(
    one: Option<bool>,
    copied: Option<bool>,
    looked_at: Option<bool>,
    amended: Option<bool>,
) -> Option<[bool; 4]> {
    Some([one?, copied?, looked_at?, amended?])
}

// The other office with the notice of the first one, without the merge of its releases; and whether the first one stores this merge.
fn without_merge<H: Shelf + Drop>(
    alloc: Global,
    one: H,
    other: H,
    notice: &Id,
) -> Option<(H, Option<bool>)> {
    let line = Id::read(b"1000")?;
    let mut other = played(alloc, other, 0, &[TENDERERS]).ok()?;
    let mut one = played(alloc, one, 0, &[MONEY, TENDERERS, NOTICE]).ok()?;
    if copy_but(alloc, &mut one, &mut other, &line, notice, LeftOut::Merge).is_err() {
        return None;
    }
    let in_one = keeps_merge(&mut one, notice);
    Some((other, in_one))
}

// Whether the merge is stored in the first office, and in the other one before all queries, after the queries, and after an amendment.
fn merges_kept<H: Shelf + Drop>(alloc: Global, one: H, other: H) -> Option<[bool; 4]> {
    let notice = Id::read(b"N1")?;
    let (mut other, in_one) = without_merge(alloc, one, other, &notice)?;
    let copied = keeps_merge(&mut other, &notice);
    let mut other = played(alloc, other, 0, &[PUBLISHED]).ok()?;
    let looked_at = keeps_merge(&mut other, &notice);
    let mut other = played(alloc, other, 0, &[AMENDED]).ok()?;
    all_of(in_one, copied, looked_at, keeps_merge(&mut other, &notice))
}

// The answers over two offices.
fn merges(alloc: Global) -> Option<[bool; 4]> {
    merges_kept(alloc, MemoryShelf::new(alloc), MemoryShelf::new(alloc))
}

// Whether the first of two tries that doesn't fail is right, because a test may refuse one allocation.
fn are_right(first: Option<[bool; 4]>, second: Option<[bool; 4]>) -> bool {
    match first.or(second) {
        Some(kept) => kept == [true, false, false, true],
        None => false,
    }
}

// Whether nothing is published and no record is shown if no merge is stored and the release has this text.
fn isnt_merged<H: Shelf + Drop>(alloc: Global, one: H, other: H, text: &str) -> Option<bool> {
    let notice = Id::read(b"N1")?;
    let (mut other, _) = without_merge(alloc, one, other, &notice)?;
    if change_text(alloc, &mut other, text).is_err() {
        return None;
    }
    let mut other = played(alloc, other, 0, &[NOT_GONE_ON]).ok()?;
    Some(!keeps_merge(&mut other, &notice)?)
}

fn isnt_merged_anew(alloc: Global, text: &str) -> Option<bool> {
    isnt_merged(
        alloc,
        MemoryShelf::new(alloc),
        MemoryShelf::new(alloc),
        text,
    )
}

// Tries twice, because a test may refuse one allocation.
fn is_right(alloc: Global, text: &str) -> bool {
    matches!(isnt_merged_anew(alloc, text), Some(true))
        || matches!(isnt_merged_anew(alloc, text), Some(true))
}

#[test]
fn releases_that_no_office_writes_are_not_merged(rt: HostRuntime) {
    let alloc = rt.alloc();
    assert!(rt; is_right(alloc, "5"));
    assert!(rt;
        is_right(
            alloc,
            r#"{"ocid":"ocds-a1b2c3-N1","date":"2026-02-01T09:00:00Z"}"#
        )
    );
    assert!(rt;
        is_right(
            alloc,
            r#"{"date":"2026-02-01T09:00:00Z","ocid":"ocds-a1b2c3-N2"}"#
        )
    );
    assert!(rt; is_right(alloc, r#"{"date":20260201,"ocid":"ocds-a1b2c3-N1"}"#));
}

#[test]
fn kept_merges(rt: HostRuntime) {
    let alloc = rt.alloc();
    assert!(rt; are_right(merges(alloc), merges(alloc)));
}
