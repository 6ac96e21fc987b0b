//! A stored release that isn't of its notice, or isn't as the office writes it, is a fault of the store wherever it would be shown.
use office_base::counts::Sequence;
use office_base::json_text::JsonText;
use office_base::puts::Put;
use office_base::records::ReleaseRow;
use office_base::shelf::Shelf;
use office_memory::memory::MemoryShelf;
use office_values::id::Id;
use office_values::refusal::Refusal;
use std::alloc::Global;
use tests_transcripts::session::{Wrong, played};
use tests_transcripts::setup::{MONEY, NOTICE, TENDERERS};

/// Neither package of the notice is shown.
pub(crate) static NOT_SHOWN: &str = r#"
at 2026-02-01T09:00:00Z public GET /notices/N1/releases
= 503 {"name":"Unavailable","refusal":32}

at 2026-02-01T09:00:00Z public GET /notices/N1/record
= 503 {"name":"Unavailable","refusal":32}
"#;

/// Gives the notice's first release this text, if it has one.
pub(crate) fn change_text<H: Shelf>(
    alloc: Global,
    shelf: &mut H,
    text: &str,
) -> Result<(), Refusal> {
    let (Some(notice), Some(first)) = (Id::read(b"N1"), Sequence::read(1)) else {
        return Ok(());
    };
    let Some(row) = shelf.get_release(&notice, first)? else {
        return Ok(());
    };
    let text = JsonText::from_string(String::from_str(alloc, text)?);
    let mut puts = Vec::new(alloc);
    puts.push(Put::Release(ReleaseRow { text, ..row }))?;
    shelf.apply(puts)?;
    Ok(())
}

// Whether neither package of a notice is shown if its release has this text.
fn isnt_shown<H: Shelf + Drop>(alloc: Global, shelf: H, text: &str) -> Result<bool, Wrong> {
    let mut shelf = played(alloc, shelf, 0, &[MONEY, TENDERERS, NOTICE])?;
    if change_text(alloc, &mut shelf, text).is_err() {
        return Err(Wrong::NoMemory);
    }
    drop(played(alloc, shelf, 0, &[NOT_SHOWN])?);
    Ok(true)
}

// Tries twice, because a test may refuse one allocation.
fn is_right(alloc: Global, text: &str) -> bool {
    matches!(isnt_shown(alloc, MemoryShelf::new(alloc), text), Ok(true))
        || matches!(isnt_shown(alloc, MemoryShelf::new(alloc), text), Ok(true))
}

// Texts that are no objects; objects that are written otherwise; then releases without a date, of another notice, and of none.
static UNWRITTEN: [&str; 13] = [
    "",
    "1",
    "[]",
    "{\"a\":1",
    "{} {}",
    "{\"a\":1e999}",
    r#"{"ocid":"ocds-a1b2c3-N1","date":"2026-02-01T09:00:00Z"}"#,
    r#"{"date":"","date":"2026-02-01T09:00:00Z","ocid":"ocds-a1b2c3-N1"}"#,
    r#"{"date": "2026-02-01T09:00:00Z","ocid":"ocds-a1b2c3-N1"}"#,
    r#"{"a":0.5,"date":"2026-02-01T09:00:00Z","ocid":"ocds-a1b2c3-N1"}"#,
    r#"{"date":20260201,"ocid":"ocds-a1b2c3-N1"}"#,
    r#"{"date":"2026-02-01T09:00:00Z","ocid":"ocds-a1b2c3-N2"}"#,
    r#"{"date":"2026-02-01T09:00:00Z"}"#,
];

fn are_right(alloc: Global, texts: &[&str]) -> bool {
    for text in texts {
        if !is_right(alloc, text) {
            return false;
        }
    }
    true
}

#[test]
fn texts_that_no_office_writes_are_not_shown(rt: HostRuntime) {
    assert!(rt; are_right(rt.alloc(), &UNWRITTEN));
}
