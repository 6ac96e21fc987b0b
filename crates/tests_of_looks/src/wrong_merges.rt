//! Merges that no office stores, put beside a notice's releases by another program. A merge that isn't of its notice, or isn't as the office writes it, is
//! a fault of the store wherever it is needed.
use office_base::json_text::JsonText;
use office_base::puts::Put;
use office_base::records::CompiledRow;
use office_base::shelf::Shelf;
use office_memory::memory::MemoryShelf;
use office_values::id::Id;
use office_values::refusal::Refusal;
use std::alloc::Global;
use tests_transcripts::published::AMENDED;
use tests_transcripts::session::{Wrong, played};
use tests_transcripts::setup::{MONEY, NOTICE, TENDERERS};

/// Nothing is published after this merge, and no record is shown.
pub(crate) static NOT_GONE_ON: &str = r#"
at 2026-02-01T09:00:00Z public GET /notices/N1/record
= 503 {"name":"Unavailable","refusal":32}

at 2026-02-10T09:00:00Z clerk POST /notices/N1/amend
> {"deadline":"2026-03-02T12:00:00Z","rationale":"More time"}
= 503 {"name":"Unavailable","refusal":32}

at 2026-02-10T09:00:00Z public GET /notices/N1/record
= 503 {"name":"Unavailable","refusal":32}
"#;

fn put_merge<H: Shelf>(alloc: Global, shelf: &mut H, row: CompiledRow) -> Result<(), Refusal> {
    let mut puts = Vec::new(alloc);
    puts.push(Put::Compiled(row))?;
    shelf.apply(puts)?;
    Ok(())
}

// Gives the notice's merge this text. Returns the row that it replaces.
fn change_merge<H: Shelf>(
    alloc: Global,
    shelf: &mut H,
    notice: Id,
    text: &str,
) -> Result<Option<CompiledRow>, Refusal> {
    let before = shelf.get_compiled(&notice)?;
    let text = JsonText::from_string(String::from_str(alloc, text)?);
    put_merge(alloc, shelf, CompiledRow { notice, text })?;
    Ok(before)
}

// An office with a notice whose merge has this text, and the row that it replaces.
fn changed<H: Shelf + Drop>(
    alloc: Global,
    shelf: H,
    text: &str,
) -> Result<(H, CompiledRow), Wrong> {
    let notice = Id::read(b"N1").ok_or(Wrong::NoMemory)?;
    let mut shelf = played(alloc, shelf, 0, &[MONEY, TENDERERS, NOTICE])?;
    match change_merge(alloc, &mut shelf, notice, text) {
        Ok(Some(before)) => Ok((shelf, before)),
        _ => Err(Wrong::NoMemory),
    }
}

// Whether this office publishes nothing and shows no record, and continues as usual after its merge is restored.
fn isnt_begun_anew<H: Shelf + Drop>(alloc: Global, shelf: H, text: &str) -> Result<bool, Wrong> {
    let (shelf, before) = changed(alloc, shelf, text)?;
    let mut shelf = played(alloc, shelf, 0, &[NOT_GONE_ON])?;
    if put_merge(alloc, &mut shelf, before).is_err() {
        return Err(Wrong::NoMemory);
    }
    drop(played(alloc, shelf, 0, &[AMENDED])?);
    Ok(true)
}

fn isnt_begun_anew_in_memory(alloc: Global, text: &str) -> bool {
    matches!(
        isnt_begun_anew(alloc, MemoryShelf::new(alloc), text),
        Ok(true)
    )
}

// Tries twice, because a test may refuse one allocation.
fn is_right(alloc: Global, text: &str) -> bool {
    isnt_begun_anew_in_memory(alloc, text) || isnt_begun_anew_in_memory(alloc, text)
}

// Texts that are no objects; objects with a name out of its order, a name twice, a blank, a float and an escape that isn't needed. The last ones are merges of
// another notice and of none.
static UNWRITTEN: [&str; 13] = [
    "5",
    "[]",
    "null",
    " [{}]",
    r#""{}""#,
    "{",
    r#"{"tender":{"id":"N1"},"ocid":"ocds-a1b2c3-N1"}"#,
    r#"{"ocid":"","ocid":"ocds-a1b2c3-N1"}"#,
    r#"{ "ocid":"ocds-a1b2c3-N1"}"#,
    r#"{"a":1.5,"ocid":"ocds-a1b2c3-N1"}"#,
    r#"{"a":"\u0061","ocid":"ocds-a1b2c3-N1"}"#,
    r#"{"ocid":"ocds-a1b2c3-N2"}"#,
    r#"{"a":1}"#,
];

fn are_right(alloc: Global, texts: &[&str]) -> bool {
    for text in texts {
        if !is_right(alloc, text) {
            return false;
        }
    }
    true
}

#[test]
fn merges_that_no_office_writes_are_not_begun_anew(rt: HostRuntime) {
    let alloc = rt.alloc();
    assert!(rt; are_right(alloc, &UNWRITTEN));
}
