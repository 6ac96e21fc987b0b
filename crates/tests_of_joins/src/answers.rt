//! Answers with several rows: the first row, and all of them.
use crate::values::row_of;
use office_base::records::CompiledRow;
use office_base::shelf::ShelfFault;
use office_tables::stored::{all, first};
use sqlite::Row;
use sqlite_value::value::ValueRef::Text;
use std::alloc::Global;

// Whether the first of the rows is the merge of this notice, or there is none.
fn is_first(alloc: Global, rows: &[Row], notice: Option<&str>) -> bool {
    match (first::<CompiledRow>(alloc, rows), notice) {
        (Ok(Some(one)), Some(notice)) => one.notice.as_str() == notice,
        (Ok(None), None) => true,
        _ => false,
    }
}

// Whether there are two rows, and the second has this notice.
fn are_two(alloc: Global, rows: &[Row], notice: &str) -> bool {
    match all::<CompiledRow>(alloc, rows) {
        Ok(found) => match found.as_slice() {
            [_, second] => second.notice.as_str() == notice,
            _ => false,
        },
        Err(_) => false,
    }
}

fn add_merge(alloc: Global, rows: &mut Vec<Row>, notice: &[u8]) -> Option<()> {
    rows.push(row_of(alloc, &[Text(notice), Text(b"{}")])?).ok()
}

fn are_read(alloc: Global, rows: &mut Vec<Row>) -> Option<bool> {
    let none = is_first(alloc, rows.as_slice(), None);
    add_merge(alloc, rows, b"N1")?;
    add_merge(alloc, rows, b"N2")?;
    let two = is_first(alloc, rows.as_slice(), Some("N1")) && are_two(alloc, rows.as_slice(), "N2");
    add_merge(alloc, rows, b"N 3")?;
    let refused = matches!(
        all::<CompiledRow>(alloc, rows.as_slice()),
        Err(ShelfFault::Store)
    );
    Some(none && two && refused)
}

#[test]
fn reads_answers(rt: HostRuntime) {
    let alloc = rt.alloc();
    let mut rows = Vec::new(alloc);
    assert!(rt; are_read(alloc, &mut rows) == Some(true));
}
