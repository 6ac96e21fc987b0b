//! Rows of the selects that show joined rows: those that the selects can show, and those that no office writes.
use crate::values::row_of;
use office_base::shelf::ShelfFault;
use office_ledger::reading::{joined_lot, joined_row};
use sqlite_value::value::ValueRef;
use sqlite_value::value::ValueRef::{Int, Null, Text};
use std::alloc::Global;

// A line with a lot, its contract and an entry, then with fewer of them.
static READ: [[ValueRef<'static>; 12]; 4] = [
    [
        Text(b"1000"),
        Int(1000),
        Int(395),
        Text(b"N1"),
        Text(b"L1"),
        Int(0),
        Int(1),
        Int(605),
        Int(0),
        Text(b"P1"),
        Text(b"payment"),
        Int(10),
    ],
    [
        Text(b"1000"),
        Int(1000),
        Int(395),
        Text(b"N1"),
        Text(b"L1"),
        Int(0),
        Int(1),
        Int(605),
        Int(0),
        Null,
        Null,
        Null,
    ],
    [
        Text(b"1000"),
        Int(1000),
        Int(395),
        Text(b"N1"),
        Text(b"L1"),
        Int(600),
        Null,
        Null,
        Null,
        Null,
        Null,
        Null,
    ],
    [
        Text(b"1000"),
        Int(1000),
        Int(395),
        Null,
        Null,
        Null,
        Null,
        Null,
        Null,
        Null,
        Null,
        Null,
    ],
];

fn all_are_read(alloc: Global) -> bool {
    for values in &READ {
        match row_of(alloc, values) {
            Some(row) if joined_row(&row).is_ok() => {}
            _ => return false,
        }
    }
    true
}

// A word that isn't a kind; an amount after a NULL entry; a sum after a NULL contract; an entry after a NULL lot; a contract with number 0.
static REFUSED: [[ValueRef<'static>; 9]; 5] = [
    [
        Text(b"N1"),
        Text(b"L1"),
        Int(0),
        Int(1),
        Int(605),
        Int(0),
        Text(b"P1"),
        Text(b"gift"),
        Int(10),
    ],
    [
        Text(b"N1"),
        Text(b"L1"),
        Int(0),
        Int(1),
        Int(605),
        Int(0),
        Null,
        Null,
        Int(10),
    ],
    [
        Text(b"N1"),
        Text(b"L1"),
        Int(0),
        Null,
        Int(605),
        Null,
        Null,
        Null,
        Null,
    ],
    [
        Null,
        Null,
        Null,
        Null,
        Null,
        Null,
        Text(b"P1"),
        Text(b"cut"),
        Int(10),
    ],
    [
        Text(b"N1"),
        Text(b"L1"),
        Int(0),
        Int(0),
        Int(605),
        Int(0),
        Null,
        Null,
        Null,
    ],
];

// Whether these values of a lot are refused, alone and after those of their line.
fn are_refused(alloc: Global, lot: &[ValueRef<'static>; 9]) -> bool {
    let mut values = [
        Text(b"1000"),
        Int(1000),
        Int(395),
        Null,
        Null,
        Null,
        Null,
        Null,
        Null,
        Null,
        Null,
        Null,
    ];
    values[3..].copy_from_slice(lot);
    match (row_of(alloc, lot), row_of(alloc, &values)) {
        (Some(alone), Some(behind)) => {
            matches!(joined_lot(&alone), Err(ShelfFault::Store))
                && matches!(joined_row(&behind), Err(ShelfFault::Store))
        }
        _ => false,
    }
}

fn all_are_refused(alloc: Global) -> bool {
    for lot in &REFUSED {
        if !are_refused(alloc, lot) {
            return false;
        }
    }
    true
}

#[test]
fn joined_rows_are_read(rt: HostRuntime) {
    let alloc = rt.alloc();
    assert!(rt; all_are_read(alloc));
    assert!(rt; all_are_refused(alloc));
}
