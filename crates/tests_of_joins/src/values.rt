//! Rows of values, one for each record that an office writes.
use sqlite::{Connection, Row};
use sqlite_value::value::ValueRef;
use sqlite_value::value::ValueRef::{Blob, Int, Text};
use std::alloc::Global;

/// A possible SHA-256, with a zero byte in it.
pub(crate) const DIGEST: &[u8] = b"\x00\x0123456789abcdef0123456789ABCDEF";

// Selects of this many values.
static SELECTS: [&str; 17] = [
    "SELECT NULL",
    "SELECT ?1",
    "SELECT ?1, ?2",
    "SELECT ?1, ?2, ?3",
    "SELECT ?1, ?2, ?3, ?4",
    "SELECT ?1, ?2, ?3, ?4, ?5",
    "SELECT ?1, ?2, ?3, ?4, ?5, ?6",
    "SELECT ?1, ?2, ?3, ?4, ?5, ?6, ?7",
    "SELECT ?1, ?2, ?3, ?4, ?5, ?6, ?7, ?8",
    "SELECT ?1, ?2, ?3, ?4, ?5, ?6, ?7, ?8, ?9",
    "SELECT ?1, ?2, ?3, ?4, ?5, ?6, ?7, ?8, ?9, ?10",
    "SELECT ?1, ?2, ?3, ?4, ?5, ?6, ?7, ?8, ?9, ?10, ?11",
    "SELECT ?1, ?2, ?3, ?4, ?5, ?6, ?7, ?8, ?9, ?10, ?11, ?12",
    "SELECT ?1, ?2, ?3, ?4, ?5, ?6, ?7, ?8, ?9, ?10, ?11, ?12, ?13",
    "SELECT ?1, ?2, ?3, ?4, ?5, ?6, ?7, ?8, ?9, ?10, ?11, ?12, ?13, ?14",
    "SELECT ?1, ?2, ?3, ?4, ?5, ?6, ?7, ?8, ?9, ?10, ?11, ?12, ?13, ?14, ?15",
    "SELECT ?1, ?2, ?3, ?4, ?5, ?6, ?7, ?8, ?9, ?10, ?11, ?12, ?13, ?14, ?15, ?16",
];

/// A row of an answer with these values. None if there was no answer.
pub(crate) fn row_of(alloc: Global, values: &[ValueRef<'_>]) -> Option<Row> {
    let sql = SELECTS.get(values.len())?;
    let mut conn = Connection::open_in_memory(alloc).ok()?;
    conn.query_row(sql, values).ok()
}

/// A notice in this state, with the moment of its opening and its performance security.
pub(crate) fn notice_of<'a>(
    state: &'a [u8],
    opened: ValueRef<'a>,
    performance: i64,
) -> [ValueRef<'a>; 12] {
    [
        Text(b"N1"),
        Text(b"Road repair"),
        Int(5),
        Int(9),
        Int(90),
        Int(10),
        Int(0),
        Text(state),
        opened,
        Int(2),
        Int(3),
        Int(performance),
    ]
}

/// A lot in this state, with these items.
pub(crate) fn lot_of<'a>(items: &'a [u8], state: &'a [u8]) -> [ValueRef<'a>; 9] {
    [
        Text(b"N1"),
        Text(b"L1"),
        Text(b"North"),
        Text(b"1000"),
        Int(600),
        Int(50),
        Text(items),
        Text(state),
        Int(601),
    ]
}

/// A tender in this state, with the four columns of its reading, then whether it is responsive, and its quality.
pub(crate) fn envelope_of<'a>(state: &'a [u8], read: [ValueRef<'a>; 6]) -> [ValueRef<'a>; 16] {
    let [word, stated, corrected, corrections, responsive, quality] = read;
    [
        Int(12),
        Text(b"N1"),
        Text(b"L1"),
        Text(b"T1"),
        Int(6),
        Int(32_768),
        Blob(DIGEST),
        Int(11),
        Text(state),
        word,
        stated,
        corrected,
        corrections,
        responsive,
        quality,
        Int(1),
    ]
}

/// A security in this state.
pub(crate) fn security_of(state: &[u8]) -> [ValueRef<'_>; 7] {
    [
        Int(12),
        Text(b"T1"),
        Text(b"N1"),
        Text(b"L1"),
        Text(b"BANK-7"),
        Int(50),
        Text(state),
    ]
}

/// An award in this state.
pub(crate) fn award_of(state: &[u8]) -> [ValueRef<'_>; 7] {
    [
        Int(1),
        Text(b"N1"),
        Text(b"L1"),
        Int(12),
        Int(600),
        Int(7),
        Text(state),
    ]
}

/// A contract that ended at this moment, in this way.
pub(crate) fn contract_of<'a>(ended: ValueRef<'a>, how: ValueRef<'a>) -> [ValueRef<'a>; 9] {
    [
        Int(1),
        Text(b"N1"),
        Text(b"L1"),
        Text(b"T1"),
        Int(600),
        Int(8),
        ended,
        how,
        Int(0),
    ]
}

/// A performance security in this state.
pub(crate) fn performance_of(state: &[u8]) -> [ValueRef<'_>; 4] {
    [Int(1), Text(b"P1"), Int(70), Text(state)]
}

/// An entry of this kind and with this rationale.
pub(crate) fn entry_of<'a>(kind: &'a [u8], rationale: ValueRef<'a>) -> [ValueRef<'a>; 6] {
    [Int(1), Text(b"P1"), Text(kind), Int(10), Int(9), rationale]
}
