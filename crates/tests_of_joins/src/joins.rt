//! The selects over a store in memory.
use crate::joined_ledgers::are_amounts;
use office_base::ledger::LedgerRow;
use office_ledger::adding::{amounts_of_rows, ledger_of_rows};
use office_ledger::select::{list_joined, list_joined_of_line};
use sqlite::{Connection, MemStore, Row, params};
use std::alloc::Global;

const TABLES: &str = "CREATE TABLE other (x TEXT);
CREATE TABLE lines (line TEXT NOT NULL PRIMARY KEY, title TEXT NOT NULL, appropriation INTEGER NOT NULL, free INTEGER NOT NULL) STRICT;
CREATE TABLE lots (notice TEXT NOT NULL, lot TEXT NOT NULL, title TEXT NOT NULL, line TEXT NOT NULL, estimate INTEGER NOT NULL, security INTEGER NOT NULL, items TEXT NOT NULL, state TEXT NOT NULL, reserved INTEGER NOT NULL, PRIMARY KEY (notice, lot)) STRICT;
CREATE TABLE contracts (contract INTEGER NOT NULL PRIMARY KEY, notice TEXT NOT NULL, lot TEXT NOT NULL, tenderer TEXT NOT NULL, signed INTEGER NOT NULL, moment INTEGER NOT NULL, ended INTEGER, how TEXT, released INTEGER NOT NULL) STRICT;
CREATE TABLE entries (contract INTEGER NOT NULL, entry TEXT NOT NULL, kind TEXT NOT NULL, amount INTEGER NOT NULL, moment INTEGER NOT NULL, rationale TEXT, PRIMARY KEY (contract, entry)) STRICT;
CREATE INDEX lots_of_line ON lots (line);
CREATE INDEX contracts_of_notice ON contracts (notice)";

// Rows that aren't in the order of their keys.
const ROWS: &str =
    "INSERT INTO lines VALUES ('2000', 'Parks', 50, 50), ('1000', 'Roads', 1000, 820);
INSERT INTO lots VALUES ('N1', 'C', 'South', '1000', 30, 0, '', 'undecided', 30), ('N1', 'B', 'East', '1000', 50, 0, '', 'contracted', 0), ('N1', 'A', 'North', '1000', 100, 0, '', 'contracted', 7);
INSERT INTO contracts VALUES (2, 'N1', 'B', 'T1', 50, 0, NULL, NULL, 0), (1, 'N1', 'A', 'T1', 100, 0, NULL, NULL, 0);
INSERT INTO entries VALUES (1, 'P2', 'payment', 10, 0, NULL), (1, 'P1', 'payment', 10, 0, NULL)";

fn made(alloc: Global) -> Option<Connection<MemStore>> {
    let mut conn = Connection::open_in_memory(alloc).ok()?;
    conn.execute_batch(TABLES).ok()?;
    conn.execute_batch(ROWS).ok()?;
    Some(conn)
}

fn joined(alloc: Global) -> Option<Vec<Row>> {
    made(alloc)?.query_all(list_joined(), &[]).ok()
}

fn joined_of_line(alloc: Global, line: &str) -> Option<Vec<Row>> {
    made(alloc)?
        .query_all(list_joined_of_line(), params![line])
        .ok()
}

// Whether the first line has the expected reserved, contracted and paid money, and the second the expected appropriation and contracted money.
fn are_lines(ledger: &[LedgerRow]) -> bool {
    match ledger {
        [roads, parks] => {
            let (reserved, contracted) = (
                roads.pots.reserved.units(),
                roads.pots.contracted.units(),
            );
            let (appropriation, of_parks) = (
                parks.pots.appropriation.units(),
                parks.pots.contracted.units(),
            );
            roads.line.as_str() == "1000"
                && [reserved, contracted, roads.pots.paid.units()] == [37, 130, 20]
                && [appropriation, of_parks] == [50, 0]
        }
        _ => false,
    }
}

fn is_ledger(alloc: Global, rows: &[Row]) -> bool {
    match ledger_of_rows(alloc, rows) {
        Ok(ledger) => rows.len() == 5 && are_lines(ledger.as_slice()),
        Err(_) => false,
    }
}

fn ledger_is_selected(alloc: Global) -> bool {
    match joined(alloc) {
        Some(rows) => is_ledger(alloc, rows.as_slice()),
        None => false,
    }
}

#[test]
fn the_ledger_is_selected(rt: HostRuntime) {
    assert!(rt; ledger_is_selected(rt.alloc()));
}

fn are_added_up(alloc: Global, rows: &[Row]) -> bool {
    match amounts_of_rows(alloc, rows) {
        Ok(amounts) => are_amounts(&amounts),
        Err(_) => false,
    }
}

fn amounts_are_selected(alloc: Global) -> bool {
    match joined_of_line(alloc, "1000") {
        Some(rows) => are_added_up(alloc, rows.as_slice()),
        None => false,
    }
}

fn none_are_selected(alloc: Global) -> bool {
    match joined_of_line(alloc, "3000") {
        Some(rows) => rows.is_empty(),
        None => false,
    }
}

#[test]
fn amounts_of_a_line_are_selected(rt: HostRuntime) {
    assert!(rt; amounts_are_selected(rt.alloc()));
    assert!(rt; none_are_selected(rt.alloc()));
}
