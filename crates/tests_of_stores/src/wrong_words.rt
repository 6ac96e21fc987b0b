//! Rows that no office writes, put into an office's tables by another program. A row that its table accepts is a fault of the store when it is looked up.
//! (tests/store/test_schema.py tries the rows that a table doesn't accept.)
use crate::stores::opened;
use office_base::shelf::ShelfFault;
use std::alloc::Global;
use tests_disks::asking::Question;
use tests_disks::database::Database;
use tests_disks::disks::Disks;

// The office's answer when it is asked for a row that was put into a new office's tables. None if the table doesn't accept the row.
fn told(alloc: Global, question: Question, row: &str) -> Option<Result<bool, ShelfFault>> {
    let disks = opened(alloc, Disks::blank(alloc)).ok()?.close()?;
    let mut database = Database::open(alloc, disks)?;
    if !database.changes(row) {
        return None;
    }
    let mut office = opened(alloc, database.close()?).ok()?;
    office.asks(question)
}

// Tries twice, because a test may refuse one allocation.
fn is_read(alloc: Global, question: Question, row: &str) -> bool {
    let is_right = |told| matches!(told, Some(Ok(true)));
    is_right(told(alloc, question, row)) || is_right(told(alloc, question, row))
}

fn is_fault(alloc: Global, question: Question, row: &str) -> bool {
    let is_store = |told| matches!(told, Some(Err(ShelfFault::Store)));
    is_store(told(alloc, question, row)) || is_store(told(alloc, question, row))
}

// Whether the first of the rows is read, and each of the next ones is a fault of the store.
fn are_faults(alloc: Global, question: Question, right: &str, wrong: &[&str]) -> bool {
    for row in wrong {
        if !is_fault(alloc, question, row) {
            return false;
        }
    }
    is_read(alloc, question, right)
}

#[test]
fn lines_tenderers_and_notices_are_read(rt: HostRuntime) {
    let alloc = rt.alloc();
    // A line feed in a title.
    assert!(rt;
        are_faults(
            alloc,
            Question::Line,
            "INSERT INTO lines VALUES ('1000', 'Roads', 1000, 395)",
            &["INSERT INTO lines VALUES ('1000', 'Roa\nds', 1000, 395)",]
        )
    );
    // A line feed in a name.
    assert!(rt;
        are_faults(
            alloc,
            Question::Tenderer,
            "INSERT INTO tenderers VALUES ('T1', 'Acme', '1 Road', X'00112233445566778899AABBCCDDEEFF00112233445566778899AABBCCDDEEFF')",
            &[
                "INSERT INTO tenderers VALUES ('T1', 'Acme\nInc', '1 Road', X'00112233445566778899AABBCCDDEEFF00112233445566778899AABBCCDDEEFF')",
            ]
        )
    );
    // A line feed in a title.
    assert!(rt;
        are_faults(
            alloc,
            Question::Notice,
            "INSERT INTO notices_2 VALUES ('N1', 'Repair', 5, 9, 90, 10, 0, 'cancelled', NULL, 0, 1, 70)",
            &[
                "INSERT INTO notices_2 VALUES ('N1', 'Re\npair', 5, 9, 90, 10, 0, 'cancelled', NULL, 0, 1, 70)",
            ]
        )
    );
}

#[test]
fn lots_and_tenders_are_read(rt: HostRuntime) {
    let alloc = rt.alloc();
    // A wrong identifier, and wrong items: without a line feed, with a quantity that begins with 0, with two of one name.
    assert!(rt;
        are_faults(
            alloc,
            Question::Lot,
            "INSERT INTO lots VALUES ('N1', 'L1', 'North', '1000', 600, 0, 'I1\t3\tPaving\n', 'cancelled', 600)",
            &[
                "INSERT INTO lots VALUES ('N1', 'L1', 'North', '10 00', 600, 0, 'I1\t3\tPaving\n', 'awarded', 600)",
                "INSERT INTO lots VALUES ('N1', 'L1', 'North', '1000', 600, 0, 'I1\t3\tPaving', 'awarded', 600)",
                "INSERT INTO lots VALUES ('N1', 'L1', 'North', '1000', 600, 0, 'I1\t03\tPaving\n', 'awarded', 600)",
                "INSERT INTO lots VALUES ('N1', 'L1', 'North', '1000', 600, 0, 'I1\t3\tPaving\nI1\t4\tKerbs\n', 'awarded', 600)",
            ]
        )
    );
    // A price with another word, a word without its price, and a price without a word.
    assert!(rt;
        are_faults(
            alloc,
            Question::Envelope,
            "INSERT INTO envelopes VALUES (1, 'N1', 'L1', 'T1', 6, 9, X'00112233445566778899AABBCCDDEEFF00112233445566778899AABBCCDDEEFF', NULL, 'opened', 'priced', 620, 600, 0, 1, 40, 0)",
            &[
                "INSERT INTO envelopes VALUES (1, 'N1', 'L1', 'T1', 6, 9, X'00112233445566778899AABBCCDDEEFF00112233445566778899AABBCCDDEEFF', NULL, 'opened', 'unreadable', 620, 600, 0, 1, 40, 0)",
                "INSERT INTO envelopes VALUES (1, 'N1', 'L1', 'T1', 6, 9, X'00112233445566778899AABBCCDDEEFF00112233445566778899AABBCCDDEEFF', NULL, 'opened', 'priced', NULL, NULL, NULL, 1, 40, 0)",
                "INSERT INTO envelopes VALUES (1, 'N1', 'L1', 'T1', 6, 9, X'00112233445566778899AABBCCDDEEFF00112233445566778899AABBCCDDEEFF', NULL, 'opened', NULL, 620, 600, 0, 1, 40, 0)",
            ]
        )
    );
}

#[test]
fn rows_with_identifiers_are_read(rt: HostRuntime) {
    let alloc = rt.alloc();
    // A wrong identifier.
    assert!(rt;
        are_faults(
            alloc,
            Question::Security,
            "INSERT INTO securities VALUES (1, 'T1', 'N1', 'L1', 'G1', 50, 'forfeited')",
            &["INSERT INTO securities VALUES (1, 'T1', 'N1', 'L1', 'G 1', 50, 'held')",]
        )
    );
    assert!(rt;
        are_faults(
            alloc,
            Question::Award,
            "INSERT INTO awards VALUES (1, 'N1', 'L1', 1, 600, 7, 'signed')",
            &["INSERT INTO awards VALUES (1, 'N1', 'L 1', 1, 600, 7, 'active')",]
        )
    );
    assert!(rt;
        are_faults(
            alloc,
            Question::Contract,
            "INSERT INTO contracts VALUES (1, 'N1', 'L1', 'T1', 600, 8, 9, 'default', 0)",
            &["INSERT INTO contracts VALUES (1, 'N1', 'L1', 'T 1', 600, 8, 9, 'default', 0)",]
        )
    );
    assert!(rt;
        are_faults(
            alloc,
            Question::Performance,
            "INSERT INTO performance VALUES (1, 'P1', 70, 'held')",
            &["INSERT INTO performance VALUES (1, 'P 1', 70, 'held')",]
        )
    );
    // Any text is read as a release.
    assert!(rt;
        are_faults(
            alloc,
            Question::Release,
            "INSERT INTO releases VALUES ('N1', 1, 5, '{}')",
            &[]
        )
    );
}
