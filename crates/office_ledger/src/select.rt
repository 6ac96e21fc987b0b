//! The SQL texts that select joined rows, and the laws of their answers.
ghost use Rattle.std.specs.Prelude.{◌≡◌};
ghost use Rattle.office_ledger.specs.Select.{list_joined};
ghost use Rattle.office_ledger.specs.SelectLots.{list_joined_of_line};
ghost use Rattle.office_ledger.specs.Shows.{JoinIsShown, JoinIsBegun, LotsAreShown, LotsAreBegun};
ghost use Rattle.office_ledger.specs.Standing.{StoredRowsShow};
ghost use Rattle.office_ledger.specs.Plain.{JoinIsNoWrite, JoinIsPlain};

use sqlite::Alter;

/// Selects each line with its lots, their contracts and their entries, in the order of their keys.
pub fn list_joined() -> &'static str
    ensures { result.now ≡ list_joined }
{
    "SELECT lines.line, lines.appropriation, lines.free, lots.notice, lots.lot, lots.reserved, contracts.contract, contracts.signed, contracts.released, entries.entry, entries.kind, entries.amount FROM lines LEFT JOIN lots ON lots.line = lines.line LEFT JOIN contracts ON contracts.notice = lots.notice AND contracts.lot = lots.lot LEFT JOIN entries ON entries.contract = contracts.contract ORDER BY lines.line, lots.notice, lots.lot, contracts.contract, entries.entry"
}

/// Selects the lots of one line, its parameter, with their contracts and entries, in the order of their keys.
pub fn list_joined_of_line() -> &'static str
    ensures { result.now ≡ list_joined_of_line }
{
    "SELECT lots.notice, lots.lot, lots.reserved, contracts.contract, contracts.signed, contracts.released, entries.entry, entries.kind, entries.amount FROM lots LEFT JOIN contracts ON contracts.notice = lots.notice AND contracts.lot = lots.lot LEFT JOIN entries ON entries.contract = contracts.contract WHERE lots.line = ?1 ORDER BY lots.notice, lots.lot, contracts.contract, entries.entry"
}

/// A law: the rows of the whole answer are the join.
pub fn join_is_shown<S: Alter>()
    ensures { JoinIsShown S.Store }
{}

/// A law: the rows that the select has shown so far are the beginning of the join.
pub fn join_is_begun<S: Alter>()
    ensures { JoinIsBegun S.Store }
{}

/// A law: the rows of the whole answer for a line's lots are the join of these lots.
pub fn lots_are_shown<S: Alter>()
    ensures { LotsAreShown S.Store }
{}

/// A law: the rows that the select of a line's lots has shown so far are the beginning of their join.
pub fn lots_are_begun<S: Alter>()
    ensures { LotsAreBegun S.Store }
{}

/// A law: rows that hold the records of a table show them, however the table's other columns are written.
pub fn stored_rows_show()
    ensures { StoredRowsShow }
{}

/// A law: the select of all lines shows no rows of a write, and reads no clock.
pub fn join_is_plain()
    ensures { JoinIsPlain }
{}

/// A law: in any schema, the select of all lines shows no rows of a write, and so commits nothing.
pub fn join_is_no_write()
    ensures { JoinIsNoWrite }
{}
