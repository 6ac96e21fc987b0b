//! Reads rows of the selects as joined rows. A row that no office writes is a fault of the store.
ghost use Rattle.std.specs.Prelude.{◌≡◌, ◌≤◌, ◌↔◌, IsTrue, IfOk, IfErr, IfSome, None, Some};
ghost use Rattle.office_base.specs.Faults.{IsFaultOf};
ghost use Rattle.office_tables.specs.Unwritten.{IsUnwritten};
ghost use Rattle.office_ledger.specs.Cells.{entry_cells, contract_cells, lot_cells, joined_cells};
ghost use Rattle.office_ledger.specs.Parts.{columns_of_entry, columns_of_contract, columns_of_lot};
ghost use Rattle.office_ledger.specs.Fits.{EntryFits, ContractFits, LotFits, JoinedFits};
ghost use Rattle.office_ledger.specs.Reading.{joined_read, joined_lot_read};
ghost use Rattle.office_ledger.specs.ReadBack.{JoinedRowsComeBack, JoinedLotsComeBack};
ghost use Rattle.office_ledger.specs.Shows.{joined_lot_cells};

use crate::joined::{JoinedContract, JoinedEntry, JoinedLot, JoinedRow};
use office_base::shelf::ShelfFault;
use office_tables::columns::{amount_at, are_null, bounded_at, has_columns, id_at, total_at};
use office_tables::words::entry_kind_at;
use sqlite::Row;

// Whether there is no entry from this column on.
fn has_no_entry(row: &Row, at: usize) -> bool
    requires { at ≤ 100 }
    ensures { IsTrue result ↔ (entry_cells None ≡ columns_of_entry row.now at) }
{
    are_null(row, at)
}

// Whether there is no contract from this column on.
fn has_no_contract(row: &Row, at: usize) -> bool
    requires { at ≤ 90 }
    ensures { IsTrue result ↔ (contract_cells None ≡ columns_of_contract row.now at) }
{
    are_null(row, at) && has_no_entry(row, at + 3)
}

// Whether there is no lot from this column on.
fn has_no_lot(row: &Row, at: usize) -> bool
    requires { at ≤ 80 }
    ensures { IsTrue result ↔ (lot_cells None ≡ columns_of_lot row.now at) }
{
    are_null(row, at) && has_no_contract(row, at + 3)
}

// The entry from this column on.
fn entry_at(row: &Row, at: usize) -> Result<JoinedEntry, ShelfFault>
    requires { at ≤ 100 }
    ensures exact { IfOk result (λ entry. entry_cells (Some entry) ≡ columns_of_entry row.now at) }
    ensures cause { IfErr result (IsFaultOf (IsUnwritten (λ entry. entry_cells (Some entry)) EntryFits (columns_of_entry row.now at))) }
{
    Ok(JoinedEntry {
        entry: id_at(row, at)?,
        kind: entry_kind_at(row, at + 1)?,
        amount: bounded_at(row, at + 2)?,
    })
}

// The entry from this column on, or `None` if all its columns are NULL.
fn entry_from(row: &Row, at: usize) -> Result<Option<JoinedEntry>, ShelfFault>
    requires { at ≤ 100 }
    ensures exact { IfOk result (λ entry. entry_cells entry ≡ columns_of_entry row.now at) }
    ensures cause { IfErr result (IsFaultOf (IsUnwritten entry_cells (λ entry. IfSome entry EntryFits) (columns_of_entry row.now at))) }
{
    if has_no_entry(row, at) {
        return Ok(None);
    }
    Ok(Some(entry_at(row, at)?))
}

// The contract from this column on, with its entry.
fn contract_at(row: &Row, at: usize) -> Result<JoinedContract, ShelfFault>
    requires { at ≤ 90 }
    ensures exact { IfOk result (λ contract. contract_cells (Some contract) ≡ columns_of_contract row.now at) }
    ensures cause { IfErr result (IsFaultOf (IsUnwritten (λ contract. contract_cells (Some contract)) ContractFits (columns_of_contract row.now at))) }
{
    Ok(JoinedContract {
        contract: bounded_at(row, at)?,
        signed: total_at(row, at + 1)?,
        released: total_at(row, at + 2)?,
        entry: entry_from(row, at + 3)?,
    })
}

// The contract from this column on, with its entry, or `None` if all their columns are NULL.
fn contract_from(row: &Row, at: usize) -> Result<Option<JoinedContract>, ShelfFault>
    requires { at ≤ 90 }
    ensures exact { IfOk result (λ contract. contract_cells contract ≡ columns_of_contract row.now at) }
    ensures cause { IfErr result (IsFaultOf (IsUnwritten contract_cells (λ contract. IfSome contract ContractFits) (columns_of_contract row.now at))) }
{
    if has_no_contract(row, at) {
        return Ok(None);
    }
    Ok(Some(contract_at(row, at)?))
}

// The lot from this column on, with its contract.
fn lot_at(row: &Row, at: usize) -> Result<JoinedLot, ShelfFault>
    requires { at ≤ 80 }
    ensures exact { IfOk result (λ lot. joined_lot_cells lot ≡ columns_of_lot row.now at) }
    ensures cause { IfErr result (IsFaultOf (IsUnwritten joined_lot_cells LotFits (columns_of_lot row.now at))) }
{
    Ok(JoinedLot {
        notice: id_at(row, at)?,
        lot: id_at(row, at + 1)?,
        reserved: amount_at(row, at + 2)?,
        contract: contract_from(row, at + 3)?,
    })
}

// The lot from this column on, with its contract, or `None` if all their columns are NULL.
fn lot_from(row: &Row, at: usize) -> Result<Option<JoinedLot>, ShelfFault>
    requires { at ≤ 80 }
    ensures exact { IfOk result (λ lot. lot_cells lot ≡ columns_of_lot row.now at) }
    ensures cause { IfErr result (IsFaultOf (IsUnwritten lot_cells (λ lot. IfSome lot LotFits) (columns_of_lot row.now at))) }
{
    if has_no_lot(row, at) {
        return Ok(None);
    }
    Ok(Some(lot_at(row, at)?))
}

/// A row of the ledger's join.
pub fn joined_row(row: &Row) -> Result<JoinedRow, ShelfFault>
    ensures read { IfOk result (λ joined. joined ≡ joined_read row.now) }
    ensures exact { IfOk result (λ joined. joined_cells joined ≡ row.now) }
    ensures cause { IfErr result (IsFaultOf (IsUnwritten joined_cells JoinedFits row.now)) }
{
    has_columns(row, 12)?;
    Ok(JoinedRow {
        line: id_at(row, 0)?,
        appropriation: total_at(row, 1)?,
        free: total_at(row, 2)?,
        lot: lot_from(row, 3)?,
    })
}

/// A row of the join of a line's lots.
pub fn joined_lot(row: &Row) -> Result<JoinedLot, ShelfFault>
    ensures read { IfOk result (λ lot. lot ≡ joined_lot_read row.now) }
    ensures exact { IfOk result (λ lot. joined_lot_cells lot ≡ row.now) }
    ensures cause { IfErr result (IsFaultOf (IsUnwritten joined_lot_cells LotFits row.now)) }
{
    has_columns(row, 9)?;
    lot_at(row, 0)
}

/// A law: a joined row is read back from the columns that the select shows of it.
pub fn joined_rows_come_back()
    ensures { JoinedRowsComeBack }
{}

/// A law: a joined lot is read back from the columns that the select shows of it.
pub fn joined_lots_come_back()
    ensures { JoinedLotsComeBack }
{}
