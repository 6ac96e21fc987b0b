//! Adds up the rows of the selects.
ghost use Rattle.std.specs.Prelude.{◌≡◌, ℕ, List, map, IfOk};
ghost use Rattle.office_base.specs.Joined.{amounts_of_line, ledger_of, LinesFit};
ghost use Rattle.office_base.specs.Tables.{Tables, IsSorted};
ghost use Rattle.office_ledger.specs.Joins.{joined, joined_lots};
ghost use Rattle.office_ledger.specs.Cells.{joined_cells};
ghost use Rattle.office_ledger.specs.Shows.{joined_lot_cells};

use crate::amount_list::AmountList;
use crate::ledger_sums::LedgerSums;
use crate::reading::{joined_lot, joined_lots_come_back, joined_row, joined_rows_come_back};
use office_base::ledger::{LedgerRow, LineAmounts};
use office_base::shelf::ShelfFault;
use sqlite::Row;
use std::alloc::Global;

/// The ledger, from the rows of the select of all lines. A row that no office writes, and a sum out of its range, are faults of the store.
pub fn ledger_of_rows(alloc: Global, rows: &[Row]) -> Result<Vec<LedgerRow>, ShelfFault>
    ensures { (t : Tables) → IsSorted t → rows.now ≡ map joined_cells (joined t) → IfOk result (λ ledger. (ledger.items ≡ ledger_of t) × LinesFit t) }
{
    joined_rows_come_back();
    let mut sums = LedgerSums::new(alloc);
    'rows: for row in rows {
        match joined_row(row) {
            Ok(joined) => sums.take(joined)?,
            Err(fault) => return Err(fault),
        }
    }
    sums.finish()
}

/// The reserved amounts of a line's lots and the sums of their contracts, from the rows of the select of these lots. Each lot and each contract counts once.
/// A row that no office writes is a fault of the store.
pub fn amounts_of_rows(alloc: Global, rows: &[Row]) -> Result<LineAmounts, ShelfFault>
    ensures { (t : Tables) (line : List ℕ) → IsSorted t → rows.now ≡ map joined_lot_cells (joined_lots line t) → IfOk result (λ amounts. amounts ≡ amounts_of_line line t) }
{
    joined_lots_come_back();
    let mut amounts = AmountList::new(alloc);
    'rows: for row in rows {
        match joined_lot(row) {
            Ok(joined) => amounts.take(joined)?,
            Err(fault) => return Err(fault),
        }
    }
    amounts.finish()
}
