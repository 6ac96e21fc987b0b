//! The sums over the rows of an office in memory: the amounts of a budget line, and the ledger.
ghost use Rattle.std.specs.Prelude.{◌≡◌, ◌+◌, ℕ, ◌++◌, IfOk, OnOk, option_map, map};
ghost use Rattle.office_base.specs.Joined.{amounts_of_line, sums_of, sums_under};
ghost use Rattle.office_base.specs.Tables.{IsSorted, contracts_of_lot, lot_key};
ghost use Rattle.office_memory.specs.Inside.Adding.{IsLedgerRow, IsLedger};
ghost use Rattle.office_memory.specs.MemoryTables.{tables_of};

use crate::child::rows_of;
use crate::tables::MemoryTables;
use keyed_table::table::Table;
use office_base::ledger::{ContractSums, LedgerRow, LineAmounts};
use office_base::pots::{joined_sums, pots_over};
use office_base::records::{ContractRow, EntryRow, LineRow, LotRow};
use office_values::id::Id;
use office_values::money::Amount;
use std::alloc::{AllocError, Global};

// The amount that each of these lots has reserved.
fn reserved_by(alloc: Global, lots: &[&LotRow]) -> Result<Vec<Amount>, AllocError>
    ensures { IfOk result (λ amounts. amounts.items ≡ map (λ lot. lot.now.reserved) lots.now) }
{
    let mut amounts = Vec::with_capacity(alloc, lots.len())?;
    for lot in lots {
        amounts.push(lot.reserved)?;
    }
    Ok(amounts)
}

// The sums of a contract over its entries.
fn sums_of(entries: &Table<EntryRow>, contract: &ContractRow) -> ContractSums
    ensures { result ≡ sums_of entries.now contract.now }
{
    let mut sums = ContractSums {
        gained: contract.signed.units() as u128,
        lost: contract.released.units() as u128,
        paid: 0,
    };
    for (_, kept) in rows_of(entries, &contract.contract.get()) {
        let entry = kept.get();
        sums = sums.with_entry(entry.kind, entry.amount);
    }
    sums
}

// Appends the sums of each contract of a lot.
fn push_sums(
    alloc: Global,
    tables: &MemoryTables,
    lot: &LotRow,
    sums: &mut Vec<ContractSums>,
) -> Result<(), AllocError>
    ensures { OnOk result (sums.new.items ≡ sums.old.items ++ map (sums_of (tables_of tables.now).entries) (contracts_of_lot (lot_key lot.now) (tables_of tables.now))) }
{
    let contracts = &tables.contracts;
    let by_notice = contracts.indexes();
    for contract in by_notice.rows_of_group(alloc, contracts, &lot.notice)? {
        if contract.lot == lot.lot {
            sums.push(sums_of(&tables.entries, contract))?;
        }
    }
    Ok(())
}

// The sums of the contracts of these lots, lot by lot.
fn sums_under(
    alloc: Global,
    tables: &MemoryTables,
    lots: Vec<&LotRow>,
) -> Result<Vec<ContractSums>, AllocError>
    ensures { IfOk result (λ sums. sums.items ≡ sums_under (tables_of tables.now) (map (λ lot. lot.now) lots.entry.items)) }
{
    let mut sums = Vec::new(alloc);
    for lot in lots {
        push_sums(alloc, tables, lot, &mut sums)?;
    }
    Ok(sums)
}

/// The amount that each lot of a line has reserved, and the sums of each contract of these lots, lot by lot. It goes, for each lot, through the contracts of
/// its notice, and through the entries of the lot's own contracts.
pub fn amounts_of_line(
    alloc: Global,
    tables: &MemoryTables,
    line: &Id,
) -> Result<LineAmounts, AllocError>
    ensures { IfOk result (λ amounts. amounts ≡ amounts_of_line line.now (tables_of tables.now)) }
{
    let by_line = tables.lots.indexes();
    let lots = by_line.rows_of_group(alloc, &tables.lots, line)?;
    let reserved = reserved_by(alloc, &lots)?;
    let contracts = sums_under(alloc, tables, lots)?;
    Ok(LineAmounts::from_vecs(reserved, contracts))
}

// The row of a line in the ledger; None if a sum of the line is outside its range.
fn ledger_row(
    alloc: Global,
    tables: &MemoryTables,
    row: &LineRow,
) -> Result<Option<LedgerRow>, AllocError>
    ensures { IsSorted (tables_of tables.now) → IfOk result (IsLedgerRow (tables_of tables.now) row.now) }
{
    joined_sums();
    let amounts = amounts_of_line(alloc, tables, &row.line)?;
    match pots_over(
        row,
        amounts.reserved.as_slice(),
        amounts.contracts.as_slice(),
    ) {
        Some(pots) => Ok(Some(LedgerRow {
            line: row.line,
            pots,
        })),
        None => Ok(None),
    }
}

/// The ledger, in the order of the lines; None if a sum of a line is outside its range. It goes once through the lines, their lots and all entries, and, for
/// each lot, through the contracts of its notice.
pub fn ledger(alloc: Global, tables: &MemoryTables) -> Result<Option<Vec<LedgerRow>>, AllocError>
    ensures { IsSorted (tables_of tables.now) → IfOk result (λ rows. IsLedger (tables_of tables.now) (option_map (λ found. found.items) rows)) }
{
    let mut rows = Vec::new(alloc);
    for line in tables.lines.iter() {
        let Some(row) = ledger_row(alloc, tables, line.get())? else {
            return Ok(None);
        };
        rows.push(row)?;
    }
    Ok(Some(rows))
}
