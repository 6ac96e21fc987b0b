//! A test of the budget lines whose money a command moves.
ghost use Rattle.std.specs.Prelude.{◌≡◌, false, true};
ghost use Rattle.std.specs.List.{list_all};
ghost use Rattle.std.specs.Option.{option_map_or};
ghost use Rattle.office_commands.specs.declared.budget.BudgetRow.{BudgetRow as BudgetRowOf};
ghost use Rattle.office_commands.specs.declared.lot.NewLot.{NewLot as NewLotOf};
ghost use Rattle.office_base.specs.Joined.{pots_of};
ghost use Rattle.office_base.specs.Parents.{line_of_lot, lot_of_award, lot_of_contract};
ghost use Rattle.office_base.specs.Shelves.{Looks};
ghost use Rattle.office_base.specs.Tables.{award_at, contract_at, line_at, lot_at};
ghost use Rattle.office_base.specs.declared.records.LineRow.{LineRow as LineRowOf};
ghost use Rattle.office_base.specs.declared.records.LotRow.{LotRow as LotRowOf};
ghost use Rattle.office_desk.specs.Balances.{pots_add_up};
ghost use Rattle.office_desk.specs.MovedLines.{IsTested, line_adds_up, moved_lines_add_up};

use crate::balances::pots_add_up;
use office_base::laws::looks_follow;
use office_base::pots::pots;
use office_base::records::LotRow;
use office_base::shelf::{Lookups, ShelfFault};
use office_commands::budget::BudgetRow;
use office_commands::commands::Command;
use office_commands::lot::NewLot;
use office_values::given::AskedNumber;
use office_values::id::Id;

// Whether the balances of a line add up, or `missing` if the line doesn't exist. They don't if a sum is out of range, which the store doesn't count as a fault.
#[tactic(auto, using(crate::proofs::Rising::has_risen))]
fn adds_up<H: Lookups>(shelf: &mut H, line: &Id, missing: bool) -> Result<bool, ShelfFault>
    ensures { Looks H.meaning shelf.old shelf.new (λ s. IsTested (H.meaning.fault_count shelf.old) (H.meaning.fault_count shelf.new) s
        (option_map_or (λ (row : LineRowOf). pots_add_up (pots_of row s)) (line_at line.now s) missing) result) }
{
    looks_follow::<H>();
    let before = shelf.faults();
    match pots(shelf, line) {
        Ok(Some(pots)) => Ok(pots_add_up(&pots)),
        Ok(None) => Ok(missing),
        Err(fault) => {
            if shelf.faults() == before {
                return Ok(false);
            }
            Err(fault)
        }
    }
}

fn lot_adds_up<H: Lookups>(shelf: &mut H, notice: &Id, lot: &Id) -> Result<bool, ShelfFault>
    ensures { Looks H.meaning shelf.old shelf.new (λ s. IsTested (H.meaning.fault_count shelf.old) (H.meaning.fault_count shelf.new) s (line_adds_up false s (line_of_lot (lot_at (notice.now, lot.now) s) s)) result) }
{
    looks_follow::<H>();
    match shelf.get_lot(notice, lot)? {
        Some(row) => adds_up(shelf, &row.line, false),
        None => Ok(false),
    }
}

fn award_adds_up<H: Lookups>(shelf: &mut H, award: AskedNumber) -> Result<bool, ShelfFault>
    ensures { Looks H.meaning shelf.old shelf.new (λ s. IsTested (H.meaning.fault_count shelf.old) (H.meaning.fault_count shelf.new) s (line_adds_up false s (line_of_lot (lot_of_award (award_at award s) s) s)) result) }
{
    looks_follow::<H>();
    match shelf.get_award(award)? {
        Some(row) => lot_adds_up(shelf, &row.notice, &row.lot),
        None => Ok(false),
    }
}

fn contract_adds_up<H: Lookups>(shelf: &mut H, contract: AskedNumber) -> Result<bool, ShelfFault>
    ensures { Looks H.meaning shelf.old shelf.new (λ s. IsTested (H.meaning.fault_count shelf.old) (H.meaning.fault_count shelf.new) s (line_adds_up false s (line_of_lot (lot_of_contract (contract_at contract s) s) s)) result) }
{
    looks_follow::<H>();
    match shelf.get_contract(contract)? {
        Some(row) => lot_adds_up(shelf, &row.notice, &row.lot),
        None => Ok(false),
    }
}

// The lines of a budget file.
fn rows_add_up<H: Lookups>(shelf: &mut H, rows: &[BudgetRow]) -> Result<bool, ShelfFault>
    ensures { Looks H.meaning shelf.old shelf.new (λ s. IsTested (H.meaning.fault_count shelf.old) (H.meaning.fault_count shelf.new) s
        (list_all (λ (row : BudgetRowOf). line_adds_up true s (line_at row.line s)) rows.now) result) }
{
    looks_follow::<H>();
    for row in rows {
        if !adds_up(shelf, &row.line, true)? {
            return Ok(false);
        }
    }
    Ok(true)
}

// The lines of lots that are to be published.
fn new_lots_add_up<H: Lookups>(shelf: &mut H, lots: &[NewLot]) -> Result<bool, ShelfFault>
    ensures { Looks H.meaning shelf.old shelf.new (λ s. IsTested (H.meaning.fault_count shelf.old) (H.meaning.fault_count shelf.new) s
        (list_all (λ (lot : NewLotOf). line_adds_up false s (line_at lot.line s)) lots.now) result) }
{
    looks_follow::<H>();
    for lot in lots {
        if !adds_up(shelf, &lot.line, false)? {
            return Ok(false);
        }
    }
    Ok(true)
}

// The lines of these lots.
fn lots_add_up<H: Lookups>(shelf: &mut H, lots: &[LotRow]) -> Result<bool, ShelfFault>
    ensures { Looks H.meaning shelf.old shelf.new (λ s. IsTested (H.meaning.fault_count shelf.old) (H.meaning.fault_count shelf.new) s
        (list_all (λ (lot : LotRowOf). line_adds_up false s (line_at lot.line s)) lots.now) result) }
{
    looks_follow::<H>();
    for lot in lots {
        if !adds_up(shelf, &lot.line, false)? {
            return Ok(false);
        }
    }
    Ok(true)
}

/// Whether each budget line adds up whose money the command moves. Nothing changes.
pub(crate) fn moved_lines_add_up<H: Lookups>(
    shelf: &mut H,
    command: &Command<'_>,
) -> Result<bool, ShelfFault>
    ensures { Looks H.meaning shelf.old shelf.new (λ s. IsTested (H.meaning.fault_count shelf.old) (H.meaning.fault_count shelf.new) s (moved_lines_add_up command.now s) result) }
{
    looks_follow::<H>();
    match command {
        Command::Import { rows, .. } => rows_add_up(shelf, rows.as_slice()),
        Command::Publish { content, .. } => new_lots_add_up(shelf, content.lots.as_slice()),
        Command::Cancel { notice, .. } => {
            let lots = shelf.list_lots_of_notice(notice)?;
            lots_add_up(shelf, &lots)
        }
        Command::Award { notice, lot } => lot_adds_up(shelf, notice, lot),
        Command::Fail { award } | Command::Sign { award, .. } => award_adds_up(shelf, *award),
        Command::AmendContract { contract, .. }
        | Command::Pay { contract, .. }
        | Command::End { contract, .. } => contract_adds_up(shelf, *contract),
        _ => Ok(true),
    }
}
