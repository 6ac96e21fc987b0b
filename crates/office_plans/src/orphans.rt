//! Rows that are missing, rows whose parent is, and numbers that a row has already. An office that its commands made has none of these.
ghost use Rattle.std.specs.Prelude.{◌≡◌, ◌+◌, ◌&&◌, ◌||◌, OnOk, false, is_some, not, option_map};
ghost use Rattle.std.specs.List.{list_any};
ghost use Rattle.office_base.specs.Rows.{holds_of};
ghost use Rattle.office_base.specs.Shelves.{Looks, LooksUp};
ghost use Rattle.office_base.specs.Standings.{columns_at};
ghost use Rattle.office_base.specs.Tables.{award_at, envelope_at, lot_at};
ghost use Rattle.office_base.specs.declared.records.EnvelopeRow.{EnvelopeRow as EnvelopeRowOf};
ghost use Rattle.office_machine.specs.Orphans.{contract_is_taken, has_rows_of_notice, is_torn, lacks_its_security, lacks_seal, reserves_another};
ghost use Rattle.office_machine.specs.References.{OfAward, OfContract, OfReceipt, is_named};
ghost use Rattle.office_plans.specs.Named.{is_of_lost_line};

use award_core::sign::SignRows;
use keyed_table::table::Table;
use office_base::laws::looks_follow;
use office_base::records::{AwardRow, ClockRow, EnvelopeRow, LotRow};
use office_base::shelf::{Lookups, ShelfFault};
use office_base::standing::Standing;
use office_commands::budget::BudgetRow;
use office_values::given::{AskedNumber, asked};
use office_values::id::Id;

/// Whether a row of this notice exists.
pub fn has_rows_of_notice<H: Lookups>(shelf: &mut H, notice: &Id) -> Result<bool, ShelfFault>
    ensures { LooksUp H.meaning shelf.old shelf.new result (λ s found. found ≡ has_rows_of_notice notice.now s) }
{
    let lots = shelf.list_lots_of_notice(notice)?;
    let tenders = shelf.list_envelopes_of_notice(notice)?;
    let releases = shelf.list_releases_of_notice(notice)?;
    let securities = shelf.list_securities_of_notice(notice)?;
    let awards = shelf.list_awards_of_notice(notice)?;
    let contracts = shelf.list_contracts_of_notice(notice)?;
    let late = shelf.get_late(notice)?;
    let merge = shelf.get_compiled(notice)?;
    Ok(
        !lots.is_empty()
            || !tenders.is_empty()
            || !releases.is_empty()
            || !securities.is_empty()
            || !awards.is_empty()
            || !contracts.is_empty()
            || late.is_some()
            || merge.is_some(),
    )
}

/// Whether a tender, sealed bytes or a security already has the receipt that the next tender gets.
pub fn receipt_is_taken<H: Lookups>(shelf: &mut H, clock: &ClockRow) -> Result<bool, ShelfFault>
    ensures { LooksUp H.meaning shelf.old shelf.new result (λ s found.
        found ≡ (is_some (envelope_at (clock.now.receipts + 1) s) || is_named (OfReceipt (clock.now.receipts + 1)) s)) }
{
    let next = AskedNumber::read(clock.receipts.get() + 1).unwrap();
    let tender = shelf.get_envelope(next)?;
    let seal = shelf.get_seal(next)?;
    let security = shelf.get_security(next)?;
    Ok(tender.is_some() || (seal.is_some() || security.is_some()))
}

// Whether entries of this contract or its performance security exist.
fn has_rows_of_contract<H: Lookups>(
    shelf: &mut H,
    contract: AskedNumber,
) -> Result<bool, ShelfFault>
    ensures { LooksUp H.meaning shelf.old shelf.new result (λ s found. found ≡ is_named (OfContract contract) s) }
{
    let entries = shelf.list_entries_of_contract(contract)?;
    let performance = shelf.get_performance(contract)?;
    Ok(!entries.is_empty() || performance.is_some())
}

/// Whether the lot has this best tender, and an award or a contract already has the number that its award would get.
pub fn award_is_taken<H: Lookups>(
    shelf: &mut H,
    clock: &ClockRow,
    best: Option<&EnvelopeRow>,
) -> Result<bool, ShelfFault>
    ensures { LooksUp H.meaning shelf.old shelf.new result (λ s found.
        found ≡ (is_some (option_map (λ e. e.now) best.entry) && (is_some (award_at (clock.now.awards + 1) s) || is_named (OfAward (clock.now.awards + 1)) s))) }
{
    if best.is_none() {
        return Ok(false);
    }
    let next = AskedNumber::read(clock.awards.get() + 1).unwrap();
    let award = shelf.get_award(next)?;
    let contract = shelf.get_contract(next)?;
    let entries = shelf.list_entries_of_contract(next)?;
    let performance = shelf.get_performance(next)?;
    Ok(award.is_some() || (contract.is_some() || !entries.is_empty() || performance.is_some()))
}

// Whether a contract, an entry or a performance security already has the number of this award.
fn contract_is_taken<H: Lookups>(shelf: &mut H, award: AskedNumber) -> Result<bool, ShelfFault>
    ensures { LooksUp H.meaning shelf.old shelf.new result (λ s found. found ≡ contract_is_taken award s) }
{
    let contract = shelf.get_contract(award)?;
    let rows = has_rows_of_contract(shelf, award)?;
    Ok(contract.is_some() || rows)
}

/// Whether the seal of this tender is missing, if there is a tender.
pub fn lacks_seal<H: Lookups>(
    shelf: &mut H,
    envelope: &Option<EnvelopeRow>,
) -> Result<bool, ShelfFault>
    ensures { LooksUp H.meaning shelf.old shelf.new result (λ s lacks. lacks ≡ holds_of (lacks_seal s) envelope.now) }
{
    match envelope {
        Some(row) => Ok(shelf.get_seal(asked(row.receipt))?.is_none()),
        None => Ok(false),
    }
}

// Whether the lot of this tender is missing, if there is a tender.
fn lacks_lot<H: Lookups>(shelf: &mut H, envelope: &Option<EnvelopeRow>) -> Result<bool, ShelfFault>
    ensures { LooksUp H.meaning shelf.old shelf.new result (λ s lacks. lacks ≡ holds_of (λ (e : EnvelopeRowOf). not (is_some (lot_at (e.notice, e.lot) s))) envelope.now) }
{
    match envelope {
        Some(row) => Ok(shelf.get_lot(&row.notice, &row.lot)?.is_none()),
        None => Ok(false),
    }
}

/// Whether the security that this tender names is missing, if there is a tender.
pub fn lacks_its_security<H: Lookups>(
    shelf: &mut H,
    envelope: &Option<EnvelopeRow>,
) -> Result<bool, ShelfFault>
    ensures { LooksUp H.meaning shelf.old shelf.new result (λ s lacks. lacks ≡ holds_of (lacks_its_security s) envelope.now) }
{
    let Some(row) = envelope else {
        return Ok(false);
    };
    match row.security {
        Some(number) => Ok(shelf.get_security(asked(number))?.is_none()),
        None => Ok(false),
    }
}

/// Whether a modification of this tender would use a receipt that is taken, or the tender's seal, lot or security is missing.
pub fn cant_be_replaced<H: Lookups>(
    shelf: &mut H,
    clock: &ClockRow,
    envelope: &Option<EnvelopeRow>,
) -> Result<bool, ShelfFault>
    ensures { LooksUp H.meaning shelf.old shelf.new result (λ s found.
        found ≡ ((is_some (envelope_at (clock.now.receipts + 1) s) || is_named (OfReceipt (clock.now.receipts + 1)) s) || is_torn s envelope.now)) }
{
    let taken = receipt_is_taken(shelf, clock)?;
    let seal = lacks_seal(shelf, envelope)?;
    let lot = lacks_lot(shelf, envelope)?;
    let security = lacks_its_security(shelf, envelope)?;
    Ok(taken || (seal || lot || security))
}

// Whether the lot of this award reserves another amount than its price, if there are both.
fn reserves_another(lot: &Option<LotRow>, award: &Option<AwardRow>) -> bool
    ensures { result ≡ holds_of (reserves_another lot.now) award.now }
{
    match (lot, award) {
        (Some(lot), Some(award)) => lot.reserved.units() != award.price.units(),
        _ => false,
    }
}

/// Whether a contract has the number of this award, the security of the award's tender is missing, or the lot reserves another amount than the award's price.
pub fn cant_be_signed<H: Lookups>(
    shelf: &mut H,
    award: AskedNumber,
    rows: &SignRows,
) -> Result<bool, ShelfFault>
    ensures { LooksUp H.meaning shelf.old shelf.new result (λ s found.
        found ≡ (contract_is_taken award s || (holds_of (lacks_its_security s) rows.now.envelope || holds_of (reserves_another rows.now.lot) rows.now.award))) }
{
    let taken = contract_is_taken(shelf, award)?;
    let security = lacks_its_security(shelf, &rows.envelope)?;
    let another = reserves_another(&rows.lot, &rows.award);
    Ok(taken || (security || another))
}

// Whether these lines have the line of this name.
fn is_held(lines: &Table<Standing>, name: &Id) -> bool
    ensures { result ≡ is_some (columns_at lines.now name.now) }
{
    match lines.get(name) {
        Some(standing) => standing.columns.is_some(),
        None => false,
    }
}

// Whether these lines don't have the line of this row, and a lot of it exists.
fn is_of_lost_line<H: Lookups>(
    shelf: &mut H,
    lines: &Table<Standing>,
    row: &BudgetRow,
) -> Result<bool, ShelfFault>
    ensures { LooksUp H.meaning shelf.old shelf.new result (λ s lost. lost ≡ is_of_lost_line s lines.now row.now) }
{
    if is_held(lines, &row.line) {
        return Ok(false);
    }
    Ok(!shelf.list_lots_of_line(&row.line)?.is_empty())
}

/// Fails if lots exist of a line that a row names and that these lines don't have.
pub fn find_no_lost_line<H: Lookups>(
    shelf: &mut H,
    lines: &Table<Standing>,
    rows: &[BudgetRow],
) -> Result<(), ShelfFault>
    ensures { Looks H.meaning shelf.old shelf.new (λ s. OnOk result (list_any (is_of_lost_line s lines.now) rows.now ≡ false)) }
{
    looks_follow::<H>();
    for row in rows {
        if is_of_lost_line(shelf, lines, row)? {
            return Err(ShelfFault::Store);
        }
    }
    Ok(())
}
