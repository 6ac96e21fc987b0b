//! Carries the sums of budget lines over changes, so that a command that moves money leaves them right, and the next one needs no joined rows.
ghost use Rattle.std.specs.Prelude.{◌≡◌, option_map, IfSome};
ghost use Rattle.std.specs.List.{list_all};
ghost use Rattle.std.specs.Ordering.{eq_by_cmp};
ghost use Rattle.office_base.specs.EntrySums.{bare_sums, sums_with_entries};
ghost use Rattle.office_base.specs.Shelves.{LooksUp};
ghost use Rattle.office_base.specs.Tables.{after_puts, entries_of_contract, lot_at, lot_cmp, lot_key};
ghost use Rattle.office_base.specs.declared.puts.Put.TheVariants.{Contract, Entry, Lot};
ghost use Rattle.office_sums.specs.Carried.{keeps_lot, last_lot, leaves_contracts, reservation_of, Follows, FollowsOne, FromNewEntry, FromNewLot, FromNewRow, FromReserved, IsTouch, KnowsEntries};

use crate::carried::{
    Carried, EntrySums, Reservation, Touch, shift_contract, shift_entry, shift_reserved, sums_with,
};
use crate::laws::nothing_remembered;
use crate::remembered::RememberedSums;
use crate::sums::SumsOfLine;
use office_base::ledger::ContractSums;
use office_base::puts::Put;
use office_base::records::{ContractRow, EntryRow, LotRow};
use office_base::shelf::{Lookups, ShelfFault};
use office_values::given::{AskedNumber, asked};
use office_values::id::Id;
use office_values::money::Amount;

// Whether a change puts no contract and no entry.
fn leaves_contracts(put: &Put) -> bool
    ensures { result ≡ leaves_contracts put.now }
{
    match put {
        Put::Contract(_) | Put::Entry(_) => false,
        _ => true,
    }
}

// Whether none of these changes puts a contract or an entry.
fn leave_contracts(puts: &[Put]) -> bool
    ensures { result ≡ list_all leaves_contracts puts.now }
{
    puts.iter().all(|put| leaves_contracts(put))
}

// Whether a row is that of this lot.
fn is_lot(row: &LotRow, notice: &Id, lot: &Id) -> bool
    ensures { result ≡ eq_by_cmp lot_cmp (notice.now, lot.now) (lot_key row.now) }
{
    row.notice == *notice && row.lot == *lot
}

// The lot that the last of these changes puts under this key, if any.
fn last_lot<'a>(puts: &'a [Put], notice: &Id, lot: &Id) -> Option<&'a LotRow>
    ensures { option_map (λ row. row.now) result ≡ last_lot (notice.now, lot.now) puts.now }
{
    let mut last = None;
    for put in puts {
        if let Put::Lot(row) = put {
            if is_lot(row, notice, lot) {
                last = Some(row);
            }
        }
    }
    last
}

// The line of a lot and the amount that it reserves there, after these changes, if the lot exists.
fn get_reservation<H: Lookups>(
    shelf: &mut H,
    before: &[Put],
    notice: &Id,
    lot: &Id,
) -> Result<Option<Reservation>, ShelfFault>
    ensures { LooksUp H.meaning shelf.old shelf.new result (λ t found. found ≡ option_map reservation_of (lot_at (notice.now, lot.now) (after_puts before.now t))) }
{
    if let Some(row) = last_lot(before, notice, lot) {
        return Ok(Some(Reservation::of(row)));
    }
    match shelf.get_lot(notice, lot)? {
        Some(row) => Ok(Some(Reservation::of(&row))),
        None => Ok(None),
    }
}

// The sums of this line, if they are remembered, when one of its lots reserves another amount than before.
fn with_reserved(
    known: &RememberedSums,
    line: &Id,
    before: Amount,
    after: Amount,
) -> Option<SumsOfLine>
    ensures { IfSome result (λ new. FromReserved known.now line.now before after new) }
{
    shift_reserved(known.get(line)?, before, after)
}

// The sums of a new lot's line, if the notice has no contract.
fn with_new_lot<H: Lookups>(
    shelf: &mut H,
    known: &RememberedSums,
    before: &[Put],
    row: &LotRow,
) -> Result<Option<SumsOfLine>, ShelfFault>
    ensures { LooksUp H.meaning shelf.old shelf.new result (λ t sums. IfSome sums (FromNewLot known.now row.now (after_puts before.now t))) }
{
    if leave_contracts(before) && shelf.list_contracts_of_notice(&row.notice)?.is_empty() {
        let nothing = Amount::read(0).unwrap();
        Ok(with_reserved(known, &row.line, nothing, row.reserved))
    } else {
        Ok(None)
    }
}

// The lines that a lot touches.
fn touch_of_lot<H: Lookups>(
    shelf: &mut H,
    known: &RememberedSums,
    before: &[Put],
    row: &LotRow,
) -> Result<Touch, ShelfFault>
    ensures { LooksUp H.meaning shelf.old shelf.new result (λ t touch. IsTouch known.now (Lot row.now) (after_puts before.now t) touch) }
{
    let line = row.line;
    match get_reservation(shelf, before, &row.notice, &row.lot)? {
        None => {
            let sums = with_new_lot(shelf, known, before, row)?;
            Ok(Touch::Line(Carried { line, sums }))
        }
        Some(old) => {
            if old.line != line {
                return Ok(Touch::Any);
            }
            let sums = with_reserved(known, &line, old.amount, row.reserved);
            Ok(Touch::Line(Carried { line, sums }))
        }
    }
}

// Whether a contract stays under the lot of this row; a new one does.
fn keeps_lot(old: &Option<ContractRow>, row: &ContractRow) -> bool
    ensures { result ≡ keeps_lot old.now row.now }
{
    match old {
        Some(old) => old.notice == row.notice && old.lot == row.lot,
        None => true,
    }
}

// The sums of this line, if they are remembered, when a contract has this row and not that one.
fn with_contract<H: Lookups>(
    shelf: &mut H,
    known: &RememberedSums,
    line: &Id,
    old: &Option<ContractRow>,
    row: &ContractRow,
) -> Result<Option<SumsOfLine>, ShelfFault>
    ensures { LooksUp H.meaning shelf.old shelf.new result (λ t sums. IfSome sums (FromNewRow known.now line.now old.now row.now t)) }
{
    let Some(sums) = known.get(line) else {
        return Ok(None);
    };
    let entries = shelf.list_entries_of_contract(asked(row.contract))?;
    Ok(shift_contract(sums, old, row, &entries))
}

// The lines that a contract touches.
fn touch_of_contract<H: Lookups>(
    shelf: &mut H,
    known: &RememberedSums,
    before: &[Put],
    row: &ContractRow,
) -> Result<Touch, ShelfFault>
    ensures { LooksUp H.meaning shelf.old shelf.new result (λ t touch. IsTouch known.now (Contract row.now) (after_puts before.now t) touch) }
{
    if !leave_contracts(before) {
        return Ok(Touch::Any);
    }
    let old = shelf.get_contract(asked(row.contract))?;
    if !keeps_lot(&old, row) {
        return Ok(Touch::Any);
    }
    match get_reservation(shelf, before, &row.notice, &row.lot)? {
        Some(lot) => {
            let line = lot.line;
            let sums = with_contract(shelf, known, &line, &old, row)?;
            Ok(Touch::Line(Carried { line, sums }))
        }
        None => Ok(Touch::Nothing),
    }
}

// The sums of a contract with this number. Those of its entries are the remembered ones, or else the entries are looked up.
fn contract_sums<H: Lookups>(
    shelf: &mut H,
    listed: &Option<EntrySums>,
    contract: &ContractRow,
    number: AskedNumber,
) -> Result<Option<ContractSums>, ShelfFault>
    ensures { LooksUp H.meaning shelf.old shelf.new result (λ t found. KnowsEntries listed.now t → IfSome found (λ sums. sums ≡ sums_with_entries (bare_sums contract.now) (entries_of_contract number t))) }
{
    if let Some(entries) = listed {
        if entries.contract == number {
            return Ok(entries.with_contract(contract));
        }
    }
    let entries = shelf.list_entries_of_contract(number)?;
    Ok(sums_with(contract, &entries))
}

// The sums of this line, if they are remembered, after one more entry of this contract, if the entry is new.
fn with_entry<H: Lookups>(
    shelf: &mut H,
    known: &RememberedSums,
    listed: &Option<EntrySums>,
    line: &Id,
    contract: &ContractRow,
    entry: &EntryRow,
) -> Result<Option<SumsOfLine>, ShelfFault>
    ensures { LooksUp H.meaning shelf.old shelf.new result (λ t sums. KnowsEntries listed.now t → IfSome sums (FromNewEntry known.now line.now contract.now entry.now t)) }
{
    let Some(sums) = known.get(line) else {
        return Ok(None);
    };
    let number = asked(entry.contract);
    if shelf.get_entry(number, &entry.entry)?.is_some() {
        return Ok(None);
    }
    match contract_sums(shelf, listed, contract, number)? {
        Some(before) => Ok(shift_entry(sums, before, entry)),
        None => Ok(None),
    }
}

// The lines that an entry touches.
fn touch_of_entry<H: Lookups>(
    shelf: &mut H,
    known: &RememberedSums,
    listed: &Option<EntrySums>,
    before: &[Put],
    entry: &EntryRow,
) -> Result<Touch, ShelfFault>
    ensures { LooksUp H.meaning shelf.old shelf.new result (λ t touch. KnowsEntries listed.now t → IsTouch known.now (Entry entry.now) (after_puts before.now t) touch) }
{
    if !leave_contracts(before) {
        return Ok(Touch::Any);
    }
    let Some(contract) = shelf.get_contract(asked(entry.contract))? else {
        return Ok(Touch::Nothing);
    };
    match get_reservation(shelf, before, &contract.notice, &contract.lot)? {
        Some(lot) => {
            let line = lot.line;
            let sums = with_entry(shelf, known, listed, &line, &contract, entry)?;
            Ok(Touch::Line(Carried { line, sums }))
        }
        None => Ok(Touch::Nothing),
    }
}

// The lines that a change touches, after these changes.
fn touch_of<H: Lookups>(
    shelf: &mut H,
    known: &RememberedSums,
    listed: &Option<EntrySums>,
    before: &[Put],
    put: &Put,
) -> Result<Touch, ShelfFault>
    ensures { LooksUp H.meaning shelf.old shelf.new result (λ t touch. KnowsEntries listed.now t → IsTouch known.now put.now (after_puts before.now t) touch) }
{
    match put {
        Put::Lot(row) => touch_of_lot(shelf, known, before, row),
        Put::Contract(row) => touch_of_contract(shelf, known, before, row),
        Put::Entry(row) => touch_of_entry(shelf, known, listed, before, row),
        _ => Ok(Touch::Nothing),
    }
}

// Carries the sums over a change, after these changes.
fn follow_one<H: Lookups>(
    shelf: &mut H,
    known: &mut RememberedSums,
    listed: &Option<EntrySums>,
    before: &[Put],
    put: &Put,
) -> Result<(), ShelfFault>
    ensures { LooksUp H.meaning shelf.old shelf.new result (λ t _. KnowsEntries listed.now t → FollowsOne known.old known.new before.now put.now t) }
{
    let touch = touch_of(shelf, known, listed, before, put)?;
    known.take_over(&touch);
    Ok(())
}

/// Carries the sums over these changes, before the changes are made. The sums of the entries that were listed last save a look-up. If no line is remembered,
/// nothing is looked up.
pub fn follow<H: Lookups>(
    shelf: &mut H,
    known: &mut RememberedSums,
    listed: &Option<EntrySums>,
    puts: &[Put],
) -> Result<(), ShelfFault>
    ensures { LooksUp H.meaning shelf.old shelf.new result (λ t _. KnowsEntries listed.now t → Follows known.old known.new puts.now t) }
{
    nothing_remembered();
    if known.is_empty() {
        return Ok(());
    }
    for at in 0..puts.len() {
        follow_one(shelf, known, listed, &puts[..at], &puts[at])?;
    }
    Ok(())
}
