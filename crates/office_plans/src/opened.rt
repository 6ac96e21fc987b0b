//! The sealed tenders of a notice, looked up and read.
ghost use Rattle.std.specs.Prelude.{◌≡◌, true, false, not, IfOk, IfErr, OnOk, map};
ghost use Rattle.std.specs.List.{list_any};
ghost use Rattle.office_values.specs.declared.refusal.Refusal.TheVariants.{Unavailable};
ghost use Rattle.office_base.specs.Shelves.{Looks};
ghost use Rattle.office_machine.specs.Commands.Open.{lacks_tender};
ghost use Rattle.office_machine.specs.Rule.{has_seal_and_lot};
ghost use Rattle.office_plans.specs.Opening.{HasLotOf, tender_read, tenders_read, with_lot};

use crate::looked_up::put_found;
use keyed_table::table::Table;
use office_base::laws::{looks_follow, rows_are_kept};
use office_base::records::{EnvelopeRow, LotRow};
use office_base::rows::Rows;
use office_base::shelf::{Lookups, ShelfFault};
use office_values::given::asked;
use office_values::id::Id;
use office_values::refusal::Refusal;
use std::alloc::Global;
use tender_core::opening::{OpenedTender, keep_sealed};
use tender_papers::tender::read_tender;

// Loads a lot, unless it is already loaded.
fn load_lot<H: Lookups>(
    shelf: &mut H,
    lots: &mut Table<LotRow>,
    notice: &Id,
    lot: &Id,
) -> Result<(), ShelfFault>
    ensures { Looks H.meaning shelf.old shelf.new (λ s. OnOk result (lots.new ≡ with_lot s lots.old (notice.now, lot.now))) }
{
    if lots.get(&(*notice, *lot)).is_some() {
        return Ok(());
    }
    let found = shelf.get_lot(notice, lot)?;
    put_found(lots, found)
}

// A sealed tender, with the reading of its sealed bytes. Its lot must be looked up before. `Unavailable` if its seal or its lot doesn't exist.
fn load_tender<H: Lookups>(
    alloc: Global,
    shelf: &mut H,
    lots: &Table<LotRow>,
    envelope: EnvelopeRow,
) -> Result<OpenedTender, Refusal>
    ensures looks { Looks H.meaning shelf.old shelf.new (λ s. HasLotOf s lots.now envelope → IfOk result (λ tender. tender ≡ tender_read s envelope)) }
    ensures whole { Looks H.meaning shelf.old shelf.new (λ s. HasLotOf s lots.now envelope → IfOk result (λ _. has_seal_and_lot s envelope ≡ true)) }
    ensures fault { IfErr result (λ e. e ≡ Unavailable) }
{
    let Some(seal) = shelf.get_seal(asked(envelope.receipt))? else {
        return Err(Refusal::Unavailable);
    };
    let Some(lot) = lots.get(&(envelope.notice, envelope.lot)) else {
        return Err(Refusal::Unavailable);
    };
    let reading = read_tender(alloc, seal.bytes.as_slice(), lot.items.as_slice())?;
    Ok(OpenedTender { envelope, reading })
}

// Reads these tenders, one after another. Each lot is looked up once.
fn load_each<H: Lookups>(
    alloc: Global,
    shelf: &mut H,
    envelopes: Vec<EnvelopeRow>,
) -> Result<Vec<OpenedTender>, Refusal>
    ensures looks { Looks H.meaning shelf.old shelf.new (λ s. IfOk result (λ tenders. tenders.items ≡ map (tender_read s) envelopes.items)) }
    ensures whole { Looks H.meaning shelf.old shelf.new (λ s. OnOk result (list_any (λ e. not (has_seal_and_lot s e)) envelopes.items ≡ false)) }
    ensures fault { IfErr result (λ e. e ≡ Unavailable) }
{
    looks_follow::<H>();
    rows_are_kept::<LotRow>();
    let mut tenders = Vec::with_capacity(alloc, envelopes.len())?;
    let mut lots = Table::new(alloc);
    for envelope in envelopes {
        load_lot(shelf, &mut lots, &envelope.notice, &envelope.lot)?;
        let tender = load_tender(alloc, shelf, &lots, envelope)?;
        tenders.push(tender)?;
    }
    Ok(tenders)
}

/// Loads the sealed tenders of a notice, each with the reading of its sealed bytes. `Unavailable` if one of them has no seal or no lot.
pub fn load_tenders<H: Lookups>(
    alloc: Global,
    shelf: &mut H,
    notice: &Id,
) -> Result<Rows<OpenedTender>, Refusal>
    ensures looks { Looks H.meaning shelf.old shelf.new (λ s. IfOk result (λ tenders. tenders ≡ tenders_read notice.now s)) }
    ensures whole { Looks H.meaning shelf.old shelf.new (λ s. OnOk result (lacks_tender notice.now s ≡ false)) }
    ensures fault { IfErr result (λ e. e ≡ Unavailable) }
{
    let mut envelopes = shelf.list_envelopes_of_notice(notice)?;
    keep_sealed(&mut envelopes);
    let tenders = load_each(alloc, shelf, envelopes)?;
    Ok(Rows::from_vec(tenders))
}
