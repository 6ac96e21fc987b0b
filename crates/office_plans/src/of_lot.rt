//! The tenders and the securities of a lot.
ghost use Rattle.std.specs.Prelude.{◌≡◌};
ghost use Rattle.office_base.specs.Parents.{securities_of_award};
ghost use Rattle.office_base.specs.Shelves.{LooksUp};
ghost use Rattle.office_base.specs.Tables.{envelopes_of_lot, securities_of_lot};
ghost use Rattle.office_plans.specs.OwnTenders.{own_envelopes};

use office_base::records::{AwardRow, EnvelopeRow, SecurityRow};
use office_base::rows::Rows;
use office_base::shelf::{Lookups, ShelfFault};
use office_commands::command::Caller;
use office_values::id::Id;
use std::alloc::Global;

/// The tenders of a lot, in the order of their receipts.
pub fn envelopes_of_lot<H: Lookups>(
    shelf: &mut H,
    notice: &Id,
    lot: &Id,
) -> Result<Rows<EnvelopeRow>, ShelfFault>
    ensures { LooksUp H.meaning shelf.old shelf.new result (λ s rows. rows ≡ envelopes_of_lot notice.now lot.now s) }
{
    Ok(Rows::from_vec(shelf.list_envelopes_of_lot(notice, lot)?))
}

/// The caller's own tenders of a lot, in the order of their receipts. The clerk and the public have none. No other tender is looked up.
pub fn own_envelopes<H: Lookups>(
    alloc: Global,
    shelf: &mut H,
    caller: &Caller,
    notice: &Id,
    lot: &Id,
) -> Result<Rows<EnvelopeRow>, ShelfFault>
    ensures { LooksUp H.meaning shelf.old shelf.new result (λ s rows. rows ≡ own_envelopes caller.now notice.now lot.now s) }
{
    match caller {
        Caller::Public => Ok(Rows::from_vec(Vec::new(alloc))),
        Caller::Clerk => Ok(Rows::from_vec(Vec::new(alloc))),
        Caller::Tenderer(id) => Ok(Rows::from_vec(shelf.list_envelopes_of_tenderer(
            notice, lot, id,
        )?)),
    }
}

/// The securities of a lot, in the order of their numbers.
pub fn securities_of_lot<H: Lookups>(
    shelf: &mut H,
    notice: &Id,
    lot: &Id,
) -> Result<Rows<SecurityRow>, ShelfFault>
    ensures { LooksUp H.meaning shelf.old shelf.new result (λ s rows. rows ≡ securities_of_lot notice.now lot.now s) }
{
    Ok(Rows::from_vec(shelf.list_securities_of_lot(notice, lot)?))
}

/// The securities of an award's lot, or none if the award doesn't exist.
pub fn securities_of_award<H: Lookups>(
    alloc: Global,
    shelf: &mut H,
    award: &Option<AwardRow>,
) -> Result<Rows<SecurityRow>, ShelfFault>
    ensures { LooksUp H.meaning shelf.old shelf.new result (λ s rows. rows ≡ securities_of_award award.now s) }
{
    match award {
        Some(row) => securities_of_lot(shelf, &row.notice, &row.lot),
        None => Ok(Rows::from_vec(Vec::new(alloc))),
    }
}
