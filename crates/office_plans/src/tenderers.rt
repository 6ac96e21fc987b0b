//! The tenderers of the sealed tenders of a notice. Each is looked up once.
ghost use Rattle.std.specs.Prelude.{◌≡◌, ℕ, List, IfErr, IfOk, OnOk, filter};
ghost use Rattle.office_base.specs.Shelves.{Looks};
ghost use Rattle.office_plans.specs.Opening.{tenders_read};
ghost use Rattle.office_plans.specs.Tenderers.{with_tenderer};
ghost use Rattle.office_publications.specs.NoticeEvents.{has_sealed};
ghost use Rattle.office_base.specs.Tables.{envelopes_of_notice};
ghost use Rattle.office_values.specs.declared.refusal.Refusal.TheVariants.{Unavailable};

use crate::looked_up::put_found;
use keyed_table::table::Table;
use office_base::laws::looks_follow;
use office_base::records::TendererRow;
use office_base::rows::Rows;
use office_base::shelf::{Lookups, ShelfFault};
use office_values::id::Id;
use office_values::refusal::Refusal;
use std::alloc::Global;
use tender_core::opening::OpenedTender;

// Loads the tenderer of this identifier, unless it is already loaded.
fn load_tenderer<H: Lookups>(
    shelf: &mut H,
    tenderers: &mut Table<TendererRow>,
    tenderer: &Id,
) -> Result<(), ShelfFault>
    ensures { Looks H.meaning shelf.old shelf.new (λ s. OnOk result (tenderers.new ≡ with_tenderer s tenderers.old tenderer.now)) }
{
    if tenderers.get(tenderer).is_some() {
        return Ok(());
    }
    let found = shelf.get_tenderer(tenderer)?;
    put_found(tenderers, found)
}

/// Looks up the tenderers of these tenders, which are the sealed tenders of a notice. Each tenderer comes once, in the order of the identifiers.
pub(crate) fn load_tenderers<H: Lookups>(
    alloc: Global,
    shelf: &mut H,
    tenders: &[OpenedTender],
) -> Result<Rows<TendererRow>, Refusal>
    ensures looks { Looks H.meaning shelf.old shelf.new (λ s. IfOk result (λ rows. (notice : List ℕ) → tenders.now ≡ tenders_read notice s
        → rows ≡ filter (has_sealed (envelopes_of_notice notice s)) s.tenderers)) }
    ensures none { IfErr result (λ why. why ≡ Unavailable) }
{
    looks_follow::<H>();
    let mut tenderers = Table::new(alloc);
    for tender in tenders {
        load_tenderer(shelf, &mut tenderers, &tender.envelope.tenderer)?;
    }
    Ok(Rows::from_vec(tenderers.copy_all(alloc)?))
}
