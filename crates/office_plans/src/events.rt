//! Parts of the events that commands publish.
ghost use Rattle.std.specs.Prelude.{◌≡◌, None, IfErr, IfNone, IfOk, IfSome, filter, map};
ghost use Rattle.ocds_release.specs.TenderStatuses.{state_with, tender_status_of};
ghost use Rattle.office_base.specs.Tables.{award_key};
ghost use Rattle.office_publications.specs.AwardEvents.{name_in};
ghost use Rattle.office_publications.specs.NoticeEvents.{lot_name};
ghost use Rattle.office_values.specs.declared.refusal.Refusal.TheVariants.{Unavailable};
ghost use Rattle.tender_core.specs.Rules.Cancel.{is_ended_award, is_open_lot};

use ocds_release::borrowed::BorrowedLine;
use ocds_release::event::Party;
use ocds_release::tender_status::{TenderStatus, states_with, status_of};
use office_base::records::{AwardRow, LotRow, LotState, TendererRow};
use office_values::given::GivenNumber;
use office_values::id::Id;
use office_values::refusal::Refusal;
use std::alloc::{AllocError, Global};
use tender_core::ended::{is_ended_award, is_open};

/// The tenderer of this identifier, with the name that its row has. None exactly if there is no row, which can't happen in a reached office. Takes no memory.
pub(crate) fn party_of<'a>(tenderer: Id, row: &'a Option<TendererRow>) -> Option<Party<'a>>
    ensures found { IfSome result (λ party. party ≡ record { id = tenderer; name = name_in row.now }) }
    ensures none { IfNone result (row.now ≡ None) }
{
    match row {
        Some(found) => Some(Party {
            id: tenderer,
            name: BorrowedLine::of(&found.name),
        }),
        None => None,
    }
}

/// The status of a notice's tender after one of its lots gets this state.
pub(crate) fn status_with(
    alloc: Global,
    lots: &[LotRow],
    lot: Id,
    state: LotState,
) -> Result<TenderStatus, Refusal>
    ensures status { IfOk result (λ status. status ≡ tender_status_of (map (state_with lot state) lots.now)) }
    ensures none { IfErr result (λ why. why ≡ Unavailable) }
{
    let states = states_with(alloc, lots, lot, state)?;
    Ok(status_of(states.as_slice()))
}

/// The identifiers of the lots that are open.
pub(crate) fn open_lots(alloc: Global, lots: &[LotRow]) -> Result<Vec<Id>, AllocError>
    ensures { IfOk result (λ ids. ids.items ≡ map lot_name (filter is_open_lot lots.now)) }
{
    let mut ids = Vec::new(alloc);
    for lot in lots {
        if is_open(lot) {
            ids.push(lot.lot)?;
        }
    }
    Ok(ids)
}

/// The numbers of the active awards of the open lots.
pub(crate) fn ended_awards(
    alloc: Global,
    lots: &[LotRow],
    awards: &[AwardRow],
) -> Result<Vec<GivenNumber>, AllocError>
    ensures { IfOk result (λ numbers. numbers.items ≡ map award_key (filter (is_ended_award lots.now) awards.now)) }
{
    let mut numbers = Vec::new(alloc);
    for award in awards {
        if is_ended_award(lots, award) {
            numbers.push(award.award)?;
        }
    }
    Ok(numbers)
}
