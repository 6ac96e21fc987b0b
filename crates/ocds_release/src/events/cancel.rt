//! The release when the remaining lots of a notice are cancelled.
ghost use Rattle.std.specs.Prelude.{◌≡◌, IfOk, map};
ghost use Rattle.serde_json.specs.View.{view};
ghost use Rattle.ocds_release.specs.Awards.{ended_award};
ghost use Rattle.ocds_release.specs.Tenders.{lot_in_status};
ghost use Rattle.ocds_release.specs.Inside.Built.{Says};
ghost use Rattle.ocds_release.specs.Events.Cancel.{cancel_body, cancelled_lot_data, cancelled_tender, cancel_tag};

use crate::amendment::amendment_of;
use crate::event::NoticeCancelled;
use crate::events::fail::ended_award_of;
use crate::object::{Object, list_of_one};
use crate::part::{Part, value_of};
use crate::tender::{lot_in_status, tender_with_lots};
use office_base::counts::Sequence;
use office_values::given::GivenNumber;
use office_values::id::Id;
use office_values::moment::Moment;
use serde_json::{Value, json};
use std::alloc::{AllocError, Global};

fn lots_of(alloc: Global, lots: &[Id]) -> Result<Vec<Value>, AllocError>
    ensures { IfOk result (λ list. map view list.items ≡ map cancelled_lot_data lots.now) }
{
    let mut list = Vec::new(alloc);
    for lot in lots {
        list.push(lot_in_status(alloc, *lot, "cancelled")?)?;
    }
    Ok(list)
}

fn awards_of(alloc: Global, awards: &[GivenNumber]) -> Result<Vec<Value>, AllocError>
    ensures { IfOk result (λ list. map view list.items ≡ map ended_award awards.now) }
{
    let mut list = Vec::new(alloc);
    for award in awards {
        list.push(ended_award_of(alloc, *award)?)?;
    }
    Ok(list)
}

// The tender with its status, the lots that were cancelled, and the amendment.
fn tender_of<'a>(
    alloc: Global,
    seq: Sequence,
    t: Moment,
    event: &'a NoticeCancelled<'a>,
) -> Result<Value, AllocError>
    ensures { IfOk result (λ v. view v ≡ cancelled_tender seq t event.now) }
{
    let id = value_of(alloc, &Part::FourDigits(seq.get()))?;
    let description = Value::try_from_str(alloc, "Cancelled")?;
    let amendment = amendment_of(alloc, id, t, event.rationale.as_str(), description)?;
    let lots = Value::Array(lots_of(alloc, event.lots.as_slice())?);
    let mut tender = tender_with_lots(alloc, event.notice, event.status, lots)?;
    tender.put_value(alloc, "amendments", list_of_one(alloc, amendment)?)?;
    Ok(tender.into_value())
}

// The tags of a cancellation; there is one more tag if an award ends.
fn tag_of(alloc: Global, awards: &[GivenNumber]) -> Result<Value, AllocError>
    ensures { IfOk result (λ v. view v ≡ cancel_tag awards.now) }
{
    if awards.is_empty() {
        json!(in alloc; ["tenderCancellation"])
    } else {
        json!(in alloc; ["tenderCancellation", "awardCancellation"])
    }
}

/// The release when the remaining lots of a notice are cancelled.
pub(crate) fn cancel<'a>(
    alloc: Global,
    release: Object,
    seq: Sequence,
    t: Moment,
    event: &'a NoticeCancelled<'a>,
) -> Result<Value, AllocError>
    ensures { IfOk result (Says release (cancel_body seq t event.now)) }
{
    let tender = tender_of(alloc, seq, t, event)?;
    let ended = event.awards.as_slice();
    let awards = Value::Array(awards_of(alloc, ended)?);
    let mut release = release;
    release.put_value(alloc, "tag", tag_of(alloc, ended)?)?;
    release.put_value(alloc, "tender", tender)?;
    release.put_value(alloc, "awards", awards)?;
    Ok(release.into_value())
}
